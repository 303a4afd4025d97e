//! Types of columns, and units of time.
ghost use Rattle.std.specs.Prelude.{◌≡◌, ◌≢◌, ◌↔◌, ◌&&◌, ℤ, pos, false, true, IsTrue, MatchOption, IfOk, IfErr};
ghost use Rattle.std.specs.List.{fold};
ghost use Rattle.plan_types.specs.Errors.{no_memory};
ghost use Rattle.plan_types.specs.Types.{ListType, Untyped, is_bare, fields_in, fields_of, fields_writes, are_known, same_fields, same_type, coarser, per_day, ty, is_counted, is_integer, is_known, is_ord, is_signed_integer, is_temporal, is_unsigned_integer, type_code, type_writes, unit_rank, width_of};
ghost use Rattle.plan_types.specs.Values.{in_range};

use crate::error::PlanError;
use crate::field::Field;
use crate::whole_number::WholeNumber;
use std::alloc::{AllocError, Global};
use std::hash::{Hash, Hasher};

/// How a cast treats a value that has no place in its target: of a list or a struct each item or part for itself.
#[derive(Clone, Copy, PartialEq, Eq, Hash)]
pub enum CastOptions {
    /// The value is a data fault, and so is the list or the struct that it is in.
    Strict,
    /// The value becomes null.
    NonStrict,
    /// A number of an integer type keeps its low bits in another one. Any other value becomes null.
    Overflowing,
}

impl CastOptions {
    pub fn strict(self) -> bool
        ensures { IsTrue result ↔ (self ≡ CastOptions.Strict) }
    {
        matches!(self, CastOptions::Strict)
    }
}

/// The unit in which moments and spans are counted.
#[derive(Clone, Copy, PartialEq, Eq, Hash)]
pub enum TimeUnit {
    Nanoseconds,
    Microseconds,
    Milliseconds,
}

impl TimeUnit {
    /// How many of the unit a day has.
    pub(crate) fn per_day(self) -> i128
        ensures { result ≡ pos (per_day self) }
    {
        match self {
            TimeUnit::Nanoseconds => 86_400_000_000_000,
            TimeUnit::Microseconds => 86_400_000_000,
            TimeUnit::Milliseconds => 86_400_000,
        }
    }

    /// The unit's place among the units, from the finest to the coarsest.
    pub(crate) fn rank(self) -> u32
        ensures { result ≡ unit_rank self }
    {
        match self {
            TimeUnit::Nanoseconds => 0,
            TimeUnit::Microseconds => 1,
            TimeUnit::Milliseconds => 2,
        }
    }
}

/// The coarser of two units.
pub fn get_time_units(left: TimeUnit, right: TimeUnit) -> TimeUnit
    ensures { result ≡ coarser left right }
{
    if left.rank() < right.rank() {
        right
    } else {
        left
    }
}

/// A type that isn't known yet.
#[derive(Clone, Copy, PartialEq, Eq, Hash)]
pub enum UnknownKind {
    /// That of a whole number which is written without a type.
    Int(WholeNumber),
}

/// The fields of a type of structs, in order. Names may stand twice.
#[derive(Drop)]
#[cycle(data_type)]
pub struct Fields {
    pub items: Vec<Field>,
}

/// The type of a column, or of a number without one. Contracts see it as a `Ty`. Two types are equal where these are,
/// so moments and spans of other units are of other types, and structs of other names or another order of fields too.
#[derive(Drop)]
#[cycle(data_type)]
pub enum DataType {
    /// That of a column that has no value but null.
    Null,
    Boolean,
    Int8,
    Int16,
    Int32,
    Int64,
    UInt8,
    UInt16,
    UInt32,
    UInt64,
    String,
    /// Days since 1970-01-01, in the range of Int32.
    Date,
    /// Nanoseconds since midnight, before the next one.
    Time,
    /// Units since the start of 1970-01-01, in the range of Int64.
    Datetime(TimeUnit),
    /// A span of time in units, in the range of Int64.
    Duration(TimeUnit),
    /// Lists of values of the type.
    List(Box<DataType>),
    /// A value of each field's type.
    Struct(Fields),
    /// The type of an untyped literal. No column has it.
    Unknown(UnknownKind),
}

impl DataType {
    pub fn is_signed_integer(&self) -> bool
        ensures { result ≡ is_signed_integer (ty self.now) }
    {
        matches!(
            self,
            DataType::Int8 | DataType::Int16 | DataType::Int32 | DataType::Int64
        )
    }

    pub fn is_unsigned_integer(&self) -> bool
        ensures { result ≡ is_unsigned_integer (ty self.now) }
    {
        matches!(
            self,
            DataType::UInt8 | DataType::UInt16 | DataType::UInt32 | DataType::UInt64
        )
    }

    pub fn is_integer(&self) -> bool
        ensures { result ≡ is_integer (ty self.now) }
    {
        matches!(
            self,
            DataType::Int8
                | DataType::Int16
                | DataType::Int32
                | DataType::Int64
                | DataType::UInt8
                | DataType::UInt16
                | DataType::UInt32
                | DataType::UInt64
        )
    }

    /// Whether it is a type of days, times of a day, moments or spans.
    pub fn is_temporal(&self) -> bool
        ensures { result ≡ is_temporal (ty self.now) }
    {
        matches!(
            self,
            DataType::Date | DataType::Time | DataType::Datetime(_) | DataType::Duration(_)
        )
    }

    /// Whether values of the type that aren't null are numbers: it is a type of integers or of time.
    pub fn is_counted(&self) -> bool
        ensures { result ≡ is_counted (ty self.now) }
    {
        self.is_integer() || self.is_temporal()
    }

    /// Whether values of the type that aren't null are in an order: those of each type of columns are, but that of null,
    /// lists and structs.
    pub fn is_ord(&self) -> bool
        ensures { result ≡ is_ord (ty self.now) }
    {
        !matches!(
            self,
            DataType::Null | DataType::List(_) | DataType::Struct(_) | DataType::Unknown(_)
        )
    }

    /// Whether it is the type of a column: no number's own type stands in it, at any depth.
    #[cycle(known_types)]
    #[inline(always)]
    pub fn is_known(&self) -> bool
        ensures { result ≡ is_known (ty self.now) }
    {
        match self {
            DataType::List(_) | DataType::Struct(_) | DataType::Unknown(_) =>
                self.is_known_within(),
            _ => true,
        }
    }

    // Whether it is the type of a column, out of line.
    #[cycle(known_types)]
    #[tactic(auto, using(crate::proofs::FieldLemmas::listed_fields))]
    fn is_known_within(&self) -> bool
        ensures { result ≡ is_known (ty self.now) }
    {
        match self {
            DataType::List(item) => item.is_known(),
            DataType::Struct(fields) => are_known(fields.items.as_slice()),
            DataType::Unknown(_) => false,
            _ => true,
        }
    }

    /// The number that is written without a type, where the type is that number's.
    pub fn untyped_number(&self) -> Option<i128>
        ensures { MatchOption result ((number : ℤ) → ty self.now ≢ Untyped number) (λ number. ty self.now ≡ Untyped number) }
    {
        match self {
            DataType::Unknown(UnknownKind::Int(number)) => Some(number.get()),
            _ => None,
        }
    }

    /// Whether the type's range has the number: only integers and times have one.
    pub fn has_number(&self, number: i128) -> bool
        ensures { result ≡ in_range (ty self.now) number }
    {
        match self {
            DataType::Null
            | DataType::Boolean
            | DataType::String
            | DataType::List(_)
            | DataType::Struct(_) => false,
            DataType::Int8 => i8::try_from(number).is_ok(),
            DataType::Int16 => i16::try_from(number).is_ok(),
            DataType::Int32 | DataType::Date => i32::try_from(number).is_ok(),
            DataType::Int64 | DataType::Datetime(_) | DataType::Duration(_) => {
                i64::try_from(number).is_ok()
            }
            DataType::UInt8 => u8::try_from(number).is_ok(),
            DataType::UInt16 => u16::try_from(number).is_ok(),
            DataType::UInt32 => u32::try_from(number).is_ok(),
            DataType::UInt64 => u64::try_from(number).is_ok(),
            DataType::Time => number >= 0 && number < TimeUnit::Nanoseconds.per_day(),
            DataType::Unknown(UnknownKind::Int(own)) => own.get() == number,
        }
    }

    /// How many bits a number of an integer type has, and 0 of another type.
    pub(crate) fn width(&self) -> u32
        ensures { result ≡ width_of (ty self.now) }
    {
        match self {
            DataType::Int8 | DataType::UInt8 => 8,
            DataType::Int16 | DataType::UInt16 => 16,
            DataType::Int32 | DataType::UInt32 => 32,
            DataType::Int64 | DataType::UInt64 => 64,
            _other => 0,
        }
    }

    // A number for each kind of type.
    fn code(&self) -> u32
        ensures { result ≡ type_code (ty self.now) }
    {
        match self {
            DataType::Null => 0,
            DataType::Boolean => 1,
            DataType::String => 2,
            DataType::Date => 3,
            DataType::Time => 4,
            DataType::Datetime(unit) => 5 + unit.rank(),
            DataType::Duration(unit) => 9 + unit.rank(),
            DataType::Unknown(_) => 12,
            DataType::List(_) => 13,
            DataType::Struct(_) => 14,
            DataType::Int8 | DataType::Int16 | DataType::Int32 | DataType::Int64 => self.width(),
            _unsigned => 128 + self.width(),
        }
    }

    // Feeds the type's number to the hasher, and then its items' type or its fields, or the number that has no type.
    #[cycle(type_hashes)]
    fn feed<H: Hasher>(&self, state: &mut H)
        ensures { state.new ≡ fold H.write state.old (type_writes (ty self.now)) }
    {
        self.code().hash(state);
        match self {
            DataType::List(item) => item.feed(state),
            DataType::Struct(fields) => feed_fields(fields.items.as_slice(), state),
            DataType::Unknown(UnknownKind::Int(number)) => number.get().hash(state),
            _ => {}
        }
    }

    // Whether both are integer types of one sign and width.
    fn is_same_integer(&self, other: &DataType) -> bool
        ensures { result ≡ (is_integer (ty self.now) && same_type (ty self.now) (ty other.now)) }
    {
        self.is_integer()
            && other.is_integer()
            && self.is_signed_integer() == other.is_signed_integer()
            && self.width() == other.width()
    }

    /// Whether both are one type: structs by the names and types of their fields, in order. Of two integers it is told at
    /// once.
    #[cycle(same_types)]
    #[inline(always)]
    pub fn is_same(&self, other: &DataType) -> bool
        ensures { result ≡ same_type (ty self.now) (ty other.now) }
    {
        match (self, other) {
            (DataType::Int8, DataType::Int8)
            | (DataType::Int16, DataType::Int16)
            | (DataType::Int32, DataType::Int32)
            | (DataType::Int64, DataType::Int64)
            | (DataType::UInt8, DataType::UInt8)
            | (DataType::UInt16, DataType::UInt16)
            | (DataType::UInt32, DataType::UInt32)
            | (DataType::UInt64, DataType::UInt64) => true,
            (
                DataType::Int8
                | DataType::Int16
                | DataType::Int32
                | DataType::Int64
                | DataType::UInt8
                | DataType::UInt16
                | DataType::UInt32
                | DataType::UInt64,
                DataType::Int8
                | DataType::Int16
                | DataType::Int32
                | DataType::Int64
                | DataType::UInt8
                | DataType::UInt16
                | DataType::UInt32
                | DataType::UInt64,
            ) => false,
            _ => self.is_same_other(other),
        }
    }

    // Whether two types of any kinds are one.
    #[cycle(same_types)]
    #[tactic(auto, using(crate::proofs::FieldLemmas::listed_fields))]
    fn is_same_other(&self, other: &DataType) -> bool
        ensures { result ≡ same_type (ty self.now) (ty other.now) }
    {
        match (self, other) {
            (DataType::Null, DataType::Null)
            | (DataType::Boolean, DataType::Boolean)
            | (DataType::String, DataType::String)
            | (DataType::Date, DataType::Date)
            | (DataType::Time, DataType::Time) => true,
            (DataType::Datetime(unit), DataType::Datetime(own))
            | (DataType::Duration(unit), DataType::Duration(own)) => unit == own,
            (DataType::List(item), DataType::List(own)) => item.is_same(own),
            (DataType::Struct(fields), DataType::Struct(own)) => {
                same_fields(fields.items.as_slice(), own.items.as_slice())
            }
            (
                DataType::Unknown(UnknownKind::Int(number)),
                DataType::Unknown(UnknownKind::Int(own)),
            ) => number.get() == own.get(),
            _ => self.is_same_integer(other),
        }
    }

    /// A copy. That of a type without parts is made at once, and takes no memory.
    #[cycle(type_copies)]
    #[inline(always)]
    pub fn try_clone(&self, alloc: Global) -> Result<DataType, PlanError>
        ensures ok { IfOk result (λ copy. ty copy ≡ ty self.now) }
        ensures err { IfErr result (λ error. error ≡ no_memory) }
    {
        match self.bare_copy() {
            Some(copy) => Ok(copy),
            None => self.copy_with_parts(alloc),
        }
    }

    // A copy of a type of lists or of structs.
    #[cycle(type_copies)]
    fn copy_with_parts(&self, alloc: Global) -> Result<DataType, PlanError>
        requires { is_bare (ty self.now) ≡ false }
        ensures ok { IfOk result (λ copy. ty copy ≡ ty self.now) }
        ensures err { IfErr result (λ error. error ≡ no_memory) }
    {
        match self {
            DataType::List(item) => {
                let item = item.try_clone(alloc)?;
                let item = Box::new(alloc, item)?;
                Ok(DataType::List(item))
            }
            DataType::Struct(fields) => {
                let fields = fields.try_clone(alloc)?;
                Ok(DataType::Struct(fields))
            }
            _bare => unreachable!(),
        }
    }

    // A copy of a type of lists or of structs, in the memory that its own parts' allocator gives.
    fn clone_with_parts(&self) -> Result<DataType, AllocError>
        requires { is_bare (ty self.now) ≡ false }
        ensures { IfOk result (λ copy. ty copy ≡ ty self.now) }
    {
        let alloc = match self {
            DataType::List(item) => *Box::allocator(item),
            DataType::Struct(fields) => *fields.items.allocator(),
            _bare => unreachable!(),
        };
        match self.copy_with_parts(alloc) {
            Ok(copy) => Ok(copy),
            Err(_) => Err(AllocError),
        }
    }

    /// The type of lists of its values.
    pub fn implode(self, alloc: Global) -> Result<DataType, PlanError>
        ensures ok { IfOk result (λ list. ty list ≡ ListType (ty self)) }
        ensures err { IfErr result (λ error. error ≡ no_memory) }
    {
        let item = Box::new(alloc, self)?;
        Ok(DataType::List(item))
    }

    /// A copy of a type without parts.
    #[inline(always)]
    pub(crate) fn bare_copy(&self) -> Option<DataType>
        ensures { MatchOption result (is_bare (ty self.now) ≡ false) (λ copy. ty copy ≡ ty self.now) }
    {
        Some(match self {
            DataType::Null => DataType::Null,
            DataType::Boolean => DataType::Boolean,
            DataType::Int8 => DataType::Int8,
            DataType::Int16 => DataType::Int16,
            DataType::Int32 => DataType::Int32,
            DataType::Int64 => DataType::Int64,
            DataType::UInt8 => DataType::UInt8,
            DataType::UInt16 => DataType::UInt16,
            DataType::UInt32 => DataType::UInt32,
            DataType::UInt64 => DataType::UInt64,
            DataType::String => DataType::String,
            DataType::Date => DataType::Date,
            DataType::Time => DataType::Time,
            DataType::Datetime(unit) => DataType::Datetime(*unit),
            DataType::Duration(unit) => DataType::Duration(*unit),
            DataType::Unknown(kind) => DataType::Unknown(*kind),
            DataType::List(_) | DataType::Struct(_) => return None,
        })
    }
}

impl Fields {
    ghost use Rattle.plan_types.specs.Types.{fields_of};

    #[cycle(type_copies)]
    #[tactic(auto, using(crate::proofs::FieldLemmas::listed_fields))]
    pub fn try_clone(&self, alloc: Global) -> Result<Fields, PlanError>
        ensures ok { IfOk result (λ copy. fields_of copy ≡ fields_of self.now) }
        ensures err { IfErr result (λ error. error ≡ no_memory) }
    {
        let mut items = Vec::new(alloc);
        for field in self.items.as_slice() {
            let copy = field.try_clone(alloc)?;
            items.push(copy)?;
        }
        Ok(Fields { items })
    }
}

impl Clone for DataType {
    ghost use Rattle.plan_types.specs.Types.{ty};

    ghost is_clone = { λ dtype copy. ty copy ≡ ty dtype };

    #[inline(always)]
    fn clone(&self) -> Result<DataType, AllocError> {
        match self.bare_copy() {
            Some(copy) => Ok(copy),
            None => self.clone_with_parts(),
        }
    }
}

impl PartialEq for DataType {
    ghost use Rattle.std.specs.Cmp.{partial_equiv_from_equiv};
    ghost use Rattle.plan_types.specs.Types.{ty, same_type};
    ghost use Rattle.plan_types.specs.TypeLaws.{same_type_is_equivalence};

    ghost eq = { λ a b. same_type (ty a) (ty b) };

    ghost laws = { partial_equiv_from_equiv same_type_is_equivalence };

    fn eq(&self, other: &DataType) -> bool {
        self.is_same(other)
    }
}

// Whether each field's type is one of columns.
#[cycle(known_types)]
fn are_known(fields: &[Field]) -> bool
    ensures { result ≡ are_known (fields_in fields.now) }
{
    for field in fields {
        if !field.dtype.is_known() {
            return false;
        }
    }
    true
}

// Feeds how many fields there are to the hasher, and then each one's name and type, in order.
#[cycle(type_hashes)]
fn feed_fields<H: Hasher>(fields: &[Field], state: &mut H)
    ensures { state.new ≡ fold H.write state.old (fields_writes (fields_in fields.now)) }
{
    fields.len().hash(state);
    for field in fields {
        field.name.hash(state);
        field.dtype.feed(state);
    }
}

// Whether the fields have the same names and types, in the same order.
#[cycle(same_types)]
fn same_fields(left: &[Field], right: &[Field]) -> bool
    ensures { result ≡ same_fields (fields_in left.now) (fields_in right.now) }
{
    if left.len() != right.len() {
        return false;
    }
    for index in 0..left.len() {
        if !left[index].is_same(&right[index]) {
            return false;
        }
    }
    true
}

impl Eq for DataType {
    ghost use Rattle.plan_types.specs.TypeLaws.{same_type_is_equivalence};

    ghost laws = { same_type_is_equivalence };
}

impl Hash for DataType {
    ghost use Rattle.plan_types.specs.Types.{ty, type_writes};
    ghost use Rattle.plan_types.specs.TypeLaws.{same_hash};

    ghost hash_input = { λ a. type_writes (ty a) };

    ghost respects_eq = { same_hash };

    fn hash<H: Hasher>(&self, state: &mut H) {
        self.feed(state);
    }
}
