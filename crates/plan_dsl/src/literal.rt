//! Literals: values that are written in an expression.
ghost use Rattle.std.specs.Prelude.{◌≡◌, ◌≢◌, ◌&&◌, ℤ, is_some, MatchOption, IfSome, IfOk, IfErr};
ghost use Rattle.plan_dsl.specs.Literals.{is_literal, literal_op, literal_type, literal_value, settled_op};
ghost use Rattle.plan_dsl.specs.Ops.{LiteralOp};
ghost use Rattle.plan_dsl.specs.SameExpressions.{same_literal};
ghost use Rattle.plan_types.specs.Errors.{no_memory};
ghost use Rattle.plan_types.specs.Types.{TimeType, ty, is_counted};
ghost use Rattle.plan_types.specs.Values.{IntValue, in_range, same_value};

use plan_types::common_type::materialize_dyn_int;
use plan_types::dtype::{DataType, TimeUnit, UnknownKind};
use plan_types::error::PlanError;
use plan_types::text::PlSmallStr;
use plan_types::whole_number::WholeNumber;
use std::alloc::Global;
use std::hash::{Hash, Hasher};

/// A value that is written in an expression. Contracts see its type and value as an op. Two literals are equal where
/// these are.
#[derive(Drop)]
pub enum LiteralValue {
    /// No value. It is of the type of nulls.
    Null,
    Boolean(bool),
    String(PlSmallStr),
    /// A whole number without a type: it gets one from what stands beside it.
    Int(i128),
    Int8(i8),
    Int16(i16),
    Int32(i32),
    Int64(i64),
    UInt8(u8),
    UInt16(u16),
    UInt32(u32),
    UInt64(u64),
    /// Days since 1970-01-01.
    Date(i32),
    /// Nanoseconds since midnight, fewer than a day has.
    Time(i64),
    /// Units of time since 1970-01-01.
    DateTime(i64, TimeUnit),
    Duration(i64, TimeUnit),
}

// The literal of that kind and number, where the kind's numbers have it.
macro_rules! literal_within {
    ($number:expr, $numbers:ident, $kind:ident $(, $unit:expr)?) => {
        match $numbers::try_from($number) {
            Ok(number) => Some(LiteralValue::$kind(number $(, $unit)?)),
            Err(_) => None,
        }
    };
}

impl LiteralValue {
    /// The literal's type: a whole number without one has its own, `Unknown`.
    pub fn get_datatype(&self) -> DataType
        ensures { ty result ≡ literal_type self.now }
    {
        match self {
            LiteralValue::Null => DataType::Null,
            LiteralValue::Boolean(_) => DataType::Boolean,
            LiteralValue::String(_) => DataType::String,
            LiteralValue::Int(number) => DataType::Unknown(UnknownKind::Int(WholeNumber::new(
                *number,
            ))),
            LiteralValue::Int8(_) => DataType::Int8,
            LiteralValue::Int16(_) => DataType::Int16,
            LiteralValue::Int32(_) => DataType::Int32,
            LiteralValue::Int64(_) => DataType::Int64,
            LiteralValue::UInt8(_) => DataType::UInt8,
            LiteralValue::UInt16(_) => DataType::UInt16,
            LiteralValue::UInt32(_) => DataType::UInt32,
            LiteralValue::UInt64(_) => DataType::UInt64,
            LiteralValue::Date(_) => DataType::Date,
            LiteralValue::Time(_) => DataType::Time,
            LiteralValue::DateTime(_, unit) => DataType::Datetime(*unit),
            LiteralValue::Duration(_, unit) => DataType::Duration(*unit),
        }
    }

    /// Whether its type has the value: a time of day is within the day, and a whole number without a type is in the
    /// range of one that it may have alone.
    pub fn is_in_range(&self) -> bool
        ensures { result ≡ is_literal (literal_type self.now) (literal_value self.now) }
    {
        if let LiteralValue::Int(number) = self {
            return materialize_dyn_int(*number).is_some();
        }
        match self.number() {
            Some(number) => self.get_datatype().has_number(number),
            None => true,
        }
    }

    /// The literal of that type and number, where the type is one of integers or of time whose range has the number.
    pub fn of_number(dtype: &DataType, number: i128) -> Option<LiteralValue>
        ensures has { is_some result ≡ (is_counted (ty dtype.now) && in_range (ty dtype.now) number) }
        ensures literal { IfSome result (λ value. literal_op value ≡ LiteralOp (ty dtype.now) (IntValue number)) }
    {
        match dtype {
            DataType::Int8 => literal_within!(number, i8, Int8),
            DataType::Int16 => literal_within!(number, i16, Int16),
            DataType::Int32 => literal_within!(number, i32, Int32),
            DataType::Int64 => literal_within!(number, i64, Int64),
            DataType::UInt8 => literal_within!(number, u8, UInt8),
            DataType::UInt16 => literal_within!(number, u16, UInt16),
            DataType::UInt32 => literal_within!(number, u32, UInt32),
            DataType::UInt64 => literal_within!(number, u64, UInt64),
            DataType::Date => literal_within!(number, i32, Date),
            DataType::Time => time_of(number),
            DataType::Datetime(unit) => literal_within!(number, i64, DateTime, *unit),
            DataType::Duration(unit) => literal_within!(number, i64, Duration, *unit),
            DataType::Null
            | DataType::Boolean
            | DataType::String
            | DataType::List(_)
            | DataType::Struct(_)
            | DataType::Unknown(_) => None,
        }
    }

    /// Gives a whole number without a type the one that it has alone, if there is one.
    pub fn settle(&mut self)
        ensures { literal_op self.new ≡ settled_op (literal_op self.old) }
    {
        let LiteralValue::Int(number) = self else {
            return;
        };
        let number = *number;
        let Some(alone) = materialize_dyn_int(number) else {
            return;
        };
        match LiteralValue::of_number(&alone, number) {
            Some(typed) => *self = typed,
            None => unreachable!(),
        }
    }

    // The number of a literal of a type of numbers or of time.
    fn number(&self) -> Option<i128>
        ensures { MatchOption result ((number : ℤ) → literal_value self.now ≢ IntValue number) (λ number. literal_value self.now ≡ IntValue number) }
    {
        Some(match self {
            LiteralValue::Int(number) => *number,
            LiteralValue::Int8(number) => i128::from(*number),
            LiteralValue::Int16(number) => i128::from(*number),
            LiteralValue::Int32(number) => i128::from(*number),
            LiteralValue::Int64(number) => i128::from(*number),
            LiteralValue::UInt8(number) => i128::from(*number),
            LiteralValue::UInt16(number) => i128::from(*number),
            LiteralValue::UInt32(number) => i128::from(*number),
            LiteralValue::UInt64(number) => i128::from(*number),
            LiteralValue::Date(days) => i128::from(*days),
            LiteralValue::Time(nanoseconds) => i128::from(*nanoseconds),
            LiteralValue::DateTime(count, _) => i128::from(*count),
            LiteralValue::Duration(count, _) => i128::from(*count),
            LiteralValue::Null | LiteralValue::Boolean(_) | LiteralValue::String(_) => return None,
        })
    }

    // Whether both have the same value, of whatever types.
    fn is_same_value(&self, other: &LiteralValue) -> bool
        ensures { result ≡ same_value (literal_value self.now) (literal_value other.now) }
    {
        match (self, other) {
            (LiteralValue::Null, LiteralValue::Null) => true,
            (LiteralValue::Boolean(truth), LiteralValue::Boolean(own)) => *truth == *own,
            (LiteralValue::String(text), LiteralValue::String(own)) => *text == *own,
            _ => match (self.number(), other.number()) {
                (Some(number), Some(own)) => number == own,
                _ => false,
            },
        }
    }

    // Whether both are of one type and have the same value.
    pub(crate) fn is_same(&self, other: &LiteralValue) -> bool
        ensures { result ≡ same_literal self.now other.now }
    {
        self.get_datatype() == other.get_datatype() && self.is_same_value(other)
    }

    pub fn try_clone(&self, alloc: Global) -> Result<LiteralValue, PlanError>
        ensures ok { IfOk result (λ copy. literal_op copy ≡ literal_op self.now) }
        ensures err { IfErr result (λ error. error ≡ no_memory) }
    {
        Ok(match self {
            LiteralValue::Null => LiteralValue::Null,
            LiteralValue::Boolean(truth) => LiteralValue::Boolean(*truth),
            LiteralValue::String(text) => LiteralValue::String(text.try_clone(alloc)?),
            LiteralValue::Int(number) => LiteralValue::Int(*number),
            LiteralValue::Int8(number) => LiteralValue::Int8(*number),
            LiteralValue::Int16(number) => LiteralValue::Int16(*number),
            LiteralValue::Int32(number) => LiteralValue::Int32(*number),
            LiteralValue::Int64(number) => LiteralValue::Int64(*number),
            LiteralValue::UInt8(number) => LiteralValue::UInt8(*number),
            LiteralValue::UInt16(number) => LiteralValue::UInt16(*number),
            LiteralValue::UInt32(number) => LiteralValue::UInt32(*number),
            LiteralValue::UInt64(number) => LiteralValue::UInt64(*number),
            LiteralValue::Date(days) => LiteralValue::Date(*days),
            LiteralValue::Time(nanoseconds) => LiteralValue::Time(*nanoseconds),
            LiteralValue::DateTime(count, unit) => LiteralValue::DateTime(*count, *unit),
            LiteralValue::Duration(count, unit) => LiteralValue::Duration(*count, *unit),
        })
    }
}

impl PartialEq for LiteralValue {
    ghost use Rattle.std.specs.Cmp.{partial_equiv_from_equiv};
    ghost use Rattle.plan_dsl.specs.SameExpressions.{same_literal};
    ghost use Rattle.plan_dsl.specs.ExpressionLaws.{same_literal_is_equivalence};

    ghost eq = { same_literal };

    ghost laws = { partial_equiv_from_equiv same_literal_is_equivalence };

    fn eq(&self, other: &LiteralValue) -> bool {
        self.is_same(other)
    }
}

impl Eq for LiteralValue {
    ghost use Rattle.plan_dsl.specs.ExpressionLaws.{same_literal_is_equivalence};

    ghost laws = { same_literal_is_equivalence };
}

impl Hash for LiteralValue {
    ghost use Rattle.plan_dsl.specs.Literals.{literal_type, literal_value};
    ghost use Rattle.plan_dsl.specs.SameExpressions.{literal_writes};
    ghost use Rattle.plan_dsl.specs.ExpressionLaws.{same_literal_hash};

    ghost hash_input = { λ a. literal_writes (literal_type a) (literal_value a) };

    ghost respects_eq = { same_literal_hash };

    fn hash<H: Hasher>(&self, state: &mut H) {
        self.get_datatype().hash(state);
        match self {
            LiteralValue::Null => {}
            LiteralValue::Boolean(truth) => truth.hash(state),
            LiteralValue::String(text) => text.hash(state),
            _number => {
                if let Some(number) = self.number() {
                    number.hash(state);
                }
            }
        }
    }
}

// The time of day of so many nanoseconds, where a day has them.
fn time_of(number: i128) -> Option<LiteralValue>
    ensures has { is_some result ≡ in_range TimeType number }
    ensures literal { IfSome result (λ value. literal_op value ≡ LiteralOp TimeType (IntValue number)) }
{
    if !DataType::Time.has_number(number) {
        return None;
    }
    i64::try_from(number).ok().map(LiteralValue::Time)
}
