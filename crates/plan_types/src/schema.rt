//! Schemas: the columns of a frame, in order.
ghost use Rattle.std.specs.Prelude.{◌≡◌, ◌≢◌, ◌↔◌, ◌≤◌, ℕ, List, [], length, insert, map, true, false, not, Ok, None, is_some, slice_get, IsTrue, IfOk, IfErr, OnOk, OnErr, Some};
ghost use Rattle.std.specs.Bool.{Decides};
ghost use Rattle.std.specs.Option.{option_map};
ghost use Rattle.std.specs.Map.Iter.{ShowsInOrder, deref};
ghost use Rattle.plan_types.specs.Errors.{at_top, no_memory, IsMemoryOr, IsRefusal};
ghost use Rattle.plan_types.specs.Columns.{all_known, names_of, repeats, type_at, with_column, IsNewName};
ghost use Rattle.plan_types.specs.SchemaCalls.{column_at, common_types, same_names, super_columns, types_of, with_types};
ghost use Rattle.plan_types.specs.Types.{ty};

use crate::dtype::DataType;
use crate::error::{ErrorKind, PlanError};
use crate::supertype::try_get_supertype;
use crate::text::PlSmallStr;
use indexmap::IndexMap;
use indexmap::map::Keys;
use std::alloc::Global;

/// The columns of a frame, in order. No two have one name. Contracts see their list as `columns`.
#[derive(Drop)]
pub struct Schema {
    fields: IndexMap<PlSmallStr, DataType>,
    ghost distinct: { repeats (names_of fields.entries) ≡ false },
}

impl Schema {
    ghost use Rattle.plan_types.specs.Schemas.{columns};

    /// A schema without columns.
    pub fn new(alloc: Global) -> Schema
        ensures { columns result ≡ [] }
    {
        Schema {
            fields: IndexMap::new(alloc),
        }
    }

    /// A schema without columns, with room for so many.
    pub fn with_capacity(alloc: Global, room: usize) -> Result<Schema, PlanError>
        ensures ok { IfOk result (λ schema. columns schema ≡ []) }
        ensures err { IfErr result (λ error. error ≡ no_memory) }
    {
        let fields = IndexMap::with_capacity(alloc, room)?;
        Ok(Schema { fields })
    }

    /// How many columns there are.
    pub fn len(&self) -> usize
        ensures { result ≡ length (columns self.now) }
    {
        self.fields.len()
    }

    pub fn is_empty(&self) -> bool
        ensures { IsTrue result ↔ (columns self.now ≡ []) }
    {
        self.fields.is_empty()
    }

    /// Whether each column's type is one of columns.
    pub fn is_known(&self) -> bool
        ensures { result ≡ all_known (columns self.now) }
    {
        for (_name, dtype) in self.fields.iter() {
            if !dtype.is_known() {
                return false;
            }
        }
        true
    }

    /// The type of the column of that name.
    pub fn get(&self, name: &PlSmallStr) -> Option<&DataType>
        ensures { option_map (λ dtype. ty dtype.now) result ≡ type_at (columns self.now) name.now }
    {
        self.fields.get(name)
    }

    pub fn contains(&self, name: &PlSmallStr) -> bool
        ensures { result ≡ is_some (type_at (columns self.now) name.now) }
    {
        self.fields.contains_key(name)
    }

    /// `get`, with a refusal where no column has the name.
    pub fn try_get(&self, name: &PlSmallStr) -> Result<&DataType, PlanError>
        ensures ok { IfOk result (λ dtype. type_at (columns self.now) name.now ≡ Some (ty dtype.now)) }
        ensures err { IfErr result (λ error. (error ≡ at_top ErrorKind.ColumnNotFound) × IsNewName (columns self.now) name.now) }
    {
        match self.get(name) {
            Some(dtype) => Ok(dtype),
            None => Err(PlanError::at_top(ErrorKind::ColumnNotFound)),
        }
    }

    /// The column of that number.
    pub fn get_at_index(&self, index: usize) -> Option<(&PlSmallStr, &DataType)>
        ensures { option_map (λ column. (column.0.now, ty column.1.now)) result ≡ slice_get (columns self.now) index }
    {
        self.fields.get_index(index)
    }

    /// The place of the column of that name, and its name and type.
    pub fn get_full(&self, name: &PlSmallStr) -> Option<(usize, &PlSmallStr, &DataType)>
        ensures { option_map (λ found. (found.0, (found.1.now, ty found.2.now))) result ≡ column_at (columns self.now) name.now }
    {
        self.fields.get_full(name)
    }

    /// The names of the columns, in order.
    pub fn iter_names(&self) -> Keys<'_, PlSmallStr, DataType>
        ensures names { result ≡ names_of (columns self.now) }
        ensures runs { ShowsInOrder (deref {X = List ℕ}) }
    {
        self.fields.keys()
    }

    /// Gives the column of that name the type, and appends it where there is none. The answer is the type that it had.
    pub fn with_column(
        &mut self,
        name: PlSmallStr,
        dtype: DataType,
    ) -> Result<Option<DataType>, PlanError>
        ensures ok { OnOk result (columns self.new ≡ with_column (columns self.old) name (ty dtype)) }
        ensures before { IfOk result (λ before. option_map ty before ≡ type_at (columns self.old) name) }
        ensures unchanged { OnErr result (columns self.new ≡ columns self.old) }
        ensures err { IfErr result (λ error. error ≡ no_memory) }
    {
        let before = self.fields.insert(name, dtype)?;
        Ok(before)
    }

    /// `with_column`, whose answer is only whether there was a column of that name.
    #[inline(always)]
    pub fn put(&mut self, name: PlSmallStr, dtype: DataType) -> Result<bool, PlanError>
        ensures ok { OnOk result (columns self.new ≡ with_column (columns self.old) name (ty dtype)) }
        ensures before { IfOk result (λ before. before ≡ is_some (type_at (columns self.old) name)) }
        ensures unchanged { OnErr result (columns self.new ≡ columns self.old) }
        ensures err { IfErr result (λ error. error ≡ no_memory) }
    {
        let replaced = self.fields.insert(name, dtype)?;
        Ok(replaced.is_some())
    }

    /// Puts a new column at that place; the later ones move.
    pub fn insert_at_index(
        &mut self,
        index: usize,
        name: PlSmallStr,
        dtype: DataType,
    ) -> Result<(), PlanError>
        requires { index ≤ length (columns self.old) }
        ensures ok { OnOk result (columns self.new ≡ insert (columns self.old) index (name, ty dtype)) }
        ensures fresh { OnOk result (IsNewName (columns self.old) name) }
        ensures err { IfErr result (IsMemoryOr ErrorKind.Duplicate (is_some (type_at (columns self.old) name) ≡ true)) }
        ensures unchanged { OnErr result (columns self.new ≡ columns self.old) }
    {
        if self.contains(&name) {
            return Err(PlanError::at_top(ErrorKind::Duplicate));
        }
        let _before = self.fields.insert_before(index, name, dtype)?;
        Ok(())
    }

    /// Refuses two schemas that differ in number, names, order or types of columns. It takes no memory.
    pub fn matches_schema(&self, other: &Schema) -> Result<(), PlanError>
        ensures ok { OnOk result (columns self.now ≡ columns other.now) }
        ensures err { IfErr result (λ error. error ≡ at_top ErrorKind.InvalidOperation) }
        ensures differ { OnErr result (columns self.now ≢ columns other.now) }
    {
        if self.has_columns_of(other) {
            Ok(())
        } else {
            Err(PlanError::at_top(ErrorKind::InvalidOperation))
        }
    }

    // Whether the other has the same columns, in the same order.
    fn has_columns_of(&self, other: &Schema) -> bool
        ensures { Decides result (columns self.now ≡ columns other.now) }
    {
        self.fields.as_slice() == other.fields.as_slice()
    }

    /// Gives each column the common type of its own and the other's at that place. The answer is whether a type
    /// changed, or is another than the other's.
    pub fn to_supertype(&mut self, other: &Schema) -> Result<bool, PlanError>
        ensures ok { OnOk result (super_columns (columns self.old) (columns other.now) ≡ Ok (columns self.new)) }
        ensures changed { IfOk result (λ changed. Decides (not changed) ((columns self.new ≡ columns self.old) × (columns self.new ≡ columns other.now))) }
        ensures err { IfErr result (IsRefusal (super_columns (columns self.old) (columns other.now))) }
        ensures unchanged { OnErr result (columns self.new ≡ columns self.old) }
    {
        if !self.has_names_of(other) {
            return Err(PlanError::at_top(ErrorKind::InvalidOperation));
        }
        let alloc = *self.fields.allocator();
        let types = self.common_types(alloc, other)?;
        let changed = !self.has_columns_of(other);
        self.give_types(types);
        Ok(changed)
    }

    // Whether the other has the same names, in the same order.
    fn has_names_of(&self, other: &Schema) -> bool
        ensures { result ≡ same_names (columns self.now) (columns other.now) }
    {
        if self.len() != other.len() {
            return false;
        }
        for number in 0..self.len() {
            if self.name_at(number) != other.name_at(number) {
                return false;
            }
        }
        true
    }

    // The name of the column of that number.
    fn name_at(&self, number: usize) -> Option<&PlSmallStr>
        ensures { option_map (λ name. name.now) result ≡ slice_get (names_of (columns self.now)) number }
    {
        let (name, _dtype) = self.get_at_index(number)?;
        Some(name)
    }

    // The common types of the columns and the other's, side by side.
    fn common_types(&self, alloc: Global, other: &Schema) -> Result<Vec<DataType>, PlanError>
        requires { length (columns self.now) ≡ length (columns other.now) }
        ensures ok { IfOk result (λ types. common_types (types_of (columns self.now)) (types_of (columns other.now)) ≡ Some (map ty types.items)) }
        ensures err { IfErr result (IsMemoryOr ErrorKind.SchemaMismatch (common_types (types_of (columns self.now)) (types_of (columns other.now)) ≡ None)) }
    {
        let mut types = Vec::new(alloc);
        for number in 0..self.len() {
            let left = &self.fields[number];
            let right = &other.fields[number];
            let common = try_get_supertype(alloc, left, right)?;
            types.push(common)?;
        }
        Ok(types)
    }

    // Gives the columns the types, in order.
    fn give_types(&mut self, mut types: Vec<DataType>)
        requires { length types.items ≤ length (columns self.old) }
        ensures { columns self.new ≡ with_types (columns self.old) (map ty types.items) }
    {
        while let Some(dtype) = types.pop() {
            let number = types.len();
            self.fields[number] = dtype;
        }
    }

    /// A copy, in the memory that the schema's own allocator gives. Its index is copied as it is.
    pub fn try_clone(&self, _alloc: Global) -> Result<Schema, PlanError>
        ensures ok { IfOk result (λ copy. columns copy ≡ columns self.now) }
        ensures err { IfErr result (λ error. error ≡ no_memory) }
    {
        let fields = self.fields.clone()?;
        Ok(Schema { fields })
    }
}
