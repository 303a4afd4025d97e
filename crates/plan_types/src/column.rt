//! Columns: a name, a type and values.
ghost use Rattle.std.specs.Prelude.{◌≡◌, IfOk, IfErr};
ghost use Rattle.plan_types.specs.Errors.{no_memory};

use crate::dtype::DataType;
use crate::error::PlanError;
use crate::text::PlSmallStr;
use crate::value::Value;
use std::alloc::Global;

/// The values of a column, by row. Contracts see their list as `vals_of`.
#[derive(Drop)]
pub struct Values {
    items: Vec<Value>,
}

impl Values {
    ghost use Rattle.std.specs.Prelude.{◌<◌, [], ◌∷◌, ◌++◌, length, map, slice_get, Some, OnOk, OnErr};
    ghost use Rattle.plan_types.specs.FrameFaults.{vals_of};
    ghost use Rattle.plan_types.specs.ValueViews.{val_of};

    /// No values.
    pub fn new(alloc: Global) -> Values
        ensures { vals_of result ≡ [] }
    {
        Values {
            items: Vec::new(alloc),
        }
    }

    /// These values, moved in.
    pub fn from_values(items: Vec<Value>) -> Values
        ensures { vals_of result ≡ map val_of items.items }
    {
        Values { items }
    }

    /// How many values there are.
    pub fn len(&self) -> usize
        ensures { result ≡ length (vals_of self.now) }
    {
        self.items.len()
    }

    /// The value in the row of that number.
    pub fn value_at(&self, row: usize) -> &Value
        requires { row < length (vals_of self.now) }
        ensures { slice_get (vals_of self.now) row ≡ Some (val_of result.now) }
    {
        &self.items[row]
    }

    /// Appends the value, which is dropped where there is no memory.
    pub fn push(&mut self, value: Value) -> Result<(), PlanError>
        ensures ok { OnOk result (vals_of self.new ≡ vals_of self.old ++ val_of value ∷ []) }
        ensures unchanged { OnErr result (vals_of self.new ≡ vals_of self.old) }
        ensures err { IfErr result (λ error. error ≡ no_memory) }
    {
        self.items.push(value)?;
        Ok(())
    }

    /// The values, moved out.
    pub fn into_values(self) -> Vec<Value>
        ensures { map val_of result.items ≡ vals_of self }
    {
        self.items
    }

    pub fn try_clone(&self, alloc: Global) -> Result<Values, PlanError>
        ensures ok { IfOk result (λ copy. vals_of copy ≡ vals_of self.now) }
        ensures err { IfErr result (λ error. error ≡ no_memory) }
    {
        let mut items = Vec::new(alloc);
        for value in self.items.as_slice() {
            let copy = value.try_clone(alloc)?;
            items.push(copy)?;
        }
        Ok(Values { items })
    }
}

/// A column. That its values fit its type is known of those in a frame alone.
#[derive(Drop)]
pub struct Column {
    pub name: PlSmallStr,
    pub dtype: DataType,
    pub values: Values,
}

impl Column {
    ghost use Rattle.plan_types.specs.FrameFaults.{shown};

    pub fn try_clone(&self, alloc: Global) -> Result<Column, PlanError>
        ensures ok { IfOk result (λ copy. shown copy ≡ shown self.now) }
        ensures err { IfErr result (λ error. error ≡ no_memory) }
    {
        let name = self.name.try_clone(alloc)?;
        let dtype = self.dtype.try_clone(alloc)?;
        let values = self.values.try_clone(alloc)?;
        Ok(Column {
            name,
            dtype,
            values,
        })
    }
}
