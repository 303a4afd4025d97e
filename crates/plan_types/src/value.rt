//! Values of columns.
ghost use Rattle.std.specs.Prelude.{◌≡◌, IfOk, IfErr};
ghost use Rattle.std.specs.List.{fold};
ghost use Rattle.plan_types.specs.Errors.{no_memory};
ghost use Rattle.plan_types.specs.Types.{fields_in, ty};
ghost use Rattle.plan_types.specs.ValueLaws.{value_writes, parts_writes};
ghost use Rattle.plan_types.specs.ValueViews.{val_of, values_in};
ghost use Rattle.plan_types.specs.Values.{fits, items_fit, parts_fit, same_value, same_values};

use crate::dtype::DataType;
use crate::error::PlanError;
use crate::field::Field;
use crate::text::PlSmallStr;
use std::alloc::Global;
use std::hash::{Hash, Hasher};

/// The values of a list or a struct, in order.
#[derive(Debug, Drop)]
#[cycle(value)]
pub struct Parts {
    pub items: Vec<Value>,
}

impl Parts {
    ghost use Rattle.plan_types.specs.ValueViews.{parts_of};

    #[cycle(value_copies)]
    pub fn try_clone(&self, alloc: Global) -> Result<Parts, PlanError>
        ensures ok { IfOk result (λ copy. parts_of copy ≡ parts_of self.now) }
        ensures err { IfErr result (λ error. error ≡ no_memory) }
    {
        let mut items = Vec::new(alloc);
        for item in self.items.as_slice() {
            let copy = item.try_clone(alloc)?;
            items.push(copy)?;
        }
        Ok(Parts { items })
    }
}

/// A value of a column. Contracts see it as a `Val`. Its type is the column's: a number may be of an integer type or of
/// one of time.
#[derive(Debug, Drop)]
#[cycle(value)]
pub enum Value {
    /// No value is there.
    Null,
    Boolean(bool),
    /// A whole number, of whatever integer type, or a number of days or of units of time.
    Int(i128),
    Text(PlSmallStr),
    /// Items of one type, in order.
    List(Parts),
    /// A value for each field, in order.
    Struct(Parts),
}

impl Value {
    /// Whether a column of the type may have the value.
    #[cycle(fitting)]
    pub fn fits(&self, dtype: &DataType) -> bool
        ensures { result ≡ fits (val_of self.now) (ty dtype.now) }
    {
        match (self, dtype) {
            (Value::Null, _) => true,
            (Value::Boolean(_), DataType::Boolean) | (Value::Text(_), DataType::String) => true,
            (Value::Int(number), _) => dtype.has_number(*number),
            (Value::List(items), DataType::List(item)) => items_fit(items.items.as_slice(), item),
            (Value::Struct(parts), DataType::Struct(fields)) => {
                parts_fit(parts.items.as_slice(), fields.items.as_slice())
            }
            _ => false,
        }
    }

    /// Whether both are one value: of one kind, with the same number, text or values in order.
    #[cycle(same_values)]
    pub fn is_same(&self, other: &Value) -> bool
        ensures { result ≡ same_value (val_of self.now) (val_of other.now) }
    {
        match self {
            Value::Null => matches!(other, Value::Null),
            Value::Boolean(truth) => match other {
                Value::Boolean(own) => *truth == *own,
                _ => false,
            },
            Value::Int(number) => match other {
                Value::Int(own) => *number == *own,
                _ => false,
            },
            Value::Text(text) => match other {
                Value::Text(own) => *text == *own,
                _ => false,
            },
            Value::List(items) => match other {
                Value::List(own) => same_values(items.items.as_slice(), own.items.as_slice()),
                Value::Struct(_) => false,
                Value::Null | Value::Boolean(_) | Value::Int(_) | Value::Text(_) => false,
            },
            Value::Struct(parts) => match other {
                Value::Struct(own) => same_values(parts.items.as_slice(), own.items.as_slice()),
                Value::List(_) => false,
                Value::Null | Value::Boolean(_) | Value::Int(_) | Value::Text(_) => false,
            },
        }
    }

    // Feeds the value's kind to the hasher, and then its truth, its number, its text or its values.
    #[cycle(value_hashes)]
    fn feed<H: Hasher>(&self, state: &mut H)
        ensures { state.new ≡ fold H.write state.old (value_writes (val_of self.now)) }
    {
        match self {
            Value::Null => 0u32.hash(state),
            Value::Boolean(truth) => {
                1u32.hash(state);
                truth.hash(state);
            }
            Value::Int(number) => {
                2u32.hash(state);
                number.hash(state);
            }
            Value::Text(text) => {
                3u32.hash(state);
                text.hash(state);
            }
            Value::List(items) => {
                4u32.hash(state);
                feed_values(items.items.as_slice(), state);
            }
            Value::Struct(parts) => {
                5u32.hash(state);
                feed_values(parts.items.as_slice(), state);
            }
        }
    }

    #[cycle(value_copies)]
    pub fn try_clone(&self, alloc: Global) -> Result<Value, PlanError>
        ensures ok { IfOk result (λ copy. val_of copy ≡ val_of self.now) }
        ensures err { IfErr result (λ error. error ≡ no_memory) }
    {
        match self {
            Value::Null => Ok(Value::Null),
            Value::Boolean(truth) => Ok(Value::Boolean(*truth)),
            Value::Int(number) => Ok(Value::Int(*number)),
            Value::Text(text) => {
                let text = text.try_clone(alloc)?;
                Ok(Value::Text(text))
            }
            Value::List(items) => {
                let items = items.try_clone(alloc)?;
                Ok(Value::List(items))
            }
            Value::Struct(parts) => {
                let parts = parts.try_clone(alloc)?;
                Ok(Value::Struct(parts))
            }
        }
    }
}

// Whether both have the same values, in the same order.
#[cycle(same_values)]
fn same_values(left: &[Value], right: &[Value]) -> bool
    ensures { result ≡ same_values (values_in left.now) (values_in right.now) }
{
    if left.len() != right.len() {
        return false;
    }
    for index in 0..left.len() {
        if !left[index].is_same(&right[index]) {
            return false;
        }
    }
    true
}

// Feeds how many values there are to the hasher, and then each, in order.
#[cycle(value_hashes)]
fn feed_values<H: Hasher>(values: &[Value], state: &mut H)
    ensures { state.new ≡ fold H.write state.old (parts_writes (values_in values.now)) }
{
    values.len().hash(state);
    for value in values {
        value.feed(state);
    }
}

// Whether each item fits the type.
#[cycle(fitting)]
fn items_fit(items: &[Value], dtype: &DataType) -> bool
    ensures { result ≡ items_fit (values_in items.now) (ty dtype.now) }
{
    for item in items {
        if !item.fits(dtype) {
            return false;
        }
    }
    true
}

// Whether there is a fitting part for each field, in order.
#[cycle(fitting)]
fn parts_fit(parts: &[Value], fields: &[Field]) -> bool
    ensures { result ≡ parts_fit (values_in parts.now) (fields_in fields.now) }
{
    if parts.len() != fields.len() {
        return false;
    }
    for index in 0..parts.len() {
        if !parts[index].fits(&fields[index].dtype) {
            return false;
        }
    }
    true
}

impl PartialEq for Value {
    ghost use Rattle.std.specs.Cmp.{partial_equiv_from_equiv};
    ghost use Rattle.plan_types.specs.Values.{same_value};
    ghost use Rattle.plan_types.specs.ValueViews.{val_of};
    ghost use Rattle.plan_types.specs.ValueLaws.{same_value_is_equivalence};

    ghost eq = { λ a b. same_value (val_of a) (val_of b) };

    ghost laws = { partial_equiv_from_equiv same_value_is_equivalence };

    fn eq(&self, other: &Value) -> bool {
        self.is_same(other)
    }
}

impl Eq for Value {
    ghost use Rattle.plan_types.specs.ValueLaws.{same_value_is_equivalence};

    ghost laws = { same_value_is_equivalence };
}

impl Hash for Value {
    ghost use Rattle.plan_types.specs.ValueViews.{val_of};
    ghost use Rattle.plan_types.specs.ValueLaws.{value_writes, same_value_hash};

    ghost hash_input = { λ a. value_writes (val_of a) };

    ghost respects_eq = { same_value_hash };

    fn hash<H: Hasher>(&self, state: &mut H) {
        self.feed(state);
    }
}

impl PartialEq for Parts {
    ghost use Rattle.std.specs.Cmp.{partial_equiv_from_equiv};
    ghost use Rattle.plan_types.specs.Values.{same_values};
    ghost use Rattle.plan_types.specs.ValueViews.{parts_of};
    ghost use Rattle.plan_types.specs.ValueLaws.{same_values_is_equivalence};

    ghost eq = { λ a b. same_values (parts_of a) (parts_of b) };

    ghost laws = { partial_equiv_from_equiv same_values_is_equivalence };

    fn eq(&self, other: &Parts) -> bool {
        same_values(self.items.as_slice(), other.items.as_slice())
    }
}

impl Eq for Parts {
    ghost use Rattle.plan_types.specs.ValueLaws.{same_values_is_equivalence};

    ghost laws = { same_values_is_equivalence };
}

impl Hash for Parts {
    ghost use Rattle.plan_types.specs.ValueViews.{parts_of};
    ghost use Rattle.plan_types.specs.ValueLaws.{parts_writes, same_values_hash};

    ghost hash_input = { λ a. parts_writes (parts_of a) };

    ghost respects_eq = { same_values_hash };

    fn hash<H: Hasher>(&self, state: &mut H) {
        feed_values(self.items.as_slice(), state);
    }
}
