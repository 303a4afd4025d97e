//! Types, names and columns.
ghost use Rattle.std.specs.Prelude.{◌≡◌};
ghost use Rattle.std.specs.Option.{option_map};
ghost use Rattle.serde_json.specs.View.{view};
ghost use Rattle.plan_types.specs.Types.{fields_of, ty};
ghost use Rattle.plan_json.specs.Faults.{a_column, a_text, a_type, a_unit, field_list, type_form};
ghost use Rattle.plan_json.specs.Leaves.{column_of, integer_named, keyed_type, plain_named, struct_of, text_of, type_named, type_of, unit_named, unit_of};
ghost use Rattle.plan_json.specs.Readers.{IsReading};

use super::error::{JsonError, Step};
use super::forms::{TypeKey, find_type};
use super::value::{items, keyed, named, only_member, two_items};
use plan_types::dtype::{DataType, Fields, TimeUnit};
use plan_types::field::Field;
use plan_types::text::PlSmallStr;
use serde_json::Value;
use std::alloc::Global;

// A text.
#[inline(always)]
pub(crate) fn read_text(alloc: Global, value: &Value) -> Result<PlSmallStr, JsonError>
    ensures { IsReading text_of a_text (view value.now) result (λ text. text) }
{
    match value.as_str() {
        None => Err(JsonError::shape(alloc, value)),
        Some(text) => match PlSmallStr::new(alloc, text) {
            Ok(text) => Ok(text),
            Err(error) => Err(JsonError::out_of_memory(error)),
        },
    }
}

// A type: a name, or an object of one key, which names its form.
#[cycle(types)]
pub(crate) fn read_type(alloc: Global, value: &Value) -> Result<DataType, JsonError>
    ensures { IsReading type_of a_type (view value.now) result ty }
{
    match value.as_str() {
        Some(name) => match type_named(name) {
            None => Err(JsonError::shape(alloc, value)),
            Some(dtype) => Ok(dtype),
        },
        None =>
            keyed!(alloc, value, word => find_type(word), (key, inner) => read_keyed(alloc, key, inner)),
    }
}

// The value of a type's key.
#[cycle(types)]
fn read_keyed(alloc: Global, key: TypeKey, value: &Value) -> Result<DataType, JsonError>
    ensures { IsReading (keyed_type key) (type_form key) (view value.now) result ty }
{
    match key {
        TypeKey::Datetime => match read_unit(alloc, value) {
            Err(error) => Err(error),
            Ok(unit) => Ok(DataType::Datetime(unit)),
        },
        TypeKey::Duration => match read_unit(alloc, value) {
            Err(error) => Err(error),
            Ok(unit) => Ok(DataType::Duration(unit)),
        },
        TypeKey::List => match read_type(alloc, value) {
            Err(error) => Err(error),
            Ok(item) => {
                let item = Box::new(alloc, item)?;
                Ok(DataType::List(item))
            }
        },
        TypeKey::Struct => match read_fields(alloc, value) {
            Err(error) => Err(error),
            Ok(fields) => Ok(DataType::Struct(fields)),
        },
    }
}

// The fields of a type of structs: a list of them, whose names may repeat.
#[cycle(types)]
fn read_fields(alloc: Global, value: &Value) -> Result<Fields, JsonError>
    ensures { IsReading struct_of field_list (view value.now) result fields_of }
{
    match items(value) {
        None => Err(JsonError::shape(alloc, value)),
        Some(values) => {
            let mut items = Vec::new(alloc);
            for (number, value) in values.iter().enumerate() {
                match read_column(alloc, value) {
                    Ok(field) => items.push(field)?,
                    Err(error) => return Err(error.below(alloc, Step::Item(number))),
                }
            }
            Ok(Fields { items })
        }
    }
}

// A column or a field: `[name, type]`.
#[cycle(types)]
#[inline(always)]
pub(crate) fn read_column(alloc: Global, value: &Value) -> Result<Field, JsonError>
    ensures { IsReading column_of a_column (view value.now) result (λ field. (field.name, ty field.dtype)) }
{
    match two_items(value) {
        None => Err(JsonError::shape(alloc, value)),
        Some((name, dtype)) => match read_text(alloc, name) {
            Err(error) => Err(error.below(alloc, Step::Item(0))),
            Ok(name) => match read_type(alloc, dtype) {
                Err(error) => Err(error.below(alloc, Step::Item(1))),
                Ok(dtype) => Ok(Field::new(name, dtype)),
            },
        },
    }
}

// The type of that name, of those without parts.
fn type_named(name: &str) -> Option<DataType>
    ensures { option_map ty result ≡ type_named name.now }
{
    match integer_named(name) {
        Some(dtype) => Some(dtype),
        None => plain_named(name),
    }
}

// The type of integers of that name.
fn integer_named(name: &str) -> Option<DataType>
    ensures { option_map ty result ≡ integer_named name.now }
{
    match name.as_bytes() {
        b"Int8" => Some(DataType::Int8),
        b"Int16" => Some(DataType::Int16),
        b"Int32" => Some(DataType::Int32),
        b"Int64" => Some(DataType::Int64),
        b"UInt8" => Some(DataType::UInt8),
        b"UInt16" => Some(DataType::UInt16),
        b"UInt32" => Some(DataType::UInt32),
        b"UInt64" => Some(DataType::UInt64),
        _ => None,
    }
}

// The type of that name, of those without parts that are no integers.
fn plain_named(name: &str) -> Option<DataType>
    ensures { option_map ty result ≡ plain_named name.now }
{
    match name.as_bytes() {
        b"Null" => Some(DataType::Null),
        b"Boolean" => Some(DataType::Boolean),
        b"String" => Some(DataType::String),
        b"Date" => Some(DataType::Date),
        b"Time" => Some(DataType::Time),
        _ => None,
    }
}

// A unit of time, by its name.
fn read_unit(alloc: Global, value: &Value) -> Result<TimeUnit, JsonError>
    ensures { IsReading unit_of a_unit (view value.now) result (λ unit. unit) }
{
    named!(alloc, value, unit_named)
}

// The unit of that name.
fn unit_named(name: &str) -> Option<TimeUnit>
    ensures { result ≡ unit_named name.now }
{
    match name {
        "ns" => Some(TimeUnit::Nanoseconds),
        "us" => Some(TimeUnit::Microseconds),
        "ms" => Some(TimeUnit::Milliseconds),
        _ => None,
    }
}
