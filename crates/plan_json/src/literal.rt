//! Literals.
ghost use Rattle.std.specs.Prelude.{◌≡◌, ◌==◌, Some, None, slice_index, MatchOption};
ghost use Rattle.serde_json.specs.View.{view};
ghost use Rattle.plan_dsl.specs.Literals.{literal_op};
ghost use Rattle.plan_types.specs.Types.{ty};
ghost use Rattle.plan_json.specs.Faults.{a_counted_type, a_literal, a_number_of, a_number_text, a_typed_literal, literal_form};
ghost use Rattle.plan_json.specs.Leaves.{counted_of, literal_of, literal_written, number_of, number_text_of, number_written, typed_of};
ghost use Rattle.plan_json.specs.Readers.{IsReading};

use super::dtype::read_type;
use super::error::{JsonError, Step};
use super::forms::Writing;
use super::value::{two_items, whole_number};
use plan_dsl::literal::LiteralValue;
use plan_types::dtype::DataType;
use plan_types::text::PlSmallStr;
use serde_json::Value;
use std::alloc::Global;

// A literal that is written so.
pub(crate) fn read_written(
    alloc: Global,
    how: Writing,
    value: &Value,
) -> Result<LiteralValue, JsonError>
    ensures { IsReading (literal_written how) (literal_form how) (view value.now) result literal_op }
{
    match how {
        Writing::AsIs => read_literal(alloc, value),
        Writing::Digits => read_number_text(alloc, value),
        Writing::Typed => read_typed(alloc, value),
    }
}

// A literal that is written as it is: null, a truth value, a text, or a whole number, which has no type.
#[inline(never)]
fn read_literal(alloc: Global, value: &Value) -> Result<LiteralValue, JsonError>
    ensures { IsReading literal_of a_literal (view value.now) result literal_op }
{
    match value {
        Value::Null => Ok(LiteralValue::Null),
        Value::Bool(truth) => Ok(LiteralValue::Boolean(*truth)),
        Value::String(text) => match PlSmallStr::new(alloc, text.as_str()) {
            Ok(text) => Ok(LiteralValue::String(text)),
            Err(error) => Err(JsonError::out_of_memory(error)),
        },
        Value::Number(_) => match whole_number(value) {
            None => Err(JsonError::shape(alloc, value)),
            Some(number) => Ok(LiteralValue::Int(number)),
        },
        Value::Array(_) | Value::Object(_) => Err(JsonError::shape(alloc, value)),
    }
}

// A text that writes a whole number, which has no type.
#[inline(never)]
fn read_number_text(alloc: Global, value: &Value) -> Result<LiteralValue, JsonError>
    ensures { IsReading number_text_of a_number_text (view value.now) result literal_op }
{
    match value.as_str() {
        None => Err(JsonError::shape(alloc, value)),
        Some(text) => match number_written(text) {
            None => Err(JsonError::shape(alloc, value)),
            Some(number) => Ok(LiteralValue::Int(number)),
        },
    }
}

// The number that a text writes: digits, behind an optional `-`, where 128 bits with a sign hold it.
fn number_written(text: &str) -> Option<i128>
    ensures { MatchOption result (number_written text.now ≡ None) (λ number. number_written text.now ≡ Some number) }
{
    if starts_with_plus(text.as_bytes()) {
        return None;
    }
    match text.parse::<i128>() {
        Ok(number) => Some(number),
        Err(_) => None,
    }
}

fn starts_with_plus(bytes: &[u8]) -> bool
    ensures { result ≡ (slice_index bytes.now 0 == 43) }
{
    if bytes.is_empty() {
        return false;
    }
    bytes[0] == b'+'
}

// A number of a type: `[type, number]`.
#[inline(never)]
fn read_typed(alloc: Global, value: &Value) -> Result<LiteralValue, JsonError>
    ensures { IsReading typed_of a_typed_literal (view value.now) result literal_op }
{
    match two_items(value) {
        None => Err(JsonError::shape(alloc, value)),
        Some((dtype, number)) => match read_counted(alloc, dtype) {
            Err(error) => Err(error.below(alloc, Step::Item(0))),
            Ok(dtype) => match read_number_of(alloc, &dtype, number) {
                Err(error) => Err(error.below(alloc, Step::Item(1))),
                Ok(literal) => Ok(literal),
            },
        },
    }
}

// A type of integers or of time.
#[tactic(auto, using(crate::proofs::LiteralLemmas::counted_error))]
fn read_counted(alloc: Global, value: &Value) -> Result<DataType, JsonError>
    ensures { IsReading counted_of a_counted_type (view value.now) result ty }
{
    match read_type(alloc, value) {
        Err(error) => Err(error),
        Ok(dtype) => {
            if !dtype.is_counted() {
                return Err(JsonError::shape(alloc, value));
            }
            Ok(dtype)
        }
    }
}

// A whole number that the type has.
fn read_number_of(alloc: Global, dtype: &DataType, value: &Value) -> Result<LiteralValue, JsonError>
    ensures { IsReading (number_of (ty dtype.now)) (a_number_of (ty dtype.now)) (view value.now) result literal_op }
{
    match whole_number(value) {
        None => Err(JsonError::shape(alloc, value)),
        Some(number) => match LiteralValue::of_number(dtype, number) {
            None => Err(JsonError::shape(alloc, value)),
            Some(literal) => Ok(literal),
        },
    }
}
