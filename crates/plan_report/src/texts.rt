//! Texts of names, types, schemas and places.
ghost use Rattle.std.specs.Prelude.{◌≡◌, [], ◌∷◌, ◌++◌, ◌≢◌, ◌<◌, None, codes, decimal, map, string_bytes, IfOk, IsFalse, IsTrue, OnOk};
ghost use Rattle.std.specs.Option.{option_map};
ghost use Rattle.json.specs.Print.{escape, escape_byte};
ghost use Rattle.serde_json.specs.Data.{string};
ghost use Rattle.serde_json.specs.Written.{compact_text};
ghost use Rattle.plan_types.specs.Schemas.{columns};
ghost use Rattle.plan_types.specs.Types.{field_of, ty};
ghost use Rattle.plan_report.specs.Texts.{in_parentheses, unit_text, variant_text, parts_text, type_text, field_text, separator, schema_text, closing_text, step_text, path_text, error_kind_text};

use plan_types::dtype::{DataType, TimeUnit};
use plan_types::error::ErrorKind;
use plan_types::field::Field;
use plan_types::schema::Schema;
use plan_types::text::PlSmallStr;
use serde_json::Value;
use std::alloc::{AllocError, Global};

/// The name of the rule that a plan breaks.
pub(crate) fn kind_name(kind: ErrorKind) -> &'static str
    ensures { result.now ≡ error_kind_text kind }
{
    match kind {
        ErrorKind::ColumnNotFound => "ColumnNotFound",
        ErrorKind::Duplicate => "Duplicate",
        ErrorKind::SchemaMismatch => "SchemaMismatch",
        ErrorKind::InvalidOperation => "InvalidOperation",
        ErrorKind::ComputeError => "ComputeError",
        ErrorKind::NoMemory => "NoMemory",
    }
}

// The name of the type's variant, between two texts.
macro_rules! variant_within {
    ($front:literal, $dtype:expr, $back:literal) => {
        match $dtype {
            DataType::Null => concat!($front, "Null", $back),
            DataType::Boolean => concat!($front, "Boolean", $back),
            DataType::Int8 => concat!($front, "Int8", $back),
            DataType::Int16 => concat!($front, "Int16", $back),
            DataType::Int32 => concat!($front, "Int32", $back),
            DataType::Int64 => concat!($front, "Int64", $back),
            DataType::UInt8 => concat!($front, "UInt8", $back),
            DataType::UInt16 => concat!($front, "UInt16", $back),
            DataType::UInt32 => concat!($front, "UInt32", $back),
            DataType::UInt64 => concat!($front, "UInt64", $back),
            DataType::String => concat!($front, "String", $back),
            DataType::Date => concat!($front, "Date", $back),
            DataType::Time => concat!($front, "Time", $back),
            DataType::Datetime(_) => concat!($front, "Datetime", $back),
            DataType::Duration(_) => concat!($front, "Duration", $back),
            DataType::List(_) => concat!($front, "List", $back),
            DataType::Struct(_) => concat!($front, "Struct", $back),
            DataType::Unknown(_) => concat!($front, "Unknown", $back),
        }
    };
}

/// The name of the type's variant.
#[tactic(auto, unfolding(crate::proofs::OnLiterals::texts_on_literals))]
pub(crate) fn variant_name(dtype: &DataType) -> &'static str
    ensures { result.now ≡ variant_text (ty dtype.now) }
{
    variant_within!("", dtype, "")
}

// What stands between a plain name and the parts of its type: the closing quote, and the name of the type's variant.
#[tactic(auto, unfolding(crate::proofs::OnLiterals::texts_on_literals))]
fn closing(dtype: &DataType) -> &'static str
    ensures { result.now ≡ codes "\" " ++ variant_text (ty dtype.now) }
{
    variant_within!("\" ", dtype, "")
}

// What stands between two plain names, where the first has that type and the type has no parts.
#[tactic(auto, unfolding(crate::proofs::OnLiterals::texts_on_literals))]
fn between(dtype: &DataType) -> &'static str
    ensures { result.now ≡ (codes "\" " ++ variant_text (ty dtype.now)) ++ codes ", \"" }
{
    variant_within!("\" ", dtype, ", \"")
}

/// The name of the unit.
pub(crate) fn unit_name(unit: TimeUnit) -> &'static str
    ensures { result.now ≡ unit_text unit }
{
    match unit {
        TimeUnit::Nanoseconds => "ns",
        TimeUnit::Microseconds => "us",
        TimeUnit::Milliseconds => "ms",
    }
}

// Appends a part as a JSON string.
fn push_quoted(alloc: Global, text: &mut String, part: &str) -> Result<(), AllocError>
    ensures { OnOk result (string_bytes text.new ≡ string_bytes text.old ++ compact_text (string part.now)) }
{
    let part = String::from_str(alloc, part)?;
    let quoted = Value::String(part).to_string(alloc)?;
    text.push_str(quoted.as_str())
}

// Whether a text is known to stand in a JSON string as it is.
fn is_plain(text: &str) -> bool
    ensures { IsTrue result → escape text.now ≡ text.now }
{
    for byte in text.as_bytes() {
        if !is_plain_byte(*byte) {
            return false;
        }
    }
    true
}

fn is_plain_byte(byte: u8) -> bool
    ensures { IsTrue result → escape_byte byte ≡ byte ∷ [] }
{
    match byte {
        b'"' | b'\\' => false,
        byte => byte >= b' ',
    }
}

/// Appends the number in decimal.
pub(crate) fn push_number(alloc: Global, text: &mut String, number: u64) -> Result<(), AllocError>
    ensures { OnOk result (string_bytes text.new ≡ string_bytes text.old ++ decimal number) }
{
    let digits = number.to_string(alloc)?;
    text.push_str(digits.as_str())
}

// Appends a step of a place. That to an only input takes no memory of its own.
#[tactic(auto, unfolding(crate::proofs::OnLiterals::texts_on_literals))]
fn push_step(alloc: Global, text: &mut String, step: u64) -> Result<(), AllocError>
    ensures { OnOk result (string_bytes text.new ≡ string_bytes text.old ++ step_text step) }
{
    if step == 0 {
        return text.push_str(".0");
    }
    text.push_str(".")?;
    push_number(alloc, text, step)
}

/// Appends the place to which the steps lead from the top.
pub(crate) fn push_path(alloc: Global, text: &mut String, steps: &[u64]) -> Result<(), AllocError>
    ensures { OnOk result (string_bytes text.new ≡ string_bytes text.old ++ path_text steps.now) }
{
    if steps.is_empty() {
        return text.push_str(".");
    }
    for step in steps {
        push_step(alloc, text, *step)?;
    }
    Ok(())
}

/// Appends the unit in parentheses.
fn push_unit(text: &mut String, unit: TimeUnit) -> Result<(), AllocError>
    ensures { OnOk result (string_bytes text.new ≡ string_bytes text.old ++ in_parentheses (unit_text unit)) }
{
    text.push_str("(")?;
    text.push_str(unit_name(unit))?;
    text.push_str(")")
}

/// Appends the type: its variant's name, and its parts.
#[cycle(type_texts)]
pub(crate) fn push_type(
    alloc: Global,
    text: &mut String,
    dtype: &DataType,
) -> Result<(), AllocError>
    ensures { OnOk result (string_bytes text.new ≡ string_bytes text.old ++ type_text (ty dtype.now)) }
{
    text.push_str(variant_name(dtype))?;
    push_parts(alloc, text, dtype)
}

// Appends the parts of the type.
#[cycle(type_texts)]
fn push_parts(alloc: Global, text: &mut String, dtype: &DataType) -> Result<(), AllocError>
    ensures { OnOk result (string_bytes text.new ≡ string_bytes text.old ++ parts_text (ty dtype.now)) }
{
    match dtype {
        DataType::Datetime(unit) => push_unit(text, *unit),
        DataType::Duration(unit) => push_unit(text, *unit),
        DataType::List(item) => {
            text.push_str("(")?;
            push_type(alloc, text, item)?;
            text.push_str(")")
        }
        DataType::Struct(fields) => push_fields(alloc, text, fields.items.as_slice()),
        _ => Ok(()),
    }
}

/// Appends what stands before the field of that number.
fn push_separator(text: &mut String, number: usize) -> Result<(), AllocError>
    ensures { OnOk result (string_bytes text.new ≡ string_bytes text.old ++ separator number) }
{
    if number > 0 {
        text.push_str(", ")?;
    }
    Ok(())
}

// What stands before a plain name in the field of that number.
fn opening(number: usize) -> &'static str
    ensures { result.now ≡ separator number ++ codes "\"" }
{
    if number > 0 { ", \"" } else { "\"" }
}

// Appends a field up to the parts of its type, with what stands before it.
fn push_name(
    alloc: Global,
    text: &mut String,
    number: usize,
    name: &str,
    dtype: &DataType,
) -> Result<(), AllocError>
    ensures { OnOk result (string_bytes text.new
        ≡ string_bytes text.old ++ (separator number ++ (compact_text (string name.now) ++ (codes " " ++ variant_text (ty dtype.now))))) }
{
    if is_plain(name) {
        text.push_str(opening(number))?;
        text.push_str(name)?;
        return text.push_str(closing(dtype));
    }
    push_separator(text, number)?;
    push_quoted(alloc, text, name)?;
    text.push_str(" ")?;
    text.push_str(variant_name(dtype))
}

// Whether the type has a text behind its variant's name.
fn has_parts(dtype: &DataType) -> bool
    ensures { IsFalse result → parts_text (ty dtype.now) ≡ [] }
{
    matches!(
        dtype,
        DataType::Datetime(_) | DataType::Duration(_) | DataType::List(_) | DataType::Struct(_)
    )
}

// Appends the field of that number, with what stands before it: a column's name and type.
#[cycle(type_texts)]
fn push_field(
    alloc: Global,
    text: &mut String,
    number: usize,
    name: &PlSmallStr,
    dtype: &DataType,
) -> Result<(), AllocError>
    ensures { OnOk result (string_bytes text.new
        ≡ string_bytes text.old ++ (separator number ++ field_text (name.now, ty dtype.now))) }
{
    push_name(alloc, text, number, name.as_str(), dtype)?;
    push_parts(alloc, text, dtype)
}

/// Appends the fields of a type of structs, as those of a schema.
#[cycle(type_texts)]
fn push_fields(alloc: Global, text: &mut String, fields: &[Field]) -> Result<(), AllocError>
    ensures { OnOk result (string_bytes text.new ≡ string_bytes text.old ++ schema_text (map field_of fields.now)) }
{
    text.push_str("(")?;
    for index in 0..fields.len() {
        let field = &fields[index];
        push_field(alloc, text, index, &field.name, &field.dtype)?;
    }
    text.push_str(")")
}

// Appends what a column lacks, if there is one that lacks something.
fn push_closing(text: &mut String, column: Option<&DataType>) -> Result<(), AllocError>
    ensures { OnOk result (string_bytes text.new ≡ string_bytes text.old ++ closing_text (option_map (λ dtype. ty dtype.now) column.entry)) }
{
    match column {
        None => Ok(()),
        Some(dtype) => text.push_str(closing(dtype)),
    }
}

// Appends what stands before a plain name in the column of that number, with what the one before it lacks.
#[inline(always)]
fn push_opening(
    text: &mut String,
    number: usize,
    before: Option<&DataType>,
) -> Result<(), AllocError>
    requires { before ≢ None → 0 < number }
    ensures { OnOk result (string_bytes text.new
        ≡ (string_bytes text.old ++ closing_text (option_map (λ dtype. ty dtype.now) before.entry)) ++ (separator number ++ codes "\"")) }
{
    match before {
        None => text.push_str(opening(number)),
        Some(before) => text.push_str(between(before)),
    }
}

// Appends the column of that number. Of the one before it the type is given where it lacks its closing quote and the type,
// which has no parts; the answer is the same of this one. So what stands between two plain names is one piece.
#[inline(always)]
fn push_column<'a>(
    alloc: Global,
    text: &mut String,
    number: usize,
    name: &PlSmallStr,
    dtype: &'a DataType,
    before: Option<&'a DataType>,
) -> Result<Option<&'a DataType>, AllocError>
    requires { before ≢ None → 0 < number }
    ensures { IfOk result (λ left. string_bytes text.new ++ closing_text (option_map (λ dtype. ty dtype.now) left)
        ≡ (string_bytes text.old ++ closing_text (option_map (λ dtype. ty dtype.now) before.entry)) ++ (separator number ++ field_text (name.now, ty dtype.now))) }
{
    let plain = name.as_str();
    if has_parts(dtype) || !is_plain(plain) {
        push_closing(text, before)?;
        push_field(alloc, text, number, name, dtype)?;
        return Ok(None);
    }
    push_opening(text, number, before)?;
    text.push_str(plain)?;
    Ok(Some(dtype))
}

/// Appends the columns of a schema.
pub(crate) fn push_schema(
    alloc: Global,
    text: &mut String,
    schema: &Schema,
) -> Result<(), AllocError>
    ensures { OnOk result (string_bytes text.new ≡ string_bytes text.old ++ schema_text (columns schema.now)) }
{
    text.push_str("(")?;
    let mut before = None;
    for index in 0..schema.len() {
        if let Some((name, dtype)) = schema.get_at_index(index) {
            before = push_column(alloc, text, index, name, dtype, before)?;
        }
    }
    push_closing(text, before)?;
    text.push_str(")")
}
