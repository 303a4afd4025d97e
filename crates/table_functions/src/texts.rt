//! Texts of frames.
ghost use Rattle.std.specs.Prelude.{◌≡◌, ◌++◌, map, string_bytes, IfOk, OnOk};
ghost use Rattle.std.specs.Fmt.{signed_decimal};
ghost use Rattle.plan_types.specs.FrameFaults.{shown};
ghost use Rattle.plan_types.specs.FrameViews.{columns_of};
ghost use Rattle.plan_types.specs.ValueViews.{val_of, values_in};
ghost use Rattle.table_functions.specs.Texts.{column_text, columns_text, value_text, values_text};

use plan_report::report::dtype_text;
use plan_types::column::Column;
use plan_types::frame::Frame;
use plan_types::value::Value;
use std::alloc::{AllocError, Global};

/// A line for each column: its name, its type and its values.
pub fn frame_text(alloc: Global, frame: Frame) -> Result<String, AllocError>
    ensures { IfOk result (λ text. string_bytes text ≡ columns_text (map shown (columns_of frame))) }
{
    let mut text = String::new(alloc);
    for column in frame.into_columns() {
        push_column(alloc, &mut text, column)?;
    }
    Ok(text)
}

// Appends the line of a column.
fn push_column(alloc: Global, text: &mut String, column: Column) -> Result<(), AllocError>
    ensures { OnOk result (string_bytes text.new ≡ string_bytes text.old ++ column_text (shown column)) }
{
    let Column {
        name,
        dtype,
        values,
    } = column;
    let dtype = dtype_text(alloc, &dtype)?;
    text.push_str("  ")?;
    text.push_str(name.as_str())?;
    text.push_str(" ")?;
    text.push_str(dtype.as_str())?;
    push_values(alloc, text, values.into_values().as_slice())?;
    text.push_str("\n")
}

// Appends a value.
#[cycle(value_texts)]
fn push_value(alloc: Global, text: &mut String, value: &Value) -> Result<(), AllocError>
    ensures { OnOk result (string_bytes text.new ≡ string_bytes text.old ++ value_text (val_of value.now)) }
{
    match value {
        Value::Null => text.push_str("null"),
        Value::Boolean(true) => text.push_str("true"),
        Value::Boolean(false) => text.push_str("false"),
        Value::Int(number) => push_number(alloc, text, *number),
        Value::Text(own) => text.push_str(own.as_str()),
        Value::List(items) => {
            text.push_str("[")?;
            push_values(alloc, text, items.items.as_slice())?;
            text.push_str(" ]")
        }
        Value::Struct(parts) => {
            text.push_str("{")?;
            push_values(alloc, text, parts.items.as_slice())?;
            text.push_str(" }")
        }
    }
}

// Appends the number in decimal.
fn push_number(alloc: Global, text: &mut String, number: i128) -> Result<(), AllocError>
    ensures { OnOk result (string_bytes text.new ≡ string_bytes text.old ++ signed_decimal number) }
{
    let digits = number.to_string(alloc)?;
    text.push_str(digits.as_str())
}

// Appends values, each behind a space.
#[cycle(value_texts)]
fn push_values(alloc: Global, text: &mut String, values: &[Value]) -> Result<(), AllocError>
    ensures { OnOk result (string_bytes text.new ≡ string_bytes text.old ++ values_text (values_in values.now)) }
{
    for value in values {
        text.push_str(" ")?;
        push_value(alloc, text, value)?;
    }
    Ok(())
}
