//! A small table.

use plan_types::column::{Column, Values};
use plan_types::dtype::{DataType, Fields};
use plan_types::error::PlanError;
use plan_types::field::Field;
use plan_types::frame::{Frame, FrameError};
use plan_types::text::PlSmallStr;
use plan_types::value::{Parts, Value};
use std::alloc::Global;

/// Three rows of a key, a number, a truth value, two lists and a struct.
pub fn table(alloc: Global) -> anyhow::Result<Frame> {
    let frame = Frame::new(alloc, columns(alloc)?)?;
    Ok(frame)
}

// The columns of the table.
fn columns(alloc: Global) -> Result<Vec<Column>, PlanError> {
    let mut made = Vec::new(alloc);
    let keys = [Value::Int(1), Value::Int(2), Value::Int(3)];
    push_column(&mut made, alloc, "k", DataType::Int64, keys)?;
    let numbers = [Value::Int(10), Value::Null, Value::Int(-30)];
    push_column(&mut made, alloc, "a", DataType::Int8, numbers)?;
    let truths = [Value::Boolean(true), Value::Boolean(false), Value::Null];
    push_column(&mut made, alloc, "b", DataType::Boolean, truths)?;
    let lists = [list(alloc, &[1, 2])?, list(alloc, &[])?, Value::Null];
    push_column(&mut made, alloc, "l", DataType::Int8.implode(alloc)?, lists)?;
    let others = [list(alloc, &[3, 4])?, list(alloc, &[5, 6])?, Value::Null];
    push_column(
        &mut made,
        alloc,
        "m",
        DataType::Int8.implode(alloc)?,
        others,
    )?;
    let structs = [
        record(alloc, 7, "seven")?,
        Value::Null,
        record(alloc, 9, "nine")?,
    ];
    push_column(&mut made, alloc, "s", record_type(alloc)?, structs)?;
    Ok(made)
}

// Puts a column behind the others.
fn push_column(
    columns: &mut Vec<Column>,
    alloc: Global,
    name: &str,
    dtype: DataType,
    values: [Value; 3],
) -> Result<(), PlanError> {
    let name = PlSmallStr::new(alloc, name)?;
    let mut items = Vec::with_capacity(alloc, 3)?;
    for value in values {
        items.push(value)?;
    }
    columns.push(Column {
        name,
        dtype,
        values: Values::from_values(items),
    })?;
    Ok(())
}

// A list of numbers.
fn list(alloc: Global, numbers: &[i128]) -> Result<Value, PlanError> {
    let mut items = Vec::with_capacity(alloc, numbers.len())?;
    for number in numbers {
        items.push(Value::Int(*number))?;
    }
    Ok(Value::List(Parts { items }))
}

// A struct of a number and a text.
fn record(alloc: Global, number: i128, text: &str) -> Result<Value, PlanError> {
    let text = PlSmallStr::new(alloc, text)?;
    let items = vec![in alloc; Value::Int(number), Value::Text(text)]?;
    Ok(Value::Struct(Parts { items }))
}

// The type of such structs.
fn record_type(alloc: Global) -> Result<DataType, PlanError> {
    let number = Field::new(PlSmallStr::new(alloc, "number")?, DataType::Int16);
    let word = Field::new(PlSmallStr::new(alloc, "word")?, DataType::String);
    let items = vec![in alloc; number, word]?;
    Ok(DataType::Struct(Fields { items }))
}
