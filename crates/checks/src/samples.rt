//! Frames that tests write out: columns by name, type and values.

use crate::fixtures::{NO_MEMORY, assert_number, assert_text, deep_type};
use plan_types::column::{Column, Values};
use plan_types::dtype::{DataType, Fields};
use plan_types::field::Field;
use plan_types::frame::Frame;
use plan_types::text::PlSmallStr;
use plan_types::value::{Parts, Value};
use std::alloc::Global;
use std::process::Abort;

/// A value. Lists and structs are of numbers.
#[derive(Clone, Copy)]
pub(crate) enum Cell {
    Null,
    Int(i128),
    Truth(bool),
    Text(&'static str),
    List(&'static [i128]),
    Struct(&'static [i128]),
}

/// The type of a column. Items of lists are of the type Int8, and so is each field of structs, of which the names are told.
#[derive(Clone, Copy)]
pub(crate) enum Kind {
    Null,
    Int8,
    Int64,
    UInt32,
    Boolean,
    String,
    Lists,
    Structs(&'static [&'static str]),
}

/// How often values stand, one turn behind another: once, or as often as a test asks.
#[derive(Clone, Copy)]
pub(crate) enum Turns {
    Once,
    Many,
}

/// A column: its name, its type and its values, turn by turn.
pub(crate) type Sample = (&'static str, Kind, &'static [(&'static [Cell], Turns)]);

// The name.
fn named(rt: &impl Abort, alloc: Global, name: &str) -> PlSmallStr {
    let name = PlSmallStr::new(alloc, name).expect(rt, NO_MEMORY);
    name
}

// The numbers, as parts of a list or a struct.
fn parts_of(rt: &impl Abort, alloc: Global, numbers: &[i128]) -> Parts {
    let mut items = Vec::with_capacity(alloc, numbers.len()).expect(rt, NO_MEMORY);
    for number in numbers {
        items.push(Value::Int(*number)).expect(rt, NO_MEMORY);
    }
    Parts { items }
}

// The value.
fn value_of(rt: &impl Abort, alloc: Global, cell: Cell) -> Value {
    match cell {
        Cell::Null => Value::Null,
        Cell::Int(number) => Value::Int(number),
        Cell::Truth(truth) => Value::Boolean(truth),
        Cell::Text(text) => Value::Text(named(rt, alloc, text)),
        Cell::List(numbers) => Value::List(parts_of(rt, alloc, numbers)),
        Cell::Struct(numbers) => Value::Struct(parts_of(rt, alloc, numbers)),
    }
}

// The type.
fn dtype_of(rt: &impl Abort, alloc: Global, kind: Kind) -> DataType {
    match kind {
        Kind::Null => DataType::Null,
        Kind::Int8 => DataType::Int8,
        Kind::Int64 => DataType::Int64,
        Kind::UInt32 => DataType::UInt32,
        Kind::Boolean => DataType::Boolean,
        Kind::String => DataType::String,
        Kind::Lists => deep_type(rt, alloc, 1, &DataType::Int8),
        Kind::Structs(names) => struct_of(rt, alloc, names),
    }
}

// The type of structs of these fields.
fn struct_of(rt: &impl Abort, alloc: Global, names: &[&str]) -> DataType {
    let mut items = Vec::new(alloc);
    for name in names {
        let field = Field::new(named(rt, alloc, name), DataType::Int8);
        items.push(field).expect(rt, NO_MEMORY);
    }
    DataType::Struct(Fields { items })
}

// Puts the values behind the others.
fn push_cells(rt: &impl Abort, alloc: Global, values: &mut Values, cells: &[Cell]) {
    for cell in cells {
        let value = value_of(rt, alloc, *cell);
        values.push(value).expect(rt, NO_MEMORY);
    }
}

// The values of a column, of which some stand so often.
fn values_of(rt: &impl Abort, alloc: Global, turns: &[(&[Cell], Turns)], times: usize) -> Values {
    let mut values = Values::new(alloc);
    for (cells, often) in turns {
        let count = match often {
            Turns::Once => 1,
            Turns::Many => times,
        };
        for _ in 0..count {
            push_cells(rt, alloc, &mut values, cells);
        }
    }
    values
}

/// The columns, in which values of many turns stand so often.
pub(crate) fn columns_of(
    rt: &impl Abort,
    alloc: Global,
    samples: &[Sample],
    times: usize,
) -> Vec<Column> {
    let mut columns = Vec::new(alloc);
    for (name, kind, turns) in samples {
        let column = Column {
            name: named(rt, alloc, name),
            dtype: dtype_of(rt, alloc, *kind),
            values: values_of(rt, alloc, turns, times),
        };
        columns.push(column).expect(rt, NO_MEMORY);
    }
    columns
}

/// The frame of these columns.
pub(crate) fn frame_of(rt: &impl Abort, alloc: Global, samples: &[Sample], times: usize) -> Frame {
    let columns = columns_of(rt, alloc, samples, times);
    let frame = Frame::new(alloc, columns).expect(rt, NO_MEMORY);
    frame
}

// Both columns have the same values.
fn assert_values(rt: &impl Abort, found: &Values, want: &Values) {
    assert_number(rt, found.len(), want.len());
    for row in 0..found.len() {
        assert!(rt; row < want.len());
        let same = found.value_at(row).is_same(want.value_at(row));
        assert!(rt; same, "in row {row}");
    }
}

/// The columns are those that are wanted: by name, type and value.
pub(crate) fn assert_same(rt: &impl Abort, found: &[Column], want: &[Column]) {
    assert_number(rt, found.len(), want.len());
    for (own, wanted) in found.iter().zip(want) {
        assert_text(rt, own.name.as_str(), wanted.name.as_str());
        assert!(rt; own.dtype == wanted.dtype);
        assert_values(rt, &own.values, &wanted.values);
    }
}
