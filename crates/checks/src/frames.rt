//! Frames of any number of columns and rows, and their faults.

use crate::fixtures::{LENGTHS, NO_MEMORY, assert_number, assert_text, long_name, numbered};
use crate::schemas::assert_columns;
use crate::values::parts_of;
use plan_types::column::{Column, Values};
use plan_types::dtype::DataType;
use plan_types::frame::Frame;
use plan_types::text::PlSmallStr;
use plan_types::value::Value;
use std::alloc::Global;
use std::process::Abort;

// A column of the number 5, in so many rows.
fn column_of(rt: &impl Abort, alloc: Global, name: PlSmallStr, rows: usize) -> Column {
    let parts = parts_of(rt, alloc, rows, &Value::Int(5));
    Column {
        name,
        dtype: DataType::Int8,
        values: Values::from_values(parts.items),
    }
}

// So many columns of so many rows.
fn columns_of(rt: &impl Abort, alloc: Global, count: usize, rows: usize) -> Vec<Column> {
    let mut columns = Vec::new(alloc);
    for number in 0..count {
        let name = numbered(rt, alloc, number);
        let column = column_of(rt, alloc, name, rows);
        columns.push(column).expect(rt, NO_MEMORY);
    }
    columns
}

// The frame has so many columns and rows.
fn assert_frame(rt: &impl Abort, alloc: Global, frame: &Frame, count: usize, rows: usize) {
    assert_number(rt, frame.width(), count);
    assert_number(rt, frame.height(), rows);
    let schema = frame.schema(alloc).expect(rt, NO_MEMORY);
    assert_columns(rt, alloc, &schema, count, &DataType::Int8);
    drop(schema);
}

// So many columns of so many rows are a frame, and a copy of it is one.
fn assert_made(rt: &impl Abort, alloc: Global, count: usize, rows: usize) {
    let columns = columns_of(rt, alloc, count, rows);
    let frame = Frame::new(alloc, columns).expect(rt, NO_MEMORY);
    assert_frame(rt, alloc, &frame, count, rows);
    let copy = frame.try_clone(alloc).expect(rt, NO_MEMORY);
    assert_frame(rt, alloc, &copy, count, rows);
    drop(copy);
    drop(frame);
}

#[test]
fn frames_of_any_size_are_made_and_copied(rt: HostRuntime) {
    for (count, rows) in [(0, 0), (1, 0), (1, 1), (2, 2), (50, 2), (2, 100_000)] {
        assert_made(&rt, rt.alloc(), count, rows);
    }
}

#[test]
fn columns_of_long_names_are_copied(rt: HostRuntime) {
    for length in LENGTHS {
        let name = long_name(&rt, rt.alloc(), length);
        let column = column_of(&rt, rt.alloc(), name, 1);
        let copy = column.try_clone(rt.alloc()).expect(&rt, NO_MEMORY);
        drop(copy);
        drop(column);
    }
}

// What is told of the columns, which are no frame.
fn fault_text(rt: &impl Abort, alloc: Global, columns: Vec<Column>) -> String {
    match Frame::new(alloc, columns) {
        Ok(frame) => {
            drop(frame);
            String::from_str(alloc, "a frame").expect(rt, NO_MEMORY)
        }
        Err(error) => {
            let text = error.to_string(alloc).expect(rt, NO_MEMORY);
            drop(error);
            text
        }
    }
}

// So many columns with the last one are no frame, and that is told.
fn assert_fault(
    rt: &impl Abort,
    alloc: Global,
    count: usize,
    rows: usize,
    last: Column,
    want: &str,
) {
    let mut columns = columns_of(rt, alloc, count, rows);
    columns.push(last).expect(rt, NO_MEMORY);
    let found = fault_text(rt, alloc, columns);
    assert_text(rt, found.as_str(), want);
}

#[test]
fn a_name_that_stands_before_is_refused(rt: HostRuntime) {
    for (others, want) in [
        (0, "two columns are named \"part 0\""),
        (1, "two columns are named \"part 1\""),
        (49, "two columns are named \"part 49\""),
    ] {
        let name = numbered(&rt, rt.alloc(), others);
        let last = column_of(&rt, rt.alloc(), name, 1);
        assert_fault(&rt, rt.alloc(), others + 1, 2, last, want);
    }
}

#[test]
fn another_length_is_refused(rt: HostRuntime) {
    for (count, rows, want) in [
        (1, 0, "column \"nnn\" has 1 values in place of 0"),
        (2, 1, "column \"nnn\" has 2 values in place of 1"),
        (50, 2, "column \"nnn\" has 3 values in place of 2"),
        (
            1,
            100_000,
            "column \"nnn\" has 100001 values in place of 100000",
        ),
    ] {
        let name = long_name(&rt, rt.alloc(), 3);
        let last = column_of(&rt, rt.alloc(), name, rows + 1);
        assert_fault(&rt, rt.alloc(), count, rows, last, want);
    }
}

// A column that has so many numbers that fit it, and then one that doesn't.
fn misfit(rt: &impl Abort, alloc: Global, rows: usize) -> Column {
    let name = long_name(rt, alloc, 3);
    let mut column = column_of(rt, alloc, name, rows);
    column.values.push(Value::Int(128)).expect(rt, NO_MEMORY);
    column
}

#[test]
fn a_value_that_does_not_fit_is_refused(rt: HostRuntime) {
    for (count, rows, want) in [
        (
            0,
            0,
            "the value of column \"nnn\" in row 0 doesn't fit its type",
        ),
        (
            1,
            1,
            "the value of column \"nnn\" in row 1 doesn't fit its type",
        ),
        (
            50,
            2,
            "the value of column \"nnn\" in row 2 doesn't fit its type",
        ),
        (
            1,
            100_000,
            "the value of column \"nnn\" in row 100000 doesn't fit its type",
        ),
    ] {
        let last = misfit(&rt, rt.alloc(), rows);
        assert_fault(&rt, rt.alloc(), count, rows + 1, last, want);
    }
}
