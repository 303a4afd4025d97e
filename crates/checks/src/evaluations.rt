//! What functions make of frames, of any number of rows. The values are written out by hand.

use crate::fixtures::{NO_MEMORY, SIZES, assert_number, deep_type, numbered, struct_type};
use crate::samples::Cell::{Int, List, Null, Struct, Text, Truth};
use crate::samples::Turns::{Many, Once};
use crate::samples::{Kind, Sample, assert_same, columns_of, frame_of};
use crate::table_functions::{dtype_for, functions, made};
use crate::values::parts_of;
use plan_dsl::distinct_options::ColumnNames;
use plan_dsl::function::FunctionIR;
use plan_dsl::udfs::Udfs;
use plan_dsl::unpivot_args::UnpivotArgsIR;
use plan_exec::error::ExecError;
use plan_exec::evaluation::FunctionEvaluation;
use plan_types::column::{Column, Values};
use plan_types::dtype::DataType;
use plan_types::frame::Frame;
use plan_types::text::PlSmallStr;
use plan_types::value::Value;
use std::alloc::Global;
use std::process::Abort;

// How many rows frames have, or how often the same rows stand.
const ROWS: [usize; 4] = [0, 1, 2, 100_000];

// Names of columns.
type Names = &'static [&'static str];

// Functions by the names that they take.
#[derive(Clone, Copy)]
enum Call {
    Explode(Names),
    Rename(Names, Names),
    RowIndex(Option<u32>),
    Unnest(Names),
    Unpivot(Names, Names),
}

// The names.
fn names_of(rt: &impl Abort, alloc: Global, texts: &[&str]) -> ColumnNames {
    let mut items = Vec::new(alloc);
    for text in texts {
        let name = PlSmallStr::new(alloc, text).expect(rt, NO_MEMORY);
        items.push(name).expect(rt, NO_MEMORY);
    }
    ColumnNames { items }
}

// An unpivot of these columns beside those, whose own columns have their usual names.
fn unpivot_of(rt: &impl Abort, alloc: Global, on: &[&str], index: &[&str]) -> UnpivotArgsIR {
    UnpivotArgsIR {
        on: names_of(rt, alloc, on),
        index: names_of(rt, alloc, index),
        variable_name: None,
        value_name: None,
    }
}

// The function of these names.
fn function_of(rt: &impl Abort, alloc: Global, call: Call) -> FunctionIR {
    match call {
        Call::Explode(columns) => FunctionIR::Explode {
            columns: names_of(rt, alloc, columns),
        },
        Call::Rename(existing, new) => FunctionIR::Rename {
            existing: names_of(rt, alloc, existing),
            new: names_of(rt, alloc, new),
            swapping: false,
        },
        Call::RowIndex(offset) => FunctionIR::RowIndex {
            name: PlSmallStr::new(alloc, "row").expect(rt, NO_MEMORY),
            offset,
        },
        Call::Unnest(columns) => FunctionIR::Unnest {
            columns: names_of(rt, alloc, columns),
        },
        Call::Unpivot(on, index) => FunctionIR::Unpivot {
            args: unpivot_of(rt, alloc, on, index),
        },
    }
}

// What the function makes of the frame, over whose schema it breaks no rule.
fn evaluated(
    rt: &impl Abort,
    alloc: Global,
    function: FunctionIR,
    frame: Frame,
) -> Result<Frame, ExecError> {
    let udfs = Udfs::new(alloc);
    let schema = frame.schema(alloc).expect(rt, NO_MEMORY);
    drop(function.schema(alloc, &schema, &udfs).expect(rt, NO_MEMORY));
    drop(schema);
    function.evaluate(alloc, frame, &udfs)
}

// The function makes the other frame of the one, of which values of many turns stand so often.
fn assert_makes(
    rt: &impl Abort,
    alloc: Global,
    call: Call,
    from: &[Sample],
    want: &[Sample],
    times: usize,
) {
    let function = function_of(rt, alloc, call);
    let frame = frame_of(rt, alloc, from, times);
    let found = evaluated(rt, alloc, function, frame).expect(rt, NO_MEMORY);
    let found = found.into_columns();
    let want = columns_of(rt, alloc, want, times);
    assert_same(rt, found.as_slice(), want.as_slice());
    drop(found);
    drop(want);
}

#[test]
fn a_row_index_wraps_around(rt: HostRuntime) {
    let a: Sample = ("a", Kind::Int8, &[(&[Int(7), Null], Once)]);
    let first: Sample = ("row", Kind::UInt32, &[(&[Int(0), Int(1)], Once)]);
    let call = Call::RowIndex(None);
    assert_makes(&rt, rt.alloc(), call, &[a], &[first, a], 1);
    let half: Sample = (
        "row",
        Kind::UInt32,
        &[(&[Int(2_147_483_647), Int(2_147_483_648)], Once)],
    );
    let call = Call::RowIndex(Some(2_147_483_647));
    assert_makes(&rt, rt.alloc(), call, &[a], &[half, a], 1);
    let last: Sample = (
        "row",
        Kind::UInt32,
        &[(&[Int(4_294_967_295), Int(0)], Once)],
    );
    let call = Call::RowIndex(Some(4_294_967_295));
    assert_makes(&rt, rt.alloc(), call, &[a], &[last, a], 1);
}

// The rows are numbered from the first number on.
fn assert_numbered(rt: &impl Abort, alloc: Global, first: u32, rows: usize) {
    let function = function_of(rt, alloc, Call::RowIndex(Some(first)));
    let frame = frame_of(rt, alloc, &[("a", Kind::Int8, &[(&[Null], Many)])], rows);
    let found = evaluated(rt, alloc, function, frame).expect(rt, NO_MEMORY);
    let found = found.into_columns();
    let mut number = first;
    if let Some(column) = found.first() {
        assert_number(rt, column.values.len(), rows);
        for row in 0..column.values.len() {
            let want = Value::Int(i128::from(number));
            assert!(rt; column.values.value_at(row).is_same(&want));
            drop(want);
            number = number.wrapping_add(1);
        }
    }
    drop(found);
}

#[test]
fn rows_of_any_number_are_numbered(rt: HostRuntime) {
    for rows in ROWS {
        assert_numbered(&rt, rt.alloc(), 0, rows);
        assert_numbered(&rt, rt.alloc(), 4_294_967_294, rows);
    }
}

#[test]
fn an_empty_list_and_a_null_make_a_row(rt: HostRuntime) {
    let from: [Sample; 3] = [
        ("k", Kind::Int64, &[(&[Int(1), Int(2), Int(3)], Many)]),
        (
            "l",
            Kind::Lists,
            &[(&[List(&[1, 2]), List(&[]), Null], Many)],
        ),
        (
            "b",
            Kind::Boolean,
            &[(&[Truth(true), Null, Truth(false)], Many)],
        ),
    ];
    let want: [Sample; 3] = [
        (
            "k",
            Kind::Int64,
            &[(&[Int(1), Int(1), Int(2), Int(3)], Many)],
        ),
        ("l", Kind::Int8, &[(&[Int(1), Int(2), Null, Null], Many)]),
        (
            "b",
            Kind::Boolean,
            &[(&[Truth(true), Truth(true), Null, Truth(false)], Many)],
        ),
    ];
    for times in ROWS {
        assert_makes(&rt, rt.alloc(), Call::Explode(&["l"]), &from, &want, times);
    }
}

#[test]
fn columns_are_exploded_together(rt: HostRuntime) {
    let from: [Sample; 3] = [
        ("l", Kind::Lists, &[(&[List(&[1, 2, 3]), List(&[])], Many)]),
        ("k", Kind::String, &[(&[Text("x"), Text("y")], Many)]),
        ("m", Kind::Lists, &[(&[List(&[4, 5, 6]), Null], Many)]),
    ];
    let want: [Sample; 3] = [
        ("l", Kind::Int8, &[(&[Int(1), Int(2), Int(3), Null], Many)]),
        (
            "k",
            Kind::String,
            &[(&[Text("x"), Text("x"), Text("x"), Text("y")], Many)],
        ),
        ("m", Kind::Int8, &[(&[Int(4), Int(5), Int(6), Null], Many)]),
    ];
    for times in ROWS {
        assert_makes(
            &rt,
            rt.alloc(),
            Call::Explode(&["m", "l"]),
            &from,
            &want,
            times,
        );
    }
}

// A list of so many items makes as many rows.
fn assert_list(rt: &impl Abort, alloc: Global, length: usize, want: &[Sample]) {
    let mut columns = columns_of(rt, alloc, &[("k", Kind::Int8, &[(&[Int(7)], Once)])], 1);
    let mut lists = Values::new(alloc);
    let list = Value::List(parts_of(rt, alloc, length, &Value::Int(5)));
    lists.push(list).expect(rt, NO_MEMORY);
    let column = Column {
        name: PlSmallStr::new(alloc, "l").expect(rt, NO_MEMORY),
        dtype: deep_type(rt, alloc, 1, &DataType::Int8),
        values: lists,
    };
    columns.push(column).expect(rt, NO_MEMORY);
    let frame = Frame::new(alloc, columns).expect(rt, NO_MEMORY);
    let function = function_of(rt, alloc, Call::Explode(&["l"]));
    let found = evaluated(rt, alloc, function, frame).expect(rt, NO_MEMORY);
    let found = found.into_columns();
    let want = columns_of(rt, alloc, want, length);
    assert_same(rt, found.as_slice(), want.as_slice());
    drop(found);
    drop(want);
}

#[test]
fn lists_of_any_length_are_exploded(rt: HostRuntime) {
    let none: [Sample; 2] = [
        ("k", Kind::Int8, &[(&[Int(7)], Once)]),
        ("l", Kind::Int8, &[(&[Null], Once)]),
    ];
    assert_list(&rt, rt.alloc(), 0, &none);
    let some: [Sample; 2] = [
        ("k", Kind::Int8, &[(&[Int(7)], Many)]),
        ("l", Kind::Int8, &[(&[Int(5)], Many)]),
    ];
    for length in [1, 2, 100_000] {
        assert_list(&rt, rt.alloc(), length, &some);
    }
}

// Lists of one row that differ in length are a fault.
fn assert_fault(rt: &impl Abort, alloc: Global, names: Names, from: &[Sample], times: usize) {
    let function = function_of(rt, alloc, Call::Explode(names));
    let frame = frame_of(rt, alloc, from, times);
    match evaluated(rt, alloc, function, frame) {
        Ok(_) => panic!(rt; "there is a fault"),
        Err(error) => assert!(rt; matches!(error, ExecError::DataFault)),
    }
}

#[test]
fn lists_of_one_row_that_differ_in_length_are_a_fault(rt: HostRuntime) {
    let l: Sample = (
        "l",
        Kind::Lists,
        &[(&[List(&[1])], Many), (&[List(&[2, 3])], Once)],
    );
    let m: Sample = (
        "m",
        Kind::Lists,
        &[(&[List(&[4])], Many), (&[List(&[5, 6])], Once)],
    );
    let n: Sample = ("n", Kind::Lists, &[(&[Null], Many), (&[List(&[])], Once)]);
    let first: Sample = (
        "l",
        Kind::Int8,
        &[(&[Int(1)], Many), (&[Int(2), Int(3)], Once)],
    );
    let second: Sample = (
        "m",
        Kind::Int8,
        &[(&[Int(4)], Many), (&[Int(5), Int(6)], Once)],
    );
    for rows in ROWS {
        assert_fault(&rt, rt.alloc(), &["l", "n"], &[l, m, n], rows);
        assert_fault(&rt, rt.alloc(), &["l", "m", "n"], &[l, m, n], rows);
        let call = Call::Explode(&["l", "m"]);
        assert_makes(&rt, rt.alloc(), call, &[l, m], &[first, second], rows);
    }
}

#[test]
fn columns_are_put_below_each_other(rt: HostRuntime) {
    let k: Sample = ("k", Kind::Int64, &[(&[Int(1), Int(2)], Many)]);
    let a: Sample = ("a", Kind::Int8, &[(&[Int(10), Null], Many)]);
    let b: Sample = ("b", Kind::Boolean, &[(&[Truth(true), Truth(false)], Many)]);
    let want: [Sample; 3] = [
        (
            "k",
            Kind::Int64,
            &[(&[Int(1), Int(2)], Many), (&[Int(1), Int(2)], Many)],
        ),
        (
            "variable",
            Kind::String,
            &[
                (&[Text("a"), Text("a")], Many),
                (&[Text("b"), Text("b")], Many),
            ],
        ),
        (
            "value",
            Kind::Int8,
            &[(&[Int(10), Null], Many), (&[Int(1), Int(0)], Many)],
        ),
    ];
    for times in ROWS {
        let named = Call::Unpivot(&["a", "b"], &["k"]);
        assert_makes(&rt, rt.alloc(), named, &[k, a, b], &want, times);
        let others = Call::Unpivot(&[], &["k"]);
        assert_makes(&rt, rt.alloc(), others, &[a, k, b], &want, times);
    }
}

#[test]
fn of_no_columns_an_unpivot_takes_all_others(rt: HostRuntime) {
    let a: Sample = ("a", Kind::Int8, &[(&[Int(1), Int(2)], Once)]);
    let b: Sample = ("b", Kind::Int64, &[(&[Null, Int(4)], Once)]);
    let all: [Sample; 2] = [
        (
            "variable",
            Kind::String,
            &[(&[Text("a"), Text("a"), Text("b"), Text("b")], Once)],
        ),
        (
            "value",
            Kind::Int64,
            &[(&[Int(1), Int(2), Null, Int(4)], Once)],
        ),
    ];
    assert_makes(&rt, rt.alloc(), Call::Unpivot(&[], &[]), &[a, b], &all, 1);
    let no_a: Sample = ("a", Kind::Int8, &[]);
    let no_b: Sample = ("b", Kind::Int64, &[]);
    let names: Sample = ("variable", Kind::String, &[]);
    let values: Sample = ("value", Kind::Null, &[]);
    let none = Call::Unpivot(&[], &["a", "b"]);
    assert_makes(
        &rt,
        rt.alloc(),
        none,
        &[a, b],
        &[no_a, no_b, names, values],
        1,
    );
    assert_makes(
        &rt,
        rt.alloc(),
        Call::Unpivot(&[], &[]),
        &[],
        &[names, values],
        1,
    );
}

#[test]
fn columns_are_renamed(rt: HostRuntime) {
    let from: [Sample; 2] = [
        ("a", Kind::Int8, &[(&[Int(1), Null], Many)]),
        ("b", Kind::Boolean, &[(&[Truth(true), Truth(false)], Many)]),
    ];
    let swapped: [Sample; 2] = [
        ("b", Kind::Int8, &[(&[Int(1), Null], Many)]),
        ("a", Kind::Boolean, &[(&[Truth(true), Truth(false)], Many)]),
    ];
    let later: [Sample; 2] = [
        ("d", Kind::Int8, &[(&[Int(1), Null], Many)]),
        ("b", Kind::Boolean, &[(&[Truth(true), Truth(false)], Many)]),
    ];
    for times in ROWS {
        let swap = Call::Rename(&["a", "b"], &["b", "a"]);
        assert_makes(&rt, rt.alloc(), swap, &from, &swapped, times);
        let twice = Call::Rename(&["a", "a"], &["c", "d"]);
        assert_makes(&rt, rt.alloc(), twice, &from, &later, times);
        let other = Call::Rename(&["c"], &["d"]);
        assert_makes(&rt, rt.alloc(), other, &from, &from, times);
    }
}

#[test]
fn a_null_struct_has_nulls(rt: HostRuntime) {
    let k: Sample = ("k", Kind::Int64, &[(&[Int(1), Int(2), Int(3)], Many)]);
    let s: Sample = (
        "s",
        Kind::Structs(&["x", "y"]),
        &[(&[Struct(&[4, 5]), Null, Struct(&[6, 7])], Many)],
    );
    let b: Sample = ("b", Kind::Boolean, &[(&[Null, Truth(true), Null], Many)]);
    let x: Sample = ("x", Kind::Int8, &[(&[Int(4), Null, Int(6)], Many)]);
    let y: Sample = ("y", Kind::Int8, &[(&[Int(5), Null, Int(7)], Many)]);
    for times in ROWS {
        let call = Call::Unnest(&["s"]);
        assert_makes(&rt, rt.alloc(), call, &[k, s, b], &[k, x, y, b], times);
    }
}

#[test]
fn without_columns_there_are_no_rows(rt: HostRuntime) {
    let k: Sample = ("k", Kind::Int8, &[(&[Int(1), Int(2)], Once)]);
    let s: Sample = ("s", Kind::Structs(&[]), &[(&[Struct(&[]), Null], Once)]);
    assert_makes(&rt, rt.alloc(), Call::Unnest(&["s"]), &[k, s], &[k], 1);
    assert_makes(&rt, rt.alloc(), Call::Unnest(&["s"]), &[s], &[], 1);
    assert_makes(&rt, rt.alloc(), Call::Unnest(&[]), &[], &[], 1);
    assert_makes(&rt, rt.alloc(), Call::Rename(&[], &[]), &[], &[], 1);
    let row: Sample = ("row", Kind::UInt32, &[]);
    assert_makes(&rt, rt.alloc(), Call::RowIndex(None), &[], &[row], 1);
}

// So many columns of the type, each of two nulls.
fn nulls_of(rt: &impl Abort, alloc: Global, count: usize, dtype: &DataType) -> Frame {
    let mut columns = Vec::new(alloc);
    for number in 0..count {
        let values = parts_of(rt, alloc, 2, &Value::Null);
        let column = Column {
            name: numbered(rt, alloc, number),
            dtype: dtype.try_clone(alloc).expect(rt, NO_MEMORY),
            values: Values::from_values(values.items),
        };
        columns.push(column).expect(rt, NO_MEMORY);
    }
    let frame = Frame::new(alloc, columns).expect(rt, NO_MEMORY);
    frame
}

#[test]
fn functions_over_any_number_of_columns_are_run(rt: HostRuntime) {
    for (function, columns, want) in &functions() {
        let dtype = dtype_for(&rt, rt.alloc(), *function);
        let frame = nulls_of(&rt, rt.alloc(), *columns, &dtype);
        drop(dtype);
        let own = made(&rt, rt.alloc(), *function);
        let found = evaluated(&rt, rt.alloc(), own, frame).expect(&rt, NO_MEMORY);
        assert_number(&rt, found.width(), *want);
        drop(found);
    }
}

// A column of so many structs of so many numbers, and of as many nulls, is unnested.
fn assert_unnested(rt: &impl Abort, alloc: Global, fields: usize, rows: usize) {
    let mut values = Values::new(alloc);
    for _ in 0..rows {
        let parts = parts_of(rt, alloc, fields, &Value::Int(5));
        values.push(Value::Struct(parts)).expect(rt, NO_MEMORY);
        values.push(Value::Null).expect(rt, NO_MEMORY);
    }
    let mut columns = Vec::new(alloc);
    let column = Column {
        name: numbered(rt, alloc, 0),
        dtype: struct_type(rt, alloc, fields, &DataType::Int8),
        values,
    };
    columns.push(column).expect(rt, NO_MEMORY);
    let frame = Frame::new(alloc, columns).expect(rt, NO_MEMORY);
    let function = function_of(rt, alloc, Call::Unnest(&["part 0"]));
    let found = evaluated(rt, alloc, function, frame).expect(rt, NO_MEMORY);
    assert_number(rt, found.width(), fields);
    drop(found);
}

#[test]
fn structs_of_any_number_of_fields_are_unnested(rt: HostRuntime) {
    for fields in SIZES {
        assert_unnested(&rt, rt.alloc(), fields, 2);
    }
    assert_unnested(&rt, rt.alloc(), 2, 100_000);
}
