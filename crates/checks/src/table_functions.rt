//! Functions from a frame to a frame, of any number of names, columns and fields: copied, compared, hashed, built, lowered, and
//! their schemas.

use crate::fixtures::{
    LENGTHS, NO_MEMORY, SIZES, assert_alike, assert_number, assert_refused, assert_text, deep_type,
    long_name, numbered, struct_type,
};
use crate::lowering::answer;
use crate::plan_schemas::assert_copied;
use crate::plans::scan_of;
use crate::schemas::schema_of;
use crate::works::selectors_of;
use plan_dsl::builder::DslBuilder;
use plan_dsl::distinct_options::ColumnNames;
use plan_dsl::function::{DslFunction, FunctionIR, StatsFunction};
use plan_dsl::plan::DslPlan;
use plan_dsl::udfs::Udfs;
use plan_dsl::unpivot_args::{UnpivotArgsDSL, UnpivotArgsIR};
use plan_types::dtype::DataType;
use plan_types::error::ErrorKind;
use plan_types::text::PlSmallStr;
use std::alloc::Global;
use std::process::Abort;

// From this number on names are new: no schema here has so many columns.
const NEW: usize = 1_000;

/// A function over named columns, by how many of them it has. New names of a rename, the name of a row index and those of an unpivot
/// go by their numbers.
#[derive(Clone, Copy)]
pub(crate) enum Function {
    Explode(usize),
    Rechunk,
    Rename(usize, usize, bool),
    RowIndex(usize, Option<u32>),
    Unnest(usize),
    Unpivot(usize, usize, Option<usize>, Option<usize>),
}

/// Functions, each with how many columns the schema has that it is over, and how many what it makes has. Those of an explode are
/// lists, and those of an unnest structs without fields.
pub(crate) fn functions() -> [(Function, usize, usize); 22] {
    [
        (Function::Explode(1), 1, 1),
        (Function::Explode(2), 2, 2),
        (Function::Explode(300), 300, 300),
        (Function::Rechunk, 0, 0),
        (Function::Rechunk, 1, 1),
        (Function::Rechunk, 300, 300),
        (Function::Rename(0, 0, false), 0, 0),
        (Function::Rename(1, 1, true), 1, 1),
        (Function::Rename(2, 2, false), 300, 300),
        (Function::Rename(300, 300, false), 300, 300),
        (Function::RowIndex(NEW, None), 0, 1),
        (Function::RowIndex(NEW, Some(0)), 1, 2),
        (Function::RowIndex(NEW, Some(u32::MAX)), 300, 301),
        (Function::Unnest(0), 0, 0),
        (Function::Unnest(1), 1, 0),
        (Function::Unnest(2), 2, 0),
        (Function::Unnest(300), 300, 0),
        (Function::Unpivot(0, 0, None, None), 0, 2),
        (Function::Unpivot(0, 0, Some(NEW), None), 300, 2),
        (Function::Unpivot(1, 0, None, Some(NEW)), 1, 2),
        (Function::Unpivot(1, 1, Some(NEW), Some(NEW + 1)), 2, 3),
        (Function::Unpivot(150, 150, None, None), 300, 152),
    ]
}

// So many names, from that number on.
fn names_from(rt: &impl Abort, alloc: Global, first: usize, count: usize) -> ColumnNames {
    let mut items = Vec::new(alloc);
    for number in first..first.saturating_add(count) {
        let name = numbered(rt, alloc, number);
        items.push(name).expect(rt, NO_MEMORY);
    }
    ColumnNames { items }
}

// The name of that number, if there is one.
fn name_of(rt: &impl Abort, alloc: Global, number: Option<usize>) -> Option<PlSmallStr> {
    match number {
        Some(number) => Some(numbered(rt, alloc, number)),
        None => None,
    }
}

// An unpivot of so many columns, behind them so many in the index, and the names of its own.
fn args_of(
    rt: &impl Abort,
    alloc: Global,
    on: usize,
    index: usize,
    variable: Option<usize>,
    value: Option<usize>,
) -> UnpivotArgsIR {
    UnpivotArgsIR {
        on: names_from(rt, alloc, 0, on),
        index: names_from(rt, alloc, on, index),
        variable_name: name_of(rt, alloc, variable),
        value_name: name_of(rt, alloc, value),
    }
}

/// The function of so many names.
pub(crate) fn made(rt: &impl Abort, alloc: Global, function: Function) -> FunctionIR {
    match function {
        Function::Explode(count) => FunctionIR::Explode {
            columns: names_from(rt, alloc, 0, count),
        },
        Function::Rechunk => FunctionIR::Rechunk,
        Function::Rename(existing, new, swapping) => FunctionIR::Rename {
            existing: names_from(rt, alloc, 0, existing),
            new: names_from(rt, alloc, NEW, new),
            swapping,
        },
        Function::RowIndex(number, offset) => FunctionIR::RowIndex {
            name: numbered(rt, alloc, number),
            offset,
        },
        Function::Unnest(count) => FunctionIR::Unnest {
            columns: names_from(rt, alloc, 0, count),
        },
        Function::Unpivot(on, index, variable, value) => FunctionIR::Unpivot {
            args: args_of(rt, alloc, on, index, variable, value),
        },
    }
}

/// What columns are of, so that the function may be over them.
pub(crate) fn dtype_for(rt: &impl Abort, alloc: Global, function: Function) -> DataType {
    match function {
        Function::Explode(_) => deep_type(rt, alloc, 1, &DataType::Int8),
        Function::Unnest(_) => struct_type(rt, alloc, 0, &DataType::Int8),
        _ => DataType::Int8,
    }
}

// A copy of the function is the same.
fn assert_function(rt: &impl Abort, alloc: Global, function: Function) {
    let own = made(rt, alloc, function);
    let copy = own.try_clone(alloc).expect(rt, NO_MEMORY);
    assert_alike(rt, copy, &own);
    drop(own);
}

#[test]
fn functions_over_any_number_of_names_are_copied(rt: HostRuntime) {
    for (function, _, _) in &functions() {
        assert_function(&rt, rt.alloc(), *function);
    }
}

// A row index of that name is copied, and so are an unpivot's names.
fn assert_long(rt: &impl Abort, alloc: Global, length: usize) {
    let indexed = FunctionIR::RowIndex {
        name: long_name(rt, alloc, length),
        offset: None,
    };
    let copy = indexed.try_clone(alloc).expect(rt, NO_MEMORY);
    assert_alike(rt, copy, &indexed);
    drop(indexed);
    let args = UnpivotArgsIR {
        on: names_from(rt, alloc, 0, 1),
        index: names_from(rt, alloc, 1, 1),
        variable_name: Some(long_name(rt, alloc, length)),
        value_name: Some(long_name(rt, alloc, length)),
    };
    let copy = args.try_clone(alloc).expect(rt, NO_MEMORY);
    assert_alike(rt, copy, &args);
    drop(args);
}

#[test]
fn functions_of_long_names_are_copied(rt: HostRuntime) {
    for length in LENGTHS {
        assert_long(&rt, rt.alloc(), length);
    }
}

// So many names are copied, and are others than as many from the next number on, unless there are none.
fn assert_names(rt: &impl Abort, alloc: Global, count: usize) {
    let names = names_from(rt, alloc, 0, count);
    let copy = names.try_clone(alloc).expect(rt, NO_MEMORY);
    assert_alike(rt, copy, &names);
    let others = names_from(rt, alloc, 1, count);
    assert!(rt; (others == names) == (count == 0));
    drop(others);
    drop(names);
}

#[test]
fn names_of_any_number_are_copied_and_compared(rt: HostRuntime) {
    for count in SIZES {
        assert_names(&rt, rt.alloc(), count);
    }
}

// So many selectors on either side, and names or none.
fn selecting(
    rt: &impl Abort,
    alloc: Global,
    on: usize,
    index: usize,
    name: Option<usize>,
) -> UnpivotArgsDSL {
    UnpivotArgsDSL {
        on: selectors_of(rt, alloc, on),
        index: selectors_of(rt, alloc, index),
        variable_name: name_of(rt, alloc, name),
        value_name: name_of(rt, alloc, name),
    }
}

// Arguments of an unpivot of so many columns are copied, by names and by selectors.
fn assert_args(rt: &impl Abort, alloc: Global, count: usize, name: Option<usize>) {
    let args = args_of(rt, alloc, count, count, name, name);
    let copy = args.try_clone(alloc).expect(rt, NO_MEMORY);
    assert_alike(rt, copy, &args);
    drop(args);
    let args = selecting(rt, alloc, count, count, name);
    let copy = args.try_clone(alloc).expect(rt, NO_MEMORY);
    assert_number(rt, copy.on.items.len(), count);
    drop(copy);
    drop(args);
}

#[test]
fn unpivots_of_any_number_of_columns_are_copied(rt: HostRuntime) {
    for count in SIZES {
        assert_args(&rt, rt.alloc(), count, None);
        assert_args(&rt, rt.alloc(), count, Some(count));
    }
}

// The functions aren't the same.
fn assert_apart(rt: &impl Abort, alloc: Global, function: Function, other: Function) {
    let own = made(rt, alloc, function);
    let other = made(rt, alloc, other);
    let same = own == other;
    assert!(rt; !same);
    drop(own);
    drop(other);
}

#[test]
fn functions_are_compared_by_all_that_they_have(rt: HostRuntime) {
    for (function, other) in &[
        (Function::Explode(2), Function::Explode(3)),
        (Function::Explode(2), Function::Unnest(2)),
        (Function::Unnest(0), Function::Unnest(1)),
        (Function::Rechunk, Function::Explode(0)),
        (Function::Rename(2, 2, false), Function::Rename(2, 2, true)),
        (Function::Rename(2, 2, false), Function::Rename(1, 2, false)),
        (Function::Rename(2, 2, false), Function::Rename(2, 1, false)),
        (Function::RowIndex(1, None), Function::RowIndex(2, None)),
        (Function::RowIndex(1, None), Function::RowIndex(1, Some(0))),
        (
            Function::RowIndex(1, Some(0)),
            Function::RowIndex(1, Some(1)),
        ),
        (
            Function::Unpivot(2, 0, None, None),
            Function::Unpivot(3, 0, None, None),
        ),
        (
            Function::Unpivot(0, 2, None, None),
            Function::Unpivot(0, 3, None, None),
        ),
        (
            Function::Unpivot(2, 0, None, None),
            Function::Unpivot(0, 2, None, None),
        ),
        (
            Function::Unpivot(1, 1, None, None),
            Function::Unpivot(1, 1, Some(7), None),
        ),
        (
            Function::Unpivot(1, 1, Some(7), None),
            Function::Unpivot(1, 1, None, Some(7)),
        ),
        (
            Function::Unpivot(1, 1, None, Some(7)),
            Function::Unpivot(1, 1, None, Some(8)),
        ),
    ] {
        assert_apart(&rt, rt.alloc(), *function, *other);
    }
}

// Over so many columns the function has a schema of so many.
fn assert_schema(rt: &impl Abort, alloc: Global, function: Function, columns: usize, want: usize) {
    let dtype = dtype_for(rt, alloc, function);
    let schema = schema_of(rt, alloc, columns, &dtype);
    drop(dtype);
    let udfs = Udfs::new(alloc);
    let own = made(rt, alloc, function);
    let found = own.schema(alloc, &schema, &udfs).expect(rt, NO_MEMORY);
    assert_number(rt, found.len(), want);
    drop(found);
    drop(own);
    drop(schema);
}

#[test]
fn schemas_of_functions_over_any_number_of_columns_are_told(rt: HostRuntime) {
    for (function, columns, want) in &functions() {
        assert_schema(&rt, rt.alloc(), *function, *columns, *want);
    }
}

// Over so many numbers the function has no schema.
fn assert_broken(
    rt: &impl Abort,
    alloc: Global,
    function: Function,
    columns: usize,
    kind: ErrorKind,
) {
    let schema = schema_of(rt, alloc, columns, &DataType::Int8);
    let udfs = Udfs::new(alloc);
    let own = made(rt, alloc, function);
    assert_refused(rt, own.schema(alloc, &schema, &udfs), kind);
    drop(own);
    drop(schema);
}

#[test]
fn functions_that_break_a_rule_have_no_schema(rt: HostRuntime) {
    for (function, columns, kind) in &[
        (Function::Explode(0), 1, ErrorKind::InvalidOperation),
        (Function::Explode(300), 300, ErrorKind::InvalidOperation),
        (Function::Explode(300), 299, ErrorKind::ColumnNotFound),
        (
            Function::Rename(2, 1, false),
            2,
            ErrorKind::InvalidOperation,
        ),
        (Function::RowIndex(299, None), 300, ErrorKind::Duplicate),
        (Function::Unnest(300), 299, ErrorKind::ColumnNotFound),
        (Function::Unnest(300), 300, ErrorKind::SchemaMismatch),
        (
            Function::Unpivot(150, 151, None, None),
            300,
            ErrorKind::ColumnNotFound,
        ),
        (
            Function::Unpivot(150, 150, None, Some(299)),
            300,
            ErrorKind::Duplicate,
        ),
    ] {
        assert_broken(&rt, rt.alloc(), *function, *columns, *kind);
    }
}

// A copy of the plan has a top that is called so once it is lowered, and the top of what the plan is lowered to is copied.
fn assert_lowered(rt: &impl Abort, alloc: Global, plan: DslPlan, name: &str) {
    let copy = plan.try_clone(alloc).expect(rt, NO_MEMORY);
    assert_copied(rt, alloc, plan);
    let report = answer(alloc, copy).expect(rt, NO_MEMORY);
    let top = report.as_str().get(2..2 + name.len());
    assert_text(rt, top.expect(rt, "a line has a name"), name);
}

// The function is a query's over so many columns, and is lowered as it is.
fn assert_named(rt: &impl Abort, alloc: Global, function: Function, columns: usize) {
    let dtype = dtype_for(rt, alloc, function);
    let scan = scan_of(rt, alloc, None, columns, &dtype);
    drop(dtype);
    let own = DslFunction::from(made(rt, alloc, function));
    let built = DslBuilder::from(scan).map_private(alloc, own);
    let plan = built.expect(rt, NO_MEMORY).build();
    assert_lowered(rt, alloc, plan, "map_function");
}

#[test]
fn functions_of_any_number_of_names_in_queries_are_lowered(rt: HostRuntime) {
    for (function, columns, _) in &functions() {
        assert_named(&rt, rt.alloc(), *function, *columns);
    }
}

// The calls of a builder that put a function over a plan. A rename gives names from that number on.
#[derive(Clone, Copy)]
enum Call {
    Explode,
    Rename(usize),
    RowIndex(Option<u32>),
    Stats(StatsFunction),
    Unnest,
    Unpivot,
    UnpivotBeside,
}

// The call over the plan, of so many columns.
fn over(rt: &impl Abort, alloc: Global, call: Call, plan: DslPlan, count: usize) -> DslPlan {
    let builder = DslBuilder::from(plan);
    let built = match call {
        Call::Explode => builder.explode(alloc, selectors_of(rt, alloc, count).items, true),
        Call::Rename(first) => builder.rename(
            alloc,
            names_from(rt, alloc, 0, count).items,
            names_from(rt, alloc, first, count).items,
            true,
        ),
        Call::RowIndex(offset) => builder.row_index(alloc, numbered(rt, alloc, NEW), offset),
        Call::Stats(statistic) => builder.stats(alloc, statistic),
        Call::Unnest => builder.unnest(alloc, selectors_of(rt, alloc, count).items),
        Call::Unpivot => builder.unpivot(alloc, selecting(rt, alloc, count, 0, None)),
        Call::UnpivotBeside => builder.unpivot(alloc, selecting(rt, alloc, 0, count, None)),
    };
    built.expect(rt, NO_MEMORY).build()
}

// The function on top of the plan is copied.
fn assert_call_copied(rt: &impl Abort, alloc: Global, plan: &DslPlan) {
    match plan {
        DslPlan::MapFunction { function, .. } => {
            let copy = function.try_clone(alloc);
            drop(copy.expect(rt, NO_MEMORY));
        }
        _ => panic!(rt; "a function is on top"),
    }
}

// The call is copied and lowered, over so many columns of the type.
fn assert_call(
    rt: &impl Abort,
    alloc: Global,
    call: Call,
    count: usize,
    dtype: &DataType,
    name: &str,
) {
    let scan = scan_of(rt, alloc, None, count, dtype);
    let plan = over(rt, alloc, call, scan, count);
    assert_call_copied(rt, alloc, &plan);
    assert_lowered(rt, alloc, plan, name);
}

#[test]
fn calls_over_any_number_of_columns_are_copied_and_lowered(rt: HostRuntime) {
    for count in SIZES {
        for (call, name) in &[
            (Call::Rename(NEW), "map_function"),
            (Call::Rename(1), "map_function"),
            (Call::RowIndex(None), "map_function"),
            (Call::RowIndex(Some(u32::MAX)), "map_function"),
            (Call::Stats(StatsFunction::Sum), "projection"),
            (Call::Stats(StatsFunction::Min), "projection"),
            (Call::Stats(StatsFunction::Max), "projection"),
            (Call::Unpivot, "map_function"),
            (Call::UnpivotBeside, "map_function"),
        ] {
            assert_call(&rt, rt.alloc(), *call, count, &DataType::Int8, name);
        }
    }
}

#[test]
fn columns_of_any_number_without_a_statistic_have_nulls(rt: HostRuntime) {
    for count in SIZES {
        let call = Call::Stats(StatsFunction::Sum);
        assert_call(
            &rt,
            rt.alloc(),
            call,
            count,
            &DataType::String,
            "projection",
        );
        let call = Call::Stats(StatsFunction::Min);
        assert_call(&rt, rt.alloc(), call, count, &DataType::Null, "projection");
    }
}

#[test]
fn explodes_of_any_number_of_columns_are_copied_and_lowered(rt: HostRuntime) {
    let dtype = deep_type(&rt, rt.alloc(), 1, &DataType::Int8);
    for (count, name) in &[
        (0, "df"),
        (1, "map_function"),
        (2, "map_function"),
        (300, "map_function"),
    ] {
        assert_call(&rt, rt.alloc(), Call::Explode, *count, &dtype, name);
    }
    drop(dtype);
}

// Structs of so many fields are unnested, in so many columns.
fn assert_unnested(rt: &impl Abort, alloc: Global, columns: usize, fields: usize) {
    let dtype = struct_type(rt, alloc, fields, &DataType::Int8);
    assert_call(rt, alloc, Call::Unnest, columns, &dtype, "map_function");
    drop(dtype);
}

#[test]
fn structs_of_any_number_of_fields_and_columns_are_unnested(rt: HostRuntime) {
    for count in SIZES {
        assert_unnested(&rt, rt.alloc(), 1, count);
        assert_unnested(&rt, rt.alloc(), count, 0);
    }
}
