//! Copies of plans of any size.

use crate::fixtures::{NO_MEMORY, SIZES, column};
use crate::schemas::schema_of;
use plan_dsl::builder::DslBuilder;
use plan_dsl::expr::Expr;
use plan_dsl::plan::{DslPlan, ProjectionOptions};
use plan_types::dtype::DataType;
use std::alloc::Global;
use std::process::Abort;

/// A scan of that table, with so many columns of the type.
pub(crate) fn scan_of(
    rt: &impl Abort,
    alloc: Global,
    table: Option<u32>,
    count: usize,
    dtype: &DataType,
) -> DslPlan {
    let schema = schema_of(rt, alloc, count, dtype);
    DslBuilder::from_existing_df(table, schema).build()
}

/// So many filters over the plan, by its first column.
pub(crate) fn filters_over(
    rt: &impl Abort,
    alloc: Global,
    plan: DslPlan,
    filters: usize,
) -> DslPlan {
    let mut builder = DslBuilder::from(plan);
    for _ in 0..filters {
        let predicate = column(rt, alloc, "part 0");
        builder = builder.filter(alloc, predicate).expect(rt, NO_MEMORY);
    }
    builder.build()
}

/// A select of the expressions over the plan.
pub(crate) fn select_of(
    rt: &impl Abort,
    alloc: Global,
    exprs: Vec<Expr>,
    input: DslPlan,
) -> DslPlan {
    let options = ProjectionOptions {
        duplicate_check: false,
    };
    let built = DslBuilder::from(input).project(alloc, exprs, options);
    built.expect(rt, NO_MEMORY).build()
}

// A scan of that table and of so many columns is copied.
fn assert_scan(rt: &impl Abort, alloc: Global, table: Option<u32>, count: usize) {
    let scan = scan_of(rt, alloc, table, count, &DataType::Boolean);
    drop(scan.try_clone(alloc).expect(rt, NO_MEMORY));
    drop(scan);
}

#[test]
fn scans_of_any_size_are_copied(rt: HostRuntime) {
    for count in SIZES {
        assert_scan(&rt, rt.alloc(), None, count);
        assert_scan(&rt, rt.alloc(), Some(0), count);
        assert_scan(&rt, rt.alloc(), Some(u32::MAX), count);
    }
}

// So many columns.
fn columns_of(rt: &impl Abort, alloc: Global, count: usize) -> Vec<Expr> {
    let mut columns = Vec::new(alloc);
    for _ in 0..count {
        let column = column(rt, alloc, "a");
        columns.push(column).expect(rt, NO_MEMORY);
    }
    columns
}

// A select of so many columns is copied, over the default plan.
fn assert_select(rt: &impl Abort, alloc: Global, count: usize) {
    let input = DslPlan::default(alloc).expect(rt, NO_MEMORY);
    let plan = select_of(rt, alloc, columns_of(rt, alloc, count), input);
    drop(plan.try_clone(alloc).expect(rt, NO_MEMORY));
    drop(plan);
}

#[test]
fn selects_of_any_size_are_copied(rt: HostRuntime) {
    for count in SIZES {
        assert_select(&rt, rt.alloc(), count);
    }
}

// An hstack of so many columns is copied, over the default plan.
fn assert_hstack(rt: &impl Abort, alloc: Global, count: usize) {
    let input = DslPlan::default(alloc).expect(rt, NO_MEMORY);
    let columns = columns_of(rt, alloc, count);
    let options = ProjectionOptions::default();
    let built = DslBuilder::from(input).with_columns(alloc, columns, options);
    let plan = built.expect(rt, NO_MEMORY).build();
    drop(plan.try_clone(alloc).expect(rt, NO_MEMORY));
    drop(plan);
}

#[test]
fn hstacks_of_any_size_are_copied(rt: HostRuntime) {
    for count in SIZES {
        assert_hstack(&rt, rt.alloc(), count);
    }
}

// A group-by of so many keys and as many aggregates is copied, over the default plan.
fn assert_group_by(rt: &impl Abort, alloc: Global, count: usize) {
    let input = DslPlan::default(alloc).expect(rt, NO_MEMORY);
    let keys = columns_of(rt, alloc, count);
    let aggs = columns_of(rt, alloc, count);
    let built = DslBuilder::from(input).group_by(alloc, keys, aggs, true);
    let plan = built.expect(rt, NO_MEMORY).build();
    drop(plan.try_clone(alloc).expect(rt, NO_MEMORY));
    drop(plan);
}

#[test]
fn group_bys_of_any_size_are_copied(rt: HostRuntime) {
    for count in SIZES {
        assert_group_by(&rt, rt.alloc(), count);
    }
}
