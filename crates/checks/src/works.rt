//! Plans over one input of any depth and of any number of keys: built, copied, lowered and told, and copies of their items.

use crate::fixtures::{NO_MEMORY, assert_number, assert_text, numbered};
use crate::keys::flags;
use crate::lowering::answer;
use crate::plan_schemas::assert_copied;
use crate::plans::scan_of;
use plan_dsl::builder::DslBuilder;
use plan_dsl::distinct_options::{DistinctOptionsDSL, UniqueKeepStrategy};
use plan_dsl::expr::Expr;
use plan_dsl::function::{DslFunction, FunctionIR};
use plan_dsl::plan::DslPlan;
use plan_dsl::selector::{Selector, Selectors};
use plan_dsl::sort_options::SortMultipleOptions;
use plan_types::dtype::DataType;
use std::alloc::Global;
use std::process::Abort;

// The calls of a builder that put a node over one input.
#[derive(Clone, Copy)]
enum Call {
    Sort,
    Distinct,
    Slice,
    Cache,
    Rechunk,
}

// So many columns, by their names.
fn columns_of(rt: &impl Abort, alloc: Global, count: usize) -> Vec<Expr> {
    let mut columns = Vec::new(alloc);
    for number in 0..count {
        columns
            .push(Expr::Column(numbered(rt, alloc, number)))
            .expect(rt, NO_MEMORY);
    }
    columns
}

// A flag for each of so many keys.
fn flags_for(rt: &impl Abort, alloc: Global, count: usize) -> SortMultipleOptions {
    SortMultipleOptions {
        descending: flags(rt, alloc, count),
        nulls_last: flags(rt, alloc, count),
    }
}

/// Selectors of so many columns, by their names.
pub(crate) fn selectors_of(rt: &impl Abort, alloc: Global, count: usize) -> Selectors {
    let mut items = Vec::new(alloc);
    for number in 0..count {
        let root = Box::new(alloc, Expr::Column(numbered(rt, alloc, number)));
        items
            .push(Selector::Root(root.expect(rt, NO_MEMORY)))
            .expect(rt, NO_MEMORY);
    }
    Selectors { items }
}

// The node over the plan, by so many columns.
fn over(rt: &impl Abort, alloc: Global, kind: Call, plan: DslPlan, count: usize) -> DslPlan {
    let builder = DslBuilder::from(plan);
    let built = match kind {
        Call::Sort => builder.sort(
            alloc,
            columns_of(rt, alloc, count),
            flags_for(rt, alloc, count),
        ),
        Call::Distinct => builder.distinct(
            alloc,
            DistinctOptionsDSL {
                subset: Some(selectors_of(rt, alloc, count)),
                maintain_order: true,
                keep_strategy: UniqueKeepStrategy::None,
            },
        ),
        Call::Slice => builder.slice(alloc, i64::MIN, u32::MAX),
        Call::Cache => builder.cache(alloc, usize::MAX),
        Call::Rechunk => builder.map_private(alloc, DslFunction::from(FunctionIR::Rechunk)),
    };
    built.expect(rt, NO_MEMORY).build()
}

// So many such nodes over a scan of so many columns are copied, each has a line of the report, and the top of what the copy
// is lowered to is copied.
fn assert_over(
    rt: &impl Abort,
    alloc: Global,
    kind: Call,
    name: &str,
    levels: usize,
    count: usize,
) {
    let mut plan = scan_of(rt, alloc, None, count, &DataType::Int8);
    for _ in 0..levels {
        plan = over(rt, alloc, kind, plan, count);
    }
    let copy = plan.try_clone(alloc).expect(rt, NO_MEMORY);
    let report = answer(alloc, plan).expect(rt, NO_MEMORY);
    assert_copied(rt, alloc, copy);
    assert_number(
        rt,
        report.as_str().lines().count(),
        levels.saturating_add(2),
    );
    let top = report.as_str().get(2..2 + name.len());
    assert_text(rt, top.expect(rt, "a line has a name"), name);
}

#[test]
fn plans_over_one_input_of_any_depth_are_copied_and_lowered(rt: HostRuntime) {
    for (kind, name) in &[
        (Call::Sort, "sort"),
        (Call::Distinct, "distinct"),
        (Call::Slice, "slice"),
        (Call::Cache, "cache"),
        (Call::Rechunk, "map_function"),
    ] {
        for (levels, count) in &[(1, 1), (2, 2), (100, 2), (1, 300)] {
            assert_over(&rt, rt.alloc(), *kind, name, *levels, *count);
        }
    }
}
