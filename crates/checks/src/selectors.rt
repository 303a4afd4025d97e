//! Selectors, the names that they make, and drops.

use crate::fixtures::{LEVELS, NO_MEMORY, SIZES, assert_alike, assert_number, numbered};
use crate::schemas::schema_of;
use plan_arena::arena::Node;
use plan_arena::ir::IR;
use plan_dsl::builder::DslBuilder;
use plan_dsl::expr::Expr;
use plan_dsl::function::DslFunction;
use plan_dsl::plan::DslPlan;
use plan_dsl::selector::Selector;
use plan_expand::selectors::expand_selectors;
use plan_types::dtype::DataType;
use plan_types::schema::Schema;
use std::alloc::Global;
use std::process::Abort;

// The column of the part of that number.
fn root(rt: &impl Abort, alloc: Global, number: usize) -> Selector {
    let expr = Expr::Column(numbered(rt, alloc, number));
    Selector::Root(Box::new(alloc, expr).expect(rt, NO_MEMORY))
}

// What either selector has.
fn added(rt: &impl Abort, alloc: Global, first: Selector, second: Selector) -> Selector {
    let first = Box::new(alloc, first).expect(rt, NO_MEMORY);
    let second = Box::new(alloc, second).expect(rt, NO_MEMORY);
    Selector::Add(first, second)
}

// So many selectors, each of a column of its own and of the first.
fn selectors_of(rt: &impl Abort, alloc: Global, count: usize) -> Vec<Selector> {
    let mut selectors = Vec::new(alloc);
    for number in 0..count {
        let own = root(rt, alloc, number);
        let first = root(rt, alloc, 0);
        selectors
            .push(added(rt, alloc, own, first))
            .expect(rt, NO_MEMORY);
    }
    selectors
}

#[test]
fn selectors_of_any_number_make_each_name_once(rt: HostRuntime) {
    let schema = Schema::new(rt.alloc());
    for count in SIZES {
        let selectors = selectors_of(&rt, rt.alloc(), count);
        let names = expand_selectors(rt.alloc(), selectors, &schema).expect(&rt, NO_MEMORY);
        assert_number(&rt, names.len(), count);
        drop(names);
    }
    drop(schema);
}

#[test]
fn selectors_of_any_depth_are_copied(rt: HostRuntime) {
    for levels in LEVELS {
        let mut selector = root(&rt, rt.alloc(), 0);
        for number in 0..levels {
            selector = added(&rt, rt.alloc(), selector, root(&rt, rt.alloc(), number));
        }
        let copy = selector.try_clone(rt.alloc()).expect(&rt, NO_MEMORY);
        assert_alike(&rt, copy, &selector);
        drop(selector);
    }
}

// A drop of so many selectors over the empty table.
fn drop_of(rt: &impl Abort, alloc: Global, count: usize) -> DslPlan {
    let selectors = selectors_of(rt, alloc, count);
    let table = DslPlan::default(alloc).expect(rt, NO_MEMORY);
    let built = DslBuilder::from(table).drop(alloc, selectors, true);
    built.expect(rt, NO_MEMORY).build()
}

// How many selectors a drop has.
fn selector_count(plan: &DslPlan) -> usize {
    match plan {
        DslPlan::MapFunction {
            function: DslFunction::Drop(function),
            ..
        } => function.to_drop.items.len(),
        _ => 0,
    }
}

#[test]
fn drops_of_any_number_of_selectors_are_copied(rt: HostRuntime) {
    for count in SIZES {
        let plan = drop_of(&rt, rt.alloc(), count);
        let copy = plan.try_clone(rt.alloc()).expect(&rt, NO_MEMORY);
        assert_number(&rt, selector_count(&copy), count);
        drop(copy);
        drop(plan);
    }
}

// How many columns a simple projection has.
fn column_count(item: &IR) -> usize {
    match item {
        IR::SimpleProjection { columns, .. } => columns.len(),
        _ => 0,
    }
}

#[test]
fn simple_projections_of_any_number_of_columns_are_copied(rt: HostRuntime) {
    for count in SIZES {
        let item = IR::SimpleProjection {
            input: Node(0),
            columns: schema_of(&rt, rt.alloc(), count, &DataType::Int8),
        };
        let copy = item.try_clone(rt.alloc()).expect(&rt, NO_MEMORY);
        assert_number(&rt, column_count(&copy), count);
        drop(copy);
        drop(item);
    }
}
