//! Sorts by keys, and nodes with lists.

use crate::fixtures::{NO_MEMORY, SIZES, assert_alike};
use plan_arena::aexpr::AExpr;
use plan_arena::arena::Node;
use plan_arena::inputs::NodeList;
use plan_dsl::expr::{Expr, Exprs};
use plan_dsl::literal::LiteralValue;
use plan_dsl::sort_options::{Flags, SortMultipleOptions};
use std::alloc::Global;
use std::process::Abort;

/// So many flags, of which every other one is set.
pub(crate) fn flags(rt: &impl Abort, alloc: Global, count: usize) -> Flags {
    let mut items = Vec::new(alloc);
    for number in 0..count {
        items.push(number % 2 == 0).expect(rt, NO_MEMORY);
    }
    Flags {
        items: Box::new(alloc, items).expect(rt, NO_MEMORY),
    }
}

// Null sorted by so many numbers, of which the last is that one, with a flag for each.
fn sorted_by(rt: &impl Abort, alloc: Global, count: usize, last: i128) -> Expr {
    let mut items = Vec::new(alloc);
    for number in 0..count {
        let value = if number + 1 == count { last } else { 7 };
        items
            .push(Expr::Literal(LiteralValue::Int(value)))
            .expect(rt, NO_MEMORY);
    }
    let expr = Box::new(alloc, Expr::Literal(LiteralValue::Null)).expect(rt, NO_MEMORY);
    let descending = flags(rt, alloc, count);
    let nulls_last = flags(rt, alloc, 1);
    Expr::SortBy {
        expr,
        by: Exprs { items },
        sort_options: SortMultipleOptions {
            descending,
            nulls_last,
        },
    }
}

#[test]
fn sorts_by_any_number_of_keys_are_copied(rt: HostRuntime) {
    for count in SIZES {
        let expr = sorted_by(&rt, rt.alloc(), count, 5);
        let copy = expr.try_clone(rt.alloc()).expect(&rt, NO_MEMORY);
        assert_alike(&rt, copy, &expr);
        let other = sorted_by(&rt, rt.alloc(), count, 6);
        assert!(&rt; (other == expr) == (count == 0));
        drop(other);
        drop(expr);
    }
}

// A node sorted by so many others.
fn sorted_node(rt: &impl Abort, alloc: Global, count: usize) -> AExpr {
    let mut items = Vec::new(alloc);
    for number in 0..count {
        items.push(Node(number)).expect(rt, NO_MEMORY);
    }
    let descending = flags(rt, alloc, count);
    let nulls_last = flags(rt, alloc, 1);
    AExpr::SortBy {
        expr: Node(7),
        by: NodeList { items },
        sort_options: SortMultipleOptions {
            descending,
            nulls_last,
        },
    }
}

#[test]
fn nodes_of_any_number_of_inputs_are_copied(rt: HostRuntime) {
    for count in SIZES {
        let item = sorted_node(&rt, rt.alloc(), count);
        let copy = item.try_clone(rt.alloc()).expect(&rt, NO_MEMORY);
        let inputs = copy.inputs(rt.alloc()).expect(&rt, NO_MEMORY);
        let own = item.inputs(rt.alloc()).expect(&rt, NO_MEMORY);
        assert!(rt; inputs.as_slice() == own.as_slice());
        drop(inputs);
        drop(own);
        drop(copy);
        drop(item);
    }
}
