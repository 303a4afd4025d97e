//! Filters that are split into parts: in which order, and into any number.

use crate::fixtures::{NO_MEMORY, assert_number, assert_text, column};
use crate::plans::scan_of;
use plan_arena::arena::{Arena, Node};
use plan_arena::ir::IR;
use plan_arena::plan::IRPlan;
use plan_dsl::builder::DslBuilder;
use plan_dsl::expr::Expr;
use plan_dsl::operator::Operator;
use plan_dsl::udfs::Udfs;
use plan_lower::conversion::dsl_to_ir::PlanLowering;
use plan_types::dtype::DataType;
use std::alloc::Global;
use std::process::Abort;

// Both of two are true.
fn both(rt: &impl Abort, alloc: Global, left: Expr, right: Expr) -> Expr {
    Expr::BinaryExpr {
        left: Box::new(alloc, left).expect(rt, NO_MEMORY),
        op: Operator::And,
        right: Box::new(alloc, right).expect(rt, NO_MEMORY),
    }
}

// So many columns more are joined to one, from the left or from the right.
fn parts(rt: &impl Abort, alloc: Global, more: usize, is_left: bool) -> Expr {
    let mut whole = column(rt, alloc, "part 0");
    for _ in 0..more {
        let other = column(rt, alloc, "part 0");
        whole = if is_left {
            both(rt, alloc, whole, other)
        } else {
            both(rt, alloc, other, whole)
        };
    }
    whole
}

// The filter by the predicate over a scan of two columns of truth values, lowered.
fn lowered(rt: &impl Abort, alloc: Global, predicate: Expr) -> IRPlan {
    let scan = scan_of(rt, alloc, None, 2, &DataType::Boolean);
    let builder = DslBuilder::from(scan).filter(alloc, predicate);
    let plan = builder.expect(rt, NO_MEMORY).build();
    plan.to_alp(alloc, &Udfs::new(alloc)).expect(rt, NO_MEMORY)
}

// There is a filter for each part, over the scan.
fn assert_split(rt: &impl Abort, alloc: Global, more: usize, is_left: bool) {
    let plan = lowered(rt, alloc, parts(rt, alloc, more, is_left));
    assert_number(rt, plan.lp_arena.len(), more.saturating_add(2));
    drop(plan);
}

#[test]
fn filters_are_split_into_any_number_of_parts(rt: HostRuntime) {
    for more in [0, 1, 2, 1_999] {
        assert_split(&rt, rt.alloc(), more, true);
        assert_split(&rt, rt.alloc(), more, false);
    }
}

// The node of that number is a filter by the column, over the node.
fn assert_filter(rt: &impl Abort, arena: &Arena<IR>, number: usize, name: &str, below: usize) {
    assert!(rt; number < arena.len());
    match arena.get(Node(number)) {
        IR::Filter { input, predicate } => {
            assert_text(rt, predicate.output_name().as_str(), name);
            assert_number(rt, input.0, below);
        }
        _ => panic!(rt; "it is a filter"),
    }
}

#[test]
fn the_last_part_is_the_innermost_filter(rt: HostRuntime) {
    let first = column(&rt, rt.alloc(), "part 0");
    let second = column(&rt, rt.alloc(), "part 1");
    let plan = lowered(&rt, rt.alloc(), both(&rt, rt.alloc(), first, second));
    assert_filter(&rt, &plan.lp_arena, plan.lp_top.0, "part 0", 1);
    assert_filter(&rt, &plan.lp_arena, 1, "part 1", 0);
    drop(plan);
}
