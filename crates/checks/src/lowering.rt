//! Lowering and reports of plans of any depth, and refusals below any number of levels.

use crate::expressions::{Kind, nested};
use crate::fixtures::{NO_MEMORY, assert_text, column};
use crate::plans::{filters_over, scan_of, select_of};
use plan_arena::arena::Node;
use plan_arena::plan::IRPlan;
use plan_dsl::expr::Expr;
use plan_dsl::literal::LiteralValue;
use plan_dsl::plan::DslPlan;
use plan_dsl::udfs::Udfs;
use plan_lower::conversion::dsl_to_ir::PlanLowering;
use plan_report::report::{refusal, report};
use plan_types::dtype::DataType;
use std::alloc::{AllocError, Global};
use std::process::Abort;

/// The report of the lowered plan, or of its refusal.
pub(crate) fn answer(alloc: Global, plan: DslPlan) -> Result<String, AllocError> {
    match plan.to_alp(alloc, &Udfs::new(alloc)) {
        Ok(lowered) => report(alloc, &lowered),
        Err(error) => refusal(alloc, &error),
    }
}

/// A select of the expression over the plan.
pub(crate) fn select(rt: &impl Abort, alloc: Global, expr: Expr, input: DslPlan) -> DslPlan {
    let exprs = vec![in alloc; expr].expect(rt, NO_MEMORY);
    select_of(rt, alloc, exprs, input)
}

// What is told of a select of so many expressions of the kind, one over another and over a column.
fn assert_nested(rt: &impl Abort, alloc: Global, kind: Kind, levels: usize, want: &str) {
    let lowest = column(rt, alloc, "part 0");
    let expr = nested(rt, alloc, kind, levels, lowest);
    let scan = scan_of(rt, alloc, None, 1, &DataType::Int8);
    let found = answer(alloc, select(rt, alloc, expr, scan)).expect(rt, NO_MEMORY);
    assert_text(rt, found.as_str(), want);
}

#[test]
fn expressions_of_any_depth_are_lowered(rt: HostRuntime) {
    for (kind, want) in &[
        (
            Kind::Left,
            ". projection (\"part 0\" Int8)\n.0 df (\"part 0\" Int8)\ncasts 0\n",
        ),
        (
            Kind::Right,
            ". projection (\"literal\" Int8)\n.0 df (\"part 0\" Int8)\ncasts 0\n",
        ),
        (
            Kind::Explode,
            ". projection (\"part 0\" Int8)\n.0 df (\"part 0\" Int8)\ncasts 0\n",
        ),
        (
            Kind::Gather,
            ". projection (\"part 0\" Int8)\n.0 df (\"part 0\" Int8)\ncasts 0\n",
        ),
        (
            Kind::Alias,
            ". projection (\"x\" Int8)\n.0 df (\"part 0\" Int8)\ncasts 0\n",
        ),
        (
            Kind::Aggregate,
            ". projection (\"part 0\" Int8)\n.0 df (\"part 0\" Int8)\ncasts 0\n",
        ),
        (
            Kind::Windowed,
            ". projection (\"part 0\" Int8)\n.0 df (\"part 0\" Int8)\ncasts 0\n",
        ),
        (
            Kind::Partition,
            ". projection (\"literal\" Null)\n.0 df (\"part 0\" Int8)\ncasts 0\n",
        ),
        (
            Kind::Ordered,
            ". projection (\"literal\" Null)\n.0 df (\"part 0\" Int8)\ncasts 0\n",
        ),
        (
            Kind::Truthy,
            ". projection (\"part 0\" Int8)\n.0 df (\"part 0\" Int8)\ncasts 0\n",
        ),
        (
            Kind::Falsy,
            ". projection (\"literal\" Int8)\n.0 df (\"part 0\" Int8)\ncasts 0\n",
        ),
        (
            Kind::Filled,
            ". projection (\"part 0\" Int8)\n.0 df (\"part 0\" Int8)\ncasts 0\n",
        ),
        (
            Kind::Filling,
            ". projection (\"literal\" Int8)\n.0 df (\"part 0\" Int8)\ncasts 0\n",
        ),
    ] {
        for levels in [1, 2, 1_000] {
            assert_nested(&rt, rt.alloc(), *kind, levels, want);
        }
    }
}

#[test]
fn an_operand_is_cast_at_each_of_many_levels(rt: HostRuntime) {
    assert_nested(
        &rt,
        rt.alloc(),
        Kind::Index,
        1_000,
        ". projection (\"literal\" Int32)\n.0 df (\"part 0\" Int8)\ncasts 1000\n",
    );
}

// So many filters are lowered, of which the plan is a copy.
fn assert_filters(rt: &impl Abort, alloc: Global, filters: usize) {
    let scan = scan_of(rt, alloc, Some(3), 1, &DataType::Boolean);
    let plan = filters_over(rt, alloc, scan, filters);
    let copy = plan.try_clone(alloc).expect(rt, NO_MEMORY);
    drop(plan);
    let found = answer(alloc, copy).expect(rt, NO_MEMORY);
    assert!(rt;
        found
            .as_str()
            .ends_with(" df (\"part 0\" Boolean)\ncasts 0\n")
    );
}

#[test]
fn filters_of_any_depth_are_copied_and_lowered(rt: HostRuntime) {
    for filters in [0, 1, 2, 3, 200] {
        assert_filters(&rt, rt.alloc(), filters);
    }
}

// A missing column is refused so many filters below the top.
fn assert_refused(rt: &impl Abort, alloc: Global, filters: usize) {
    let missing = column(rt, alloc, "missing");
    let scan = scan_of(rt, alloc, None, 1, &DataType::Boolean);
    let plan = filters_over(rt, alloc, select(rt, alloc, missing, scan), filters);
    let found = answer(alloc, plan).expect(rt, NO_MEMORY);
    assert!(rt; found.as_str().starts_with("refused ColumnNotFound ."));
}

#[test]
fn a_missing_column_is_refused_at_any_depth(rt: HostRuntime) {
    for filters in [0, 1, 2, 3, 200] {
        assert_refused(&rt, rt.alloc(), filters);
    }
}

// What the node of that number is called, of the plan that is lent.
fn name_at(rt: &impl Abort, plan: &IRPlan, number: usize) -> &'static str {
    let lent = plan.as_ref().with_root(Node(number));
    assert!(rt; lent.lp_top.0 < lent.lp_arena.len());
    lent.root().name()
}

#[test]
fn a_lowered_plan_is_lent_from_any_node(rt: HostRuntime) {
    let scan = scan_of(&rt, rt.alloc(), None, 1, &DataType::Boolean);
    let plan = filters_over(&rt, rt.alloc(), scan, 200);
    let udfs = Udfs::new(rt.alloc());
    let lowered = plan.to_alp(rt.alloc(), &udfs).expect(&rt, NO_MEMORY);
    assert!(rt; lowered.lp_top.0 < lowered.lp_arena.len());
    assert_text(&rt, lowered.root().name(), "selection");
    assert_text(&rt, name_at(&rt, &lowered, 0), "df");
    for number in 1..lowered.lp_arena.len() {
        assert_text(&rt, name_at(&rt, &lowered, number), "selection");
    }
    drop(lowered);
}

// Of so many casts of a literal, one over another, so many are left.
fn assert_casts(rt: &impl Abort, alloc: Global, levels: usize, value: LiteralValue, end: &str) {
    let expr = nested(rt, alloc, Kind::Cast, levels, Expr::Literal(value));
    let scan = scan_of(rt, alloc, None, 1, &DataType::Int8);
    let found = answer(alloc, select(rt, alloc, expr, scan)).expect(rt, NO_MEMORY);
    assert!(rt; found.as_str().ends_with(end));
}

#[test]
fn casts_of_literals_go_at_any_depth(rt: HostRuntime) {
    for levels in [1, 2, 1_000] {
        let value = LiteralValue::Int(5);
        assert_casts(&rt, rt.alloc(), levels, value, ")\ncasts 0\n");
    }
    for (levels, end) in &[
        (1, ")\ncasts 1\n"),
        (2, ")\ncasts 2\n"),
        (1_000, ")\ncasts 1000\n"),
    ] {
        assert_casts(&rt, rt.alloc(), *levels, LiteralValue::Null, end);
    }
}
