//! Filters whose predicates a rule goes over.
ghost use Rattle.std.specs.Prelude.{◌≡◌, ◌<◌};
ghost use Rattle.plan_types.specs.Schemas.{columns};
ghost use Rattle.plan_dsl.specs.Registry.{registry};
ghost use Rattle.plan_arena.specs.Denotation.{DenotesTree};
ghost use Rattle.plan_arena.specs.Items.{HoldsExpression};
ghost use Rattle.plan_infer.specs.KeptTypes.{IsRight};
ghost use Rattle.plan_coerce.specs.Optimizer.{AreTrees, StaysOver, roots_of};
ghost use Rattle.plan_coerce.specs.Rules.{HasUncheckedInputs};
ghost use Rattle.checks.specs.Filters.{HasAcceptedTop};

use crate::coercions::{no_types, push};
use crate::fixtures::{NO_MEMORY, assert_number, assert_refused, column};
use crate::plans::scan_of;
use plan_arena::aexpr::AExpr;
use plan_arena::arena::{Arena, Node};
use plan_arena::ir::IR;
use plan_arena::plan::IRPlan;
use plan_coerce::coercion_rule::TypeCoercionRule;
use plan_coerce::rule::OptimizationRule;
use plan_coerce::stack_opt::ConversionOptimizer;
use plan_coerce::type_check::TypeCheckRule;
use plan_dsl::udfs::Udfs;
use plan_infer::steps::Steps;
use plan_infer::type_table::TypeTable;
use plan_lower::conversion::dsl_to_ir::PlanLowering;
use plan_lower::conversion::expr_to_ir::to_expr_ir;
use plan_types::dtype::DataType;
use plan_types::error::{ErrorKind, PlanError};
use plan_types::schema::Schema;
use std::alloc::Global;
use std::marker::Brand;
use std::process::Abort;
use std::sync::ledger::{Blank, Ledger};

/// A filter in an arena of plans, with its predicate's node and the schema of its input.
#[derive(Drop)]
struct Filtered {
    plans: Arena<IR>,
    arena: Arena<AExpr>,
    node: Node,
    predicate: Node,
    schema: Schema,
}

// A filter by the column of that name over the plan.
fn filter_over(rt: &impl Abort, alloc: Global, plan: IRPlan, name: &str, udfs: &Udfs) -> Filtered
    requires { HasAcceptedTop (registry udfs.now) plan }
    ensures inputs { HasUncheckedInputs (registry udfs.now) result.arena result.plans result.node.0 }
    ensures over { StaysOver (registry udfs.now) result.arena result.plans result.node.0 (columns result.schema) }
    ensures tree { DenotesTree (HoldsExpression result.arena) result.predicate.0 }
{
    let IRPlan {
        lp_top,
        lp_arena,
        expr_arena,
    } = plan;
    let (mut plans, mut arena) = (lp_arena, expr_arena);
    let schema = plans.get(lp_top).schema(alloc, &plans, udfs);
    let schema = schema.expect(rt, NO_MEMORY);
    let expr = column(rt, alloc, name);
    let predicate = to_expr_ir(expr, &mut arena).expect(rt, NO_MEMORY);
    let root = predicate.node();
    let item = IR::Filter {
        input: lp_top,
        predicate,
    };
    let node = plans.add(item).expect(rt, NO_MEMORY);
    Filtered {
        plans,
        arena,
        node,
        predicate: root,
        schema,
    }
}

// A filter by the column of that name over a scan of one column of the type.
fn filter_of_scan(
    rt: &impl Abort,
    alloc: Global,
    name: &str,
    dtype: &DataType,
    udfs: &Udfs,
) -> Filtered
    ensures inputs { HasUncheckedInputs (registry udfs.now) result.arena result.plans result.node.0 }
    ensures over { StaysOver (registry udfs.now) result.arena result.plans result.node.0 (columns result.schema) }
    ensures tree { DenotesTree (HoldsExpression result.arena) result.predicate.0 }
{
    let scan = scan_of(rt, alloc, None, 1, dtype);
    let plan = scan.to_alp(alloc, udfs).expect(rt, NO_MEMORY);
    filter_over(rt, alloc, plan, name, udfs)
}

// What the rule says of the filter and of its predicate.
fn answer_by<R: OptimizationRule, M: Ledger, L: Ledger>(
    rule: &R,
    optimizer: &mut ConversionOptimizer,
    filter: &mut Filtered,
    udfs: &Udfs,
    types: &mut TypeTable,
    typings: Blank,
    steps: Blank,
) -> Result<(), PlanError>
    requires name { typings.name ≡ M.name }
    requires parts { typings.parts ≡ M.parts }
    requires some { 0 < typings.parts }
    requires steps_name { steps.name ≡ L.name }
    requires steps_parts { steps.parts ≡ L.parts }
    requires some_steps { 0 < steps.parts }
    requires trees { AreTrees filter.old.arena (roots_of optimizer.old) }
    requires right { IsRight (registry udfs.now) (columns filter.old.schema) filter.old.arena types.old }
    requires inputs { HasUncheckedInputs (registry udfs.now) filter.old.arena filter.old.plans filter.old.node.0 }
    requires over { StaysOver (registry udfs.now) filter.old.arena filter.old.plans filter.old.node.0 (columns filter.old.schema) }
{
    let mut typings = Steps::<M>::new(typings);
    let mut steps = Steps::<L>::new(steps);
    optimizer.coerce_types(
        rule,
        &mut filter.arena,
        &mut filter.plans,
        filter.node,
        &filter.schema,
        udfs,
        types,
        &mut typings,
        &mut steps,
    )
}

// What the rule says of a filter by the column of that name over a scan of one column of the type.
fn answer<R: OptimizationRule>(
    rt: &impl Abort,
    alloc: Global,
    rule: &R,
    name: &str,
    dtype: &DataType,
) -> Result<(), PlanError> {
    let udfs = Udfs::new(alloc);
    let mut filter = filter_of_scan(rt, alloc, name, dtype, &udfs);
    let mut types = no_types(&filter.arena);
    let mut optimizer = ConversionOptimizer::new(alloc);
    push(rt, &mut optimizer, filter.predicate, &filter.arena);
    let (typings, steps) = (Blank::new(1), Blank::new(1));
    let answer = answer_by::<R, Brand, Brand>(
        rule,
        &mut optimizer,
        &mut filter,
        &udfs,
        &mut types,
        typings,
        steps,
    );
    assert_number(rt, filter.plans.len(), 2);
    drop(filter);
    drop(types);
    drop(optimizer);
    answer
}

#[test]
fn a_predicate_of_another_type_is_refused_by_the_check_alone(rt: HostRuntime) {
    for dtype in &[DataType::Int8, DataType::Null, DataType::Date] {
        let checked = answer(&rt, rt.alloc(), &TypeCheckRule, "part 0", dtype);
        assert_refused(&rt, checked, ErrorKind::InvalidOperation);
        let coerced = answer(&rt, rt.alloc(), &TypeCoercionRule, "part 0", dtype);
        coerced.expect(&rt, NO_MEMORY);
    }
}

#[test]
fn a_predicate_of_truth_values_is_passed(rt: HostRuntime) {
    let dtype = DataType::Boolean;
    let checked = answer(&rt, rt.alloc(), &TypeCheckRule, "part 0", &dtype);
    checked.expect(&rt, NO_MEMORY);
    let coerced = answer(&rt, rt.alloc(), &TypeCoercionRule, "part 0", &dtype);
    coerced.expect(&rt, NO_MEMORY);
}

#[test]
fn a_predicate_without_a_type_is_refused(rt: HostRuntime) {
    let dtype = DataType::Boolean;
    let checked = answer(&rt, rt.alloc(), &TypeCheckRule, "missing", &dtype);
    assert_refused(&rt, checked, ErrorKind::ColumnNotFound);
    let coerced = answer(&rt, rt.alloc(), &TypeCoercionRule, "missing", &dtype);
    assert_refused(&rt, coerced, ErrorKind::ColumnNotFound);
}
