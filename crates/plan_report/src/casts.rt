//! How many casts the expressions of a lowered plan have.
ghost use Rattle.std.specs.Prelude.{◌≡◌, ◌+◌, List, map, IfOk};
ghost use Rattle.plan_dsl.specs.Ops.{Expression};
ghost use Rattle.plan_dsl.specs.Plans.{Plan, Named};
ghost use Rattle.plan_arena.specs.Denotation.{Denotes, DenotesTree};
ghost use Rattle.plan_arena.specs.Items.{named_node, nodes_of, plan_layer, HoldsExpression, DenoteNamed, HoldsPlan};
ghost use Rattle.plan_arena.specs.Layers.{op_of};
ghost use Rattle.plan_dsl.specs.Counts.{expression_casts, outputs_casts, cast_count};
ghost use Rattle.plan_report.specs.Casts.{DenoteOutputs};

use plan_arena::aexpr::AExpr;
use plan_arena::arena::{Arena, Node};
use plan_arena::expr_ir::ExprIR;
use plan_arena::ir::IR;
use plan_arena::plan::IRPlan;
use std::alloc::AllocError;

// The sum. A count past the counter's range is answered as out of memory.
fn add(left: u64, right: u64) -> Result<u64, AllocError>
    ensures { IfOk result (λ sum. sum ≡ left + right) }
{
    left.checked_add(right).ok_or(AllocError)
}

/// How many casts the expression at the node has.
pub(crate) fn expression_casts(arena: &Arena<AExpr>, node: Node) -> Result<u64, AllocError>
    requires { DenotesTree (HoldsExpression arena.now) node.0 }
    ensures { IfOk result (λ count. (tree : Expression) → Denotes (HoldsExpression arena.now) node.0 tree
        → count ≡ expression_casts tree) }
{
    let item = arena.get(node);
    match item {
        AExpr::Column(_) => Ok(0),
        AExpr::Literal(_) => Ok(0),
        AExpr::BinaryExpr { left, right, .. } => {
            let first = expression_casts(arena, *left)?;
            let second = expression_casts(arena, *right)?;
            let count = add(first, second)?;
            Ok(count)
        }
        AExpr::Cast { expr, .. } => {
            let below = expression_casts(arena, *expr)?;
            let count = add(1, below)?;
            Ok(count)
        }
        _ => {
            let inputs = item.input_nodes();
            let mut count = 0;
            for index in 0..inputs.len() {
                let casts = expression_casts(arena, inputs.at(index))?;
                count = add(count, casts)?;
            }
            Ok(count)
        }
    }
}

// How many casts the expressions of a list have.
fn outputs_casts(arena: &Arena<AExpr>, outputs: &[ExprIR]) -> Result<u64, AllocError>
    requires { DenoteOutputs arena.now (map named_node outputs.now) }
    ensures { IfOk result (λ count. (trees : List (Named Expression))
        → DenoteNamed arena.now (map named_node outputs.now) trees → count ≡ outputs_casts trees) }
{
    let mut count = 0;
    for output in outputs {
        let casts = expression_casts(arena, output.node())?;
        count = add(count, casts)?;
    }
    Ok(count)
}

// How many casts the expressions of a plan's node have.
fn item_casts(arena: &Arena<AExpr>, item: &IR) -> Result<u64, AllocError>
    requires { DenoteOutputs arena.now (nodes_of (op_of (plan_layer item.now)).kind) }
    ensures { IfOk result (λ count. (trees : List (Named Expression))
        → DenoteNamed arena.now (nodes_of (op_of (plan_layer item.now)).kind) trees → count ≡ outputs_casts trees) }
{
    let (first, later) = item.expressions();
    let first = outputs_casts(arena, first)?;
    let later = outputs_casts(arena, later)?;
    let count = add(first, later)?;
    Ok(count)
}

/// How many casts the expressions of the plan at the node have.
pub(crate) fn plan_casts(plan: &IRPlan, node: Node) -> Result<u64, AllocError>
    requires { DenotesTree (HoldsPlan plan.now.expr_arena plan.now.lp_arena) node.0 }
    ensures { IfOk result (λ count. (tree : Plan) → Denotes (HoldsPlan plan.now.expr_arena plan.now.lp_arena) node.0 tree
        → count ≡ cast_count tree) }
{
    let item = plan.lp_arena.get(node);
    let here = item_casts(&plan.expr_arena, item)?;
    match item.get_input() {
        None => Ok(here),
        Some(input) => {
            let below = plan_casts(plan, input)?;
            let count = add(here, below)?;
            Ok(count)
        }
    }
}
