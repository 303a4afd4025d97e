//! Filters that are split into filters by parts of their predicate.
ghost use Rattle.std.specs.Prelude.{◌≡◌, [], ◌∷◌, map, true, false, IfOk, IfErr, OnOk, MatchOption};
ghost use Rattle.plan_types.specs.Errors.{no_memory};
ghost use Rattle.plan_dsl.specs.Ops.{BinaryOp, Expression};
ghost use Rattle.plan_dsl.specs.Plans.{Named};
ghost use Rattle.plan_arena.specs.Denotation.{Denotes, DenotesTree};
ghost use Rattle.plan_arena.specs.Items.{DenoteNamed, HoldsExpression, expression_layer, named_node};
ghost use Rattle.plan_arena.specs.Layers.{inputs_of, op_of};
ghost use Rattle.plan_properties.specs.Splitting.{AddsParts, conjuncts, is_conjunction, split_predicate};

use crate::properties::permits_filter_pushdown_rec;
use plan_arena::aexpr::AExpr;
use plan_arena::arena::{Arena, Node};
use plan_arena::expr_ir::ExprIR;
use plan_dsl::operator::Operator;
use plan_dsl::udfs::Udfs;
use plan_types::error::PlanError;

/// The predicates of the filters that stand in place of one, from left to right, of which the last is the innermost. Where
/// the filter may be moved they are the parts that `And` and `LogicalAnd` join, each under its own name; else it stays.
pub fn split_predicate(
    predicate: ExprIR,
    arena: &Arena<AExpr>,
    udfs: &Udfs,
) -> Result<Vec<ExprIR>, PlanError>
    requires { DenotesTree (HoldsExpression arena.now) (named_node predicate).expression }
    ensures ok { IfOk result (λ parts. (whole : Named Expression) → DenoteNamed arena.now (named_node predicate ∷ []) (whole ∷ []) →
        DenoteNamed arena.now (map named_node parts.items) (split_predicate whole)) }
    ensures err { IfErr result (λ error. error ≡ no_memory) }
{
    let mut parts = Vec::new(arena.allocator());
    let node = predicate.node();
    if permits_filter_pushdown_rec(arena.get(node), arena, udfs) {
        drop(predicate);
        push_conjuncts(node, arena, &mut parts)?;
        return Ok(parts);
    }
    parts.push(predicate)?;
    Ok(parts)
}

// Appends the parts of the predicate at a node.
fn push_conjuncts(
    node: Node,
    arena: &Arena<AExpr>,
    parts: &mut Vec<ExprIR>,
) -> Result<(), PlanError>
    requires { DenotesTree (HoldsExpression arena.now) node.0 }
    ensures ok { OnOk result ((tree : Expression) → Denotes (HoldsExpression arena.now) node.0 tree →
        AddsParts arena.now parts.old.items parts.new.items (conjuncts tree)) }
    ensures err { IfErr result (λ error. error ≡ no_memory) }
{
    match operands_joined(arena.get(node)) {
        Some((left, right)) => {
            push_conjuncts(left, arena, parts)?;
            push_conjuncts(right, arena, parts)
        }
        None => push_part(node, arena, parts),
    }
}

// Appends the expression at a node.
fn push_part(node: Node, arena: &Arena<AExpr>, parts: &mut Vec<ExprIR>) -> Result<(), PlanError>
    requires { DenotesTree (HoldsExpression arena.now) node.0 }
    ensures ok { OnOk result ((tree : Expression) → Denotes (HoldsExpression arena.now) node.0 tree →
        AddsParts arena.now parts.old.items parts.new.items (tree ∷ [])) }
    ensures err { IfErr result (λ error. error ≡ no_memory) }
{
    let part = ExprIR::from_node(arena.allocator(), node, arena)?;
    parts.push(part)?;
    Ok(())
}

// The operands of an item that asks that both of two are true.
fn operands_joined(item: &AExpr) -> Option<(Node, Node)>
    ensures { MatchOption result (is_conjunction (op_of (expression_layer item.now)) ≡ false) (λ both.
        (is_conjunction (op_of (expression_layer item.now)) ≡ true) × (inputs_of (expression_layer item.now) ≡ both.0.0 ∷ both.1.0 ∷ [])) }
{
    match item {
        AExpr::BinaryExpr { left, op, right } if joins(*op) => Some((*left, *right)),
        _ => None,
    }
}

// Whether the operator asks that both of two are true.
fn joins(op: Operator) -> bool
    ensures { result ≡ is_conjunction (BinaryOp op) }
{
    matches!(op, Operator::And | Operator::LogicalAnd)
}
