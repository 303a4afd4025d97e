//! The rule by which nodes do something else with the same inputs.
ghost use Rattle.std.specs.Prelude.{true, false, Some};
ghost use Rattle.plan_coerce.specs.RuleLaws.{said_steady};
ghost use Rattle.plan_coerce.specs.Rules.{said};
ghost use Rattle.own_rule.specs.OpChanges.{HasSameChanged, stays_by, until_stays_by};
ghost use Rattle.own_rule.specs.OpChangeLaws.{changed_congruent, changed_once, changed_transitive};

use crate::op_change::OpChange;
use plan_arena::aexpr::AExpr;
use plan_arena::arena::{Arena, Node};
use plan_arena::ir::IR;
use plan_coerce::rule::OptimizationRule;
use plan_dsl::udfs::Udfs;
use plan_infer::field::Context;
use plan_infer::steps::Steps;
use plan_infer::type_table::TypeTable;
use plan_types::error::PlanError;
use plan_types::schema::Schema;
use std::sync::ledger::Ledger;

/// Such nodes are changed.
///
/// What a rule of one's own has to say, and what that is here:
///
/// - which nodes stay as they are (`settled`), asked of the expression that a node denotes: all but these;
/// - how often a node is replaced until it stays (`measure`, and `turns` at most): once;
/// - what else both expressions have in common, beside type, name and meaning (`related`): they are one expression if all
///   these nodes are changed. That holds of nodes where it holds of their children, and of replacements in a row
///   (`congruent`, `transitive`);
/// - that a node which stays does so where its inputs are put in place by related ones (`steady`). This rule goes by what a
///   node does and by the names and typings of its inputs alone (`said`), so it has that for free (`said_steady`);
/// - which nodes of plans stay (`settled_plan`): all.
///
/// What is to be proved is then the contract of the two methods: a node for which they answer none is settled, and an item
/// that they answer is a replacement (`ChangedOpLemmas`), above all one of the same type, name and meaning, which each
/// `OpChange` shows of its own.
#[derive(Clone, Copy, Drop)]
pub struct OpChangeRule<C>(pub C);

impl<C: OpChange> OptimizationRule for OpChangeRule<C> {
    ghost settled = { λ rule registry schema. said (stays_by (C.finds rule.0) registry schema) registry schema };

    ghost measure = { λ rule registry schema. said (until_stays_by (C.finds rule.0) registry schema) registry schema };

    ghost turns = { λ rule. Some 1 };

    ghost related = { λ rule. HasSameChanged (C.change rule.0) };

    ghost forgets = { λ rule items table node. ⊥ };

    ghost replaces_plans = { λ rule. false };

    ghost settled_plan = { λ rule registry schema kind. true };

    ghost congruent = { λ rule. changed_congruent (C.change rule.0) };

    ghost transitive = { λ rule. changed_transitive (C.change rule.0) };

    ghost steady = { λ rule registry schema. said_steady (stays_by (C.finds rule.0) registry schema) (HasSameChanged (C.change rule.0) registry schema) registry schema };

    ghost bounded = { λ rule. changed_once (C.finds rule.0) };

    fn optimize_plan<M: Ledger>(
        &self,
        _expr_arena: &Arena<AExpr>,
        _lp_arena: &Arena<IR>,
        _node: Node,
        _udfs: &Udfs,
        _types: &mut TypeTable,
        _typings: &mut Steps<M>,
    ) -> Result<Option<IR>, PlanError> {
        Ok(None)
    }

    fn optimize_expr<M: Ledger>(
        &self,
        expr_arena: &mut Arena<AExpr>,
        node: Node,
        schema: &Schema,
        udfs: &Udfs,
        types: &mut TypeTable,
        typings: &mut Steps<M>,
    ) -> Result<Option<AExpr>, PlanError> {
        if !self.0.concerns(expr_arena.get(node)) {
            return Ok(None);
        }
        types.field_of(node, schema, Context::Default, expr_arena, udfs, typings)?;
        self.0
            .in_place_of(expr_arena.get(node), types, expr_arena.allocator())
    }
}
