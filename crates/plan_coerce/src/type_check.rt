//! The rule that a filter's predicate has the type of truth values.
ghost use Rattle.std.specs.Prelude.{◌≡◌, true, Some, IfErr, OnOk, false};
ghost use Rattle.std.proofs.Common.{refl, zero-le};
ghost use Rattle.plan_types.specs.Errors.{IsRefusal};
ghost use Rattle.plan_types.specs.Schemas.{columns};
ghost use Rattle.plan_types.specs.Types.{is_truth, ty};
ghost use Rattle.plan_dsl.specs.Ops.{Expression};
ghost use Rattle.plan_dsl.specs.Registry.{registry};
ghost use Rattle.plan_dsl.specs.Typing.{typing};
ghost use Rattle.plan_arena.specs.Denotation.{Denotes, DenotesTree};
ghost use Rattle.plan_arena.specs.Items.{HoldsExpression};
ghost use Rattle.plan_infer.specs.KeptTypes.{Extends, IsRight};
ghost use Rattle.plan_coerce.specs.Rules.{has_truth, is_ok_typed, truth_of};

use crate::rule::OptimizationRule;
use plan_arena::aexpr::AExpr;
use plan_arena::arena::{Arena, Node};
use plan_arena::ir::IR;
use plan_dsl::udfs::Udfs;
use plan_infer::field::Context;
use plan_infer::steps::Steps;
use plan_infer::type_table::TypeTable;
use plan_types::dtype::DataType;
use plan_types::error::{ErrorKind, PlanError};
use plan_types::schema::Schema;
use std::sync::ledger::Ledger;

/// Refuses a filter whose predicate has another type than that of truth values. It puts nothing in place.
#[derive(Clone, Copy, Drop)]
pub struct TypeCheckRule;

impl OptimizationRule for TypeCheckRule {
    ghost settled = { λ rule registry schema t. true };

    ghost measure = { λ rule registry schema t. 0 };

    ghost turns = { λ rule. Some 1 };

    ghost related = { λ rule registry schema before after. Unit };

    ghost forgets = { λ rule items table node. ⊥ };

    ghost replaces_plans = { λ rule. false };

    ghost settled_plan = { λ rule. has_truth };

    ghost congruent = { λ rule registry schema op before after all. tt };

    ghost transitive = { λ rule registry schema t u w a b. tt };

    ghost steady = { λ rule registry schema op before after all. refl };

    ghost bounded = { λ rule registry schema t n is. zero-le };

    fn optimize_plan<M: Ledger>(
        &self,
        expr_arena: &Arena<AExpr>,
        lp_arena: &Arena<IR>,
        node: Node,
        udfs: &Udfs,
        types: &mut TypeTable,
        typings: &mut Steps<M>,
    ) -> Result<Option<IR>, PlanError> {
        let IR::Filter { input, predicate } = lp_arena.get(node) else {
            return Ok(None);
        };
        let schema = lp_arena.get(*input).schema_ref(lp_arena);
        check_predicate(predicate.node(), schema, expr_arena, udfs, types, typings)?;
        Ok(None)
    }

    fn optimize_expr<M: Ledger>(
        &self,
        _expr_arena: &mut Arena<AExpr>,
        _node: Node,
        _schema: &Schema,
        _udfs: &Udfs,
        _types: &mut TypeTable,
        _typings: &mut Steps<M>,
    ) -> Result<Option<AExpr>, PlanError> {
        Ok(None)
    }
}

// Refuses a predicate of another type than that of truth values.
fn check_predicate<M: Ledger>(
    node: Node,
    schema: &Schema,
    arena: &Arena<AExpr>,
    udfs: &Udfs,
    types: &mut TypeTable,
    typings: &mut Steps<M>,
) -> Result<(), PlanError>
    requires tree { DenotesTree (HoldsExpression arena.now) node.0 }
    requires right { IsRight (registry udfs.now) (columns schema.now) arena.now types.old }
    ensures ok { OnOk result ((t : Expression) → Denotes (HoldsExpression arena.now) node.0 t →
        is_ok_typed (truth_of (typing (registry udfs.now) (columns schema.now) t)) ≡ true) }
    ensures right { IsRight (registry udfs.now) (columns schema.now) arena.now types.new }
    ensures kept { Extends types.old types.new }
    ensures err { IfErr result (λ error. (t : Expression) → Denotes (HoldsExpression arena.now) node.0 t →
        IsRefusal (truth_of (typing (registry udfs.now) (columns schema.now) t)) error) }
{
    types.field_of(node, schema, Context::Default, arena, udfs, typings)?;
    let own = types.get(node);
    if is_truth(&own.dtype) {
        return Ok(());
    }
    Err(PlanError::at_top(ErrorKind::InvalidOperation))
}

// Whether it is the type of truth values.
fn is_truth(dtype: &DataType) -> bool
    ensures { result ≡ is_truth (ty dtype.now) }
{
    matches!(dtype, DataType::Boolean)
}
