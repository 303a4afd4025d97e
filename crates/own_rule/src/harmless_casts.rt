//! Strict casts to the type that their operand has are made casts that aren't strict.
ghost use Rattle.std.specs.Prelude.{◌≡◌, [], ◌∷◌, false, MatchOption};
ghost use Rattle.plan_types.specs.Types.{ty};
ghost use Rattle.plan_dsl.specs.Ops.{CastOp};
ghost use Rattle.plan_arena.specs.Items.{expression_layer};
ghost use Rattle.plan_arena.specs.Layers.{layer, op_of};
ghost use Rattle.own_rule.specs.HarmlessCasts.{is_needless, is_strict_cast, relaxed_op};

use crate::op_change::OpChange;
use plan_arena::aexpr::AExpr;
use plan_arena::arena::Node;
use plan_infer::type_table::TypeTable;
use plan_types::dtype::{CastOptions, DataType};
use plan_types::error::PlanError;
use std::alloc::Global;

/// A strict cast to the type that its operand has changes nothing and has no fault. It is made one that isn't strict, so
/// that a filter with it may be split.
#[derive(Clone, Copy, Drop)]
pub struct HarmlessCasts;

impl OpChange for HarmlessCasts {
    ghost finds = { λ casts. is_needless };

    ghost change = { λ casts. relaxed_op };

    fn concerns(&self, item: &AExpr) -> bool {
        strict_cast(item).is_some()
    }

    fn in_place_of(
        &self,
        item: &AExpr,
        types: &TypeTable,
        alloc: Global,
    ) -> Result<Option<AExpr>, PlanError> {
        let Some((input, dtype)) = strict_cast(item) else {
            return Ok(None);
        };
        if types.get(input).dtype != *dtype {
            return Ok(None);
        }
        Ok(Some(AExpr::Cast {
            expr: input,
            dtype: dtype.try_clone(alloc)?,
            options: CastOptions::NonStrict,
        }))
    }
}

// The operand and the type of a strict cast.
fn strict_cast(item: &AExpr) -> Option<(Node, &DataType)>
    ensures { MatchOption result (is_strict_cast (op_of (expression_layer item.now)) ≡ false) (λ cast.
        expression_layer item.now ≡ layer (CastOp (ty cast.1.now) CastOptions.Strict) (cast.0.0 ∷ [])) }
{
    match item {
        AExpr::Cast {
            expr,
            dtype,
            options: CastOptions::Strict,
        } => Some((*expr, dtype)),
        _ => None,
    }
}
