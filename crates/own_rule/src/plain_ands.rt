//! `LogicalAnd` of two operands of truth values is made `And`.
ghost use Rattle.std.specs.Prelude.{◌≡◌, [], ◌∷◌, false, MatchOption};
ghost use Rattle.plan_types.specs.Types.{is_truth, ty};
ghost use Rattle.plan_dsl.specs.Ops.{BinaryOp};
ghost use Rattle.plan_dsl.specs.declared.operator.Operator.TheVariants.{LogicalAnd};
ghost use Rattle.plan_arena.specs.Items.{expression_layer};
ghost use Rattle.plan_arena.specs.Layers.{layer, op_of};
ghost use Rattle.own_rule.specs.PlainAnds.{is_logical_and, is_of_truths, plain_op};

use crate::op_change::OpChange;
use plan_arena::aexpr::AExpr;
use plan_arena::arena::Node;
use plan_dsl::operator::Operator;
use plan_infer::type_table::TypeTable;
use plan_types::dtype::DataType;
use plan_types::error::PlanError;
use std::alloc::Global;

/// `LogicalAnd` of two operands of truth values is made `And`, which engines have for columns. Both give the same there,
/// since what a typed operand gives on a frame fits its type: on other values, as of two numbers, they differ. So this
/// stands on it that meanings are compared on the rows of frames of the schema alone.
#[derive(Clone, Copy, Drop)]
pub struct PlainAnds;

impl OpChange for PlainAnds {
    ghost finds = { λ ands. is_of_truths };

    ghost change = { λ ands. plain_op };

    fn concerns(&self, item: &AExpr) -> bool {
        logical_and(item).is_some()
    }

    fn in_place_of(
        &self,
        item: &AExpr,
        types: &TypeTable,
        _alloc: Global,
    ) -> Result<Option<AExpr>, PlanError> {
        let Some((left, right)) = logical_and(item) else {
            return Ok(None);
        };
        if !is_truth(&types.get(left).dtype) {
            return Ok(None);
        }
        if !is_truth(&types.get(right).dtype) {
            return Ok(None);
        }
        Ok(Some(AExpr::BinaryExpr {
            left,
            op: Operator::And,
            right,
        }))
    }
}

// The operands of a `LogicalAnd`.
fn logical_and(item: &AExpr) -> Option<(Node, Node)>
    ensures { MatchOption result (is_logical_and (op_of (expression_layer item.now)) ≡ false) (λ pair.
        expression_layer item.now ≡ layer (BinaryOp LogicalAnd) (pair.0.0 ∷ pair.1.0 ∷ [])) }
{
    match item {
        AExpr::BinaryExpr {
            left,
            op: Operator::LogicalAnd,
            right,
        } => Some((*left, *right)),
        _ => None,
    }
}

// Whether it is the type of truth values.
fn is_truth(dtype: &DataType) -> bool
    ensures { result ≡ is_truth (ty dtype.now) }
{
    matches!(dtype, DataType::Boolean)
}
