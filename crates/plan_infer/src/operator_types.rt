//! The types to which operators take their operands, and those of their results.
ghost use Rattle.std.specs.Prelude.{◌≡◌, [], ◌∷◌, Ok, IfOk, IfErr};
ghost use Rattle.std.specs.Option.{option_map};
ghost use Rattle.plan_types.specs.Errors.{IsRefusal, no_memory};
ghost use Rattle.plan_types.specs.Types.{ty};
ghost use Rattle.plan_dsl.specs.OperatorTypes.{operator_types, pair_to, pair_types};
ghost use Rattle.plan_infer.specs.Operands.{common_integer};

mod arithmetic;
mod bits;
mod comparisons;
mod times;

use arithmetic::arithmetic_types;
use bits::{bit_types, truth_types};
use comparisons::{comparison_types, order_types};
use plan_dsl::operator::Operator;
use plan_types::common_type::type_beside;
use plan_types::dtype::DataType;
use plan_types::error::PlanError;
use plan_types::supertype::get_numeric_upcast_supertype_lossless;
use std::alloc::Global;

/// The types to which an operator takes its operands, and the type of its result.
#[derive(Drop)]
pub struct OperandTypes {
    pub left: DataType,
    pub right: DataType,
    pub result: DataType,
}

impl OperandTypes {
    // Both operands are of the one type.
    pub(crate) fn both(
        alloc: Global,
        dtype: DataType,
        result_type: DataType,
    ) -> Result<OperandTypes, PlanError>
        ensures left { IfOk result (λ taken. ty taken.left ≡ ty dtype) }
        ensures right { IfOk result (λ taken. ty taken.right ≡ ty dtype) }
        ensures result { IfOk result (λ taken. ty taken.result ≡ ty result_type) }
        ensures err { IfErr result (λ error. error ≡ no_memory) }
    {
        let right = dtype.try_clone(alloc)?;
        Ok(OperandTypes {
            left: dtype,
            right,
            result: result_type,
        })
    }
}

/// The types to which an operator takes operands of these types, of which a number without a type gets one first.
pub fn operand_types(
    alloc: Global,
    left: &DataType,
    op: Operator,
    right: &DataType,
) -> Result<OperandTypes, PlanError>
    ensures ok { IfOk result (λ taken. operator_types op (ty left.now ∷ ty right.now ∷ [])
        ≡ Ok (record { operands = ty taken.left ∷ ty taken.right ∷ []; type = ty taken.result })) }
    ensures err { IfErr result (IsRefusal (operator_types op (ty left.now ∷ ty right.now ∷ []))) }
{
    if left.is_known() && right.is_known() {
        let taken = pair_types(alloc, left, op, right)?;
        return Ok(taken);
    }
    let own_left = type_beside(alloc, left, right)?;
    let own_right = type_beside(alloc, right, left)?;
    let taken = pair_types(alloc, &own_left, op, &own_right)?;
    Ok(taken)
}

/// The common type of two integer types that differ, where the operator takes both operands to it and gives it too.
#[inline(always)]
pub(crate) fn common_integer(left: &DataType, op: Operator, right: &DataType) -> Option<DataType>
    ensures { option_map ty result ≡ common_integer op (ty left.now) (ty right.now) }
{
    match op {
        Operator::Plus
        | Operator::Minus
        | Operator::Multiply
        | Operator::Divide
        | Operator::FloorDivide
        | Operator::Modulus
        | Operator::And
        | Operator::Or
        | Operator::Xor => get_numeric_upcast_supertype_lossless(left, right),
        _ => None,
    }
}

// The types to which an operator takes two operands that have types, and its own.
fn pair_types(
    alloc: Global,
    left: &DataType,
    op: Operator,
    right: &DataType,
) -> Result<OperandTypes, PlanError>
    ensures ok { IfOk result (λ taken. pair_types op (ty left.now) (ty right.now) ≡ Ok (pair_to (ty taken.left) (ty taken.right) (ty taken.result))) }
    ensures err { IfErr result (IsRefusal (pair_types op (ty left.now) (ty right.now))) }
{
    match op {
        Operator::Eq | Operator::EqValidity | Operator::NotEq | Operator::NotEqValidity => {
            comparison_types(alloc, left, right)
        }
        Operator::Lt | Operator::LtEq | Operator::Gt | Operator::GtEq => {
            order_types(alloc, left, right)
        }
        Operator::Plus
        | Operator::Minus
        | Operator::Multiply
        | Operator::Divide
        | Operator::FloorDivide
        | Operator::Modulus => arithmetic_types(alloc, left, op, right),
        Operator::And | Operator::Or | Operator::Xor => bit_types(alloc, left, right),
        Operator::LogicalAnd | Operator::LogicalOr => truth_types(left, right),
    }
}
