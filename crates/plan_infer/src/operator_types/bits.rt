//! Operands of which truth values or bits are combined.
ghost use Rattle.std.specs.Prelude.{◌≡◌, ◌&&◌, Ok, IfOk, IfErr};
ghost use Rattle.plan_types.specs.Errors.{IsRefusal};
ghost use Rattle.plan_types.specs.Types.{ty};
ghost use Rattle.plan_dsl.specs.OperatorTypes.{bit_types, has_bits, is_truth_or_null, pair_to, truth_types};

use super::OperandTypes;
use plan_types::dtype::DataType;
use plan_types::error::{ErrorKind, PlanError};
use plan_types::supertype::try_get_supertype;
use std::alloc::Global;

// Truth values and nulls are combined as truth values.
pub(super) fn truth_types(left: &DataType, right: &DataType) -> Result<OperandTypes, PlanError>
    ensures ok { IfOk result (λ taken. truth_types (ty left.now) (ty right.now) ≡ Ok (pair_to (ty taken.left) (ty taken.right) (ty taken.result))) }
    ensures err { IfErr result (IsRefusal (truth_types (ty left.now) (ty right.now))) }
{
    if !are_truths_or_nulls(left, right) {
        return Err(PlanError::at_top(ErrorKind::InvalidOperation));
    }
    Ok(OperandTypes {
        left: DataType::Boolean,
        right: DataType::Boolean,
        result: DataType::Boolean,
    })
}

// Bits of truth values, numbers and nulls are combined in their common type.
pub(super) fn bit_types(
    alloc: Global,
    left: &DataType,
    right: &DataType,
) -> Result<OperandTypes, PlanError>
    ensures ok { IfOk result (λ taken. bit_types (ty left.now) (ty right.now) ≡ Ok (pair_to (ty taken.left) (ty taken.right) (ty taken.result))) }
    ensures err { IfErr result (IsRefusal (bit_types (ty left.now) (ty right.now))) }
{
    if !have_bits(left, right) {
        return Err(PlanError::at_top(ErrorKind::InvalidOperation));
    }
    let common = try_get_supertype(alloc, left, right)?;
    let result = common.try_clone(alloc)?;
    let taken = OperandTypes::both(alloc, common, result)?;
    Ok(taken)
}

fn are_truths_or_nulls(left: &DataType, right: &DataType) -> bool
    ensures { result ≡ (is_truth_or_null (ty left.now) && is_truth_or_null (ty right.now)) }
{
    is_truth_or_null(left) && is_truth_or_null(right)
}

pub(super) fn is_truth_or_null(dtype: &DataType) -> bool
    ensures { result ≡ is_truth_or_null (ty dtype.now) }
{
    matches!(dtype, DataType::Null | DataType::Boolean)
}

fn have_bits(left: &DataType, right: &DataType) -> bool
    ensures { result ≡ (has_bits (ty left.now) && has_bits (ty right.now)) }
{
    has_bits(left) && has_bits(right)
}

// Whether values of the type have bits: truth values have one.
fn has_bits(dtype: &DataType) -> bool
    ensures { result ≡ has_bits (ty dtype.now) }
{
    dtype.is_integer() || is_truth_or_null(dtype)
}
