//! Operands of arithmetic.
ghost use Rattle.std.specs.Prelude.{◌≡◌, ◌&&◌, ◌||◌, not, Ok, Some, IfOk, IfErr};
ghost use Rattle.plan_types.specs.Errors.{IsRefusal};
ghost use Rattle.plan_types.specs.Types.{ty, is_bare, is_temporal, is_text};
ghost use Rattle.plan_types.specs.Supertypes.{supertype};
ghost use Rattle.plan_dsl.specs.OperatorTypes.{arithmetic_types, is_joined, number_types, pair_to, text_types};

use super::OperandTypes;
use super::bits::is_truth_or_null;
use super::comparisons::is_bare;
use super::times::time_types;
use plan_dsl::operator::Operator;
use plan_types::dtype::DataType;
use plan_types::error::{ErrorKind, PlanError};
use plan_types::supertype::try_get_supertype;
use std::alloc::Global;

// Arithmetic has no lists and structs. Times, texts and numbers have rows of their own.
pub(super) fn arithmetic_types(
    alloc: Global,
    left: &DataType,
    op: Operator,
    right: &DataType,
) -> Result<OperandTypes, PlanError>
    ensures ok { IfOk result (λ taken. arithmetic_types op (ty left.now) (ty right.now) ≡ Ok (pair_to (ty taken.left) (ty taken.right) (ty taken.result))) }
    ensures err { IfErr result (IsRefusal (arithmetic_types op (ty left.now) (ty right.now))) }
{
    if !are_bare(left, right) {
        return Err(PlanError::at_top(ErrorKind::InvalidOperation));
    }
    if has_time(left, right) {
        return time_types(left, op, right);
    }
    if has_text(left, right) {
        return text_types(left, op, right);
    }
    number_types(alloc, left, op, right)
}

fn are_bare(left: &DataType, right: &DataType) -> bool
    ensures { result ≡ (is_bare (ty left.now) && is_bare (ty right.now)) }
{
    is_bare(left) && is_bare(right)
}

fn has_time(left: &DataType, right: &DataType) -> bool
    ensures { result ≡ (is_temporal (ty left.now) || is_temporal (ty right.now)) }
{
    left.is_temporal() || right.is_temporal()
}

fn has_text(left: &DataType, right: &DataType) -> bool
    ensures { result ≡ (is_text (ty left.now) || is_text (ty right.now)) }
{
    is_text(left) || is_text(right)
}

fn is_text(dtype: &DataType) -> bool
    ensures { result ≡ is_text (ty dtype.now) }
{
    matches!(dtype, DataType::String)
}

// Texts are joined to texts, truth values and nulls.
fn text_types(left: &DataType, op: Operator, right: &DataType) -> Result<OperandTypes, PlanError>
    ensures ok { IfOk result (λ taken. text_types op (ty left.now) (ty right.now) ≡ Ok (pair_to (ty taken.left) (ty taken.right) (ty taken.result))) }
    ensures err { IfErr result (IsRefusal (text_types op (ty left.now) (ty right.now))) }
{
    match op {
        Operator::Plus if are_joined(left, right) => Ok(OperandTypes {
            left: DataType::String,
            right: DataType::String,
            result: DataType::String,
        }),
        _ => Err(PlanError::at_top(ErrorKind::InvalidOperation)),
    }
}

fn are_joined(left: &DataType, right: &DataType) -> bool
    ensures { result ≡ (is_joined (ty left.now) && is_joined (ty right.now)) }
{
    is_joined(left) && is_joined(right)
}

// Whether a value of the type can be joined to a text.
fn is_joined(dtype: &DataType) -> bool
    ensures { result ≡ is_joined (ty dtype.now) }
{
    is_text(dtype) || is_truth_or_null(dtype)
}

// Numbers are taken to their common type.
fn number_types(
    alloc: Global,
    left: &DataType,
    op: Operator,
    right: &DataType,
) -> Result<OperandTypes, PlanError>
    ensures ok { IfOk result (λ taken. number_types op (supertype (ty left.now) (ty right.now)) ≡ Ok (pair_to (ty taken.left) (ty taken.right) (ty taken.result))) }
    ensures err { IfErr result (IsRefusal (number_types op (supertype (ty left.now) (ty right.now)))) }
{
    let common = try_get_supertype(alloc, left, right)?;
    let result = number_result(alloc, op, &common)?;
    let taken = OperandTypes::both(alloc, common, result)?;
    Ok(taken)
}

// The type of what numbers of a common type give. Truth values are added alone, and counted.
fn number_result(alloc: Global, op: Operator, common: &DataType) -> Result<DataType, PlanError>
    ensures ok { IfOk result (λ dtype. number_types op (Some (ty common.now)) ≡ Ok (pair_to (ty common.now) (ty common.now) (ty dtype))) }
    ensures err { IfErr result (IsRefusal (number_types op (Some (ty common.now)))) }
{
    match common {
        DataType::Boolean => match op {
            Operator::Plus => Ok(DataType::UInt32),
            _ => Err(PlanError::at_top(ErrorKind::InvalidOperation)),
        },
        _ => {
            let dtype = common.try_clone(alloc)?;
            Ok(dtype)
        }
    }
}
