//! Operands of comparisons.
ghost use Rattle.std.specs.Prelude.{◌≡◌, ◌&&◌, ◌||◌, Ok, IfOk, IfErr};
ghost use Rattle.plan_types.specs.Errors.{IsRefusal};
ghost use Rattle.plan_types.specs.Types.{ty, is_bare};
ghost use Rattle.plan_dsl.specs.OperatorTypes.{comparison_types, is_text_beside, order_types, pair_to};

use super::OperandTypes;
use plan_types::dtype::DataType;
use plan_types::error::{ErrorKind, PlanError};
use plan_types::supertype::try_get_supertype;
use std::alloc::Global;

// Comparisons take both operands to their common type. A text isn't compared to a number or a time.
pub(super) fn comparison_types(
    alloc: Global,
    left: &DataType,
    right: &DataType,
) -> Result<OperandTypes, PlanError>
    ensures ok { IfOk result (λ taken. comparison_types (ty left.now) (ty right.now) ≡ Ok (pair_to (ty taken.left) (ty taken.right) (ty taken.result))) }
    ensures err { IfErr result (IsRefusal (comparison_types (ty left.now) (ty right.now))) }
{
    if is_text_apart(left, right) {
        return Err(PlanError::at_top(ErrorKind::InvalidOperation));
    }
    let common = try_get_supertype(alloc, left, right)?;
    let taken = OperandTypes::both(alloc, common, DataType::Boolean)?;
    Ok(taken)
}

// Which of two values is less is asked of a common type without parts alone.
pub(super) fn order_types(
    alloc: Global,
    left: &DataType,
    right: &DataType,
) -> Result<OperandTypes, PlanError>
    ensures ok { IfOk result (λ taken. order_types (ty left.now) (ty right.now) ≡ Ok (pair_to (ty taken.left) (ty taken.right) (ty taken.result))) }
    ensures err { IfErr result (IsRefusal (order_types (ty left.now) (ty right.now))) }
{
    let taken = comparison_types(alloc, left, right)?;
    if !is_bare(&taken.left) {
        return Err(PlanError::at_top(ErrorKind::InvalidOperation));
    }
    Ok(taken)
}

// Whether the type has no types as its parts.
pub(super) fn is_bare(dtype: &DataType) -> bool
    ensures { result ≡ is_bare (ty dtype.now) }
{
    !matches!(dtype, DataType::List(_) | DataType::Struct(_))
}

// Whether one is a text and the other a number or a time.
fn is_text_apart(left: &DataType, right: &DataType) -> bool
    ensures { result ≡ (is_text_beside (ty left.now) (ty right.now) || is_text_beside (ty right.now) (ty left.now)) }
{
    is_text_beside(left, right) || is_text_beside(right, left)
}

fn is_text_beside(text: &DataType, other: &DataType) -> bool
    ensures { result ≡ is_text_beside (ty text.now) (ty other.now) }
{
    matches!(text, DataType::String) && other.is_counted()
}
