//! Types of numbers that are written without one, and common types of operands.
ghost use Rattle.std.specs.Prelude.{◌≡◌, IfOk, IfErr, Some, None, Ok};
ghost use Rattle.std.specs.Option.{option_map};
ghost use Rattle.plan_types.specs.CommonTypes.{literal_type, least_signed, least_unsigned, own_type, type_beside, common_type};
ghost use Rattle.plan_types.specs.Errors.{IsMemoryOr, IsRefusal};
ghost use Rattle.plan_types.specs.Types.{ty};

use crate::dtype::DataType;
use crate::error::{ErrorKind, PlanError};
use crate::supertype::try_get_supertype;
use std::alloc::Global;

/// The type of a number alone: the first of Int32, Int64 and UInt64 whose range has it.
pub fn materialize_dyn_int(number: i128) -> Option<DataType>
    ensures { option_map ty result ≡ literal_type number }
{
    if DataType::Int32.has_number(number) {
        Some(DataType::Int32)
    } else if DataType::Int64.has_number(number) {
        Some(DataType::Int64)
    } else if DataType::UInt64.has_number(number) {
        Some(DataType::UInt64)
    } else {
        None
    }
}

/// The type of a number beside an operand of that type: an integer type that has the number stays, and else the
/// least that has it is taken. Beside any other type a number has the type that it has alone.
pub(crate) fn own_type(number: i128, beside: &DataType) -> Option<DataType>
    ensures { option_map ty result ≡ own_type number (ty beside.now) }
{
    if !beside.is_integer() {
        materialize_dyn_int(number)
    } else if beside.has_number(number) {
        beside.bare_copy()
    } else if beside.is_signed_integer() || number < 0 {
        least_signed(number)
    } else {
        least_unsigned(number)
    }
}

// The least signed type, and UInt64 where no signed one has the number.
fn least_signed(number: i128) -> Option<DataType>
    ensures { option_map ty result ≡ least_signed number }
{
    if DataType::Int8.has_number(number) {
        Some(DataType::Int8)
    } else if DataType::Int16.has_number(number) {
        Some(DataType::Int16)
    } else {
        materialize_dyn_int(number)
    }
}

// The least unsigned type, where one has the number.
fn least_unsigned(number: i128) -> Option<DataType>
    ensures { option_map ty result ≡ least_unsigned number }
{
    if DataType::UInt8.has_number(number) {
        Some(DataType::UInt8)
    } else if DataType::UInt16.has_number(number) {
        Some(DataType::UInt16)
    } else if DataType::UInt32.has_number(number) {
        Some(DataType::UInt32)
    } else if DataType::UInt64.has_number(number) {
        Some(DataType::UInt64)
    } else {
        None
    }
}

/// The common type of two operands, of which a number without a type gets one first.
pub fn try_get_common_type(
    alloc: Global,
    left: &DataType,
    right: &DataType,
) -> Result<DataType, PlanError>
    ensures ok { IfOk result (λ found. common_type (ty left.now) (ty right.now) ≡ Ok (ty found)) }
    ensures err { IfErr result (IsRefusal (common_type (ty left.now) (ty right.now))) }
{
    let own_left = type_beside(alloc, left, right)?;
    let own_right = type_beside(alloc, right, left)?;
    let found = try_get_supertype(alloc, &own_left, &own_right)?;
    Ok(found)
}

/// An operand's type beside another's: a number without a type gets one, and a type in
/// which a number's own type stands has none.
pub fn type_beside(
    alloc: Global,
    operand: &DataType,
    other: &DataType,
) -> Result<DataType, PlanError>
    ensures ok { IfOk result (λ found. type_beside (ty operand.now) (ty other.now) ≡ Some (ty found)) }
    ensures err { IfErr result (IsMemoryOr ErrorKind.InvalidOperation (type_beside (ty operand.now) (ty other.now) ≡ None)) }
{
    let Some(number) = operand.untyped_number() else {
        if !operand.is_known() {
            return Err(PlanError::at_top(ErrorKind::InvalidOperation));
        }
        let own = operand.try_clone(alloc)?;
        return Ok(own);
    };
    match own_type(number, other) {
        Some(own) => Ok(own),
        None => Err(PlanError::at_top(ErrorKind::InvalidOperation)),
    }
}
