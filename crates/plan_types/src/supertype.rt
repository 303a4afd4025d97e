//! Common types of two types.
ghost use Rattle.std.specs.Prelude.{◌≡◌, IfOk, IfErr, Some, None, true, false};
ghost use Rattle.std.specs.Option.{option_map};
ghost use Rattle.plan_types.specs.Errors.{no_memory, IsMemoryOr};
ghost use Rattle.plan_types.specs.Supertypes.{super_fields, supertype, signed_above, upcast};
ghost use Rattle.plan_types.specs.Types.{NullType, ListType, StructType, fields_in, fields_of, is_bare, ty, same_type, is_integer, is_signed_integer, width_of};

use crate::dtype::{DataType, Fields, get_time_units};
use crate::error::{ErrorKind, PlanError};
use crate::field::Field;
use std::alloc::Global;

/// The type that holds the values of both, where there is one. Null is of any type, truth values beside an integer are of
/// its type, both are written beside a text, days become moments beside moments, and of two units the coarser is taken.
/// Lists have the common type of their items, and structs of the same names, in order, have those of their fields.
#[cycle(supertypes)]
pub fn get_supertype(
    alloc: Global,
    left: &DataType,
    right: &DataType,
) -> Result<Option<DataType>, PlanError>
    ensures ok { IfOk result (λ found. option_map ty found ≡ supertype (ty left.now) (ty right.now)) }
    ensures err { IfErr result (λ error. error ≡ no_memory) }
{
    match (left, right) {
        (DataType::Null, _) => {
            let found = right.try_clone(alloc)?;
            Ok(Some(found))
        }
        (_, DataType::Null) => {
            let found = left.try_clone(alloc)?;
            Ok(Some(found))
        }
        (DataType::List(item), DataType::List(other)) => {
            let found = super_item(alloc, item, other)?;
            Ok(found)
        }
        (DataType::Struct(fields), DataType::Struct(others)) => {
            let found = super_struct(alloc, fields, others)?;
            Ok(found)
        }
        (DataType::List(_) | DataType::Struct(_), _) => Ok(None),
        (_, DataType::List(_) | DataType::Struct(_)) => Ok(None),
        _ => Ok(bare_supertype(left, right)),
    }
}

// Lists of the common type of two types of items.
#[cycle(supertypes)]
fn super_item(
    alloc: Global,
    item: &DataType,
    other: &DataType,
) -> Result<Option<DataType>, PlanError>
    ensures ok { IfOk result (λ found. option_map ty found ≡ supertype (ListType (ty item.now)) (ListType (ty other.now))) }
    ensures err { IfErr result (λ error. error ≡ no_memory) }
{
    match get_supertype(alloc, item, other)? {
        Some(found) => {
            let found = Box::new(alloc, found)?;
            Ok(Some(DataType::List(found)))
        }
        None => Ok(None),
    }
}

// Structs of the common types of two lists of fields.
#[cycle(supertypes)]
fn super_struct(
    alloc: Global,
    fields: &Fields,
    others: &Fields,
) -> Result<Option<DataType>, PlanError>
    ensures ok { IfOk result (λ found. option_map ty found ≡ supertype (StructType (fields_of fields.now)) (StructType (fields_of others.now))) }
    ensures err { IfErr result (λ error. error ≡ no_memory) }
{
    let fields = fields.items.as_slice();
    match super_fields(alloc, fields, others.items.as_slice())? {
        Some(found) => Ok(Some(DataType::Struct(found))),
        None => Ok(None),
    }
}

// The common types of fields side by side, whose names are the same.
#[cycle(supertypes)]
fn super_fields(
    alloc: Global,
    fields: &[Field],
    others: &[Field],
) -> Result<Option<Fields>, PlanError>
    ensures ok { IfOk result (λ found. option_map fields_of found ≡ super_fields (fields_in fields.now) (fields_in others.now)) }
    ensures err { IfErr result (λ error. error ≡ no_memory) }
{
    if fields.len() != others.len() {
        return Ok(None);
    }
    let mut items = Vec::new(alloc);
    for index in 0..fields.len() {
        let field = &fields[index];
        let other = &others[index];
        if field.name != other.name {
            return Ok(None);
        }
        let name = field.name.try_clone(alloc)?;
        match get_supertype(alloc, &field.dtype, &other.dtype)? {
            Some(dtype) => items.push(Field { name, dtype })?,
            None => return Ok(None),
        }
    }
    Ok(Some(Fields { items }))
}

// The common type of two types without parts, none of which is null's.
fn bare_supertype(left: &DataType, right: &DataType) -> Option<DataType>
    requires left { same_type NullType (ty left.now) ≡ false }
    requires right { same_type NullType (ty right.now) ≡ false }
    requires left_bare { is_bare (ty left.now) ≡ true }
    requires right_bare { is_bare (ty right.now) ≡ true }
    ensures { option_map ty result ≡ supertype (ty left.now) (ty right.now) }
{
    match (left, right) {
        (DataType::Boolean, DataType::String) | (DataType::String, DataType::Boolean) => {
            Some(DataType::String)
        }
        (DataType::Date, DataType::Datetime(unit)) | (DataType::Datetime(unit), DataType::Date) => {
            Some(DataType::Datetime(*unit))
        }
        (DataType::Datetime(unit), DataType::Datetime(other)) => {
            Some(DataType::Datetime(get_time_units(*unit, *other)))
        }
        (DataType::Duration(unit), DataType::Duration(other)) => {
            Some(DataType::Duration(get_time_units(*unit, *other)))
        }
        _ if left.is_integer() => beside_integer(left, right),
        _ if right.is_integer() => beside_integer(right, left),
        _ if *left == *right => left.bare_copy(),
        _ => None,
    }
}

// An integer type beside another type.
fn beside_integer(integer: &DataType, other: &DataType) -> Option<DataType>
    requires integer { is_integer (ty integer.now) ≡ true }
    requires known { same_type NullType (ty other.now) ≡ false }
    ensures { option_map ty result ≡ supertype (ty integer.now) (ty other.now) }
{
    match other {
        DataType::Boolean => integer.bare_copy(),
        DataType::String => Some(DataType::String),
        _ if *integer == *other => integer.bare_copy(),
        _ => get_numeric_upcast_supertype_lossless(integer, other),
    }
}

/// `get_supertype`, with a refusal where there is none.
pub fn try_get_supertype(
    alloc: Global,
    left: &DataType,
    right: &DataType,
) -> Result<DataType, PlanError>
    ensures ok { IfOk result (λ found. supertype (ty left.now) (ty right.now) ≡ Some (ty found)) }
    ensures err { IfErr result (IsMemoryOr ErrorKind.SchemaMismatch (supertype (ty left.now) (ty right.now) ≡ None)) }
{
    match get_supertype(alloc, left, right)? {
        Some(found) => Ok(found),
        None => Err(PlanError::at_top(ErrorKind::SchemaMismatch)),
    }
}

/// The integer type that holds the values of both, where these are integer types that differ.
pub fn get_numeric_upcast_supertype_lossless(left: &DataType, right: &DataType) -> Option<DataType>
    ensures { option_map ty result ≡ upcast (ty left.now) (ty right.now) }
{
    if !left.is_integer() || !right.is_integer() || *left == *right {
        return None;
    }
    if right.is_signed_integer() == left.is_signed_integer() {
        let wider = if right.width() > left.width() {
            right
        } else {
            left
        };
        wider.bare_copy()
    } else if left.is_signed_integer() {
        signed_upcast(left, right)
    } else {
        signed_upcast(right, left)
    }
}

// `signed_above` without memory.
fn signed_upcast(signed: &DataType, unsigned: &DataType) -> Option<DataType>
    requires signed { is_signed_integer (ty signed.now) ≡ true }
    requires integer { is_integer (ty unsigned.now) ≡ true }
    requires unsigned { is_signed_integer (ty unsigned.now) ≡ false }
    ensures { option_map ty result ≡ signed_above (width_of (ty signed.now)) (width_of (ty unsigned.now)) }
{
    let width = unsigned.width();
    if signed.width() > width {
        signed.bare_copy()
    } else if width == 8 {
        Some(DataType::Int16)
    } else if width == 16 {
        Some(DataType::Int32)
    } else if width == 32 {
        Some(DataType::Int64)
    } else {
        None
    }
}
