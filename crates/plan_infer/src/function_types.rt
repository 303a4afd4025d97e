//! The types to which functions take their inputs that have no signature, and the types of their nodes.
ghost use Rattle.std.specs.Prelude.{◌≡◌, ◌&&◌, [], ◌∷◌, nat_lt, length, Some, None, Ok, IfOk, IfErr};
ghost use Rattle.std.specs.List.{AllByRecursion};
ghost use Rattle.plan_types.specs.Errors.{IsMemoryOr, IsRefusal, no_memory};
ghost use Rattle.plan_types.specs.Types.{fields_in, is_integer, is_null, ty, unit_rank};
ghost use Rattle.plan_types.specs.CommonTypes.{type_alone};
ghost use Rattle.plan_dsl.specs.declared.function_expr.FunctionExpr.TheVariants.{IsIn, FieldByName};
ghost use Rattle.plan_dsl.specs.FunctionTypes.{apart_type, field_taken, field_type, in_lists, is_in_taken, is_in_types, member_type};
ghost use Rattle.plan_dsl.specs.OperatorTypes.{pair_to};
ghost use Rattle.plan_dsl.specs.Signatures.{function_signature};
ghost use Rattle.plan_dsl.specs.Typing.{function_rule};
ghost use Rattle.plan_arena.specs.Items.{numbers};
ghost use Rattle.plan_infer.specs.KeptTypes.{IsKept, Says, typings_at};
ghost use Rattle.plan_infer.specs.Operands.{is_finer};

use crate::operator_types::OperandTypes;
use crate::signed::{signed_typing, type_alone};
use crate::steps::Step;
use crate::taken::taken_typing;
use crate::taken_types::TakenTypes;
use crate::type_table::{Inferred, TypeTable};
use plan_arena::arena::Node;
use plan_dsl::function_expr::FunctionExpr;
use plan_dsl::signature::Signature;
use plan_types::dtype::{DataType, TimeUnit};
use plan_types::error::{ErrorKind, PlanError};
use plan_types::field::Field;
use plan_types::supertype::try_get_supertype;
use plan_types::text::PlSmallStr;
use std::alloc::Global;

/// What the rule of a function says of its inputs, which are typed, with the signature that it has, if any. A function
/// keeps its name itself.
pub(crate) fn function_typing(
    node: Node,
    function: &FunctionExpr,
    found: Result<Signature, ErrorKind>,
    inputs: &[Node],
    types: &TypeTable,
    alloc: Global,
    step: Step,
) -> Result<Inferred, PlanError>
    requires found { found ≡ function_signature function.now (length inputs.now) }
    requires inputs { AllByRecursion (IsKept types.now) (numbers inputs.now) }
    ensures ok { IfOk result (λ own. let typed = typings_at types.now (numbers inputs.now) in Says (function_rule function.now typed) typed own) }
    ensures name { IfOk result (λ own. own.name ≡ node) }
    ensures err { IfErr result (IsRefusal (function_rule function.now (typings_at types.now (numbers inputs.now)))) }
{
    match function {
        FunctionExpr::IsIn => is_in_typing(node, inputs, types, alloc),
        FunctionExpr::FieldByName(name) => field_typing(node, name, inputs, types, alloc),
        _ => {
            let own = signed_typing(node, found, inputs, types, alloc, step)?;
            Ok(Inferred {
                name: node,
                dtype: own.dtype,
                many: own.many,
                operands: own.operands,
            })
        }
    }
}

// ---- a value among others

// Whether values are among others.
fn is_in_typing(
    node: Node,
    inputs: &[Node],
    types: &TypeTable,
    alloc: Global,
) -> Result<Inferred, PlanError>
    requires inputs { AllByRecursion (IsKept types.now) (numbers inputs.now) }
    ensures ok { IfOk result (λ own. let typed = typings_at types.now (numbers inputs.now) in Says (function_rule IsIn typed) typed own) }
    ensures name { IfOk result (λ own. own.name ≡ node) }
    ensures err { IfErr result (IsRefusal (function_rule IsIn (typings_at types.now (numbers inputs.now)))) }
{
    if inputs.len() != 2 {
        return Err(PlanError::at_top(ErrorKind::ComputeError));
    }
    let value = types.get(inputs[0]);
    let among = types.get(inputs[1]);
    let taken = is_in_taken(&value.dtype, &among.dtype, alloc)?;
    let own = taken_typing(node, taken, inputs, types, alloc)?;
    Ok(own)
}

// The types to which a value and what it is looked for among are taken, of which a number without a type gets one first.
fn is_in_taken(value: &DataType, among: &DataType, alloc: Global) -> Result<OperandTypes, PlanError>
    ensures ok { IfOk result (λ taken. is_in_taken (type_alone (ty value.now)) (type_alone (ty among.now))
        ≡ Ok (pair_to (ty taken.left) (ty taken.right) (ty taken.result))) }
    ensures err { IfErr result (IsRefusal (is_in_taken (type_alone (ty value.now)) (type_alone (ty among.now)))) }
{
    let own = type_alone(alloc, value)?;
    let others = type_alone(alloc, among)?;
    let taken = is_in_types(&own, &others, alloc)?;
    Ok(taken)
}

// Lists are looked in row by row, what is null too, and any other operand is looked in whole.
fn is_in_types(value: &DataType, among: &DataType, alloc: Global) -> Result<OperandTypes, PlanError>
    ensures ok { IfOk result (λ taken. is_in_types (ty value.now) (ty among.now) ≡ Ok (pair_to (ty taken.left) (ty taken.right) (ty taken.result))) }
    ensures err { IfErr result (IsRefusal (is_in_types (ty value.now) (ty among.now))) }
{
    match among {
        DataType::List(item) => {
            let dtype = member_type(value, item, alloc)?;
            let taken = in_lists(dtype, alloc)?;
            Ok(taken)
        }
        DataType::Null => {
            let dtype = value.try_clone(alloc)?;
            let taken = in_lists(dtype, alloc)?;
            Ok(taken)
        }
        _ => {
            let dtype = member_type(value, among, alloc)?;
            let taken = OperandTypes::both(alloc, dtype, DataType::Boolean)?;
            Ok(taken)
        }
    }
}

// A value of the type beside lists of it.
fn in_lists(dtype: DataType, alloc: Global) -> Result<OperandTypes, PlanError>
    ensures ok { IfOk result (λ taken. in_lists (Ok (ty dtype)) ≡ Ok (pair_to (ty taken.left) (ty taken.right) (ty taken.result))) }
    ensures err { IfErr result (λ error. error ≡ no_memory) }
{
    let left = dtype.try_clone(alloc)?;
    let right = dtype.implode(alloc)?;
    Ok(OperandTypes {
        left,
        right,
        result: DataType::Boolean,
    })
}

// The type in which a value is looked for among values of another type, or of its own.
fn member_type(value: &DataType, item: &DataType, alloc: Global) -> Result<DataType, PlanError>
    ensures ok { IfOk result (λ found. member_type (ty value.now) (ty item.now) ≡ Ok (ty found)) }
    ensures err { IfErr result (IsRefusal (member_type (ty value.now) (ty item.now))) }
{
    if *value == *item {
        let found = value.try_clone(alloc)?;
        return Ok(found);
    }
    let found = apart_type(value, item, alloc)?;
    Ok(found)
}

// The type in which a value is looked for among values of another type: integers have a common one, and moments or
// spans are looked for among those of a coarser unit.
fn apart_type(value: &DataType, item: &DataType, alloc: Global) -> Result<DataType, PlanError>
    ensures ok { IfOk result (λ found. apart_type (ty value.now) (ty item.now) ≡ Ok (ty found)) }
    ensures err { IfErr result (IsRefusal (apart_type (ty value.now) (ty item.now))) }
{
    if is_null(value) {
        let found = item.try_clone(alloc)?;
        return Ok(found);
    }
    if is_null(item) {
        let found = value.try_clone(alloc)?;
        return Ok(found);
    }
    if are_integers(value, item) {
        let found = try_get_supertype(alloc, value, item)?;
        return Ok(found);
    }
    if !is_finer(value, item) {
        return Err(PlanError::at_top(ErrorKind::InvalidOperation));
    }
    let found = value.try_clone(alloc)?;
    Ok(found)
}

fn is_null(dtype: &DataType) -> bool
    ensures { result ≡ is_null (ty dtype.now) }
{
    matches!(dtype, DataType::Null)
}

fn are_integers(value: &DataType, item: &DataType) -> bool
    ensures { result ≡ (is_integer (ty value.now) && is_integer (ty item.now)) }
{
    value.is_integer() && item.is_integer()
}

// Whether both are moments or both spans, the first of a finer unit.
fn is_finer(value: &DataType, item: &DataType) -> bool
    ensures { result ≡ is_finer (ty value.now) (ty item.now) }
{
    match (value, item) {
        (DataType::Datetime(unit), DataType::Datetime(other))
        | (DataType::Duration(unit), DataType::Duration(other)) => is_finer_unit(*unit, *other),
        _ => false,
    }
}

fn is_finer_unit(unit: TimeUnit, other: TimeUnit) -> bool
    ensures { result ≡ nat_lt (unit_rank unit) (unit_rank other) }
{
    match unit {
        TimeUnit::Nanoseconds => !matches!(other, TimeUnit::Nanoseconds),
        TimeUnit::Microseconds => matches!(other, TimeUnit::Milliseconds),
        TimeUnit::Milliseconds => false,
    }
}

// ---- a field of a struct

// The field of that name, which stays in its struct.
fn field_typing(
    node: Node,
    name: &PlSmallStr,
    inputs: &[Node],
    types: &TypeTable,
    alloc: Global,
) -> Result<Inferred, PlanError>
    requires inputs { AllByRecursion (IsKept types.now) (numbers inputs.now) }
    ensures ok { IfOk result (λ own. let typed = typings_at types.now (numbers inputs.now) in Says (function_rule (FieldByName name.now) typed) typed own) }
    ensures name { IfOk result (λ own. own.name ≡ node) }
    ensures err { IfErr result (IsRefusal (function_rule (FieldByName name.now) (typings_at types.now (numbers inputs.now)))) }
{
    if inputs.len() != 1 {
        return Err(PlanError::at_top(ErrorKind::ComputeError));
    }
    let from = types.get(inputs[0]);
    let dtype = field_taken(name, &from.dtype, alloc)?;
    Ok(Inferred {
        name: node,
        dtype,
        many: from.many,
        operands: TakenTypes::none(),
    })
}

// The type of a struct's field, of which the struct is taken as it is.
fn field_taken(name: &PlSmallStr, from: &DataType, alloc: Global) -> Result<DataType, PlanError>
    ensures ok { IfOk result (λ dtype. field_taken name.now (type_alone (ty from.now)) ≡ Ok (record { operands = ty from.now ∷ []; type = ty dtype })) }
    ensures err { IfErr result (IsRefusal (field_taken name.now (type_alone (ty from.now)))) }
{
    let DataType::Struct(fields) = from else {
        return Err(PlanError::at_top(ErrorKind::InvalidOperation));
    };
    if !from.is_known() {
        return Err(PlanError::at_top(ErrorKind::InvalidOperation));
    }
    let dtype = field_type(name, fields.items.as_slice(), alloc)?;
    Ok(dtype)
}

// The type of the first field of that name.
fn field_type(name: &PlSmallStr, fields: &[Field], alloc: Global) -> Result<DataType, PlanError>
    ensures ok { IfOk result (λ dtype. field_type name.now (fields_in fields.now) ≡ Some (ty dtype)) }
    ensures err { IfErr result (IsMemoryOr ErrorKind.InvalidOperation (field_type name.now (fields_in fields.now) ≡ None)) }
{
    for field in fields {
        if *name == field.name {
            let dtype = field.dtype.try_clone(alloc)?;
            return Ok(dtype);
        }
    }
    Err(PlanError::at_top(ErrorKind::InvalidOperation))
}
