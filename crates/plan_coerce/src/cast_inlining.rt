//! What stands for casts that can be told beforehand: a literal for a cast of one, and what stands under a cast of
//! `LogicalAnd` or `LogicalOr` to truth values. Casts further in go first.
ghost use Rattle.std.specs.Prelude.{◌≡◌, ◌↔◌, ℕ, List, ◌∷◌, [], IsTrue, None, Some, Ok, true, false, MatchOption, IfOk, IfErr};
ghost use Rattle.plan_types.specs.Errors.{no_memory};
ghost use Rattle.plan_types.specs.Types.{is_known, ty};
ghost use Rattle.plan_types.specs.Schemas.{Columns};
ghost use Rattle.plan_types.specs.ValueViews.{val_of};
ghost use Rattle.plan_dsl.specs.Coercion.{coerced};
ghost use Rattle.plan_dsl.specs.InlinedCasts.{is_cast_op, is_logical, is_told_top, literal_cast, literal_with, stays};
ghost use Rattle.plan_dsl.specs.Literals.{literal_op, literal_type, literal_value};
ghost use Rattle.plan_dsl.specs.Ops.{CastOp, Expression};
ghost use Rattle.plan_dsl.specs.Registry.{Registry};
ghost use Rattle.plan_dsl.specs.Trees.{node, no_more, more};
ghost use Rattle.plan_dsl.specs.Typing.{Typed, typing};
ghost use Rattle.plan_arena.specs.declared.aexpr.AExpr.{AExpr};
ghost use Rattle.plan_arena.specs.Denotation.{Denotes, DenotesTree};
ghost use Rattle.plan_arena.specs.Items.{HoldsExpression, expression_layer};
ghost use Rattle.plan_arena.specs.Layers.{op_of};
ghost use Rattle.plan_infer.specs.KeptTypes.{HasRightTypes, IsKept, IsRight};
ghost use Rattle.plan_coerce.specs.CoercionRule.{CanReplace, StaysSettled};
ghost use Rattle.plan_coerce.specs.Rules.{KeepsAsTheyAre, KeepsNone, is_strict_node, said};
ghost use Rattle.plan_coerce.specs.ToldCasts.{IsToldBy};

use plan_arena::aexpr::AExpr;
use plan_arena::arena::{Arena, Node};
use plan_dsl::literal::LiteralValue;
use plan_dsl::operator::Operator;
use plan_infer::type_table::TypeTable;
use plan_types::cast::{can_cast, cast_value};
use plan_types::dtype::{CastOptions, DataType};
use plan_types::error::{CastError, ErrorKind, PlanError};
use plan_types::value::Value;
use std::alloc::Global;

// What stands at a node, without casts above it that go.
#[derive(Drop)]
enum Told {
    // A literal.
    Literal(LiteralValue),
    // The node of a `LogicalAnd` or a `LogicalOr`.
    Logical(Node),
    // Anything else.
    Neither,
}

/// The item that is to be put in place of a strict node, unless that stays. What is kept of types is right of the item
/// too, or is forgotten.
pub(crate) fn in_place_of(
    node: Node,
    arena: &Arena<AExpr>,
    types: &mut TypeTable,
) -> Result<Option<AExpr>, PlanError>
    requires right { HasRightTypes arena.now types.old }
    requires kept { IsKept types.old node.0 }
    requires strict { (registry : Registry) (schema : Columns) (t : Expression) → IsRight registry schema arena.now types.old → Denotes (HoldsExpression arena.now) node.0 t →
        said (is_strict_node registry schema) registry schema t ≡ true }
    ensures answer { IfOk result (λ answer. MatchOption answer
        (StaysSettled (λ registry schema t. stays (coerced registry schema t)) arena.now arena.now types.old types.new node.0)
        (λ item. CanReplace arena.now arena.now types.old types.new node.0 item)) }
    ensures err { IfErr result (λ error. error ≡ no_memory) }
{
    if !is_cast(arena.get(node)) {
        return Ok(None);
    }
    match told_at(node, arena)? {
        Told::Neither => Ok(None),
        Told::Literal(value) => {
            clear_unless(keeps_strict(node, types), types);
            Ok(Some(AExpr::Literal(value)))
        }
        Told::Logical(below) => {
            let item = arena.get(below).try_clone(arena.allocator())?;
            clear_unless(both_strict(node, below, types), types);
            Ok(Some(item))
        }
    }
}

// Whether it is kept of a node that it takes its operands as they are.
fn keeps_strict(node: Node, types: &TypeTable) -> bool
    ensures { IsTrue result ↔ KeepsAsTheyAre types.now node.0 }
{
    match types.kept(node) {
        None => false,
        Some(own) => own.is_strict(),
    }
}

// Whether it is kept of both nodes.
fn both_strict(node: Node, below: Node, types: &TypeTable) -> bool
    ensures { IsTrue result ↔ (KeepsAsTheyAre types.now node.0 × KeepsAsTheyAre types.now below.0) }
{
    if !keeps_strict(node, types) {
        return false;
    }
    keeps_strict(below, types)
}

// Keeps what is kept, or nothing.
fn clear_unless(stays: bool, types: &mut TypeTable)
    ensures stays { stays ≡ true → types.new ≡ types.old }
    ensures none { stays ≡ false → KeepsNone types.new }
{
    if !stays {
        types.clear();
    }
}

fn is_cast(item: &AExpr) -> bool
    ensures { result ≡ is_cast_op (op_of (expression_layer item.now)) }
{
    matches!(item, AExpr::Cast { .. })
}

/// Whether a typed node may be a cast that goes, by what stands right under it.
pub(crate) fn may_go(node: Node, arena: &Arena<AExpr>) -> bool
    requires { DenotesTree (HoldsExpression arena.now) node.0 }
    ensures { result ≡ false → (registry : Registry) (schema : Columns) (t : Expression) (typed : Typed) → Denotes (HoldsExpression arena.now) node.0 t → typing registry schema t ≡ Ok typed →
        stays (coerced registry schema t) ≡ true }
{
    match arena.get(node) {
        AExpr::Cast { expr, .. } => may_be_told(arena.get(*expr)),
        _ => false,
    }
}

// Whether it may be that a cast of the item's node can be told.
fn may_be_told(item: &AExpr) -> bool
    ensures { result ≡ false → (is_cast_op (op_of (expression_layer item.now)) ≡ false) × (is_told_top (op_of (expression_layer item.now)) ≡ false) }
{
    match item {
        AExpr::Literal(_) | AExpr::Cast { .. } => true,
        AExpr::BinaryExpr { op, .. } => is_logical(*op),
        _ => false,
    }
}

// What stands at a node, without casts that go.
fn told_at(node: Node, arena: &Arena<AExpr>) -> Result<Told, PlanError>
    requires { DenotesTree (HoldsExpression arena.now) node.0 }
    ensures ok { IfOk result (λ told. (registry : Registry) (schema : Columns) (t : Expression) (typed : Typed) → Denotes (HoldsExpression arena.now) node.0 t → typing registry schema t ≡ Ok typed →
        IsToldBy registry schema arena.now node.0 t told) }
    ensures err { IfErr result (λ error. error ≡ no_memory) }
{
    match arena.get(node) {
        AExpr::Literal(value) => {
            let value = value.try_clone(arena.allocator())?;
            Ok(Told::Literal(value))
        }
        AExpr::BinaryExpr { op, .. } => {
            if is_logical(*op) {
                return Ok(Told::Logical(node));
            }
            Ok(Told::Neither)
        }
        AExpr::Cast {
            expr,
            dtype,
            options,
        } => {
            let told = told_at(*expr, arena)?;
            let cast = cast_of(arena.allocator(), told, dtype, *options)?;
            Ok(cast)
        }
        _ => Ok(Told::Neither),
    }
}

fn is_logical(op: Operator) -> bool
    ensures { result ≡ is_logical op }
{
    matches!(op, Operator::LogicalAnd | Operator::LogicalOr)
}

// What stands for a cast of it.
fn cast_of(
    alloc: Global,
    told: Told,
    dtype: &DataType,
    options: CastOptions,
) -> Result<Told, PlanError>
    ensures ok { IfOk result (λ found. (registry : Registry) (schema : Columns) (items : List AExpr) (n k : ℕ) (x : Expression) (typed : Typed) → HoldsExpression items n (CastOp (ty dtype.now) options) (k ∷ []) →
        typing registry schema (node (CastOp (ty dtype.now) options) (more x no_more)) ≡ Ok typed → IsToldBy registry schema items k x told →
        IsToldBy registry schema items n (node (CastOp (ty dtype.now) options) (more x no_more)) found) }
    ensures err { IfErr result (λ error. error ≡ no_memory) }
{
    match told {
        Told::Neither => Ok(Told::Neither),
        Told::Logical(node) => match dtype {
            DataType::Boolean => Ok(Told::Logical(node)),
            _ => Ok(Told::Neither),
        },
        Told::Literal(mut value) => {
            value.settle();
            match literal_cast(alloc, value, dtype, options)? {
                None => Ok(Told::Neither),
                Some(made) => Ok(Told::Literal(made)),
            }
        }
    }
}

// What stands for a cast of a literal, if that is a literal.
fn literal_cast(
    alloc: Global,
    value: LiteralValue,
    dtype: &DataType,
    options: CastOptions,
) -> Result<Option<LiteralValue>, PlanError>
    ensures ok { IfOk result (λ found. MatchOption found
        (literal_cast (literal_type value) (literal_value value) (ty dtype.now) options ≡ None)
        (λ made. literal_cast (literal_type value) (literal_value value) (ty dtype.now) options ≡ Some (node (literal_op made) no_more))) }
    ensures err { IfErr result (λ error. error ≡ no_memory) }
{
    let from = value.get_datatype();
    if !value.is_in_range() || !can_cast(&from, dtype) {
        return Ok(None);
    }
    let value = value_of(value);
    if from == *dtype {
        return Ok(literal_with(dtype, value));
    }
    match cast_value(alloc, &value, &from, dtype, options) {
        Ok(converted) => Ok(literal_with(dtype, converted)),
        Err(CastError::Failing) => Ok(None),
        Err(CastError::NoMemory) => Err(PlanError::at_top(ErrorKind::NoMemory)),
    }
}

// The value of a literal.
fn value_of(value: LiteralValue) -> Value
    ensures { val_of result ≡ literal_value value }
{
    match value {
        LiteralValue::Null => Value::Null,
        LiteralValue::Boolean(truth) => Value::Boolean(truth),
        LiteralValue::String(text) => Value::Text(text),
        LiteralValue::Int(number) => Value::Int(number),
        LiteralValue::Int8(number) => Value::Int(i128::from(number)),
        LiteralValue::Int16(number) => Value::Int(i128::from(number)),
        LiteralValue::Int32(number) => Value::Int(i128::from(number)),
        LiteralValue::Int64(number) => Value::Int(i128::from(number)),
        LiteralValue::UInt8(number) => Value::Int(i128::from(number)),
        LiteralValue::UInt16(number) => Value::Int(i128::from(number)),
        LiteralValue::UInt32(number) => Value::Int(i128::from(number)),
        LiteralValue::UInt64(number) => Value::Int(i128::from(number)),
        LiteralValue::Date(days) => Value::Int(i128::from(days)),
        LiteralValue::Time(nanoseconds) => Value::Int(i128::from(nanoseconds)),
        LiteralValue::DateTime(count, _) => Value::Int(i128::from(count)),
        LiteralValue::Duration(count, _) => Value::Int(i128::from(count)),
    }
}

// The literal of the type with the value, if there is one and it isn't null.
fn literal_with(dtype: &DataType, value: Value) -> Option<LiteralValue>
    requires { is_known (ty dtype.now) ≡ true }
    ensures { MatchOption result
        (literal_with (ty dtype.now) (val_of value) ≡ None)
        (λ made. literal_with (ty dtype.now) (val_of value) ≡ Some (node (literal_op made) no_more)) }
{
    match value {
        Value::Boolean(truth) => match dtype {
            DataType::Boolean => Some(LiteralValue::Boolean(truth)),
            _ => None,
        },
        Value::Int(number) => LiteralValue::of_number(dtype, number),
        Value::Text(text) => match dtype {
            DataType::String => Some(LiteralValue::String(text)),
            _ => None,
        },
        Value::Null | Value::List(_) | Value::Struct(_) => None,
    }
}
