//! The rule that each node has operands of the types to which it takes them, and is no cast that can be told beforehand.
ghost use Rattle.std.specs.Prelude.{◌≡◌, ◌≢◌, ℤ, [], ◌∷◌, Some, length, slice_get, map, set, true, MatchOption, IfOk, IfErr, OnOk, false};
ghost use Rattle.std.specs.List.{AllByRecursion};
ghost use Rattle.plan_types.specs.CommonTypes.{type_alone};
ghost use Rattle.plan_types.specs.Errors.{IsRefusal, no_memory};
ghost use Rattle.plan_types.specs.Schemas.{Columns, columns};
ghost use Rattle.plan_types.specs.Types.{Ty, Untyped, ty};
ghost use Rattle.plan_dsl.specs.Literals.{settled};
ghost use Rattle.plan_dsl.specs.Ops.{Expression};
ghost use Rattle.plan_dsl.specs.Registry.{Registry, registry};
ghost use Rattle.plan_dsl.specs.Strictness.{same_types};
ghost use Rattle.plan_dsl.specs.Typing.{types_of, typing};
ghost use Rattle.plan_arena.specs.declared.aexpr.AExpr.{AExpr};
ghost use Rattle.plan_arena.specs.Denotation.{Denotes, DenotesTree};
ghost use Rattle.plan_arena.specs.Items.{Grows, HoldsExpression, expression_layer, numbers};
ghost use Rattle.plan_arena.specs.Layers.{inputs_of};
ghost use Rattle.plan_infer.specs.declared.type_table.Inferred.{Inferred};
ghost use Rattle.plan_infer.specs.KeptTypes.{Extends, HasRightTypes, IsKept, IsRight, KeepsEntry, typings_at};
ghost use Rattle.plan_infer.specs.Typed.{HasType};
ghost use Rattle.plan_coerce.specs.CoercedLaws.{coercion_congruent, coercion_steady, coercion_transitive, until_settled_bounded};
ghost use Rattle.plan_coerce.specs.Coercion.{AddsNodes, IsOver, TakesOperands};
ghost use Rattle.plan_coerce.specs.CoercionRule.{CanReplace, ForgetsOnceTyped, IsCoercion, StaysSettled};
ghost use Rattle.plan_coerce.specs.Reaching.{IsClosed, StaysOnce};
ghost use Rattle.plan_coerce.specs.Rules.{is_settled, is_strict_node, said, until_settled};

use crate::cast_inlining::{in_place_of, may_go};
use crate::rule::OptimizationRule;
use crate::type_coercion::{number_under, operands_to};
use plan_arena::aexpr::AExpr;
use plan_arena::arena::{Arena, Node};
use plan_arena::ir::IR;
use plan_dsl::literal::LiteralValue;
use plan_dsl::udfs::Udfs;
use plan_infer::field::Context;
use plan_infer::steps::Steps;
use plan_infer::type_table::{Inferred, TypeTable};
use plan_types::common_type::materialize_dyn_int;
use plan_types::error::PlanError;
use plan_types::schema::Schema;
use std::sync::ledger::Ledger;

/// Puts casts round the operands of a node, or literals of a type in place of numbers without one; a literal in place of a
/// cast of one, where the type has a literal of the value and that isn't null; and what stands under a cast of `LogicalAnd`
/// or `LogicalOr` to truth values in place of that cast. A node is settled where it is strict and no such cast.
#[derive(Clone, Copy, Drop)]
pub struct TypeCoercionRule;

impl OptimizationRule for TypeCoercionRule {
    ghost settled = { λ rule. is_settled };

    ghost measure = { λ rule. until_settled };

    ghost turns = { λ rule. Some 8 };

    ghost related = { λ rule. IsCoercion };

    ghost forgets = { λ rule. ForgetsOnceTyped };

    ghost replaces_plans = { λ rule. false };

    ghost settled_plan = { λ rule registry schema kind. true };

    ghost congruent = { λ rule. coercion_congruent };

    ghost transitive = { λ rule. coercion_transitive };

    ghost steady = { λ rule. coercion_steady };

    ghost bounded = { λ rule. until_settled_bounded };

    fn optimize_plan<M: Ledger>(
        &self,
        _expr_arena: &Arena<AExpr>,
        _lp_arena: &Arena<IR>,
        _node: Node,
        _udfs: &Udfs,
        _types: &mut TypeTable,
        _typings: &mut Steps<M>,
    ) -> Result<Option<IR>, PlanError> {
        Ok(None)
    }

    fn optimize_expr<M: Ledger>(
        &self,
        expr_arena: &mut Arena<AExpr>,
        node: Node,
        schema: &Schema,
        udfs: &Udfs,
        types: &mut TypeTable,
        typings: &mut Steps<M>,
    ) -> Result<Option<AExpr>, PlanError> {
        if is_settled(node, types) && !may_go(node, expr_arena) {
            return Ok(None);
        }
        infer_once(node, schema, expr_arena, udfs, types, typings)?;
        match replacement(node, expr_arena, types) {
            Ok(answer) => Ok(answer),
            Err(error) => {
                types.clear();
                Err(error)
            }
        }
    }
}

// Whether it is kept of a node that it has a type of columns and takes its operands as they are.
fn is_settled(node: Node, types: &TypeTable) -> bool
    ensures kept { result ≡ true → (own : Inferred) × KeepsEntry types.now node.0 own × (own.operands ≡ []) × ((number : ℤ) → ty own.dtype ≢ Untyped number) }
    ensures unless { (own : Inferred) → KeepsEntry types.now node.0 own → own.operands ≡ [] → ((number : ℤ) → ty own.dtype ≢ Untyped number) → result ≡ true }
{
    match types.kept(node) {
        None => false,
        Some(own) => own.is_strict() && own.dtype.untyped_number().is_none(),
    }
}

// Keeps what is inferred of a node, unless something is kept of it.
pub(crate) fn infer_once<M: Ledger>(
    node: Node,
    schema: &Schema,
    arena: &Arena<AExpr>,
    udfs: &Udfs,
    types: &mut TypeTable,
    typings: &mut Steps<M>,
) -> Result<(), PlanError>
    requires tree { DenotesTree (HoldsExpression arena.now) node.0 }
    requires right { IsRight (registry udfs.now) (columns schema.now) arena.now types.old }
    ensures kept { OnOk result (IsKept types.new node.0) }
    ensures extends { Extends types.old types.new }
    ensures right { IsRight (registry udfs.now) (columns schema.now) arena.now types.new }
    ensures err { IfErr result (λ error. (t : Expression) → Denotes (HoldsExpression arena.now) node.0 t →
        IsRefusal (typing (registry udfs.now) (columns schema.now) t) error) }
{
    if types.kept(node).is_some() {
        return Ok(());
    }
    types.field_of(node, schema, Context::Default, arena, udfs, typings)?;
    Ok(())
}

// The item that is to be put in place of a node of which a type is kept, unless it is settled. Where there is no memory for
// it the table may keep less than it should.
fn replacement(
    node: Node,
    arena: &mut Arena<AExpr>,
    types: &mut TypeTable,
) -> Result<Option<AExpr>, PlanError>
    requires right { HasRightTypes arena.old types.old }
    requires kept { IsKept types.old node.0 }
    ensures answer { IfOk result (λ answer. MatchOption answer
        (StaysSettled is_settled arena.old arena.new types.old types.new node.0)
        (λ item. CanReplace arena.old arena.new types.old types.new node.0 item)) }
    ensures grows { Grows arena.old arena.new }
    ensures err { IfErr result (λ error. error ≡ no_memory) }
{
    match item_for(node, arena, types)? {
        Some(item) => Ok(Some(item)),
        None => in_place_of(node, arena, types),
    }
}

// The item that is to be put in place of a node, unless it is strict. Where there is no memory for it the table may keep
// less than it should.
fn item_for(
    node: Node,
    arena: &mut Arena<AExpr>,
    types: &mut TypeTable,
) -> Result<Option<AExpr>, PlanError>
    requires right { HasRightTypes arena.old types.old }
    requires kept { IsKept types.old node.0 }
    ensures answer { IfOk result (λ answer. MatchOption answer
        (StaysSettled (λ registry schema. said (is_strict_node registry schema) registry schema) arena.old arena.new types.old types.new node.0)
        (λ item. CanReplace arena.old arena.new types.old types.new node.0 item)) }
    ensures grows { Grows arena.old arena.new }
    ensures err { IfErr result (λ error. error ≡ no_memory) }
{
    let own = types.get(node);
    match own.dtype.untyped_number() {
        Some(number) => {
            let item = typed_number(node, number, arena, types)?;
            Ok(Some(item))
        }
        None => {
            if own.is_strict() {
                return Ok(None);
            }
            item_over(node, arena, types)
        }
    }
}

// The item that is to be put in place of a node that may take its operands to other types. Of two operands no list is
// made.
fn item_over(
    node: Node,
    arena: &mut Arena<AExpr>,
    types: &mut TypeTable,
) -> Result<Option<AExpr>, PlanError>
    requires right { HasRightTypes arena.old types.old }
    requires kept { IsKept types.old node.0 }
    requires takes { (own : Inferred) → KeepsEntry types.old node.0 own → TakesOperands own }
    ensures answer { IfOk result (λ answer. MatchOption answer
        (StaysSettled (λ registry schema. said (is_strict_node registry schema) registry schema) arena.old arena.new types.old types.new node.0)
        (λ item. CanReplace arena.old arena.new types.old types.new node.0 item)) }
    ensures grows { Grows arena.old arena.new }
    ensures err { IfErr result (λ error. error ≡ no_memory) }
{
    if let AExpr::BinaryExpr { left, op, right } = arena.get(node) {
        let op = *op;
        let mut operands = [*left, *right];
        if !change_operands(node, &mut operands, arena, types)? {
            return Ok(None);
        }
        return Ok(Some(AExpr::BinaryExpr {
            left: operands[0],
            op,
            right: operands[1],
        }));
    }
    let mut operands = arena.get(node).inputs(arena.allocator())?;
    if !change_operands(node, operands.as_mut_slice(), arena, types)? {
        return Ok(None);
    }
    let mut item = arena.get(node).try_clone(arena.allocator())?;
    item.set_inputs(operands.as_slice());
    Ok(Some(item))
}

// Puts in place of a node's operands those that it takes, unless it takes them as they are. Answers whether it did.
#[inline(always)]
fn change_operands(
    node: Node,
    operands: &mut [Node],
    arena: &mut Arena<AExpr>,
    types: &mut TypeTable,
) -> Result<bool, PlanError>
    requires right { HasRightTypes arena.old types.old }
    requires kept { IsKept types.old node.0 }
    requires listed { (item : AExpr) → slice_get arena.old node.0 ≡ Some item → numbers operands.old ≡ inputs_of (expression_layer item) }
    requires takes { (own : Inferred) → KeepsEntry types.old node.0 own → TakesOperands own }
    ensures stays { IfOk result (λ changed. changed ≡ false → StaysSettled (λ registry schema. said (is_strict_node registry schema) registry schema) arena.old arena.new types.old types.new node.0) }
    ensures over { IfOk result (λ changed. changed ≡ true → (item : AExpr) → IsOver arena.old node.0 item (numbers operands.new) → CanReplace arena.old arena.new types.old types.new node.0 item) }
    ensures count { OnOk result (length operands.new ≡ length operands.old) }
    ensures grows { Grows arena.old arena.new }
    ensures err { IfErr result (λ error. error ≡ no_memory) }
{
    if takes_own(types.get(node), operands, types) {
        return Ok(false);
    }
    operands_to(node, operands, arena, types)?;
    Ok(true)
}

// Whether a node takes its operands as they are.
#[inline(always)]
fn takes_own(own: &Inferred, inputs: &[Node], types: &TypeTable) -> bool
    requires inputs { AllByRecursion (IsKept types.now) (numbers inputs.now) }
    requires count { length own.now.operands ≡ length inputs.now }
    ensures { result ≡ same_types (types_of (typings_at types.now (numbers inputs.now))) (map ty own.now.operands) }
{
    for index in 0..inputs.len() {
        if !types.get(inputs[index]).dtype.is_same(own.operand(index)) {
            return false;
        }
    }
    true
}

// What gives a number without a type the one that it has alone, under the aliases that the node has.
fn typed_number(
    node: Node,
    number: i128,
    arena: &mut Arena<AExpr>,
    types: &mut TypeTable,
) -> Result<AExpr, PlanError>
    requires tree { DenotesTree (HoldsExpression arena.old) node.0 }
    requires alone { (own : Ty) × (type_alone (Untyped number) ≡ Some own) }
    ensures settles { IfOk result (λ item. (registry : Registry) (schema : Columns) (t : Expression) → Denotes (HoldsExpression arena.old) node.0 t →
        HasType (typing registry schema t) (Untyped number) → Denotes (HoldsExpression (set arena.new node.0 item)) node.0 (settled t)) }
    ensures once { IfOk result (λ item. StaysOnce arena.old (set arena.new node.0 item) node.0) }
    ensures closed { IfOk result (λ item. IsClosed arena.old (node.0 ∷ []) (set arena.new node.0 item)) }
    ensures adds { OnOk result (AddsNodes (λ start roots. Unit) arena.old arena.new types.old types.new) }
    ensures grows { Grows arena.old arena.new }
    ensures err { IfErr result (λ error. error ≡ no_memory) }
{
    let Some(own) = materialize_dyn_int(number) else {
        unreachable!()
    };
    match arena.get(node).alias() {
        None => {
            let Some(value) = LiteralValue::of_number(&own, number) else {
                unreachable!()
            };
            Ok(AExpr::Literal(value))
        }
        Some((below, name)) => {
            let name = name.try_clone(arena.allocator())?;
            let made = number_under(below, number, own, arena, types)?;
            Ok(AExpr::Alias(made, name))
        }
    }
}
