//! Operands are made of the types to which their node takes them: by casts, or as literals.
ghost use Rattle.std.specs.Prelude.{◌≡◌, ℕ, ◌≤◌, List, [], Some, length, map, slice_get, true, false, is_some, IfOk, IfErr, IfSome, OnOk};
ghost use Rattle.std.specs.List.{AllByRecursion};
ghost use Rattle.plan_types.specs.Errors.{no_memory};
ghost use Rattle.plan_types.specs.Schemas.{Columns};
ghost use Rattle.plan_types.specs.CommonTypes.{type_alone};
ghost use Rattle.plan_types.specs.Types.{Ty, Untyped, is_known, same_type, ty};
ghost use Rattle.plan_types.specs.Values.{IntValue};
ghost use Rattle.plan_types.specs.Casts.{can_cast};
ghost use Rattle.plan_types.specs.declared.dtype.CastOptions.TheVariants.{NonStrict};
ghost use Rattle.plan_types.specs.declared.dtype.DataType.{DataType};
ghost use Rattle.plan_dsl.specs.Literals.{is_literal, literal_op, literal_type, literal_value, settled_type};
ghost use Rattle.plan_dsl.specs.Aliases.{renamed};
ghost use Rattle.plan_dsl.specs.Ops.{AliasOp, CastOp, Expression, LiteralOp};
ghost use Rattle.plan_dsl.specs.Strictness.{CanBecome, cast_to, integer_has, number_as, number_literal};
ghost use Rattle.plan_dsl.specs.Registry.{Registry};
ghost use Rattle.plan_dsl.specs.Trees.{node, no_more, more};
ghost use Rattle.plan_arena.specs.declared.aexpr.AExpr.{AExpr};
ghost use Rattle.plan_arena.specs.Denotation.{Denotes, DenotesTree};
ghost use Rattle.plan_arena.specs.Items.{Grows, HoldsExpression, HoldsFrom, numbers};
ghost use Rattle.plan_infer.specs.declared.type_table.Inferred.{Inferred};
ghost use Rattle.plan_infer.specs.KeptTypes.{Extends, HasRightTypes, IsKept, IsRight, Keeps, KeepsEntry};
ghost use Rattle.plan_coerce.specs.Coercion.{AddsNodes, AllReady, AllStrictFrom, AreChanged, IsChanged, IsReadyAt, KeepsStrict};
ghost use Rattle.plan_coerce.specs.Reaching.{AreMadeOnce, HasNewNodes, IsClosed, IsMadeOnce, IsPutOnce, Near};

use plan_arena::aexpr::AExpr;
use plan_arena::arena::{Arena, Node};
use plan_dsl::literal::LiteralValue;
use plan_infer::taken_types::TakenTypes;
use plan_infer::type_table::{Inferred, TypeTable};
use plan_types::common_type::materialize_dyn_int;
use plan_types::dtype::{CastOptions, DataType};
use plan_types::error::PlanError;
use plan_types::text::PlSmallStr;

/// Puts in place of a node's operands the nodes that stand for them, made of the types to which it takes them.
#[inline(never)]
pub(crate) fn operands_to(
    node: Node,
    operands: &mut [Node],
    arena: &mut Arena<AExpr>,
    types: &mut TypeTable,
) -> Result<(), PlanError>
    requires right { HasRightTypes arena.old types.old }
    requires kept { IsKept types.old node.0 }
    requires ready { (own : Inferred) → KeepsEntry types.old node.0 own → AllReady types.old (numbers operands.old) (map ty own.operands) }
    ensures changed { OnOk result ((own : Inferred) → KeepsEntry types.old node.0 own →
        AreChanged arena.old arena.new types.old (numbers operands.old) (numbers operands.new) (map ty own.operands)) }
    ensures kept { OnOk result (AllByRecursion (IsKept types.new) (numbers operands.new)) }
    ensures once { OnOk result (AreMadeOnce arena.old arena.new (numbers operands.old) (numbers operands.new)) }
    ensures adds { OnOk result (AddsNodes (λ start roots. AllByRecursion (Near start roots) (numbers operands.old)) arena.old arena.new types.old types.new) }
    ensures grows { Grows arena.old arena.new }
    ensures err { IfErr result (λ error. error ≡ no_memory) }
{
    for index in 0..operands.len() {
        let made = operand_to(node, index, operands[index], arena, types)?;
        operands[index] = made;
    }
    Ok(())
}

// The node that stands for the operand of that number, made of the type to which the node takes it.
fn operand_to(
    node: Node,
    index: usize,
    input: Node,
    arena: &mut Arena<AExpr>,
    types: &mut TypeTable,
) -> Result<Node, PlanError>
    requires right { HasRightTypes arena.old types.old }
    requires kept { IsKept types.old node.0 }
    requires ready { (own : Inferred) → KeepsEntry types.old node.0 own → IsReadyAt types.old input.0 own.operands index }
    ensures changed { IfOk result (λ changed. (own : Inferred) (target : DataType) (from : DataType) → KeepsEntry types.old node.0 own →
        slice_get own.operands index ≡ Some target → Keeps types.old input.0 from → IsChanged arena.old arena.new types.old
        (record { input = input.0; changed = changed.0; from = ty from; target = ty target })) }
    ensures kept { IfOk result (λ changed. IsKept types.new changed.0) }
    ensures once { IfOk result (λ changed. IsMadeOnce arena.old arena.new input.0 changed.0) }
    ensures adds { OnOk result (AddsNodes (λ start roots. Near start roots input.0) arena.old arena.new types.old types.new) }
    ensures grows { Grows arena.old arena.new }
    ensures err { IfErr result (λ error. error ≡ no_memory) }
{
    let target = types.get(node).operand(index);
    let from = types.get(input);
    if from.dtype.is_same(target) {
        return Ok(input);
    }
    let alloc = arena.allocator();
    match from.dtype.untyped_number() {
        None => {
            let own = Inferred {
                name: from.name,
                dtype: target.try_clone(alloc)?,
                many: from.many,
                operands: TakenTypes::none(),
            };
            let target = target.try_clone(alloc)?;
            let made = put_cast(input, target, own, arena, types)?;
            Ok(made)
        }
        Some(number) => {
            let target = target.try_clone(alloc)?;
            let made = number_under(input, number, target, arena, types)?;
            Ok(made)
        }
    }
}

/// Adds a number without a type, made of the type, under the aliases that the node has.
pub(crate) fn number_under(
    node: Node,
    number: i128,
    target: DataType,
    arena: &mut Arena<AExpr>,
    types: &mut TypeTable,
) -> Result<Node, PlanError>
    requires tree { DenotesTree (HoldsExpression arena.old) node.0 }
    requires becomes { CanBecome (Untyped number) (ty target) }
    ensures denotes { IfOk result (λ made. (first : ℕ) (t : Expression) → first ≤ length arena.old → Denotes (HoldsFrom first arena.old) node.0 t →
        Denotes (HoldsFrom first arena.new) made.0 (renamed t (number_as number (ty target)))) }
    ensures fresh { IfOk result (λ made. length arena.old ≤ made.0) }
    ensures kept { IfOk result (λ made. IsKept types.new made.0) }
    ensures once { IfOk result (λ made. HasNewNodes arena.old arena.new made.0) }
    ensures adds { OnOk result (AddsNodes (λ start roots. Unit) arena.old arena.new types.old types.new) }
    ensures grows { Grows arena.old arena.new }
    ensures err { IfErr result (λ error. error ≡ no_memory) }
{
    match arena.get(node).alias() {
        None => {
            let made = number_to(number, target, arena, types)?;
            Ok(made)
        }
        Some((below, name)) => {
            let name = name.try_clone(arena.allocator())?;
            let made = number_under(below, number, target, arena, types)?;
            let alias = add_alias(made, name, arena, types)?;
            Ok(alias)
        }
    }
}

// Adds a number without a type, made of the type.
fn number_to(
    number: i128,
    target: DataType,
    arena: &mut Arena<AExpr>,
    types: &mut TypeTable,
) -> Result<Node, PlanError>
    requires becomes { CanBecome (Untyped number) (ty target) }
    ensures denotes { IfOk result (λ made. (first : ℕ) → first ≤ length arena.old →
        Denotes (HoldsFrom first arena.new) made.0 (number_as number (ty target))) }
    ensures fresh { IfOk result (λ made. length arena.old ≤ made.0) }
    ensures kept { IfOk result (λ made. IsKept types.new made.0) }
    ensures once { IfOk result (λ made. HasNewNodes arena.old arena.new made.0) }
    ensures adds { OnOk result (AddsNodes (λ start roots. Unit) arena.old arena.new types.old types.new) }
    ensures grows { Grows arena.old arena.new }
    ensures err { IfErr result (λ error. error ≡ no_memory) }
{
    match literal_of(number, &target) {
        Some(value) => {
            let literal = add_literal(value, target, arena, types)?;
            Ok(literal)
        }
        None => {
            let cast = add_number_cast(number, target, arena, types)?;
            Ok(cast)
        }
    }
}

// The literal of an integer type that has the number.
fn literal_of(number: i128, dtype: &DataType) -> Option<LiteralValue>
    ensures has { is_some result ≡ integer_has (ty dtype.now) number }
    ensures literal { IfSome result (λ value. literal_op value ≡ LiteralOp (ty dtype.now) (IntValue number)) }
{
    if !dtype.is_integer() {
        return None;
    }
    LiteralValue::of_number(dtype, number)
}

// Adds a cast of a number without a type from the type that it has alone.
fn add_number_cast(
    number: i128,
    target: DataType,
    arena: &mut Arena<AExpr>,
    types: &mut TypeTable,
) -> Result<Node, PlanError>
    requires alone { (own : Ty) × (type_alone (Untyped number) ≡ Some own) × (can_cast own (ty target) ≡ true) }
    ensures denotes { IfOk result (λ cast. (first : ℕ) → first ≤ length arena.old →
        Denotes (HoldsFrom first arena.new) cast.0 (cast_to (ty target) (number_literal (settled_type (Untyped number)) number))) }
    ensures fresh { IfOk result (λ cast. length arena.old ≤ cast.0) }
    ensures right { OnOk result ((registry : Registry) (schema : Columns) →
        IsRight registry schema arena.old types.old → IsRight registry schema arena.new types.new) }
    ensures kept { IfOk result (λ cast. IsKept types.new cast.0) }
    ensures closed { OnOk result ((start : List AExpr) (roots : List ℕ) → length start ≤ length arena.old →
        IsClosed start roots arena.old → IsClosed start roots arena.new) }
    ensures added { OnOk result ((registry : Registry) (schema : Columns) (start : ℕ) → start ≤ length arena.old → IsRight registry schema arena.old types.old →
        is_known (ty target) ≡ true → integer_has (ty target) number ≡ false → AllStrictFrom start arena.old types.old → AllStrictFrom start arena.new types.new) }
    ensures once { IfOk result (λ cast. HasNewNodes arena.old arena.new cast.0) }
    ensures extends { OnOk result (Extends types.old types.new) }
    ensures grows { Grows arena.old arena.new }
    ensures err { IfErr result (λ error. error ≡ no_memory) }
{
    let Some(own) = materialize_dyn_int(number) else {
        unreachable!()
    };
    let Some(value) = LiteralValue::of_number(&own, number) else {
        unreachable!()
    };
    let literal = add_literal(value, own, arena, types)?;
    let cast = add_cast(literal, target, arena, types)?;
    Ok(cast)
}

// Adds a cast round a node. Its type is kept.
fn add_cast(
    input: Node,
    target: DataType,
    arena: &mut Arena<AExpr>,
    types: &mut TypeTable,
) -> Result<Node, PlanError>
    requires { IsKept types.old input.0 }
    ensures denotes { IfOk result (λ cast. (first : ℕ) (t : Expression) → first ≤ length arena.old → Denotes (HoldsFrom first arena.old) input.0 t →
        Denotes (HoldsFrom first arena.new) cast.0 (node (CastOp (ty target) NonStrict) (more t no_more))) }
    ensures fresh { IfOk result (λ cast. cast.0 ≡ length arena.old) }
    ensures right { OnOk result ((registry : Registry) (schema : Columns) (from : DataType) → Keeps types.old input.0 from →
        is_known (ty from) ≡ true → can_cast (ty from) (ty target) ≡ true →
        IsRight registry schema arena.old types.old → IsRight registry schema arena.new types.new) }
    ensures kept { IfOk result (λ cast. IsKept types.new cast.0) }
    ensures closed { OnOk result ((start : List AExpr) (roots : List ℕ) → Near start roots input.0 →
        IsClosed start roots arena.old → IsClosed start roots arena.new) }
    ensures added { OnOk result ((registry : Registry) (schema : Columns) (start : ℕ) (from : Inferred) → start ≤ length arena.old → IsRight registry schema arena.old types.old →
        is_known (ty target) ≡ true → KeepsEntry types.old input.0 from → same_type (ty from.dtype) (ty target) ≡ false → AllStrictFrom start arena.old types.old → AllStrictFrom start arena.new types.new) }
    ensures once { IfOk result (λ cast. IsPutOnce arena.old arena.new input.0 cast.0) }
    ensures extends { OnOk result (Extends types.old types.new) }
    ensures grows { Grows arena.old arena.new }
    ensures err { IfErr result (λ error. error ≡ no_memory) }
{
    let from = types.get(input);
    let own = Inferred {
        name: from.name,
        dtype: target.try_clone(arena.allocator())?,
        many: from.many,
        operands: TakenTypes::none(),
    };
    let cast = put_cast(input, target, own, arena, types)?;
    Ok(cast)
}

// Adds a cast round a node, and keeps what is inferred of it.
#[inline(always)]
fn put_cast(
    input: Node,
    target: DataType,
    own: Inferred,
    arena: &mut Arena<AExpr>,
    types: &mut TypeTable,
) -> Result<Node, PlanError>
    requires { (from : Inferred) × KeepsEntry types.old input.0 from × (ty own.dtype ≡ ty target) × (own.name ≡ from.name) × (own.many ≡ from.many) × (own.operands ≡ []) }
    ensures denotes { IfOk result (λ cast. (first : ℕ) (t : Expression) → first ≤ length arena.old → Denotes (HoldsFrom first arena.old) input.0 t →
        Denotes (HoldsFrom first arena.new) cast.0 (node (CastOp (ty target) NonStrict) (more t no_more))) }
    ensures fresh { IfOk result (λ cast. cast.0 ≡ length arena.old) }
    ensures right { OnOk result ((registry : Registry) (schema : Columns) (from : DataType) → Keeps types.old input.0 from →
        is_known (ty from) ≡ true → can_cast (ty from) (ty target) ≡ true →
        IsRight registry schema arena.old types.old → IsRight registry schema arena.new types.new) }
    ensures kept { IfOk result (λ cast. IsKept types.new cast.0) }
    ensures closed { OnOk result ((start : List AExpr) (roots : List ℕ) → Near start roots input.0 →
        IsClosed start roots arena.old → IsClosed start roots arena.new) }
    ensures added { OnOk result ((registry : Registry) (schema : Columns) (start : ℕ) (from : Inferred) → start ≤ length arena.old → IsRight registry schema arena.old types.old →
        is_known (ty target) ≡ true → KeepsEntry types.old input.0 from → same_type (ty from.dtype) (ty target) ≡ false → AllStrictFrom start arena.old types.old → AllStrictFrom start arena.new types.new) }
    ensures once { IfOk result (λ cast. IsPutOnce arena.old arena.new input.0 cast.0) }
    ensures extends { OnOk result (Extends types.old types.new) }
    ensures grows { Grows arena.old arena.new }
    ensures err { IfErr result (λ error. error ≡ no_memory) }
{
    let cast = arena.add(AExpr::Cast {
        expr: input,
        dtype: target,
        options: CastOptions::NonStrict,
    })?;
    types.keep(cast, own)?;
    Ok(cast)
}

// Adds an alias of a node. Its type is kept.
fn add_alias(
    input: Node,
    name: PlSmallStr,
    arena: &mut Arena<AExpr>,
    types: &mut TypeTable,
) -> Result<Node, PlanError>
    requires { IsKept types.old input.0 }
    ensures denotes { IfOk result (λ alias. (first : ℕ) (t : Expression) → first ≤ length arena.old → Denotes (HoldsFrom first arena.old) input.0 t →
        Denotes (HoldsFrom first arena.new) alias.0 (node (AliasOp name) (more t no_more))) }
    ensures fresh { IfOk result (λ alias. alias.0 ≡ length arena.old) }
    ensures right { OnOk result ((registry : Registry) (schema : Columns) →
        IsRight registry schema arena.old types.old → IsRight registry schema arena.new types.new) }
    ensures kept { IfOk result (λ alias. IsKept types.new alias.0) }
    ensures closed { OnOk result ((start : List AExpr) (roots : List ℕ) → Near start roots input.0 →
        IsClosed start roots arena.old → IsClosed start roots arena.new) }
    ensures added { OnOk result ((registry : Registry) (schema : Columns) (start : ℕ) → start ≤ length arena.old → IsRight registry schema arena.old types.old →
        KeepsStrict types.old input.0 → AllStrictFrom start arena.old types.old → AllStrictFrom start arena.new types.new) }
    ensures once { IfOk result (λ alias. IsPutOnce arena.old arena.new input.0 alias.0) }
    ensures extends { OnOk result (Extends types.old types.new) }
    ensures grows { Grows arena.old arena.new }
    ensures err { IfErr result (λ error. error ≡ no_memory) }
{
    let from = types.get(input);
    let dtype = from.dtype.try_clone(arena.allocator())?;
    let many = from.many;
    let alias = arena.add(AExpr::Alias(input, name))?;
    let own = Inferred {
        name: alias,
        dtype,
        many,
        operands: TakenTypes::none(),
    };
    types.keep(alias, own)?;
    Ok(alias)
}

// Adds a literal. Its type is kept.
fn add_literal(
    value: LiteralValue,
    target: DataType,
    arena: &mut Arena<AExpr>,
    types: &mut TypeTable,
) -> Result<Node, PlanError>
    ensures denotes { IfOk result (λ literal. (first : ℕ) → first ≤ length arena.old →
        Denotes (HoldsFrom first arena.new) literal.0 (node (literal_op value) no_more)) }
    ensures fresh { IfOk result (λ literal. literal.0 ≡ length arena.old) }
    ensures right { OnOk result ((registry : Registry) (schema : Columns) → ty target ≡ literal_type value →
        is_literal (literal_type value) (literal_value value) ≡ true →
        IsRight registry schema arena.old types.old → IsRight registry schema arena.new types.new) }
    ensures kept { IfOk result (λ literal. IsKept types.new literal.0) }
    ensures closed { OnOk result ((start : List AExpr) (roots : List ℕ) →
        IsClosed start roots arena.old → IsClosed start roots arena.new) }
    ensures added { OnOk result ((registry : Registry) (schema : Columns) (start : ℕ) → start ≤ length arena.old → IsRight registry schema arena.old types.old →
        is_known (ty target) ≡ true → AllStrictFrom start arena.old types.old → AllStrictFrom start arena.new types.new) }
    ensures once { IfOk result (λ literal. HasNewNodes arena.old arena.new literal.0) }
    ensures extends { OnOk result (Extends types.old types.new) }
    ensures grows { Grows arena.old arena.new }
    ensures err { IfErr result (λ error. error ≡ no_memory) }
{
    let literal = arena.add(AExpr::Literal(value))?;
    let own = Inferred {
        name: literal,
        dtype: target,
        many: false,
        operands: TakenTypes::none(),
    };
    types.keep(literal, own)?;
    Ok(literal)
}
