//! Types of expressions in an arena.
ghost use Rattle.std.specs.Prelude.{◌≡◌, ◌≤◌, ◌+◌, ◌⊎◌, ℕ, true, length, slice_get, OnErr, [], ◌∷◌, Some, Ok, Err, IfOk, IfErr, OnOk};
ghost use Rattle.std.specs.List.{AllByRecursion};
ghost use Rattle.plan_types.specs.Errors.{IsRefusal, no_memory};
ghost use Rattle.plan_types.specs.Schemas.{Columns, Name, columns, type_at};
ghost use Rattle.plan_types.specs.Types.{is_known, ty};
ghost use Rattle.plan_types.specs.declared.dtype.CastOptions.{CastOptions};
ghost use Rattle.plan_dsl.specs.Ops.{AliasOp, ColumnOp, BinaryOp, CastOp};
ghost use Rattle.plan_dsl.specs.Registry.{Registry, registry};
ghost use Rattle.plan_dsl.specs.Literals.{literal_op, literal_type, literal_value};
ghost use Rattle.plan_dsl.specs.Typing.{column_type, typing_rule, literal_taken};
ghost use Rattle.plan_arena.specs.Denotation.{DenotesTree};
ghost use Rattle.plan_arena.specs.Layers.{op_of, inputs_of};
ghost use Rattle.plan_arena.specs.Items.{HoldsExpression, expression_layer, numbers};
ghost use Rattle.plan_infer.specs.KeptTypes.{Extends, IsKept, IsNamedBy, IsRight, IsRuled, kept_count, name_at, node_depth, typings_at};
ghost use Rattle.plan_infer.specs.Typed.{IsNodeRefusal};

use crate::function_types::function_typing;
use crate::operator_types::{common_integer, operand_types};
use crate::signed::{signature, signed_typing, type_alone, unless_own};
use crate::steps::{Step, Steps};
use crate::taken::{taken_typing, widened};
use crate::taken_types::TakenTypes;
use crate::type_table::{Inferred, TypeTable};
use plan_arena::aexpr::AExpr;
use plan_arena::arena::{Arena, Node};
use plan_dsl::literal::LiteralValue;
use plan_dsl::operator::Operator;
use plan_dsl::udfs::Udfs;
use plan_types::cast::can_cast;
use plan_types::dtype::DataType;
use plan_types::error::{ErrorKind, PlanError};
use plan_types::schema::Schema;
use plan_types::text::PlSmallStr;
use std::alloc::Global;
use std::sync::ledger::Ledger;

/// Types the expression at a node, over a frame of the schema. A node of which something is kept is not typed anew.
pub(crate) fn type_node<M: Ledger>(
    node: Node,
    arena: &Arena<AExpr>,
    schema: &Schema,
    udfs: &Udfs,
    types: &mut TypeTable,
    typings: &mut Steps<M>,
) -> Result<(), PlanError>
    requires tree { DenotesTree (HoldsExpression arena.now) node.0 }
    requires right { IsRight (registry udfs.now) (columns schema.now) arena.now types.old }
    ensures kept { OnOk result (IsKept types.new node.0) }
    ensures right { IsRight (registry udfs.now) (columns schema.now) arena.now types.new }
    ensures extends { Extends types.old types.new }
    ensures below { (n : ℕ) → IsKept types.new n → IsKept types.old n ⊎ (node_depth arena.now n ≤ node_depth arena.now node.0) }
    ensures counted { OnOk result (typings.new + kept_count types.old ≡ typings.old + kept_count types.new) }
    ensures refused { OnErr result (typings.new + kept_count types.old ≤ typings.old + kept_count types.new + 1) }
    ensures err { IfErr result (IsNodeRefusal (registry udfs.now) (columns schema.now) arena.now node.0) }
{
    if types.kept(node).is_some() {
        return Ok(());
    }
    let item = arena.get(node);
    if let AExpr::Column(name) = item {
        return type_column(node, name, arena, schema, types, typings);
    }
    if let AExpr::Literal(value) = item {
        return type_literal(node, value, arena, types, typings);
    }
    if let AExpr::BinaryExpr { left, op, right } = item {
        type_node(*left, arena, schema, udfs, types, typings)?;
        type_node(*right, arena, schema, udfs, types, typings)?;
        return type_operator(node, *op, *left, *right, arena, types, typings);
    }
    let inputs = item.input_nodes();
    for index in 0..inputs.len() {
        type_node(inputs.at(index), arena, schema, udfs, types, typings)?;
    }
    type_ready(node, item, arena, schema, udfs, types, typings)
}

// Types a column.
fn type_column<M: Ledger>(
    node: Node,
    name: &PlSmallStr,
    arena: &Arena<AExpr>,
    schema: &Schema,
    types: &mut TypeTable,
    typings: &mut Steps<M>,
) -> Result<(), PlanError>
    requires tree { DenotesTree (HoldsExpression arena.now) node.0 }
    requires held { HoldsExpression arena.now node.0 (ColumnOp name.now) [] }
    requires none { ¬ (IsKept types.old node.0) }
    ensures kept { OnOk result (IsKept types.new node.0) }
    ensures right { (registry : Registry) → IsRight registry (columns schema.now) arena.now types.old → IsRight registry (columns schema.now) arena.now types.new }
    ensures extends { Extends types.old types.new }
    ensures only { (n : ℕ) → IsKept types.new n → IsKept types.old n ⊎ (n ≡ node.0) }
    ensures counted { OnOk result (typings.new + kept_count types.old ≡ typings.old + kept_count types.new) }
    ensures refused { OnErr result (typings.new + kept_count types.old ≤ typings.old + kept_count types.new + 1) }
    ensures err { IfErr result (λ error. (registry : Registry) → IsRight registry (columns schema.now) arena.now types.old →
        IsNodeRefusal registry (columns schema.now) arena.now node.0 error) }
{
    let found = match column_dtype(name, schema, typings.step()) {
        Ok(found) => found,
        Err(kind) => return Err(PlanError::at_top(kind)),
    };
    let alloc = arena.allocator();
    let dtype = found.try_clone(alloc)?;
    types.add(
        node,
        Inferred {
            name: node,
            dtype,
            many: true,
            operands: TakenTypes::none(),
        },
    )
}

// Types a literal.
fn type_literal<M: Ledger>(
    node: Node,
    value: &LiteralValue,
    arena: &Arena<AExpr>,
    types: &mut TypeTable,
    typings: &mut Steps<M>,
) -> Result<(), PlanError>
    requires tree { DenotesTree (HoldsExpression arena.now) node.0 }
    requires held { HoldsExpression arena.now node.0 (literal_op value.now) [] }
    requires none { ¬ (IsKept types.old node.0) }
    ensures kept { OnOk result (IsKept types.new node.0) }
    ensures right { (registry : Registry) (schema : Columns) → IsRight registry schema arena.now types.old → IsRight registry schema arena.now types.new }
    ensures extends { Extends types.old types.new }
    ensures only { (n : ℕ) → IsKept types.new n → IsKept types.old n ⊎ (n ≡ node.0) }
    ensures counted { OnOk result (typings.new + kept_count types.old ≡ typings.old + kept_count types.new) }
    ensures refused { OnErr result (typings.new + kept_count types.old ≤ typings.old + kept_count types.new + 1) }
    ensures err { IfErr result (λ error. (registry : Registry) (schema : Columns) → IsRight registry schema arena.now types.old →
        IsNodeRefusal registry schema arena.now node.0 error) }
{
    let dtype = literal_dtype(value, typings.step())?;
    types.add(
        node,
        Inferred {
            name: node,
            dtype,
            many: false,
            operands: TakenTypes::none(),
        },
    )
}

// Types an operator of which both operands are typed. Of them no list is made.
fn type_operator<M: Ledger>(
    node: Node,
    op: Operator,
    left: Node,
    right: Node,
    arena: &Arena<AExpr>,
    types: &mut TypeTable,
    typings: &mut Steps<M>,
) -> Result<(), PlanError>
    requires tree { DenotesTree (HoldsExpression arena.now) node.0 }
    requires held { HoldsExpression arena.now node.0 (BinaryOp op) (left.0 ∷ right.0 ∷ []) }
    requires inputs { IsKept types.old left.0 × IsKept types.old right.0 }
    requires none { ¬ (IsKept types.old node.0) }
    ensures kept { OnOk result (IsKept types.new node.0) }
    ensures right { (registry : Registry) (schema : Columns) → IsRight registry schema arena.now types.old → IsRight registry schema arena.now types.new }
    ensures extends { Extends types.old types.new }
    ensures only { (n : ℕ) → IsKept types.new n → IsKept types.old n ⊎ (n ≡ node.0) }
    ensures counted { OnOk result (typings.new + kept_count types.old ≡ typings.old + kept_count types.new) }
    ensures refused { OnErr result (typings.new + kept_count types.old ≤ typings.old + kept_count types.new + 1) }
    ensures err { IfErr result (λ error. (registry : Registry) (schema : Columns) → IsRight registry schema arena.now types.old →
        IsNodeRefusal registry schema arena.now node.0 error) }
{
    let step = typings.step();
    let own = binary_typing(op, &[left, right], types, arena.allocator(), step)?;
    types.add(node, own)
}

// Types a node of which each input is typed.
fn type_ready<M: Ledger>(
    node: Node,
    item: &AExpr,
    arena: &Arena<AExpr>,
    schema: &Schema,
    udfs: &Udfs,
    types: &mut TypeTable,
    typings: &mut Steps<M>,
) -> Result<(), PlanError>
    requires tree { DenotesTree (HoldsExpression arena.now) node.0 }
    requires item { slice_get arena.now node.0 ≡ Some item.now }
    requires inputs { AllByRecursion (IsKept types.old) (inputs_of (expression_layer item.now)) }
    requires none { ¬ (IsKept types.old node.0) }
    requires right { IsRight (registry udfs.now) (columns schema.now) arena.now types.old }
    ensures kept { OnOk result (IsKept types.new node.0) }
    ensures right { IsRight (registry udfs.now) (columns schema.now) arena.now types.new }
    ensures extends { Extends types.old types.new }
    ensures only { (n : ℕ) → IsKept types.new n → IsKept types.old n ⊎ (n ≡ node.0) }
    ensures counted { OnOk result (typings.new + kept_count types.old ≡ typings.old + kept_count types.new) }
    ensures refused { OnErr result (typings.new + kept_count types.old ≤ typings.old + kept_count types.new + 1) }
    ensures err { IfErr result (IsNodeRefusal (registry udfs.now) (columns schema.now) arena.now node.0) }
{
    let nodes = item.inputs(arena.allocator())?;
    type_over(
        node,
        item,
        nodes.as_slice(),
        arena,
        schema,
        udfs,
        types,
        typings,
    )
}

// Types a node over inputs of which each is typed.
fn type_over<M: Ledger>(
    node: Node,
    item: &AExpr,
    inputs: &[Node],
    arena: &Arena<AExpr>,
    schema: &Schema,
    udfs: &Udfs,
    types: &mut TypeTable,
    typings: &mut Steps<M>,
) -> Result<(), PlanError>
    requires tree { DenotesTree (HoldsExpression arena.now) node.0 }
    requires item { slice_get arena.now node.0 ≡ Some item.now }
    requires listed { numbers inputs.now ≡ inputs_of (expression_layer item.now) }
    requires inputs { AllByRecursion (IsKept types.old) (numbers inputs.now) }
    requires none { ¬ (IsKept types.old node.0) }
    requires right { IsRight (registry udfs.now) (columns schema.now) arena.now types.old }
    ensures kept { OnOk result (IsKept types.new node.0) }
    ensures right { IsRight (registry udfs.now) (columns schema.now) arena.now types.new }
    ensures extends { Extends types.old types.new }
    ensures only { (n : ℕ) → IsKept types.new n → IsKept types.old n ⊎ (n ≡ node.0) }
    ensures counted { OnOk result (typings.new + kept_count types.old ≡ typings.old + kept_count types.new) }
    ensures refused { OnErr result (typings.new + kept_count types.old ≤ typings.old + kept_count types.new + 1) }
    ensures err { IfErr result (IsNodeRefusal (registry udfs.now) (columns schema.now) arena.now node.0) }
{
    let step = typings.step();
    let own = own_typing(
        node,
        item,
        inputs,
        types,
        schema,
        udfs,
        arena.allocator(),
        step,
    )?;
    types.add(node, own)
}

/// What the rule of a node says, whose inputs are typed. The step is this use of it.
#[inline(always)]
pub(crate) fn own_typing(
    node: Node,
    item: &AExpr,
    inputs: &[Node],
    types: &TypeTable,
    schema: &Schema,
    udfs: &Udfs,
    alloc: Global,
    step: Step,
) -> Result<Inferred, PlanError>
    requires listed { numbers inputs.now ≡ inputs_of (expression_layer item.now) }
    requires inputs { AllByRecursion (IsKept types.now) (numbers inputs.now) }
    ensures ok { IfOk result (IsRuled (registry udfs.now) (columns schema.now) (op_of (expression_layer item.now)) (typings_at types.now (numbers inputs.now))) }
    ensures name { IfOk result (λ own. IsNamedBy types.now (op_of (expression_layer item.now)) node.0 (numbers inputs.now) own.name.0) }
    ensures err { IfErr result (IsRefusal (typing_rule (registry udfs.now) (columns schema.now) (op_of (expression_layer item.now)) (typings_at types.now (numbers inputs.now)))) }
{
    match item {
        AExpr::Column(name) => column_typing(node, name, schema, alloc, step),
        AExpr::Literal(value) => literal_typing(node, value, alloc, step),
        AExpr::BinaryExpr { op, .. } => binary_typing(*op, inputs, types, alloc, step),
        AExpr::Cast { dtype, .. } => cast_typing(dtype, inputs, types, alloc, step),
        AExpr::Alias(..) => alias_typing(node, inputs, types, alloc, step),
        AExpr::Function { function, .. } => function_typing(
            node,
            function,
            signature(item),
            inputs,
            types,
            alloc,
            step,
        ),
        _ => signed_typing(node, signature(item), inputs, types, alloc, step),
    }
}

// A column has the type that the schema gives it.
fn column_typing(
    node: Node,
    name: &PlSmallStr,
    schema: &Schema,
    alloc: Global,
    step: Step,
) -> Result<Inferred, PlanError>
    ensures ok { IfOk result (λ own. (registry : Registry) → IsRuled registry (columns schema.now) (ColumnOp name.now) [] own) }
    ensures name { IfOk result (λ own. own.name ≡ node) }
    ensures err { IfErr result (λ error. (registry : Registry) → IsRefusal (typing_rule registry (columns schema.now) (ColumnOp name.now) []) error) }
{
    let found = match column_dtype(name, schema, step) {
        Ok(found) => found,
        Err(kind) => return Err(PlanError::at_top(kind)),
    };
    let dtype = found.try_clone(alloc)?;
    Ok(Inferred {
        name: node,
        dtype,
        many: true,
        operands: TakenTypes::none(),
    })
}

// The type of a column in the schema, which must be one of columns.
#[inline(always)]
fn column_dtype<'a>(
    name: &PlSmallStr,
    schema: &'a Schema,
    _step: Step,
) -> Result<&'a DataType, ErrorKind>
    ensures ok { IfOk result (λ dtype. (type_at (columns schema.now) name.now ≡ Some (ty dtype.now)) × (is_known (ty dtype.now) ≡ true)) }
    ensures err { IfErr result (λ kind. column_type (type_at (columns schema.now) name.now) ≡ Err kind) }
{
    let Some(found) = schema.get(name) else {
        return Err(ErrorKind::ColumnNotFound);
    };
    if !found.is_known() {
        return Err(ErrorKind::InvalidOperation);
    }
    Ok(found)
}

// A literal has its own type, which has its value.
fn literal_typing(
    node: Node,
    value: &LiteralValue,
    alloc: Global,
    step: Step,
) -> Result<Inferred, PlanError>
    ensures ok { IfOk result (λ own. (registry : Registry) (schema : Columns) → IsRuled registry schema (literal_op value.now) [] own) }
    ensures name { IfOk result (λ own. own.name ≡ node) }
    ensures err { IfErr result (λ error. (registry : Registry) (schema : Columns) → IsRefusal (typing_rule registry schema (literal_op value.now) []) error) }
{
    let dtype = literal_dtype(value, step)?;
    Ok(Inferred {
        name: node,
        dtype,
        many: false,
        operands: TakenTypes::none(),
    })
}

// An operator over two operands.
#[inline(always)]
fn binary_typing(
    op: Operator,
    inputs: &[Node],
    types: &TypeTable,
    alloc: Global,
    _step: Step,
) -> Result<Inferred, PlanError>
    requires two { length inputs.now ≡ 2 }
    requires inputs { AllByRecursion (IsKept types.now) (numbers inputs.now) }
    ensures ok { IfOk result (λ own. (registry : Registry) (schema : Columns) → IsRuled registry schema (BinaryOp op) (typings_at types.now (numbers inputs.now)) own) }
    ensures name { IfOk result (λ own. own.name.0 ≡ name_at types.now 0 (numbers inputs.now)) }
    ensures err { IfErr result (λ error. (registry : Registry) (schema : Columns) → IsRefusal (typing_rule registry schema (BinaryOp op) (typings_at types.now (numbers inputs.now))) error) }
{
    let left = types.get(inputs[0]);
    let right = types.get(inputs[1]);
    if let Some(common) = common_integer(&left.dtype, op, &right.dtype) {
        return widened(left, right, common, alloc);
    }
    let taken = operand_types(alloc, &left.dtype, op, &right.dtype)?;
    let own = taken_typing(left.name, taken, inputs, types, alloc)?;
    Ok(own)
}

// A cast of an operand, as it is alone, where there is such a cast.
fn cast_typing(
    target: &DataType,
    inputs: &[Node],
    types: &TypeTable,
    alloc: Global,
    _step: Step,
) -> Result<Inferred, PlanError>
    requires one { length inputs.now ≡ 1 }
    requires inputs { AllByRecursion (IsKept types.now) (numbers inputs.now) }
    ensures ok { IfOk result (λ own. (registry : Registry) (schema : Columns) (options : CastOptions) → IsRuled registry schema (CastOp (ty target.now) options) (typings_at types.now (numbers inputs.now)) own) }
    ensures name { IfOk result (λ own. own.name.0 ≡ name_at types.now 0 (numbers inputs.now)) }
    ensures err { IfErr result (λ error. (registry : Registry) (schema : Columns) (options : CastOptions) → IsRefusal (typing_rule registry schema (CastOp (ty target.now) options) (typings_at types.now (numbers inputs.now))) error) }
{
    let from = types.get(inputs[0]);
    let own = type_alone(alloc, &from.dtype)?;
    if !can_cast(&own, target) {
        return Err(PlanError::at_top(ErrorKind::InvalidOperation));
    }
    let dtype = target.try_clone(alloc)?;
    let mut targets = Vec::new(alloc);
    targets.push(own)?;
    Ok(Inferred {
        name: from.name,
        dtype,
        many: from.many,
        operands: unless_own(targets, inputs, types),
    })
}

// An alias passes its operand on.
fn alias_typing(
    node: Node,
    inputs: &[Node],
    types: &TypeTable,
    alloc: Global,
    _step: Step,
) -> Result<Inferred, PlanError>
    requires one { length inputs.now ≡ 1 }
    requires inputs { AllByRecursion (IsKept types.now) (numbers inputs.now) }
    ensures ok { IfOk result (λ own. (registry : Registry) (schema : Columns) (name : Name) → IsRuled registry schema (AliasOp name) (typings_at types.now (numbers inputs.now)) own) }
    ensures name { IfOk result (λ own. own.name ≡ node) }
    ensures err { IfErr result (λ error. error ≡ no_memory) }
{
    let from = types.get(inputs[0]);
    let dtype = from.dtype.try_clone(alloc)?;
    Ok(Inferred {
        name: node,
        dtype,
        many: from.many,
        operands: TakenTypes::none(),
    })
}

// The type of a literal, which must have its value: a number without a type has one for itself.
fn literal_dtype(value: &LiteralValue, _step: Step) -> Result<DataType, PlanError>
    ensures ok { IfOk result (λ dtype. literal_taken (literal_type value.now) (literal_value value.now)
        ≡ Ok (record { operands = []; type = ty dtype })) }
    ensures err { IfErr result (IsRefusal (literal_taken (literal_type value.now) (literal_value value.now))) }
{
    if !value.is_in_range() {
        return Err(PlanError::at_top(ErrorKind::InvalidOperation));
    }
    Ok(value.get_datatype())
}
