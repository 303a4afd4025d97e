//! The expressions of one node, lowered together.
ghost use Rattle.std.specs.Prelude.{◌≡◌, ◌≢◌, ◌++◌, ℕ, [], ◌∷◌, false, true, Ok, OnOk, IfOk, IfErr, IfSome, is_some, length, map, not};
ghost use Rattle.std.specs.List.{AllByRecursion, list_all};
ghost use Rattle.std.specs.Option.{option_map_or};
ghost use Rattle.plan_types.specs.Errors.{at_top, no_memory, IsMemoryOr, IsRefusal};
ghost use Rattle.plan_types.specs.Schemas.{columns, type_at};
ghost use Rattle.plan_types.specs.Types.{ty};
ghost use Rattle.plan_dsl.specs.Aliases.{core, pruned, spelled};
ghost use Rattle.plan_dsl.specs.Expansion.{expansions};
ghost use Rattle.plan_dsl.specs.Expressions.{plain_tree, plain_trees, tree_of, trees_of};
ghost use Rattle.plan_dsl.specs.Literals.{settled};
ghost use Rattle.plan_dsl.specs.Names.{label_of};
ghost use Rattle.plan_dsl.specs.Ops.{Expression};
ghost use Rattle.plan_dsl.specs.PlanRules.{kind_where};
ghost use Rattle.plan_dsl.specs.Registry.{registry};
ghost use Rattle.plan_dsl.specs.Signatures.{is_asked};
ghost use Rattle.plan_dsl.specs.Sources.{is_plain};
ghost use Rattle.plan_dsl.specs.Typing.{Typed, typing};
ghost use Rattle.plan_dsl.specs.declared.signature.Ask.TheVariants.{Sortable};
ghost use Rattle.plan_arena.specs.Denotation.{Denotes};
ghost use Rattle.plan_arena.specs.Items.{named_node, output_label, Grows, HoldsExpression, HoldsFrom};
ghost use Rattle.plan_infer.specs.Fields.{type_in};
ghost use Rattle.plan_infer.specs.KeptTypes.{Extends, HasRightTypes, IsKept, IsRight, typed_of};
ghost use Rattle.plan_expand.specs.Refusals.{IsUnexpanded};
ghost use Rattle.plan_lower.specs.Asked.{IsMemoryOrOne, asked_columns, asked_kinds};
ghost use Rattle.plan_lower.specs.Nodes.{KeepsExpressions};
ghost use Rattle.plan_lower.specs.Outputs.{AreExpandedTo, HasExpandedOutputs, HasOutputs};
ghost use Rattle.plan_lower.specs.Projection.{Projects, AddsOutput, IsOutputRefusal, IsProjectionRefusal, IsUnprojected};

use crate::conversion::asked::Asked;
use crate::conversion::coercion::coerce_all;
use crate::conversion::expr_to_ir::{Pruning, add_nodes, alias_name};
use crate::conversion::horizontals::writes_no_chain;
use crate::conversion::top_numbers::settle;
use plan_arena::aexpr::AExpr;
use plan_arena::arena::{Arena, Node};
use plan_arena::expr_ir::{ExprIR, ExprIRs, OutputName};
use plan_dsl::expr::{Expr, Exprs};
use plan_dsl::udfs::Udfs;
use plan_expand::expr_expansion::rewrite_projections;
use plan_infer::field::{Context, dtype_in};
use plan_infer::type_table::{Inferred, TypeTable};
use plan_types::dtype::DataType;
use plan_types::error::{ErrorKind, PlanError};
use plan_types::schema::Schema;
use std::alloc::Global;

// So many nodes has an operator over two columns that are both cast.
const USUAL_NODES: usize = 5;

/// Lowered expressions, and the schema of their columns where their names were asked for.
#[derive(Drop)]
pub(crate) struct Projection {
    pub(crate) expr: ExprIRs,
    pub(crate) schema: Schema,
}

/// Expands the expressions over the schema, adds the nodes of what comes out, types them over a frame of the schema, and
/// puts casts round their operands. A name that comes twice breaks that kind of rule.
pub(crate) fn project_strictly(
    exprs: Exprs,
    schema: &Schema,
    arena: &mut Arena<AExpr>,
    udfs: &Udfs,
    twice: ErrorKind,
) -> Result<Projection, PlanError>
    ensures ok { IfOk result (λ projection. HasExpandedOutputs (registry udfs.now) (columns schema.now) twice arena.new
        (trees_of exprs) (map named_node projection.expr.items.items) (columns projection.schema)) }
    ensures kept { KeepsExpressions arena.old arena.new }
    ensures err { IfErr result (IsUnprojected (registry udfs.now) (columns schema.now) twice (trees_of exprs)) }
{
    let exprs = expanded(exprs, schema, udfs, arena.allocator())?;
    let projection = project_asked(exprs, schema, arena, udfs, Asked::NewName(twice))?;
    Ok(projection)
}

/// Adds plain expressions' nodes, types them, asks of each what is asked, and puts casts round operands.
pub(crate) fn project_asked(
    exprs: Exprs,
    schema: &Schema,
    arena: &mut Arena<AExpr>,
    udfs: &Udfs,
    asked: Asked,
) -> Result<Projection, PlanError>
    requires plain { list_all is_plain (trees_of exprs) ≡ true }
    ensures ok { IfOk result (λ projection. HasOutputs (registry udfs.now) (columns schema.now) asked arena.new
        (plain_trees exprs) (map named_node projection.expr.items.items) (columns projection.schema)) }
    ensures kept { KeepsExpressions arena.old arena.new }
    ensures err { IfErr result (IsProjectionRefusal (registry udfs.now) (columns schema.now) asked (plain_trees exprs)) }
{
    let types = room_for(exprs.items.len(), arena)?;
    let projection = project_in(exprs, schema, arena, udfs, asked, types)?;
    Ok(projection)
}

/// What the expressions are expanded to over the schema, of which no column is a key.
pub(crate) fn expanded(
    exprs: Exprs,
    schema: &Schema,
    udfs: &Udfs,
    alloc: Global,
) -> Result<Exprs, PlanError>
    ensures ok { IfOk result (AreExpandedTo [] (columns schema.now) (trees_of exprs)) }
    ensures err { IfErr result (IsUnexpanded (expansions [] (columns schema.now) (trees_of exprs))) }
{
    let items = rewrite_projections(alloc, exprs.items, schema, &[], udfs)?;
    Ok(Exprs { items })
}

/// Makes room for the nodes of so many expressions, and a table for their types.
pub(crate) fn room_for(count: usize, arena: &mut Arena<AExpr>) -> Result<TypeTable, PlanError>
    ensures ok { IfOk result (λ types. (n : ℕ) → ¬ (IsKept types n)) }
    ensures same { arena.new ≡ arena.old }
    ensures err { IfErr result (λ error. error ≡ no_memory) }
{
    let nodes = count.saturating_mul(USUAL_NODES);
    arena.reserve(nodes)?;
    let types = TypeTable::with_capacity(arena.allocator(), nodes)?;
    Ok(types)
}

/// Adds plain expressions' nodes, asks of each what is asked, and puts casts round operands, with a table that keeps nothing
/// yet.
pub(crate) fn project_in(
    exprs: Exprs,
    schema: &Schema,
    arena: &mut Arena<AExpr>,
    udfs: &Udfs,
    asked: Asked,
    types: TypeTable,
) -> Result<Projection, PlanError>
    requires plain { list_all is_plain (trees_of exprs) ≡ true }
    requires empty { (n : ℕ) → ¬ (IsKept types n) }
    ensures ok { IfOk result (λ projection. HasOutputs (registry udfs.now) (columns schema.now) asked arena.new
        (plain_trees exprs) (map named_node projection.expr.items.items) (columns projection.schema)) }
    ensures kept { KeepsExpressions arena.old arena.new }
    ensures err { IfErr result (IsProjectionRefusal (registry udfs.now) (columns schema.now) asked (plain_trees exprs)) }
{
    let mut types = types;
    project_coerced(exprs, schema, arena, udfs, asked, &mut types)
}

// Adds plain expressions' nodes, asks of each what is asked, and puts casts round operands, with a table that is right.
fn project_coerced(
    exprs: Exprs,
    schema: &Schema,
    arena: &mut Arena<AExpr>,
    udfs: &Udfs,
    asked: Asked,
    types: &mut TypeTable,
) -> Result<Projection, PlanError>
    requires plain { list_all is_plain (trees_of exprs) ≡ true }
    requires right { IsRight (registry udfs.now) (columns schema.now) arena.old types.old }
    ensures ok { IfOk result (λ projection. HasOutputs (registry udfs.now) (columns schema.now) asked arena.new
        (plain_trees exprs) (map named_node projection.expr.items.items) (columns projection.schema)) }
    ensures kept { KeepsExpressions arena.old arena.new }
    ensures err { IfErr result (IsProjectionRefusal (registry udfs.now) (columns schema.now) asked (plain_trees exprs)) }
{
    let projection = project(exprs, schema, arena, udfs, asked, types)?;
    match coerce_all(projection.expr.items.as_slice(), arena, schema, udfs, types) {
        Ok(()) => Ok(projection),
        Err(error) => {
            drop(projection);
            Err(error)
        }
    }
}

/// Adds the expressions' nodes, types them over a frame of the schema, and asks of each what is asked. No casts are put in
/// yet.
pub(crate) fn project(
    exprs: Exprs,
    schema: &Schema,
    arena: &mut Arena<AExpr>,
    udfs: &Udfs,
    asked: Asked,
    types: &mut TypeTable,
) -> Result<Projection, PlanError>
    requires plain { list_all is_plain (trees_of exprs) ≡ true }
    requires right { IsRight (registry udfs.now) (columns schema.now) arena.old types.old }
    ensures ok { IfOk result (λ projection. Projects (registry udfs.now) (columns schema.now) asked (length arena.old) arena.new
        (plain_trees exprs) (map named_node projection.expr.items.items) (columns projection.schema)) }
    ensures grows { Grows arena.old arena.new }
    ensures kept { IfOk result (λ projection. AllByRecursion (IsKept types.new)
        (map (λ e. (named_node e).expression) projection.expr.items.items)) }
    ensures right { OnOk result (IsRight (registry udfs.now) (columns schema.now) arena.new types.new) }
    ensures err { IfErr result (IsProjectionRefusal (registry udfs.now) (columns schema.now) asked (plain_trees exprs)) }
{
    let alloc = arena.allocator();
    let mut items = Vec::with_capacity(alloc, exprs.items.len())?;
    let mut output = Schema::with_capacity(alloc, asked.room(exprs.items.len()))?;
    for expr in exprs.items {
        let expr_ir = project_one(expr, schema, arena, udfs, asked, types, &mut output)?;
        items.push(expr_ir)?;
    }
    Ok(Projection {
        expr: ExprIRs { items },
        schema: output,
    })
}

// Adds one expression's nodes, asks of it what is asked, and adds its column to the output where its name is asked for.
fn project_one(
    expr: Expr,
    schema: &Schema,
    arena: &mut Arena<AExpr>,
    udfs: &Udfs,
    asked: Asked,
    types: &mut TypeTable,
    output: &mut Schema,
) -> Result<ExprIR, PlanError>
    requires plain { is_plain (tree_of expr) ≡ true }
    requires right { IsRight (registry udfs.now) (columns schema.now) arena.old types.old }
    ensures ok { IfOk result (λ expr_ir. AddsOutput (registry udfs.now) (columns schema.now) asked (length arena.old) arena.new
        (plain_tree expr) (named_node expr_ir) (columns output.old) (columns output.new)) }
    ensures grows { Grows arena.old arena.new }
    ensures kept { IfOk result (λ expr_ir. IsKept types.new (named_node expr_ir).expression) }
    ensures right { OnOk result (IsRight (registry udfs.now) (columns schema.now) arena.new types.new) }
    ensures extends { OnOk result (Extends types.old types.new) }
    ensures err { IfErr result (IsOutputRefusal (registry udfs.now) (columns schema.now) asked (plain_tree expr) (columns output.old)) }
{
    let expr_ir = add_typed(expr, schema, arena, udfs, types)?;
    ask(
        asked,
        &expr_ir,
        types.get(expr_ir.node()),
        output,
        arena.allocator(),
    )?;
    Ok(expr_ir)
}

// Asks of a typed expression what is asked, and puts its column behind the others where its name is asked for.
fn ask(
    asked: Asked,
    expr: &ExprIR,
    own: &Inferred,
    output: &mut Schema,
    alloc: Global,
) -> Result<(), PlanError>
    ensures met { OnOk result (asked_kinds asked (columns output.old) (named_node expr.now).label.name (typed_of own.now) ≡ []) }
    ensures put { OnOk result (columns output.new ≡ columns output.old ++ asked_columns asked (((named_node expr.now).label.name, (typed_of own.now).type) ∷ [])) }
    ensures err { IfErr result (IsMemoryOrOne (asked_kinds asked (columns output.old) (named_node expr.now).label.name (typed_of own.now))) }
{
    match asked {
        Asked::NewName(twice) => put_new(output, expr, own, Context::Default, twice, alloc),
        Asked::TruthValue => refused_where(own.dtype != DataType::Boolean),
        Asked::Order => refused_where(!is_ordered(&own.dtype)),
    }
}

/// Puts an expression's column in a context behind the others. A name that stands there breaks that kind of rule.
pub(crate) fn put_new(
    output: &mut Schema,
    expr: &ExprIR,
    own: &Inferred,
    context: Context,
    twice: ErrorKind,
    alloc: Global,
) -> Result<(), PlanError>
    ensures ok { OnOk result (columns output.new ≡ columns output.old ++ ((named_node expr.now).label.name, type_in context (typed_of own.now)) ∷ []) }
    ensures new { OnOk result (is_some (type_at (columns output.old) (named_node expr.now).label.name) ≡ false) }
    ensures err { IfErr result (IsMemoryOr twice (is_some (type_at (columns output.old) (named_node expr.now).label.name) ≡ true)) }
{
    let name = expr.output_name().try_clone(alloc)?;
    let dtype = dtype_in(context, own, alloc)?;
    let before = output.put(name, dtype)?;
    if before {
        return Err(PlanError::at_top(twice));
    }
    Ok(())
}

// A type of another kind than is asked for is refused.
fn refused_where(other: bool) -> Result<(), PlanError>
    ensures ok { OnOk result (kind_where other ErrorKind.InvalidOperation ≡ []) }
    ensures err { IfErr result (λ error. (error ≡ at_top ErrorKind.InvalidOperation) × (kind_where other ErrorKind.InvalidOperation ≡ ErrorKind.InvalidOperation ∷ [])) }
{
    if other {
        return Err(PlanError::at_top(ErrorKind::InvalidOperation));
    }
    Ok(())
}

// Whether values of the type have an order.
fn is_ordered(dtype: &DataType) -> bool
    ensures { result ≡ is_asked Sortable (ty dtype.now) }
{
    matches!(dtype, DataType::Null) || dtype.is_ord()
}

/// Adds an expression's nodes without its aliases and with its horizontals written out, and types them over a frame of the
/// schema. The rule of a horizontal is asked of the horizontal itself. A number without a type at the top gets the one
/// that it has alone.
pub(crate) fn add_typed(
    expr: Expr,
    schema: &Schema,
    arena: &mut Arena<AExpr>,
    udfs: &Udfs,
    types: &mut TypeTable,
) -> Result<ExprIR, PlanError>
    requires plain { is_plain (tree_of expr) ≡ true }
    requires right { IsRight (registry udfs.now) (columns schema.now) arena.old types.old }
    ensures name { IfOk result (λ expr_ir. (named_node expr_ir).label ≡ label_of (plain_tree expr)) }
    ensures denotes { IfOk result (λ expr_ir. Denotes (HoldsFrom (length arena.old) arena.new) (named_node expr_ir).expression (settled (spelled (plain_tree expr)))) }
    ensures grows { Grows arena.old arena.new }
    ensures kept { IfOk result (λ expr_ir. IsKept types.new (named_node expr_ir).expression) }
    ensures right { OnOk result (IsRight (registry udfs.now) (columns schema.now) arena.new types.new) }
    ensures extends { OnOk result (Extends types.old types.new) }
    ensures err { IfErr result (IsRefusal (typing (registry udfs.now) (columns schema.now) (settled (core (plain_tree expr))))) }
{
    match alias_name(&expr, arena.allocator()) {
        Ok(alias) => {
            let expr_ir = add_named(expr, alias, schema, arena, udfs, types)?;
            Ok(expr_ir)
        }
        Err(error) => {
            drop(expr);
            Err(error)
        }
    }
}

// Adds an expression's nodes and types them, under the alias, or under the expression's name without aliases.
fn add_named(
    expr: Expr,
    alias: Option<OutputName>,
    schema: &Schema,
    arena: &mut Arena<AExpr>,
    udfs: &Udfs,
    types: &mut TypeTable,
) -> Result<ExprIR, PlanError>
    requires plain { is_plain (tree_of expr) ≡ true }
    requires set { IfSome alias (λ name. name ≢ OutputName.None) }
    requires right { IsRight (registry udfs.now) (columns schema.now) arena.old types.old }
    ensures name { IfOk result (λ expr_ir. (named_node expr_ir).label ≡ option_map_or output_label alias (label_of (spelled (plain_tree expr)))) }
    ensures denotes { IfOk result (λ expr_ir. Denotes (HoldsFrom (length arena.old) arena.new) (named_node expr_ir).expression (settled (spelled (plain_tree expr)))) }
    ensures grows { Grows arena.old arena.new }
    ensures kept { IfOk result (λ expr_ir. IsKept types.new (named_node expr_ir).expression) }
    ensures right { OnOk result (IsRight (registry udfs.now) (columns schema.now) arena.new types.new) }
    ensures extends { OnOk result (Extends types.old types.new) }
    ensures err { IfErr result (IsRefusal (typing (registry udfs.now) (columns schema.now) (settled (core (plain_tree expr))))) }
{
    let mut expr = expr;
    settle(&mut expr);
    match add_inferred(expr, schema, arena, udfs, types) {
        Ok(node) => {
            let name = name_under(alias, node, arena, types)?;
            Ok(ExprIR::new(node, name))
        }
        Err(error) => {
            drop(alias);
            Err(error)
        }
    }
}

// Adds an expression's nodes without its aliases and with its horizontals written out, and types them over a frame of the
// schema. What breaks a rule is told of horizontals as nodes of their own.
fn add_inferred(
    expr: Expr,
    schema: &Schema,
    arena: &mut Arena<AExpr>,
    udfs: &Udfs,
    types: &mut TypeTable,
) -> Result<Node, PlanError>
    requires plain { is_plain (tree_of expr) ≡ true }
    requires right { IsRight (registry udfs.now) (columns schema.now) arena.old types.old }
    ensures denotes { IfOk result (λ node. Denotes (HoldsFrom (length arena.old) arena.new) node.0 (spelled (plain_tree expr))) }
    ensures grows { Grows arena.old arena.new }
    ensures kept { IfOk result (λ node. IsKept types.new node.0) }
    ensures right { OnOk result (IsRight (registry udfs.now) (columns schema.now) arena.new types.new) }
    ensures extends { OnOk result (Extends types.old types.new) }
    ensures err { IfErr result (IsRefusal (typing (registry udfs.now) (columns schema.now) (core (plain_tree expr)))) }
{
    if writes_no_chain(&expr) {
        return add_pruned(expr, true, schema, arena, udfs, types);
    }
    match expr.try_clone(arena.allocator()) {
        Ok(copy) => add_spelled(expr, copy, schema, arena, udfs, types),
        Err(error) => {
            drop(expr);
            Err(error)
        }
    }
}

// Adds an expression's nodes with its horizontals written out, and types them over a frame of the schema. Where a rule is
// broken, the copy tells it.
fn add_spelled(
    expr: Expr,
    copy: Expr,
    schema: &Schema,
    arena: &mut Arena<AExpr>,
    udfs: &Udfs,
    types: &mut TypeTable,
) -> Result<Node, PlanError>
    requires plain { is_plain (tree_of expr) ≡ true }
    requires same { tree_of copy ≡ tree_of expr }
    requires right { IsRight (registry udfs.now) (columns schema.now) arena.old types.old }
    ensures denotes { IfOk result (λ node. Denotes (HoldsFrom (length arena.old) arena.new) node.0 (spelled (plain_tree expr))) }
    ensures grows { Grows arena.old arena.new }
    ensures kept { IfOk result (λ node. IsKept types.new node.0) }
    ensures right { OnOk result (IsRight (registry udfs.now) (columns schema.now) arena.new types.new) }
    ensures extends { OnOk result (Extends types.old types.new) }
    ensures err { IfErr result (IsRefusal (typing (registry udfs.now) (columns schema.now) (core (plain_tree expr)))) }
{
    match add_pruned(expr, true, schema, arena, udfs, types) {
        Ok(node) => {
            drop(copy);
            Ok(node)
        }
        Err(error) => {
            let kind = error.kind;
            if kind == ErrorKind::NoMemory {
                drop(copy);
                return Err(error);
            }
            drop(error);
            Err(refusal_of(copy, schema, arena, udfs, types))
        }
    }
}

// Why an expression has no type over a frame of the schema, with its horizontals as nodes of their own.
fn refusal_of(
    expr: Expr,
    schema: &Schema,
    arena: &mut Arena<AExpr>,
    udfs: &Udfs,
    types: &mut TypeTable,
) -> PlanError
    requires plain { is_plain (tree_of expr) ≡ true }
    requires right { IsRight (registry udfs.now) (columns schema.now) arena.old types.old }
    requires untyped { (typed : Typed) → ¬ (typing (registry udfs.now) (columns schema.now) (core (plain_tree expr)) ≡ Ok typed) }
    ensures grows { Grows arena.old arena.new }
    ensures told { IsRefusal (typing (registry udfs.now) (columns schema.now) (core (plain_tree expr))) result }
{
    match add_pruned(expr, false, schema, arena, udfs, types) {
        Ok(_) => unreachable!(),
        Err(error) => error,
    }
}

// Adds an expression's nodes without its aliases, and with its horizontals written out or not, and types them over a frame
// of the schema.
fn add_pruned(
    expr: Expr,
    write: bool,
    schema: &Schema,
    arena: &mut Arena<AExpr>,
    udfs: &Udfs,
    types: &mut TypeTable,
) -> Result<Node, PlanError>
    requires plain { is_plain (tree_of expr) ≡ true }
    requires right { IsRight (registry udfs.now) (columns schema.now) arena.old types.old }
    ensures denotes { IfOk result (λ node. Denotes (HoldsFrom (length arena.old) arena.new) node.0 (pruned false write (plain_tree expr))) }
    ensures grows { Grows arena.old arena.new }
    ensures kept { IfOk result (λ node. IsKept types.new node.0) }
    ensures right { IsRight (registry udfs.now) (columns schema.now) arena.new types.new }
    ensures extends { OnOk result (Extends types.old types.new) }
    ensures err { IfErr result (IsRefusal (typing (registry udfs.now) (columns schema.now) (pruned false write (plain_tree expr)))) }
{
    let pruning = Pruning { keep: false, write };
    let node = add_nodes(expr, pruning, arena)?;
    types.infer(node, schema, arena, udfs)?;
    Ok(node)
}

// The alias, or the name of the typed expression at the node.
fn name_under(
    alias: Option<OutputName>,
    node: Node,
    arena: &Arena<AExpr>,
    types: &TypeTable,
) -> Result<OutputName, PlanError>
    requires set { IfSome alias (λ name. name ≢ OutputName.None) }
    requires kept { IsKept types.now node.0 }
    requires right { HasRightTypes arena.now types.now }
    ensures set { IfOk result (λ name. name ≢ OutputName.None) }
    ensures ok { IfOk result (λ name. (t : Expression) → Denotes (HoldsExpression arena.now) node.0 t →
        output_label name ≡ option_map_or output_label alias (label_of t)) }
    ensures err { IfErr result (λ error. error ≡ no_memory) }
{
    match alias {
        Some(name) => Ok(name),
        None => {
            let name = types.output_name(node, arena)?;
            Ok(name)
        }
    }
}
