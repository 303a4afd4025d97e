//! The keys and aggregates of a group-by, lowered together.
ghost use Rattle.std.specs.Prelude.{◌≡◌, ◌++◌, ℕ, List, true, IfOk, IfErr, map};
ghost use Rattle.std.specs.List.{AllByRecursion, list_all};
ghost use Rattle.plan_types.specs.Errors.{IsMemoryOr};
ghost use Rattle.plan_types.specs.Schemas.{columns, names_of, repeats};
ghost use Rattle.plan_dsl.specs.Expansion.{expansions, key_names};
ghost use Rattle.plan_dsl.specs.Expressions.{plain_trees, trees_of};
ghost use Rattle.plan_dsl.specs.Registry.{registry};
ghost use Rattle.plan_dsl.specs.Sources.{is_plain};
ghost use Rattle.plan_dsl.specs.Typing.{Typed};
ghost use Rattle.plan_arena.specs.Items.{named_node};
ghost use Rattle.plan_infer.specs.KeptTypes.{AllKept, IsKept, IsRight};
ghost use Rattle.plan_expand.specs.Refusals.{IsUnexpanded};
ghost use Rattle.plan_lower.specs.Groups.{HasAggregates, HasExpandedGroups, HasGroups, IsAggregateRefusal, IsGroupRefusal, IsUngrouped, named_in_groups};
ghost use Rattle.plan_lower.specs.Nodes.{KeepsExpressions};
ghost use Rattle.plan_lower.specs.Outputs.{AreExpandedTo};

use crate::conversion::asked::Asked;
use crate::conversion::coercion::coerce_all;
use crate::conversion::projection::{Projection, expanded, project, project_in, put_new, room_for};
use plan_arena::aexpr::AExpr;
use plan_arena::arena::Arena;
use plan_arena::expr_ir::ExprIRs;
use plan_dsl::expr::Exprs;
use plan_dsl::udfs::Udfs;
use plan_expand::expr_expansion::rewrite_projections;
use plan_infer::field::Context;
use plan_infer::type_table::TypeTable;
use plan_types::error::{ErrorKind, PlanError};
use plan_types::schema::Schema;
use std::alloc::Global;

/// Lowered keys and aggregates, and the schema of their columns.
#[derive(Drop)]
pub(crate) struct Groups {
    pub(crate) keys: ExprIRs,
    pub(crate) aggs: ExprIRs,
    pub(crate) schema: Schema,
}

/// Expands keys and aggregates over the schema, adds the nodes of what comes out, types them over a frame of the schema,
/// and puts casts round their operands.
pub(crate) fn group_strictly(
    keys: Exprs,
    aggs: Exprs,
    schema: &Schema,
    arena: &mut Arena<AExpr>,
    udfs: &Udfs,
) -> Result<Groups, PlanError>
    ensures ok { IfOk result (λ groups. HasExpandedGroups (registry udfs.now) (columns schema.now) arena.new
        (trees_of keys) (trees_of aggs) (map named_node groups.keys.items.items) (map named_node groups.aggs.items.items) (columns groups.schema)) }
    ensures kept { KeepsExpressions arena.old arena.new }
    ensures err { IfErr result (IsUngrouped (registry udfs.now) (columns schema.now) (trees_of keys) (trees_of aggs)) }
{
    let keys = expanded(keys, schema, udfs, arena.allocator())?;
    let aggs = expanded_beside(aggs, &keys, schema, udfs, arena.allocator())?;
    let groups = group_expanded(keys, aggs, schema, arena, udfs)?;
    Ok(groups)
}

// What aggregates are expanded to over the schema, beside keys that were expanded.
fn expanded_beside(
    aggs: Exprs,
    keys: &Exprs,
    schema: &Schema,
    udfs: &Udfs,
    alloc: Global,
) -> Result<Exprs, PlanError>
    ensures ok { IfOk result (AreExpandedTo (key_names (trees_of keys.now)) (columns schema.now) (trees_of aggs)) }
    ensures err { IfErr result (IsUnexpanded (expansions (key_names (trees_of keys.now)) (columns schema.now) (trees_of aggs))) }
{
    let items = rewrite_projections(alloc, aggs.items, schema, keys.items.as_slice(), udfs)?;
    Ok(Exprs { items })
}

// Adds the nodes of keys and aggregates that were expanded, types them, and puts casts round their operands.
fn group_expanded(
    keys: Exprs,
    aggs: Exprs,
    schema: &Schema,
    arena: &mut Arena<AExpr>,
    udfs: &Udfs,
) -> Result<Groups, PlanError>
    requires keys { list_all is_plain (trees_of keys) ≡ true }
    requires aggs { list_all is_plain (trees_of aggs) ≡ true }
    ensures ok { IfOk result (λ groups. HasGroups (registry udfs.now) (columns schema.now) arena.new
        (plain_trees keys) (plain_trees aggs) (map named_node groups.keys.items.items) (map named_node groups.aggs.items.items) (columns groups.schema)) }
    ensures kept { KeepsExpressions arena.old arena.new }
    ensures err { IfErr result (IsGroupRefusal (registry udfs.now) (columns schema.now) (plain_trees keys) (plain_trees aggs)) }
{
    if keys.items.is_empty() {
        return Err(PlanError::at_top(ErrorKind::ComputeError));
    }
    let types = room_for(keys.items.len(), arena)?;
    let more_types = room_for(aggs.items.len(), arena)?;
    let asked = Asked::NewName(ErrorKind::Duplicate);
    let keys = project_in(keys, schema, arena, udfs, asked, types)?;
    let aggs = aggregate_in(aggs, schema, arena, udfs, more_types, keys.schema)?;
    Ok(Groups {
        keys: keys.expr,
        aggs: aggs.expr,
        schema: aggs.schema,
    })
}

// Adds aggregates' nodes, with a table of types that keeps nothing yet, and puts their columns in groups behind those of
// the keys.
fn aggregate_in(
    aggs: Exprs,
    schema: &Schema,
    arena: &mut Arena<AExpr>,
    udfs: &Udfs,
    types: TypeTable,
    keys: Schema,
) -> Result<Projection, PlanError>
    requires plain { list_all is_plain (trees_of aggs) ≡ true }
    requires empty { (n : ℕ) → ¬ (IsKept types n) }
    ensures ok { IfOk result (λ projection. HasAggregates (registry udfs.now) (columns schema.now) arena.new
        (plain_trees aggs) (map named_node projection.expr.items.items) (columns keys) (columns projection.schema)) }
    ensures kept { KeepsExpressions arena.old arena.new }
    ensures err { IfErr result (IsAggregateRefusal (registry udfs.now) (columns schema.now) (names_of (columns keys)) (plain_trees aggs)) }
{
    let mut types = types;
    aggregate_coerced(aggs, schema, arena, udfs, &mut types, keys)
}

// Adds aggregates' nodes, with a table of types that is right, and puts their columns in groups behind those of the
// keys.
fn aggregate_coerced(
    aggs: Exprs,
    schema: &Schema,
    arena: &mut Arena<AExpr>,
    udfs: &Udfs,
    types: &mut TypeTable,
    keys: Schema,
) -> Result<Projection, PlanError>
    requires plain { list_all is_plain (trees_of aggs) ≡ true }
    requires right { IsRight (registry udfs.now) (columns schema.now) arena.old types.old }
    ensures ok { IfOk result (λ projection. HasAggregates (registry udfs.now) (columns schema.now) arena.new
        (plain_trees aggs) (map named_node projection.expr.items.items) (columns keys) (columns projection.schema)) }
    ensures kept { KeepsExpressions arena.old arena.new }
    ensures err { IfErr result (IsAggregateRefusal (registry udfs.now) (columns schema.now) (names_of (columns keys)) (plain_trees aggs)) }
{
    let asked = Asked::NewName(ErrorKind::Duplicate);
    let projection = project(aggs, schema, arena, udfs, asked, types)?;
    let whole = with_aggregates(keys, &projection.expr, types, arena.allocator())?;
    coerce_all(projection.expr.items.as_slice(), arena, schema, udfs, types)?;
    Ok(Projection {
        expr: projection.expr,
        schema: whole,
    })
}

// The keys' columns, and behind them those of the aggregates in groups. A name that comes twice is refused.
fn with_aggregates(
    keys: Schema,
    aggs: &ExprIRs,
    types: &TypeTable,
    alloc: Global,
) -> Result<Schema, PlanError>
    requires { AllByRecursion (IsKept types.now) (map (λ e. (named_node e).expression) aggs.now.items.items) }
    ensures ok { IfOk result (λ whole. (typed : List Typed) → AllKept types.now (map (λ e. (named_node e).expression) aggs.now.items.items) typed
        → columns whole ≡ columns keys ++ named_in_groups (map named_node aggs.now.items.items) typed) }
    ensures err { IfErr result (IsMemoryOr ErrorKind.Duplicate (repeats (names_of (columns keys) ++ map (λ e. (named_node e).label.name) aggs.now.items.items) ≡ true)) }
{
    let mut whole = keys;
    for expr in aggs.items.as_slice() {
        let own = types.get(expr.node());
        put_new(
            &mut whole,
            expr,
            own,
            Context::Aggregation,
            ErrorKind::Duplicate,
            alloc,
        )?;
    }
    Ok(whole)
}
