//! Plan nodes over an input that is lowered.
ghost use Rattle.std.specs.Prelude.{◌≡◌, ◌<◌, map, OnOk, IfOk, IfErr};
ghost use Rattle.plan_types.specs.Errors.{no_memory};
ghost use Rattle.plan_types.specs.Schemas.{columns};
ghost use Rattle.plan_dsl.specs.PlanRules.{with_columns};
ghost use Rattle.plan_dsl.specs.Registry.{registry};
ghost use Rattle.plan_arena.specs.Items.{Grows, named_node};
ghost use Rattle.plan_arena.specs.Options.{options_of};
ghost use Rattle.plan_lower.specs.Lowering.{AreFilters, IsEmptyTableAt, Records, columns_at};
ghost use Rattle.plan_lower.specs.Steps.{LowersStep};

use crate::conversion::distincts::lower_distinct;
use crate::conversion::functions::lower_function;
use crate::conversion::groups::group_strictly;
use crate::conversion::plain_nodes::lower_plain;
use crate::conversion::predicate::lower_predicate;
use crate::conversion::projection::project_strictly;
use crate::conversion::put_copy::put_copy;
use crate::conversion::sorts::lower_sort;
use crate::conversion::step::{LoweredNode, Step};
use plan_arena::aexpr::AExpr;
use plan_arena::arena::{Arena, Node};
use plan_arena::expr_ir::ExprIR;
use plan_arena::ir::IR;
use plan_dsl::expr::{Expr, Exprs};
use plan_dsl::plan::ProjectionOptions;
use plan_dsl::udfs::Udfs;
use plan_properties::splitting::split_predicate;
use plan_types::error::{ErrorKind, PlanError};
use plan_types::schema::Schema;
use std::alloc::Global;

/// The schema that a node records.
pub(crate) fn recorded_schema(lp_arena: &Arena<IR>, node: Node) -> &Schema
    requires { Records lp_arena.now node.0 }
    ensures { columns result.now ≡ columns_at lp_arena.now node.0 }
{
    lp_arena.get(node).recorded_schema()
}

/// Adds a node over a lowered input.
pub(crate) fn lower_step(
    input: LoweredNode,
    step: Step,
    expr_arena: &mut Arena<AExpr>,
    lp_arena: &mut Arena<IR>,
    udfs: &Udfs,
) -> Result<LoweredNode, PlanError>
    requires { Records lp_arena.old input.schema_node.0 }
    ensures { LowersStep (registry udfs.now) step input expr_arena.old expr_arena.new lp_arena.old lp_arena.new result }
{
    match step {
        Step::Filter(predicate) => lower_filter(input, predicate, expr_arena, lp_arena, udfs),
        Step::Select(expr, options) => {
            lower_select(expr, input, options, expr_arena, lp_arena, udfs)
        }
        Step::HStack(exprs, options) => {
            lower_hstack(exprs, input, options, expr_arena, lp_arena, udfs)
        }
        Step::GroupBy(keys, aggs, maintain_order) => {
            lower_groups(
                input,
                keys,
                aggs,
                maintain_order,
                expr_arena,
                lp_arena,
                udfs,
            )
        }
        Step::Function(function) => lower_function(input, function, expr_arena, lp_arena, udfs),
        Step::Distinct(options) => lower_distinct(input, options, lp_arena),
        Step::Sort(by, options) => lower_sort(input, by, options, expr_arena, lp_arena, udfs),
        Step::Plain(plain) => lower_plain(input, plain, lp_arena),
    }
}

// Adds the filters to which one is split over a lowered input, whose schema they have.
fn lower_filter(
    input: LoweredNode,
    predicate: Expr,
    expr_arena: &mut Arena<AExpr>,
    lp_arena: &mut Arena<IR>,
    udfs: &Udfs,
) -> Result<LoweredNode, PlanError>
    requires { Records lp_arena.old input.schema_node.0 }
    ensures { LowersStep (registry udfs.now) (Step.Filter predicate) input expr_arena.old expr_arena.new lp_arena.old lp_arena.new result }
{
    let schema = recorded_schema(lp_arena, input.schema_node);
    let predicate = lower_predicate(predicate, schema, expr_arena, udfs)?;
    let predicates = split_predicate(predicate, expr_arena, udfs)?;
    let node = add_filters(input.node, predicates, lp_arena)?;
    Ok(LoweredNode {
        node,
        schema_node: input.schema_node,
    })
}

/// Adds filters over an input, the last of them first: the node of the first, or the input where there is none.
pub fn add_filters(
    input: Node,
    predicates: Vec<ExprIR>,
    lp_arena: &mut Arena<IR>,
) -> Result<Node, PlanError>
    ensures ok { IfOk result (λ node. AreFilters lp_arena.new node.0 (map named_node predicates.items) input.0) }
    ensures err { IfErr result (λ error. error ≡ no_memory) }
    ensures grows { Grows lp_arena.old lp_arena.new }
    ensures options { OnOk result (options_of lp_arena.new ≡ options_of lp_arena.old) }
{
    let mut node = input;
    let mut predicates = predicates;
    while let Some(predicate) = predicates.pop() {
        node = lp_arena.add(IR::Filter {
            input: node,
            predicate,
        })?;
    }
    Ok(node)
}

/// Adds a select over a lowered input.
pub(crate) fn lower_select(
    expr: Exprs,
    input: LoweredNode,
    options: ProjectionOptions,
    expr_arena: &mut Arena<AExpr>,
    lp_arena: &mut Arena<IR>,
    udfs: &Udfs,
) -> Result<LoweredNode, PlanError>
    requires { Records lp_arena.old input.schema_node.0 }
    ensures { LowersStep (registry udfs.now) (Step.Select expr options) input expr_arena.old expr_arena.new lp_arena.old lp_arena.new result }
{
    let schema = recorded_schema(lp_arena, input.schema_node);
    let projection = project_strictly(expr, schema, expr_arena, udfs, ErrorKind::Duplicate)?;
    let input = input_of(projection.expr.items.len(), input.node, lp_arena)?;
    let node = lp_arena.add(IR::Select {
        expr: projection.expr,
        input,
        schema: projection.schema,
        options,
    })?;
    Ok(LoweredNode {
        node,
        schema_node: node,
    })
}

// Adds an hstack over a lowered input.
fn lower_hstack(
    exprs: Exprs,
    input: LoweredNode,
    options: ProjectionOptions,
    expr_arena: &mut Arena<AExpr>,
    lp_arena: &mut Arena<IR>,
    udfs: &Udfs,
) -> Result<LoweredNode, PlanError>
    requires { Records lp_arena.old input.schema_node.0 }
    ensures { LowersStep (registry udfs.now) (Step.HStack exprs options) input expr_arena.old expr_arena.new lp_arena.old lp_arena.new result }
{
    let before = recorded_schema(lp_arena, input.schema_node);
    let projection = project_strictly(exprs, before, expr_arena, udfs, ErrorKind::ComputeError)?;
    let schema = schema_with(before, &projection.schema, expr_arena.allocator())?;
    let node = lp_arena.add(IR::HStack {
        exprs: projection.expr,
        input: input.node,
        schema,
        options,
    })?;
    Ok(LoweredNode {
        node,
        schema_node: node,
    })
}

// Adds a group-by over a lowered input.
fn lower_groups(
    input: LoweredNode,
    keys: Exprs,
    aggs: Exprs,
    maintain_order: bool,
    expr_arena: &mut Arena<AExpr>,
    lp_arena: &mut Arena<IR>,
    udfs: &Udfs,
) -> Result<LoweredNode, PlanError>
    requires { Records lp_arena.old input.schema_node.0 }
    ensures { LowersStep (registry udfs.now) (Step.GroupBy keys aggs maintain_order) input expr_arena.old expr_arena.new lp_arena.old lp_arena.new result }
{
    let schema = recorded_schema(lp_arena, input.schema_node);
    let groups = group_strictly(keys, aggs, schema, expr_arena, udfs)?;
    let node = lp_arena.add(IR::GroupBy {
        input: input.node,
        keys: groups.keys,
        aggs: groups.aggs,
        schema: groups.schema,
        maintain_order,
    })?;
    Ok(LoweredNode {
        node,
        schema_node: node,
    })
}

// A copy of the schema with the columns of another.
fn schema_with(schema: &Schema, others: &Schema, alloc: Global) -> Result<Schema, PlanError>
    ensures ok { IfOk result (λ whole. columns whole ≡ with_columns (columns schema.now) (columns others.now)) }
    ensures err { IfErr result (λ error. error ≡ no_memory) }
{
    let mut whole = schema.try_clone(alloc)?;
    for index in 0..others.len() {
        if let Some((name, dtype)) = others.get_at_index(index) {
            put_copy(&mut whole, name, dtype, alloc)?;
        }
    }
    Ok(whole)
}

/// The input of a node of so many columns: the empty table where there are none.
pub(crate) fn input_of(
    width: usize,
    input: Node,
    lp_arena: &mut Arena<IR>,
) -> Result<Node, PlanError>
    ensures nothing { IfOk result (λ node. width ≡ 0 → IsEmptyTableAt lp_arena.new node.0) }
    ensures something { IfOk result (λ node. 0 < width → node.0 ≡ input.0) }
    ensures grows { Grows lp_arena.old lp_arena.new }
    ensures options { OnOk result (options_of lp_arena.new ≡ options_of lp_arena.old) }
    ensures err { IfErr result (λ error. error ≡ no_memory) }
{
    if width == 0 {
        let node = add_empty_table(lp_arena)?;
        return Ok(node);
    }
    Ok(input)
}

// Adds the empty table without columns.
fn add_empty_table(arena: &mut Arena<IR>) -> Result<Node, PlanError>
    ensures ok { IfOk result (λ node. IsEmptyTableAt arena.new node.0) }
    ensures grows { Grows arena.old arena.new }
    ensures options { OnOk result (options_of arena.new ≡ options_of arena.old) }
    ensures err { IfErr result (λ error. error ≡ no_memory) }
{
    let schema = Schema::new(arena.allocator());
    let node = arena.add(IR::DataFrameScan {
        table: None,
        schema,
    })?;
    Ok(node)
}
