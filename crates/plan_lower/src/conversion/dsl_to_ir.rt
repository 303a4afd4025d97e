//! Plans to nodes of an arena.
ghost use Rattle.std.specs.Prelude.{◌≡◌, ◌⊎◌, ◌+◌, ◌++◌, true, false, List, [], ◌∷◌, length, map, reverse, slice_get, Some, OnOk, IfOk, IfErr};
ghost use Rattle.plan_types.specs.Errors.{no_memory, IsMemoryOr};
ghost use Rattle.plan_types.specs.Schemas.{columns, all_known};
ghost use Rattle.plan_dsl.specs.Plans.{PlanOption, SourcePlan, options_in, plan_tree, scan_op};
ghost use Rattle.plan_dsl.specs.Registry.{registry};
ghost use Rattle.plan_dsl.specs.Resolving.{resolved};
ghost use Rattle.plan_arena.specs.Items.{Grows, plan_layer};
ghost use Rattle.plan_arena.specs.Layers.{layer};
ghost use Rattle.plan_arena.specs.Options.{options_of};
ghost use Rattle.plan_lower.specs.Lowering.{StandsFor, IsPlanRefusal, recorded_at, columns_at, Answers, IsTyped, HasLoweredTop, HasBoundedTop, IsSplit, IsSound, GivesSameFrame};
ghost use Rattle.plan_lower.specs.Nodes.{KeepsExpressions};
ghost use Rattle.plan_lower.specs.Steps.{AddsStep, source_step, step_option};

use crate::conversion::nodes::lower_step;
use crate::conversion::step::{LoweredNode, Plain, Step};
use plan_arena::aexpr::AExpr;
use plan_arena::arena::Arena;
use plan_arena::ir::IR;
use plan_arena::plan::IRPlan;
use plan_dsl::plan::DslPlan;
use plan_dsl::udfs::Udfs;
use plan_types::error::{ErrorKind, PlanError};
use plan_types::schema::Schema;
use std::alloc::Global;

/// Lowering of a query's plan.
pub trait PlanLowering {
    // The plan that is lowered, as it is written.
    ghost tree: { Self → SourcePlan };
    // The options of its nodes, from the top down.
    ghost carried: { Self → List PlanOption };

    /// The typed plan in two arenas of its own: a plan for each query that is well formed, else the kind and
    /// the place of a rule that it breaks. Its items carry the options of the query's nodes, from the bottom up.
    fn to_alp(self, alloc: Global, udfs: &Udfs) -> Result<IRPlan, PlanError>
        ensures answers { Answers (registry udfs.now) (resolved (registry udfs.now) (tree self)) result }
        ensures typed { IfOk result (IsTyped (registry udfs.now) (resolved (registry udfs.now) (tree self))) }
        ensures split { IfOk result IsSplit }
        ensures sound { IfOk result (IsSound (registry udfs.now) (resolved (registry udfs.now) (tree self))) }
        ensures same_frame { IfOk result (GivesSameFrame (registry udfs.now) (resolved (registry udfs.now) (tree self))) }
        ensures lowered { IfOk result (HasLoweredTop (registry udfs.now)) }
        ensures bounds { IfOk result (HasBoundedTop (registry udfs.now) (resolved (registry udfs.now) (tree self))) }
        ensures options { IfOk result (λ lowering. options_of lowering.lp_arena ≡ reverse (carried self)) };
}

impl PlanLowering for DslPlan {
    ghost tree = { plan_tree };

    ghost carried = { options_in };

    fn to_alp(self, alloc: Global, udfs: &Udfs) -> Result<IRPlan, PlanError> {
        let mut lp_arena = Arena::new(alloc);
        let mut expr_arena = Arena::new(alloc);
        let top = lower(self, &mut expr_arena, &mut lp_arena, udfs)?;
        Ok(IRPlan::new(top.node, lp_arena, expr_arena))
    }
}

// Adds the nodes of an only input, and then what the step becomes.
macro_rules! over {
    ($input:ident => $step:expr, $expr_arena:ident, $lp_arena:ident, $udfs:ident) => {{
        let step = $step;
        add_over($input, step, $expr_arena, $lp_arena, $udfs)
    }};
}

// Adds a plan's nodes, its input first.
#[cycle(plans)]
fn lower(
    plan: DslPlan,
    expr_arena: &mut Arena<AExpr>,
    lp_arena: &mut Arena<IR>,
    udfs: &Udfs,
) -> Result<LoweredNode, PlanError>
    ensures ok { IfOk result (λ lowered. StandsFor (registry udfs.now) expr_arena.new lp_arena.new lowered.node.0 (columns_at lp_arena.new lowered.schema_node.0) (resolved (registry udfs.now) (plan_tree plan))) }
    ensures err { IfErr result (IsPlanRefusal (registry udfs.now) (resolved (registry udfs.now) (plan_tree plan))) }
    ensures kept { KeepsExpressions expr_arena.old expr_arena.new }
    ensures adds { AddsStep lp_arena.old lp_arena.new (reverse (options_in plan)) result }
{
    match plan {
        DslPlan::DataFrameScan { table, schema } => {
            let lowered = lower_scan(table, schema, lp_arena)?;
            Ok(lowered)
        }
        DslPlan::Filter { input, predicate } =>
            over!(input => Step::Filter(predicate), expr_arena, lp_arena, udfs),
        DslPlan::Select {
            expr,
            input,
            options,
        } => over!(input => Step::Select(expr, options), expr_arena, lp_arena, udfs),
        DslPlan::HStack {
            exprs,
            input,
            options,
        } => over!(input => Step::HStack(exprs, options), expr_arena, lp_arena, udfs),
        DslPlan::GroupBy {
            input,
            keys,
            aggs,
            maintain_order,
        } => over!(input => Step::GroupBy(keys, aggs, maintain_order), expr_arena, lp_arena, udfs),
        DslPlan::MapFunction { input, function } =>
            over!(input => Step::Function(function), expr_arena, lp_arena, udfs),
        DslPlan::Slice { input, offset, len } =>
            over!(input => Step::Plain(Plain::Slice(offset, len)), expr_arena, lp_arena, udfs),
        DslPlan::Cache { input, id } =>
            over!(input => Step::Plain(Plain::Cache(id)), expr_arena, lp_arena, udfs),
        DslPlan::Sink { input, payload } =>
            over!(input => Step::Plain(Plain::Sink(payload)), expr_arena, lp_arena, udfs),
        DslPlan::Distinct { input, options } =>
            over!(input => Step::Distinct(options), expr_arena, lp_arena, udfs),
        DslPlan::Sort {
            input,
            by_column,
            sort_options,
        } => over!(input => Step::Sort(by_column, sort_options), expr_arena, lp_arena, udfs),
    }
}

// Adds the nodes of a plan's only input, and then its own. A refusal of the input is told as the node sees it, whatever that does.
#[cycle(plans)]
fn add_over(
    input: Box<DslPlan>,
    step: Step,
    expr_arena: &mut Arena<AExpr>,
    lp_arena: &mut Arena<IR>,
    udfs: &Udfs,
) -> Result<LoweredNode, PlanError>
    ensures ok { IfOk result (λ lowered. StandsFor (registry udfs.now) expr_arena.new lp_arena.new lowered.node.0 (columns_at lp_arena.new lowered.schema_node.0) (resolved (registry udfs.now) (source_step step (plan_tree input.value)))) }
    ensures err { IfErr result (IsPlanRefusal (registry udfs.now) (resolved (registry udfs.now) (source_step step (plan_tree input.value)))) }
    ensures kept { KeepsExpressions expr_arena.old expr_arena.new }
    ensures adds { AddsStep lp_arena.old lp_arena.new (reverse (step_option step ++ options_in input.value)) result }
{
    match lower(Box::into_inner(input), expr_arena, lp_arena, udfs) {
        Ok(input) => {
            let lowered = lower_step(input, step, expr_arena, lp_arena, udfs)?;
            Ok(lowered)
        }
        Err(error) => {
            drop(step);
            Err(below(lp_arena.allocator(), error))
        }
    }
}

// Adds a scan.
fn lower_scan(
    table: Option<u32>,
    schema: Schema,
    lp_arena: &mut Arena<IR>,
) -> Result<LoweredNode, PlanError>
    ensures known { OnOk result (all_known (columns schema) ≡ true) }
    ensures ok { IfOk result (λ lowered. slice_get (map plan_layer lp_arena.new) lowered.node.0 ≡ Some (layer (scan_op table (columns schema)) [])) }
    ensures schema { IfOk result (λ lowered. recorded_at lp_arena.new lowered.schema_node.0 ≡ Some (columns schema)) }
    ensures alone { OnOk result (length lp_arena.new ≡ length lp_arena.old + 1) }
    ensures err { IfErr result (IsMemoryOr ErrorKind.InvalidOperation (all_known (columns schema) ≡ false)) }
    ensures grows { Grows lp_arena.old lp_arena.new }
    ensures options { OnOk result (options_of lp_arena.new ≡ options_of lp_arena.old) }
{
    if !schema.is_known() {
        return Err(PlanError::at_top(ErrorKind::InvalidOperation));
    }
    let node = lp_arena.add(IR::DataFrameScan { table, schema })?;
    Ok(LoweredNode {
        node,
        schema_node: node,
    })
}

// The refusal of a node's only input, as the node sees it.
fn below(alloc: Global, error: PlanError) -> PlanError
    ensures { (result ≡ no_memory) ⊎ ((¬ (error.kind ≡ ErrorKind.NoMemory)) × (result ≡ record { kind = error.kind; place = 0 ∷ error.place })) }
{
    let PlanError { kind, place } = error;
    if kind == ErrorKind::NoMemory {
        return PlanError::at_top(ErrorKind::NoMemory);
    }
    match place.below(alloc, 0) {
        Ok(place) => PlanError { kind, place },
        Err(_) => PlanError::at_top(ErrorKind::NoMemory),
    }
}
