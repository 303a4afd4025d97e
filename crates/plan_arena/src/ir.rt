//! Lowered plans in an arena.
ghost use Rattle.std.specs.Prelude.{◌≡◌, ◌≢◌, ◌++◌, List, map, IfOk, IfErr, IfSome, IsTrue, MatchOption, Some, is_some};
ghost use Rattle.plan_types.specs.Errors.{no_memory};
ghost use Rattle.plan_types.specs.Schemas.{columns};
ghost use Rattle.plan_dsl.specs.Plans.{Plan, expressions_of};
ghost use Rattle.plan_dsl.specs.PlanRules.{schema_of};
ghost use Rattle.plan_dsl.specs.Registry.{Registry};
ghost use Rattle.plan_arena.specs.Items.{first_of, named_node, node_name, nodes_of, plan_layer, DenotesItem, HasInputs, KeepsInput};
ghost use Rattle.plan_arena.specs.Layers.{op_of};
ghost use Rattle.plan_arena.specs.Options.{option_of, CopiesItem};
ghost use Rattle.plan_arena.specs.RecordedSchemas.{schema_recorded};
ghost use Rattle.plan_arena.specs.Runs.{IsAccepted};
ghost use Rattle.plan_arena.specs.Unchecked.{unchecked_schema, KeepsOtherRules};
ghost use Rattle.plan_arena.specs.declared.aexpr.AExpr.{AExpr};

use crate::arena::{Arena, Node};
use crate::expr_ir::{ExprIR, ExprIRs};
use plan_dsl::distinct_options::DistinctOptionsIR;
use plan_dsl::function::FunctionIR;
use plan_dsl::plan::{ProjectionOptions, SinkType};
use plan_dsl::sort_options::SortMultipleOptions;
use plan_dsl::udfs::Udfs;
use plan_types::error::PlanError;
use plan_types::schema::Schema;
use std::alloc::Global;
use std::slice;

/// One node of a lowered plan, which names its inputs and expressions by number. Contracts see it as a layer.
#[derive(Default, Drop)]
pub enum IR {
    /// The input's frame, which is kept under the number and is to be read so many times.
    Cache {
        input: Node,
        id: usize,
        cache_hits: u32,
    },
    /// A scan of a table by its number, or of the empty table.
    DataFrameScan {
        table: Option<u32>,
        schema: Schema,
    },
    /// The input's rows, of equal ones one or none.
    Distinct {
        input: Node,
        options: DistinctOptionsIR,
    },
    /// The rows of a frame for which the predicate is true. The frame has the schema of the input's.
    Filter {
        input: Node,
        predicate: ExprIR,
    },
    /// A row for each group of the input's rows: the keys, then what each aggregate gives.
    GroupBy {
        input: Node,
        keys: ExprIRs,
        aggs: ExprIRs,
        schema: Schema,
        maintain_order: bool,
    },
    /// The input's frame with a column for each expression, in place of its namesake or behind the others.
    HStack {
        exprs: ExprIRs,
        input: Node,
        schema: Schema,
        options: ProjectionOptions,
    },
    /// What a function makes of the input's frame, and its schema.
    MapFunction {
        input: Node,
        function: FunctionIR,
        schema: Schema,
    },
    /// A frame of a column for each expression.
    Select {
        expr: ExprIRs,
        input: Node,
        schema: Schema,
        options: ProjectionOptions,
    },
    /// The input's frame in some of its columns.
    SimpleProjection {
        input: Node,
        columns: Schema,
    },
    /// The input's frame, which is handed out.
    Sink {
        input: Node,
        payload: SinkType,
    },
    /// So many rows from a place on, which an offset below 0 counts from the end.
    Slice {
        input: Node,
        offset: i64,
        len: u32,
    },
    /// The input's rows in the order of keys, with a flag for each, or one for all.
    Sort {
        input: Node,
        by_column: ExprIRs,
        sort_options: SortMultipleOptions,
    },
    /// No plan: what is left where a node was taken out.
    #[default]
    Invalid,
}

// A copy of an item whose fields are copied as they are.
macro_rules! same {
    ($kind:ident, $($field:ident),*) => {
        Ok(IR::$kind {
            $($field: *$field),*
        })
    };
}

impl IR {
    /// A copy of the node, over its inputs and expressions, with its options.
    pub fn try_clone(&self, alloc: Global) -> Result<IR, PlanError>
        ensures ok { IfOk result (λ copy. plan_layer copy ≡ plan_layer self.now) }
        ensures options { IfOk result (λ copy. option_of copy ≡ option_of self.now) }
        ensures err { IfErr result (λ error. error ≡ no_memory) }
    {
        match self {
            IR::DataFrameScan { table, schema } => scan_copy(*table, schema, alloc),
            IR::Filter { input, predicate } => filter_copy(*input, predicate, alloc),
            IR::GroupBy {
                input,
                keys,
                aggs,
                schema,
                maintain_order,
            } => group_by_copy(*input, keys, aggs, schema, *maintain_order, alloc),
            IR::HStack {
                exprs,
                input,
                schema,
                options,
            } => hstack_copy(exprs, *input, schema, *options, alloc),
            IR::Select {
                expr,
                input,
                schema,
                options,
            } => select_copy(expr, *input, schema, *options, alloc),
            IR::SimpleProjection { input, columns } => projection_copy(*input, columns, alloc),
            IR::Sort {
                input,
                by_column,
                sort_options,
            } => sort_copy(*input, by_column, sort_options, alloc),
            IR::Distinct { input, options } => distinct_copy(*input, options, alloc),
            IR::MapFunction {
                input,
                function,
                schema,
            } => function_copy(*input, function, schema, alloc),
            IR::Slice { input, offset, len } => same!(Slice, input, offset, len),
            IR::Cache {
                input,
                id,
                cache_hits,
            } => same!(Cache, input, id, cache_hits),
            IR::Sink { input, payload } => same!(Sink, input, payload),
            IR::Invalid => Ok(IR::Invalid),
        }
    }

    /// What a report calls the node.
    pub fn name(&self) -> &'static str
        ensures { result.now ≡ node_name self.now }
    {
        match self {
            IR::Cache { .. } => "cache",
            IR::DataFrameScan { .. } => "df",
            IR::Distinct { .. } => "distinct",
            IR::Filter { .. } => "selection",
            IR::GroupBy { .. } => "aggregate",
            IR::HStack { .. } => "hstack",
            IR::MapFunction { .. } => "map_function",
            IR::Select { .. } => "projection",
            IR::SimpleProjection { .. } => "simple_projection",
            IR::Sink { .. } => "sink (memory)",
            IR::Slice { .. } => "slice",
            IR::Sort { .. } => "sort",
            IR::Invalid => "invalid",
        }
    }

    /// The schema of the node's frame: the one that it records, or else a node below, and of a plan that keeps every rule,
    /// that on a predicate's type aside, the one that the rules give it. The node's inputs lie in the arena.
    pub fn schema(
        &self,
        alloc: Global,
        arena: &Arena<IR>,
        _udfs: &Udfs,
    ) -> Result<Schema, PlanError>
        requires { HasInputs arena.now self.now }
        ensures recorded { IfOk result (λ schema. IfSome (op_of (plan_layer self.now)).recorded (λ own. columns schema ≡ own)) }
        ensures denoted { IfOk result (λ schema. (expressions : List AExpr) (plan : Plan) →
            DenotesItem expressions arena.now self.now plan → schema_recorded plan ≡ Some (columns schema)) }
        ensures unchecked { IfOk result (λ schema. (expressions : List AExpr) (registry : Registry) (plan : Plan) →
            DenotesItem expressions arena.now self.now plan → KeepsOtherRules registry plan → unchecked_schema registry plan ≡ Some (columns schema)) }
        ensures rule { IfOk result (λ schema. (expressions : List AExpr) (registry : Registry) (plan : Plan) →
            DenotesItem expressions arena.now self.now plan → IsAccepted registry plan → schema_of registry plan ≡ Some (columns schema)) }
        ensures err { IfErr result (λ error. error ≡ no_memory) }
    {
        self.schema_ref(arena).try_clone(alloc)
    }

    /// The schema of the node's frame, where it is kept: at the node, or at one below it.
    pub fn schema_ref<'a>(&'a self, arena: &'a Arena<IR>) -> &'a Schema
        requires { HasInputs arena.now self.now }
        ensures recorded { IfSome (op_of (plan_layer self.now)).recorded (λ own. columns result.now ≡ own) }
        ensures denoted { (expressions : List AExpr) (plan : Plan) →
            DenotesItem expressions arena.now self.now plan → schema_recorded plan ≡ Some (columns result.now) }
        ensures unchecked { (expressions : List AExpr) (registry : Registry) (plan : Plan) →
            DenotesItem expressions arena.now self.now plan → KeepsOtherRules registry plan → unchecked_schema registry plan ≡ Some (columns result.now) }
        ensures rule { (expressions : List AExpr) (registry : Registry) (plan : Plan) →
            DenotesItem expressions arena.now self.now plan → IsAccepted registry plan → schema_of registry plan ≡ Some (columns result.now) }
    {
        match self.kept_input() {
            Some(input) => arena.get(input).schema_ref(arena),
            None => self.recorded_schema(),
        }
    }

    /// The input of a node that records no schema, since it keeps that of its input.
    pub fn kept_input(&self) -> Option<Node>
        ensures { MatchOption result (self.now ≢ IR.Invalid → IsTrue (is_some (op_of (plan_layer self.now)).recorded)) (λ input. KeepsInput (plan_layer self.now) input.0) }
    {
        match self {
            IR::Cache { input, .. }
            | IR::Distinct { input, .. }
            | IR::Filter { input, .. }
            | IR::Sink { input, .. }
            | IR::Slice { input, .. }
            | IR::Sort { input, .. } => Some(*input),
            IR::DataFrameScan { .. }
            | IR::GroupBy { .. }
            | IR::HStack { .. }
            | IR::MapFunction { .. }
            | IR::Select { .. }
            | IR::SimpleProjection { .. }
            | IR::Invalid => None,
        }
    }

    /// The expressions of the node, of a group-by its keys and its aggregates: the second list of any other is empty.
    pub fn expressions(&self) -> (&[ExprIR], &[ExprIR])
        ensures first { map named_node result.0.now ≡ first_of (expressions_of (op_of (plan_layer self.now)).kind) }
        ensures all { map named_node result.0.now ++ map named_node result.1.now ≡ nodes_of (op_of (plan_layer self.now)).kind }
    {
        match self {
            IR::Filter { predicate, .. } => (slice::from_ref(predicate), &[]),
            IR::GroupBy { keys, aggs, .. } => (keys.items.as_slice(), aggs.items.as_slice()),
            IR::HStack { exprs, .. } => (exprs.items.as_slice(), &[]),
            IR::Select { expr, .. } => (expr.items.as_slice(), &[]),
            IR::Sort { by_column, .. } => (by_column.items.as_slice(), &[]),
            IR::Cache { .. }
            | IR::DataFrameScan { .. }
            | IR::Distinct { .. }
            | IR::MapFunction { .. }
            | IR::SimpleProjection { .. }
            | IR::Sink { .. }
            | IR::Slice { .. }
            | IR::Invalid => (&[], &[]),
        }
    }

    /// The schema that a node records which records one.
    pub fn recorded_schema(&self) -> &Schema
        requires { IsTrue (is_some (op_of (plan_layer self.now)).recorded) }
        ensures { (op_of (plan_layer self.now)).recorded ≡ Some (columns result.now) }
    {
        match self {
            IR::DataFrameScan { schema, .. }
            | IR::GroupBy { schema, .. }
            | IR::HStack { schema, .. }
            | IR::MapFunction { schema, .. }
            | IR::Select { schema, .. } => schema,
            IR::SimpleProjection { columns, .. } => columns,
            IR::Cache { .. }
            | IR::Distinct { .. }
            | IR::Filter { .. }
            | IR::Sink { .. }
            | IR::Slice { .. }
            | IR::Sort { .. }
            | IR::Invalid => unreachable!(),
        }
    }
}

// Copies of items, by their kind.

fn scan_copy(table: Option<u32>, schema: &Schema, alloc: Global) -> Result<IR, PlanError>
    ensures { CopiesItem (IR.DataFrameScan table schema.now) result }
{
    let schema = schema.try_clone(alloc)?;
    Ok(IR::DataFrameScan { table, schema })
}

fn filter_copy(input: Node, predicate: &ExprIR, alloc: Global) -> Result<IR, PlanError>
    ensures { CopiesItem (IR.Filter input predicate.now) result }
{
    let predicate = predicate.try_clone(alloc)?;
    Ok(IR::Filter { input, predicate })
}

fn group_by_copy(
    input: Node,
    keys: &ExprIRs,
    aggs: &ExprIRs,
    schema: &Schema,
    maintain_order: bool,
    alloc: Global,
) -> Result<IR, PlanError>
    ensures { CopiesItem (IR.GroupBy input keys.now aggs.now schema.now maintain_order) result }
{
    let keys = keys.try_clone(alloc)?;
    let aggs = aggs.try_clone(alloc)?;
    let schema = schema.try_clone(alloc)?;
    Ok(IR::GroupBy {
        input,
        keys,
        aggs,
        schema,
        maintain_order,
    })
}

// A column for each expression, and the schema that is recorded with them.
fn columns_copy(
    exprs: &ExprIRs,
    schema: &Schema,
    alloc: Global,
) -> Result<(ExprIRs, Schema), PlanError>
    ensures exprs { IfOk result (λ copies. copies.0.items.items ≡ exprs.now.items.items) }
    ensures schema { IfOk result (λ copies. columns copies.1 ≡ columns schema.now) }
    ensures err { IfErr result (λ error. error ≡ no_memory) }
{
    let exprs = exprs.try_clone(alloc)?;
    let schema = schema.try_clone(alloc)?;
    Ok((exprs, schema))
}

fn hstack_copy(
    exprs: &ExprIRs,
    input: Node,
    schema: &Schema,
    options: ProjectionOptions,
    alloc: Global,
) -> Result<IR, PlanError>
    ensures { CopiesItem (IR.HStack exprs.now input schema.now options) result }
{
    let (exprs, schema) = columns_copy(exprs, schema, alloc)?;
    Ok(IR::HStack {
        exprs,
        input,
        schema,
        options,
    })
}

fn select_copy(
    expr: &ExprIRs,
    input: Node,
    schema: &Schema,
    options: ProjectionOptions,
    alloc: Global,
) -> Result<IR, PlanError>
    ensures { CopiesItem (IR.Select expr.now input schema.now options) result }
{
    let (expr, schema) = columns_copy(expr, schema, alloc)?;
    Ok(IR::Select {
        expr,
        input,
        schema,
        options,
    })
}

fn projection_copy(input: Node, columns: &Schema, alloc: Global) -> Result<IR, PlanError>
    ensures { CopiesItem (IR.SimpleProjection input columns.now) result }
{
    let columns = columns.try_clone(alloc)?;
    Ok(IR::SimpleProjection { input, columns })
}

fn sort_copy(
    input: Node,
    by_column: &ExprIRs,
    sort_options: &SortMultipleOptions,
    alloc: Global,
) -> Result<IR, PlanError>
    ensures { CopiesItem (IR.Sort input by_column.now sort_options.now) result }
{
    let by_column = by_column.try_clone(alloc)?;
    let sort_options = sort_options.try_clone(alloc)?;
    Ok(IR::Sort {
        input,
        by_column,
        sort_options,
    })
}

fn distinct_copy(input: Node, options: &DistinctOptionsIR, alloc: Global) -> Result<IR, PlanError>
    ensures { CopiesItem (IR.Distinct input options.now) result }
{
    let options = options.try_clone(alloc)?;
    Ok(IR::Distinct { input, options })
}

fn function_copy(
    input: Node,
    function: &FunctionIR,
    schema: &Schema,
    alloc: Global,
) -> Result<IR, PlanError>
    ensures { CopiesItem (IR.MapFunction input function.now schema.now) result }
{
    let function = function.try_clone(alloc)?;
    let schema = schema.try_clone(alloc)?;
    Ok(IR::MapFunction {
        input,
        function,
        schema,
    })
}
