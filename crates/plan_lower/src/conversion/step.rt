//! What plans' nodes do over an input, and what lowering makes of them.

use plan_arena::arena::Node;
use plan_dsl::distinct_options::DistinctOptionsDSL;
use plan_dsl::expr::{Expr, Exprs};
use plan_dsl::function::DslFunction;
use plan_dsl::plan::{ProjectionOptions, SinkType};
use plan_dsl::sort_options::SortMultipleOptions;

/// A node, and the one that records the schema of its frame: itself, or one below.
#[derive(Clone, Copy)]
pub(crate) struct LoweredNode {
    pub(crate) node: Node,
    pub(crate) schema_node: Node,
}

/// What a plan's node does over its only input.
#[derive(Drop)]
pub(crate) enum Step {
    Filter(Expr),
    Select(Exprs, ProjectionOptions),
    HStack(Exprs, ProjectionOptions),
    /// Keys, aggregates, and whether the order of groups is kept.
    GroupBy(Exprs, Exprs, bool),
    Function(DslFunction),
    Distinct(DistinctOptionsDSL),
    Sort(Exprs, SortMultipleOptions),
    Plain(Plain),
}

/// What a node without expressions does that keeps its input's schema.
#[derive(Drop)]
pub(crate) enum Plain {
    /// So many rows from a place on.
    Slice(i64, u32),
    /// The frame is kept under the number.
    Cache(usize),
    Sink(SinkType),
}
