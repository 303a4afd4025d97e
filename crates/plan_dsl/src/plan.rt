//! Plans as a user writes them.
ghost use Rattle.std.specs.Prelude.{◌≡◌, ◌∷◌, true, IfOk, IfErr};
ghost use Rattle.plan_dsl.specs.Expressions.{trees_of};
ghost use Rattle.plan_dsl.specs.Plans.{OrderOption, empty_table, options_in, plan_tree, source_group_by, source_sort};
ghost use Rattle.plan_types.specs.Errors.{no_memory};

use crate::distinct_options::DistinctOptionsDSL;
use crate::expr::{Expr, Exprs};
use crate::function::DslFunction;
use crate::sort_options::SortMultipleOptions;
use plan_types::error::PlanError;
use plan_types::schema::Schema;
use std::alloc::Global;

/// Options of a projection. Whether names are checked twice means nothing here: they always are.
#[derive(Clone, Copy)]
pub struct ProjectionOptions {
    pub duplicate_check: bool,
}

impl Default for ProjectionOptions {
    ghost is_default = { λ options. options ≡ record { duplicate_check = true } };

    fn default() -> Self {
        ProjectionOptions {
            duplicate_check: true,
        }
    }
}

/// Where a sink puts its input's rows.
#[derive(Clone, Copy)]
pub enum SinkType {
    Memory,
}

/// A plan. Contracts see its tree.
#[derive(Drop)]
pub enum DslPlan {
    /// The input's frame, which is kept under the number.
    Cache {
        input: Box<DslPlan>,
        id: usize,
    },
    /// A scan of a table by its number, or of the empty table.
    DataFrameScan {
        table: Option<u32>,
        schema: Schema,
    },
    /// The input's rows, of equal ones one or none.
    Distinct {
        input: Box<DslPlan>,
        options: DistinctOptionsDSL,
    },
    /// The rows of a frame for which the predicate is true.
    Filter {
        input: Box<DslPlan>,
        predicate: Expr,
    },
    /// A row for each group of the input's rows by the keys. Whether groups keep their order means nothing here: they
    /// always do.
    GroupBy {
        input: Box<DslPlan>,
        keys: Exprs,
        aggs: Exprs,
        maintain_order: bool,
    },
    /// The input's frame with a column for each expression, in place of its namesake or behind the others.
    HStack {
        exprs: Exprs,
        input: Box<DslPlan>,
        options: ProjectionOptions,
    },
    /// What a function makes of the input's frame.
    MapFunction {
        input: Box<DslPlan>,
        function: DslFunction,
    },
    /// A frame of a column for each expression.
    Select {
        expr: Exprs,
        input: Box<DslPlan>,
        options: ProjectionOptions,
    },
    /// The input's frame, which is handed out.
    Sink {
        input: Box<DslPlan>,
        payload: SinkType,
    },
    /// So many rows from a place on, which an offset below 0 counts from the end.
    Slice {
        input: Box<DslPlan>,
        offset: i64,
        len: u32,
    },
    /// The input's rows in the order of keys. There is a flag for each expression, for each name of `Columns` that stands
    /// alone, or one for all.
    Sort {
        input: Box<DslPlan>,
        by_column: Exprs,
        sort_options: SortMultipleOptions,
    },
}

// A copy of a plan over its only input, with copies of the fields that it has besides.
macro_rules! copied {
    ($kind:ident, $input:expr, $alloc:expr, $($field:ident: $value:expr),*) => {{
        let input = $input.boxed_copy($alloc)?;
        Ok(DslPlan::$kind {
            input,
            $($field: $value),*
        })
    }};
}

impl DslPlan {
    /// The empty table without columns.
    pub fn default(alloc: Global) -> Result<DslPlan, PlanError>
        ensures ok { IfOk result (λ plan. plan_tree plan ≡ empty_table) }
        ensures err { IfErr result (λ error. error ≡ no_memory) }
    {
        Ok(DslPlan::DataFrameScan {
            table: None,
            schema: Schema::new(alloc),
        })
    }

    #[cycle(plan_copies)]
    pub fn try_clone(&self, alloc: Global) -> Result<DslPlan, PlanError>
        ensures ok { IfOk result (λ copy. plan_tree copy ≡ plan_tree self.now) }
        ensures options { IfOk result (λ copy. options_in copy ≡ options_in self.now) }
        ensures err { IfErr result (λ error. error ≡ no_memory) }
    {
        match self {
            DslPlan::DataFrameScan { table, schema } => Ok(DslPlan::DataFrameScan {
                table: *table,
                schema: schema.try_clone(alloc)?,
            }),
            DslPlan::Cache { input, id } => copied!(Cache, input, alloc, id: *id),
            DslPlan::Distinct { input, options } => {
                copied!(Distinct, input, alloc, options: options.try_clone(alloc)?)
            }
            DslPlan::Filter { input, predicate } => {
                copied!(Filter, input, alloc, predicate: predicate.try_clone(alloc)?)
            }
            DslPlan::GroupBy {
                input,
                keys,
                aggs,
                maintain_order,
            } => group_by_copied(input, keys, aggs, *maintain_order, alloc),
            DslPlan::HStack {
                exprs,
                input,
                options,
            } => copied!(HStack, input, alloc, exprs: exprs.try_clone(alloc)?, options: *options),
            DslPlan::MapFunction { input, function } => {
                copied!(MapFunction, input, alloc, function: function.try_clone(alloc)?)
            }
            DslPlan::Select {
                expr,
                input,
                options,
            } => copied!(Select, input, alloc, expr: expr.try_clone(alloc)?, options: *options),
            DslPlan::Sink { input, payload } => copied!(Sink, input, alloc, payload: *payload),
            DslPlan::Slice { input, offset, len } => {
                copied!(Slice, input, alloc, offset: *offset, len: *len)
            }
            DslPlan::Sort {
                input,
                by_column,
                sort_options,
            } => sort_copied(input, by_column, sort_options, alloc),
        }
    }

    // A copy in a box.
    #[cycle(plan_copies)]
    fn boxed_copy(&self, alloc: Global) -> Result<Box<DslPlan>, PlanError>
        ensures ok { IfOk result (λ copy. plan_tree copy.value ≡ plan_tree self.now) }
        ensures options { IfOk result (λ copy. options_in copy.value ≡ options_in self.now) }
        ensures err { IfErr result (λ error. error ≡ no_memory) }
    {
        let copy = self.try_clone(alloc)?;
        let copy = Box::new(alloc, copy)?;
        Ok(copy)
    }
}

#[cycle(plan_copies)]
fn group_by_copied(
    input: &DslPlan,
    keys: &Exprs,
    aggs: &Exprs,
    maintain_order: bool,
    alloc: Global,
) -> Result<DslPlan, PlanError>
    ensures ok { IfOk result (λ copy. plan_tree copy ≡ source_group_by (trees_of keys.now) (trees_of aggs.now) (plan_tree input.now)) }
    ensures options { IfOk result (λ copy. options_in copy ≡ OrderOption maintain_order ∷ options_in input.now) }
    ensures err { IfErr result (λ error. error ≡ no_memory) }
{
    let keys = keys.try_clone(alloc)?;
    let aggs = aggs.try_clone(alloc)?;
    Ok(DslPlan::GroupBy {
        input: input.boxed_copy(alloc)?,
        keys,
        aggs,
        maintain_order,
    })
}

#[cycle(plan_copies)]
fn sort_copied(
    input: &DslPlan,
    by_column: &Exprs,
    sort_options: &SortMultipleOptions,
    alloc: Global,
) -> Result<DslPlan, PlanError>
    ensures ok { IfOk result (λ copy. plan_tree copy ≡ source_sort (trees_of by_column.now) sort_options.now (plan_tree input.now)) }
    ensures options { IfOk result (λ copy. options_in copy ≡ options_in input.now) }
    ensures err { IfErr result (λ error. error ≡ no_memory) }
{
    let by_column = by_column.try_clone(alloc)?;
    let sort_options = sort_options.try_clone(alloc)?;
    Ok(DslPlan::Sort {
        input: input.boxed_copy(alloc)?,
        by_column,
        sort_options,
    })
}
