//! Plans that are built call by call.
ghost use Rattle.std.specs.Prelude.{◌≡◌, ◌<◌, ◌++◌, [], ◌∷◌, map, vec_len, false, IfOk, IfErr};
ghost use Rattle.std.specs.Option.{option_map};
ghost use Rattle.plan_types.specs.Errors.{no_memory};
ghost use Rattle.plan_types.specs.Schemas.{columns};
ghost use Rattle.plan_dsl.specs.Expressions.{selector_tree, selector_trees, tree_of};
ghost use Rattle.plan_dsl.specs.Plans.{CallWork, FunctionWork, HitsOption, OrderOption, ProjectionOption, all_known_values, any_column, call_option, is_known_value, nulls_filled, source_call, plan_tree, options_in, scan_op, source_cache, source_distinct, source_drop, source_filter, source_function, source_group_by, source_hstack, source_over, source_select, source_slice, source_sort, stats_options, unknown_hits};
ghost use Rattle.plan_dsl.specs.TableFunctions.{ExplodeCall, RenameCall, RowIndexFunction, StatsCall, UnnestCall, UnpivotCall};
ghost use Rattle.plan_dsl.specs.Trees.{node, no_more};

use crate::distinct_options::{ColumnNames, DistinctOptionsDSL};
use crate::expr::{Expr, Exprs};
use crate::function::{DropFunction, DslFunction, StatsFunction};
use crate::function_expr::FunctionExpr;
use crate::plan::{DslPlan, ProjectionOptions};
use crate::selector::{Selector, Selectors};
use crate::sort_options::SortMultipleOptions;
use crate::unpivot_args::UnpivotArgsDSL;
use plan_types::error::PlanError;
use plan_types::schema::Schema;
use plan_types::text::PlSmallStr;
use std::alloc::Global;

/// A plan to build on: each call puts its node over the plan.
#[derive(Drop)]
pub struct DslBuilder(pub DslPlan);

impl DslBuilder {
    /// A scan of a table by its number, or of the empty table.
    pub fn from_existing_df(table: Option<u32>, schema: Schema) -> DslBuilder
        ensures { plan_tree result.0 ≡ node (scan_op table (columns schema)) no_more }
    {
        DslBuilder(DslPlan::DataFrameScan { table, schema })
    }

    /// A select of the expressions.
    pub fn project(
        self,
        alloc: Global,
        exprs: Vec<Expr>,
        options: ProjectionOptions,
    ) -> Result<DslBuilder, PlanError>
        ensures ok { IfOk result (λ built. plan_tree built.0 ≡ source_select (map tree_of exprs.items) (plan_tree self.0)) }
        ensures options { IfOk result (λ built. options_in built.0 ≡ ProjectionOption options ∷ options_in self.0) }
        ensures err { IfErr result (λ error. error ≡ no_memory) }
    {
        let input = Box::new(alloc, self.0)?;
        Ok(DslBuilder(DslPlan::Select {
            expr: Exprs { items: exprs },
            input,
            options,
        }))
    }

    /// The plan with a column for each expression, in place of its namesake or behind the others: without expressions
    /// the plan itself.
    pub fn with_columns(
        self,
        alloc: Global,
        exprs: Vec<Expr>,
        options: ProjectionOptions,
    ) -> Result<DslBuilder, PlanError>
        ensures none { IfOk result (λ built. vec_len exprs ≡ 0 → built ≡ self) }
        ensures ok { IfOk result (λ built. 0 < vec_len exprs → plan_tree built.0 ≡ source_hstack (map tree_of exprs.items) (plan_tree self.0)) }
        ensures options { IfOk result (λ built. 0 < vec_len exprs → options_in built.0 ≡ ProjectionOption options ∷ options_in self.0) }
        ensures err { IfErr result (λ error. error ≡ no_memory) }
    {
        if exprs.is_empty() {
            return Ok(self);
        }
        let input = Box::new(alloc, self.0)?;
        Ok(DslBuilder(DslPlan::HStack {
            exprs: Exprs { items: exprs },
            input,
            options,
        }))
    }

    /// A row for each group of rows that have the same keys: the keys, then what each aggregate gives on the group's rows.
    pub fn group_by(
        self,
        alloc: Global,
        keys: Vec<Expr>,
        aggs: Vec<Expr>,
        maintain_order: bool,
    ) -> Result<DslBuilder, PlanError>
        ensures ok { IfOk result (λ built. plan_tree built.0 ≡ source_group_by (map tree_of keys.items) (map tree_of aggs.items) (plan_tree self.0)) }
        ensures options { IfOk result (λ built. options_in built.0 ≡ OrderOption maintain_order ∷ options_in self.0) }
        ensures err { IfErr result (λ error. error ≡ no_memory) }
    {
        let input = Box::new(alloc, self.0)?;
        Ok(DslBuilder(DslPlan::GroupBy {
            input,
            keys: Exprs { items: keys },
            aggs: Exprs { items: aggs },
            maintain_order,
        }))
    }

    /// The rows for which the predicate is true.
    pub fn filter(self, alloc: Global, predicate: Expr) -> Result<DslBuilder, PlanError>
        ensures ok { IfOk result (λ built. plan_tree built.0 ≡ source_filter (tree_of predicate) (plan_tree self.0)) }
        ensures options { IfOk result (λ built. options_in built.0 ≡ options_in self.0) }
        ensures err { IfErr result (λ error. error ≡ no_memory) }
    {
        match Box::new(alloc, self.0) {
            Ok(input) => Ok(DslBuilder(DslPlan::Filter { input, predicate })),
            Err(error) => {
                drop(predicate);
                Err(PlanError::from(error))
            }
        }
    }

    /// The rows in which none of the expressions is null, and without a list of them no column. An empty list keeps all
    /// rows.
    pub fn drop_nulls(
        self,
        alloc: Global,
        subset: Option<Vec<Expr>>,
    ) -> Result<DslBuilder, PlanError>
        ensures ok { IfOk result (λ built. plan_tree built.0 ≡ source_filter (all_known_values (option_map (λ exprs. map tree_of exprs.items) subset)) (plan_tree self.0)) }
        ensures options { IfOk result (λ built. options_in built.0 ≡ options_in self.0) }
        ensures err { IfErr result (λ error. error ≡ no_memory) }
    {
        match subset {
            Some(exprs) => self.known_in(alloc, exprs),
            None => match every_column(alloc) {
                Ok(all) => self.known_in(alloc, all),
                Err(error) => {
                    drop(self);
                    Err(error)
                }
            },
        }
    }

    // The rows in which none of the expressions is null.
    fn known_in(self, alloc: Global, exprs: Vec<Expr>) -> Result<DslBuilder, PlanError>
        ensures ok { IfOk result (λ built. plan_tree built.0 ≡ source_filter (source_call FunctionExpr.AllHorizontal (map is_known_value (map tree_of exprs.items))) (plan_tree self.0)) }
        ensures options { IfOk result (λ built. options_in built.0 ≡ options_in self.0) }
        ensures err { IfErr result (λ error. error ≡ no_memory) }
    {
        match each_not_null(alloc, exprs) {
            Ok(tests) => self.filter(alloc, all_of(tests)),
            Err(error) => {
                drop(self);
                Err(error)
            }
        }
    }

    /// Each column, with the value in place of its nulls.
    pub fn fill_null(self, alloc: Global, value: Expr) -> Result<DslBuilder, PlanError>
        ensures ok { IfOk result (λ built. plan_tree built.0 ≡ source_select (nulls_filled (tree_of value) ∷ []) (plan_tree self.0)) }
        ensures options { IfOk result (λ built. options_in built.0 ≡ ProjectionOption (record { duplicate_check = false }) ∷ options_in self.0) }
        ensures err { IfErr result (λ error. error ≡ no_memory) }
    {
        let options = ProjectionOptions {
            duplicate_check: false,
        };
        match filled(alloc, value) {
            Ok(exprs) => self.project(alloc, exprs, options),
            Err(error) => {
                drop(self);
                Err(error)
            }
        }
    }

    /// The rows in the order of the expressions, which stand for keys. There is a flag for each expression, for each name of
    /// `Columns` that stands alone, or one for all.
    pub fn sort(
        self,
        alloc: Global,
        by_column: Vec<Expr>,
        sort_options: SortMultipleOptions,
    ) -> Result<DslBuilder, PlanError>
        ensures ok { IfOk result (λ built. plan_tree built.0 ≡ source_sort (map tree_of by_column.items) sort_options (plan_tree self.0)) }
        ensures options { IfOk result (λ built. options_in built.0 ≡ options_in self.0) }
        ensures err { IfErr result (λ error. error ≡ no_memory) }
    {
        let input = Box::new(alloc, self.0)?;
        Ok(DslBuilder(DslPlan::Sort {
            input,
            by_column: Exprs { items: by_column },
            sort_options,
        }))
    }

    /// The rows, of equal ones one or none.
    pub fn distinct(
        self,
        alloc: Global,
        options: DistinctOptionsDSL,
    ) -> Result<DslBuilder, PlanError>
        ensures ok { IfOk result (λ built. plan_tree built.0 ≡ source_distinct options.keep_strategy (option_map selector_trees options.subset) (plan_tree self.0)) }
        ensures options { IfOk result (λ built. options_in built.0 ≡ OrderOption options.maintain_order ∷ options_in self.0) }
        ensures err { IfErr result (λ error. error ≡ no_memory) }
    {
        let input = Box::new(alloc, self.0)?;
        Ok(DslBuilder(DslPlan::Distinct { input, options }))
    }

    /// So many rows from a place on, which an offset below 0 counts from the end.
    pub fn slice(self, alloc: Global, offset: i64, len: u32) -> Result<DslBuilder, PlanError>
        ensures ok { IfOk result (λ built. plan_tree built.0 ≡ source_slice offset len (plan_tree self.0)) }
        ensures options { IfOk result (λ built. options_in built.0 ≡ options_in self.0) }
        ensures err { IfErr result (λ error. error ≡ no_memory) }
    {
        let input = Box::new(alloc, self.0)?;
        Ok(DslBuilder(DslPlan::Slice { input, offset, len }))
    }

    /// The plan's frame, kept under the number.
    pub fn cache(self, alloc: Global, id: usize) -> Result<DslBuilder, PlanError>
        ensures ok { IfOk result (λ built. plan_tree built.0 ≡ source_cache id (plan_tree self.0)) }
        ensures options { IfOk result (λ built. options_in built.0 ≡ HitsOption unknown_hits ∷ options_in self.0) }
        ensures err { IfErr result (λ error. error ≡ no_memory) }
    {
        let input = Box::new(alloc, self.0)?;
        Ok(DslBuilder(DslPlan::Cache { input, id }))
    }

    /// What a function makes of the plan's frame.
    pub fn map_private(self, alloc: Global, function: DslFunction) -> Result<DslBuilder, PlanError>
        ensures ok { IfOk result (λ built. plan_tree built.0 ≡ source_function function (plan_tree self.0)) }
        ensures options { IfOk result (λ built. options_in built.0 ≡ call_option function ++ options_in self.0) }
        ensures err { IfErr result (λ error. error ≡ no_memory) }
    {
        let input = Box::new(alloc, self.0)?;
        Ok(DslBuilder(DslPlan::MapFunction { input, function }))
    }

    /// Without the columns that the selectors name. Where it is strict, each of them must stand.
    pub fn drop(
        self,
        alloc: Global,
        to_drop: Vec<Selector>,
        strict: bool,
    ) -> Result<DslBuilder, PlanError>
        ensures ok { IfOk result (λ built. plan_tree built.0 ≡ source_drop (map selector_tree to_drop.items) strict (plan_tree self.0)) }
        ensures options { IfOk result (λ built. options_in built.0 ≡ options_in self.0) }
        ensures err { IfErr result (λ error. error ≡ no_memory) }
    {
        let input = Box::new(alloc, self.0)?;
        let to_drop = Selectors { items: to_drop };
        Ok(DslBuilder(DslPlan::MapFunction {
            input,
            function: DslFunction::Drop(DropFunction { to_drop, strict }),
        }))
    }

    /// A row for each item of the lists of the columns that the selectors name. There must be one, unless it is allowed that
    /// there is none: then it is the frame.
    pub fn explode(
        self,
        alloc: Global,
        columns: Vec<Selector>,
        allow_empty: bool,
    ) -> Result<DslBuilder, PlanError>
        ensures ok { IfOk result (λ built. plan_tree built.0 ≡ source_over (CallWork (ExplodeCall allow_empty)) (map selector_tree columns.items ∷ []) (plan_tree self.0)) }
        ensures options { IfOk result (λ built. options_in built.0 ≡ options_in self.0) }
        ensures err { IfErr result (λ error. error ≡ no_memory) }
    {
        let columns = Selectors { items: columns };
        let function = DslFunction::Explode {
            columns,
            allow_empty,
        };
        self.map_private(alloc, function)
    }

    /// The values of columns below each other.
    pub fn unpivot(self, alloc: Global, args: UnpivotArgsDSL) -> Result<DslBuilder, PlanError>
        ensures ok { IfOk result (λ built. plan_tree built.0 ≡ source_over (CallWork (UnpivotCall args.variable_name args.value_name)) (selector_trees args.on ∷ selector_trees args.index ∷ []) (plan_tree self.0)) }
        ensures options { IfOk result (λ built. options_in built.0 ≡ options_in self.0) }
        ensures err { IfErr result (λ error. error ≡ no_memory) }
    {
        self.map_private(alloc, DslFunction::Unpivot { args })
    }

    /// The rows behind their numbers, which are counted from the offset on, or from 0, and wrap around in 32 bits.
    pub fn row_index(
        self,
        alloc: Global,
        name: PlSmallStr,
        offset: Option<u32>,
    ) -> Result<DslBuilder, PlanError>
        ensures ok { IfOk result (λ built. plan_tree built.0 ≡ source_over (FunctionWork (RowIndexFunction name offset)) [] (plan_tree self.0)) }
        ensures options { IfOk result (λ built. options_in built.0 ≡ options_in self.0) }
        ensures err { IfErr result (λ error. error ≡ no_memory) }
    {
        self.map_private(alloc, DslFunction::RowIndex { name, offset })
    }

    /// The columns under new names, by place. Where it is strict, each of the old names must stand.
    pub fn rename(
        self,
        alloc: Global,
        existing: Vec<PlSmallStr>,
        new: Vec<PlSmallStr>,
        strict: bool,
    ) -> Result<DslBuilder, PlanError>
        ensures ok { IfOk result (λ built. plan_tree built.0 ≡ source_over (CallWork (RenameCall existing.items new.items strict)) [] (plan_tree self.0)) }
        ensures options { IfOk result (λ built. options_in built.0 ≡ options_in self.0) }
        ensures err { IfErr result (λ error. error ≡ no_memory) }
    {
        let existing = ColumnNames { items: existing };
        let new = ColumnNames { items: new };
        let function = DslFunction::Rename {
            existing,
            new,
            strict,
        };
        self.map_private(alloc, function)
    }

    /// The fields of structs in place of the columns that the selectors name.
    pub fn unnest(self, alloc: Global, columns: Vec<Selector>) -> Result<DslBuilder, PlanError>
        ensures ok { IfOk result (λ built. plan_tree built.0 ≡ source_over (CallWork UnnestCall) (map selector_tree columns.items ∷ []) (plan_tree self.0)) }
        ensures options { IfOk result (λ built. options_in built.0 ≡ options_in self.0) }
        ensures err { IfErr result (λ error. error ≡ no_memory) }
    {
        self.map_private(alloc, DslFunction::Unnest(Selectors { items: columns }))
    }

    /// One row, with a statistic of each column that has one, and else a null.
    pub fn stats(self, alloc: Global, statistic: StatsFunction) -> Result<DslBuilder, PlanError>
        ensures ok { IfOk result (λ built. plan_tree built.0 ≡ source_over (CallWork (StatsCall statistic)) [] (plan_tree self.0)) }
        ensures options { IfOk result (λ built. options_in built.0 ≡ ProjectionOption stats_options ∷ options_in self.0) }
        ensures err { IfErr result (λ error. error ≡ no_memory) }
    {
        self.map_private(alloc, DslFunction::Stats(statistic))
    }

    /// The plan.
    pub fn build(self) -> DslPlan
        ensures { result ≡ self.0 }
    {
        self.0
    }
}

// Each column.
fn every_column(alloc: Global) -> Result<Vec<Expr>, PlanError>
    ensures ok { IfOk result (λ all. map tree_of all.items ≡ any_column ∷ []) }
    ensures err { IfErr result (λ error. error ≡ no_memory) }
{
    let all = vec![in alloc; Expr::Wildcard]?;
    Ok(all)
}

// Each column, with the value in place of its nulls.
fn filled(alloc: Global, value: Expr) -> Result<Vec<Expr>, PlanError>
    ensures ok { IfOk result (λ exprs. map tree_of exprs.items ≡ nulls_filled (tree_of value) ∷ []) }
    ensures err { IfErr result (λ error. error ≡ no_memory) }
{
    let input = vec![in alloc; Expr::Wildcard, value]?;
    let filled = Expr::Function {
        input: Exprs { items: input },
        function: FunctionExpr::FillNull,
    };
    let exprs = vec![in alloc; filled]?;
    Ok(exprs)
}

// That each of the expressions is true.
fn all_of(tests: Vec<Expr>) -> Expr
    ensures { tree_of result ≡ source_call FunctionExpr.AllHorizontal (map tree_of tests.items) }
{
    Expr::Function {
        input: Exprs { items: tests },
        function: FunctionExpr::AllHorizontal,
    }
}

// That each of the expressions isn't null.
fn each_not_null(alloc: Global, exprs: Vec<Expr>) -> Result<Vec<Expr>, PlanError>
    ensures ok { IfOk result (λ tests. map tree_of tests.items ≡ map is_known_value (map tree_of exprs.items)) }
    ensures err { IfErr result (λ error. error ≡ no_memory) }
{
    let mut tests = Vec::with_capacity(alloc, exprs.len())?;
    for expr in exprs {
        let test = not_null(alloc, expr)?;
        tests.push(test)?;
    }
    Ok(tests)
}

// That an expression isn't null.
fn not_null(alloc: Global, expr: Expr) -> Result<Expr, PlanError>
    ensures ok { IfOk result (λ test. tree_of test ≡ is_known_value (tree_of expr)) }
    ensures err { IfErr result (λ error. error ≡ no_memory) }
{
    let input = vec![in alloc; expr]?;
    Ok(Expr::Function {
        input: Exprs { items: input },
        function: FunctionExpr::IsNotNull,
    })
}

impl From<DslPlan> for DslBuilder {
    ghost use Rattle.std.specs.Prelude.{◌≡◌};

    ghost from_gives = { λ plan builder. builder.0 ≡ plan };

    fn from(plan: DslPlan) -> Self {
        DslBuilder(plan)
    }
}
