//! Plans, from what was read of a key's value: one function for each key.
#![tactic(auto, using(crate::proofs::FormLemmas::expressions_read))]

ghost use Rattle.std.specs.Prelude.{◌≡◌, IfOk, IfErr};
ghost use Rattle.plan_json.specs.Arguments.{args_view};
ghost use Rattle.plan_json.specs.Forms.{AllFit, asked_in, plan_asks};
ghost use Rattle.plan_json.specs.Readers.{IsPlanOf};
ghost use Rattle.plan_json.specs.declared.forms.PlanKey.TheVariants as by;

use super::arguments::{
    Args, columns, expression, expressions, five, flag, flags, four, index, keep, name, names,
    natural, one, optional_name, optional_natural, plan, selectors, some_expressions,
    some_selectors, statistic, table, three, two,
};
use super::error::JsonError;
use super::forms::PlanKey;
use plan_dsl::builder::DslBuilder;
use plan_dsl::distinct_options::{ColumnNames, DistinctOptionsDSL};
use plan_dsl::function::{DropFunction, DslFunction, FunctionIR};
use plan_dsl::plan::{DslPlan, ProjectionOptions, SinkType};
use plan_dsl::sort_options::SortMultipleOptions;
use plan_dsl::unpivot_args::UnpivotArgsDSL;
use std::alloc::Global;

// The plan of that key.
pub(crate) fn assemble_plan(alloc: Global, key: PlanKey, args: Args) -> Result<DslPlan, JsonError>
    requires { AllFit (asked_in (plan_asks key)) (args_view args) }
    ensures ok { IfOk result (IsPlanOf key (args_view args)) }
    ensures err { IfErr result (λ error. error ≡ JsonError.NoMemory) }
{
    match key {
        PlanKey::Scan => {
            let (number, schema) = table(one(args));
            Ok(DslPlan::DataFrameScan {
                table: Some(number),
                schema,
            })
        }
        PlanKey::Empty => Ok(DslPlan::DataFrameScan {
            table: None,
            schema: columns(one(args)),
        }),
        PlanKey::Filter => Ok(filter(args)),
        PlanKey::Select => Ok(select(args)),
        PlanKey::WithColumns => Ok(with_columns(args)),
        PlanKey::GroupBy => Ok(group_by(args)),
        PlanKey::Sort => Ok(sort(args)),
        PlanKey::Distinct => Ok(distinct(args)),
        PlanKey::Slice => Ok(slice(args)),
        PlanKey::Cache => Ok(cache(args)),
        PlanKey::Sink => Ok(sink(args)),
        PlanKey::Rechunk => Ok(rechunk(args)),
        PlanKey::Drop => Ok(drop_columns(args)),
        PlanKey::DropNulls => drop_nulls(alloc, args),
        PlanKey::FillNull => fill_null(alloc, args),
        PlanKey::RowIndex => Ok(row_index(args)),
        PlanKey::Explode => Ok(explode(args)),
        PlanKey::Unpivot => Ok(unpivot(args)),
        PlanKey::Rename => Ok(rename(args)),
        PlanKey::Unnest => Ok(unnest(args)),
        PlanKey::Stats => Ok(stats(args)),
    }
}

fn filter(args: Args) -> DslPlan
    requires { AllFit (asked_in (plan_asks by.Filter)) (args_view args) }
    ensures { IsPlanOf by.Filter (args_view args) result }
{
    let (input, predicate) = two(args);
    DslPlan::Filter {
        input: plan(input),
        predicate: Box::into_inner(expression(predicate)),
    }
}

fn select(args: Args) -> DslPlan
    requires { AllFit (asked_in (plan_asks by.Select)) (args_view args) }
    ensures { IsPlanOf by.Select (args_view args) result }
{
    let (input, outputs) = two(args);
    DslPlan::Select {
        expr: expressions(outputs),
        input: plan(input),
        options: ProjectionOptions {
            duplicate_check: false,
        },
    }
}

fn group_by(args: Args) -> DslPlan
    requires { AllFit (asked_in (plan_asks by.GroupBy)) (args_view args) }
    ensures { IsPlanOf by.GroupBy (args_view args) result }
{
    let (input, keys, aggs) = three(args);
    DslPlan::GroupBy {
        input: plan(input),
        keys: expressions(keys),
        aggs: expressions(aggs),
        maintain_order: false,
    }
}

fn with_columns(args: Args) -> DslPlan
    requires { AllFit (asked_in (plan_asks by.WithColumns)) (args_view args) }
    ensures { IsPlanOf by.WithColumns (args_view args) result }
{
    let (input, outputs) = two(args);
    DslPlan::HStack {
        exprs: expressions(outputs),
        input: plan(input),
        options: ProjectionOptions {
            duplicate_check: false,
        },
    }
}

#[tactic(auto, using(crate::proofs::FormLemmas::expressions_read, crate::proofs::FormLemmas::flags_read))]
fn sort(args: Args) -> DslPlan
    requires { AllFit (asked_in (plan_asks by.Sort)) (args_view args) }
    ensures { IsPlanOf by.Sort (args_view args) result }
{
    let (input, keys, descending, nulls_last) = four(args);
    DslPlan::Sort {
        input: plan(input),
        by_column: expressions(keys),
        sort_options: SortMultipleOptions {
            descending: flags(descending),
            nulls_last: flags(nulls_last),
        },
    }
}

#[tactic(auto, using(crate::proofs::FormLemmas::distinct_said))]
fn distinct(args: Args) -> DslPlan
    requires { AllFit (asked_in (plan_asks by.Distinct)) (args_view args) }
    ensures { IsPlanOf by.Distinct (args_view args) result }
{
    let (input, subset, kept) = three(args);
    DslPlan::Distinct {
        input: plan(input),
        options: DistinctOptionsDSL {
            subset: some_selectors(subset),
            maintain_order: false,
            keep_strategy: keep(kept),
        },
    }
}

fn slice(args: Args) -> DslPlan
    requires { AllFit (asked_in (plan_asks by.Slice)) (args_view args) }
    ensures { IsPlanOf by.Slice (args_view args) result }
{
    let (input, offset, len) = three(args);
    DslPlan::Slice {
        input: plan(input),
        offset: index(offset),
        len: natural(len),
    }
}

fn cache(args: Args) -> DslPlan
    requires { AllFit (asked_in (plan_asks by.Cache)) (args_view args) }
    ensures { IsPlanOf by.Cache (args_view args) result }
{
    let (input, id) = two(args);
    DslPlan::Cache {
        input: plan(input),
        id: natural(id) as usize,
    }
}

fn sink(args: Args) -> DslPlan
    requires { AllFit (asked_in (plan_asks by.Sink)) (args_view args) }
    ensures { IsPlanOf by.Sink (args_view args) result }
{
    DslPlan::Sink {
        input: plan(one(args)),
        payload: SinkType::Memory,
    }
}

fn rechunk(args: Args) -> DslPlan
    requires { AllFit (asked_in (plan_asks by.Rechunk)) (args_view args) }
    ensures { IsPlanOf by.Rechunk (args_view args) result }
{
    DslPlan::MapFunction {
        input: plan(one(args)),
        function: DslFunction::FunctionIR(FunctionIR::Rechunk),
    }
}

#[tactic(auto, using(crate::proofs::FormLemmas::selectors_read))]
fn drop_columns(args: Args) -> DslPlan
    requires { AllFit (asked_in (plan_asks by.Drop)) (args_view args) }
    ensures { IsPlanOf by.Drop (args_view args) result }
{
    let (input, to_drop, strict) = three(args);
    DslPlan::MapFunction {
        input: plan(input),
        function: DslFunction::Drop(DropFunction {
            to_drop: selectors(to_drop),
            strict: flag(strict),
        }),
    }
}

// Rows without a null in some expressions, or in any column.
#[tactic(auto, using(crate::proofs::FormLemmas::expressions_read, crate::proofs::FormLemmas::same_flags))]
fn drop_nulls(alloc: Global, args: Args) -> Result<DslPlan, JsonError>
    requires { AllFit (asked_in (plan_asks by.DropNulls)) (args_view args) }
    ensures ok { IfOk result (IsPlanOf by.DropNulls (args_view args)) }
    ensures err { IfErr result (λ error. error ≡ JsonError.NoMemory) }
{
    let (input, subset) = two(args);
    let builder = DslBuilder::from(Box::into_inner(plan(input)));
    match builder.drop_nulls(alloc, some_expressions(subset)) {
        Ok(built) => Ok(built.build()),
        Err(error) => Err(JsonError::out_of_memory(error)),
    }
}

// A value in place of all nulls.
#[tactic(auto, using(crate::proofs::FormLemmas::unset_flags))]
fn fill_null(alloc: Global, args: Args) -> Result<DslPlan, JsonError>
    requires { AllFit (asked_in (plan_asks by.FillNull)) (args_view args) }
    ensures ok { IfOk result (IsPlanOf by.FillNull (args_view args)) }
    ensures err { IfErr result (λ error. error ≡ JsonError.NoMemory) }
{
    let (input, value) = two(args);
    let builder = DslBuilder::from(Box::into_inner(plan(input)));
    match builder.fill_null(alloc, Box::into_inner(expression(value))) {
        Ok(built) => Ok(built.build()),
        Err(error) => Err(JsonError::out_of_memory(error)),
    }
}

fn row_index(args: Args) -> DslPlan
    requires { AllFit (asked_in (plan_asks by.RowIndex)) (args_view args) }
    ensures { IsPlanOf by.RowIndex (args_view args) result }
{
    let (input, index_name, offset) = three(args);
    DslPlan::MapFunction {
        input: plan(input),
        function: DslFunction::RowIndex {
            name: name(index_name),
            offset: optional_natural(offset),
        },
    }
}

#[tactic(auto, using(crate::proofs::FormLemmas::selectors_read))]
fn explode(args: Args) -> DslPlan
    requires { AllFit (asked_in (plan_asks by.Explode)) (args_view args) }
    ensures { IsPlanOf by.Explode (args_view args) result }
{
    let (input, columns, allow_empty) = three(args);
    DslPlan::MapFunction {
        input: plan(input),
        function: DslFunction::Explode {
            columns: selectors(columns),
            allow_empty: flag(allow_empty),
        },
    }
}

#[tactic(auto, using(crate::proofs::FormLemmas::selectors_read))]
fn unpivot(args: Args) -> DslPlan
    requires { AllFit (asked_in (plan_asks by.Unpivot)) (args_view args) }
    ensures { IsPlanOf by.Unpivot (args_view args) result }
{
    let (input, on, index, variable_name, value_name) = five(args);
    DslPlan::MapFunction {
        input: plan(input),
        function: DslFunction::Unpivot {
            args: UnpivotArgsDSL {
                on: selectors(on),
                index: selectors(index),
                variable_name: optional_name(variable_name),
                value_name: optional_name(value_name),
            },
        },
    }
}

#[tactic(auto, using(crate::proofs::FormLemmas::names_read))]
fn rename(args: Args) -> DslPlan
    requires { AllFit (asked_in (plan_asks by.Rename)) (args_view args) }
    ensures { IsPlanOf by.Rename (args_view args) result }
{
    let (input, existing, new, strict) = four(args);
    DslPlan::MapFunction {
        input: plan(input),
        function: DslFunction::Rename {
            existing: ColumnNames {
                items: names(existing),
            },
            new: ColumnNames { items: names(new) },
            strict: flag(strict),
        },
    }
}

#[tactic(auto, using(crate::proofs::FormLemmas::selectors_read))]
fn unnest(args: Args) -> DslPlan
    requires { AllFit (asked_in (plan_asks by.Unnest)) (args_view args) }
    ensures { IsPlanOf by.Unnest (args_view args) result }
{
    let (input, columns) = two(args);
    DslPlan::MapFunction {
        input: plan(input),
        function: DslFunction::Unnest(selectors(columns)),
    }
}

fn stats(args: Args) -> DslPlan
    requires { AllFit (asked_in (plan_asks by.Stats)) (args_view args) }
    ensures { IsPlanOf by.Stats (args_view args) result }
{
    let (input, taken) = two(args);
    DslPlan::MapFunction {
        input: plan(input),
        function: DslFunction::Stats(statistic(taken)),
    }
}
