//! Statistics of all columns, over an input that is lowered: a select of an aggregate of each, or of a null.
ghost use Rattle.std.specs.Prelude.{◌≡◌, map, None, IfOk, IfErr};
ghost use Rattle.plan_types.specs.Errors.{no_memory};
ghost use Rattle.plan_types.specs.Schemas.{columns};
ghost use Rattle.plan_types.specs.Types.{ty};
ghost use Rattle.plan_dsl.specs.Expressions.{tree_of, trees_of};
ghost use Rattle.plan_dsl.specs.Ops.{ColumnOp};
ghost use Rattle.plan_dsl.specs.Registry.{registry};
ghost use Rattle.plan_dsl.specs.Signatures.{is_summable};
ghost use Rattle.plan_dsl.specs.Sources.{Plain, written};
ghost use Rattle.plan_dsl.specs.TableCalls.{statistic_by, statistic_of, statistics};
ghost use Rattle.plan_dsl.specs.Trees.{node, no_more};
ghost use Rattle.plan_dsl.specs.declared.function.DslFunction.{DslFunction};
ghost use Rattle.plan_lower.specs.Lowering.{Records};
ghost use Rattle.plan_lower.specs.Steps.{LowersStep};
ghost use Rattle.plan_lower.specs.declared.conversion.step.Step.{Step};

use crate::conversion::nodes::{lower_select, recorded_schema};
use crate::conversion::step::LoweredNode;
use plan_arena::aexpr::AExpr;
use plan_arena::arena::Arena;
use plan_arena::ir::IR;
use plan_dsl::aggregate::AggExpr;
use plan_dsl::expr::{Expr, Exprs};
use plan_dsl::function::StatsFunction;
use plan_dsl::literal::LiteralValue;
use plan_dsl::plan::ProjectionOptions;
use plan_dsl::udfs::Udfs;
use plan_types::dtype::{CastOptions, DataType};
use plan_types::error::PlanError;
use plan_types::schema::Schema;
use plan_types::text::PlSmallStr;
use std::alloc::Global;

/// Adds statistics over a lowered input.
pub(crate) fn lower_stats(
    input: LoweredNode,
    statistic: StatsFunction,
    expr_arena: &mut Arena<AExpr>,
    lp_arena: &mut Arena<IR>,
    udfs: &Udfs,
) -> Result<LoweredNode, PlanError>
    requires { Records lp_arena.old input.schema_node.0 }
    ensures { LowersStep (registry udfs.now) (Step.Function (DslFunction.Stats statistic)) input expr_arena.old expr_arena.new lp_arena.old lp_arena.new result }
{
    let schema = recorded_schema(lp_arena, input.schema_node);
    let exprs = statistics_of(lp_arena.allocator(), statistic, schema)?;
    let options = ProjectionOptions {
        duplicate_check: false,
    };
    lower_select(exprs, input, options, expr_arena, lp_arena, udfs)
}

// The expression for each column.
fn statistics_of(
    alloc: Global,
    statistic: StatsFunction,
    schema: &Schema,
) -> Result<Exprs, PlanError>
    ensures ok { IfOk result (λ exprs. trees_of exprs ≡ map written (statistics statistic (columns schema.now))) }
    ensures err { IfErr result (λ error. error ≡ no_memory) }
{
    let mut items = Vec::with_capacity(alloc, schema.len())?;
    for index in 0..schema.len() {
        if let Some((name, dtype)) = schema.get_at_index(index) {
            let expr = statistic_of(alloc, statistic, name, dtype)?;
            items.push(expr)?;
        }
    }
    Ok(Exprs { items })
}

// The expression for a column: an aggregate, or a null of its type where it has none.
fn statistic_of(
    alloc: Global,
    statistic: StatsFunction,
    name: &PlSmallStr,
    dtype: &DataType,
) -> Result<Expr, PlanError>
    ensures ok { IfOk result (λ expr. tree_of expr ≡ written (statistic_by (statistic_of statistic (ty dtype.now)) (name.now, ty dtype.now))) }
    ensures err { IfErr result (λ error. error ≡ no_memory) }
{
    match statistic {
        StatsFunction::Sum if is_summable(dtype) => {
            let input = boxed_column(alloc, name)?;
            Ok(Expr::Agg(AggExpr::Sum(input)))
        }
        StatsFunction::Min if dtype.is_ord() => {
            let input = boxed_column(alloc, name)?;
            Ok(Expr::Agg(AggExpr::Min {
                input,
                propagate_nans: false,
            }))
        }
        StatsFunction::Max if dtype.is_ord() => {
            let input = boxed_column(alloc, name)?;
            Ok(Expr::Agg(AggExpr::Max {
                input,
                propagate_nans: false,
            }))
        }
        _ => null_of(alloc, name, dtype),
    }
}

// Whether values of the type are added up.
fn is_summable(dtype: &DataType) -> bool
    ensures { result ≡ is_summable (ty dtype.now) }
{
    dtype.is_integer() || matches!(dtype, DataType::Boolean | DataType::Duration(_))
}

// The column of that name.
fn boxed_column(alloc: Global, name: &PlSmallStr) -> Result<Box<Expr>, PlanError>
    ensures ok { IfOk result (λ column. tree_of column.value ≡ node (Plain (ColumnOp name.now)) no_more) }
    ensures err { IfErr result (λ error. error ≡ no_memory) }
{
    let name = name.try_clone(alloc)?;
    let column = Box::new(alloc, Expr::Column(name))?;
    Ok(column)
}

// A null of the type under the name.
fn null_of(alloc: Global, name: &PlSmallStr, dtype: &DataType) -> Result<Expr, PlanError>
    ensures ok { IfOk result (λ expr. tree_of expr ≡ written (statistic_by None (name.now, ty dtype.now))) }
    ensures err { IfErr result (λ error. error ≡ no_memory) }
{
    let name = name.try_clone(alloc)?;
    let dtype = dtype.try_clone(alloc)?;
    let expr = Box::new(alloc, Expr::Literal(LiteralValue::Null))?;
    let cast = Expr::Cast {
        expr,
        dtype,
        options: CastOptions::NonStrict,
    };
    let cast = Box::new(alloc, cast)?;
    Ok(Expr::Alias(cast, name))
}
