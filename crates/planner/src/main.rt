//! A planner. It builds a plan call by call and lowers it. Then it hands a rule of its own to the loop of coercion, by which
//! strict casts to the type that their operand has needn't be strict, and splits a filter where no strict cast is left in it.
//! It prints both reports.
#![tactic(auto)]

ghost use Rattle.std.specs.Prelude.{◌≡◌, ℕ, Option, IfErr, IfOk};
ghost use Rattle.std.specs.Str.{chars};
ghost use Rattle.plan_types.specs.Errors.{no_memory};
ghost use Rattle.plan_types.specs.Schemas.{Columns};
ghost use Rattle.plan_dsl.specs.Expressions.{tree_of};
ghost use Rattle.plan_dsl.specs.Plans.{Named, Plan, plan_tree};
ghost use Rattle.plan_dsl.specs.Ops.{Expression};
ghost use Rattle.plan_dsl.specs.Registry.{registry};
ghost use Rattle.plan_arena.specs.Items.{DenotesPlan};
ghost use Rattle.planner.specs.Planning.{HasTree, IsFilteredScan, StandsFor, column, filtered_scan, flagged_query, split_scan};

use own_rule::relax::relax_casts;
use plan_arena::ir::IR;
use plan_arena::plan::IRPlan;
use plan_dsl::builder::DslBuilder;
use plan_dsl::expr::Expr;
use plan_dsl::operator::Operator;
use plan_dsl::plan::DslPlan;
use plan_dsl::udfs::Udfs;
use plan_lower::conversion::dsl_to_ir::PlanLowering;
use plan_lower::conversion::nodes::add_filters;
use plan_properties::splitting::split_predicate;
use plan_report::report::report;
use plan_types::dtype::{CastOptions, DataType};
use plan_types::error::PlanError;
use plan_types::schema::Schema;
use plan_types::text::PlSmallStr;
use std::alloc::Global;

/// The rows of the first table in which the flags `p` and `q` are both true. That `p` is one is asked by a strict cast.
pub fn flagged(alloc: Global) -> Result<DslPlan, PlanError>
    ensures ok { IfOk result (λ plan. plan_tree plan ≡ flagged_query) }
    ensures err { IfErr result (λ error. error ≡ no_memory) }
{
    let mut schema = Schema::new(alloc);
    schema.with_column(PlSmallStr::new(alloc, "p")?, DataType::Boolean)?;
    schema.with_column(PlSmallStr::new(alloc, "q")?, DataType::Boolean)?;
    let cast = Expr::Cast {
        expr: column_named(alloc, "p")?,
        dtype: DataType::Boolean,
        options: CastOptions::Strict,
    };
    let both = Expr::BinaryExpr {
        left: Box::new(alloc, cast)?,
        op: Operator::LogicalAnd,
        right: column_named(alloc, "q")?,
    };
    let built = DslBuilder::from_existing_df(Some(0), schema).filter(alloc, both)?;
    Ok(built.build())
}

// A column by its name.
fn column_named(alloc: Global, name: &str) -> Result<Box<Expr>, PlanError>
    ensures ok { IfOk result (λ expr. tree_of expr.value ≡ column (chars name.now)) }
    ensures err { IfErr result (λ error. error ≡ no_memory) }
{
    let name = PlSmallStr::new(alloc, name)?;
    let expr = Box::new(alloc, Expr::Column(name))?;
    Ok(expr)
}

/// A lowered filter of a scan by the parts of its predicate, without strict casts to the type that their operand has. Any
/// other plan stays.
pub fn relaxed(plan: IRPlan, udfs: &Udfs) -> Result<IRPlan, PlanError>
    requires { HasTree plan }
    ensures tree { IfOk result HasTree }
    ensures split { IfOk result (λ made. (predicate : Named Expression) (table : Option ℕ) (schema : Columns) →
        DenotesPlan plan (filtered_scan predicate table schema) → DenotesPlan made (split_scan (registry udfs.now) predicate table schema)) }
    ensures others { IfOk result (λ made. (¬ (IsFilteredScan plan)) → made ≡ plan) }
    ensures stands { IfOk result (λ made. (source : Plan) →
        StandsFor (registry udfs.now) source plan → StandsFor (registry udfs.now) source made) }
    ensures err { (source : Plan) → StandsFor (registry udfs.now) source plan → IfErr result (λ error. error ≡ no_memory) }
{
    let IRPlan {
        lp_top,
        mut lp_arena,
        mut expr_arena,
    } = plan;
    let IR::Filter { input, predicate } = lp_arena.get(lp_top) else {
        return Ok(IRPlan::new(lp_top, lp_arena, expr_arena));
    };
    let input = *input;
    let IR::DataFrameScan { schema, .. } = lp_arena.get(input) else {
        return Ok(IRPlan::new(lp_top, lp_arena, expr_arena));
    };
    relax_casts(predicate.node(), &mut expr_arena, schema, udfs)?;
    let predicate = predicate.try_clone(expr_arena.allocator())?;
    let parts = split_predicate(predicate, &expr_arena, udfs)?;
    let lp_top = add_filters(input, parts, &mut lp_arena)?;
    Ok(IRPlan::new(lp_top, lp_arena, expr_arena))
}

fn main(rt: HostRuntime) -> anyhow::Result<()> {
    let alloc = rt.alloc();
    let udfs = Udfs::new(alloc);
    let plan = flagged(alloc)?.to_alp(alloc, &udfs)?;
    rt.print(report(alloc, &plan)?.as_str())?;
    let plan = relaxed(plan, &udfs)?;
    rt.print(report(alloc, &plan)?.as_str())?;
    Ok(())
}
