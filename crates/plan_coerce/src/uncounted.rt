//! The loop where nobody counts.
ghost use Rattle.std.specs.Prelude.{◌≡◌, ◌<◌, ℕ, [], IfErr, OnOk};
ghost use Rattle.plan_types.specs.Schemas.{columns};
ghost use Rattle.plan_dsl.specs.Registry.{registry};
ghost use Rattle.plan_infer.specs.KeptTypes.{IsRight};
ghost use Rattle.plan_coerce.specs.Optimizer.{AreTrees, IsCoercionRefusal, LoopEnds, LoopKeeps, LoopLeaves, roots_of, stacked};

use crate::rule::OptimizationRule;
use crate::stack_opt::ConversionOptimizer;
use plan_arena::aexpr::AExpr;
use plan_arena::arena::Arena;
use plan_dsl::udfs::Udfs;
use plan_infer::steps::Steps;
use plan_infer::type_table::TypeTable;
use plan_types::error::PlanError;
use plan_types::schema::Schema;
use std::marker::Brand;
use std::sync::ledger::{Blank, Ledger};

/// Goes from the stacked roots on over what they reach, as `coerce_expressions` does, with ledgers of its own: nobody counts
/// typings or steps.
pub fn coerce_uncounted<R: OptimizationRule>(
    optimizer: &mut ConversionOptimizer,
    rule: &R,
    expr_arena: &mut Arena<AExpr>,
    schema: &Schema,
    udfs: &Udfs,
    types: &mut TypeTable,
) -> Result<(), PlanError>
    requires trees { AreTrees expr_arena.old (roots_of optimizer.old) }
    requires right { IsRight (registry udfs.now) (columns schema.now) expr_arena.old types.old }
    ensures leaves { (before : ℕ) × (after : ℕ) × LoopLeaves (R.settled rule.now (registry udfs.now) (columns schema.now)) (R.related rule.now (registry udfs.now) (columns schema.now)) (R.turns rule.now) (registry udfs.now) (columns schema.now) expr_arena.old expr_arena.new (roots_of optimizer.old) types.new before after }
    ensures done { OnOk result (LoopEnds (R.settled rule.now (registry udfs.now) (columns schema.now)) (R.related rule.now (registry udfs.now) (columns schema.now)) (R.turns rule.now) (registry udfs.now) (columns schema.now) expr_arena.old expr_arena.new (roots_of optimizer.old)) }
    ensures kept { OnOk result (LoopKeeps (R.forgets rule.now) (R.settled rule.now (registry udfs.now) (columns schema.now)) (registry udfs.now) (columns schema.now) expr_arena.old (roots_of optimizer.old) types.old types.new) }
    ensures no_roots { roots_of optimizer.new ≡ [] }
    ensures none_stacked { stacked optimizer.new ≡ [] }
    ensures err { IfErr result (λ error. IsCoercionRefusal (R.settled rule.now (registry udfs.now) (columns schema.now)) (R.turns rule.now) (registry udfs.now) (columns schema.now) expr_arena.old expr_arena.new (roots_of optimizer.old) error) }
{
    let (typings, steps) = (Blank::new(1), Blank::new(1));
    coerce_by::<R, Brand, Brand>(
        optimizer, rule, expr_arena, schema, udfs, types, typings, steps,
    )
}

// Goes so with the ledgers that are made of these.
fn coerce_by<R: OptimizationRule, M: Ledger, L: Ledger>(
    optimizer: &mut ConversionOptimizer,
    rule: &R,
    expr_arena: &mut Arena<AExpr>,
    schema: &Schema,
    udfs: &Udfs,
    types: &mut TypeTable,
    typings: Blank,
    steps: Blank,
) -> Result<(), PlanError>
    requires name { typings.name ≡ M.name }
    requires parts { typings.parts ≡ M.parts }
    requires some { 0 < typings.parts }
    requires steps_name { steps.name ≡ L.name }
    requires steps_parts { steps.parts ≡ L.parts }
    requires some_steps { 0 < steps.parts }
    requires trees { AreTrees expr_arena.old (roots_of optimizer.old) }
    requires right { IsRight (registry udfs.now) (columns schema.now) expr_arena.old types.old }
    ensures leaves { (before : ℕ) × (after : ℕ) × LoopLeaves (R.settled rule.now (registry udfs.now) (columns schema.now)) (R.related rule.now (registry udfs.now) (columns schema.now)) (R.turns rule.now) (registry udfs.now) (columns schema.now) expr_arena.old expr_arena.new (roots_of optimizer.old) types.new before after }
    ensures done { OnOk result (LoopEnds (R.settled rule.now (registry udfs.now) (columns schema.now)) (R.related rule.now (registry udfs.now) (columns schema.now)) (R.turns rule.now) (registry udfs.now) (columns schema.now) expr_arena.old expr_arena.new (roots_of optimizer.old)) }
    ensures kept { OnOk result (LoopKeeps (R.forgets rule.now) (R.settled rule.now (registry udfs.now) (columns schema.now)) (registry udfs.now) (columns schema.now) expr_arena.old (roots_of optimizer.old) types.old types.new) }
    ensures no_roots { roots_of optimizer.new ≡ [] }
    ensures none_stacked { stacked optimizer.new ≡ [] }
    ensures err { IfErr result (λ error. IsCoercionRefusal (R.settled rule.now (registry udfs.now) (columns schema.now)) (R.turns rule.now) (registry udfs.now) (columns schema.now) expr_arena.old expr_arena.new (roots_of optimizer.old) error) }
{
    let mut typings = Steps::<M>::new(typings);
    let mut steps = Steps::<L>::new(steps);
    optimizer.coerce_expressions(
        rule,
        expr_arena,
        schema,
        udfs,
        types,
        &mut typings,
        &mut steps,
    )
}
