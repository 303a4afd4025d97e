//! Casts round the operands of what is lowered, by the rule of coercion.
ghost use Rattle.std.specs.Prelude.{◌≡◌, ℕ, map, IfErr, IfOk, OnOk};
ghost use Rattle.std.specs.List.{AllByRecursion};
ghost use Rattle.plan_types.specs.Errors.{no_memory};
ghost use Rattle.plan_types.specs.Schemas.{columns};
ghost use Rattle.plan_dsl.specs.Registry.{registry};
ghost use Rattle.plan_arena.specs.Items.{named_node};
ghost use Rattle.plan_infer.specs.KeptTypes.{IsRight};
ghost use Rattle.plan_infer.specs.Typed.{DenotesKnown};
ghost use Rattle.plan_coerce.specs.Coercion.{KeepsBelow};
ghost use Rattle.plan_coerce.specs.Optimizer.{AreWrittenOut, roots_of};

use plan_arena::aexpr::AExpr;
use plan_arena::arena::Arena;
use plan_arena::expr_ir::ExprIR;
use plan_coerce::coercion_rule::TypeCoercionRule;
use plan_coerce::stack_opt::ConversionOptimizer;
use plan_coerce::uncounted::coerce_uncounted;
use plan_dsl::udfs::Udfs;
use plan_infer::type_table::TypeTable;
use plan_types::error::PlanError;
use plan_types::schema::Schema;
use std::alloc::Global;

/// Puts casts round the operands of each node that the expressions reach, but for those that can be told beforehand.
pub(crate) fn coerce_all(
    exprs: &[ExprIR],
    arena: &mut Arena<AExpr>,
    schema: &Schema,
    udfs: &Udfs,
    types: &mut TypeTable,
) -> Result<(), PlanError>
    requires right { IsRight (registry udfs.now) (columns schema.now) arena.old types.old }
    requires known { (start : ℕ) × AllByRecursion (DenotesKnown (registry udfs.now) (columns schema.now) start arena.old) (map (λ e. (named_node e).expression) exprs.now) }
    ensures ok { OnOk result ((first : ℕ) → AllByRecursion (DenotesKnown (registry udfs.now) (columns schema.now) first arena.old) (map (λ e. (named_node e).expression) exprs.now) →
        AreWrittenOut (registry udfs.now) (columns schema.now) first arena.old arena.new (map (λ e. (named_node e).expression) exprs.now)) }
    ensures below { (first : ℕ) → AllByRecursion (DenotesKnown (registry udfs.now) (columns schema.now) first arena.old) (map (λ e. (named_node e).expression) exprs.now) →
        KeepsBelow first arena.old arena.new }
    ensures err { IfErr result (λ error. error ≡ no_memory) }
{
    let optimizer = stacked_all(exprs, arena.allocator())?;
    coerce_stacked(optimizer, arena, schema, udfs, types)
}

// An optimizer on which the expressions' nodes are stacked.
fn stacked_all(exprs: &[ExprIR], alloc: Global) -> Result<ConversionOptimizer, PlanError>
    ensures ok { IfOk result (λ optimizer. roots_of optimizer ≡ map (λ e. (named_node e).expression) exprs.now) }
    ensures err { IfErr result (λ error. error ≡ no_memory) }
{
    let mut optimizer = ConversionOptimizer::new(alloc);
    optimizer.fill_roots(exprs)?;
    Ok(optimizer)
}

// Puts casts round the operands of what the stacked roots reach. Nobody counts the steps.
fn coerce_stacked(
    optimizer: ConversionOptimizer,
    arena: &mut Arena<AExpr>,
    schema: &Schema,
    udfs: &Udfs,
    types: &mut TypeTable,
) -> Result<(), PlanError>
    requires right { IsRight (registry udfs.now) (columns schema.now) arena.old types.old }
    requires known { (start : ℕ) × AllByRecursion (DenotesKnown (registry udfs.now) (columns schema.now) start arena.old) (roots_of optimizer) }
    ensures ok { OnOk result ((first : ℕ) → AllByRecursion (DenotesKnown (registry udfs.now) (columns schema.now) first arena.old) (roots_of optimizer) →
        AreWrittenOut (registry udfs.now) (columns schema.now) first arena.old arena.new (roots_of optimizer)) }
    ensures below { (first : ℕ) → AllByRecursion (DenotesKnown (registry udfs.now) (columns schema.now) first arena.old) (roots_of optimizer) →
        KeepsBelow first arena.old arena.new }
    ensures err { IfErr result (λ error. error ≡ no_memory) }
{
    let mut optimizer = optimizer;
    coerce_uncounted(
        &mut optimizer,
        &TypeCoercionRule,
        arena,
        schema,
        udfs,
        types,
    )
}
