//! The rule at work: the loop of coercion goes by it.
ghost use Rattle.std.specs.Prelude.{◌≡◌, ◌<◌, [], ◌∷◌, length, IfErr, IfOk, OnOk};
ghost use Rattle.plan_types.specs.Errors.{IsRefusal, no_memory};
ghost use Rattle.plan_types.specs.Schemas.{columns};
ghost use Rattle.plan_dsl.specs.Ops.{Expression};
ghost use Rattle.plan_dsl.specs.Registry.{registry};
ghost use Rattle.plan_dsl.specs.Typing.{typing};
ghost use Rattle.plan_arena.specs.Denotation.{Denotes, DenotesTree};
ghost use Rattle.plan_arena.specs.Items.{HoldsExpression};
ghost use Rattle.plan_infer.specs.KeptTypes.{IsKept, IsRight};
ghost use Rattle.plan_coerce.specs.Optimizer.{StaysLike, roots_of};
ghost use Rattle.own_rule.specs.HarmlessCasts.{HasSameRelaxed, relaxed};

use crate::harmless_casts::HarmlessCasts;
use crate::op_change_rule::OpChangeRule;
use plan_arena::aexpr::AExpr;
use plan_arena::arena::{Arena, Node};
use plan_coerce::stack_opt::ConversionOptimizer;
use plan_coerce::uncounted::coerce_uncounted;
use plan_dsl::udfs::Udfs;
use plan_infer::type_table::TypeTable;
use plan_types::error::PlanError;
use plan_types::schema::Schema;

/// Makes strict casts to the type that their operand has, from a node on, casts that aren't strict. Each node of the arena
/// keeps type, name and meaning of what it denotes, also after a refusal.
pub fn relax_casts(
    node: Node,
    arena: &mut Arena<AExpr>,
    schema: &Schema,
    udfs: &Udfs,
) -> Result<(), PlanError>
    requires { DenotesTree (HoldsExpression arena.old) node.0 }
    ensures relaxed { OnOk result ((t : Expression) → Denotes (HoldsExpression arena.old) node.0 t →
        Denotes (HoldsExpression arena.new) node.0 (relaxed (registry udfs.now) (columns schema.now) t)) }
    ensures like { StaysLike (HasSameRelaxed (registry udfs.now) (columns schema.now)) (registry udfs.now) (columns schema.now) arena.old arena.new }
    ensures err { IfErr result (λ error. (t : Expression) → Denotes (HoldsExpression arena.old) node.0 t →
        IsRefusal (typing (registry udfs.now) (columns schema.now) t) error) }
{
    let mut types = TypeTable::new(arena.allocator());
    types.infer(node, schema, arena, udfs)?;
    relax_typed(node, arena, schema, udfs, &mut types)
}

// Makes strict casts from a typed node on casts that aren't strict.
fn relax_typed(
    node: Node,
    arena: &mut Arena<AExpr>,
    schema: &Schema,
    udfs: &Udfs,
    types: &mut TypeTable,
) -> Result<(), PlanError>
    requires kept { IsKept types.old node.0 }
    requires right { IsRight (registry udfs.now) (columns schema.now) arena.old types.old }
    ensures relaxed { OnOk result ((t : Expression) → Denotes (HoldsExpression arena.old) node.0 t →
        Denotes (HoldsExpression arena.new) node.0 (relaxed (registry udfs.now) (columns schema.now) t)) }
    ensures like { StaysLike (HasSameRelaxed (registry udfs.now) (columns schema.now)) (registry udfs.now) (columns schema.now) arena.old arena.new }
    ensures err { IfErr result (λ error. error ≡ no_memory) }
{
    let mut optimizer = from_root(node, arena)?;
    let rule = OpChangeRule(HarmlessCasts);
    coerce_uncounted(&mut optimizer, &rule, arena, schema, udfs, types)
}

// The loop, with that root stacked alone.
fn from_root(node: Node, arena: &Arena<AExpr>) -> Result<ConversionOptimizer, PlanError>
    requires { node.0 < length arena.now }
    ensures ok { IfOk result (λ optimizer. roots_of optimizer ≡ node.0 ∷ []) }
    ensures err { IfErr result (λ error. error ≡ no_memory) }
{
    let mut optimizer = ConversionOptimizer::new(arena.allocator());
    optimizer.push_scratch(node, arena)?;
    Ok(optimizer)
}
