//! What coercion makes of expressions.
ghost use Rattle.std.specs.Prelude.{◌≡◌, Ok};
ghost use Rattle.plan_types.specs.Schemas.{Columns};
ghost use Rattle.plan_dsl.specs.InlinedCasts.{written_out};
ghost use Rattle.plan_dsl.specs.Ops.{Expression};
ghost use Rattle.plan_dsl.specs.Registry.{Registry};
ghost use Rattle.plan_dsl.specs.Typing.{Typed, typing};
ghost use Rattle.plan_coerce.specs.Kinds.{Becomes};

/// A typed expression becomes what it is, written out, by replacements of four kinds: a cast to another type is put round an
/// expression, a number without a type gets one that has it, a cast of a literal becomes a literal, and a cast of
/// `LogicalAnd` or `LogicalOr` to truth values is gone.
pub fn coercion_laws()
    ensures kinds { (registry : Registry) (schema : Columns) (tree : Expression) (typed : Typed) → typing registry schema tree ≡ Ok typed → Becomes registry schema tree (written_out registry schema tree) }
{}
