//! Strict expressions, and expressions that say the same.

ghost use Rattle.std.specs.Prelude.{◌≡◌, [], ◌∷◌, true, false};
ghost use Rattle.plan_types.specs.Types.{Truth};
ghost use Rattle.plan_types.specs.declared.dtype.CastOptions.TheVariants.{Strict, NonStrict};
ghost use Rattle.plan_dsl.specs.Strictness.{IsSame, is_strict, as_operand};
ghost use Rattle.plan_dsl.specs.Samples.{Gives, GivesOfTwo, int8, int16, int32, int64, a, b, c, t, sum, less, cast_as, schema_abu};

/// A cast stands round an expression of another type, and each operand of a strict node has the type to which it is taken.
pub fn strict_expressions()
    ensures numbers_made { GivesOfTwo (as_operand int8) ((int16, a, cast_as NonStrict int16 a) ∷ (int8, a, a) ∷ []) }
    ensures truths_made { GivesOfTwo (as_operand Truth) ((int8, t, cast_as NonStrict int8 t) ∷ (Truth, t, t) ∷ []) }
    ensures strict { let wide = cast_as NonStrict int32 a in
        Gives (is_strict [] schema_abu) (
        (a, true) ∷ (sum a a, true) ∷ (sum wide b, true) ∷ (less wide b, true) ∷
        (sum a b, false) ∷ (less a b, false) ∷ (cast_as NonStrict int64 (sum a b), false) ∷ (c, false) ∷ []) }
{}

/// Expressions say the same where type, name and meaning are the same on every frame.
pub fn expressions_that_say_the_same()
    ensures itself { IsSame [] schema_abu (sum a b) (sum a b) }
    ensures other_type { ¬ (IsSame [] schema_abu a (cast_as NonStrict int16 a)) }
    ensures other_name { ¬ (IsSame [] schema_abu (sum a b) (sum b a)) }
    ensures other_meaning { ¬ (IsSame [] schema_abu (cast_as Strict int8 b) (cast_as NonStrict int8 b)) }
{}
