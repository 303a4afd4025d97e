//! Worked examples of the definitions. The functions do nothing: their clauses are the examples.
ghost use Rattle.std.specs.Prelude.{◌≡◌, [], ◌∷◌, true, false, map};
ghost use Rattle.plan_types.specs.Types.{Truth};
ghost use Rattle.plan_types.specs.declared.dtype.CastOptions.TheVariants.{Overflowing};
ghost use Rattle.plan_dsl.specs.Samples.{cast_as};
ghost use Rattle.plan_dsl.specs.Strictness.{IsSame};
ghost use Rattle.plan_dsl.specs.Typing.{typing};
ghost use Rattle.plan_dsl.specs.declared.operator.Operator.TheVariants.{And, LogicalAnd, Plus};
ghost use Rattle.plan_infer.specs.Samples.{a, b, binary, c, cast_to, columns_of, five, int32, int8, strictly_cast_to, two_columns};
ghost use Rattle.plan_coerce.specs.Rules.{IsSameOnFrames, said};
ghost use Rattle.own_rule.specs.HarmlessCasts.{is_relaxed, relaxed, until_relaxed};
ghost use Rattle.own_rule.specs.PlainAnds.{is_plain, plain, until_plain};

/// A strict cast to the type that its operand has is made another, wherever it stands. One of a number without a type stays,
/// and so does one of what has no type.
pub fn casts_that_are_relaxed()
    ensures alone { relaxed [] two_columns (strictly_cast_to int8 a) ≡ cast_to int8 a }
    ensures within { relaxed [] two_columns (binary Plus (strictly_cast_to int8 a) b) ≡ binary Plus (cast_to int8 a) b }
    ensures outer { relaxed [] two_columns (strictly_cast_to int32 (strictly_cast_to int32 a)) ≡ cast_to int32 (strictly_cast_to int32 a) }
    ensures others { map (relaxed [] two_columns) (a ∷ strictly_cast_to int8 b ∷ cast_as Overflowing int8 a ∷ strictly_cast_to int8 five ∷ strictly_cast_to int8 c ∷ [])
        ≡ a ∷ strictly_cast_to int8 b ∷ cast_as Overflowing int8 a ∷ strictly_cast_to int8 five ∷ strictly_cast_to int8 c ∷ [] }
{}

/// The rule says so of each node by itself.
pub fn nodes_that_stay()
    ensures settled { map (said (is_relaxed [] two_columns) [] two_columns) (a ∷ strictly_cast_to int8 a ∷ cast_to int8 a ∷ strictly_cast_to int8 b ∷ strictly_cast_to int8 c ∷ [])
        ≡ true ∷ false ∷ true ∷ true ∷ true ∷ [] }
    ensures times { map (said (until_relaxed [] two_columns) [] two_columns) (strictly_cast_to int8 a ∷ cast_to int8 a ∷ a ∷ []) ≡ 1 ∷ 0 ∷ 0 ∷ [] }
{}

/// `LogicalAnd` of two columns of truth values becomes `And`, wherever it stands, and of other types it stays. On each frame
/// both mean the same. On rows that don't fit they don't: of two numbers `And` makes a number, where the other gives null.
pub fn ands_of_truths()
    ensures plain { map (plain [] (columns_of Truth Truth)) (binary LogicalAnd a b ∷ binary LogicalAnd (binary LogicalAnd a b) b ∷ binary And a b ∷ a ∷ [])
        ≡ binary And a b ∷ binary And (binary And a b) b ∷ binary And a b ∷ a ∷ [] }
    ensures other_types { map (plain [] two_columns) (binary LogicalAnd a b ∷ binary And a b ∷ binary LogicalAnd a c ∷ []) ≡ binary LogicalAnd a b ∷ binary And a b ∷ binary LogicalAnd a c ∷ [] }
    ensures settled { map (said (is_plain [] (columns_of Truth Truth)) [] (columns_of Truth Truth)) (a ∷ binary LogicalAnd a b ∷ binary And a b ∷ binary LogicalAnd a c ∷ [])
        ≡ true ∷ false ∷ true ∷ true ∷ [] }
    ensures times { map (said (until_plain [] (columns_of Truth Truth)) [] (columns_of Truth Truth)) (binary LogicalAnd a b ∷ binary And a b ∷ []) ≡ 1 ∷ 0 ∷ [] }
    ensures same_type { typing [] (columns_of Truth Truth) (binary And a b) ≡ typing [] (columns_of Truth Truth) (binary LogicalAnd a b) }
    ensures on_frames { IsSameOnFrames [] (columns_of Truth Truth) (binary LogicalAnd a b) (binary And a b) }
    ensures on_other_rows { ¬ (IsSame [] (columns_of Truth Truth) (binary LogicalAnd a b) (binary And a b)) }
{}
