//! Casts that can be told beforehand: which literals stand for casts of literals, and which casts stay.

ghost use Rattle.std.specs.Prelude.{◌≡◌, [], ◌∷◌, Some, None, true, false, codes, pos};
ghost use Rattle.plan_types.specs.Types.{NullType, Truth, TextType, DateType, TimeType, DatetimeType, DurationType, ListType};
ghost use Rattle.plan_types.specs.declared.dtype.CastOptions.TheVariants.{NonStrict, Overflowing, Strict};
ghost use Rattle.plan_types.specs.declared.dtype.TimeUnit.TheVariants.{Milliseconds, Nanoseconds};
ghost use Rattle.plan_dsl.specs.declared.operator.Operator.TheVariants.{And, LogicalAnd, LogicalOr};
ghost use Rattle.plan_dsl.specs.InlinedCasts.{inlined, is_told, literal_cast, stays};
ghost use Rattle.plan_dsl.specs.Samples.{Gives, GivesAll, all_options, cast_as, int64, moment, negative, null, number as value, span, text, uint8, yes, no};
ghost use Rattle.plan_dsl.specs.declared.literal.LiteralValue.TheVariants.{Int8};
ghost use Rattle.plan_types.specs.declared.dtype.DataType.TheVariants as dtype;
ghost use Rattle.plan_infer.specs.Samples.{int8, int16, int32, a, b, binary, cast_to, columns_and, five, literal, pair, strictly_cast_to};
ghost use Rattle.plan_coerce.specs.declared.cast_inlining.Told.TheVariants.{Literal, Neither};
ghost use Rattle.plan_coerce.specs.Samples.{CastsTo, cast_of, of, told_as};
ghost use Rattle.plan_coerce.specs.ToldCasts.{IsToldBy, LeadsTo};

/// The literal that stands for a cast of one.
#[tactic(auto, unfolding(crate::proofs::OnLiterals::texts_on_literals))]
pub fn casts_of_literals()
    ensures numbers { CastsTo NonStrict
        ((int32, value 5, int8, told_as int8 (value 5)) ∷ (int32, value 300, int16, told_as int16 (value 300)) ∷ (int8, negative 1, int64, told_as int64 (negative 1)) ∷ (int8, value 5, Truth, told_as Truth yes)
        ∷ (int8, value 0, Truth, told_as Truth no) ∷ (int8, negative 7, TextType, told_as TextType (text "-7")) ∷ (int64, value 3, DateType, told_as DateType (value 3)) ∷ (int64, value 3, TimeType, told_as TimeType (value 3)) ∷ []) }
    ensures truths_and_texts { CastsTo NonStrict
        ((Truth, yes, uint8, told_as uint8 (value 1)) ∷ (Truth, no, TextType, told_as TextType (text "false")) ∷ (TextType, text "+12", int8, told_as int8 (value 12)) ∷ []) }
    ensures times { CastsTo NonStrict
        ((DateType, value 2, DatetimeType Milliseconds, told_as (DatetimeType Milliseconds) (value 172800000)) ∷ (DatetimeType Milliseconds, negative 1, DateType, told_as DateType (negative 1))
        ∷ (moment, value 1999, DatetimeType Milliseconds, told_as (DatetimeType Milliseconds) (value 1)) ∷ (DurationType Milliseconds, value 2, span, told_as span (value 2000)) ∷ (TimeType, value 3, int64, told_as int64 (value 3)) ∷ []) }
    ensures own_type { GivesAll (λ options. literal_cast int8 (value 5) int8 options) (Some (of int8 (value 5))) all_options }
    ensures overflowing { literal_cast int32 (value 300) int8 Overflowing ≡ Some (of int8 (value 44)) }
    ensures strict { literal_cast TextType (text "12") int8 Strict ≡ Some (of int8 (value 12)) }
{}

/// Casts that stay: of null, those whose value is null or fails, and those to types that have no literals.
pub fn casts_of_literals_that_stay()
    ensures null { GivesAll (λ target. literal_cast NullType null target NonStrict) None (NullType ∷ int8 ∷ TextType ∷ ListType int8 ∷ []) }
    ensures no_value { CastsTo NonStrict ((int32, value 300, int8, None) ∷ (TextType, text "x", int8, None) ∷ (int64, negative 1, TimeType, None) ∷ []) }
    ensures failing { CastsTo Strict ((int32, value 300, int8, None) ∷ (TextType, text "12x", int8, None) ∷ []) }
    ensures no_such_cast { CastsTo NonStrict ((Truth, yes, DateType, None) ∷ (int32, value 3, DateType, None) ∷ (int8, value 5, ListType int8, None) ∷ []) }
    ensures no_such_literal { literal_cast TimeType (negative 1) int64 NonStrict ≡ None }
{}

/// Expressions without casts that go, the ones further in first.
#[tactic(auto, unfolding(crate::proofs::OnLiterals::texts_on_literals))]
pub fn expressions_without_casts()
    ensures literal { inlined (cast_to int8 (literal int32 (pos 5))) ≡ literal int8 (pos 5) }
    ensures twice { inlined (cast_to TextType (strictly_cast_to int8 (literal int32 (pos 5)))) ≡ of TextType (text "5") }
    ensures inner_stays { let inner = cast_to int8 (literal int32 (pos 300)) in inlined (cast_to int16 inner) ≡ cast_to int16 inner }
    ensures below { inlined (binary And a (cast_to int8 (literal int32 (pos 5)))) ≡ binary And a (literal int8 (pos 5)) }
    ensures column { inlined (cast_to int8 a) ≡ cast_to int8 a }
    ensures without_type { inlined (cast_to int8 five) ≡ cast_to int8 five }
{}

/// A cast of `LogicalAnd` or `LogicalOr` to truth values goes, and any other of them stays.
pub fn casts_of_logical_operators()
    ensures go { Gives inlined ((cast_to Truth (binary LogicalAnd a b), binary LogicalAnd a b) ∷ (strictly_cast_to Truth (binary LogicalOr a b), binary LogicalOr a b) ∷ (cast_to Truth (cast_to Truth (binary LogicalOr a b)), binary LogicalOr a b) ∷ []) }
    ensures other_type { inlined (cast_to TextType (binary LogicalAnd a b)) ≡ cast_to TextType (binary LogicalAnd a b) }
    ensures other_operator { inlined (cast_to Truth (binary And a b)) ≡ cast_to Truth (binary And a b) }
    ensures told { Gives is_told ((five, true) ∷ (binary LogicalAnd a b, true) ∷ (binary LogicalOr a b, true) ∷ (binary And a b, false) ∷ (cast_to int8 a, false) ∷ (a, false) ∷ []) }
    ensures stay { Gives stays ((cast_to int8 a, true) ∷ (cast_to Truth (binary LogicalAnd a b), false) ∷ (binary And (cast_to int8 (literal int32 (pos 5))) a, true) ∷ (cast_to int8 (cast_to int8 (literal int8 (pos 5))), false) ∷ []) }
{}

/// What is found at a node through casts: a literal, the node of a `LogicalAnd` or `LogicalOr`, or neither.
pub fn what_is_found_under_casts()
    ensures literal { IsToldBy [] [] [] 0 (cast_to int8 (literal int32 (pos 5))) (Literal (Int8 (pos 5))) }
    ensures other_literal { ¬ (IsToldBy [] [] [] 0 (cast_to int8 (literal int32 (pos 5))) (Literal (Int8 (pos 6)))) }
    ensures neither { IsToldBy [] [] [] 0 (cast_to int8 a) Neither }
    ensures cast_that_stays { IsToldBy [] [] [] 0 (cast_to int8 (literal int32 (pos 300))) Neither }
    ensures one_of_them { ¬ (IsToldBy [] [] [] 0 (binary LogicalAnd a b) Neither) }
    ensures itself { LeadsTo [] 2 (binary And a b) 2 (binary And a b) }
    ensures below { LeadsTo (columns_and (pair 0 LogicalAnd 1 ∷ cast_of 2 dtype.Boolean ∷ [])) 3 (cast_to Truth (binary LogicalAnd a b)) 2 (binary LogicalAnd a b) }
    ensures elsewhere { ¬ (LeadsTo [] 3 (binary And a b) 2 (binary And a b)) }
{}
