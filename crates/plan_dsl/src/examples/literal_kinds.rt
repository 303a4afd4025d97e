//! Literals of each kind: nulls, truth values, texts, numbers and times.

ghost use Rattle.std.specs.Prelude.{◌≡◌, [], ◌∷◌, pos, neg_ℤ, codes, true, false, Some, Err};
ghost use Rattle.plan_types.specs.Types.{NullType, Truth, TextType, DateType, TimeType, DurationType, Untyped};
ghost use Rattle.plan_types.specs.Outcomes.{Done, Stuck};
ghost use Rattle.plan_types.specs.Frames.{empty_frame};
ghost use Rattle.plan_types.specs.declared.dtype.TimeUnit.TheVariants.{Nanoseconds, Microseconds};
ghost use Rattle.plan_types.specs.declared.error.ErrorKind.TheVariants.{InvalidOperation};
ghost use Rattle.plan_dsl.specs.declared.literal.LiteralValue.TheVariants.{Null, Boolean, String, Int, Int8, Int16, Int32, Int64, UInt8, UInt16, UInt32, UInt64, Date, Time, DateTime, Duration};
ghost use Rattle.plan_dsl.specs.declared.operator.Operator.TheVariants.{Eq, EqValidity, Plus, LogicalAnd, LogicalOr};
ghost use Rattle.plan_dsl.specs.Trees.{node, no_more};
ghost use Rattle.plan_dsl.specs.Ops.{LiteralOp};
ghost use Rattle.plan_dsl.specs.Names.{name_of};
ghost use Rattle.plan_dsl.specs.Literals.{literal_op, literal_type, literal_value, settled};
ghost use Rattle.plan_dsl.specs.Typing.{typing, kinds_in};
ghost use Rattle.plan_dsl.specs.Meaning.{meaning};
ghost use Rattle.plan_dsl.specs.StrictRun.{strict_run};
ghost use Rattle.plan_dsl.specs.PlanRules.{schema_of};
ghost use Rattle.plan_dsl.specs.Samples.{Gives, GivesAll, HasLiterals, logical, int8, int16, int32, int64, uint8, uint16, uint32, uint64, moment, null, yes, no, number, negative, text, written_literal, a, binary, sum, equal, of_one, of_many, means, alone, scan, select, keep};

/// Each literal is of the type of its kind, and has its value.
pub fn ops_of_literals()
    ensures ops { Gives literal_op (
        (Null, LiteralOp NullType null) ∷ (Boolean true, LiteralOp Truth yes) ∷ (Boolean false, LiteralOp Truth no) ∷
        (String (codes "a"), LiteralOp TextType (text "a")) ∷
        (Date (neg_ℤ (pos 1)), LiteralOp DateType (negative 1)) ∷ (Time (pos 5), LiteralOp TimeType (number 5)) ∷
        (DateTime (pos 5) Microseconds, LiteralOp moment (number 5)) ∷ (Duration (pos 5) Nanoseconds, LiteralOp (DurationType Nanoseconds) (number 5)) ∷ []) }
    ensures types_of_numbers { Gives literal_type (
        (Int (pos 5), Untyped (pos 5)) ∷ (Int8 (pos 5), int8) ∷ (Int16 (pos 5), int16) ∷ (Int32 (pos 5), int32) ∷ (Int64 (pos 5), int64) ∷
        (UInt8 5, uint8) ∷ (UInt16 5, uint16) ∷ (UInt32 5, uint32) ∷ (UInt64 5, uint64) ∷ []) }
    ensures values_of_numbers { Gives literal_value (
        (Int (pos 5), number 5) ∷ (Int8 (pos 6), number 6) ∷ (Int64 (neg_ℤ (pos 7)), negative 7) ∷ (UInt8 8, number 8) ∷ (UInt64 9, number 9) ∷ []) }
{}

/// Null is a literal of its own type alone, and gives one null on any rows.
pub fn null_literals()
    ensures types { HasLiterals (
        (NullType, null ∷ [], []) ∷ (Truth, [], null ∷ []) ∷ (int8, [], null ∷ []) ∷
        (TextType, [], null ∷ []) ∷ (DateType, [], null ∷ []) ∷ (Untyped (pos 0), [], null ∷ []) ∷ []) }
    ensures typed { Gives (typing [] []) ((written_literal Null, of_one NullType) ∷ (node (LiteralOp TextType null) no_more, Err InvalidOperation) ∷ []) }
    ensures name { name_of (written_literal Null) ≡ codes "literal" }
    ensures settled { settled (written_literal Null) ≡ written_literal Null }
    ensures meaning { Gives (meaning [] (alone Truth (yes ∷ no ∷ [])) (written_literal Null)) (
        (0 ∷ 1 ∷ [], Done (null ∷ [])) ∷ ([], Done (null ∷ [])) ∷ []) }
    ensures run { strict_run [] (alone Truth (yes ∷ no ∷ [])) (written_literal Null) (0 ∷ 1 ∷ []) ≡ Done (null ∷ []) }
    ensures selected { schema_of [] (select (written_literal Null ∷ []) (scan ((codes "t", Truth) ∷ []))) ≡ Some ((codes "literal", NullType) ∷ []) }
{}

/// A time of day that no day has isn't typed, alone or in an operand.
pub fn times_past_the_day()
    ensures typed { Gives (typing [] []) (
        (written_literal (Time (neg_ℤ (pos 1))), Err InvalidOperation) ∷ (written_literal (Time (pos 0)), of_one TimeType) ∷
        (written_literal (Time (pos 86399999999999)), of_one TimeType) ∷ (written_literal (Time (pos 86400000000000)), Err InvalidOperation) ∷ []) }
    ensures compared { typing [] ((codes "a", TimeType) ∷ []) (equal a (written_literal (Time (pos 86400000000000)))) ≡ Err InvalidOperation }
    ensures kinds { kinds_in [] [] (written_literal (Time (pos 86400000000000))) ≡ InvalidOperation ∷ [] }
    ensures meaning { meaning [] empty_frame (written_literal (Time (pos 86400000000000))) [] ≡ Stuck }
{}

/// Null is of the type of what stands beside it.
pub fn types_of_null_beside_columns()
    ensures number { Gives (typing [] ((codes "a", int8) ∷ [])) (
        (sum a (written_literal Null), of_many int8) ∷ (sum (written_literal Null) a, of_many int8) ∷ (binary LogicalAnd a (written_literal Null), Err InvalidOperation) ∷ []) }
    ensures literals { Gives (typing [] []) ((sum (written_literal Null) (written_literal (Int (pos 5))), of_one int32) ∷ (sum (written_literal Null) (written_literal Null), of_one NullType) ∷ []) }
    ensures text { typing [] ((codes "a", TextType) ∷ []) (sum a (written_literal Null)) ≡ of_many TextType }
    ensures truth { GivesAll (λ operator. typing [] ((codes "a", Truth) ∷ []) (binary operator a (written_literal Null))) (of_many Truth) (Eq ∷ logical) }
{}

/// What an operator gives beside null is null, but where a truth value settles it, or where nulls are compared too.
pub fn meanings_of_null_beside_columns()
    ensures number { Gives (λ operator. means (alone int8 (number 1 ∷ null ∷ [])) (binary operator a (written_literal Null))) (
        (Plus, Done (null ∷ null ∷ [])) ∷ (Eq, Done (null ∷ null ∷ [])) ∷ (EqValidity, Done (no ∷ yes ∷ [])) ∷ []) }
    ensures text { means (alone TextType (text "b" ∷ null ∷ [])) (sum a (written_literal Null)) ≡ Done (null ∷ null ∷ []) }
    ensures truth { Gives (λ operator. means (alone Truth (yes ∷ no ∷ null ∷ [])) (binary operator a (written_literal Null))) (
        (LogicalAnd, Done (null ∷ no ∷ null ∷ [])) ∷ (LogicalOr, Done (yes ∷ null ∷ null ∷ [])) ∷ []) }
{}

/// Literals of truth, of texts and of times beside columns.
pub fn other_literals_beside_columns()
    ensures kept_rows { schema_of [] (keep (written_literal (Boolean true)) (scan ((codes "a", int8) ∷ []))) ≡ Some ((codes "a", int8) ∷ []) }
    ensures text { means (alone TextType (text "b" ∷ null ∷ [])) (sum a (written_literal (String (codes "!")))) ≡ Done (text "b!" ∷ null ∷ []) }
    ensures later { means (alone moment (number 1 ∷ null ∷ [])) (sum a (written_literal (Duration (pos 5) Microseconds))) ≡ Done (number 6 ∷ null ∷ []) }
    ensures day { means (alone DateType (number 1 ∷ number 2 ∷ [])) (equal a (written_literal (Date (pos 2)))) ≡ Done (no ∷ yes ∷ []) }
{}
