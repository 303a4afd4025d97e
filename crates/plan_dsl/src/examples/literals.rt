//! Literals: names, types, what they give, and plans that have them.

ghost use Rattle.std.specs.Prelude.{◌≡◌, [], ◌∷◌, map, pos, neg_ℤ, codes, true, false, Some, None, Err};
ghost use Rattle.plan_types.specs.Types.{Truth, TextType, DateType, Untyped};
ghost use Rattle.plan_types.specs.Outcomes.{Done, Fault, Stuck};
ghost use Rattle.plan_types.specs.declared.dtype.CastOptions.TheVariants.{Strict, NonStrict, Overflowing};
ghost use Rattle.plan_types.specs.declared.error.ErrorKind.TheVariants.{ColumnNotFound, Duplicate, SchemaMismatch, InvalidOperation};
ghost use Rattle.plan_dsl.specs.declared.literal.LiteralValue.TheVariants.{Int, Int8, Int64, UInt8, UInt64};
ghost use Rattle.plan_dsl.specs.Trees.{node, no_more, more};
ghost use Rattle.plan_dsl.specs.Ops.{LiteralOp};
ghost use Rattle.plan_dsl.specs.Names.{name_of};
ghost use Rattle.plan_dsl.specs.Literals.{literal_op, settled};
ghost use Rattle.plan_dsl.specs.Typing.{typing, kinds_in};
ghost use Rattle.plan_dsl.specs.Meaning.{meaning};
ghost use Rattle.plan_dsl.specs.Strictness.{CanBecome, is_strict, as_operand};
ghost use Rattle.plan_dsl.specs.StrictRun.{strict_run};
ghost use Rattle.plan_dsl.specs.Plans.{named, scan_op, select_op, filter_op};
ghost use Rattle.plan_dsl.specs.PlanRules.{schema_of, broken_kinds, IsWellFormed, Breaks};
ghost use Rattle.plan_dsl.specs.PlanMeaning.{source_meaning};
ghost use Rattle.plan_dsl.specs.Samples.{Gives, GivesAll, HasLiterals, AreOperands, int8, int16, int32, int64, uint8, uint16, uint64, null, yes, no, number, negative, written_literal, a, c, n, t, u, w, literal, typed_literal, one, two, five, below, wide, two_hundred, widest, huge, sum, less, cast_as, of_one, of_many, means, runs, frame_with, alone, table, signs_and_truths, schema_ab, scan, empty_scan, select, keep};

/// A literal is a value of a type, and null of its own type alone. A number without a type is one of Int64 or UInt64. A literal
/// is named `literal`, and so is what has one at its left end.
pub fn values_and_names_of_literals()
    ensures ops { Gives literal_op (
        (Int (neg_ℤ (pos 5)), LiteralOp (Untyped (neg_ℤ (pos 5))) (negative 5)) ∷
        (Int8 (neg_ℤ (pos 128)), LiteralOp int8 (negative 128)) ∷ (Int64 (pos 1), LiteralOp int64 (number 1)) ∷
        (UInt8 255, LiteralOp uint8 (number 255)) ∷ (UInt64 18446744073709551615, LiteralOp uint64 (number 18446744073709551615)) ∷ []) }
    ensures tree { written_literal (Int (pos 1)) ≡ one }
    ensures typed { HasLiterals (
        (int8, negative 128 ∷ number 127 ∷ [], negative 129 ∷ number 128 ∷ yes ∷ null ∷ []) ∷
        (Truth, yes ∷ [], number 1 ∷ null ∷ []) ∷ []) }
    ensures untyped { HasLiterals (
        (Untyped (pos 5), number 5 ∷ [], number 4 ∷ number 6 ∷ null ∷ []) ∷
        (Untyped (neg_ℤ (pos 9223372036854775808)), negative 9223372036854775808 ∷ [], []) ∷
        (Untyped (neg_ℤ (pos 9223372036854775809)), [], negative 9223372036854775809 ∷ []) ∷
        (Untyped (pos 18446744073709551615), number 18446744073709551615 ∷ [], []) ∷
        (Untyped (pos 18446744073709551616), [], number 18446744073709551616 ∷ []) ∷ []) }
    ensures names { GivesAll name_of (codes "literal") (one ∷ typed_literal int8 (pos 1) ∷ cast_as Strict int8 one ∷ sum one a ∷ []) }
    ensures name_of_a_column_first { name_of (sum a one) ≡ codes "a" }
{}

/// A number without a type at the top gets the one that it has alone, if there is one. Nothing else changes.
pub fn settled_literals()
    ensures untyped { Gives settled (
        (five, typed_literal int32 (pos 5)) ∷
        (literal (neg_ℤ (pos 2147483649)), typed_literal int64 (neg_ℤ (pos 2147483649))) ∷
        (widest, typed_literal uint64 (pos 18446744073709551615)) ∷ []) }
    ensures others { let others = huge ∷ typed_literal uint8 (pos 1) ∷ a ∷ sum one (cast_as Strict int8 one) ∷ [] in
        map settled others ≡ others }
{}

/// A literal alone has its own type, and one value.
pub fn types_of_literals_alone()
    ensures types { Gives (typing [] []) (
        (one, of_one (Untyped (pos 1))) ∷ (settled one, of_one int32) ∷ (settled widest, of_one uint64) ∷
        (typed_literal uint16 (pos 1), of_one uint16) ∷ (cast_as Strict int8 two_hundred, of_one int8) ∷ []) }
    ensures types_of_two { Gives (typing [] []) (
        (sum one two, of_one int32) ∷ (sum one (literal (pos 2147483648)), of_one int64) ∷
        (sum (typed_literal int8 (pos 1)) two_hundred, of_one int16) ∷ (less one two, of_one Truth) ∷ []) }
{}

/// Beside a column a number has the column's type where it fits, else the least that has it.
pub fn types_of_literals_beside_columns()
    ensures types { Gives (typing [] ((codes "a", int8) ∷ (codes "u", uint8) ∷ (codes "w", uint64) ∷ (codes "t", Truth) ∷ [])) (
        (sum a one, of_many int8) ∷ (sum a wide, of_many int16) ∷ (sum wide a, of_many int16) ∷ (sum (sum a one) wide, of_many int16) ∷
        (sum u wide, of_many uint16) ∷ (sum u below, of_many int16) ∷ (sum w widest, of_many uint64) ∷ (sum t one, of_many int32) ∷
        (sum a (typed_literal int32 (pos 1)), of_many int32) ∷ (less a wide, of_many Truth) ∷ []) }
{}

/// A literal that is past every type is refused, and so is a type of a number as that of a column or of a cast.
pub fn refused_literals()
    ensures alone { GivesAll (typing [] []) (Err InvalidOperation) (
        huge ∷ literal (neg_ℤ (pos 9223372036854775809)) ∷ settled huge ∷ cast_as NonStrict int64 huge ∷
        typed_literal int8 (pos 128) ∷ node (LiteralOp int8 null) no_more ∷ cast_as NonStrict (Untyped (pos 1)) one ∷ []) }
    ensures beside_columns { Gives (typing [] ((codes "a", int8) ∷ (codes "w", uint64) ∷ [])) (
        (sum a huge, Err InvalidOperation) ∷
        (sum w below, Err SchemaMismatch) ∷
        (cast_as NonStrict (Untyped (pos 1)) a, Err InvalidOperation) ∷
        (node (LiteralOp int8 (number 1)) (more a no_more), Err SchemaMismatch) ∷ []) }
    ensures column { typing [] ((codes "n", Untyped (pos 1)) ∷ []) n ≡ Err InvalidOperation }
{}

/// The kinds that literals break, and nodes over them.
pub fn kinds_that_literals_break()
    ensures alone { GivesAll (kinds_in [] []) (InvalidOperation ∷ []) (huge ∷ cast_as Strict (Untyped (pos 1)) one ∷ []) }
    ensures beside_columns { Gives (kinds_in [] ((codes "a", int8) ∷ (codes "w", uint64) ∷ [])) (
        (sum a wide, []) ∷ (sum c huge, ColumnNotFound ∷ InvalidOperation ∷ []) ∷ (less below w, SchemaMismatch ∷ []) ∷ []) }
    ensures columns { kinds_in [] ((codes "n", Untyped (pos 1)) ∷ []) (sum n n) ≡ InvalidOperation ∷ InvalidOperation ∷ [] }
{}

/// A literal gives one value on any rows, and beside a column it is repeated. A cast of it is one of its value, also on no rows.
pub fn meanings_of_literals()
    ensures on_all_rows { Gives (means signs_and_truths) (
        (five, Done (number 5 ∷ [])) ∷
        (sum a wide, Done (number 400 ∷ number 427 ∷ null ∷ [])) ∷
        (sum wide a, Done (number 400 ∷ number 427 ∷ null ∷ [])) ∷
        (sum a one, Done (number 101 ∷ negative 128 ∷ null ∷ [])) ∷
        (sum u below, Done (negative 1 ∷ number 254 ∷ null ∷ [])) ∷
        (sum t five, Done (number 6 ∷ number 5 ∷ null ∷ [])) ∷
        (less a (literal (pos 127)), Done (yes ∷ no ∷ null ∷ [])) ∷
        (less wide a, Done (no ∷ no ∷ null ∷ [])) ∷
        (huge, Stuck) ∷ []) }
    ensures on_no_rows { Gives (λ tree. meaning [] signs_and_truths tree []) (
        (five, Done (number 5 ∷ [])) ∷ (typed_literal uint8 (pos 5), Done (number 5 ∷ [])) ∷ (sum a one, Done []) ∷
        (sum one two, Done (number 3 ∷ [])) ∷ (sum (literal (pos 2147483647)) one, Done (negative 2147483648 ∷ [])) ∷ []) }
    ensures casts_on_all_rows { Gives (means signs_and_truths) (
        (cast_as Strict int8 two_hundred, Fault) ∷
        (cast_as NonStrict int8 two_hundred, Done (null ∷ [])) ∷
        (cast_as Overflowing int8 two_hundred, Done (negative 56 ∷ [])) ∷
        (cast_as Strict Truth two_hundred, Done (yes ∷ [])) ∷ []) }
    ensures casts_on_no_rows { Gives (λ tree. meaning [] signs_and_truths tree []) (
        (cast_as Strict int8 two_hundred, Fault) ∷
        (cast_as Strict uint8 two_hundred, Done (number 200 ∷ [])) ∷
        (cast_as Strict int8 (typed_literal uint8 (pos 200)), Fault) ∷
        (sum a (cast_as Strict int8 two_hundred), Fault) ∷ []) }
{}

/// As it is written_literal a number without a type is stuck, and a literal of a type gives its value.
pub fn literals_run_as_written()
    ensures untyped { GivesAll (runs signs_and_truths) Stuck (five ∷ sum a one ∷ sum one one ∷ cast_as Strict int8 five ∷ []) }
    ensures typed { Gives (runs signs_and_truths) (
        (typed_literal int8 (pos 5), Done (number 5 ∷ [])) ∷
        (sum a (typed_literal int8 (pos 1)), Done (number 101 ∷ negative 128 ∷ null ∷ [])) ∷
        (sum a (typed_literal int16 (pos 300)), Stuck) ∷
        (sum (cast_as NonStrict int16 a) (typed_literal int16 (pos 300)), Done (number 400 ∷ number 427 ∷ null ∷ [])) ∷ []) }
    ensures typed_on_no_rows { Gives (λ tree. strict_run [] signs_and_truths tree []) (
        (typed_literal int8 (pos 5), Done (number 5 ∷ [])) ∷ (cast_as Strict int8 (typed_literal int32 (pos 200)), Fault) ∷ []) }
{}

/// A number without a type becomes a literal of the type to which it is taken, and a literal of another type gets a cast.
pub fn literals_as_operands()
    ensures operands { AreOperands (
        (Untyped (pos 300), int16, wide, typed_literal int16 (pos 300)) ∷
        (int8, int16, typed_literal int8 (pos 1), cast_as NonStrict int16 (typed_literal int8 (pos 1))) ∷
        (int8, int8, typed_literal int8 (pos 1), typed_literal int8 (pos 1)) ∷ []) }
    ensures in_range { CanBecome (Untyped (pos 300)) int16 }
    ensures unknown { ¬ (CanBecome (Untyped (pos 300)) (Untyped (pos 300))) }
{}

/// A number that the type lacks is cast from a literal of the type that it has alone, and so is null where it has no place.
pub fn numbers_that_a_type_lacks()
    ensures operands { AreOperands (
        (Untyped (pos 300), int8, wide, cast_as NonStrict int8 (typed_literal int32 (pos 300))) ∷
        (Untyped (pos 9223372036854775807), int64, literal (pos 9223372036854775807), typed_literal int64 (pos 9223372036854775807)) ∷
        (Untyped (pos 9223372036854775808), int64, literal (pos 9223372036854775808), cast_as NonStrict int64 (typed_literal uint64 (pos 9223372036854775808))) ∷
        (Untyped (pos 5), TextType, five, cast_as NonStrict TextType (typed_literal int32 (pos 5))) ∷ []) }
    ensures meanings { Gives (means signs_and_truths) (
        (as_operand (Untyped (pos 300)) int8 wide, Done (null ∷ [])) ∷
        (as_operand (Untyped (pos 9223372036854775808)) int64 (literal (pos 9223372036854775808)), Done (null ∷ [])) ∷
        (as_operand (Untyped (pos 5)) Truth five, Done (yes ∷ [])) ∷ []) }
    ensures lacking { CanBecome (Untyped (pos 300)) int8 × CanBecome (Untyped (pos 9223372036854775808)) int64 }
    ensures past_every_type { ¬ (CanBecome (Untyped (pos 18446744073709551616)) int64) }
    ensures no_cast { ¬ (CanBecome (Untyped (pos 300)) DateType) }
{}

/// A literal of a type is strict, and so is an operator between it and an expression of that type. A number without a type is not.
pub fn strict_literals()
    ensures strict { Gives (is_strict [] ((codes "a", int8) ∷ [])) (
        (typed_literal int8 (pos 1), true) ∷ (sum a (typed_literal int8 (pos 1)), true) ∷
        (one, false) ∷ (sum a one, false) ∷ (cast_as Strict int8 one, false) ∷ (sum a (typed_literal int16 (pos 1)), false) ∷ []) }
{}

/// In a select a literal has the type that it has alone, and a filter asks for a truth value.
pub fn schemas_of_plans_of_literals()
    ensures selects { Gives (λ outputs. schema_of [] (select outputs (scan schema_ab))) (
        (five ∷ [], Some ((codes "literal", int32) ∷ [])) ∷
        (typed_literal uint8 (pos 5) ∷ [], Some ((codes "literal", uint8) ∷ [])) ∷
        (widest ∷ [], Some ((codes "literal", uint64) ∷ [])) ∷
        (sum a five ∷ five ∷ [], Some ((codes "a", int8) ∷ (codes "literal", int32) ∷ [])) ∷
        (huge ∷ [], None) ∷ (one ∷ two ∷ [], None) ∷ []) }
    ensures filters { Gives (λ predicate. schema_of [] (keep predicate (scan schema_ab))) ((less a five, Some schema_ab) ∷ (five, None) ∷ []) }
    ensures untyped_column { schema_of [] (scan ((codes "a", int8) ∷ (codes "n", Untyped (pos 1)) ∷ [])) ≡ None }
{}

/// The kinds that plans of literals break, and where.
pub fn rules_that_literals_break()
    ensures selects { Gives (λ outputs. broken_kinds [] (select_op (map named outputs) None) (Some [] ∷ [])) (
        (five ∷ [], []) ∷ (huge ∷ [], InvalidOperation ∷ []) ∷ (one ∷ two ∷ [], Duplicate ∷ []) ∷ []) }
    ensures filter_by_a_literal { broken_kinds [] (filter_op (named five)) (Some [] ∷ []) ≡ InvalidOperation ∷ [] }
    ensures untyped_column { broken_kinds [] (scan_op (Some 0) ((codes "a", int8) ∷ (codes "n", Untyped (pos 1)) ∷ [])) [] ≡ InvalidOperation ∷ [] }
    ensures at_the_select { Breaks [] InvalidOperation [] (select (huge ∷ []) (scan schema_ab)) }
    ensures below_a_select { Breaks [] InvalidOperation (0 ∷ []) (select (five ∷ []) (select (huge ∷ []) (scan schema_ab))) }
    ensures at_the_scan { Breaks [] InvalidOperation (0 ∷ []) (select (five ∷ []) (scan ((codes "n", Untyped (pos 1)) ∷ []))) }
    ensures ill_formed { ¬ (IsWellFormed [] (select (huge ∷ []) (scan schema_ab))) }
    ensures well_formed { IsWellFormed [] (select (widest ∷ []) (scan schema_ab)) }
{}

/// A select of a literal alone gives one row, also over no rows. Beside a column the literal is repeated.
pub fn frames_of_plans_of_literals()
    ensures selects { Gives (λ outputs. source_meaning [] (table ∷ []) (select outputs (scan schema_ab))) (
        (five ∷ [], Done (frame_with ((codes "literal", int32) ∷ []) ((number 5 ∷ []) ∷ []))) ∷ (
          five ∷ a ∷ [],
          Done (frame_with ((codes "literal", int32) ∷ (codes "a", int8) ∷ []) (
              (number 5 ∷ number 1 ∷ []) ∷ (number 5 ∷ null ∷ []) ∷ (number 5 ∷ number 100 ∷ []) ∷ [])),
        ) ∷
        (sum a wide ∷ [], Done (alone int16 (number 301 ∷ null ∷ number 400 ∷ []))) ∷ []) }
    ensures selects_over_no_rows { Gives (λ outputs. source_meaning [] [] (select outputs (empty_scan schema_ab))) (
        (five ∷ [], Done (frame_with ((codes "literal", int32) ∷ []) ((number 5 ∷ []) ∷ []))) ∷
        (widest ∷ [], Done (frame_with ((codes "literal", uint64) ∷ []) ((number 18446744073709551615 ∷ []) ∷ []))) ∷
        (five ∷ a ∷ [], Done (frame_with ((codes "literal", int32) ∷ (codes "a", int8) ∷ []) [])) ∷
        (cast_as Strict int8 two_hundred ∷ [], Fault) ∷ []) }
    ensures filters { Gives (λ predicate. source_meaning [] (table ∷ []) (keep predicate (scan schema_ab))) (
        (less five a, Done (frame_with schema_ab ((number 100 ∷ number 200 ∷ []) ∷ []))) ∷
        (less one two, Done table) ∷
        (less two one, Done (frame_with schema_ab [])) ∷ []) }
{}
