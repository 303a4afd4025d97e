//! Ternaries: names, types and values.

ghost use Rattle.std.specs.Prelude.{◌≡◌, List, [], ◌∷◌, pos, codes, true, false, Some, None, Result, Ok, Err};
ghost use Rattle.plan_types.specs.Types.{Ty, NullType, Truth, TextType, ListType, Untyped};
ghost use Rattle.plan_types.specs.Outcomes.{Done, Fault, Stuck};
ghost use Rattle.plan_types.specs.Schemas.{Columns};
ghost use Rattle.plan_types.specs.declared.dtype.CastOptions.TheVariants.{Strict, NonStrict};
ghost use Rattle.plan_types.specs.declared.error.ErrorKind.{ErrorKind};
ghost use Rattle.plan_types.specs.declared.error.ErrorKind.TheVariants.{ColumnNotFound, SchemaMismatch, InvalidOperation};
ghost use Rattle.plan_dsl.specs.declared.signature.Sharing.TheVariants.{Alone, WithSecond, WithThird};
ghost use Rattle.plan_dsl.specs.FunctionValues.{ternary_value};
ghost use Rattle.plan_dsl.specs.Names.{alias_label, column_label, label_of, literal_label};
ghost use Rattle.plan_dsl.specs.Ops.{LiteralOp, TernaryOp};
ghost use Rattle.plan_dsl.specs.Strictness.{is_strict};
ghost use Rattle.plan_dsl.specs.Trees.{node, no_more, more};
ghost use Rattle.plan_dsl.specs.Typing.{Typed, Ruling, kinds_in, rule, shared_at, shared_type, taken_by, typing};
ghost use Rattle.plan_dsl.specs.Signatures.{asks, asks_one};
ghost use Rattle.plan_dsl.specs.declared.signature.Ask.TheVariants.{Any, Boolean};
ghost use Rattle.plan_types.specs.Casts.{Converted, Gives as GivesValue, Fails};
ghost use Rattle.plan_dsl.specs.Samples.{Gives, GivesOfTwo, GivesAll, int8, int16, int32, int64, uint32, uint64, null, yes, no, number, negative, text, a, b, c, t, u, count, one, two, five, wide, huge, nothing, equal, cast_as, slice, alias, ternary, one_value, many_values, of_many, of_one, means, runs, alone, frame_with, four_columns, truths_and_numbers};

/// A ternary has the name of what it gives where its predicate is true.
pub fn names_of_ternaries()
    ensures labels { Gives label_of (
        (ternary t a b, column_label (codes "a")) ∷ (ternary t one b, literal_label (codes "literal")) ∷ (ternary t (alias "x" a) b, alias_label (codes "x")) ∷
        (ternary (alias "x" t) a (alias "y" b), column_label (codes "a")) ∷ []) }
{}

/// The predicate is of truth values or null. The other two are taken to their common type, which is the ternary's, and a
/// number without a type gets one beside the other. There may be many values where any operand has many.
pub fn types_of_ternaries()
    ensures types { let text_literal = node (LiteralOp TextType (text "x")) no_more in
        Gives (typing [] four_columns) (
        (ternary t a b, of_many int64) ∷ (ternary t b a, of_many int64) ∷ (ternary t a a, of_many int8) ∷ (ternary t a one, of_many int8) ∷ (ternary t one a, of_many int8) ∷
        (ternary t wide a, of_many int16) ∷ (ternary t one two, of_many int32) ∷ (ternary (equal one one) one two, of_one int32) ∷
        (ternary (equal one one) a two, of_many int8) ∷ (ternary (equal one one) two a, of_many int8) ∷ (ternary (equal a one) one two, of_many int32) ∷
        (ternary t nothing a, of_many int8) ∷ (ternary t nothing nothing, of_many NullType) ∷ (ternary t a text_literal, of_many TextType) ∷ (ternary t five text_literal, of_many TextType) ∷
        (ternary t t a, of_many int8) ∷ (ternary nothing count two, of_one uint32) ∷ []) }
    ensures refused { let text_literal = node (LiteralOp TextType (text "x")) no_more in
        Gives (typing [] four_columns) (
        (ternary t a u, Err SchemaMismatch) ∷ (ternary a a b, Err InvalidOperation) ∷ (ternary one a b, Err InvalidOperation) ∷ (ternary text_literal a b, Err InvalidOperation) ∷
        (ternary t huge a, Err InvalidOperation) ∷ (ternary t a huge, Err InvalidOperation) ∷ (ternary huge a b, Err InvalidOperation) ∷ (ternary a a u, Err SchemaMismatch) ∷
        (ternary c a b, Err ColumnNotFound) ∷ (ternary t a c, Err ColumnNotFound) ∷ (node TernaryOp (more a (more t no_more)), Err SchemaMismatch) ∷ (node TernaryOp no_more, Err SchemaMismatch) ∷ []) }
    ensures kinds { Gives (kinds_in [] four_columns) ((ternary t a b, []) ∷ (ternary c a u, ColumnNotFound ∷ []) ∷ (ternary c huge b, InvalidOperation ∷ ColumnNotFound ∷ []) ∷ (ternary a a b, InvalidOperation ∷ []) ∷ []) }
    ensures taken { let taken : List Ty → Typed → Result Ruling ErrorKind = λ operands own. Ok (record { operands = operands; own = own }) in
        Gives (rule [] [] TernaryOp) (
        (one_value (Untyped (pos 1)) ∷ many_values NullType ∷ one_value int8 ∷ [], taken (int8 ∷ Truth ∷ int8 ∷ []) (many_values int8)) ∷
        (one_value int8 ∷ one_value Truth ∷ one_value (Untyped (pos 300)) ∷ [], taken (int16 ∷ Truth ∷ int16 ∷ []) (one_value int16)) ∷
        (many_values (ListType int8) ∷ one_value Truth ∷ one_value (ListType NullType) ∷ [], taken (ListType int8 ∷ Truth ∷ ListType int8 ∷ []) (many_values (ListType int8))) ∷ []) }
    ensures strict { Gives (is_strict [] four_columns) (
        (ternary t a a, true) ∷ (ternary t a b, false) ∷ (ternary t (cast_as NonStrict int64 a) b, true) ∷ (ternary nothing a a, false) ∷ (ternary t a one, false) ∷ []) }
{}

/// Two operands share a type: the first, and the second or the third of the kind. Others are taken by what is asked.
pub fn shared_types()
    ensures types { GivesOfTwo shared_type (
        (Alone, many_values int8 ∷ many_values int16 ∷ [], Ok NullType) ∷ (Alone, [], Ok NullType) ∷
        (WithSecond, many_values int8 ∷ one_value int16 ∷ [], Ok int16) ∷ (WithSecond, one_value (Untyped (pos 5)) ∷ many_values int8 ∷ [], Ok int8) ∷
        (WithSecond, many_values int8 ∷ many_values uint64 ∷ [], Err SchemaMismatch) ∷ (WithSecond, one_value (Untyped (pos 18446744073709551616)) ∷ many_values int8 ∷ [], Err InvalidOperation) ∷
        (WithThird, many_values int8 ∷ many_values TextType ∷ one_value int32 ∷ [], Ok int32) ∷
        (WithSecond, many_values int8 ∷ [], Err SchemaMismatch) ∷ (WithThird, many_values int8 ∷ many_values int8 ∷ [], Err SchemaMismatch) ∷ []) }
    ensures places { GivesOfTwo (λ sharing place. shared_at sharing int8 place) (
        (Alone, 0, None) ∷ (Alone, 1, None) ∷ (WithSecond, 0, Some int8) ∷ (WithSecond, 1, Some int8) ∷ (WithSecond, 2, None) ∷
        (WithThird, 0, Some int8) ∷ (WithThird, 1, None) ∷ (WithThird, 2, Some int8) ∷ (WithThird, 3, None) ∷ []) }
    ensures taken { GivesOfTwo (λ asked operand. taken_by (Some int16) asked operand) (
        (asks Any, many_values int8, Some int16) ∷ (asks Any, one_value (Untyped (pos 5)), Some int16) ∷ (asks_one Any, many_values int8, None) ∷ (asks_one Any, one_value int8, Some int16) ∷ []) }
{}

/// Where the predicate is null the falsy value stands, as where it is false. A fault of an operand is one of the ternary,
/// also where none of its values is taken.
pub fn values_of_ternaries()
    ensures rows { Gives ternary_value (
        (number 1 ∷ yes ∷ number 2 ∷ [], GivesValue (number 1)) ∷ (number 1 ∷ no ∷ number 2 ∷ [], GivesValue (number 2)) ∷ (number 1 ∷ null ∷ number 2 ∷ [], GivesValue (number 2)) ∷
        (null ∷ yes ∷ number 2 ∷ [], GivesValue null) ∷ (number 1 ∷ yes ∷ [], Fails) ∷ []) }
    ensures values { Gives (means truths_and_numbers) (
        (ternary t a five, Done (number 1 ∷ number 2 ∷ number 5 ∷ number 5 ∷ number 5 ∷ number 127 ∷ [])) ∷
        (ternary t five nothing, Done (number 5 ∷ number 5 ∷ null ∷ null ∷ null ∷ number 5 ∷ [])) ∷
        (ternary t count a, Done (number 6 ∷ number 6 ∷ number 2 ∷ negative 1 ∷ number 1 ∷ number 6 ∷ [])) ∷
        (ternary (equal one one) a five, Done (number 1 ∷ number 2 ∷ number 2 ∷ negative 1 ∷ number 1 ∷ number 127 ∷ [])) ∷
        (ternary (equal one two) a five, Done (number 5 ∷ number 5 ∷ number 5 ∷ number 5 ∷ number 5 ∷ number 5 ∷ [])) ∷
        (ternary (equal one two) two five, Done (number 5 ∷ [])) ∷ (ternary nothing two five, Done (number 5 ∷ [])) ∷ []) }
    ensures lengths { Gives (means truths_and_numbers) ((ternary t (slice a one two) five, Fault) ∷ (ternary (equal one one) (slice a one two) five, Done (number 2 ∷ number 2 ∷ [])) ∷ (ternary t (slice a one one) a, Done (number 2 ∷ number 2 ∷ number 2 ∷ negative 1 ∷ number 1 ∷ number 2 ∷ [])) ∷ []) }
    ensures faults { let bad = cast_as Strict int8 (node (LiteralOp TextType (text "x")) no_more) in
        Gives (means truths_and_numbers) ((ternary t a bad, Fault) ∷ (ternary t bad a, Fault) ∷ (ternary (equal one one) a bad, Fault) ∷ (ternary (cast_as Strict Truth bad) a a, Fault) ∷ []) }
    ensures no_rows { let columns : Columns = (codes "t", Truth) ∷ (codes "a", int8) ∷ [] in
        Gives (means (frame_with columns [])) ((ternary t a five, Done []) ∷ (ternary t one two, Done []) ∷ (ternary (equal one one) one two, Done (number 1 ∷ [])) ∷ []) }
    ensures wide { means (alone int8 (number 1 ∷ null ∷ [])) (ternary (equal a one) a wide) ≡ Done (number 1 ∷ number 300 ∷ []) }
    ensures runs { Gives (runs truths_and_numbers) ((ternary t a a, Done (number 1 ∷ number 2 ∷ number 2 ∷ negative 1 ∷ number 1 ∷ number 127 ∷ [])) ∷ (ternary t a five, Stuck) ∷ []) }
{}
