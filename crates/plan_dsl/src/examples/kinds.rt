//! Kinds of expression, each by itself: names, types and values.

ghost use Rattle.std.specs.Prelude.{◌≡◌, List, [], ◌∷◌, pos, neg_ℤ, codes, true, false, Some, Result, Ok, Err};
ghost use Rattle.plan_types.specs.Types.{Ty, NullType, TextType, Untyped};
ghost use Rattle.plan_types.specs.Outcomes.{Done, Stuck};
ghost use Rattle.plan_types.specs.Casts.{wrapped};
ghost use Rattle.plan_types.specs.declared.dtype.CastOptions.TheVariants.{NonStrict};
ghost use Rattle.plan_types.specs.declared.error.ErrorKind.{ErrorKind};
ghost use Rattle.plan_types.specs.declared.error.ErrorKind.TheVariants.{ColumnNotFound, SchemaMismatch, InvalidOperation};
ghost use Rattle.plan_dsl.specs.Trees.{node, no_more, more};
ghost use Rattle.plan_dsl.specs.Ops.{LiteralOp, LenOp, SliceOp};
ghost use Rattle.plan_dsl.specs.Names.{name_of};
ghost use Rattle.plan_dsl.specs.Slices.{slice_start, slice_values};
ghost use Rattle.plan_dsl.specs.Typing.{Typed, Ruling, rule, typing, kinds_in};
ghost use Rattle.plan_dsl.specs.Meaning.{meaning};
ghost use Rattle.plan_dsl.specs.Strictness.{as_operands, is_strict};
ghost use Rattle.plan_dsl.specs.PlanRules.{schema_of};
ghost use Rattle.plan_dsl.specs.Samples.{Gives, GivesOfTwo, GivesAll, int8, int32, int64, uint32, uint64, null, number, text, a, b, c, count, literal, typed_literal, one, two, five, below, huge, nothing, less, sum, cast_as, slice, one_value, many_values, of_many, of_one, means, runs, alone, one_to_five, scan, schema_ab, select, table};

/// A count is one value of 32 bits without a sign, named `len`, and takes no operand. The rows that it is asked on are
/// counted, with nulls in them or not. Past 2^32 - 1 the count wraps around.
pub fn counts()
    ensures types { Gives (typing [] schema_ab) (
        (count, of_one uint32) ∷ (sum count a, of_many int64) ∷ (sum count (literal (pos 1)), of_one uint32) ∷ (node LenOp (more a no_more), Err SchemaMismatch) ∷ []) }
    ensures strict { Gives (is_strict [] schema_ab) ((count, true) ∷ (sum count count, true) ∷ (sum count b, false) ∷ []) }
    ensures schema { schema_of [] (select (count ∷ []) (scan schema_ab)) ≡ Some ((codes "len", uint32) ∷ []) }
    ensures rows { Gives (meaning [] table count) (([], Done (number 0 ∷ [])) ∷ (2 ∷ [], Done (number 1 ∷ [])) ∷ (0 ∷ 1 ∷ 0 ∷ 2 ∷ [], Done (number 4 ∷ [])) ∷ []) }
    ensures beside { means table (sum count a) ≡ Done (number 4 ∷ null ∷ number 103 ∷ []) }
    ensures runs { runs table (sum count count) ≡ Done (number 6 ∷ []) }
    ensures wrapped { Gives (wrapped uint32) ((pos 4294967295, pos 4294967295) ∷ (pos 4294967296, pos 0) ∷ (pos 4294967301, pos 5) ∷ []) }
{}

/// A slice has the name and the type of its input, and maybe another length than one, also where the input has one value.
pub fn types_of_slices()
    ensures names { Gives name_of ((slice a one two, codes "a") ∷ (slice (sum b a) a a, codes "b") ∷ (slice count a a, codes "len") ∷ (slice five a a, codes "literal") ∷ []) }
    ensures types { let text_literal = node (LiteralOp TextType (text "x")) no_more in
        Gives (typing [] schema_ab) (
        (slice a one two, of_many int8) ∷ (slice text_literal one two, of_many TextType) ∷ (slice five one two, of_many int32) ∷ (slice nothing one nothing, of_many NullType) ∷
        (slice a count (typed_literal uint64 (pos 1)), of_many int8) ∷ (slice a one nothing, of_many int8) ∷
        (slice c one two, Err ColumnNotFound) ∷ (node SliceOp (more a (more one no_more)), Err SchemaMismatch) ∷ []) }
    ensures refused { let text_literal = node (LiteralOp TextType (text "1")) no_more in
        GivesAll (typing [] schema_ab) (Err InvalidOperation) (
        slice a nothing one ∷ slice a text_literal one ∷ slice a one text_literal ∷ slice a b one ∷ slice a one b ∷ slice a one (slice one one one) ∷ slice a huge one ∷ []) }
    ensures kinds { Gives (kinds_in [] schema_ab) ((slice a one two, []) ∷ (slice a b one, InvalidOperation ∷ []) ∷ (slice c huge one, ColumnNotFound ∷ InvalidOperation ∷ []) ∷ []) }
    ensures taken { let taken : List Ty → Typed → Result Ruling ErrorKind = λ operands own. Ok (record { operands = operands; own = own }) in
        Gives (rule [] [] SliceOp) (
        (many_values int8 ∷ one_value (Untyped (pos 1)) ∷ one_value uint64 ∷ [], taken (int8 ∷ int64 ∷ int64 ∷ []) (many_values int8)) ∷
        (one_value (Untyped (pos 5)) ∷ one_value int8 ∷ one_value NullType ∷ [], taken (int32 ∷ int64 ∷ int64 ∷ []) (many_values int32)) ∷ []) }
{}

/// Offset and length are counted in 64 bits: a number without a type becomes such a literal, and another gets a cast.
pub fn operands_of_slices()
    ensures made { as_operands (int8 ∷ Untyped (pos 1) ∷ uint64 ∷ []) (int8 ∷ int64 ∷ int64 ∷ []) (more a (more one (more (typed_literal uint64 (pos 2)) no_more)))
        ≡ more a (more (typed_literal int64 (pos 1)) (more (cast_as NonStrict int64 (typed_literal uint64 (pos 2))) no_more)) }
    ensures strict { let here = typed_literal int64 (pos 1) in
        Gives (is_strict [] schema_ab) (
        (slice a here (cast_as NonStrict int64 nothing), true) ∷ (slice a one here, false) ∷ (slice a here (typed_literal uint64 (pos 1)), false) ∷ (slice five here here, false) ∷ []) }
{}

/// An offset below 0 counts from the end, and what lies outside isn't there. A null offset is 0, and a null length means all.
pub fn values_of_slices()
    ensures starts { GivesOfTwo slice_start ((pos 1, 5, pos 1) ∷ (pos 9, 5, pos 9) ∷ (neg_ℤ (pos 2), 5, pos 3) ∷ (neg_ℤ (pos 7), 5, neg_ℤ (pos 2)) ∷ (neg_ℤ (pos 1), 0, neg_ℤ (pos 1)) ∷ []) }
    ensures places { GivesOfTwo (λ offset size. means one_to_five (slice a offset size)) (
        (literal (pos 0), one, Done (number 1 ∷ [])) ∷ (one, two, Done (number 2 ∷ number 3 ∷ [])) ∷
        (literal (neg_ℤ (pos 2)), one, Done (number 4 ∷ [])) ∷ (literal (neg_ℤ (pos 2)), five, Done (number 4 ∷ number 5 ∷ [])) ∷
        (literal (neg_ℤ (pos 7)), literal (pos 3), Done (number 1 ∷ [])) ∷ (literal (neg_ℤ (pos 7)), two, Done []) ∷
        (two, five, Done (number 3 ∷ number 4 ∷ number 5 ∷ [])) ∷ (five, one, Done []) ∷ (literal (pos 9), one, Done []) ∷
        (one, literal (pos 0), Done []) ∷ (two, below, Done []) ∷ (below, below, Done []) ∷
        (two, nothing, Done (number 3 ∷ number 4 ∷ number 5 ∷ [])) ∷ (literal (neg_ℤ (pos 2)), nothing, Done (number 4 ∷ number 5 ∷ [])) ∷
        (literal (neg_ℤ (pos 7)), nothing, Done (number 1 ∷ number 2 ∷ number 3 ∷ number 4 ∷ number 5 ∷ [])) ∷
        (cast_as NonStrict int8 nothing, two, Done (number 1 ∷ number 2 ∷ [])) ∷ []) }
    ensures at_the_ends_of_int64 { let past = literal (pos 9223372036854775808) in
        let least = literal (neg_ℤ (pos 9223372036854775808)) in
        let greatest = literal (pos 9223372036854775807) in
        GivesOfTwo (λ offset size. means one_to_five (slice a offset size)) (
        (past, two, Done (number 1 ∷ number 2 ∷ [])) ∷ (typed_literal uint64 (pos 9223372036854775808), two, Done (number 1 ∷ number 2 ∷ [])) ∷
        (greatest, two, Done []) ∷ (two, past, Done (number 3 ∷ number 4 ∷ number 5 ∷ [])) ∷ (greatest, greatest, Done []) ∷ (one, least, Done []) ∷
        (least, greatest, Done (number 1 ∷ number 2 ∷ number 3 ∷ number 4 ∷ [])) ∷ (least, nothing, Done (number 1 ∷ number 2 ∷ number 3 ∷ number 4 ∷ number 5 ∷ [])) ∷ []) }
    ensures no_rows { GivesOfTwo (λ offset size. means (alone int8 []) (slice a offset size)) ((literal (pos 0), one, Done []) ∷ (below, one, Done []) ∷ (below, nothing, Done []) ∷ []) }
    ensures one_value { Gives (λ tree. meaning [] one_to_five tree []) (
        (slice five (literal (pos 0)) one, Done (number 5 ∷ [])) ∷ (slice five one one, Done []) ∷ (slice five below one, Done (number 5 ∷ [])) ∷ []) }
    ensures rows { meaning [] table (slice a one two) (2 ∷ 1 ∷ 0 ∷ []) ≡ Done (null ∷ number 1 ∷ []) }
    ensures runs { Gives (runs one_to_five) ((slice a (typed_literal int64 (pos 1)) (typed_literal int64 (pos 2)), Done (number 2 ∷ number 3 ∷ [])) ∷ (slice a one two, Stuck) ∷ []) }
    ensures other_columns { GivesOfTwo (slice_values (number 1 ∷ [])) (([], number 1 ∷ [], Stuck) ∷ (number 0 ∷ [], [], Stuck) ∷ (number 0 ∷ number 1 ∷ [], number 1 ∷ [], Stuck) ∷ []) }
{}
