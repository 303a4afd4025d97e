//! Operators on nulls, texts and times: types, refusals, values and meanings.

ghost use Rattle.std.specs.Prelude.{◌≡◌, [], ◌∷◌, pos, codes, true, false};
ghost use Rattle.plan_types.specs.Types.{NullType, Truth, TextType, DateType, TimeType, DatetimeType, DurationType, Untyped};
ghost use Rattle.plan_types.specs.Outcomes.{Done, Stuck};
ghost use Rattle.plan_types.specs.Frames.{empty_frame};
ghost use Rattle.plan_types.specs.declared.dtype.CastOptions.TheVariants.{NonStrict};
ghost use Rattle.plan_types.specs.declared.dtype.TimeUnit.TheVariants.{Nanoseconds, Milliseconds};
ghost use Rattle.plan_types.specs.declared.error.ErrorKind.TheVariants.{SchemaMismatch, InvalidOperation};
ghost use Rattle.plan_dsl.specs.declared.operator.Operator.TheVariants.{Eq, Lt, Plus};
ghost use Rattle.plan_dsl.specs.Operators.{operator_value};
ghost use Rattle.plan_dsl.specs.Trees.{node, no_more};
ghost use Rattle.plan_dsl.specs.Ops.{LiteralOp};
ghost use Rattle.plan_dsl.specs.Typing.{typing};
ghost use Rattle.plan_dsl.specs.Meaning.{meaning};
ghost use Rattle.plan_dsl.specs.Strictness.{CanBecome, is_strict};
ghost use Rattle.plan_dsl.specs.Samples.{Mean, Run, HasLiterals, AreOperands, Gives, GivesAll, GivesOfTwo, Take, Refuse, RefuseCasts, Compute, ComputeEach, comparisons, both_as, taken, int8, int32, int64, uint32, uint64, moment, span, times, no_times, null, yes, no, number, negative, text, a, b, d, m, n, s, x, literal, typed_literal, sum, equal, less, cast_as, of_one, means, runs, alone, beside, days_and_moments, texts_and_truths};

/// Spans are added to spans and to moments, in the coarser of the two units. No other sum has a time in it.
pub fn types_of_sums_of_times()
    ensures spans { Take (Plus ∷ []) (
        (span, span, both_as span span) ∷
        (DurationType Nanoseconds, DurationType Milliseconds, both_as (DurationType Milliseconds) (DurationType Milliseconds)) ∷
        (DurationType Milliseconds, span, both_as (DurationType Milliseconds) (DurationType Milliseconds)) ∷ []) }
    ensures moment_first { Take (Plus ∷ []) (
        (moment, span, taken moment span moment) ∷
        (moment, DurationType Milliseconds, taken (DatetimeType Milliseconds) (DurationType Milliseconds) (DatetimeType Milliseconds)) ∷
        (DatetimeType Milliseconds, DurationType Nanoseconds, taken (DatetimeType Milliseconds) (DurationType Milliseconds) (DatetimeType Milliseconds)) ∷ []) }
    ensures span_first { Take (Plus ∷ []) (
        (DurationType Nanoseconds, DatetimeType Nanoseconds, taken (DurationType Nanoseconds) (DatetimeType Nanoseconds) (DatetimeType Nanoseconds)) ∷
        (DurationType Nanoseconds, moment, taken span moment moment) ∷
        (DurationType Milliseconds, moment, taken (DurationType Milliseconds) (DatetimeType Milliseconds) (DatetimeType Milliseconds)) ∷ []) }
    ensures refused { Refuse (Plus ∷ []) InvalidOperation (
        (times, no_times) ∷ (no_times, times) ∷ (DateType ∷ TimeType ∷ [], times) ∷
        (moment ∷ [], DateType ∷ TimeType ∷ moment ∷ []) ∷ (span ∷ [], DateType ∷ TimeType ∷ []) ∷ []) }
{}

/// A text is joined to texts, truth values and nulls, and to nothing else. Null is of the type of what stands beside it, and a
/// number without a type beside it has the one that it has alone.
pub fn types_of_sums_with_texts_and_nulls()
    ensures texts { let joined = both_as TextType TextType in
        Take (Plus ∷ []) (
        (TextType, TextType, joined) ∷ (TextType, Truth, joined) ∷ (Truth, TextType, joined) ∷ (TextType, NullType, joined) ∷ (NullType, TextType, joined) ∷ []) }
    ensures texts_and_numbers { let numbers = int8 ∷ int64 ∷ uint64 ∷ Untyped (pos 1) ∷ [] in
        Refuse (Plus ∷ []) InvalidOperation ((TextType ∷ [], numbers) ∷ (numbers, TextType ∷ []) ∷ []) }
    ensures nulls { Take (Plus ∷ []) (
        (NullType, NullType, both_as NullType NullType) ∷ (NullType, int8, both_as int8 int8) ∷ (uint64, NullType, both_as uint64 uint64) ∷
        (NullType, Truth, both_as Truth uint32) ∷ (Truth, NullType, both_as Truth uint32) ∷
        (NullType, Untyped (pos 5), both_as int32 int32) ∷ (Untyped (pos 2147483648), NullType, both_as int64 int64) ∷ []) }
    ensures past_every_type { Refuse (Plus ∷ []) InvalidOperation ((NullType ∷ [], Untyped (pos 18446744073709551616) ∷ []) ∷ []) }
{}

/// A comparison takes texts, times and nulls to their common type too.
pub fn types_of_comparisons_of_times()
    ensures times { Take comparisons (
        (DateType, DateType, both_as DateType Truth) ∷ (DateType, moment, both_as moment Truth) ∷ (TimeType, TimeType, both_as TimeType Truth) ∷
        (DatetimeType Nanoseconds, DateType, both_as (DatetimeType Nanoseconds) Truth) ∷
        (DatetimeType Nanoseconds, DatetimeType Milliseconds, both_as (DatetimeType Milliseconds) Truth) ∷
        (span, DurationType Nanoseconds, both_as span Truth) ∷ []) }
    ensures nulls { Take comparisons (
        (NullType, DateType, both_as DateType Truth) ∷ (NullType, TimeType, both_as TimeType Truth) ∷
        (NullType, moment, both_as moment Truth) ∷ (moment, NullType, both_as moment Truth) ∷ (NullType, span, both_as span Truth) ∷
        (NullType, NullType, both_as NullType Truth) ∷ (NullType, Untyped (pos 5), both_as int32 Truth) ∷ []) }
    ensures texts { Take comparisons (
        (TextType, TextType, both_as TextType Truth) ∷ (TextType, Truth, both_as TextType Truth) ∷
        (Truth, TextType, both_as TextType Truth) ∷ (TextType, NullType, both_as TextType Truth) ∷ []) }
{}

/// A text isn't compared to a number or a time, and times of other kinds have no common type.
pub fn refused_comparisons()
    ensures texts { let others = int8 ∷ int32 ∷ uint64 ∷ Untyped (pos 1) ∷ times in
        Refuse comparisons InvalidOperation ((TextType ∷ [], others) ∷ (others, TextType ∷ []) ∷ []) }
    ensures times_and_numbers { let others = Truth ∷ int64 ∷ Untyped (pos 1) ∷ [] in
        Refuse comparisons SchemaMismatch ((times, others) ∷ (others, times) ∷ []) }
    ensures times { Refuse comparisons SchemaMismatch (
        (DateType ∷ [], TimeType ∷ span ∷ []) ∷
        (TimeType ∷ [], DateType ∷ moment ∷ DatetimeType Nanoseconds ∷ span ∷ DurationType Nanoseconds ∷ []) ∷
        (moment ∷ [], TimeType ∷ span ∷ []) ∷
        (span ∷ [], DateType ∷ TimeType ∷ moment ∷ []) ∷ []) }
{}

/// Texts are in the order of their bytes, and a text comes before those that it begins.
pub fn comparisons_of_texts()
    ensures by_letters { Compute comparisons Truth Truth (
        (text "a", text "ab", no ∷ yes ∷ yes ∷ yes ∷ no ∷ no ∷ []) ∷ (text "b", text "ab", no ∷ yes ∷ no ∷ no ∷ yes ∷ yes ∷ []) ∷
        (text "ab", text "ab", yes ∷ no ∷ no ∷ yes ∷ no ∷ yes ∷ []) ∷ (text "", text "", yes ∷ no ∷ no ∷ yes ∷ no ∷ yes ∷ []) ∷
        (text "", text "a", no ∷ yes ∷ yes ∷ yes ∷ no ∷ no ∷ []) ∷ (text "B", text "a", no ∷ yes ∷ yes ∷ yes ∷ no ∷ no ∷ []) ∷
        (text "10", text "9", no ∷ yes ∷ yes ∷ yes ∷ no ∷ no ∷ []) ∷ (text "a", null, null ∷ null ∷ null ∷ null ∷ null ∷ null ∷ []) ∷ []) }
    ensures by_bytes { Compute comparisons Truth Truth (
        (text "z", text "é", no ∷ yes ∷ yes ∷ yes ∷ no ∷ no ∷ []) ∷
        (text "😀", text "é", no ∷ yes ∷ no ∷ no ∷ yes ∷ yes ∷ []) ∷ []) }
{}

/// Joined texts stand one after the other. Sums of spans and moments wrap around in 64 bits with a sign. A sum with null is null.
pub fn sums_of_texts_and_times()
    ensures texts { GivesOfTwo (operator_value Plus TextType TextType) (
        (text "ab", text "c", text "abc") ∷ (text "", text "c", text "c") ∷ (text "ab", text "", text "ab") ∷
        (text "ab", null, null) ∷ (null, text "ab", null) ∷ []) }
    ensures nulls { operator_value Plus NullType NullType null null ≡ null }
    ensures spans { ComputeEach Plus (
        (DurationType Milliseconds, DurationType Milliseconds, number 5, negative 7, negative 2) ∷
        (DurationType Milliseconds, DurationType Milliseconds, number 5, null, null) ∷
        (DurationType Nanoseconds, DurationType Nanoseconds, number 9223372036854775807, number 1, negative 9223372036854775808) ∷
        (span, span, negative 9223372036854775808, negative 1, number 9223372036854775807) ∷ []) }
    ensures moments { ComputeEach Plus (
        (moment, moment, number 86400000000, number 1, number 86400000001) ∷
        (DatetimeType Milliseconds, DatetimeType Milliseconds, null, number 5, null) ∷
        (DatetimeType Nanoseconds, DatetimeType Nanoseconds, number 9223372036854775807, number 9223372036854775807, negative 2) ∷ []) }
{}

/// Days are compared to moments in the moments' unit, and a day that has no place there is null. Moments and spans are
/// compared and added in the coarser unit, to which the finer is rounded down.
pub fn meanings_on_times()
    ensures days_and_moments { Gives (means days_and_moments) (
        (equal d m, Done (yes ∷ no ∷ no ∷ null ∷ null ∷ [])) ∷
        (less d m, Done (no ∷ yes ∷ no ∷ null ∷ null ∷ [])) ∷
        (less m d, Done (no ∷ no ∷ yes ∷ null ∷ null ∷ [])) ∷ []) }
    ensures day_without_a_place { Mean Eq DateType (DatetimeType Nanoseconds) (
        (number 200000, number 0, null) ∷ (number 106751, number 9223286400000000000, yes) ∷ []) }
    ensures moments { Mean Eq (DatetimeType Nanoseconds) (DatetimeType Milliseconds) (
        (number 1999999, number 1, yes) ∷ (number 2000000, number 1, no) ∷ (negative 1, negative 1, yes) ∷ []) }
    ensures spans { Mean Lt span (DurationType Nanoseconds) ((number 1, number 1999, no) ∷ (number 1, number 2000, yes) ∷ []) }
    ensures sums_of_spans { Mean Plus (DurationType Nanoseconds) (DurationType Milliseconds) (
        (number 1999999, number 2, number 3) ∷ (negative 1, number 2, number 1) ∷ (null, number 2, null) ∷ (number 1, null, null) ∷ []) }
    ensures moment_and_span { Mean Plus (DatetimeType Milliseconds) (DurationType Nanoseconds) (
        (number 100, number 5000000, number 105) ∷ (number 100, negative 1, number 99) ∷ (null, number 0, null) ∷ []) }
    ensures span_and_moment { Mean Plus (DurationType Milliseconds) moment ((number 3, number 7000, number 10) ∷ (negative 3, negative 1, negative 4) ∷ []) }
    ensures past_the_greatest { Mean Plus moment span ((number 9223372036854775807, number 2, negative 9223372036854775807) ∷ []) }
{}

/// A truth value beside a text is its text, and null beside anything is null.
pub fn meanings_on_texts_and_nulls()
    ensures texts { Gives (means texts_and_truths) (
        (sum x b, Done (text "truetrue" ∷ text "is false" ∷ null ∷ null ∷ [])) ∷
        (sum b x, Done (text "truetrue" ∷ text "falseis " ∷ null ∷ null ∷ [])) ∷
        (equal x b, Done (yes ∷ no ∷ null ∷ null ∷ [])) ∷ []) }
    ensures nulls { GivesAll (means texts_and_truths) (Done (null ∷ null ∷ null ∷ null ∷ [])) (
        sum x n ∷ equal n b ∷ sum n b ∷ equal n n ∷ sum n n ∷ []) }
    ensures untyped { means (alone NullType (null ∷ [])) (sum a (literal (pos 1))) ≡ Done (null ∷ []) }
{}

/// As they are written they run only over the types to which they are taken, of which there may be two.
pub fn texts_and_times_run_as_written()
    ensures days_and_moments { Gives (runs days_and_moments) (
        (equal d m, Stuck) ∷
        (equal (cast_as NonStrict moment d) m, Done (yes ∷ no ∷ no ∷ null ∷ null ∷ [])) ∷ []) }
    ensures texts_and_truths { Gives (runs texts_and_truths) ((sum x b, Stuck) ∷ (sum n b, Stuck) ∷ (sum n n, Done (null ∷ null ∷ null ∷ null ∷ [])) ∷ []) }
    ensures texts { Run Plus TextType TextType ((text "a", text "b", text "ab") ∷ (text "b", null, null) ∷ []) }
    ensures moment_and_span { Run Plus moment span ((number 5, number 2, number 7) ∷ (null, number 2, null) ∷ []) }
    ensures two_units { GivesAll (λ frame. runs frame (sum a b)) Stuck (
        beside moment (DurationType Milliseconds) ((number 5, number 2) ∷ []) ∷
        beside (DurationType Nanoseconds) (DurationType Milliseconds) ((number 1999999, number 2) ∷ (negative 1, number 2) ∷ (null, number 2) ∷ (number 1, null) ∷ []) ∷ []) }
{}

/// A cast is refused where there is none between the two types.
pub fn refused_casts_of_texts_and_times()
    ensures casts { RefuseCasts InvalidOperation (
        (TextType, NullType ∷ Truth ∷ times) ∷
        (Truth, NullType ∷ times) ∷
        (int32, NullType ∷ times) ∷
        (DateType, NullType ∷ Truth ∷ TextType ∷ int32 ∷ TimeType ∷ span ∷ []) ∷
        (TimeType, NullType ∷ Truth ∷ TextType ∷ DateType ∷ moment ∷ span ∷ []) ∷
        (moment, NullType ∷ Truth ∷ TextType ∷ TimeType ∷ span ∷ []) ∷
        (span, NullType ∷ Truth ∷ TextType ∷ DateType ∷ TimeType ∷ moment ∷ []) ∷
        (NullType, Untyped (pos 1) ∷ []) ∷ []) }
{}

/// A literal of a text or a time has a value of its type. Null is a literal of its own type alone.
pub fn literals_of_texts_and_times()
    ensures limits { let least = negative 9223372036854775808 in
        let most = number 9223372036854775807 in
        let others = negative 9223372036854775809 ∷ number 9223372036854775808 ∷ [] in
        HasLiterals (
        (TextType, text "a" ∷ text "" ∷ [], yes ∷ number 1 ∷ null ∷ []) ∷
        (NullType, null ∷ [], text "" ∷ number 0 ∷ []) ∷
        (DateType, negative 2147483648 ∷ number 2147483647 ∷ [], negative 2147483649 ∷ number 2147483648 ∷ []) ∷
        (TimeType, number 0 ∷ number 86399999999999 ∷ [], negative 1 ∷ number 86400000000000 ∷ []) ∷
        (DatetimeType Milliseconds, least ∷ most ∷ [], others) ∷ (DurationType Nanoseconds, least ∷ most ∷ [], others) ∷ []) }
    ensures type_of_a_text { typing [] [] (node (LiteralOp TextType (text "a")) no_more) ≡ of_one TextType }
    ensures meaning_of_a_text { meaning [] empty_frame (node (LiteralOp TextType (text "a")) no_more) [] ≡ Done (text "a" ∷ []) }
{}

/// A cast stands round an operand of another type. A number without a type becomes a literal of a type of integers alone.
pub fn operands_of_texts_and_times()
    ensures operands { AreOperands (
        (DateType, moment, d, cast_as NonStrict moment d) ∷
        (DurationType Nanoseconds, DurationType Milliseconds, s, cast_as NonStrict (DurationType Milliseconds) s) ∷
        (DurationType Nanoseconds, DurationType Nanoseconds, s, s) ∷
        (NullType, TextType, n, cast_as NonStrict TextType n) ∷
        (Untyped (pos 5), int32, literal (pos 5), typed_literal int32 (pos 5)) ∷
        (Untyped (pos 2147483648), DateType, literal (pos 2147483648), cast_as NonStrict DateType (typed_literal int64 (pos 2147483648))) ∷ []) }
    ensures other_types { CanBecome DateType moment × CanBecome NullType TextType × CanBecome Truth TextType }
    ensures no_types { ¬ (CanBecome TextType Truth) × ¬ (CanBecome moment span) × ¬ (CanBecome (Untyped (pos 5)) DateType) }
{}

/// A sum of a moment and a span is strict where they have one unit.
pub fn strict_sums_of_times()
    ensures units { Gives (λ type. is_strict [] ((codes "m", moment) ∷ (codes "s", type) ∷ []) (sum m s)) ((span, true) ∷ (DurationType Nanoseconds, false) ∷ []) }
{}
