//! Differences, products and quotients of times: types, refusals and values.

ghost use Rattle.std.specs.Prelude.{[], ◌∷◌, pos, neg_ℤ};
ghost use Rattle.plan_types.specs.Types.{NullType, Truth, TextType, DateType, TimeType, DatetimeType, DurationType, ListType, Untyped};
ghost use Rattle.plan_types.specs.declared.dtype.TimeUnit.TheVariants.{Nanoseconds, Milliseconds};
ghost use Rattle.plan_types.specs.declared.error.ErrorKind.TheVariants.{SchemaMismatch, InvalidOperation};
ghost use Rattle.plan_dsl.specs.declared.operator.Operator.TheVariants.{Minus, Multiply};
ghost use Rattle.plan_dsl.specs.Samples.{Take, Refuse, ComputeEach, Mean, quotients, both_as, taken, int8, int64, uint32, uint64, moment, span, times, no_times, null, number, negative};

/// Between two times lies a span, in the coarser unit, and a span before a moment is a moment. No other times have a
/// difference, whichever side they are on.
pub fn types_of_differences_of_times()
    ensures days_and_times_of_a_day { Take (Minus ∷ []) (
        (DateType, DateType, both_as DateType (DurationType Milliseconds)) ∷
        (TimeType, TimeType, both_as TimeType (DurationType Nanoseconds)) ∷
        (DateType, moment, both_as moment span) ∷
        (DatetimeType Nanoseconds, DateType, both_as (DatetimeType Nanoseconds) (DurationType Nanoseconds)) ∷ []) }
    ensures moments { Take (Minus ∷ []) (
        (DatetimeType Nanoseconds, DatetimeType Nanoseconds, both_as (DatetimeType Nanoseconds) (DurationType Nanoseconds)) ∷
        (DatetimeType Nanoseconds, DatetimeType Milliseconds, both_as (DatetimeType Milliseconds) (DurationType Milliseconds)) ∷
        (moment, DatetimeType Nanoseconds, both_as moment span) ∷ []) }
    ensures spans { Take (Minus ∷ []) (
        (span, span, both_as span span) ∷ (DurationType Nanoseconds, span, both_as span span) ∷
        (DurationType Milliseconds, DurationType Nanoseconds, both_as (DurationType Milliseconds) (DurationType Milliseconds)) ∷ []) }
    ensures moments_and_spans { let taken = taken (DatetimeType Milliseconds) (DurationType Milliseconds) (DatetimeType Milliseconds) in
        Take (Minus ∷ []) ((DatetimeType Nanoseconds, DurationType Milliseconds, taken) ∷ (DatetimeType Milliseconds, span, taken) ∷ []) }
    ensures beside_others { Refuse (Minus ∷ []) InvalidOperation ((times, ListType DateType ∷ no_times) ∷ (ListType DateType ∷ no_times, times) ∷ []) }
    ensures times { Refuse (Minus ∷ []) InvalidOperation (
        (DateType ∷ [], TimeType ∷ span ∷ DurationType Milliseconds ∷ []) ∷
        (TimeType ∷ [], DateType ∷ moment ∷ DatetimeType Nanoseconds ∷ span ∷ DurationType Nanoseconds ∷ []) ∷
        (moment ∷ [], TimeType ∷ []) ∷
        (span ∷ [], DateType ∷ TimeType ∷ moment ∷ []) ∷ []) }
{}

/// A span is multiplied by an integer, which is taken to 64 bits with a sign. No other times have a product, and none a
/// quotient, whichever side they are on.
pub fn types_of_products_of_times()
    ensures span_first { Take (Multiply ∷ []) (
        (span, int8, taken span int64 span) ∷
        (DurationType Nanoseconds, int64, taken (DurationType Nanoseconds) int64 (DurationType Nanoseconds)) ∷
        (DurationType Nanoseconds, Untyped (pos 2), taken (DurationType Nanoseconds) int64 (DurationType Nanoseconds)) ∷ []) }
    ensures integer_first { Take (Multiply ∷ []) (
        (uint32, DurationType Milliseconds, taken int64 (DurationType Milliseconds) (DurationType Milliseconds)) ∷
        (Untyped (neg_ℤ (pos 3000000000)), DurationType Nanoseconds, taken int64 (DurationType Nanoseconds) (DurationType Nanoseconds)) ∷ []) }
    ensures widest_without_a_sign { let widest = uint64 ∷ Untyped (pos 9223372036854775808) ∷ [] in
        Refuse (Multiply ∷ []) SchemaMismatch ((DurationType Nanoseconds ∷ [], widest) ∷ (widest, DurationType Nanoseconds ∷ []) ∷ []) }
    ensures times { Refuse (Multiply ∷ []) InvalidOperation ((times, times) ∷ (span ∷ [], DurationType Milliseconds ∷ []) ∷ []) }
    ensures beside_no_integers { let others = NullType ∷ Truth ∷ TextType ∷ [] in
        Refuse (Multiply ∷ []) InvalidOperation ((times, others) ∷ (others, times) ∷ []) }
    ensures beside_integers { let integers = int8 ∷ int64 ∷ Untyped (pos 2) ∷ [] in
        let no_spans = DateType ∷ TimeType ∷ moment ∷ [] in
        Refuse (Multiply ∷ []) InvalidOperation ((no_spans, integers) ∷ (integers, no_spans) ∷ []) }
    ensures quotients { Refuse quotients InvalidOperation (
        (times, times) ∷ (times, no_times) ∷ (no_times, times) ∷ (DurationType Milliseconds ∷ [], int64 ∷ DurationType Milliseconds ∷ []) ∷ []) }
{}

/// Days have 86400000 milliseconds between them. Other times are counted in their own unit, and all wrap around in 64 bits with a sign.
pub fn differences_and_products_of_times()
    ensures days { ComputeEach Minus (
        (DateType, DurationType Milliseconds, number 10957, number 10956, number 86400000) ∷
        (DateType, DurationType Milliseconds, number 10956, number 10957, negative 86400000) ∷
        (DateType, DurationType Milliseconds, number 2147483647, negative 2147483648, number 371085174288000000) ∷
        (DateType, DurationType Milliseconds, number 1, null, null) ∷ []) }
    ensures other_differences { ComputeEach Minus (
        (TimeType, DurationType Nanoseconds, number 0, number 86399999999999, negative 86399999999999) ∷
        (DatetimeType Milliseconds, DurationType Milliseconds, number 1000, number 1, number 999) ∷
        (DatetimeType Nanoseconds, DurationType Nanoseconds, number 9223372036854775807, negative 1, negative 9223372036854775808) ∷
        (moment, moment, negative 9223372036854775808, number 1, number 9223372036854775807) ∷
        (span, span, number 5, number 7, negative 2) ∷ []) }
    ensures products { ComputeEach Multiply (
        (span, span, number 5, negative 7, negative 35) ∷
        (int64, span, number 4611686018427387904, number 2, negative 9223372036854775808) ∷
        (int64, span, number 2, null, null) ∷ []) }
{}

/// A day beside a moment is a moment in its unit, and null where it is out of range there. The integer of a product is cast.
pub fn meanings_of_differences_and_products_of_times()
    ensures day_first { Mean Minus DateType (DatetimeType Milliseconds) ((number 1, number 86400001, negative 1) ∷ (null, number 0, null) ∷ []) }
    ensures moment_first { Mean Minus moment DateType ((number 86400000005, number 1, number 5) ∷ []) }
    ensures out_of_range { Mean Minus DateType (DatetimeType Nanoseconds) ((number 200000, number 0, null) ∷ []) }
    ensures products { Mean Multiply int8 span ((negative 3, number 5, negative 15) ∷ []) }
{}
