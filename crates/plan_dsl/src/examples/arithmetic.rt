//! Arithmetic of numbers: types, refusals and values.

ghost use Rattle.std.specs.Prelude.{[], ◌∷◌, pos, replicate};
ghost use Rattle.plan_types.specs.Types.{NullType, Truth, TextType, DurationType, ListType, Untyped};
ghost use Rattle.plan_types.specs.declared.dtype.TimeUnit.TheVariants.{Milliseconds};
ghost use Rattle.plan_types.specs.declared.error.ErrorKind.TheVariants.{SchemaMismatch, InvalidOperation};
ghost use Rattle.plan_dsl.specs.Samples.{Take, Refuse, Compute, arithmetic, no_sums, quotients, both_as, int8, int16, int32, uint8, uint16, uint64, struct_type, null, number, negative};

/// Arithmetic of numbers wraps around in their type.
pub fn arithmetic_of_numbers()
    ensures with_a_sign { Compute arithmetic int8 int8 (
        (number 7, number 2, number 9 ∷ number 5 ∷ number 14 ∷ number 3 ∷ number 3 ∷ number 1 ∷ []) ∷
        (number 100, number 100, negative 56 ∷ number 0 ∷ number 16 ∷ number 1 ∷ number 1 ∷ number 0 ∷ []) ∷
        (negative 100, number 100, number 0 ∷ number 56 ∷ negative 16 ∷ negative 1 ∷ negative 1 ∷ number 0 ∷ []) ∷
        (negative 128, negative 1, number 127 ∷ negative 127 ∷ negative 128 ∷ negative 128 ∷ negative 128 ∷ number 0 ∷ []) ∷ []) }
    ensures without_a_sign { Compute arithmetic uint8 uint8 (
        (number 200, number 100, number 44 ∷ number 100 ∷ number 32 ∷ number 2 ∷ number 2 ∷ number 0 ∷ []) ∷
        (number 5, number 10, number 15 ∷ number 251 ∷ number 50 ∷ number 0 ∷ number 0 ∷ number 5 ∷ []) ∷ []) }
    ensures greatest { let most = number 18446744073709551615 in
        Compute arithmetic uint64 uint64 ((most, most, number 18446744073709551614 ∷ number 0 ∷ number 1 ∷ number 1 ∷ number 1 ∷ number 0 ∷ []) ∷ []) }
{}

/// A quotient is rounded toward 0, or down, and what the latter leaves has the sign of the divisor.
pub fn quotients_by_sign()
    ensures with_a_rest { Compute quotients int8 int8 (
        (number 7, number 2, number 3 ∷ number 3 ∷ number 1 ∷ []) ∷
        (negative 7, number 2, negative 3 ∷ negative 4 ∷ number 1 ∷ []) ∷
        (number 7, negative 2, negative 3 ∷ negative 4 ∷ negative 1 ∷ []) ∷
        (negative 7, negative 2, number 3 ∷ number 3 ∷ negative 1 ∷ []) ∷
        (negative 1, number 100, number 0 ∷ negative 1 ∷ number 99 ∷ []) ∷ []) }
    ensures without_a_rest { Compute quotients int8 int8 (
        (negative 6, number 2, negative 3 ∷ negative 3 ∷ number 0 ∷ []) ∷
        (number 6, negative 2, negative 3 ∷ negative 3 ∷ number 0 ∷ []) ∷
        (number 0, negative 5, number 0 ∷ number 0 ∷ number 0 ∷ []) ∷ []) }
{}

/// What is divided by 0 is null, and so is arithmetic with null.
pub fn arithmetic_without_a_value()
    ensures by_zero { Compute quotients int8 int8 (
        (number 7, number 0, null ∷ null ∷ null ∷ []) ∷ (number 0, number 0, null ∷ null ∷ null ∷ []) ∷ []) }
    ensures with_null { let nulls = replicate 6 null in
        Compute arithmetic int8 int8 ((null, number 2, nulls) ∷ (number 2, null, nulls) ∷ (null, number 0, nulls) ∷ []) }
    ensures two_nulls { Compute arithmetic NullType NullType ((null, null, replicate 6 null) ∷ []) }
{}

/// Numbers are taken to their common type, which the result has.
pub fn types_of_arithmetic()
    ensures common { Take arithmetic (
        (int8, int8, both_as int8 int8) ∷ (int8, int32, both_as int32 int32) ∷ (uint8, int8, both_as int16 int16) ∷
        (Truth, int8, both_as int8 int8) ∷ (NullType, uint16, both_as uint16 uint16) ∷ (NullType, NullType, both_as NullType NullType) ∷ []) }
    ensures of_untyped { Take arithmetic (
        (int8, Untyped (pos 100), both_as int8 int8) ∷
        (Untyped (pos 300), int8, both_as int16 int16) ∷
        (Untyped (pos 1), Untyped (pos 2), both_as int32 int32) ∷ []) }
    ensures without_a_common_type { Refuse arithmetic SchemaMismatch ((uint64 ∷ [], int8 ∷ []) ∷ []) }
    ensures past_every_type { Refuse arithmetic InvalidOperation ((int8 ∷ [], Untyped (pos 18446744073709551616) ∷ []) ∷ []) }
{}

/// Truth values have sums alone, texts are joined to texts, truth values and nulls, and lists and structs have no arithmetic.
pub fn refused_arithmetic()
    ensures truth_values { Refuse no_sums InvalidOperation ((Truth ∷ NullType ∷ [], Truth ∷ []) ∷ []) }
    ensures texts { Refuse no_sums InvalidOperation ((TextType ∷ [], TextType ∷ Truth ∷ []) ∷ (NullType ∷ [], TextType ∷ []) ∷ []) }
    ensures texts_beside_numbers { Refuse arithmetic InvalidOperation ((TextType ∷ [], int8 ∷ []) ∷ (Untyped (pos 1) ∷ [], TextType ∷ []) ∷ []) }
    ensures lists_and_structs { Refuse arithmetic InvalidOperation (
        (ListType int8 ∷ [], ListType int8 ∷ int8 ∷ []) ∷
        (NullType ∷ DurationType Milliseconds ∷ [], ListType int8 ∷ []) ∷
        (struct_type [] ∷ [], TextType ∷ []) ∷ []) }
{}
