//! Worked examples on texts and on values: ranges of types, which values fit a type, and when two are one.

ghost use Rattle.std.specs.Prelude.{◌≡◌, ℤ, ◌+ℤ◌, ◌-ℤ◌, ◌++◌, List, [], ◌∷◌, String, codes, pos, map, string_bytes, true, false};
ghost use Rattle.std.specs.Global.{Global};
ghost use Rattle.std.specs.List.{filter};
ghost use Rattle.plan_types.specs.Texts.{kept_bytes};
ghost use Rattle.plan_types.specs.declared.text.Kept.TheVariants.{Short, Long};
ghost use Rattle.plan_types.specs.Types.{Ty, NullType, Truth, TextType, DateType, TimeType, DatetimeType, DurationType, ListType, Untyped};
ghost use Rattle.plan_types.specs.Values.{TruthValue, IntValue, in_range, fits, all_fit, same_value};
ghost use Rattle.plan_types.specs.Samples.{Maps, MapsPairs, distinct_values, int16, int32, int64, int8, integers, list_value, list_values, minus, negative, no, null, number, signed_integers, struct_a, struct_ab, struct_none, struct_value, text, text_values, times, types, uint16, uint32, uint64, uint8, unsigned_integers, yes};
ghost use Rattle.plan_types.specs.WholeNumbers.{whole_of, high_of, low_of};
ghost use Rattle.plan_types.specs.declared.dtype.TimeUnit.{TimeUnit};

/// A short text has the bytes that were put in, and not those of the room behind them; a long one those of its memory.
pub fn bytes_of_texts()
    ensures short { kept_bytes (Short (record { bytes = codes "ab"; spare = codes "cde" })) ≡ codes "ab" }
    ensures long { (text : String Global) → string_bytes text ≡ codes "ab" → kept_bytes (Long text) ≡ codes "ab" }
{}

/// Of a number in two halves the high one has the sign, as in 128 bits.
pub fn numbers_in_two_halves()
    ensures small { whole_of 0 5 ≡ pos 5 }
    ensures past_a_half { whole_of 1 0 ≡ pos 18446744073709551616 }
    ensures ends { whole_of 9223372036854775807 18446744073709551615 ≡ pos 170141183460469231731687303715884105727 }
    ensures below { whole_of 9223372036854775808 0 ≡ minus 170141183460469231731687303715884105728 }
    ensures minus_one { whole_of 18446744073709551615 18446744073709551615 ≡ minus 1 }
    ensures high { high_of (minus 1) ≡ 18446744073709551615 }
    ensures low { low_of (pos 18446744073709551621) ≡ 5 }
{}

/// The first and the last number of a type are in its range, and the numbers beside them aren't. Days have the range of
/// Int32, nanoseconds of a day end before midnight, and moments and spans have the range of Int64 in each unit.
pub fn ranges_of_types()
    ensures ends { (unit : TimeUnit) → let ends : List (Ty × ℤ × ℤ) = (int8, minus 128, pos 127) ∷ (int16, minus 32768, pos 32767) ∷ (int32, minus 2147483648, pos 2147483647)
        ∷ (int64, minus 9223372036854775808, pos 9223372036854775807) ∷ (uint8, pos 0, pos 255) ∷ (uint16, pos 0, pos 65535) ∷ (uint32, pos 0, pos 4294967295)
        ∷ (uint64, pos 0, pos 18446744073709551615) ∷ (DateType, minus 2147483648, pos 2147483647) ∷ (TimeType, pos 0, pos 86399999999999)
        ∷ (DatetimeType unit, minus 9223372036854775808, pos 9223372036854775807) ∷ (DurationType unit, minus 9223372036854775808, pos 9223372036854775807) ∷ [] in
        map (λ c. map (in_range c.0) ((c.1 -ℤ pos 1) ∷ c.1 ∷ c.2 ∷ (c.2 +ℤ pos 1) ∷ [])) ends ≡ map (λ c. false ∷ true ∷ true ∷ false ∷ []) ends }
    ensures zero { (unit : TimeUnit) → filter (λ type. in_range type (pos 0)) (types unit) ≡ integers ++ times unit }
{}

/// Null fits every type, a truth value and a text their own type alone, and a number the types whose range has it.
pub fn fitting_values()
    ensures null { (unit : TimeUnit) → filter (fits null) (types unit) ≡ types unit }
    ensures truths { (unit : TimeUnit) → map (λ truth. filter (fits (TruthValue truth)) (types unit)) (true ∷ false ∷ []) ≡ (Truth ∷ []) ∷ (Truth ∷ []) ∷ [] }
    ensures texts { (unit : TimeUnit) → map (λ text. filter (fits text) (types unit)) text_values ≡ map (λ text. TextType ∷ []) text_values }
    ensures numbers { Maps (λ number. filter (fits (IntValue number)) integers) ((pos 127, integers) ∷ (pos 128, int16 ∷ int32 ∷ int64 ∷ unsigned_integers) ∷ (minus 1, signed_integers) ∷ []) }
    ensures times { (unit : TimeUnit) → Maps (λ number. filter (fits (IntValue number)) (times unit))
        ((pos 86400000000000, DatetimeType unit ∷ DurationType unit ∷ []) ∷ (minus 1, DateType ∷ DatetimeType unit ∷ DurationType unit ∷ []) ∷ []) }
    ensures no_truth { (number : ℤ) → fits (IntValue number) Truth ≡ false }
    ensures its_number { map (λ number. fits (IntValue number) (Untyped (pos 5))) (pos 4 ∷ pos 5 ∷ pos 6 ∷ []) ≡ false ∷ true ∷ false ∷ [] }
    ensures of_types { Maps (λ type. filter (λ value. fits value type) distinct_values) ((NullType, null ∷ []) ∷ (Truth, null ∷ yes ∷ no ∷ []) ∷ (TextType, null ∷ text_values)
        ∷ (ListType int8, null ∷ list_values) ∷ (ListType NullType, null ∷ list_value [] ∷ list_value (null ∷ []) ∷ []) ∷ (struct_none, null ∷ struct_value [] ∷ []) ∷ []) }
{}

/// A list fits where each of its items does, and a struct where it has a fitting part for each field. Null fits anywhere
/// inside, and a list or a struct no other type.
pub fn fitting_lists_and_structs()
    ensures last_item { Maps (λ last. fits (list_value (number 1 ∷ null ∷ last ∷ [])) (ListType int8))
        ((number 127, true) ∷ (null, true) ∷ (number 128, false) ∷ (text "1", false) ∷ (yes, false) ∷ (list_value [], false) ∷ []) }
    ensures items { MapsPairs fits ((list_value (number 128 ∷ number 1 ∷ []), ListType int8, false) ∷ (list_value (number 0 ∷ []), ListType NullType, false) ∷ []) }
    ensures types_of_a_list { filter (fits (list_value [])) (integers ++ NullType ∷ TextType ∷ struct_none ∷ Untyped (pos 1) ∷ ListType int8 ∷ []) ≡ ListType int8 ∷ [] }
    ensures no_fields { map (λ parts. fits (struct_value parts) struct_none) ([] ∷ (null ∷ []) ∷ []) ≡ true ∷ false ∷ [] }
    ensures parts { Maps (λ parts. fits (struct_value parts) (struct_ab int8 TextType)) ((number 1 ∷ text "x" ∷ [], true) ∷ (null ∷ null ∷ [], true) ∷ (text "x" ∷ number 1 ∷ [], false)
        ∷ (number 1 ∷ number 1 ∷ [], false) ∷ ([], false) ∷ (number 1 ∷ [], false) ∷ (null ∷ null ∷ null ∷ [], false) ∷ []) }
    ensures deep { Maps (λ value. fits (list_value (struct_value (list_value (value ∷ []) ∷ []) ∷ [])) (ListType (struct_a (ListType uint8)))) ((number 255, true) ∷ (null, true) ∷ (number 256, false) ∷ []) }
{}

/// A column's values fit where each does.
pub fn fitting_columns()
    ensures numbers { MapsPairs all_fit (([], int8, true) ∷ (number 1 ∷ null ∷ negative 128 ∷ [], int8, true) ∷ (null ∷ number 1 ∷ number 256 ∷ [], uint8, false) ∷ (number 256 ∷ null ∷ [], uint8, false) ∷ []) }
    ensures truths { MapsPairs all_fit ((yes ∷ null ∷ no ∷ [], Truth, true) ∷ (yes ∷ number 1 ∷ [], Truth, false) ∷ (number 1 ∷ yes ∷ [], uint64, false) ∷ []) }
    ensures texts { MapsPairs all_fit ((text "a" ∷ null ∷ text "" ∷ [], TextType, true) ∷ (text "a" ∷ number 1 ∷ [], TextType, false) ∷ []) }
    ensures lists { Maps (λ value. all_fit (list_value [] ∷ null ∷ value ∷ []) (ListType int8)) ((list_value (number 1 ∷ []), true) ∷ (number 1, false) ∷ []) }
{}

/// A value is the same as itself alone: of one kind, with the same truth, number or text, or the same values in order. A null
/// in them is the same as another.
pub fn values_that_are_one()
    ensures { map (λ value. filter (same_value value) distinct_values) distinct_values ≡ map (λ value. value ∷ []) distinct_values }
{}
