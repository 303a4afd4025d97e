//! Worked examples on casts, and on the order of texts.
#![tactic(auto, unfolding(crate::proofs::OnLiterals::texts_on_literals))]

ghost use Rattle.std.specs.Prelude.{◌≡◌, ◌++◌, ◌||◌, [], ◌∷◌, pos, map, codes, Some, None, true, false};
ghost use Rattle.std.specs.List.{AllByRecursion, filter, list_all, list_any};
ghost use Rattle.std.specs.Ordering.{nat_cmp};
ghost use Rattle.std.specs.Cmp.Lexicographic.{slice_cmp};
ghost use Rattle.std.specs.declared.cmp.Ordering.TheVariants.{Less, Equal, Greater};
ghost use Rattle.plan_types.specs.Types.{Ty, NullType, Truth, TextType, DateType, TimeType, DatetimeType, DurationType, ListType, Untyped};
ghost use Rattle.plan_types.specs.Values.{TruthValue};
ghost use Rattle.plan_types.specs.Casts.{Gives, Fails, can_cast, cast, wrapped, number_of, is_nonzero, no_place};
ghost use Rattle.plan_types.specs.Samples.{CastsNumbers, CastsTexts, CastsUnits, CastsValues, FailsWhereStrict, Maps, MapsPairs, ReadsNumbers, bare_types, deep_type, deep_value, int16, int32, int64, int8, integers, list_value, minus, modes, negative, nested_types, no, null, number, struct_a, struct_ab, struct_none, struct_of, struct_value, text, times, types, uint32, uint64, uint8, unsigned_integers, untyped, yes};
ghost use Rattle.plan_types.specs.declared.dtype.CastOptions.{CastOptions};
ghost use Rattle.plan_types.specs.declared.dtype.TimeUnit.{TimeUnit};
ghost use Rattle.plan_types.specs.declared.dtype.TimeUnit.TheVariants.{Nanoseconds, Microseconds, Milliseconds};

/// The types to which there is a cast, and no others: only null is cast to the type of null, only numbers of Int64 are
/// cast to times, and nothing is cast to the type of a number without one, nor from it.
pub fn types_that_are_cast_to()
    ensures bare { (unit other : TimeUnit) → Maps (λ from. filter (can_cast from) (bare_types other))
        ((NullType, bare_types other) ∷ (Truth, integers ++ Truth ∷ TextType ∷ []) ∷ (TextType, integers ++ TextType ∷ []) ∷ (DateType, int64 ∷ DateType ∷ DatetimeType other ∷ [])
        ∷ (TimeType, int64 ∷ TimeType ∷ []) ∷ (DatetimeType unit, int64 ∷ DateType ∷ DatetimeType other ∷ []) ∷ (DurationType unit, int64 ∷ DurationType other ∷ [])
        ∷ (int64, integers ++ Truth ∷ TextType ∷ times other) ∷ map (λ type. (type, integers ++ Truth ∷ TextType ∷ [])) (int8 ∷ int16 ∷ int32 ∷ unsigned_integers)) }
    ensures own_type { (unit : TimeUnit) → list_all (λ type. can_cast type type) (bare_types unit ++ nested_types ++ ListType (ListType NullType) ∷ []) ≡ true }
    ensures untyped { (unit : TimeUnit) → list_any (λ number. list_any (λ type. can_cast type number || can_cast number type) (types unit)) untyped ≡ false }
{}

/// Lists are cast where their items are, and structs of as many fields where the fields are, by place, whatever the names.
pub fn lists_and_structs_that_are_cast()
    ensures lists { MapsPairs (λ from target. can_cast (ListType from) (ListType target)) ((int8, TextType, true) ∷ (int8, Truth, true) ∷ (NullType, ListType int8, true) ∷ (int8, DateType, false)
        ∷ (int8, NullType, false) ∷ (int8, ListType int8, false) ∷ (int8, Untyped (pos 1), false) ∷ []) }
    ensures null { map (can_cast NullType) (ListType int8 ∷ struct_none ∷ ListType (Untyped (pos 1)) ∷ []) ≡ true ∷ true ∷ false ∷ [] }
    ensures from_lists { list_any (can_cast (ListType int8)) (int8 ∷ TextType ∷ struct_none ∷ struct_a int8 ∷ NullType ∷ []) ≡ false }
    ensures to_lists { list_any (λ type. can_cast type (ListType int8)) (int8 ∷ TextType ∷ struct_none ∷ Untyped (pos 1) ∷ []) ≡ false }
    ensures from_structs { list_any (can_cast (struct_a int8)) (int8 ∷ TextType ∷ ListType int8 ∷ struct_none ∷ NullType ∷ []) ≡ false }
    ensures structs { MapsPairs can_cast ((struct_ab int8 DateType, struct_of (("b", TextType) ∷ ("c", int64) ∷ []), true) ∷ (struct_ab int8 DateType, struct_ab int8 TextType, false)
        ∷ (struct_ab DateType int8, struct_ab TextType int8, false) ∷ (struct_ab int8 int8, struct_a int8, false) ∷ (struct_a int8, struct_ab int8 NullType, false) ∷ []) }
{}

/// What has no place in the target fails where the cast is strict, and is else null; a number of one integer type keeps its
/// low bits in another where the cast overflows. Null stays null in each cast.
pub fn values_without_a_place()
    ensures modes { map no_place modes ≡ Fails ∷ Gives null ∷ Gives null ∷ [] }
    ensures values { FailsWhereStrict ((text "128", TextType, int8, null, null) ∷ (number 2147483648, int64, DateType, null, null) ∷ (number 4294967301, int64, DateType, null, null)
        ∷ (number 200, uint8, int8, null, negative 56) ∷ (negative 1, int8, uint8, null, number 255) ∷ (negative 1, int64, uint64, null, number 18446744073709551615)
        ∷ (negative 129, int16, int8, null, number 127) ∷ (number 18446744073709551615, uint64, int64, null, negative 1) ∷ (negative 2, int8, uint32, null, number 4294967294)
        ∷ (number 300, int64, int8, null, number 44) ∷ []) }
    ensures null { (from target : Ty) (options : CastOptions) → cast null from target options ≡ Gives null }
{}

/// A number in the target's range is kept, and so is what already has the type. As a number false is 0 and true is 1, and
/// each number but 0 is true.
pub fn numbers_and_truth_values()
    ensures kept { CastsValues ((negative 128, int64, int8, negative 128) ∷ (number 255, int64, uint8, number 255) ∷ (number 127, uint8, int8, number 127) ∷ (number 127, int8, int8, number 127)
        ∷ (number 7, Untyped (pos 7), int8, number 7) ∷ []) }
    ensures truths { map number_of (false ∷ true ∷ []) ≡ pos 0 ∷ pos 1 ∷ [] }
    ensures truths_to_integers { (options : CastOptions) → map (λ type. map (λ truth. cast (TruthValue truth) Truth type options) (false ∷ true ∷ [])) integers
        ≡ map (λ type. Gives (number 0) ∷ Gives (number 1) ∷ []) integers }
    ensures nonzero { map is_nonzero (pos 0 ∷ pos 1 ∷ minus 1 ∷ pos 200 ∷ []) ≡ false ∷ true ∷ true ∷ true ∷ [] }
    ensures to_truths { CastsValues ((number 0, int64, Truth, no) ∷ (number 1, int64, Truth, yes) ∷ (negative 1, int64, Truth, yes) ∷ (number 200, int64, Truth, yes)
        ∷ (number 0, uint8, Truth, no) ∷ (number 2, uint8, Truth, yes) ∷ (number 255, uint8, Truth, yes) ∷ (number 256, int64, Truth, yes) ∷ (no, Truth, Truth, no) ∷ (yes, Truth, Truth, yes) ∷ []) }
{}

/// The number of a type with the same low bits: those of moments and spans have 64, with a sign.
pub fn numbers_that_wrap()
    ensures int8 { Maps (wrapped int8) ((pos 127, pos 127) ∷ (pos 128, minus 128) ∷ (pos 255, minus 1) ∷ (pos 256, pos 0) ∷ (minus 1, minus 1) ∷ (minus 128, minus 128) ∷ (minus 129, pos 127) ∷ (minus 256, pos 0) ∷ []) }
    ensures uint8 { Maps (wrapped uint8) ((pos 0, pos 0) ∷ (pos 255, pos 255) ∷ (pos 256, pos 0) ∷ (pos 511, pos 255) ∷ (minus 1, pos 255) ∷ (minus 255, pos 1) ∷ (minus 256, pos 0) ∷ (minus 257, pos 255) ∷ []) }
    ensures int64 { (unit : TimeUnit) →
        AllByRecursion (λ type. Maps (wrapped type) ((pos 9223372036854775807, pos 9223372036854775807) ∷ (pos 9223372036854775808, minus 9223372036854775808)
        ∷ (minus 9223372036854775808, minus 9223372036854775808) ∷ (minus 9223372036854775809, pos 9223372036854775807) ∷ [])) (int64 ∷ DatetimeType unit ∷ DurationType unit ∷ []) }
    ensures uint64 { Maps (wrapped uint64) ((pos 18446744073709551616, pos 0) ∷ (minus 1, pos 18446744073709551615) ∷ (minus 18446744073709551616, pos 0) ∷ []) }
{}

/// A text is a number where it is an optional sign and digits, and has no place where it is anything else or out of range.
/// One that is out of range keeps no low bits.
pub fn texts_as_numbers()
    ensures digits { ReadsNumbers (("12", int8, Some (pos 12)) ∷ ("+12", int8, Some (pos 12)) ∷ ("-12", int8, Some (minus 12)) ∷ ("-0", int8, Some (pos 0)) ∷ ("007", uint8, Some (pos 7)) ∷ ("-0", uint8, Some (pos 0)) ∷ []) }
    ensures ends { ReadsNumbers (("127", int8, Some (pos 127)) ∷ ("-128", int8, Some (minus 128)) ∷ ("128", int8, None) ∷ ("-129", int8, None) ∷ ("-1", uint8, None)
        ∷ ("18446744073709551615", uint64, Some (pos 18446744073709551615)) ∷ ("18446744073709551616", uint64, None) ∷ []) }
    ensures forty_digits { ReadsNumbers (("1234567890123456789012345678901234567890", uint64, None) ∷ ("-1234567890123456789012345678901234567890", int64, None)
        ∷ ("0000000000000000000000000000000000000011", int8, Some (pos 11)) ∷ []) }
    ensures others { ReadsNumbers (map (λ text. (text, int64, None)) ("" ∷ "+" ∷ "-" ∷ "+-1" ∷ "--1" ∷ "1-" ∷ "12x" ∷ "x12" ∷ " 12" ∷ "12 " ∷ "1.0" ∷ "1_000" ∷ "0x10" ∷ "true" ∷ "१२" ∷ [])) }
{}

/// Numbers are written in decimal digits, with a minus below zero, and truth values as words. A text stays as it is.
pub fn casts_to_texts()
    ensures { CastsTexts ((negative 128, int8, "-128") ∷ (number 0, int8, "0") ∷ (number 7, int16, "7") ∷ (number 10, uint8, "10") ∷ (negative 1, int32, "-1")
        ∷ (negative 9223372036854775808, int64, "-9223372036854775808") ∷ (number 18446744073709551615, uint64, "18446744073709551615") ∷ (yes, Truth, "true") ∷ (no, Truth, "false")
        ∷ (text " 12x", TextType, " 12x") ∷ (text "", TextType, "") ∷ []) }
{}

/// Texts are in the order of the first characters that differ, and a shorter one stands before its longer one.
pub fn order_of_texts()
    ensures { MapsPairs (λ left right. slice_cmp nat_cmp (codes left) (codes right)) (("ab", "ab", Equal) ∷ ("ab", "b", Less) ∷ ("ac", "ab", Greater) ∷ ("a", "ab", Less) ∷ ("", "a", Less)
        ∷ ("a", "B", Greater) ∷ ("z", "é", Less) ∷ ("ｚ", "😀", Less) ∷ []) }
{}

/// Days are counted in the units of moments, which are rounded down to days: 2000-01-01 is day 10957. The first and the
/// last day are past the range of nanoseconds and microseconds.
pub fn days_and_moments()
    ensures in_nanoseconds { CastsNumbers DateType (DatetimeType Nanoseconds) ((pos 10957, Some (pos 946684800000000000)) ∷ (pos 0, Some (pos 0)) ∷ (minus 1, Some (minus 86400000000000))
        ∷ (pos 106751, Some (pos 9223286400000000000)) ∷ (pos 106752, None) ∷ (minus 2147483648, None) ∷ (pos 2147483647, None) ∷ []) }
    ensures in_microseconds { CastsNumbers DateType (DatetimeType Microseconds) ((pos 10957, Some (pos 946684800000000)) ∷ (minus 2147483648, None) ∷ (pos 2147483647, None) ∷ []) }
    ensures in_milliseconds { CastsNumbers DateType (DatetimeType Milliseconds) ((pos 10957, Some (pos 946684800000)) ∷ (minus 1, Some (minus 86400000))
        ∷ (minus 2147483648, Some (minus 185542587187200000)) ∷ (pos 2147483647, Some (pos 185542587100800000)) ∷ []) }
    ensures from_nanoseconds { CastsNumbers (DatetimeType Nanoseconds) DateType ((pos 946684800000000000, Some (pos 10957)) ∷ (pos 0, Some (pos 0)) ∷ (minus 1, Some (minus 1))
        ∷ (pos 86399999999999, Some (pos 0)) ∷ (pos 86400000000000, Some (pos 1)) ∷ (minus 86400000000000, Some (minus 1)) ∷ (minus 86400000000001, Some (minus 2)) ∷ []) }
    ensures from_microseconds { CastsNumbers (DatetimeType Microseconds) DateType ((pos 946684800000000, Some (pos 10957)) ∷ (minus 1, Some (minus 1)) ∷ []) }
    ensures from_milliseconds { CastsNumbers (DatetimeType Milliseconds) DateType ((pos 946684800000, Some (pos 10957)) ∷ (minus 1, Some (minus 1))
        ∷ (pos 185542587187199999, Some (pos 2147483647)) ∷ (pos 185542587187200000, None) ∷ (minus 185542587187200000, Some (minus 2147483648)) ∷ (minus 185542587187200001, None) ∷ []) }
{}

/// Moments and spans in a coarser unit are rounded down, and in a finer one multiplied. Days, times, moments and spans are
/// numbers of Int64, and are numbers of Int64 in their range.
pub fn units_and_numbers()
    ensures moments { CastsUnits DatetimeType }
    ensures spans { CastsUnits DurationType }
    ensures itself { CastsValues ((negative 5, DateType, DateType, negative 5) ∷ (number 5, TimeType, TimeType, number 5) ∷ []) }
    ensures to_numbers { CastsValues ((negative 1, DateType, int64, negative 1) ∷ (number 86399999999999, TimeType, int64, number 86399999999999)
        ∷ (negative 9223372036854775808, DatetimeType Nanoseconds, int64, negative 9223372036854775808) ∷ (number 9223372036854775807, DurationType Milliseconds, int64, number 9223372036854775807) ∷ []) }
    ensures to_days { CastsNumbers int64 DateType ((pos 2147483647, Some (pos 2147483647)) ∷ (minus 2147483648, Some (minus 2147483648)) ∷ (pos 2147483648, None) ∷ (minus 2147483649, None) ∷ []) }
    ensures to_times { CastsNumbers int64 TimeType ((pos 86399999999999, Some (pos 86399999999999)) ∷ (pos 0, Some (pos 0)) ∷ (pos 86400000000000, None) ∷ (minus 1, None) ∷ []) }
    ensures to_units { CastsValues ((negative 9223372036854775808, int64, DatetimeType Microseconds, negative 9223372036854775808)
        ∷ (number 9223372036854775807, int64, DurationType Nanoseconds, number 9223372036854775807) ∷ []) }
{}

/// Lists are cast item by item, and structs part by part, whatever the names. Null stays null, as a whole and inside.
pub fn casts_of_lists_and_structs()
    ensures lists { CastsValues ((list_value [], ListType int64, ListType int8, list_value []) ∷ (list_value (null ∷ []), ListType NullType, ListType (ListType int8), list_value (null ∷ []))
        ∷ (list_value (number 1 ∷ null ∷ []), ListType int8, ListType int8, list_value (number 1 ∷ null ∷ []))
        ∷ (list_value (number 1 ∷ null ∷ negative 2 ∷ []), ListType int8, ListType TextType, list_value (text "1" ∷ null ∷ text "-2" ∷ [])) ∷ []) }
    ensures structs { let abc : Ty = struct_of (("a", DateType) ∷ ("b", Truth) ∷ ("c", int8) ∷ []) in let bxy : Ty = struct_of (("b", DatetimeType Milliseconds) ∷ ("x", int8) ∷ ("y", Truth) ∷ []) in
        CastsValues ((struct_value [], struct_none, struct_none, struct_value []) ∷ (struct_value (number 1 ∷ yes ∷ null ∷ []), abc, bxy, struct_value (number 86400000 ∷ number 1 ∷ null ∷ [])) ∷ []) }
    ensures deep { CastsValues ((deep_value (number 100), deep_type uint8, deep_type int8, deep_value (number 100)) ∷ []) }
{}

/// A strict cast fails where one item or part does. Else that one is null, or keeps its low bits where the cast overflows.
/// The rest is cast as ever, and the list that it is in isn't null.
pub fn casts_of_failing_items()
    ensures items { FailsWhereStrict
        ((list_value (number 1 ∷ number 200 ∷ number 3 ∷ []), ListType uint8, ListType int8, list_value (number 1 ∷ null ∷ number 3 ∷ []), list_value (number 1 ∷ negative 56 ∷ number 3 ∷ []))
        ∷ (list_value (text "x" ∷ text "7" ∷ []), ListType TextType, ListType int8, list_value (null ∷ number 7 ∷ []), list_value (null ∷ number 7 ∷ [])) ∷ []) }
    ensures parts { FailsWhereStrict
        ((struct_value (number 200 ∷ text "x" ∷ []), struct_ab uint8 TextType, struct_ab int8 TextType, struct_value (null ∷ text "x" ∷ []), struct_value (negative 56 ∷ text "x" ∷ []))
        ∷ (struct_value (null ∷ text "x" ∷ []), struct_ab uint8 TextType, struct_ab int8 uint8, struct_value (null ∷ null ∷ []), struct_value (null ∷ null ∷ [])) ∷ []) }
    ensures deep { FailsWhereStrict ((deep_value (number 200), deep_type uint8, deep_type int8, deep_value null, deep_value (negative 56))
        ∷ (list_value (list_value (number 2147483648 ∷ []) ∷ []), ListType (ListType int64), ListType (ListType DateType), list_value (list_value (null ∷ []) ∷ []), list_value (list_value (null ∷ []) ∷ [])) ∷ []) }
{}
