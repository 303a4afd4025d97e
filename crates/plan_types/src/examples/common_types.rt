//! Worked examples on common types of types, and of operands, of which a number without a type gets one first.

ghost use Rattle.std.specs.Prelude.{◌≡◌, ◌||◌, List, [], ◌∷◌, ◌++◌, pos, map, true, false, is_some, Option, Some, None, Ok, Err};
ghost use Rattle.std.specs.List.{filter, list_any};
ghost use Rattle.plan_types.specs.Types.{Ty, NullType, Truth, TextType, DateType, TimeType, DatetimeType, DurationType, ListType, Untyped};
ghost use Rattle.plan_types.specs.Supertypes.{supertype, upcast};
ghost use Rattle.plan_types.specs.TypeOrder.{is_below, folded_type};
ghost use Rattle.plan_types.specs.CommonTypes.{literal_type, type_alone, own_type, type_beside, common_type};
ghost use Rattle.plan_types.specs.Samples.{Maps, MapsPairs, bare_types, coarser_units, distinct_types, int16, int32, int64, int8, integers, minus, number, other_types, signed_integers, struct_a, struct_ab, struct_none, struct_of, times, types, uint16, uint32, uint64, uint8, units, unsigned_integers};
ghost use Rattle.plan_types.specs.declared.error.ErrorKind.TheVariants.{SchemaMismatch, InvalidOperation};
ghost use Rattle.plan_types.specs.declared.dtype.TimeUnit.{TimeUnit};
ghost use Rattle.plan_types.specs.declared.dtype.TimeUnit.TheVariants.{Nanoseconds, Microseconds, Milliseconds};

/// Each type has itself with itself, and null is of any type. A number's own type has none with other types.
pub fn common_types_with_itself_and_null()
    ensures itself { map (λ type. supertype type type) distinct_types ≡ map Some distinct_types }
    ensures null_left { (type : Ty) → supertype NullType type ≡ Some type }
    ensures null_right { (unit : TimeUnit) → map (λ type. supertype type NullType) (types unit) ≡ map Some (types unit) }
    ensures untyped { filter (λ type. is_some (supertype (Untyped (pos 5)) type)) distinct_types ≡ NullType ∷ Untyped (pos 5) ∷ [] }
{}

/// Integers of one sign have the wider of the two. A signed type that is wider than the unsigned one holds both, and
/// otherwise the signed type of twice the unsigned one's bits does: UInt64 has none. Truth values are of the integer's type.
/// Two integer types that differ have theirs without memory, and no other two types (`upcast`).
pub fn common_types_of_integers()
    ensures one_sign { MapsPairs supertype ((int8, int8, Some int8) ∷ (int8, int32, Some int32) ∷ (int64, int16, Some int64) ∷ (uint64, uint64, Some uint64) ∷ (uint8, uint64, Some uint64)
        ∷ (uint32, uint16, Some uint32) ∷ []) }
    ensures wider_signed { MapsPairs supertype ((int32, uint8, Some int32) ∷ (uint8, int32, Some int32) ∷ (int16, uint8, Some int16) ∷ (uint32, int64, Some int64) ∷ []) }
    ensures above_both { MapsPairs supertype ((int8, uint8, Some int16) ∷ (uint32, int32, Some int64) ∷ (int8, uint16, Some int32) ∷ (uint32, int16, Some int64) ∷ (uint64, int8, None)
        ∷ (int8, uint64, None) ∷ (int64, uint64, None) ∷ []) }
    ensures truths { map (λ type. supertype Truth type ∷ supertype type Truth ∷ []) integers ≡ map (λ type. Some type ∷ Some type ∷ []) integers }
    ensures differing { MapsPairs upcast ((int8, int16, Some int16) ∷ (uint32, uint8, Some uint32) ∷ (uint32, int32, Some int64) ∷ (int16, uint8, Some int16) ∷ (uint64, int64, None)
        ∷ (int8, Untyped (pos 1), None) ∷ (ListType int8, ListType int16, None) ∷ []) }
    ensures differing_from_itself { list_any (λ type. is_some (upcast type type)) distinct_types ≡ false }
    ensures differing_from_int8 { filter (λ type. is_some (upcast type int8)) distinct_types ≡ int16 ∷ int32 ∷ int64 ∷ uint8 ∷ uint16 ∷ uint32 ∷ [] }
{}

/// Truth values and integers beside a text are texts. Days beside moments are moments in their unit, and of two types of
/// moments, or of spans, the coarser unit is taken. Other types of time have none with one another, nor with other types.
pub fn common_types_of_texts_and_times()
    ensures texts { map (λ type. supertype TextType type ∷ supertype type TextType ∷ []) (Truth ∷ integers) ≡ map (λ type. Some TextType ∷ Some TextType ∷ []) (Truth ∷ integers) }
    ensures no_times { (unit : TimeUnit) → list_any (λ type. list_any (λ time. is_some (supertype type time) || is_some (supertype time type)) (times unit)) (TextType ∷ Truth ∷ integers) ≡ false }
    ensures days_and_moments { (unit : TimeUnit) → MapsPairs supertype ((DateType, DatetimeType unit, Some (DatetimeType unit)) ∷ (DatetimeType unit, DateType, Some (DatetimeType unit)) ∷ []) }
    ensures moments { map (λ left. map (λ right. supertype (DatetimeType left) (DatetimeType right)) units) units ≡ map (map (λ unit. Some (DatetimeType unit))) coarser_units }
    ensures spans { map (λ left. map (λ right. supertype (DurationType left) (DurationType right)) units) units ≡ map (map (λ unit. Some (DurationType unit))) coarser_units }
    ensures times_left { (unit other : TimeUnit) → Maps (λ left. filter (λ right. is_some (supertype left right)) (times other))
        ((DateType, DateType ∷ DatetimeType other ∷ []) ∷ (TimeType, TimeType ∷ []) ∷ (DatetimeType unit, DateType ∷ DatetimeType other ∷ []) ∷ (DurationType unit, DurationType other ∷ []) ∷ []) }
    ensures times_right { (unit other : TimeUnit) → Maps (λ right. filter (λ left. is_some (supertype left right)) (times other))
        ((DateType, DateType ∷ DatetimeType other ∷ []) ∷ (TimeType, TimeType ∷ []) ∷ (DatetimeType unit, DateType ∷ DatetimeType other ∷ []) ∷ (DurationType unit, DurationType other ∷ []) ∷ []) }
{}

/// Lists have lists of their items' common type. Structs of the same names in order have structs of their fields' common
/// types, and no others have any.
pub fn common_types_of_lists_and_structs()
    ensures lists { MapsPairs (λ left right. supertype (ListType left) (ListType right)) ((int8, int8, Some (ListType int8)) ∷ (int8, NullType, Some (ListType int8))
        ∷ (NullType, int8, Some (ListType int8)) ∷ (uint8, int8, Some (ListType int16)) ∷ (Truth, TextType, Some (ListType TextType))
        ∷ (DateType, DatetimeType Nanoseconds, Some (ListType (DatetimeType Nanoseconds))) ∷ (ListType int8, ListType int32, Some (ListType (ListType int32))) ∷ (int8, uint64, None)
        ∷ (int8, DateType, None) ∷ (int8, ListType int8, None) ∷ []) }
    ensures structs { MapsPairs supertype
        ((struct_none, struct_none, Some struct_none) ∷ (struct_ab int8 NullType, struct_ab uint8 (ListType DateType), Some (struct_ab int16 (ListType DateType)))
        ∷ (struct_ab int8 int64, struct_ab int8 uint64, None) ∷ (struct_ab int8 int8, struct_a int8, None) ∷ (struct_none, struct_a NullType, None)
        ∷ (struct_ab int8 int8, struct_of (("b", int8) ∷ ("a", int8) ∷ []), None) ∷ []) }
    ensures names { Maps (λ name. supertype (struct_a int8) (struct_of ((name, int8) ∷ []))) (("a", Some (struct_a int8)) ∷ ("b", None) ∷ ("A", None) ∷ []) }
    ensures repeated_names { let twice : Ty → Ty → Ty = λ first second. struct_of (("a", first) ∷ ("a", second) ∷ []) in supertype (twice int8 int8) (twice int16 int32) ≡ Some (twice int16 int32) }
    ensures others { list_any (λ type. list_any (λ other. is_some (supertype type other) || is_some (supertype other type)) (int8 ∷ TextType ∷ [])) (ListType int8 ∷ struct_none ∷ []) ≡ false }
    ensures lists_and_structs { MapsPairs supertype ((ListType int8, struct_none, None) ∷ (struct_none, ListType int8, None) ∷ (struct_none, ListType NullType, None) ∷ []) }
{}

/// Null is below all types, and nothing else is below null. Truth values are below integers and texts. An integer is below
/// wider ones of its sign, an unsigned one below wider signed ones, and each below texts. Days are below moments.
pub fn order_of_types_without_parts()
    ensures null { filter (is_below NullType) distinct_types ≡ distinct_types }
    ensures below_null { filter (λ type. is_below type NullType) distinct_types ≡ NullType ∷ [] }
    ensures bare { Maps (λ type. filter (is_below type) (bare_types Nanoseconds))
        ((Truth, integers ++ Truth ∷ TextType ∷ []) ∷ (int8, signed_integers ++ TextType ∷ []) ∷ (int16, int16 ∷ int32 ∷ int64 ∷ TextType ∷ []) ∷ (int32, int32 ∷ int64 ∷ TextType ∷ [])
        ∷ (int64, int64 ∷ TextType ∷ []) ∷ (uint8, int16 ∷ int32 ∷ int64 ∷ unsigned_integers ++ TextType ∷ []) ∷ (uint16, int32 ∷ int64 ∷ uint16 ∷ uint32 ∷ uint64 ∷ TextType ∷ [])
        ∷ (uint32, int64 ∷ uint32 ∷ uint64 ∷ TextType ∷ []) ∷ (uint64, uint64 ∷ TextType ∷ []) ∷ (TextType, TextType ∷ []) ∷ (DateType, DateType ∷ DatetimeType Nanoseconds ∷ [])
        ∷ (TimeType, TimeType ∷ []) ∷ (DatetimeType Nanoseconds, DatetimeType Nanoseconds ∷ []) ∷ (DurationType Nanoseconds, DurationType Nanoseconds ∷ []) ∷ []) }
    ensures untyped { filter (is_below (Untyped (pos 5))) distinct_types ≡ Untyped (pos 5) ∷ [] }
    ensures below_untyped { filter (λ type. is_below type (Untyped (pos 5))) distinct_types ≡ NullType ∷ Untyped (pos 5) ∷ [] }
{}

/// Days are below moments in each unit, and moments and spans below those in coarser ones. Lists and structs are below
/// those of which each part is above theirs, where structs have the same names in order.
pub fn order_of_times_lists_and_structs()
    ensures days { map (λ unit. is_below DateType (DatetimeType unit) ∷ is_below (DatetimeType unit) DateType ∷ []) units ≡ map (λ unit. true ∷ false ∷ []) units }
    ensures moments { map (λ left. filter (λ right. is_below (DatetimeType left) (DatetimeType right)) units) units
        ≡ units ∷ (Microseconds ∷ Milliseconds ∷ []) ∷ (Milliseconds ∷ []) ∷ [] }
    ensures spans { map (λ left. filter (λ right. is_below (DurationType left) (DurationType right)) units) units
        ≡ units ∷ (Microseconds ∷ Milliseconds ∷ []) ∷ (Milliseconds ∷ []) ∷ [] }
    ensures lists { MapsPairs is_below ((ListType int8, ListType int16, true) ∷ (ListType int16, ListType int8, false) ∷ (ListType NullType, ListType DateType, true)
        ∷ (ListType (ListType Truth), ListType (ListType TextType), true) ∷ (ListType int8, int8, false) ∷ (int8, ListType int8, false) ∷ (ListType int8, TextType, false)
        ∷ (ListType int8, struct_none, false) ∷ []) }
    ensures structs { MapsPairs is_below ((struct_ab int8 NullType, struct_ab int16 TextType, true) ∷ (struct_ab int8 TextType, struct_ab int16 int8, false)
        ∷ (struct_ab int16 int8, struct_ab int8 int8, false) ∷ (struct_a int8, struct_ab int8 int8, false) ∷ (struct_ab int8 int8, struct_a int8, false) ∷ (struct_none, struct_none, true)
        ∷ (struct_none, struct_a NullType, false) ∷ (struct_ab int8 int8, struct_of (("b", int8) ∷ ("a", int8) ∷ []), false) ∷ (struct_none, TextType, false) ∷ []) }
    ensures names { Maps (λ name. is_below (struct_a int8) (struct_of ((name, int8) ∷ []))) (("a", true) ∷ ("b", false) ∷ ("A", false) ∷ []) }
{}

/// Types are folded to their common type, one after another, and no types to null. The order counts: two types without
/// a common one are folded to texts where a text comes before the second.
pub fn common_types_of_many()
    ensures few { Maps folded_type (([], Some NullType) ∷ (Truth ∷ [], Some Truth) ∷ (Untyped (pos 5) ∷ [], Some (Untyped (pos 5))) ∷ (NullType ∷ NullType ∷ [], Some NullType)
        ∷ (int8 ∷ Truth ∷ [], Some int8) ∷ (int8 ∷ uint8 ∷ [], Some int16) ∷ (DateType ∷ TimeType ∷ [], None) ∷ (int64 ∷ uint64 ∷ [], None) ∷ (Truth ∷ DateType ∷ [], None)
        ∷ (Untyped (pos 5) ∷ int8 ∷ [], None) ∷ []) }
    ensures more { Maps folded_type ((int8 ∷ TextType ∷ Truth ∷ [], Some TextType) ∷ (uint8 ∷ int8 ∷ uint16 ∷ [], Some int32) ∷ (NullType ∷ uint8 ∷ NullType ∷ Truth ∷ [], Some uint8)
        ∷ (DateType ∷ DatetimeType Nanoseconds ∷ DatetimeType Milliseconds ∷ [], Some (DatetimeType Milliseconds)) ∷ (DateType ∷ DatetimeType Nanoseconds ∷ DurationType Nanoseconds ∷ [], None)
        ∷ (ListType int8 ∷ NullType ∷ ListType uint8 ∷ [], Some (ListType int16)) ∷ (struct_ab int8 NullType ∷ struct_ab NullType TextType ∷ struct_ab uint16 Truth ∷ [], Some (struct_ab int32 TextType))
        ∷ (struct_a int8 ∷ struct_ab int8 int8 ∷ [], None) ∷ []) }
    ensures order { Maps folded_type ((int8 ∷ uint64 ∷ TextType ∷ [], None) ∷ (TextType ∷ int8 ∷ uint64 ∷ [], Some TextType) ∷ (int8 ∷ TextType ∷ uint64 ∷ [], Some TextType) ∷ []) }
{}

/// Alone a number is of the first of Int32, Int64 and UInt64 that has it, and so it is beside what is no integer.
pub fn types_of_numbers_alone()
    ensures numbers { Maps literal_type ((pos 0, Some int32) ∷ (pos 2147483647, Some int32) ∷ (minus 2147483648, Some int32) ∷ (pos 2147483648, Some int64) ∷ (minus 2147483649, Some int64)
        ∷ (pos 9223372036854775807, Some int64) ∷ (minus 9223372036854775808, Some int64) ∷ (pos 9223372036854775808, Some uint64) ∷ (pos 18446744073709551615, Some uint64)
        ∷ (pos 18446744073709551616, None) ∷ (minus 9223372036854775809, None) ∷ []) }
    ensures other_types { (unit : TimeUnit) → let each : Option Ty → List (Option Ty) = λ found. map (λ type. found) (other_types unit) in
        Maps (λ number. map (own_type number) (other_types unit)) ((pos 5, each (Some int32)) ∷ (pos 1, each (Some int32)) ∷ (pos 2147483648, each (Some int64))
        ∷ (pos 9223372036854775808, each (Some uint64)) ∷ (pos 18446744073709551616, each None) ∷ []) }
    ensures others { MapsPairs own_type ((pos 1, Untyped (pos 5), Some int32) ∷ (pos 9223372036854775808, Untyped (pos 5), Some uint64) ∷ (pos 5, ListType int8, Some int32) ∷ (pos 5, struct_none, Some int32) ∷ []) }
    ensures operands { Maps type_alone ((Untyped (pos 5), Some int32) ∷ (Untyped (pos 2147483648), Some int64) ∷ (Untyped (pos 18446744073709551616), None) ∷ (TextType, Some TextType)
        ∷ (NullType, Some NullType) ∷ (ListType (Untyped (pos 1)), None) ∷ (struct_a (Untyped (pos 1)), None) ∷ (ListType int8, Some (ListType int8)) ∷ (struct_none, Some struct_none) ∷ []) }
{}

/// Beside an integer type a number is of that type where it has it, else of the least that does. A column's type stays as
/// it is, and a type with a number's own type in it is none of columns.
pub fn types_of_numbers_beside_types()
    ensures signed { Maps (λ number. own_type number int8) ((pos 127, Some int8) ∷ (minus 128, Some int8) ∷ (minus 129, Some int16) ∷ (pos 128, Some int16) ∷ (pos 32767, Some int16)
        ∷ (pos 32768, Some int32) ∷ (pos 2147483648, Some int64) ∷ (pos 9223372036854775808, Some uint64) ∷ (pos 18446744073709551616, None) ∷ (minus 9223372036854775809, None) ∷ []) }
    ensures unsigned { Maps (λ number. own_type number uint8) ((pos 255, Some uint8) ∷ (pos 256, Some uint16) ∷ (pos 65535, Some uint16) ∷ (pos 65536, Some uint32) ∷ (pos 4294967296, Some uint64)
        ∷ (minus 1, Some int8) ∷ (minus 129, Some int16) ∷ (minus 9223372036854775809, None) ∷ []) }
    ensures others { MapsPairs own_type ((minus 32769, uint64, Some int32) ∷ (minus 2147483649, uint64, Some int64) ∷ (minus 9223372036854775808, uint64, Some int64)
        ∷ (pos 18446744073709551616, uint64, None) ∷ (pos 3000000000, int32, Some int64) ∷ []) }
    ensures operands { MapsPairs type_beside ((Untyped (pos 5), int8, Some int8) ∷ (Untyped (pos 5), TextType, Some int32) ∷ (Untyped (pos 5), NullType, Some int32)
        ∷ (Untyped (pos 5), DateType, Some int32) ∷ (int8, Untyped (pos 300), Some int8) ∷ (TextType, Untyped (pos 300), Some TextType) ∷ (NullType, Untyped (pos 300), Some NullType) ∷ []) }
    ensures parts { map (type_beside (ListType (Untyped (pos 1)))) (int8 ∷ ListType int8 ∷ ListType (Untyped (pos 1)) ∷ []) ≡ None ∷ None ∷ None ∷ [] }
{}

/// Operands have the common type of their types, where a number without one got its own first. So beside a text a number
/// is a text, beside null it has its own type, and beside days it has no common type.
pub fn common_types_of_operands()
    ensures columns { MapsPairs common_type ((int8, uint8, Ok int16) ∷ (int8, uint64, Err SchemaMismatch) ∷ (DurationType Nanoseconds, DurationType Milliseconds, Ok (DurationType Milliseconds))
        ∷ (DatetimeType Milliseconds, DurationType Milliseconds, Err SchemaMismatch) ∷ []) }
    ensures numbers { Maps (λ number. common_type int8 (Untyped number)) ((pos 1, Ok int8) ∷ (minus 129, Ok int16) ∷ (pos 128, Ok int16) ∷ (pos 255, Ok int16) ∷ (pos 256, Ok int16)
        ∷ (pos 32768, Ok int32) ∷ (pos 9223372036854775808, Err SchemaMismatch) ∷ (pos 18446744073709551616, Err InvalidOperation) ∷ []) }
    ensures other_numbers { MapsPairs common_type ((Untyped (pos 300), int8, Ok int16) ∷ (uint8, Untyped (minus 1), Ok int16) ∷ (uint64, Untyped (pos 1), Ok uint64)
        ∷ (uint64, Untyped (minus 1), Err SchemaMismatch) ∷ (Truth, Untyped (pos 1), Ok int32) ∷ (Truth, Untyped (pos 18446744073709551616), Err InvalidOperation) ∷ (Untyped (pos 5), ListType int8, Err SchemaMismatch) ∷ []) }
    ensures two_numbers { MapsPairs (λ left right. common_type (Untyped left) (Untyped right)) ((pos 1, pos 2, Ok int32) ∷ (pos 1, pos 2147483648, Ok int64)
        ∷ (minus 1, pos 9223372036854775808, Err SchemaMismatch) ∷ (pos 1, pos 18446744073709551616, Err InvalidOperation) ∷ []) }
    ensures texts { map (common_type TextType) (TextType ∷ Truth ∷ uint64 ∷ NullType ∷ Untyped (pos 5) ∷ []) ≡ Ok TextType ∷ Ok TextType ∷ Ok TextType ∷ Ok TextType ∷ Ok TextType ∷ [] }
    ensures texts_right { map (λ left. common_type left TextType) (Truth ∷ uint64 ∷ NullType ∷ Untyped (pos 5) ∷ []) ≡ Ok TextType ∷ Ok TextType ∷ Ok TextType ∷ Ok TextType ∷ [] }
    ensures texts_and_times { (unit : TimeUnit) → map (common_type TextType) (times unit) ≡ Err SchemaMismatch ∷ Err SchemaMismatch ∷ Err SchemaMismatch ∷ Err SchemaMismatch ∷ [] }
    ensures null { Maps (common_type NullType) ((NullType, Ok NullType) ∷ (Truth, Ok Truth) ∷ (DateType, Ok DateType) ∷ (Untyped (pos 5), Ok int32) ∷ (Untyped (pos 2147483648), Ok int64)
        ∷ (ListType (Untyped (pos 1)), Err InvalidOperation) ∷ []) }
    ensures null_right { Maps (λ left. common_type left NullType) ((Truth, Ok Truth) ∷ (DateType, Ok DateType) ∷ (Untyped (pos 5), Ok int32) ∷ []) }
    ensures days { Maps (common_type DateType) ((DateType, Ok DateType) ∷ (DatetimeType Microseconds, Ok (DatetimeType Microseconds)) ∷ (TimeType, Err SchemaMismatch)
        ∷ (int32, Err SchemaMismatch) ∷ (Untyped (pos 5), Err SchemaMismatch) ∷ []) }
    ensures past_every_type { map (common_type (Untyped (pos 18446744073709551616))) (NullType ∷ TextType ∷ DateType ∷ []) ≡ Err InvalidOperation ∷ Err InvalidOperation ∷ Err InvalidOperation ∷ [] }
    ensures lists { Maps (common_type (ListType int8)) ((ListType NullType, Ok (ListType int8)) ∷ (ListType int16, Ok (ListType int16)) ∷ (NullType, Ok (ListType int8))
        ∷ (ListType uint64, Err SchemaMismatch) ∷ (int8, Err SchemaMismatch) ∷ []) }
    ensures lists_of_numbers { map (common_type (ListType (Untyped (pos 1)))) (ListType (Untyped (pos 1)) ∷ ListType int8 ∷ NullType ∷ []) ≡ Err InvalidOperation ∷ Err InvalidOperation ∷ Err InvalidOperation ∷ [] }
{}
