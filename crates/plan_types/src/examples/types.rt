//! Worked examples on types: which there are, their classes, when two are one, and units of time.

ghost use Rattle.std.specs.Prelude.{◌≡◌, ◌==◌, ◌++◌, [], ◌∷◌, pos, map, codes, true, false};
ghost use Rattle.std.specs.List.{filter, list_all, list_any};
ghost use Rattle.plan_types.specs.Types.{Ty, NullType, Truth, Integer, TextType, DateType, TimeType, DatetimeType, DurationType, ListType, Untyped, ty, is_bare, is_counted, is_known, is_null, is_truth, is_integer, is_signed_integer, is_unsigned_integer, is_text, is_temporal, is_ord, width_of, per_day, unit_rank, coarser, same_type, same_field, fields_in, field_of, no_field, with_field};
ghost use Rattle.plan_types.specs.Samples.{bare_types, coarser_units, distinct_types, int8, integers, minus, nested_types, number, other_types, signed_integers, struct_a, struct_ab, times, types, uint8, units, unsigned_integers, untyped};
ghost use Rattle.plan_types.specs.declared.field.Field.{Field};
ghost use Rattle.plan_types.specs.declared.dtype.TimeUnit.{TimeUnit};
ghost use Rattle.plan_types.specs.declared.dtype.UnknownKind.TheVariants.{Int};
ghost use Rattle.plan_types.specs.declared.dtype.DataType.TheVariants.{Null, Boolean, Int8, Int16, Int32, Int64, UInt8, UInt16, UInt32, UInt64, String, Date, Time, Datetime, Duration, Unknown};

/// An integer type is its sign and its bits, moments and spans have a unit, and each other type is one of its own.
pub fn types_of_the_code()
    ensures bare { map ty (Null ∷ Boolean ∷ String ∷ Date ∷ Time ∷ []) ≡ NullType ∷ Truth ∷ TextType ∷ DateType ∷ TimeType ∷ [] }
    ensures signed { map ty (Int8 ∷ Int16 ∷ Int32 ∷ Int64 ∷ []) ≡ signed_integers }
    ensures unsigned { map ty (UInt8 ∷ UInt16 ∷ UInt32 ∷ UInt64 ∷ []) ≡ unsigned_integers }
    ensures moments_and_spans { (unit : TimeUnit) → map ty (Datetime unit ∷ Duration unit ∷ []) ≡ DatetimeType unit ∷ DurationType unit ∷ [] }
    ensures numbers { map ty (Unknown (Int (pos 5)) ∷ Unknown (Int (minus 1)) ∷ []) ≡ Untyped (pos 5) ∷ Untyped (minus 1) ∷ [] }
{}

/// Which types each class has. A number's own type is in none, nor is one with parts. Only integers have a width.
pub fn classes_of_types()
    ensures null { (unit : TimeUnit) → filter is_null (types unit) ≡ NullType ∷ [] }
    ensures truth { (unit : TimeUnit) → filter is_truth (types unit) ≡ Truth ∷ [] }
    ensures text { (unit : TimeUnit) → filter is_text (types unit) ≡ TextType ∷ [] }
    ensures integer { (unit : TimeUnit) → filter is_integer (types unit) ≡ integers }
    ensures signed_integer { (unit : TimeUnit) → filter is_signed_integer (types unit) ≡ signed_integers }
    ensures unsigned_integer { (unit : TimeUnit) → filter is_unsigned_integer (types unit) ≡ unsigned_integers }
    ensures temporal { (unit : TimeUnit) → filter is_temporal (types unit) ≡ times unit }
    ensures counted { (unit : TimeUnit) → filter is_counted (types unit) ≡ integers ++ times unit }
    ensures ord { (unit : TimeUnit) → filter is_ord (types unit) ≡ integers ++ Truth ∷ TextType ∷ times unit }
    ensures bare { (unit : TimeUnit) → filter is_bare (types unit) ≡ bare_types unit ++ untyped }
    ensures width { map width_of integers ≡ 8 ∷ 16 ∷ 32 ∷ 64 ∷ 8 ∷ 16 ∷ 32 ∷ 64 ∷ [] }
    ensures no_width { (unit : TimeUnit) → list_all (λ type. width_of type == 0) (other_types unit ++ untyped ++ nested_types) ≡ true }
{}

/// A type is one of columns where no number's own type stands in it, at any depth.
pub fn known_types()
    ensures known { (unit : TimeUnit) → list_all is_known (bare_types unit ++ nested_types) ≡ true }
    ensures deep { list_all is_known (ListType (ListType NullType) ∷ struct_ab int8 TextType ∷ struct_ab int8 (ListType int8) ∷ ListType (struct_a (ListType DateType)) ∷ []) ≡ true }
    ensures unknown { let number : Ty = Untyped (pos 1) in list_any is_known (number ∷ ListType number ∷ ListType (ListType number) ∷ struct_ab int8 number ∷ struct_ab int8 (ListType number)
        ∷ struct_ab number int8 ∷ ListType (struct_a (ListType number)) ∷ []) ≡ false }
{}

/// A type is the same as itself alone: integers by sign and bits, times by their unit, lists by their items' type, structs
/// by names and types in order, and numbers' own types by the number. So are fields, by name and type.
pub fn types_that_are_one()
    ensures types { map (λ type. filter (same_type type) distinct_types) distinct_types ≡ map (λ type. type ∷ []) distinct_types }
    ensures fields { filter (same_field (codes "a", int8)) ((codes "a", uint8) ∷ (codes "b", int8) ∷ (codes "a", int8) ∷ (codes "", int8) ∷ []) ≡ (codes "a", int8) ∷ [] }
{}

/// Fields by their names and types, in order.
pub fn fields_of_structs()
    ensures field { let a : Field = record { name = codes "a"; dtype = Int8 } in field_of a ≡ (codes "a", int8) }
    ensures fields { let a : Field = record { name = codes "a"; dtype = Int8 } in let b : Field = record { name = codes "b"; dtype = Date } in map fields_in ((b ∷ a ∷ b ∷ []) ∷ [] ∷ [])
        ≡ with_field (codes "b") DateType (with_field (codes "a") (Integer true 8) (with_field (codes "b") DateType no_field)) ∷ no_field ∷ [] }
{}

/// How many of each unit a day has, and of two units the coarser: milliseconds are the coarsest.
pub fn units_of_time()
    ensures day { map per_day units ≡ 86400000000000 ∷ 86400000000 ∷ 86400000 ∷ [] }
    ensures rank { map unit_rank units ≡ 0 ∷ 1 ∷ 2 ∷ [] }
    ensures coarser { map (λ left. map (coarser left) units) units ≡ coarser_units }
{}
