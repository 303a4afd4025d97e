//! Operators on lists and structs: types, refusals, values and meanings.

ghost use Rattle.std.specs.Prelude.{◌≡◌, [], ◌∷◌, pos, codes, Err};
ghost use Rattle.plan_types.specs.Types.{NullType, Truth, TextType, DateType, ListType, Untyped};
ghost use Rattle.plan_types.specs.Outcomes.{Done, Stuck};
ghost use Rattle.plan_types.specs.declared.dtype.CastOptions.TheVariants.{Strict, NonStrict};
ghost use Rattle.plan_types.specs.declared.error.ErrorKind.TheVariants.{SchemaMismatch, InvalidOperation};
ghost use Rattle.plan_dsl.specs.declared.operator.Operator.TheVariants.{Eq, EqValidity, NotEqValidity, Plus};
ghost use Rattle.plan_dsl.specs.Typing.{typing};
ghost use Rattle.plan_dsl.specs.Strictness.{CanBecome};
ghost use Rattle.plan_dsl.specs.Samples.{Gives, Take, Refuse, RefuseCasts, Compute, Mean, HasLiterals, AreOperands, equalities, orders, both_as, int8, int16, int32, int64, uint16, moment, span, struct_type, one_field, struct_of, list, null, yes, no, number, text, a, b, equal, cast_as, of_many, runs, beside};

/// Lists are compared as lists of their items' common type.
pub fn types_of_equal_lists()
    ensures common { Take equalities (
        (ListType int8, ListType int64, both_as (ListType int64) Truth) ∷
        (ListType int16, ListType uint16, both_as (ListType int32) Truth) ∷
        (ListType DateType, ListType moment, both_as (ListType moment) Truth) ∷
        (ListType TextType, ListType int8, both_as (ListType TextType) Truth) ∷
        (ListType NullType, ListType Truth, both_as (ListType Truth) Truth) ∷
        (ListType (ListType int8), ListType (ListType int16), both_as (ListType (ListType int16)) Truth) ∷
        (ListType Truth, NullType, both_as (ListType Truth) Truth) ∷ (NullType, ListType Truth, both_as (ListType Truth) Truth) ∷ []) }
    ensures without_a_common_type { Refuse equalities SchemaMismatch (
        (ListType DateType ∷ [], ListType int32 ∷ []) ∷
        (ListType int8 ∷ [], Truth ∷ int8 ∷ TextType ∷ DateType ∷ Untyped (pos 1) ∷ struct_type [] ∷ []) ∷ []) }
    ensures of_untyped { Refuse equalities InvalidOperation (
        (ListType (Untyped (pos 1)) ∷ [], ListType int8 ∷ []) ∷ (ListType int8 ∷ [], ListType (Untyped (pos 1)) ∷ []) ∷ []) }
{}

/// Structs of the same names in order are compared field by field, in the fields' common types.
pub fn types_of_equal_structs()
    ensures of_none_and_one { Take equalities (
        (struct_type [], struct_type [], both_as (struct_type []) Truth) ∷
        (one_field "a" int8, one_field "a" int32, both_as (one_field "a" int32) Truth) ∷
        (one_field "a" Truth, NullType, both_as (one_field "a" Truth) Truth) ∷ []) }
    ensures of_two_fields { let left = struct_type ((codes "a", int8) ∷ (codes "b", ListType Truth) ∷ []) in
        let right = struct_type ((codes "a", NullType) ∷ (codes "b", ListType TextType) ∷ []) in
        Take equalities ((left, right, both_as (struct_type ((codes "a", int8) ∷ (codes "b", ListType TextType) ∷ [])) Truth) ∷ []) }
    ensures apart { let two = struct_type ((codes "a", Truth) ∷ (codes "b", Truth) ∷ []) in
        Refuse equalities SchemaMismatch (
        (one_field "a" Truth ∷ [], one_field "b" Truth ∷ one_field "a" DateType ∷ two ∷ []) ∷
        (one_field "a" DateType ∷ [], one_field "a" Truth ∷ []) ∷
        (two ∷ [], struct_type ((codes "b", Truth) ∷ (codes "a", Truth) ∷ []) ∷ []) ∷ []) }
    ensures of_untyped { Refuse equalities InvalidOperation ((one_field "a" (Untyped (pos 1)) ∷ [], one_field "a" (Untyped (pos 1)) ∷ []) ∷ []) }
{}

/// A common type of lists or structs is in no order, and no sum has a list or a struct in it, whichever side it is on.
pub fn refused_orders_and_sums()
    ensures orders { Refuse orders InvalidOperation (
        (ListType int8 ∷ [], ListType int64 ∷ []) ∷ (one_field "a" Truth ∷ [], one_field "a" Truth ∷ []) ∷
        (ListType Truth ∷ [], NullType ∷ []) ∷ (NullType ∷ [], struct_type [] ∷ []) ∷ []) }
    ensures orders_without_a_common_type { Refuse orders SchemaMismatch (
        (ListType int8 ∷ [], int8 ∷ []) ∷ (TextType ∷ [], ListType TextType ∷ []) ∷ (one_field "a" Truth ∷ [], one_field "b" Truth ∷ []) ∷ []) }
    ensures sums_of_lists { let others = NullType ∷ Truth ∷ int8 ∷ TextType ∷ DateType ∷ span ∷ Untyped (pos 1) ∷ struct_type [] ∷ [] in
        Refuse (Plus ∷ []) InvalidOperation ((ListType int8 ∷ [], ListType int8 ∷ []) ∷ (ListType TextType ∷ [], others) ∷ (others, ListType TextType ∷ []) ∷ []) }
    ensures sums_of_structs { let of = one_field "a" int8 in
        Refuse (Plus ∷ []) InvalidOperation ((of ∷ [], NullType ∷ int8 ∷ TextType ∷ moment ∷ of ∷ []) ∷ (NullType ∷ int8 ∷ TextType ∷ moment ∷ [], of ∷ []) ∷ []) }
{}

/// A comparison of lists or structs is null where one of the two is, but where nulls are compared too.
pub fn values_of_equal_lists()
    ensures values { Compute equalities Truth Truth (
        (list (number 1 ∷ null ∷ []), list (number 1 ∷ null ∷ []), yes ∷ yes ∷ no ∷ no ∷ []) ∷
        (list (number 1 ∷ []), list [], no ∷ no ∷ yes ∷ yes ∷ []) ∷
        (null, list [], null ∷ no ∷ null ∷ yes ∷ []) ∷
        (struct_of (null ∷ []), null, null ∷ no ∷ null ∷ yes ∷ []) ∷
        (struct_of (null ∷ []), struct_of (null ∷ []), yes ∷ yes ∷ no ∷ no ∷ []) ∷
        (struct_of (null ∷ []), struct_of (no ∷ []), no ∷ no ∷ yes ∷ yes ∷ []) ∷ []) }
{}

/// A comparison casts the items. As it is written it runs only over lists of one type.
pub fn meanings_of_equal_lists()
    ensures of_other_numbers { Mean Eq (ListType int8) (ListType int64) (
        (list (number 1 ∷ []), list (number 1 ∷ []), yes) ∷ (list (null ∷ []), list (null ∷ []), yes) ∷
        (list [], list (number 1 ∷ []), no) ∷ (null, list [], null) ∷ []) }
    ensures with_nulls { Mean EqValidity (ListType int8) (ListType int64) (
        (list (number 1 ∷ []), list (number 1 ∷ []), yes) ∷ (list [], list (number 1 ∷ []), no) ∷
        (null, list [], no) ∷ (null, null, yes) ∷ []) }
    ensures truth_values_as_texts { Mean Eq (ListType Truth) (ListType TextType) ((list (yes ∷ []), list (text "true" ∷ []), yes) ∷ []) }
    ensures structs { Mean Eq (struct_type ((codes "x", int8) ∷ (codes "y", NullType) ∷ [])) (struct_type ((codes "x", int16) ∷ (codes "y", Truth) ∷ [])) (
        (struct_of (number 5 ∷ null ∷ []), struct_of (number 5 ∷ null ∷ []), yes) ∷
        (struct_of (number 5 ∷ null ∷ []), struct_of (number 5 ∷ yes ∷ []), no) ∷ []) }
    ensures structs_with_nulls { Mean NotEqValidity (one_field "x" int8) (one_field "x" int8) (
        (struct_of (number 5 ∷ []), struct_of (number 5 ∷ []), no) ∷ (struct_of (null ∷ []), null, yes) ∷ (null, null, no) ∷ []) }
    ensures as_written { let frame = beside (ListType int8) (ListType int64) ((list [], list []) ∷ []) in
        Gives (runs frame) ((equal a b, Stuck) ∷ (equal (cast_as NonStrict (ListType int64) a) b, Done (yes ∷ [])) ∷ []) }
{}

/// Columns, casts and literals have types of lists and structs in which each type is known.
pub fn typed_lists()
    ensures typed { Gives (typing [] ((codes "a", ListType Truth) ∷ [])) (
        (a, of_many (ListType Truth)) ∷ (cast_as Strict (ListType TextType) a, of_many (ListType TextType)) ∷ []) }
    ensures untyped { typing [] ((codes "a", ListType (Untyped (pos 1))) ∷ []) a ≡ Err InvalidOperation }
    ensures cast_of_null { typing [] ((codes "a", NullType) ∷ []) (cast_as Strict (ListType Truth) a) ≡ of_many (ListType Truth) }
    ensures no_cast { RefuseCasts InvalidOperation (
        (ListType Truth, Truth ∷ TextType ∷ ListType DateType ∷ struct_type [] ∷ ListType (Untyped (pos 1)) ∷ []) ∷
        (NullType, ListType (Untyped (pos 1)) ∷ []) ∷ []) }
    ensures no_literals { HasLiterals (
        (ListType int8, [], list (number 1 ∷ null ∷ []) ∷ list (number 300 ∷ []) ∷ null ∷ []) ∷
        (ListType (Untyped (pos 1)), [], list (number 1 ∷ []) ∷ []) ∷ []) }
{}

/// A cast stands round an operand of another type, where each type in it is known.
pub fn operands_of_lists()
    ensures operands { AreOperands (
        (ListType int8, ListType int64, a, cast_as NonStrict (ListType int64) a) ∷ (ListType int8, ListType int8, a, a) ∷ []) }
    ensures wider { CanBecome (ListType int8) (ListType int64) × CanBecome (one_field "a" int8) (one_field "a" int64) }
    ensures no_types { ¬ (CanBecome (ListType int8) int8) × ¬ (CanBecome (ListType (Untyped (pos 5))) (ListType int8)) }
{}
