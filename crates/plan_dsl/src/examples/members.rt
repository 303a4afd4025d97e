//! Whether values are among others: types and values.

ghost use Rattle.std.specs.Prelude.{◌≡◌, List, [], ◌∷◌, pos, codes, Result, Ok, Err};
ghost use Rattle.plan_types.specs.Types.{Ty, NullType, Truth, TextType, DateType, TimeType, DatetimeType, DurationType, ListType};
ghost use Rattle.plan_types.specs.Casts.{Converted, Gives as GivesValue, Fails};
ghost use Rattle.plan_types.specs.Outcomes.{Done, Fault, Stuck};
ghost use Rattle.plan_types.specs.Schemas.{Columns};
ghost use Rattle.plan_types.specs.declared.dtype.CastOptions.TheVariants.{NonStrict};
ghost use Rattle.plan_types.specs.declared.dtype.TimeUnit.TheVariants.{Nanoseconds, Microseconds, Milliseconds};
ghost use Rattle.plan_types.specs.declared.error.ErrorKind.TheVariants.{ColumnNotFound, SchemaMismatch, InvalidOperation, ComputeError};
ghost use Rattle.plan_dsl.specs.declared.function_expr.FunctionExpr.TheVariants.{IsIn};
ghost use Rattle.plan_dsl.specs.FunctionTypes.{is_in_types};
ghost use Rattle.plan_dsl.specs.FunctionValues.{is_among_values, is_in_values, list_has};
ghost use Rattle.plan_dsl.specs.Typing.{typing};
ghost use Rattle.plan_dsl.specs.Samples.{Gives, GivesOfTwo, GivesAll, int8, int16, int32, int64, uint8, uint64, null, yes, no, number, text, list, struct_of, one_field, taken, a, b, c, literal, one, two, five, huge, nothing, slice, call, of_many, of_one, means, runs, alone, beside, table};

/// Values are looked for in a column of their type, or in lists of it. Integers are taken to their common type, and a coarser
/// unit of time to a finer one. Null is among all.
pub fn types_of_members()
    ensures columns { GivesOfTwo is_in_types (
        (int8, int8, taken int8 int8 Truth) ∷ (int8, int16, taken int16 int16 Truth) ∷ (int64, uint8, taken int64 int64 Truth) ∷ (int8, uint8, taken int16 int16 Truth) ∷
        (TextType, TextType, taken TextType TextType Truth) ∷ (Truth, Truth, taken Truth Truth Truth) ∷ (one_field "x" int8, one_field "x" int8, taken (one_field "x" int8) (one_field "x" int8) Truth) ∷
        (NullType, int8, taken int8 int8 Truth) ∷ (NullType, DateType, taken DateType DateType Truth) ∷
        (DatetimeType Nanoseconds, DatetimeType Milliseconds, taken (DatetimeType Nanoseconds) (DatetimeType Nanoseconds) Truth) ∷
        (DurationType Microseconds, DurationType Milliseconds, taken (DurationType Microseconds) (DurationType Microseconds) Truth) ∷
        (DatetimeType Milliseconds, DatetimeType Milliseconds, taken (DatetimeType Milliseconds) (DatetimeType Milliseconds) Truth) ∷ []) }
    ensures lists { GivesOfTwo is_in_types (
        (int8, ListType int8, taken int8 (ListType int8) Truth) ∷ (int8, ListType int32, taken int32 (ListType int32) Truth) ∷ (int32, ListType int8, taken int32 (ListType int32) Truth) ∷
        (int8, ListType NullType, taken int8 (ListType int8) Truth) ∷ (NullType, ListType TextType, taken TextType (ListType TextType) Truth) ∷
        (int8, NullType, taken int8 (ListType int8) Truth) ∷ (NullType, NullType, taken NullType (ListType NullType) Truth) ∷ (ListType int8, NullType, taken (ListType int8) (ListType (ListType int8)) Truth) ∷
        (ListType int8, ListType (ListType int8), taken (ListType int8) (ListType (ListType int8)) Truth) ∷ (ListType NullType, ListType NullType, taken (ListType NullType) (ListType (ListType NullType)) Truth) ∷
        (DatetimeType Nanoseconds, ListType (DatetimeType Milliseconds), taken (DatetimeType Nanoseconds) (ListType (DatetimeType Nanoseconds)) Truth) ∷ []) }
    ensures refused { GivesOfTwo is_in_types (
        (int64, uint64, Err SchemaMismatch) ∷ (uint64, ListType int8, Err SchemaMismatch) ∷ (int8, Truth, Err InvalidOperation) ∷ (Truth, int8, Err InvalidOperation) ∷ (TextType, int8, Err InvalidOperation) ∷
        (int8, ListType TextType, Err InvalidOperation) ∷ (ListType int8, ListType int8, Err InvalidOperation) ∷ (ListType int8, int8, Err InvalidOperation) ∷ (ListType int8, ListType (ListType int16), Err InvalidOperation) ∷
        (DateType, DatetimeType Nanoseconds, Err InvalidOperation) ∷ (DatetimeType Nanoseconds, DurationType Nanoseconds, Err InvalidOperation) ∷ (TimeType, DateType, Err InvalidOperation) ∷
        (DatetimeType Milliseconds, DatetimeType Nanoseconds, Err InvalidOperation) ∷ (DatetimeType Milliseconds, ListType (DatetimeType Nanoseconds), Err InvalidOperation) ∷
        (DurationType Milliseconds, DurationType Microseconds, Err InvalidOperation) ∷ (one_field "x" int8, one_field "y" int8, Err InvalidOperation) ∷ (one_field "x" int8, one_field "x" int16, Err InvalidOperation) ∷ []) }
    ensures typed { let columns : Columns = (codes "a", int8) ∷ (codes "b", ListType int16) ∷ [] in
        Gives (typing [] columns) (
        (call IsIn (a ∷ b ∷ []), of_many Truth) ∷ (call IsIn (one ∷ a ∷ []), of_many Truth) ∷ (call IsIn (one ∷ five ∷ []), of_one Truth) ∷ (call IsIn (a ∷ one ∷ []), of_many Truth) ∷
        (call IsIn (a ∷ []), Err ComputeError) ∷ (call IsIn (a ∷ a ∷ a ∷ []), Err ComputeError) ∷ (call IsIn [], Err ComputeError) ∷
        (call IsIn (a ∷ huge ∷ []), Err InvalidOperation) ∷ (call IsIn (huge ∷ a ∷ []), Err InvalidOperation) ∷ (call IsIn (c ∷ a ∷ []), Err ColumnNotFound) ∷ (call IsIn (b ∷ a ∷ []), Err InvalidOperation) ∷ []) }
{}

/// A value is among those of a column, or in the list beside it. It isn't known of null, nor of a null list. Lists and values
/// have a common length, and a column may have any. What is out of range in a finer unit of time is null there, and no fault.
pub fn values_of_members()
    ensures among { Gives (λ value. is_among_values (number 1 ∷ null ∷ number 3 ∷ []) value) ((number 1, yes) ∷ (number 2, no) ∷ (number 3, yes) ∷ (null, null) ∷ []) }
    ensures nothing_among { Gives (is_among_values []) ((number 1, no) ∷ (null, null) ∷ []) }
    ensures rows { Gives list_has (
        (number 1 ∷ list (number 2 ∷ number 1 ∷ []) ∷ [], GivesValue yes) ∷ (number 1 ∷ list (number 2 ∷ null ∷ []) ∷ [], GivesValue no) ∷ (number 1 ∷ list [] ∷ [], GivesValue no) ∷
        (null ∷ list (null ∷ []) ∷ [], GivesValue null) ∷ (number 1 ∷ null ∷ [], GivesValue null) ∷ (null ∷ null ∷ [], GivesValue null) ∷
        (list (null ∷ []) ∷ list (list (null ∷ []) ∷ []) ∷ [], GivesValue yes) ∷ (struct_of (number 1 ∷ []) ∷ list (struct_of (number 1 ∷ []) ∷ []) ∷ [], GivesValue yes) ∷ []) }
    ensures columns { Gives (means table) (
        (call IsIn (a ∷ b ∷ []), Done (no ∷ null ∷ no ∷ [])) ∷ (call IsIn (a ∷ a ∷ []), Done (yes ∷ null ∷ yes ∷ [])) ∷ (call IsIn (one ∷ a ∷ []), Done (yes ∷ [])) ∷ (call IsIn (a ∷ one ∷ []), Done (yes ∷ null ∷ no ∷ [])) ∷
        (call IsIn (five ∷ a ∷ []), Done (no ∷ [])) ∷ (call IsIn (nothing ∷ a ∷ []), Done (null ∷ [])) ∷ (call IsIn (a ∷ slice a one one ∷ []), Done (no ∷ null ∷ no ∷ [])) ∷
        (call IsIn (a ∷ slice a (literal (pos 0)) two ∷ []), Done (yes ∷ null ∷ no ∷ [])) ∷ (call IsIn (a ∷ nothing ∷ []), Done (null ∷ null ∷ null ∷ [])) ∷ []) }
    ensures lists { means (beside int8 (ListType int16) ((number 1, list (number 1 ∷ number 300 ∷ [])) ∷ (number 2, list []) ∷ (number 3, null) ∷ (null, list (null ∷ [])) ∷ [])) (call IsIn (a ∷ b ∷ [])) ≡ Done (yes ∷ no ∷ null ∷ null ∷ []) }
    ensures one_beside_lists { means (alone (ListType int8) (list (number 1 ∷ []) ∷ list [] ∷ null ∷ [])) (call IsIn (one ∷ a ∷ [])) ≡ Done (yes ∷ no ∷ null ∷ []) }
    ensures two_beside_lists { means (beside int8 (ListType int8) ((number 1, list []) ∷ (number 2, list []) ∷ (number 3, list []) ∷ [])) (call IsIn (slice a (literal (pos 0)) two ∷ b ∷ [])) ≡ Fault }
    ensures units { let moments = beside (DatetimeType Nanoseconds) (DatetimeType Milliseconds) ((number 1000000, number 1) ∷ (number 1000001, number 9223372036854775807) ∷ []) in
        let spans = beside (DurationType Nanoseconds) (ListType (DurationType Milliseconds)) (
        (number 2000000, list (number 9223372036854775807 ∷ number 2 ∷ [])) ∷ (number 5, list (number 9223372036854775807 ∷ [])) ∷ []) in
        GivesAll (λ frame. means frame (call IsIn (a ∷ b ∷ []))) (Done (yes ∷ no ∷ [])) (moments ∷ spans ∷ []) }
    ensures no_rows { means (alone int8 []) (call IsIn (a ∷ one ∷ [])) ≡ Done [] }
    ensures others { is_in_values (int8 ∷ int8 ∷ []) ((number 1 ∷ []) ∷ []) ≡ Stuck }
    ensures runs { Gives (runs table) ((call IsIn (a ∷ a ∷ []), Done (yes ∷ null ∷ yes ∷ [])) ∷ (call IsIn (a ∷ b ∷ []), Stuck) ∷ []) }
{}
