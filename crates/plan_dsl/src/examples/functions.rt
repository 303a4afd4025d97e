//! Functions of values: names, types, values, and what is said of them beside these.

ghost use Rattle.std.specs.Prelude.{◌≡◌, ℕ, List, [], ◌∷◌, pos, neg_ℤ, map, codes, true, false, Some, None, Result, Ok, Err};
ghost use Rattle.plan_types.specs.Types.{Ty, NullType, Truth, TextType, DateType, ListType, Untyped};
ghost use Rattle.plan_types.specs.Casts.{Converted, Gives as GivesValue, Fails};
ghost use Rattle.plan_types.specs.Outcomes.{Done, Fault, Stuck};
ghost use Rattle.plan_types.specs.Schemas.{Columns};
ghost use Rattle.plan_types.specs.declared.dtype.CastOptions.TheVariants.{NonStrict};
ghost use Rattle.plan_types.specs.declared.error.ErrorKind.{ErrorKind};
ghost use Rattle.plan_types.specs.declared.error.ErrorKind.TheVariants.{ColumnNotFound, SchemaMismatch, InvalidOperation, ComputeError};
ghost use Rattle.plan_dsl.specs.declared.function_expr.FunctionExpr.{FunctionExpr};
ghost use Rattle.plan_dsl.specs.declared.function_expr.FunctionExpr.TheVariants.{AllHorizontal, AnyHorizontal, IsNull, IsNotNull, FillNull, IsIn, ShiftAndFill, ListGet, FieldByName, FieldByIndex};
ghost use Rattle.plan_dsl.specs.declared.function_options.ApplyOptions.TheVariants.{ElementWise, GroupWise};
ghost use Rattle.plan_dsl.specs.Aliases.{core};
ghost use Rattle.plan_dsl.specs.FunctionTypes.{field_type};
ghost use Rattle.plan_dsl.specs.Functions.{apply_kind, function_flags, function_rank, is_elementwise_function, is_expanded_function, never_faults, same_function};
ghost use Rattle.plan_dsl.specs.FunctionValues.{list_item, moved_down, moved_up, shift_values};
ghost use Rattle.plan_dsl.specs.Names.{alias_label, column_label, field_label, label_of, literal_label};
ghost use Rattle.plan_dsl.specs.Ops.{FunctionOp, LiteralOp};
ghost use Rattle.plan_dsl.specs.Rows.{length_of_all, side_by_side};
ghost use Rattle.plan_dsl.specs.Strictness.{is_strict};
ghost use Rattle.plan_dsl.specs.Trees.{node, no_more, more};
ghost use Rattle.plan_dsl.specs.Typing.{kinds_in, typing};
ghost use Rattle.plan_dsl.specs.Samples.{Gives, GivesOfTwo, GivesAll, int8, int16, int32, int64, uint32, uint64, null, yes, no, number, negative, text, list, struct_of, struct_type, a, b, c, s, t, u, count, literal, typed_literal, one, two, five, below, wide, huge, nothing, sum, cast_as, alias, call, of_many, of_one, means, runs, alone, beside, one_to_five, four_columns, schema_ab, schema_abc, table};

/// A function has the name of its first operand, and without one that of a literal. A field has its own. Where names of
/// operands are recorded the first of these is the function's.
pub fn names_of_functions()
    ensures labels { Gives label_of (
        (call IsNull (a ∷ []), column_label (codes "a")) ∷ (call FillNull (one ∷ a ∷ []), literal_label (codes "literal")) ∷ (call FillNull (alias "x" a ∷ b ∷ []), alias_label (codes "x")) ∷
        (call IsNull [], literal_label (codes "literal")) ∷ (call (FieldByName (codes "y")) (alias "x" s ∷ []), field_label (codes "y")) ∷
        (node (FunctionOp FillNull (alias_label (codes "z") ∷ [])) (more a (more b no_more)), alias_label (codes "z")) ∷ []) }
    ensures recorded { Gives core (
        (call FillNull (alias "x" a ∷ sum (alias "y" b) one ∷ []), node (FunctionOp FillNull (alias_label (codes "x") ∷ alias_label (codes "y") ∷ [])) (more a (more (sum b one) no_more))) ∷ (
          alias "z" (call IsNull (call IsNull (alias "x" a ∷ []) ∷ [])),
          node (FunctionOp IsNull (alias_label (codes "x") ∷ [])) (more (node (FunctionOp IsNull (alias_label (codes "x") ∷ [])) (more a no_more)) no_more),
        ) ∷
        (call IsNull [], call IsNull []) ∷ []) }
{}

/// Tests of nulls take one operand of any type, and give truth values. Another number of operands is refused where all have
/// types.
pub fn tests_of_nulls()
    ensures types { Gives (typing [] schema_abc) (
        (call IsNull (a ∷ []), of_many Truth) ∷ (call IsNotNull (c ∷ []), of_many Truth) ∷ (call IsNull (one ∷ []), of_one Truth) ∷ (call IsNull (nothing ∷ []), of_one Truth) ∷
        (call IsNull [], Err ComputeError) ∷ (call IsNotNull (a ∷ b ∷ []), Err ComputeError) ∷ (call IsNull (s ∷ a ∷ []), Err ColumnNotFound) ∷ (call IsNull (huge ∷ []), Err InvalidOperation) ∷ []) }
    ensures kinds { Gives (kinds_in [] schema_abc) ((call IsNull (s ∷ a ∷ []), ColumnNotFound ∷ []) ∷ (call IsNull (a ∷ b ∷ []), ComputeError ∷ []) ∷ (call IsNull (huge ∷ []), InvalidOperation ∷ []) ∷ []) }
    ensures strict { Gives (is_strict [] schema_abc) ((call IsNull (a ∷ []), true) ∷ (call IsNull (one ∷ []), false) ∷ (call IsNull (nothing ∷ []), true) ∷ []) }
    ensures values { Gives (means table) (
        (call IsNull (a ∷ []), Done (no ∷ yes ∷ no ∷ [])) ∷ (call IsNotNull (a ∷ []), Done (yes ∷ no ∷ yes ∷ [])) ∷ (call IsNull (nothing ∷ []), Done (yes ∷ [])) ∷ (call IsNotNull (one ∷ []), Done (yes ∷ [])) ∷ []) }
    ensures no_rows { means (alone int8 []) (call IsNull (a ∷ [])) ≡ Done [] }
{}

/// Nulls are filled by values of the common type.
pub fn filled_nulls()
    ensures types { let text_literal = node (LiteralOp TextType (text "x")) no_more in
        Gives (typing [] four_columns) (
        (call FillNull (a ∷ wide ∷ []), of_many int16) ∷ (call FillNull (a ∷ one ∷ []), of_many int8) ∷ (call FillNull (a ∷ b ∷ []), of_many int64) ∷ (call FillNull (nothing ∷ a ∷ []), of_many int8) ∷
        (call FillNull (one ∷ two ∷ []), of_one int32) ∷ (call FillNull (one ∷ a ∷ []), of_many int8) ∷ (call FillNull (a ∷ text_literal ∷ []), of_many TextType) ∷
        (call FillNull (a ∷ u ∷ []), Err SchemaMismatch) ∷ (call FillNull (a ∷ huge ∷ []), Err InvalidOperation) ∷ (call FillNull (a ∷ []), Err ComputeError) ∷ (call FillNull (a ∷ a ∷ a ∷ []), Err ComputeError) ∷ []) }
    ensures values { Gives (means table) (
        (call FillNull (a ∷ five ∷ []), Done (number 1 ∷ number 5 ∷ number 100 ∷ [])) ∷ (call FillNull (a ∷ b ∷ []), Done (number 1 ∷ number 20 ∷ number 100 ∷ [])) ∷
        (call FillNull (nothing ∷ b ∷ []), Done (number 10 ∷ number 20 ∷ number 200 ∷ [])) ∷ (call FillNull (a ∷ wide ∷ []), Done (number 1 ∷ number 300 ∷ number 100 ∷ [])) ∷
        (call FillNull (nothing ∷ nothing ∷ []), Done (null ∷ [])) ∷ (call FillNull (a ∷ call FillNull (a ∷ one ∷ []) ∷ []), Done (number 1 ∷ number 1 ∷ number 100 ∷ [])) ∷ []) }
    ensures runs { Gives (runs table) ((call FillNull (a ∷ a ∷ []), Done (number 1 ∷ null ∷ number 100 ∷ [])) ∷ (call FillNull (a ∷ b ∷ []), Stuck) ∷ []) }
{}

/// A column is moved by one number, and one value stands in the places that are left. A null number gives nulls.
pub fn shifted_columns()
    ensures types { let text_literal = node (LiteralOp TextType (text "x")) no_more in
        Gives (typing [] four_columns) (
        (call ShiftAndFill (a ∷ one ∷ five ∷ []), of_many int8) ∷ (call ShiftAndFill (a ∷ one ∷ wide ∷ []), of_many int16) ∷ (call ShiftAndFill (five ∷ one ∷ two ∷ []), of_many int32) ∷ (call ShiftAndFill (a ∷ count ∷ nothing ∷ []), of_many int8) ∷
        (call ShiftAndFill (a ∷ a ∷ five ∷ []), Err InvalidOperation) ∷ (call ShiftAndFill (a ∷ one ∷ b ∷ []), Err InvalidOperation) ∷ (call ShiftAndFill (a ∷ text_literal ∷ five ∷ []), Err InvalidOperation) ∷
        (call ShiftAndFill (a ∷ nothing ∷ five ∷ []), Err InvalidOperation) ∷ (call ShiftAndFill (t ∷ one ∷ cast_as NonStrict (ListType int8) nothing ∷ []), Err SchemaMismatch) ∷
        (call ShiftAndFill (a ∷ one ∷ []), Err ComputeError) ∷ (call ShiftAndFill (a ∷ one ∷ one ∷ one ∷ []), Err ComputeError) ∷ []) }
    ensures values { Gives (λ count. means one_to_five (call ShiftAndFill (a ∷ count ∷ literal (pos 9) ∷ []))) (
        (two, Done (number 9 ∷ number 9 ∷ number 1 ∷ number 2 ∷ number 3 ∷ [])) ∷ (below, Done (number 2 ∷ number 3 ∷ number 4 ∷ number 5 ∷ number 9 ∷ [])) ∷
        (literal (pos 0), Done (number 1 ∷ number 2 ∷ number 3 ∷ number 4 ∷ number 5 ∷ [])) ∷ (literal (pos 5), Done (number 9 ∷ number 9 ∷ number 9 ∷ number 9 ∷ number 9 ∷ [])) ∷
        (literal (pos 7), Done (number 9 ∷ number 9 ∷ number 9 ∷ number 9 ∷ number 9 ∷ [])) ∷ (literal (neg_ℤ (pos 7)), Done (number 9 ∷ number 9 ∷ number 9 ∷ number 9 ∷ number 9 ∷ [])) ∷
        (literal (neg_ℤ (pos 4)), Done (number 5 ∷ number 9 ∷ number 9 ∷ number 9 ∷ number 9 ∷ [])) ∷
        (cast_as NonStrict int64 nothing, Done (null ∷ null ∷ null ∷ null ∷ null ∷ [])) ∷
        (typed_literal uint64 (pos 9223372036854775808), Done (null ∷ null ∷ null ∷ null ∷ null ∷ [])) ∷ []) }
    ensures filled { Gives (means one_to_five) (
        (call ShiftAndFill (a ∷ two ∷ nothing ∷ []), Done (null ∷ null ∷ number 1 ∷ number 2 ∷ number 3 ∷ [])) ∷ (call ShiftAndFill (five ∷ one ∷ two ∷ []), Done (number 2 ∷ [])) ∷ []) }
    ensures no_rows { means (alone int8 []) (call ShiftAndFill (a ∷ one ∷ five ∷ [])) ≡ Done [] }
    ensures moved { Gives (λ count. moved_down count (number 1 ∷ number 2 ∷ []) null) ((0, number 1 ∷ number 2 ∷ []) ∷ (1, null ∷ number 1 ∷ []) ∷ (3, null ∷ null ∷ []) ∷ []) }
    ensures moved_back { Gives (λ count. moved_up count (number 1 ∷ number 2 ∷ []) null) ((0, number 1 ∷ number 2 ∷ []) ∷ (1, number 2 ∷ null ∷ []) ∷ (3, null ∷ null ∷ []) ∷ []) }
    ensures others { GivesAll shift_values Stuck ([] ∷ ((number 1 ∷ []) ∷ [] ∷ (null ∷ []) ∷ []) ∷ ((number 1 ∷ []) ∷ (number 1 ∷ []) ∷ (null ∷ null ∷ []) ∷ []) ∷ []) }
{}

/// An item of a list: an index below 0 counts from the end, and one outside gives null or is a fault. One past Int64 is null.
pub fn items_of_lists()
    ensures types { let columns : Columns = (codes "a", ListType int8) ∷ (codes "b", ListType (ListType TextType)) ∷ (codes "c", int8) ∷ [] in
        let text_literal = node (LiteralOp TextType (text "x")) no_more in
        Gives (typing [] columns) (
        (call (ListGet true) (a ∷ one ∷ []), of_many int8) ∷ (call (ListGet false) (b ∷ c ∷ []), of_many (ListType TextType)) ∷ (call (ListGet false) (cast_as NonStrict (ListType int8) nothing ∷ one ∷ []), of_one int8) ∷
        (call (ListGet true) (c ∷ one ∷ []), Err InvalidOperation) ∷ (call (ListGet true) (nothing ∷ one ∷ []), Err InvalidOperation) ∷ (call (ListGet true) (a ∷ text_literal ∷ []), Err InvalidOperation) ∷
        (call (ListGet true) (a ∷ nothing ∷ []), Err InvalidOperation) ∷ (call (ListGet true) (a ∷ []), Err ComputeError) ∷ (call (ListGet false) (a ∷ one ∷ one ∷ []), Err ComputeError) ∷ []) }
    ensures values { let lists = alone (ListType int8) (list (number 7 ∷ number 8 ∷ []) ∷ list [] ∷ null ∷ list (null ∷ []) ∷ []) in
        GivesOfTwo (λ flag index. means lists (call (ListGet flag) (a ∷ index ∷ []))) (
        (true, literal (pos 0), Done (number 7 ∷ null ∷ null ∷ null ∷ [])) ∷ (true, one, Done (number 8 ∷ null ∷ null ∷ null ∷ [])) ∷ (true, below, Done (number 8 ∷ null ∷ null ∷ null ∷ [])) ∷
        (true, literal (neg_ℤ (pos 3)), Done (null ∷ null ∷ null ∷ null ∷ [])) ∷ (true, cast_as NonStrict int64 nothing, Done (null ∷ null ∷ null ∷ null ∷ [])) ∷
        (false, literal (pos 0), Fault) ∷ (false, cast_as NonStrict int64 nothing, Done (null ∷ null ∷ null ∷ null ∷ [])) ∷ []) }
    ensures rows { GivesOfTwo list_item (
        (false, list (number 7 ∷ number 8 ∷ []) ∷ number 1 ∷ [], GivesValue (number 8)) ∷ (false, list (number 7 ∷ []) ∷ number 1 ∷ [], Fails) ∷ (false, list (number 7 ∷ []) ∷ negative 2 ∷ [], Fails) ∷
        (true, list (number 7 ∷ []) ∷ negative 2 ∷ [], GivesValue null) ∷ (false, null ∷ number 1 ∷ [], GivesValue null) ∷ (false, list [] ∷ null ∷ [], GivesValue null) ∷
        (false, list (list (number 1 ∷ []) ∷ []) ∷ negative 1 ∷ [], GivesValue (list (number 1 ∷ []))) ∷ []) }
    ensures each { means (beside (ListType int8) int8 ((list (number 7 ∷ number 8 ∷ []), number 1) ∷ (list (number 9 ∷ []), negative 1) ∷ (null, number 5) ∷ (list [], null) ∷ [])) (call (ListGet false) (a ∷ b ∷ [])) ≡ Done (number 8 ∷ number 9 ∷ null ∷ null ∷ []) }
    ensures past_int64 { means (beside (ListType int8) uint64 ((list (number 7 ∷ []), number 9223372036854775808) ∷ [])) (call (ListGet false) (a ∷ b ∷ [])) ≡ Done (null ∷ []) }
{}

/// A field of a struct by its name: the first so named, and null of a null struct.
pub fn fields_of_structs()
    ensures types { let columns : Columns = (codes "s", struct_type ((codes "x", int8) ∷ (codes "y", TextType) ∷ (codes "x", int16) ∷ [])) ∷ (codes "a", int8) ∷ [] in
        Gives (typing [] columns) (
        (call (FieldByName (codes "y")) (s ∷ []), of_many TextType) ∷ (call (FieldByName (codes "x")) (s ∷ []), of_many int8) ∷ (call (FieldByName (codes "z")) (s ∷ []), Err InvalidOperation) ∷
        (call (FieldByName (codes "x")) (a ∷ []), Err InvalidOperation) ∷ (call (FieldByName (codes "x")) (nothing ∷ []), Err InvalidOperation) ∷ (call (FieldByName (codes "x")) (one ∷ []), Err InvalidOperation) ∷
        (call (FieldByName (codes "x")) [], Err ComputeError) ∷ (call (FieldByName (codes "x")) (s ∷ s ∷ []), Err ComputeError) ∷ (call (FieldByIndex (pos 0)) (s ∷ []), Err InvalidOperation) ∷ (call (FieldByIndex (pos 0)) [], Err InvalidOperation) ∷ (call (FieldByIndex (pos 0)) (s ∷ s ∷ []), Err InvalidOperation) ∷ []) }
    ensures values { let columns : Ty = struct_type ((codes "x", int8) ∷ (codes "y", TextType) ∷ (codes "x", int16) ∷ []) in
        Gives (λ name. means (alone columns (struct_of (number 1 ∷ text "p" ∷ number 300 ∷ []) ∷ null ∷ struct_of (null ∷ text "q" ∷ null ∷ []) ∷ [])) (call (FieldByName (codes name)) (a ∷ []))) (
        ("x", Done (number 1 ∷ null ∷ null ∷ [])) ∷ ("y", Done (text "p" ∷ null ∷ text "q" ∷ [])) ∷ []) }
{}

/// Functions that are one, and what is said of them beside their values.
pub fn functions_by_kind()
    ensures one { GivesAll (λ function. same_function function function) true (
        AllHorizontal ∷ AnyHorizontal ∷ IsNull ∷ IsNotNull ∷ FillNull ∷ IsIn ∷ ShiftAndFill ∷ ListGet true ∷ ListGet false ∷ FieldByName (codes "x") ∷ FieldByIndex (neg_ℤ (pos 1)) ∷ []) }
    ensures others { GivesOfTwo same_function (
        (AllHorizontal, AnyHorizontal, false) ∷ (IsNull, IsNotNull, false) ∷ (ListGet true, ListGet false, false) ∷ (FieldByName (codes "x"), FieldByName (codes "y"), false) ∷
        (FieldByIndex (pos 1), FieldByIndex (pos 0), false) ∷ (FieldByName [], FieldByIndex (pos 0), false) ∷ (FillNull, IsIn, false) ∷ (ShiftAndFill, ListGet true, false) ∷ []) }
    ensures kinds { Gives apply_kind ((IsIn, GroupWise) ∷ (ShiftAndFill, GroupWise) ∷ (ListGet false, ElementWise) ∷ (AllHorizontal, ElementWise) ∷ (FieldByIndex (pos 0), ElementWise) ∷ []) }
    ensures flags { Gives function_flags (
        (AllHorizontal, 12) ∷ (AnyHorizontal, 12) ∷ (IsNull, 8) ∷ (IsNotNull, 8) ∷ (FillNull, 8) ∷ (IsIn, 0) ∷ (ShiftAndFill, 0) ∷ (ListGet true, 8) ∷ (ListGet false, 0) ∷ (FieldByName (codes "x"), 8) ∷ (FieldByIndex (pos 0), 8) ∷ []) }
    ensures expanded { Gives is_expanded_function ((FieldByIndex (pos 0), false) ∷ (FieldByName (codes "x"), true) ∷ (AllHorizontal, true) ∷ []) }
{}

/// Columns are brought to the length that they have or have one of, and stand side by side.
pub fn columns_side_by_side()
    ensures lengths { Gives length_of_all (
        ([], Some 1) ∷ (1 ∷ [], Some 1) ∷ (3 ∷ 1 ∷ 3 ∷ [], Some 3) ∷ (1 ∷ 1 ∷ 2 ∷ [], Some 2) ∷ (2 ∷ 1 ∷ 3 ∷ [], None) ∷ (1 ∷ 0 ∷ [], Some 0) ∷ (0 ∷ 2 ∷ [], None) ∷ (1 ∷ 2 ∷ 3 ∷ [], None) ∷ []) }
    ensures rows { Gives side_by_side (
        ([], Done ([] ∷ [])) ∷ ((number 1 ∷ number 2 ∷ []) ∷ (yes ∷ []) ∷ [], Done ((number 1 ∷ yes ∷ []) ∷ (number 2 ∷ yes ∷ []) ∷ [])) ∷
        ((yes ∷ []) ∷ [] ∷ [], Done []) ∷ ((yes ∷ no ∷ []) ∷ [] ∷ [], Fault) ∷ []) }
{}
