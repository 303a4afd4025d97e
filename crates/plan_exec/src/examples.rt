//! Small cases of the definitions that this crate's contracts cite.

ghost use Rattle.std.specs.Prelude.{◌≡◌, ℕ, List, [], ◌∷◌, codes, true, false, None, Some};
ghost use Rattle.plan_types.specs.Types.{ListType, fields_from, NullType, TextType};
ghost use Rattle.plan_types.specs.Schemas.{Name, same_name};
ghost use Rattle.plan_types.specs.Values.{Val};
ghost use Rattle.plan_dsl.specs.Samples.{Gives, GivesOfTwo, int8, int32, number, null, list, frame_with, one_field, struct_of, struct_type, text};
ghost use Rattle.plan_exec.specs.ColumnFunctions.{counts_in, exploded_column, opened_columns, parted, parts_in, renamed_column, repeated, some_listed, unnested_column, AllCast, below_type, column_times, columns_named, names_below, unpivoted_shown, values_below};
ghost use Rattle.plan_exec.specs.LaidFrames.{Shown, beside, column_under, laid};

/// Frames are laid of columns, row by row. A column is looked up by its name.
pub fn laid_frames()
    ensures laid { let a : Shown = ((codes "a", int8), number 1 ∷ null ∷ []) in
        let b : Shown = ((codes "b", int32), number 3 ∷ number 4 ∷ []) in
        laid 2 (a ∷ b ∷ []) ≡ frame_with ((codes "a", int8) ∷ (codes "b", int32) ∷ []) ((number 1 ∷ number 3 ∷ []) ∷ (null ∷ number 4 ∷ []) ∷ []) }
    ensures bare { Gives (λ count. beside count []) ((0, []) ∷ (2, [] ∷ [] ∷ []) ∷ []) }
    ensures found { let a : Shown = ((codes "a", int8), number 1 ∷ []) in
        let b : Shown = ((codes "b", int32), number 3 ∷ []) in
        (column_under (a ∷ b ∷ []) (codes "b") ≡ b) × (column_under (a ∷ b ∷ []) (codes "a") ≡ a) }
{}

/// An explode makes a row for each item of a list, and one for an empty list and for a null. Other values are repeated.
pub fn exploded_columns()
    ensures counts { Gives counts_in ((list (number 1 ∷ number 2 ∷ []) ∷ list [] ∷ null ∷ [], 2 ∷ 1 ∷ 1 ∷ []) ∷ ([], []) ∷ []) }
    ensures repeated { GivesOfTwo repeated (
        (2 ∷ 1 ∷ [], number 5 ∷ number 6 ∷ [], number 5 ∷ number 5 ∷ number 6 ∷ []) ∷ (0 ∷ 1 ∷ [], number 5 ∷ null ∷ [], null ∷ []) ∷ ([], number 5 ∷ [], []) ∷ []) }
    ensures columns { let test : Name → _ = same_name (codes "l") in
        Gives (exploded_column test (2 ∷ 1 ∷ [])) (
        (((codes "l", ListType int8), list (number 1 ∷ null ∷ []) ∷ list [] ∷ []), ((codes "l", int8), number 1 ∷ null ∷ null ∷ [])) ∷
        (((codes "b", int32), number 7 ∷ number 8 ∷ []), ((codes "b", int32), number 7 ∷ number 7 ∷ number 8 ∷ [])) ∷ []) }
    ensures some { Gives (some_listed (same_name (codes "l"))) (
        ((((codes "b", int32), []) ∷ ((codes "l", ListType int8), []) ∷ []), true) ∷ ((((codes "b", int32), []) ∷ []), false) ∷ ([], false) ∷ []) }
{}

/// A rename changes names alone. Of two new names for one the later counts.
pub fn renamed_columns()
    ensures columns { let values : List Val = number 1 ∷ null ∷ [] in
        Gives (renamed_column (codes "a" ∷ codes "b" ∷ codes "a" ∷ []) (codes "b" ∷ codes "c" ∷ codes "d" ∷ [])) (
        (((codes "a", int8), values), ((codes "d", int8), values)) ∷ (((codes "b", int8), values), ((codes "c", int8), values)) ∷ (((codes "e", int8), values), ((codes "e", int8), values)) ∷ []) }
{}

/// An unnest makes a column for each field of structs, in which a null has nulls. Other columns stay.
pub fn unnested_columns()
    ensures parts { Gives parts_in ((struct_of (number 1 ∷ null ∷ []), number 1 ∷ null ∷ []) ∷ (struct_of [], []) ∷ (null, []) ∷ (list (number 1 ∷ []), []) ∷ []) }
    ensures parted { let rows : List (List Val) = (number 1 ∷ number 2 ∷ []) ∷ [] ∷ (null ∷ number 4 ∷ []) ∷ [] in
        (parted (fields_from ((codes "x", int8) ∷ (codes "y", int32) ∷ [])) rows ≡
        ((codes "x", int8), number 1 ∷ null ∷ null ∷ []) ∷ ((codes "y", int32), number 2 ∷ null ∷ number 4 ∷ []) ∷ [])
        × (parted (fields_from ((codes "x", int8) ∷ [])) [] ≡ ((codes "x", int8), []) ∷ []) × (parted (fields_from []) rows ≡ []) }
    ensures opened { Gives (λ type. opened_columns (codes "s") type (null ∷ struct_of (number 3 ∷ []) ∷ [])) (
        (one_field "x" int8, ((codes "x", int8), null ∷ number 3 ∷ []) ∷ []) ∷ (struct_type [], []) ∷
        (ListType (one_field "x" int8), ((codes "s", ListType (one_field "x" int8)), null ∷ struct_of (number 3 ∷ []) ∷ []) ∷ []) ∷ []) }
    ensures columns { let test : Name → _ = same_name (codes "s") in
        let values : List Val = struct_of (number 1 ∷ number 2 ∷ []) ∷ null ∷ [] in
        let structs = struct_type ((codes "s", int8) ∷ (codes "x", int32) ∷ []) in
        Gives (unnested_column test) (
        (((codes "s", structs), values), ((codes "s", int8), number 1 ∷ null ∷ []) ∷ ((codes "x", int32), number 2 ∷ null ∷ []) ∷ []) ∷
        (((codes "b", structs), values), ((codes "b", structs), values) ∷ []) ∷ (((codes "s", int8), number 7 ∷ []), ((codes "s", int8), number 7 ∷ []) ∷ []) ∷ []) }
{}

/// An unpivot puts the values of columns below each other, in a common type and each behind its column's name. Those of the index
/// are repeated.
pub fn unpivoted_columns()
    ensures repeated { GivesOfTwo column_times (
        (2, ((codes "k", int8), number 1 ∷ null ∷ []), ((codes "k", int8), number 1 ∷ null ∷ number 1 ∷ null ∷ [])) ∷
        (0, ((codes "k", int8), number 1 ∷ []), ((codes "k", int8), [])) ∷ (3, ((codes "k", int8), []), ((codes "k", int8), [])) ∷ []) }
    ensures names { let a : Shown = ((codes "a", int8), number 1 ∷ null ∷ []) in
        let b : Shown = ((codes "b", int32), number 3 ∷ []) in
        Gives names_below ((a ∷ b ∷ [], text "a" ∷ text "a" ∷ text "b" ∷ []) ∷ (((codes "c", int8), []) ∷ b ∷ [], text "b" ∷ []) ∷ ([], []) ∷ []) }
    ensures values { let a : Shown = ((codes "a", int8), number 1 ∷ null ∷ []) in
        let b : Shown = ((codes "b", int32), number 128 ∷ number 3 ∷ []) in
        GivesOfTwo values_below ((int32, a ∷ b ∷ [], number 1 ∷ null ∷ number 128 ∷ number 3 ∷ []) ∷ (int8, b ∷ a ∷ [], null ∷ number 3 ∷ number 1 ∷ null ∷ []) ∷ (int8, [], []) ∷ []) }
    ensures casts { let a : Shown = ((codes "a", int8), number 1 ∷ null ∷ []) in
        let b : Shown = ((codes "b", int8), number 128 ∷ []) in
        AllCast int32 (a ∷ []) × (¬ (AllCast int32 (a ∷ b ∷ []))) × (¬ (AllCast (ListType int8) (a ∷ []))) × AllCast NullType [] }
    ensures named { let a : Shown = ((codes "a", int8), number 1 ∷ []) in
        let b : Shown = ((codes "b", int32), number 3 ∷ []) in
        Gives (columns_named (a ∷ b ∷ [])) ((codes "b" ∷ codes "a" ∷ codes "b" ∷ [], b ∷ a ∷ b ∷ []) ∷ (codes "c" ∷ [], ((codes "c", NullType), []) ∷ []) ∷ ([], []) ∷ []) }
    ensures common { GivesOfTwo (below_type ((codes "k", int8) ∷ (codes "a", int8) ∷ (codes "b", int32) ∷ (codes "l", ListType int8) ∷ [])) (
        (codes "a" ∷ codes "b" ∷ [], [], int32) ∷ (codes "k" ∷ [], [], int8) ∷ ([], codes "b" ∷ codes "l" ∷ [], int8) ∷ (codes "a" ∷ codes "l" ∷ [], [], NullType) ∷ []) }
    ensures columns { let k : Shown = ((codes "k", int8), number 7 ∷ number 8 ∷ []) in
        let a : Shown = ((codes "a", int8), number 1 ∷ null ∷ []) in
        let b : Shown = ((codes "b", int32), number 3 ∷ number 4 ∷ []) in
        let named : List Val → Shown = λ values. ((codes "variable", TextType), values) in
        let valued : List Val → Shown = λ values. ((codes "v", int32), values) in
        GivesOfTwo (λ on index. unpivoted_shown on index None (Some (codes "v")) (k ∷ a ∷ b ∷ [])) (
        ([], codes "k" ∷ [], column_times 2 k ∷ named (text "a" ∷ text "a" ∷ text "b" ∷ text "b" ∷ []) ∷ valued (number 1 ∷ null ∷ number 3 ∷ number 4 ∷ []) ∷ []) ∷
        (codes "b" ∷ [], codes "a" ∷ codes "k" ∷ [], a ∷ k ∷ named (text "b" ∷ text "b" ∷ []) ∷ valued (number 3 ∷ number 4 ∷ []) ∷ []) ∷
        (codes "a" ∷ [], [], named (text "a" ∷ text "a" ∷ []) ∷ ((codes "v", int8), number 1 ∷ null ∷ []) ∷ []) ∷ []) }
{}
