//! Worked examples on schemas: names, columns, and calls on them.

ghost use Rattle.std.specs.Prelude.{◌≡◌, ◌++◌, pos, [], ◌∷◌, codes, true, false, Some, None, Ok, Err, insert};
ghost use Rattle.std.specs.List.{AllByRecursion};
ghost use Rattle.plan_types.specs.Types.{Ty, NullType, Truth, TextType, DateType, TimeType, DatetimeType, DurationType, ListType, Untyped};
ghost use Rattle.plan_types.specs.Schemas.{Name, IsNewName, HasDistinctNames, type_at, with_column, is_among, repeats, names_of, all_known};
ghost use Rattle.plan_types.specs.SchemaCalls.{column_at, same_names, common_columns, super_columns};
ghost use Rattle.plan_types.specs.Samples.{Maps, MapsPairs, int16, int32, int64, int8, schema_a, schema_ab, uint32, uint64, uint8};
ghost use Rattle.plan_types.specs.declared.error.ErrorKind.TheVariants.{SchemaMismatch, InvalidOperation};
ghost use Rattle.plan_types.specs.declared.dtype.TimeUnit.TheVariants.{Nanoseconds, Microseconds, Milliseconds};

/// The type of a name is that of the first column with it, and so is its place.
pub fn names_that_are_found()
    ensures types { MapsPairs type_at (([], codes "a", None) ∷ (schema_ab int8 int32, codes "a", Some int8) ∷ (schema_ab int8 int32, codes "b", Some int32)
        ∷ (schema_ab int8 int32, codes "c", None) ∷ (schema_a int8, codes "aa", None) ∷ (schema_a int8, codes "A", None) ∷ ((codes "", uint8) ∷ [], codes "", Some uint8) ∷
        ((codes "a", int8) ∷ (codes "a", int16) ∷ [], codes "a", Some int8) ∷ []) }
    ensures places { MapsPairs column_at (([], codes "a", None) ∷ (schema_ab int8 int32, codes "a", Some (0, (codes "a", int8))) ∷ (schema_ab int8 int32, codes "b", Some (1, (codes "b", int32)))
        ∷ (schema_ab int8 int32, codes "c", None) ∷ ((codes "b", int8) ∷ (codes "a", int8) ∷ (codes "a", int16) ∷ [], codes "a", Some (1, (codes "a", int8))) ∷ []) }
{}

/// A column is put in its namesake's place, else at the end. Put in at a place, it moves the later ones.
pub fn columns_put_in()
    ensures by_name { Maps (λ name. with_column (schema_ab int8 int32) name uint64) ((codes "a", schema_ab uint64 int32) ∷ (codes "b", schema_ab int8 uint64)
        ∷ (codes "c", schema_ab int8 int32 ++ (codes "c", uint64) ∷ []) ∷ []) }
    ensures by_place { Maps (λ place. insert {X = Name × Ty} (schema_ab int8 int32) place (codes "c", uint8))
        ((0, (codes "c", uint8) ∷ schema_ab int8 int32) ∷ (1, (codes "a", int8) ∷ (codes "c", uint8) ∷ (codes "b", int32) ∷ []) ∷ (2, schema_ab int8 int32 ++ (codes "c", uint8) ∷ []) ∷ []) }
    ensures alone { with_column [] (codes "a") int8 ∷ insert {X = Name × Ty} [] 0 (codes "a", int8) ∷ [] ≡ schema_a int8 ∷ schema_a int8 ∷ [] }
{}

/// Whether a name is one of a list, whether some name stands twice, and names that no column has.
pub fn repeated_names()
    ensures among { MapsPairs is_among ((codes "b", codes "a" ∷ codes "b" ∷ [], true) ∷ (codes "a", codes "ab" ∷ codes "A" ∷ [], false) ∷ []) }
    ensures repeated { Maps repeats (([], false) ∷ (codes "a" ∷ [], false) ∷ (codes "a" ∷ codes "b" ∷ codes "ab" ∷ [], false) ∷ (codes "a" ∷ codes "a" ∷ [], true)
        ∷ (codes "a" ∷ codes "b" ∷ codes "a" ∷ [], true) ∷ (codes "a" ∷ codes "b" ∷ codes "c" ∷ codes "b" ∷ [], true) ∷ []) }
    ensures of_columns { names_of (schema_ab int8 int32) ≡ codes "a" ∷ codes "b" ∷ [] }
    ensures distinct_columns { AllByRecursion HasDistinctNames ([] ∷ ((codes "a", int8) ∷ (codes "b", int8) ∷ (codes "A", int8) ∷ []) ∷ []) }
    ensures repeated_columns { ¬ (HasDistinctNames ((codes "b", int8) ∷ (codes "a", int8) ∷ (codes "c", int8) ∷ (codes "a", uint8) ∷ [])) }
    ensures new { IsNewName (schema_a int8) (codes "b") }
    ensures known { ¬ (IsNewName (schema_ab int8 int8) (codes "b")) }
{}

/// Whether each column has a type of columns, at every depth.
pub fn columns_of_known_types()
    ensures { Maps all_known (([], true) ∷ (schema_ab NullType (ListType int8), true) ∷ (schema_ab (Untyped (pos 5)) int8, false) ∷ (schema_ab int8 (Untyped (pos 5)), false)
        ∷ (schema_a (ListType (ListType (Untyped (pos 5)))), false) ∷ []) }
{}

/// Names are compared in order, before any type. Then each pair side by side has its common type, or there are no common
/// columns.
pub fn schemas_side_by_side()
    ensures names { MapsPairs same_names (([], [], true) ∷ (schema_ab int8 int32, schema_ab uint8 Truth, true) ∷ (schema_ab int8 int8, (codes "b", int8) ∷ (codes "a", int8) ∷ [], false)
        ∷ (schema_a int8, schema_ab int8 int8, false) ∷ (schema_ab int8 int8, schema_a int8, false) ∷ (schema_a int8, (codes "A", int8) ∷ [], false) ∷ []) }
    ensures common { MapsPairs common_columns (([], [], Some []) ∷ (schema_ab int8 uint32, schema_ab int64 int32, Some (schema_ab int64 int64)) ∷ (schema_ab int8 uint64, schema_ab int8 int8, None) ∷ []) }
    ensures shorter { MapsPairs common_columns ((schema_a int8, [], None) ∷ ([], schema_a int8, None) ∷ (schema_a int8, schema_ab int8 int8, None) ∷ (schema_ab int8 int8, schema_a int8, None) ∷ []) }
    ensures found { MapsPairs super_columns (([], [], Ok []) ∷ (schema_a Truth, schema_a uint8, Ok (schema_a uint8)) ∷ []) }
    ensures null_and_times { super_columns (schema_ab NullType DateType ++ (codes "c", DurationType Nanoseconds) ∷ (codes "d", int8) ∷ [])
        (schema_ab TimeType (DatetimeType Microseconds) ++ (codes "c", DurationType Milliseconds) ∷ (codes "d", TextType) ∷ [])
        ≡ Ok (schema_ab TimeType (DatetimeType Microseconds) ++ (codes "c", DurationType Milliseconds) ∷ (codes "d", TextType) ∷ []) }
    ensures refused { MapsPairs super_columns ((schema_a TextType, schema_a DateType, Err SchemaMismatch) ∷ (schema_a uint64, schema_a int8, Err SchemaMismatch)
        ∷ ([], schema_a int8, Err InvalidOperation) ∷ (schema_a int8, (codes "b", int8) ∷ [], Err InvalidOperation) ∷ (schema_ab uint64 int8, (codes "a", int8) ∷ (codes "c", int8) ∷ [], Err InvalidOperation) ∷ []) }
{}
