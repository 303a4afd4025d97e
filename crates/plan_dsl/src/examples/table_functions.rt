//! Functions from a frame to a frame: what they make of frames, the rules that they break, their schemas, and to what a query's calls
//! are resolved.

ghost use Rattle.std.specs.Prelude.{◌≡◌, ℕ, List, [], ◌∷◌, map, codes, pos, true, false, Some, None, Ok, Err};
ghost use Rattle.plan_types.specs.Types.{Ty, NullType, Truth, TextType, DateType, TimeType, DatetimeType, ListType, no_field, fields_from};
ghost use Rattle.plan_types.specs.Schemas.{Name, Columns};
ghost use Rattle.plan_types.specs.Outcomes.{Outcome, Done, Fault, Stuck};
ghost use Rattle.plan_types.specs.Frames.{Frame, Row, empty_frame};
ghost use Rattle.plan_types.specs.declared.dtype.CastOptions.TheVariants.{Strict, NonStrict};
ghost use Rattle.plan_types.specs.declared.dtype.TimeUnit.TheVariants.{Nanoseconds};
ghost use Rattle.plan_types.specs.declared.error.ErrorKind.TheVariants.{ColumnNotFound, Duplicate, SchemaMismatch, InvalidOperation};
ghost use Rattle.plan_dsl.specs.declared.aggregate.GroupByMethod.TheVariants as method;
ghost use Rattle.plan_dsl.specs.declared.function.StatsFunction.TheVariants.{Sum, Min, Max};
ghost use Rattle.plan_dsl.specs.Plans.{SelectWork, PassWork, FunctionWork, CallWork, SamePass, OverKind, Plan, named, source_over};
ghost use Rattle.plan_dsl.specs.Sources.{Source, written};
ghost use Rattle.plan_dsl.specs.PlanRules.{work_kinds, schema_by, schema_of, Breaks};
ghost use Rattle.plan_dsl.specs.PlanKernels.{work_frame, over_frame};
ghost use Rattle.plan_dsl.specs.PlanMeaning.{by_meaning, source_meaning};
ghost use Rattle.plan_dsl.specs.Resolving.{expanded_kind, resolved};
ghost use Rattle.plan_dsl.specs.TableFunctions.{RowIndexFunction, ExplodeFunction, UnpivotFunction, RenameFunction, UnnestFunction, ExplodeCall, UnpivotCall, RenameCall, UnnestCall, StatsCall};
ghost use Rattle.plan_dsl.specs.TableRules.{value_columns, new_name, opened_type};
ghost use Rattle.plan_dsl.specs.TableFrames.{list_lengths, agreed, field_values};
ghost use Rattle.plan_dsl.specs.TableCalls.{statistic_of, explode_work, rename_work, called_work};
ghost use Rattle.plan_dsl.specs.Samples.{Gives, GivesOfTwo, GivesAll, int8, int16, int32, int64, uint8, uint32, uint64, moment, span, struct_type, one_field, column, a, b, s, one, all, all_names, columns_named, columns_of_type, nth, root, agg, alias, cast_as, nothing, frame_with, number, negative, null, yes, no, text, list, struct_of, table, schema_ab, scan, written_select};

/// A number stands in front of each row. It is counted from an offset on, modulo 2^32, and its column's name is new.
pub fn row_indices()
    ensures frames { let first = number 1 ∷ number 10 ∷ [] in
        let second = null ∷ number 20 ∷ [] in
        let indexed : ℕ → ℕ → Outcome Frame = λ one other. Done (frame_with ((codes "i", uint32) ∷ schema_ab) ((number one ∷ first) ∷ (number other ∷ second) ∷ [])) in
        Gives (λ offset. work_frame (FunctionWork (RowIndexFunction (codes "i") offset)) [] (frame_with schema_ab (first ∷ second ∷ []))) (
        (None, indexed 0 1) ∷ (Some 0, indexed 0 1) ∷ (Some 7, indexed 7 8) ∷ (Some 2147483647, indexed 2147483647 2147483648) ∷
        (Some 4294967294, indexed 4294967294 4294967295) ∷ (Some 4294967295, indexed 4294967295 0) ∷ []) }
    ensures no_rows { GivesOfTwo (λ offset schema. work_frame (FunctionWork (RowIndexFunction (codes "i") offset)) [] (frame_with schema [])) (
        (None, schema_ab, Done (frame_with ((codes "i", uint32) ∷ schema_ab) [])) ∷ (Some 4294967295, [], Done (frame_with ((codes "i", uint32) ∷ []) [])) ∷ []) }
    ensures kinds { GivesOfTwo (λ name schema. work_kinds (FunctionWork (RowIndexFunction (codes name) None)) schema []) (
        ("i", schema_ab, []) ∷ ("a", schema_ab, Duplicate ∷ []) ∷ ("b", schema_ab, Duplicate ∷ []) ∷ ("a", [], []) ∷ [])
        × (work_kinds (FunctionWork (RowIndexFunction (codes "i") None)) schema_ab ([] ∷ []) ≡ SchemaMismatch ∷ []) }
    ensures schemas { Gives (schema_by [] (OverKind (FunctionWork (RowIndexFunction (codes "i") (Some 5))) [])) (
        (Some schema_ab ∷ [], Some ((codes "i", uint32) ∷ (codes "a", int8) ∷ (codes "b", int32) ∷ [])) ∷ (Some [] ∷ [], Some ((codes "i", uint32) ∷ [])) ∷ (None ∷ [], None) ∷ []) }
    ensures resolved { GivesAll (λ schema. expanded_kind [] (schema ∷ []) (OverKind (FunctionWork (RowIndexFunction (codes "a") (Some 5))) [])) (Ok (OverKind (FunctionWork (RowIndexFunction (codes "a") (Some 5))) [])) (
        schema_ab ∷ [] ∷ []) }
    ensures over { Gives (over_frame (by_meaning []) (FunctionWork (RowIndexFunction (codes "i") None)) []) (
        (Done (frame_with ((codes "a", int8) ∷ []) ((number 5 ∷ []) ∷ [])), Done (frame_with ((codes "i", uint32) ∷ (codes "a", int8) ∷ []) ((number 0 ∷ number 5 ∷ []) ∷ []))) ∷ (Fault, Fault) ∷ (Stuck, Stuck) ∷ []) }
{}

/// A row for each item of a row's lists, beside the row's other values: a null for a list that is empty or null. Lists of one row that
/// make different numbers of rows are a fault.
pub fn exploded_rows()
    ensures frames { let columns : Columns = (codes "l", ListType int8) ∷ (codes "b", int32) ∷ [] in
        let rows : List Row = (list (number 1 ∷ number 2 ∷ []) ∷ number 10 ∷ []) ∷ (list [] ∷ number 20 ∷ []) ∷ (null ∷ number 30 ∷ []) ∷ [] in
        GivesAll (λ names. work_frame (FunctionWork (ExplodeFunction (all_names names))) [] (frame_with columns rows))
        (Done (frame_with ((codes "l", int8) ∷ (codes "b", int32) ∷ []) ((number 1 ∷ number 10 ∷ []) ∷ (number 2 ∷ number 10 ∷ []) ∷ (null ∷ number 20 ∷ []) ∷ (null ∷ number 30 ∷ []) ∷ []))) (
        ("l" ∷ []) ∷ ("l" ∷ "l" ∷ []) ∷ []) }
    ensures of_one_of_two { let columns : Columns = (codes "l", ListType int8) ∷ (codes "m", ListType TextType) ∷ [] in
        let both = list (number 1 ∷ number 2 ∷ []) ∷ list (text "x" ∷ []) ∷ [] in
        Gives (λ name. work_frame (FunctionWork (ExplodeFunction (codes name ∷ []))) [] (frame_with columns (both ∷ []))) (
        ("l", Done (frame_with ((codes "l", int8) ∷ (codes "m", ListType TextType) ∷ []) ((number 1 ∷ list (text "x" ∷ []) ∷ []) ∷ (number 2 ∷ list (text "x" ∷ []) ∷ []) ∷ []))) ∷
        ("m", Done (frame_with ((codes "l", ListType int8) ∷ (codes "m", TextType) ∷ []) ((list (number 1 ∷ number 2 ∷ []) ∷ text "x" ∷ []) ∷ []))) ∷ []) }
    ensures of_two { let columns : Columns = (codes "l", ListType int8) ∷ (codes "b", int32) ∷ (codes "m", ListType TextType) ∷ [] in
        Gives (λ rows. work_frame (FunctionWork (ExplodeFunction (all_names ("m" ∷ "l" ∷ [])))) [] (frame_with columns rows)) ((
          (list (number 1 ∷ number 2 ∷ []) ∷ number 10 ∷ list (text "x" ∷ text "y" ∷ []) ∷ []) ∷ [],
          Done (frame_with ((codes "l", int8) ∷ (codes "b", int32) ∷ (codes "m", TextType) ∷ []) ((number 1 ∷ number 10 ∷ text "x" ∷ []) ∷ (number 2 ∷ number 10 ∷ text "y" ∷ []) ∷ [])),
        ) ∷ (
          (list [] ∷ number 1 ∷ list (text "x" ∷ []) ∷ []) ∷ (list (number 7 ∷ []) ∷ number 2 ∷ null ∷ []) ∷ (list [] ∷ number 3 ∷ null ∷ []) ∷ (list (null ∷ []) ∷ number 4 ∷ list [] ∷ []) ∷ [],
          Done (frame_with ((codes "l", int8) ∷ (codes "b", int32) ∷ (codes "m", TextType) ∷ [])
              ((null ∷ number 1 ∷ text "x" ∷ []) ∷ (number 7 ∷ number 2 ∷ null ∷ []) ∷ (null ∷ number 3 ∷ null ∷ []) ∷ (null ∷ number 4 ∷ null ∷ []) ∷ [])),
        ) ∷
        ((list (number 1 ∷ number 2 ∷ []) ∷ number 10 ∷ list (text "x" ∷ text "y" ∷ []) ∷ []) ∷ (list (number 3 ∷ []) ∷ number 20 ∷ list (text "x" ∷ text "y" ∷ []) ∷ []) ∷ [], Fault) ∷
        ((list (number 1 ∷ number 2 ∷ []) ∷ number 10 ∷ list (text "x" ∷ []) ∷ []) ∷ (list (number 3 ∷ []) ∷ number 20 ∷ list (text "y" ∷ text "z" ∷ []) ∷ []) ∷ [], Fault) ∷
        ((null ∷ number 10 ∷ list (text "x" ∷ text "y" ∷ []) ∷ []) ∷ [], Fault) ∷ ((list (number 1 ∷ number 2 ∷ []) ∷ number 10 ∷ list [] ∷ []) ∷ [], Fault) ∷ ([], Done (frame_with ((codes "l", int8) ∷ (codes "b", int32) ∷ (codes "m", TextType) ∷ []) [])) ∷ []) }
    ensures of_lists_of_lists { let columns : Columns = (codes "l", ListType (ListType int8)) ∷ [] in
        work_frame (FunctionWork (ExplodeFunction (codes "l" ∷ []))) [] (frame_with columns ((list (list (number 1 ∷ number 2 ∷ []) ∷ null ∷ list [] ∷ []) ∷ []) ∷ (list (list [] ∷ []) ∷ []) ∷ []))
        ≡ Done (frame_with ((codes "l", ListType int8) ∷ []) ((list (number 1 ∷ number 2 ∷ []) ∷ []) ∷ (null ∷ []) ∷ (list [] ∷ []) ∷ (list [] ∷ []) ∷ [])) }
    ensures no_rows { let columns : Columns = (codes "l", ListType (ListType TextType)) ∷ (codes "m", ListType int8) ∷ [] in
        (work_frame (FunctionWork (ExplodeFunction (codes "l" ∷ []))) [] (frame_with columns []) ≡ Done (frame_with ((codes "l", ListType TextType) ∷ (codes "m", ListType int8) ∷ []) []))
        × (work_frame (FunctionWork (ExplodeFunction [])) [] empty_frame ≡ Done empty_frame) }
    ensures lengths { let columns : Columns = (codes "l", ListType int8) ∷ (codes "b", int32) ∷ (codes "m", ListType int8) ∷ (codes "n", ListType int8) ∷ [] in
        let row = list (number 1 ∷ number 2 ∷ number 3 ∷ []) ∷ number 7 ∷ list [] ∷ null ∷ [] in
        Gives (λ names. list_lengths (all_names names) columns row) (("l" ∷ "m" ∷ "n" ∷ [], 3 ∷ 1 ∷ 1 ∷ []) ∷ ("n" ∷ "l" ∷ [], 3 ∷ 1 ∷ []) ∷ ("l" ∷ "l" ∷ [], 3 ∷ []) ∷ ([], []) ∷ [])
        × Gives agreed ((3 ∷ 3 ∷ 3 ∷ [], Some 3) ∷ (4 ∷ [], Some 4) ∷ (3 ∷ 3 ∷ 1 ∷ [], None) ∷ (3 ∷ 1 ∷ 3 ∷ [], None) ∷ (1 ∷ 3 ∷ [], None) ∷ (1 ∷ 1 ∷ [], Some 1) ∷ []) }
    ensures kinds { let columns : Columns = (codes "l", ListType int8) ∷ (codes "b", int32) ∷ (codes "m", ListType TextType) ∷ (codes "n", NullType) ∷ (codes "s", one_field "l" (ListType int8)) ∷ [] in
        Gives (λ names. work_kinds (FunctionWork (ExplodeFunction (all_names names))) columns []) (
        ("l" ∷ [], []) ∷ ("m" ∷ "l" ∷ "m" ∷ [], []) ∷ ([], InvalidOperation ∷ []) ∷ ("b" ∷ [], InvalidOperation ∷ []) ∷ ("l" ∷ "b" ∷ [], InvalidOperation ∷ []) ∷ ("n" ∷ [], InvalidOperation ∷ []) ∷ ("s" ∷ "l" ∷ [], InvalidOperation ∷ []) ∷
        ("z" ∷ [], ColumnNotFound ∷ []) ∷ ("l" ∷ "z" ∷ [], ColumnNotFound ∷ []) ∷ [])
        × Gives (λ names. work_kinds (FunctionWork (ExplodeFunction (all_names names))) [] []) (([], InvalidOperation ∷ []) ∷ ("l" ∷ [], ColumnNotFound ∷ []) ∷ [])
        × (work_kinds (FunctionWork (ExplodeFunction (codes "l" ∷ []))) columns ([] ∷ []) ≡ SchemaMismatch ∷ []) }
    ensures schemas { let columns : Columns = (codes "l", ListType (ListType int8)) ∷ (codes "b", int32) ∷ (codes "m", ListType TextType) ∷ [] in
        Gives (λ names. schema_by [] (OverKind (FunctionWork (ExplodeFunction (all_names names))) []) (Some columns ∷ [])) (
        ("l" ∷ [], Some ((codes "l", ListType int8) ∷ (codes "b", int32) ∷ (codes "m", ListType TextType) ∷ [])) ∷ ("m" ∷ "l" ∷ "l" ∷ [], Some ((codes "l", ListType int8) ∷ (codes "b", int32) ∷ (codes "m", TextType) ∷ [])) ∷ []) }
    ensures resolved { let columns : Columns = (codes "l", ListType int8) ∷ (codes "b", int32) ∷ (codes "m", ListType int8) ∷ [] in
        GivesOfTwo (λ allow_empty selectors. expanded_kind [] (columns ∷ []) (OverKind (CallWork (ExplodeCall allow_empty)) (selectors ∷ []))) (
        (false, root (columns_named ("m" ∷ "l" ∷ "m" ∷ [])) ∷ [], Ok (OverKind (FunctionWork (ExplodeFunction (all_names ("m" ∷ "l" ∷ [])))) [])) ∷
        (true, root (columns_of_type (ListType int8)) ∷ [], Ok (OverKind (FunctionWork (ExplodeFunction (all_names ("l" ∷ "m" ∷ [])))) [])) ∷
        (false, [], Ok (OverKind (FunctionWork (ExplodeFunction [])) [])) ∷ (true, [], Ok (OverKind (PassWork SamePass) [])) ∷ (true, root (columns_of_type TextType) ∷ [], Ok (OverKind (PassWork SamePass) [])) ∷
        (true, root (nth (pos 3)) ∷ [], Err (ColumnNotFound ∷ [])) ∷ (false, root (written one) ∷ [], Err (InvalidOperation ∷ [])) ∷ (true, written a ∷ [], Err (InvalidOperation ∷ [])) ∷ [])
        × GivesOfTwo explode_work ((true, [], PassWork SamePass) ∷ (false, [], FunctionWork (ExplodeFunction [])) ∷ (true, codes "l" ∷ [], FunctionWork (ExplodeFunction (codes "l" ∷ []))) ∷ (false, codes "l" ∷ [], FunctionWork (ExplodeFunction (codes "l" ∷ []))) ∷ []) }
    ensures queries { let query : List Source → Plan = λ selectors. resolved [] (source_over (CallWork (ExplodeCall true)) (selectors ∷ []) (scan schema_ab)) in
        (source_meaning [] (table ∷ []) (query []) ≡ Done table) × (schema_of [] (query []) ≡ Some schema_ab)
        × Breaks [] ColumnNotFound [] (query (root (written (column "z")) ∷ [])) × Breaks [] InvalidOperation [] (query (root (written a) ∷ []))
        × Breaks [] InvalidOperation [] (resolved [] (source_over (CallWork (ExplodeCall false)) ([] ∷ []) (scan schema_ab))) }
    ensures over { Gives (over_frame (by_meaning []) (FunctionWork (ExplodeFunction (codes "l" ∷ []))) []) (
        (Done (frame_with ((codes "l", ListType int8) ∷ []) ((list (number 1 ∷ number 2 ∷ []) ∷ []) ∷ [])), Done (frame_with ((codes "l", int8) ∷ []) ((number 1 ∷ []) ∷ (number 2 ∷ []) ∷ []))) ∷ (Fault, Fault) ∷ (Stuck, Stuck) ∷ []) }
{}

/// The values of columns in their common type, those of one column after those of another: each beside its column's name, and behind
/// the row's values under the index. Of no columns they are those of all that aren't in the index.
pub fn unpivoted_rows()
    ensures frames { let columns : Columns = (codes "k", int64) ∷ (codes "a", int8) ∷ (codes "b", Truth) ∷ [] in
        let input : Frame = frame_with columns ((number 100 ∷ number 1 ∷ yes ∷ []) ∷ (number 200 ∷ null ∷ no ∷ []) ∷ []) in
        let by_key : List Row → Outcome Frame = λ rows. Done (frame_with ((codes "k", int64) ∷ (codes "variable", TextType) ∷ (codes "value", int8) ∷ []) rows) in
        let of_a = (number 100 ∷ text "a" ∷ number 1 ∷ []) ∷ (number 200 ∷ text "a" ∷ null ∷ []) ∷ [] in
        let both = (number 100 ∷ text "a" ∷ number 1 ∷ []) ∷ (number 200 ∷ text "a" ∷ null ∷ []) ∷ (number 100 ∷ text "b" ∷ number 1 ∷ []) ∷ (number 200 ∷ text "b" ∷ number 0 ∷ []) ∷ [] in
        GivesOfTwo (λ on index. work_frame (FunctionWork (UnpivotFunction (all_names on) (all_names index) None None)) [] input) (
        ("a" ∷ "b" ∷ [], "k" ∷ [], by_key both) ∷ ([], "k" ∷ [], by_key both) ∷ ("a" ∷ [], "k" ∷ [], by_key of_a) ∷
        ("b" ∷ "a" ∷ [], "k" ∷ [], by_key ((number 100 ∷ text "b" ∷ number 1 ∷ []) ∷ (number 200 ∷ text "b" ∷ number 0 ∷ []) ∷ of_a)) ∷
        ("a" ∷ "a" ∷ [], "k" ∷ [], by_key ((number 100 ∷ text "a" ∷ number 1 ∷ []) ∷ (number 200 ∷ text "a" ∷ null ∷ []) ∷ of_a)) ∷
        ("b" ∷ [], "b" ∷ "k" ∷ [], Done (frame_with ((codes "b", Truth) ∷ (codes "k", int64) ∷ (codes "variable", TextType) ∷ (codes "value", Truth) ∷ []) ((yes ∷ number 100 ∷ text "b" ∷ yes ∷ []) ∷ (no ∷ number 200 ∷ text "b" ∷ no ∷ []) ∷ []))) ∷ (
          [],
          [],
          Done (frame_with ((codes "variable", TextType) ∷ (codes "value", int64) ∷ [])
              ((text "k" ∷ number 100 ∷ []) ∷ (text "k" ∷ number 200 ∷ []) ∷ (text "a" ∷ number 1 ∷ []) ∷ (text "a" ∷ null ∷ []) ∷ (text "b" ∷ number 1 ∷ []) ∷ (text "b" ∷ number 0 ∷ []) ∷ [])),
        ) ∷
        ([], "a" ∷ "k" ∷ "b" ∷ [], Done (frame_with ((codes "a", int8) ∷ (codes "k", int64) ∷ (codes "b", Truth) ∷ (codes "variable", TextType) ∷ (codes "value", NullType) ∷ []) [])) ∷ []) }
    ensures own_names { GivesOfTwo (λ variable value. work_frame (FunctionWork (UnpivotFunction (codes "a" ∷ []) (codes "b" ∷ []) variable value)) [] (frame_with schema_ab ((number 1 ∷ number 10 ∷ []) ∷ []))) (
        (Some (codes "n"), Some (codes "v"), Done (frame_with ((codes "b", int32) ∷ (codes "n", TextType) ∷ (codes "v", int8) ∷ []) ((number 10 ∷ text "a" ∷ number 1 ∷ []) ∷ []))) ∷
        (Some (codes "a"), None, Done (frame_with ((codes "b", int32) ∷ (codes "a", TextType) ∷ (codes "value", int8) ∷ []) ((number 10 ∷ text "a" ∷ number 1 ∷ []) ∷ []))) ∷
        (None, Some (codes "a"), Done (frame_with ((codes "b", int32) ∷ (codes "variable", TextType) ∷ (codes "a", int8) ∷ []) ((number 10 ∷ text "a" ∷ number 1 ∷ []) ∷ []))) ∷ []) }
    ensures common_types { let unpivoted : Columns → List Row → Outcome Frame = λ columns rows. work_frame (FunctionWork (UnpivotFunction [] [] None None)) [] (frame_with columns rows) in
        let of_values : Ty → List Row → Outcome Frame = λ type rows. Done (frame_with ((codes "variable", TextType) ∷ (codes "value", type) ∷ []) rows) in
        GivesOfTwo unpivoted (
        ((codes "t", Truth) ∷ (codes "a", int8) ∷ (codes "x", TextType) ∷ [], (yes ∷ null ∷ text "w" ∷ []) ∷ [], of_values TextType ((text "t" ∷ text "true" ∷ []) ∷ (text "a" ∷ null ∷ []) ∷ (text "x" ∷ text "w" ∷ []) ∷ [])) ∷ (
          (codes "d", DateType) ∷ (codes "m", DatetimeType Nanoseconds) ∷ [],
          (number 1 ∷ number 7 ∷ []) ∷ (number 2147483647 ∷ null ∷ []) ∷ [],
          of_values (DatetimeType Nanoseconds) ((text "d" ∷ number 86400000000000 ∷ []) ∷ (text "d" ∷ null ∷ []) ∷ (text "m" ∷ number 7 ∷ []) ∷ (text "m" ∷ null ∷ []) ∷ []),
        ) ∷
        ((codes "n", NullType) ∷ (codes "u", uint8) ∷ (codes "a", int8) ∷ [], (null ∷ number 200 ∷ negative 1 ∷ []) ∷ [], of_values int16 ((text "n" ∷ null ∷ []) ∷ (text "u" ∷ number 200 ∷ []) ∷ (text "a" ∷ negative 1 ∷ []) ∷ [])) ∷
        ((codes "n", NullType) ∷ [], (null ∷ []) ∷ [], of_values NullType ((text "n" ∷ null ∷ []) ∷ [])) ∷ []) }
    ensures no_rows { GivesOfTwo (λ schema index. work_frame (FunctionWork (UnpivotFunction [] (all_names index) None None)) [] (frame_with schema [])) (
        (schema_ab, "b" ∷ [], Done (frame_with ((codes "b", int32) ∷ (codes "variable", TextType) ∷ (codes "value", int8) ∷ []) [])) ∷ ([], [], Done (frame_with ((codes "variable", TextType) ∷ (codes "value", NullType) ∷ []) [])) ∷ []) }
    ensures columns { let columns : Columns = (codes "k", int64) ∷ (codes "a", int8) ∷ (codes "b", Truth) ∷ [] in
        GivesOfTwo (λ on index. value_columns columns (all_names on) (all_names index)) (
        ([], "k" ∷ [], all_names ("a" ∷ "b" ∷ [])) ∷ ([], [], all_names ("k" ∷ "a" ∷ "b" ∷ [])) ∷ ([], "b" ∷ "a" ∷ "k" ∷ [], []) ∷ ("b" ∷ "k" ∷ [], "k" ∷ [], all_names ("b" ∷ "k" ∷ [])) ∷ []) }
    ensures kinds { let columns : Columns = (codes "k", int64) ∷ (codes "a", int8) ∷ (codes "d", DateType) ∷ (codes "u", uint64) ∷ (codes "variable", TextType) ∷ [] in
        GivesOfTwo (λ on index. work_kinds (FunctionWork (UnpivotFunction (all_names on) (all_names index) None None)) columns []) (
        ("a" ∷ "k" ∷ [], "d" ∷ [], []) ∷ ("a" ∷ "k" ∷ "a" ∷ [], "a" ∷ [], []) ∷ ("variable" ∷ "u" ∷ "a" ∷ [], [], []) ∷ ([], "k" ∷ "u" ∷ "d" ∷ [], []) ∷
        ("a" ∷ "d" ∷ [], [], SchemaMismatch ∷ []) ∷ ("a" ∷ "u" ∷ [], [], SchemaMismatch ∷ []) ∷ ([], "u" ∷ [], SchemaMismatch ∷ []) ∷
        ("a" ∷ [], "variable" ∷ [], Duplicate ∷ []) ∷ ("a" ∷ [], "k" ∷ "d" ∷ "k" ∷ [], Duplicate ∷ []) ∷ ("a" ∷ "d" ∷ [], "variable" ∷ [], SchemaMismatch ∷ Duplicate ∷ []) ∷
        ("a" ∷ "z" ∷ [], [], ColumnNotFound ∷ []) ∷ ("a" ∷ [], "k" ∷ "z" ∷ [], ColumnNotFound ∷ []) ∷ ([], "z" ∷ [], ColumnNotFound ∷ []) ∷ [])
        × GivesOfTwo (λ on index. work_kinds (FunctionWork (UnpivotFunction (all_names on) (all_names index) None None)) [] []) (([], [], []) ∷ ([], "k" ∷ [], ColumnNotFound ∷ []) ∷ ("a" ∷ [], [], ColumnNotFound ∷ []) ∷ [])
        × (work_kinds (FunctionWork (UnpivotFunction (codes "a" ∷ []) [] None None)) columns ([] ∷ []) ≡ SchemaMismatch ∷ []) }
    ensures kinds_by_names { GivesOfTwo (λ variable value. work_kinds (FunctionWork (UnpivotFunction (codes "a" ∷ []) (codes "b" ∷ []) variable value)) schema_ab []) (
        (None, None, []) ∷ (Some (codes "a"), None, []) ∷ (Some (codes "value"), Some (codes "variable"), []) ∷ (Some (codes "b"), None, Duplicate ∷ []) ∷ (None, Some (codes "b"), Duplicate ∷ []) ∷
        (Some (codes "x"), Some (codes "x"), Duplicate ∷ []) ∷ (Some (codes "value"), None, Duplicate ∷ []) ∷ (None, Some (codes "variable"), Duplicate ∷ []) ∷ []) }
    ensures schemas { let columns : Columns = (codes "a", int8) ∷ (codes "b", Truth) ∷ (codes "k", int64) ∷ [] in
        GivesOfTwo (λ on index. schema_by [] (OverKind (FunctionWork (UnpivotFunction (all_names on) (all_names index) None (Some (codes "v")))) []) (Some columns ∷ [])) (
        ("a" ∷ "b" ∷ [], "k" ∷ [], Some ((codes "k", int64) ∷ (codes "variable", TextType) ∷ (codes "v", int8) ∷ [])) ∷ ("b" ∷ [], "k" ∷ "a" ∷ [], Some ((codes "k", int64) ∷ (codes "a", int8) ∷ (codes "variable", TextType) ∷ (codes "v", Truth) ∷ [])) ∷
        ([], "b" ∷ [], Some ((codes "b", Truth) ∷ (codes "variable", TextType) ∷ (codes "v", int64) ∷ [])) ∷ ([], "a" ∷ "b" ∷ "k" ∷ [], Some ((codes "a", int8) ∷ (codes "b", Truth) ∷ (codes "k", int64) ∷ (codes "variable", TextType) ∷ (codes "v", NullType) ∷ [])) ∷ []) }
    ensures resolved { GivesOfTwo (λ on index. expanded_kind [] (schema_ab ∷ []) (OverKind (CallWork (UnpivotCall None (Some (codes "v")))) (on ∷ index ∷ []))) (
        (root (written a) ∷ [], root (columns_named ("b" ∷ "b" ∷ [])) ∷ [], Ok (OverKind (FunctionWork (UnpivotFunction (codes "a" ∷ []) (codes "b" ∷ []) None (Some (codes "v")))) [])) ∷
        ([], root (written b) ∷ [], Ok (OverKind (FunctionWork (UnpivotFunction [] (codes "b" ∷ []) None (Some (codes "v")))) [])) ∷
        (root all ∷ [], root (columns_of_type int16) ∷ [], Ok (OverKind (FunctionWork (UnpivotFunction (all_names ("a" ∷ "b" ∷ [])) [] None (Some (codes "v")))) [])) ∷
        (root (nth (pos 2)) ∷ [], [], Err (ColumnNotFound ∷ [])) ∷ ([], root (nth (pos 2)) ∷ [], Err (ColumnNotFound ∷ [])) ∷ ([], root (written one) ∷ [], Err (InvalidOperation ∷ [])) ∷ []) }
    ensures over { Gives (over_frame (by_meaning []) (FunctionWork (UnpivotFunction [] [] None None)) []) ((Done empty_frame, Done (frame_with ((codes "variable", TextType) ∷ (codes "value", NullType) ∷ []) [])) ∷ (Fault, Fault) ∷ (Stuck, Stuck) ∷ []) }
{}

/// Columns under new names, all at once. Of two new names of a column the last counts, and a name without a column counts for nothing.
pub fn renamed_columns()
    ensures frames { let rows = (number 1 ∷ number 10 ∷ []) ∷ (null ∷ number 20 ∷ []) ∷ [] in
        let of : Name → Name → Outcome Frame = λ first second. Done (frame_with ((first, int8) ∷ (second, int32) ∷ []) ((number 1 ∷ number 10 ∷ []) ∷ (null ∷ number 20 ∷ []) ∷ [])) in
        GivesOfTwo (λ existing new. work_frame (FunctionWork (RenameFunction (all_names existing) (all_names new) false)) [] (frame_with schema_ab rows)) (
        ("a" ∷ "b" ∷ [], "b" ∷ "a" ∷ [], of (codes "b") (codes "a")) ∷ ("b" ∷ "a" ∷ [], "a" ∷ "b" ∷ [], of (codes "b") (codes "a")) ∷ ("b" ∷ [], "x" ∷ [], of (codes "a") (codes "x")) ∷
        ("a" ∷ "b" ∷ [], "b" ∷ "c" ∷ [], of (codes "b") (codes "c")) ∷ ("a" ∷ "a" ∷ [], "x" ∷ "y" ∷ [], of (codes "y") (codes "b")) ∷ ("a" ∷ "a" ∷ [], "b" ∷ "y" ∷ [], of (codes "y") (codes "b")) ∷
        ("a" ∷ "x" ∷ [], "x" ∷ "y" ∷ [], of (codes "x") (codes "b")) ∷ ("z" ∷ [], "x" ∷ [], of (codes "a") (codes "b")) ∷ ("a" ∷ [], "a" ∷ [], of (codes "a") (codes "b")) ∷ ([], [], of (codes "a") (codes "b")) ∷ []) }
    ensures no_rows { Gives (λ schema. work_frame (FunctionWork (RenameFunction (all_names ("a" ∷ "b" ∷ [])) (all_names ("b" ∷ "x" ∷ [])) true)) [] (frame_with schema [])) (
        (schema_ab, Done (frame_with ((codes "b", int8) ∷ (codes "x", int32) ∷ []) [])) ∷ ([], Done empty_frame) ∷ []) }
    ensures new_names { GivesOfTwo (λ existing new. map (new_name (all_names existing) (all_names new)) (all_names ("a" ∷ "b" ∷ []))) (
        ("a" ∷ "b" ∷ "a" ∷ [], "x" ∷ "y" ∷ "z" ∷ [], Some (codes "z") ∷ Some (codes "y") ∷ []) ∷ ("a" ∷ "z" ∷ [], "x" ∷ "b" ∷ [], Some (codes "x") ∷ None ∷ []) ∷ ([], [], None ∷ None ∷ []) ∷ []) }
    ensures kinds { GivesOfTwo (λ existing new. work_kinds (FunctionWork (RenameFunction (all_names existing) (all_names new) false)) schema_ab []) (
        ("a" ∷ "b" ∷ [], "b" ∷ "a" ∷ [], []) ∷ ("a" ∷ [], "b" ∷ [], Duplicate ∷ []) ∷ ("a" ∷ "b" ∷ [], "x" ∷ "x" ∷ [], Duplicate ∷ []) ∷ ("a" ∷ "a" ∷ [], "b" ∷ "x" ∷ [], []) ∷ ("a" ∷ "a" ∷ [], "x" ∷ "b" ∷ [], Duplicate ∷ []) ∷
        ("z" ∷ [], "x" ∷ [], []) ∷ ("z" ∷ [], "b" ∷ [], []) ∷ ([], [], []) ∷
        ("a" ∷ [], "x" ∷ "y" ∷ [], InvalidOperation ∷ []) ∷ ("a" ∷ [], "b" ∷ "b" ∷ [], InvalidOperation ∷ []) ∷ ("a" ∷ "b" ∷ [], "b" ∷ [], InvalidOperation ∷ []) ∷ ([], "x" ∷ [], InvalidOperation ∷ []) ∷ [])
        × GivesOfTwo (λ existing new. work_kinds (FunctionWork (RenameFunction (all_names existing) (all_names new) false)) [] []) (([], [], []) ∷ ("a" ∷ [], "b" ∷ [], []) ∷ ("a" ∷ [], [], InvalidOperation ∷ []) ∷ [])
        × (work_kinds (FunctionWork (RenameFunction [] [] false)) schema_ab ([] ∷ []) ≡ SchemaMismatch ∷ []) }
    ensures schemas { GivesOfTwo (λ existing new. schema_by [] (OverKind (FunctionWork (RenameFunction (all_names existing) (all_names new) false)) []) (Some schema_ab ∷ [])) (
        ("a" ∷ "b" ∷ [], "b" ∷ "a" ∷ [], Some ((codes "b", int8) ∷ (codes "a", int32) ∷ [])) ∷ ("b" ∷ [], "x" ∷ [], Some ((codes "a", int8) ∷ (codes "x", int32) ∷ [])) ∷ ("z" ∷ [], "x" ∷ [], Some schema_ab) ∷ []) }
    ensures strictness { GivesOfTwo (λ existing new. map (rename_work schema_ab (all_names existing) (all_names new)) (true ∷ false ∷ [])) (
        ("b" ∷ "a" ∷ [], "a" ∷ "x" ∷ [], Ok (FunctionWork (RenameFunction (all_names ("b" ∷ "a" ∷ [])) (all_names ("a" ∷ "x" ∷ [])) true)) ∷ Ok (FunctionWork (RenameFunction (all_names ("b" ∷ "a" ∷ [])) (all_names ("a" ∷ "x" ∷ [])) true)) ∷ []) ∷
        ("a" ∷ "z" ∷ [], "x" ∷ "y" ∷ [], Err (ColumnNotFound ∷ []) ∷ Ok (FunctionWork (RenameFunction (all_names ("a" ∷ "z" ∷ [])) (all_names ("x" ∷ "y" ∷ [])) false)) ∷ []) ∷
        ([], [], Ok (FunctionWork (RenameFunction [] [] false)) ∷ Ok (FunctionWork (RenameFunction [] [] false)) ∷ []) ∷ []) }
    ensures resolved { GivesOfTwo (λ existing strict. expanded_kind [] (schema_ab ∷ []) (OverKind (CallWork (RenameCall (all_names existing) (all_names ("x" ∷ [])) strict)) [])) (
        ("b" ∷ [], true, Ok (OverKind (FunctionWork (RenameFunction (codes "b" ∷ []) (codes "x" ∷ []) false)) [])) ∷ ("z" ∷ [], true, Err (ColumnNotFound ∷ [])) ∷ ("z" ∷ [], false, Ok (OverKind (FunctionWork (RenameFunction (codes "z" ∷ []) (codes "x" ∷ []) false)) [])) ∷ []) }
    ensures queries { let query : List Name → List Name → Plan = λ existing new. resolved [] (source_over (CallWork (RenameCall existing new true)) [] (scan schema_ab)) in
        Breaks [] ColumnNotFound [] (query (codes "z" ∷ []) (codes "x" ∷ [])) × Breaks [] Duplicate [] (query (codes "a" ∷ []) (codes "b" ∷ []))
        × Breaks [] InvalidOperation [] (query (codes "z" ∷ []) []) × ¬ (Breaks [] Duplicate [] (query (codes "a" ∷ []) (all_names ("b" ∷ "b" ∷ []))))
        × (schema_of [] (query (all_names ("a" ∷ "b" ∷ [])) (all_names ("b" ∷ "a" ∷ []))) ≡ Some ((codes "b", int8) ∷ (codes "a", int32) ∷ []))
        × (source_meaning [] (table ∷ []) (query (codes "b" ∷ []) (codes "x" ∷ [])) ≡ Done (frame_with ((codes "a", int8) ∷ (codes "x", int32) ∷ []) table.rows)) }
    ensures over { Gives (over_frame (by_meaning []) (FunctionWork (RenameFunction [] [] false)) []) ((Done table, Done table) ∷ (Done empty_frame, Done empty_frame) ∷ (Fault, Fault) ∷ (Stuck, Stuck) ∷ []) }
{}

/// The fields of structs in place of these, down to one level. A null has nulls for fields, and without fields a column goes.
pub fn unnested_structs()
    ensures frames { let columns : Columns = (codes "k", int64) ∷ (codes "s", struct_type ((codes "x", int8) ∷ (codes "t", TextType) ∷ [])) ∷ (codes "b", int32) ∷ [] in
        let input : Frame = frame_with columns ((number 1 ∷ struct_of (number 5 ∷ text "v" ∷ []) ∷ number 10 ∷ []) ∷ (number 2 ∷ null ∷ number 20 ∷ []) ∷ (number 3 ∷ struct_of (null ∷ text "w" ∷ []) ∷ number 30 ∷ []) ∷ []) in
        GivesAll (λ names. work_frame (FunctionWork (UnnestFunction (all_names names))) [] input) (Done (frame_with ((codes "k", int64) ∷ (codes "x", int8) ∷ (codes "t", TextType) ∷ (codes "b", int32) ∷ [])
        ((number 1 ∷ number 5 ∷ text "v" ∷ number 10 ∷ []) ∷ (number 2 ∷ null ∷ null ∷ number 20 ∷ []) ∷ (number 3 ∷ null ∷ text "w" ∷ number 30 ∷ []) ∷ []))) (("s" ∷ []) ∷ ("s" ∷ "s" ∷ []) ∷ [])
        × (work_frame (FunctionWork (UnnestFunction [])) [] input ≡ Done input) }
    ensures of_two { let columns : Columns = (codes "s", one_field "w" int8) ∷ (codes "b", int32) ∷ (codes "w", struct_type ((codes "s", one_field "x" TextType) ∷ (codes "t", Truth) ∷ [])) ∷ [] in
        let input : Frame = frame_with columns ((struct_of (number 1 ∷ []) ∷ number 10 ∷ struct_of (struct_of (text "v" ∷ []) ∷ yes ∷ []) ∷ []) ∷ (null ∷ number 20 ∷ null ∷ []) ∷ []) in
        work_frame (FunctionWork (UnnestFunction (all_names ("w" ∷ "s" ∷ [])))) [] input ≡ Done (frame_with ((codes "w", int8) ∷ (codes "b", int32) ∷ (codes "s", one_field "x" TextType) ∷ (codes "t", Truth) ∷ [])
        ((number 1 ∷ number 10 ∷ struct_of (text "v" ∷ []) ∷ yes ∷ []) ∷ (null ∷ number 20 ∷ null ∷ null ∷ []) ∷ [])) }
    ensures without_fields { Gives (λ columns. work_frame (FunctionWork (UnnestFunction (codes "e" ∷ []))) [] (frame_with columns (map (λ (column : Name × Ty). struct_of []) columns ∷ map (λ (column : Name × Ty). null) columns ∷ []))) (
        ((codes "e", struct_type []) ∷ [], Done empty_frame) ∷
        ((codes "e", struct_type []) ∷ (codes "f", struct_type []) ∷ [], Done (frame_with ((codes "f", struct_type []) ∷ []) ((struct_of [] ∷ []) ∷ (null ∷ []) ∷ []))) ∷ [])
        × (work_frame (FunctionWork (UnnestFunction (all_names ("e" ∷ "f" ∷ [])))) [] (frame_with ((codes "e", struct_type []) ∷ (codes "f", struct_type []) ∷ []) ((null ∷ struct_of [] ∷ []) ∷ [])) ≡ Done empty_frame) }
    ensures no_rows { Gives (λ schema. work_frame (FunctionWork (UnnestFunction (codes "s" ∷ []))) [] (frame_with schema [])) (
        ((codes "s", struct_type schema_ab) ∷ (codes "k", int64) ∷ [], Done (frame_with ((codes "a", int8) ∷ (codes "b", int32) ∷ (codes "k", int64) ∷ []) [])) ∷ ((codes "s", struct_type []) ∷ [], Done empty_frame) ∷ ([], Done empty_frame) ∷ []) }
    ensures fields { let two = fields_from schema_ab in
        GivesOfTwo field_values ((two, struct_of (number 1 ∷ null ∷ []), number 1 ∷ null ∷ []) ∷ (two, null, null ∷ null ∷ []) ∷ (no_field, struct_of [], []) ∷ (no_field, null, []) ∷ [])
        × Gives (opened_type (codes "s")) (
        (struct_type schema_ab, schema_ab) ∷ (struct_type [], []) ∷ (int8, (codes "s", int8) ∷ []) ∷ (ListType (struct_type schema_ab), (codes "s", ListType (struct_type schema_ab)) ∷ []) ∷ (one_field "s" (one_field "a" int8), (codes "s", one_field "a" int8) ∷ []) ∷ []) }
    ensures kinds { let columns : Columns = (codes "s", struct_type ((codes "x", int8) ∷ (codes "y", int8) ∷ [])) ∷ (codes "a", int8) ∷ (codes "own", one_field "own" int8) ∷ (codes "clash", one_field "a" int8) ∷
        (codes "other", one_field "y" TextType) ∷ (codes "twice", struct_type ((codes "t", int8) ∷ (codes "t", int8) ∷ [])) ∷ (codes "l", ListType (one_field "t" int8)) ∷ (codes "n", NullType) ∷ (codes "e", struct_type []) ∷ [] in
        Gives (λ names. work_kinds (FunctionWork (UnnestFunction (all_names names))) columns []) (
        ("s" ∷ [], []) ∷ ("s" ∷ "e" ∷ "s" ∷ [], []) ∷ ("own" ∷ [], []) ∷ ("other" ∷ [], []) ∷ ([], []) ∷
        ("a" ∷ [], SchemaMismatch ∷ []) ∷ ("s" ∷ "l" ∷ [], SchemaMismatch ∷ []) ∷ ("n" ∷ [], SchemaMismatch ∷ []) ∷
        ("clash" ∷ [], Duplicate ∷ []) ∷ ("twice" ∷ [], Duplicate ∷ []) ∷ ("s" ∷ "other" ∷ [], Duplicate ∷ []) ∷ ("twice" ∷ "a" ∷ [], SchemaMismatch ∷ Duplicate ∷ []) ∷ ("s" ∷ "z" ∷ [], ColumnNotFound ∷ []) ∷ [])
        × Gives (λ names. work_kinds (FunctionWork (UnnestFunction (all_names names))) [] []) (([], []) ∷ ("s" ∷ [], ColumnNotFound ∷ []) ∷ []) × (work_kinds (FunctionWork (UnnestFunction [])) schema_ab ([] ∷ []) ≡ SchemaMismatch ∷ []) }
    ensures schemas { let columns : Columns = (codes "s", struct_type ((codes "x", int8) ∷ (codes "w", one_field "y" TextType) ∷ [])) ∷ (codes "b", int32) ∷ (codes "e", struct_type []) ∷ [] in
        Gives (λ names. schema_by [] (OverKind (FunctionWork (UnnestFunction (all_names names))) []) (Some columns ∷ [])) (
        ("s" ∷ [], Some ((codes "x", int8) ∷ (codes "w", one_field "y" TextType) ∷ (codes "b", int32) ∷ (codes "e", struct_type []) ∷ [])) ∷
        ("e" ∷ "s" ∷ [], Some ((codes "x", int8) ∷ (codes "w", one_field "y" TextType) ∷ (codes "b", int32) ∷ [])) ∷ ([], Some columns) ∷ []) }
    ensures resolved { Gives (λ selectors. expanded_kind [] (schema_ab ∷ []) (OverKind (CallWork UnnestCall) (selectors ∷ []))) (
        (root (columns_named ("b" ∷ "a" ∷ "b" ∷ [])) ∷ [], Ok (OverKind (FunctionWork (UnnestFunction (all_names ("b" ∷ "a" ∷ [])))) [])) ∷ ([], Ok (OverKind (FunctionWork (UnnestFunction [])) [])) ∷
        (root all ∷ [], Ok (OverKind (FunctionWork (UnnestFunction (all_names ("a" ∷ "b" ∷ [])))) [])) ∷ (root (nth (pos 2)) ∷ [], Err (ColumnNotFound ∷ [])) ∷ (written a ∷ [], Err (InvalidOperation ∷ [])) ∷ []) }
    ensures over { Gives (over_frame (by_meaning []) (FunctionWork (UnnestFunction (codes "s" ∷ []))) []) (
        (Done (frame_with ((codes "s", one_field "a" int8) ∷ []) ((null ∷ []) ∷ [])), Done (frame_with ((codes "a", int8) ∷ []) ((null ∷ []) ∷ []))) ∷ (Fault, Fault) ∷ (Stuck, Stuck) ∷ []) }
{}

/// One row of an aggregate of each column: the sum of numbers, truth values and spans, or the least or the greatest of what is in an
/// order, and a null of each other column's type.
pub fn statistics_of_columns()
    ensures kinds { GivesOfTwo (λ statistic types. map (statistic_of statistic) types) (
        (Sum, int8 ∷ uint64 ∷ Truth ∷ span ∷ [], Some method.Sum ∷ Some method.Sum ∷ Some method.Sum ∷ Some method.Sum ∷ []) ∷
        (Sum, TextType ∷ NullType ∷ DateType ∷ TimeType ∷ moment ∷ ListType int8 ∷ one_field "x" int8 ∷ [], None ∷ None ∷ None ∷ None ∷ None ∷ None ∷ None ∷ []) ∷
        (Min, int8 ∷ Truth ∷ TextType ∷ DateType ∷ TimeType ∷ moment ∷ span ∷ [], Some method.Min ∷ Some method.Min ∷ Some method.Min ∷ Some method.Min ∷ Some method.Min ∷ Some method.Min ∷ Some method.Min ∷ []) ∷
        (Max, uint64 ∷ Truth ∷ TextType ∷ DateType ∷ TimeType ∷ moment ∷ span ∷ [], Some method.Max ∷ Some method.Max ∷ Some method.Max ∷ Some method.Max ∷ Some method.Max ∷ Some method.Max ∷ Some method.Max ∷ []) ∷
        (Min, NullType ∷ ListType int8 ∷ one_field "x" int8 ∷ [], None ∷ None ∷ None ∷ []) ∷ (Max, NullType ∷ ListType int8 ∷ one_field "x" int8 ∷ [], None ∷ None ∷ None ∷ []) ∷ []) }
    ensures resolved { let columns : Columns = (codes "a", uint8) ∷ (codes "s", TextType) ∷ [] in
        Gives (λ statistic. expanded_kind [] (columns ∷ []) (OverKind (CallWork (StatsCall statistic)) [])) (
        (Sum, Ok (OverKind SelectWork ((named (agg method.Sum a) ∷ named (alias "s" (cast_as NonStrict TextType nothing)) ∷ []) ∷ []))) ∷
        (Min, Ok (OverKind SelectWork ((named (agg method.Min a) ∷ named (agg method.Min s) ∷ []) ∷ []))) ∷ (Max, Ok (OverKind SelectWork ((named (agg method.Max a) ∷ named (agg method.Max s) ∷ []) ∷ []))) ∷ [])
        × (expanded_kind [] ([] ∷ []) (OverKind (CallWork (StatsCall Sum)) []) ≡ Ok (OverKind SelectWork ([] ∷ []))) }
    ensures frames { let columns : Columns = (codes "a", uint8) ∷ (codes "s", TextType) ∷ [] in
        let input : Frame = frame_with columns ((number 200 ∷ text "x" ∷ []) ∷ (null ∷ text "w" ∷ []) ∷ (number 100 ∷ null ∷ []) ∷ []) in
        Gives (λ statistic. source_meaning [] (input ∷ []) (resolved [] (source_over (CallWork (StatsCall statistic)) [] (scan columns)))) (
        (Sum, Done (frame_with ((codes "a", int64) ∷ (codes "s", TextType) ∷ []) ((number 300 ∷ null ∷ []) ∷ []))) ∷ (Min, Done (frame_with columns ((number 100 ∷ text "w" ∷ []) ∷ []))) ∷ (Max, Done (frame_with columns ((number 200 ∷ text "x" ∷ []) ∷ []))) ∷ []) }
    ensures frames_of_other_types { let columns : Columns = (codes "l", ListType int8) ∷ (codes "t", Truth) ∷ (codes "d", span) ∷ (codes "m", DateType) ∷ (codes "n", NullType) ∷ (codes "r", struct_type []) ∷ [] in
        let input : Frame = frame_with columns ((list [] ∷ yes ∷ number 5 ∷ number 3 ∷ null ∷ struct_of [] ∷ []) ∷ (list [] ∷ no ∷ negative 9 ∷ number 4 ∷ null ∷ null ∷ []) ∷ (null ∷ yes ∷ null ∷ number 2 ∷ null ∷ null ∷ []) ∷ []) in
        Gives (λ statistic. source_meaning [] (input ∷ []) (resolved [] (source_over (CallWork (StatsCall statistic)) [] (scan columns)))) (
        (Sum, Done (frame_with ((codes "l", ListType int8) ∷ (codes "t", uint32) ∷ (codes "d", span) ∷ (codes "m", DateType) ∷ (codes "n", NullType) ∷ (codes "r", struct_type []) ∷ []) ((null ∷ number 2 ∷ negative 4 ∷ null ∷ null ∷ null ∷ []) ∷ []))) ∷
        (Min, Done (frame_with columns ((null ∷ no ∷ negative 9 ∷ number 2 ∷ null ∷ null ∷ []) ∷ []))) ∷ (Max, Done (frame_with columns ((null ∷ yes ∷ number 5 ∷ number 4 ∷ null ∷ null ∷ []) ∷ []))) ∷ []) }
    ensures no_rows { let columns : Columns = (codes "a", uint8) ∷ (codes "s", TextType) ∷ [] in
        Gives (λ statistic. source_meaning [] (frame_with columns [] ∷ []) (resolved [] (source_over (CallWork (StatsCall statistic)) [] (scan columns)))) (
        (Sum, Done (frame_with ((codes "a", int64) ∷ (codes "s", TextType) ∷ []) ((number 0 ∷ null ∷ []) ∷ []))) ∷ (Min, Done (frame_with columns ((null ∷ null ∷ []) ∷ []))) ∷ (Max, Done (frame_with columns ((null ∷ null ∷ []) ∷ []))) ∷ [])
        × GivesAll (λ statistic. source_meaning [] (empty_frame ∷ []) (resolved [] (source_over (CallWork (StatsCall statistic)) [] (scan [])))) (Done empty_frame) (Sum ∷ Min ∷ Max ∷ []) }
    ensures schemas { let columns : Columns = (codes "a", uint8) ∷ (codes "s", TextType) ∷ (codes "l", ListType int8) ∷ (codes "d", span) ∷ [] in
        Gives (λ statistic. schema_of [] (resolved [] (source_over (CallWork (StatsCall statistic)) [] (scan columns)))) (
        (Sum, Some ((codes "a", int64) ∷ (codes "s", TextType) ∷ (codes "l", ListType int8) ∷ (codes "d", span) ∷ [])) ∷ (Min, Some columns) ∷ (Max, Some columns) ∷ [])
        × (schema_of [] (resolved [] (source_over (CallWork (StatsCall Sum)) [] (scan []))) ≡ Some []) }
    ensures over { let faults = written_select (cast_as Strict int8 b ∷ []) (scan schema_ab) in
        (source_meaning [] (table ∷ []) (resolved [] (source_over (CallWork (StatsCall Min)) [] faults)) ≡ Fault)
        × (source_meaning [] (table ∷ []) (resolved [] (source_over (CallWork (StatsCall Min)) [] (source_over (CallWork UnnestCall) ([] ∷ []) faults))) ≡ Fault)
        × Gives (over_frame (by_meaning []) SelectWork ([] ∷ [])) ((Fault, Done empty_frame) ∷ (Done table, Done empty_frame) ∷ []) }
{}

/// A call in a plan that isn't a query's breaks a rule, and gives nothing. So does one with other lists than its own, which stays a call.
pub fn calls_in_plans()
    ensures kinds { GivesAll (λ call. work_kinds (CallWork call) schema_ab []) (SchemaMismatch ∷ []) (ExplodeCall true ∷ UnpivotCall None None ∷ RenameCall [] [] false ∷ UnnestCall ∷ StatsCall Sum ∷ []) }
    ensures schema { schema_of [] (resolved [] (source_over (CallWork UnnestCall) [] (scan schema_ab))) ≡ None }
    ensures frame { GivesAll (λ call. work_frame (CallWork call) [] table) Stuck (ExplodeCall true ∷ UnpivotCall None None ∷ RenameCall [] [] false ∷ UnnestCall ∷ StatsCall Sum ∷ []) }
    ensures other_lists { GivesOfTwo (called_work schema_ab) (
        (ExplodeCall true, [], Ok (CallWork (ExplodeCall true))) ∷ (UnpivotCall None None, [] ∷ [], Ok (CallWork (UnpivotCall None None))) ∷ (RenameCall [] [] true, [] ∷ [], Ok (CallWork (RenameCall [] [] true))) ∷
        (UnnestCall, [] ∷ [] ∷ [], Ok (CallWork UnnestCall)) ∷ (StatsCall Sum, [] ∷ [], Ok (CallWork (StatsCall Sum))) ∷ []) }
{}
