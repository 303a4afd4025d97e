//! Nodes that give some or all of their input's rows: slices, sorts, distinct rows, and rows that are passed on.

ghost use Rattle.std.specs.Prelude.{◌≡◌, ℕ, Bool, List, [], ◌∷◌, map, pos, negsuc, codes, true, false, Some, None, Ok, Err};
ghost use Rattle.plan_types.specs.Types.{NullType, Truth, TextType, ListType};
ghost use Rattle.plan_types.specs.Values.{Val};
ghost use Rattle.plan_types.specs.Outcomes.{Done, Fault, Stuck};
ghost use Rattle.plan_types.specs.Frames.{Frame, empty_frame};
ghost use Rattle.plan_types.specs.declared.error.ErrorKind.TheVariants.{ColumnNotFound, SchemaMismatch, InvalidOperation, ComputeError};
ghost use Rattle.plan_dsl.specs.declared.distinct_options.UniqueKeepStrategy.TheVariants.{First, Last, None as Lone, Any};
ghost use Rattle.plan_dsl.specs.Plans.{Work, SliceWork, SortWork, DistinctWork, PassWork, FunctionWork, CallWork, CachePass, SinkPass, RechunkPass, SamePass, OverKind, named};
ghost use Rattle.plan_dsl.specs.TableFunctions.{RenameFunction, UnnestCall};
ghost use Rattle.plan_dsl.specs.Sources.{Source, written};
ghost use Rattle.plan_dsl.specs.PlanRules.{type_kinds, all_type_kinds, subset_kinds, work_kinds, own_kinds, schema_by, keeps_schema};
ghost use Rattle.plan_dsl.specs.PlanKernels.{Evaluated, gives_nothing, work_frame, over_frame, with_rows, subset_keys};
ghost use Rattle.plan_dsl.specs.PlanMeaning.{by_meaning};
ghost use Rattle.plan_dsl.specs.SortFlags.{both_served, count_of, key_counts, keys_served, each_served, flags_served, sort_flags};
ghost use Rattle.plan_dsl.specs.Resolving.{expanded_lists, expanded_kind};
ghost use Rattle.plan_dsl.specs.Samples.{Gives, GivesOfTwo, GivesAll, int8, int64, struct_type, a, b, c, one, column, all, all_names, columns_named, columns_of_type, columns_at, nth, root, source_alias, one_value, many_values, of_many, frame_with, number, null, text, table, keyed, schema_ab, schema_kv};

/// So many rows from a place on, of two: an offset below 0 counts from the end, and either end may lie outside.
pub fn rows_that_are_sliced()
    ensures rows { let first = number 1 ∷ number 10 ∷ [] in
        let second = null ∷ number 20 ∷ [] in
        let two : Frame = frame_with schema_ab (first ∷ second ∷ []) in
        GivesOfTwo (λ offset count. work_frame (SliceWork offset count) [] two) (
        (negsuc 0, 1, Done (with_rows two (second ∷ []))) ∷ (pos 5, 3, Done (with_rows two [])) ∷ (pos 0, 0, Done (with_rows two [])) ∷ (pos 1, 1, Done (with_rows two (second ∷ []))) ∷
        (pos 0, 1, Done (with_rows two (first ∷ []))) ∷ (pos 0, 2, Done two) ∷ (pos 0, 9, Done two) ∷ (pos 2, 1, Done (with_rows two [])) ∷ (negsuc 1, 1, Done (with_rows two (first ∷ []))) ∷ (negsuc 2, 2, Done (with_rows two (first ∷ []))) ∷
        (negsuc 2, 1, Done (with_rows two [])) ∷ (negsuc 9223372036854775807, 3, Done (with_rows two [])) ∷ (negsuc 9223372036854775807, 9223372036854775808, Done two) ∷ []) }
    ensures no_rows { GivesOfTwo (λ offset count. work_frame (SliceWork offset count) [] (frame_with schema_ab [])) (
        (pos 0, 1, Done (frame_with schema_ab [])) ∷ (negsuc 0, 1, Done (frame_with schema_ab [])) ∷ (pos 7, 7, Done (frame_with schema_ab [])) ∷ [])
        × Gives (λ count. work_frame (SliceWork (pos 0) count) [] empty_frame) ((0, Done empty_frame) ∷ (5, Done empty_frame) ∷ []) }
    ensures kinds { Gives (work_kinds (SliceWork (pos 0) 1) schema_ab) (([], []) ∷ ([] ∷ [], SchemaMismatch ∷ []) ∷ (all_names ("a" ∷ []) ∷ [], SchemaMismatch ∷ []) ∷ [])
        × (type_kinds (SliceWork (pos 0) 1) (many_values int8) ≡ []) }
    ensures schemas { Gives (schema_by [] (OverKind (SliceWork (pos 0) 1) [])) ((Some schema_ab ∷ [], Some schema_ab) ∷ (None ∷ [], None) ∷ ([], None) ∷ []) }
    ensures resolved { Gives (expanded_kind [] (schema_ab ∷ [])) (
        (OverKind (SliceWork (negsuc 4) 2) [], Ok (OverKind (SliceWork (negsuc 4) 2) [])) ∷ (OverKind (SliceWork (pos 0) 1) ((written a ∷ []) ∷ []), Ok (OverKind (SliceWork (pos 0) 1) ((named a ∷ []) ∷ []))) ∷ [])
        × (own_kinds [] (OverKind (SliceWork (pos 0) 1) ((named a ∷ []) ∷ [])) (Some schema_ab ∷ []) ≡ SchemaMismatch ∷ []) }
    ensures over { GivesOfTwo (λ work input. over_frame (by_meaning []) work [] input) (
        (SliceWork (pos 0) 0, Fault, Fault) ∷ (SliceWork (pos 0) 0, Stuck, Stuck) ∷ (SliceWork (pos 0) 1, Done empty_frame, Done empty_frame) ∷ []) }
{}

/// Rows in the order of keys, by a flag for each key or one for all. Rows with the same keys stay as they stand.
pub fn rows_that_are_sorted()
    ensures rows { let first = number 1 ∷ number 10 ∷ [] in
        let second = null ∷ number 20 ∷ [] in
        let third = number 1 ∷ number 30 ∷ [] in
        let fourth = number 5 ∷ number 10 ∷ [] in
        let four : Frame = frame_with schema_ab (first ∷ second ∷ third ∷ fourth ∷ []) in
        let key : List Val → Evaluated = λ values. record { name = codes "k"; typing = of_many int8; gives = λ rows. Done values } in
        let a_key = key (number 1 ∷ null ∷ number 1 ∷ number 5 ∷ []) in
        let b_key = key (number 10 ∷ number 20 ∷ number 30 ∷ number 10 ∷ []) in
        GivesOfTwo (λ descending nulls_last. work_frame (SortWork descending nulls_last) ((a_key ∷ []) ∷ []) four) (
        (false ∷ [], false ∷ [], Done (with_rows four (second ∷ first ∷ third ∷ fourth ∷ []))) ∷ (true ∷ [], false ∷ [], Done (with_rows four (second ∷ fourth ∷ first ∷ third ∷ []))) ∷
        (false ∷ [], true ∷ [], Done (with_rows four (first ∷ third ∷ fourth ∷ second ∷ []))) ∷ (true ∷ [], true ∷ [], Done (with_rows four (fourth ∷ first ∷ third ∷ second ∷ []))) ∷ [])
        × GivesOfTwo (λ descending nulls_last. work_frame (SortWork descending nulls_last) ((a_key ∷ b_key ∷ []) ∷ []) four) (
        (true ∷ false ∷ [], false ∷ true ∷ [], Done (with_rows four (second ∷ fourth ∷ first ∷ third ∷ []))) ∷ (false ∷ true ∷ [], true ∷ [], Done (with_rows four (third ∷ first ∷ fourth ∷ second ∷ []))) ∷
        (true ∷ [], false ∷ [], Done (with_rows four (second ∷ fourth ∷ third ∷ first ∷ []))) ∷ (false ∷ [], true ∷ false ∷ [], Done (with_rows four (first ∷ third ∷ fourth ∷ second ∷ []))) ∷ [])
        × GivesOfTwo (λ descending nulls_last. work_frame (SortWork descending nulls_last) ([] ∷ []) four) ((true ∷ [], false ∷ [], Done four) ∷ ([], [], Done four) ∷ ([], true ∷ [], Done four) ∷ [])
        × Gives (λ values. work_frame (SortWork (true ∷ []) (true ∷ [])) ((key values ∷ a_key ∷ []) ∷ []) four) (
        (number 7 ∷ [], Done (with_rows four (fourth ∷ first ∷ third ∷ second ∷ []))) ∷ (number 1 ∷ number 2 ∷ [], Fault) ∷ ([], Fault) ∷ (number 4 ∷ number 3 ∷ number 2 ∷ number 1 ∷ [], Done four) ∷ []) }
    ensures no_rows { let key : List Val → Evaluated = λ values. record { name = codes "k"; typing = of_many int8; gives = λ rows. Done values } in
        Gives (λ values. work_frame (SortWork (false ∷ []) (false ∷ [])) ((key values ∷ []) ∷ []) (frame_with schema_ab [])) (
        ([], Done (frame_with schema_ab [])) ∷ (number 7 ∷ [], Done (frame_with schema_ab [])) ∷ (number 7 ∷ number 8 ∷ [], Fault) ∷ [])
        × (work_frame (SortWork [] []) ([] ∷ []) empty_frame ≡ Done empty_frame) × (work_frame (SortWork (true ∷ []) (true ∷ [])) ((key [] ∷ []) ∷ []) empty_frame ≡ Done empty_frame) }
    ensures faults { Gives (λ given. work_frame (SortWork (false ∷ []) (false ∷ [])) ((record { name = codes "k"; typing = of_many int8; gives = λ rows. given } ∷ []) ∷ []) table) ((Fault, Fault) ∷ (Stuck, Stuck) ∷ [])
        × (work_frame (SortWork (false ∷ []) (false ∷ [])) ((record { name = codes "k"; typing = Err ColumnNotFound; gives = λ rows. Done [] } ∷ []) ∷ []) table ≡ Stuck)
        × Gives (λ lists. work_frame (SortWork [] []) lists table) (([], Stuck) ∷ ([] ∷ [] ∷ [], Stuck) ∷ []) }
    ensures over { GivesOfTwo (λ lists input. over_frame (by_meaning []) (SortWork (true ∷ []) (true ∷ [])) lists input) (
        ((named a ∷ []) ∷ [], Done table, Done (frame_with schema_ab ((number 100 ∷ number 200 ∷ []) ∷ (number 1 ∷ number 10 ∷ []) ∷ (null ∷ number 20 ∷ []) ∷ []))) ∷
        ((named one ∷ []) ∷ [], Done table, Done table) ∷ ((named a ∷ []) ∷ [], Fault, Fault) ∷ []) }
{}

/// A key's type has an order, and there is a flag for each key in each list, or one for all. Lists of two wrong numbers break it once.
pub fn kinds_that_sorts_break()
    ensures types { Gives (type_kinds (SortWork [] [])) (
        (many_values int8, []) ∷ (one_value TextType, []) ∷ (many_values Truth, []) ∷ (many_values NullType, []) ∷
        (many_values (ListType int8), InvalidOperation ∷ []) ∷ (one_value (struct_type schema_ab), InvalidOperation ∷ []) ∷ []) }
    ensures of_lists { Gives (λ keys. all_type_kinds [] (SortWork [] []) ((codes "l", ListType int8) ∷ schema_ab) ((map named keys) ∷ [])) (
        (a ∷ b ∷ [], []) ∷ (column "l" ∷ a ∷ column "l" ∷ [], InvalidOperation ∷ InvalidOperation ∷ []) ∷ (c ∷ [], []) ∷ ([], []) ∷ []) }
    ensures flags { GivesOfTwo (λ descending nulls_last. work_kinds (SortWork descending nulls_last) schema_ab (all_names ("a" ∷ "b" ∷ []) ∷ [])) (
        (true ∷ false ∷ [], true ∷ [], []) ∷ (true ∷ [], false ∷ [], []) ∷ (true ∷ true ∷ [], false ∷ true ∷ [], []) ∷
        ([], true ∷ [], ComputeError ∷ []) ∷ (true ∷ [], true ∷ false ∷ true ∷ [], ComputeError ∷ []) ∷ ([], [], ComputeError ∷ []) ∷ []) }
    ensures one_key { GivesOfTwo (λ descending nulls_last. work_kinds (SortWork descending nulls_last) schema_ab (all_names ("a" ∷ []) ∷ [])) (
        (true ∷ [], false ∷ [], []) ∷ ([], true ∷ [], ComputeError ∷ []) ∷ (true ∷ true ∷ [], true ∷ [], ComputeError ∷ []) ∷ []) }
    ensures no_keys { GivesOfTwo (λ descending nulls_last. work_kinds (SortWork descending nulls_last) schema_ab ([] ∷ [])) (
        ([], [], []) ∷ (true ∷ [], [], []) ∷ (true ∷ [], false ∷ [], []) ∷ (true ∷ false ∷ [], [], ComputeError ∷ []) ∷ []) }
    ensures other_lists { GivesAll (work_kinds (SortWork (true ∷ []) (true ∷ [])) schema_ab) (SchemaMismatch ∷ []) ([] ∷ ([] ∷ [] ∷ []) ∷ []) }
    ensures schemas { Gives (λ keys. schema_by [] (OverKind (SortWork (true ∷ []) (true ∷ [])) ((map named keys) ∷ [])) (Some schema_ab ∷ [])) ((b ∷ a ∷ [], Some schema_ab) ∷ ([], Some schema_ab) ∷ (c ∷ [], None) ∷ []) }
{}

/// A query's sort has a flag for each expression, for each name of a list of names that stands alone, or one for all. What is resolved
/// has one for each key, or the one.
pub fn flags_of_sorts()
    ensures counts { Gives count_of ((Ok (a ∷ b ∷ []), 2) ∷ (Ok [], 0) ∷ (Err ColumnNotFound, 0) ∷ [])
        × Gives (keys_served schema_ab) (
        ([], []) ∷ (all ∷ [], 2 ∷ []) ∷ (written a ∷ all ∷ [], 1 ∷ 2 ∷ []) ∷ (columns_named ("a" ∷ "b" ∷ []) ∷ [], 1 ∷ 1 ∷ []) ∷ (columns_named [] ∷ [], []) ∷
        (columns_named ("a" ∷ "b" ∷ "a" ∷ []) ∷ written a ∷ [], 3 ∷ 1 ∷ []) ∷ (source_alias "x" (columns_named ("a" ∷ "b" ∷ [])) ∷ [], 2 ∷ []) ∷
        (columns_of_type int64 ∷ written b ∷ [], 0 ∷ 1 ∷ []) ∷ (columns_at (pos 2 ∷ []) ∷ [], 0 ∷ []) ∷ [])
        × Gives (key_counts schema_ab) (([], []) ∷ (all ∷ written a ∷ [], 2 ∷ 1 ∷ []) ∷ (columns_named ("a" ∷ "b" ∷ []) ∷ [], 2 ∷ []) ∷ (columns_at (pos 2 ∷ []) ∷ [], 0 ∷ []) ∷ []) }
    ensures served { GivesOfTwo each_served (
        (2 ∷ 1 ∷ [], true ∷ false ∷ [], true ∷ true ∷ false ∷ []) ∷ (0 ∷ 2 ∷ [], true ∷ false ∷ [], false ∷ false ∷ []) ∷ ([], [], []) ∷ (1 ∷ [], [], []) ∷ ([], true ∷ [], []) ∷ [])
        × GivesOfTwo flags_served (
        (2 ∷ 1 ∷ [], true ∷ false ∷ [], Ok (true ∷ true ∷ false ∷ [])) ∷ (2 ∷ 1 ∷ [], true ∷ [], Ok (true ∷ [])) ∷ (2 ∷ 1 ∷ [], [], Err (ComputeError ∷ [])) ∷
        (2 ∷ 1 ∷ [], true ∷ false ∷ true ∷ [], Err (ComputeError ∷ [])) ∷ (3 ∷ [], true ∷ [], Ok (true ∷ [])) ∷ (0 ∷ 0 ∷ [], true ∷ false ∷ [], Ok []) ∷
        ([], [], Ok []) ∷ ([], true ∷ [], Ok (true ∷ [])) ∷ ([], true ∷ false ∷ [], Err (ComputeError ∷ [])) ∷ []) }
    ensures both { Gives (λ (case : List ℕ × List Bool × List Bool). both_served case.0 case.1 case.2) (
        ((2 ∷ 1 ∷ [], true ∷ false ∷ [], false ∷ []), Ok (true ∷ true ∷ false ∷ [], false ∷ [])) ∷ ((1 ∷ [], true ∷ false ∷ [], true ∷ []), Err (ComputeError ∷ [])) ∷
        ((1 ∷ [], true ∷ [], []), Err (ComputeError ∷ [])) ∷ []) }
    ensures flags { Gives (λ (case : List Source × List Bool × List Bool). sort_flags schema_ab case.0 case.1 case.2) (
        ((all ∷ written a ∷ [], true ∷ false ∷ [], false ∷ []), Ok (true ∷ true ∷ false ∷ [], false ∷ [])) ∷ ((all ∷ written a ∷ [], true ∷ [], false ∷ true ∷ []), Ok (true ∷ [], false ∷ false ∷ true ∷ [])) ∷
        ((columns_of_type int64 ∷ written b ∷ [], true ∷ false ∷ [], false ∷ true ∷ []), Ok (false ∷ [], true ∷ [])) ∷
        ((columns_named ("b" ∷ "a" ∷ []) ∷ [], true ∷ false ∷ [], false ∷ true ∷ []), Ok (true ∷ false ∷ [], false ∷ true ∷ [])) ∷
        ((columns_named ("b" ∷ "a" ∷ []) ∷ [], true ∷ false ∷ true ∷ [], false ∷ []), Err (ComputeError ∷ [])) ∷ ((columns_named ("b" ∷ "a" ∷ []) ∷ written a ∷ [], true ∷ false ∷ true ∷ [], false ∷ []), Err (ComputeError ∷ [])) ∷
        ((all ∷ [], true ∷ false ∷ [], true ∷ []), Err (ComputeError ∷ [])) ∷ ((written a ∷ [], [], []), Err (ComputeError ∷ [])) ∷ ((written a ∷ [], true ∷ [], true ∷ false ∷ []), Err (ComputeError ∷ [])) ∷
        (([], [], true ∷ []), Ok ([], true ∷ [])) ∷ (([], true ∷ true ∷ [], []), Err (ComputeError ∷ [])) ∷ []) }
    ensures resolved { Gives (expanded_kind [] (schema_ab ∷ [])) (
        (OverKind (SortWork (true ∷ false ∷ []) (false ∷ [])) ((all ∷ written a ∷ []) ∷ []), Ok (OverKind (SortWork (true ∷ true ∷ false ∷ []) (false ∷ [])) ((named a ∷ named b ∷ named a ∷ []) ∷ []))) ∷
        (OverKind (SortWork (true ∷ false ∷ []) (false ∷ true ∷ [])) ((columns_named ("b" ∷ "a" ∷ []) ∷ []) ∷ []), Ok (OverKind (SortWork (true ∷ false ∷ []) (false ∷ true ∷ [])) ((named b ∷ named a ∷ []) ∷ []))) ∷
        (OverKind (SortWork [] (true ∷ [])) ([] ∷ []), Ok (OverKind (SortWork [] (true ∷ [])) ([] ∷ []))) ∷ (OverKind (SortWork [] (true ∷ [])) ((written a ∷ []) ∷ []), Err (ComputeError ∷ [])) ∷
        (OverKind (SortWork [] []) ((written a ∷ columns_at (pos 2 ∷ []) ∷ []) ∷ []), Err (ColumnNotFound ∷ [])) ∷ (OverKind (SortWork [] []) [], Ok (OverKind (SortWork [] []) [])) ∷ []) }
{}

/// Rows once, by their values under names, or as a whole: the first, the last, or any of the same, or those that are alone. A null is
/// the same as another, and by no names all rows are.
pub fn rows_that_are_distinct()
    ensures by_names { let first = text "x" ∷ number 1 ∷ [] in
        let second = text "y" ∷ number 2 ∷ [] in
        let fourth = null ∷ number 4 ∷ [] in
        let fifth = null ∷ number 5 ∷ [] in
        Gives (λ keep. work_frame (DistinctWork keep (Some (all_names ("k" ∷ [])))) [] keyed) (
        (First, Done (with_rows keyed (first ∷ second ∷ fourth ∷ []))) ∷ (Last, Done (with_rows keyed (first ∷ second ∷ fifth ∷ []))) ∷ (Any, Done (with_rows keyed (first ∷ second ∷ fourth ∷ []))) ∷
        (Lone, Done (with_rows keyed (second ∷ []))) ∷ []) }
    ensures by_all { let second = text "y" ∷ number 2 ∷ [] in
        let third = text "x" ∷ null ∷ [] in
        let fourth = null ∷ number 4 ∷ [] in
        let fifth = null ∷ number 5 ∷ [] in
        let once : Frame = with_rows keyed ((text "x" ∷ number 1 ∷ []) ∷ second ∷ third ∷ fourth ∷ fifth ∷ []) in
        let alone : Frame = with_rows keyed (second ∷ third ∷ fourth ∷ fifth ∷ []) in
        GivesAll (λ subset. map (λ keep. work_frame (DistinctWork keep subset) [] keyed) (First ∷ Last ∷ Any ∷ Lone ∷ [])) (Done once ∷ Done once ∷ Done once ∷ Done alone ∷ []) (
        None ∷ Some (all_names ("k" ∷ "v" ∷ [])) ∷ Some (all_names ("v" ∷ "k" ∷ "v" ∷ [])) ∷ []) }
    ensures by_none { Gives (λ keep. work_frame (DistinctWork keep (Some [])) [] keyed) (
        (First, Done (with_rows keyed ((text "x" ∷ number 1 ∷ []) ∷ []))) ∷ (Last, Done (with_rows keyed ((text "x" ∷ number 1 ∷ []) ∷ []))) ∷ (Lone, Done (with_rows keyed [])) ∷ [])
        × (work_frame (DistinctWork Last (Some [])) [] table ≡ Done (with_rows table ((number 100 ∷ number 200 ∷ []) ∷ [])))
        × (work_frame (DistinctWork Lone (Some [])) [] (with_rows table ((number 1 ∷ number 10 ∷ []) ∷ [])) ≡ Done (with_rows table ((number 1 ∷ number 10 ∷ []) ∷ []))) }
    ensures no_rows { GivesAll (λ subset. map (λ keep. work_frame (DistinctWork keep subset) [] (frame_with schema_kv [])) (First ∷ Last ∷ Any ∷ Lone ∷ [])) (map (λ keep. Done (frame_with schema_kv [])) (First ∷ Last ∷ Any ∷ Lone ∷ [])) (
        None ∷ Some [] ∷ Some (all_names ("v" ∷ [])) ∷ [])
        × GivesAll (λ subset. work_frame (DistinctWork First subset) [] empty_frame) (Done empty_frame) (None ∷ Some [] ∷ []) × (work_frame (DistinctWork First None) ([] ∷ []) table ≡ Stuck) }
    ensures keys { Gives (λ subset. subset_keys schema_ab subset ((number 1 ∷ number 10 ∷ []) ∷ (null ∷ number 20 ∷ []) ∷ [])) (
        (None, (number 1 ∷ number 10 ∷ []) ∷ (null ∷ number 20 ∷ []) ∷ []) ∷ (Some (all_names ("b" ∷ "a" ∷ [])), (number 10 ∷ number 1 ∷ []) ∷ (number 20 ∷ null ∷ []) ∷ []) ∷ (Some [], [] ∷ [] ∷ []) ∷ []) }
    ensures over { GivesOfTwo (λ subset input. over_frame (by_meaning []) (DistinctWork First subset) [] input) (
        (None, Done table, Done table) ∷ (Some [], Done table, Done (with_rows table ((number 1 ∷ number 10 ∷ []) ∷ []))) ∷ (Some [], Fault, Fault) ∷ (None, Stuck, Stuck) ∷ []) }
{}

/// The names stand in the input's schema. In a query they are what selectors make, and without selectors rows are the same as a whole.
pub fn names_of_distinct_rows()
    ensures kinds { Gives (λ subset. work_kinds (DistinctWork First subset) schema_ab []) (
        (None, []) ∷ (Some [], []) ∷ (Some (all_names ("b" ∷ "a" ∷ "b" ∷ [])), []) ∷ (Some (all_names ("a" ∷ "c" ∷ [])), ColumnNotFound ∷ []) ∷ (Some (all_names ("c" ∷ "d" ∷ [])), ColumnNotFound ∷ []) ∷ [])
        × GivesAll (λ subset. work_kinds (DistinctWork Last subset) schema_ab ([] ∷ [])) (SchemaMismatch ∷ []) (None ∷ Some [] ∷ [])
        × GivesOfTwo subset_kinds ((schema_ab, None, []) ∷ ([], Some [], []) ∷ ([], Some (all_names ("a" ∷ [])), ColumnNotFound ∷ []) ∷ []) × (type_kinds (DistinctWork First None) (many_values int8) ≡ []) }
    ensures schemas { GivesAll (λ keep. schema_by [] (OverKind (DistinctWork keep (Some (all_names ("b" ∷ [])))) []) (Some schema_ab ∷ [])) (Some schema_ab) (First ∷ Last ∷ Any ∷ Lone ∷ []) }
    ensures lists { GivesOfTwo (expanded_lists schema_ab) (
        (DistinctWork First None, (root all ∷ []) ∷ [], Ok []) ∷ (DistinctWork First None, [], Ok []) ∷ (DistinctWork First None, (written a ∷ []) ∷ (all ∷ []) ∷ [], Ok ((a ∷ []) ∷ (a ∷ b ∷ []) ∷ [])) ∷
        (DistinctWork Last (Some []), (written a ∷ []) ∷ [], Ok ((a ∷ []) ∷ [])) ∷ []) }
    ensures resolved { Gives (expanded_kind [] (schema_ab ∷ [])) (
        (OverKind (DistinctWork First None) [], Ok (OverKind (DistinctWork First None) [])) ∷ (OverKind (DistinctWork Any None) ([] ∷ []), Ok (OverKind (DistinctWork Any (Some [])) [])) ∷
        (OverKind (DistinctWork Last None) ((root (written b) ∷ root all ∷ []) ∷ []), Ok (OverKind (DistinctWork Last (Some (all_names ("b" ∷ "a" ∷ [])))) [])) ∷
        (OverKind (DistinctWork Lone None) ((root (written c) ∷ []) ∷ []), Ok (OverKind (DistinctWork Lone (Some (all_names ("c" ∷ [])))) [])) ∷
        (OverKind (DistinctWork First None) ((root (nth (pos 5)) ∷ []) ∷ []), Err (ColumnNotFound ∷ [])) ∷ (OverKind (DistinctWork First None) ((written a ∷ root all ∷ []) ∷ []), Err (InvalidOperation ∷ [])) ∷ []) }
{}

/// Rows that are passed on as they are, whatever passes them.
pub fn rows_that_are_passed()
    ensures rows { let two : Frame = frame_with schema_ab ((number 1 ∷ number 10 ∷ []) ∷ (null ∷ number 20 ∷ []) ∷ []) in
        GivesAll (λ passing. work_frame (PassWork passing) [] two) (Done two) (CachePass 0 ∷ CachePass 7 ∷ SinkPass ∷ RechunkPass ∷ SamePass ∷ [])
        × (work_frame (PassWork SinkPass) [] (frame_with schema_ab []) ≡ Done (frame_with schema_ab [])) × (work_frame (PassWork RechunkPass) [] empty_frame ≡ Done empty_frame) × (work_frame (PassWork SamePass) [] empty_frame ≡ Done empty_frame)
        × (work_frame (PassWork SinkPass) ([] ∷ []) two ≡ Stuck) }
    ensures kinds { Gives (work_kinds (PassWork (CachePass 1)) schema_ab) (([], []) ∷ ([] ∷ [], SchemaMismatch ∷ []) ∷ []) × (type_kinds (PassWork SinkPass) (many_values int8) ≡ []) }
    ensures schemas { GivesAll (λ passing. schema_by [] (OverKind (PassWork passing) []) (Some schema_ab ∷ [])) (Some schema_ab) (CachePass 3 ∷ SinkPass ∷ RechunkPass ∷ SamePass ∷ []) }
    ensures resolved { Gives (expanded_kind [] (schema_ab ∷ [])) (
        (OverKind (PassWork (CachePass 3)) [], Ok (OverKind (PassWork (CachePass 3)) [])) ∷ (OverKind (PassWork SinkPass) [], Ok (OverKind (PassWork SinkPass) [])) ∷ (OverKind (PassWork SamePass) [], Ok (OverKind (PassWork SamePass) [])) ∷ []) }
    ensures over { GivesOfTwo (λ work input. over_frame (by_meaning []) work [] input) ((PassWork SinkPass, Fault, Fault) ∷ (PassWork RechunkPass, Stuck, Stuck) ∷ (PassWork SamePass, Fault, Fault) ∷ []) }
{}

/// Each but a function keeps its input's schema, so that no lowered node of it records one, and gives something whatever its lists.
pub fn works_of_rows()
    ensures kept { GivesAll keeps_schema true (SliceWork (pos 0) 1 ∷ SortWork (true ∷ []) [] ∷ DistinctWork Any None ∷ DistinctWork Lone (Some []) ∷ PassWork (CachePass 0) ∷ PassWork SinkPass ∷ PassWork SamePass ∷ [])
        × Gives keeps_schema ((PassWork RechunkPass, false) ∷ (FunctionWork (RenameFunction [] [] false), false) ∷ (CallWork UnnestCall, false) ∷ []) }
    ensures something { GivesAll (λ (work : Work). gives_nothing work []) false (SliceWork (pos 0) 0 ∷ SortWork [] [] ∷ DistinctWork First (Some []) ∷ PassWork SinkPass ∷ []) }
{}
