//! Group-bys: their frames, their schemas and the rules that they break.

ghost use Rattle.std.specs.Prelude.{◌≡◌, ℕ, [], ◌∷◌, map, pos, codes, Bool, true, false, List, Some, None, Ok, Err};
ghost use Rattle.plan_types.specs.Schemas.{columns};
ghost use Rattle.plan_types.specs.declared.schema.Schema.{Schema};
ghost use Rattle.plan_dsl.specs.declared.expr.Exprs.{Exprs};
ghost use Rattle.plan_dsl.specs.declared.plan.DslPlan.TheVariants.{DataFrameScan, GroupBy'};
ghost use Rattle.plan_dsl.specs.Expressions.{trees_of};
ghost use Rattle.plan_types.specs.Types.{Truth, TextType, ListType};
ghost use Rattle.plan_types.specs.Values.{Val, ListValue};
ghost use Rattle.plan_types.specs.Outcomes.{Done, Fault, Stuck};
ghost use Rattle.plan_types.specs.Frames.{empty_frame};
ghost use Rattle.plan_types.specs.declared.dtype.CastOptions.TheVariants.{Strict, NonStrict};
ghost use Rattle.plan_types.specs.declared.error.ErrorKind.TheVariants.{ColumnNotFound, Duplicate, SchemaMismatch, InvalidOperation, ComputeError};
ghost use Rattle.plan_dsl.specs.declared.aggregate.GroupByMethod.TheVariants.{Groups};
ghost use Rattle.plan_dsl.specs.Plans.{GroupByKind, OrderOption, Named, named, expressions_of, group_by_op, options_in, plan_tree, source_group_by, scans_in};
ghost use Rattle.plan_dsl.specs.Ops.{Expression};
ghost use Rattle.plan_dsl.specs.Sources.{written, KeepRoot};
ghost use Rattle.plan_dsl.specs.PlanRules.{schema_of, schema_by, schema_at, own_kinds, broken_kinds, type_in_groups, IsWellFormed, Breaks};
ghost use Rattle.plan_dsl.specs.Grouping.{columns_in_groups, group_frame, group_rows, group_value, group_values, grouped_by, value_typed};
ghost use Rattle.plan_dsl.specs.PlanKernels.{Evaluated, plan_kernel};
ghost use Rattle.plan_dsl.specs.PlanMeaning.{by_meaning, source_meaning, FitsPlan};
ghost use Rattle.plan_dsl.specs.Resolving.{over_keys, resolution, resolved};
ghost use Rattle.plan_dsl.specs.Counts.{cast_count, node_count};
ghost use Rattle.plan_dsl.specs.Samples.{Gives, GivesOfTwo, GivesAll, int32, int64, uint32, null, yes, no, number, text, list, group, agg, column, k, v, d, one, two, five, literal, count, alias, sum, less, cast_as, slice, gather_one, keep_where, one_value, many_values, of_one, of_many, frame_with, keyed, schema_kv, scan, empty_scan, select, group_by, all, columns_named, columns_at, form, but_named, series};

/// A group-by has a row for each group: its keys, then of each aggregate its one value, or the list of its values.
pub fn frames_of_groups()
    ensures lists { source_meaning [] (keyed ∷ []) (group_by (k ∷ []) (sum v one ∷ []) (scan schema_kv)) ≡ Done (frame_with ((codes "k", TextType) ∷ (codes "v", ListType int64) ∷ []) (
        (text "x" ∷ list (number 2 ∷ null ∷ number 2 ∷ []) ∷ []) ∷ (text "y" ∷ list (number 3 ∷ []) ∷ []) ∷ (null ∷ list (number 5 ∷ number 6 ∷ []) ∷ []) ∷ [])) }
    ensures values { source_meaning [] (keyed ∷ []) (group_by (k ∷ []) (count ∷ gather_one v (literal (pos 0)) ∷ one ∷ []) (scan schema_kv))
        ≡ Done (frame_with ((codes "k", TextType) ∷ (codes "len", uint32) ∷ (codes "v", int64) ∷ (codes "literal", int32) ∷ []) (
        (text "x" ∷ number 3 ∷ number 1 ∷ number 1 ∷ []) ∷ (text "y" ∷ number 1 ∷ number 2 ∷ number 1 ∷ []) ∷ (null ∷ number 2 ∷ number 4 ∷ number 1 ∷ []) ∷ [])) }
    ensures row_numbers { source_meaning [] (keyed ∷ []) (group_by (k ∷ []) (agg Groups v ∷ []) (scan schema_kv)) ≡ Done (frame_with ((codes "k", TextType) ∷ (codes "v", ListType uint32) ∷ []) (
        (text "x" ∷ list (number 0 ∷ number 2 ∷ number 5 ∷ []) ∷ []) ∷ (text "y" ∷ list (number 1 ∷ []) ∷ []) ∷ (null ∷ list (number 3 ∷ number 4 ∷ []) ∷ []) ∷ [])) }
    ensures other_lengths { source_meaning [] (keyed ∷ []) (group_by (k ∷ []) (keep_where v (less v two) ∷ []) (scan schema_kv)) ≡ Done (frame_with ((codes "k", TextType) ∷ (codes "v", ListType int64) ∷ []) (
        (text "x" ∷ list (number 1 ∷ number 1 ∷ []) ∷ []) ∷ (text "y" ∷ list [] ∷ []) ∷ (null ∷ list [] ∷ []) ∷ [])) }
    ensures two_keys { source_meaning [] (keyed ∷ []) (group_by (v ∷ k ∷ []) (count ∷ []) (scan schema_kv)) ≡ Done (frame_with ((codes "v", int64) ∷ (codes "k", TextType) ∷ (codes "len", uint32) ∷ []) (
        (number 1 ∷ text "x" ∷ number 2 ∷ []) ∷ (number 2 ∷ text "y" ∷ number 1 ∷ []) ∷ (null ∷ text "x" ∷ number 1 ∷ []) ∷ (number 4 ∷ null ∷ number 1 ∷ []) ∷ (number 5 ∷ null ∷ number 1 ∷ []) ∷ [])) }
    ensures keys_that_are_made { source_meaning [] (keyed ∷ []) (group_by (alias "small" (less v two) ∷ []) (count ∷ []) (scan schema_kv)) ≡ Done (frame_with ((codes "small", Truth) ∷ (codes "len", uint32) ∷ []) (
        (yes ∷ number 2 ∷ []) ∷ (no ∷ number 3 ∷ []) ∷ (null ∷ number 1 ∷ []) ∷ [])) }
    ensures one_value { source_meaning [] (keyed ∷ []) (group_by (one ∷ []) (count ∷ []) (scan schema_kv)) ≡ Done (frame_with ((codes "literal", int32) ∷ (codes "len", uint32) ∷ []) ((number 1 ∷ number 6 ∷ []) ∷ [])) }
    ensures keys_alone { source_meaning [] (keyed ∷ []) (group_by (k ∷ []) [] (scan schema_kv)) ≡ Done (frame_with ((codes "k", TextType) ∷ []) ((text "x" ∷ []) ∷ (text "y" ∷ []) ∷ (null ∷ []) ∷ [])) }
{}

/// A key of another length is a fault, and so is what is one on some group's rows. Without rows no aggregate is evaluated.
pub fn groups_at_fault()
    ensures keys { GivesAll (λ key. source_meaning [] (keyed ∷ []) (group_by (key ∷ []) [] (scan schema_kv))) Fault (
        slice v (literal (pos 0)) two ∷ slice v (literal (pos 0)) (literal (pos 0)) ∷ gather_one v (literal (pos 6)) ∷ cast_as Strict int32 k ∷ []) }
    ensures aggregates { GivesAll (λ agg. source_meaning [] (keyed ∷ []) (group_by (k ∷ []) (count ∷ agg ∷ []) (scan schema_kv))) Fault (gather_one v one ∷ gather_one v five ∷ []) }
    ensures one_group { source_meaning [] (keyed ∷ []) (group_by (one ∷ []) (gather_one v five ∷ []) (scan schema_kv)) ≡ Done (frame_with ((codes "literal", int32) ∷ (codes "v", int64) ∷ []) ((number 1 ∷ number 1 ∷ []) ∷ [])) }
    ensures no_rows { Gives (λ keys. source_meaning [] [] (group_by keys (gather_one v five ∷ alias "w" v ∷ []) (empty_scan schema_kv))) (
        (k ∷ [], Done (frame_with ((codes "k", TextType) ∷ (codes "v", int64) ∷ (codes "w", ListType int64) ∷ []) [])) ∷
        (one ∷ [], Done (frame_with ((codes "literal", int32) ∷ (codes "v", int64) ∷ (codes "w", ListType int64) ∷ []) [])) ∷
        (gather_one v one ∷ [], Fault) ∷ []) }
    ensures over_others { Gives (λ input. plan_kernel [] (by_meaning []) (group_by_op (named k ∷ []) [] None) (input ∷ [])) ((Fault, Fault) ∷ (Stuck, Stuck) ∷ []) }
    ensures wrong_numbers_of_inputs { GivesAll (plan_kernel [] (by_meaning []) (group_by_op [] [] None)) Stuck ([] ∷ (Done empty_frame ∷ Done empty_frame ∷ []) ∷ []) }
{}

/// What values are in a group, what groups give, and the types of aggregates.
pub fn values_in_groups()
    ensures values { GivesOfTwo group_value (
        (true, number 1 ∷ null ∷ [], Done (list (number 1 ∷ null ∷ []))) ∷ (true, [], Done (list [])) ∷ (true, yes ∷ [], Done (list (yes ∷ []))) ∷
        (false, yes ∷ [], Done yes) ∷ (false, [], Stuck) ∷ (false, yes ∷ no ∷ [], Stuck) ∷ []) }
    ensures types { Gives type_in_groups ((many_values int64, ListType int64) ∷ (one_value int64, int64) ∷ (many_values (ListType Truth), ListType (ListType Truth)) ∷ []) }
    ensures rows { let numbers : Evaluated = record { name = codes "n"; typing = of_many int64; gives = λ rows. Done (map number rows) } in
        let at_most_one : Evaluated = record { name = codes "o"; typing = of_one int64; gives = λ rows. Done (map number rows) } in
        let untyped : Evaluated = record { name = codes "u"; typing = Err ColumnNotFound; gives = λ rows. Done [] } in
        Gives (λ aggs. group_rows aggs (group (yes ∷ []) (4 ∷ 2 ∷ []) ∷ group (no ∷ []) (3 ∷ []) ∷ [])) (
        (numbers ∷ [], Done ((yes ∷ list (number 4 ∷ number 2 ∷ []) ∷ []) ∷ (no ∷ list (number 3 ∷ []) ∷ []) ∷ [])) ∷
        ([], Done ((yes ∷ []) ∷ (no ∷ []) ∷ [])) ∷ (at_most_one ∷ [], Stuck) ∷ (untyped ∷ [], Stuck) ∷ [])
        × Gives columns_in_groups ((numbers ∷ at_most_one ∷ [], Some ((codes "n", ListType int64) ∷ (codes "o", int64) ∷ [])) ∷ (numbers ∷ untyped ∷ [], None) ∷ []) }
{}

/// What an aggregate's outcome is in a group, a group's row, and the frame of groups by series of keys.
pub fn groups_by_series()
    ensures typed { GivesOfTwo value_typed (
        (of_many int64, Done (number 1 ∷ []), Done (list (number 1 ∷ []))) ∷ (of_one int64, Done (number 1 ∷ []), Done (number 1)) ∷ (of_one int64, Done [], Stuck) ∷
        (of_many int64, Fault, Fault) ∷ (of_one int64, Stuck, Stuck) ∷ (Err ColumnNotFound, Done (number 1 ∷ []), Stuck) ∷ []) }
    ensures rows { let numbers : Evaluated = record { name = codes "n"; typing = of_many int64; gives = λ rows. Done (map number rows) } in
        let at_fault : Evaluated = record { name = codes "f"; typing = of_one int64; gives = λ rows. Fault } in
        Gives (λ aggs. group_values aggs (4 ∷ 2 ∷ [])) (
        ([], Done []) ∷ (numbers ∷ numbers ∷ [], Done (list (number 4 ∷ number 2 ∷ []) ∷ list (number 4 ∷ number 2 ∷ []) ∷ [])) ∷ (numbers ∷ at_fault ∷ [], Fault) ∷ []) }
    ensures frames { let numbers : Evaluated = record { name = codes "n"; typing = of_many int64; gives = λ rows. Done (map number rows) } in
        let columns = (codes "k", Truth) ∷ (codes "n", ListType int64) ∷ [] in
        Gives (λ keys. grouped_by (series "k" Truth keys ∷ []) (numbers ∷ []) (frame_with [] ([] ∷ [] ∷ [] ∷ []))) (
        (yes ∷ no ∷ yes ∷ [], Done (frame_with columns ((yes ∷ list (number 0 ∷ number 2 ∷ []) ∷ []) ∷ (no ∷ list (number 1 ∷ []) ∷ []) ∷ []))) ∷
        (null ∷ [], Done (frame_with columns ((null ∷ list (number 0 ∷ number 1 ∷ number 2 ∷ []) ∷ []) ∷ []))) ∷ (yes ∷ no ∷ [], Fault) ∷ ([], Fault) ∷ []) }
    ensures without_types { group_frame ((codes "k", Truth) ∷ []) None [] (group (yes ∷ []) (0 ∷ []) ∷ []) ≡ Stuck }
{}

/// A group-by has the columns of its keys, then those of its aggregates, with lists where there may be many values.
pub fn schemas_of_groups()
    ensures plans { GivesOfTwo (λ keys aggs. schema_of [] (group_by keys aggs (scan schema_kv))) (
        (k ∷ [], sum v one ∷ [], Some ((codes "k", TextType) ∷ (codes "v", ListType int64) ∷ [])) ∷
        (k ∷ [], v ∷ count ∷ [], Some ((codes "k", TextType) ∷ (codes "v", ListType int64) ∷ (codes "len", uint32) ∷ [])) ∷
        (v ∷ alias "w" (less v one) ∷ [], alias "k" k ∷ one ∷ [], Some ((codes "v", int64) ∷ (codes "w", Truth) ∷ (codes "k", ListType TextType) ∷ (codes "literal", int32) ∷ [])) ∷
        (one ∷ [], [], Some ((codes "literal", int32) ∷ [])) ∷ []) }
    ensures refused { GivesOfTwo (λ keys aggs. schema_of [] (group_by keys aggs (scan schema_kv))) (
        ([], v ∷ [], None) ∷ (k ∷ k ∷ [], [], None) ∷ (k ∷ [], alias "k" v ∷ [], None) ∷ (k ∷ [], v ∷ v ∷ [], None) ∷ (d ∷ [], [], None) ∷ (k ∷ [], d ∷ [], None) ∷ []) }
    ensures over_a_refused_input { schema_of [] (group_by (k ∷ []) [] (select (d ∷ []) (scan schema_kv))) ≡ None }
    ensures inputs { Gives (schema_by [] (GroupByKind (named k ∷ []) (named v ∷ []))) (
        ([], None) ∷ (None ∷ [], None) ∷ (Some schema_kv ∷ [], Some ((codes "k", TextType) ∷ (codes "v", ListType int64) ∷ [])) ∷ (Some [] ∷ [], None) ∷ (Some schema_kv ∷ Some schema_kv ∷ [], None) ∷ []) }
{}

/// A group-by breaks what its keys and aggregates break, and rules of its own: that there is a key, and that names are distinct.
pub fn kinds_that_groups_break()
    ensures over_an_input { GivesOfTwo (λ keys aggs. broken_kinds [] (group_by_op (map named keys) (map named aggs) None) (Some schema_kv ∷ [])) (
        (k ∷ [], v ∷ [], []) ∷ (k ∷ v ∷ [], [], []) ∷
        ([], v ∷ [], ComputeError ∷ []) ∷ ([], v ∷ v ∷ [], ComputeError ∷ Duplicate ∷ []) ∷
        (k ∷ k ∷ [], [], Duplicate ∷ []) ∷ (k ∷ [], alias "k" v ∷ [], Duplicate ∷ []) ∷
        (d ∷ [], sum k one ∷ [], ColumnNotFound ∷ InvalidOperation ∷ []) ∷ ([], d ∷ [], ColumnNotFound ∷ ComputeError ∷ []) ∷ []) }
    ensures over_an_input_without_schema { broken_kinds [] (group_by_op [] (named d ∷ []) None) (None ∷ []) ≡ [] }
    ensures wrong_numbers_of_inputs { Gives (own_kinds [] (GroupByKind [] [])) (([], SchemaMismatch ∷ []) ∷ (Some [] ∷ None ∷ [], SchemaMismatch ∷ []) ∷ []) }
    ensures places { let keyless = group_by [] [] (scan schema_kv) in Breaks [] ComputeError [] keyless × Breaks [] ComputeError (0 ∷ []) (select [] keyless) }
    ensures not_broken { let keyless = group_by [] [] (scan schema_kv) in ¬ (Breaks [] Duplicate [] keyless) × ¬ (Breaks [] ComputeError [] (select [] keyless)) }
    ensures ill_formed { ¬ (IsWellFormed [] (group_by (k ∷ k ∷ []) [] (scan schema_kv))) }
    ensures well_formed { IsWellFormed [] (group_by (v ∷ []) (count ∷ []) (group_by (v ∷ []) (k ∷ []) (scan schema_kv))) }
{}

/// What markers of aggregates stand for leaves out the keys that are plain columns once they are expanded.
pub fn groups_that_are_resolved()
    ensures kinds { GivesOfTwo (λ keys aggs. resolution [] (GroupByKind keys aggs) (Some schema_kv ∷ [])) (
        (written k ∷ [], all ∷ [], Ok (GroupByKind (named k ∷ []) (named v ∷ []))) ∷
        (columns_named ("k" ∷ []) ∷ [], all ∷ [], Ok (GroupByKind (named k ∷ []) (named v ∷ []))) ∷
        (all ∷ [], all ∷ written count ∷ [], Ok (GroupByKind (named k ∷ named v ∷ []) (named count ∷ []))) ∷
        (but_named "v" all ∷ [], all ∷ [], Ok (GroupByKind (named k ∷ []) (named v ∷ []))) ∷
        (written (alias "x" k) ∷ [], all ∷ [], Ok (GroupByKind (named (alias "x" k) ∷ []) (named k ∷ named v ∷ []))) ∷
        (form KeepRoot (written k) ∷ [], all ∷ [], Ok (GroupByKind (named (alias "k" k) ∷ []) (named k ∷ named v ∷ []))) ∷
        (written k ∷ [], written k ∷ [], Ok (GroupByKind (named k ∷ []) (named k ∷ []))) ∷
        ([], all ∷ [], Ok (GroupByKind [] (named k ∷ named v ∷ []))) ∷ []) }
    ensures refused { GivesOfTwo (λ keys aggs. resolution [] (GroupByKind keys aggs) (Some schema_kv ∷ [])) (
        (columns_at (pos 2 ∷ []) ∷ [], form KeepRoot (written one) ∷ [], Err (ColumnNotFound ∷ [])) ∷
        (written k ∷ [], form KeepRoot (written one) ∷ columns_at (pos 2 ∷ []) ∷ [], Err (InvalidOperation ∷ ColumnNotFound ∷ [])) ∷ []) }
    ensures aggregates { Gives (over_keys schema_kv (all ∷ [])) (
        (v ∷ [], Ok ((v ∷ []) ∷ (k ∷ []) ∷ [])) ∷ (sum v one ∷ [], Ok ((sum v one ∷ []) ∷ (k ∷ v ∷ []) ∷ [])) ∷ []) }
    ensures over_others { Gives (resolution [] (GroupByKind (written k ∷ []) [])) ((None ∷ [], Err []) ∷ ([], Ok (GroupByKind (named k ∷ []) [])) ∷ []) }
    ensures queries { resolved [] (source_group_by (written k ∷ []) (all ∷ []) (scan schema_kv)) ≡ group_by (k ∷ []) (v ∷ []) (scan schema_kv) }
{}

/// A group-by's tree and option, its expressions, its schema at a place, its casts, nodes and tables.
pub fn parts_of_groups()
    ensures tree { (p : _) (keys aggs : Exprs) (schema : Schema) (maintain_order : Bool) → let plan = GroupBy' p (DataFrameScan (Some 0) schema) keys aggs maintain_order in
        (plan_tree plan ≡ source_group_by (trees_of keys) (trees_of aggs) (scan (columns schema))) × (options_in plan ≡ OrderOption maintain_order ∷ []) }
    ensures expressions { expressions_of {E = Named Expression} (GroupByKind (named k ∷ []) (named v ∷ named count ∷ []))
        ≡ record { input = 0; outputs = named k ∷ [] } ∷ record { input = 0; outputs = named v ∷ named count ∷ [] } ∷ [] }
    ensures schemas { Gives (schema_at [] (group_by (v ∷ []) [] (scan schema_kv))) (([], Some ((codes "v", int64) ∷ [])) ∷ (0 ∷ [], Some schema_kv) ∷ []) }
    ensures casts { cast_count (group_by (cast_as NonStrict int32 v ∷ []) (cast_as NonStrict int32 v ∷ cast_as Strict int32 v ∷ []) (scan schema_kv)) ≡ 3 }
    ensures nodes { node_count (group_by (k ∷ []) [] (select [] (scan schema_kv))) ≡ 3 }
    ensures tables { scans_in (group_by (k ∷ []) [] (scan schema_kv)) ≡ record { table = 0; schema = schema_kv } ∷ [] }
    ensures fitting { FitsPlan (keyed ∷ []) (group_by (k ∷ []) [] (scan schema_kv)) × ¬ (FitsPlan [] (group_by (k ∷ []) [] (scan schema_kv))) }
{}
