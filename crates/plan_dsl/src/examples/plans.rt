//! Plans: their frames, their schemas and the rules that they break.

ghost use Rattle.std.specs.Prelude.{◌≡◌, [], ◌∷◌, map, pos, codes, Some, None};
ghost use Rattle.std.specs.List.{AllByRecursion};
ghost use Rattle.plan_types.specs.Types.{Truth};
ghost use Rattle.plan_types.specs.Outcomes.{Done, Fault, Stuck};
ghost use Rattle.plan_types.specs.Frames.{IsFrameOf, empty_frame};
ghost use Rattle.plan_types.specs.declared.dtype.CastOptions.TheVariants.{Strict, NonStrict};
ghost use Rattle.plan_types.specs.declared.error.ErrorKind.TheVariants.{ColumnNotFound, Duplicate, SchemaMismatch};
ghost use Rattle.plan_dsl.specs.Plans.{empty_table, named, select_op};
ghost use Rattle.plan_dsl.specs.PlanRules.{schema_of, schema_at, broken_kinds, IsWellFormed, Breaks};
ghost use Rattle.plan_dsl.specs.PlanKernels.{framed, plan_kernel};
ghost use Rattle.plan_dsl.specs.PlanMeaning.{by_meaning, source_meaning, FitsPlan};
ghost use Rattle.plan_dsl.specs.Counts.{cast_count, node_count};
ghost use Rattle.plan_dsl.specs.Samples.{Gives, GivesOfTwo, GivesAll, int8, int16, int32, int64, null, yes, no, number, a, b, c, u, literal, typed_literal, sum, less, equal, cast_as, frame_with, table, mixed, schema_ab, schema_au, scan, scan_of, empty_scan, select, series};

/// A scan gives its table, and the empty table of its schema has no rows.
pub fn frames_of_scans()
    ensures frames { let unsigned = frame_with schema_au [] in
        GivesOfTwo (source_meaning []) (
        (table ∷ [], scan schema_ab, Done table) ∷
        (table ∷ unsigned ∷ [], scan_of 1 schema_au, Done unsigned) ∷
        (table ∷ [], scan_of 1 schema_ab, Stuck) ∷
        ([], empty_table, Done empty_frame) ∷
        ([], empty_scan schema_ab, Done (frame_with schema_ab [])) ∷ []) }
{}

/// A select has a column for each expression. One of nothing is the frame without columns, whatever its input gives.
pub fn frames_of_selects()
    ensures columns { let inner = select (sum b a ∷ a ∷ []) (scan schema_ab) in
        let rows = (number 11 ∷ number 1 ∷ []) ∷ (null ∷ null ∷ []) ∷ (number 300 ∷ number 100 ∷ []) ∷ [] in
        Gives (source_meaning [] (table ∷ [])) (
        (inner, Done (frame_with ((codes "b", int32) ∷ (codes "a", int8) ∷ []) rows)) ∷
        (select (sum a b ∷ []) inner, Done (frame_with ((codes "a", int32) ∷ []) ((number 12 ∷ []) ∷ (null ∷ []) ∷ (number 400 ∷ []) ∷ []))) ∷ []) }
    ensures comparisons { let compared = select (less a b ∷ cast_as Strict int8 (less b a) ∷ []) (scan schema_ab) in
        source_meaning [] (mixed ∷ []) compared ≡ Done (frame_with ((codes "a", Truth) ∷ (codes "b", int8) ∷ [])
        ((yes ∷ number 0 ∷ []) ∷ (null ∷ null ∷ []) ∷ (no ∷ number 1 ∷ []) ∷ (yes ∷ number 0 ∷ []) ∷ [])) }
    ensures no_rows { source_meaning [] [] (select (sum b a ∷ []) (empty_scan schema_ab)) ≡ Done (frame_with ((codes "b", int32) ∷ []) []) }
    ensures faults { let faulty = select (a ∷ cast_as Strict int8 b ∷ []) (scan schema_ab) in
        Gives (source_meaning [] (table ∷ [])) ((faulty, Fault) ∷ (select (a ∷ []) faulty, Fault) ∷ []) }
    ensures nothing { let faulty = select (a ∷ cast_as Strict int8 b ∷ []) (scan schema_ab) in
        GivesAll (source_meaning [] (table ∷ [])) (Done empty_frame) (select [] (scan schema_ab) ∷ select [] faulty ∷ []) }
    ensures nothing_over_what_is_stuck { plan_kernel [] (by_meaning []) (select_op [] None) (Stuck ∷ []) ≡ Done empty_frame }
{}

/// Columns side by side are a frame of their common length.
pub fn frames_of_columns()
    ensures one_column { framed (series "a" int8 (number 1 ∷ null ∷ []) ∷ [])
        ≡ Done (frame_with ((codes "a", int8) ∷ []) ((number 1 ∷ []) ∷ (null ∷ []) ∷ [])) }
    ensures two_columns { let repeated = frame_with schema_ab ((number 7 ∷ number 1 ∷ []) ∷ (number 7 ∷ number 2 ∷ []) ∷ (number 7 ∷ number 3 ∷ []) ∷ []) in
        GivesOfTwo (λ left right. framed (series "a" int8 left ∷ series "b" int32 right ∷ [])) (
        (number 7 ∷ [], number 1 ∷ number 2 ∷ number 3 ∷ [], Done repeated) ∷
        (number 1 ∷ number 2 ∷ [], null ∷ [], Done (frame_with schema_ab ((number 1 ∷ null ∷ []) ∷ (number 2 ∷ null ∷ []) ∷ []))) ∷
        (number 1 ∷ [], number 2 ∷ [], Done (frame_with schema_ab ((number 1 ∷ number 2 ∷ []) ∷ []))) ∷
        (number 1 ∷ [], [], Done (frame_with schema_ab [])) ∷
        (number 1 ∷ number 2 ∷ [], number 1 ∷ number 2 ∷ number 3 ∷ [], Fault) ∷ []) }
    ensures unequal_round_one_value { let three = series "c" int32 (number 1 ∷ number 2 ∷ number 3 ∷ []) in
        framed (series "a" int8 (number 1 ∷ number 2 ∷ []) ∷ series "b" int32 (number 1 ∷ []) ∷ three ∷ []) ≡ Fault }
{}

/// A scan has its table's schema, and a select a field for each expression. A plan that breaks a rule has none.
pub fn schemas_of_plans()
    ensures columns { let inner = select (sum b a ∷ a ∷ []) (scan schema_ab) in
        Gives (schema_of []) (
        (scan schema_ab, Some schema_ab) ∷
        (inner, Some ((codes "b", int32) ∷ (codes "a", int8) ∷ [])) ∷
        (select (b ∷ []) inner, Some ((codes "b", int32) ∷ [])) ∷
        (select (less b a ∷ a ∷ []) (scan schema_ab), Some ((codes "b", Truth) ∷ (codes "a", int8) ∷ [])) ∷
        (select [] (scan schema_ab), Some []) ∷ []) }
    ensures repeated_names { GivesAll (schema_of []) None (
        scan ((codes "a", int8) ∷ (codes "a", int32) ∷ []) ∷
        select (sum a b ∷ a ∷ []) (scan schema_ab) ∷ []) }
    ensures unknown_columns { GivesAll (schema_of []) None (
        select (c ∷ []) (scan schema_ab) ∷
        select (a ∷ []) (select (b ∷ []) (scan schema_ab)) ∷ []) }
{}

/// A select breaks what its expressions break, and one of two equal names breaks a rule too.
pub fn kinds_that_selects_break()
    ensures over_an_input { Gives (λ outputs. broken_kinds [] (select_op (map named outputs) None) (Some schema_au ∷ [])) (
        (a ∷ u ∷ [], []) ∷
        (a ∷ c ∷ [], ColumnNotFound ∷ []) ∷
        (a ∷ u ∷ a ∷ [], Duplicate ∷ []) ∷
        (a ∷ c ∷ a ∷ [], ColumnNotFound ∷ Duplicate ∷ []) ∷
        (sum u a ∷ [], SchemaMismatch ∷ []) ∷ (equal u a ∷ [], SchemaMismatch ∷ []) ∷
        (sum u a ∷ a ∷ c ∷ [], SchemaMismatch ∷ ColumnNotFound ∷ []) ∷
        ([], []) ∷ []) }
    ensures over_an_input_without_schema { broken_kinds [] (select_op (named c ∷ named c ∷ []) None) (None ∷ []) ≡ [] }
{}

/// The schema of the node at a place, by the child numbers from the top.
pub fn schemas_at_places()
    ensures at_each { let top = select (b ∷ []) (select (sum b a ∷ a ∷ []) (scan schema_ab)) in
        Gives (schema_at [] top) (
        ([], Some ((codes "b", int32) ∷ [])) ∷
        (0 ∷ [], Some ((codes "b", int32) ∷ (codes "a", int8) ∷ [])) ∷
        (0 ∷ 0 ∷ [], Some schema_ab) ∷
        (1 ∷ [], None) ∷ (0 ∷ 0 ∷ 0 ∷ [], None) ∷ []) }
    ensures round_a_refusal { let refused = select (c ∷ []) (scan schema_ab) in
        GivesOfTwo (schema_at []) (
        (select (a ∷ []) refused, [], None) ∷
        (select [] refused, [], None) ∷
        (select (a ∷ []) refused, 0 ∷ 0 ∷ [], Some schema_ab) ∷ []) }
{}

/// A rule is broken at the place of the node that breaks it, and at none above it.
pub fn rules_broken_at_places()
    ensures broken { let top = select (c ∷ []) (select (c ∷ a ∷ a ∷ []) (scan schema_ab)) in
        AllByRecursion (λ kind. Breaks [] kind (0 ∷ []) top) (ColumnNotFound ∷ Duplicate ∷ []) }
    ensures not_broken { let top = select (c ∷ []) (select (c ∷ a ∷ a ∷ []) (scan schema_ab)) in
        ¬ (Breaks [] SchemaMismatch (0 ∷ []) top) × ¬ (Breaks [] ColumnNotFound [] top) × ¬ (Breaks [] ColumnNotFound (0 ∷ 0 ∷ []) top) }
    ensures ill_formed { ¬ (IsWellFormed [] (select (c ∷ []) (select (c ∷ a ∷ a ∷ []) (scan schema_ab)))) }
    ensures well_formed { IsWellFormed [] (select (b ∷ []) (select (sum b a ∷ a ∷ []) (scan schema_ab))) }
{}

/// How many casts the expressions of a plan have, and how many nodes it has. A literal is no cast.
pub fn sizes_of_plans()
    ensures casts { let twice = cast_as Strict int64 (cast_as Strict int16 b) in
        let inner = select (sum (cast_as NonStrict int32 a) b ∷ twice ∷ []) (scan schema_ab) in
        Gives cast_count (
        (empty_table, 0) ∷
        (select (cast_as Strict int8 a ∷ b ∷ []) inner, 4) ∷
        (select (literal (pos 1) ∷ sum a (typed_literal int8 (pos 1)) ∷ []) (scan schema_ab), 0) ∷
        (select (cast_as Strict int8 (literal (pos 1)) ∷ []) (scan schema_ab), 1) ∷ []) }
    ensures nodes { Gives node_count ((empty_table, 1) ∷ (select (b ∷ []) (select (sum b a ∷ a ∷ []) (scan schema_ab)), 3) ∷ []) }
{}

/// Tables fit a plan where each scan's number names a frame of exactly the scan's schema.
pub fn tables_that_fit()
    ensures fitting { FitsPlan (table ∷ []) (select (a ∷ []) (scan schema_ab)) × FitsPlan [] empty_table }
    ensures others { ¬ (FitsPlan (table ∷ []) (scan schema_au)) × ¬ (FitsPlan [] (scan schema_ab)) }
    ensures misfit { let misfit = frame_with schema_ab ((number 128 ∷ number 1 ∷ []) ∷ []) in
        ¬ (FitsPlan (misfit ∷ []) (scan schema_ab)) × ¬ (IsFrameOf schema_ab misfit) }
{}
