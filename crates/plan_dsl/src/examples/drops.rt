//! Drops, and the simple projections to which they are resolved: what is left, its frames and schemas, and the rules that
//! they break.

ghost use Rattle.std.specs.Prelude.{◌≡◌, pos, neg_ℤ, List, [], ◌∷◌, map, codes, true, false, Some, None, Result, Ok, Err};
ghost use Rattle.plan_types.specs.Types.{TextType};
ghost use Rattle.plan_types.specs.Schemas.{Columns};
ghost use Rattle.plan_types.specs.Outcomes.{Done, Fault, Stuck};
ghost use Rattle.plan_types.specs.Frames.{empty_frame};
ghost use Rattle.plan_types.specs.declared.dtype.CastOptions.TheVariants.{Strict};
ghost use Rattle.plan_types.specs.declared.error.ErrorKind.{ErrorKind};
ghost use Rattle.plan_types.specs.declared.error.ErrorKind.TheVariants.{ColumnNotFound, Duplicate, SchemaMismatch, InvalidOperation};
ghost use Rattle.plan_dsl.specs.Trees.{node, no_more, more};
ghost use Rattle.plan_dsl.specs.Ops.{Expression};
ghost use Rattle.plan_dsl.specs.Plans.{SimpleProjectionKind, DropKind, RefusedKind, PlanOp, Named, expressions_of, simple_projection_op, drop_op, source_drop, scans_in};
ghost use Rattle.plan_dsl.specs.Sources.{written, Sub, of_two};
ghost use Rattle.plan_dsl.specs.Drops.{have_names, columns_but, left_but, drop_leaves};
ghost use Rattle.plan_dsl.specs.PlanRules.{stands_in, broken_kinds, plan_rule, schema_of, IsWellFormed, Breaks};
ghost use Rattle.plan_dsl.specs.PlanKernels.{row_in, plan_kernel};
ghost use Rattle.plan_dsl.specs.PlanMeaning.{by_meaning, source_meaning, FitsPlan};
ghost use Rattle.plan_dsl.specs.Resolving.{resolution, resolved};
ghost use Rattle.plan_dsl.specs.Counts.{cast_count, node_count};
ghost use Rattle.plan_dsl.specs.Samples.{Gives, GivesOfTwo, GivesAll, int8, int16, int32, null, number, text, column, a, b, c, one, cast_as, all_names, all, columns_named, columns_of_type, nth, root, frame_with, table, schema_ab, schema_abc, numbers_and_texts, scan, select, project, written_select};

/// A drop leaves the columns that its selectors don't name, in order, whether it is strict or not.
pub fn columns_that_are_left()
    ensures left { let both : Columns → List (Result Columns (List ErrorKind)) = λ own. Ok own ∷ Ok own ∷ [] in
        Gives (λ selectors. map (drop_leaves schema_abc selectors) (true ∷ false ∷ [])) (
        ([], both schema_abc) ∷
        (root (written b) ∷ [], both ((codes "a", int8) ∷ (codes "c", TextType) ∷ [])) ∷
        (root (columns_named ("b" ∷ "a" ∷ "b" ∷ [])) ∷ [], both ((codes "c", TextType) ∷ [])) ∷
        (root (written c) ∷ root (written a) ∷ [], both ((codes "b", int8) ∷ [])) ∷
        (root (columns_of_type int8) ∷ [], both ((codes "c", TextType) ∷ [])) ∷
        (root (columns_of_type int16) ∷ [], both schema_abc) ∷
        (root (nth (neg_ℤ (pos 1))) ∷ [], both ((codes "a", int8) ∷ (codes "b", int8) ∷ [])) ∷
        (of_two Sub (root all) (root (written b)) ∷ [], both ((codes "b", int8) ∷ [])) ∷
        (root all ∷ [], both []) ∷ []) }
    ensures absent { GivesOfTwo (drop_leaves schema_abc) (
        (root (written (column "z")) ∷ [], true, Err (ColumnNotFound ∷ [])) ∷
        (root (written (column "z")) ∷ [], false, Ok schema_abc) ∷
        (root (columns_named ("y" ∷ "b" ∷ "z" ∷ [])) ∷ [], true, Err (ColumnNotFound ∷ [])) ∷
        (root (columns_named ("y" ∷ "b" ∷ "z" ∷ [])) ∷ [], false, Ok ((codes "a", int8) ∷ (codes "c", TextType) ∷ [])) ∷ []) }
    ensures refused { Gives (λ selectors. drop_leaves schema_abc selectors true) (
        (root (written one) ∷ [], Err (InvalidOperation ∷ [])) ∷
        (written b ∷ [], Err (InvalidOperation ∷ [])) ∷
        (root (nth (pos 3)) ∷ [], Err (ColumnNotFound ∷ [])) ∷
        (root (nth (pos 3)) ∷ root all ∷ root (written one) ∷ [], Err (ColumnNotFound ∷ InvalidOperation ∷ [])) ∷
        (root (written (column "z")) ∷ root (written one) ∷ [], Err (InvalidOperation ∷ [])) ∷ []) }
    ensures refused_though_not_strict { Gives (λ selectors. drop_leaves schema_abc selectors false) (
        (root (written one) ∷ [], Err (InvalidOperation ∷ [])) ∷ (root (nth (pos 3)) ∷ [], Err (ColumnNotFound ∷ [])) ∷ []) }
{}

/// Names stand in a schema, and columns in it with their types.
pub fn names_and_columns_that_stand()
    ensures names { Gives (λ names. have_names schema_ab (all_names names)) (
        ([], true) ∷ ("b" ∷ "a" ∷ "b" ∷ [], true) ∷ ("a" ∷ "z" ∷ [], false) ∷ []) }
    ensures but { Gives (λ names. columns_but (all_names names) schema_ab) (
        ([], schema_ab) ∷ ("a" ∷ [], (codes "b", int32) ∷ []) ∷ ("z" ∷ "b" ∷ [], (codes "a", int8) ∷ []) ∷ ("b" ∷ "a" ∷ [], []) ∷ []) }
    ensures left { GivesOfTwo (λ strict names. left_but strict schema_ab (all_names names)) (
        (true, "b" ∷ [], Ok ((codes "a", int8) ∷ [])) ∷ (true, "b" ∷ "z" ∷ [], Err (ColumnNotFound ∷ [])) ∷ (false, "b" ∷ "z" ∷ [], Ok ((codes "a", int8) ∷ [])) ∷ []) }
    ensures columns { Gives (stands_in schema_ab) (
        ((codes "a", int8), true) ∷ ((codes "b", int32), true) ∷ ((codes "a", int32), false) ∷ ((codes "z", int8), false) ∷ []) }
{}

/// A query's drop is resolved over its input's schema, and stands in no resolved plan. No query writes a simple projection.
pub fn drops_that_are_resolved()
    ensures kinds { GivesOfTwo (resolution []) (
        (DropKind (root (written b) ∷ []) true, Some schema_ab ∷ [], Ok (SimpleProjectionKind ((codes "a", int8) ∷ []))) ∷
        (DropKind (root all ∷ []) true, Some schema_ab ∷ [], Ok (SimpleProjectionKind [])) ∷
        (DropKind (root (written (column "z")) ∷ []) true, Some schema_ab ∷ [], Err (ColumnNotFound ∷ [])) ∷
        (DropKind (root (written one) ∷ []) false, Some schema_ab ∷ [], Err (InvalidOperation ∷ [])) ∷
        (DropKind (root (written one) ∷ []) true, None ∷ [], Err []) ∷
        (SimpleProjectionKind schema_ab, Some schema_abc ∷ [], Ok (SimpleProjectionKind schema_ab)) ∷ []) }
    ensures plans { let left = (codes "a", int8) ∷ (codes "c", TextType) ∷ [] in
        resolved [] (source_drop (root (written b) ∷ []) true (scan schema_abc)) ≡ project left (scan schema_abc) }
    ensures refused { resolved [] (source_drop (root (written (column "z")) ∷ []) true (scan schema_abc))
        ≡ node (record { kind = RefusedKind (ColumnNotFound ∷ []); recorded = None }) (more (scan schema_abc) no_more) }
    ensures schemas { Gives (λ query. schema_of [] (resolved [] query)) (
        (source_drop (root (written b) ∷ []) true (scan schema_abc), Some ((codes "a", int8) ∷ (codes "c", TextType) ∷ [])) ∷
        (source_drop (root (nth (pos 0)) ∷ []) true (source_drop (root (written b) ∷ []) false (scan schema_abc)), Some ((codes "c", TextType) ∷ [])) ∷
        (source_drop (root all ∷ []) true (scan schema_abc), Some []) ∷
        (source_drop (root all ∷ []) true (source_drop (root all ∷ []) true (scan schema_abc)), Some []) ∷
        (source_drop (root (written (column "z")) ∷ []) false (scan schema_abc), Some schema_abc) ∷
        (source_drop (root (written (column "z")) ∷ []) true (scan schema_abc), None) ∷
        (source_drop [] false (source_drop (root (written one) ∷ []) false (scan schema_abc)), None) ∷ []) }
    ensures broken { let below = source_drop (root (written one) ∷ root (nth (pos 3)) ∷ []) true (scan schema_abc) in
        let query = resolved [] (source_drop (root (written one) ∷ []) true below) in
        Breaks [] InvalidOperation (0 ∷ []) query × Breaks [] ColumnNotFound (0 ∷ []) query × ¬ (Breaks [] InvalidOperation [] query) × ¬ (IsWellFormed [] query) }
    ensures well_formed { IsWellFormed [] (resolved [] (source_drop (root (written b) ∷ []) true (written_select (b ∷ a ∷ []) (scan schema_ab)))) }
{}

/// What queries' drops mean: rows without the columns, or none where no column is left, even over an input that faults.
pub fn frames_of_drops()
    ensures frames { Gives (λ selectors. source_meaning [] (numbers_and_texts ∷ []) (resolved [] (source_drop selectors true (scan schema_abc)))) (
        (root (written b) ∷ [], Done (frame_with ((codes "a", int8) ∷ (codes "c", TextType) ∷ []) ((number 1 ∷ text "x" ∷ []) ∷ (null ∷ null ∷ []) ∷ []))) ∷
        (root (columns_named ("c" ∷ "a" ∷ [])) ∷ [], Done (frame_with ((codes "b", int8) ∷ []) ((number 2 ∷ []) ∷ (number 4 ∷ []) ∷ []))) ∷
        ([], Done numbers_and_texts) ∷
        (root all ∷ [], Done empty_frame) ∷
        (root (written (column "z")) ∷ [], Stuck) ∷ []) }
    ensures passed_over { source_meaning [] (numbers_and_texts ∷ []) (resolved [] (source_drop (root (columns_named ("z" ∷ "b" ∷ "a" ∷ [])) ∷ []) false (scan schema_abc)))
        ≡ Done (frame_with ((codes "c", TextType) ∷ []) ((text "x" ∷ []) ∷ (null ∷ []) ∷ [])) }
    ensures over_faults { let faults = written_select (a ∷ cast_as Strict int8 b ∷ []) (scan schema_ab) in
        Gives (λ selectors. source_meaning [] (table ∷ []) (resolved [] (source_drop selectors true faults))) (
        (root (written b) ∷ [], Fault) ∷ ([], Fault) ∷ (root all ∷ [], Done empty_frame) ∷ (root (written b) ∷ root (written a) ∷ [], Done empty_frame) ∷ []) }
{}

/// A simple projection gives the rows of its input in its columns. One of none is as a select of nothing.
pub fn frames_of_simple_projections()
    ensures rows { Gives (λ columns. row_in schema_abc columns (number 1 ∷ number 2 ∷ text "x" ∷ [])) (
        ((codes "c", TextType) ∷ (codes "a", int8) ∷ [], text "x" ∷ number 1 ∷ []) ∷ ((codes "b", int8) ∷ [], number 2 ∷ []) ∷ ([], []) ∷ []) }
    ensures frames { Gives (λ columns. source_meaning [] (numbers_and_texts ∷ []) (project columns (scan schema_abc))) (
        (schema_abc, Done numbers_and_texts) ∷
        ((codes "c", TextType) ∷ (codes "a", int8) ∷ [], Done (frame_with ((codes "c", TextType) ∷ (codes "a", int8) ∷ []) ((text "x" ∷ number 1 ∷ []) ∷ (null ∷ null ∷ []) ∷ []))) ∷
        ((codes "b", int8) ∷ [], Done (frame_with ((codes "b", int8) ∷ []) ((number 2 ∷ []) ∷ (number 4 ∷ []) ∷ []))) ∷
        ([], Done empty_frame) ∷ []) }
    ensures without_rows { source_meaning [] (frame_with schema_abc [] ∷ []) (project schema_ab (scan schema_abc)) ≡ Done (frame_with schema_ab []) }
    ensures of_nothing { GivesAll (plan_kernel [] (by_meaning []) (simple_projection_op [] None)) (Done empty_frame) ((Done numbers_and_texts ∷ []) ∷ (Fault ∷ []) ∷ (Stuck ∷ []) ∷ []) }
    ensures over_others { Gives (plan_kernel [] (by_meaning []) (simple_projection_op schema_ab None)) ((Fault ∷ [], Fault) ∷ (Stuck ∷ [], Stuck) ∷ []) }
    ensures wrong_numbers_of_inputs { GivesAll (plan_kernel [] (by_meaning []) (simple_projection_op [] None)) Stuck ([] ∷ (Done empty_frame ∷ Done empty_frame ∷ []) ∷ []) }
{}

/// The columns of a simple projection stand in its input with their types, and have distinct names.
pub fn kinds_that_simple_projections_break()
    ensures over_an_input { Gives (λ columns. broken_kinds [] (simple_projection_op columns None) (Some schema_abc ∷ [])) (
        ([], []) ∷
        ((codes "c", TextType) ∷ (codes "a", int8) ∷ [], []) ∷
        ((codes "a", int16) ∷ [], InvalidOperation ∷ []) ∷
        ((codes "a", int8) ∷ (codes "z", int8) ∷ (codes "b", TextType) ∷ [], InvalidOperation ∷ []) ∷
        ((codes "a", int8) ∷ (codes "c", TextType) ∷ (codes "a", int8) ∷ [], Duplicate ∷ []) ∷
        ((codes "z", int8) ∷ (codes "z", int8) ∷ [], InvalidOperation ∷ Duplicate ∷ []) ∷ []) }
    ensures over_others { Gives (broken_kinds [] (simple_projection_op schema_ab None)) (
        (None ∷ [], []) ∷ (Some [] ∷ [], InvalidOperation ∷ []) ∷ ([], SchemaMismatch ∷ []) ∷ (Some schema_ab ∷ Some schema_ab ∷ [], SchemaMismatch ∷ []) ∷ []) }
    ensures schemas { Gives (plan_rule [] (simple_projection_op ((codes "b", int32) ∷ []) None)) (
        (Some schema_ab ∷ [], Some ((codes "b", int32) ∷ [])) ∷ (Some schema_abc ∷ [], None) ∷ (None ∷ [], None) ∷ ([], None) ∷ (Some schema_ab ∷ Some schema_ab ∷ [], None) ∷ []) }
    ensures places { let absent = project ((codes "z", int8) ∷ []) (scan schema_ab) in
        Breaks [] InvalidOperation [] absent × Breaks [] InvalidOperation (0 ∷ []) (project [] absent) × ¬ (Breaks [] InvalidOperation [] (project [] absent)) × ¬ (IsWellFormed [] (project [] absent)) }
    ensures well_formed { IsWellFormed [] (project ((codes "a", int8) ∷ []) (select (b ∷ a ∷ []) (scan schema_ab))) }
{}

/// A drop in a plan that isn't a query's breaks a rule over an input that has a schema. It has none itself, and gives nothing.
pub fn drops_in_plans()
    ensures kinds { let op : PlanOp (Named Expression) = drop_op [] false in
        Gives (broken_kinds [] op) (([], SchemaMismatch ∷ []) ∷ (None ∷ [], []) ∷ (Some schema_ab ∷ [], SchemaMismatch ∷ []) ∷ (Some schema_ab ∷ Some schema_ab ∷ [], SchemaMismatch ∷ []) ∷ []) }
    ensures schema { let op : PlanOp (Named Expression) = drop_op [] false in GivesAll (plan_rule [] op) None ([] ∷ (Some schema_ab ∷ []) ∷ []) }
    ensures frame { let op : PlanOp (Named Expression) = drop_op [] false in GivesAll (plan_kernel [] (by_meaning []) op) Stuck ([] ∷ (Done table ∷ []) ∷ []) }
{}

/// A simple projection has no expressions, and neither it nor a drop has tables of its own.
pub fn parts_of_drops()
    ensures trees { source_drop (root all ∷ []) true (scan schema_ab) ≡ node (record { kind = DropKind (root all ∷ []) true; recorded = None }) (more (scan schema_ab) no_more) }
    ensures expressions { expressions_of {E = Named Expression} (SimpleProjectionKind schema_ab) ≡ [] }
    ensures casts { cast_count (project [] (select (cast_as Strict int8 b ∷ []) (scan schema_ab))) ≡ 1 }
    ensures nodes { node_count (project [] (project schema_ab (scan schema_ab))) ≡ 3 }
    ensures tables { scans_in (project [] (scan schema_ab)) ≡ record { table = 0; schema = schema_ab } ∷ [] }
    ensures fitting { FitsPlan (table ∷ []) (project [] (scan schema_ab)) × ¬ (FitsPlan [] (project [] (scan schema_ab))) }
{}
