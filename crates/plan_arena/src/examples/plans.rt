//! Worked examples on lowered plans: which are accepted and strict, what they give, and which run soundly.

ghost use Rattle.std.specs.Prelude.{◌≡◌, List, [], ◌∷◌, pos, codes, true, false, Option, Some, None};
ghost use Rattle.std.specs.List.{AllByRecursion};
ghost use Rattle.plan_types.specs.Schemas.{Columns};
ghost use Rattle.plan_types.specs.Types.{Truth, ListType};
ghost use Rattle.plan_types.specs.Outcomes.{Done, Fault, Stuck};
ghost use Rattle.plan_types.specs.Frames.{empty_frame};
ghost use Rattle.plan_types.specs.declared.dtype.CastOptions.TheVariants.{Strict};
ghost use Rattle.plan_dsl.specs.Trees.{node, no_more, more};
ghost use Rattle.plan_dsl.specs.Ops.{Expression};
ghost use Rattle.plan_dsl.specs.Names.{Label, alias_label, column_label, literal_label};
ghost use Rattle.plan_dsl.specs.Plans.{drop_op, empty_table, select_op, filter_op, simple_projection_op};
ghost use Rattle.plan_dsl.specs.PlanMeaning.{source_meaning};
ghost use Rattle.plan_dsl.specs.Samples.{Gives, GivesOfTwo, int8, int16, int32, int64, number, null, yes, a, alias, b, cast_as, column, empty_scan, frame_with, group_by, keep, less, list, literal, scan, scan_of, schema_ab, schema_flagged, select, stack, sum, table, typed_literal, project};
ghost use Rattle.plan_arena.specs.Runs.{own_schema, HasRecorded, IsAccepted, IsStrictPlan, IsNamedPlan, NamesOperands, plan_run, RunsSoundly};
ghost use Rattle.plan_arena.specs.Samples.{filled_under, lowered_groups, lowered_hstack, lowered_number, lowered_select, lowered_sum, narrowed, schema_of_one, strict_sum, sums, three_flagged, three_numbers, lowered_projection};

/// A lowered plan runs by its written casts alone, and gives what the query means.
pub fn plans_run_as_written()
    ensures runs { Gives (plan_run [] (table ∷ [])) ((lowered_sum (schema_of_one "a" int32), Done sums) ∷ (select (sum a b ∷ []) (scan schema_ab), Stuck)
        ∷ (narrowed, Fault) ∷ (lowered_select [] [] empty_table, Done empty_frame) ∷ []) }
    ensures meaning { source_meaning [] (table ∷ []) (select (sum a b ∷ []) (scan schema_ab)) ≡ Done sums }
    ensures the_same_as_meant { plan_run [] (table ∷ []) (lowered_sum (schema_of_one "a" int32)) ≡ source_meaning [] (table ∷ []) (select (sum a b ∷ []) (scan schema_ab)) }
    ensures no_such_table { plan_run [] [] (lowered_sum (schema_of_one "a" int32)) ≡ Stuck }
    ensures number { Gives (plan_run [] [])
        ((lowered_number int32 (typed_literal int32 (pos 5)), Done (frame_with (schema_of_one "literal" int32) ((number 5 ∷ []) ∷ [])))
        ∷ (lowered_number int32 (literal (pos 5)), Stuck) ∷ []) }
    ensures number_as_meant { plan_run [] [] (lowered_number int32 (typed_literal int32 (pos 5)))
        ≡ source_meaning [] [] (select (literal (pos 5) ∷ []) (empty_scan (schema_of_one "a" int8))) }
{}

/// A lowered filter gives the rows that the query's filter means.
pub fn filters_run_as_written()
    ensures runs { Gives (plan_run [] (three_flagged ∷ [])) ((keep (column "keep") (scan schema_flagged), Done (frame_with schema_flagged ((number 1 ∷ yes ∷ []) ∷ [])))
        ∷ (keep (cast_as Strict Truth (sum a (column "keep"))) (scan schema_flagged), Stuck) ∷ []) }
    ensures the_same_as_meant { plan_run [] (three_flagged ∷ []) (keep (column "keep") (scan schema_flagged))
        ≡ source_meaning [] (three_flagged ∷ []) (keep (column "keep") (scan schema_flagged)) }
    ensures comparisons { Gives (λ five. plan_run [] (three_numbers ∷ []) (keep (less a five) (scan (schema_of_one "a" int8))))
        ((typed_literal int8 (pos 5), Done (frame_with (schema_of_one "a" int8) ((number 1 ∷ []) ∷ []))) ∷ (literal (pos 5), Stuck) ∷ []) }
{}

/// A lowered hstack gives what the query's means, and records the columns of its input with its own.
pub fn hstacks_run_as_written()
    ensures runs { let sums_in_place = (codes "a", int32) ∷ (codes "b", int32) ∷ [] in
        Gives (plan_run [] (table ∷ [])) (
        (lowered_hstack sums_in_place (strict_sum ∷ []) (scan schema_ab), Done (frame_with sums_in_place ((number 11 ∷ number 10 ∷ []) ∷ (null ∷ number 20 ∷ []) ∷ (number 300 ∷ number 200 ∷ []) ∷ []))) ∷
        (stack (sum a b ∷ []) (scan schema_ab), Stuck) ∷ []) }
    ensures accepted { IsAccepted [] (lowered_hstack ((codes "a", int32) ∷ (codes "b", int32) ∷ []) (strict_sum ∷ []) (scan schema_ab)) }
    ensures other_schema { ¬ (IsAccepted [] (lowered_hstack (schema_of_one "a" int32) (strict_sum ∷ []) (scan schema_ab))) }
    ensures strict { IsStrictPlan [] (stack (strict_sum ∷ []) (scan schema_ab)) × ¬ (IsStrictPlan [] (stack (sum a b ∷ []) (scan schema_ab))) }
    ensures sound { RunsSoundly [] (table ∷ []) (lowered_hstack ((codes "a", int32) ∷ (codes "b", int32) ∷ []) (strict_sum ∷ []) (scan schema_ab)) }
    ensures stuck { ¬ (RunsSoundly [] (table ∷ []) (stack (sum a b ∷ []) (scan schema_ab))) }
{}

/// A lowered group-by gives what the query's means, and records the columns of its keys and of its aggregates.
pub fn groups_run_as_written()
    ensures runs { let sums_in_groups = (codes "b", int32) ∷ (codes "a", ListType int32) ∷ [] in
        Gives (plan_run [] (table ∷ [])) (
        (lowered_groups sums_in_groups (b ∷ []) (strict_sum ∷ []) (scan schema_ab), Done (frame_with sums_in_groups ((number 10 ∷ list (number 11 ∷ []) ∷ []) ∷ (number 20 ∷ list (null ∷ []) ∷ []) ∷ (number 200 ∷ list (number 300 ∷ []) ∷ []) ∷ []))) ∷
        (group_by (b ∷ []) (sum a b ∷ []) (scan schema_ab), Stuck) ∷ (group_by (sum a b ∷ []) [] (scan schema_ab), Stuck) ∷ []) }
    ensures accepted { IsAccepted [] (lowered_groups ((codes "b", int32) ∷ (codes "a", ListType int32) ∷ []) (b ∷ []) (strict_sum ∷ []) (scan schema_ab)) }
    ensures other_schema { ¬ (IsAccepted [] (lowered_groups ((codes "b", int32) ∷ (codes "a", int32) ∷ []) (b ∷ []) (strict_sum ∷ []) (scan schema_ab))) }
    ensures strict { IsStrictPlan [] (group_by (b ∷ []) (strict_sum ∷ []) (scan schema_ab)) × ¬ (IsStrictPlan [] (group_by (b ∷ []) (sum a b ∷ []) (scan schema_ab))) }
    ensures sound { RunsSoundly [] (table ∷ []) (lowered_groups ((codes "b", int32) ∷ (codes "a", ListType int32) ∷ []) (b ∷ []) (strict_sum ∷ []) (scan schema_ab)) }
    ensures stuck { ¬ (RunsSoundly [] (table ∷ []) (group_by (b ∷ []) (sum a b ∷ []) (scan schema_ab))) }
{}

/// A lowered simple projection gives its input's rows in its columns, which stand there, and nothing where it has none.
pub fn simple_projections_run_as_written()
    ensures runs { Gives (plan_run [] (table ∷ []))
        ((lowered_projection (schema_of_one "b" int32) (scan schema_ab), Done (frame_with (schema_of_one "b" int32) ((number 10 ∷ []) ∷ (number 20 ∷ []) ∷ (number 200 ∷ []) ∷ [])))
        ∷ (lowered_projection (schema_of_one "b" int8) narrowed, Fault) ∷ (lowered_projection [] narrowed, Done empty_frame) ∷ []) }
    ensures accepted { AllByRecursion (IsAccepted []) (lowered_projection (schema_of_one "b" int32) (scan schema_ab) ∷ lowered_projection [] narrowed ∷ project schema_ab (scan schema_ab) ∷ []) }
    ensures others { AllByRecursion (λ plan. ¬ (IsAccepted [] plan)) (lowered_projection (schema_of_one "b" int8) (scan schema_ab)
        ∷ node (simple_projection_op (schema_of_one "b" int32) (Some schema_ab)) (more (scan schema_ab) no_more) ∷ node (drop_op [] false) (more (scan schema_ab) no_more) ∷ []) }
    ensures strict { IsStrictPlan [] (lowered_projection (schema_of_one "b" int32) (scan schema_ab)) }
    ensures sound { AllByRecursion (RunsSoundly [] (table ∷ [])) (lowered_projection (schema_of_one "b" int32) (scan schema_ab) ∷ lowered_projection [] narrowed ∷ []) }
{}

/// A plan is accepted where each node has a schema by the rules, and a schema that is recorded is that one: a filter has that of its input.
pub fn plans_that_are_accepted()
    ensures recorded { AllByRecursion {X = Option Columns × Option Columns} (λ c. HasRecorded c.0 c.1) ((None, Some []) ∷ (Some schema_ab, Some schema_ab) ∷ []) }
    ensures own { GivesOfTwo own_schema ((None, Some [], Some []) ∷ (None, None, None) ∷ (Some schema_ab, None, Some schema_ab) ∷ (Some schema_ab, Some [], Some schema_ab) ∷ []) }
    ensures not_recorded { AllByRecursion {X = Option Columns × Option Columns} (λ c. ¬ (HasRecorded c.0 c.1)) ((None, None) ∷ (Some [], None) ∷ (Some schema_ab, Some schema_flagged) ∷ []) }
    ensures accepted { AllByRecursion (IsAccepted []) (lowered_sum (schema_of_one "a" int32) ∷ keep (column "keep") (scan schema_flagged)
        ∷ lowered_select (schema_of_one "a" int8) (a ∷ []) (keep (column "keep") (scan schema_flagged)) ∷ lowered_number int32 (typed_literal int32 (pos 5))
        ∷ lowered_number int32 (literal (pos 5)) ∷ select (sum a b ∷ []) (scan schema_ab) ∷ []) }
    ensures others { AllByRecursion (λ plan. ¬ (IsAccepted [] plan)) (lowered_select (schema_of_one "b" int32) (sum a b ∷ []) (scan schema_ab)
        ∷ lowered_sum (schema_of_one "a" int64) ∷ keep a (scan schema_flagged) ∷ lowered_number int8 (typed_literal int32 (pos 5)) ∷ []) }
{}

/// A plan is strict where each expression is, and has no aliases.
pub fn plans_that_are_strict()
    ensures sum { IsStrictPlan [] (lowered_sum (schema_of_one "a" int32)) }
    ensures filter { IsStrictPlan [] (keep (column "keep") (scan schema_flagged)) }
    ensures number { IsStrictPlan [] (lowered_number int32 (typed_literal int32 (pos 5))) }
    ensures sum_of_two_types { ¬ (IsStrictPlan [] (select (sum a b ∷ []) (scan schema_ab))) }
    ensures filter_of_two_types { ¬ (IsStrictPlan [] (keep (sum a (column "keep")) (scan schema_flagged))) }
    ensures untyped { ¬ (IsStrictPlan [] (lowered_number int32 (literal (pos 5)))) }
    ensures with_an_alias { ¬ (IsStrictPlan [] (node (filter_op (record { label = column_label (codes "keep"); expression = alias "x" (column "keep") })) (more (scan schema_flagged) no_more))) }
{}

/// A plan is named where each expression has the name that the rules give it, from what they say, or an alias.
pub fn named_plans()
    ensures named { AllByRecursion IsNamedPlan (lowered_sum (schema_of_one "a" int32) ∷ keep (column "keep") (scan schema_flagged) ∷ lowered_number int32 (typed_literal int32 (pos 5)) ∷ []) }
    ensures others { AllByRecursion {X = Label × Expression} (λ c. ¬ (IsNamedPlan (node (select_op (record { label = c.0; expression = c.1 } ∷ []) None) (more (scan schema_ab) no_more))))
        ((literal_label (codes "a"), a) ∷ (column_label (codes "b"), a) ∷ (column_label (codes "literal"), typed_literal int32 (pos 5)) ∷ []) }
    ensures aliases { AllByRecursion IsNamedPlan (select (alias "x" (sum a b) ∷ b ∷ []) (scan schema_ab) ∷
        node (filter_op (record { label = alias_label (codes "a"); expression = column "keep" })) (more (scan schema_flagged) no_more) ∷ []) }
    ensures filter_by_another_name { ¬ (IsNamedPlan (node (filter_op (record { label = column_label (codes "a"); expression = column "keep" })) (more (scan schema_flagged) no_more))) }
{}

/// A function has as many recorded names as operands, each of them the operand's own, from what the rules say, or an alias: so has each in a plan that is named.
pub fn functions_that_name_their_operands()
    ensures named { AllByRecursion {X = List Label} (λ labels. NamesOperands (filled_under labels) × NamesOperands (sum b (filled_under labels)) × IsNamedPlan (select (filled_under labels ∷ []) (scan schema_ab)))
        ((column_label (codes "a") ∷ column_label (codes "b") ∷ []) ∷ (column_label (codes "a") ∷ alias_label (codes "zzz") ∷ []) ∷ (alias_label (codes "x") ∷ column_label (codes "b") ∷ []) ∷ []) }
    ensures others { AllByRecursion {X = List Label} (λ labels. ¬ (NamesOperands (filled_under labels)) × ¬ (NamesOperands (sum b (filled_under labels))) × ¬ (IsNamedPlan (select (filled_under labels ∷ []) (scan schema_ab))))
        ((column_label (codes "a") ∷ column_label (codes "zzz") ∷ []) ∷ (column_label (codes "a") ∷ literal_label (codes "b") ∷ []) ∷ (column_label (codes "b") ∷ column_label (codes "a") ∷ [])
        ∷ (column_label (codes "a") ∷ []) ∷ (column_label (codes "a") ∷ column_label (codes "b") ∷ column_label (codes "b") ∷ []) ∷ []) }
    ensures none_recorded { ¬ (NamesOperands (filled_under [])) × IsNamedPlan (select (filled_under [] ∷ []) (scan schema_ab)) }
    ensures no_function { NamesOperands (sum a b) }
{}

/// A plan runs soundly where no node is stuck, and each node's frame has exactly the node's own schema.
pub fn plans_that_run_soundly()
    ensures sums { AllByRecursion (RunsSoundly [] (table ∷ [])) (lowered_sum (schema_of_one "a" int32) ∷ narrowed ∷ []) }
    ensures filters { AllByRecursion (RunsSoundly [] (three_flagged ∷ [])) (keep (column "keep") (scan schema_flagged)
        ∷ lowered_select (schema_of_one "a" int8) (a ∷ []) (keep (column "keep") (scan schema_flagged)) ∷ []) }
    ensures number { RunsSoundly [] [] (lowered_number int32 (typed_literal int32 (pos 5))) }
    ensures stuck { ¬ (RunsSoundly [] (table ∷ []) (select (sum a b ∷ []) (scan schema_ab))) }
    ensures stuck_below { ¬ (RunsSoundly [] (table ∷ []) (lowered_select [] [] (scan_of 1 []))) }
    ensures other_schema { ¬ (RunsSoundly [] (table ∷ []) (lowered_select (schema_of_one "a" int16) (a ∷ []) (scan schema_ab))) }
    ensures untyped { ¬ (RunsSoundly [] [] (lowered_number int32 (literal (pos 5)))) }
{}
