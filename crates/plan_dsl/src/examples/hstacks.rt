//! Hstacks: their frames, their schemas and the rules that they break.

ghost use Rattle.std.specs.Prelude.{◌≡◌, [], ◌∷◌, map, pos, codes, Some, None, Ok, Err};
ghost use Rattle.plan_types.specs.Schemas.{columns};
ghost use Rattle.plan_types.specs.Types.{Truth};
ghost use Rattle.plan_types.specs.Outcomes.{Done, Fault, Stuck};
ghost use Rattle.plan_types.specs.Frames.{empty_frame};
ghost use Rattle.plan_types.specs.declared.dtype.CastOptions.TheVariants.{Strict, NonStrict};
ghost use Rattle.plan_types.specs.declared.error.ErrorKind.TheVariants.{ColumnNotFound, Duplicate, SchemaMismatch, ComputeError};
ghost use Rattle.plan_types.specs.declared.schema.Schema.{Schema};
ghost use Rattle.plan_dsl.specs.declared.expr.Exprs.{Exprs};
ghost use Rattle.plan_dsl.specs.declared.plan.DslPlan.TheVariants.{DataFrameScan, HStack'};
ghost use Rattle.plan_dsl.specs.declared.plan.ProjectionOptions.{ProjectionOptions};
ghost use Rattle.plan_dsl.specs.Expressions.{trees_of};
ghost use Rattle.plan_dsl.specs.Plans.{HStackKind, ProjectionOption, Named, named, empty_table, expressions_of, hstack_op, plan_tree, options_in, source_hstack, scans_in};
ghost use Rattle.plan_dsl.specs.Ops.{Expression};
ghost use Rattle.plan_dsl.specs.Sources.{written};
ghost use Rattle.plan_dsl.specs.PlanRules.{with_columns, schema_of, schema_by, schema_at, own_kinds, broken_kinds, IsWellFormed, Breaks};
ghost use Rattle.plan_dsl.specs.PlanKernels.{row_with, rows_with, stacked, plan_kernel};
ghost use Rattle.plan_dsl.specs.PlanMeaning.{by_meaning, source_meaning, FitsPlan};
ghost use Rattle.plan_dsl.specs.Resolving.{resolution, resolved};
ghost use Rattle.plan_dsl.specs.Counts.{cast_count, node_count};
ghost use Rattle.plan_dsl.specs.Samples.{Gives, GivesOfTwo, GivesAll, int8, int16, int32, null, yes, no, number, a, b, c, u, one, two, literal, typed_literal, alias, sum, less, cast_as, slice, frame_with, table, schema_ab, schema_au, scan, empty_scan, select, stack, keep, series, written_hstack};

/// An hstack puts a column in place of its namesake, or behind the others. Each expression sees the columns of the input.
pub fn frames_of_hstacks()
    ensures in_place { Gives (λ outputs. source_meaning [] (table ∷ []) (stack outputs (scan schema_ab))) (
        (sum a b ∷ [], Done (frame_with ((codes "a", int32) ∷ (codes "b", int32) ∷ []) ((number 11 ∷ number 10 ∷ []) ∷ (null ∷ number 20 ∷ []) ∷ (number 300 ∷ number 200 ∷ []) ∷ []))) ∷
        (alias "b" a ∷ alias "a" b ∷ [], Done (frame_with ((codes "a", int32) ∷ (codes "b", int8) ∷ []) ((number 10 ∷ number 1 ∷ []) ∷ (number 20 ∷ null ∷ []) ∷ (number 200 ∷ number 100 ∷ []) ∷ []))) ∷ []) }
    ensures at_the_end { Gives (λ outputs. source_meaning [] (table ∷ []) (stack outputs (scan schema_ab))) ((
      alias "c" (less a b) ∷ [],
      Done (frame_with ((codes "a", int8) ∷ (codes "b", int32) ∷ (codes "c", Truth) ∷ [])
          ((number 1 ∷ number 10 ∷ yes ∷ []) ∷ (null ∷ number 20 ∷ null ∷ []) ∷ (number 100 ∷ number 200 ∷ yes ∷ []) ∷ [])),
    ) ∷ (
      alias "c" b ∷ alias "b" a ∷ [],
      Done (frame_with ((codes "a", int8) ∷ (codes "b", int8) ∷ (codes "c", int32) ∷ [])
          ((number 1 ∷ number 1 ∷ number 10 ∷ []) ∷ (null ∷ null ∷ number 20 ∷ []) ∷ (number 100 ∷ number 100 ∷ number 200 ∷ []) ∷ [])),
    ) ∷ []) }
    ensures none { source_meaning [] (table ∷ []) (stack [] (scan schema_ab)) ≡ Done table }
    ensures one_value { let seven = typed_literal int16 (pos 7) in
        Gives (source_meaning [] (table ∷ [])) (
        (stack (alias "a" seven ∷ []) (scan schema_ab), Done (frame_with ((codes "a", int16) ∷ (codes "b", int32) ∷ []) ((number 7 ∷ number 10 ∷ []) ∷ (number 7 ∷ number 20 ∷ []) ∷ (number 7 ∷ number 200 ∷ []) ∷ []))) ∷
        (stack (alias "a" (slice a two one) ∷ []) (scan schema_ab), Done (frame_with schema_ab ((number 100 ∷ number 10 ∷ []) ∷ (number 100 ∷ number 20 ∷ []) ∷ (number 100 ∷ number 200 ∷ []) ∷ []))) ∷
        (stack (alias "c" seven ∷ []) (empty_scan ((codes "a", int8) ∷ [])), Done (frame_with ((codes "a", int8) ∷ (codes "c", int16) ∷ []) [])) ∷ []) }
    ensures without_columns { let only = Done (frame_with ((codes "literal", int32) ∷ []) []) in
        GivesAll (source_meaning [] (table ∷ [])) only (stack (one ∷ []) empty_table ∷ stack (one ∷ []) (select [] (scan schema_ab)) ∷ []) }
    ensures faults { let zero = literal (pos 0) in
        GivesAll (source_meaning [] (table ∷ [])) Fault (
        stack (slice a zero two ∷ []) (scan schema_ab) ∷
        stack (alias "c" (slice a zero zero) ∷ []) (scan schema_ab) ∷
        stack (b ∷ cast_as Strict int8 b ∷ []) (scan schema_ab) ∷
        stack [] (select (a ∷ cast_as Strict int8 b ∷ []) (scan schema_ab)) ∷ []) }
    ensures over_what_is_stuck { plan_kernel [] (by_meaning []) (hstack_op [] None) (Stuck ∷ []) ≡ Stuck }
    ensures wrong_numbers_of_inputs { GivesAll (plan_kernel [] (by_meaning []) (hstack_op [] None)) Stuck ([] ∷ (Done empty_frame ∷ Done empty_frame ∷ []) ∷ []) }
{}

/// A value goes into a row in its column's place, or behind the others, and a column has a value for each row or one that is repeated.
pub fn columns_in_frames()
    ensures row { GivesOfTwo (λ name value. row_with schema_ab (codes name) value (number 1 ∷ number 2 ∷ [])) (
        ("a", yes, yes ∷ number 2 ∷ []) ∷ ("b", null, number 1 ∷ null ∷ []) ∷ ("c", no, number 1 ∷ number 2 ∷ no ∷ []) ∷ []) }
    ensures rows { rows_with ((codes "a", int8) ∷ []) (codes "b") (yes ∷ no ∷ []) ((number 1 ∷ []) ∷ (number 2 ∷ []) ∷ []) ≡ (number 1 ∷ yes ∷ []) ∷ (number 2 ∷ no ∷ []) ∷ [] }
    ensures columns { let two_rows = frame_with ((codes "a", int8) ∷ []) ((number 1 ∷ []) ∷ (number 2 ∷ []) ∷ []) in
        Gives (λ ss. stacked ss two_rows) (
        ([], Done two_rows) ∷
        (series "b" Truth (yes ∷ []) ∷ series "a" int32 (number 3 ∷ null ∷ []) ∷ [], Done (frame_with ((codes "a", int32) ∷ (codes "b", Truth) ∷ []) ((number 3 ∷ yes ∷ []) ∷ (null ∷ yes ∷ []) ∷ []))) ∷
        (series "a" int8 [] ∷ [], Fault) ∷
        (series "b" Truth (yes ∷ []) ∷ series "a" int8 (number 1 ∷ number 2 ∷ number 3 ∷ []) ∷ [], Fault) ∷ []) }
    ensures none { Gives (λ values. stacked (series "b" Truth values ∷ []) (frame_with ((codes "a", int8) ∷ []) [])) (
        (yes ∷ [], Done (frame_with ((codes "a", int8) ∷ (codes "b", Truth) ∷ []) [])) ∷ ([], Done (frame_with ((codes "a", int8) ∷ (codes "b", Truth) ∷ []) [])) ∷ (yes ∷ no ∷ [], Fault) ∷ []) }
{}

/// An hstack has the columns of its input with those of its expressions.
pub fn schemas_of_hstacks()
    ensures columns { Gives (with_columns schema_ab) (
        ([], schema_ab) ∷
        ((codes "b", int8) ∷ [], (codes "a", int8) ∷ (codes "b", int8) ∷ []) ∷
        ((codes "d", Truth) ∷ (codes "a", Truth) ∷ (codes "c", int8) ∷ [], (codes "a", Truth) ∷ (codes "b", int32) ∷ (codes "d", Truth) ∷ (codes "c", int8) ∷ []) ∷ []) }
    ensures plans { Gives (schema_of []) (
        (stack (sum a b ∷ []) (scan schema_ab), Some ((codes "a", int32) ∷ (codes "b", int32) ∷ [])) ∷
        (stack (alias "c" a ∷ alias "a" (less a b) ∷ []) (scan schema_ab), Some ((codes "a", Truth) ∷ (codes "b", int32) ∷ (codes "c", int8) ∷ [])) ∷
        (stack (alias "d" c ∷ []) (stack (alias "c" a ∷ []) (scan schema_ab)), Some ((codes "a", int8) ∷ (codes "b", int32) ∷ (codes "c", int8) ∷ (codes "d", int8) ∷ [])) ∷
        (stack [] (scan schema_ab), Some schema_ab) ∷
        (stack (one ∷ []) empty_table, Some ((codes "literal", int32) ∷ [])) ∷ []) }
    ensures refused { GivesAll (schema_of []) None (
        stack (alias "c" a ∷ alias "c" b ∷ []) (scan schema_ab) ∷
        stack (alias "c" a ∷ alias "d" c ∷ []) (scan schema_ab) ∷
        stack (sum u a ∷ []) (scan schema_au) ∷
        stack [] (select (c ∷ []) (scan schema_ab)) ∷ []) }
    ensures inputs { Gives (schema_by [] (HStackKind (named u ∷ []))) (
        ([], None) ∷ (None ∷ [], None) ∷ (Some schema_ab ∷ [], None) ∷ (Some schema_au ∷ [], Some schema_au) ∷ (Some schema_au ∷ Some [] ∷ [], None) ∷ []) }
{}

/// An hstack breaks what its expressions break, and one of two equal names breaks a rule of another kind than a select's.
pub fn kinds_that_hstacks_break()
    ensures over_an_input { Gives (λ outputs. broken_kinds [] (hstack_op (map named outputs) None) (Some schema_au ∷ [])) (
        (a ∷ u ∷ [], []) ∷
        ([], []) ∷
        (a ∷ c ∷ [], ColumnNotFound ∷ []) ∷
        (a ∷ u ∷ a ∷ [], ComputeError ∷ []) ∷
        (c ∷ sum u a ∷ alias "c" a ∷ [], ColumnNotFound ∷ SchemaMismatch ∷ ComputeError ∷ []) ∷ []) }
    ensures over_an_input_without_schema { broken_kinds [] (hstack_op (named c ∷ named c ∷ []) None) (None ∷ []) ≡ [] }
    ensures wrong_numbers_of_inputs { Gives (own_kinds [] (HStackKind [])) (([], SchemaMismatch ∷ []) ∷ (Some [] ∷ None ∷ [], SchemaMismatch ∷ []) ∷ []) }
    ensures places { let repeated = stack (a ∷ a ∷ []) (scan schema_ab) in
        Breaks [] ComputeError [] repeated × Breaks [] ComputeError (0 ∷ []) (stack (a ∷ []) repeated) }
    ensures not_broken { let repeated = stack (a ∷ a ∷ []) (scan schema_ab) in
        ¬ (Breaks [] Duplicate [] repeated) × ¬ (Breaks [] ComputeError [] (stack (a ∷ []) repeated)) × ¬ (Breaks [] ComputeError [] (select (a ∷ a ∷ []) (scan schema_ab))) }
    ensures ill_formed { ¬ (IsWellFormed [] (stack (a ∷ a ∷ []) (scan schema_ab))) }
    ensures well_formed { IsWellFormed [] (stack (alias "c" a ∷ []) (stack [] (keep (less a b) (scan schema_ab)))) }
{}

/// An hstack's tree and options, its expressions, its schema at a place, its casts, nodes and tables, and what a query's is resolved to.
pub fn parts_of_hstacks()
    ensures tree { (p : _) (exprs : Exprs) (schema : Schema) (options : ProjectionOptions) → let plan = HStack' exprs p (DataFrameScan (Some 0) schema) options in
        (plan_tree plan ≡ source_hstack (trees_of exprs) (scan (columns schema))) × (options_in plan ≡ ProjectionOption options ∷ []) }
    ensures expressions { expressions_of {E = Named Expression} (HStackKind (named a ∷ named b ∷ [])) ≡ record { input = 0; outputs = named a ∷ named b ∷ [] } ∷ [] }
    ensures schemas { Gives (schema_at [] (stack (alias "a" b ∷ []) (scan schema_ab))) (([], Some ((codes "a", int32) ∷ (codes "b", int32) ∷ [])) ∷ (0 ∷ [], Some schema_ab) ∷ []) }
    ensures casts { cast_count (stack (cast_as NonStrict int32 a ∷ b ∷ []) (stack (cast_as Strict int8 b ∷ []) (scan schema_ab))) ≡ 2 }
    ensures nodes { node_count (stack (a ∷ []) (stack [] (scan schema_ab))) ≡ 3 }
    ensures tables { scans_in (stack (a ∷ []) (scan schema_ab)) ≡ record { table = 0; schema = schema_ab } ∷ [] }
    ensures fitting { FitsPlan (table ∷ []) (stack (a ∷ []) (scan schema_ab)) × ¬ (FitsPlan [] (stack (a ∷ []) (scan schema_ab))) }
    ensures kinds { Gives (resolution [] (HStackKind (written a ∷ written b ∷ []))) (
        (Some schema_ab ∷ [], Ok (HStackKind (named a ∷ named b ∷ []))) ∷ (None ∷ [], Err []) ∷ []) }
    ensures queries { resolved [] (written_hstack (sum a b ∷ []) (scan schema_ab)) ≡ stack (sum a b ∷ []) (scan schema_ab) }
{}
