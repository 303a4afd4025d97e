//! Filters: their frames, their schemas and the rules that they break.

ghost use Rattle.std.specs.Prelude.{◌≡◌, [], ◌∷◌, pos, codes, Some, None};
ghost use Rattle.plan_types.specs.Types.{NullType, Truth, TextType};
ghost use Rattle.plan_types.specs.Values.{NullValue, TextValue};
ghost use Rattle.plan_types.specs.Outcomes.{Done, Fault, Stuck};
ghost use Rattle.plan_types.specs.Frames.{empty_frame};
ghost use Rattle.plan_types.specs.declared.dtype.CastOptions.{CastOptions};
ghost use Rattle.plan_types.specs.declared.dtype.CastOptions.TheVariants.{Strict, NonStrict};
ghost use Rattle.plan_types.specs.declared.error.ErrorKind.TheVariants.{ColumnNotFound, InvalidOperation, SchemaMismatch};
ghost use Rattle.plan_dsl.specs.declared.operator.Operator.TheVariants.{Gt, And};
ghost use Rattle.plan_dsl.specs.Trees.{node, no_more};
ghost use Rattle.plan_dsl.specs.Ops.{LiteralOp};
ghost use Rattle.plan_dsl.specs.Kernels.{for_rows};
ghost use Rattle.plan_dsl.specs.Plans.{empty_table, named, filter_op};
ghost use Rattle.plan_dsl.specs.PlanRules.{schema_of, schema_at, broken_kinds, IsWellFormed, Breaks};
ghost use Rattle.plan_dsl.specs.PlanKernels.{kept_rows, plan_kernel};
ghost use Rattle.plan_dsl.specs.PlanMeaning.{by_meaning, source_meaning, FitsPlan};
ghost use Rattle.plan_dsl.specs.Counts.{cast_count, node_count};
ghost use Rattle.plan_dsl.specs.Samples.{Gives, GivesOfTwo, GivesAll, int8, int32, int64, null, yes, no, number, text, column, a, b, c, u, literal, binary, sum, less, equal, cast_as, frame_with, mixed, flagged, schema_ab, schema_au, schema_flagged, scan, empty_scan, select, keep};

/// A filter keeps the rows for which its predicate is true: null is not. A fault of the predicate, or of the input, is one of it.
pub fn frames_of_filters()
    ensures true_rows { Gives (λ rows. source_meaning [] (frame_with schema_flagged rows ∷ []) (keep (column "keep") (scan schema_flagged))) (
        (flagged.rows, Done (frame_with schema_flagged ((number 1 ∷ yes ∷ []) ∷ (null ∷ yes ∷ []) ∷ []))) ∷
        ((number 2 ∷ null ∷ []) ∷ (number 3 ∷ no ∷ []) ∷ [], Done (frame_with schema_flagged [])) ∷ []) }
    ensures under_a_select { source_meaning [] (flagged ∷ []) (select (a ∷ []) (keep (column "keep") (scan schema_flagged)))
        ≡ Done (frame_with ((codes "a", int8) ∷ []) ((number 1 ∷ []) ∷ (null ∷ []) ∷ [])) }
    ensures comparisons { let kept = frame_with schema_ab ((number 1 ∷ number 10 ∷ []) ∷ (number 5 ∷ number 300 ∷ []) ∷ []) in
        GivesAll (source_meaning [] (mixed ∷ [])) (Done kept) (
        keep (less a b) (scan schema_ab) ∷
        keep (less a b) (keep (equal a a) (scan schema_ab)) ∷ []) }
    ensures faults { let narrow = less a (cast_as Strict int8 b) in
        Gives (source_meaning [] (mixed ∷ [])) (
        (keep narrow (scan schema_ab), Fault) ∷
        (keep narrow (empty_scan schema_ab), Done (frame_with schema_ab [])) ∷
        (keep a (select (narrow ∷ []) (scan schema_ab)), Fault) ∷
        (keep narrow (keep (less b (cast_as Strict int32 a)) (scan schema_ab)), Done (frame_with schema_ab [])) ∷ []) }
    ensures over_what_is_stuck { plan_kernel [] (by_meaning []) (filter_op (named a)) (Stuck ∷ []) ≡ Stuck }
    ensures wrong_numbers_of_inputs { GivesAll (plan_kernel [] (by_meaning []) (filter_op (named a))) Stuck ([] ∷ (Done empty_frame ∷ Done empty_frame ∷ []) ∷ []) }
{}

/// A predicate has a value for each row, or a single one that is repeated. Any other number of values is a fault.
pub fn values_for_rows()
    ensures done { GivesOfTwo for_rows (
        (2, yes ∷ null ∷ [], Done (yes ∷ null ∷ [])) ∷
        (3, yes ∷ [], Done (yes ∷ yes ∷ yes ∷ [])) ∷
        (1, no ∷ [], Done (no ∷ [])) ∷
        (0, yes ∷ [], Done []) ∷
        (0, [], Done []) ∷ []) }
    ensures wrong_numbers { GivesOfTwo for_rows (
        (2, [], Fault) ∷ (3, yes ∷ no ∷ [], Fault) ∷ (1, yes ∷ no ∷ [], Fault) ∷ (0, yes ∷ no ∷ [], Fault) ∷ []) }
    ensures rows { Gives (kept_rows flagged) (
        (yes ∷ [], Done flagged) ∷
        (null ∷ [], Done (frame_with schema_flagged [])) ∷
        (yes ∷ yes ∷ [], Fault) ∷ []) }
{}

/// A filter has the schema of its input. One whose predicate has another type than that of truth values has none, also over no rows.
pub fn schemas_of_filters()
    ensures truths { Gives (schema_of []) (
        (keep (column "keep") (scan schema_flagged), Some schema_flagged) ∷
        (keep (less a b) (scan schema_ab), Some schema_ab) ∷
        (keep (equal b b) (select (sum b a ∷ []) (scan schema_ab)), Some ((codes "b", int32) ∷ [])) ∷
        (keep (cast_as Strict Truth a) (scan schema_ab), Some schema_ab) ∷ []) }
    ensures refused { GivesAll (schema_of []) None (
        keep a (scan schema_ab) ∷
        keep a (empty_scan schema_ab) ∷
        keep c (scan schema_ab) ∷
        keep (column "keep") (select (a ∷ []) (scan schema_flagged)) ∷ []) }
{}

/// A filter breaks what its predicate breaks as an expression. A typed predicate breaks a rule where its type isn't that of truth values.
pub fn kinds_that_filters_break()
    ensures over_an_input { GivesOfTwo (λ schema predicate. broken_kinds [] (filter_op (named predicate)) (Some schema ∷ [])) (
        (schema_flagged, column "keep", []) ∷
        (schema_flagged, a, InvalidOperation ∷ []) ∷
        (schema_flagged, sum (column "keep") (column "keep"), InvalidOperation ∷ []) ∷
        (schema_flagged, c, ColumnNotFound ∷ []) ∷
        (schema_au, equal u a, SchemaMismatch ∷ []) ∷
        ([], node (LiteralOp NullType NullValue) no_more, InvalidOperation ∷ []) ∷ []) }
    ensures over_an_input_without_schema { broken_kinds [] (filter_op (named c)) (None ∷ []) ≡ [] }
{}

/// The node at a place below a filter: its schema, and the rules that it breaks.
pub fn places_below_filters()
    ensures schemas { let filter = keep (less a b) (scan schema_ab) in
        let over_select = keep (less a b) (select (b ∷ a ∷ []) (scan schema_ab)) in
        GivesOfTwo (schema_at []) (
        (filter, [], Some schema_ab) ∷
        (over_select, 0 ∷ [], Some ((codes "b", int32) ∷ (codes "a", int8) ∷ [])) ∷
        (over_select, 0 ∷ 0 ∷ [], Some schema_ab) ∷
        (filter, 1 ∷ [], None) ∷
        (keep (less a b) (keep a (scan schema_ab)), [], None) ∷ []) }
    ensures broken { let inner = keep a (scan schema_ab) in
        Breaks [] InvalidOperation [] inner × Breaks [] InvalidOperation (0 ∷ []) (keep (less a b) inner) }
    ensures not_above { ¬ (Breaks [] InvalidOperation [] (keep (less a b) (keep a (scan schema_ab)))) }
    ensures ill_formed { ¬ (IsWellFormed [] (keep (less a b) (keep a (scan schema_ab)))) }
    ensures well_formed { IsWellFormed [] (keep (less a b) (keep (less a b) (scan schema_ab))) }
{}

/// A predicate's casts count, a filter is a node, and it asks of the tables what its input asks.
pub fn filters_counted_and_fitted()
    ensures casts { cast_count (keep (less a b) (keep (less (cast_as NonStrict int32 a) b) (scan schema_ab))) ≡ 1 }
    ensures nodes { node_count (keep (less a b) (keep (less a b) (scan schema_ab))) ≡ 3 }
    ensures fitting { FitsPlan (mixed ∷ []) (keep (less a b) (scan schema_ab)) }
    ensures no_such_table { ¬ (FitsPlan [] (keep (less a b) (scan schema_ab))) }
    ensures without_tables { FitsPlan [] (keep (column "keep") (keep a empty_table)) }
{}

/// A filter by a text that is read as a number: a text that is none is a data fault where the cast is strict, also beside a false value, and else it is null.
pub fn filters_by_casts_of_texts()
    ensures of_two { let schema = (codes "s", TextType) ∷ (codes "b", int64) ∷ [] in
        let filter = λ (options : CastOptions). keep (binary And (binary Gt (cast_as options int64 (column "s")) (literal (pos 0))) (equal b (literal (pos 1)))) (scan schema) in
        let three_rows = (text "x" ∷ number 2 ∷ []) ∷ (text "x" ∷ number 1 ∷ []) ∷ (text "7" ∷ number 1 ∷ []) ∷ [] in
        GivesOfTwo (λ options rows. source_meaning [] (frame_with schema rows ∷ []) (filter options)) (
        (Strict, (text "x" ∷ number 2 ∷ []) ∷ [], Fault) ∷
        (NonStrict, three_rows, Done (frame_with schema ((text "7" ∷ number 1 ∷ []) ∷ []))) ∷ []) }
    ensures select_of_nothing_over_a_fault { let schema = (codes "s", TextType) ∷ [] in
        let filter = keep (binary Gt (cast_as Strict int64 (column "s")) (literal (pos 0))) (scan schema) in
        source_meaning [] (frame_with schema ((text "x" ∷ []) ∷ []) ∷ []) (select [] filter) ≡ Done empty_frame }
    ensures text_beside_a_number { let x = node (LiteralOp TextType (TextValue (codes "x"))) no_more in
        Breaks [] InvalidOperation [] (keep (equal a x) (scan ((codes "a", int32) ∷ []))) }
{}
