//! Queries' plans, resolved: their schemas, and the rules that they break.

ghost use Rattle.std.specs.Prelude.{◌≡◌, pos, neg_ℤ, [], ◌∷◌, map, codes, Some, None, Ok, Err};
ghost use Rattle.plan_types.specs.Types.{DateType};
ghost use Rattle.plan_types.specs.Outcomes.{Done, Stuck};
ghost use Rattle.plan_types.specs.Frames.{empty_frame};
ghost use Rattle.plan_types.specs.declared.error.ErrorKind.TheVariants.{ColumnNotFound, Duplicate, InvalidOperation, ComputeError};
ghost use Rattle.plan_dsl.specs.declared.aggregate.GroupByMethod.TheVariants.{Sum};
ghost use Rattle.plan_dsl.specs.Trees.{node, no_more, more};
ghost use Rattle.plan_dsl.specs.Plans.{ScanKind, SelectKind, HStackKind, FilterKind, RefusedKind, PlanOp, Named, named, select_op, filter_op, scans_in, source_select};
ghost use Rattle.plan_dsl.specs.Ops.{Expression};
ghost use Rattle.plan_dsl.specs.Sources.{written, KeepRoot};
ghost use Rattle.plan_dsl.specs.PlanRules.{plan_rule, schema_of, broken_kinds, IsWellFormed, Breaks};
ghost use Rattle.plan_dsl.specs.PlanKernels.{plan_kernel};
ghost use Rattle.plan_dsl.specs.PlanMeaning.{by_meaning, source_meaning};
ghost use Rattle.plan_dsl.specs.Resolving.{resolution, resolved_kind, resolved_op, resolved};
ghost use Rattle.plan_dsl.specs.Samples.{Gives, GivesOfTwo, int8, int32, a, b, c, one, agg, sum, less, equal, alias, schema_ab, schema_abc, scan, select, keep, all, columns_named, columns_of_type, nth, but_named, form, prefix, plus, equals, table, written_select, written_filter};

/// A kind over inputs that have schemas has its expressions expanded, and one over an input without schema is refused by no kind.
pub fn kinds_that_are_resolved()
    ensures kinds { GivesOfTwo (resolution []) (
        (ScanKind (Some 0) schema_ab, [], Ok (ScanKind (Some 0) schema_ab)) ∷
        (SelectKind (map written (sum b a ∷ a ∷ [])), Some schema_ab ∷ [], Ok (SelectKind (map named (sum b a ∷ a ∷ [])))) ∷
        (FilterKind (written a), Some schema_ab ∷ [], Ok (FilterKind (named a))) ∷
        (SelectKind (all ∷ written one ∷ []), Some schema_abc ∷ [], Ok (SelectKind (map named (a ∷ b ∷ c ∷ one ∷ [])))) ∷
        (SelectKind (columns_of_type DateType ∷ []), Some schema_abc ∷ [], Ok (SelectKind [])) ∷
        (HStackKind (columns_of_type int8 ∷ written one ∷ []), Some schema_abc ∷ [], Ok (HStackKind (map named (a ∷ b ∷ one ∷ [])))) ∷
        (FilterKind (equals (nth (pos 1)) (written one)), Some schema_abc ∷ [], Ok (FilterKind (named (equal b one)))) ∷
        (RefusedKind (Duplicate ∷ []), Some schema_ab ∷ [], Ok (RefusedKind (Duplicate ∷ []))) ∷
        (FilterKind (form KeepRoot (written (alias "x" a))), Some schema_abc ∷ [], Ok (FilterKind (named (alias "a" a)))) ∷
        (FilterKind (written a), None ∷ [], Err []) ∷
        (SelectKind (written a ∷ []), Some schema_ab ∷ None ∷ [], Err []) ∷ []) }
    ensures unexpanded { GivesOfTwo (resolution []) (
        (SelectKind (nth (pos 3) ∷ all ∷ prefix "p_" (written one) ∷ []), Some schema_abc ∷ [], Err (ColumnNotFound ∷ InvalidOperation ∷ [])) ∷
        (SelectKind (written (agg Sum c) ∷ nth (pos 9) ∷ []), Some schema_abc ∷ [], Err (ColumnNotFound ∷ [])) ∷
        (FilterKind (plus all (nth (pos 0))), Some schema_abc ∷ [], Err (InvalidOperation ∷ [])) ∷
        (FilterKind (equals (columns_of_type DateType) (written one)), Some schema_abc ∷ [], Err (ComputeError ∷ [])) ∷
        (FilterKind (equals (columns_named ("a" ∷ "b" ∷ [])) (written one)), Some schema_abc ∷ [], Err (ComputeError ∷ [])) ∷
        (FilterKind all, None ∷ [], Err []) ∷
        (FilterKind (nth (pos 0)), [], Err (ColumnNotFound ∷ [])) ∷ []) }
    ensures refused { Gives resolved_kind ((Ok (FilterKind (named a)), FilterKind (named a)) ∷ (Err (Duplicate ∷ []), RefusedKind (Duplicate ∷ [])) ∷ []) }
    ensures recorded { resolved_op [] (select_op (written a ∷ []) (Some schema_ab)) (None ∷ []) ≡ record { kind = RefusedKind []; recorded = Some schema_ab } }
{}

/// A well-formed query is resolved to what it says, and a node above one without schema is refused by no kind.
pub fn queries_that_are_resolved()
    ensures well_formed { resolved [] (written_filter (less a b) (written_select (a ∷ b ∷ []) (scan schema_ab))) ≡ keep (less a b) (select (a ∷ b ∷ []) (scan schema_ab)) }
    ensures above { resolved [] (written_filter a (written_select (c ∷ []) (scan schema_ab)))
        ≡ node (record { kind = RefusedKind []; recorded = None }) (more (select (c ∷ []) (scan schema_ab)) no_more) }
    ensures schemas { Gives (λ query. schema_of [] (resolved [] query)) (
        (written_select (sum b a ∷ []) (scan schema_ab), Some ((codes "b", int32) ∷ [])) ∷
        (written_filter a (written_select (c ∷ []) (scan schema_ab)), None) ∷ []) }
    ensures broken { let query = resolved [] (written_filter c (written_select (c ∷ []) (scan schema_ab))) in
        Breaks [] ColumnNotFound (0 ∷ []) query × ¬ (Breaks [] ColumnNotFound [] query) × ¬ (IsWellFormed [] query) }
    ensures meaning { source_meaning [] (table ∷ []) (resolved [] (written_select [] (written_select (c ∷ []) (scan schema_ab)))) ≡ Stuck }
    ensures scans { scans_in (resolved [] (written_filter a (written_select (c ∷ []) (scan schema_ab)))) ≡ record { table = 0; schema = schema_ab } ∷ [] }
{}

/// A query's expressions are expanded over the schema of its input, which may come of an expansion itself. What isn't
/// expanded breaks rules at its node.
pub fn queries_with_markers()
    ensures schemas { Gives (λ query. schema_of [] (resolved [] query)) (
        (source_select (plus (columns_of_type int8) (written one) ∷ []) (scan schema_abc), Some ((codes "a", int8) ∷ (codes "b", int8) ∷ [])) ∷
        (source_select (prefix "p_" (written (sum a b)) ∷ []) (scan schema_abc), Some ((codes "p_a", int8) ∷ [])) ∷
        (source_select (nth (neg_ℤ (pos 1)) ∷ []) (source_select (but_named "c" all ∷ []) (scan schema_abc)), Some ((codes "b", int8) ∷ [])) ∷
        (source_select (columns_of_type DateType ∷ []) (scan schema_abc), Some []) ∷
        (source_select (nth (pos 3) ∷ []) (scan schema_abc), None) ∷
        (source_select (all ∷ all ∷ []) (scan schema_abc), None) ∷ []) }
    ensures broken { let query = resolved [] (source_select (all ∷ nth (pos 3) ∷ plus all (nth (pos 0)) ∷ []) (scan schema_abc)) in
        Breaks [] ColumnNotFound [] query × Breaks [] InvalidOperation [] query × ¬ (Breaks [] Duplicate [] query) × ¬ (IsWellFormed [] query) }
    ensures repeated { Breaks [] Duplicate [] (resolved [] (source_select (all ∷ all ∷ []) (scan schema_abc))) }
    ensures predicate { let query = resolved [] (node (filter_op all) (more (scan schema_abc) no_more)) in
        Breaks [] ComputeError [] query × ¬ (Breaks [] InvalidOperation [] query) × ¬ (IsWellFormed [] query) }
{}

/// A refused node breaks the kinds by which it is refused, whatever its inputs. It has no schema, and gives nothing.
pub fn refused_nodes()
    ensures kinds { let op : PlanOp (Named Expression) = record { kind = RefusedKind (ColumnNotFound ∷ Duplicate ∷ []); recorded = None } in
        Gives (broken_kinds [] op) (
        ([], ColumnNotFound ∷ Duplicate ∷ []) ∷ (None ∷ [], ColumnNotFound ∷ Duplicate ∷ []) ∷ (Some schema_ab ∷ [], ColumnNotFound ∷ Duplicate ∷ []) ∷ []) }
    ensures schema { let op : PlanOp (Named Expression) = record { kind = RefusedKind []; recorded = Some schema_ab } in
        Gives (plan_rule [] op) (([], None) ∷ (Some schema_ab ∷ [], None) ∷ []) }
    ensures frame { let op : PlanOp (Named Expression) = record { kind = RefusedKind []; recorded = None } in
        Gives (plan_kernel [] (by_meaning []) op) (([], Stuck) ∷ (Done empty_frame ∷ [], Stuck) ∷ []) }
{}
