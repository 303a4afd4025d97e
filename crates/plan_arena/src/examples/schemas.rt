//! Worked examples on schemas that go into nodes of a lowered plan, and on schemas that are kept by node.

ghost use Rattle.std.specs.Prelude.{◌≡◌, ◌≢◌, [], ◌∷◌, List, Some, None};
ghost use Rattle.std.specs.BTreeMap.{BTreeMap};
ghost use Rattle.plan_types.specs.Schemas.{columns};
ghost use Rattle.plan_types.specs.declared.error.ErrorKind.TheVariants.{ColumnNotFound};
ghost use Rattle.plan_types.specs.declared.schema.Schema.{Schema};
ghost use Rattle.plan_dsl.specs.Trees.{no_more, more};
ghost use Rattle.plan_dsl.specs.Ops.{Expression};
ghost use Rattle.plan_dsl.specs.Plans.{FilterKind, Named, ScanKind, SelectKind, SimpleProjectionKind, empty_table, filter_op, named};
ghost use Rattle.plan_dsl.specs.PlanRules.{schema_of};
ghost use Rattle.plan_dsl.specs.Samples.{Gives, GivesOfTwo, a, b, column, equal, int8, keep, scan, schema_ab, schema_flagged};
ghost use Rattle.plan_arena.specs.declared.arena.Node.{Node};
ghost use Rattle.plan_arena.specs.declared.ir.IR.{IR};
ghost use Rattle.plan_arena.specs.declared.ir.IR.TheVariants.{DataFrameScan, Invalid};
ghost use Rattle.plan_arena.specs.Denotation.{DenotesTree};
ghost use Rattle.plan_arena.specs.Items.{HoldsPlan};
ghost use Rattle.plan_arena.specs.PlanSchemas.{cached_at, scanned, schema_into, DenotesSomePlan, IsRightCache, IsSchemaAt};
ghost use Rattle.plan_arena.specs.RecordedSchemas.{recorded_into, schema_recorded, IsRecordedAt, KeepsRecorded};
ghost use Rattle.plan_arena.specs.Samples.{filtered_scan, lowered_projection, lowered_select, narrowed, node_at, schema_of_one, named_twice};
ghost use Rattle.plan_arena.specs.Unchecked.{unchecked_into, unchecked_kinds, unchecked_schema, GoesInto, HasUncheckedSchema, IsUncheckedAt, KeepsOtherRules, KeepsUnchecked};

/// What goes into a node has the schema of its first input, and what goes into a scan its own.
pub fn schemas_into_nodes()
    ensures scans { Gives (scanned {E = Named Expression}) ((ScanKind (Some 0) schema_ab, Some schema_ab) ∷ (ScanKind None [], Some []) ∷ (SelectKind [], None)
        ∷ (SimpleProjectionKind schema_ab, None) ∷ []) }
    ensures into { GivesOfTwo (schema_into []) ((ScanKind None schema_ab, no_more, Some schema_ab) ∷ (SelectKind [], more (scan schema_ab) no_more, Some schema_ab)
        ∷ (FilterKind (named a), more narrowed no_more, Some (schema_of_one "b" int8)) ∷ (SelectKind [], more empty_table (more (scan schema_ab) no_more), Some [])
        ∷ (SelectKind [], no_more, None) ∷ []) }
{}

/// The schema of a node is the one that it records.
pub fn schemas_of_nodes()
    ensures scan { (schema : Schema) → IsSchemaAt (DataFrameScan (Some 0) schema ∷ []) 0 (columns schema) }
    ensures other { (schema other : Schema) → columns other ≢ columns schema → ¬ (IsSchemaAt (DataFrameScan (Some 0) schema ∷ []) 0 (columns other)) }
    ensures denotes { (schema : Schema) → DenotesSomePlan (DataFrameScan (Some 0) schema ∷ []) 0 }
    ensures no_such_node { ¬ (DenotesSomePlan [] 0) }
    ensures taken_out { ¬ (DenotesSomePlan (Invalid ∷ []) 0) }
{}

/// The schema that is recorded of a plan's frame, at the top or below: also of a filter by a number, which no rule allows.
pub fn schemas_that_are_recorded()
    ensures plans { Gives schema_recorded ((scan schema_ab, Some schema_ab) ∷ (empty_table, Some []) ∷ (narrowed, Some (schema_of_one "b" int8))
        ∷ (lowered_projection (schema_of_one "b" int8) (scan schema_ab), Some (schema_of_one "b" int8))
        ∷ (keep (column "keep") (scan schema_flagged), Some schema_flagged) ∷ (keep a (scan schema_flagged), Some schema_flagged) ∷ (keep a (keep b narrowed), Some (schema_of_one "b" int8)) ∷ []) }
    ensures into { GivesOfTwo recorded_into ((ScanKind None schema_ab, no_more, Some schema_ab) ∷ (SelectKind [], more (keep a narrowed) no_more, Some (schema_of_one "b" int8))
        ∷ (FilterKind (named a), more (scan schema_ab) no_more, Some schema_ab) ∷ (SelectKind [], no_more, None) ∷ []) }
    ensures scan { (schema : Schema) → IsRecordedAt (DataFrameScan (Some 0) schema ∷ []) 0 (columns schema) }
    ensures empty { (plans : List IR) (cache : BTreeMap Node Schema) → cache.entries ≡ [] → KeepsRecorded plans cache }
{}

/// A filter whose predicate is no truth value counts as giving its input's schema. Every other rule is kept, and a schema
/// that is recorded is the one that the node has.
pub fn plans_with_unchecked_predicates()
    ensures schemas { Gives (unchecked_schema []) ((keep a (scan schema_ab), Some schema_ab) ∷ (keep (equal a b) (keep a (scan schema_ab)), Some schema_ab)
        ∷ (keep a (scan named_twice), None) ∷ (keep a (scan []), None) ∷ (keep (equal a b) (keep a (scan [])), None) ∷ (keep (column "keep") (scan schema_flagged), Some schema_flagged) ∷ []) }
    ensures checked { schema_of [] (keep a (scan schema_ab)) ≡ None }
    ensures kinds { GivesOfTwo (unchecked_kinds []) ((filter_op (named a), Some schema_ab ∷ [], []) ∷ (filter_op (named a), Some [] ∷ [], ColumnNotFound ∷ []) ∷ []) }
    ensures into { GivesOfTwo (unchecked_into []) ((ScanKind None schema_ab, no_more, Some schema_ab) ∷ (SelectKind [], more (keep a (scan schema_ab)) no_more, Some schema_ab)
        ∷ (FilterKind (named a), more (keep a (scan [])) no_more, None) ∷ (SelectKind [], no_more, None) ∷ []) }
    ensures keeps { KeepsOtherRules [] (keep (equal a b) (keep a (scan schema_ab))) }
    ensures breaks_another { ¬ (KeepsOtherRules [] (keep a (scan []))) }
    ensures below { ¬ (KeepsOtherRules [] (keep a (scan named_twice))) }
    ensures recorded { KeepsOtherRules [] (lowered_select (schema_of_one "a" int8) (a ∷ []) (keep a (scan schema_ab))) }
    ensures other_record { ¬ (KeepsOtherRules [] (lowered_select schema_ab (a ∷ []) (keep a (scan schema_ab)))) }
{}

/// A filter by a number has the schema of its scan with any arena of expressions, and with one of them denotes a plan of it.
pub fn nodes_with_unchecked_predicates()
    ensures has { (schema : Schema) → columns schema ≡ schema_ab → HasUncheckedSchema [] (filtered_scan schema) 1 schema_ab }
    ensures has_no_other { (schema : Schema) → columns schema ≡ schema_ab → ¬ (HasUncheckedSchema [] (filtered_scan schema) 1 []) }
    ensures without_expressions { (schema : Schema) → ¬ (DenotesTree (HoldsPlan [] (filtered_scan schema)) 1) }
    ensures is { (schema : Schema) → IsUncheckedAt (filtered_scan schema) 1 (columns schema) }
    ensures is_no_other { (schema : Schema) → columns schema ≡ schema_ab → ¬ (IsUncheckedAt (filtered_scan schema) 1 []) }
    ensures into { (schema : Schema) → columns schema ≡ schema_ab → GoesInto [] (filtered_scan schema) (SelectKind []) (1 ∷ []) schema_ab }
    ensures into_scans { GoesInto [] [] (ScanKind None schema_ab) [] schema_ab }
    ensures empty { (plans : List IR) (cache : BTreeMap Node Schema) → cache.entries ≡ [] → KeepsUnchecked plans cache }
    ensures of_the_filter { (schema : Schema) (cache : BTreeMap Node Schema) → cache.entries ≡ (node_at 1, schema) ∷ [] → KeepsUnchecked (filtered_scan schema) cache }
{}

/// A cache is right where what it keeps of a node is its schema.
pub fn caches_that_are_right()
    ensures empty { (plans : List IR) (cache : BTreeMap Node Schema) → cache.entries ≡ [] → IsRightCache plans cache }
    ensures of_a_scan { (schema : Schema) (cache : BTreeMap Node Schema) → cache.entries ≡ (node_at 0, schema) ∷ [] → IsRightCache (DataFrameScan (Some 0) schema ∷ []) cache }
    ensures of_another { (schema other : Schema) (cache : BTreeMap Node Schema) → columns other ≢ columns schema → cache.entries ≡ (node_at 0, other) ∷ [] →
        ¬ (IsRightCache (DataFrameScan (Some 0) schema ∷ []) cache) }
    ensures kept { (schema : Schema) (cache : BTreeMap Node Schema) → cache.entries ≡ (node_at 0, schema) ∷ [] → (cached_at cache (node_at 0) ≡ Some schema) × (cached_at cache (node_at 1) ≡ None) }
{}
