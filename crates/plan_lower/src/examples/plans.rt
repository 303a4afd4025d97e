//! Plans that are refused, and plans with what lowering makes of them.

ghost use Rattle.std.specs.Prelude.{◌≡◌, List, [], ◌∷◌, map, codes, Some, None, Ok, Err};
ghost use Rattle.plan_types.specs.Types.{Truth};
ghost use Rattle.plan_types.specs.Errors.{no_memory};
ghost use Rattle.plan_types.specs.declared.error.ErrorKind.TheVariants.{ColumnNotFound, Duplicate};
ghost use Rattle.plan_dsl.specs.Trees.{node, no_more};
ghost use Rattle.plan_dsl.specs.Plans.{HStackWork, SelectWork, empty_table, scan_op, hstack_op, filter_op};
ghost use Rattle.plan_dsl.specs.Samples.{all};
ghost use Rattle.plan_dsl.specs.Sources.{written};
ghost use Rattle.plan_arena.specs.declared.aexpr.AExpr.TheVariants.{Column};
ghost use Rattle.plan_arena.specs.declared.ir.IR.{IR};
ghost use Rattle.plan_arena.specs.declared.plan.IRPlan.{IRPlan};
ghost use Rattle.plan_arena.specs.Layers.{layer};
ghost use Rattle.plan_lower.specs.Lowering.{IsBuilt, StandsFor, IsPlanRefusal, Answers, IsTyped, HasLoweredTop, HasBoundedTop, IsSplit, IsSound, GivesSameFrame, IsLoweringOf, resolved_filter, AreFilters, IsFilterAt, IsEmptyTableAt, recorded_in, recorded_at, columns_at, Records};
ghost use Rattle.plan_lower.specs.Works.{IsWorkAt};
ghost use Rattle.plan_infer.specs.Samples.{int8, int32, one_column, two_columns, a, c, sum, a_items, refused};
ghost use Rattle.plan_lower.specs.Samples.{truths, keep, keep_items, node_named, scan_of, select_of, select_over, filter_over, query, lowered_query, scan_layer, select_layer, ForPlans, ForScan, ForSum};

/// A plan is refused by a kind of rule that is broken at a place, or as out of memory.
pub fn refusals_of_plans()
    ensures memory { IsPlanRefusal [] (scan_of (one_column int8)) no_memory }
    ensures below { IsPlanRefusal [] (filter_over (select_of (c ∷ []) (scan_of (one_column int8))) c) (refused ColumnNotFound (0 ∷ [])) }
    ensures other_place { ¬ (IsPlanRefusal [] (filter_over (select_of (c ∷ []) (scan_of (one_column int8))) c) (refused ColumnNotFound [])) }
    ensures other_kind { ¬ (IsPlanRefusal [] (filter_over (scan_of (one_column int8)) c) (refused Duplicate [])) }
    ensures well_formed { ¬ (IsPlanRefusal [] (scan_of (one_column int8)) (refused Duplicate [])) }
    ensures answer { (lowering : IRPlan) → Answers [] (scan_of (one_column int8)) (Ok lowering) }
    ensures no_answer { (lowering : IRPlan) → ¬ (Answers [] (filter_over (scan_of (one_column int8)) c) (Ok lowering)) }
    ensures refused { Answers [] (scan_of (one_column int8)) (Err no_memory) }
    ensures not_refused { ¬ (Answers [] (scan_of (one_column int8)) (Err (refused Duplicate []))) }
{}

/// A query of a sum with its two arenas, for which all holds that lowering promises. A query of a scan alone needs no cast.
pub fn lowering_of_a_sum()
    ensures typed { ForSum (λ lowering. IsTyped [] query lowering) }
    ensures split { ForSum IsSplit }
    ensures sound { ForSum (λ lowering. IsSound [] query lowering) }
    ensures same_frame { ForSum (λ lowering. GivesSameFrame [] query lowering) }
    ensures lowered { ForSum (HasLoweredTop []) }
    ensures bounds { ForSum (HasBoundedTop [] query) }
    ensures of_a_scan { ForSum (λ lowering. ¬ (HasBoundedTop [] (scan_of two_columns) lowering)) }
    ensures all { ForSum (λ lowering. IsLoweringOf [] query lowering lowered_query) }
{}

/// A filter of a query: by an expression under its own name.
pub fn trees_of_queries()
    ensures filter { resolved_filter a (scan_of (one_column Truth)) ≡ filter_over (scan_of (one_column Truth)) a }
{}

/// What isn't a lowering of a query: one of another schema, one that gives another frame, one that is stuck.
pub fn no_lowerings()
    ensures other_schema { ForScan (Some 0) two_columns (λ lowering. ¬ (IsTyped [] (select_of (a ∷ []) (scan_of two_columns)) lowering)) }
    ensures other_frame { ForScan None two_columns (λ lowering.
        ¬ (GivesSameFrame [] (select_of (a ∷ []) (node (scan_op None two_columns) no_more)) lowering)) }
    ensures stuck { ForScan (Some 0) [] (λ lowering. ¬ (IsSound [] empty_table lowering)) }
{}

/// Nodes that stand for plans.
pub fn nodes_that_stand_for_plans()
    ensures built { IsBuilt [] query lowered_query (one_column int32) }
    ensures not_built { ¬ (IsBuilt [] query (select_over (scan_of two_columns) sum (one_column int32)) (one_column int32)) }
    ensures filter { ForPlans (scan_layer (Some 0) truths ∷ layer (filter_op (node_named (codes "keep") 0)) (0 ∷ []) ∷ []) (λ plans.
        IsFilterAt [] truths keep_items plans 1 0 all) }
    ensures filters { ForPlans (scan_layer (Some 0) truths ∷ layer (filter_op (node_named (codes "keep") 0)) (0 ∷ []) ∷ layer (filter_op (node_named (codes "keep") 1)) (1 ∷ []) ∷ []) (λ plans.
        AreFilters plans 2 (node_named (codes "keep") 1 ∷ node_named (codes "keep") 0 ∷ []) 0) }
    ensures select { ForPlans (scan_layer (Some 0) (one_column Truth) ∷ select_layer 0 (one_column Truth) ∷ []) (λ plans.
        IsWorkAt [] (one_column Truth) a_items plans 1 0 SelectWork ((all ∷ []) ∷ []) (one_column Truth)) }
    ensures hstack { ForPlans (scan_layer (Some 0) (one_column Truth) ∷ layer (hstack_op (node_named (codes "a") 0 ∷ []) (Some (one_column Truth))) (0 ∷ []) ∷ []) (λ plans.
        IsWorkAt [] (one_column Truth) a_items plans 1 0 HStackWork ((written a ∷ []) ∷ []) (one_column Truth)) }
    ensures scan { ForPlans (scan_layer None [] ∷ []) (λ plans. StandsFor [] [] plans 0 [] empty_table) }
    ensures other_schema { ForPlans (scan_layer None [] ∷ []) (λ plans. ¬ (StandsFor [] [] plans 0 (one_column Truth) empty_table)) }
    ensures empty_table { ForPlans (scan_layer None [] ∷ []) (λ plans. IsEmptyTableAt plans 0) }
    ensures no_empty_table { ForPlans (scan_layer (Some 0) [] ∷ []) (λ plans. ¬ (IsEmptyTableAt plans 0)) }
{}

/// A scan and a select record a schema, and a filter and no node at all none.
pub fn recorded_schemas()
    ensures of_items { map recorded_in (None ∷ Some (scan_layer None truths) ∷ Some (layer (filter_op (node_named (codes "keep") 0)) (0 ∷ [])) ∷ []) ≡ None ∷ Some truths ∷ None ∷ [] }
    ensures recorded { ForPlans (scan_layer (Some 0) truths ∷ layer (filter_op (node_named (codes "keep") 0)) (0 ∷ []) ∷ select_layer 0 (one_column Truth) ∷ []) (λ plans.
        map (recorded_at plans) (0 ∷ 1 ∷ 2 ∷ 3 ∷ []) ≡ Some truths ∷ None ∷ Some (one_column Truth) ∷ None ∷ []) }
    ensures columns { ForPlans (scan_layer (Some 0) truths ∷ layer (filter_op (node_named (codes "keep") 0)) (0 ∷ []) ∷ []) (λ plans.
        map (columns_at plans) (0 ∷ 1 ∷ []) ≡ truths ∷ [] ∷ []) }
    ensures of_no_columns { ForPlans (scan_layer None [] ∷ []) (λ plans. Records plans 0) }
    ensures none { ForPlans (layer (filter_op (node_named (codes "keep") 0)) (0 ∷ []) ∷ []) (λ plans. ¬ (Records plans 0)) }
{}

/// What no node stands for, whatever the arenas hold.
pub fn no_nodes_for_plans()
    ensures not_strict { (lowering : IRPlan) → ¬ (IsLoweringOf [] query lowering (select_over (scan_of two_columns) sum (one_column int32))) }
    ensures ill_formed { (plans : List IR) → ¬ (StandsFor [] [] plans 0 (one_column Truth) (select_of (c ∷ []) (scan_of (one_column Truth)))) }
    ensures filter_by_a_number { (plans : List IR) → ¬ (IsFilterAt [] (one_column int8) a_items plans 1 0 all) }
    ensures select_of_no_column { (plans : List IR) → ¬ (IsWorkAt [] (one_column Truth) (Column (codes "c") ∷ []) plans 1 0 SelectWork ((written c ∷ []) ∷ []) (one_column Truth)) }
{}
