//! Keys and aggregates of group-bys, with what lowering makes of them.

ghost use Rattle.std.specs.Prelude.{◌≡◌, [], ◌∷◌, pos, codes, Some};
ghost use Rattle.plan_types.specs.Types.{ListType};
ghost use Rattle.plan_types.specs.Errors.{no_memory, at_top};
ghost use Rattle.plan_types.specs.declared.error.ErrorKind.TheVariants.{ColumnNotFound, ComputeError, Duplicate};
ghost use Rattle.plan_dsl.specs.Plans.{GroupByWork, group_by_op};
ghost use Rattle.plan_dsl.specs.Samples.{all, nth};
ghost use Rattle.plan_dsl.specs.Sources.{written};
ghost use Rattle.plan_arena.specs.Layers.{layer};
ghost use Rattle.plan_lower.specs.Groups.{GroupsTo, HasExpandedGroups, HasGroups, IsAggregateRefusal, IsGroupRefusal, IsUngrouped, group_column, group_columns_of};
ghost use Rattle.plan_lower.specs.Works.{IsWorkAt};
ghost use Rattle.plan_infer.specs.Samples.{int8, int32, one_column, two_columns, a, b, columns_and};
ghost use Rattle.plan_lower.specs.Samples.{ForPlans, alone, as_it_is, grouped_columns, node_named, scan_layer};

/// Keys have their own columns, and aggregates lists where they may have another length than one.
pub fn columns_of_groups()
    ensures many { group_column (as_it_is a int8) ≡ (codes "a", ListType int8) }
    ensures one { group_column (alone a int8) ≡ (codes "a", int8) }
    ensures columns { group_columns_of (as_it_is a int8 ∷ []) (as_it_is b int32 ∷ []) ≡ grouped_columns }
    ensures of_nothing { group_columns_of [] [] ≡ [] }
{}

/// Keys and aggregates stand for expressions under distinct names, and there is a key.
pub fn lowered_group_bys()
    ensures groups { GroupsTo [] two_columns (a ∷ []) (b ∷ []) (as_it_is a int8 ∷ []) (as_it_is b int32 ∷ []) }
    ensures without_keys { ¬ (GroupsTo [] two_columns [] (b ∷ []) [] (as_it_is b int32 ∷ [])) }
    ensures repeated { ¬ (GroupsTo [] two_columns (a ∷ []) (a ∷ []) (as_it_is a int8 ∷ []) (as_it_is a int8 ∷ [])) }
    ensures nodes { HasGroups [] two_columns (columns_and []) (a ∷ []) (b ∷ []) (node_named (codes "a") 0 ∷ []) (node_named (codes "b") 1 ∷ []) grouped_columns }
{}

/// A key that is a plain column is none of those for which a marker of the aggregates stands.
pub fn expanded_group_bys()
    ensures without_the_key { HasExpandedGroups [] two_columns (columns_and []) (written a ∷ []) (all ∷ []) (node_named (codes "a") 0 ∷ []) (node_named (codes "b") 1 ∷ []) grouped_columns }
    ensures no_key { ¬ (HasExpandedGroups [] two_columns (columns_and []) (nth (pos 2) ∷ []) [] [] [] []) }
    ensures at_a_node { ForPlans (scan_layer (Some 0) two_columns ∷ layer (group_by_op (node_named (codes "a") 0 ∷ []) (node_named (codes "b") 1 ∷ []) (Some grouped_columns)) (0 ∷ []) ∷ []) (λ plans.
        IsWorkAt [] two_columns (columns_and []) plans 1 0 GroupByWork ((written a ∷ []) ∷ (all ∷ []) ∷ []) grouped_columns) }
{}

/// Why keys and aggregates can't be lowered: there is no key, a name comes twice, or some can't be expanded.
pub fn refusals_of_groups()
    ensures memory { IsGroupRefusal [] [] [] [] no_memory }
    ensures without_keys { IsGroupRefusal [] two_columns [] (b ∷ []) (at_top ComputeError) }
    ensures key_twice { IsGroupRefusal [] two_columns (a ∷ a ∷ []) [] (at_top Duplicate) }
    ensures aggregate_named_as_a_key { IsGroupRefusal [] two_columns (a ∷ []) (a ∷ []) (at_top Duplicate) }
    ensures of_no_aggregates { ¬ (IsAggregateRefusal [] [] [] [] (at_top Duplicate)) }
    ensures place_beyond_the_columns { IsUngrouped [] (one_column int8) (nth (pos 1) ∷ []) [] (at_top ColumnNotFound) }
    ensures nothing_left_for_aggregates { IsUngrouped [] (one_column int8) (written a ∷ []) (nth (pos 1) ∷ []) (at_top ColumnNotFound) }
    ensures no_keys_written { IsUngrouped [] (one_column int8) [] (all ∷ []) (at_top ComputeError) }
{}
