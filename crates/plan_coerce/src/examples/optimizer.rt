//! Coercion by any rule: what is stacked, what is settled, and what becomes of two arenas.

ghost use Rattle.std.specs.Prelude.{◌≡◌, ℕ, List, [], ◌∷◌, pos, codes, true, false, Some, None, Err};
ghost use Rattle.plan_types.specs.Types.{Untyped};
ghost use Rattle.plan_types.specs.Errors.{no_memory, at_top};
ghost use Rattle.plan_types.specs.declared.dtype.DataType.TheVariants as dtype;
ghost use Rattle.plan_types.specs.declared.dtype.UnknownKind.TheVariants.{Int as Number};
ghost use Rattle.plan_types.specs.declared.schema.Schema.{Schema};
ghost use Rattle.plan_types.specs.declared.error.ErrorKind.TheVariants.{ColumnNotFound, InvalidOperation};
ghost use Rattle.plan_dsl.specs.Plans.{named, filter_op, scan_op, FilterKind, ScanKind, SelectKind};
ghost use Rattle.plan_dsl.specs.Registry.{Registry};
ghost use Rattle.plan_dsl.specs.Samples.{scan_of, way};
ghost use Rattle.plan_dsl.specs.Strictness.{is_strict};
ghost use Rattle.plan_dsl.specs.Trees.{node, no_more, more};
ghost use Rattle.plan_dsl.specs.declared.literal.LiteralValue.TheVariants.{Int, Int8, Int32};
ghost use Rattle.plan_dsl.specs.declared.window.WindowType.TheVariants.{GroupsToRows};
ghost use Rattle.plan_dsl.specs.declared.operator.Operator.TheVariants.{Eq, Minus, Plus};
ghost use Rattle.plan_arena.specs.declared.aexpr.AExpr.{AExpr};
ghost use Rattle.plan_arena.specs.declared.aexpr.AExpr.TheVariants.{Column, Literal, Window};
ghost use Rattle.plan_arena.specs.declared.inputs.NodeList.{NodeList};
ghost use Rattle.plan_arena.specs.declared.ir.IR.{IR};
ghost use Rattle.plan_arena.specs.declared.ir.IR.TheVariants.{DataFrameScan};
ghost use Rattle.plan_infer.specs.declared.type_table.TypeTable.{TypeTable};
ghost use Rattle.plan_infer.specs.Samples.{int8, int32, two_columns, a, b, five, binary, cast_to, sum, pair, columns_and, sum_items, a_items, at, refused, ForEntry, ForTable};
ghost use Rattle.plan_coerce.specs.Coercion.{AllReady, AllStrictFrom, AreChanged, IsChanged, IsOver, IsOverOperands, IsReady, IsReadyAt, KeepsStrict, TakesOperands};
ghost use Rattle.plan_coerce.specs.CoercionRule.{ForgetsAt, ForgetsOnceTyped, IsCoercion};
ghost use Rattle.plan_coerce.specs.Optimizer.{AreApart, AreRoots, AreSettled, AreTrees, AreTypedRoots, DenotesSettled, EndsSettled, EndsTyped, HasTyping, IsCoercionRefusal, IsNumberRoot, IsPlanTurn, IsSettled, IsTypedRoot, LeadsToNoNumber, LoopEnds, LoopKeeps, LoopLeaves, ReachesNear, StaysApart, StaysFinite, StaysLikeBeside, StaysLikeTyped, StaysOver, TypesNumber, all_with_inputs, with_inputs};
ghost use Rattle.plan_coerce.specs.Reaching.{AreMadeOnce, HasNewNodes, IsClosed, IsMadeOnce, IsPutOnce, StaysOnce};
ghost use Rattle.plan_coerce.specs.Rules.{ExtendsUnless, IsSettledPlan, HasAcceptedInputs, HasSameWritten, HasUncheckedInputs, IsCongruent, IsLike, IsPlanNode, IsPlanReplacement, IsReplacement, IsSteady, KeepsAsTheyAre, KeepsNone, KeepsNumber, NeverForgets, RefusesPredicate, StandsOver, has_truth, is_settled, until_settled};
ghost use Rattle.plan_arena.specs.Samples.{named_twice};
ghost use Rattle.plan_coerce.specs.Samples.{cast_of, strict_items, strict_sum, equal_items, filter_by, scan_and, filters, ForSchema, IsSumFound, IsSumPlaced, IsSumStopped, IsSumTurn};

/// A node stands before its inputs, the last of them first; of a window the last is what its rows are ordered by. A number
/// that is no node's has none. A list may begin with another.
pub fn nodes_with_inputs()
    ensures sum { with_inputs sum_items 2 ≡ 2 ∷ 1 ∷ 0 ∷ [] }
    ensures column { with_inputs sum_items 0 ≡ 0 ∷ [] }
    ensures no_such_node { with_inputs sum_items 3 ≡ 3 ∷ [] }
    ensures window { (keys : NodeList) → keys.items.items ≡ at 1 ∷ [] →
        with_inputs (columns_and (Column (codes "c") ∷ Window (at 0) keys (Some (at 2, way true false)) GroupsToRows ∷ [])) 3 ≡ 3 ∷ 2 ∷ 1 ∷ 0 ∷ [] }
    ensures several { all_with_inputs sum_items (0 ∷ 2 ∷ 0 ∷ []) ≡ 0 ∷ 2 ∷ 1 ∷ 0 ∷ 0 ∷ [] }
    ensures none { all_with_inputs sum_items [] ≡ [] }
{}

/// An expression is settled where each of its nodes is, also those below one that is.
pub fn settled_expressions()
    ensures strict { IsSettled (is_settled [] two_columns) strict_sum }
    ensures without_a_cast { ¬ (IsSettled (is_settled [] two_columns) sum) }
    ensures below { ¬ (IsSettled (is_settled [] two_columns) (cast_to int8 sum)) }
    ensures by_another_rule { IsSettled (λ t. true) sum }
    ensures number { ¬ (IsSettled (is_settled [] []) five) }
    ensures each { AreSettled (is_settled [] two_columns) (more a (more strict_sum no_more)) }
    ensures not_each { ¬ (AreSettled (is_settled [] two_columns) (more a (more sum no_more))) }
    ensures none { AreSettled (λ t. false) no_more }
    ensures node { DenotesSettled (is_settled [] two_columns) strict_items 2 }
    ensures unsettled_node { ¬ (DenotesSettled (is_settled [] two_columns) sum_items 2) }
    ensures settled_input { DenotesSettled (is_settled [] two_columns) sum_items 0 }
    ensures no_such_node { ¬ (DenotesSettled (λ t. true) sum_items 3) }
{}

/// A root is typed. A number without a type is none, unless the rule settles what stands over such numbers, though it has a
/// typing.
pub fn roots_that_are_typed()
    ensures sum { IsTypedRoot (is_settled [] two_columns) [] two_columns sum_items 2 }
    ensures number { ¬ (IsTypedRoot (is_settled [] []) [] [] (Literal (Int (pos 5)) ∷ []) 0) }
    ensures number_of_another_rule { IsTypedRoot (λ t. true) [] [] (Literal (Int (pos 5)) ∷ []) 0 }
    ensures no_such_column { ¬ (IsTypedRoot (λ t. true) [] [] a_items 0) }
    ensures no_such_node { ¬ (IsTypedRoot (λ t. true) [] two_columns sum_items 3) }
    ensures all { AreTypedRoots (is_settled [] two_columns) [] two_columns sum_items (2 ∷ 0 ∷ []) }
    ensures not_all { ¬ (AreTypedRoots (is_settled [] two_columns) [] two_columns sum_items (2 ∷ 3 ∷ [])) }
    ensures number_has_a_typing { HasTyping [] [] (Literal (Int (pos 5)) ∷ []) 0 }
    ensures column_has_none { ¬ (HasTyping [] [] a_items 0) }
{}

/// A root that is a number without a type may stand where no other root leads to it. It ends as one of the type that it has
/// alone, and what doesn't lead to such a root stays.
pub fn roots_that_are_numbers()
    ensures number { IsNumberRoot [] [] (Literal (Int (pos 5)) ∷ []) 0 }
    ensures column { ¬ (IsNumberRoot [] two_columns sum_items 0) }
    ensures no_such_column { ¬ (IsNumberRoot [] [] a_items 0) }
    ensures alone { AreRoots (is_settled [] []) [] [] (Literal (Int (pos 5)) ∷ []) (0 ∷ []) }
    ensures twice { ¬ (AreRoots (is_settled [] []) [] [] (Literal (Int (pos 5)) ∷ []) (0 ∷ 0 ∷ [])) }
    ensures typed { AreRoots (is_settled [] two_columns) [] two_columns sum_items (2 ∷ []) }
    ensures not_typed { ¬ (AreRoots (is_settled [] []) [] [] a_items (0 ∷ [])) }
    ensures ends_typed { EndsTyped (is_settled [] []) (HasSameWritten [] []) [] [] (Literal (Int32 (pos 5)) ∷ []) 0 five }
    ensures other_type { ¬ (EndsTyped (is_settled [] []) (HasSameWritten [] []) [] [] (Literal (Int8 (pos 5)) ∷ []) 0 five) }
    ensures ends_settled { EndsSettled (is_settled [] []) (HasSameWritten [] []) [] [] (Literal (Int (pos 5)) ∷ []) (Literal (Int32 (pos 5)) ∷ []) 0 }
    ensures ends_with_other_type { ¬ (EndsSettled (is_settled [] []) (HasSameWritten [] []) [] [] (Literal (Int (pos 5)) ∷ []) (Literal (Int8 (pos 5)) ∷ []) 0) }
    ensures typed_alone { TypesNumber (is_settled [] []) (HasSameWritten [] []) [] [] (Literal (Int (pos 5)) ∷ []) (Literal (Int32 (pos 5)) ∷ []) (0 ∷ []) }
    ensures left_alone { ¬ (TypesNumber (is_settled [] []) (HasSameWritten [] []) [] [] (Literal (Int (pos 5)) ∷ []) (Literal (Int (pos 5)) ∷ []) (0 ∷ [])) }
    ensures beside { StaysLikeBeside (HasSameWritten [] []) [] [] (Literal (Int (pos 5)) ∷ []) (Literal (Int32 (pos 5)) ∷ []) (0 ∷ []) }
    ensures no_root { ¬ (StaysLikeBeside (HasSameWritten [] []) [] [] (Literal (Int (pos 5)) ∷ []) (Literal (Int32 (pos 5)) ∷ []) []) }
    ensures without_a_type { ¬ (EndsTyped (is_settled [] []) (HasSameWritten [] []) [] [] (Literal (Int (pos 5)) ∷ []) 0 five) }
{}

/// What a node denotes that is typed stays, whatever else is stacked: a column that isn't there may become anything. A number
/// without a type may get one where it is a root, and the rule calls no node over such a number settled.
pub fn nodes_beside_other_roots()
    ensures not_typed { StaysLikeTyped (is_settled [] []) (HasSameWritten [] []) (Some 1) [] [] a_items (Literal (Int32 (pos 5)) ∷ []) (0 ∷ []) }
    ensures typed { ¬ (StaysLikeTyped (is_settled [] two_columns) (HasSameWritten [] two_columns) (Some 1) [] two_columns a_items (Literal (Int32 (pos 5)) ∷ []) []) }
    ensures number { StaysLikeTyped (is_settled [] []) (HasSameWritten [] []) (Some 1) [] [] (Literal (Int (pos 5)) ∷ []) (Literal (Int32 (pos 5)) ∷ []) (0 ∷ []) }
    ensures number_of_another_rule { ¬ (StaysLikeTyped (λ t. true) (HasSameWritten [] []) (Some 1) [] [] (Literal (Int (pos 5)) ∷ []) (Literal (Int32 (pos 5)) ∷ []) (0 ∷ [])) }
    ensures leads { ¬ (LeadsToNoNumber (is_settled [] []) (Some 1) [] [] (Literal (Int (pos 5)) ∷ []) (0 ∷ []) 0) }
    ensures without_turns { ¬ (LeadsToNoNumber (is_settled [] []) None [] [] (Literal (Int (pos 5)) ∷ []) (0 ∷ []) 1) }
    ensures no_root { LeadsToNoNumber (is_settled [] []) None [] [] (Literal (Int (pos 5)) ∷ []) [] 0 }
{}

/// Coercion is refused as an expression's typing is, or as out of memory, and over typed roots for that alone, or
/// over numbers that stand apart.
pub fn refusals_of_coercion()
    ensures no_such_column { IsCoercionRefusal (is_settled [] []) (Some 1) [] [] a_items a_items (0 ∷ []) (at_top ColumnNotFound) }
    ensures memory { IsCoercionRefusal (is_settled [] two_columns) (Some 1) [] two_columns sum_items sum_items (2 ∷ []) no_memory }
    ensures other_kind { ¬ (IsCoercionRefusal (is_settled [] []) (Some 1) [] [] a_items a_items (0 ∷ []) (at_top InvalidOperation)) }
    ensures over_a_number { ¬ (IsCoercionRefusal (is_settled [] []) (Some 1) [] [] (Literal (Int (pos 5)) ∷ []) (Literal (Int (pos 5)) ∷ []) (0 ∷ []) (at_top ColumnNotFound)) }
    ensures at_a_place { ¬ (IsCoercionRefusal (is_settled [] []) (Some 1) [] [] a_items a_items (0 ∷ []) (refused ColumnNotFound (0 ∷ []))) }
    ensures over_typed_roots { ¬ (IsCoercionRefusal (is_settled [] two_columns) (Some 1) [] two_columns sum_items sum_items (2 ∷ []) (at_top ColumnNotFound)) }
{}

/// Trees stay finite where an arena grows, and not where a node becomes its own input.
pub fn arenas_that_stay_finite()
    ensures trees { AreTrees sum_items (2 ∷ 0 ∷ []) }
    ensures no_such_node { ¬ (AreTrees sum_items (2 ∷ 3 ∷ [])) }
    ensures circle { ¬ (AreTrees (cast_of 0 dtype.Int32 ∷ []) (0 ∷ [])) }
    ensures grown { StaysFinite a_items sum_items }
    ensures becomes_a_circle { ¬ (StaysFinite a_items (cast_of 0 dtype.Int32 ∷ [])) }
    ensures taken_away { ¬ (StaysFinite a_items []) }
{}

/// What the roots don't reach stays, and what they reach afterwards they reached before, or it was added.
pub fn arenas_that_change_near_roots()
    ensures cast { StaysApart sum_items strict_items (2 ∷ []) }
    ensures root { StaysApart a_items (Column (codes "b") ∷ []) (0 ∷ []) }
    ensures no_root { ¬ (StaysApart a_items (Column (codes "b") ∷ []) []) }
    ensures new_cast { ReachesNear sum_items strict_items (2 ∷ []) }
    ensures closed { IsClosed sum_items (2 ∷ []) strict_items }
    ensures not_closed { ¬ (IsClosed (columns_and []) (0 ∷ []) (cast_of 1 dtype.Int32 ∷ Column (codes "b") ∷ [])) }
    ensures other_column { ¬ (ReachesNear (columns_and []) (cast_of 1 dtype.Int32 ∷ Column (codes "b") ∷ []) (0 ∷ [])) }
{}

/// Roots are apart where no node is reached twice, from one of them or from two.
pub fn roots_that_are_apart()
    ensures sum { AreApart sum_items (2 ∷ []) }
    ensures two_columns { AreApart sum_items (1 ∷ 0 ∷ []) }
    ensures none { AreApart [] [] }
    ensures one_operand_twice { ¬ (AreApart (columns_and (pair 0 Plus 0 ∷ [])) (2 ∷ [])) }
    ensures one_root_twice { ¬ (AreApart sum_items (0 ∷ 0 ∷ [])) }
    ensures root_and_its_input { ¬ (AreApart sum_items (2 ∷ 1 ∷ [])) }
{}

/// The sum over a cast is put in place of the sum, which has its name, type and meaning. The sum itself isn't, nor one the
/// other way round.
pub fn sums_that_are_put_in_place()
    ensures replacement { IsReplacement (IsCoercion [] two_columns) (until_settled [] two_columns) [] two_columns sum_items strict_items 2 sum }
    ensures other_name { ¬ (IsReplacement (IsCoercion [] two_columns) (until_settled [] two_columns) [] two_columns sum_items (columns_and (pair 1 Plus 3 ∷ cast_of 0 dtype.Int32 ∷ [])) 2 sum) }
    ensures placed { IsSumPlaced sum_items strict_items 2 }
    ensures unchanged { ¬ (IsSumPlaced sum_items sum_items 2) }
    ensures found { IsSumFound strict_items strict_items 2 }
    ensures found_with_more { ¬ (IsSumFound a_items sum_items 0) }
    ensures not_found { ¬ (IsSumFound sum_items sum_items 2) }
{}

/// A node that was replaced is next again, after two steps; one that was found settled is followed by its inputs.
pub fn turns_at_sums()
    ensures places { IsSumTurn sum_items strict_items 2 (7 ∷ []) (7 ∷ 2 ∷ []) 5 7 }
    ensures finds { IsSumTurn strict_items strict_items 2 (7 ∷ []) (7 ∷ 1 ∷ 3 ∷ []) 5 6 }
    ensures passed_over { ¬ (IsSumTurn sum_items sum_items 2 [] (1 ∷ 0 ∷ []) 5 6) }
    ensures input_left_out { ¬ (IsSumTurn strict_items strict_items 2 [] (3 ∷ []) 5 6) }
    ensures stopped_behind_a_cast { IsSumStopped sum_items (columns_and (pair 0 Plus 1 ∷ cast_of 0 dtype.Int32 ∷ [])) 2 }
    ensures stopped_in_place { IsSumStopped sum_items strict_items 2 }
    ensures other_item { ¬ (IsSumStopped a_items (Column (codes "b") ∷ []) 0) }
{}

/// Nodes that are made for operands lead to new nodes and to those of the operands, to none twice.
pub fn nodes_that_are_made_once()
    ensures cast { IsMadeOnce a_items (Column (codes "a") ∷ cast_of 0 dtype.Int32 ∷ []) 0 1 }
    ensures itself { IsMadeOnce sum_items sum_items 2 2 }
    ensures other_operand { ¬ (IsMadeOnce (columns_and []) (columns_and []) 0 1) }
    ensures twice { ¬ (IsMadeOnce a_items (Column (codes "a") ∷ pair 0 Plus 0 ∷ []) 0 1) }
    ensures operands { AreMadeOnce (columns_and []) (columns_and (cast_of 0 dtype.Int32 ∷ [])) (0 ∷ 1 ∷ []) (2 ∷ 1 ∷ []) }
    ensures one_for_both { ¬ (AreMadeOnce (columns_and []) (columns_and []) (0 ∷ 1 ∷ []) (0 ∷ 0 ∷ [])) }
    ensures literal { HasNewNodes a_items (Column (codes "a") ∷ Literal (Int (pos 5)) ∷ []) 1 }
    ensures over_an_old_node { ¬ (HasNewNodes a_items (Column (codes "a") ∷ cast_of 0 dtype.Int32 ∷ []) 1) }
    ensures put { IsPutOnce a_items (Column (codes "a") ∷ cast_of 0 dtype.Int32 ∷ []) 0 1 }
    ensures put_over_it_twice { ¬ (IsPutOnce a_items (Column (codes "a") ∷ pair 0 Plus 0 ∷ []) 0 1) }
    ensures no_new_node { ¬ (IsPutOnce a_items a_items 0 0) }
    ensures stays { StaysOnce sum_items strict_items 2 }
    ensures no_longer { ¬ (StaysOnce sum_items (columns_and (pair 0 Plus 0 ∷ [])) 2) }
{}

/// The loop over the sum leaves the one with a cast, settled, after six steps, and after seven where an operand is a root too.
/// It leaves no sum without the cast, and takes at most eighteen steps for each item.
pub fn what_a_loop_leaves()
    ensures one_root { ForTable 2 (None ∷ []) (λ table. LoopLeaves (is_settled [] two_columns) (IsCoercion [] two_columns) (Some 8) [] two_columns sum_items strict_items (2 ∷ []) table 0 6) }
    ensures two_roots { ForTable 2 (None ∷ []) (λ table. LoopLeaves (is_settled [] two_columns) (IsCoercion [] two_columns) (Some 8) [] two_columns sum_items strict_items (2 ∷ 0 ∷ []) table 0 7) }
    ensures too_many_steps { (table : TypeTable) → ¬ (LoopLeaves (is_settled [] two_columns) (IsCoercion [] two_columns) (Some 8) [] two_columns sum_items strict_items (2 ∷ []) table 0 73) }
    ensures one_ends { LoopEnds (is_settled [] two_columns) (IsCoercion [] two_columns) (Some 8) [] two_columns sum_items strict_items (2 ∷ []) }
    ensures two_end { LoopEnds (is_settled [] two_columns) (IsCoercion [] two_columns) (Some 8) [] two_columns sum_items strict_items (2 ∷ 0 ∷ []) }
    ensures unsettled { ¬ (LoopEnds (is_settled [] two_columns) (IsCoercion [] two_columns) (Some 8) [] two_columns sum_items sum_items (2 ∷ [])) }
    ensures kept { (table : TypeTable) → LoopKeeps (λ items table n. ⊥) (is_settled [] two_columns) [] two_columns sum_items (2 ∷ 0 ∷ []) table table }
    ensures lost { ForEntry 2 dtype.Int32 true [] (λ own. ForTable 2 (Some own ∷ []) (λ table. ForTable 2 (None ∷ []) (λ none. ¬ (LoopKeeps (λ items table n. ⊥) (is_settled [] two_columns) [] two_columns sum_items (2 ∷ []) table none)))) }
    ensures forgotten { (table none : TypeTable) → LoopKeeps (λ items table n. Unit) (is_settled [] two_columns) [] two_columns sum_items (2 ∷ []) table none }
{}

/// What is kept of types stays, or all of it is forgotten. The rule of coercion forgets it at a cast of which it is kept that
/// it takes its operand to a type that is listed.
pub fn types_that_are_forgotten()
    ensures as_they_are { ForEntry 2 dtype.Int32 true [] (λ own. ForTable 2 (Some own ∷ []) (λ table. KeepsAsTheyAre table 2)) }
    ensures listed { ForEntry 2 dtype.Int32 true (dtype.Int8 ∷ []) (λ own. ForTable 2 (Some own ∷ []) (λ table. ¬ (KeepsAsTheyAre table 2))) }
    ensures nothing { ForTable 2 (None ∷ []) (λ table. KeepsNone table) }
    ensures something { ForEntry 2 dtype.Int32 true [] (λ own. ForTable 2 (Some own ∷ []) (λ table. ¬ (KeepsNone table))) }
    ensures stays { (table : TypeTable) → ExtendsUnless ⊥ table table }
    ensures forgotten { (table : TypeTable) → ForTable 2 (None ∷ []) (λ none. ExtendsUnless Unit table none) }
    ensures lost { ForEntry 2 dtype.Int32 true [] (λ own. ForTable 2 (Some own ∷ []) (λ table. ForTable 2 (None ∷ []) (λ none. ¬ (ExtendsUnless ⊥ table none)))) }
    ensures cast { ForEntry 2 dtype.Int32 true (dtype.Int8 ∷ []) (λ own. ForTable 2 (Some own ∷ []) (λ table. ForgetsAt (columns_and (cast_of 0 dtype.Int32 ∷ [])) table 2)) }
    ensures once_typed { ForEntry 2 dtype.Int32 true (dtype.Int8 ∷ []) (λ own. ForTable 2 (Some own ∷ []) (λ table. ForTable 2 (None ∷ []) (λ none. ForgetsOnceTyped (columns_and (cast_of 0 dtype.Int32 ∷ [])) none 2))) }
    ensures strict_cast { ForEntry 2 dtype.Int32 true [] (λ own. ForTable 2 (Some own ∷ []) (λ table. ¬ (ForgetsAt (columns_and (cast_of 0 dtype.Int32 ∷ [])) table 2))) }
    ensures sum { (table : TypeTable) → ¬ (ForgetsAt sum_items table 2) }
    ensures anywhere { (table : TypeTable) → ¬ (NeverForgets (λ items table n. Unit)) }
    ensures always { NeverForgets (λ items table n. ⊥) }
{}

/// A table keeps of a node that it takes its operands as they are, where none are kept, and its type is one of columns. A
/// number's own type is none.
pub fn entries_of_strict_nodes()
    ensures strict { ForEntry 2 dtype.Int32 true [] (λ own. ForTable 2 (Some own ∷ []) (λ table. KeepsStrict table 2)) }
    ensures taken_to_another { ForEntry 2 dtype.Int32 true (dtype.Int32 ∷ dtype.Int32 ∷ []) (λ own. ForTable 2 (Some own ∷ []) (λ table. ¬ (KeepsStrict table 2))) }
    ensures number { ForEntry 2 (dtype.Unknown (Number (pos 5))) false [] (λ own. ForTable 2 (Some own ∷ []) (λ table. ¬ (KeepsStrict table 2))) }
    ensures nothing_kept { ForTable 2 (None ∷ []) (λ table. ¬ (KeepsStrict table 2)) }
    ensures last { ForEntry 2 dtype.Int32 true [] (λ own. ForTable 2 (Some own ∷ []) (λ table. AllStrictFrom 2 sum_items table)) }
    ensures those_before { ForEntry 2 dtype.Int32 true [] (λ own. ForTable 2 (Some own ∷ []) (λ table. ¬ (AllStrictFrom 1 sum_items table))) }
    ensures none_left { ForTable 2 (None ∷ []) (λ table. AllStrictFrom 3 sum_items table) }
    ensures keeps_number { ForEntry 2 (dtype.Unknown (Number (pos 5))) false [] (λ own. ForTable 2 (Some own ∷ []) (λ table. KeepsNumber table 2)) }
    ensures type_of_columns { ForEntry 2 dtype.Int32 true [] (λ own. ForTable 2 (Some own ∷ []) (λ table. ¬ (KeepsNumber table 2))) }
    ensures no_number_kept { ForTable 2 (None ∷ []) (λ table. ¬ (KeepsNumber table 2)) }
{}

/// A plan's node stands over the schema of its input, which keeps every rule, that on a predicate's type aside. Nothing is
/// asked of the node itself. Accepted inputs are such.
pub fn plan_nodes_over_inputs()
    ensures scan { ForSchema two_columns (λ schema. IsPlanNode [] equal_items (filters schema) 0 (scan_op (Some 0) two_columns) no_more) }
    ensures filter { ForSchema two_columns (λ schema. IsPlanNode [] equal_items (filters schema) 1 (filter_op (named (binary Eq a b))) (more (scan_of 0 two_columns) no_more)) }
    ensures other_predicate { ForSchema two_columns (λ schema. ¬ (IsPlanNode [] equal_items (filters schema) 1 (filter_op (named a)) (more (scan_of 0 two_columns) no_more))) }
    ensures accepted_input { ForSchema two_columns (λ schema. HasAcceptedInputs [] equal_items (filters schema) 2) }
    ensures refused_input { ForSchema two_columns (λ schema. ¬ (HasAcceptedInputs [] equal_items (filters schema) 3)) }
    ensures unchecked_input { ForSchema two_columns (λ schema. HasUncheckedInputs [] equal_items (filters schema) 3) }
    ensures other_rule { ForSchema named_twice (λ schema. ¬ (HasUncheckedInputs [] equal_items (filters schema) 2)) }
    ensures no_such_node { (schema : Schema) → ¬ (HasUncheckedInputs [] equal_items (filters schema) 4) }
    ensures accepted { (registry : Registry) (expressions : List AExpr) (plans : List IR) (n : ℕ) → HasAcceptedInputs registry expressions plans n → HasUncheckedInputs registry expressions plans n }
    ensures over_the_scan { ForSchema two_columns (λ schema. StandsOver [] equal_items (filters schema) 2 (FilterKind (named a)) two_columns) }
    ensures over_nothing { ForSchema two_columns (λ schema. StandsOver [] equal_items (filters schema) 0 (ScanKind (Some 0) two_columns) two_columns) }
    ensures over_a_filter { ForSchema two_columns (λ schema. StandsOver [] equal_items (filters schema) 3 (FilterKind (named (binary Eq a b))) two_columns) }
    ensures other_kind { ForSchema two_columns (λ schema. ¬ (StandsOver [] equal_items (filters schema) 0 (FilterKind (named a)) two_columns)) }
    ensures other_schema { ForSchema two_columns (λ schema. ¬ (StandsOver [] equal_items (filters schema) 2 (FilterKind (named a)) [])) }
{}

/// A plan's node is settled where it is no filter of a predicate of another type than that of truth values. A schema is
/// asked for of filters alone.
pub fn plan_nodes_that_are_settled()
    ensures into_the_filter { ForSchema two_columns (λ schema. StaysOver [] equal_items (filters schema) 1 two_columns) }
    ensures other_schema { ForSchema two_columns (λ schema. ¬ (StaysOver [] equal_items (filters schema) 1 [])) }
    ensures any_schema { ForSchema two_columns (λ schema. StaysOver [] equal_items (filters schema) 0 []) }
    ensures truth { ForSchema two_columns (λ schema. IsSettledPlan has_truth [] equal_items (filters schema) 1) }
    ensures scan { ForSchema two_columns (λ schema. IsSettledPlan has_truth [] equal_items (filters schema) 0) }
    ensures number { ForSchema two_columns (λ schema. ¬ (IsSettledPlan has_truth [] equal_items (filters schema) 2)) }
    ensures refused { RefusesPredicate (λ checked. checked ≡ Err InvalidOperation) ⊥ [] two_columns (FilterKind (named a)) }
    ensures not_refused { ¬ (RefusesPredicate (λ checked. checked ≡ Err InvalidOperation) Unit [] two_columns (FilterKind (named (binary Eq a b)))) }
    ensures other_node { RefusesPredicate (λ checked. ⊥) Unit [] two_columns (SelectKind (named a ∷ [])) }
    ensures no_other_node { ¬ (RefusesPredicate (λ checked. Unit) ⊥ [] two_columns (ScanKind None two_columns)) }
{}

/// What is put in place of a plan's node is a filter only where that was one.
pub fn plan_nodes_that_are_put_in_place()
    ensures other_filter { ForSchema two_columns (λ schema. IsPlanReplacement [] equal_items (scan_and schema (filter_by 0 0 ∷ [])) (scan_and schema (filter_by 0 2 ∷ [])) 1) }
    ensures scan_for_a_filter { ForSchema two_columns (λ schema. IsPlanReplacement [] equal_items (scan_and schema (filter_by 0 0 ∷ [])) (scan_and schema (DataFrameScan (Some 0) schema ∷ [])) 1) }
    ensures filter_for_a_scan { ForSchema two_columns (λ schema. ¬ (IsPlanReplacement [] equal_items (scan_and schema (DataFrameScan (Some 0) schema ∷ [])) (scan_and schema (filter_by 0 2 ∷ [])) 1)) }
    ensures turn { ForSchema two_columns (λ schema. IsPlanTurn has_truth true [] equal_items (scan_and schema (filter_by 0 0 ∷ [])) (scan_and schema (filter_by 0 2 ∷ [])) 1) }
    ensures settled { ForSchema two_columns (λ schema. IsPlanTurn has_truth true [] equal_items (filters schema) (filters schema) 1) }
    ensures left { ForSchema two_columns (λ schema. ¬ (IsPlanTurn has_truth true [] equal_items (scan_and schema (filter_by 0 0 ∷ [])) (scan_and schema (filter_by 0 0 ∷ [])) 1)) }
    ensures no_turn { ForSchema two_columns (λ schema. ¬ (IsPlanTurn has_truth true [] equal_items (scan_and schema (DataFrameScan (Some 0) schema ∷ [])) (scan_and schema (filter_by 0 2 ∷ [])) 1)) }
{}

/// An item stands over nodes for its operands: the sum over the cast does, for which types are kept. One of another operator
/// doesn't, nor one over the column as it is.
pub fn items_over_operands()
    ensures over { IsOver sum_items 2 (pair 3 Plus 1) (3 ∷ 1 ∷ []) }
    ensures over_others { ¬ (IsOver sum_items 2 (pair 3 Plus 1) (0 ∷ 1 ∷ [])) }
    ensures takes { ForEntry 0 dtype.Int32 true (dtype.Int32 ∷ dtype.Int32 ∷ []) (λ own. TakesOperands own) }
    ensures takes_none { ForEntry 0 dtype.Int32 true [] (λ own. ¬ (TakesOperands own)) }
    ensures number { ForEntry 0 (dtype.Unknown (Number (pos 5))) false (dtype.Int32 ∷ []) (λ own. ¬ (TakesOperands own)) }
    ensures cast { ForEntry 0 dtype.Int8 true [] (λ left. ForEntry 1 dtype.Int32 true [] (λ right. ForEntry 0 dtype.Int32 true (dtype.Int32 ∷ dtype.Int32 ∷ []) (λ own. ForEntry 0 dtype.Int32 true [] (λ cast.
        ForTable 0 (Some left ∷ Some right ∷ Some own ∷ []) (λ table. ForTable 0 (Some left ∷ Some right ∷ Some own ∷ Some cast ∷ []) (λ table'.
        IsOverOperands sum_items (columns_and (pair 0 Plus 1 ∷ cast_of 0 dtype.Int32 ∷ [])) table table' 2 (pair 3 Plus 1))))))) }
    ensures other_operator { (table table' : TypeTable) → ¬ (IsOverOperands sum_items (columns_and (pair 0 Plus 1 ∷ cast_of 0 dtype.Int32 ∷ [])) table table' 2 (pair 3 Minus 1)) }
    ensures nothing_kept { (table : TypeTable) → ForTable 0 [] (λ table'. ¬ (IsOverOperands sum_items (columns_and (pair 0 Plus 1 ∷ cast_of 0 dtype.Int32 ∷ [])) table table' 2 (pair 3 Plus 1))) }
    ensures without_a_cast { ForEntry 0 dtype.Int8 true [] (λ left. ForEntry 1 dtype.Int32 true [] (λ right. ForEntry 0 dtype.Int32 true (dtype.Int32 ∷ dtype.Int32 ∷ []) (λ own.
        ForTable 0 (Some left ∷ Some right ∷ Some own ∷ []) (λ table. ¬ (IsOverOperands sum_items sum_items table table 2 (pair 0 Plus 1)))))) }
{}

/// An operand of which a type is kept can become one of another, but none without a type. It has a new node where it is
/// made of another type.
pub fn operands_that_are_changed()
    ensures ready { ForEntry 0 dtype.Int8 true [] (λ own. ForTable 0 (Some own ∷ []) (λ table. IsReady table 0 int32)) }
    ensures of_its_type { ForEntry 0 dtype.Int8 true [] (λ own. ForTable 0 (Some own ∷ []) (λ table. IsReady table 0 int8)) }
    ensures no_type { ForEntry 0 dtype.Int8 true [] (λ own. ForTable 0 (Some own ∷ []) (λ table. ¬ (IsReady table 0 (Untyped (pos 5))))) }
    ensures nothing_kept { ForTable 0 [] (λ table. ¬ (IsReady table 0 int32)) }
    ensures all_ready { ForEntry 0 dtype.Int8 true [] (λ own. ForTable 0 (Some own ∷ []) (λ table. AllReady table (0 ∷ 0 ∷ []) (int32 ∷ int8 ∷ []))) }
    ensures too_few { (table : TypeTable) → ¬ (AllReady table (0 ∷ []) []) }
    ensures at_a_place { ForEntry 0 dtype.Int8 true [] (λ own. ForTable 0 (Some own ∷ []) (λ table. IsReadyAt table 0 (dtype.Int64 ∷ dtype.Int32 ∷ []) 1)) }
    ensures past_the_list { (table : TypeTable) → ¬ (IsReadyAt table 0 (dtype.Int32 ∷ []) 1) }
    ensures cast { ForEntry 0 dtype.Int8 true [] (λ own. ForTable 0 (Some own ∷ []) (λ table.
        IsChanged a_items (Column (codes "a") ∷ cast_of 0 dtype.Int32 ∷ []) table (record { input = 0; changed = 1; from = int8; target = int32 }))) }
    ensures other_cast { (table : TypeTable) → ¬ (IsChanged a_items (Column (codes "a") ∷ cast_of 0 dtype.Int64 ∷ []) table (record { input = 0; changed = 1; from = int8; target = int32 })) }
    ensures no_cast { (table : TypeTable) → ¬ (IsChanged a_items a_items table (record { input = 0; changed = 0; from = int8; target = int32 })) }
    ensures each { ForEntry 0 dtype.Int8 true [] (λ own. ForTable 0 (Some own ∷ []) (λ table.
        AreChanged a_items (Column (codes "a") ∷ cast_of 0 dtype.Int32 ∷ []) table (0 ∷ []) (1 ∷ []) (int32 ∷ []))) }
    ensures one_left_out { (table : TypeTable) → ¬ (AreChanged a_items a_items table (0 ∷ []) [] []) }
{}

/// An expression is like one of its type, name and meaning to which it is related. Nodes are one, written out, where their
/// children are so alike, but no node over a column is that column. Settled nodes stay so over such children, but strict
/// expressions don't.
pub fn expressions_that_are_alike()
    ensures cast { IsLike (IsCoercion [] two_columns) [] two_columns sum strict_sum }
    ensures unrelated { ¬ (IsLike (λ before after. ⊥) [] two_columns sum strict_sum) }
    ensures other_name { ¬ (IsLike (λ before after. Unit) [] two_columns a b) }
    ensures same_written { IsCongruent (HasSameWritten [] two_columns) [] two_columns }
    ensures one_column_alone { ¬ (IsCongruent (λ before after. after ≡ a) [] two_columns) }
    ensures coerced { IsCongruent (IsCoercion [] two_columns) [] two_columns }
    ensures settled_nodes { IsSteady (is_settled [] two_columns) (HasSameWritten [] two_columns) [] two_columns }
    ensures strict_throughout { ¬ (IsSteady (is_strict [] two_columns) (IsCoercion [] two_columns) [] two_columns) }
{}
