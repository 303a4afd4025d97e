//! Worked examples of the definitions. The functions do nothing: their clauses are the examples.

ghost use Rattle.std.specs.Prelude.{◌≡◌, [], ◌∷◌, codes, map, pos, true, false};
ghost use Rattle.plan_types.specs.Outcomes.{Done, Fault, Stuck};
ghost use Rattle.plan_types.specs.declared.dtype.CastOptions.TheVariants.{Strict, NonStrict, Overflowing};
ghost use Rattle.plan_dsl.specs.declared.aggregate.GroupByMethod.TheVariants.{Min, NanMin, Max, NanMax, First, Last, NUnique, Implode, Groups, Sum, Count};
ghost use Rattle.std.specs.List.{AllByRecursion};
ghost use Rattle.plan_types.specs.Types.{Truth};
ghost use Rattle.plan_dsl.specs.Properties.{all_hold, all_trees, asks_literal, has_column, is_elementwise, is_no_column, is_own_elementwise, is_scalar, literals, never, over_any, permits_pushdown};
ghost use Rattle.plan_dsl.specs.Samples.{Gives, GivesAll, GivesOfTwo, a, b, c, alias, binary, call, cast_as, count, equal, explode, gather, gather_one, int8, keep_where, no, number, one, over, rising, rising_by, slice, sort_as, sum, ternary, text, yes};
ghost use Rattle.plan_dsl.specs.Ops.{AggOp, BinaryOp, ColumnOp, LenOp};
ghost use Rattle.plan_dsl.specs.Plans.{empty_table};
ghost use Rattle.plan_dsl.specs.declared.function_expr.FunctionExpr.TheVariants.{AllHorizontal, AnyHorizontal, IsNull, IsNotNull, FillNull, IsIn, ShiftAndFill, ListGet, FieldByName};
ghost use Rattle.plan_dsl.specs.declared.literal.LiteralValue.TheVariants.{Int8};
ghost use Rattle.plan_dsl.specs.declared.operator.Operator.TheVariants.{And, Eq, LogicalAnd, Or};
ghost use Rattle.plan_dsl.specs.WindowLaws.{of_each};
ghost use Rattle.plan_dsl.specs.Trees.{Trees, node, no_more, more};
ghost use Rattle.plan_arena.specs.Layers.{layer};
ghost use Rattle.plan_arena.specs.declared.aexpr.AExpr.TheVariants.{Literal};
ghost use Rattle.plan_infer.specs.Samples.{a_items};
ghost use Rattle.plan_properties.specs.Asking.{AllDenote, SaysOfAll, SaysOfItem, SaysOfNode, literals_at};
ghost use Rattle.plan_properties.specs.Laws.{GoesByRows, HasValues, HasValuesOr, by_rows, joined, row_count};
ghost use Rattle.plan_properties.specs.Properties.{can_pre_agg};
ghost use Rattle.plan_properties.specs.Samples.{above_beside_one, aggregate, both, filtered_by, frame_of, is_above, is_one, no_number, recorded_a, under_alias, words_and_numbers};
ghost use Rattle.plan_properties.specs.Splitting.{AddsParts, IsCondition, IsSplitPlan, conjuncts, is_conjunction, is_whole, kept_by, kept_by_all, own_named, split_predicate};

/// Columns, literals, operators, casts, aliases and ternaries of these have a value for each row. What counts rows, picks them or
/// takes them together has none. A strict cast may have a fault of its own.
pub fn expressions_by_rows()
    ensures elementwise { GivesAll is_elementwise true (a ∷ one ∷ sum a one ∷ cast_as Strict int8 a ∷ alias "x" (sum a b) ∷ ternary b a one ∷ []) }
    ensures not_elementwise { GivesAll is_elementwise false (
        count ∷ slice a one one ∷ aggregate Sum a ∷ sum a (aggregate Sum a) ∷ alias "x" count ∷ over (b ∷ []) a ∷ ternary b count a ∷ ternary (aggregate Sum b) a a ∷ ternary b a count ∷
        gather a one ∷ gather_one a one ∷ keep_where a b ∷ sort_as rising a ∷ rising_by (b ∷ []) a ∷ explode a ∷ []) }
    ensures pushdown { Gives permits_pushdown (
        (sum a one, true) ∷ (cast_as Strict int8 a, false) ∷ (cast_as NonStrict int8 a, true) ∷ (cast_as Overflowing int8 a, true) ∷
        (sum one (cast_as Strict int8 a), false) ∷ (count, false) ∷ (ternary b a one, true) ∷ (ternary b a (cast_as Strict int8 a), false) ∷ []) }
{}

/// Functions of the values in a row have a value for each row, over operands that have. One that asks whether a value is in
/// another operand has, where that is a literal itself. An item past a list may be a fault.
pub fn functions_by_rows()
    ensures asks_literal { GivesOfTwo asks_literal (
        (IsIn, false ∷ true ∷ [], true) ∷ (IsIn, true ∷ false ∷ [], false) ∷ (IsIn, true ∷ [], false) ∷ (IsIn, [], false) ∷ (FillNull, false ∷ true ∷ [], false) ∷ []) }
    ensures elementwise { GivesAll is_elementwise true (
        call IsNull (a ∷ []) ∷ call IsNotNull (sum a one ∷ []) ∷ call FillNull (a ∷ b ∷ []) ∷ call (ListGet true) (a ∷ one ∷ []) ∷
        call (ListGet false) (a ∷ b ∷ []) ∷ call (FieldByName (codes "x")) (a ∷ []) ∷ call IsIn (a ∷ one ∷ []) ∷
        call AllHorizontal (a ∷ b ∷ []) ∷ call AnyHorizontal (a ∷ one ∷ c ∷ []) ∷ []) }
    ensures not_elementwise { GivesAll is_elementwise false (
        call IsIn (a ∷ b ∷ []) ∷ call IsIn (one ∷ a ∷ []) ∷ call IsIn (a ∷ alias "x" one ∷ []) ∷ call IsIn (a ∷ cast_as NonStrict int8 one ∷ []) ∷
        call IsIn (count ∷ one ∷ []) ∷ call ShiftAndFill (a ∷ one ∷ one ∷ []) ∷ call IsNull (count ∷ []) ∷ call FillNull (a ∷ aggregate First a ∷ []) ∷
        call AnyHorizontal (a ∷ count ∷ []) ∷ []) }
    ensures pushdown { Gives permits_pushdown (
        (call (ListGet true) (a ∷ one ∷ []), true) ∷ (call (ListGet false) (a ∷ one ∷ []), false) ∷ (call IsNull (call (ListGet false) (a ∷ one ∷ []) ∷ []), false) ∷
        (call IsIn (a ∷ one ∷ []), true) ∷ (call IsIn (a ∷ b ∷ []), false) ∷ (call IsIn (cast_as Strict int8 a ∷ one ∷ []), false) ∷
        (call ShiftAndFill (a ∷ one ∷ one ∷ []), false) ∷ (call FillNull (a ∷ b ∷ []), true) ∷ (call IsNotNull (a ∷ []), true) ∷ (call (FieldByName (codes "x")) (a ∷ []), true) ∷
        (call AllHorizontal (a ∷ b ∷ []), true) ∷ (call AllHorizontal (a ∷ cast_as Strict Truth b ∷ []), false) ∷ []) }
    ensures literals { Gives literals ((no_more, []) ∷ (more a (more one (more (alias "x" one) no_more)), false ∷ true ∷ false ∷ []) ∷ []) }
    ensures over_any { GivesOfTwo (over_any is_no_column) ((LenOp, true ∷ [], true) ∷ (ColumnOp (codes "a"), [], false) ∷ []) }
    ensures all { Gives (all_hold never is_own_elementwise) ((no_more, true) ∷ (more a (more one no_more), true) ∷ (more a (more count no_more), false) ∷ []) }
{}

/// Literals, counts of rows and aggregates have one value, and so have operators, casts, aliases, ternaries and functions of
/// these alone.
pub fn expressions_of_one_value()
    ensures one_value { GivesAll is_scalar true (one ∷ count ∷ aggregate Sum a ∷ sum (aggregate Sum a) one ∷ alias "x" (cast_as Strict int8 one) ∷ aggregate Implode a ∷ []) }
    ensures many_values { GivesAll is_scalar false (a ∷ sum a one ∷ sum one a ∷ slice one one one ∷ over (b ∷ []) count ∷ alias "x" a ∷ []) }
    ensures one_picked { GivesAll is_scalar false (sort_as rising one ∷ rising_by (one ∷ []) one ∷ gather_one one one ∷ gather_one a one ∷ explode one ∷ keep_where one one ∷ []) }
    ensures ternaries { Gives is_scalar ((ternary (aggregate First a) one count, true) ∷ (ternary one a one, false) ∷ (ternary a one one, false) ∷ (ternary one one a, false) ∷ []) }
    ensures functions { Gives is_scalar (
        (call IsNull (one ∷ []), true) ∷ (call IsIn (one ∷ count ∷ []), true) ∷ (call ShiftAndFill (one ∷ one ∷ one ∷ []), true) ∷ (call IsNull [], true) ∷ (call AnyHorizontal (one ∷ count ∷ []), true) ∷ (call AnyHorizontal (one ∷ a ∷ []), false) ∷
        (call IsIn (one ∷ a ∷ []), false) ∷ (call ShiftAndFill (a ∷ one ∷ one ∷ []), false) ∷ (call (FieldByName (codes "x")) (a ∷ []), false) ∷ []) }
    ensures columns { Gives has_column (
        (one, false) ∷ (a, true) ∷ (sum one one, false) ∷ (sum one (alias "x" a), true) ∷ (count, false) ∷ (ternary a one one, true) ∷ (ternary one one one, false) ∷
        (call IsNull (one ∷ []), false) ∷ (call IsIn (one ∷ a ∷ []), true) ∷ []) }
{}

/// Aggregates of an elementwise expression over columns can be made of parts, where their values can be merged and no
/// function has more than one operand.
pub fn aggregates_of_parts()
    ensures can { GivesAll can_pre_agg true (
        count ∷ aggregate Min a ∷ aggregate NanMin a ∷ aggregate Max a ∷ aggregate NanMax a ∷ aggregate First a ∷ aggregate Last (sum a one) ∷ aggregate Sum a ∷ aggregate (Count true) a ∷
        aggregate Sum (ternary b a one) ∷ aggregate First (call IsNull (a ∷ [])) ∷ aggregate Last (call (FieldByName (codes "x")) (a ∷ [])) ∷
        aggregate First (call IsNotNull (call IsNull (a ∷ []) ∷ [])) ∷ []) }
    ensures can_not { GivesAll can_pre_agg false (
        a ∷ aggregate (Count false) a ∷ aggregate NUnique a ∷ aggregate Implode a ∷ aggregate Groups a ∷ aggregate Sum one ∷
        aggregate Sum (aggregate Sum a) ∷ alias "x" (aggregate Sum a) ∷ sum count one ∷ aggregate First (call IsIn (a ∷ b ∷ [])) ∷ call IsNull (aggregate Sum a ∷ []) ∷
        aggregate First (call IsIn (a ∷ one ∷ [])) ∷ aggregate Sum (call FillNull (a ∷ one ∷ [])) ∷ aggregate Sum (sum a (call FillNull (a ∷ b ∷ []))) ∷ aggregate Max (call (ListGet true) (a ∷ one ∷ [])) ∷
        ternary count count count ∷ []) }
    ensures all { all_trees can_pre_agg (more count (more (aggregate Sum a) no_more)) ≡ true }
    ensures not_all { all_trees can_pre_agg (more count (more a no_more)) ≡ false }
    ensures none { all_trees can_pre_agg no_more ≡ true }
{}

/// Rows one behind the other, with the first fault; what goes by rows and what doesn't, as a count of rows; and so many
/// values, or a fault where there may be one.
pub fn meanings_by_rows()
    ensures joined { GivesOfTwo joined (
        (Done (yes ∷ []), Done (no ∷ yes ∷ []), Done (yes ∷ no ∷ yes ∷ [])) ∷ (Done [], Done (no ∷ []), Done (no ∷ [])) ∷
        (Done (yes ∷ []), Fault, Fault) ∷ (Fault, Done (no ∷ []), Fault) ∷ (Fault, Stuck, Fault) ∷ []) }
    ensures by_rows { Gives (by_rows (of_each number)) (([], Done []) ∷ (7 ∷ 5 ∷ 7 ∷ [], Done (number 7 ∷ number 5 ∷ number 7 ∷ [])) ∷ []) }
    ensures a_fault { Gives (by_rows (λ rows. Fault)) (([], Done []) ∷ (7 ∷ 5 ∷ [], Fault) ∷ []) }
    ensures one_value { GoesByRows false (λ rows. Done (yes ∷ [])) }
    ensures no_rows { ¬ (GoesByRows true (λ rows. Done (yes ∷ []))) }
    ensures many_values { ¬ (GoesByRows false (of_each number)) }
    ensures counts { GivesOfTwo row_count ((true, 3, 3) ∷ (true, 0, 0) ∷ (false, 3, 1) ∷ (false, 0, 1) ∷ []) }
    ensures two { HasValues 2 (Done (yes ∷ no ∷ [])) }
    ensures not_one { ¬ (HasValues 1 (Done (yes ∷ no ∷ []))) }
    ensures no_fault { ¬ (HasValues 0 Fault) }
    ensures allowed { HasValuesOr (yes ≡ yes) 2 Fault }
{}

/// A predicate's parts are those of both operands, where its top joins two. A filter is split to them, under their own names,
/// where each of its nodes is taken to go by row and to have no fault.
pub fn predicates_in_parts()
    ensures conjunctions { Gives is_conjunction ((BinaryOp And, true) ∷ (BinaryOp LogicalAnd, true) ∷ (BinaryOp Or, false) ∷ (BinaryOp Eq, false) ∷ (LenOp, false) ∷ []) }
    ensures parts { Gives conjuncts (
        (a, a ∷ []) ∷ (both a b, a ∷ b ∷ []) ∷ (both (both a b) c, a ∷ b ∷ c ∷ []) ∷ (both a (both b c), a ∷ b ∷ c ∷ []) ∷
        (binary LogicalAnd a (both b c), a ∷ b ∷ c ∷ []) ∷ (binary Or (both a b) c, binary Or (both a b) c ∷ []) ∷ (equal (both a b) c, equal (both a b) c ∷ []) ∷ []) }
    ensures split { split_predicate (under_alias (both a b)) ≡ own_named a ∷ own_named b ∷ [] }
    ensures one_part { split_predicate (under_alias a) ≡ own_named a ∷ [] }
    ensures not_split { split_predicate (under_alias (both a (cast_as Strict Truth b))) ≡ under_alias (both a (cast_as Strict Truth b)) ∷ [] }
    ensures whole { Gives is_whole ((a, true) ∷ (both a b, false) ∷ (both a (cast_as Strict Truth b), true) ∷ (binary Or a b, true) ∷ []) }
    ensures plan { IsSplitPlan (filtered_by a (filtered_by b empty_table)) }
    ensures no_plan { ¬ (IsSplitPlan (filtered_by a (filtered_by (both a b) empty_table))) }
{}

/// A text that is no number, beside 2, where the number above 0 is asked for beside 1. By parts, of which the last comes
/// first, no row is left to have the fault that the whole has; where the cast gives null, there is none.
pub fn filters_in_parts()
    ensures whole { kept_by [] (above_beside_one Strict) no_number ≡ Fault }
    ensures in_parts { kept_by_all [] (conjuncts (above_beside_one Strict)) no_number ≡ Done (frame_of []) }
    ensures nulls { kept_by [] (above_beside_one NonStrict) no_number ≡ Done (frame_of []) }
    ensures nulls_in_parts { kept_by_all [] (conjuncts (above_beside_one NonStrict)) no_number ≡ Done (frame_of []) }
    ensures kept { kept_by_all [] (is_one ∷ []) (frame_of ((text "x" ∷ number 1 ∷ []) ∷ (text "y" ∷ number 2 ∷ []) ∷ [])) ≡ Done (frame_of ((text "x" ∷ number 1 ∷ []) ∷ [])) }
    ensures conditions { AllByRecursion (IsCondition [] words_and_numbers) (is_one ∷ is_above NonStrict ∷ above_beside_one Strict ∷ []) }
    ensures no_condition { ¬ (IsCondition [] words_and_numbers b) }
    ensures not_strict { ¬ (IsCondition [] words_and_numbers (equal b one)) }
{}

/// What is said of a node's expression, of an item's, and of those of several nodes; nodes that are literals, that denote some,
/// and that stand for parts.
pub fn answers_of_nodes()
    ensures node { SaysOfNode a_items 0 is_elementwise true }
    ensures other_node { ¬ (SaysOfNode a_items 0 is_scalar true) }
    ensures item { SaysOfItem a_items (layer LenOp []) is_scalar true }
    ensures other_item { ¬ (SaysOfItem a_items (layer LenOp []) is_elementwise true) }
    ensures all { SaysOfAll a_items (0 ∷ 0 ∷ []) is_elementwise true }
    ensures not_all { ¬ (SaysOfAll a_items (0 ∷ []) is_scalar true) }
    ensures literals { literals_at (Literal (Int8 (pos 5)) ∷ a_items) (0 ∷ 1 ∷ 2 ∷ []) ≡ true ∷ false ∷ false ∷ [] }
    ensures denoted { AllDenote a_items (0 ∷ 0 ∷ []) }
    ensures not_denoted { ¬ (AllDenote a_items (0 ∷ 1 ∷ [])) }
    ensures parts { AddsParts a_items [] (recorded_a ∷ []) (a ∷ []) }
    ensures no_parts { ¬ (AddsParts a_items [] [] (a ∷ [])) }
{}
