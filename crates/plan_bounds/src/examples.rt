//! Worked examples of the definitions. The functions do nothing: their clauses are the examples.

ghost use Rattle.std.specs.Prelude.{◌≡◌, ◌+◌, [], ◌∷◌, length, map, replicate, codes, pos, true, false, Some, None, Ok, Err};
ghost use Rattle.plan_types.specs.Types.{TextType, Truth, Untyped};
ghost use Rattle.plan_types.specs.declared.dtype.CastOptions.TheVariants.{NonStrict, Strict};
ghost use Rattle.plan_types.specs.declared.error.ErrorKind.TheVariants.{InvalidOperation};
ghost use Rattle.plan_dsl.specs.declared.function_expr.FunctionExpr.TheVariants.{AllHorizontal, AnyHorizontal, IsNull};
ghost use Rattle.plan_dsl.specs.Aliases.{spelled};
ghost use Rattle.plan_dsl.specs.Names.{column_label};
ghost use Rattle.plan_dsl.specs.Ops.{BinaryOp, CastOp, FunctionOp, LenOp};
ghost use Rattle.plan_dsl.specs.Trees.{node, more, no_more};
ghost use Rattle.plan_dsl.specs.declared.operator.Operator.TheVariants.{And, Eq, Plus};
ghost use Rattle.plan_dsl.specs.Counts.{expression_casts};
ghost use Rattle.plan_dsl.specs.Plans.{named, over_input, select_op};
ghost use Rattle.plan_dsl.specs.Samples.{alias, call, cast_as, group_by, keep, nothing, project, scan, schema_ab, select, stack, typed_literal};
ghost use Rattle.plan_infer.specs.Samples.{a, b, binary, c, cast_to, five, int16, int32, int8, of_type, sum, two_columns};
ghost use Rattle.plan_properties.specs.Splitting.{split_predicate};
ghost use Rattle.plan_bounds.specs.Bounds.{IsBounded};
ghost use Rattle.plan_bounds.specs.Laws.{in_all};
ghost use Rattle.plan_bounds.specs.LoweredPlans.{IsLoweredPlan, IsWidePlan, has_wide_horizontals, have_wide_horizontals, is_wide};
ghost use Rattle.plan_bounds.specs.PlanCounts.{over_inputs, over_schema, plan_idle, plan_most, plan_needs, plan_size, settled_needs};
ghost use Rattle.plan_bounds.specs.Samples.{over_two, recorded_select};
ghost use Rattle.plan_coerce.specs.Samples.{strict_sum};
ghost use Rattle.plan_bounds.specs.Counts.{all_idle_casts, all_implicit_casts, becomes_cast, chain_nodes, changed_casts, idle_casts, implicit_casts, is_already, is_idle, needed_casts, node_casts, operand_casts, operands_casts, other_nodes, other_nodes_step, own_nodes, ruled_casts};

/// An operand needs a cast where it is taken to another type. A number without a type needs one where no literal of the type
/// stands for it.
pub fn casts_for_operands()
    ensures of_the_type { operand_casts int8 int8 ≡ 0 }
    ensures of_another { operand_casts int8 int32 ≡ 1 }
    ensures number_in_it { operand_casts (Untyped (pos 5)) int8 ≡ 0 }
    ensures number_past_it { operand_casts (Untyped (pos 300)) int8 ≡ 1 }
    ensures number_as_text { operand_casts (Untyped (pos 5)) TextType ≡ 0 }
    ensures other_than_itself { changed_casts int8 int8 ≡ 1 }
    ensures each { operands_casts (int8 ∷ int32 ∷ Untyped (pos 5) ∷ int16 ∷ []) (int32 ∷ int32 ∷ int32 ∷ int32 ∷ []) ≡ 2 }
    ensures none { operands_casts [] [] ≡ 0 }
    ensures fewer_types { operands_casts [] (int8 ∷ []) ≡ 0 }
    ensures fewer_targets { operands_casts (int8 ∷ int8 ∷ []) (int32 ∷ []) ≡ 1 }
{}

/// A node goes by its rule, where it has one.
pub fn casts_for_nodes()
    ensures sum { node_casts false [] two_columns (BinaryOp Plus) (Ok (of_type int8 ∷ of_type int32 ∷ [])) ≡ 1 }
    ensures equal_types { node_casts false [] two_columns (BinaryOp Plus) (Ok (of_type int8 ∷ of_type int8 ∷ [])) ≡ 0 }
    ensures without_a_rule { node_casts false [] two_columns (BinaryOp Plus) (Ok (of_type int8 ∷ [])) ≡ 0 }
    ensures untyped_children { node_casts false [] two_columns (BinaryOp Plus) (Err InvalidOperation) ≡ 0 }
    ensures by_no_rule { ruled_casts (int8 ∷ []) (Err InvalidOperation) ≡ 0 }
{}

/// a is an Int8 and b an Int32. The casts that a query wrote count, and those that coercion puts in: at each sum beside the
/// wider column, in any operand.
pub fn needed()
    ensures column { needed_casts false [] two_columns a ≡ 0 }
    ensures sum { needed_casts false [] two_columns sum ≡ 1 }
    ensures written { needed_casts false [] two_columns (binary Plus (cast_to int32 a) b) ≡ 1 }
    ensures written_besides { needed_casts false [] two_columns (binary Plus (cast_to int16 a) b) ≡ 2 }
    ensures number { needed_casts false [] two_columns (binary Plus a five) ≡ 0 }
    ensures wider_number { needed_casts false [] two_columns (binary Plus a (typed_literal (Untyped (pos 300)) (pos 300))) ≡ 1 }
    ensures both { needed_casts false [] two_columns (binary Eq sum (binary Plus b a)) ≡ 2 }
    ensures at_each { needed_casts false [] two_columns (binary Plus b (binary Plus a a)) ≡ 1 }
    ensures under_an_alias { needed_casts false [] two_columns (alias "x" sum) ≡ 1 }
    ensures without_a_type { needed_casts false [] two_columns (cast_to int8 c) ≡ 1 }
    ensures all { all_implicit_casts false [] two_columns (more sum (more a (more sum no_more))) ≡ 2 }
    ensures put_in { implicit_casts false [] two_columns (binary Plus (cast_to int16 a) b) ≡ 1 }
{}

/// All nodes but casts.
pub fn nodes_but_casts()
    ensures sum { other_nodes false sum ≡ 3 }
    ensures cast { other_nodes false (binary Plus (cast_to int32 a) (cast_to int32 (cast_to int8 b))) ≡ 3 }
    ensures alias { other_nodes false (alias "x" sum) ≡ 4 }
    ensures step { other_nodes_step false LenOp (2 ∷ 3 ∷ []) ≡ 6 }
    ensures step_of_a_cast { other_nodes_step false (CastOp int8 NonStrict) (2 ∷ []) ≡ 2 }
{}

/// Casts to the type that is there, of any mode. A number without a type counts as one of the type that it has alone.
pub fn idle()
    ensures own_type { idle_casts false [] two_columns (cast_to int8 a) ≡ 1 }
    ensures strict { idle_casts false [] two_columns (cast_as Strict int8 a) ≡ 1 }
    ensures other_type { idle_casts false [] two_columns (cast_to int32 a) ≡ 0 }
    ensures number { idle_casts false [] two_columns (cast_to int32 five) ≡ 1 }
    ensures narrower_number { idle_casts false [] two_columns (cast_to int8 five) ≡ 0 }
    ensures number_under_an_alias { idle_casts false [] two_columns (cast_to int32 (alias "x" five)) ≡ 1 }
    ensures twice { idle_casts false [] two_columns (cast_to int8 (cast_to int8 a)) ≡ 2 }
    ensures of_the_sum { idle_casts false [] two_columns (cast_to int32 sum) ≡ 1 }
    ensures all { all_idle_casts false [] two_columns (more (cast_to int8 a) (more sum (more (cast_to int32 b) no_more))) ≡ 2 }
    ensures without_a_type { idle_casts false [] two_columns (cast_to int8 c) ≡ 0 }
    ensures node { is_idle false (CastOp int8 NonStrict) (Ok (of_type int8 ∷ [])) ≡ true }
    ensures untyped_operand { is_idle false (CastOp int8 NonStrict) (Err InvalidOperation) ≡ false }
    ensures no_cast { is_idle false LenOp (Ok (of_type int8 ∷ [])) ≡ false }
{}

/// A horizontal over fewer than 128 operands counts as one node, and needs the casts of its operands. Where it counts as
/// written out it is a literal over none; over one a cast, without effect where the operand is a truth value; and over more
/// the operators between them.
pub fn horizontals()
    ensures chains { map chain_nodes (0 ∷ 1 ∷ 2 ∷ 127 ∷ []) ≡ 1 ∷ 0 ∷ 1 ∷ 126 ∷ [] }
    ensures nodes { map (λ count. other_nodes true (call AllHorizontal (replicate count a))) (0 ∷ 1 ∷ 2 ∷ 3 ∷ 127 ∷ 128 ∷ []) ≡ 1 ∷ 1 ∷ 3 ∷ 5 ∷ 253 ∷ 129 ∷ [] }
    ensures nodes_as_they_stand { map (λ count. other_nodes false (call AllHorizontal (replicate count a))) (0 ∷ 1 ∷ 2 ∷ 3 ∷ 127 ∷ 128 ∷ []) ≡ 1 ∷ 2 ∷ 3 ∷ 4 ∷ 128 ∷ 129 ∷ [] }
    ensures needed { let truth = binary Eq a five in
        map (λ operands. needed_casts true [] two_columns (call AnyHorizontal operands)) ([] ∷ (truth ∷ []) ∷ (a ∷ []) ∷ (five ∷ []) ∷ (truth ∷ truth ∷ []) ∷ (truth ∷ nothing ∷ nothing ∷ []) ∷ []) ≡ 0 ∷ 1 ∷ 1 ∷ 1 ∷ 0 ∷ 2 ∷ [] }
    ensures needed_as_they_stand { let truth = binary Eq a five in
        map (λ operands. needed_casts false [] two_columns (call AnyHorizontal operands)) ([] ∷ (truth ∷ []) ∷ (a ∷ []) ∷ (five ∷ []) ∷ (truth ∷ truth ∷ []) ∷ (truth ∷ nothing ∷ nothing ∷ []) ∷ []) ≡ 0 ∷ 0 ∷ 1 ∷ 0 ∷ 0 ∷ 2 ∷ [] }
    ensures idle { let truth = binary Eq a five in
        map (λ operands. idle_casts true [] two_columns (call AnyHorizontal operands)) ([] ∷ (truth ∷ []) ∷ (a ∷ []) ∷ (nothing ∷ []) ∷ (truth ∷ truth ∷ []) ∷ []) ≡ 0 ∷ 1 ∷ 0 ∷ 0 ∷ 0 ∷ [] }
    ensures idle_as_they_stand { idle_casts false [] two_columns (call AnyHorizontal (binary Eq a five ∷ [])) ≡ 0 }
    ensures of_one_operand { is_already Truth (Ok (of_type Truth ∷ [])) ≡ true }
    ensures of_two { is_already Truth (Ok (of_type Truth ∷ of_type Truth ∷ [])) ≡ false }
    ensures to_a_cast { map (becomes_cast (FunctionOp AllHorizontal [])) ([] ∷ (of_type int8 ∷ []) ∷ (of_type Truth ∷ of_type Truth ∷ []) ∷ []) ≡ false ∷ true ∷ false ∷ [] }
    ensures no_horizontal { becomes_cast (FunctionOp IsNull []) (of_type int8 ∷ []) ≡ false }
    ensures own { own_nodes true (CastOp int8 NonStrict) 1 ≡ 0 }
{}

/// Several expressions together. A filter that is split has a node less for each conjunction, and one that isn't has all.
pub fn parts_of_filters()
    ensures casts { in_all expression_casts (named (cast_to int32 a) ∷ named sum ∷ named (cast_to int8 (cast_to int32 a)) ∷ []) ≡ 3 }
    ensures nodes { in_all (other_nodes false) (named (cast_to int32 a) ∷ named sum ∷ []) ≡ 4 }
    ensures none { in_all (other_nodes false) [] ≡ 0 }
    ensures whole { other_nodes false (binary And (binary Eq a five) (binary Eq b five)) ≡ 7 }
    ensures in_parts { in_all (other_nodes false) (split_predicate (named (binary And (binary Eq a five) (binary Eq b five)))) ≡ 6 }
    ensures room_for_a_filter { let predicate = binary And (binary Eq a five) (binary Eq b five) in
        in_all (other_nodes false) (split_predicate (named predicate)) + length (split_predicate (named predicate)) ≡ other_nodes false predicate + 1 }
    ensures with_a_fault { in_all (other_nodes false) (split_predicate (named (binary And (binary Eq (cast_as Strict int8 b) five) (binary Eq b five)))) ≡ 7 }
{}

/// a is an Int8 and b an Int32, and the sum of both an Int32 under the name of a. Expressions are counted over the input's
/// schema: over the select a needs no cast beside b. Where an input has no schema nothing is counted over it.
pub fn plans()
    ensures select { plan_needs true [] (select (sum ∷ cast_to int16 b ∷ []) (scan schema_ab)) ≡ 2 }
    ensures over_a_select { plan_needs true [] (select (sum ∷ []) (select (sum ∷ b ∷ []) (scan schema_ab))) ≡ 1 }
    ensures filter { plan_needs true [] (keep (binary Eq a b) (select (cast_to int8 a ∷ b ∷ []) (scan schema_ab))) ≡ 2 }
    ensures refused_below { plan_needs true [] (select (cast_to int8 a ∷ []) (select (c ∷ []) (scan schema_ab))) ≡ 0 }
    ensures number { plan_needs true [] (select (five ∷ binary Plus a five ∷ []) (scan schema_ab)) ≡ 0 }
    ensures idle { plan_idle true [] (keep (binary Eq a five) (select (cast_to int8 a ∷ cast_to int32 b ∷ cast_to int8 b ∷ []) (scan schema_ab))) ≡ 2 }
    ensures size { plan_most [] (keep (binary Eq a b) (select (cast_to int8 a ∷ sum ∷ []) (scan schema_ab))) ≡ 10 }
    ensures scan { plan_most [] (scan schema_ab) ≡ 1 }
{}

/// A horizontal over one operand counts as the cast to which it is written out, and over two as a chain: as a node over one
/// Boolean operand it needs no cast. Keys and aggregates count alike, and a simple projection is one node.
pub fn plans_of_other_kinds()
    ensures one_operand { plan_needs true [] (select (call AnyHorizontal (binary Eq a b ∷ []) ∷ []) (scan schema_ab)) ≡ 2 }
    ensures without_effect { plan_idle true [] (select (call AnyHorizontal (binary Eq a b ∷ []) ∷ []) (scan schema_ab)) ≡ 1 }
    ensures chain { plan_most [] (select (call AllHorizontal (binary Eq a b ∷ binary Eq b five ∷ []) ∷ []) (scan schema_ab)) ≡ 9 }
    ensures as_it_stands { plan_needs false [] (select (call AnyHorizontal (binary Eq a b ∷ []) ∷ []) (scan schema_ab)) ≡ 1 }
    ensures size_as_it_stands { plan_size (select (call AnyHorizontal (binary Eq a b ∷ []) ∷ []) (scan schema_ab)) ≡ 6 }
    ensures size_written_out { plan_most [] (select (call AnyHorizontal (binary Eq a b ∷ []) ∷ []) (scan schema_ab)) ≡ 5 }
    ensures hstack { plan_needs true [] (stack (sum ∷ cast_to int16 a ∷ []) (scan schema_ab)) ≡ 2 }
    ensures groups { plan_needs true [] (group_by (sum ∷ []) (cast_to int8 b ∷ []) (scan schema_ab)) ≡ 2 }
    ensures projection { plan_most [] (project schema_ab (scan schema_ab)) ≡ 2 }
{}

/// Over a schema, over none, and by the number of the input.
pub fn expressions_over_inputs()
    ensures schema { over_schema (settled_needs false) [] (Some two_columns) (named sum ∷ named five ∷ named (cast_to int32 five) ∷ []) ≡ 2 }
    ensures none { over_schema (settled_needs false) [] None (named sum ∷ []) ≡ 0 }
    ensures inputs { let es = over_input 0 (named sum ∷ []) ∷ over_input 1 (named sum ∷ []) ∷ over_input 0 (named (cast_to int8 b) ∷ []) ∷ [] in
        over_inputs (settled_needs false) [] (Some two_columns ∷ None ∷ []) es ≡ 2 }
    ensures no_such_input { over_inputs (settled_needs false) [] (Some two_columns ∷ []) (over_input 1 (named sum ∷ []) ∷ []) ≡ 0 }
    ensures number { settled_needs false [] two_columns five ≡ 0 }
    ensures number_under_an_alias { settled_needs false [] two_columns (alias "x" five) ≡ 0 }
{}

/// A horizontal over 128 operands is wide, and one over fewer is in no expression that a lowered plan takes: it is written out.
/// Other nodes aren't asked.
pub fn wide_horizontals()
    ensures over_many { map (is_wide (FunctionOp AllHorizontal [])) (0 ∷ 1 ∷ 127 ∷ 128 ∷ 300 ∷ []) ≡ false ∷ false ∷ false ∷ true ∷ true ∷ [] }
    ensures of_any { map (is_wide (FunctionOp AnyHorizontal (column_label (codes "a") ∷ []))) (1 ∷ 128 ∷ []) ≡ false ∷ true ∷ [] }
    ensures other_nodes { is_wide (FunctionOp IsNull []) 1 ≡ true }
    ensures no_functions { is_wide LenOp 0 ≡ true }
    ensures sum { has_wide_horizontals sum ≡ true }
    ensures few { has_wide_horizontals (call AllHorizontal (a ∷ b ∷ [])) ≡ false }
    ensures few_below { has_wide_horizontals (alias "x" (call AnyHorizontal [])) ≡ false }
    ensures written_out { has_wide_horizontals (spelled (call AllHorizontal (a ∷ call AnyHorizontal [] ∷ []))) ≡ true }
    ensures many { has_wide_horizontals (call AllHorizontal (replicate 128 a)) ≡ true }
    ensures each { have_wide_horizontals (more sum (more a no_more)) ≡ true }
    ensures one_of_them { have_wide_horizontals (more sum (more (call AnyHorizontal []) no_more)) ≡ false }
{}

/// A select of the sum with its cast written out is a lowered plan. One without it isn't strict, and one with a horizontal
/// over few operands isn't wide.
pub fn lowered_plans()
    ensures scan { IsLoweredPlan [] (scan schema_ab) }
    ensures sum { IsLoweredPlan [] (recorded_select strict_sum int32 (scan schema_ab)) }
    ensures wide { IsWidePlan (select (sum ∷ a ∷ []) (scan schema_ab)) }
    ensures without_the_cast { ¬ (IsLoweredPlan [] (recorded_select sum int32 (scan schema_ab))) }
    ensures narrow { ¬ (IsWidePlan (keep a (node (select_op (over_two ∷ []) None) (more (scan schema_ab) no_more)))) }
{}

/// A query's plan that needs one cast bounds plans that have it or none. It bounds none with two casts, with a cast to the
/// type that is there, or with a further node.
pub fn bounded_plans()
    ensures itself { IsBounded [] (scan schema_ab) (scan schema_ab) }
    ensures sum { IsBounded [] (select (sum ∷ []) (scan schema_ab)) (select (strict_sum ∷ []) (scan schema_ab)) }
    ensures smaller { IsBounded [] (select (sum ∷ []) (scan schema_ab)) (select (a ∷ []) (scan schema_ab)) }
    ensures both_casts { ¬ (IsBounded [] (select (sum ∷ []) (scan schema_ab)) (select (binary Plus (cast_to int32 a) (cast_to int32 b) ∷ []) (scan schema_ab))) }
    ensures idle_cast { ¬ (IsBounded [] (select (sum ∷ []) (scan schema_ab)) (select (cast_to int8 a ∷ []) (scan schema_ab))) }
    ensures further_node { ¬ (IsBounded [] (scan schema_ab) (select (a ∷ []) (scan schema_ab))) }
{}
