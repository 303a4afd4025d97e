//! Worked examples on nodes of ternaries and functions.
#![tactic(auto, unfolding(crate::specs::Denotation::depth_within, crate::specs::Denotation::depth_at))]

ghost use Rattle.std.specs.Prelude.{◌≡◌, ℕ, [], ◌∷◌, codes, true};
ghost use Rattle.std.specs.List.{AllByRecursion};
ghost use Rattle.plan_dsl.specs.declared.function_expr.FunctionExpr.TheVariants.{IsNull, FillNull, ListGet, FieldByName};
ghost use Rattle.plan_dsl.specs.Trees.{node, no_more, more};
ghost use Rattle.plan_dsl.specs.Names.{alias_label, column_label, field_label, label_of};
ghost use Rattle.plan_dsl.specs.Ops.{FunctionOp, TernaryOp, Expression};
ghost use Rattle.plan_dsl.specs.Samples.{Gives, a, alias, b, count};
ghost use Rattle.plan_arena.specs.declared.aexpr.AExpr.{AExpr};
ghost use Rattle.plan_arena.specs.declared.aexpr.AExpr.TheVariants.{Column, Len, Ternary, Function};
ghost use Rattle.plan_arena.specs.declared.expr_ir.ExprIR.{ExprIR};
ghost use Rattle.plan_arena.specs.declared.expr_ir.ExprIRs.{ExprIRs};
ghost use Rattle.plan_arena.specs.declared.expr_ir.OutputName.{OutputName};
ghost use Rattle.plan_arena.specs.Layers.{layer, inputs_of, op_of};
ghost use Rattle.plan_arena.specs.Denotation.{Denotes};
ghost use Rattle.plan_arena.specs.Items.{expression_layer, numbers_named, passed, recorded, HoldsExpression};
ghost use Rattle.plan_arena.specs.Samples.{a_at, node_at};

/// A ternary stands over what it gives where its predicate is true, the predicate, and what it gives elsewhere. Passes
/// go over the predicate behind the others.
pub fn nodes_of_ternaries()
    ensures layer { expression_layer (Ternary (node_at 4) (node_at 2) (node_at 7)) ≡ layer TernaryOp (2 ∷ 4 ∷ 7 ∷ []) }
    ensures passed { Gives passed ((expression_layer (Ternary (node_at 4) (node_at 2) (node_at 7)), 2 ∷ 7 ∷ 4 ∷ [])
        ∷ (layer TernaryOp (2 ∷ 4 ∷ []), 2 ∷ 4 ∷ []) ∷ []) }
    ensures denotes { let items = Column (codes "a") ∷ Column (codes "b") ∷ Len ∷ Ternary (node_at 1) (node_at 0) (node_at 2) ∷ [] in
        Denotes (HoldsExpression items) 3 (node TernaryOp (more a (more b (more count no_more)))) }
    ensures other_order { let items = Column (codes "a") ∷ Column (codes "b") ∷ Len ∷ Ternary (node_at 1) (node_at 0) (node_at 2) ∷ [] in
        ¬ (Denotes (HoldsExpression items) 3 (node TernaryOp (more b (more a (more count no_more))))) }
    ensures name { label_of (node TernaryOp (more a (more b (more count no_more)))) ≡ column_label (codes "a") }
{}

/// A function keeps the names of its inputs beside their nodes, which are passed in order.
pub fn nodes_of_functions()
    ensures names { let x : ExprIR = record { node = node_at 5; output_name = OutputName.Alias (codes "x") } in
        recorded (x ∷ a_at 3 ∷ []) ≡ alias_label (codes "x") ∷ column_label (codes "a") ∷ [] }
    ensures numbers { let x : ExprIR = record { node = node_at 5; output_name = OutputName.Alias (codes "x") } in numbers_named (x ∷ a_at 3 ∷ []) ≡ 5 ∷ 3 ∷ [] }
    ensures layer { (input : ExprIRs) → let x : ExprIR = record { node = node_at 5; output_name = OutputName.Alias (codes "x") } in input.items.items ≡ x ∷ a_at 3 ∷ [] →
        expression_layer (Function input FillNull) ≡ layer (FunctionOp FillNull (alias_label (codes "x") ∷ column_label (codes "a") ∷ [])) (5 ∷ 3 ∷ []) }
    ensures passed { (input : ExprIRs) → input.items.items ≡ a_at 5 ∷ a_at 3 ∷ [] → passed (expression_layer (Function input (ListGet true))) ≡ 5 ∷ 3 ∷ [] }
    ensures nothing { (input : ExprIRs) → input.items.items ≡ [] → expression_layer (Function input IsNull) ≡ layer (FunctionOp IsNull []) [] }
    ensures denotes { (input : ExprIRs) → let x : ExprIR = record { node = node_at 0; output_name = OutputName.Alias (codes "x") } in input.items.items ≡ x ∷ [] →
        Denotes (HoldsExpression (Column (codes "a") ∷ Function input IsNull ∷ [])) 1 (node (FunctionOp IsNull (alias_label (codes "x") ∷ [])) (more a no_more)) }
    ensures without_names { (input : ExprIRs) → let x : ExprIR = record { node = node_at 0; output_name = OutputName.Alias (codes "x") } in input.items.items ≡ x ∷ [] →
        ¬ (Denotes (HoldsExpression (Column (codes "a") ∷ Function input IsNull ∷ [])) 1 (node (FunctionOp IsNull []) (more a no_more))) }
{}

/// A node of a function has the name that it keeps of its first input, and one that takes a field that of the field.
pub fn names_of_functions()
    ensures names { Gives label_of ((node (FunctionOp IsNull (alias_label (codes "x") ∷ [])) (more a no_more), alias_label (codes "x"))
        ∷ (node (FunctionOp IsNull []) (more (alias "x" a) no_more), alias_label (codes "x"))
        ∷ (node (FunctionOp (FieldByName (codes "y")) (alias_label (codes "x") ∷ [])) (more a no_more), field_label (codes "y")) ∷ []) }
{}
