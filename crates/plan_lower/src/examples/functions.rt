//! Functions and ternaries, with what lowering makes of them.

ghost use Rattle.std.specs.Prelude.{◌≡◌, [], ◌∷◌, codes, true, false};
ghost use Rattle.plan_dsl.specs.declared.function_expr.FunctionExpr.TheVariants.{AllHorizontal, FillNull, IsNull};
ghost use Rattle.plan_dsl.specs.declared.operator.Operator.TheVariants.{LogicalAnd};
ghost use Rattle.plan_dsl.specs.Samples.{alias, binary, call};
ghost use Rattle.plan_dsl.specs.Names.{alias_label, column_label};
ghost use Rattle.plan_dsl.specs.Ops.{ExplodeOp, FunctionOp, TernaryOp};
ghost use Rattle.plan_dsl.specs.Trees.{node, no_more, more};
ghost use Rattle.plan_arena.specs.declared.aexpr.AExpr.TheVariants.{Function, Ternary};
ghost use Rattle.plan_arena.specs.declared.expr_ir.ExprIR.{ExprIR};
ghost use Rattle.plan_arena.specs.declared.expr_ir.ExprIRs.{ExprIRs};
ghost use Rattle.plan_arena.specs.declared.expr_ir.OutputName.{OutputName};
ghost use Rattle.plan_arena.specs.Samples.{node_at};
ghost use Rattle.plan_lower.specs.Nodes.{IsItemOf, over_inputs};
ghost use Rattle.plan_infer.specs.Samples.{a, b, a_items};

/// An expression over its operands with their aliases, or without, and with their horizontals written out or as nodes. A
/// function has none of the aliases, and their names.
pub fn expressions_over_operands()
    ensures kept { over_inputs true true (node ExplodeOp (more (alias "x" a) no_more)) ≡ node ExplodeOp (more (alias "x" a) no_more) }
    ensures pruned { over_inputs false true (node ExplodeOp (more (alias "x" a) no_more)) ≡ node ExplodeOp (more a no_more) }
    ensures own_alias { over_inputs false true (alias "x" (alias "y" a)) ≡ alias "x" a }
    ensures function { over_inputs true true (node (FunctionOp FillNull []) (more (alias "x" a) (more b no_more)))
        ≡ node (FunctionOp FillNull (alias_label (codes "x") ∷ column_label (codes "b") ∷ [])) (more a (more b no_more)) }
    ensures function_of_a_function { over_inputs true true (node (FunctionOp IsNull []) (more (node (FunctionOp IsNull []) (more (alias "x" a) no_more)) no_more))
        ≡ node (FunctionOp IsNull (alias_label (codes "x") ∷ [])) (more (node (FunctionOp IsNull (alias_label (codes "x") ∷ [])) (more a no_more)) no_more) }
    ensures written { over_inputs false true (node ExplodeOp (more (call AllHorizontal (alias "x" a ∷ b ∷ [])) no_more)) ≡ node ExplodeOp (more (binary LogicalAnd a b) no_more) }
    ensures as_a_node { over_inputs true false (node ExplodeOp (more (call AllHorizontal (alias "x" a ∷ b ∷ [])) no_more))
        ≡ node ExplodeOp (more (node (FunctionOp AllHorizontal (alias_label (codes "x") ∷ column_label (codes "b") ∷ [])) (more a (more b no_more))) no_more) }
    ensures no_operands { over_inputs false true (node (FunctionOp IsNull []) no_more) ≡ node (FunctionOp IsNull []) no_more }
{}

/// An item of a ternary or a function does what the expression's top does.
pub fn items_of_functions()
    ensures ternary { IsItemOf 0 a_items (node TernaryOp (more a (more a (more a no_more)))) (Ternary (node_at 0) (node_at 0) (node_at 0)) }
    ensures function { (input : ExprIRs) → let x : ExprIR = record { node = node_at 0; output_name = OutputName.Alias (codes "x") } in input.items.items ≡ x ∷ [] →
        IsItemOf 0 a_items (over_inputs true true (node (FunctionOp IsNull []) (more (alias "x" a) no_more))) (Function input IsNull) }
    ensures other_name { (input : ExprIRs) → let x : ExprIR = record { node = node_at 0; output_name = OutputName.Alias (codes "x") } in input.items.items ≡ x ∷ [] →
        ¬ (IsItemOf 0 a_items (over_inputs true true (node (FunctionOp IsNull []) (more a no_more))) (Function input IsNull)) }
{}
