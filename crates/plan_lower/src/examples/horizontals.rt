//! Horizontals as they are lowered: written out over few operands, and else functions' nodes. Their rule is asked of nodes.

ghost use Rattle.std.specs.Prelude.{◌≡◌, [], ◌∷◌, ◌++◌, None, Some, codes, replicate, true, false};
ghost use Rattle.plan_types.specs.Errors.{at_top};
ghost use Rattle.plan_types.specs.declared.dtype.CastOptions.TheVariants.{NonStrict};
ghost use Rattle.plan_types.specs.declared.dtype.DataType.TheVariants.{Boolean};
ghost use Rattle.plan_types.specs.declared.error.ErrorKind.TheVariants.{ColumnNotFound, ComputeError, Duplicate, InvalidOperation};
ghost use Rattle.plan_dsl.specs.declared.function_expr.FunctionExpr.TheVariants.{AllHorizontal, AnyHorizontal, IsNull};
ghost use Rattle.plan_dsl.specs.declared.literal.LiteralValue.TheVariants.{Boolean as TruthLiteral};
ghost use Rattle.plan_dsl.specs.declared.operator.Operator.TheVariants.{LogicalAnd, LogicalOr};
ghost use Rattle.plan_dsl.specs.Aliases.{pruned, spelled};
ghost use Rattle.plan_dsl.specs.Ops.{FunctionOp};
ghost use Rattle.plan_dsl.specs.Samples.{Gives, alias, binary, call};
ghost use Rattle.plan_dsl.specs.Sources.{written};
ghost use Rattle.plan_dsl.specs.Trees.{no_more, more};
ghost use Rattle.plan_arena.specs.Denotation.{Denotes};
ghost use Rattle.plan_arena.specs.Items.{HoldsFrom};
ghost use Rattle.plan_arena.specs.declared.aexpr.AExpr.TheVariants.{Alias, BinaryExpr, Cast, Column, Literal};
ghost use Rattle.plan_arena.specs.declared.expr_ir.OutputName.{OutputName};
ghost use Rattle.plan_arena.specs.Samples.{node_at};
ghost use Rattle.plan_infer.specs.Samples.{int8, one_column, a, b, c, a_items};
ghost use Rattle.plan_lower.specs.ExpressionFields.{IsFieldRefusal};
ghost use Rattle.plan_lower.specs.Horizontals.{InChain, IsNamedAlone, IsNamedAs, IsNamedUnder, IsWrittenBy, is_chain, writes_no_chain};
ghost use Rattle.plan_lower.specs.Projection.{IsOutputRefusal};
ghost use Rattle.plan_lower.specs.declared.conversion.asked.Asked.TheVariants.{NewName, TruthValue};
ghost use Rattle.plan_lower.specs.Samples.{keep, truths};

/// What horizontals are written out by, where they are.
pub fn horizontals_written_by()
    ensures all { IsWrittenBy AllHorizontal 0 LogicalAnd true }
    ensures any { IsWrittenBy AnyHorizontal 127 LogicalOr false }
    ensures many { ¬ (IsWrittenBy AllHorizontal 128 LogicalAnd true) }
    ensures other_function { ¬ (IsWrittenBy IsNull 1 LogicalAnd true) }
{}

/// Nodes of horizontals: a literal, a cast, and operators, each right behind its second operand.
pub fn nodes_of_horizontals()
    ensures none { Denotes (HoldsFrom 0 (Literal (TruthLiteral true) ∷ [])) 0 (pruned true true (call AllHorizontal [])) }
    ensures one { Denotes (HoldsFrom 0 (Column (codes "a") ∷ Cast (node_at 0) Boolean NonStrict ∷ [])) 1 (pruned true true (call AnyHorizontal (a ∷ []))) }
    ensures two { Denotes (HoldsFrom 0 (Column (codes "a") ∷ Column (codes "b") ∷ BinaryExpr (node_at 0) LogicalAnd (node_at 1) ∷ [])) 2 (spelled (call AllHorizontal (a ∷ b ∷ []))) }
    ensures three { let items = Column (codes "a") ∷ Column (codes "b") ∷ BinaryExpr (node_at 0) LogicalOr (node_at 1) ∷ Column (codes "c") ∷ BinaryExpr (node_at 2) LogicalOr (node_at 3) ∷ [] in
        Denotes (HoldsFrom 0 items) 4 (spelled (call AnyHorizontal (a ∷ b ∷ c ∷ []))) }
    ensures aliases { let items = Column (codes "a") ∷ Alias (node_at 0) (codes "x") ∷ Column (codes "b") ∷ BinaryExpr (node_at 1) LogicalAnd (node_at 2) ∷ Alias (node_at 3) (codes "z") ∷ [] in
        Denotes (HoldsFrom 0 items) 4 (pruned true true (alias "z" (call AllHorizontal (alias "x" a ∷ b ∷ [])))) }
    ensures no_aliases { let items = Column (codes "a") ∷ Column (codes "b") ∷ BinaryExpr (node_at 0) LogicalAnd (node_at 1) ∷ [] in
        Denotes (HoldsFrom 0 items) 2 (spelled (alias "z" (call AllHorizontal (alias "x" a ∷ b ∷ [])))) }
    ensures inside { let items = Column (codes "a") ∷ Column (codes "b") ∷ Column (codes "c") ∷ BinaryExpr (node_at 1) LogicalOr (node_at 2) ∷ BinaryExpr (node_at 0) LogicalAnd (node_at 3) ∷ [] in
        Denotes (HoldsFrom 0 items) 4 (spelled (call AllHorizontal (a ∷ call AnyHorizontal (b ∷ c ∷ []) ∷ []))) }
    ensures other_operator { let items = Column (codes "a") ∷ Column (codes "b") ∷ BinaryExpr (node_at 0) LogicalOr (node_at 1) ∷ [] in
        ¬ (Denotes (HoldsFrom 0 items) 2 (spelled (call AllHorizontal (a ∷ b ∷ [])))) }
{}

/// A node stands for the front of a chain, or none does in front of the first operand.
pub fn chains_so_far()
    ensures start { InChain LogicalAnd 0 [] (more a (more b no_more)) (more a (more b no_more)) None }
    ensures first { InChain LogicalAnd 0 a_items (more a (more b no_more)) (more b no_more) (Some (node_at 0)) }
    ensures second { let items = Column (codes "a") ∷ Column (codes "b") ∷ BinaryExpr (node_at 0) LogicalAnd (node_at 1) ∷ [] in
        InChain LogicalAnd 0 items (more a (more b no_more)) no_more (Some (node_at 2)) }
    ensures none_behind_the_first { ¬ (InChain LogicalAnd 0 a_items (more a (more b no_more)) (more b no_more) None) }
{}

/// Horizontals that are written out by several operators, and expressions without such.
pub fn expressions_that_write_no_chain()
    ensures ops { (is_chain (FunctionOp AllHorizontal []) 2 ≡ false) × (is_chain (FunctionOp AllHorizontal []) 3 ≡ true) × (is_chain (FunctionOp AnyHorizontal []) 127 ≡ true) × (is_chain (FunctionOp AnyHorizontal []) 128 ≡ false) × (is_chain (FunctionOp IsNull []) 3 ≡ false) }
    ensures expressions { Gives writes_no_chain (
        (a, true) ∷ (call IsNull (a ∷ []), true) ∷ (call AllHorizontal [], true) ∷ (call AnyHorizontal (a ∷ []), true) ∷ (call AnyHorizontal (a ∷ b ∷ []), true) ∷ (call AllHorizontal (a ∷ b ∷ c ∷ []), false) ∷
        (binary LogicalAnd a (call AllHorizontal (a ∷ b ∷ c ∷ [])), false) ∷ (call AllHorizontal (replicate 128 a), true) ∷ (call AllHorizontal (call AnyHorizontal (a ∷ b ∷ c ∷ []) ∷ replicate 127 a), false) ∷ []) }
{}

/// Expressions that have the name that they have without aliases, those that an alias names, and those that have another's.
pub fn names_without_aliases()
    ensures alone { IsNamedAlone a × IsNamedAlone (call AllHorizontal (a ∷ b ∷ [])) × IsNamedAlone (call IsNull (alias "x" a ∷ [])) }
    ensures not_alone { ¬ (IsNamedAlone (alias "x" a)) }
    ensures not_written_out { ¬ (IsNamedAlone (call AllHorizontal (alias "x" a ∷ b ∷ []))) }
    ensures under { IsNamedUnder (Some (OutputName.Alias (codes "x"))) (alias "x" a) × IsNamedUnder (Some (OutputName.Alias (codes "x"))) (call AllHorizontal (alias "x" a ∷ b ∷ [])) × IsNamedUnder None a }
    ensures not_under { ¬ (IsNamedUnder (Some (OutputName.Alias (codes "z"))) (alias "x" a)) }
    ensures first { IsNamedAs (call AllHorizontal (alias "x" a ∷ b ∷ [])) (alias "x" a) }
    ensures not_second { ¬ (IsNamedAs (call AllHorizontal (alias "x" a ∷ b ∷ [])) b) }
{}

/// A horizontal is refused as its operands are, wherever the one stands that is, and else for one of another type than
/// that of truth values. An operand alone is cast.
pub fn refusals_of_horizontals()
    ensures unknown_first { IsOutputRefusal [] (one_column int8 ++ truths) (NewName Duplicate) (call AllHorizontal (c ∷ a ∷ keep ∷ [])) [] (at_top ColumnNotFound) }
    ensures unknown_between { IsOutputRefusal [] (one_column int8 ++ truths) (NewName Duplicate) (call AnyHorizontal (a ∷ c ∷ keep ∷ [])) [] (at_top ColumnNotFound) }
    ensures unknown_last { IsOutputRefusal [] (one_column int8 ++ truths) (NewName Duplicate) (call AllHorizontal (a ∷ keep ∷ c ∷ [])) [] (at_top ColumnNotFound) }
    ensures not_as_a_chain { ¬ (IsOutputRefusal [] (one_column int8 ++ truths) (NewName Duplicate) (call AllHorizontal (a ∷ keep ∷ c ∷ [])) [] (at_top InvalidOperation)) }
    ensures number_first { IsOutputRefusal [] (one_column int8 ++ truths) (NewName Duplicate) (call AllHorizontal (a ∷ keep ∷ [])) [] (at_top InvalidOperation) }
    ensures number_between { IsOutputRefusal [] (one_column int8 ++ truths) (NewName Duplicate) (call AllHorizontal (keep ∷ a ∷ keep ∷ [])) [] (at_top InvalidOperation) }
    ensures number_last { IsOutputRefusal [] (one_column int8 ++ truths) (NewName Duplicate) (call AnyHorizontal (keep ∷ a ∷ [])) [] (at_top InvalidOperation) }
    ensures number_alone { ¬ (IsOutputRefusal [] (one_column int8 ++ truths) (NewName Duplicate) (call AllHorizontal (a ∷ [])) [] (at_top InvalidOperation)) }
    ensures predicate { IsOutputRefusal [] (one_column int8 ++ truths) TruthValue (call AllHorizontal (a ∷ keep ∷ c ∷ [])) [] (at_top ColumnNotFound) }
    ensures no_predicate { ¬ (IsOutputRefusal [] (one_column int8 ++ truths) TruthValue (call AllHorizontal (a ∷ keep ∷ c ∷ [])) [] (at_top InvalidOperation)) }
{}

/// A horizontal has a field as its node does.
pub fn fields_of_horizontals()
    ensures no_truth { IsFieldRefusal [] (one_column int8) (written (call AllHorizontal (a ∷ a ∷ []))) (at_top InvalidOperation) }
    ensures unknown { IsFieldRefusal [] (one_column int8) (written (call AllHorizontal (a ∷ a ∷ c ∷ []))) (at_top ColumnNotFound) }
    ensures not_as_a_chain { ¬ (IsFieldRefusal [] (one_column int8) (written (call AllHorizontal (a ∷ a ∷ c ∷ []))) (at_top InvalidOperation)) }
    ensures as_it_is { ¬ (IsFieldRefusal [] (one_column int8) (written (call AllHorizontal (a ∷ a ∷ []))) (at_top ComputeError)) }
    ensures cast { ¬ (IsFieldRefusal [] (one_column int8) (written (call AllHorizontal (a ∷ []))) (at_top ComputeError)) }
{}
