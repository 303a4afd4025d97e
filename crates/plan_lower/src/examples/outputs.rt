//! Outputs of selects, and predicates, with what lowering makes of them.

ghost use Rattle.std.specs.Prelude.{◌≡◌, [], ◌∷◌, pos, codes};
ghost use Rattle.plan_types.specs.Types.{ListType, Truth};
ghost use Rattle.plan_types.specs.Errors.{no_memory, at_top};
ghost use Rattle.plan_types.specs.declared.dtype.CastOptions.TheVariants.{NonStrict};
ghost use Rattle.plan_types.specs.declared.dtype.DataType.TheVariants.{Int16 as HalfWide, Int32 as Wide};
ghost use Rattle.plan_types.specs.declared.error.ErrorKind.TheVariants.{ColumnNotFound, Duplicate, InvalidOperation, ComputeError};
ghost use Rattle.plan_dsl.specs.declared.literal.LiteralValue.TheVariants.{Int, Int32};
ghost use Rattle.plan_dsl.specs.Names.{column_label};
ghost use Rattle.plan_dsl.specs.Samples.{all, nth};
ghost use Rattle.plan_dsl.specs.Ops.{CastOp};
ghost use Rattle.plan_dsl.specs.Trees.{node, no_more, more};
ghost use Rattle.plan_arena.specs.declared.aexpr.AExpr.TheVariants.{Cast, Column, Literal};
ghost use Rattle.plan_arena.specs.Samples.{node_at};
ghost use Rattle.plan_lower.specs.Asked.{IsMemoryOrOne, asked_columns, asked_kinds};
ghost use Rattle.plan_lower.specs.Nodes.{IsItemOf};
ghost use Rattle.plan_lower.specs.Outputs.{IsLowered, HasOutputs, HasExpandedOutputs, lowered_named, lowered_column};
ghost use Rattle.plan_lower.specs.Predicates.{FiltersBy, HasPredicate, HasExpandedPredicate, IsUnfiltered, lowered_filter};
ghost use Rattle.plan_lower.specs.Projection.{IsOutput, Projects, AddsOutput, IsOutputRefusal, RefusesOne, IsProjectionRefusal, IsUnprojected, output_node, output_column};
ghost use Rattle.plan_lower.specs.declared.conversion.asked.Asked.TheVariants.{NewName, Order, TruthValue};
ghost use Rattle.plan_infer.specs.Samples.{int8, int16, int32, one_column, columns_of, two_columns, of_type, of_one, a, b, c, five, sum, columns_and, a_items};
ghost use Rattle.plan_coerce.specs.Samples.{strict_sum, wide};
ghost use Rattle.plan_lower.specs.Samples.{truths, keep, keep_items, node_named, output, lowered_to, as_it_is, scan_of, filter_over};

/// An item does what an expression's top does, over nodes from a number on that denote its operands.
pub fn items_of_expressions()
    ensures column { IsItemOf 0 [] a (Column (codes "a")) }
    ensures cast { IsItemOf 0 a_items wide (Cast (node_at 0) Wide NonStrict) }
    ensures other_column { ¬ (IsItemOf 0 [] b (Column (codes "a"))) }
    ensures other_cast { ¬ (IsItemOf 0 a_items wide (Cast (node_at 0) HalfWide NonStrict)) }
    ensures other_operand { ¬ (IsItemOf 0 a_items (node (CastOp int32 NonStrict) (more b no_more)) (Cast (node_at 0) Wide NonStrict)) }
    ensures below_the_number { ¬ (IsItemOf 1 a_items wide (Cast (node_at 0) Wide NonStrict)) }
{}

/// An output's node denotes its expression as a plan takes it, with its typing.
pub fn outputs_of_expressions()
    ensures column { IsOutput [] (one_column int8) 0 a_items (output a 0 (of_type int8)) }
    ensures other_type { ¬ (IsOutput [] (one_column int8) 0 a_items (output a 0 (of_type int16))) }
    ensures number { IsOutput [] [] 0 (Literal (Int32 (pos 5)) ∷ []) (output five 0 (of_one int32)) }
    ensures number_left { ¬ (IsOutput [] [] 0 (Literal (Int (pos 5)) ∷ []) (output five 0 (of_one int32))) }
    ensures named_node { output_node (output a 3 (of_type int8)) ≡ node_named (codes "a") 3 }
    ensures name_and_type { output_column (output a 3 (of_type int8)) ≡ (codes "a", int8) }
{}

/// Expressions that are projected: their nodes and columns in order, under distinct names.
pub fn projections()
    ensures columns { Projects [] two_columns (NewName Duplicate) 0 (columns_and []) (b ∷ a ∷ [])
        (node_named (codes "b") 1 ∷ node_named (codes "a") 0 ∷ []) ((codes "b", int32) ∷ (codes "a", int8) ∷ []) }
    ensures none { Projects [] two_columns (NewName Duplicate) 0 [] [] [] [] }
    ensures one_too_few { ¬ (Projects [] (one_column int8) (NewName Duplicate) 0 a_items (a ∷ []) [] []) }
    ensures repeated { ¬ (Projects [] (one_column int8) (NewName Duplicate) 0 a_items (a ∷ a ∷ [])
        (node_named (codes "a") 0 ∷ node_named (codes "a") 0 ∷ []) ((codes "a", int8) ∷ (codes "a", int8) ∷ [])) }
    ensures one_more { AddsOutput [] two_columns (NewName Duplicate) 0 (columns_and []) b (node_named (codes "b") 1) (one_column int8) two_columns }
    ensures one_more_of_the_name { ¬ (AddsOutput [] (one_column int8) (NewName Duplicate) 0 a_items a (node_named (codes "a") 0) (one_column int8) ((codes "a", int8) ∷ (codes "a", int8) ∷ [])) }
{}

/// Why expressions can't be projected: one has no type, or its name stands before it, which is told as the kind that is asked for.
pub fn refusals_of_projections()
    ensures memory { IsOutputRefusal [] [] (NewName Duplicate) a [] no_memory }
    ensures no_such_column { IsOutputRefusal [] [] (NewName Duplicate) a [] (at_top ColumnNotFound) }
    ensures name_before_it { IsOutputRefusal [] (one_column int8) (NewName Duplicate) a (one_column int16) (at_top Duplicate) }
    ensures name_told_as_another_kind { IsOutputRefusal [] (one_column int8) (NewName ComputeError) a (one_column int16) (at_top ComputeError) }
    ensures kind_that_is_not_asked_for { ¬ (IsOutputRefusal [] (one_column int8) (NewName ComputeError) a (one_column int16) (at_top Duplicate)) }
    ensures new_name { ¬ (IsOutputRefusal [] (one_column int8) (NewName Duplicate) a ((codes "b", int16) ∷ []) (at_top Duplicate)) }
    ensures typed { ¬ (IsOutputRefusal [] (one_column int8) (NewName Duplicate) a [] (at_top ColumnNotFound)) }
    ensures second { RefusesOne [] (one_column int8) (NewName Duplicate) (a ∷ a ∷ []) (at_top Duplicate) }
    ensures first { IsProjectionRefusal [] [] (NewName Duplicate) (c ∷ []) (at_top ColumnNotFound) }
    ensures projection_without_memory { IsProjectionRefusal [] [] (NewName Duplicate) [] no_memory }
    ensures of_nothing { ¬ (RefusesOne [] [] (NewName Duplicate) [] (at_top Duplicate)) }
    ensures projection_of_nothing { ¬ (IsProjectionRefusal [] [] (NewName Duplicate) [] (at_top Duplicate)) }
{}

/// What stands for an expression says the same and is strict, with casts only where they change the type.
pub fn lowered_expressions()
    ensures sum { IsLowered [] two_columns (lowered_to sum int32 strict_sum) }
    ensures not_strict { ¬ (IsLowered [] two_columns (as_it_is sum int32)) }
    ensures idle_cast { ¬ (IsLowered [] (one_column int8) (lowered_to a int8 (node (CastOp int8 NonStrict) (more a no_more)))) }
    ensures other_expression { ¬ (IsLowered [] (columns_of int8 int8) (lowered_to a int8 b)) }
    ensures name { lowered_named (lowered_to a int8 wide) ≡ record { label = column_label (codes "a"); expression = wide } }
    ensures column { lowered_column (as_it_is a int8) ≡ (codes "a", int8) }
{}

/// Nodes that stand for expressions, under distinct names, or of the type that is asked for.
pub fn lowered_selects()
    ensures nodes { HasOutputs [] (one_column int8) (NewName Duplicate) a_items (a ∷ []) (node_named (codes "a") 0 ∷ []) (one_column int8) }
    ensures no_nodes { ¬ (HasOutputs [] (one_column int8) (NewName Duplicate) a_items (a ∷ []) [] (one_column int8)) }
    ensures in_an_order { HasOutputs [] (one_column int8) Order a_items (a ∷ []) (node_named (codes "a") 0 ∷ []) [] }
    ensures no_truth { ¬ (HasOutputs [] (one_column int8) TruthValue a_items (a ∷ []) (node_named (codes "a") 0 ∷ []) []) }
{}

/// What an expression breaks, where its name or its type is asked for, and the columns that are made.
pub fn kinds_that_are_asked()
    ensures name { asked_kinds (NewName Duplicate) (one_column int8) (codes "a") (of_type int16) ≡ Duplicate ∷ [] }
    ensures new_name { asked_kinds (NewName Duplicate) (one_column int8) (codes "b") (of_type int16) ≡ [] }
    ensures number { asked_kinds TruthValue [] (codes "a") (of_type int8) ≡ InvalidOperation ∷ [] }
    ensures ordered { asked_kinds Order [] (codes "a") (of_type int8) ≡ [] }
    ensures list { asked_kinds Order [] (codes "a") (of_type (ListType int8)) ≡ InvalidOperation ∷ [] }
    ensures columns { asked_columns (NewName Duplicate) two_columns ≡ two_columns }
    ensures no_columns { asked_columns Order two_columns ≡ [] }
    ensures memory { IsMemoryOrOne [] no_memory }
    ensures one { IsMemoryOrOne (Duplicate ∷ []) (at_top Duplicate) }
    ensures none { ¬ (IsMemoryOrOne [] (at_top Duplicate)) }
{}

/// Source expressions are expanded over the schema, and nodes stand for what comes out.
pub fn expanded_sources()
    ensures outputs { HasExpandedOutputs [] (one_column int8) Duplicate a_items (all ∷ []) (node_named (codes "a") 0 ∷ []) (one_column int8) }
    ensures outputs_of_nothing { HasExpandedOutputs [] [] Duplicate [] (all ∷ []) [] [] }
    ensures no_outputs { ¬ (HasExpandedOutputs [] (one_column int8) Duplicate a_items (nth (pos 1) ∷ []) [] []) }
    ensures predicate { HasExpandedPredicate [] truths keep_items all (node_named (codes "keep") 0) }
    ensures no_predicate { ¬ (HasExpandedPredicate [] two_columns a_items all (node_named (codes "a") 0)) }
{}

/// A predicate is of the type of truth values, and what stands for it says the same.
pub fn lowered_predicates()
    ensures predicate { FiltersBy [] truths keep (as_it_is keep Truth) }
    ensures number { ¬ (FiltersBy [] (one_column int8) a (as_it_is a int8)) }
    ensures node { HasPredicate [] truths keep_items keep (node_named (codes "keep") 0) }
    ensures node_of_a_number { ¬ (HasPredicate [] (one_column int8) a_items a (node_named (codes "a") 0)) }
    ensures filter { lowered_filter (as_it_is keep Truth) (scan_of truths) ≡ filter_over (scan_of truths) keep }
{}

/// Why an expression can't be a predicate: it has no type, or another than that of truth values.
pub fn refusals_of_predicates()
    ensures memory { IsOutputRefusal [] [] TruthValue a [] no_memory }
    ensures no_such_column { IsOutputRefusal [] [] TruthValue a [] (at_top ColumnNotFound) }
    ensures number { IsOutputRefusal [] (one_column int8) TruthValue a [] (at_top InvalidOperation) }
    ensures other_kind { ¬ (IsOutputRefusal [] (one_column int8) TruthValue a [] (at_top ColumnNotFound)) }
    ensures predicate { ¬ (IsOutputRefusal [] truths TruthValue keep [] (at_top InvalidOperation)) }
{}

/// Why source expressions aren't projected or don't filter: they aren't expanded, or what comes out is refused.
pub fn refusals_of_sources()
    ensures place_beyond_the_columns { IsUnprojected [] (one_column int8) Duplicate (nth (pos 1) ∷ []) (at_top ColumnNotFound) }
    ensures name_twice { IsUnprojected [] (one_column int8) Duplicate (all ∷ all ∷ []) (at_top Duplicate) }
    ensures projected { ¬ (IsUnprojected [] [] Duplicate (all ∷ []) (at_top Duplicate)) }
    ensures two_predicates { IsUnfiltered [] two_columns all (at_top ComputeError) }
    ensures number { IsUnfiltered [] (one_column int8) all (at_top InvalidOperation) }
    ensures predicate { ¬ (IsUnfiltered [] truths all (at_top InvalidOperation)) }
{}
