//! Items that are handed over by themselves: what they denote, and the types and refusals of that.

ghost use Rattle.std.specs.Prelude.{◌≡◌, [], ◌∷◌, pos, codes, true, false};
ghost use Rattle.std.specs.List.{AllByRecursion};
ghost use Rattle.plan_types.specs.Errors.{no_memory, at_top};
ghost use Rattle.plan_types.specs.Types.{ListType, ty};
ghost use Rattle.plan_types.specs.declared.dtype.DataType.{DataType};
ghost use Rattle.plan_types.specs.declared.dtype.DataType.TheVariants.{Int8, Int16};
ghost use Rattle.plan_types.specs.declared.error.ErrorKind.TheVariants.{ColumnNotFound, SchemaMismatch};
ghost use Rattle.plan_types.specs.declared.field.Field.{Field};
ghost use Rattle.plan_dsl.specs.declared.literal.LiteralValue.TheVariants.{Int};
ghost use Rattle.plan_dsl.specs.declared.operator.Operator.TheVariants.{Eq, Plus};
ghost use Rattle.plan_dsl.specs.Ops.{Expression};
ghost use Rattle.plan_arena.specs.declared.aexpr.AExpr.{AExpr};
ghost use Rattle.plan_arena.specs.declared.aexpr.AExpr.TheVariants.{Column, Literal};
ghost use Rattle.plan_arena.specs.Items.{expression_layer};
ghost use Rattle.plan_infer.specs.declared.field.Context.TheVariants.{Default, Aggregation};
ghost use Rattle.plan_infer.specs.ItemTrees.{HasOperands, IsItemField, IsItemRefusal, IsItemType, IsTypeOf, LayerDenotes, StaysWhereMany};
ghost use Rattle.plan_infer.specs.Samples.{int8, one_column, a, b, binary, a_items, columns_and, pair, sum};

/// An item denotes the expression that a node would which has it, over what its inputs denote.
pub fn expressions_of_items()
    ensures column { LayerDenotes [] (expression_layer (Column (codes "a"))) a }
    ensures sum { LayerDenotes (columns_and []) (expression_layer (pair 0 Plus 1)) sum }
    ensures others { AllByRecursion {X = AExpr × Expression} (λ c. ¬ (LayerDenotes (columns_and []) (expression_layer c.0) c.1))
        ((Column (codes "a"), b) ∷ (pair 0 Plus 1, binary Eq a b) ∷ (pair 1 Plus 0, sum) ∷ (pair 0 Plus 1, a) ∷ (pair 0 Plus 2, sum) ∷ []) }
    ensures operands { HasOperands (columns_and []) (expression_layer (pair 0 Plus 1)) × HasOperands [] (expression_layer (Column (codes "a"))) }
    ensures no_such_operand { ¬ (HasOperands a_items (expression_layer (pair 0 Plus 1))) }
{}

/// The types that expressions have in a context, and those of an item's.
pub fn types_of_items()
    ensures alone { IsTypeOf [] (one_column int8) Default a Int8 }
    ensures in_an_aggregation { (dtype : DataType) → ty dtype ≡ ListType int8 → IsTypeOf [] (one_column int8) Aggregation a dtype }
    ensures other { ¬ (IsTypeOf [] (one_column int8) Default a Int16) × ¬ (IsTypeOf [] (one_column int8) Aggregation a Int8) × ¬ (IsTypeOf [] [] Default a Int8) }
    ensures item { IsItemType [] (one_column int8) Default [] (expression_layer (Column (codes "a"))) Int8 }
    ensures other_item { ¬ (IsItemType [] (one_column int8) Default [] (expression_layer (Column (codes "a"))) Int16) }
    ensures field { (field : Field) → field.name ≡ codes "a" → field.dtype ≡ Int8 → IsItemField [] (one_column int8) Default [] (expression_layer (Column (codes "a"))) field }
    ensures other_name { (field : Field) → field.name ≡ codes "b" → ¬ (IsItemField [] (one_column int8) Default [] (expression_layer (Column (codes "a"))) field) }
{}

/// An item is refused as the typing of what it denotes.
pub fn refusals_of_items()
    ensures no_such_column { IsItemRefusal [] [] [] (expression_layer (Column (codes "a"))) (at_top ColumnNotFound) }
    ensures memory { IsItemRefusal [] [] [] (expression_layer (Column (codes "a"))) no_memory }
    ensures other_kind { ¬ (IsItemRefusal [] [] [] (expression_layer (Column (codes "a"))) (at_top SchemaMismatch)) }
    ensures typed { ¬ (IsItemRefusal [] (one_column int8) [] (expression_layer (Column (codes "a"))) (at_top ColumnNotFound)) }
{}

/// A flag stays true over a column, and falls over one value.
pub fn flags_of_items()
    ensures column { StaysWhereMany [] (one_column int8) [] (expression_layer (Column (codes "a"))) true true }
    ensures falls { ¬ (StaysWhereMany [] (one_column int8) [] (expression_layer (Column (codes "a"))) true false) }
    ensures fallen { StaysWhereMany [] (one_column int8) [] (expression_layer (Column (codes "a"))) false false }
    ensures number { StaysWhereMany [] [] [] (expression_layer (Literal (Int (pos 5)))) true false }
{}
