//! Coercion: what makes an operand one of the type to which it is taken, and what becomes of an arena.

ghost use Rattle.std.specs.Prelude.{◌≡◌, [], ◌∷◌, pos, codes};
ghost use Rattle.plan_types.specs.Types.{NullType, Truth, TextType, DateType, DatetimeType, DurationType, ListType, ty};
ghost use Rattle.plan_types.specs.declared.dtype.DataType.{DataType};
ghost use Rattle.plan_types.specs.declared.dtype.DataType.TheVariants as dtype;
ghost use Rattle.plan_types.specs.declared.dtype.TimeUnit.TheVariants.{Nanoseconds, Microseconds, Milliseconds};
ghost use Rattle.plan_dsl.specs.declared.literal.LiteralValue.TheVariants.{Int, Int8};
ghost use Rattle.plan_dsl.specs.declared.operator.Operator.TheVariants.{Eq, LogicalAnd, Plus};
ghost use Rattle.plan_arena.specs.declared.aexpr.AExpr.TheVariants.{Column, Literal};
ghost use Rattle.plan_infer.specs.Typed.{DenotesTyped, DenotesKnown};
ghost use Rattle.plan_coerce.specs.Coercion.{KeepsBelow};
ghost use Rattle.plan_coerce.specs.Kinds.{IsOfAKind, IsStep};
ghost use Rattle.plan_coerce.specs.Optimizer.{AreWrittenOut, DenotesLike, StaysLike};
ghost use Rattle.plan_coerce.specs.Rules.{HasSameWritten};
ghost use Rattle.plan_coerce.specs.Reaching.{IsReached, Near};
ghost use Rattle.plan_infer.specs.Samples.{int8, int32, int64, one_column, columns_of, two_columns, struct_of, a, b, literal, number, five, binary, cast_to, sum, pair, columns_and, sum_items, a_items};
ghost use Rattle.plan_coerce.specs.Samples.{cast_of, of, strict_items, strict_sum};
ghost use Rattle.plan_dsl.specs.Coercion.{coerced};
ghost use Rattle.plan_dsl.specs.InlinedCasts.{written_out};
ghost use Rattle.plan_dsl.specs.Samples.{text};

/// With every cast written out an operand of another type stands under one, a number without a type has become a
/// literal, and nothing else has changed: what is strict stays, and so does what has no type.
pub fn casts_written_out()
    ensures cast { coerced [] two_columns sum ≡ strict_sum }
    ensures strict { coerced [] two_columns strict_sum ≡ strict_sum }
    ensures literal { coerced [] (one_column int8) (binary Plus a five) ≡ binary Plus a (literal int8 (pos 5)) }
    ensures below { coerced [] two_columns (cast_to int8 sum) ≡ cast_to int8 strict_sum }
    ensures written_cast { coerced [] (one_column int8) (cast_to int8 a) ≡ cast_to int8 a }
    ensures without_type { coerced [] [] sum ≡ sum }
{}

/// A node denotes a typed expression of nodes from a number on, or one whose type is of columns.
pub fn nodes_of_typed_expressions()
    ensures sum { DenotesTyped [] two_columns 0 sum_items 2 }
    ensures sum_is_known { DenotesKnown [] two_columns 0 sum_items 2 }
    ensures node_below_the_number { ¬ (DenotesTyped [] two_columns 1 sum_items 2) }
    ensures no_such_column { ¬ (DenotesTyped [] ((codes "b", int32) ∷ []) 0 a_items 0) }
    ensures number { DenotesTyped [] [] 0 (Literal (Int (pos 5)) ∷ []) 0 }
    ensures number_is_not_known { ¬ (DenotesKnown [] [] 0 (Literal (Int (pos 5)) ∷ []) 0) }
{}

/// Operands are cast to their common type, or each to the type to which the operator takes it.
pub fn casts_of_other_operands()
    ensures span_in_another_unit { coerced [] (columns_of (DatetimeType Microseconds) (DurationType Nanoseconds)) (binary Plus a b) ≡ binary Plus a (cast_to (DurationType Microseconds) b) }
    ensures date_beside_a_moment { coerced [] (columns_of DateType (DatetimeType Milliseconds)) (binary Eq a b) ≡ binary Eq (cast_to (DatetimeType Milliseconds) a) b }
    ensures truth_value_beside_a_text { coerced [] (columns_of TextType Truth) (binary Plus a b) ≡ binary Plus a (cast_to TextType b) }
    ensures null_beside_a_number { coerced [] (columns_of NullType int8) (binary Eq a b) ≡ binary Eq (cast_to int8 a) b }
    ensures lists { coerced [] (columns_of (ListType int8) (ListType int64)) (binary Eq a b) ≡ binary Eq (cast_to (ListType int64) a) b }
    ensures structs { coerced [] (columns_of (struct_of (codes "x") TextType) (struct_of (codes "x") Truth)) (binary Eq a b) ≡ binary Eq a (cast_to (struct_of (codes "x") TextType) b) }
{}

/// Coercion leaves items below a number, and of each root what it denoted, written out. Trees stay like what they were.
pub fn coerced_sums()
    ensures cast { AreWrittenOut [] two_columns 0 sum_items strict_items (2 ∷ []) }
    ensures unchanged { ¬ (AreWrittenOut [] two_columns 0 sum_items sum_items (2 ∷ [])) }
    ensures both_to_another_type { let after = columns_and (pair 3 Plus 4 ∷ cast_of 0 dtype.Int64 ∷ cast_of 1 dtype.Int64 ∷ []) in
        ¬ (AreWrittenOut [] two_columns 0 sum_items after (2 ∷ [])) }
    ensures turned_round { ¬ (AreWrittenOut [] two_columns 0 sum_items (columns_and (pair 1 Plus 3 ∷ cast_of 0 dtype.Int32 ∷ [])) (2 ∷ [])) }
    ensures number_left { ¬ (AreWrittenOut [] [] 0 (Literal (Int (pos 5)) ∷ []) (Literal (Int (pos 5)) ∷ []) (0 ∷ [])) }
    ensures item_below { ¬ (AreWrittenOut [] [] 1 a_items (Column (codes "b") ∷ []) []) }
    ensures nothing_done { StaysLike (HasSameWritten [] (one_column int8)) [] (one_column int8) (columns_and []) (columns_and []) }
    ensures other_tree { ¬ (StaysLike (HasSameWritten [] (columns_of int8 int8)) [] (columns_of int8 int8) a_items (Column (codes "b") ∷ [])) }
    ensures items_below { KeepsBelow 1 (columns_and []) (Column (codes "a") ∷ Column (codes "c") ∷ []) }
    ensures same { DenotesLike (HasSameWritten [] (one_column int8)) [] (one_column int8) a_items 0 a }
    ensures not_same { ¬ (DenotesLike (HasSameWritten [] (columns_of int8 int8)) [] (columns_of int8 int8) (Column (codes "b") ∷ []) 0 a) }
{}

/// A root reaches itself and what its inputs lead to. Nodes that are added are near.
pub fn reached_nodes()
    ensures root { IsReached sum_items (2 ∷ []) 2 }
    ensures input { IsReached sum_items (2 ∷ []) 1 }
    ensures other { ¬ (IsReached sum_items (0 ∷ []) 1) }
    ensures added { Near sum_items (0 ∷ []) 3 }
    ensures not_near { ¬ (Near sum_items (0 ∷ []) 1) }
{}

/// What is written out has its casts, but for those that can be told beforehand.
#[tactic(auto, unfolding(crate::proofs::OnLiterals::texts_on_literals))]
pub fn sums_written_out()
    ensures none { written_out [] two_columns strict_sum ≡ strict_sum }
    ensures literal_cast { written_out [] two_columns (binary Plus b (literal int8 (pos 5))) ≡ binary Plus b (literal int32 (pos 5)) }
    ensures number_cast_to_a_text { written_out [] (one_column TextType) (cast_to TextType five) ≡ of TextType (text "5") }
{}

/// What is replaced is of four kinds, at any node: a cast to another type is put round an operand, a number without a type
/// gets one, a cast of a literal becomes a literal, and one of `LogicalAnd` or `LogicalOr` is gone.
pub fn replacements_by_kind()
    ensures cast_put { IsStep [] two_columns sum strict_sum }
    ensures same_type { ¬ (IsOfAKind [] two_columns a (cast_to int8 a)) }
    ensures number_typed { IsOfAKind [] [] five (literal int8 (pos 5)) }
    ensures literal_told { IsOfAKind [] [] (cast_to int8 (literal int32 (pos 5))) (literal int8 (pos 5)) }
    ensures cast_gone { IsOfAKind [] two_columns (cast_to Truth (binary LogicalAnd a b)) (binary LogicalAnd a b) }
{}
