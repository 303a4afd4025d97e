//! Expressions of a query that have no field, and numbers at their top.

ghost use Rattle.std.specs.Prelude.{[], ◌∷◌, pos, true, false};
ghost use Rattle.plan_types.specs.Errors.{no_memory, at_top};
ghost use Rattle.plan_types.specs.declared.error.ErrorKind.TheVariants.{ColumnNotFound, InvalidOperation};
ghost use Rattle.plan_dsl.specs.Samples.{Gives, alias, all, five, huge, int32, sum, typed_literal};
ghost use Rattle.plan_dsl.specs.Sources.{written};
ghost use Rattle.plan_infer.specs.Samples.{int8, one_column, a};
ghost use Rattle.plan_lower.specs.ExpressionFields.{IsFieldRefusal};
ghost use Rattle.plan_lower.specs.TopNumbers.{settled_at_top, settles_at_top};

/// A number without a type gets the one that it has alone at the top and directly under an alias there, and no deeper.
pub fn numbers_at_the_top()
    ensures types { Gives settled_at_top (
        (five, typed_literal int32 (pos 5)) ∷ (alias "x" five, alias "x" (typed_literal int32 (pos 5))) ∷ (alias "y" (alias "x" five), alias "y" (alias "x" five)) ∷
        (sum five a, sum five a) ∷ (alias "x" (sum five a), alias "x" (sum five a)) ∷ []) }
    ensures has_one { Gives settles_at_top (
        (five, true) ∷ (huge, false) ∷ (alias "x" huge, false) ∷ (alias "y" (alias "x" huge), true) ∷ (sum huge a, true) ∷ (alias "x" a, true) ∷ []) }
{}

/// Why an expression has no field: a marker is left in it, no type has the number at its top, or it has no type.
pub fn refusals_of_fields()
    ensures memory { IsFieldRefusal [] (one_column int8) (written a) no_memory }
    ensures marker { IsFieldRefusal [] (one_column int8) all (at_top InvalidOperation) }
    ensures number { IsFieldRefusal [] [] (written huge) (at_top InvalidOperation) }
    ensures no_such_column { IsFieldRefusal [] [] (written a) (at_top ColumnNotFound) }
    ensures other_kind { ¬ (IsFieldRefusal [] [] (written a) (at_top InvalidOperation)) }
    ensures typed { ¬ (IsFieldRefusal [] (one_column int8) (written a) (at_top ColumnNotFound)) }
    ensures type_of_a_marker { ¬ (IsFieldRefusal [] [] all (at_top ColumnNotFound)) }
{}
