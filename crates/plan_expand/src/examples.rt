//! Worked examples. The functions do nothing: their clauses are the examples.
ghost use Rattle.std.specs.Prelude.{◌≡◌, ℕ, [], ◌∷◌, pos, negsuc, true, false, codes, Some, None, Ok, Err};
ghost use Rattle.plan_types.specs.Errors.{at_top, no_memory};
ghost use Rattle.plan_types.specs.Types.{Truth, TextType, StructType, no_field, with_field};
ghost use Rattle.plan_types.specs.declared.error.ErrorKind.TheVariants.{ColumnNotFound, InvalidOperation};
ghost use Rattle.plan_dsl.specs.Expansion.{column_field};
ghost use Rattle.plan_dsl.specs.Sources.{ExcludedName, ExcludedType, Add, ColumnsOp, FieldAtOp, NthOp, Plain, WildcardOp, RootOp, of_two};
ghost use Rattle.plan_dsl.specs.Ops.{ColumnOp, ExplodeOp, FilterOp};
ghost use Rattle.plan_dsl.specs.Trees.{node, no_more, more};
ghost use Rattle.plan_expand.specs.Names.{as_number, excluded_name, excluded_type, is_of_type, selected};
ghost use Rattle.plan_expand.specs.Refusals.{IsUnexpanded};
ghost use Rattle.plan_expand.specs.Changes.{only_column, own_field_named};
ghost use Rattle.plan_expand.specs.Walks.{first_marker, first_marker_of, first_root_of, is_of_plans, operand_list, operands_in, over, plan_operands_in};

/// A refusal is out of memory, or one of the kinds that the answer tells, at the empty place.
pub fn refusals_of_selectors()
    ensures memory { IsUnexpanded {A = ℕ} (Ok 3) no_memory × IsUnexpanded {A = ℕ} (Err (InvalidOperation ∷ [])) no_memory }
    ensures told { IsUnexpanded {A = ℕ} (Err (ColumnNotFound ∷ InvalidOperation ∷ [])) (at_top InvalidOperation) }
{}

/// A selector's names come once each, in order, and what its markers can't name refuses it.
pub fn names_of_selectors()
    ensures once { selected [] [] (node RootOp (more (node (ColumnsOp (codes "b" ∷ codes "a" ∷ codes "b" ∷ [])) no_more) no_more)) ≡ Ok (codes "b" ∷ codes "a" ∷ []) }
    ensures joined { selected [] ((codes "a", Truth) ∷ []) (of_two Add (node RootOp (more (node WildcardOp no_more) no_more)) (node RootOp (more (node (Plain (ColumnOp (codes "z"))) no_more) no_more))) ≡ Ok (codes "a" ∷ codes "z" ∷ []) }
    ensures refused { selected [] [] (node RootOp (more (node (NthOp (pos 0)) no_more) no_more)) ≡ Err ColumnNotFound }
{}

/// What is excluded as a name and what as a type. A name that no column has is of no type.
pub fn names_and_types()
    ensures name { (excluded_name (ExcludedName (codes "a")) ≡ codes "a" ∷ []) × (excluded_type (ExcludedName (codes "a")) ≡ []) }
    ensures dtype { (excluded_name (ExcludedType Truth) ≡ []) × (excluded_type (ExcludedType Truth) ≡ Truth ∷ []) }
    ensures of_type { (is_of_type ((codes "a", Truth) ∷ []) (codes "a") Truth ≡ true) × (is_of_type ((codes "a", Truth) ∷ []) (codes "a") TextType ≡ false) × (is_of_type ((codes "a", Truth) ∷ []) (codes "b") Truth ≡ false) }
    ensures place { (as_number (pos 3) ≡ Some 3) × (as_number (negsuc 0) ≡ None) }
{}

/// The first marker and the first column, in the order of operands.
pub fn first_ones()
    ensures marker { first_marker (node (Plain FilterOp) (more (node (Plain ExplodeOp) (more (node (NthOp (pos 1)) no_more) no_more)) (more (node WildcardOp no_more) no_more))) ≡ Some (node (NthOp (pos 1)) no_more) }
    ensures operands { (operands_in (node (Plain FilterOp) (more (node (NthOp (pos 1)) no_more) (more (node WildcardOp no_more) no_more))) ≡ Some (node (NthOp (pos 1)) no_more ∷ node WildcardOp no_more ∷ [])) × (operands_in (node WildcardOp no_more) ≡ None) }
    ensures of_plans { (plan_operands_in (node (Plain FilterOp) (more (node (NthOp (pos 1)) no_more) (more (node WildcardOp no_more) no_more))) ≡ Some (node (NthOp (pos 1)) no_more ∷ node WildcardOp no_more ∷ [])) × (plan_operands_in (node (FieldAtOp (pos 0)) (more (node WildcardOp no_more) no_more)) ≡ None) }
    ensures none { first_marker (node (Plain (ColumnOp (codes "a"))) no_more) ≡ None }
    ensures of_several { first_marker_of (node (Plain (ColumnOp (codes "a"))) no_more ∷ node WildcardOp no_more ∷ node (NthOp (pos 1)) no_more ∷ []) ≡ Some (node WildcardOp no_more) }
    ensures root { first_root_of (node WildcardOp no_more ∷ node (Plain (ColumnOp (codes "b"))) no_more ∷ node (Plain (ColumnOp (codes "c"))) no_more ∷ []) ≡ Some (codes "b") }
{}

/// Operands as passes over expressions see them, and ops that expansion leaves.
pub fn operands_and_ops()
    ensures list { (operand_list (node WildcardOp no_more) ≡ []) × (operand_list (node (Plain ExplodeOp) (more (node WildcardOp no_more) no_more)) ≡ node WildcardOp no_more ∷ []) }
    ensures over { over (node (Plain ExplodeOp) (more (node WildcardOp no_more) no_more)) (node (NthOp (pos 1)) no_more ∷ []) ≡ node (Plain ExplodeOp) (more (node (NthOp (pos 1)) no_more) no_more) }
    ensures plans { (is_of_plans (Plain ExplodeOp) ≡ true) × (is_of_plans (FieldAtOp (pos 0)) ≡ false) × (is_of_plans WildcardOp ≡ false) }
{}

/// A field at a place is one of a column of structs, and of that alone.
pub fn fields_at_places()
    ensures column { (only_column (node (Plain (ColumnOp (codes "s"))) no_more ∷ []) ≡ Some (codes "s")) × (only_column [] ≡ None) × (only_column (node (NthOp (pos 1)) no_more ∷ []) ≡ None) }
    ensures named { own_field_named ((codes "s", StructType (with_field (codes "x") Truth no_field)) ∷ []) (node (FieldAtOp (negsuc 0)) (more (node (Plain (ColumnOp (codes "s"))) no_more) no_more)) ≡ Ok (column_field (codes "s") (codes "x")) }
    ensures past { own_field_named ((codes "s", StructType (with_field (codes "x") Truth no_field)) ∷ []) (node (FieldAtOp (pos 1)) (more (node (Plain (ColumnOp (codes "s"))) no_more) no_more)) ≡ Err InvalidOperation }
    ensures lacking { own_field_named [] (node (FieldAtOp (pos 0)) (more (node (Plain (ColumnOp (codes "s"))) no_more) no_more)) ≡ Err ColumnNotFound }
    ensures other { own_field_named [] (node (FieldAtOp (pos 0)) no_more) ≡ Err InvalidOperation }
{}
