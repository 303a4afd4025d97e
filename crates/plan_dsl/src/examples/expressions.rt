//! Trees of expressions, their names and their types.

ghost use Rattle.std.specs.Prelude.{◌≡◌, ℕ, ◌+◌, [], ◌∷◌, sum as total, pos, codes, Some, None, Err};
ghost use Rattle.plan_types.specs.declared.dtype.CastOptions.TheVariants.{Strict, NonStrict};
ghost use Rattle.plan_types.specs.declared.error.ErrorKind.TheVariants.{ColumnNotFound, SchemaMismatch};
ghost use Rattle.plan_dsl.specs.declared.operator.Operator.TheVariants.{Plus};
ghost use Rattle.plan_dsl.specs.Trees.{node, no_more, fold, tree_at, tree_depth};
ghost use Rattle.plan_dsl.specs.Ops.{ColumnOp, BinaryOp, CastOp};
ghost use Rattle.plan_dsl.specs.Names.{column_label, literal_label, label_of, name_of};
ghost use Rattle.plan_dsl.specs.Typing.{typing, typing_rule, kinds_in};
ghost use Rattle.plan_dsl.specs.Samples.{Gives, GivesOfTwo, column, typed_literal, int8, int16, int32, int64, uint8, uint16, a, b, c, d, u, count, sum, cast_as, one_value, many_values, of_many, of_one, schema_abu};

/// A column has its own name, and any other node that of its first child, with what that comes from.
pub fn names_of_expressions()
    ensures names { Gives name_of (
        (a, codes "a") ∷ (sum a b, codes "a") ∷ (sum b a, codes "b") ∷
        (cast_as Strict int32 a, codes "a") ∷ (cast_as Strict int64 (sum b a), codes "b") ∷
        (sum (sum c a) b, codes "c") ∷ (node (BinaryOp Plus) no_more, codes "literal") ∷ (count, codes "len") ∷ (sum count a, codes "len") ∷ []) }
    ensures labels { Gives label_of (
        (a, column_label (codes "a")) ∷ (typed_literal int8 (pos 1), literal_label (codes "literal")) ∷ (sum b a, column_label (codes "b")) ∷
        (sum (typed_literal int8 (pos 1)) a, literal_label (codes "literal")) ∷ (cast_as NonStrict int32 a, column_label (codes "a")) ∷
        (column "literal", column_label (codes "literal")) ∷ (sum count a, literal_label (codes "len")) ∷ []) }
{}

/// A column has its schema's type, a sum the common type of its operands, and a cast its target.
pub fn types_of_expressions()
    ensures types { Gives (typing [] schema_abu) (
        (a, of_many int8) ∷ (sum a b, of_many int32) ∷ (sum b a, of_many int32) ∷ (sum a a, of_many int8) ∷
        (cast_as Strict int16 a, of_many int16) ∷
        (cast_as NonStrict uint8 u, of_many uint8) ∷
        (sum a (cast_as Strict uint16 a), of_many int32) ∷ (sum (sum a a) b, of_many int32) ∷
        (sum (cast_as NonStrict int64 u) a, of_many int64) ∷ []) }
{}

/// A column may have another length than one, and an operator and a cast where some input may.
pub fn lengths_of_nodes()
    ensures lengths { let one = one_value int8 in
        let many = many_values int8 in
        GivesOfTwo (typing_rule [] ((codes "a", int8) ∷ [])) (
        (ColumnOp (codes "a"), [], of_many int8) ∷
        (BinaryOp Plus, one ∷ one ∷ [], of_one int8) ∷ (BinaryOp Plus, many ∷ one ∷ [], of_many int8) ∷ (BinaryOp Plus, one ∷ many ∷ [], of_many int8) ∷
        (CastOp int32 Strict, one ∷ [], of_one int32) ∷ (CastOp int32 Strict, many ∷ [], of_many int32) ∷ []) }
{}

/// Typing refuses for what the first refused child is refused.
pub fn refused_expressions()
    ensures refused { Gives (typing [] schema_abu) (
        (c, Err ColumnNotFound) ∷ (sum u a, Err SchemaMismatch) ∷ (sum a u, Err SchemaMismatch) ∷
        (sum c (sum u a), Err ColumnNotFound) ∷ (sum (sum u a) c, Err SchemaMismatch) ∷ (sum a c, Err ColumnNotFound) ∷
        (cast_as NonStrict int64 (sum u a), Err SchemaMismatch) ∷ []) }
{}

/// The kinds that the nodes break whose children are typed.
pub fn kinds_that_expressions_break()
    ensures kinds { Gives (kinds_in [] schema_abu) (
        (sum a b, []) ∷
        (c, ColumnNotFound ∷ []) ∷
        (sum u a, SchemaMismatch ∷ []) ∷
        (sum c (sum u a), ColumnNotFound ∷ SchemaMismatch ∷ []) ∷
        (sum (sum u a) c, SchemaMismatch ∷ ColumnNotFound ∷ []) ∷
        (sum c d, ColumnNotFound ∷ ColumnNotFound ∷ []) ∷
        (sum u c, ColumnNotFound ∷ []) ∷
        (cast_as NonStrict int64 (sum u a), SchemaMismatch ∷ []) ∷ []) }
{}

/// A tree by the child numbers from its top, and how deep and how large it is.
pub fn parts_of_trees()
    ensures at_places { let wide = cast_as Strict int64 (sum a b) in
        GivesOfTwo (λ tree place. tree_at (Some tree) place) (
        (sum a b, [], Some (sum a b)) ∷ (sum a b, 0 ∷ [], Some a) ∷ (sum a b, 1 ∷ [], Some b) ∷ (sum a b, 2 ∷ [], None) ∷
        (wide, 0 ∷ 1 ∷ [], Some b) ∷ (sum a b, 0 ∷ 0 ∷ [], None) ∷ []) }
    ensures depth { tree_depth (sum (cast_as Strict int64 a) b) ≡ 3 }
    ensures size { fold {A = ℕ} (λ op below. 1 + total below) (sum (cast_as Strict int64 a) b) ≡ 4 }
{}
