//! Expressions that are one.

ghost use Rattle.std.specs.Prelude.{◌≡◌, ℕ, [], ◌∷◌, pos, neg_ℤ, codes, nat_eq, true, false};
ghost use Rattle.plan_types.specs.Types.{Truth, Untyped};
ghost use Rattle.plan_types.specs.declared.dtype.CastOptions.TheVariants.{Strict, NonStrict, Overflowing};
ghost use Rattle.plan_types.specs.declared.dtype.TimeUnit.TheVariants.{Nanoseconds, Microseconds};
ghost use Rattle.plan_dsl.specs.declared.literal.LiteralValue.TheVariants.{Null, Boolean, String, Int, Int8, Int16, UInt8, Date, Time, DateTime, Duration};
ghost use Rattle.plan_dsl.specs.declared.operator.Operator.TheVariants.{Eq, EqValidity, Plus, And, Or, LogicalAnd, LogicalOr};
ghost use Rattle.plan_dsl.specs.Trees.{node, no_more, more};
ghost use Rattle.plan_dsl.specs.Ops.{ColumnOp, LiteralOp, BinaryOp, CastOp, LenOp, SliceOp, AliasOp, SortByOp};
ghost use Rattle.plan_dsl.specs.SameExpressions.{same_literal, same_op, same_tree};
ghost use Rattle.plan_dsl.specs.Samples.{Gives, GivesAll, int8, uint8, null, yes, number, a, b, count, slice, typed_literal, binary, sum, cast_as, rising_by};

/// Two literals are one where their types and their values are.
pub fn same_literals()
    ensures one { GivesAll (λ literal. same_literal literal literal) true (
        Int8 (pos 1) ∷ Int (pos 1) ∷ DateTime (pos 1) Microseconds ∷ String (codes "1") ∷ Boolean true ∷ Null ∷ []) }
    ensures number { GivesAll (same_literal (Int8 (pos 1))) false (
        Int8 (neg_ℤ (pos 1)) ∷ Int16 (pos 1) ∷ UInt8 1 ∷ Int (pos 1) ∷ Date (pos 1) ∷ Time (pos 1) ∷ Boolean true ∷ Null ∷ []) }
    ensures untyped { GivesAll (same_literal (Int (pos 1))) false (Int (pos 2) ∷ Int8 (pos 1) ∷ []) }
    ensures units { GivesAll (same_literal (DateTime (pos 1) Microseconds)) false (
        DateTime (pos 2) Microseconds ∷ DateTime (pos 1) Nanoseconds ∷ Duration (pos 1) Microseconds ∷ []) }
    ensures text { GivesAll (same_literal (String (codes "1"))) false (String (codes "11") ∷ String (codes "") ∷ Int (pos 1) ∷ Null ∷ []) }
    ensures truth { GivesAll (same_literal (Boolean true)) false (Boolean false ∷ Null ∷ []) }
    ensures null { GivesAll (same_literal Null) false (Boolean false ∷ Int (pos 0) ∷ String [] ∷ []) }
{}

/// Two nodes do the same where they are of one kind, and all that they name is the same.
pub fn same_nodes()
    ensures one { GivesAll (λ op. same_op op op) true (
        ColumnOp (codes "a") ∷ BinaryOp And ∷ BinaryOp Eq ∷ CastOp int8 Strict ∷ LiteralOp int8 (number 1) ∷ LenOp ∷ SliceOp ∷ AliasOp (codes "a") ∷
        SortByOp (true ∷ false ∷ []) (false ∷ []) ∷ SortByOp [] [] ∷ []) }
    ensures columns { GivesAll (same_op (ColumnOp (codes "a"))) false (ColumnOp (codes "b") ∷ ColumnOp (codes "aa") ∷ ColumnOp [] ∷ []) }
    ensures operators { GivesAll (same_op (BinaryOp And)) false (BinaryOp LogicalAnd ∷ BinaryOp Or ∷ []) }
    ensures comparisons { GivesAll (same_op (BinaryOp Eq)) false (BinaryOp EqValidity ∷ BinaryOp LogicalOr ∷ []) }
    ensures casts { GivesAll (same_op (CastOp int8 Strict)) false (CastOp int8 NonStrict ∷ CastOp int8 Overflowing ∷ CastOp uint8 Strict ∷ CastOp Truth Strict ∷ []) }
    ensures literals { GivesAll (same_op (LiteralOp int8 (number 1))) false (LiteralOp int8 (number 2) ∷ LiteralOp int8 null ∷ LiteralOp (Untyped (pos 1)) (number 1) ∷ []) }
    ensures other_kind { GivesAll (same_op (BinaryOp Plus)) false (ColumnOp (codes "+") ∷ LiteralOp Truth yes ∷ CastOp Truth Strict ∷ LenOp ∷ []) }
    ensures aliases { GivesAll (same_op (AliasOp (codes "a"))) false (AliasOp (codes "b") ∷ ColumnOp (codes "a") ∷ []) }
    ensures flags { GivesAll (same_op (SortByOp (true ∷ []) (false ∷ []))) false (
        SortByOp (false ∷ []) (true ∷ []) ∷ SortByOp (true ∷ []) (true ∷ []) ∷ SortByOp (true ∷ true ∷ []) (false ∷ []) ∷ SortByOp [] (false ∷ []) ∷ LenOp ∷ []) }
    ensures counts { GivesAll (same_op LenOp) false (SliceOp ∷ ColumnOp (codes "len") ∷ LiteralOp Truth yes ∷ []) }
{}

/// Two expressions are one where their nodes do the same in the same places.
pub fn same_expressions()
    ensures one { let far_below = cast_as Strict Truth (sum (typed_literal int8 (pos 1)) (typed_literal int8 (pos 2))) in
        GivesAll (λ tree. same_tree same_op tree tree) true (sum a b ∷ cast_as Strict Truth a ∷ far_below ∷ []) }
    ensures sums { GivesAll (same_tree same_op (sum a b)) false (sum b a ∷ sum a a ∷ binary Or a b ∷ node (BinaryOp Plus) (more a no_more) ∷ a ∷ []) }
    ensures sides { same_tree same_op (sum (sum a a) a) (sum a (sum a a)) ≡ false }
    ensures far_below { let one = typed_literal int8 (pos 1) in
        same_tree same_op (cast_as Strict Truth (sum one one)) (cast_as Strict Truth (sum one (typed_literal int8 (pos 2)))) ≡ false }
    ensures slices { GivesAll (same_tree same_op (slice a b b)) false (slice b a b ∷ slice b b a ∷ count ∷ a ∷ []) }
    ensures keys { GivesAll (same_tree same_op (rising_by (a ∷ b ∷ []) a)) false (rising_by (b ∷ a ∷ []) a ∷ rising_by (a ∷ []) a ∷ rising_by (a ∷ b ∷ b ∷ []) a ∷ a ∷ []) }
    ensures casts { GivesAll (same_tree same_op (cast_as Strict Truth a)) false (cast_as NonStrict Truth a ∷ a ∷ []) }
    ensures other_trees { let under = λ (number : ℕ). node 1 (more (node number no_more) no_more) in
        Gives (same_tree nat_eq (under 2)) ((under 2, true) ∷ (under 3, false) ∷ (node 1 no_more, false) ∷ []) }
{}
