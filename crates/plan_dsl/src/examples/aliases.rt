//! Aliases: names, types, and expressions without them.

ghost use Rattle.std.specs.Prelude.{◌≡◌, ◌∷◌, [], pos, codes, true, false, Err, Ok};
ghost use Rattle.plan_types.specs.Types.{Untyped};
ghost use Rattle.plan_types.specs.Outcomes.{Done, Stuck};
ghost use Rattle.plan_types.specs.declared.dtype.CastOptions.TheVariants.{NonStrict};
ghost use Rattle.plan_types.specs.declared.error.ErrorKind.TheVariants.{ColumnNotFound, InvalidOperation, SchemaMismatch};
ghost use Rattle.plan_dsl.specs.Aliases.{core, is_core, pruned, renamed};
ghost use Rattle.plan_dsl.specs.Literals.{settled};
ghost use Rattle.plan_dsl.specs.Names.{alias_label, column_label, label_of, literal_label};
ghost use Rattle.plan_dsl.specs.Ops.{AliasOp};
ghost use Rattle.plan_dsl.specs.Plans.{named};
ghost use Rattle.plan_dsl.specs.Strictness.{IsSame, is_strict};
ghost use Rattle.plan_dsl.specs.Trees.{node, no_more, more};
ghost use Rattle.plan_dsl.specs.Typing.{kinds_in, typing};
ghost use Rattle.plan_dsl.specs.Samples.{Gives, GivesOfTwo, AreOperands, int8, int32, int64, number, a, b, c, one, five, wide, count, typed_literal, sum, cast_as, slice, alias, of_many, of_one, means, runs, table, schema_ab};

/// The topmost alias on the way down first operands gives the name. It comes from an alias, also where a column has it.
pub fn names_of_aliases()
    ensures labels { Gives label_of (
        (alias "x" a, alias_label (codes "x")) ∷ (alias "a" a, alias_label (codes "a")) ∷ (alias "y" (alias "x" a), alias_label (codes "y")) ∷
        (sum (alias "x" a) one, alias_label (codes "x")) ∷ (sum a (alias "x" b), column_label (codes "a")) ∷
        (sum one (alias "x" b), literal_label (codes "literal")) ∷ (cast_as NonStrict int8 (slice (alias "x" a) one one), alias_label (codes "x")) ∷ []) }
    ensures named { Gives named (
        (alias "x" (sum a b), record { label = alias_label (codes "x"); expression = sum a b }) ∷
        (sum (alias "x" a) one, record { label = alias_label (codes "x"); expression = sum a one }) ∷ []) }
{}

/// An alias is typed as its operand is, a number without a type too, which then gets that of what stands beside it.
pub fn types_of_aliases()
    ensures types { Gives (typing [] schema_ab) (
        (alias "x" a, of_many int8) ∷ (alias "x" count, typing [] schema_ab count) ∷ (alias "x" five, of_one (Untyped (pos 5))) ∷
        (sum (alias "x" five) a, of_many int8) ∷ (sum (alias "x" five) b, of_many int32) ∷ (alias "x" (sum wide a), typing [] schema_ab (sum wide a)) ∷
        (alias "x" c, Err ColumnNotFound) ∷ (node (AliasOp (codes "x")) no_more, Err SchemaMismatch) ∷ (node (AliasOp (codes "x")) (more a (more b no_more)), Err SchemaMismatch) ∷ []) }
    ensures kinds { Gives (kinds_in [] schema_ab) ((alias "x" (alias "y" c), ColumnNotFound ∷ []) ∷ (alias "x" (slice a b one), InvalidOperation ∷ []) ∷ []) }
    ensures settled { Gives settled (
        (alias "x" five, alias "x" (typed_literal int32 (pos 5))) ∷ (alias "y" (alias "x" five), alias "y" (alias "x" (typed_literal int32 (pos 5)))) ∷
        (sum (alias "x" five) a, sum (alias "x" five) a) ∷ (alias "x" a, alias "x" a) ∷ []) }
    ensures operands { AreOperands (
        (Untyped (pos 5), int8, alias "x" five, alias "x" (typed_literal int8 (pos 5))) ∷
        (Untyped (pos 5), int8, alias "y" (alias "x" five), alias "y" (alias "x" (typed_literal int8 (pos 5)))) ∷
        (Untyped (pos 300), int8, alias "x" wide, alias "x" (cast_as NonStrict int8 (typed_literal int32 (pos 300)))) ∷
        (int8, int32, alias "x" a, cast_as NonStrict int32 (alias "x" a)) ∷ []) }
    ensures strict { Gives (is_strict [] schema_ab) ((alias "x" a, true) ∷ (alias "x" five, false) ∷ (alias "x" (sum a b), false) ∷ (sum (alias "x" a) a, true) ∷ []) }
{}

/// Without its aliases an expression says the same, but for its name. Only so it runs as it is written.
pub fn expressions_without_aliases()
    ensures cores { Gives core (
        (a, a) ∷ (alias "x" a, a) ∷ (alias "y" (alias "x" a), a) ∷ (sum (alias "x" a) (alias "y" (sum a (alias "z" one))), sum a (sum a one)) ∷
        (slice (alias "x" a) (alias "y" one) one, slice a one one) ∷ []) }
    ensures with_aliases { Gives (pruned true true) ((alias "x" a, alias "x" a) ∷ (sum (alias "x" a) one, sum (alias "x" a) one) ∷ []) }
    ensures have_aliases { Gives is_core ((a, true) ∷ (sum a b, true) ∷ (alias "x" a, false) ∷ (sum a (alias "x" b), false) ∷ (slice a one (alias "x" one), false) ∷ []) }
    ensures others { GivesOfTwo renamed ((a, b, b) ∷ (alias "x" a, b, alias "x" b) ∷ (alias "y" (alias "x" a), b, alias "y" (alias "x" b)) ∷ (sum (alias "x" a) a, b, b) ∷ []) }
    ensures values { means table (alias "x" (sum a a)) ≡ means table (sum a a) }
    ensures literal { means table (sum (alias "x" five) five) ≡ Done (number 10 ∷ []) }
    ensures runs { Gives (runs table) ((alias "x" a, Stuck) ∷ (sum (alias "x" a) a, Stuck) ∷ (alias "x" count, Stuck) ∷ []) }
    ensures other_name { ¬ (IsSame [] schema_ab a (alias "x" a)) }
{}
