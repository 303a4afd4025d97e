//! Source expressions: their trees, and those that have plans' ops alone.

ghost use Rattle.std.specs.Prelude.{◌≡◌, ℕ, ℤ, List, pos, neg_ℤ, [], ◌∷◌, ◌++◌, map, codes, true, false};
ghost use Rattle.std.specs.Global.{Box, Vec};
ghost use Rattle.std.specs.Hash as fed;
ghost use Rattle.plan_types.specs.Types.{TextType, ty};
ghost use Rattle.plan_types.specs.declared.dtype.DataType.{DataType};
ghost use Rattle.plan_dsl.specs.declared.expr.Expr.{Expr, Columns, DtypeColumn, IndexColumn, Nth, Wildcard, Exclude, KeepName, RenameAlias};
ghost use Rattle.plan_dsl.specs.declared.expr.Expr.TheVariants as expr;
ghost use Rattle.plan_dsl.specs.declared.marker.Excluded.{Excluded};
ghost use Rattle.plan_dsl.specs.declared.marker.Excluded.TheVariants as excluded;
ghost use Rattle.plan_dsl.specs.declared.marker.RenameAliasFn.{RenameAliasFn};
ghost use Rattle.plan_dsl.specs.declared.marker.RenameAliasFn.TheVariants as renaming;
ghost use Rattle.plan_dsl.specs.declared.selector.Selector.{Selector, Root, Sub as SubOf};
ghost use Rattle.plan_dsl.specs.Expressions.{excluded_of, renaming_of, tree_of, selector_tree};
ghost use Rattle.plan_dsl.specs.Sources.{KeepRoot, AddPrefix, AddSuffix, SetName, ExcludedName, ExcludedType, Sub, ColumnsOp, DtypeColumnOp, RenameOp, WildcardOp, NthOp, IndexColumnOp, is_plain, unwritten, written, of_two, source_op_writes};
ghost use Rattle.plan_dsl.specs.Expansion.{key_names};
ghost use Rattle.plan_dsl.specs.Trees.{node, no_more, more};
ghost use Rattle.plan_dsl.specs.Samples.{Gives, GivesAll, a, b, c, one, count, sum, alias, all_names, all, columns_named, but, nth, root, selecting, form, prefix, fixed, plus, source_alias};

/// What has a marker or a renaming form anywhere isn't plain. Where there is one, a number of rows stands in its place.
pub fn plain_sources()
    ensures plain { GivesAll is_plain true (map written (a ∷ one ∷ sum a b ∷ alias "x" (sum a one) ∷ count ∷ [])) }
    ensures others { GivesAll is_plain false (
        all ∷ columns_named [] ∷ nth (pos 0) ∷ selecting (root (written a)) ∷ plus all (written a) ∷ plus (written a) all ∷
        prefix "p" (written a) ∷ form KeepRoot (written a) ∷ source_alias "x" (fixed "f" (written a)) ∷ root (written a) ∷ []) }
    ensures unwritten { Gives unwritten (
        (written (sum a b), sum a b) ∷ (source_alias "x" (written one), alias "x" one) ∷ (all, count) ∷ (plus (written a) all, sum a count) ∷ []) }
    ensures keys { key_names (written a ∷ written (sum a b) ∷ all ∷ written (alias "x" b) ∷ written c ∷ columns_named ("b" ∷ []) ∷ written a ∷ []) ≡ all_names ("a" ∷ "c" ∷ "a" ∷ []) }
{}

/// Markers hold what they name; an exclude stands over its marker, and a selector's marker over the selector.
pub fn trees_of_markers()
    ensures wildcard { tree_of Wildcard ≡ all }
    ensures names { (names : Vec _) → tree_of (Columns names) ≡ node (ColumnsOp names.items) no_more }
    ensures types { (types : Vec DataType) → tree_of (DtypeColumn types) ≡ node (DtypeColumnOp (map ty types.items)) no_more }
    ensures places { (places : Vec _) → tree_of (IndexColumn places) ≡ node (IndexColumnOp places.items) no_more }
    ensures place { (place : ℤ) → tree_of (Nth place) ≡ nth place }
    ensures exclude { (marker : Box Expr) (excluded : Vec Excluded) → tree_of (Exclude marker excluded) ≡ but (map excluded_of excluded.items) (tree_of marker.value) }
    ensures selector { (selector : Selector) → tree_of (expr.Selector selector) ≡ selecting (selector_tree selector) }
    ensures excluded { (name : List ℕ) (dtype : DataType) → map excluded_of (excluded.Name name ∷ excluded.Dtype dtype ∷ []) ≡ ExcludedName name ∷ ExcludedType (ty dtype) ∷ [] }
    ensures keep { (expr : Box Expr) → tree_of (KeepName expr) ≡ form KeepRoot (tree_of expr.value) }
    ensures rename { (function : RenameAliasFn) (expr : Box Expr) → tree_of (RenameAlias function expr) ≡ form (renaming_of function) (tree_of expr.value) }
    ensures renamings { (text : List ℕ) → map renaming_of (renaming.Prefix text ∷ renaming.Suffix text ∷ renaming.Fixed text ∷ []) ≡ AddPrefix text ∷ AddSuffix text ∷ SetName text ∷ [] }
    ensures roots { (expr : Box Expr) → selector_tree (Root expr) ≡ root (tree_of expr.value) }
    ensures rules { (first second : Box Selector) → selector_tree (SubOf first second) ≡ of_two Sub (selector_tree first.value) (selector_tree second.value) }
{}

/// Markers and renaming forms are hashed by a number of their own, and by what they hold.
pub fn hashes_of_markers()
    ensures writes { Gives source_op_writes (
        (WildcardOp, fed.u8 15) ∷ (NthOp (neg_ℤ (pos 1)), fed.u8 18 ++ fed.i64 (neg_ℤ (pos 1))) ∷
        (IndexColumnOp [], fed.u8 14 ++ fed.usize 0) ∷
        (RenameOp KeepRoot, fed.u8 17) ∷ (RenameOp (AddPrefix []), fed.u8 19 ++ (fed.u8 0 ++ fed.str [])) ∷ (RenameOp (AddSuffix []), fed.u8 19 ++ (fed.u8 1 ++ fed.str [])) ∷ []) }
{}
