//! Expansion: the names of markers, and what expressions are expanded to.

ghost use Rattle.std.specs.Prelude.{◌≡◌, pos, neg_ℤ, [], ◌∷◌, map, codes, true, false, Some, None, Ok, Err};
ghost use Rattle.plan_types.specs.Types.{TextType, DateType};
ghost use Rattle.plan_types.specs.declared.error.ErrorKind.TheVariants.{ColumnNotFound, InvalidOperation, ComputeError};
ghost use Rattle.plan_dsl.specs.declared.function_expr.FunctionExpr.TheVariants.{IsNull, FieldByName};
ghost use Rattle.plan_dsl.specs.Trees.{node, no_more, more, top_op};
ghost use Rattle.plan_dsl.specs.Names.{name_of};
ghost use Rattle.plan_dsl.specs.Refusals.{joined};
ghost use Rattle.plan_dsl.specs.Sources.{written, ExcludedName, ExcludedType, KeepRoot, AddPrefix, AddSuffix, SetName, Add, Sub, Intersect, ExclusiveOr, DtypeColumnOp, WildcardOp, SetOp, same_source, of_two};
ghost use Rattle.plan_dsl.specs.Markers.{without, once, set_of, marker_names, names_of_selectors};
ghost use Rattle.plan_dsl.specs.Copies.{has_list, has_one, has_several, put, put_below};
ghost use Rattle.plan_dsl.specs.Expansion.{markers_in, root_name, name_given, expansion, expansions, predicate_expansion};
ghost use Rattle.plan_dsl.specs.Samples.{Gives, GivesAll, GivesOfTwo, over, over_by, int8, int16, int32, uint64, a, b, c, s, x, one, five, below, count, sum, equal, alias, call, column, gather, rising, rising_by, slice, ternary, schema_abc, schema_abu, all_names, these, all, columns_named, columns_of_type, columns_at, nth, but, but_named, but_of_type, selecting, root, form, prefix, suffix, fixed, plus, equals, source_alias};

/// Lists of names: without others, each once, and one of two.
pub fn lists_of_names()
    ensures without { GivesOfTwo without (
        (all_names ("b" ∷ "z" ∷ []), all_names ("a" ∷ "b" ∷ "c" ∷ "b" ∷ "a" ∷ []), all_names ("a" ∷ "c" ∷ "a" ∷ [])) ∷
        ([], all_names ("a" ∷ "a" ∷ []), all_names ("a" ∷ "a" ∷ [])) ∷
        (all_names ("a" ∷ []), [], []) ∷ []) }
    ensures once { Gives once ((all_names ("b" ∷ "a" ∷ "b" ∷ "c" ∷ "a" ∷ "b" ∷ []), all_names ("b" ∷ "a" ∷ "c" ∷ [])) ∷ ([], []) ∷ []) }
    ensures rules { Gives (λ rule. set_of rule (all_names ("a" ∷ "b" ∷ "a" ∷ [])) (all_names ("c" ∷ "b" ∷ "c" ∷ []))) (
        (Add, all_names ("a" ∷ "b" ∷ "a" ∷ "c" ∷ "c" ∷ [])) ∷
        (Sub, all_names ("a" ∷ "a" ∷ [])) ∷
        (Intersect, all_names ("b" ∷ [])) ∷
        (ExclusiveOr, all_names ("a" ∷ "a" ∷ "c" ∷ "c" ∷ [])) ∷ []) }
{}

/// Names at places and names as listed may repeat, and written names needn't stand. A place below 0 counts from the end.
pub fn names_of_markers()
    ensures all { Gives (marker_names [] schema_abc) (
        (all, these ("a" ∷ "b" ∷ "c" ∷ [])) ∷
        (columns_named ("c" ∷ "z" ∷ "c" ∷ []), these ("c" ∷ "z" ∷ "c" ∷ [])) ∷
        (columns_named [], these []) ∷ []) }
    ensures types { Gives (marker_names [] schema_abc) (
        (columns_of_type int8, these ("a" ∷ "b" ∷ [])) ∷
        (columns_of_type TextType, these ("c" ∷ [])) ∷
        (columns_of_type int16, these []) ∷ []) }
    ensures some_types { Gives (λ types. marker_names [] schema_abu (node (DtypeColumnOp types) no_more)) (
        (uint64 ∷ int8 ∷ [], these ("a" ∷ "u" ∷ [])) ∷
        (TextType ∷ int32 ∷ [], these ("b" ∷ [])) ∷
        ([], these []) ∷ []) }
    ensures places { Gives (λ place. marker_names [] schema_abc (nth place)) (
        (pos 0, these ("a" ∷ [])) ∷
        (pos 2, these ("c" ∷ [])) ∷
        (pos 3, Err ColumnNotFound) ∷
        (neg_ℤ (pos 1), these ("c" ∷ [])) ∷
        (neg_ℤ (pos 3), these ("a" ∷ [])) ∷
        (neg_ℤ (pos 4), Err ColumnNotFound) ∷ []) }
    ensures lists_of_places { Gives (λ places. marker_names [] schema_abc (columns_at places)) (
        (pos 1 ∷ neg_ℤ (pos 1) ∷ [], these ("b" ∷ "c" ∷ [])) ∷
        (pos 2 ∷ pos 0 ∷ neg_ℤ (pos 1) ∷ [], these ("c" ∷ "a" ∷ "c" ∷ [])) ∷
        (pos 0 ∷ pos 3 ∷ [], Err ColumnNotFound) ∷
        ([], these []) ∷ []) }
    ensures without_columns { Gives (marker_names [] []) (
        (all, these []) ∷
        (columns_of_type int8, these []) ∷
        (columns_named ("a" ∷ []), these ("a" ∷ [])) ∷
        (nth (pos 0), Err ColumnNotFound) ∷
        (nth (neg_ℤ (pos 1)), Err ColumnNotFound) ∷ []) }
    ensures others { GivesAll (marker_names [] schema_abc) (Err InvalidOperation) (written a ∷ written one ∷ plus all all ∷ root all ∷ node WildcardOp (more all no_more) ∷ []) }
{}

/// An exclude leaves out columns of names and of types. A name that no column has is of no type. It stands over a
/// marker, a selector's and an exclude among them, and over nothing else.
pub fn names_of_excludes()
    ensures left_out { Gives (λ excluded. marker_names [] schema_abc (but excluded all)) (
        ([], these ("a" ∷ "b" ∷ "c" ∷ [])) ∷
        (ExcludedName (codes "b") ∷ [], these ("a" ∷ "c" ∷ [])) ∷
        (ExcludedName (codes "z") ∷ [], these ("a" ∷ "b" ∷ "c" ∷ [])) ∷
        (ExcludedType int8 ∷ [], these ("c" ∷ [])) ∷
        (ExcludedType TextType ∷ ExcludedName (codes "a") ∷ [], these ("b" ∷ [])) ∷
        (ExcludedType int8 ∷ ExcludedType TextType ∷ [], these []) ∷ []) }
    ensures over { Gives (marker_names [] schema_abc) (
        (but_named "b" (columns_named ("a" ∷ "z" ∷ "b" ∷ "a" ∷ [])), these ("a" ∷ "z" ∷ "a" ∷ [])) ∷
        (but_of_type int8 (columns_named ("a" ∷ "z" ∷ "c" ∷ [])), these ("z" ∷ "c" ∷ [])) ∷
        (but_named "a" (columns_of_type int8), these ("b" ∷ [])) ∷
        (but_named "a" (nth (pos 0)), these []) ∷
        (but_named "a" (selecting (root all)), these ("b" ∷ "c" ∷ [])) ∷
        (but_named "a" (nth (pos 3)), Err ColumnNotFound) ∷
        (but_named "a" (but_named "b" all), these ("c" ∷ [])) ∷
        (but_of_type TextType (but_named "b" (columns_named ("b" ∷ "c" ∷ "z" ∷ "a" ∷ []))), these ("z" ∷ "a" ∷ [])) ∷
        (but [] (but [] all), these ("a" ∷ "b" ∷ "c" ∷ [])) ∷ []) }
    ensures refused { GivesAll (marker_names [] schema_abc) (Err InvalidOperation) (
        but_named "a" (written a) ∷ but_named "a" (plus all all) ∷ but_named "a" (but_named "b" (written a)) ∷ []) }
{}

/// Selectors make one list of names of two, each once, at its first place.
pub fn names_of_selectors_by_rule()
    ensures rules { Gives (λ rule. marker_names [] schema_abc (selecting (of_two rule (root (columns_named ("c" ∷ "a" ∷ "c" ∷ []))) (root (columns_named ("b" ∷ "a" ∷ "b" ∷ [])))))) (
        (Add, these ("c" ∷ "a" ∷ "b" ∷ [])) ∷
        (Sub, these ("c" ∷ [])) ∷
        (Intersect, these ("a" ∷ [])) ∷
        (ExclusiveOr, these ("c" ∷ "b" ∷ [])) ∷ []) }
    ensures of_all { Gives (λ rule. marker_names [] schema_abc (selecting (of_two rule (root all) (root (written b))))) (
        (Add, these ("a" ∷ "b" ∷ "c" ∷ [])) ∷
        (Sub, these ("a" ∷ "c" ∷ [])) ∷
        (Intersect, these ("b" ∷ [])) ∷
        (ExclusiveOr, these ("a" ∷ "c" ∷ [])) ∷ []) }
    ensures from_the_right { Gives (λ rule. marker_names [] schema_abc (selecting (of_two rule (root (written b)) (root all)))) (
        (Add, these ("b" ∷ "a" ∷ "c" ∷ [])) ∷
        (Sub, these []) ∷
        (Intersect, these ("b" ∷ [])) ∷
        (ExclusiveOr, these ("a" ∷ "c" ∷ [])) ∷ []) }
    ensures roots { Gives (λ source. marker_names [] schema_abc (selecting (root source))) (
        (columns_at (pos 2 ∷ pos 0 ∷ neg_ℤ (pos 1) ∷ []), these ("c" ∷ "a" ∷ [])) ∷
        (written (column "z"), these ("z" ∷ [])) ∷
        (but_named "b" all, these ("a" ∷ "c" ∷ [])) ∷
        (selecting (root (columns_of_type int8)), these ("a" ∷ "b" ∷ [])) ∷
        (nth (pos 3), Err ColumnNotFound) ∷ []) }
    ensures refused { GivesAll (λ source. marker_names [] schema_abc (selecting (root source))) (Err InvalidOperation) (
        written one ∷ written (sum a b) ∷ written (alias "x" a) ∷ plus all all ∷ form KeepRoot all ∷ root all ∷ []) }
    ensures no_selectors { GivesAll (λ selector. marker_names [] schema_abc (selecting selector)) (Err InvalidOperation) (
        all ∷ written a ∷ of_two Add (root all) all ∷ of_two Add (written a) (root all) ∷ node (SetOp Add) (more (root all) no_more) ∷ []) }
{}

/// Names of several selectors are joined, each once. All that are refused tell their kinds.
pub fn names_of_many_selectors()
    ensures joined { Gives (names_of_selectors schema_abc) (
        ([], Ok []) ∷
        (root (written c) ∷ root all ∷ [], Ok (all_names ("c" ∷ "a" ∷ "b" ∷ []))) ∷
        (root (written (column "z")) ∷ root (columns_named ("z" ∷ "y" ∷ [])) ∷ [], Ok (all_names ("z" ∷ "y" ∷ []))) ∷
        (of_two Sub (root all) (root (written a)) ∷ root (written a) ∷ [], Ok (all_names ("b" ∷ "c" ∷ "a" ∷ []))) ∷ []) }
    ensures refused { Gives (names_of_selectors schema_abc) (
        (root (nth (pos 3)) ∷ root all ∷ root (written one) ∷ [], Err (ColumnNotFound ∷ InvalidOperation ∷ [])) ∷
        (of_two Add (root (nth (pos 3))) (root (written one)) ∷ [], Err (ColumnNotFound ∷ [])) ∷ []) }
{}

/// Keys of a group_by are left out of markers, but not of written names and places.
pub fn names_beside_keys()
    ensures left_out { Gives (marker_names (all_names ("a" ∷ "z" ∷ [])) schema_abc) (
        (all, these ("b" ∷ "c" ∷ [])) ∷
        (columns_of_type int8, these ("b" ∷ [])) ∷
        (but_named "c" all, these ("b" ∷ [])) ∷
        (but [] (columns_named ("a" ∷ "b" ∷ "z" ∷ [])), these ("b" ∷ [])) ∷
        (but [] (nth (pos 0)), these []) ∷
        (selecting (root (columns_named ("b" ∷ "a" ∷ "z" ∷ []))), these ("b" ∷ [])) ∷
        (selecting (root (written a)), these []) ∷ []) }
    ensures kept { Gives (marker_names (all_names ("a" ∷ "z" ∷ [])) schema_abc) (
        (columns_named ("a" ∷ "z" ∷ "b" ∷ []), these ("a" ∷ "z" ∷ "b" ∷ [])) ∷
        (columns_at (pos 1 ∷ pos 0 ∷ []), these ("b" ∷ "a" ∷ [])) ∷
        (nth (pos 0), these ("a" ∷ [])) ∷ []) }
    ensures repeated { expansion (codes "a" ∷ []) schema_abc (plus all (written a)) ≡ Ok (sum b a ∷ sum c a ∷ []) }
{}

/// Markers are one where they are written alike, and the markers of an expression don't stand in one another.
pub fn markers_that_are_one()
    ensures same { GivesAll (λ source. same_source source source) true (
        all ∷ columns_named ("a" ∷ "b" ∷ []) ∷ columns_of_type int8 ∷ columns_at (pos 1 ∷ neg_ℤ (pos 1) ∷ []) ∷ nth (neg_ℤ (pos 2)) ∷ but (ExcludedName (codes "a") ∷ ExcludedType int8 ∷ []) all ∷
        selecting (of_two ExclusiveOr (root all) (root (written a))) ∷ prefix "p" (written a) ∷ suffix "p" all ∷ fixed "p" all ∷ form KeepRoot all ∷ written (sum a one) ∷ []) }
    ensures others { GivesOfTwo same_source (
        (all, columns_named ("a" ∷ "b" ∷ "c" ∷ []), false) ∷ (nth (pos 0), columns_at (pos 0 ∷ []), false) ∷ (nth (pos 2), nth (neg_ℤ (pos 1)), false) ∷
        (columns_named ("a" ∷ "b" ∷ []), columns_named ("b" ∷ "a" ∷ []), false) ∷ (columns_named ("a" ∷ []), columns_named ("a" ∷ "a" ∷ []), false) ∷
        (columns_of_type int8, columns_of_type int16, false) ∷ (but_named "a" all, all, false) ∷ (but_named "a" all, but_named "b" all, false) ∷
        (but_named "a" all, but_of_type int8 all, false) ∷ (but_of_type int8 all, but_of_type int16 all, false) ∷
        (selecting (of_two Add (root all) (root all)), selecting (of_two Sub (root all) (root all)), false) ∷
        (selecting (root all), selecting (root (written a)), false) ∷ (written a, written b, false) ∷
        (prefix "p" all, suffix "p" all, false) ∷ (fixed "p" all, fixed "q" all, false) ∷ (form KeepRoot all, all, false) ∷ []) }
    ensures inside { Gives markers_in (
        (written (sum a b), []) ∷
        (all, all ∷ []) ∷
        (plus (but_named "a" all) (prefix "p" (nth (pos 0))), but_named "a" all ∷ nth (pos 0) ∷ []) ∷
        (source_alias "x" (selecting (root (nth (pos 1)))), selecting (root (nth (pos 1))) ∷ []) ∷ []) }
{}

/// An expression is repeated with each name in place of all its markers, and its markers must be one.
pub fn expressions_that_are_repeated()
    ensures repeated { Gives (expansion [] schema_abc) (
        (plus (columns_of_type int8) (written one), Ok (sum a one ∷ sum b one ∷ [])) ∷
        (plus all all, Ok (sum a a ∷ sum b b ∷ sum c c ∷ [])) ∷
        (plus (plus all all) all, Ok (sum (sum a a) a ∷ sum (sum b b) b ∷ sum (sum c c) c ∷ [])) ∷
        (plus (but_named "b" all) (but_named "b" all), Ok (sum a a ∷ sum c c ∷ [])) ∷
        (plus (columns_named ("a" ∷ "a" ∷ [])) (written one), Ok (sum a one ∷ sum a one ∷ [])) ∷
        (columns_named ("z" ∷ []), Ok (column "z" ∷ [])) ∷
        (nth (neg_ℤ (pos 1)), Ok (c ∷ [])) ∷
        (source_alias "x" (selecting (of_two Sub (root all) (root (written a)))), Ok (alias "x" b ∷ alias "x" c ∷ [])) ∷ []) }
    ensures names { map name_of (sum a one ∷ sum b one ∷ []) ≡ all_names ("a" ∷ "b" ∷ []) }
    ensures once { Gives (expansion [] schema_abc) ((written (sum a b), Ok (sum a b ∷ [])) ∷ (written one, Ok (one ∷ [])) ∷ (written (column "z"), Ok (column "z" ∷ [])) ∷ []) }
    ensures others { GivesAll (expansion [] schema_abc) (Err InvalidOperation) (
        plus all (nth (pos 0)) ∷ plus (nth (pos 0)) (columns_at (pos 0 ∷ [])) ∷ plus (but_named "a" all) all ∷ plus (nth (pos 3)) all ∷ plus (written one) (plus all (nth (pos 0))) ∷ plus (plus all all) (nth (pos 0)) ∷
        plus (plus all (nth (pos 0))) all ∷ []) }
    ensures refused { Gives (expansion [] schema_abc) (
        (nth (pos 3), Err ColumnNotFound) ∷
        (plus (written one) (nth (neg_ℤ (pos 4))), Err ColumnNotFound) ∷
        (but_named "a" (written a), Err InvalidOperation) ∷
        (selecting (root (written one)), Err InvalidOperation) ∷
        (plus (written a) (root all), Err InvalidOperation) ∷ []) }
    ensures nothing { GivesAll (expansion [] schema_abc) (Ok []) (
        columns_of_type DateType ∷ plus (columns_of_type DateType) (prefix "p_" (written a)) ∷ form KeepRoot (prefix "p_" (columns_of_type DateType)) ∷ prefix "p_" (plus (columns_of_type DateType) (written one)) ∷ []) }
{}

/// A renaming form at the top becomes an alias by the first column, and is refused below.
pub fn renaming_forms()
    ensures aliases { Gives (expansion [] schema_abc) (
        (prefix "p_" (written (sum a b)), Ok (alias "p_a" (sum a b) ∷ [])) ∷
        (suffix "_s" (written (sum one b)), Ok (alias "b_s" (sum one b) ∷ [])) ∷
        (form KeepRoot (written (alias "x" a)), Ok (alias "a" (alias "x" a) ∷ [])) ∷
        (prefix "p_" (written (alias "x" a)), Ok (alias "p_a" (alias "x" a) ∷ [])) ∷
        (fixed "f" (written one), Ok (alias "f" one ∷ [])) ∷
        (prefix "p_" (columns_of_type int8), Ok (alias "p_a" a ∷ alias "p_b" b ∷ [])) ∷
        (form KeepRoot (source_alias "x" (plus (written one) all)), Ok (alias "a" (alias "x" (sum one a)) ∷ alias "b" (alias "x" (sum one b)) ∷ alias "c" (alias "x" (sum one c)) ∷ [])) ∷ []) }
    ensures names { map name_of (alias "p_a" (sum a b) ∷ alias "a" (alias "x" a) ∷ alias "f" one ∷ []) ≡ all_names ("p_a" ∷ "a" ∷ "f" ∷ []) }
    ensures without_column { GivesAll (expansion [] schema_abc) (Err InvalidOperation) (
        prefix "p_" (written one) ∷ suffix "_s" (written count) ∷ form KeepRoot (written (alias "x" one)) ∷ []) }
    ensures below { GivesAll (expansion [] schema_abc) (Err InvalidOperation) (
        plus (written one) (prefix "p_" (written a)) ∷ source_alias "x" (form KeepRoot (written a)) ∷ form KeepRoot (prefix "p_" (written a)) ∷ fixed "f" (fixed "g" (written one)) ∷ plus (fixed "f" all) (written one) ∷ []) }
    ensures roots { Gives root_name (
        (one, None) ∷ (count, None) ∷ (a, Some (codes "a")) ∷ (sum b a, Some (codes "b")) ∷ (alias "x" (sum one c), Some (codes "c")) ∷
        (slice five (sum one b) a, Some (codes "b")) ∷ (gather one b, Some (codes "b")) ∷ (rising_by (b ∷ a ∷ []) one, Some (codes "b")) ∷
        (ternary a b c, Some (codes "b")) ∷ (ternary b one a, Some (codes "b")) ∷ (ternary (equal c one) one a, Some (codes "c")) ∷ (ternary a one one, Some (codes "a")) ∷
        (over (a ∷ []) count, Some (codes "a")) ∷ (over (c ∷ []) one, Some (codes "c")) ∷ (over_by rising b (a ∷ []) count, Some (codes "b")) ∷
        (call (FieldByName (codes "x")) (s ∷ []), Some (codes "s")) ∷ (call IsNull [], None) ∷ []) }
    ensures given { GivesOfTwo name_given (
        (KeepRoot, Some (codes "a"), Ok (codes "a")) ∷ (AddPrefix (codes "p"), Some (codes "a"), Ok (codes "pa")) ∷ (AddSuffix (codes "s"), Some (codes "a"), Ok (codes "as")) ∷
        (SetName (codes "f"), Some (codes "a"), Ok (codes "f")) ∷ (SetName (codes "f"), None, Ok (codes "f")) ∷ (KeepRoot, None, Err InvalidOperation) ∷ []) }
{}

/// Expressions are expanded one by one, and all that are refused tell their kinds.
pub fn lists_that_are_expanded()
    ensures lists { Gives (expansions [] schema_abc) (
        ([], Ok []) ∷
        (nth (neg_ℤ (pos 1)) ∷ columns_of_type DateType ∷ columns_of_type int8 ∷ written one ∷ [], Ok (c ∷ a ∷ b ∷ one ∷ [])) ∷
        (all ∷ all ∷ [], Ok (a ∷ b ∷ c ∷ a ∷ b ∷ c ∷ [])) ∷ []) }
    ensures joined { GivesOfTwo joined (
        (Ok (a ∷ b ∷ []), Ok (c ∷ []), Ok (a ∷ b ∷ c ∷ [])) ∷
        (Ok (a ∷ []), Err (ColumnNotFound ∷ []), Err (ColumnNotFound ∷ [])) ∷
        (Err (ColumnNotFound ∷ []), Ok [], Err (ColumnNotFound ∷ [])) ∷
        (Err (InvalidOperation ∷ []), Err (ColumnNotFound ∷ []), Err (InvalidOperation ∷ ColumnNotFound ∷ [])) ∷ []) }
    ensures refused { Gives (expansions [] schema_abc) (
        (nth (pos 3) ∷ all ∷ prefix "p_" (written one) ∷ [], Err (ColumnNotFound ∷ InvalidOperation ∷ [])) ∷
        (all ∷ nth (pos 3) ∷ [], Err (ColumnNotFound ∷ [])) ∷ []) }
{}

/// A predicate is expanded to one expression. That there is another number of them is told only where it is expanded.
pub fn predicates_that_are_expanded()
    ensures one { Gives (predicate_expansion schema_abc) (
        (written (equal a one), Ok (equal a one)) ∷
        (equals (columns_named ("b" ∷ [])) (written one), Ok (equal b one)) ∷
        (equals (columns_of_type TextType) (written c), Ok (equal c c)) ∷
        (form KeepRoot (written (equal a one)), Ok (alias "a" (equal a one))) ∷ []) }
    ensures another_number { GivesAll (predicate_expansion schema_abc) (Err ComputeError) (
        equals (columns_of_type DateType) (written one) ∷ equals (columns_named ("a" ∷ "b" ∷ [])) (written one) ∷ equals (columns_named ("a" ∷ "a" ∷ [])) (written one) ∷ all ∷ []) }
    ensures refused { Gives (predicate_expansion schema_abc) (
        (plus all (nth (pos 0)), Err InvalidOperation) ∷
        (equals (nth (pos 3)) (written one), Err ColumnNotFound) ∷
        (equals all (prefix "p_" (written a)), Err InvalidOperation) ∷ []) }
{}

/// A copy of an expression, by itself or with a column in place of all markers, and of a node whose operands are so. A
/// marker itself is copied as it is.
pub fn copies_of_expressions()
    ensures by_itself { map (put None) (plus all (written a) ∷ all ∷ []) ≡ plus all (written a) ∷ all ∷ [] }
    ensures with_a_column { Gives (put (Some (codes "b"))) (
        (plus all (written a), plus (written b) (written a)) ∷
        (all, written b) ∷
        (written a, written a) ∷ []) }
    ensures below { Gives (put_below (Some (codes "b"))) (
        (plus all (written a), plus (written b) (written a)) ∷
        (all, all) ∷
        (written a, written a) ∷ []) }
    ensures of_one { Gives (λ tree. has_one (top_op tree)) (
        (plus all all, false) ∷ (written (alias "x" a), true) ∷ (form KeepRoot all, true) ∷ (all, false) ∷ []) }
    ensures of_a_list { Gives (λ tree. has_list (top_op tree)) ((written (over [] (sum a b)), true) ∷ (plus all all, false) ∷ []) }
    ensures of_several { Gives (λ tree. has_several (top_op tree)) (
        (plus all all, true) ∷ (written (alias "x" a), false) ∷ (written a, false) ∷ (all, false) ∷ []) }
{}
