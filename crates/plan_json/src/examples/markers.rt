//! Worked examples of markers, of renaming forms, and of selectors and drops.
#![tactic(auto, unfolding(crate::proofs::OnLiterals::values_on_literals))]

ghost use Rattle.std.specs.Prelude.{◌≡◌, pos, negsuc, [], ◌∷◌, Float, Some, None, codes, true, false};
ghost use Rattle.serde_json.specs.Data.{boolean, float, null, number, object, no_members};
ghost use Rattle.plan_types.specs.Types.{DateType, DatetimeType, ListType};
ghost use Rattle.plan_types.specs.declared.dtype.TimeUnit.TheVariants.{Milliseconds};
ghost use Rattle.plan_dsl.specs.Plans.{empty_table, source_drop, source_select};
ghost use Rattle.plan_dsl.specs.Sources.{Add, DtypeColumnOp, ExcludedName, ExcludedType, ExclusiveOr, Intersect, KeepRoot, Sub, of_two, written};
ghost use Rattle.plan_dsl.specs.Trees.{node, no_more};
ghost use Rattle.plan_dsl.specs.Samples.{all, but, columns_at, columns_named, fixed, form, nth, prefix, root, selecting, suffix};
ghost use Rattle.plan_json.specs.Leaves.{excluded_item, index_of};
ghost use Rattle.plan_json.specs.Queries.{plan_of};
ghost use Rattle.plan_json.specs.Samples.{Gives, GivesAll, below_zero, col, column, empty_value, every_column, expression_of, int8, keyed, keyed_twice, list, moments, select_value, selector_of, whole, word};

/// Markers: names, types, places from either end, one place, all columns, another marker without some, and a selector. Places are whole numbers of 64 bits with a sign.
pub fn marker_examples()
    ensures read { let nested = keyed "List" (moments "ms") in let out = keyed "name" (word "a") ∷ keyed "dtype" (word "Date") ∷ [] in
        Gives expression_of ((keyed "cols" (list (word "b" ∷ word "a" ∷ word "b" ∷ [])), Some (columns_named ("b" ∷ "a" ∷ "b" ∷ []))) ∷ (keyed "cols" (list []), Some (columns_named [])) ∷
        (keyed "dtypes" (list (word "Int8" ∷ nested ∷ [])), Some (node (DtypeColumnOp (int8 ∷ ListType (DatetimeType Milliseconds) ∷ [])) no_more)) ∷
        (keyed "at" (list (whole 2 ∷ below_zero 0 ∷ [])), Some (columns_at (pos 2 ∷ negsuc 0 ∷ []))) ∷ (keyed "nth" (below_zero 1), Some (nth (negsuc 1))) ∷
        (keyed "nth" (whole 9223372036854775807), Some (nth (pos 9223372036854775807))) ∷ (every_column, Some all) ∷
        (keyed "exclude" (list (every_column ∷ list out ∷ [])), Some (but (ExcludedName (codes "a") ∷ ExcludedType DateType ∷ []) all)) ∷
        (keyed "exclude" (list (keyed "nth" (whole 0) ∷ list [] ∷ [])), Some (but [] (nth (pos 0)))) ∷
        (keyed "selector" (keyed "root" (col "a")), Some (selecting (root (written (column "a"))))) ∷ []) }
    ensures unread { let out = keyed "name" (word "a") in
        GivesAll expression_of None (keyed "cols" (word "a") ∷ keyed "cols" (list (whole 1 ∷ [])) ∷ keyed "dtypes" (word "Int8") ∷ keyed "dtypes" (list (word "int8" ∷ [])) ∷
        keyed "at" (whole 1) ∷ keyed "at" (list (whole 0 ∷ whole 9223372036854775808 ∷ [])) ∷ keyed "at" (list (null ∷ [])) ∷ keyed "nth" (whole 9223372036854775808) ∷
        keyed "nth" (word "1") ∷ keyed "nth" (list (whole 1 ∷ [])) ∷ keyed "all" (list []) ∷ keyed "exclude" (list (every_column ∷ [])) ∷
        keyed "exclude" (list (every_column ∷ out ∷ [])) ∷ keyed "exclude" (list (every_column ∷ list (word "a" ∷ []) ∷ [])) ∷ keyed "exclude" (list (list (out ∷ []) ∷ every_column ∷ [])) ∷
        keyed "exclude" (list (every_column ∷ list (out ∷ keyed "dtype" (word "a") ∷ []) ∷ [])) ∷ keyed "selector" (col "a") ∷ keyed "selector" (list (keyed "root" (col "a") ∷ [])) ∷ []) }
    ensures floats { (x : Float) → GivesAll expression_of None (keyed "nth" (number (float x)) ∷ keyed "at" (list (number (float x) ∷ [])) ∷ []) }
    ensures places { Gives index_of ((whole 0, Some (pos 0)) ∷ (below_zero 9223372036854775807, Some (negsuc 9223372036854775807)) ∷ (whole 9223372036854775808, None) ∷ (null, None) ∷ []) }
    ensures left_out { Gives excluded_item ((keyed "name" (word ""), Some (ExcludedName [])) ∷ (keyed "dtype" (moments "ms"), Some (ExcludedType (DatetimeType Milliseconds))) ∷
        (keyed "name" (whole 1), None) ∷ (keyed "dtype" (word "Datetime"), None) ∷ (keyed "col" (word "a"), None) ∷ (keyed_twice "dtype" (word "Date") "name" (word "a"), None) ∷ (word "a", None) ∷ (object no_members, None) ∷ []) }
    ensures in_plans { plan_of [] (select_value (empty_value ∷ list (every_column ∷ keyed "suffix" (list (every_column ∷ word "x" ∷ [])) ∷ []) ∷ [])) ≡ Some (source_select (all ∷ suffix "x" all ∷ []) empty_table) }
    // Renaming forms: the name of the first column as it is, with a text in front of it or behind it, or a text in its place.
    ensures renamed { let a = col "a" in let of_a = written (column "a") in
        Gives expression_of ((keyed "keep_name" a, Some (form KeepRoot of_a)) ∷ (keyed "prefix" (list (a ∷ word "p" ∷ [])), Some (prefix "p" of_a)) ∷ (keyed "suffix" (list (a ∷ word "s" ∷ [])), Some (suffix "s" of_a)) ∷
        (keyed "fixed" (list (a ∷ word "f" ∷ [])), Some (fixed "f" of_a)) ∷ (keyed "prefix" (list (keyed "keep_name" every_column ∷ word "" ∷ [])), Some (prefix "" (form KeepRoot all))) ∷ []) }
    ensures not_renamed { let a = col "a" in
        GivesAll expression_of None (keyed "keep_name" (list (a ∷ [])) ∷ keyed "keep_name" (word "a") ∷ keyed "prefix" (list (a ∷ [])) ∷ keyed "prefix" (list (word "p" ∷ a ∷ [])) ∷
        keyed "suffix" (list (a ∷ null ∷ [])) ∷ keyed "suffix" (word "s") ∷ keyed "fixed" (list (a ∷ word "f" ∷ word "f" ∷ [])) ∷ keyed "fixed" (list (a ∷ a ∷ [])) ∷ []) }
    // Selectors: a root, and two that are joined by a rule. A drop has its input, selectors, and whether each column must stand there.
    ensures selectors { let a = keyed "root" (col "a") in let rest = keyed "root" every_column in let of_a = root (written (column "a")) in let two = list (a ∷ rest ∷ []) in
        Gives selector_of ((a, Some of_a) ∷ (keyed "add" two, Some (of_two Add of_a (root all))) ∷ (keyed "sub" two, Some (of_two Sub of_a (root all))) ∷
        (keyed "and" two, Some (of_two Intersect of_a (root all))) ∷ (keyed "xor" two, Some (of_two ExclusiveOr of_a (root all))) ∷
        (keyed "sub" (list (keyed "add" two ∷ a ∷ [])), Some (of_two Sub (of_two Add of_a (root all)) of_a)) ∷ []) }
    ensures no_selectors { let a = keyed "root" (col "a") in
        GivesAll selector_of None (col "a" ∷ keyed "root" (word "a") ∷ keyed "root" a ∷ keyed "add" (list (a ∷ [])) ∷ keyed "sub" (list (a ∷ a ∷ a ∷ [])) ∷ keyed "and" (list (a ∷ col "a" ∷ [])) ∷ keyed "xor" a ∷ keyed "or" (list (a ∷ a ∷ [])) ∷ []) }
    ensures drops { let a = keyed "root" (col "a") in let of_a = root (written (column "a")) in
        Gives (λ items. plan_of [] (keyed "drop" (list items))) ((empty_value ∷ list [] ∷ boolean true ∷ [], Some (source_drop [] true empty_table)) ∷
        (empty_value ∷ list (a ∷ keyed "add" (list (a ∷ a ∷ [])) ∷ []) ∷ boolean false ∷ [], Some (source_drop (of_a ∷ of_two Add of_a of_a ∷ []) false empty_table)) ∷
        (empty_value ∷ list (a ∷ []) ∷ [], None) ∷ (empty_value ∷ a ∷ boolean true ∷ [], None) ∷ (empty_value ∷ list (col "a" ∷ []) ∷ boolean true ∷ [], None) ∷ (empty_value ∷ list [] ∷ null ∷ [], None) ∷ []) }
{}
