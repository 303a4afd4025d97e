//! Columns in order.

ghost use Rattle.std.specs.Prelude.{◌≡◌, ℕ, List, [], ◌∷◌, pos, neg_ℤ, codes, true, false, nat_lt, Ok, Err};
ghost use Rattle.std.specs.Global.{Box};
ghost use Rattle.plan_types.specs.Types.{NullType, Truth, TextType, DateType, ListType, Untyped};
ghost use Rattle.plan_types.specs.Values.{Val};
ghost use Rattle.plan_types.specs.Outcomes.{Done, Fault, Stuck};
ghost use Rattle.plan_types.specs.declared.error.ErrorKind.TheVariants.{ColumnNotFound, SchemaMismatch, InvalidOperation, ComputeError};
ghost use Rattle.plan_dsl.specs.declared.expr.Expr.{Expr, SortBy};
ghost use Rattle.plan_dsl.specs.declared.expr.Exprs.{Exprs};
ghost use Rattle.plan_dsl.specs.declared.sort_options.SortMultipleOptions.{SortMultipleOptions};
ghost use Rattle.plan_dsl.specs.Aliases.{core};
ghost use Rattle.plan_dsl.specs.Expressions.{tree_of, trees_of};
ghost use Rattle.plan_dsl.specs.Sources.{Plain};
ghost use Rattle.plan_dsl.specs.SortLaws.{IsInOrder, IsSortByKeys, IsSortOf, columns_fit, keys_fit};
ghost use Rattle.plan_dsl.specs.Trees.{children_from, more, node, no_more, tree_count};
ghost use Rattle.plan_dsl.specs.Ops.{Expression, SortOp, SortByOp};
ghost use Rattle.plan_dsl.specs.Names.{name_of};
ghost use Rattle.plan_dsl.specs.Kernels.{key_rows, sort_by_values};
ghost use Rattle.plan_dsl.specs.Sorting.{comes_before, inserted, key_options, keys_before, sort_values, sorted};
ghost use Rattle.plan_dsl.specs.Typing.{rule, typing, kinds_in};
ghost use Rattle.plan_dsl.specs.Strictness.{is_strict};
ghost use Rattle.plan_dsl.specs.Samples.{Gives, GivesOfTwo, GivesAll, int8, int32, moment, span, null, yes, no, number, negative, text, list, one_field, a, b, c, one, five, huge, less, sum, nothing, way, rising, sort_as, sort_by, rising_by, alias, keep_where, one_value, many_values, of_many, of_one, means, runs, alone, beside, schema_ab};

/// A sorted column has the name, type and length of its input, whose values are in an order: lists and structs have none.
pub fn types_of_sorted_columns()
    ensures names { Gives name_of ((sort_as rising a, codes "a") ∷ (sort_as rising (sum b a), codes "b") ∷ (sort_as rising five, codes "literal") ∷ []) }
    ensures types { Gives (typing [] schema_ab) (
        (sort_as rising a, of_many int8) ∷ (sort_as (way true true) (less a b), of_many Truth) ∷ (sort_as rising five, of_one int32) ∷ (sort_as rising nothing, of_one NullType) ∷
        (sort_as rising c, Err ColumnNotFound) ∷ (sort_as rising huge, Err InvalidOperation) ∷ (node (SortOp rising) no_more, Err SchemaMismatch) ∷ []) }
    ensures sortable { Gives (λ type. typing [] ((codes "a", type) ∷ []) (sort_as rising a)) (
        (TextType, of_many TextType) ∷ (DateType, of_many DateType) ∷ (moment, of_many moment) ∷ (span, of_many span) ∷ (NullType, of_many NullType) ∷
        (ListType int8, Err InvalidOperation) ∷ (one_field "x" int8, Err InvalidOperation) ∷ []) }
    ensures strict { Gives (is_strict [] schema_ab) ((sort_as rising a, true) ∷ (sort_as rising five, false) ∷ []) }
    ensures kinds { Gives (kinds_in [] ((codes "a", ListType int8) ∷ [])) ((sort_as rising a, InvalidOperation ∷ []) ∷ (sort_as rising c, ColumnNotFound ∷ []) ∷ []) }
{}

/// Nulls come first, or last where that is asked, also where the others descend.
pub fn sorted_values()
    ensures numbers { Gives (λ options. sort_values options (number 3 ∷ null ∷ negative 1 ∷ number 2 ∷ null ∷ number 3 ∷ [])) (
        (way false false, null ∷ null ∷ negative 1 ∷ number 2 ∷ number 3 ∷ number 3 ∷ []) ∷
        (way false true, negative 1 ∷ number 2 ∷ number 3 ∷ number 3 ∷ null ∷ null ∷ []) ∷
        (way true false, null ∷ null ∷ number 3 ∷ number 3 ∷ number 2 ∷ negative 1 ∷ []) ∷
        (way true true, number 3 ∷ number 3 ∷ number 2 ∷ negative 1 ∷ null ∷ null ∷ []) ∷ []) }
    ensures truths { Gives (λ options. sort_values options (yes ∷ no ∷ null ∷ yes ∷ [])) ((way false true, no ∷ yes ∷ yes ∷ null ∷ []) ∷ (way true false, null ∷ yes ∷ yes ∷ no ∷ []) ∷ []) }
    ensures few { Gives (sort_values (way true true)) (([], []) ∷ (null ∷ [], null ∷ []) ∷ (number 1 ∷ [], number 1 ∷ []) ∷ (null ∷ null ∷ [], null ∷ null ∷ []) ∷ []) }
    ensures meaning { Gives (means (alone int8 (number 2 ∷ null ∷ number 1 ∷ []))) ((sort_as (way false true) a, Done (number 1 ∷ number 2 ∷ null ∷ [])) ∷ (sort_as rising five, Done (number 5 ∷ [])) ∷ []) }
    ensures runs { let numbers = alone int8 (number 2 ∷ null ∷ number 1 ∷ []) in
        Gives (runs numbers) ((sort_as (way true true) a, Done (number 2 ∷ number 1 ∷ null ∷ [])) ∷ (sort_as rising five, Stuck) ∷ []) }
{}

/// Texts are in the order of their bytes.
pub fn sorted_texts()
    ensures { sort_values rising (text "b" ∷ text "é" ∷ text "" ∷ text "ab" ∷ text "Z" ∷ text "a" ∷ []) ≡ text "" ∷ text "Z" ∷ text "a" ∷ text "ab" ∷ text "b" ∷ text "é" ∷ [] }
{}

/// What is put in order keeps its place among what neither comes before it nor behind it: here pairs, by their first numbers.
pub fn stable_order()
    ensures ties { sorted (λ (left right : Val × ℕ). comes_before rising left.0 right.0) ((number 2, 0) ∷ (number 1, 1) ∷ (null, 2) ∷ (number 2, 3) ∷ (null, 4) ∷ (number 1, 5) ∷ [])
        ≡ (null, 2) ∷ (null, 4) ∷ (number 1, 1) ∷ (number 1, 5) ∷ (number 2, 0) ∷ (number 2, 3) ∷ [] }
    ensures descending { sorted (λ (left right : Val × ℕ). comes_before (way true true) left.0 right.0) ((number 1, 0) ∷ (null, 1) ∷ (number 2, 2) ∷ (number 1, 3) ∷ [])
        ≡ (number 2, 2) ∷ (number 1, 0) ∷ (number 1, 3) ∷ (null, 1) ∷ [] }
    ensures put { Gives (λ value. inserted (comes_before rising) value (number 1 ∷ number 3 ∷ [])) (
        (number 0, number 0 ∷ number 1 ∷ number 3 ∷ []) ∷ (number 2, number 1 ∷ number 2 ∷ number 3 ∷ []) ∷ (number 4, number 1 ∷ number 3 ∷ number 4 ∷ []) ∷ []) }
{}

/// A column sorted by keys has the name, type and length of its input, which may be of any type. The keys are in an order.
pub fn types_of_columns_sorted_by_keys()
    ensures names { Gives name_of (
        (rising_by (a ∷ []) b, codes "b") ∷ (rising_by (a ∷ b ∷ []) (sum b a), codes "b") ∷ (rising_by (a ∷ []) five, codes "literal") ∷
        (rising_by (alias "k" b ∷ []) (alias "x" a), codes "x") ∷ (rising_by (alias "k" b ∷ []) a, codes "a") ∷ []) }
    ensures types { Gives (typing [] schema_ab) (
        (rising_by (b ∷ []) a, of_many int8) ∷ (rising_by (less a b ∷ nothing ∷ five ∷ []) b, of_many int32) ∷ (rising_by [] a, of_many int8) ∷ (sort_by [] [] [] a, of_many int8) ∷
        (rising_by (a ∷ []) five, of_one int32) ∷ (sort_by (true ∷ false ∷ []) (true ∷ []) (a ∷ b ∷ []) a, of_many int8) ∷
        (rising_by (c ∷ []) a, Err ColumnNotFound) ∷ (rising_by (a ∷ []) c, Err ColumnNotFound) ∷ (rising_by (huge ∷ []) a, Err InvalidOperation) ∷ (rising_by (a ∷ []) huge, Err InvalidOperation) ∷
        (node (SortByOp (true ∷ []) (true ∷ [])) no_more, Err SchemaMismatch) ∷ []) }
    ensures flags { GivesAll (typing [] schema_ab) (Err ComputeError) (
        sort_by [] (true ∷ []) (a ∷ []) b ∷ sort_by (true ∷ []) [] (a ∷ []) b ∷ sort_by (true ∷ true ∷ []) (true ∷ []) (a ∷ []) b ∷
        sort_by (true ∷ true ∷ []) (true ∷ []) (a ∷ b ∷ a ∷ []) b ∷ sort_by (true ∷ []) (true ∷ true ∷ []) [] b ∷ []) }
    ensures sortable { Gives (λ type. typing [] ((codes "a", type) ∷ (codes "b", type) ∷ []) (rising_by (a ∷ []) b)) (
        (TextType, of_many TextType) ∷ (DateType, of_many DateType) ∷ (NullType, of_many NullType) ∷ (Truth, of_many Truth) ∷
        (ListType int8, Err InvalidOperation) ∷ (one_field "x" int8, Err InvalidOperation) ∷ []) }
    ensures any_input { Gives (λ type. typing [] ((codes "a", type) ∷ (codes "b", int8) ∷ []) (rising_by (b ∷ []) a)) (
        (ListType int8, of_many (ListType int8)) ∷ (one_field "x" int8, of_many (one_field "x" int8)) ∷ []) }
    ensures kinds { Gives (kinds_in [] ((codes "a", ListType int8) ∷ (codes "b", int8) ∷ [])) (
        (rising_by (b ∷ []) a, []) ∷ (rising_by (a ∷ []) b, InvalidOperation ∷ []) ∷ (rising_by (c ∷ []) b, ColumnNotFound ∷ []) ∷
        (sort_by [] [] (b ∷ []) a, ComputeError ∷ []) ∷ (sort_by [] [] (c ∷ []) a, ColumnNotFound ∷ ComputeError ∷ []) ∷ (sort_by [] [] (a ∷ []) b, ComputeError ∷ []) ∷
        (sort_by (true ∷ false ∷ []) (false ∷ []) (c ∷ []) a, ColumnNotFound ∷ ComputeError ∷ []) ∷
        (sort_by [] [] (b ∷ []) (sum c huge), ColumnNotFound ∷ InvalidOperation ∷ ComputeError ∷ []) ∷ []) }
    ensures operands { Gives (λ typed. rule [] [] (SortByOp (true ∷ []) (true ∷ [])) typed) (
        (many_values int8 ∷ one_value (Untyped (pos 5)) ∷ many_values TextType ∷ [], Ok (record { operands = int8 ∷ int32 ∷ TextType ∷ []; own = many_values int8 })) ∷
        (one_value (Untyped (pos 300)) ∷ [], Ok (record { operands = int32 ∷ []; own = one_value int32 })) ∷ []) }
    ensures strict { Gives (is_strict [] schema_ab) ((rising_by (b ∷ []) a, true) ∷ (rising_by [] a, true) ∷ (rising_by (five ∷ []) a, false) ∷ (rising_by (a ∷ []) five, false) ∷ []) }
{}

/// The first key that differs decides, each by its own flags, or by the one flag of a kind for all.
pub fn values_sorted_by_keys()
    ensures two_keys { let keys : List (List Val) = (number 2 ∷ number 1 ∷ number 2 ∷ number 1 ∷ []) ∷ (number 5 ∷ number 6 ∷ number 4 ∷ number 6 ∷ []) ∷ [] in
        Gives (λ flags. sort_by_values flags (false ∷ []) (text "p" ∷ text "q" ∷ text "r" ∷ text "s" ∷ []) keys) (
        (false ∷ [], Done (text "q" ∷ text "s" ∷ text "r" ∷ text "p" ∷ [])) ∷ (true ∷ [], Done (text "p" ∷ text "r" ∷ text "q" ∷ text "s" ∷ [])) ∷
        (false ∷ true ∷ [], Done (text "q" ∷ text "s" ∷ text "p" ∷ text "r" ∷ [])) ∷ (true ∷ false ∷ [], Done (text "r" ∷ text "p" ∷ text "q" ∷ text "s" ∷ [])) ∷ []) }
    ensures nulls { let keys : List (List Val) = (null ∷ number 1 ∷ null ∷ number 1 ∷ []) ∷ (number 1 ∷ null ∷ null ∷ number 2 ∷ []) ∷ [] in
        Gives (λ flags. sort_by_values (false ∷ []) flags (number 1 ∷ number 2 ∷ number 3 ∷ number 4 ∷ []) keys) (
        (false ∷ [], Done (number 3 ∷ number 1 ∷ number 2 ∷ number 4 ∷ [])) ∷ (true ∷ [], Done (number 4 ∷ number 2 ∷ number 1 ∷ number 3 ∷ [])) ∷
        (false ∷ true ∷ [], Done (number 1 ∷ number 3 ∷ number 4 ∷ number 2 ∷ [])) ∷ (true ∷ false ∷ [], Done (number 2 ∷ number 4 ∷ number 3 ∷ number 1 ∷ [])) ∷ []) }
    ensures lengths { let each = number 7 ∷ null ∷ number 9 ∷ [] in
        GivesOfTwo (sort_by_values (true ∷ []) (false ∷ [])) (
        (each, (number 1 ∷ number 2 ∷ number 3 ∷ []) ∷ [], Done (number 9 ∷ null ∷ number 7 ∷ [])) ∷ (each, (number 1 ∷ []) ∷ [], Done each) ∷ (each, [], Done each) ∷
        (each, (number 1 ∷ []) ∷ (number 1 ∷ number 2 ∷ number 3 ∷ []) ∷ [], Done (number 9 ∷ null ∷ number 7 ∷ [])) ∷
        (each, (number 1 ∷ number 2 ∷ []) ∷ [], Fault) ∷ (each, [] ∷ [], Fault) ∷ (each, (number 1 ∷ []) ∷ (number 1 ∷ number 2 ∷ []) ∷ [], Fault) ∷
        ([], (number 1 ∷ []) ∷ [], Done []) ∷ (null ∷ [], (number 1 ∷ []) ∷ [], Done (null ∷ [])) ∷ (number 5 ∷ [], (number 1 ∷ number 2 ∷ []) ∷ [], Fault) ∷ []) }
    ensures more_keys_than_values { let keys : List (List Val) = (number 1 ∷ []) ∷ (yes ∷ yes ∷ []) ∷ (number 5 ∷ number 4 ∷ []) ∷ [] in
        Gives (λ flag. sort_by_values (flag ∷ []) (false ∷ []) (text "p" ∷ text "q" ∷ []) keys) ((false, Done (text "q" ∷ text "p" ∷ [])) ∷ (true, Done (text "p" ∷ text "q" ∷ [])) ∷ []) }
    ensures parts { let keys : List (List Val) = (number 1 ∷ null ∷ []) ∷ (yes ∷ []) ∷ [] in
        (key_rows 2 keys ≡ Done ((number 1 ∷ yes ∷ []) ∷ (null ∷ yes ∷ []) ∷ []))
        × (key_options 2 (true ∷ []) (false ∷ true ∷ []) ≡ way true false ∷ way true true ∷ []) × (key_options 0 (true ∷ []) [] ≡ []) }
{}

/// Keys come before others where the first that are apart do, and none where all are the same.
pub fn keys_in_order()
    ensures two { let each = way false false ∷ way true true ∷ [] in
        GivesOfTwo (keys_before each) (
        (number 1 ∷ number 1 ∷ [], number 2 ∷ number 1 ∷ [], true) ∷ (number 2 ∷ number 1 ∷ [], number 1 ∷ number 2 ∷ [], false) ∷ (number 1 ∷ number 2 ∷ [], number 1 ∷ number 1 ∷ [], true) ∷
        (number 1 ∷ number 1 ∷ [], number 1 ∷ number 1 ∷ [], false) ∷ (null ∷ number 1 ∷ [], number 1 ∷ number 2 ∷ [], true) ∷ (number 1 ∷ null ∷ [], number 1 ∷ number 2 ∷ [], false) ∷ []) }
    ensures three { GivesOfTwo (keys_before (rising ∷ way true true ∷ way true false ∷ [])) (
        (number 1 ∷ null ∷ number 2 ∷ [], number 1 ∷ null ∷ number 1 ∷ [], true) ∷ (number 1 ∷ null ∷ number 1 ∷ [], number 1 ∷ null ∷ number 2 ∷ [], false) ∷
        (null ∷ number 1 ∷ null ∷ [], null ∷ number 1 ∷ null ∷ [], false) ∷ (number 1 ∷ number 1 ∷ number 2 ∷ [], number 1 ∷ number 2 ∷ number 1 ∷ [], false) ∷ []) }
{}

/// What a sort by keys means and how it runs: keys are cast to the types to which they are taken, and each has a value for each row.
pub fn meanings_of_columns_sorted_by_keys()
    ensures means { let numbers = beside int8 int8 ((number 1, number 30) ∷ (number 2, null) ∷ (number 3, number 10) ∷ (number 4, number 30) ∷ []) in
        Gives (means numbers) (
        (rising_by (b ∷ []) a, Done (number 2 ∷ number 3 ∷ number 1 ∷ number 4 ∷ [])) ∷ (sort_by (true ∷ []) (true ∷ []) (b ∷ []) a, Done (number 1 ∷ number 4 ∷ number 3 ∷ number 2 ∷ [])) ∷
        (sort_by (false ∷ true ∷ []) (true ∷ []) (b ∷ a ∷ []) a, Done (number 3 ∷ number 4 ∷ number 1 ∷ number 2 ∷ [])) ∷ (rising_by (five ∷ []) a, Done (number 1 ∷ number 2 ∷ number 3 ∷ number 4 ∷ [])) ∷
        (rising_by [] a, Done (number 1 ∷ number 2 ∷ number 3 ∷ number 4 ∷ [])) ∷ (rising_by (a ∷ []) five, Fault) ∷ (rising_by (keep_where b (less b five) ∷ []) a, Fault) ∷
        (rising_by (one ∷ []) five, Done (number 5 ∷ [])) ∷ []) }
    ensures runs { Gives (runs (beside int8 int8 ((number 1, number 2) ∷ (number 2, number 1) ∷ []))) ((rising_by (b ∷ []) a, Done (number 2 ∷ number 1 ∷ [])) ∷ (rising_by (five ∷ []) a, Stuck) ∷ []) }
{}

/// A sort by keys has its input as the first child, and the keys behind it, in order. Its flags are lists.
pub fn trees_of_sorts_by_keys()
    ensures tree { (expr : Box Expr) (by : Exprs) (options : SortMultipleOptions) → tree_of (SortBy expr by options)
        ≡ node (Plain (SortByOp options.descending.items.value.items options.nulls_last.items.value.items)) (more (tree_of expr.value) (children_from (trees_of by))) }
    ensures children { Gives {A = List Expression} children_from (([], no_more) ∷ (a ∷ [], more a no_more) ∷ (a ∷ b ∷ [], more a (more b no_more)) ∷ []) }
    ensures counts { Gives {A = List Expression} (λ trees. tree_count (children_from trees)) (([], 0) ∷ (a ∷ [], 1) ∷ (a ∷ b ∷ a ∷ [], 3) ∷ []) }
    ensures without_aliases { Gives core ((rising_by (alias "k" b ∷ a ∷ []) (alias "x" a), rising_by (b ∷ a ∷ []) a) ∷ []) }
{}

/// Items are in order where none comes before any in front of it. Keys fit types one by one. What ties stays as it stood.
/// A sort by keys goes by the rows that they make, and there are none of keys of another length.
pub fn items_in_order()
    ensures in_order { IsInOrder nat_lt (1 ∷ 1 ∷ 2 ∷ []) × IsInOrder nat_lt [] × IsInOrder nat_lt (7 ∷ []) }
    ensures out_of_order { ¬ (IsInOrder nat_lt (2 ∷ 3 ∷ 1 ∷ [])) }
    ensures turned { ¬ (IsInOrder nat_lt (2 ∷ 1 ∷ [])) }
    ensures keys { GivesOfTwo keys_fit (
        (int8 ∷ TextType ∷ [], number 1 ∷ text "x" ∷ [], true) ∷ (int8 ∷ [], null ∷ [], true) ∷ ([], [], true) ∷
        (int8 ∷ [], number 200 ∷ [], false) ∷ (int8 ∷ [], [], false) ∷ ([], null ∷ [], false) ∷ (int8 ∷ int8 ∷ [], number 1 ∷ [], false) ∷ []) }
    ensures columns { GivesOfTwo columns_fit (
        (int8 ∷ TextType ∷ [], (number 1 ∷ null ∷ []) ∷ (text "x" ∷ []) ∷ [], true) ∷ ([], [], true) ∷
        (int8 ∷ [], (number 200 ∷ []) ∷ [], false) ∷ (int8 ∷ [], [], false) ∷ ([], [] ∷ [], false) ∷ []) }
    ensures unstable { ¬ (IsSortOf (λ (pair : ℕ × ℕ). true) (λ left right. nat_lt left.0 right.0) ((1, 5) ∷ (1, 6) ∷ []) ((1, 6) ∷ (1, 5) ∷ [])) }
    ensures unsorted { ¬ (IsSortOf (λ (x : ℕ). true) nat_lt (2 ∷ 1 ∷ []) (2 ∷ 1 ∷ [])) }
    ensures by_keys { IsSortByKeys (rising ∷ []) (int8 ∷ []) (number 7 ∷ number 8 ∷ []) ((number 2 ∷ number 1 ∷ []) ∷ []) (number 8 ∷ number 7 ∷ []) }
    ensures by_no_keys { ¬ (IsSortByKeys (rising ∷ []) (int8 ∷ []) (number 7 ∷ number 8 ∷ []) ((number 2 ∷ number 1 ∷ []) ∷ []) (number 7 ∷ number 8 ∷ [])) }
    ensures by_long_keys { (found : List Val) → ¬ (IsSortByKeys (rising ∷ []) (int8 ∷ []) (number 7 ∷ number 8 ∷ []) ((number 2 ∷ number 1 ∷ number 3 ∷ []) ∷ []) found) }
{}
