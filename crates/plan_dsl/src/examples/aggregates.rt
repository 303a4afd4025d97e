//! Aggregates.

ghost use Rattle.std.specs.Prelude.{◌≡◌, List, [], ◌∷◌, map, pos, neg_ℤ, codes, true, false, Ok, Err};
ghost use Rattle.std.specs.Global.{Box};
ghost use Rattle.plan_types.specs.Types.{NullType, Truth, TextType, DateType, TimeType, ListType};
ghost use Rattle.plan_types.specs.Schemas.{Columns};
ghost use Rattle.plan_types.specs.Values.{IntValue};
ghost use Rattle.plan_types.specs.Outcomes.{Done, Fault, Stuck};
ghost use Rattle.plan_types.specs.declared.dtype.CastOptions.TheVariants.{Strict};
ghost use Rattle.plan_types.specs.declared.error.ErrorKind.TheVariants.{ColumnNotFound, SchemaMismatch, InvalidOperation};
ghost use Rattle.plan_dsl.specs.declared.aggregate.AggExpr as agg_expr;
ghost use Rattle.plan_dsl.specs.declared.aggregate.GroupByMethod.TheVariants.{Min, NanMin, Max, NanMax, NUnique, First, Last, Implode, Sum, Count, Groups};
ghost use Rattle.plan_dsl.specs.declared.expr.Expr.{Expr, Agg};
ghost use Rattle.plan_dsl.specs.Aggregates.{aggregate_value, count_value};
ghost use Rattle.plan_dsl.specs.Expressions.{aggregated, tree_of};
ghost use Rattle.plan_dsl.specs.Meaning.{meaning};
ghost use Rattle.plan_dsl.specs.Names.{name_of};
ghost use Rattle.plan_dsl.specs.Ops.{AggOp};
ghost use Rattle.plan_dsl.specs.SameExpressions.{same_op};
ghost use Rattle.plan_dsl.specs.Signatures.{is_summable, sum_type};
ghost use Rattle.plan_dsl.specs.Strictness.{is_strict};
ghost use Rattle.plan_dsl.specs.Trees.{node, no_more, more};
ghost use Rattle.plan_dsl.specs.Typing.{typing, kinds_in};
ghost use Rattle.plan_dsl.specs.Samples.{Gives, GivesOfTwo, GivesAll, int8, int16, int32, int64, uint8, uint16, uint32, uint64, moment, span, one_field, null, yes, no, number, negative, text, list, a, b, c, agg, all_methods, count, five, huge, nothing, one, sum, cast_as, column, less, of_many, of_one, means, runs, alone, table, schema_ab};

/// An aggregate has the name of its input, and one value, however many the input has.
pub fn types_of_aggregates()
    ensures names { Gives name_of ((agg Sum a, codes "a") ∷ (agg Groups (sum b a), codes "b") ∷ (agg (Count true) five, codes "literal") ∷ (agg Min (agg Max b), codes "b") ∷ []) }
    ensures types { map (λ method. typing [] schema_ab (agg method a)) all_methods
        ≡ of_one int8 ∷ of_one int8 ∷ of_one int8 ∷ of_one int8 ∷ of_one uint32 ∷ of_one int8 ∷ of_one int8 ∷ of_one (ListType int8) ∷ of_one int64 ∷ of_one uint32 ∷ of_one uint32 ∷ of_one (ListType uint32) ∷ [] }
    ensures literals { Gives (typing [] schema_ab) (
        (agg Sum five, of_one int32) ∷ (agg First nothing, of_one NullType) ∷ (agg Implode five, of_one (ListType int32)) ∷ (agg Sum (less a b), of_one uint32) ∷
        (agg Implode (agg Implode a), of_one (ListType (ListType int8))) ∷ (sum (agg Sum a) a, of_many int64) ∷ (sum (agg Sum a) one, of_one int64) ∷ []) }
    ensures refused { Gives (typing [] schema_ab) (
        (agg First c, Err ColumnNotFound) ∷ (agg (Count false) huge, Err InvalidOperation) ∷ (node (AggOp Sum) no_more, Err SchemaMismatch) ∷ (node (AggOp Min) (more a (more a no_more)), Err SchemaMismatch) ∷ []) }
    ensures strict { Gives (is_strict [] schema_ab) ((agg Sum a, true) ∷ (agg Sum five, false) ∷ (agg Min (sum a b), false) ∷ []) }
    ensures kinds { Gives (kinds_in [] ((codes "a", TextType) ∷ [])) ((agg Sum a, InvalidOperation ∷ []) ∷ (agg Max a, []) ∷ (agg Sum (agg Sum c), ColumnNotFound ∷ []) ∷ []) }
{}

/// The least and the greatest are of values in an order. What is added up are integers, truth values and spans of time.
pub fn types_that_are_aggregated()
    ensures ordered { Gives (λ type. typing [] ((codes "a", type) ∷ []) (agg Min a)) (
        (Truth, of_one Truth) ∷ (TextType, of_one TextType) ∷ (moment, of_one moment) ∷ (NullType, of_one NullType) ∷
        (ListType int8, Err InvalidOperation) ∷ (one_field "x" int8, Err InvalidOperation) ∷ []) }
    ensures summed { Gives sum_type (
        (Truth, uint32) ∷ (int8, int64) ∷ (int16, int64) ∷ (uint8, int64) ∷ (uint16, int64) ∷ (int32, int32) ∷ (int64, int64) ∷ (uint32, uint32) ∷ (uint64, uint64) ∷ (span, span) ∷ []) }
    ensures summable { Gives is_summable (
        (Truth, true) ∷ (int8, true) ∷ (uint64, true) ∷ (span, true) ∷
        (NullType, false) ∷ (TextType, false) ∷ (DateType, false) ∷ (TimeType, false) ∷ (moment, false) ∷ (ListType int8, false) ∷ (one_field "x" int8, false) ∷ []) }
    ensures others { GivesAll (λ type. typing [] ((codes "a", type) ∷ []) (agg NUnique a)) (of_one uint32) (ListType int8 ∷ one_field "x" int8 ∷ NullType ∷ TextType ∷ moment ∷ []) }
    ensures lists { Gives (λ type. typing [] ((codes "a", type) ∷ []) (agg Last a)) ((ListType int8, of_one (ListType int8)) ∷ (one_field "x" int8, of_one (one_field "x" int8)) ∷ []) }
{}

/// Nulls are left out of the least, the greatest and the sum, and count once among distinct values. A list is no
/// null, whatever is in it.
pub fn values_of_aggregates()
    ensures some { map (λ method. aggregate_value method int64 (4 ∷ 0 ∷ 2 ∷ 1 ∷ []) (number 3 ∷ null ∷ negative 1 ∷ number 3 ∷ [])) (Min ∷ Max ∷ First ∷ Last ∷ Implode ∷ Sum ∷ [])
        ≡ negative 1 ∷ number 3 ∷ number 3 ∷ number 3 ∷ list (number 3 ∷ null ∷ negative 1 ∷ number 3 ∷ []) ∷ number 5 ∷ [] }
    ensures counts { map (λ method. aggregate_value method uint32 (4 ∷ 0 ∷ 2 ∷ 1 ∷ []) (number 3 ∷ null ∷ null ∷ number 3 ∷ [])) (NUnique ∷ Count false ∷ Count true ∷ Groups ∷ [])
        ≡ number 2 ∷ number 2 ∷ number 4 ∷ list (number 4 ∷ number 0 ∷ number 2 ∷ number 1 ∷ []) ∷ [] }
    ensures nulls_in_lists { map (λ method. aggregate_value method uint32 (0 ∷ 1 ∷ 2 ∷ 3 ∷ []) (list [] ∷ null ∷ list (null ∷ []) ∷ list (null ∷ []) ∷ [])) (Count false ∷ Count true ∷ NUnique ∷ [])
        ≡ number 3 ∷ number 4 ∷ number 3 ∷ [] }
    ensures none { map (λ method. aggregate_value method uint32 [] []) all_methods
        ≡ null ∷ null ∷ null ∷ null ∷ number 0 ∷ null ∷ null ∷ list [] ∷ number 0 ∷ number 0 ∷ number 0 ∷ list [] ∷ [] }
    ensures nulls { map (λ method. aggregate_value method int64 (0 ∷ 1 ∷ []) (null ∷ null ∷ [])) (Min ∷ NanMax ∷ First ∷ NUnique ∷ Sum ∷ Count false ∷ [])
        ≡ null ∷ null ∷ null ∷ number 1 ∷ number 0 ∷ number 0 ∷ [] }
    ensures ends { map (λ method. aggregate_value method int8 (0 ∷ 1 ∷ 2 ∷ []) (null ∷ number 7 ∷ number 9 ∷ [])) (First ∷ Last ∷ Min ∷ NanMin ∷ Max ∷ NanMax ∷ [])
        ≡ null ∷ number 9 ∷ number 7 ∷ number 7 ∷ number 9 ∷ number 9 ∷ [] }
    ensures null_at_the_end { map (λ method. aggregate_value method int8 (0 ∷ 1 ∷ 2 ∷ []) (number 9 ∷ number 7 ∷ null ∷ [])) (First ∷ Last ∷ Min ∷ Max ∷ []) ≡ number 9 ∷ null ∷ number 7 ∷ number 9 ∷ [] }
    ensures truths { map (λ method. aggregate_value method uint32 (0 ∷ 1 ∷ 2 ∷ []) (yes ∷ no ∷ yes ∷ [])) (Sum ∷ Min ∷ Max ∷ NUnique ∷ []) ≡ number 2 ∷ no ∷ yes ∷ number 2 ∷ [] }
{}

/// The least text is in front of the others in the order of their bytes.
pub fn least_texts()
    ensures { map (λ method. aggregate_value method TextType (0 ∷ 1 ∷ 2 ∷ []) (text "b" ∷ text "" ∷ text "é" ∷ [])) (Min ∷ Max ∷ []) ≡ text "" ∷ text "é" ∷ [] }
{}

/// A sum wraps around in its type, of which those of small integers are wide. Counts and row numbers are given modulo 2^32.
pub fn sums_that_wrap()
    ensures int32 { aggregate_value Sum int32 (0 ∷ 1 ∷ []) (number 2147483647 ∷ number 1 ∷ []) ≡ negative 2147483648 }
    ensures uint64 { aggregate_value Sum uint64 (0 ∷ 1 ∷ []) (number 18446744073709551615 ∷ number 2 ∷ []) ≡ number 1 }
    ensures span { aggregate_value Sum span (0 ∷ 1 ∷ []) (number 9223372036854775807 ∷ number 1 ∷ []) ≡ negative 9223372036854775808 }
    ensures small { means (alone int8 (number 100 ∷ number 100 ∷ null ∷ [])) (agg Sum a) ≡ Done (number 200 ∷ []) }
    ensures rows { aggregate_value Groups (ListType uint32) (4294967297 ∷ 4294967295 ∷ []) (null ∷ null ∷ []) ≡ list (number 1 ∷ number 4294967295 ∷ []) }
    ensures counts { Gives (count_value uint32) ((4294967295, number 4294967295) ∷ (4294967296, number 0) ∷ []) }
{}

/// What aggregates mean and how they run: of no rows too, and at rows in any order.
pub fn meanings_of_aggregates()
    ensures means { Gives (means table) (
        (agg Sum a, Done (number 101 ∷ [])) ∷ (agg Max b, Done (number 200 ∷ [])) ∷ (agg (Count false) a, Done (number 2 ∷ [])) ∷ (agg Groups a, Done (list (number 0 ∷ number 1 ∷ number 2 ∷ []) ∷ [])) ∷
        (sum (agg Sum a) b, Done (number 111 ∷ number 121 ∷ number 301 ∷ [])) ∷ (agg Sum five, Done (number 5 ∷ [])) ∷ (agg Sum (sum a b), Done (number 311 ∷ [])) ∷ []) }
    ensures runs { Gives (runs table) ((agg Sum a, Done (number 101 ∷ [])) ∷ (agg Sum five, Stuck) ∷ (agg First b, Done (number 10 ∷ [])) ∷ []) }
    ensures none { Gives (means (alone int8 [])) ((agg Sum a, Done (number 0 ∷ [])) ∷ (agg Min a, Done (null ∷ [])) ∷ (agg Implode a, Done (list [] ∷ [])) ∷ (agg (Count true) five, Done (number 1 ∷ [])) ∷ []) }
    ensures order { Gives (λ method. meaning [] (alone int8 (number 5 ∷ number 6 ∷ number 7 ∷ [])) (agg method a) (2 ∷ 0 ∷ [])) (
        (First, Done (number 7 ∷ [])) ∷ (Last, Done (number 5 ∷ [])) ∷ (Sum, Done (number 12 ∷ [])) ∷ (Groups, Done (list (number 2 ∷ number 0 ∷ []) ∷ [])) ∷ []) }
    ensures faults { Gives (means (alone TextType (text "x" ∷ []))) ((agg Groups (cast_as Strict int8 a), Fault) ∷ (agg (Count true) (cast_as Strict int8 a), Fault) ∷ []) }
{}

/// An aggregate's tree, and its method: whether what is no number is passed on is kept, and tells two apart.
pub fn trees_of_aggregates()
    ensures trees { (expr : Box Expr) → Gives (λ aggregate. tree_of (Agg aggregate)) (
        (agg_expr.Min expr false, aggregated Min (tree_of expr.value)) ∷ (agg_expr.Min expr true, aggregated NanMin (tree_of expr.value)) ∷
        (agg_expr.Max expr false, aggregated Max (tree_of expr.value)) ∷ (agg_expr.Max expr true, aggregated NanMax (tree_of expr.value)) ∷
        (agg_expr.NUnique expr, aggregated NUnique (tree_of expr.value)) ∷ (agg_expr.First expr, aggregated First (tree_of expr.value)) ∷ (agg_expr.Last expr, aggregated Last (tree_of expr.value)) ∷
        (agg_expr.Implode expr, aggregated Implode (tree_of expr.value)) ∷ (agg_expr.Count expr true, aggregated (Count true) (tree_of expr.value)) ∷ (agg_expr.Count expr false, aggregated (Count false) (tree_of expr.value)) ∷
        (agg_expr.Sum expr, aggregated Sum (tree_of expr.value)) ∷ (agg_expr.AggGroups expr, aggregated Groups (tree_of expr.value)) ∷ []) }
    ensures same { GivesOfTwo (λ left right. same_op (AggOp left) (AggOp right)) (
        (Min, Min, true) ∷ (Min, NanMin, false) ∷ (Max, NanMax, false) ∷ (Count true, Count false, false) ∷ (Count true, Count true, true) ∷ (First, Last, false) ∷ (Groups, Groups, true) ∷ []) }
{}
