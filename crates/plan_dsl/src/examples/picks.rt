//! Values that are picked out of columns: exploded, gathered and filtered.

ghost use Rattle.std.specs.Prelude.{◌≡◌, List, [], ◌∷◌, pos, neg_ℤ, codes, true, false, Err};
ghost use Rattle.plan_types.specs.Types.{NullType, Truth, TextType, ListType};
ghost use Rattle.plan_types.specs.Casts.{Gives as Converts, Fails};
ghost use Rattle.plan_types.specs.Outcomes.{Done, Fault, Stuck};
ghost use Rattle.plan_types.specs.Schemas.{Columns};
ghost use Rattle.plan_types.specs.declared.dtype.CastOptions.TheVariants.{NonStrict};
ghost use Rattle.plan_types.specs.declared.error.ErrorKind.TheVariants.{ColumnNotFound, SchemaMismatch, InvalidOperation};
ghost use Rattle.plan_dsl.specs.Trees.{node, no_more, more};
ghost use Rattle.plan_dsl.specs.Ops.{LiteralOp, ExplodeOp, GatherOp, FilterOp};
ghost use Rattle.plan_dsl.specs.Names.{name_of};
ghost use Rattle.plan_dsl.specs.Kernels.{filter_values};
ghost use Rattle.plan_dsl.specs.ListLaws.{AreRowsOf, IsOfEach, as_outcome, beside_true};
ghost use Rattle.plan_dsl.specs.Picks.{explode_values, gather_values, gathered};
ghost use Rattle.plan_dsl.specs.Typing.{typing, kinds_in};
ghost use Rattle.plan_dsl.specs.Strictness.{is_strict};
ghost use Rattle.plan_dsl.specs.Samples.{Gives, GivesOfTwo, GivesAll, int8, int32, int64, null, yes, no, number, negative, text, list, struct_of, one_field, column, a, b, c, count, literal, typed_literal, one, two, five, below, huge, nothing, less, sum, cast_as, explode, gather, gather_one, keep_where, of_many, of_one, means, runs, alone, beside, one_to_five, schema_ab, schema_flagged, flagged, table};

/// An exploded list has its items' type, and any other type stays. There may be many values, of one value too.
pub fn types_of_exploded_columns()
    ensures names { Gives name_of ((explode a, codes "a") ∷ (explode (sum b a), codes "b") ∷ (explode five, codes "literal") ∷ (explode count, codes "len") ∷ []) }
    ensures types { let columns : Columns = (codes "a", ListType int8) ∷ (codes "b", ListType (ListType TextType)) ∷ (codes "c", one_field "x" int8) ∷ (codes "d", NullType) ∷ (codes "m", int8) ∷ [] in
        Gives (typing [] columns) (
        (explode a, of_many int8) ∷ (explode b, of_many (ListType TextType)) ∷ (explode (explode b), of_many TextType) ∷ (explode c, of_many (one_field "x" int8)) ∷
        (explode (column "d"), of_many NullType) ∷ (explode (column "m"), of_many int8) ∷ (explode five, of_many int32) ∷
        (explode huge, Err InvalidOperation) ∷ (explode (column "e"), Err ColumnNotFound) ∷ (node ExplodeOp no_more, Err SchemaMismatch) ∷ []) }
    ensures strict { Gives (is_strict [] schema_ab) ((explode a, true) ∷ (explode five, false) ∷ (explode (sum a b), false) ∷ []) }
{}

/// A list gives its values, and an empty or a null one gives a null. What is no list gives itself. One level is taken away.
pub fn values_of_exploded_columns()
    ensures lists { Gives explode_values (
        (list (number 1 ∷ number 2 ∷ []) ∷ list [] ∷ null ∷ list (null ∷ []) ∷ [], number 1 ∷ number 2 ∷ null ∷ null ∷ null ∷ []) ∷
        (list (list (number 1 ∷ []) ∷ list [] ∷ []) ∷ [], list (number 1 ∷ []) ∷ list [] ∷ []) ∷ ([], []) ∷ []) }
    ensures others { Gives explode_values (
        (number 1 ∷ null ∷ [], number 1 ∷ null ∷ []) ∷ (text "x" ∷ yes ∷ [], text "x" ∷ yes ∷ []) ∷
        (struct_of (list (number 1 ∷ number 2 ∷ []) ∷ []) ∷ null ∷ [], struct_of (list (number 1 ∷ number 2 ∷ []) ∷ []) ∷ null ∷ []) ∷ []) }
    ensures meaning { let lists = alone (ListType int8) (list [] ∷ list (number 3 ∷ number 4 ∷ []) ∷ null ∷ []) in
        Gives (means lists) ((explode a, Done (null ∷ number 3 ∷ number 4 ∷ null ∷ [])) ∷ (explode five, Done (number 5 ∷ [])) ∷ (explode count, Done (number 3 ∷ [])) ∷ []) }
    ensures runs { Gives (runs one_to_five) ((explode a, Done (number 1 ∷ number 2 ∷ number 3 ∷ number 4 ∷ number 5 ∷ [])) ∷ (explode five, Stuck) ∷ []) }
{}

/// What is gathered has the input's name and type. An index is an integer, and one value where one value is asked for.
pub fn types_of_gathered_columns()
    ensures names { Gives name_of ((gather a b, codes "a") ∷ (gather (sum b a) one, codes "b") ∷ (gather_one five a, codes "literal") ∷ []) }
    ensures types { Gives (typing [] schema_ab) (
        (gather a b, of_many int8) ∷ (gather a one, of_many int8) ∷ (gather five b, of_many int32) ∷ (gather a (typed_literal int8 (pos 1)), of_many int8) ∷
        (gather_one a one, of_one int8) ∷ (gather_one a below, of_one int8) ∷ (gather_one five count, of_one int32) ∷ (gather_one a (gather_one b one), of_one int8) ∷
        (gather c one, Err ColumnNotFound) ∷ (gather a c, Err ColumnNotFound) ∷ (node (GatherOp true) (more a no_more), Err SchemaMismatch) ∷ []) }
    ensures refused { let text_literal = node (LiteralOp TextType (text "1")) no_more in
        GivesAll (typing [] schema_ab) (Err InvalidOperation) (
        gather_one a b ∷ gather_one a (gather b one) ∷ gather a nothing ∷ gather a text_literal ∷ gather a (less a b) ∷ gather a huge ∷ gather huge one ∷ []) }
    ensures kinds { Gives (kinds_in [] schema_ab) ((gather_one a one, []) ∷ (gather_one a b, InvalidOperation ∷ []) ∷ (gather_one c b, ColumnNotFound ∷ []) ∷ (gather c huge, ColumnNotFound ∷ InvalidOperation ∷ []) ∷ []) }
    ensures strict { Gives (is_strict [] schema_ab) ((gather a (typed_literal int64 (pos 1)), true) ∷ (gather_one a (cast_as NonStrict int64 count), true) ∷ (gather a one, false) ∷ (gather a b, false) ∷ []) }
{}

/// An index below 0 counts from the end, and a null one gives null. One outside is a fault, whatever the others give.
pub fn values_of_gathered_columns()
    ensures indices { GivesOfTwo gather_values (
        (number 7 ∷ number 8 ∷ number 9 ∷ [], number 0 ∷ number 2 ∷ number 0 ∷ [], Done (number 7 ∷ number 9 ∷ number 7 ∷ [])) ∷
        (number 7 ∷ number 8 ∷ number 9 ∷ [], negative 1 ∷ null ∷ negative 3 ∷ [], Done (number 9 ∷ null ∷ number 7 ∷ [])) ∷
        (number 7 ∷ number 8 ∷ number 9 ∷ [], number 0 ∷ number 3 ∷ [], Fault) ∷ (number 7 ∷ number 8 ∷ number 9 ∷ [], negative 4 ∷ null ∷ [], Fault) ∷
        (number 7 ∷ null ∷ [], number 1 ∷ [], Done (null ∷ [])) ∷ (number 7 ∷ [], [], Done []) ∷
        ([], null ∷ [], Done (null ∷ [])) ∷ ([], number 0 ∷ [], Fault) ∷ ([], negative 1 ∷ [], Fault) ∷ ([], [], Done []) ∷ []) }
    ensures meaning { Gives (means one_to_five) (
        (gather a a, Fault) ∷ (gather a (sum a (literal (neg_ℤ (pos 5)))), Done (number 2 ∷ number 3 ∷ number 4 ∷ number 5 ∷ number 1 ∷ [])) ∷
        (gather a two, Done (number 3 ∷ [])) ∷ (gather_one a below, Done (number 5 ∷ [])) ∷ (gather_one a five, Fault) ∷ (gather_one five (literal (pos 0)), Done (number 5 ∷ [])) ∷
        (gather_one a (cast_as NonStrict int8 nothing), Done (null ∷ [])) ∷ (sum a (gather_one a two), Done (number 4 ∷ number 5 ∷ number 6 ∷ number 7 ∷ number 8 ∷ [])) ∷
        (gather a (literal (pos 9223372036854775808)), Done (null ∷ [])) ∷ (gather a (literal (pos 9223372036854775807)), Fault) ∷ []) }
    ensures runs { Gives (runs one_to_five) ((gather a (typed_literal int64 (pos 1)), Done (number 2 ∷ [])) ∷ (gather a one, Stuck) ∷ []) }
{}

/// A filter asks for truth values or null, and keeps the input's name and type. There may be many values.
pub fn types_of_filtered_columns()
    ensures names { Gives name_of ((keep_where a b, codes "a") ∷ (keep_where five a, codes "literal") ∷ []) }
    ensures types { let kept = column "keep" in
        Gives (typing [] schema_flagged) (
        (keep_where a kept, of_many int8) ∷ (keep_where a (less a five), of_many int8) ∷ (keep_where a nothing, of_many int8) ∷ (keep_where five kept, of_many int32) ∷ (keep_where five nothing, of_many int32) ∷
        (keep_where a a, Err InvalidOperation) ∷ (keep_where a one, Err InvalidOperation) ∷ (keep_where huge kept, Err InvalidOperation) ∷
        (keep_where c kept, Err ColumnNotFound) ∷ (keep_where a c, Err ColumnNotFound) ∷ (node FilterOp (more a no_more), Err SchemaMismatch) ∷ []) }
    ensures strict { Gives (is_strict [] schema_flagged) ((keep_where a (column "keep"), true) ∷ (keep_where a (cast_as NonStrict Truth nothing), true) ∷ (keep_where a nothing, false) ∷ (keep_where five (column "keep"), false) ∷ []) }
{}

/// Values stay where it is true: null is not true. One truth value is for all values, and one value for all truth values; columns of
/// other unequal lengths are a fault.
pub fn values_of_filtered_columns()
    ensures kept { GivesOfTwo filter_values (
        (number 1 ∷ number 2 ∷ null ∷ number 4 ∷ [], yes ∷ null ∷ yes ∷ no ∷ [], Done (number 1 ∷ null ∷ [])) ∷
        (number 1 ∷ number 2 ∷ [], yes ∷ [], Done (number 1 ∷ number 2 ∷ [])) ∷ (number 1 ∷ number 2 ∷ [], no ∷ [], Done []) ∷ (number 1 ∷ number 2 ∷ [], null ∷ [], Done []) ∷
        (number 5 ∷ [], yes ∷ no ∷ yes ∷ [], Done (number 5 ∷ number 5 ∷ [])) ∷ (number 5 ∷ [], yes ∷ [], Done (number 5 ∷ [])) ∷
        (number 1 ∷ number 2 ∷ [], yes ∷ yes ∷ yes ∷ [], Fault) ∷ (number 1 ∷ number 2 ∷ [], [], Fault) ∷
        ([], yes ∷ [], Done []) ∷ (number 5 ∷ [], [], Done []) ∷ ([], [], Done []) ∷ ([], yes ∷ yes ∷ [], Fault) ∷ []) }
    ensures meaning { let kept = column "keep" in
        Gives (means flagged) ((keep_where a kept, Done (number 1 ∷ null ∷ [])) ∷ (keep_where five kept, Done (number 5 ∷ number 5 ∷ [])) ∷ (keep_where a nothing, Done []) ∷
        (keep_where (keep_where a kept) kept, Fault) ∷ []) }
    ensures runs { Gives (runs flagged) ((keep_where a (column "keep"), Done (number 1 ∷ null ∷ [])) ∷ (keep_where a nothing, Stuck) ∷ []) }
{}

/// What is given of each of some values, in order: none too few, and nothing where one of them gives nothing. Rows of columns
/// have the values of each column, and what stands beside true values is what a filter keeps.
pub fn values_one_by_one()
    ensures each { IsOfEach (gathered (yes ∷ no ∷ [])) (number 1 ∷ null ∷ []) (Done (no ∷ null ∷ [])) }
    ensures too_few { ¬ (IsOfEach (gathered (yes ∷ no ∷ [])) (number 1 ∷ null ∷ []) (Done (no ∷ []))) }
    ensures with_a_fault { ¬ (IsOfEach (gathered (yes ∷ no ∷ [])) (number 1 ∷ number 2 ∷ []) (Done (no ∷ null ∷ []))) }
    ensures converted { (as_outcome (Converts yes) ≡ Done yes) × (as_outcome Fails ≡ Fault) }
    ensures rows { ¬ (AreRowsOf 2 ((yes ∷ []) ∷ (no ∷ null ∷ []) ∷ []) ((yes ∷ no ∷ []) ∷ (yes ∷ no ∷ []) ∷ [])) }
    ensures beside { (beside_true (yes ∷ no ∷ null ∷ yes ∷ []) (number 1 ∷ number 2 ∷ null ∷ number 4 ∷ []) ≡ number 1 ∷ number 4 ∷ []) ×
        (beside_true (yes ∷ yes ∷ []) (number 1 ∷ []) ≡ number 1 ∷ []) }
{}
