//! Worked examples of the definitions. The functions do nothing: their clauses are the examples.
#![tactic(auto, unfolding(crate::proofs::OnLiterals::values_on_literals))]

pub mod aggregates;
pub mod errors;
pub mod faults;
pub mod functions;
pub mod markers;
pub mod nulls;
pub mod table_functions;
pub mod windows;
pub mod works;

ghost use Rattle.std.specs.Prelude.{◌≡◌, pos, [], ◌∷◌, Some, None, codes, nat_lt, true, false, ℕ, ℤ, negsuc, Float, List};
ghost use Rattle.plan_types.specs.Types.{NullType, Truth, Integer, TextType, DateType, TimeType, DatetimeType, DurationType, ListType, StructType, no_field, with_field, Untyped};
ghost use Rattle.plan_types.specs.declared.dtype.CastOptions.TheVariants.{Strict, NonStrict, Overflowing};
ghost use Rattle.plan_types.specs.declared.dtype.TimeUnit.TheVariants.{Nanoseconds, Microseconds, Milliseconds};
ghost use Rattle.plan_dsl.specs.Plans.{empty_table, source_group_by, source_select};
ghost use Rattle.plan_dsl.specs.declared.operator.Operator.TheVariants.{Lt, GtEq, Plus, Eq, EqValidity, NotEq, NotEqValidity, LtEq, Gt, Minus, Multiply, Divide, FloorDivide, Modulus, And, Or, Xor, LogicalAnd, LogicalOr};
ghost use Rattle.serde_json.specs.Data.{Data, Items, array, boolean, member, no_members, null, object, float, negative, number, string, unsigned};
ghost use Rattle.serde_json.specs.Events.{items_len};
ghost use Rattle.plan_json.specs.Looking.{first_items, only_member, three_items, two_items, two_members};
ghost use Rattle.plan_json.specs.Leaves.{columns_of, table_limit, tables_of, type_of, unit_of, literal_of, number_text_of, number_written, operator_of, typed_of};
ghost use Rattle.plan_json.specs.Forms.{Read, flag_read, leaf as one};
ghost use Rattle.plan_json.specs.Queries.{IsItem, plan_of, query_of, QueryModel};
ghost use Rattle.plan_json.specs.declared.forms.Leaf.TheVariants as leaves;
ghost use Rattle.plan_json.specs.declared.forms.SmallLeaf.TheVariants as smalls;
ghost use Rattle.plan_dsl.specs.Samples.{alias, all, count, explode, form, gather_one, keep_where, nth, slice, sort_as, sort_by, way, written_hstack};
ghost use Rattle.plan_dsl.specs.Sources.{AddSuffix, written};
ghost use Rattle.plan_json.specs.Samples.{ReadAs, items_of, expression_of, Gives, GivesAll, bin, binary, cast_to, cast_value, col, column, column_value, empty_value, filter, filter_value, int8, int64, keyed, keyed_twice, list, moments, query, query_value, scan, scan_value, select, select_value, spans, table_value, untyped, whole, word, below_zero, leaf, typed, Each, Refused, Writes, NoJson};
ghost use Rattle.plan_types.specs.Values.{NullValue, TruthValue, TextValue};
ghost use Rattle.plan_dsl.specs.Ops.{LiteralOp};
ghost use Rattle.plan_json.specs.Bytes.{IsRefusalOf, WritesQuery};
ghost use Rattle.plan_json.specs.Faults.{BadFloat, BadName, BadShape, key};
ghost use Rattle.plan_json.specs.declared.error.JsonError.TheVariants.{NoMemory};

/// The parts of an object or of a list of exactly that size, and the items before that of a number.
pub fn looking_examples()
    ensures only_member { (d e : Data) → Gives only_member ((keyed "a" d, Some (codes "a", d)) ∷ (keyed_twice "a" d "b" e, None) ∷ (object no_members, None) ∷ (list (d ∷ []), None) ∷ []) }
    ensures two_members { (d e : Data) → Gives (two_members (codes "a") (codes "b")) ((keyed_twice "a" d "b" e, Some (d, e)) ∷ (keyed_twice "b" e "a" d, Some (d, e)) ∷
        (keyed "a" d, None) ∷ (keyed_twice "a" d "c" e, None) ∷ (object (member (codes "a") d (member (codes "b") e (member (codes "c") d no_members))), None) ∷ (list (d ∷ e ∷ []), None) ∷ []) }
    ensures two_items { (d e f : Data) → Gives two_items ((list (d ∷ e ∷ []), Some (d, e)) ∷ (list [], None) ∷ (list (d ∷ []), None) ∷ (list (d ∷ e ∷ f ∷ []), None) ∷ (keyed_twice "a" d "b" e, None) ∷ []) }
    ensures three_items { (d e f g : Data) → Gives three_items ((list (d ∷ e ∷ f ∷ []), Some (d, (e, f))) ∷ (list [], None) ∷ (list (d ∷ e ∷ []), None) ∷ (list (d ∷ e ∷ f ∷ g ∷ []), None) ∷ (keyed "a" d, None) ∷ (null, None) ∷ []) }
    ensures first_items { (d e : Data) → let items : List Data → Items = items_of in Gives (λ n. first_items n (items (d ∷ e ∷ []))) ((0, items []) ∷ (1, items (d ∷ [])) ∷ (2, items (d ∷ e ∷ [])) ∷ (3, items (d ∷ e ∷ [])) ∷ []) }
{}

/// Queries, and the tables and columns that they declare: tables by name and columns, no two of one name, and a plan over them.
pub fn declaration_examples()
    ensures queries { let declared = list (column_value "a" "Int8" ∷ column_value "b" "UInt32" ∷ []) in let sum = bin (word "Plus" ∷ col "a" ∷ col "b" ∷ []) in
        let selection = select_value (scan_value "t" ∷ list (sum ∷ col "b" ∷ []) ∷ []) in let columns = (codes "a", int8) ∷ (codes "b", Integer false 32) ∷ [] in
        let plan = select (binary Plus (column "a") (column "b") ∷ column "b" ∷ []) (scan (Some 0) columns) in let two = table_value "t" (list []) ∷ table_value "" (list []) ∷ [] in
        Gives query_of ((query_value [] empty_value, Some (query [] empty_table)) ∷
        (query_value (table_value "t" declared ∷ []) selection, Some (query ((codes "t", columns) ∷ []) plan)) ∷
        (query_value two (scan_value ""), Some (query ((codes "t", []) ∷ ([], []) ∷ []) (scan (Some 1) []))) ∷ []) }
    ensures no_queries { let t = table_value "t" (list []) in let twice = list (column_value "a" "Int8" ∷ column_value "a" "Int8" ∷ []) in
        GivesAll query_of None (object (member (codes "plan") empty_value (member (codes "tables") (list []) (member (codes "x") null no_members))) ∷
        keyed "tables" (list []) ∷ keyed_twice "plans" empty_value "tables" (list []) ∷ boolean true ∷
        query_value [] (keyed "store" (list [])) ∷ query_value [] (scan_value "t") ∷ query_value (t ∷ t ∷ []) (scan_value "t") ∷ query_value [] (keyed "empty" twice) ∷ []) }
    ensures tables { let s = table_value "s" (list []) in let t = table_value "t" (list []) in
        Gives tables_of ((list [], Some []) ∷ (list (table_value "t" (list (column_value "a" "Int8" ∷ [])) ∷ []), Some ((codes "t", (codes "a", int8) ∷ []) ∷ [])) ∷
        (list (t ∷ s ∷ []), Some ((codes "t", []) ∷ (codes "s", []) ∷ [])) ∷ []) }
    ensures too_many_tables { (tables : Items) → nat_lt (items_len tables) table_limit ≡ false → tables_of (array tables) ≡ None }
    ensures no_tables { GivesAll tables_of None (object no_members ∷ list (keyed "name" (word "t") ∷ []) ∷ list (keyed_twice "cols" (list []) "name" (word "t") ∷ []) ∷
        list (object (member (codes "columns") (list []) (member (codes "name") (word "t") (member (codes "rows") null no_members))) ∷ []) ∷
        list (keyed_twice "columns" (list []) "name" (whole 1) ∷ []) ∷ []) }
    ensures columns { Gives columns_of ((list [], Some []) ∷
        (list (column_value "b" "Null" ∷ list (word "a" ∷ moments "us" ∷ []) ∷ []), Some ((codes "b", NullType) ∷ (codes "a", DatetimeType Microseconds) ∷ [])) ∷ []) }
    ensures no_columns { GivesAll columns_of None (list (column_value "a" "Int8" ∷ column_value "b" "Int8" ∷ column_value "a" "Int16" ∷ []) ∷
        keyed "a" (word "Int8") ∷ list (list (word "a" ∷ []) ∷ []) ∷ list (list (word "a" ∷ word "Int8" ∷ null ∷ []) ∷ []) ∷ list (column_value "Int8" "a" ∷ []) ∷ []) }
{}

/// A type: a name, or an object of one key with a unit of time, with the type of a list's items or with a struct's fields, each a name and a type.
pub fn type_examples()
    ensures names { Gives (λ name. type_of (word name)) (
        ("Null", Some NullType) ∷ ("Boolean", Some Truth) ∷ ("String", Some TextType) ∷ ("Date", Some DateType) ∷ ("Time", Some TimeType) ∷
        ("Int8", Some int8) ∷ ("Int16", Some (Integer true 16)) ∷ ("Int32", Some (Integer true 32)) ∷ ("Int64", Some int64) ∷
        ("UInt8", Some (Integer false 8)) ∷ ("UInt16", Some (Integer false 16)) ∷ ("UInt32", Some (Integer false 32)) ∷ ("UInt64", Some (Integer false 64)) ∷ []) }
    ensures of_units { Gives type_of (
        (moments "ns", Some (DatetimeType Nanoseconds)) ∷ (moments "us", Some (DatetimeType Microseconds)) ∷ (moments "ms", Some (DatetimeType Milliseconds)) ∷
        (spans "ns", Some (DurationType Nanoseconds)) ∷ (spans "us", Some (DurationType Microseconds)) ∷ (spans "ms", Some (DurationType Milliseconds)) ∷ []) }
    ensures none { GivesAll type_of None (word "Bool" ∷ word "null" ∷ word "Datetime" ∷ moments "s" ∷ keyed "Duration" null ∷ keyed "Date" (word "ms") ∷
        keyed_twice "Datetime" (word "ms") "Duration" (word "ms") ∷ object no_members ∷ null ∷ list (word "Date" ∷ []) ∷ []) }
    ensures units { Gives (λ name. unit_of (word name)) (("us", Some Microseconds) ∷ ("US", None) ∷ []) }
    ensures nested { let texts = list (word "b" ∷ keyed "List" (word "String") ∷ []) in let a = column_value "a" "Time" in
        Gives type_of ((keyed "List" (word "Int8"), Some (ListType int8)) ∷ (keyed "List" (moments "ms"), Some (ListType (DatetimeType Milliseconds))) ∷
        (keyed "List" (keyed "List" (word "Date")), Some (ListType (ListType DateType))) ∷ (keyed "Struct" (list []), Some (StructType no_field)) ∷
        (keyed "Struct" (list (column_value "a" "Int8" ∷ texts ∷ [])), Some (StructType (with_field (codes "a") int8 (with_field (codes "b") (ListType TextType) no_field)))) ∷
        (keyed "Struct" (list (a ∷ a ∷ [])), Some (StructType (with_field (codes "a") TimeType (with_field (codes "a") TimeType no_field)))) ∷
        (keyed "Struct" (list (list (word "" ∷ keyed "Struct" (list []) ∷ []) ∷ [])), Some (StructType (with_field [] (StructType no_field) no_field))) ∷ []) }
    ensures no_nested { let known = column_value "a" "Int8" in
        GivesAll type_of None (word "List" ∷ keyed "List" (word "List") ∷ keyed "List" (list (word "Date" ∷ word "Time" ∷ [])) ∷ keyed "list" (word "Int8") ∷
        keyed "Struct" (keyed "a" (word "Int8")) ∷ keyed "Struct" (list (list (word "a" ∷ []) ∷ [])) ∷
        keyed "Struct" (list (list (word "a" ∷ word "Int8" ∷ null ∷ []) ∷ [])) ∷ keyed "Struct" (list (list (null ∷ word "Int8" ∷ []) ∷ [])) ∷
        keyed "Struct" (list (known ∷ column_value "a" "int8" ∷ [])) ∷ []) }
{}

/// A scan names a declared table, and the empty table has the columns that are written. A filter has its input and a predicate, a select and an hstack their input and a list, a group-by its input and two.
pub fn plan_examples()
    ensures over_two { let a = (codes "a", Truth) ∷ [] in
        Gives (plan_of ((codes "t", a) ∷ (codes "s", []) ∷ [])) ((scan_value "t", Some (scan (Some 0) a)) ∷ (scan_value "s", Some (scan (Some 1) [])) ∷ []) }
    ensures unread_over_one { GivesAll (plan_of ((codes "t", []) ∷ [])) None (
        scan_value "T" ∷ keyed "scan" (whole 0) ∷ keyed "empty" (word "t") ∷ keyed_twice "empty" (list []) "scan" (word "t") ∷ word "t" ∷ []) }
    ensures over_none { Gives (plan_of []) ((keyed "empty" (list (column_value "a" "Boolean" ∷ [])), Some (scan None ((codes "a", Truth) ∷ []))) ∷ (object no_members, None) ∷ []) }
    ensures filters { let one = keyed "lit" (whole 1) in let two = keyed "lit" (whole 2) in
        Gives (plan_of []) ((filter_value (empty_value ∷ col "a" ∷ []), Some (filter (column "a") empty_table)) ∷
        (filter_value (filter_value (empty_value ∷ one ∷ []) ∷ two ∷ []), Some (filter (untyped (pos 2)) (filter (untyped (pos 1)) empty_table))) ∷
        (filter_value (empty_value ∷ []), None) ∷ (filter_value (empty_value ∷ col "a" ∷ col "a" ∷ []), None) ∷ (filter_value (empty_value ∷ list (col "a" ∷ []) ∷ []), None) ∷ []) }
    ensures selects { Gives (plan_of []) ((select_value (empty_value ∷ list [] ∷ []), Some (select [] empty_table)) ∷
        (select_value (empty_value ∷ list (col "b" ∷ col "a" ∷ []) ∷ []), Some (select (column "b" ∷ column "a" ∷ []) empty_table)) ∷
        (select_value (empty_value ∷ []), None) ∷ (select_value (empty_value ∷ list [] ∷ list [] ∷ []), None) ∷
        (select_value (empty_value ∷ col "a" ∷ []), None) ∷ (select_value (list [] ∷ empty_value ∷ []), None) ∷ []) }
    ensures hstacks { Gives (λ items. plan_of [] (keyed "with_columns" (list items))) (
        (empty_value ∷ list [] ∷ [], Some (written_hstack [] empty_table)) ∷
        (empty_value ∷ list (col "b" ∷ col "a" ∷ []) ∷ [], Some (written_hstack (column "b" ∷ column "a" ∷ []) empty_table)) ∷
        (empty_value ∷ [], None) ∷ (empty_value ∷ col "a" ∷ [], None) ∷ (empty_value ∷ list [] ∷ list [] ∷ [], None) ∷ []) }
    ensures groups { Gives (λ items. plan_of [] (keyed "group_by" (list items))) (
        (empty_value ∷ list [] ∷ list [] ∷ [], Some (source_group_by [] [] empty_table)) ∷
        (empty_value ∷ list (col "b" ∷ col "a" ∷ []) ∷ list (keyed "all" null ∷ []) ∷ [], Some (source_group_by (written (column "b") ∷ written (column "a") ∷ []) (all ∷ []) empty_table)) ∷
        (empty_value ∷ list (col "a" ∷ []) ∷ [], None) ∷ (empty_value ∷ list [] ∷ list [] ∷ list [] ∷ [], None) ∷ (empty_value ∷ col "a" ∷ list [] ∷ [], None) ∷
        (list [] ∷ list [] ∷ empty_value ∷ [], None) ∷ []) }
{}

/// An expression: an object of one key, which names its form. An operator is written by its name.
pub fn expression_examples()
    ensures read { let strict = cast_value (col "a" ∷ word "Int64" ∷ word "Strict" ∷ []) in let strictly = cast_to int64 Strict (column "a") in
        ReadAs ((col "a", column "a") ∷ (col "", column "") ∷ (bin (word "GtEq" ∷ col "a" ∷ col "b" ∷ []), binary GtEq (column "a") (column "b")) ∷
        (cast_value (col "a" ∷ word "Boolean" ∷ word "NonStrict" ∷ []), cast_to Truth NonStrict (column "a")) ∷
        (cast_value (strict ∷ word "UInt8" ∷ word "Overflowing" ∷ []), cast_to (Integer false 8) Overflowing strictly) ∷
        (bin (word "Lt" ∷ strict ∷ col "b" ∷ []), binary Lt strictly (column "b")) ∷
        (cast_value (col "a" ∷ moments "ms" ∷ word "Strict" ∷ []), cast_to (DatetimeType Milliseconds) Strict (column "a")) ∷ (keyed "len" null, count) ∷ (keyed "slice" (list (col "a" ∷ keyed "lit" (whole 1) ∷ keyed "len" null ∷ [])), slice (column "a") (untyped (pos 1)) count) ∷
        (keyed "explode" (col "a"), explode (column "a")) ∷ (keyed "gather" (list (col "a" ∷ col "b" ∷ boolean true ∷ [])), gather_one (column "a") (column "b")) ∷
        (keyed "filter" (list (col "a" ∷ col "b" ∷ [])), keep_where (column "a") (column "b")) ∷ (keyed "sort" (list (col "a" ∷ boolean true ∷ boolean false ∷ [])), sort_as (way true false) (column "a")) ∷
        (keyed "sort_by" (list (col "a" ∷ list (col "b" ∷ col "a" ∷ []) ∷ list (boolean true ∷ []) ∷ list (boolean false ∷ boolean true ∷ []) ∷ [])), sort_by (true ∷ []) (false ∷ true ∷ []) (column "b" ∷ column "a" ∷ []) (column "a")) ∷
        (keyed "alias" (list (col "a" ∷ word "x" ∷ [])), alias "x" (column "a")) ∷ []) }
    ensures unread { let a = col "a" in
        GivesAll expression_of None (cast_value (a ∷ word "Int64" ∷ word "strict" ∷ []) ∷ cast_value (a ∷ word "Int64" ∷ []) ∷ cast_value (null ∷ word "Int64" ∷ word "Strict" ∷ []) ∷
        cast_value (a ∷ word "Int64" ∷ word "Strict" ∷ null ∷ []) ∷ keyed "col" (whole 0) ∷ bin (word "plus" ∷ a ∷ a ∷ []) ∷ bin (word "Plus" ∷ a ∷ []) ∷
        bin (word "Plus" ∷ a ∷ a ∷ a ∷ []) ∷ bin (a ∷ word "Plus" ∷ a ∷ []) ∷ bin (word "Plus" ∷ word "a" ∷ a ∷ []) ∷ keyed "column" (word "a") ∷ keyed "len" (whole 1) ∷ keyed "len" (list []) ∷ keyed "slice" (list (a ∷ a ∷ [])) ∷ keyed "explode" (list (a ∷ [])) ∷ keyed "gather" (list (a ∷ a ∷ null ∷ [])) ∷ keyed "filter" (list (a ∷ [])) ∷
        keyed "sort" (list (a ∷ boolean true ∷ whole 0 ∷ [])) ∷ keyed "sort_by" (list (a ∷ list (a ∷ []) ∷ list [] ∷ [])) ∷
        keyed "sort_by" (list (a ∷ list (a ∷ []) ∷ boolean true ∷ list [] ∷ [])) ∷ keyed "sort_by" (list (a ∷ list (a ∷ []) ∷ list [] ∷ list (whole 0 ∷ []) ∷ [])) ∷ keyed "alias" (list (a ∷ null ∷ [])) ∷ keyed "alias" (list (word "x" ∷ a ∷ [])) ∷ object no_members ∷ word "a" ∷ []) }
    ensures operators { Gives (λ name. operator_of (word name)) (("Eq", Some Eq) ∷ ("EqValidity", Some EqValidity) ∷ ("NotEq", Some NotEq) ∷ ("NotEqValidity", Some NotEqValidity) ∷
        ("Lt", Some Lt) ∷ ("LtEq", Some LtEq) ∷ ("Gt", Some Gt) ∷ ("GtEq", Some GtEq) ∷ ("Plus", Some Plus) ∷ ("Minus", Some Minus) ∷
        ("Multiply", Some Multiply) ∷ ("Divide", Some Divide) ∷ ("FloorDivide", Some FloorDivide) ∷ ("Modulus", Some Modulus) ∷
        ("And", Some And) ∷ ("Or", Some Or) ∷ ("Xor", Some Xor) ∷ ("LogicalAnd", Some LogicalAnd) ∷ ("LogicalOr", Some LogicalOr) ∷ []) }
    ensures no_operators { GivesAll operator_of None (word "==" ∷ word "and" ∷ word "Power" ∷ null ∷ []) }
{}

/// Literals: as they are written, as a text of digits, which is within 128 bits with a sign, and with a type, whose range has the number.
pub fn literal_examples()
    ensures unsigned_number { (n : ℕ) → literal_of (number (unsigned n)) ≡ Some (typed (Untyped (pos n)) (pos n)) }
    ensures negative_number { (z : ℤ) → literal_of (number (negative z)) ≡ Some (typed (Untyped z) z) }
    ensures float_number { (x : Float) → literal_of (number (float x)) ≡ None }
    ensures others { Gives literal_of ((null, Some (LiteralOp NullType NullValue)) ∷ (boolean true, Some (LiteralOp Truth (TruthValue true))) ∷
        (boolean false, Some (LiteralOp Truth (TruthValue false))) ∷ (word "1", Some (LiteralOp TextType (TextValue (codes "1")))) ∷
        (string (0xc3 ∷ 0xa9 ∷ []), Some (LiteralOp TextType (TextValue (0xe9 ∷ [])))) ∷ (list (whole 1 ∷ []), None) ∷ (object no_members, None) ∷ []) }
    ensures expressions { let greatest : ℕ = 18446744073709551615 in let sum = binary Plus (untyped (pos greatest)) (column "a") in
        ReadAs ((keyed "lit" (below_zero 299), untyped (negsuc 299)) ∷ (bin (word "Plus" ∷ keyed "lit" (whole greatest) ∷ col "a" ∷ []), sum) ∷
        (keyed "int" (word "-1"), untyped (negsuc 0)) ∷ (keyed "typed" (list (word "UInt8" ∷ whole 255 ∷ [])), leaf (typed (Integer false 8) (pos 255))) ∷ []) }
    ensures two_keys { expression_of (keyed_twice "col" (word "a") "lit" (whole 1)) ≡ None }
    ensures numbers { Gives (λ text. number_written (codes text)) (("300", Some (pos 300)) ∷ ("-300", Some (negsuc 299)) ∷ ("007", Some (pos 7)) ∷ ("-0", Some (pos 0)) ∷
        ("170141183460469231731687303715884105727", Some (pos 170141183460469231731687303715884105727)) ∷
        ("-170141183460469231731687303715884105728", Some (negsuc 170141183460469231731687303715884105727)) ∷ []) }
    ensures no_number_texts { GivesAll (λ text. number_written (codes text)) None (
        "170141183460469231731687303715884105728" ∷ "-170141183460469231731687303715884105729" ∷ "+5" ∷ "" ∷ "-" ∷ "-+5" ∷ "1x" ∷ " 1" ∷ "1.0" ∷ []) }
    ensures no_text { number_text_of (whole 1) ≡ None }
    ensures in_range { Gives typed_of ((list (word "Int8" ∷ whole 127 ∷ []), Some (typed int8 (pos 127))) ∷ (list (word "Int8" ∷ below_zero 127 ∷ []), Some (typed int8 (negsuc 127))) ∷
        (list (word "UInt64" ∷ whole 18446744073709551615 ∷ []), Some (typed (Integer false 64) (pos 18446744073709551615))) ∷
        (list (word "Date" ∷ whole 10957 ∷ []), Some (typed DateType (pos 10957))) ∷ (list (word "Time" ∷ whole 86399999999999 ∷ []), Some (typed TimeType (pos 86399999999999))) ∷
        (list (moments "ms" ∷ below_zero 0 ∷ []), Some (typed (DatetimeType Milliseconds) (negsuc 0))) ∷
        (list (spans "ns" ∷ whole 9223372036854775807 ∷ []), Some (typed (DurationType Nanoseconds) (pos 9223372036854775807))) ∷ []) }
    ensures none_typed { GivesAll typed_of None (list (word "Int8" ∷ whole 128 ∷ []) ∷ list (word "Int8" ∷ below_zero 128 ∷ []) ∷ list (word "UInt8" ∷ below_zero 0 ∷ []) ∷
        list (word "Date" ∷ whole 2147483648 ∷ []) ∷ list (word "Time" ∷ whole 86400000000000 ∷ []) ∷ list (word "Time" ∷ below_zero 0 ∷ []) ∷
        list (spans "ns" ∷ whole 9223372036854775808 ∷ []) ∷ list (word "String" ∷ whole 1 ∷ []) ∷ list (word "Boolean" ∷ whole 1 ∷ []) ∷
        list (keyed "List" (word "Int8") ∷ whole 1 ∷ []) ∷ list (word "Int8" ∷ []) ∷ list (word "Int8" ∷ whole 1 ∷ null ∷ []) ∷ []) }
    ensures typed_float { (x : Float) → typed_of (list (word "Int8" ∷ number (float x) ∷ [])) ≡ None }
{}

/// What is read of the item of a number: what its place says of it. Behind the last item nothing is asked.
pub fn item_examples()
    ensures first { IsItem [] (one (leaves.Small smalls.Flag) ∷ []) (items_of (boolean true ∷ [])) 0 (flag_read true) }
    ensures second { IsItem [] (one (leaves.Small smalls.Nothing) ∷ one (leaves.Small smalls.Flag) ∷ []) (items_of (null ∷ boolean false ∷ [])) 1 (flag_read false) }
    ensures behind_the_last { (r : Read) → IsItem [] (one (leaves.Small smalls.Flag) ∷ []) (items_of (boolean true ∷ [])) 1 r }
    ensures other { ¬ (IsItem [] (one (leaves.Small smalls.Flag) ∷ []) (items_of (boolean true ∷ [])) 0 (flag_read false)) }
{}

/// Bytes that write a query, and bytes that write none.
pub fn text_examples()
    ensures written { let moments = (codes "a", TimeType) ∷ (codes "b", DatetimeType Microseconds) ∷ [] in
        Each Writes ((" {\"tables\": [], \"plan\": {\"empty\": []}}\n", query [] empty_table) ∷
        ("{\"tables\":[],\"plan\":{\"empty\":[[\"\\ud83d\\ude00\",\"Int64\"]]}}", query [] (scan None ((0x1f600 ∷ [], int64) ∷ []))) ∷
        ("{\"tables\":[],\"plan\":{\"empty\":[[\"a\",\"Time\"],[\"b\",{\"Datetime\":\"us\"}]]}}", query [] (scan None moments)) ∷
        ("{\"tables\":[],\"plan\":{\"filter\":[{\"empty\":[]},{\"lit\":-7}]}}", query [] (filter (untyped (negsuc 6)) empty_table)) ∷
        ("{\"tables\":[],\"plan\":{\"filter\":[{\"empty\":[]},{\"lit\":-9223372036854775808}]}}", query [] (filter (untyped (negsuc 9223372036854775807)) empty_table)) ∷
        ("{\"tables\":[],\"plan\":{\"filter\":[{\"empty\":[]},{\"lit\":18446744073709551615}]}}", query [] (filter (untyped (pos 18446744073709551615)) empty_table)) ∷
        ("{\"tables\":[],\"plan\":{\"select\":[{\"empty\":[]},[{\"nth\":-1},{\"suffix\":[{\"all\":null},\"\\u00e9\"]}]]}}", query [] (source_select (nth (negsuc 0) ∷ form (AddSuffix (0xe9 ∷ [])) all ∷ []) empty_table)) ∷
        ("{\"tables\":1,\"plan\":2,\"tables\":[],\"plan\":{\"empty\":[]}}", query [] empty_table) ∷ []) }
    ensures refused { Each Refused (("{\"tables\":[],\"plan\":{\"store\":[]}}", BadShape, "/plan") ∷
        ("{\"tables\":[],\"plan\":{\"empty\":[[\"a\",{\"Datetime\":\"s\"}]]}}", BadShape, "/plan/empty/0/1/Datetime") ∷
        ("{\"tables\":[],\"plan\":{\"scan\":\"t\"}}", BadName, "/plan/scan") ∷ ("{\"tables\":[],\"plan\":{\"filter\":[{\"empty\":[]},{\"lit\":1.5}]}}", BadFloat, "/plan/filter/1/lit") ∷
        ("{\"tables\":[],\"plan\":{\"scan\":18446744073709551616}}", BadFloat, "/plan/scan") ∷ ("{\"tables\":[],\"plan\":{\"scan\":-9223372036854775809}}", BadFloat, "/plan/scan") ∷
        ("{\"tables\":[],\"plan\":{\"filter\":[{\"empty\":[]},{\"exclude\":[{\"all\":null},[{\"name\":null}]]}]}}", BadShape, "/plan/filter/1/exclude/1/0/name") ∷
        ("{\"tables\":[],\"plan\":{\"filter\":[{\"empty\":[]},{\"over\":[{\"len\":null},[],[{\"len\":null},true,0]]}]}}", BadShape, "/plan/filter/1/over/2/2") ∷
        ("{\"tables\":[],\"plan\":{\"scan\":-0}}", BadFloat, "/plan/scan") ∷ ("{\"tables\":[],\"plan\":{\"scan\":0}}", BadShape, "/plan/scan") ∷ []) }
    ensures no_json { Each NoJson ("{\"tables\":[" ∷ "{\"tables\":[],\"plan\":{\"scan\":1e400}}" ∷ "" ∷ "{\"tables\":[],\"plan\":{\"empty\":[]}}," ∷ []) }
    ensures other_value { (query : QueryModel) → ¬ (WritesQuery (codes "[]") query) }
    ensures memory { IsRefusalOf (codes "{\"tables\":[],\"plan\":{\"empty\":[]}}") NoMemory }
{}
