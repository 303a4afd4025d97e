//! Worked examples of the definitions. The functions do nothing: their clauses are the examples.
#![tactic(auto, unfolding(crate::proofs::OnLiterals::texts_on_literals))]

ghost use Rattle.std.specs.Prelude.{◌≡◌, ℕ, List, [], ◌∷◌, ◌++◌, map, codes, true, false, Some, None};
ghost use Rattle.plan_types.specs.Schemas.{Columns};
ghost use Rattle.plan_types.specs.Types.{NullType, Truth, Integer, TextType, DateType, TimeType, DatetimeType, DurationType, ListType, StructType, no_field, fields_from};
ghost use Rattle.plan_types.specs.declared.dtype.TimeUnit.TheVariants.{Nanoseconds, Microseconds, Milliseconds};
ghost use Rattle.plan_types.specs.declared.error.ErrorKind.TheVariants.{ColumnNotFound, Duplicate, SchemaMismatch, InvalidOperation, ComputeError, NoMemory};
ghost use Rattle.plan_dsl.specs.declared.operator.Operator.TheVariants.{Lt, Plus};
ghost use Rattle.plan_dsl.specs.Plans.{Named, ScanKind, SelectKind, HStackKind, FilterKind, empty_table};
ghost use Rattle.plan_arena.specs.declared.aexpr.AExpr.{AExpr};
ghost use Rattle.plan_arena.specs.declared.aexpr.AExpr.TheVariants.{Column};
ghost use Rattle.plan_arena.specs.Items.{kind_text};
ghost use Rattle.plan_report.specs.Casts.{DenoteOutputs};
ghost use Rattle.plan_report.specs.Report.{shown, casts_line, line_text, report_text, refusal_text};
ghost use Rattle.plan_report.specs.Samples.{int8, int32, int64, one_column, two_columns, struct_of, struct_of_two, a, b, five, binary, cast_to, truth_of, scan_of, filter_over, select_over, one_column_scan, two_column_scan, node_named};
ghost use Rattle.plan_report.specs.Texts.{closing_text, name_text, type_text, schema_text, separator, path_text};

/// A place is a dot, or a dot and a number for each step.
pub fn path_examples()
    ensures { map path_text ([] ∷ (0 ∷ []) ∷ (0 ∷ 12 ∷ 1 ∷ []) ∷ []) ≡ map codes ("." ∷ ".0" ∷ ".0.12.1" ∷ []) }
{}

/// A type is its variant's name, with its unit in parentheses where it has one.
pub fn type_examples()
    ensures units { map type_text (DatetimeType Nanoseconds ∷ DatetimeType Microseconds ∷ DatetimeType Milliseconds ∷ DurationType Nanoseconds ∷ DurationType Microseconds ∷ DurationType Milliseconds ∷ [])
        ≡ map codes ("Datetime(ns)" ∷ "Datetime(us)" ∷ "Datetime(ms)" ∷ "Duration(ns)" ∷ "Duration(us)" ∷ "Duration(ms)" ∷ []) }
    ensures others { map type_text (NullType ∷ Truth ∷ int8 ∷ Integer false 16 ∷ TextType ∷ DateType ∷ TimeType ∷ [])
        ≡ map codes ("Null" ∷ "Boolean" ∷ "Int8" ∷ "UInt16" ∷ "String" ∷ "Date" ∷ "Time" ∷ []) }
{}

/// A type of lists has that of the items in parentheses, and a type of structs its fields.
pub fn nested_type_examples()
    ensures lists { map type_text (ListType int64 ∷ ListType (DatetimeType Milliseconds) ∷ ListType (ListType TextType) ∷ [])
        ≡ map codes ("List(Int64)" ∷ "List(Datetime(ms))" ∷ "List(List(String))" ∷ []) }
    ensures structs { map type_text (StructType no_field ∷ struct_of [] Truth ∷ struct_of_two (codes "a") int8 (codes "b") (ListType TextType) ∷ struct_of_two (codes "a") DateType (codes "a") DateType ∷ [])
        ≡ map codes ("Struct()" ∷ "Struct(\"\" Boolean)" ∷ "Struct(\"a\" Int8, \"b\" List(String))" ∷ "Struct(\"a\" Date, \"a\" Date)" ∷ []) }
    ensures struct_in_struct { type_text (struct_of_two (codes "a") (struct_of_two (codes "b") NullType (codes "c") TimeType) (codes "d") (ListType (StructType no_field)))
        ≡ codes "Struct(\"a\" Struct(\"b\" Null, \"c\" Time), \"d\" List(Struct()))" }
    ensures as_schema { (columns : Columns) → type_text (StructType (fields_from columns)) ≡ codes "Struct" ++ schema_text columns }
{}

/// A schema is a list of names and types in parentheses.
pub fn schema_examples()
    ensures { map schema_text ([] ∷ one_column int8 ∷ one_column Truth ∷ ((codes "a", int64) ∷ (codes "b", Integer false 16) ∷ []) ∷
        ((codes "a", DatetimeType Milliseconds) ∷ (codes "b", DurationType Nanoseconds) ∷ (codes "c", TextType) ∷ []) ∷ [])
        ≡ map codes ("()" ∷ "(\"a\" Int8)" ∷ "(\"a\" Boolean)" ∷ "(\"a\" Int64, \"b\" UInt16)" ∷ "(\"a\" Datetime(ms), \"b\" Duration(ns), \"c\" String)" ∷ []) }
{}

/// A name has JSON's quotes and escapes, and its characters in UTF-8.
pub fn name_examples()
    ensures plain { map name_text ([] ∷ codes "a b/~'" ∷ []) ≡ map codes ("\"\"" ∷ "\"a b/~'\"" ∷ []) }
    ensures escapes { map name_text (codes "a\"b" ∷ codes "a\\b" ∷ (1 ∷ 10 ∷ []) ∷ (8 ∷ 9 ∷ 10 ∷ 12 ∷ 13 ∷ []) ∷ (0 ∷ 0x1f ∷ 0x20 ∷ []) ∷ [])
        ≡ map codes ("\"a\\\"b\"" ∷ "\"a\\\\b\"" ∷ "\"\\u0001\\n\"" ∷ "\"\\b\\t\\n\\f\\r\"" ∷ "\"\\u0000\\u001f \"" ∷ []) }
    ensures bytes { map name_text ((0x7f ∷ []) ∷ (0xe9 ∷ []) ∷ (0x1f600 ∷ []) ∷ [])
        ≡ (34 ∷ 0x7f ∷ 34 ∷ []) ∷ (34 ∷ 0xc3 ∷ 0xa9 ∷ 34 ∷ []) ∷ (34 ∷ 0xf0 ∷ 0x9f ∷ 0x98 ∷ 0x80 ∷ 34 ∷ []) ∷ [] }
{}

/// A refusal is the broken rule and the place.
pub fn refusal_examples()
    ensures top { map (λ kind. refusal_text kind []) (Duplicate ∷ InvalidOperation ∷ ComputeError ∷ NoMemory ∷ [])
        ≡ map codes ("refused Duplicate .\n" ∷ "refused InvalidOperation .\n" ∷ "refused ComputeError .\n" ∷ "refused NoMemory .\n" ∷ []) }
    ensures deep { refusal_text ColumnNotFound (0 ∷ 1 ∷ []) ≡ codes "refused ColumnNotFound .0.1\n" }
    ensures no_common_type { refusal_text SchemaMismatch (0 ∷ []) ≡ codes "refused SchemaMismatch .0\n" }
{}

/// A line is a place, a name and a schema, fields after the first have a comma and a space in front, and the last line is the number of casts.
pub fn line_examples()
    ensures top { line_text [] (codes "df") [] ≡ codes ". df ()\n" }
    ensures deep { line_text (0 ∷ 3 ∷ []) (codes "selection") (one_column Truth) ≡ codes ".0.3 selection (\"a\" Boolean)\n" }
    ensures names { map (kind_text {E = Named ℕ}) (ScanKind (Some 7) [] ∷ SelectKind [] ∷ HStackKind [] ∷ FilterKind (node_named (codes "a") 0) ∷ []) ≡ map codes ("df" ∷ "projection" ∷ "hstack" ∷ "selection" ∷ []) }
    ensures schemas { map shown (None ∷ Some (one_column Truth) ∷ []) ≡ [] ∷ one_column Truth ∷ [] }
    ensures separators { map separator (0 ∷ 1 ∷ 11 ∷ []) ≡ map codes ("" ∷ ", " ∷ ", " ∷ []) }
    ensures closings { map closing_text (None ∷ Some int8 ∷ Some (ListType int8) ∷ []) ≡ map codes ("" ∷ "\" Int8" ∷ "\" List" ∷ []) }
    ensures casts { map casts_line (0 ∷ 4096 ∷ []) ≡ map codes ("casts 0\n" ∷ "casts 4096\n" ∷ []) }
{}

/// A report has a line for each node, and one for the casts.
pub fn report_examples()
    ensures empty { report_text [] empty_table ≡ codes ". df ()\ncasts 0\n" }
    ensures sum { report_text [] (select_over two_column_scan (binary Plus (cast_to int32 a) b ∷ []) (one_column int32))
        ≡ codes ". projection (\"a\" Int32)\n.0 df (\"a\" Int8, \"b\" Int32)\ncasts 1\n" }
    ensures comparison { report_text [] (select_over two_column_scan (binary Lt (cast_to int64 a) (cast_to int64 b) ∷ []) (one_column Truth))
        ≡ codes ". projection (\"a\" Boolean)\n.0 df (\"a\" Int8, \"b\" Int32)\ncasts 2\n" }
    ensures filter { report_text [] (select_over (filter_over two_column_scan (binary Lt (cast_to int32 a) b)) (a ∷ []) (one_column int8))
        ≡ codes ". projection (\"a\" Int8)\n.0 selection (\"a\" Int8, \"b\" Int32)\n.0.0 df (\"a\" Int8, \"b\" Int32)\ncasts 1\n" }
    ensures filters { report_text [] (filter_over (filter_over (scan_of None (one_column Truth)) a) a)
        ≡ codes ". selection (\"a\" Boolean)\n.0 selection (\"a\" Boolean)\n.0.0 df (\"a\" Boolean)\ncasts 0\n" }
    ensures levels { report_text [] (select_over (select_over empty_table [] []) [] []) ≡ codes ". projection ()\n.0 projection ()\n.0.0 df ()\ncasts 0\n" }
    ensures filter_of_a_select { report_text [] (filter_over (select_over one_column_scan (truth_of a ∷ []) (one_column Truth)) a)
        ≡ codes ". selection (\"a\" Boolean)\n.0 projection (\"a\" Boolean)\n.0.0 df (\"a\" Int8)\ncasts 1\n" }
    ensures casts_at_each_level { report_text [] (select_over (filter_over two_column_scan (truth_of a)) (cast_to int8 (truth_of a) ∷ truth_of b ∷ []) ((codes "a", int8) ∷ (codes "b", Truth) ∷ []))
        ≡ codes ". projection (\"a\" Int8, \"b\" Boolean)\n.0 selection (\"a\" Int8, \"b\" Int32)\n.0.0 df (\"a\" Int8, \"b\" Int32)\ncasts 4\n" }
    ensures literals_are_no_casts { report_text [] (select_over one_column_scan (five ∷ binary Plus (cast_to int32 a) five ∷ []) ((codes "literal", int32) ∷ (codes "a", int32) ∷ []))
        ≡ codes ". projection (\"literal\" Int32, \"a\" Int32)\n.0 df (\"a\" Int8)\ncasts 1\n" }
{}

/// The nodes of some outputs denote expressions.
pub fn outputs_that_denote()
    ensures none { (expressions : List AExpr) → DenoteOutputs expressions [] }
    ensures columns { DenoteOutputs (Column (codes "b") ∷ Column (codes "a") ∷ []) (node_named (codes "a") 1 ∷ node_named (codes "x") 0 ∷ []) }
    ensures past_the_arena { ¬ (DenoteOutputs (Column (codes "a") ∷ []) (node_named (codes "a") 1 ∷ [])) }
{}
