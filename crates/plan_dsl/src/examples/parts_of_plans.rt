//! Parts of the rules of plans and of what their nodes give, each by itself.

ghost use Rattle.std.specs.Prelude.{◌≡◌, [], ◌∷◌, pos, neg_ℤ, map, codes, true, false, Some, None, option_map, Result, Ok, Err};
ghost use Rattle.plan_types.specs.Schemas.{columns};
ghost use Rattle.plan_types.specs.Types.{NullType, Truth, TextType, ListType, Untyped};
ghost use Rattle.plan_types.specs.Values.{NullValue, IntValue};
ghost use Rattle.plan_types.specs.Outcomes.{Done, Fault, Stuck};
ghost use Rattle.plan_types.specs.declared.error.ErrorKind.{ErrorKind};
ghost use Rattle.plan_types.specs.declared.error.ErrorKind.TheVariants.{ColumnNotFound, Duplicate, SchemaMismatch, InvalidOperation, ComputeError};
ghost use Rattle.plan_types.specs.declared.schema.Schema.{Schema};
ghost use Rattle.plan_dsl.specs.declared.expr.Expr.TheVariants.{Column};
ghost use Rattle.plan_dsl.specs.declared.operator.Operator.TheVariants.{Minus};
ghost use Rattle.plan_dsl.specs.declared.plan.DslPlan.TheVariants.{Cache', DataFrameScan, Distinct', Filter', GroupBy', MapFunction', Select', Sink', Slice', Sort'};
ghost use Rattle.plan_dsl.specs.declared.distinct_options.DistinctOptionsDSL.{DistinctOptionsDSL};
ghost use Rattle.plan_dsl.specs.declared.distinct_options.UniqueKeepStrategy.TheVariants.{First, Last};
ghost use Rattle.plan_dsl.specs.declared.function.DslFunction.TheVariants.{FunctionIR as OfFunctionIR};
ghost use Rattle.plan_dsl.specs.declared.function.FunctionIR.TheVariants.{Rechunk};
ghost use Rattle.plan_dsl.specs.declared.plan.SinkType.TheVariants.{Memory};
ghost use Rattle.plan_dsl.specs.declared.selector.Selectors.{Selectors};
ghost use Rattle.plan_dsl.specs.declared.sort_options.SortMultipleOptions.{SortMultipleOptions};
ghost use Rattle.plan_dsl.specs.Expressions.{selector_trees, trees_of};
ghost use Rattle.plan_dsl.specs.declared.expr.Exprs.{Exprs};
ghost use Rattle.plan_dsl.specs.declared.plan.ProjectionOptions.{ProjectionOptions};
ghost use Rattle.plan_dsl.specs.Trees.{node, no_more, more};
ghost use Rattle.plan_dsl.specs.Ops.{ColumnOp, LiteralOp, BinaryOp, Expression};
ghost use Rattle.plan_dsl.specs.Names.{column_label, literal_label};
ghost use Rattle.plan_dsl.specs.Typing.{Typed, own_kind};
ghost use Rattle.plan_dsl.specs.Kernels.{Meaning, in_front};
ghost use Rattle.plan_dsl.specs.Picks.{where_true};
ghost use Rattle.plan_dsl.specs.Laws.{operator_node};
ghost use Rattle.plan_dsl.specs.Sources.{Plain};
ghost use Rattle.plan_dsl.specs.Plans.{CachePass, DistinctWork, HitsOption, PassWork, RechunkPass, SinkPass, SliceWork, SortWork, over_op, FilterWork, ScanKind, SelectKind, FilterKind, OrderOption, ProjectionOption, Named, named, over_input, expressions_of, scans_in, scan_op, select_op, filter_op, plan_tree, options_in};
ghost use Rattle.plan_dsl.specs.PlanRules.{scan_kinds, typed_kinds, own_kinds, input_schema, expression_kinds, broken_kinds, columns_of, typed_outputs, schema_by, plan_rule, top_kinds};
ghost use Rattle.plan_dsl.specs.PlanKernels.{Evaluated, series_on, shared_length, rows_of, kept_rows};
ghost use Rattle.plan_dsl.specs.Samples.{Gives, GivesOfTwo, int8, null, yes, no, number, column, a, b, c, u, many_values, of_one, of_many, sum, equal, frame_with, schema_au, uint64, scan, scan_of, empty_scan, select, keep, series};

/// A plan's tree has the parts of the plan, and an expression is named by its own name. Its nodes keep their options beside it.
pub fn trees_of_plans()
    ensures scan { (schema : Schema) → plan_tree (DataFrameScan (Some 3) schema) ≡ node (scan_op (Some 3) (columns schema)) no_more }
    ensures empty { (schema : Schema) → plan_tree (DataFrameScan None schema) ≡ node (scan_op None (columns schema)) no_more }
    ensures filter { (p : _) (schema : Schema) → plan_tree (Filter' p (DataFrameScan (Some 0) schema) (Column (codes "keep")))
        ≡ node (filter_op (node (Plain (ColumnOp (codes "keep"))) no_more)) (more (scan (columns schema)) no_more) }
    ensures named { named (column "keep") ≡ record { label = column_label (codes "keep"); expression = column "keep" } }
    ensures null { named (node (LiteralOp NullType NullValue) no_more) ≡ record { label = literal_label (codes "literal"); expression = node (LiteralOp NullType NullValue) no_more } }
    ensures options { (p q r s : _) (expr inner keys aggs : Exprs) (schema : Schema) → let checked : ProjectionOptions = record { duplicate_check = true } in
        let unchecked : ProjectionOptions = record { duplicate_check = false } in
        options_in (Select' expr p (Filter' q (GroupBy' s (Select' inner r (DataFrameScan None schema) checked) keys aggs true) (Column (codes "keep"))) unchecked)
        ≡ ProjectionOption unchecked ∷ OrderOption true ∷ ProjectionOption checked ∷ [] }
    ensures operator { operator_node Minus a b ≡ node (BinaryOp Minus) (more a (more b no_more)) }
{}

/// A sort, a distinct, a slice, and what passes its rows on are nodes over one input. Some keep options beside the tree.
pub fn trees_over_one_input()
    ensures sort { (p : _) (by : Exprs) (options : SortMultipleOptions) (schema : Schema) → options.descending.items.value.items ≡ true ∷ false ∷ [] → options.nulls_last.items.value.items ≡ true ∷ [] →
        plan_tree (Sort' p (DataFrameScan (Some 0) schema) by options) ≡ node (over_op (SortWork (true ∷ false ∷ []) (true ∷ [])) (trees_of by ∷ []) None) (more (scan (columns schema)) no_more) }
    ensures distinct { (p : _) (options : DistinctOptionsDSL) (schema : Schema) → options.subset ≡ None → options.keep_strategy ≡ Last →
        plan_tree (Distinct' p (DataFrameScan (Some 0) schema) options) ≡ node (over_op (DistinctWork Last None) [] None) (more (scan (columns schema)) no_more) }
    ensures distinct_by { (p : _) (options : DistinctOptionsDSL) (by : Selectors) (schema : Schema) → options.subset ≡ Some by → options.keep_strategy ≡ First →
        plan_tree (Distinct' p (DataFrameScan (Some 0) schema) options) ≡ node (over_op (DistinctWork First None) (selector_trees by ∷ []) None) (more (scan (columns schema)) no_more) }
    ensures slice { (p : _) (schema : Schema) → plan_tree (Slice' p (DataFrameScan (Some 0) schema) (neg_ℤ (pos 2)) 3) ≡ node (over_op (SliceWork (neg_ℤ (pos 2)) 3) [] None) (more (scan (columns schema)) no_more) }
    ensures cache { (p : _) (schema : Schema) → plan_tree (Cache' p (DataFrameScan (Some 0) schema) 7) ≡ node (over_op (PassWork (CachePass 7)) [] None) (more (scan (columns schema)) no_more) }
    ensures sink { (p : _) (schema : Schema) → plan_tree (Sink' p (DataFrameScan (Some 0) schema) Memory) ≡ node (over_op (PassWork SinkPass) [] None) (more (scan (columns schema)) no_more) }
    ensures rechunk { (p : _) (schema : Schema) → plan_tree (MapFunction' p (DataFrameScan (Some 0) schema) (OfFunctionIR Rechunk)) ≡ node (over_op (PassWork RechunkPass) [] None) (more (scan (columns schema)) no_more) }
    ensures options { (p q r s t : _) (by : Exprs) (way : SortMultipleOptions) (options : DistinctOptionsDSL) (schema : Schema) → options.maintain_order ≡ true →
        options_in (Cache' p (Sort' q (Distinct' r (Sink' s (Slice' t (DataFrameScan None schema) (pos 0) 1) Memory) options) by way) 7) ≡ HitsOption 4294967295 ∷ OrderOption true ∷ [] }
{}

/// What a scan, a select and a filter break.
pub fn kinds_of_nodes()
    ensures scans { Gives scan_kinds (
        ([], []) ∷
        ((codes "a", int8) ∷ (codes "b", ListType TextType) ∷ [], []) ∷
        ((codes "a", int8) ∷ (codes "n", Untyped (pos 1)) ∷ [], InvalidOperation ∷ []) ∷
        ((codes "n", ListType (Untyped (pos 1))) ∷ [], InvalidOperation ∷ []) ∷
        ((codes "a", int8) ∷ (codes "b", int8) ∷ (codes "a", TextType) ∷ [], Duplicate ∷ []) ∷ []) }
    ensures selects { Gives (λ outputs. broken_kinds [] (select_op (map named outputs) None) (Some schema_au ∷ [])) (
        ([], []) ∷
        (a ∷ u ∷ [], []) ∷
        (a ∷ u ∷ a ∷ [], Duplicate ∷ []) ∷
        (u ∷ sum c (equal u a) ∷ [], ColumnNotFound ∷ SchemaMismatch ∷ []) ∷
        (c ∷ a ∷ c ∷ [], ColumnNotFound ∷ ColumnNotFound ∷ Duplicate ∷ []) ∷ []) }
    ensures predicates { Gives (typed_kinds FilterWork) (
        (of_many Truth, []) ∷ (of_one Truth, []) ∷ (Err ColumnNotFound, []) ∷ (of_many NullType, InvalidOperation ∷ []) ∷
        (of_many int8, InvalidOperation ∷ []) ∷ (of_many (ListType Truth), InvalidOperation ∷ []) ∷ []) }
    ensures filters { Gives (λ predicate. broken_kinds [] (filter_op (named predicate)) (Some schema_au ∷ [])) (
        (equal a a, []) ∷ (a, InvalidOperation ∷ []) ∷ (equal u a, SchemaMismatch ∷ []) ∷ []) }
    ensures wrong_numbers_of_inputs { GivesOfTwo (own_kinds []) (
        (ScanKind None [], Some [] ∷ [], SchemaMismatch ∷ []) ∷
        (SelectKind [], [], SchemaMismatch ∷ []) ∷
        (FilterKind (named a), None ∷ None ∷ [], SchemaMismatch ∷ []) ∷ []) }
{}

/// The expressions of a node, with the number of the input over which they are typed, and the tables that a plan scans.
pub fn expressions_and_scans()
    ensures expressions { Gives (expressions_of {E = Named Expression}) (
        (ScanKind (Some 3) schema_au, []) ∷
        (SelectKind (named a ∷ named b ∷ []), record { input = 0; outputs = named a ∷ named b ∷ [] } ∷ []) ∷
        (FilterKind (named c), record { input = 0; outputs = named c ∷ [] } ∷ []) ∷ []) }
    ensures inputs { Gives (input_schema (None ∷ Some schema_au ∷ [])) ((0, None) ∷ (1, Some schema_au) ∷ (2, None) ∷ []) }
    ensures over_inputs { Gives (expression_kinds [] (None ∷ Some schema_au ∷ [])) (
        (over_input 0 (named c ∷ []) ∷ [], []) ∷
        (over_input 1 (named c ∷ []) ∷ [], ColumnNotFound ∷ []) ∷
        (over_input 1 (named (equal u a) ∷ []) ∷ over_input 1 (named a ∷ named c ∷ []) ∷ [], SchemaMismatch ∷ ColumnNotFound ∷ []) ∷ []) }
    ensures scans { Gives (scans_in {E = Named Expression}) (
        (keep c (select (a ∷ []) (scan schema_au)), record { table = 0; schema = schema_au } ∷ []) ∷
        (keep c (select (a ∷ []) (empty_scan schema_au)), []) ∷ []) }
    ensures of_two_inputs { let both = node (select_op (named a ∷ []) None) (more (scan_of 4 schema_au) (more (scan []) no_more)) in
        scans_in both ≡ record { table = 4; schema = schema_au } ∷ record { table = 0; schema = [] } ∷ [] }
{}

/// An expression's own kind is told where its children are typed, and a plan's top tells those of its node alone.
pub fn kinds_at_the_top()
    ensures of_expressions { let typed = many_values Truth in
        GivesOfTwo (own_kind (ComputeError ∷ [])) (
        (Err ColumnNotFound, λ children. Err SchemaMismatch, ComputeError ∷ []) ∷
        (Ok [], λ children. Err SchemaMismatch, SchemaMismatch ∷ []) ∷
        (Ok (typed ∷ []), λ children. Ok typed, []) ∷ []) }
    ensures of_plans { let input = scan ((codes "a", int8) ∷ []) in
        Gives (top_kinds []) (
        (None, []) ∷
        (Some (scan ((codes "n", Untyped (pos 1)) ∷ [])), InvalidOperation ∷ []) ∷
        (Some (select (a ∷ c ∷ a ∷ []) input), ColumnNotFound ∷ Duplicate ∷ []) ∷
        (Some (keep a (select (c ∷ []) input)), []) ∷ []) }
{}

/// The schema that a node of each kind gives.
pub fn schemas_of_nodes()
    ensures columns { Gives (λ outputs. option_map columns_of (typed_outputs [] schema_au outputs)) (
        (map named (equal a a ∷ u ∷ []), Some ((codes "a", Truth) ∷ (codes "u", uint64) ∷ [])) ∷
        ([], Some []) ∷ (map named (c ∷ a ∷ []), None) ∷ (map named (a ∷ c ∷ []), None) ∷ []) }
    ensures scan { Gives (schema_by [] (ScanKind None ((codes "a", Truth) ∷ []))) (
        ([], Some ((codes "a", Truth) ∷ [])) ∷ (Some [] ∷ [], None) ∷ (None ∷ [], None) ∷ []) }
    ensures select { Gives (schema_by [] (SelectKind (named (equal a a) ∷ []))) (
        ([], None) ∷ (None ∷ [], None) ∷ (Some [] ∷ [], None) ∷ (Some schema_au ∷ [], Some ((codes "a", Truth) ∷ [])) ∷ (Some schema_au ∷ Some [] ∷ [], None) ∷ []) }
    ensures filter { let texts = (codes "a", TextType) ∷ [] in
        Gives (schema_by [] (FilterKind (named a))) (
        ([], None) ∷ (None ∷ [], None) ∷ (Some texts ∷ [], Some texts) ∷ (Some [] ∷ Some [] ∷ [], None) ∷ []) }
    ensures repeated_names { plan_rule [] (scan_op None ((codes "a", Truth) ∷ (codes "b", Truth) ∷ (codes "a", TextType) ∷ [])) [] ≡ None }
{}

/// The columns of a frame to be, and the length to which they are brought.
pub fn columns_of_selects()
    ensures given { let evaluated : Result Typed ErrorKind → Meaning → Evaluated = λ typing gives. record { name = codes "a"; typing = typing; gives = gives } in
        GivesOfTwo (λ typing gives. series_on (2 ∷ 0 ∷ []) (evaluated typing gives)) (
        (of_many int8, λ rows. Done (map (λ row. IntValue (pos row)) rows), Done (series "a" int8 (number 2 ∷ number 0 ∷ []))) ∷
        (of_many int8, λ rows. Fault, Fault) ∷
        (Err ColumnNotFound, λ rows. Done [], Stuck) ∷ []) }
    ensures lengths { let none = series "a" Truth [] in
        let one = series "b" Truth (null ∷ []) in
        let two = series "c" Truth (null ∷ null ∷ []) in
        Gives shared_length (
        ([], Some 1) ∷ (none ∷ [], Some 0) ∷ (one ∷ [], Some 1) ∷ (two ∷ [], Some 2) ∷
        (one ∷ none ∷ one ∷ [], Some 0) ∷ (one ∷ two ∷ two ∷ one ∷ [], Some 2) ∷
        (none ∷ two ∷ [], None) ∷ (two ∷ one ∷ none ∷ [], None) ∷ []) }
    ensures in_front { in_front (yes ∷ null ∷ []) ((number 1 ∷ []) ∷ (number 2 ∷ []) ∷ []) ≡ (yes ∷ number 1 ∷ []) ∷ (null ∷ number 2 ∷ []) ∷ [] }
    ensures rows { let numbers = series "a" int8 (number 1 ∷ number 2 ∷ []) in
        Gives (rows_of 2) (
        (numbers ∷ series "b" Truth (yes ∷ []) ∷ numbers ∷ [], (number 1 ∷ yes ∷ number 1 ∷ []) ∷ (number 2 ∷ yes ∷ number 2 ∷ []) ∷ []) ∷
        ([], [] ∷ [] ∷ []) ∷ []) }
{}

/// The rows beside a true value: null isn't true, and no number is.
pub fn rows_beside_true_values()
    ensures mixed { where_true (yes ∷ null ∷ no ∷ number 1 ∷ yes ∷ []) ((number 1 ∷ []) ∷ (number 2 ∷ []) ∷ (number 3 ∷ []) ∷ (number 4 ∷ []) ∷ (number 5 ∷ []) ∷ [])
        ≡ (number 1 ∷ []) ∷ (number 5 ∷ []) ∷ [] }
    ensures kept { let schema = (codes "a", int8) ∷ [] in
        kept_rows (frame_with schema ((number 1 ∷ []) ∷ (number 2 ∷ []) ∷ (number 3 ∷ []) ∷ [])) (null ∷ yes ∷ no ∷ []) ≡ Done (frame_with schema ((number 2 ∷ []) ∷ [])) }
{}
