//! Worked examples on items of the two arenas, and on what nodes denote.
#![tactic(auto, unfolding(crate::specs::Denotation::depth_within, crate::specs::Denotation::depth_at))]

ghost use Rattle.std.specs.Prelude.{◌≡◌, ℕ, List, [], ◌∷◌, pos, neg_ℤ, codes, map, true, false, Some, None, Ok, Err};
ghost use Rattle.std.specs.List.{AllByRecursion};
ghost use Rattle.plan_types.specs.Errors.{at_top, no_memory};
ghost use Rattle.plan_types.specs.Types.{Integer, Untyped};
ghost use Rattle.plan_types.specs.Values.{IntValue};
ghost use Rattle.plan_types.specs.Schemas.{columns};
ghost use Rattle.plan_types.specs.declared.schema.Schema.{Schema};
ghost use Rattle.plan_types.specs.declared.error.ErrorKind.TheVariants.{Duplicate};
ghost use Rattle.plan_types.specs.declared.dtype.CastOptions.TheVariants.{Strict, NonStrict};
ghost use Rattle.plan_types.specs.declared.dtype.DataType.TheVariants.{Int32, UInt16};
ghost use Rattle.plan_dsl.specs.declared.literal.LiteralValue.TheVariants.{Int, Int8, UInt64};
ghost use Rattle.plan_dsl.specs.declared.operator.Operator.TheVariants.{Plus};
ghost use Rattle.plan_dsl.specs.declared.distinct_options.ColumnNames.{ColumnNames};
ghost use Rattle.plan_dsl.specs.declared.distinct_options.UniqueKeepStrategy.TheVariants.{Any, Last};
ghost use Rattle.plan_dsl.specs.declared.distinct_options.DistinctOptionsIR.{DistinctOptionsIR};
ghost use Rattle.plan_dsl.specs.declared.function.FunctionIR.TheVariants.{Rechunk, RowIndex};
ghost use Rattle.plan_dsl.specs.declared.plan.ProjectionOptions.{ProjectionOptions};
ghost use Rattle.plan_dsl.specs.declared.plan.SinkType.TheVariants.{Memory};
ghost use Rattle.plan_dsl.specs.declared.sort_options.SortMultipleOptions.{SortMultipleOptions};
ghost use Rattle.plan_dsl.specs.declared.window.WindowType.TheVariants.{GroupsToRows};
ghost use Rattle.plan_dsl.specs.Trees.{node, no_more, more};
ghost use Rattle.plan_dsl.specs.Names.{FromField, FromNothing, alias_label, column_label, literal_label};
ghost use Rattle.plan_dsl.specs.Ops.{ColumnOp, LiteralOp, BinaryOp, CastOp, LenOp, SliceOp, AliasOp, ExplodeOp, GatherOp, FilterOp, SortOp, SortByOp, WindowOp, Expression};
ghost use Rattle.plan_dsl.specs.TableFunctions.{RowIndexFunction};
ghost use Rattle.plan_dsl.specs.Plans.{FunctionWork, FilterKind, GroupByKind, HStackKind, Named, OrderOption, ProjectionOption, RefusedKind, ScanKind, SelectKind, named, scan_op, select_op, hstack_op, group_by_op, simple_projection_op, filter_op, GroupByWork, HStackWork, OverKind, CachePass, DistinctWork, HitsOption, PassWork, RechunkPass, SelectWork, over_op, SinkPass, SliceWork, SortWork, DropKind, SimpleProjectionKind, PlanKind, expressions_of};
ghost use Rattle.plan_dsl.specs.Samples.{Gives, GivesOfTwo, int8, int32, a, alias, b, cast_as, column, count, keep, literal, over, over_by, slice, sort_by, sum, typed_literal, way, schema_ab};
ghost use Rattle.plan_arena.specs.declared.aexpr.AExpr.{AExpr};
ghost use Rattle.plan_arena.specs.declared.aexpr.AExpr.TheVariants.{Column, Literal, BinaryExpr, Cast, Len, Slice, Alias, Explode, Gather, Filter as FilterBy, Sort, SortBy, Window};
ghost use Rattle.plan_arena.specs.declared.arena.Node.{Node};
ghost use Rattle.plan_arena.specs.declared.inputs.NodeList.{NodeList};
ghost use Rattle.plan_arena.specs.declared.expr_ir.ExprIR.{ExprIR};
ghost use Rattle.plan_arena.specs.declared.expr_ir.ExprIRs.{ExprIRs};
ghost use Rattle.plan_arena.specs.declared.expr_ir.OutputName.{OutputName};
ghost use Rattle.plan_arena.specs.declared.expr_ir.OutputName.TheVariants.{ColumnLhs, LiteralLhs};
ghost use Rattle.plan_arena.specs.declared.ir.IR.TheVariants.{Cache, DataFrameScan, Distinct, Filter, GroupBy, HStack, MapFunction, Select, SimpleProjection, Sink, Slice as SliceItem, Sort as SortItem, Invalid};
ghost use Rattle.plan_arena.specs.declared.plan.IRPlan.{IRPlan};
ghost use Rattle.plan_arena.specs.Layers.{layer, op_of, inputs_of, shape_of};
ghost use Rattle.plan_arena.specs.Denotation.{Denotes, DenotesTree, depth_at, greatest, inputs_at};
ghost use Rattle.plan_arena.specs.Items.{expression_layer, first_of, kind_text, output_label, named_node, node_name, nodes_of, ordered, ordering, passed, plan_layer, work_text, DenoteNamed, DenotesItem, DenotesKind, DenotesPlan, Grows, HasInputs, HoldsExpression, HoldsFrom, HoldsPlan, KeepsInput, Rewired};
ghost use Rattle.plan_arena.specs.NamedNodes.{same_named};
ghost use Rattle.plan_arena.specs.Options.{option_of, options_of, CopiesItem};
ghost use Rattle.plan_arena.specs.Samples.{a_at, circle, literal_at, named_at, node_at, strict_sum, sum_items, wide_a};

/// The layer of an item is what it does, with its expressions' names and its schema, and the numbers of its inputs.
pub fn layers_of_items()
    ensures expressions { Gives expression_layer ((Column (codes "a"), layer (ColumnOp (codes "a")) [])
        ∷ (Cast (node_at 7) UInt16 Strict, layer (CastOp (Integer false 16) Strict) (7 ∷ []))
        ∷ (BinaryExpr (node_at 4) Plus (node_at 2), layer (BinaryOp Plus) (4 ∷ 2 ∷ []))
        ∷ (Literal (Int (neg_ℤ (pos 5))), layer (LiteralOp (Untyped (neg_ℤ (pos 5))) (IntValue (neg_ℤ (pos 5)))) [])
        ∷ (Literal (Int8 (neg_ℤ (pos 128))), layer (LiteralOp int8 (IntValue (neg_ℤ (pos 128)))) [])
        ∷ (Literal (UInt64 18446744073709551615), layer (LiteralOp (Integer false 64) (IntValue (pos 18446744073709551615))) []) ∷ (Len, layer LenOp [])
        ∷ (Slice (node_at 4) (node_at 2) (node_at 7), layer SliceOp (4 ∷ 2 ∷ 7 ∷ [])) ∷ (Alias (node_at 4) (codes "x"), layer (AliasOp (codes "x")) (4 ∷ []))
        ∷ (Explode (node_at 4), layer ExplodeOp (4 ∷ [])) ∷ (FilterBy (node_at 4) (node_at 2), layer FilterOp (4 ∷ 2 ∷ [])) ∷ (Sort (node_at 4) (way true false), layer (SortOp (way true false)) (4 ∷ []))
        ∷ (Gather (node_at 4) (node_at 2) false, layer (GatherOp false) (4 ∷ 2 ∷ [])) ∷ (Gather (node_at 4) (node_at 2) true, layer (GatherOp true) (4 ∷ 2 ∷ [])) ∷ []) }
    ensures sort_by { (by : NodeList) (options : SortMultipleOptions) → by.items.items ≡ node_at 2 ∷ node_at 7 ∷ [] →
        options.descending.items.value.items ≡ true ∷ false ∷ [] → options.nulls_last.items.value.items ≡ true ∷ [] →
        expression_layer (SortBy (node_at 4) by options) ≡ layer (SortByOp (true ∷ false ∷ []) (true ∷ [])) (4 ∷ 2 ∷ 7 ∷ []) }
    ensures sort_by_nothing { (by : NodeList) (options : SortMultipleOptions) → by.items.items ≡ [] →
        inputs_of (expression_layer (SortBy (node_at 4) by options)) ≡ 4 ∷ [] }
    ensures window { (keys : NodeList) → keys.items.items ≡ node_at 2 ∷ node_at 7 ∷ [] →
        expression_layer (Window (node_at 4) keys None GroupsToRows) ≡ layer (WindowOp None) (4 ∷ 2 ∷ 7 ∷ []) }
    ensures ordered_window { (keys : NodeList) → keys.items.items ≡ node_at 2 ∷ node_at 7 ∷ [] →
        expression_layer (Window (node_at 4) keys (Some (node_at 5, way true false)) GroupsToRows) ≡ layer (WindowOp (Some (way true false))) (4 ∷ 5 ∷ 2 ∷ 7 ∷ []) }
    ensures plans { (schema : Schema) → Gives plan_layer ((DataFrameScan (Some 2) schema, layer (scan_op (Some 2) (columns schema)) [])
        ∷ (DataFrameScan None schema, layer (scan_op None (columns schema)) []) ∷ (Filter (node_at 5) (a_at 3), layer (filter_op (named_at "a" 3)) (5 ∷ []))
        ∷ (SimpleProjection (node_at 5) schema, layer (simple_projection_op (columns schema) (Some (columns schema))) (5 ∷ []))
        ∷ (Invalid, layer (record { kind = RefusedKind []; recorded = None }) []) ∷ []) }
    ensures select { (exprs : ExprIRs) (schema : Schema) (options : ProjectionOptions) →
        let number : ExprIR = record { node = node_at 4; output_name = LiteralLhs (codes "literal") } in exprs.items.items ≡ a_at 3 ∷ number ∷ [] →
        plan_layer (Select exprs (node_at 5) schema options) ≡ layer (select_op (named_at "a" 3 ∷ literal_at 4 ∷ []) (Some (columns schema))) (5 ∷ []) }
    ensures hstack { (exprs : ExprIRs) (schema : Schema) (options : ProjectionOptions) → exprs.items.items ≡ a_at 3 ∷ [] →
        plan_layer (HStack exprs (node_at 5) schema options) ≡ layer (hstack_op (named_at "a" 3 ∷ []) (Some (columns schema))) (5 ∷ []) }
    ensures group_by { (keys aggs : ExprIRs) (schema : Schema) → keys.items.items ≡ a_at 3 ∷ [] → aggs.items.items ≡ a_at 4 ∷ a_at 2 ∷ [] →
        plan_layer (GroupBy (node_at 5) keys aggs schema true) ≡ layer (group_by_op (named_at "a" 3 ∷ []) (named_at "a" 4 ∷ named_at "a" 2 ∷ []) (Some (columns schema))) (5 ∷ []) }
    ensures names { (schema : Schema) (input : Node) (predicate : ExprIR) (exprs : ExprIRs) (options : ProjectionOptions) → Gives node_name
        ((DataFrameScan (Some 0) schema, codes "df") ∷ (DataFrameScan None schema, codes "df") ∷ (Filter input predicate, codes "selection")
        ∷ (GroupBy input exprs exprs schema false, codes "aggregate") ∷ (HStack exprs input schema options, codes "hstack") ∷ (Select exprs input schema options, codes "projection") ∷ (SimpleProjection input schema, codes "simple_projection") ∷ (Invalid, codes "invalid") ∷ []) }
{}

/// A sort, a distinct, a slice and what passes its rows on keep their input's schema, and record none.
pub fn items_over_an_input()
    ensures sort { (by : ExprIRs) (options : SortMultipleOptions) → by.items.items ≡ a_at 3 ∷ a_at 4 ∷ [] → options.descending.items.value.items ≡ true ∷ [] → options.nulls_last.items.value.items ≡ false ∷ true ∷ [] →
        plan_layer (SortItem (node_at 5) by options) ≡ layer (over_op (SortWork (true ∷ []) (false ∷ true ∷ [])) ((named_at "a" 3 ∷ named_at "a" 4 ∷ []) ∷ []) None) (5 ∷ []) }
    ensures distinct { (options : DistinctOptionsIR) (names : ColumnNames) → options.subset ≡ Some names → names.items.items ≡ codes "b" ∷ [] → options.keep_strategy ≡ Last → options.maintain_order ≡ true →
        (plan_layer (Distinct (node_at 5) options) ≡ layer (over_op (DistinctWork Last (Some (codes "b" ∷ []))) [] None) (5 ∷ [])) × (option_of (Distinct (node_at 5) options) ≡ OrderOption true ∷ []) }
    ensures distinct_rows { (options : DistinctOptionsIR) → options.subset ≡ None → options.keep_strategy ≡ Any → plan_layer (Distinct (node_at 5) options) ≡ layer (over_op (DistinctWork Any None) [] None) (5 ∷ []) }
    ensures others { Gives plan_layer ((SliceItem (node_at 5) (neg_ℤ (pos 2)) 3, layer (over_op (SliceWork (neg_ℤ (pos 2)) 3) [] None) (5 ∷ []))
        ∷ (Cache (node_at 5) 7 2, layer (over_op (PassWork (CachePass 7)) [] None) (5 ∷ [])) ∷ (Sink (node_at 5) Memory, layer (over_op (PassWork SinkPass) [] None) (5 ∷ []))
        ∷ []) }
    ensures functions { (schema : Schema) → columns schema ≡ schema_ab → Gives plan_layer ((MapFunction (node_at 5) Rechunk schema, layer (over_op (PassWork RechunkPass) [] (Some schema_ab)) (5 ∷ []))
        ∷ (MapFunction (node_at 5) (RowIndex (codes "i") (Some 7)) schema, layer (over_op (FunctionWork (RowIndexFunction (codes "i") (Some 7))) [] (Some schema_ab)) (5 ∷ [])) ∷ []) }
    ensures names { (input : Node) (schema : Schema) (by : ExprIRs) (flags : SortMultipleOptions) (options : DistinctOptionsIR) → Gives node_name
        ((SortItem input by flags, codes "sort") ∷ (Distinct input options, codes "distinct") ∷ (SliceItem input (pos 0) 0, codes "slice")
        ∷ (Cache input 7 2, codes "cache") ∷ (Sink input Memory, codes "sink (memory)") ∷ (MapFunction input Rechunk schema, codes "map_function") ∷ []) }
    ensures options { (input : Node) (schema : Schema) (by : ExprIRs) (flags : SortMultipleOptions) → Gives option_of
        ((SortItem input by flags, []) ∷ (SliceItem input (pos 0) 0, []) ∷ (Cache input 7 2, HitsOption 2 ∷ []) ∷ (Sink input Memory, []) ∷ (MapFunction input Rechunk schema, []) ∷ []) }
    ensures expressions { Gives nodes_of ((GroupByKind (named_at "a" 3 ∷ named_at "a" 1 ∷ []) (named_at "a" 4 ∷ []), named_at "a" 3 ∷ named_at "a" 1 ∷ named_at "a" 4 ∷ [])
        ∷ (SelectKind (named_at "a" 3 ∷ []), named_at "a" 3 ∷ []) ∷ (OverKind (SliceWork (pos 0) 1) [], []) ∷ (ScanKind None [], []) ∷ []) }
    ensures first { Gives (λ (kind : PlanKind (Named ℕ)). first_of (expressions_of kind)) ((GroupByKind (named_at "a" 3 ∷ named_at "a" 1 ∷ []) (named_at "a" 4 ∷ []), named_at "a" 3 ∷ named_at "a" 1 ∷ [])
        ∷ (GroupByKind [] (named_at "a" 4 ∷ []), []) ∷ (SelectKind (named_at "a" 3 ∷ []), named_at "a" 3 ∷ []) ∷ (ScanKind None [], []) ∷ []) }
    ensures keeps { KeepsInput (layer (over_op (SliceWork (pos 0) 1) [] None) (5 ∷ [])) 5 }
    ensures another_input { ¬ (KeepsInput (layer (over_op (SliceWork (pos 0) 1) [] None) (5 ∷ [])) 4) }
    ensures a_recorded_schema { ¬ (KeepsInput (layer (simple_projection_op schema_ab (Some schema_ab)) (5 ∷ [])) 5) }
    ensures a_wider_frame { ¬ (KeepsInput (layer (over_op HStackWork [] None) (5 ∷ [])) 5) }
    ensures no_input { ¬ (KeepsInput (layer (scan_op None []) []) 5) }
{}

/// The option of an item, and those of an arena's items in the order of their numbers.
pub fn options_of_items()
    ensures items { (exprs aggs : ExprIRs) (schema : Schema) → let checked : ProjectionOptions = record { duplicate_check = true } in
        let unchecked : ProjectionOptions = record { duplicate_check = false } in Gives option_of (
        (Select exprs (node_at 5) schema checked, ProjectionOption checked ∷ []) ∷ (Select exprs (node_at 5) schema unchecked, ProjectionOption unchecked ∷ []) ∷
        (HStack exprs (node_at 5) schema checked, ProjectionOption checked ∷ []) ∷ (HStack exprs (node_at 5) schema unchecked, ProjectionOption unchecked ∷ []) ∷
        (GroupBy (node_at 5) exprs aggs schema true, OrderOption true ∷ []) ∷ (GroupBy (node_at 5) exprs aggs schema false, OrderOption false ∷ []) ∷
        (DataFrameScan (Some 2) schema, []) ∷ (Filter (node_at 5) (a_at 3), []) ∷ (SimpleProjection (node_at 5) schema, []) ∷ (Invalid, []) ∷ []) }
    ensures arena { (exprs aggs : ExprIRs) (schema : Schema) → let checked : ProjectionOptions = record { duplicate_check = true } in
        options_of (DataFrameScan None schema ∷ Select exprs (node_at 0) schema checked ∷ Filter (node_at 1) (a_at 3) ∷ GroupBy (node_at 2) exprs aggs schema true ∷ [])
        ≡ ProjectionOption checked ∷ OrderOption true ∷ [] }
    ensures nothing { options_of [] ≡ [] }
    ensures copy { CopiesItem (Cache (node_at 5) 7 2) (Ok (Cache (node_at 5) 7 2)) }
    ensures no_copies { AllByRecursion (λ result. ¬ (CopiesItem (Cache (node_at 5) 7 2) result)) (Ok (Cache (node_at 4) 7 2) ∷ Ok (Cache (node_at 5) 7 0) ∷ Err (at_top Duplicate) ∷ []) }
    ensures no_copy { CopiesItem (Cache (node_at 5) 7 2) (Err no_memory) }
{}

/// The name that an item keeps, with what it comes from.
pub fn names_of_outputs()
    ensures labels { Gives output_label ((LiteralLhs (codes "literal"), literal_label (codes "literal")) ∷ (LiteralLhs (codes "len"), literal_label (codes "len")) ∷ (ColumnLhs (codes "literal"), column_label (codes "literal"))
        ∷ (OutputName.Alias (codes "x"), alias_label (codes "x")) ∷ (OutputName.Field (codes "x"), record { name = codes "x"; origin = FromField }) ∷ (OutputName.None, record { name = []; origin = FromNothing }) ∷ []) }
    ensures named { named_node (a_at 3) ≡ named_at "a" 3 }
    ensures same { map (same_named (a_at 3)) (a_at 3 ∷ a_at 4 ∷ record { node = node_at 3; output_name = LiteralLhs (codes "a") } ∷ record { node = node_at 3; output_name = ColumnLhs (codes "b") } ∷ []) ≡ true ∷ false ∷ false ∷ false ∷ [] }
{}

/// What an item does and its inputs, the inputs of each item of an arena, and the greatest value at inputs.
pub fn parts_of_layers()
    ensures parts { let sum = expression_layer (BinaryExpr (node_at 4) Plus (node_at 2)) in (op_of sum ≡ BinaryOp Plus) × (inputs_of sum ≡ 4 ∷ 2 ∷ []) }
    ensures shape { shape_of (map expression_layer sum_items) ≡ [] ∷ [] ∷ (0 ∷ []) ∷ (2 ∷ 1 ∷ []) ∷ [] }
    ensures inputs { map (inputs_at ([] ∷ (0 ∷ 0 ∷ []) ∷ [])) (0 ∷ 1 ∷ 2 ∷ []) ≡ [] ∷ (0 ∷ 0 ∷ []) ∷ [] ∷ [] }
    ensures greatest { map (greatest (λ n. n)) ([] ∷ (7 ∷ []) ∷ (3 ∷ 5 ∷ 1 ∷ []) ∷ []) ≡ 0 ∷ 7 ∷ 5 ∷ [] }
{}

/// Passes go over inputs in their own order, but over what a window's rows are ordered by behind its keys.
pub fn inputs_of_passes()
    ensures layers { Gives passed ((layer (WindowOp (Some (way true false))) (4 ∷ 5 ∷ 2 ∷ 7 ∷ []), 4 ∷ 2 ∷ 7 ∷ 5 ∷ []) ∷
        (layer (WindowOp None) (4 ∷ 5 ∷ 2 ∷ 7 ∷ []), 4 ∷ 5 ∷ 2 ∷ 7 ∷ []) ∷ (layer (WindowOp (Some (way true false))) (4 ∷ 5 ∷ []), 4 ∷ 5 ∷ []) ∷
        (layer SliceOp (4 ∷ 2 ∷ 7 ∷ []), 4 ∷ 2 ∷ 7 ∷ []) ∷ (layer LenOp [], []) ∷ []) }
    ensures window { (keys : NodeList) → keys.items.items ≡ node_at 2 ∷ node_at 7 ∷ [] →
        passed (expression_layer (Window (node_at 4) keys (Some (node_at 5, way true false)) GroupsToRows)) ≡ 4 ∷ 2 ∷ 7 ∷ 5 ∷ [] }
    ensures order { map ordering (None ∷ Some (node_at 5, way true false) ∷ []) ≡ [] ∷ (5 ∷ []) ∷ [] }
    ensures way { map ordered (None ∷ Some (node_at 5, way true false) ∷ []) ≡ None ∷ Some (way true false) ∷ [] }
{}

/// A node denotes the tree that its item and those of its inputs make.
pub fn expressions_of_nodes()
    ensures column { Denotes (HoldsExpression sum_items) 0 a }
    ensures cast { Denotes (HoldsExpression sum_items) 2 wide_a }
    ensures sum { Denotes (HoldsExpression sum_items) 3 strict_sum }
    ensures slice { let items = Column (codes "a") ∷ Literal (Int (pos 1)) ∷ Slice (node_at 0) (node_at 1) (node_at 1) ∷ [] in
        Denotes (HoldsExpression items) 2 (slice a (literal (pos 1)) (literal (pos 1))) }
    ensures alias { Denotes (HoldsExpression (Column (codes "a") ∷ Alias (node_at 0) (codes "x") ∷ [])) 1 (alias "x" a) }
    ensures sort_by { (by : NodeList) (options : SortMultipleOptions) → by.items.items ≡ node_at 1 ∷ node_at 0 ∷ [] →
        Denotes (HoldsExpression (Column (codes "a") ∷ Len ∷ SortBy (node_at 0) by options ∷ [])) 2
        (sort_by options.descending.items.value.items options.nulls_last.items.value.items (count ∷ a ∷ []) a) }
    ensures other_keys { (by : NodeList) (options : SortMultipleOptions) → by.items.items ≡ node_at 1 ∷ node_at 0 ∷ [] →
        AllByRecursion {X = List Expression} (λ keys. ¬ (Denotes (HoldsExpression (Column (codes "a") ∷ Len ∷ SortBy (node_at 0) by options ∷ [])) 2
        (sort_by options.descending.items.value.items options.nulls_last.items.value.items keys a))) ((a ∷ count ∷ []) ∷ (count ∷ []) ∷ (count ∷ a ∷ a ∷ []) ∷ []) }
    ensures window { (keys : NodeList) → keys.items.items ≡ node_at 1 ∷ [] →
        Denotes (HoldsExpression (Column (codes "a") ∷ Len ∷ Window (node_at 0) keys None GroupsToRows ∷ [])) 2 (over (count ∷ []) a) }
    ensures ordered_window { (keys : NodeList) → keys.items.items ≡ node_at 1 ∷ [] →
        Denotes (HoldsExpression (Column (codes "a") ∷ Len ∷ Window (node_at 1) keys (Some (node_at 0, way true false)) GroupsToRows ∷ [])) 2
        (over_by (way true false) a (count ∷ []) count) }
    ensures others { AllByRecursion {X = ℕ × Expression} (λ c. ¬ (Denotes (HoldsExpression sum_items) c.0 c.1)) ((1, a) ∷ (3, sum a b) ∷ (3, sum b wide_a) ∷ (4, a) ∷ []) }
    ensures circle { ¬ (DenotesTree (HoldsExpression circle) 0) }
{}

/// A node that has a literal denotes that of its type and value.
pub fn literals_of_nodes()
    ensures untyped { Denotes (HoldsExpression (Literal (Int (pos 1)) ∷ [])) 0 (literal (pos 1)) }
    ensures typed { Denotes (HoldsExpression (Literal (Int8 (pos 1)) ∷ [])) 0 (typed_literal int8 (pos 1)) }
    ensures others { AllByRecursion {X = AExpr × Expression} (λ c. ¬ (Denotes (HoldsExpression (c.0 ∷ [])) 0 c.1))
        ((Literal (Int8 (pos 1)), typed_literal int8 (pos 2)) ∷ (Literal (Int (pos 1)), typed_literal int8 (pos 1)) ∷ (Column (codes "a"), typed_literal int8 (pos 1)) ∷ []) }
    ensures sum { let items = Column (codes "a") ∷ Literal (Int8 (pos 1)) ∷ BinaryExpr (node_at 0) Plus (node_at 1) ∷ [] in
        Denotes (HoldsExpression items) 2 (sum a (typed_literal int8 (pos 1))) }
    ensures sum_of_another_literal { let items = Column (codes "a") ∷ Literal (Int8 (pos 1)) ∷ BinaryExpr (node_at 0) Plus (node_at 1) ∷ [] in
        ¬ (Denotes (HoldsExpression items) 2 (sum a (literal (pos 1)))) }
{}

/// An output of a plan's node denotes an expression of its name.
pub fn outputs_of_nodes()
    ensures none { DenoteNamed [] [] [] }
    ensures sum { DenoteNamed sum_items (named_at "a" 3 ∷ []) (named strict_sum ∷ []) }
    ensures literal { DenoteNamed (Literal (Int8 (pos 1)) ∷ []) (literal_at 0 ∷ []) (named (typed_literal int8 (pos 1)) ∷ []) }
    ensures column_of_that_name { ¬ (DenoteNamed (Literal (Int8 (pos 1)) ∷ []) (named_at "literal" 0 ∷ []) (named (typed_literal int8 (pos 1)) ∷ [])) }
    ensures other_literal { ¬ (DenoteNamed (Literal (Int8 (pos 1)) ∷ []) (named_at "a" 0 ∷ []) (named (typed_literal int8 (pos 1)) ∷ [])) }
    ensures others { AllByRecursion {X = List (Named ℕ) × List (Named Expression)} (λ c. ¬ (DenoteNamed sum_items c.0 c.1))
        ((named_at "b" 3 ∷ [], named strict_sum ∷ []) ∷ (named_at "a" 0 ∷ [], named strict_sum ∷ []) ∷ ([], named a ∷ []) ∷ (named_at "a" 0 ∷ named_at "a" 0 ∷ [], named a ∷ []) ∷ []) }
{}

/// A plan's item denotes a plan over the plans that its inputs denote, and the top of a lowered plan the whole.
pub fn plans_of_items()
    ensures held_scan { (schema : Schema) → HoldsPlan [] (DataFrameScan (Some 0) schema ∷ []) 0 (scan_op (Some 0) (columns schema)) [] }
    ensures other_table { (schema : Schema) → ¬ (HoldsPlan [] (DataFrameScan (Some 0) schema ∷ []) 0 (scan_op (Some 1) (columns schema)) []) }
    ensures held_filter { (name : OutputName) → let predicate : ExprIR = record { node = node_at 0; output_name = name } in
        let named_a : Named Expression = record { label = output_label name; expression = a } in
        HoldsPlan (Column (codes "a") ∷ []) (Filter (node_at 0) predicate ∷ []) 0 (filter_op named_a) (0 ∷ []) }
    ensures scan { (schema : Schema) → DenotesItem [] [] (DataFrameScan (Some 0) schema) (node (scan_op (Some 0) (columns schema)) no_more) }
    ensures other_scan { (schema : Schema) → ¬ (DenotesItem [] [] (DataFrameScan (Some 0) schema) (node (scan_op None (columns schema)) no_more)) }
    ensures filter { (schema : Schema) → DenotesItem (Column (codes "a") ∷ []) (DataFrameScan (Some 0) schema ∷ []) (Filter (node_at 0) (a_at 0))
        (keep a (node (scan_op (Some 0) (columns schema)) no_more)) }
    ensures filter_without_its_input { (schema : Schema) → ¬ (DenotesItem (Column (codes "a") ∷ []) (DataFrameScan (Some 0) schema ∷ []) (Filter (node_at 0) (a_at 0))
        (node (filter_op (named a)) no_more)) }
    ensures top { (schema : Schema) → let lowering : IRPlan = record {
      lp_top = node_at 1;
      lp_arena = DataFrameScan None schema ∷ DataFrameScan (Some 3) schema
          ∷ [];
      expr_arena = [];
    } in DenotesPlan lowering (node (scan_op (Some 3) (columns schema)) no_more) }
    ensures another_node { (schema : Schema) → let lowering : IRPlan = record {
      lp_top = node_at 1;
      lp_arena = DataFrameScan None schema ∷ DataFrameScan (Some 3) schema
          ∷ [];
      expr_arena = [];
    } in ¬ (DenotesPlan lowering (node (scan_op None (columns schema)) no_more)) }
{}

/// A kind over nodes is that kind over the expressions that these denote.
pub fn kinds_of_plans()
    ensures scan { DenotesKind [] (ScanKind (Some 0) []) (ScanKind (Some 0) []) }
    ensures other_table { ¬ (DenotesKind [] (ScanKind (Some 0) []) (ScanKind (Some 1) [])) }
    ensures select { DenotesKind sum_items (SelectKind (named_at "a" 3 ∷ named_at "b" 1 ∷ [])) (SelectKind (named strict_sum ∷ named b ∷ [])) }
    ensures turned { ¬ (DenotesKind sum_items (SelectKind (named_at "b" 1 ∷ named_at "a" 3 ∷ [])) (SelectKind (named strict_sum ∷ named b ∷ []))) }
    ensures hstack { DenotesKind sum_items (HStackKind (named_at "b" 1 ∷ [])) (HStackKind (named b ∷ [])) }
    ensures no_select { ¬ (DenotesKind sum_items (HStackKind (named_at "b" 1 ∷ [])) (SelectKind (named b ∷ []))) }
    ensures group_by { DenotesKind sum_items (GroupByKind (named_at "b" 1 ∷ []) (named_at "a" 0 ∷ [])) (GroupByKind (named b ∷ []) (named a ∷ [])) }
    ensures aggregates_as_keys { ¬ (DenotesKind sum_items (GroupByKind (named_at "b" 1 ∷ []) (named_at "a" 0 ∷ [])) (GroupByKind (named b ∷ named a ∷ []) [])) }
    ensures filter { DenotesKind sum_items (FilterKind (named_at "a" 0)) (FilterKind (named a)) }
    ensures other_node { ¬ (DenotesKind sum_items (FilterKind (named_at "a" 1)) (FilterKind (named a))) }
    ensures simple_projection { DenotesKind [] (SimpleProjectionKind schema_ab) (SimpleProjectionKind schema_ab) }
    ensures other_columns { ¬ (DenotesKind [] (SimpleProjectionKind schema_ab) (SimpleProjectionKind [])) }
    ensures other_work { ¬ (DenotesKind [] (OverKind SelectWork []) (OverKind HStackWork [])) }
    ensures other_lists { ¬ (DenotesKind sum_items (OverKind GroupByWork ((named_at "b" 1 ∷ []) ∷ [])) (GroupByKind (named b ∷ []) [])) }
    ensures refused { ¬ (DenotesKind sum_items (RefusedKind []) (RefusedKind [])) }
    ensures texts { Gives (kind_text {E = Named Expression}) ((SimpleProjectionKind schema_ab, codes "simple_projection") ∷ (DropKind [] true, codes "invalid") ∷ []) }
    ensures words { Gives work_text ((SliceWork (pos 0) 1, codes "slice") ∷ (SortWork [] [], codes "sort") ∷ (PassWork SinkPass, codes "sink (memory)") ∷ (PassWork RechunkPass, codes "map_function") ∷ []) }
{}

/// The inputs of a plan's item denote plans, and lead into no circle.
pub fn inputs_of_items()
    ensures scan { (schema : Schema) → HasInputs [] (DataFrameScan (Some 0) schema) }
    ensures filter { (schema : Schema) (predicate : ExprIR) → HasInputs (DataFrameScan (Some 0) schema ∷ []) (Filter (node_at 0) predicate) }
    ensures no_such_input { (schema : Schema) (predicate : ExprIR) → ¬ (HasInputs (DataFrameScan (Some 0) schema ∷ []) (Filter (node_at 1) predicate)) }
    ensures taken_out { ¬ (HasInputs [] Invalid) }
    ensures itself_as_its_input { (predicate : ExprIR) → ¬ (HasInputs (Filter (node_at 0) predicate ∷ []) (Filter (node_at 0) predicate)) }
{}

/// How far down the inputs lead, a node itself counted.
pub fn depths_of_nodes()
    ensures { GivesOfTwo depth_at (([] ∷ [], 0, 1) ∷ ([] ∷ (0 ∷ []) ∷ [], 1, 2) ∷ ([] ∷ [] ∷ (0 ∷ []) ∷ (2 ∷ 1 ∷ []) ∷ [], 3, 3) ∷ ([] ∷ (0 ∷ 0 ∷ []) ∷ [], 1, 2) ∷
        ((1 ∷ []) ∷ [] ∷ [], 0, 2) ∷ []) }
{}

/// An item that does the same over other inputs, where no other has changed.
pub fn rewired_items()
    ensures to_another { Rewired circle (Cast (node_at 7) Int32 NonStrict ∷ []) 0 (7 ∷ []) }
    ensures to_itself { Rewired circle circle 0 (0 ∷ []) }
    ensures other_inputs { ¬ (Rewired circle (Cast (node_at 7) Int32 NonStrict ∷ []) 0 (8 ∷ [])) }
    ensures other_cast { ¬ (Rewired circle (Cast (node_at 7) Int32 Strict ∷ []) 0 (7 ∷ [])) }
    ensures another_too { ¬ (Rewired (Len ∷ circle) (Column (codes "a") ∷ circle) 1 (0 ∷ [])) }
    ensures no_such_node { ¬ (Rewired circle circle 1 []) }
{}

/// A node from a number on, and arenas that grow.
pub fn arenas_that_grow()
    ensures from_it { HoldsFrom 1 (Column (codes "a") ∷ Column (codes "b") ∷ []) 1 (ColumnOp (codes "b")) [] }
    ensures not_from_it { AllByRecursion {X = ℕ × List ℕ} (λ c. ¬ (HoldsFrom c.0 (Column (codes "a") ∷ Column (codes "b") ∷ []) 1 (ColumnOp c.1) [])) ((2, codes "b") ∷ (1, codes "a") ∷ []) }
    ensures grown { AllByRecursion (Grows {T = ℕ} (1 ∷ [])) ((1 ∷ []) ∷ (1 ∷ 2 ∷ []) ∷ []) }
    ensures not_grown { AllByRecursion {X = List ℕ × List ℕ} (λ c. ¬ (Grows {T = ℕ} c.0 c.1)) ((1 ∷ 2 ∷ [], 1 ∷ []) ∷ (1 ∷ [], 2 ∷ 1 ∷ []) ∷ (1 ∷ [], 3 ∷ 2 ∷ []) ∷ []) }
{}
