//! Nodes over one input, by what they do: the parts of their rules, of their schemas, and of what they give.

ghost use Rattle.std.specs.Prelude.{◌≡◌, List, [], ◌∷◌, map, pos, codes, true, false, Some, None, Ok, Err};
ghost use Rattle.plan_types.specs.Schemas.{Name};
ghost use Rattle.plan_types.specs.Types.{Truth, TextType, ListType};
ghost use Rattle.plan_types.specs.Outcomes.{Done, Fault, Stuck};
ghost use Rattle.plan_types.specs.Frames.{empty_frame};
ghost use Rattle.plan_types.specs.declared.error.ErrorKind.TheVariants.{ColumnNotFound, Duplicate, SchemaMismatch, InvalidOperation, ComputeError};
ghost use Rattle.plan_dsl.specs.declared.distinct_options.UniqueKeepStrategy.TheVariants.{First};
ghost use Rattle.plan_dsl.specs.Plans.{Work, SelectWork, HStackWork, GroupByWork, FilterWork, SimpleProjectionWork, DropWork, SliceWork, SortWork, DistinctWork, PassWork, SinkPass, ScanKind, OverKind, SelectKind, GroupByKind, FilterKind, Named, named, over_input, over_op, select_op, group_by_op, filter_op, expressions_of, source_over, source_select, source_group_by};
ghost use Rattle.plan_dsl.specs.Ops.{Expression};
ghost use Rattle.plan_dsl.specs.Sources.{written};
ghost use Rattle.plan_dsl.specs.PlanRules.{TypedOutput, names_in, type_kinds, all_type_kinds, work_kinds, own_kinds, typed_lists, columns_of, aggregate_columns, work_schema, keeps_schema, schema_by};
ghost use Rattle.plan_dsl.specs.PlanKernels.{Evaluated, gives_nothing, work_frame, over_frame};
ghost use Rattle.plan_dsl.specs.PlanMeaning.{by_meaning};
ghost use Rattle.plan_dsl.specs.Resolving.{expanded_each, expanded_lists, resolved_work, expanded_kind, first_columns, schemas_there};
ghost use Rattle.plan_dsl.specs.WorkLaws.{IsGiven, AreGiven, ListsAreGiven, kinds_of_types};
ghost use Rattle.plan_dsl.specs.Samples.{Gives, GivesOfTwo, GivesAll, int8, int32, int64, a, b, c, k, v, one, sum, less, count, alias, all, all_names, columns_at, root, one_value, many_values, of_many, frame_with, number, yes, null, table, keyed, schema_ab, schema_abc, schema_kv, scan};

/// The kinds of a node over one input, by its work and its lists of expressions.
pub fn nodes_by_their_work()
    ensures kinds { (SelectKind (a ∷ b ∷ []) ≡ OverKind SelectWork ((a ∷ b ∷ []) ∷ [])) × (GroupByKind (a ∷ []) [] ≡ OverKind GroupByWork ((a ∷ []) ∷ [] ∷ [])) × (FilterKind a ≡ OverKind FilterWork ((a ∷ []) ∷ [])) }
    ensures ops { (select_op (a ∷ []) None ≡ over_op SelectWork ((a ∷ []) ∷ []) None) × (group_by_op [] (a ∷ []) (Some []) ≡ over_op GroupByWork ([] ∷ (a ∷ []) ∷ []) (Some [])) × (filter_op a ≡ over_op FilterWork ((a ∷ []) ∷ []) None) }
    ensures queries { (source_select (all ∷ []) (scan schema_ab) ≡ source_over SelectWork ((all ∷ []) ∷ []) (scan schema_ab))
        × (source_group_by (all ∷ []) [] (scan schema_ab) ≡ source_over GroupByWork ((all ∷ []) ∷ [] ∷ []) (scan schema_ab)) }
    ensures expressions { expressions_of {E = Named Expression} (GroupByKind (named a ∷ named b ∷ []) (named c ∷ [])) ≡ over_input 0 (named a ∷ named b ∷ []) ∷ over_input 0 (named c ∷ []) ∷ [] }
    ensures names { names_in (named (sum a b) ∷ named (alias "x" b) ∷ named one ∷ []) ≡ all_names ("a" ∷ "x" ∷ "literal" ∷ []) }
{}

/// What a node breaks by the types of its expressions, and whatever these are. Other lists than its own break a rule.
pub fn kinds_of_works()
    ensures types { GivesOfTwo type_kinds (
        (FilterWork, many_values Truth, []) ∷ (FilterWork, one_value Truth, []) ∷ (FilterWork, many_values int8, InvalidOperation ∷ []) ∷
        (SelectWork, many_values int8, []) ∷ (GroupByWork, one_value TextType, []) ∷ []) }
    ensures of_lists { GivesOfTwo (λ work lists. all_type_kinds [] work schema_ab (map (map named) lists)) (
        (FilterWork, (less a b ∷ []) ∷ [], []) ∷ (FilterWork, (a ∷ c ∷ less a b ∷ []) ∷ (b ∷ []) ∷ [], InvalidOperation ∷ InvalidOperation ∷ []) ∷ (SelectWork, (a ∷ c ∷ []) ∷ [], []) ∷ []) }
    ensures of_typed { let number : TypedOutput = record { name = codes "n"; typed = many_values int8 } in
        let truth : TypedOutput = record { name = codes "t"; typed = many_values Truth } in
        Gives (kinds_of_types FilterWork) (([], []) ∷ ((truth ∷ []) ∷ [], []) ∷ ((truth ∷ number ∷ []) ∷ (number ∷ []) ∷ [], InvalidOperation ∷ InvalidOperation ∷ []) ∷ []) }
    ensures names { let twice = all_names ("a" ∷ "b" ∷ "a" ∷ []) in
        GivesOfTwo (λ work lists. work_kinds work schema_ab lists) (
        (SelectWork, twice ∷ [], Duplicate ∷ []) ∷ (HStackWork, twice ∷ [], ComputeError ∷ []) ∷ (SelectWork, [] ∷ [], []) ∷
        (GroupByWork, all_names ("a" ∷ []) ∷ all_names ("b" ∷ "a" ∷ []) ∷ [], Duplicate ∷ []) ∷ (GroupByWork, [] ∷ twice ∷ [], ComputeError ∷ Duplicate ∷ []) ∷
        (FilterWork, all_names ("a" ∷ []) ∷ [], []) ∷ (SimpleProjectionWork ((codes "b", int32) ∷ []), [], []) ∷ (SimpleProjectionWork ((codes "b", int8) ∷ []), [], InvalidOperation ∷ []) ∷ []) }
    ensures other_lists { GivesAll (λ (case : Work × List (List Name)). work_kinds case.0 schema_ab case.1) (SchemaMismatch ∷ []) (
        (SelectWork, []) ∷ (SelectWork, [] ∷ [] ∷ []) ∷ (HStackWork, []) ∷ (GroupByWork, [] ∷ []) ∷ (GroupByWork, [] ∷ [] ∷ [] ∷ []) ∷ (FilterWork, []) ∷ (FilterWork, [] ∷ []) ∷
        (FilterWork, all_names ("a" ∷ "b" ∷ []) ∷ []) ∷ (SimpleProjectionWork [], [] ∷ []) ∷ (DropWork false, [] ∷ []) ∷ (DropWork true, []) ∷ []) }
    ensures together { Gives (own_kinds [] (OverKind FilterWork ((named a ∷ named b ∷ []) ∷ []))) (
        (None ∷ [], []) ∷ (Some schema_ab ∷ [], InvalidOperation ∷ InvalidOperation ∷ SchemaMismatch ∷ []) ∷ ([], SchemaMismatch ∷ []) ∷ []) }
{}

/// The schema that a node has by its typed expressions.
pub fn schemas_of_works()
    ensures typed { Gives (λ lists. typed_lists [] schema_ab (map (map named) lists)) (
        ([], Some []) ∷
        ((a ∷ []) ∷ [] ∷ (less a b ∷ []) ∷ [], Some ((record { name = codes "a"; typed = many_values int8 } ∷ []) ∷ [] ∷ (record { name = codes "a"; typed = many_values Truth } ∷ []) ∷ [])) ∷
        ((a ∷ []) ∷ (b ∷ c ∷ []) ∷ [], None) ∷ ((c ∷ []) ∷ [], None) ∷ []) }
    ensures columns { let outputs : List TypedOutput = record { name = codes "a"; typed = many_values int8 } ∷ record { name = codes "n"; typed = one_value int64 } ∷ [] in
        (columns_of outputs ≡ (codes "a", int8) ∷ (codes "n", int64) ∷ []) × (aggregate_columns outputs ≡ (codes "a", ListType int8) ∷ (codes "n", int64) ∷ [])
        × Gives (λ work. work_schema work schema_ab (outputs ∷ [])) (
        (SelectWork, (codes "a", int8) ∷ (codes "n", int64) ∷ []) ∷ (HStackWork, (codes "a", int8) ∷ (codes "b", int32) ∷ (codes "n", int64) ∷ []) ∷ (FilterWork, schema_ab) ∷ (GroupByWork, schema_ab) ∷ [])
        × (work_schema GroupByWork schema_ab (outputs ∷ outputs ∷ []) ≡ (codes "a", int8) ∷ (codes "n", int64) ∷ (codes "a", ListType int8) ∷ (codes "n", int64) ∷ [])
        × (work_schema (SimpleProjectionWork ((codes "b", int32) ∷ [])) schema_ab [] ≡ (codes "b", int32) ∷ []) }
    ensures kept { Gives keeps_schema ((FilterWork, true) ∷ (SelectWork, false) ∷ (HStackWork, false) ∷ (GroupByWork, false) ∷ (SimpleProjectionWork [], false) ∷ (DropWork true, false) ∷ (SliceWork (pos 0) 1, true) ∷ (SortWork [] [], true) ∷ (DistinctWork First None, true) ∷ (PassWork SinkPass, true) ∷ []) }
    ensures rule { Gives (schema_by [] (OverKind GroupByWork ((named a ∷ []) ∷ (named b ∷ []) ∷ []))) ((Some schema_ab ∷ [], Some ((codes "a", int8) ∷ (codes "b", ListType int32) ∷ [])) ∷ (None ∷ [], None) ∷ []) }
{}

/// A node gives nothing by the names of its expressions, whatever its input gives. With other lists than its own it is stuck.
pub fn frames_of_works()
    ensures nothing { GivesOfTwo gives_nothing (
        (SelectWork, [] ∷ [], true) ∷ (SelectWork, all_names ("a" ∷ []) ∷ [], false) ∷ (SelectWork, [], false) ∷ (HStackWork, [] ∷ [], false) ∷ (GroupByWork, [] ∷ [] ∷ [], false) ∷
        (SimpleProjectionWork [], [], true) ∷ (SimpleProjectionWork schema_ab, [], false) ∷ (FilterWork, [], false) ∷ (SliceWork (pos 0) 0, [], false) ∷ (SortWork [] [], [] ∷ [], false) ∷ (DistinctWork First (Some []), [], false) ∷ (PassWork SinkPass, [], false) ∷ []) }
    ensures stuck { let numbers : Evaluated = record { name = codes "n"; typing = of_many int64; gives = λ rows. Done (map number rows) } in
        GivesAll (λ (case : Work × List (List Evaluated)). work_frame case.0 case.1 table) Stuck (
        (SelectWork, []) ∷ (SelectWork, [] ∷ [] ∷ []) ∷ (HStackWork, []) ∷ (GroupByWork, (numbers ∷ []) ∷ []) ∷ (FilterWork, (numbers ∷ numbers ∷ []) ∷ []) ∷ (SimpleProjectionWork [], [] ∷ []) ∷ (DropWork false, []) ∷ []) }
    ensures over { GivesOfTwo (λ work input. over_frame (by_meaning []) work [] input) (
        (SimpleProjectionWork [], Fault, Done empty_frame) ∷ (SimpleProjectionWork ((codes "b", int32) ∷ []), Fault, Fault) ∷ (SimpleProjectionWork ((codes "b", int32) ∷ []), Stuck, Stuck) ∷
        (DropWork true, Done table, Stuck) ∷ []) }
{}

/// Lists are expanded one by one, but for aggregates behind keys and the one predicate of a filter. Selectors aren't.
pub fn works_that_are_resolved()
    ensures each { Gives (expanded_each schema_ab) (
        ([], Ok []) ∷ ((all ∷ written a ∷ []) ∷ [] ∷ [], Ok ((a ∷ b ∷ a ∷ []) ∷ [] ∷ [])) ∷
        ((written a ∷ []) ∷ (columns_at (pos 2 ∷ []) ∷ []) ∷ [], Err (ColumnNotFound ∷ [])) ∷ []) }
    ensures lists { GivesOfTwo (expanded_lists schema_ab) (
        (SelectWork, (all ∷ []) ∷ [], Ok ((a ∷ b ∷ []) ∷ [])) ∷ (GroupByWork, (written a ∷ []) ∷ (all ∷ []) ∷ [], Ok ((a ∷ []) ∷ (b ∷ []) ∷ [])) ∷
        (FilterWork, (written a ∷ []) ∷ [], Ok ((a ∷ []) ∷ [])) ∷ (FilterWork, (all ∷ []) ∷ [], Err (ComputeError ∷ [])) ∷ (DropWork true, (root all ∷ []) ∷ [], Ok []) ∷ []) }
    ensures works { GivesOfTwo (resolved_work schema_ab) (
        (DropWork true, (root (written a) ∷ []) ∷ [], Ok (SimpleProjectionWork ((codes "b", int32) ∷ []))) ∷ (DropWork true, (root (written c) ∷ []) ∷ [], Err (ColumnNotFound ∷ [])) ∷
        (DropWork true, [], Ok (DropWork true)) ∷ (SelectWork, (all ∷ []) ∷ [], Ok SelectWork) ∷ []) }
    ensures inputs { Gives first_columns (([], []) ∷ (schema_ab ∷ [], schema_ab) ∷ (schema_kv ∷ schema_ab ∷ [], schema_kv) ∷ [])
        × Gives schemas_there (([], []) ∷ (Some schema_kv ∷ None ∷ Some schema_ab ∷ [], schema_kv ∷ schema_ab ∷ []) ∷ []) }
    ensures kinds { Gives (λ inputs. expanded_kind [] inputs (SelectKind (all ∷ []))) (
        (schema_ab ∷ [], Ok (SelectKind (named a ∷ named b ∷ []))) ∷ (schema_kv ∷ schema_ab ∷ [], Ok (SelectKind (named k ∷ named v ∷ []))) ∷ ([], Ok (SelectKind [])) ∷ []) }
{}

/// What an expression is on a frame: its name, its type, and values of that.
pub fn answers_of_expressions()
    ensures given { let output : TypedOutput = record { name = codes "n"; typed = many_values int64 } in
        let numbers : Evaluated = record { name = codes "n"; typing = of_many int64; gives = λ rows. Fault } in
        let others : Evaluated = record { name = codes "m"; typing = of_many int64; gives = λ rows. Fault } in
        IsGiven output numbers × ¬ (IsGiven output others) × AreGiven (output ∷ output ∷ []) (numbers ∷ numbers ∷ []) × ¬ (AreGiven (output ∷ []) []) × ¬ (AreGiven [] (numbers ∷ []))
        × ListsAreGiven ((output ∷ []) ∷ [] ∷ []) ((numbers ∷ []) ∷ [] ∷ []) × ¬ (ListsAreGiven ([] ∷ []) []) }
{}
