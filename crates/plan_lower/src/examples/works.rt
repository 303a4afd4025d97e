//! Nodes over one input, whatever they do: what their lists, names and schemas are, and why one isn't lowered.

ghost use Rattle.std.specs.Prelude.{◌≡◌, List, [], ◌∷◌, map, pos, codes, true, false, Some, None, Ok, Err};
ghost use Rattle.plan_types.specs.Errors.{no_memory, at_top};
ghost use Rattle.plan_types.specs.declared.error.ErrorKind.TheVariants.{ColumnNotFound, ComputeError, Duplicate};
ghost use Rattle.plan_dsl.specs.Plans.{CachePass, CallWork, DistinctWork, DropWork, FilterWork, FunctionWork, GroupByWork, HStackWork, HitsOption, OrderOption, PassWork, ProjectionOption, RechunkPass, SamePass, SelectWork, SimpleProjectionWork, SinkPass, SliceWork, Work, named, over_op};
ghost use Rattle.plan_dsl.specs.declared.distinct_options.UniqueKeepStrategy.TheVariants.{First, Last};
ghost use Rattle.plan_dsl.specs.declared.sort_options.SortMultipleOptions.{SortMultipleOptions};
ghost use Rattle.plan_dsl.specs.Samples.{all, nth, root};
ghost use Rattle.plan_dsl.specs.Sources.{written};
ghost use Rattle.plan_dsl.specs.TableFunctions.{RowIndexFunction, StatsCall};
ghost use Rattle.plan_dsl.specs.declared.function.StatsFunction.TheVariants.{Sum};
ghost use Rattle.plan_arena.specs.Layers.{layer};
ghost use Rattle.plan_arena.specs.declared.aexpr.AExpr.TheVariants.{Len};
ghost use Rattle.plan_arena.specs.declared.ir.IR.{IR};
ghost use Rattle.plan_lower.specs.Sorts.{HasKeys, falling, nulls_behind};
ghost use Rattle.plan_lower.specs.declared.conversion.step.Step.{Step};
ghost use Rattle.plan_lower.specs.Steps.{LowersPlainly, LowersStep, step_lists, step_option, step_work};
ghost use Rattle.plan_lower.specs.Works.{AreUnbroken, IsPlain, IsPlainAt, IsPlainRefusal, IsWorkRefusal, lowered_lists, lowered_names, lowered_output, recorded_of, source_lists, unbroken_schema};
ghost use Rattle.plan_infer.specs.Samples.{int8, int32, one_column, two_columns, a, b};
ghost use Rattle.plan_lower.specs.Samples.{ForPlans, alone, as_it_is, at_zero, grouped_columns, plain_steps as plain, scan_layer};

/// The lists of a group-by, their names and columns, and what a node records of its schema.
pub fn lists_of_works()
    ensures sources { source_lists ((as_it_is a int8 ∷ []) ∷ [] ∷ []) ≡ (named a ∷ []) ∷ [] ∷ [] }
    ensures lowered { lowered_lists ((as_it_is a int8 ∷ []) ∷ (as_it_is b int32 ∷ []) ∷ []) ≡ (named a ∷ []) ∷ (named b ∷ []) ∷ [] }
    ensures names { lowered_names (as_it_is a int8 ∷ as_it_is b int32 ∷ []) ≡ codes "a" ∷ codes "b" ∷ [] }
    ensures output { lowered_output (alone a int8) ≡ record { name = codes "a"; typed = record { type = int8; many = false } } }
    ensures groups { unbroken_schema GroupByWork two_columns ((as_it_is a int8 ∷ []) ∷ (as_it_is b int32 ∷ []) ∷ []) ≡ grouped_columns }
    ensures stacked { unbroken_schema HStackWork (one_column int8) ((as_it_is b int32 ∷ []) ∷ []) ≡ (codes "a", int8) ∷ (codes "b", int32) ∷ [] }
    ensures recorded { (recorded_of SelectWork two_columns ≡ Some two_columns) × (recorded_of FilterWork two_columns ≡ None) × (recorded_of (SimpleProjectionWork []) [] ≡ Some []) }
{}

/// Lists of which a node breaks no rule, and refusals of a node: memory, what can't be expanded, and rules.
pub fn works_that_are_lowered()
    ensures select { AreUnbroken [] two_columns SelectWork ((as_it_is a int8 ∷ as_it_is b int32 ∷ []) ∷ []) }
    ensures repeated { ¬ (AreUnbroken [] two_columns SelectWork ((as_it_is a int8 ∷ as_it_is a int8 ∷ []) ∷ [])) }
    ensures number { ¬ (AreUnbroken [] two_columns FilterWork ((as_it_is a int8 ∷ []) ∷ [])) }
    ensures other_lists { ¬ (AreUnbroken [] two_columns SelectWork []) }
    ensures memory { IsWorkRefusal [] two_columns SelectWork [] no_memory }
    ensures place_beyond_the_columns { IsWorkRefusal [] (one_column int8) HStackWork ((nth (pos 1) ∷ []) ∷ []) (at_top ColumnNotFound) }
    ensures name_twice { IsWorkRefusal [] (one_column int8) SelectWork ((all ∷ all ∷ []) ∷ []) (at_top Duplicate) }
    ensures no_keys { IsWorkRefusal [] (one_column int8) GroupByWork ([] ∷ (all ∷ []) ∷ []) (at_top ComputeError) }
    ensures absent { IsWorkRefusal [] (one_column int8) (DropWork true) ((root (written b) ∷ []) ∷ []) (at_top ColumnNotFound) }
{}

/// What steps without expressions do, with their lists and options.
pub fn plain_steps()
    ensures works { map step_work plain ≡ SliceWork (pos 1) 2 ∷ PassWork (CachePass 7) ∷ PassWork SinkPass ∷ PassWork RechunkPass ∷ CallWork (StatsCall Sum) ∷ [] }
    ensures lists { map step_lists plain ≡ [] ∷ [] ∷ [] ∷ [] ∷ [] ∷ [] }
    ensures options { map step_option plain ≡ [] ∷ (HitsOption 4294967295 ∷ []) ∷ [] ∷ [] ∷ (ProjectionOption (record { duplicate_check = false }) ∷ []) ∷ [] }
{}

/// Their nodes, which have the schema of their input and record none.
pub fn plain_nodes()
    ensures slice { ForPlans (scan_layer (Some 0) two_columns ∷ layer (over_op (SliceWork (pos 1) 2) [] None) (0 ∷ []) ∷ []) (λ plans.
        IsPlainAt two_columns plans 1 0 (SliceWork (pos 1) 2) [] two_columns) }
    ensures cache { ForPlans (scan_layer (Some 0) two_columns ∷ layer (over_op (PassWork (CachePass 7)) [] None) (0 ∷ []) ∷ []) (λ plans.
        IsPlainAt two_columns plans 1 0 (PassWork (CachePass 7)) [] two_columns) }
    ensures other_schema { (plans : List IR) → ¬ (IsPlainAt two_columns plans 1 0 (PassWork SinkPass) [] (one_column int8)) }
    ensures refused { IsPlainRefusal two_columns (SliceWork (pos 1) 2) [] no_memory }
{}

/// Works that are resolved to one without expressions, which has a node.
pub fn plain_works()
    ensures distinct { IsPlain two_columns (DistinctWork First None) ((root (written b) ∷ []) ∷ []) (DistinctWork First (Some (codes "b" ∷ []))) }
    ensures other_strategy { ¬ (IsPlain two_columns (DistinctWork First None) [] (DistinctWork Last None)) }
    ensures absent { ¬ (IsPlain (one_column int8) (DistinctWork First None) ((root (written b) ∷ []) ∷ []) (DistinctWork First (Some (codes "b" ∷ [])))) }
    ensures with_an_expression { ¬ (IsPlain two_columns FilterWork ((written a ∷ []) ∷ []) FilterWork) }
    ensures function { IsPlain two_columns (FunctionWork (RowIndexFunction (codes "i") None)) [] (FunctionWork (RowIndexFunction (codes "i") None)) }
    ensures nothing { ¬ (IsPlain two_columns (PassWork SamePass) [] (PassWork SamePass)) }
{}

/// What a sort's expressions are expanded to, with flags for the keys.
pub fn keys_of_sorts()
    ensures keys { (options own : SortMultipleOptions) → falling options ≡ true ∷ false ∷ [] → nulls_behind options ≡ false ∷ [] → falling own ≡ true ∷ true ∷ false ∷ [] → nulls_behind own ≡ false ∷ [] →
        HasKeys two_columns (all ∷ written a ∷ []) options (a ∷ b ∷ a ∷ []) own }
    ensures a_flag_too_many { (options own : SortMultipleOptions) → falling options ≡ true ∷ false ∷ [] → nulls_behind options ≡ false ∷ [] →
        ¬ (HasKeys two_columns (written a ∷ []) options (a ∷ []) own) }
    ensures other_keys { (options own : SortMultipleOptions) → ¬ (HasKeys two_columns (written a ∷ []) options (b ∷ a ∷ []) own) }
{}

/// What a step's function leaves and answers: its refusal names memory or a rule, and what was there stays.
pub fn lowered_steps()
    ensures memory { (work : Work) (plans : List IR) → LowersPlainly work [] [] at_zero plans plans (Err no_memory) }
    ensures a_lost_item { (work : Work) (plans : List IR) (item : IR) → ¬ (LowersPlainly work [] [] at_zero (item ∷ plans) [] (Err no_memory)) }
    ensures a_lost_expression { (step : Step) (plans : List IR) → ¬ (LowersStep [] step at_zero (Len ∷ []) [] plans plans (Err no_memory)) }
    ensures another_option { (work : Work) → ¬ (LowersPlainly work [] (OrderOption true ∷ []) at_zero [] [] (Ok at_zero)) }
{}
