//! Worked examples of functions from a frame to a frame.
#![tactic(auto, unfolding(crate::proofs::OnLiterals::values_on_literals))]

ghost use Rattle.std.specs.Prelude.{[], ◌∷◌, Float, Some, None, codes, true, false};
ghost use Rattle.serde_json.specs.Data.{Data, boolean, float, null, number};
ghost use Rattle.plan_dsl.specs.Plans.{CallWork, FunctionWork, empty_table, source_over};
ghost use Rattle.plan_dsl.specs.Sources.{RootOp, written};
ghost use Rattle.plan_dsl.specs.TableFunctions.{ExplodeCall, RenameCall, RowIndexFunction, StatsCall, UnnestCall, UnpivotCall};
ghost use Rattle.plan_dsl.specs.Trees.{more, no_more, node};
ghost use Rattle.plan_dsl.specs.declared.function.StatsFunction.TheVariants as statistics;
ghost use Rattle.plan_json.specs.Faults.{BadFloat, BadShape, a_plan, a_statistic, an_optional_natural, an_optional_text, own_fault};
ghost use Rattle.plan_json.specs.Leaves.{optional_natural_of, optional_text_of, statistic_of};
ghost use Rattle.plan_json.specs.Samples.{Gives, GivesAll, below_zero, col, column, empty_value, fault_along, keyed, list, to, whole, word};
ghost use Rattle.plan_json.specs.Queries.{plan_of};
ghost use Rattle.plan_json.specs.Faults as fault;

/// Null or a number of 32 bits, null or a text, and the name of a statistic.
pub fn leaf_examples()
    ensures naturals { Gives optional_natural_of ((null, Some None) ∷ (whole 0, Some (Some 0)) ∷ (whole 4294967295, Some (Some 4294967295)) ∷ (whole 4294967296, None) ∷ (below_zero 0, None) ∷ (word "1", None) ∷ (list [], None) ∷ []) }
    ensures texts { Gives optional_text_of ((null, Some None) ∷ (word "", Some (Some [])) ∷ (word "null", Some (Some (codes "null"))) ∷ (whole 0, None) ∷ (boolean false, None) ∷ (list (null ∷ []), None) ∷ []) }
    ensures statistic_names { Gives (λ name. statistic_of (word name)) (("Sum", Some statistics.Sum) ∷ ("Min", Some statistics.Min) ∷ ("Max", Some statistics.Max) ∷ ("sum", None) ∷ ("Mean", None) ∷ ("", None) ∷ []) }
    ensures own_natural { (x : Float) → Gives (own_fault an_optional_natural) ((null, None) ∷ (whole 7, None) ∷ (whole 4294967296, Some BadShape) ∷ (boolean false, Some BadShape) ∷ (number (float x), Some BadFloat) ∷ []) }
    ensures own_text { (x : Float) → Gives (own_fault an_optional_text) ((null, None) ∷ (word "a", None) ∷ (whole 7, Some BadShape) ∷ (number (float x), Some BadFloat) ∷ []) }
    ensures own_statistic { (x : Float) → Gives (own_fault a_statistic) ((word "Max", None) ∷ (word "max", Some BadShape) ∷ (null, Some BadShape) ∷ (number (float x), Some BadFloat) ∷ []) }
{}

/// A row index: its input, a name, and null or an offset.
pub fn row_index_examples()
    ensures read { Gives (λ items. plan_of [] (keyed "row_index" (list items))) ((empty_value ∷ word "i" ∷ null ∷ [], Some (source_over (FunctionWork (RowIndexFunction (codes "i") None)) [] empty_table)) ∷
        (empty_value ∷ word "" ∷ whole 4294967295 ∷ [], Some (source_over (FunctionWork (RowIndexFunction [] (Some 4294967295))) [] empty_table)) ∷ []) }
    ensures unread { GivesAll (λ items. plan_of [] (keyed "row_index" (list items))) None ((empty_value ∷ word "i" ∷ []) ∷ (empty_value ∷ word "i" ∷ null ∷ null ∷ []) ∷ (empty_value ∷ null ∷ null ∷ []) ∷
        (empty_value ∷ word "i" ∷ whole 4294967296 ∷ []) ∷ (empty_value ∷ word "i" ∷ below_zero 0 ∷ []) ∷ (empty_value ∷ col "i" ∷ null ∷ []) ∷ (word "i" ∷ empty_value ∷ null ∷ []) ∷ []) }
    ensures faults { Gives fault_along (((a_plan [], keyed "row_index" (list (empty_value ∷ word "i" ∷ whole 4294967296 ∷ [])), to "row_index" (fault.number 2 ∷ [])), Some BadShape) ∷
        ((a_plan [], keyed "row_index" (list (empty_value ∷ null ∷ null ∷ [])), to "row_index" (fault.number 1 ∷ [])), Some BadShape) ∷ []) }
{}

/// An explode and an unnest: their input and a list of selectors, and of an explode whether there may be no columns.
pub fn explode_examples()
    ensures read { let a = keyed "root" (col "a") in let of_a = node RootOp (more (written (column "a")) no_more) in
        Gives (λ items. plan_of [] (keyed "explode" (list items))) ((empty_value ∷ list [] ∷ boolean true ∷ [], Some (source_over (CallWork (ExplodeCall true)) ([] ∷ []) empty_table)) ∷
        (empty_value ∷ list (a ∷ a ∷ []) ∷ boolean false ∷ [], Some (source_over (CallWork (ExplodeCall false)) ((of_a ∷ of_a ∷ []) ∷ []) empty_table)) ∷ []) }
    ensures unread { GivesAll (λ items. plan_of [] (keyed "explode" (list items))) None ((empty_value ∷ list [] ∷ []) ∷ (empty_value ∷ list [] ∷ null ∷ []) ∷ (empty_value ∷ null ∷ boolean true ∷ []) ∷
        (empty_value ∷ list (col "a" ∷ []) ∷ boolean true ∷ []) ∷ (empty_value ∷ keyed "root" (col "a") ∷ boolean true ∷ []) ∷ (col "a" ∷ list [] ∷ boolean true ∷ []) ∷ []) }
    ensures unnests { let a = keyed "root" (col "a") in let of_a = node RootOp (more (written (column "a")) no_more) in
        Gives (λ items. plan_of [] (keyed "unnest" (list items))) ((empty_value ∷ list [] ∷ [], Some (source_over (CallWork UnnestCall) ([] ∷ []) empty_table)) ∷
        (empty_value ∷ list (a ∷ []) ∷ [], Some (source_over (CallWork UnnestCall) ((of_a ∷ []) ∷ []) empty_table)) ∷
        (empty_value ∷ [], None) ∷ (empty_value ∷ null ∷ [], None) ∷ (empty_value ∷ a ∷ [], None) ∷ (empty_value ∷ list [] ∷ boolean true ∷ [], None) ∷ []) }
    ensures faults { Gives fault_along (((a_plan [], keyed "explode" (list (empty_value ∷ list (keyed "root" (col "a") ∷ col "a" ∷ []) ∷ boolean true ∷ [])), to "explode" (fault.number 1 ∷ fault.number 1 ∷ [])), Some BadShape) ∷
        ((a_plan [], keyed "explode" (list (empty_value ∷ list [] ∷ null ∷ [])), to "explode" (fault.number 2 ∷ [])), Some BadShape) ∷
        ((a_plan [], keyed "unnest" (list (empty_value ∷ null ∷ [])), to "unnest" (fault.number 1 ∷ [])), Some BadShape) ∷ []) }
{}

/// An unpivot: its input, two lists of selectors, and twice null or a name.
pub fn unpivot_examples()
    ensures read { let a = keyed "root" (col "a") in let of_a = node RootOp (more (written (column "a")) no_more) in
        Gives (λ items. plan_of [] (keyed "unpivot" (list items))) ((empty_value ∷ list [] ∷ list [] ∷ null ∷ null ∷ [], Some (source_over (CallWork (UnpivotCall None None)) ([] ∷ [] ∷ []) empty_table)) ∷
        (empty_value ∷ list (a ∷ []) ∷ list [] ∷ word "v" ∷ null ∷ [], Some (source_over (CallWork (UnpivotCall (Some (codes "v")) None)) ((of_a ∷ []) ∷ [] ∷ []) empty_table)) ∷
        (empty_value ∷ list [] ∷ list (a ∷ a ∷ []) ∷ null ∷ word "w" ∷ [], Some (source_over (CallWork (UnpivotCall None (Some (codes "w")))) ([] ∷ (of_a ∷ of_a ∷ []) ∷ []) empty_table)) ∷ []) }
    ensures unread { GivesAll (λ items. plan_of [] (keyed "unpivot" (list items))) None ((empty_value ∷ list [] ∷ list [] ∷ null ∷ []) ∷ (empty_value ∷ list [] ∷ list [] ∷ null ∷ null ∷ null ∷ []) ∷
        (empty_value ∷ null ∷ list [] ∷ null ∷ null ∷ []) ∷ (empty_value ∷ list [] ∷ null ∷ null ∷ null ∷ []) ∷ (empty_value ∷ list [] ∷ list [] ∷ whole 0 ∷ null ∷ []) ∷
        (empty_value ∷ list [] ∷ list [] ∷ null ∷ list [] ∷ []) ∷ (empty_value ∷ list (col "a" ∷ []) ∷ list [] ∷ null ∷ null ∷ []) ∷ (null ∷ list [] ∷ list [] ∷ null ∷ null ∷ []) ∷ []) }
    ensures faults { let at : Data → Data → Data = λ index value. keyed "unpivot" (list (empty_value ∷ list [] ∷ index ∷ null ∷ value ∷ [])) in
        Gives fault_along (((a_plan [], at (list []) (whole 0), to "unpivot" (fault.number 4 ∷ [])), Some BadShape) ∷ ((a_plan [], at (list []) null, to "unpivot" (fault.number 4 ∷ [])), None) ∷
        ((a_plan [], at (list (null ∷ [])) null, to "unpivot" (fault.number 2 ∷ fault.number 0 ∷ [])), Some BadShape) ∷ ((a_plan [], keyed "unpivot" (list (empty_value ∷ [])), to "unpivot" []), Some BadShape) ∷ []) }
{}

/// A rename: its input, two lists of names, of any numbers, and whether each old name must stand.
pub fn rename_examples()
    ensures read { Gives (λ items. plan_of [] (keyed "rename" (list items))) ((empty_value ∷ list [] ∷ list [] ∷ boolean true ∷ [], Some (source_over (CallWork (RenameCall [] [] true)) [] empty_table)) ∷
        (empty_value ∷ list (word "a" ∷ word "a" ∷ []) ∷ list (word "b" ∷ []) ∷ boolean false ∷ [], Some (source_over (CallWork (RenameCall (codes "a" ∷ codes "a" ∷ []) (codes "b" ∷ []) false)) [] empty_table)) ∷ []) }
    ensures unread { GivesAll (λ items. plan_of [] (keyed "rename" (list items))) None ((empty_value ∷ list [] ∷ list [] ∷ []) ∷ (empty_value ∷ list [] ∷ list [] ∷ null ∷ []) ∷ (empty_value ∷ word "a" ∷ list [] ∷ boolean true ∷ []) ∷
        (empty_value ∷ list [] ∷ null ∷ boolean true ∷ []) ∷ (empty_value ∷ list (col "a" ∷ []) ∷ list [] ∷ boolean true ∷ []) ∷ (list [] ∷ list [] ∷ list [] ∷ boolean true ∷ []) ∷ []) }
    ensures faults { Gives fault_along (((a_plan [], keyed "rename" (list (empty_value ∷ list [] ∷ list (word "a" ∷ null ∷ []) ∷ boolean true ∷ [])), to "rename" (fault.number 2 ∷ fault.number 1 ∷ [])), Some BadShape) ∷
        ((a_plan [], keyed "rename" (list (empty_value ∷ null ∷ list [] ∷ boolean true ∷ [])), to "rename" (fault.number 1 ∷ [])), Some BadShape) ∷ []) }
{}

/// Statistics: their input, and the name of what is taken of each column.
pub fn stats_examples()
    ensures read { Gives (λ name. plan_of [] (keyed "stats" (list (empty_value ∷ word name ∷ [])))) (("Sum", Some (source_over (CallWork (StatsCall statistics.Sum)) [] empty_table)) ∷
        ("Min", Some (source_over (CallWork (StatsCall statistics.Min)) [] empty_table)) ∷ ("Max", Some (source_over (CallWork (StatsCall statistics.Max)) [] empty_table)) ∷ ("First", None) ∷ []) }
    ensures unread { GivesAll (λ items. plan_of [] (keyed "stats" (list items))) None ((empty_value ∷ []) ∷ (empty_value ∷ null ∷ []) ∷ (empty_value ∷ word "Sum" ∷ null ∷ []) ∷ (word "Sum" ∷ empty_value ∷ []) ∷ (empty_value ∷ list (word "Sum" ∷ []) ∷ []) ∷ []) }
    ensures faults { Gives fault_along (((a_plan [], keyed "stats" (list (empty_value ∷ word "sum" ∷ [])), to "stats" (fault.number 1 ∷ [])), Some BadShape) ∷
        ((a_plan [], keyed "stats" (list (null ∷ word "Sum" ∷ [])), to "stats" (fault.number 0 ∷ [])), Some BadShape) ∷ []) }
{}
