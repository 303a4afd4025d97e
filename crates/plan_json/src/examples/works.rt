//! Worked examples of plans over one input that keep its columns.
#![tactic(auto, unfolding(crate::proofs::OnLiterals::values_on_literals))]

ghost use Rattle.std.specs.Prelude.{◌≡◌, pos, negsuc, [], ◌∷◌, Float, Some, None, true, false};
ghost use Rattle.serde_json.specs.Data.{boolean, float, null, number};
ghost use Rattle.plan_dsl.specs.Plans.{RechunkPass, SortWork, empty_table, source_cache, source_distinct, source_over, source_pass, source_sink, source_slice};
ghost use Rattle.plan_dsl.specs.Sources.{RootOp, written};
ghost use Rattle.plan_dsl.specs.Trees.{more, no_more, node};
ghost use Rattle.plan_dsl.specs.declared.distinct_options.UniqueKeepStrategy.TheVariants as keeps;
ghost use Rattle.plan_json.specs.Faults.{BadFloat, BadShape, a_keep, a_natural, a_plan, optional_form, own_fault};
ghost use Rattle.plan_json.specs.Forms.{selector};
ghost use Rattle.plan_json.specs.Leaves.{keep_of, natural_of};
ghost use Rattle.plan_json.specs.Samples.{Gives, GivesAll, below_zero, col, column, empty_value, fault_along, keyed, list, to, whole, word};
ghost use Rattle.plan_json.specs.Queries.{plan_of};
ghost use Rattle.plan_json.specs.Faults as fault;

/// A sort: its input, a list of expressions, and two lists of flags, of any numbers.
pub fn sort_examples()
    ensures read { Gives (λ items. plan_of [] (keyed "sort" (list items))) (
        (empty_value ∷ list [] ∷ list [] ∷ list [] ∷ [], Some (source_over (SortWork [] []) ([] ∷ []) empty_table)) ∷
        (empty_value ∷ list (col "a" ∷ []) ∷ list (boolean true ∷ []) ∷ list (boolean false ∷ boolean true ∷ []) ∷ [], Some (source_over (SortWork (true ∷ []) (false ∷ true ∷ [])) ((written (column "a") ∷ []) ∷ []) empty_table)) ∷ []) }
    ensures unread { GivesAll (λ items. plan_of [] (keyed "sort" (list items))) None ((empty_value ∷ list [] ∷ list [] ∷ []) ∷ (empty_value ∷ list [] ∷ list [] ∷ list [] ∷ list [] ∷ []) ∷
        (empty_value ∷ col "a" ∷ list [] ∷ list [] ∷ []) ∷ (empty_value ∷ list [] ∷ boolean true ∷ list [] ∷ []) ∷ (empty_value ∷ list [] ∷ list [] ∷ list (null ∷ []) ∷ []) ∷ (col "a" ∷ list [] ∷ list [] ∷ list [] ∷ []) ∷ []) }
    ensures faults { Gives fault_along (((a_plan [], keyed "sort" (list (empty_value ∷ list [] ∷ list [] ∷ list (boolean true ∷ null ∷ []) ∷ [])), to "sort" (fault.number 3 ∷ fault.number 1 ∷ [])), Some BadShape) ∷
        ((a_plan [], keyed "sort" (list (empty_value ∷ null ∷ list [] ∷ list [] ∷ [])), to "sort" (fault.number 1 ∷ [])), Some BadShape) ∷ []) }
{}

/// A distinct: its input, null or a list of selectors, and the name of what is kept.
pub fn distinct_examples()
    ensures names { Gives (λ name. keep_of (word name)) (("First", Some keeps.First) ∷ ("Last", Some keeps.Last) ∷ ("None", Some keeps.None) ∷ ("Any", Some keeps.Any) ∷ ("first", None) ∷ ("All", None) ∷ []) }
    ensures read { Gives (λ items. plan_of [] (keyed "distinct" (list items))) ((empty_value ∷ null ∷ word "Last" ∷ [], Some (source_distinct keeps.Last None empty_table)) ∷
        (empty_value ∷ list [] ∷ word "None" ∷ [], Some (source_distinct keeps.None (Some []) empty_table)) ∷
        (empty_value ∷ list (keyed "root" (col "a") ∷ []) ∷ word "First" ∷ [], Some (source_distinct keeps.First (Some (node RootOp (more (written (column "a")) no_more) ∷ [])) empty_table)) ∷ []) }
    ensures unread { GivesAll (λ items. plan_of [] (keyed "distinct" (list items))) None ((empty_value ∷ null ∷ []) ∷ (empty_value ∷ null ∷ null ∷ []) ∷ (empty_value ∷ boolean false ∷ word "Any" ∷ []) ∷
        (empty_value ∷ list (col "a" ∷ []) ∷ word "Any" ∷ []) ∷ (empty_value ∷ keyed "root" (col "a") ∷ word "Any" ∷ []) ∷ (empty_value ∷ word "Any" ∷ null ∷ []) ∷ []) }
    ensures own { (x : Float) → Gives (own_fault (optional_form [] selector)) ((null, None) ∷ (list (null ∷ []), None) ∷ (word "a", Some BadShape) ∷ (number (float x), Some BadFloat) ∷ []) }
    ensures own_keep { Gives (own_fault a_keep) ((word "Any", None) ∷ (word "any", Some BadShape) ∷ (null, Some BadShape) ∷ []) }
    ensures faults { Gives fault_along (((a_plan [], keyed "distinct" (list (empty_value ∷ list (keyed "root" (col "a") ∷ col "a" ∷ []) ∷ word "Any" ∷ [])), to "distinct" (fault.number 1 ∷ fault.number 1 ∷ [])), Some BadShape) ∷
        ((a_plan [], keyed "distinct" (list (empty_value ∷ null ∷ word "any" ∷ [])), to "distinct" (fault.number 2 ∷ [])), Some BadShape) ∷ []) }
{}

/// A slice: its input, an offset of 64 bits with a sign, and a length of 32 bits without one. A cache: its input, and a number of such bits.
pub fn slice_examples()
    ensures naturals { Gives natural_of ((whole 0, Some 0) ∷ (whole 4294967295, Some 4294967295) ∷ (whole 4294967296, None) ∷ (whole 18446744073709551615, None) ∷ (below_zero 0, None) ∷ (null, None) ∷ (word "1", None) ∷ []) }
    ensures no_float { (x : Float) → natural_of (number (float x)) ≡ None }
    ensures own { (x : Float) → Gives (own_fault a_natural) ((whole 7, None) ∷ (whole 4294967296, Some BadShape) ∷ (number (float x), Some BadFloat) ∷ []) }
    ensures read { Gives (λ items. plan_of [] (keyed "slice" (list items))) ((empty_value ∷ below_zero 0 ∷ whole 1 ∷ [], Some (source_slice (negsuc 0) 1 empty_table)) ∷
        (empty_value ∷ whole 5 ∷ whole 4294967295 ∷ [], Some (source_slice (pos 5) 4294967295 empty_table)) ∷ (empty_value ∷ below_zero 9223372036854775807 ∷ whole 0 ∷ [], Some (source_slice (negsuc 9223372036854775807) 0 empty_table)) ∷ []) }
    ensures unread { GivesAll (λ items. plan_of [] (keyed "slice" (list items))) None ((empty_value ∷ whole 0 ∷ []) ∷ (empty_value ∷ whole 0 ∷ below_zero 0 ∷ []) ∷ (empty_value ∷ whole 0 ∷ whole 4294967296 ∷ []) ∷
        (empty_value ∷ whole 9223372036854775808 ∷ whole 0 ∷ []) ∷ (empty_value ∷ null ∷ whole 0 ∷ []) ∷ (whole 0 ∷ whole 0 ∷ empty_value ∷ []) ∷ []) }
    ensures caches { Gives (λ items. plan_of [] (keyed "cache" (list items))) ((empty_value ∷ whole 7 ∷ [], Some (source_cache 7 empty_table)) ∷ (empty_value ∷ whole 4294967296 ∷ [], None) ∷ (empty_value ∷ below_zero 0 ∷ [], None) ∷ (empty_value ∷ [], None) ∷ []) }
    ensures faults { Gives fault_along (((a_plan [], keyed "slice" (list (empty_value ∷ whole 0 ∷ whole 4294967296 ∷ [])), to "slice" (fault.number 2 ∷ [])), Some BadShape) ∷
        ((a_plan [], keyed "cache" (list (empty_value ∷ below_zero 0 ∷ [])), to "cache" (fault.number 1 ∷ [])), Some BadShape) ∷ []) }
{}

/// A sink and a rechunk: their input, without a list.
pub fn sink_examples()
    ensures read { Gives (plan_of []) ((keyed "sink" empty_value, Some (source_sink empty_table)) ∷ (keyed "rechunk" empty_value, Some (source_pass RechunkPass empty_table)) ∷
        (keyed "sink" (keyed "rechunk" empty_value), Some (source_sink (source_pass RechunkPass empty_table))) ∷ []) }
    ensures unread { GivesAll (plan_of []) None (keyed "sink" (list []) ∷ keyed "sink" (list (empty_value ∷ [])) ∷ keyed "sink" null ∷ keyed "rechunk" (list (empty_value ∷ [])) ∷ keyed "rechunk" (col "a") ∷ []) }
    ensures faults { Gives fault_along (((a_plan [], keyed "sink" (list []), to "sink" []), Some BadShape) ∷ ((a_plan [], keyed "rechunk" (keyed "sink" null), to "rechunk" (to "sink" [])), Some BadShape) ∷ []) }
{}
