//! Worked examples of plans without nulls.
#![tactic(auto, unfolding(crate::proofs::OnLiterals::values_on_literals))]

ghost use Rattle.std.specs.Prelude.{◌≡◌, [], ◌∷◌, Float, Some, None, false};
ghost use Rattle.serde_json.specs.Data.{Data, boolean, float, null, number};
ghost use Rattle.plan_dsl.specs.Plans.{empty_table, source_call, source_filter, source_select};
ghost use Rattle.plan_dsl.specs.Samples.{all};
ghost use Rattle.plan_dsl.specs.Sources.{written};
ghost use Rattle.plan_dsl.specs.declared.function_expr.FunctionExpr.TheVariants.{AllHorizontal, FillNull, IsNotNull};
ghost use Rattle.plan_json.specs.Faults.{BadFloat, BadShape, a_plan, optional_form, own_fault};
ghost use Rattle.plan_json.specs.Samples.{Gives, GivesAll, col, column, empty_value, every_column, expression_list, fault_along, keyed, list, to, whole, word};
ghost use Rattle.plan_json.specs.Forms.{expression};
ghost use Rattle.plan_json.specs.Queries.{plan_of};
ghost use Rattle.plan_json.specs.Faults as fault;

/// A drop of nulls: its input, and null or a list of expressions. It is a filter by all of them, and by all columns where there is no list.
pub fn drop_nulls_examples()
    ensures read { Gives (λ items. plan_of [] (keyed "drop_nulls" (list items))) (
        (empty_value ∷ null ∷ [], Some (source_filter (source_call AllHorizontal (source_call IsNotNull (all ∷ []) ∷ [])) empty_table)) ∷
        (empty_value ∷ list [] ∷ [], Some (source_filter (source_call AllHorizontal []) empty_table)) ∷
        (empty_value ∷ list (col "a" ∷ every_column ∷ []) ∷ [], Some (source_filter (source_call AllHorizontal (source_call IsNotNull (written (column "a") ∷ []) ∷ source_call IsNotNull (all ∷ []) ∷ [])) empty_table)) ∷ []) }
    ensures unread { GivesAll (λ items. plan_of [] (keyed "drop_nulls" (list items))) None ((empty_value ∷ []) ∷ (empty_value ∷ col "a" ∷ []) ∷ (empty_value ∷ boolean false ∷ []) ∷
        (empty_value ∷ list (null ∷ []) ∷ []) ∷ (empty_value ∷ list (word "a" ∷ []) ∷ []) ∷ (empty_value ∷ null ∷ null ∷ []) ∷ (null ∷ empty_value ∷ []) ∷ (list [] ∷ empty_value ∷ []) ∷ []) }
    ensures own { (x : Float) → Gives (own_fault (optional_form [] expression)) ((null, None) ∷ (list [], None) ∷ (list (null ∷ null ∷ null ∷ null ∷ null ∷ []), None) ∷
        (col "a", Some BadShape) ∷ (whole 0, Some BadShape) ∷ (boolean false, Some BadShape) ∷ (number (float x), Some BadFloat) ∷ []) }
    ensures faults { let at : Data → Data = λ items. keyed "drop_nulls" (list (empty_value ∷ items ∷ [])) in
        Gives fault_along (((a_plan [], at null, to "drop_nulls" (fault.number 1 ∷ [])), None) ∷ ((a_plan [], at (col "a"), to "drop_nulls" (fault.number 1 ∷ [])), Some BadShape) ∷
        ((a_plan [], at (list (col "a" ∷ null ∷ [])), to "drop_nulls" (fault.number 1 ∷ fault.number 1 ∷ [])), Some BadShape) ∷
        ((a_plan [], at (list (col "a" ∷ keyed "col" null ∷ [])), to "drop_nulls" (fault.number 1 ∷ fault.number 1 ∷ to "col" [])), Some BadShape) ∷
        ((a_plan [], keyed "drop_nulls" (list (empty_value ∷ [])), to "drop_nulls" []), Some BadShape) ∷ []) }
{}

/// A fill of nulls: its input, and an expression. It is a select of all columns, with the expression in place of their nulls.
pub fn fill_null_examples()
    ensures read { Gives (λ items. plan_of [] (keyed "fill_null" (list items))) (
        (empty_value ∷ col "a" ∷ [], Some (source_select (source_call FillNull (all ∷ written (column "a") ∷ []) ∷ []) empty_table)) ∷
        (empty_value ∷ every_column ∷ [], Some (source_select (source_call FillNull (all ∷ all ∷ []) ∷ []) empty_table)) ∷ []) }
    ensures unread { GivesAll (λ items. plan_of [] (keyed "fill_null" (list items))) None ((empty_value ∷ []) ∷ (empty_value ∷ null ∷ []) ∷ (empty_value ∷ list (col "a" ∷ []) ∷ []) ∷
        (empty_value ∷ col "a" ∷ col "a" ∷ []) ∷ (col "a" ∷ empty_value ∷ []) ∷ (empty_value ∷ whole 0 ∷ []) ∷ []) }
    ensures faults { Gives fault_along (((a_plan [], keyed "fill_null" (list (empty_value ∷ null ∷ [])), to "fill_null" (fault.number 1 ∷ [])), Some BadShape) ∷
        ((a_plan [], keyed "fill_null" (list (null ∷ col "a" ∷ [])), to "fill_null" (fault.number 0 ∷ [])), Some BadShape) ∷ []) }
{}
