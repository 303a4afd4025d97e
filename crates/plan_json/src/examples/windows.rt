//! Worked examples of windows.
#![tactic(auto, unfolding(crate::proofs::OnLiterals::values_on_literals))]

ghost use Rattle.std.specs.Prelude.{◌≡◌, [], ◌∷◌, Some, None, true, false};
ghost use Rattle.serde_json.specs.Data.{boolean, null};
ghost use Rattle.plan_dsl.specs.declared.aggregate.GroupByMethod.TheVariants.{Sum};
ghost use Rattle.plan_dsl.specs.Samples.{agg, over, over_by, way};
ghost use Rattle.plan_json.specs.Faults.{BadShape, order_form, own_fault};
ghost use Rattle.plan_json.specs.Samples.{Gives, GivesAll, ReadAs, col, column, expression_of, keyed, list, whole, word};

/// A window: its function, a list of keys, and null or what orders the groups, which is an expression and two flags.
pub fn window_examples()
    ensures read { let sum = keyed "agg" (list (word "Sum" ∷ col "v" ∷ [])) in
        ReadAs ((keyed "over" (list (col "v" ∷ list [] ∷ null ∷ [])), over [] (column "v")) ∷
        (keyed "over" (list (sum ∷ list (col "k" ∷ col "l" ∷ []) ∷ null ∷ [])), over (column "k" ∷ column "l" ∷ []) (agg Sum (column "v"))) ∷
        (keyed "over" (list (sum ∷ list (col "k" ∷ []) ∷ list (col "o" ∷ boolean true ∷ boolean false ∷ []) ∷ [])), over_by (way true false) (column "o") (column "k" ∷ []) (agg Sum (column "v"))) ∷ []) }
    ensures unread { let v = col "v" in let keys = list (col "k" ∷ []) in let yes = boolean true in
        GivesAll expression_of None (keyed "over" (list (v ∷ keys ∷ [])) ∷ keyed "over" (list (v ∷ keys ∷ null ∷ null ∷ [])) ∷ keyed "over" (list (v ∷ col "k" ∷ null ∷ [])) ∷
        keyed "over" (list (keys ∷ v ∷ null ∷ [])) ∷ keyed "over" (list (v ∷ keys ∷ list [] ∷ [])) ∷ keyed "over" (list (v ∷ keys ∷ list (v ∷ yes ∷ []) ∷ [])) ∷
        keyed "over" (list (v ∷ keys ∷ list (v ∷ yes ∷ null ∷ []) ∷ [])) ∷ keyed "over" (list (v ∷ keys ∷ list (yes ∷ yes ∷ v ∷ []) ∷ [])) ∷
        keyed "over" (list (v ∷ keys ∷ v ∷ [])) ∷ keyed "over" (list (v ∷ keys ∷ boolean false ∷ [])) ∷ keyed "over" v ∷ []) }
    ensures faults { Gives (own_fault (order_form [])) ((null, None) ∷ (list (null ∷ null ∷ null ∷ []), None) ∷
        (list (col "o" ∷ boolean true ∷ []), Some BadShape) ∷ (col "o", Some BadShape) ∷ (whole 0, Some BadShape) ∷ []) }
{}
