//! Worked examples of aggregates.
#![tactic(auto, unfolding(crate::proofs::OnLiterals::values_on_literals))]

ghost use Rattle.std.specs.Prelude.{◌≡◌, [], ◌∷◌, Some, None, true, false};
ghost use Rattle.serde_json.specs.Data.{null};
ghost use Rattle.plan_dsl.specs.declared.aggregate.GroupByMethod.TheVariants.{Min, Max, NUnique, First, Last, Implode, Sum, Count, Groups};
ghost use Rattle.plan_dsl.specs.Samples.{agg};
ghost use Rattle.plan_json.specs.Leaves.{method_of};
ghost use Rattle.plan_json.specs.Samples.{Gives, GivesAll, ReadAs, col, column, expression_of, keyed, list, whole, word};

/// An aggregate: the name of its method, and an expression. A count is one of all values, or of those that are not null.
pub fn aggregate_examples()
    ensures methods { Gives (λ name. method_of (word name)) (("Min", Some Min) ∷ ("Max", Some Max) ∷ ("First", Some First) ∷ ("Last", Some Last) ∷ ("Sum", Some Sum) ∷
        ("NUnique", Some NUnique) ∷ ("Implode", Some Implode) ∷ ("Count", Some (Count false)) ∷ ("CountAll", Some (Count true)) ∷ ("AggGroups", Some Groups) ∷ []) }
    ensures none { GivesAll method_of None (word "min" ∷ word "Mean" ∷ word "NanMin" ∷ word "Groups" ∷ whole 0 ∷ null ∷ []) }
    ensures read { ReadAs ((keyed "agg" (list (word "Sum" ∷ col "a" ∷ [])), agg Sum (column "a")) ∷
        (keyed "agg" (list (word "Count" ∷ keyed "agg" (list (word "Implode" ∷ col "a" ∷ [])) ∷ [])), agg (Count false) (agg Implode (column "a"))) ∷ []) }
    ensures unread { let a = col "a" in
        GivesAll expression_of None (keyed "agg" (list (word "Sum" ∷ [])) ∷ keyed "agg" (list (word "Sum" ∷ a ∷ a ∷ [])) ∷ keyed "agg" (list (a ∷ word "Sum" ∷ [])) ∷
        keyed "agg" (list (word "sum" ∷ a ∷ [])) ∷ keyed "agg" a ∷ keyed "agg" (list (word "Sum" ∷ null ∷ [])) ∷ keyed "Sum" a ∷ []) }
{}
