//! Worked examples on aggregates of nodes.

ghost use Rattle.std.specs.Prelude.{◌≡◌, ◌≢◌, [], ◌∷◌, true, false};
ghost use Rattle.plan_dsl.specs.declared.aggregate.GroupByMethod.TheVariants as method;
ghost use Rattle.plan_dsl.specs.Samples.{Gives, GivesOfTwo};
ghost use Rattle.plan_arena.specs.declared.aggregate.IRAggExpr.TheVariants.{Min, Max, NUnique, First, Last, Implode, Count, Sum, AggGroups};
ghost use Rattle.plan_arena.specs.Aggregates.{aggregate_writes, input_at, method_at, same_aggregate};
ghost use Rattle.plan_arena.specs.Samples.{node_at};

/// What an aggregate makes of its input, and the input. It is hashed by the first alone, and compared by both.
pub fn aggregates_of_nodes()
    ensures methods { let n = node_at 3 in Gives method_at (
        (Min n false, method.Min) ∷ (Min n true, method.NanMin) ∷ (Max n false, method.Max) ∷ (Max n true, method.NanMax) ∷ (NUnique n, method.NUnique) ∷ (First n, method.First) ∷
        (Last n, method.Last) ∷ (Implode n, method.Implode) ∷ (Count n true, method.Count true) ∷ (Count n false, method.Count false) ∷ (Sum n, method.Sum) ∷ (AggGroups n, method.Groups) ∷ []) }
    ensures inputs { let n = node_at 3 in Gives input_at ((Min n false, n) ∷ (Count n true, n) ∷ (AggGroups n, n) ∷ []) }
    ensures same { let n = node_at 3 in let m = node_at 4 in GivesOfTwo same_aggregate (
        (Sum n, Sum n, true) ∷ (Sum n, Sum m, false) ∷ (Sum n, First n, false) ∷ (Min n true, Min n false, false) ∷ (Count n true, Count n false, false) ∷ []) }
    ensures hashed { aggregate_writes (Sum (node_at 3)) ≡ aggregate_writes (Sum (node_at 4)) }
    ensures by_flag { aggregate_writes (Count (node_at 3) true) ≢ aggregate_writes (Count (node_at 3) false) }
{}
