//! Rows that are sorted, sliced, and kept once.

ghost use Rattle.std.specs.Prelude.{◌≡◌, ℕ, pos, neg_ℤ, List, [], ◌∷◌, map, true, false};
ghost use Rattle.plan_types.specs.Frames.{Row};
ghost use Rattle.plan_dsl.specs.declared.distinct_options.UniqueKeepStrategy.TheVariants.{First, Last, None, Any};
ghost use Rattle.plan_dsl.specs.FrameRows.{kept_of, rows_between, rows_by_keys, rows_once};
ghost use Rattle.plan_dsl.specs.FrameRowLaws.{AreKept, IsRowSort, IsSliceOf, NoneBeside, StandsBetween, is_one_kept};
ghost use Rattle.plan_dsl.specs.Samples.{Gives, GivesOfTwo, int8, null, yes, no, number, text, rising, way};

/// A slice has so many rows from a place on, as far as there are rows. An offset below 0 counts from the end, maybe past the
/// front.
pub fn slices_of_rows()
    ensures five { let of = λ (numbers : List ℕ). map (λ n. number n ∷ []) numbers in
        GivesOfTwo (λ offset count. rows_between offset count (of (1 ∷ 2 ∷ 3 ∷ 4 ∷ 5 ∷ []))) (
        (pos 0, 2, of (1 ∷ 2 ∷ [])) ∷ (pos 1, 3, of (2 ∷ 3 ∷ 4 ∷ [])) ∷ (pos 3, 2, of (4 ∷ 5 ∷ [])) ∷ (pos 3, 9, of (4 ∷ 5 ∷ [])) ∷ (pos 4, 1, of (5 ∷ [])) ∷
        (pos 5, 1, []) ∷ (pos 9, 3, []) ∷ (pos 2, 0, []) ∷ (pos 0, 5, of (1 ∷ 2 ∷ 3 ∷ 4 ∷ 5 ∷ [])) ∷ (pos 0, 6, of (1 ∷ 2 ∷ 3 ∷ 4 ∷ 5 ∷ [])) ∷ []) }
    ensures from_end { let of = λ (numbers : List ℕ). map (λ n. number n ∷ []) numbers in
        GivesOfTwo (λ before count. rows_between (neg_ℤ (pos before)) count (of (1 ∷ 2 ∷ 3 ∷ 4 ∷ 5 ∷ []))) (
        (1, 1, of (5 ∷ [])) ∷ (1, 4, of (5 ∷ [])) ∷ (2, 1, of (4 ∷ [])) ∷ (3, 2, of (3 ∷ 4 ∷ [])) ∷ (4, 0, []) ∷
        (5, 2, of (1 ∷ 2 ∷ [])) ∷ (5, 5, of (1 ∷ 2 ∷ 3 ∷ 4 ∷ 5 ∷ [])) ∷ (6, 5, of (1 ∷ 2 ∷ 3 ∷ 4 ∷ [])) ∷ (7, 3, of (1 ∷ [])) ∷ (7, 2, []) ∷ (9, 3, []) ∷ []) }
    ensures one { Gives (λ offset. rows_between offset 1 ((yes ∷ no ∷ []) ∷ [])) ((pos 0, (yes ∷ no ∷ []) ∷ []) ∷ (neg_ℤ (pos 1), (yes ∷ no ∷ []) ∷ []) ∷ (pos 1, []) ∷ (neg_ℤ (pos 2), []) ∷ []) }
    ensures nothing { GivesOfTwo (λ offset count. rows_between offset count []) ((pos 0, 0, []) ∷ (pos 0, 3, []) ∷ (pos 2, 1, []) ∷ (neg_ℤ (pos 1), 3, []) ∷ []) }
{}

/// Rows are sorted by the keys beside them, the first of which that differs decides. Ties stay as they stood.
pub fn sorted_rows()
    ensures ties { let of = λ (numbers : List ℕ). map (λ n. number n ∷ []) numbers in
        GivesOfTwo (λ descending keys. rows_by_keys (way descending false ∷ []) (of keys) (of (1 ∷ 2 ∷ 3 ∷ 4 ∷ 5 ∷ []))) (
        (false, 2 ∷ 1 ∷ 2 ∷ 3 ∷ 1 ∷ [], of (2 ∷ 5 ∷ 1 ∷ 3 ∷ 4 ∷ [])) ∷ (true, 2 ∷ 1 ∷ 2 ∷ 3 ∷ 1 ∷ [], of (4 ∷ 1 ∷ 3 ∷ 2 ∷ 5 ∷ [])) ∷
        (false, 7 ∷ 7 ∷ 7 ∷ 7 ∷ 7 ∷ [], of (1 ∷ 2 ∷ 3 ∷ 4 ∷ 5 ∷ [])) ∷ (true, 7 ∷ 7 ∷ 7 ∷ 7 ∷ 7 ∷ [], of (1 ∷ 2 ∷ 3 ∷ 4 ∷ 5 ∷ [])) ∷ (false, 5 ∷ 4 ∷ 3 ∷ 2 ∷ 1 ∷ [], of (5 ∷ 4 ∷ 3 ∷ 2 ∷ 1 ∷ [])) ∷ []) }
    ensures nulls { let of = λ (numbers : List ℕ). map (λ n. number n ∷ []) numbers in
        GivesOfTwo (λ descending nulls_last. rows_by_keys (way descending nulls_last ∷ []) ((number 2 ∷ []) ∷ (null ∷ []) ∷ (number 1 ∷ []) ∷ (null ∷ []) ∷ []) (of (1 ∷ 2 ∷ 3 ∷ 4 ∷ []))) (
        (false, false, of (2 ∷ 4 ∷ 3 ∷ 1 ∷ [])) ∷ (false, true, of (3 ∷ 1 ∷ 2 ∷ 4 ∷ [])) ∷ (true, false, of (2 ∷ 4 ∷ 1 ∷ 3 ∷ [])) ∷ (true, true, of (1 ∷ 3 ∷ 2 ∷ 4 ∷ [])) ∷ []) }
    ensures two_keys { let of = λ (numbers : List ℕ). map (λ n. number n ∷ []) numbers in
        let keys : List Row = (yes ∷ number 2 ∷ []) ∷ (no ∷ null ∷ []) ∷ (yes ∷ number 1 ∷ []) ∷ (no ∷ number 3 ∷ []) ∷ (yes ∷ number 2 ∷ []) ∷ [] in
        GivesOfTwo (λ first second. rows_by_keys (first ∷ second ∷ []) keys (of (1 ∷ 2 ∷ 3 ∷ 4 ∷ 5 ∷ []))) (
        (rising, rising, of (2 ∷ 4 ∷ 3 ∷ 1 ∷ 5 ∷ [])) ∷ (rising, way true true, of (4 ∷ 2 ∷ 1 ∷ 5 ∷ 3 ∷ [])) ∷ (way true false, rising, of (3 ∷ 1 ∷ 5 ∷ 2 ∷ 4 ∷ [])) ∷ (way true true, way true true, of (1 ∷ 5 ∷ 3 ∷ 4 ∷ 2 ∷ [])) ∷ []) }
    ensures no_keys { rows_by_keys [] ([] ∷ [] ∷ []) ((number 2 ∷ []) ∷ (number 1 ∷ []) ∷ []) ≡ (number 2 ∷ []) ∷ (number 1 ∷ []) ∷ [] }
    ensures few { (rows_by_keys (rising ∷ []) [] [] ≡ []) × (rows_by_keys (rising ∷ []) ((null ∷ []) ∷ []) ((yes ∷ no ∷ []) ∷ []) ≡ (yes ∷ no ∷ []) ∷ []) }
{}

/// Of the rows beside the same keys one is kept, or none but a single one. They stand as their keys first occur.
pub fn rows_kept_once()
    ensures five { let of = λ (numbers : List ℕ). map (λ n. number n ∷ []) numbers in
        Gives (λ keep. rows_once keep (of (7 ∷ 8 ∷ 7 ∷ 9 ∷ 8 ∷ [])) (of (1 ∷ 2 ∷ 3 ∷ 4 ∷ 5 ∷ []))) (
        (First, of (1 ∷ 2 ∷ 4 ∷ [])) ∷ (Any, of (1 ∷ 2 ∷ 4 ∷ [])) ∷ (Last, of (3 ∷ 5 ∷ 4 ∷ [])) ∷ (None, of (4 ∷ [])) ∷ []) }
    ensures nulls { let of = λ (numbers : List ℕ). map (λ n. number n ∷ []) numbers in
        Gives (λ keep. rows_once keep ((null ∷ []) ∷ (number 0 ∷ []) ∷ (null ∷ []) ∷ []) (of (1 ∷ 2 ∷ 3 ∷ []))) (
        (First, of (1 ∷ 2 ∷ [])) ∷ (Last, of (3 ∷ 2 ∷ [])) ∷ (None, of (2 ∷ [])) ∷ []) }
    ensures two_keys { let of = λ (numbers : List ℕ). map (λ n. number n ∷ []) numbers in
        Gives (λ keep. rows_once keep ((number 1 ∷ text "x" ∷ []) ∷ (number 1 ∷ text "y" ∷ []) ∷ (number 2 ∷ text "x" ∷ []) ∷ (number 1 ∷ text "x" ∷ []) ∷ []) (of (1 ∷ 2 ∷ 3 ∷ 4 ∷ []))) (
        (First, of (1 ∷ 2 ∷ 3 ∷ [])) ∷ (Last, of (4 ∷ 2 ∷ 3 ∷ [])) ∷ (None, of (2 ∷ 3 ∷ [])) ∷ []) }
    ensures no_keys { let of = λ (numbers : List ℕ). map (λ n. number n ∷ []) numbers in
        Gives (λ keep. rows_once keep ([] ∷ [] ∷ [] ∷ []) (of (1 ∷ 2 ∷ 3 ∷ []))) ((First, of (1 ∷ [])) ∷ (Any, of (1 ∷ [])) ∷ (Last, of (3 ∷ [])) ∷ (None, []) ∷ []) }
    ensures one { Gives (λ keep. rows_once keep ((null ∷ []) ∷ []) ((yes ∷ []) ∷ [])) ((First, (yes ∷ []) ∷ []) ∷ (Any, (yes ∷ []) ∷ []) ∷ (Last, (yes ∷ []) ∷ []) ∷ (None, (yes ∷ []) ∷ []) ∷ []) }
    ensures nothing { Gives (λ keep. rows_once keep [] []) ((First, []) ∷ (Any, []) ∷ (Last, []) ∷ (None, []) ∷ []) }
    ensures group { Gives (λ keep. kept_of keep ((yes ∷ []) ∷ (no ∷ []) ∷ (null ∷ []) ∷ [])) ((First, (yes ∷ []) ∷ []) ∷ (Any, (yes ∷ []) ∷ []) ∷ (Last, (null ∷ []) ∷ []) ∷ (None, []) ∷ []) }
{}

/// How a kept row stands among the others. Other rows, and rows in another order, are no slice, no sort, and not what is kept.
pub fn rows_of_the_laws()
    ensures kept { GivesOfTwo (λ keep key. is_one_kept keep ((yes ∷ []) ∷ (no ∷ []) ∷ (yes ∷ []) ∷ []) (key ∷ [])) (
        (First, yes, true) ∷ (Any, yes, true) ∷ (Last, yes, true) ∷ (None, yes, false) ∷ (None, no, true) ∷ (None, null, false) ∷ []) }
    ensures none_beside { NoneBeside (yes ∷ []) [] × NoneBeside (yes ∷ []) ((no ∷ [], yes ∷ []) ∷ (null ∷ [], yes ∷ []) ∷ []) }
    ensures one_beside { ¬ (NoneBeside (yes ∷ []) ((no ∷ [], []) ∷ (yes ∷ [], []) ∷ [])) }
    ensures first { ¬ (StandsBetween First (yes ∷ []) ((yes ∷ [], []) ∷ []) []) × ¬ (StandsBetween Any (yes ∷ []) ((yes ∷ [], []) ∷ []) []) × StandsBetween First (yes ∷ []) [] ((yes ∷ [], []) ∷ []) }
    ensures last { ¬ (StandsBetween Last (yes ∷ []) [] ((yes ∷ [], []) ∷ [])) × StandsBetween Last (yes ∷ []) ((yes ∷ [], []) ∷ []) [] }
    ensures only { ¬ (StandsBetween None (yes ∷ []) [] ((yes ∷ [], []) ∷ [])) × ¬ (StandsBetween None (yes ∷ []) ((yes ∷ [], []) ∷ []) []) × StandsBetween None (yes ∷ []) [] [] }
    ensures other_row { ¬ (IsSliceOf (pos 0) 1 ((yes ∷ []) ∷ (no ∷ []) ∷ []) ((no ∷ []) ∷ [])) }
    ensures too_short { ¬ (IsSliceOf (pos 0) 2 ((yes ∷ []) ∷ (no ∷ []) ∷ []) ((yes ∷ []) ∷ [])) }
    ensures out_of_order { ¬ (IsRowSort (rising ∷ []) (int8 ∷ []) ((number 2 ∷ []) ∷ (number 1 ∷ []) ∷ []) ((yes ∷ []) ∷ (no ∷ []) ∷ []) ((yes ∷ []) ∷ (no ∷ []) ∷ [])) }
    ensures too_few { ¬ (AreKept First ((yes ∷ []) ∷ []) ((no ∷ []) ∷ []) []) }
    ensures too_many { ¬ (AreKept None ((yes ∷ []) ∷ (yes ∷ []) ∷ []) ((no ∷ []) ∷ (no ∷ []) ∷ []) ((no ∷ []) ∷ [])) }
{}
