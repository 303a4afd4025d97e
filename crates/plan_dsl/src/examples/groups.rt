//! Groups of items by the keys beside them.

ghost use Rattle.std.specs.Prelude.{◌≡◌, ℕ, [], ◌∷◌, true, false};
ghost use Rattle.plan_types.specs.Values.{same_value};
ghost use Rattle.plan_types.specs.Frames.{Row};
ghost use Rattle.plan_dsl.specs.GroupLaws.{AreApart, AreGroupsOf, rows_in, with_item};
ghost use Rattle.plan_dsl.specs.Groups.{firsts, groups, items_beside, same_keys};
ghost use Rattle.plan_dsl.specs.Samples.{Gives, GivesOfTwo, null, yes, no, number, text, list, group};

/// What is the same as an earlier one is left out. A null is the same as another, and keys are where each is.
pub fn items_that_are_first()
    ensures values { Gives (firsts same_value) (([], []) ∷ (number 2 ∷ null ∷ number 1 ∷ number 2 ∷ null ∷ number 1 ∷ number 2 ∷ [], number 2 ∷ null ∷ number 1 ∷ []) ∷ []) }
    ensures keys { firsts same_keys ((number 1 ∷ yes ∷ []) ∷ (number 1 ∷ null ∷ []) ∷ (number 1 ∷ yes ∷ []) ∷ (number 2 ∷ yes ∷ []) ∷ (number 1 ∷ null ∷ []) ∷ []) ≡ (number 1 ∷ yes ∷ []) ∷ (number 1 ∷ null ∷ []) ∷ (number 2 ∷ yes ∷ []) ∷ [] }
    ensures same { GivesOfTwo same_keys (
        ([], [], true) ∷ (null ∷ [], null ∷ [], true) ∷ (text "x" ∷ number 1 ∷ [], text "x" ∷ number 1 ∷ [], true) ∷ (list (null ∷ []) ∷ [], list (null ∷ []) ∷ [], true) ∷
        (null ∷ [], number 0 ∷ [], false) ∷ (text "x" ∷ number 1 ∷ [], text "x" ∷ number 2 ∷ [], false) ∷ (yes ∷ [], yes ∷ yes ∷ [], false) ∷ (yes ∷ [], no ∷ [], false) ∷ []) }
{}

/// Items beside the same keys are one group, in order, and groups are in the order in which their keys first occur.
pub fn items_in_groups()
    ensures one_key { groups ((text "b" ∷ []) ∷ (text "a" ∷ []) ∷ (null ∷ []) ∷ (text "b" ∷ []) ∷ (null ∷ []) ∷ []) (0 ∷ 1 ∷ 2 ∷ 3 ∷ 4 ∷ [])
        ≡ group (text "b" ∷ []) (0 ∷ 3 ∷ []) ∷ group (text "a" ∷ []) (1 ∷ []) ∷ group (null ∷ []) (2 ∷ 4 ∷ []) ∷ [] }
    ensures two_keys { groups ((number 1 ∷ yes ∷ []) ∷ (number 1 ∷ no ∷ []) ∷ (number 2 ∷ yes ∷ []) ∷ (number 1 ∷ yes ∷ []) ∷ []) (7 ∷ 5 ∷ 7 ∷ 6 ∷ [])
        ≡ group (number 1 ∷ yes ∷ []) (7 ∷ 6 ∷ []) ∷ group (number 1 ∷ no ∷ []) (5 ∷ []) ∷ group (number 2 ∷ yes ∷ []) (7 ∷ []) ∷ [] }
    ensures no_keys { groups ([] ∷ [] ∷ []) (5 ∷ 6 ∷ []) ≡ group [] (5 ∷ 6 ∷ []) ∷ [] }
    ensures nothing { groups {A = ℕ} [] [] ≡ [] }
    ensures beside { Gives (λ (key : Row). items_beside {A = ℕ} key ((yes ∷ []) ∷ (no ∷ []) ∷ (yes ∷ []) ∷ []) (1 ∷ 2 ∷ 3 ∷ [])) ((yes ∷ [], 1 ∷ 3 ∷ []) ∷ (null ∷ [], []) ∷ []) }
{}

/// Each item is in a group beside its own key, and an item more goes to the end of its group, or into a new one at the end.
pub fn items_of_groups()
    ensures rows { rows_in (group (yes ∷ []) (0 ∷ 2 ∷ []) ∷ group (no ∷ []) (1 ∷ []) ∷ []) ≡ (yes ∷ [], 0) ∷ (yes ∷ [], 2) ∷ (no ∷ [], 1) ∷ [] }
    ensures one_more { Gives (λ (key : Row). with_item key 9 (group (yes ∷ []) (0 ∷ 2 ∷ []) ∷ group (no ∷ []) (1 ∷ []) ∷ [])) (
        (yes ∷ [], group (yes ∷ []) (0 ∷ 2 ∷ 9 ∷ []) ∷ group (no ∷ []) (1 ∷ []) ∷ []) ∷
        (no ∷ [], group (yes ∷ []) (0 ∷ 2 ∷ []) ∷ group (no ∷ []) (1 ∷ 9 ∷ []) ∷ []) ∷
        (null ∷ [], group (yes ∷ []) (0 ∷ 2 ∷ []) ∷ group (no ∷ []) (1 ∷ []) ∷ group (null ∷ []) (9 ∷ []) ∷ []) ∷ []) }
    ensures apart { AreApart [] × AreApart ((yes ∷ []) ∷ (null ∷ []) ∷ (no ∷ []) ∷ []) }
    ensures not_apart { ¬ (AreApart ((yes ∷ []) ∷ (no ∷ []) ∷ (yes ∷ []) ∷ [])) }
    ensures empty { ¬ (AreGroupsOf {A = ℕ} [] [] (group [] [] ∷ [])) }
    ensures twice { ¬ (AreGroupsOf ((yes ∷ []) ∷ (yes ∷ []) ∷ []) (1 ∷ 2 ∷ []) (group (yes ∷ []) (1 ∷ []) ∷ group (yes ∷ []) (2 ∷ []) ∷ [])) }
{}
