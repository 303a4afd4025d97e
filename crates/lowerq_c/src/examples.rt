//! Worked examples of the definitions. The function does nothing: its clauses are the examples.
ghost use Rattle.std.specs.Prelude.{◌≡◌, [], ◌∷◌};
ghost use Rattle.lowerq_c.specs.Calls.{overwritten};

/// A short text leaves what is behind it, a long one is cut, and no text changes nothing.
pub fn buffer_examples()
    ensures short { overwritten (1 ∷ 2 ∷ []) (7 ∷ 8 ∷ 9 ∷ []) ≡ 1 ∷ 2 ∷ 9 ∷ [] }
    ensures as_long { overwritten (1 ∷ 2 ∷ []) (8 ∷ 9 ∷ []) ≡ 1 ∷ 2 ∷ [] }
    ensures long { overwritten (1 ∷ 2 ∷ 3 ∷ []) (9 ∷ []) ≡ 1 ∷ [] }
    ensures no_text { overwritten [] (8 ∷ 9 ∷ []) ≡ 8 ∷ 9 ∷ [] }
    ensures no_room { overwritten (1 ∷ 2 ∷ []) [] ≡ [] }
{}
