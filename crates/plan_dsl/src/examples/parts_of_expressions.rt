//! Parts of what expressions give and become, each by itself.

ghost use Rattle.std.specs.Prelude.{◌≡◌, List, [], ◌∷◌, pos, map, codes, true, false, Result, Ok, Err};
ghost use Rattle.plan_types.specs.Types.{Ty, NullType, Truth, TextType, ListType, Untyped};
ghost use Rattle.plan_types.specs.Outcomes.{Done, Fault, Stuck};
ghost use Rattle.plan_types.specs.Frames.{empty_frame};
ghost use Rattle.plan_types.specs.declared.dtype.CastOptions.TheVariants.{Strict, NonStrict};
ghost use Rattle.plan_types.specs.declared.error.ErrorKind.{ErrorKind};
ghost use Rattle.plan_types.specs.declared.error.ErrorKind.TheVariants.{ColumnNotFound, InvalidOperation};
ghost use Rattle.plan_dsl.specs.declared.operator.Operator.TheVariants.{Plus, Lt};
ghost use Rattle.plan_dsl.specs.Trees.{no_more, more};
ghost use Rattle.plan_dsl.specs.Ops.{ColumnOp, LiteralOp, BinaryOp, CastOp};
ghost use Rattle.plan_dsl.specs.Typing.{Typed, Ruling, rule, typed_to, typing_rule};
ghost use Rattle.plan_dsl.specs.Kernels.{Meaning, given, cast_meaning, column_values, kernel};
ghost use Rattle.plan_dsl.specs.Meaning.{taken_to};
ghost use Rattle.plan_dsl.specs.Strictness.{same_types, as_operands};
ghost use Rattle.plan_dsl.specs.Samples.{Gives, GivesOfTwo, GivesAll, int8, int16, int32, uint8, null, yes, number, text, a, t, literal, typed_literal, cast_as, one_value, many_values, of_many, frame_with};

/// The types to which each kind of node takes its operands, and its own.
pub fn types_of_operands()
    ensures taken { let taken : List Ty → Typed → Result Ruling ErrorKind = λ operands own. Ok (record { operands = operands; own = own }) in
        GivesOfTwo (rule [] ((codes "a", Truth) ∷ (codes "b", TextType) ∷ [])) (
        (ColumnOp (codes "b"), [], taken [] (many_values TextType)) ∷
        (ColumnOp (codes "A"), [], Err ColumnNotFound) ∷
        (LiteralOp int8 (number 1), [], taken [] (one_value int8)) ∷
        (LiteralOp (Untyped (pos 1)) (number 1), [], taken [] (one_value (Untyped (pos 1)))) ∷
        (BinaryOp Lt, many_values int8 ∷ one_value (Untyped (pos 300)) ∷ [], taken (int16 ∷ int16 ∷ []) (many_values Truth)) ∷
        (CastOp TextType Strict, many_values int8 ∷ [], taken (int8 ∷ []) (many_values TextType)) ∷
        (CastOp int8 NonStrict, one_value (Untyped (pos 5)) ∷ [], taken (int32 ∷ []) (one_value int8)) ∷ []) }
    ensures no_cast { GivesAll (λ target. rule [] [] (CastOp target Strict) (one_value TextType ∷ [])) (Err InvalidOperation) (
        Truth ∷ NullType ∷ ListType TextType ∷ Untyped (pos 1) ∷ []) }
    ensures typed_again { GivesOfTwo typed_to (
        (many_values int8 ∷ one_value (Untyped (pos 5)) ∷ [], int16 ∷ int32 ∷ [], many_values int16 ∷ one_value int32 ∷ []) ∷
        ([], [], []) ∷ (many_values int8 ∷ [], [], []) ∷ ([], int16 ∷ [], []) ∷ []) }
    ensures length_of_a_rule { typing_rule [] [] (BinaryOp Plus) (one_value int8 ∷ many_values int16 ∷ []) ≡ of_many int16 }
{}

/// Operands are cast to their types, not strictly: what has no place there is null.
pub fn operands_taken_to_types()
    ensures each { let wide : Meaning = λ rows. Done (number 300 ∷ number 5 ∷ []) in
        let truths : Meaning = λ rows. Done (yes ∷ null ∷ []) in
        map (λ operand. operand []) (taken_to (int16 ∷ Truth ∷ []) (int8 ∷ int8 ∷ []) (wide ∷ truths ∷ []))
        ≡ Done (null ∷ number 5 ∷ []) ∷ Done (number 1 ∷ null ∷ []) ∷ [] }
    ensures own_types { let wide : Meaning = λ rows. Done (number 300 ∷ []) in
        let faulty : Meaning = λ rows. Fault in
        map (λ operand. operand []) (taken_to (int16 ∷ Truth ∷ []) (int16 ∷ Truth ∷ []) (wide ∷ faulty ∷ [])) ≡ Done (number 300 ∷ []) ∷ Fault ∷ [] }
    ensures none { map (λ operand. operand []) (taken_to [] [] []) ≡ [] }
{}

/// What casts, columns and operators give of what their operands give, each evaluated once.
pub fn parts_of_kernels()
    ensures casts { GivesOfTwo (λ options found. cast_meaning int16 int8 options (λ rows. found) []) (
        (Strict, Done (number 5 ∷ number 300 ∷ []), Fault) ∷
        (NonStrict, Done (number 300 ∷ number 5 ∷ []), Done (null ∷ number 5 ∷ [])) ∷
        (Strict, Done [], Done []) ∷ (Strict, Fault, Fault) ∷ (Strict, Stuck, Stuck) ∷ []) }
    ensures columns { let texts = frame_with ((codes "a", int8) ∷ (codes "b", TextType) ∷ []) ((number 1 ∷ text "x" ∷ []) ∷ (number 2 ∷ null ∷ []) ∷ []) in
        column_values texts (codes "b") (1 ∷ 0 ∷ 0 ∷ []) ≡ null ∷ text "x" ∷ text "x" ∷ [] }
    ensures two_outcomes { let one = number 1 ∷ [] in
        GivesOfTwo (λ left right. given ((λ rows. left) ∷ (λ rows. right) ∷ []) []) (
        (Done one, Done one, Done (one ∷ one ∷ [])) ∷
        (Fault, Stuck, Fault) ∷ (Stuck, Fault, Stuck) ∷ (Done one, Fault, Fault) ∷ (Done one, Stuck, Stuck) ∷ []) }
    ensures wrong_numbers { let one = number 1 ∷ [] in
        Gives (kernel [] empty_frame [] (BinaryOp Plus) (int8 ∷ int8 ∷ []) int8) (
        ([], Stuck) ∷ (one ∷ [], Stuck) ∷ (one ∷ one ∷ [], Done (number 2 ∷ [])) ∷ (one ∷ one ∷ one ∷ [], Stuck) ∷ []) }
{}

/// Types side by side, and operands made of types.
pub fn operands_made_of_types()
    ensures same { GivesOfTwo same_types (
        (int8 ∷ TextType ∷ [], int8 ∷ TextType ∷ [], true) ∷
        (int8 ∷ TextType ∷ [], TextType ∷ int8 ∷ [], false) ∷
        (int8 ∷ TextType ∷ [], int8 ∷ [], false) ∷
        (int8 ∷ TextType ∷ [], int8 ∷ TextType ∷ Truth ∷ [], false) ∷
        (int8 ∷ TextType ∷ [], uint8 ∷ TextType ∷ [], false) ∷
        ([], [], true) ∷ []) }
    ensures made { as_operands (int8 ∷ Untyped (pos 5) ∷ Truth ∷ []) (int16 ∷ int16 ∷ Truth ∷ []) (more a (more (literal (pos 5)) (more t no_more)))
        ≡ more (cast_as NonStrict int16 a) (more (typed_literal int16 (pos 5)) (more t no_more)) }
{}
