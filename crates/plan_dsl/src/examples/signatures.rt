//! What signatures ask of operands, and what rules make of that.

ghost use Rattle.std.specs.Prelude.{◌≡◌, ℕ, List, [], ◌∷◌, pos, true, false, map, Some, None, Result, Ok, Err};
ghost use Rattle.plan_types.specs.Types.{Ty, NullType, Truth, TextType, DateType, ListType, Untyped};
ghost use Rattle.plan_types.specs.declared.error.ErrorKind.{ErrorKind};
ghost use Rattle.plan_types.specs.declared.error.ErrorKind.TheVariants.{SchemaMismatch, InvalidOperation, ComputeError};
ghost use Rattle.plan_types.specs.declared.dtype.CastOptions.TheVariants.{Strict};
ghost use Rattle.plan_dsl.specs.declared.operator.Operator.TheVariants.{Plus};
ghost use Rattle.plan_dsl.specs.declared.signature.Ask.TheVariants.{Any, Sortable, Boolean, Place, Length};
ghost use Rattle.plan_dsl.specs.declared.signature.OwnType.TheVariants.{First, Item, ListOf, Count};
ghost use Rattle.plan_dsl.specs.declared.signature.Many.TheVariants.{Never, Always, AsFirst, WhereAny};
ghost use Rattle.plan_dsl.specs.declared.signature.Sharing.TheVariants.{Alone};
ghost use Rattle.plan_dsl.specs.declared.signature.Signature.{Signature};
ghost use Rattle.plan_dsl.specs.Ops.{BinaryOp, CastOp, LenOp, SliceOp, ExplodeOp, GatherOp, FilterOp, SortOp, SortByOp};
ghost use Rattle.plan_dsl.specs.Signatures.{asked_at, asked_target, asks, asks_one, bare_kinds, is_asked, own_type, signature, takes};
ghost use Rattle.plan_dsl.specs.Sorting.{are_for};
ghost use Rattle.plan_dsl.specs.Typing.{Typed, Ruling, first_of, many_of, own_over, signed, taken_by, taken_from, typed_to};
ghost use Rattle.plan_dsl.specs.Samples.{Gives, GivesOfTwo, int8, int16, int32, int64, uint32, uint64, moment, one_field, one_value, many_values, rising};

/// What is asked of a type: any, one in an order, of truth values, of places, or of lengths. Null is in order with itself.
pub fn types_that_are_asked()
    ensures any { map (is_asked Any) (NullType ∷ int8 ∷ ListType int8 ∷ []) ≡ true ∷ true ∷ true ∷ [] }
    ensures sortable { Gives (is_asked Sortable) (
        (NullType, true) ∷ (Truth, true) ∷ (uint64, true) ∷ (TextType, true) ∷ (DateType, true) ∷ (moment, true) ∷
        (ListType int8, false) ∷ (one_field "a" int8, false) ∷ []) }
    ensures truth { Gives (is_asked Boolean) ((NullType, true) ∷ (Truth, true) ∷ (int8, false) ∷ (TextType, false) ∷ []) }
    ensures place { Gives (is_asked Place) ((int8, true) ∷ (uint64, true) ∷ (NullType, false) ∷ (Truth, false) ∷ (DateType, false) ∷ []) }
    ensures length { Gives (is_asked Length) ((int8, true) ∷ (NullType, true) ∷ (Truth, false) ∷ (TextType, false) ∷ []) }
    ensures targets { GivesOfTwo asked_target (
        (Any, ListType int8, ListType int8) ∷ (Sortable, TextType, TextType) ∷ (Sortable, NullType, NullType) ∷ (Boolean, NullType, Truth) ∷
        (Boolean, Truth, Truth) ∷ (Place, int8, int64) ∷ (Length, NullType, int64) ∷ (Length, uint64, int64) ∷ []) }
    ensures own { GivesOfTwo own_type (
        (First, int8, int8) ∷ (Item, ListType (ListType int8), ListType int8) ∷ (Item, int8, int8) ∷ (ListOf, int8, ListType int8) ∷ (Count, TextType, uint32) ∷ []) }
{}

/// An operand is asked for the type that it has alone, and maybe to be one. The types to which all are taken, or none.
pub fn operands_that_are_asked()
    ensures alone { GivesOfTwo (taken_by None) (
        (asks Any, many_values TextType, Some TextType) ∷ (asks Any, one_value (Untyped (pos 5)), Some int32) ∷
        (asks Any, one_value (Untyped (pos 18446744073709551616)), None) ∷ (asks Sortable, many_values (ListType int8), None) ∷
        (asks Boolean, many_values NullType, Some Truth) ∷ (asks Boolean, one_value (Untyped (pos 1)), None) ∷
        (asks Place, many_values int8, Some int64) ∷ (asks_one Place, many_values int8, None) ∷ (asks_one Place, one_value int8, Some int64) ∷
        (asks_one Place, one_value (Untyped (pos 9223372036854775808)), Some int64) ∷ (asks_one Length, one_value NullType, Some int64) ∷ []) }
    ensures places { let each : Signature = record { first = asks Any; second = asks_one Place; rest = asks Sortable; own = First; many = Never; sharing = Alone } in
        map (asked_at each) (0 ∷ 1 ∷ 2 ∷ 7 ∷ []) ≡ asks Any ∷ asks_one Place ∷ asks Sortable ∷ asks Sortable ∷ [] }
    ensures all { let keys : Signature = record { first = asks Any; second = asks Sortable; rest = asks Sortable; own = First; many = AsFirst; sharing = Alone } in
        GivesOfTwo (taken_from NullType keys) (
        (0, [], Some []) ∷ (0, many_values (ListType int8) ∷ one_value (Untyped (pos 1)) ∷ many_values TextType ∷ [], Some (ListType int8 ∷ int32 ∷ TextType ∷ [])) ∷
        (1, many_values (ListType int8) ∷ [], None) ∷ (0, many_values int8 ∷ many_values int8 ∷ many_values (ListType int8) ∷ [], None) ∷ []) }
    ensures many { GivesOfTwo many_of (
        (Never, many_values int8 ∷ [], false) ∷ (Always, one_value int8 ∷ [], true) ∷
        (AsFirst, many_values int8 ∷ one_value int8 ∷ [], true) ∷ (AsFirst, one_value int8 ∷ many_values int8 ∷ [], false) ∷ (AsFirst, [], false) ∷
        (WhereAny, one_value int8 ∷ many_values int8 ∷ [], true) ∷ (WhereAny, one_value int8 ∷ one_value int8 ∷ [], false) ∷ (WhereAny, [], false) ∷ []) }
    ensures first { Gives first_of ((many_values int8 ∷ one_value int16 ∷ [], many_values int8) ∷ ([], one_value NullType) ∷ []) }
{}

/// A signature's rule: the types to which it takes operands, and its own typing, or why it refuses them.
pub fn rules_of_signatures()
    ensures own { let filter : Signature = record { first = asks Any; second = asks Boolean; rest = asks Any; own = First; many = Always; sharing = Alone } in
        let lists : Signature = record { first = asks Sortable; second = asks Any; rest = asks Any; own = ListOf; many = AsFirst; sharing = Alone } in
        GivesOfTwo own_over (
        (filter, one_value int8 ∷ many_values Truth ∷ [], many_values int8) ∷ (lists, one_value int8 ∷ [], one_value (ListType int8)) ∷ []) }
    ensures ruled { let ruling : List Ty → Typed → Result Ruling ErrorKind = λ operands own. Ok (record { operands = operands; own = own }) in
        GivesOfTwo signed (
        (takes (asks Any) (asks Boolean) (asks Any) First Always, one_value (Untyped (pos 5)) ∷ many_values NullType ∷ [], ruling (int32 ∷ Truth ∷ []) (many_values int32)) ∷
        (takes (asks Any) (asks Any) (asks Any) Item Always, many_values (ListType TextType) ∷ [], ruling (ListType TextType ∷ []) (many_values TextType)) ∷
        (takes (asks Sortable) (asks Any) (asks Any) First AsFirst, many_values (ListType int8) ∷ [], Err InvalidOperation) ∷
        (takes (asks Sortable) (asks Any) (asks Any) First AsFirst, one_value (Untyped (pos 5)) ∷ [], ruling (int32 ∷ []) (one_value int32)) ∷
        (takes (asks Any) (asks Place) (asks Any) First Always, many_values int8 ∷ one_value (Untyped (pos 5)) ∷ [], ruling (int8 ∷ int64 ∷ []) (many_values int8)) ∷
        (takes (asks Any) (asks_one Place) (asks Any) First Never, many_values int8 ∷ one_value int8 ∷ [], ruling (int8 ∷ int64 ∷ []) (one_value int8)) ∷
        (takes (asks Any) (asks_one Place) (asks Any) First Never, many_values int8 ∷ many_values int8 ∷ [], Err InvalidOperation) ∷ (
          takes (asks Any) (asks Sortable) (asks Sortable) First AsFirst,
          many_values (ListType int8) ∷ one_value (Untyped (pos 5)) ∷ many_values TextType ∷ [],
          ruling (ListType int8 ∷ int32 ∷ TextType ∷ []) (many_values (ListType int8)),
        ) ∷
        (takes (asks Any) (asks Sortable) (asks Sortable) First AsFirst, one_value int8 ∷ many_values int8 ∷ [], ruling (int8 ∷ int8 ∷ []) (one_value int8)) ∷
        (takes (asks Any) (asks Sortable) (asks Sortable) First AsFirst, many_values int8 ∷ many_values int8 ∷ many_values (ListType int8) ∷ [], Err InvalidOperation) ∷
        (Err SchemaMismatch, many_values int8 ∷ [], Err SchemaMismatch) ∷ []) }
    ensures numbers { let none : Result Signature ErrorKind = Err SchemaMismatch in
        GivesOfTwo signature (
        (LenOp, 0, takes (asks Any) (asks Any) (asks Any) Count Never) ∷ (LenOp, 1, none) ∷
        (SliceOp, 3, takes (asks Any) (asks_one Place) (asks_one Length) First Always) ∷ (SliceOp, 0, none) ∷ (SliceOp, 2, none) ∷ (SliceOp, 4, none) ∷
        (ExplodeOp, 1, takes (asks Any) (asks Any) (asks Any) Item Always) ∷ (ExplodeOp, 0, none) ∷ (ExplodeOp, 2, none) ∷
        (GatherOp false, 2, takes (asks Any) (asks Place) (asks Any) First Always) ∷ (GatherOp true, 2, takes (asks Any) (asks_one Place) (asks Any) First Never) ∷
        (GatherOp false, 1, none) ∷ (GatherOp true, 3, none) ∷
        (FilterOp, 2, takes (asks Any) (asks Boolean) (asks Any) First Always) ∷ (FilterOp, 1, none) ∷ (FilterOp, 3, none) ∷
        (SortOp rising, 1, takes (asks Sortable) (asks Any) (asks Any) First AsFirst) ∷ (SortOp rising, 0, none) ∷ (SortOp rising, 2, none) ∷
        (BinaryOp Plus, 3, none) ∷ (CastOp int8 Strict, 2, none) ∷ []) }
{}

/// A sort by keys has one flag of a kind, or one for each key. Others are refused, also where an operand has no type.
pub fn flags_of_keys()
    ensures counts { Gives (λ keys. map (λ flags. are_for flags keys) ([] ∷ (true ∷ []) ∷ (true ∷ false ∷ []) ∷ (true ∷ false ∷ true ∷ []) ∷ [])) (
        (0, true ∷ true ∷ false ∷ false ∷ []) ∷ (1, false ∷ true ∷ false ∷ false ∷ []) ∷ (2, false ∷ true ∷ true ∷ false ∷ []) ∷ (3, false ∷ true ∷ false ∷ true ∷ []) ∷ []) }
    ensures numbers { let keys = takes (asks Any) (asks Sortable) (asks Sortable) First AsFirst in
        let refused : Result Signature ErrorKind = Err ComputeError in
        GivesOfTwo signature (
        (SortByOp (true ∷ []) (false ∷ []), 1, keys) ∷ (SortByOp (true ∷ []) (false ∷ []), 2, keys) ∷ (SortByOp (true ∷ []) (false ∷ []), 4, keys) ∷
        (SortByOp (true ∷ false ∷ []) (false ∷ []), 3, keys) ∷ (SortByOp (true ∷ false ∷ []) (false ∷ true ∷ []), 3, keys) ∷ (SortByOp [] (true ∷ []), 1, keys) ∷ (SortByOp [] [], 1, keys) ∷
        (SortByOp (true ∷ false ∷ []) (false ∷ []), 2, refused) ∷ (SortByOp (true ∷ []) (false ∷ true ∷ []), 4, refused) ∷ (SortByOp [] (true ∷ []), 2, refused) ∷
        (SortByOp (true ∷ false ∷ []) (true ∷ []), 1, refused) ∷ (SortByOp (true ∷ []) (true ∷ []), 0, Err SchemaMismatch) ∷ []) }
    ensures bare { GivesOfTwo bare_kinds (
        (SortByOp (true ∷ []) (false ∷ []), 2, []) ∷ (SortByOp (true ∷ false ∷ []) (false ∷ []), 2, ComputeError ∷ []) ∷ (SortByOp (true ∷ []) (true ∷ []), 0, []) ∷
        (SortOp rising, 2, []) ∷ (BinaryOp Plus, 3, []) ∷ []) }
{}
