//! Types and refusals of expressions, and tables that keep types by node.

ghost use Rattle.std.specs.Prelude.{◌≡◌, ℕ, [], ◌∷◌, map, true, false, pos, codes, Some, None};
ghost use Rattle.plan_types.specs.Types.{NullType, Truth, Integer, TextType, DateType, TimeType, DatetimeType, DurationType, ListType, StructType, Untyped, no_field, with_field};
ghost use Rattle.plan_types.specs.Errors.{IsRefusal, no_memory, at_top};
ghost use Rattle.std.specs.Global.{Vec};
ghost use Rattle.plan_types.specs.declared.dtype.DataType.{DataType};
ghost use Rattle.plan_types.specs.declared.dtype.DataType.TheVariants.{Int8, Int16, Int32};
ghost use Rattle.plan_types.specs.declared.dtype.TimeUnit.TheVariants.{Nanoseconds, Microseconds};
ghost use Rattle.plan_types.specs.declared.error.ErrorKind.TheVariants.{ColumnNotFound, SchemaMismatch, InvalidOperation};
ghost use Rattle.plan_dsl.specs.declared.operator.Operator.TheVariants.{And, Eq, Lt, GtEq, Plus};
ghost use Rattle.plan_dsl.specs.Typing.{typing};
ghost use Rattle.plan_dsl.specs.Ops.{BinaryOp, ColumnOp};
ghost use Rattle.plan_dsl.specs.Samples.{over, over_by, rising};
ghost use Rattle.plan_infer.specs.declared.type_table.TypeTable.{TypeTable};
ghost use Rattle.plan_infer.specs.KeptTypes.{AllKept, AreOperands, Extends, GivesName, HasRightTypes, IsKept, IsNamedBy, IsRight, IsRuled, IsTypedNode, Keeps, KeepsEntry, KeepsTyped, TakesTo, kept_count, name_at, node_depth, some_count, typings_at};
ghost use Rattle.plan_infer.specs.Fields.{IsFieldOf, type_in};
ghost use Rattle.plan_infer.specs.Operands.{common_integer};
ghost use Rattle.plan_infer.specs.TakenTypes.{kept_types};
ghost use Rattle.plan_infer.specs.declared.taken_types.Kept.TheVariants.{Nothing, Both, Listed};
ghost use Rattle.plan_infer.specs.declared.field.Context.TheVariants.{Default, Aggregation};
ghost use Rattle.plan_types.specs.declared.field.Field.{Field};
ghost use Rattle.plan_infer.specs.Typed.{HasType, HasKnownType, IsNodeRefusal};
ghost use Rattle.plan_infer.specs.Samples.{int8, int16, int32, int64, one_column, two_columns, columns_of, struct_of, a, b, c, number, five, binary, cast_to, strictly_cast_to, sum_items, a_items, pair, of_one, of_type, refused, sum, ForEntry, ForTable, HaveTypes, AreRefused};

/// What typing an expression says: its type, and whether that is one of columns. Casts have their target's type.
pub fn types_of_expressions()
    ensures types { HaveTypes ((one_column int8, a, int8) ∷ ([], five, Untyped (pos 5)) ∷ []) }
    ensures other_type { ¬ (HasType (typing [] (one_column int8) a) int16) }
    ensures no_such_column { ¬ (HasType (typing [] (one_column int8) c) int8) }
    ensures known { HasKnownType (typing [] (one_column int8) a) }
    ensures number_is_not_known { ¬ (HasKnownType (typing [] [] five)) }
    ensures nothing_is_known { ¬ (HasKnownType (typing [] (one_column int8) c)) }
    ensures casts { HaveTypes ((one_column int64, strictly_cast_to (DatetimeType Microseconds) a, DatetimeType Microseconds) ∷
        ([], strictly_cast_to (DurationType Nanoseconds) (number (pos 3000000000)), DurationType Nanoseconds) ∷
        (one_column TextType, cast_to int8 a, int8) ∷ (one_column NullType, cast_to DateType a, DateType) ∷ []) }
    ensures lists { HaveTypes ((columns_of (ListType int8) (ListType int64), binary Eq a b, Truth) ∷
        (one_column (ListType int8), cast_to (ListType TextType) a, ListType TextType) ∷
        (one_column NullType, strictly_cast_to (ListType DateType) a, ListType DateType) ∷ []) }
    ensures structs { let two = StructType (with_field (codes "x") int8 (with_field (codes "y") TextType no_field)) in
        let target = struct_of (codes "y") TextType in
        HaveTypes ((one_column two, a, two) ∷ (one_column (struct_of (codes "x") int8), strictly_cast_to target a, target) ∷ []) }
    ensures windows { HaveTypes ((columns_of int8 TextType, over (b ∷ []) a, int8) ∷ (columns_of int8 TextType, over_by rising a (b ∷ []) b, TextType) ∷
        (columns_of int8 (ListType int8), over (a ∷ []) b, ListType int8) ∷ []) }
{}

/// Two integer types that differ have a common type where the operator gives it. Of unsigned and signed ones that is a
/// wider signed one, and there is none over 64 bits.
pub fn common_types_of_integers()
    ensures wider { common_integer Plus int8 int64 ≡ Some int64 }
    ensures of_two_signs { common_integer And (Integer false 8) int8 ≡ Some int16 }
    ensures no_wider { common_integer Plus (Integer false 64) int64 ≡ None }
    ensures one_type { common_integer Plus int8 int8 ≡ None }
    ensures comparison { common_integer Lt int8 int64 ≡ None }
    ensures no_integers { common_integer Plus TextType TextType ≡ None }
{}

/// The types to which operands are taken are none, one of both, or those of a list.
pub fn types_that_operands_are_taken_to()
    ensures none { kept_types Nothing ≡ [] }
    ensures both { kept_types (Both Int8) ≡ Int8 ∷ Int8 ∷ [] }
    ensures listed { (types : Vec DataType) → types.items ≡ Int8 ∷ Int16 ∷ Int32 ∷ [] → kept_types (Listed types) ≡ Int8 ∷ Int16 ∷ Int32 ∷ [] }
{}

/// A refusal of an expression is the kind that its typing gives, at the top, or out of memory.
pub fn refusals_of_expressions()
    ensures no_such_column { AreRefused ColumnNotFound ((one_column int8, c) ∷ []) }
    ensures memory { IsRefusal (typing [] (one_column int8) a) no_memory }
    ensures other_kind { ¬ (IsRefusal (typing [] (one_column int8) c) (at_top SchemaMismatch)) }
    ensures other_place { ¬ (IsRefusal (typing [] (one_column int8) c) (refused ColumnNotFound (0 ∷ []))) }
    ensures of_what_is_typed { ¬ (IsRefusal (typing [] (one_column int8) a) (at_top ColumnNotFound)) }
    ensures of_a_node { IsNodeRefusal [] [] a_items 0 (at_top ColumnNotFound) }
    ensures of_a_typed_node { ¬ (IsNodeRefusal [] (one_column int8) a_items 0 (at_top ColumnNotFound)) }
    ensures texts_and_times { AreRefused InvalidOperation ((columns_of TextType int32, binary Eq a b) ∷
        (columns_of (DatetimeType Nanoseconds) TextType, binary Lt a b) ∷ (one_column DateType, binary Plus a a) ∷
        (one_column TextType, binary Plus a five) ∷ (one_column TextType, cast_to DateType a) ∷ ([], strictly_cast_to TimeType five) ∷ []) }
    ensures lists { AreRefused InvalidOperation ((one_column (ListType int8), binary Lt a a) ∷ (one_column (ListType int8), binary Plus a a) ∷
        (one_column (ListType int8), cast_to (ListType DateType) a) ∷ ([], cast_to (ListType int32) five) ∷ []) }
    ensures structs { AreRefused InvalidOperation ((columns_of NullType (StructType no_field), binary GtEq a b) ∷
        (one_column (struct_of (codes "x") int8), binary Plus a five) ∷ []) }
    ensures windows { AreRefused InvalidOperation ((one_column int8, over [] a) ∷ (one_column int8, over_by rising a [] a) ∷
        (one_column (ListType int8), over_by rising a (a ∷ []) a) ∷ []) }
    ensures no_common_type { AreRefused SchemaMismatch ((columns_of DateType TimeType, binary Eq a b) ∷
        (columns_of (ListType TextType) TextType, binary Lt a b) ∷
        (columns_of (struct_of (codes "x") Truth) (struct_of (codes "y") Truth), binary Eq a b) ∷ []) }
{}

/// A table keeps what is inferred of nodes from its first number on.
pub fn entries_that_tables_keep()
    ensures kept { ForEntry 2 Int8 true [] (λ own. ForTable 2 (Some own ∷ None ∷ []) (λ table. KeepsEntry table 2 own)) }
    ensures its_type { ForEntry 2 Int8 true [] (λ own. ForTable 2 (Some own ∷ None ∷ []) (λ table. Keeps table 2 Int8)) }
    ensures other_type { ForEntry 2 Int8 true [] (λ own. ForTable 2 (Some own ∷ None ∷ []) (λ table. ¬ (Keeps table 2 Int16))) }
    ensures empty_place { ForEntry 2 Int8 true [] (λ own. ForTable 2 (Some own ∷ None ∷ []) (λ table. ¬ (IsKept table 3))) }
    ensures past_the_end { ForEntry 2 Int8 true [] (λ own. ForTable 2 (Some own ∷ None ∷ []) (λ table. ¬ (IsKept table 4))) }
    ensures before_the_first { ForEntry 2 Int8 true [] (λ own. ForTable 2 (Some own ∷ None ∷ []) (λ table. ¬ (IsKept table 1))) }
{}

/// Operand types are kept where the operands are taken to others.
pub fn operand_types_that_are_kept()
    ensures to_others { AreOperands (int32 ∷ int32 ∷ []) (int8 ∷ int32 ∷ []) (int32 ∷ int32 ∷ []) }
    ensures as_they_are { AreOperands [] (int8 ∷ int8 ∷ []) (int8 ∷ int8 ∷ []) }
    ensures missing { ¬ (AreOperands [] (int8 ∷ int32 ∷ []) (int32 ∷ int32 ∷ [])) }
    ensures wrong { ¬ (AreOperands (int8 ∷ int32 ∷ []) (int8 ∷ int32 ∷ []) (int32 ∷ int32 ∷ [])) }
{}

/// A name comes from the leftmost leaf.
pub fn nodes_that_give_names()
    ensures column { GivesName a_items 0 a }
    ensures left_operand { GivesName sum_items 0 sum }
    ensures right_operand { ¬ (GivesName sum_items 1 sum) }
    ensures operator { ¬ (GivesName sum_items 2 sum) }
{}

/// A node is named as its first input is, or gives the name itself.
pub fn nodes_that_are_named()
    ensures column { ForTable 0 [] (λ table. IsNamedBy table (ColumnOp (codes "a")) 0 [] 0) }
    ensures sum { ForEntry 0 Int8 true [] (λ left. ForTable 0 (Some left ∷ []) (λ table. IsNamedBy table (BinaryOp Plus) 2 (0 ∷ 1 ∷ []) 0)) }
    ensures by_its_second { ForEntry 0 Int8 true [] (λ left. ForTable 0 (Some left ∷ []) (λ table. ¬ (IsNamedBy table (BinaryOp Plus) 2 (0 ∷ 1 ∷ []) 1))) }
{}

/// A table is right where what it keeps of a node is its name, typing and operand types, and something is kept of its
/// inputs.
pub fn tables_that_are_right()
    ensures node_of_a_sum { ForEntry 0 Int8 true [] (λ left. ForEntry 1 Int32 true [] (λ right. ForEntry 0 Int32 true (Int32 ∷ Int32 ∷ []) (λ own.
        ForTable 0 (Some left ∷ Some right ∷ []) (λ table. IsTypedNode [] two_columns sum_items table 2 own)))) }
    ensures without_operand_types { ForEntry 0 Int8 true [] (λ left. ForEntry 1 Int32 true [] (λ right. ForEntry 0 Int32 true [] (λ own.
        ForTable 0 (Some left ∷ Some right ∷ []) (λ table. ¬ (IsTypedNode [] two_columns sum_items table 2 own))))) }
    ensures over_an_input_without { ForEntry 0 Int8 true [] (λ left. ForEntry 0 Int32 true (Int32 ∷ Int32 ∷ []) (λ own.
        ForTable 0 (Some left ∷ None ∷ []) (λ table. ¬ (IsTypedNode [] two_columns sum_items table 2 own)))) }
    ensures other_name { ForEntry 1 Int32 true (Int32 ∷ Int32 ∷ []) (λ own. (table : TypeTable) → ¬ (IsTypedNode [] two_columns sum_items table 2 own)) }
    ensures column { ForEntry 0 Int8 true [] (λ own. (table : TypeTable) → IsTypedNode [] (one_column int8) a_items table 0 own) }
    ensures other_type { ForEntry 0 Int16 true [] (λ own. (table : TypeTable) → ¬ (IsTypedNode [] (one_column int8) a_items table 0 own)) }
    ensures one_alone { ForEntry 0 Int8 false [] (λ own. (table : TypeTable) → ¬ (IsTypedNode [] (one_column int8) a_items table 0 own)) }
    ensures nothing { ForTable 0 [] (λ table. IsRight [] [] a_items table) }
    ensures something { ForEntry 0 Int8 true [] (λ own. ForTable 0 (Some own ∷ []) (λ table. IsRight [] (one_column int8) a_items table)) }
    ensures of_another_type { ForEntry 0 Int16 true [] (λ own. ForTable 0 (Some own ∷ []) (λ table. ¬ (IsRight [] (one_column int8) a_items table))) }
    ensures over_some_schema { ForEntry 0 Int8 true [] (λ own. ForTable 0 (Some own ∷ []) (HasRightTypes a_items)) }
    ensures over_no_schema { ForEntry 0 Int8 false [] (λ own. ForTable 0 (Some own ∷ []) (λ table. ¬ (HasRightTypes a_items table))) }
{}

/// What is kept of some nodes: their typings, the name of the first, and what a rule or an item makes of them.
pub fn typings_that_are_kept()
    ensures typed { ForEntry 0 Int8 true [] (λ own. ForTable 0 (Some own ∷ []) (λ table. KeepsTyped table 0 (of_type int8))) }
    ensures otherwise { ForEntry 0 Int8 true [] (λ own. ForTable 0 (Some own ∷ []) (λ table. ¬ (KeepsTyped table 0 (of_one int8)))) }
    ensures all { ForEntry 0 Int8 true [] (λ own. ForTable 4 (Some own ∷ Some own ∷ []) (λ table. AllKept table (5 ∷ 4 ∷ []) (of_type int8 ∷ of_type int8 ∷ []))) }
    ensures too_few { (table : TypeTable) → ¬ (AllKept table (0 ∷ []) []) }
    ensures places { ForEntry 0 Int8 true [] (λ own. ForTable 4 (Some own ∷ None ∷ []) (λ table. typings_at table (4 ∷ 5 ∷ 6 ∷ []) ≡ of_type int8 ∷ of_one NullType ∷ of_one NullType ∷ [])) }
    ensures first_name { ForEntry 3 Int8 true [] (λ own. ForTable 4 (Some own ∷ []) (λ table. name_at table 7 (4 ∷ 5 ∷ []) ≡ 3)) }
    ensures own_name { (table : TypeTable) → name_at table 7 [] ≡ 7 }
    ensures ruled { ForEntry 0 Int32 true (Int32 ∷ Int32 ∷ []) (IsRuled [] [] (BinaryOp Plus) (of_type int8 ∷ of_type int32 ∷ [])) }
    ensures otherwise_ruled { ForEntry 0 Int8 true (Int32 ∷ Int32 ∷ []) (λ own. ¬ (IsRuled [] [] (BinaryOp Plus) (of_type int8 ∷ of_type int32 ∷ []) own)) }
    ensures taken { ForEntry 0 Int8 true [] (λ left. ForEntry 1 Int32 true [] (λ right. ForTable 0 (Some left ∷ Some right ∷ []) (λ table. TakesTo [] [] table (pair 0 Plus 1) (int32 ∷ int32 ∷ [])))) }
    ensures otherwise_taken { ForEntry 0 Int8 true [] (λ left. ForEntry 1 Int32 true [] (λ right. ForTable 0 (Some left ∷ Some right ∷ []) (λ table. ¬ (TakesTo [] [] table (pair 0 Plus 1) (int8 ∷ int32 ∷ []))))) }
{}

/// A table extends one that keeps no more, at the same places. How far down nodes lead.
pub fn tables_that_extend()
    ensures more { ForEntry 0 Int8 true [] (λ own. ForTable 0 (Some own ∷ []) (λ old. ForTable 0 (Some own ∷ None ∷ Some own ∷ []) (λ new. Extends old new))) }
    ensures less { ForEntry 0 Int8 true [] (λ own. ForTable 0 (Some own ∷ None ∷ Some own ∷ []) (λ old. ForTable 0 (Some own ∷ []) (λ new. ¬ (Extends old new)))) }
    ensures other_first { ForEntry 0 Int8 true [] (λ own. ForTable 0 (Some own ∷ []) (λ old. ForTable 1 (Some own ∷ []) (λ new. ¬ (Extends old new)))) }
    ensures depths { map (node_depth sum_items) (0 ∷ 1 ∷ 2 ∷ []) ≡ 1 ∷ 1 ∷ 2 ∷ [] }
{}

/// A table counts the nodes of which it keeps something.
pub fn entries_that_are_counted()
    ensures two { ForEntry 0 Int8 true [] (λ own. ForTable 0 (Some own ∷ None ∷ Some own ∷ []) (λ table. kept_count table ≡ 2)) }
    ensures none { ForTable 0 [] (λ table. kept_count table ≡ 0) }
    ensures of_a_list { some_count {A = ℕ} (None ∷ Some 7 ∷ None ∷ Some 8 ∷ []) ≡ 2 }
{}

/// In an aggregation a column that may have another length than one is a list.
pub fn types_in_contexts()
    ensures alone { type_in Default (of_type int8) ≡ int8 }
    ensures in_an_aggregation { type_in Aggregation (of_type int8) ≡ ListType int8 }
    ensures one_value { type_in Aggregation (of_one int8) ≡ int8 }
    ensures name { (field : Field) → IsFieldOf [] (one_column int8) Default a field → field.name ≡ codes "a" }
    ensures no_column { (field : Field) → ¬ (IsFieldOf [] (one_column int8) Default c field) }
{}
