//! Types, casts and refusals of ternaries and functions, and the names of their nodes.

ghost use Rattle.std.specs.Prelude.{◌≡◌, [], ◌∷◌, pos, codes, true, false, Some, None, Ok, Err};
ghost use Rattle.plan_types.specs.Types.{NullType, Truth, TextType, DateType, TimeType, DatetimeType, DurationType, ListType, Untyped};
ghost use Rattle.plan_types.specs.declared.dtype.DataType.TheVariants.{Int8, Int16, Int32, Boolean};
ghost use Rattle.plan_types.specs.declared.dtype.TimeUnit.TheVariants.{Nanoseconds, Microseconds, Milliseconds};
ghost use Rattle.plan_types.specs.declared.error.ErrorKind.TheVariants.{ComputeError, SchemaMismatch, InvalidOperation};
ghost use Rattle.plan_dsl.specs.declared.function_expr.FunctionExpr.TheVariants.{IsNull, IsNotNull, FillNull, IsIn, ShiftAndFill, ListGet, FieldByName};
ghost use Rattle.plan_dsl.specs.declared.operator.Operator.TheVariants.{Eq};
ghost use Rattle.plan_dsl.specs.Names.{alias_label};
ghost use Rattle.plan_dsl.specs.Ops.{FunctionOp, TernaryOp};
ghost use Rattle.plan_dsl.specs.Samples.{Gives, GivesOfTwo, uint64};
ghost use Rattle.plan_dsl.specs.Typing.{rule};
ghost use Rattle.plan_arena.specs.declared.aexpr.AExpr.TheVariants.{Function, Ternary};
ghost use Rattle.plan_arena.specs.declared.expr_ir.ExprIR.{ExprIR};
ghost use Rattle.plan_arena.specs.declared.expr_ir.ExprIRs.{ExprIRs};
ghost use Rattle.plan_arena.specs.Samples.{a_at};
ghost use Rattle.plan_infer.specs.declared.type_table.TypeTable.{TypeTable};
ghost use Rattle.plan_infer.specs.KeptTypes.{IsNamedBy, IsRuled, TakesTo};
ghost use Rattle.plan_infer.specs.Operands.{common_of_both, common_with, is_finer};
ghost use Rattle.plan_infer.specs.Samples.{int8, int16, int32, int64, one_column, columns_of, struct_of, a, b, number, five, binary, ternary, apply, made, at, of_one, of_type, ForEntry, ForTable, HaveTypes, AreRefused};

/// A ternary takes what it gives to its common type, and the predicate to truth values.
pub fn types_of_ternaries()
    ensures types { HaveTypes ((columns_of int8 int32, ternary a (binary Eq a b) b, int32) ∷ (columns_of TextType NullType, ternary a b a, TextType) ∷
        (columns_of int8 Truth, ternary five b a, int8) ∷ (one_column Truth, ternary five a (number (pos 7)), int32) ∷ []) }
    ensures casts { Gives (rule [] [] TernaryOp) ((of_type int8 ∷ of_type Truth ∷ of_one int32 ∷ [], made (int32 ∷ Truth ∷ int32 ∷ []) (of_type int32)) ∷
        (of_one int8 ∷ of_one NullType ∷ of_one (Untyped (pos 300)) ∷ [], made (int16 ∷ Truth ∷ int16 ∷ []) (of_one int16)) ∷ []) }
    ensures kept { ForEntry 0 Int32 true (Int32 ∷ Boolean ∷ Int32 ∷ []) (IsRuled [] [] TernaryOp (of_type int8 ∷ of_type Truth ∷ of_one int32 ∷ [])) }
    ensures as_they_are { ForEntry 0 Int8 false [] (IsRuled [] [] TernaryOp (of_one int8 ∷ of_one Truth ∷ of_one int8 ∷ [])) }
    ensures otherwise_kept { ForEntry 0 Int8 true [] (λ own. ¬ (IsRuled [] [] TernaryOp (of_type int8 ∷ of_type Truth ∷ of_one int32 ∷ []) own)) }
    ensures node { ForEntry 0 Int8 true [] (λ truthy. ForEntry 1 Boolean true [] (λ predicate. ForEntry 2 Int32 true [] (λ falsy. ForTable 0 (Some truthy ∷ Some predicate ∷ Some falsy ∷ []) (λ table.
        TakesTo [] [] table (Ternary (at 1) (at 0) (at 2)) (int32 ∷ Truth ∷ int32 ∷ []))))) }
{}

/// A function takes its operands to what its signature or its own rule says.
pub fn types_of_functions()
    ensures types { HaveTypes ((one_column (ListType int8), apply IsNull (a ∷ []), Truth) ∷ ([], apply IsNotNull (five ∷ []), Truth) ∷
        (columns_of int8 int32, apply FillNull (a ∷ b ∷ []), int32) ∷ (columns_of int8 int32, apply IsIn (a ∷ b ∷ []), Truth) ∷
        (one_column int8, apply ShiftAndFill (a ∷ five ∷ number (pos 300) ∷ []), int16) ∷
        (columns_of (ListType TextType) int8, apply (ListGet false) (a ∷ b ∷ []), TextType) ∷
        (one_column (struct_of (codes "x") TextType), apply (FieldByName (codes "x")) (a ∷ []), TextType) ∷ []) }
    ensures casts { GivesOfTwo (λ function typed. rule [] [] (FunctionOp function []) typed) (
        (IsNull, of_one (Untyped (pos 5)) ∷ [], made (int32 ∷ []) (of_one Truth)) ∷
        (FillNull, of_type int8 ∷ of_one int32 ∷ [], made (int32 ∷ int32 ∷ []) (of_type int32)) ∷
        (ShiftAndFill, of_one int8 ∷ of_one int32 ∷ of_one NullType ∷ [], made (int8 ∷ int64 ∷ int8 ∷ []) (of_type int8)) ∷
        (ListGet true, of_one (ListType int8) ∷ of_one int32 ∷ [], made (ListType int8 ∷ int64 ∷ []) (of_one int8)) ∷
        (FieldByName (codes "x"), of_one (struct_of (codes "x") int8) ∷ [], made (struct_of (codes "x") int8 ∷ []) (of_one int8)) ∷ []) }
    ensures members { Gives (rule [] [] (FunctionOp IsIn [])) (
        (of_one int32 ∷ of_type (ListType int8) ∷ [], made (int32 ∷ ListType int32 ∷ []) (of_type Truth)) ∷
        (of_type int8 ∷ of_type NullType ∷ [], made (int8 ∷ ListType int8 ∷ []) (of_type Truth)) ∷
        (of_one NullType ∷ of_one TextType ∷ [], made (TextType ∷ TextType ∷ []) (of_one Truth)) ∷
        (of_type (DatetimeType Nanoseconds) ∷ of_one (DatetimeType Microseconds) ∷ [], made (DatetimeType Nanoseconds ∷ DatetimeType Nanoseconds ∷ []) (of_type Truth)) ∷ []) }
    ensures kept { ForEntry 0 Boolean true (Int32 ∷ Int32 ∷ []) (IsRuled [] [] (FunctionOp IsIn []) (of_type int8 ∷ of_one int32 ∷ [])) }
    ensures node { (input : ExprIRs) → input.items.items ≡ a_at 0 ∷ a_at 1 ∷ [] → ForEntry 0 Int8 true [] (λ first. ForEntry 1 Int32 true [] (λ second. ForTable 0 (Some first ∷ Some second ∷ []) (λ table.
        TakesTo [] [] table (Function input FillNull) (int32 ∷ int32 ∷ [])))) }
{}

/// Operands that a ternary or a function doesn't take, and numbers of them that are not its own.
pub fn refusals_of_functions()
    ensures predicates { AreRefused InvalidOperation ((columns_of int8 int8, ternary a b a) ∷ (one_column TextType, ternary a a a) ∷ []) }
    ensures wide_number { AreRefused InvalidOperation ((one_column DateType, ternary (number (pos 18446744073709551616)) (binary Eq a a) a) ∷ []) }
    ensures no_common_type { AreRefused SchemaMismatch ((columns_of DateType TimeType, ternary a (binary Eq a a) b) ∷
        (columns_of DateType TimeType, apply FillNull (a ∷ b ∷ [])) ∷ (columns_of int64 uint64, apply IsIn (a ∷ b ∷ [])) ∷ []) }
    ensures members { AreRefused InvalidOperation ((columns_of TextType int8, apply IsIn (a ∷ b ∷ [])) ∷
        (columns_of (DatetimeType Microseconds) (DatetimeType Nanoseconds), apply IsIn (a ∷ b ∷ [])) ∷
        (columns_of (ListType int8) (ListType int8), apply IsIn (a ∷ b ∷ [])) ∷ []) }
    ensures lists { AreRefused InvalidOperation ((one_column int8, apply (ListGet true) (a ∷ a ∷ [])) ∷ (one_column (ListType int8), apply (ListGet true) (a ∷ a ∷ [])) ∷ []) }
    ensures fields { AreRefused InvalidOperation ((one_column (struct_of (codes "x") int8), apply (FieldByName (codes "y")) (a ∷ [])) ∷
        (one_column int8, apply (FieldByName (codes "x")) (a ∷ [])) ∷ []) }
    ensures many { AreRefused InvalidOperation ((one_column int8, apply ShiftAndFill (a ∷ a ∷ five ∷ [])) ∷ (one_column int8, apply ShiftAndFill (a ∷ five ∷ a ∷ [])) ∷ []) }
    ensures numbers { AreRefused ComputeError ((one_column int8, apply IsNull []) ∷ (one_column int8, apply IsNotNull (a ∷ a ∷ [])) ∷
        (one_column int8, apply FillNull (a ∷ [])) ∷ (one_column int8, apply IsIn (a ∷ a ∷ a ∷ [])) ∷ (one_column int8, apply ShiftAndFill (a ∷ five ∷ [])) ∷
        (one_column (ListType int8), apply (ListGet true) (a ∷ [])) ∷ (one_column (struct_of (codes "x") int8), apply (FieldByName (codes "x")) (a ∷ a ∷ [])) ∷ []) }
{}

/// A node of a function keeps its name itself, and one of a ternary has that of what it gives where the predicate is true.
pub fn names_of_functions()
    ensures function { (table : TypeTable) → IsNamedBy table (FunctionOp IsNull (alias_label (codes "x") ∷ [])) 1 (0 ∷ []) 1 }
    ensures field { (table : TypeTable) → IsNamedBy table (FunctionOp (FieldByName (codes "x")) []) 1 (0 ∷ []) 1 }
    ensures without_names { ForTable 0 [] (λ table. ¬ (IsNamedBy table (FunctionOp IsNull []) 1 (0 ∷ []) 1)) }
    ensures ternary { ForEntry 0 Int8 true [] (λ first. ForTable 0 (Some first ∷ []) (λ table. IsNamedBy table TernaryOp 3 (0 ∷ 1 ∷ 2 ∷ []) 0)) }
{}

/// What two operands have in common, and which of two times has the finer unit.
pub fn operands_beside_each_other()
    ensures common { GivesOfTwo common_with ((1, of_type int8 ∷ of_one int32 ∷ [], Ok int32) ∷ (2, of_type int8 ∷ of_one TextType ∷ of_one int16 ∷ [], Ok int16) ∷
        (1, of_type DateType ∷ of_type TimeType ∷ [], Err SchemaMismatch) ∷ (2, of_type int8 ∷ of_one int32 ∷ [], Err SchemaMismatch) ∷ (1, [], Err SchemaMismatch) ∷ []) }
    ensures missing { common_of_both (Some (of_one int8)) None ≡ Err SchemaMismatch }
    ensures finer { GivesOfTwo is_finer ((DatetimeType Nanoseconds, DatetimeType Milliseconds, true) ∷ (DurationType Microseconds, DurationType Milliseconds, true) ∷
        (DatetimeType Microseconds, DatetimeType Microseconds, false) ∷ (DatetimeType Milliseconds, DatetimeType Nanoseconds, false) ∷
        (DatetimeType Nanoseconds, DurationType Milliseconds, false) ∷ (int8, int16, false) ∷ []) }
{}
