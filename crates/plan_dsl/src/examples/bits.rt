//! Truth values and bits, comparisons of nulls, and kinds of operators.

ghost use Rattle.std.specs.Prelude.{◌≡◌, [], ◌∷◌, pos, map, codes, true, false, Some, None};
ghost use Rattle.plan_types.specs.Types.{NullType, Truth, TextType, DateType, DurationType, ListType, Untyped};
ghost use Rattle.plan_types.specs.declared.dtype.TimeUnit.TheVariants.{Milliseconds};
ghost use Rattle.plan_types.specs.declared.error.ErrorKind.TheVariants.{SchemaMismatch, InvalidOperation};
ghost use Rattle.plan_dsl.specs.declared.operator.InequalityOperator.TheVariants as Inequality;
ghost use Rattle.plan_dsl.specs.declared.operator.Operator.TheVariants.{Eq, EqValidity, NotEq, NotEqValidity, Lt, LtEq, Gt, GtEq, Plus, Minus, Multiply, Divide, FloorDivide, Modulus, And, Or, Xor, LogicalAnd, LogicalOr};
ghost use Rattle.plan_dsl.specs.Operators.{inequality, is_comparison, operator_sign, swapped};
ghost use Rattle.plan_dsl.specs.Samples.{GivesAll, Take, Refuse, Compute, arithmetic, bits, comparisons, logical, orders, with_nulls, both_as, int8, int16, int32, int64, uint8, uint16, uint64, times, no_times, null, yes, no, number, negative, list};

/// False beside anything is not both, true beside anything is either, and else null is null.
pub fn truth_values_combined()
    ensures values { Compute (And ∷ Or ∷ Xor ∷ LogicalAnd ∷ LogicalOr ∷ []) Truth Truth (
        (no, no, no ∷ no ∷ no ∷ no ∷ no ∷ []) ∷ (no, yes, no ∷ yes ∷ yes ∷ no ∷ yes ∷ []) ∷ (no, null, no ∷ null ∷ null ∷ no ∷ null ∷ []) ∷
        (yes, no, no ∷ yes ∷ yes ∷ no ∷ yes ∷ []) ∷ (yes, yes, yes ∷ yes ∷ no ∷ yes ∷ yes ∷ []) ∷ (yes, null, null ∷ yes ∷ null ∷ null ∷ yes ∷ []) ∷
        (null, no, no ∷ null ∷ null ∷ no ∷ null ∷ []) ∷ (null, yes, null ∷ yes ∷ null ∷ null ∷ yes ∷ []) ∷ (null, null, null ∷ null ∷ null ∷ null ∷ null ∷ []) ∷ []) }
{}

/// Numbers are combined by their bits, in their type.
pub fn bits_combined()
    ensures with_a_sign { Compute bits int8 int8 (
        (number 12, number 10, number 8 ∷ number 14 ∷ number 6 ∷ []) ∷
        (negative 1, number 5, number 5 ∷ negative 1 ∷ negative 6 ∷ []) ∷
        (negative 8, negative 3, negative 8 ∷ negative 3 ∷ number 5 ∷ []) ∷
        (negative 128, number 127, number 0 ∷ negative 1 ∷ negative 1 ∷ []) ∷ []) }
    ensures without_a_sign { Compute bits uint8 uint8 ((number 255, number 15, number 15 ∷ number 255 ∷ number 240 ∷ []) ∷ []) }
    ensures widest { let most = number 18446744073709551615 in
        Compute bits uint64 uint64 ((most, number 1, number 1 ∷ most ∷ number 18446744073709551614 ∷ []) ∷ []) }
    ensures with_null { Compute bits int8 int8 (
        (null, number 0, null ∷ null ∷ null ∷ []) ∷ (number 0, null, null ∷ null ∷ null ∷ []) ∷ []) }
    ensures two_nulls { Compute bits NullType NullType ((null, null, null ∷ null ∷ null ∷ []) ∷ []) }
{}

/// Bits are of truth values, integers and nulls, in their common type, and truth values and nulls alone are combined as truth values.
pub fn types_of_bits()
    ensures common { Take bits (
        (Truth, Truth, both_as Truth Truth) ∷ (Truth, int8, both_as int8 int8) ∷ (int8, int64, both_as int64 int64) ∷
        (NullType, Truth, both_as Truth Truth) ∷ (uint16, NullType, both_as uint16 uint16) ∷ (NullType, NullType, both_as NullType NullType) ∷
        (int8, Untyped (pos 1), both_as int8 int8) ∷ (Truth, Untyped (pos 1), both_as int32 int32) ∷ []) }
    ensures without_a_common_type { Refuse bits SchemaMismatch ((uint64 ∷ [], int8 ∷ []) ∷ []) }
    ensures without_bits { Refuse bits InvalidOperation (
        (TextType ∷ times, no_times) ∷ (no_times, TextType ∷ times) ∷
        (int64 ∷ [], DurationType Milliseconds ∷ []) ∷ (ListType Truth ∷ [], ListType Truth ∷ []) ∷ []) }
    ensures truth_values { Take logical (
        (Truth, Truth, both_as Truth Truth) ∷ (Truth, NullType, both_as Truth Truth) ∷ (NullType, NullType, both_as Truth Truth) ∷ []) }
    ensures no_truth_values { Refuse logical InvalidOperation (
        (Truth ∷ [], int8 ∷ []) ∷ (Untyped (pos 1) ∷ ListType Truth ∷ [], Truth ∷ []) ∷
        (TextType ∷ times, no_times) ∷ (no_times, TextType ∷ times) ∷ []) }
{}

/// Two comparisons are of nulls too: null is the same as null, and as no other value.
pub fn comparisons_of_nulls()
    ensures values { Compute with_nulls Truth Truth (
        (null, null, yes ∷ no ∷ []) ∷ (null, number 0, no ∷ yes ∷ []) ∷ (no, null, no ∷ yes ∷ []) ∷ (list [], null, no ∷ yes ∷ []) ∷
        (number 7, number 7, yes ∷ no ∷ []) ∷ (number 7, negative 7, no ∷ yes ∷ []) ∷ []) }
    ensures types { Take with_nulls ((int8, uint8, both_as int16 Truth) ∷ []) }
    ensures refused { Refuse with_nulls InvalidOperation ((TextType ∷ [], DateType ∷ []) ∷ []) }
{}

/// How each operator is written, which are comparisons, and which say the same of swapped operands.
pub fn kinds_of_operators()
    ensures comparisons { GivesAll is_comparison true (Eq ∷ EqValidity ∷ NotEq ∷ NotEqValidity ∷ Lt ∷ LtEq ∷ Gt ∷ GtEq ∷ bits) }
    ensures others { GivesAll is_comparison false (LogicalAnd ∷ LogicalOr ∷ arithmetic) }
    ensures same_swapped { map swapped (Eq ∷ EqValidity ∷ NotEq ∷ NotEqValidity ∷ LogicalAnd ∷ LogicalOr ∷ bits)
        ≡ map Some (Eq ∷ EqValidity ∷ NotEq ∷ NotEqValidity ∷ LogicalAnd ∷ LogicalOr ∷ bits) }
    ensures orders_swapped { map swapped orders ≡ map Some (Gt ∷ GtEq ∷ Lt ∷ LtEq ∷ []) }
    ensures not_swapped { GivesAll swapped None arithmetic }
    ensures inequalities { map inequality (Inequality.Lt ∷ Inequality.LtEq ∷ Inequality.Gt ∷ Inequality.GtEq ∷ []) ≡ orders }
    ensures signs { map operator_sign (Plus ∷ Minus ∷ Multiply ∷ Divide ∷ FloorDivide ∷ Modulus ∷ [])
        ≡ codes "+" ∷ codes "-" ∷ codes "*" ∷ codes "//" ∷ codes "floor_div" ∷ codes "%" ∷ [] }
    ensures signs_of_comparisons { map operator_sign (EqValidity ∷ NotEqValidity ∷ comparisons)
        ≡ codes "==v" ∷ codes "!=v" ∷ codes "==" ∷ codes "!=" ∷ codes "<" ∷ codes "<=" ∷ codes ">" ∷ codes ">=" ∷ [] }
    ensures signs_of_bits { map operator_sign (LogicalAnd ∷ LogicalOr ∷ bits) ≡ codes "&" ∷ codes "|" ∷ codes "&" ∷ codes "|" ∷ codes "^" ∷ [] }
{}
