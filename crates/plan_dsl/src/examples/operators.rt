//! Operators: comparisons and sums of numbers and of truth values, and casts that are written round them.

ghost use Rattle.std.specs.Prelude.{◌≡◌, [], ◌∷◌, replicate, codes, Err};
ghost use Rattle.plan_types.specs.Types.{Truth};
ghost use Rattle.plan_types.specs.Outcomes.{Done, Stuck};
ghost use Rattle.plan_types.specs.declared.dtype.CastOptions.TheVariants.{Strict, NonStrict, Overflowing};
ghost use Rattle.plan_types.specs.declared.error.ErrorKind.TheVariants.{ColumnNotFound, SchemaMismatch};
ghost use Rattle.plan_dsl.specs.declared.operator.Operator.TheVariants.{Eq, NotEq, Lt, LtEq, Gt, GtEq, Plus};
ghost use Rattle.plan_dsl.specs.Operators.{operator_value};
ghost use Rattle.plan_dsl.specs.Ops.{BinaryOp};
ghost use Rattle.plan_dsl.specs.Names.{name_of};
ghost use Rattle.plan_dsl.specs.Typing.{typing, typing_rule};
ghost use Rattle.plan_dsl.specs.Meaning.{meaning};
ghost use Rattle.plan_dsl.specs.StrictRun.{strict_run};
ghost use Rattle.plan_dsl.specs.Samples.{Gives, GivesAll, GivesOfTwo, Take, Refuse, Compute, ComputeEach, Mean, comparisons, both_as, int8, int16, int64, uint8, uint32, uint64, null, yes, no, number, negative, a, b, c, t, u, binary, sum, less, equal, cast_as, all_options, one_value, many_values, of_many, of_one, means, runs, beside, four_columns, two_widths, some_zeros, truths_and_numbers};

/// A comparison takes both operands to their common type, and is a truth value. A sum has that type, and truth values are
/// counted in 32 bits without a sign.
pub fn types_of_comparisons_and_sums()
    ensures comparisons { Take comparisons (
        (int8, int8, both_as int8 Truth) ∷ (int8, int64, both_as int64 Truth) ∷ (uint8, int8, both_as int16 Truth) ∷
        (Truth, Truth, both_as Truth Truth) ∷ (Truth, int8, both_as int8 Truth) ∷ (uint64, Truth, both_as uint64 Truth) ∷ []) }
    ensures sums { Take (Plus ∷ []) (
        (Truth, Truth, both_as Truth uint32) ∷ (Truth, int8, both_as int8 int8) ∷ (int8, Truth, both_as int8 int8) ∷
        (uint64, Truth, both_as uint64 uint64) ∷ (uint32, Truth, both_as uint32 uint32) ∷ (int8, int64, both_as int64 int64) ∷ []) }
    ensures without_a_common_type { Refuse (Plus ∷ comparisons) SchemaMismatch ((uint64 ∷ [], int8 ∷ []) ∷ (int8 ∷ [], uint64 ∷ []) ∷ []) }
{}

/// Numbers are compared by size, and false is less than true. A comparison with null is null, whichever side it is on.
pub fn comparisons_of_values()
    ensures numbers { Compute comparisons Truth Truth (
        (number 1, number 2, no ∷ yes ∷ yes ∷ yes ∷ no ∷ no ∷ []) ∷
        (number 2, number 2, yes ∷ no ∷ no ∷ yes ∷ no ∷ yes ∷ []) ∷
        (number 3, number 2, no ∷ yes ∷ no ∷ no ∷ yes ∷ yes ∷ []) ∷
        (negative 3, number 2, no ∷ yes ∷ yes ∷ yes ∷ no ∷ no ∷ []) ∷
        (number 0, negative 1, no ∷ yes ∷ no ∷ no ∷ yes ∷ yes ∷ []) ∷
        (negative 2, negative 1, no ∷ yes ∷ yes ∷ yes ∷ no ∷ no ∷ []) ∷
        (negative 1, negative 2, no ∷ yes ∷ no ∷ no ∷ yes ∷ yes ∷ []) ∷
        (negative 2, negative 2, yes ∷ no ∷ no ∷ yes ∷ no ∷ yes ∷ []) ∷
        (negative 9223372036854775808, number 9223372036854775807, no ∷ yes ∷ yes ∷ yes ∷ no ∷ no ∷ []) ∷
        (number 18446744073709551615, number 18446744073709551614, no ∷ yes ∷ no ∷ no ∷ yes ∷ yes ∷ []) ∷ []) }
    ensures truth_values { Compute comparisons Truth Truth (
        (no, no, yes ∷ no ∷ no ∷ yes ∷ no ∷ yes ∷ []) ∷ (no, yes, no ∷ yes ∷ yes ∷ yes ∷ no ∷ no ∷ []) ∷
        (yes, no, no ∷ yes ∷ no ∷ no ∷ yes ∷ yes ∷ []) ∷ (yes, yes, yes ∷ no ∷ no ∷ yes ∷ no ∷ yes ∷ []) ∷ []) }
    ensures nulls { let nulls = replicate 6 null in
        Compute comparisons Truth Truth (
        (null, number 1, nulls) ∷ (number 1, null, nulls) ∷ (null, yes, nulls) ∷ (no, null, nulls) ∷ (null, null, nulls) ∷ []) }
{}

/// A sum of truth values is how many of them are true, and one of numbers wraps around in its type. One with null is null.
pub fn sums_of_values()
    ensures truth_values { GivesOfTwo (operator_value Plus uint32 uint32) (
        (no, no, number 0) ∷ (no, yes, number 1) ∷ (no, null, null) ∷
        (yes, no, number 1) ∷ (yes, yes, number 2) ∷ (yes, null, null) ∷
        (null, no, null) ∷ (null, yes, null) ∷ (null, null, null) ∷ []) }
    ensures numbers { ComputeEach Plus (
        (int8, int8, number 100, negative 101, negative 1) ∷
        (int8, int8, number 127, number 1, negative 128) ∷ (int8, int8, negative 128, negative 1, number 127) ∷
        (uint8, uint8, number 200, number 100, number 44) ∷ (uint32, uint32, number 4294967295, number 1, number 0) ∷
        (int8, int8, null, number 1, null) ∷ (int8, int8, number 1, null, null) ∷ (int8, int8, null, null, null) ∷ []) }
{}

/// A comparison has its first operand's name and the type of truth values, and is refused where an operand is.
pub fn typing_of_comparisons()
    ensures name { name_of (less b a) ≡ codes "b" }
    ensures two_widths { GivesAll (λ operator. typing [] four_columns (binary operator a b)) (of_many Truth) comparisons }
    ensures types { Gives (typing [] four_columns) (
        (equal t u, of_many Truth) ∷
        (binary GtEq (less a b) (equal b a), of_many Truth) ∷
        (sum (less a b) (less a b), of_many uint32) ∷
        (sum t a, of_many int8) ∷
        (less u a, Err SchemaMismatch) ∷
        (less a c, Err ColumnNotFound) ∷ []) }
    ensures of_single_values { GivesAll (λ operator. typing_rule [] [] (BinaryOp operator) (one_value int8 ∷ one_value int8 ∷ [])) (of_one Truth) comparisons }
    ensures of_many_values { GivesAll (λ operator. typing_rule [] [] (BinaryOp operator) (one_value int8 ∷ many_values int8 ∷ [])) (of_many Truth) comparisons }
{}

/// Numbers of two types are compared in the common one, row by row: as the numbers that they are, and not by their bits.
pub fn meanings_of_comparisons()
    ensures all_rows { Gives (means two_widths) (
        (equal a b, Done (no ∷ yes ∷ null ∷ null ∷ no ∷ [])) ∷
        (binary NotEq a b, Done (yes ∷ no ∷ null ∷ null ∷ yes ∷ [])) ∷
        (less a b, Done (yes ∷ no ∷ null ∷ null ∷ no ∷ [])) ∷
        (binary LtEq a b, Done (yes ∷ yes ∷ null ∷ null ∷ no ∷ [])) ∷
        (binary Gt a b, Done (no ∷ no ∷ null ∷ null ∷ yes ∷ [])) ∷
        (binary GtEq a b, Done (no ∷ yes ∷ null ∷ null ∷ yes ∷ [])) ∷
        (less b a, Done (no ∷ no ∷ null ∷ null ∷ yes ∷ [])) ∷ []) }
    ensures some_rows { meaning [] two_widths (binary Gt a b) (4 ∷ 2 ∷ 0 ∷ []) ≡ Done (yes ∷ null ∷ no ∷ []) }
    ensures without_a_common_type { means (beside int8 uint64 ((number 1, number 1) ∷ [])) (equal b a) ≡ Stuck }
    ensures equal_of_two_signs { Mean Eq int8 uint8 ((negative 1, number 255, no) ∷ (number 127, number 127, yes) ∷ (number 5, number 200, no) ∷ []) }
    ensures less_of_two_signs { Mean Lt int8 uint8 ((negative 1, number 255, yes) ∷ (number 127, number 127, no) ∷ (number 5, number 200, yes) ∷ []) }
{}

/// Beside a number a truth value is compared and added as 0 or 1. Truth values alone are ordered, and counted.
pub fn meanings_on_truth_values()
    ensures beside_numbers { Gives (means truths_and_numbers) (
        (equal t a, Done (yes ∷ no ∷ no ∷ no ∷ null ∷ no ∷ [])) ∷
        (less t a, Done (no ∷ yes ∷ yes ∷ no ∷ null ∷ yes ∷ [])) ∷
        (sum t a, Done (number 2 ∷ number 3 ∷ number 2 ∷ negative 1 ∷ null ∷ negative 128 ∷ [])) ∷ []) }
    ensures alone { let frame = beside Truth Truth ((yes, yes) ∷ (yes, no) ∷ (no, yes) ∷ (no, no) ∷ (null, yes) ∷ (no, null) ∷ []) in
        Gives (means frame) (
        (less a b, Done (no ∷ no ∷ yes ∷ no ∷ null ∷ null ∷ [])) ∷
        (sum a b, Done (number 2 ∷ number 1 ∷ number 1 ∷ number 0 ∷ null ∷ null ∷ [])) ∷
        (sum (sum a b) a, Done (number 3 ∷ number 2 ∷ number 1 ∷ number 0 ∷ null ∷ null ∷ [])) ∷ []) }
{}

/// As it is written a comparison runs only where both operands have the common type.
pub fn comparisons_run_as_written()
    ensures two_types { GivesAll (λ operator. runs two_widths (binary operator a b)) Stuck comparisons }
    ensures two_types_on_no_rows { strict_run [] two_widths (less b a) [] ≡ Stuck }
    ensures one_type { Gives (runs two_widths) (
        (less (cast_as NonStrict int64 a) b, Done (yes ∷ no ∷ null ∷ null ∷ no ∷ [])) ∷
        (binary GtEq a a, Done (yes ∷ yes ∷ null ∷ yes ∷ yes ∷ [])) ∷ []) }
    ensures truth_values { Gives (runs truths_and_numbers) (
        (equal t a, Stuck) ∷ (less t a, Stuck) ∷ (sum t a, Stuck) ∷
        (equal (cast_as NonStrict int8 t) a, Done (yes ∷ no ∷ no ∷ no ∷ null ∷ no ∷ [])) ∷
        (sum t t, Done (number 2 ∷ number 2 ∷ number 0 ∷ number 0 ∷ null ∷ number 2 ∷ [])) ∷
        (sum (sum t t) t, Stuck) ∷ []) }
{}

/// A written cast has its target as its type, whatever stands under it.
pub fn typing_of_written_casts()
    ensures of_a_comparison { GivesAll (λ options. typing [] four_columns (cast_as options int8 (less a b))) (of_many int8) all_options }
    ensures to_boolean { GivesAll (λ options. typing [] four_columns (cast_as options Truth a)) (of_many Truth) all_options }
    ensures types { Gives (typing [] four_columns) (
        (cast_as Strict Truth t, of_many Truth) ∷
        (sum (cast_as NonStrict Truth a) (cast_as NonStrict Truth b), of_many uint32) ∷
        (equal (cast_as NonStrict int64 u) a, of_many Truth) ∷
        (cast_as NonStrict int8 (equal u a), Err SchemaMismatch) ∷ []) }
    ensures name { name_of (cast_as Strict int8 (less b a)) ≡ codes "b" }
{}

/// A comparison that is cast to an integer gives 0 or 1, and a number that is cast to a truth value whether it isn't 0.
pub fn meanings_of_written_casts()
    ensures of_a_comparison { GivesAll (λ options. means some_zeros (cast_as options int8 (less a b))) (Done (number 1 ∷ number 0 ∷ null ∷ null ∷ [])) all_options }
    ensures to_boolean { GivesAll (λ options. means some_zeros (cast_as options Truth a)) (Done (yes ∷ no ∷ null ∷ yes ∷ [])) all_options }
    ensures of_casts { Gives (means some_zeros) (
        (cast_as Strict int8 (cast_as Strict Truth b), Done (number 1 ∷ number 1 ∷ number 1 ∷ null ∷ [])) ∷
        (cast_as Overflowing Truth (cast_as Strict Truth a), Done (yes ∷ no ∷ null ∷ yes ∷ [])) ∷
        (equal (cast_as Strict Truth a) a, Done (yes ∷ yes ∷ null ∷ no ∷ [])) ∷
        (sum (cast_as Strict Truth a) (cast_as Strict Truth b), Done (number 2 ∷ number 1 ∷ null ∷ null ∷ [])) ∷ []) }
    ensures as_written { Gives (runs some_zeros) (
        (cast_as Strict Truth a, Done (yes ∷ no ∷ null ∷ yes ∷ [])) ∷
        (cast_as Strict int8 (less a b), Stuck) ∷
        (cast_as Strict int8 (less (cast_as NonStrict int64 a) b), Done (number 1 ∷ number 0 ∷ null ∷ null ∷ [])) ∷ []) }
{}
