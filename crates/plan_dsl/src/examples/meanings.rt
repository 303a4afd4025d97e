//! What expressions give on frames.

ghost use Rattle.std.specs.Prelude.{◌≡◌, [], ◌∷◌, codes, true, Some, None, is_err};
ghost use Rattle.std.specs.List.{AllByRecursion};
ghost use Rattle.plan_types.specs.Types.{Truth, DateType};
ghost use Rattle.plan_types.specs.Outcomes.{Done, Fault, Stuck};
ghost use Rattle.plan_types.specs.declared.dtype.CastOptions.TheVariants.{Strict, NonStrict, Overflowing};
ghost use Rattle.plan_dsl.specs.declared.operator.Operator.TheVariants.{Plus, Minus, Multiply, Divide, FloorDivide, Modulus};
ghost use Rattle.plan_dsl.specs.Trees.{node, no_more, more};
ghost use Rattle.plan_dsl.specs.Ops.{ColumnOp, BinaryOp, CastOp};
ghost use Rattle.plan_dsl.specs.Typing.{typing};
ghost use Rattle.plan_dsl.specs.Kernels.{common_length, stretched, operator_values};
ghost use Rattle.plan_dsl.specs.Meaning.{meaning};
ghost use Rattle.plan_dsl.specs.Laws.{AreOf};
ghost use Rattle.plan_dsl.specs.Samples.{Gives, GivesOfTwo, GivesAll, int8, int16, int32, int64, uint8, null, yes, no, number, negative, column, a, b, c, binary, sum, cast_as, one_value, many_values, frame_with, means, runs, table, schema_ab, schema_abu};

/// A sum is made in the common type, and null in an operand gives null.
pub fn meanings_of_sums()
    ensures typed { let wide = cast_as NonStrict int16 a in
        Gives (means table) (
        (a, Done (number 1 ∷ null ∷ number 100 ∷ [])) ∷
        (sum a b, Done (number 11 ∷ null ∷ number 300 ∷ [])) ∷
        (sum b a, Done (number 11 ∷ null ∷ number 300 ∷ [])) ∷
        (sum a a, Done (number 2 ∷ null ∷ negative 56 ∷ [])) ∷
        (sum wide wide, Done (number 2 ∷ null ∷ number 200 ∷ [])) ∷
        (sum (sum a a) b, Done (number 12 ∷ null ∷ number 144 ∷ [])) ∷ []) }
    ensures unknown_columns { GivesAll (means table) Stuck (c ∷ sum a c ∷ []) }
{}

/// The operands' order counts in a difference, a product wraps around in the common type, and of quotients one is rounded
/// toward 0, and one down. A division by 0 is null. Between two days are milliseconds.
pub fn meanings_of_other_arithmetic()
    ensures differences { Gives (means table) (
        (binary Minus b a, Done (number 9 ∷ null ∷ number 100 ∷ [])) ∷
        (binary Minus a b, Done (negative 9 ∷ null ∷ negative 100 ∷ [])) ∷ []) }
    ensures products { Gives (means table) (
        (binary Multiply a b, Done (number 10 ∷ null ∷ number 20000 ∷ [])) ∷
        (binary Multiply a a, Done (number 1 ∷ null ∷ number 16 ∷ [])) ∷ []) }
    ensures quotients { let signs = frame_with schema_ab (
        (number 3 ∷ negative 7 ∷ []) ∷ (negative 3 ∷ number 7 ∷ []) ∷ (negative 3 ∷ negative 7 ∷ []) ∷ (number 0 ∷ number 7 ∷ []) ∷ []) in
        Gives (λ operator. means signs (binary operator b a)) (
        (Divide, Done (negative 2 ∷ negative 2 ∷ number 2 ∷ null ∷ [])) ∷
        (FloorDivide, Done (negative 3 ∷ negative 3 ∷ number 2 ∷ null ∷ [])) ∷
        (Modulus, Done (number 2 ∷ negative 2 ∷ negative 1 ∷ null ∷ [])) ∷ []) }
    ensures days { let dates = frame_with ((codes "a", DateType) ∷ (codes "b", DateType) ∷ []) (
        (number 10957 ∷ number 10956 ∷ []) ∷ (number 10956 ∷ number 10957 ∷ []) ∷ (negative 1 ∷ number 1 ∷ []) ∷ (null ∷ number 1 ∷ []) ∷ []) in
        means dates (binary Minus a b) ≡ Done (number 86400000 ∷ negative 86400000 ∷ negative 172800000 ∷ null ∷ []) }
{}

/// An expression gives a value for each row that it is asked on, in the order of the rows.
pub fn meanings_on_some_rows()
    ensures rows { GivesOfTwo (meaning [] table) (
        (sum a b, [], Done []) ∷
        (sum a b, 2 ∷ [], Done (number 300 ∷ [])) ∷
        (sum a b, 2 ∷ 0 ∷ 2 ∷ 1 ∷ [], Done (number 300 ∷ number 11 ∷ number 300 ∷ null ∷ [])) ∷
        (b, 1 ∷ 0 ∷ 0 ∷ [], Done (number 20 ∷ number 10 ∷ number 10 ∷ [])) ∷ []) }
{}

/// A strict cast of a value out of range is a fault, and so is each node above it.
pub fn meanings_of_casts()
    ensures options { Gives (λ options. means table (cast_as options int8 b)) (
        (Strict, Fault) ∷
        (NonStrict, Done (number 10 ∷ number 20 ∷ null ∷ [])) ∷
        (Overflowing, Done (number 10 ∷ number 20 ∷ negative 56 ∷ [])) ∷ []) }
    ensures strict_on_rows_in_range { meaning [] table (cast_as Strict int8 b) (0 ∷ 1 ∷ []) ≡ Done (number 10 ∷ number 20 ∷ []) }
    ensures null_under_strict { means table (cast_as Strict uint8 a) ≡ Done (number 1 ∷ null ∷ number 100 ∷ []) }
    ensures faults_below { let narrow = cast_as Strict int8 b in
        GivesAll (means table) Fault (sum narrow a ∷ sum a narrow ∷ cast_as NonStrict int64 narrow ∷ []) }
{}

/// As it is written an expression runs only where each operand has the type to which it is taken.
pub fn expressions_run_as_written()
    ensures strict { Gives (runs table) (
        (a, Done (number 1 ∷ null ∷ number 100 ∷ [])) ∷
        (sum a a, Done (number 2 ∷ null ∷ negative 56 ∷ [])) ∷
        (sum (cast_as NonStrict int32 a) b, Done (number 11 ∷ null ∷ number 300 ∷ [])) ∷
        (sum a (cast_as Strict int8 b), Fault) ∷ []) }
    ensures the_same_as_meant { let sum_with_its_cast = sum (cast_as NonStrict int32 a) b in
        runs table sum_with_its_cast ≡ means table sum_with_its_cast }
    ensures others { GivesAll (runs table) Stuck (sum a b ∷ cast_as NonStrict int64 (sum a b) ∷ c ∷ []) }
{}

/// A node over another number of operands than its own has no type and no meaning.
pub fn nodes_of_wrong_numbers_of_operands()
    ensures types { let operator = BinaryOp Plus in
        let cast = CastOp int32 NonStrict in
        GivesAll (λ tree. is_err (typing [] schema_abu tree)) true (
        node operator no_more ∷
        node operator (more a no_more) ∷
        node operator (more a (more a (more a no_more))) ∷
        node cast no_more ∷
        node cast (more a (more a no_more)) ∷
        node (ColumnOp (codes "a")) (more a no_more) ∷ []) }
    ensures meanings { GivesAll (means table) Stuck (
        node (BinaryOp Plus) (more a no_more) ∷ node (CastOp int32 NonStrict) (more a (more a no_more)) ∷ []) }
{}

/// Columns of one length have it, one of a single value the other's, and other lengths none.
pub fn common_lengths()
    ensures lengths { GivesOfTwo common_length (
        (3, 3, Some 3) ∷ (1, 4, Some 4) ∷ (4, 1, Some 4) ∷ (2, 3, None) ∷
        (0, 0, Some 0) ∷ (1, 0, Some 0) ∷ (0, 1, Some 0) ∷ (0, 2, None) ∷ []) }
{}

/// A column of one value is repeated beside a longer one, and to nothing beside one without values.
pub fn columns_side_by_side()
    ensures stretched { GivesOfTwo stretched (
        (3, number 5 ∷ [], number 5 ∷ number 5 ∷ number 5 ∷ []) ∷
        (0, number 5 ∷ [], []) ∷
        (2, number 5 ∷ number 6 ∷ [], number 5 ∷ number 6 ∷ []) ∷ []) }
    ensures sums { GivesOfTwo (operator_values Plus int8 int8) (
        (number 1 ∷ number 2 ∷ [], number 10 ∷ number 20 ∷ [], Done (number 11 ∷ number 22 ∷ [])) ∷
        (number 1 ∷ [], number 10 ∷ null ∷ number 127 ∷ [], Done (number 11 ∷ null ∷ negative 128 ∷ [])) ∷
        (number 1 ∷ number 2 ∷ [], null ∷ [], Done (null ∷ null ∷ [])) ∷
        (number 1 ∷ [], [], Done []) ∷
        (number 1 ∷ number 2 ∷ [], number 1 ∷ number 2 ∷ number 3 ∷ [], Fault) ∷ []) }
{}

/// Values of a type fit it, and there is one alone where there are not many.
pub fn values_of_a_type()
    ensures of_many { AllByRecursion (AreOf (many_values int8)) ((number 1 ∷ null ∷ number 127 ∷ []) ∷ [] ∷ []) }
    ensures not_of_many { AllByRecursion (λ values. ¬ (AreOf (many_values int8) values)) ((number 1 ∷ number 128 ∷ []) ∷ (number 1 ∷ yes ∷ []) ∷ []) }
    ensures of_one { AreOf (one_value int8) (number 5 ∷ []) }
    ensures not_of_one { AllByRecursion (λ values. ¬ (AreOf (one_value int8) values)) ((number 128 ∷ []) ∷ (number 1 ∷ number 2 ∷ []) ∷ [] ∷ []) }
    ensures truths { AreOf (many_values Truth) (yes ∷ null ∷ no ∷ []) × ¬ (AreOf (many_values Truth) (yes ∷ number 1 ∷ [])) }
{}
