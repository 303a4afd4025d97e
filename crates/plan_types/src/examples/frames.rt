//! Worked examples on frames, columns as the code keeps them, refusals, outcomes and places.

ghost use Rattle.std.specs.Prelude.{◌≡◌, ℕ, ◌+◌, [], ◌∷◌, map, codes, true, false, Option, Some, None, Ok, Err};
ghost use Rattle.std.specs.Global.{Vec};
ghost use Rattle.std.specs.List.{AllByRecursion};
ghost use Rattle.plan_types.specs.Types.{Ty, NullType, Truth, TextType, DateType};
ghost use Rattle.plan_types.specs.Values.{no_value};
ghost use Rattle.plan_types.specs.ValueViews.{val_of, IsCastError, IsPartsError};
ghost use Rattle.plan_types.specs.Casts.{Gives, Fails};
ghost use Rattle.plan_types.specs.Outcomes.{Outcome, Done, Fault, Stuck, Meets, then_do};
ghost use Rattle.plan_types.specs.Errors.{at_top, no_memory, IsMemoryOr, IsRefusal};
ghost use Rattle.plan_types.specs.Frames.{IsFrame, IsFrameOf, value_in, row_at, row_numbers, empty_frame};
ghost use Rattle.plan_types.specs.FrameFaults.{IsFault, count_of, shown, vals_of, height_of, heads_of, row_of, framed, repeated_name, other_length, misfit_from, else_fault, misfit, frame_fault};
ghost use Rattle.plan_types.specs.Places.{outermost_first};
ghost use Rattle.plan_types.specs.Samples.{Maps, MapsPairs, column_with, frame_with, int32, int8, minus, negative, no, null, number, schema_a, schema_ab, text, times, uint8, yes};
ghost use Rattle.plan_types.specs.declared.error.CastError.TheVariants.{Failing, NoMemory as NoRoom};
ghost use Rattle.plan_types.specs.declared.column.Values.{Values};
ghost use Rattle.plan_types.specs.declared.error.ErrorKind.TheVariants.{SchemaMismatch, NoMemory, Duplicate as Twice};
ghost use Rattle.plan_types.specs.declared.frame.FrameError.{FrameError};
ghost use Rattle.plan_types.specs.declared.frame.FrameError.TheVariants.{Duplicate, Length, Misfit, NoMemory as NoSpace};
ghost use Rattle.plan_types.specs.declared.dtype.DataType.TheVariants.{Boolean, Int8, UInt8, Date, Time};
ghost use Rattle.plan_types.specs.declared.value.Value.TheVariants.{Null, Int, Text, Boolean as Truths};

/// A row's value by its column's name, and a row by its number, from 0.
pub fn values_and_rows()
    ensures values { MapsPairs (value_in (schema_ab int8 int32)) ((codes "a", number 1 ∷ number 2 ∷ [], number 1) ∷ (codes "b", number 1 ∷ number 2 ∷ [], number 2)
        ∷ (codes "a", null ∷ number 2 ∷ [], null) ∷ (codes "c", number 1 ∷ number 2 ∷ [], null) ∷ (codes "b", number 1 ∷ [], null) ∷ []) }
    ensures rows { map (row_at (frame_with (schema_a int8) ((number 5 ∷ []) ∷ (number 6 ∷ []) ∷ []))) (0 ∷ 1 ∷ 2 ∷ []) ≡ (number 5 ∷ []) ∷ (number 6 ∷ []) ∷ [] ∷ [] }
    ensures numbers { Maps row_numbers ((frame_with (schema_a int8) ((number 5 ∷ []) ∷ (number 6 ∷ []) ∷ []), 0 ∷ 1 ∷ []) ∷ (empty_frame, []) ∷ []) }
{}

/// A frame has distinct names, a fitting value for each column in each row, and no rows without columns.
pub fn lists_of_rows_that_are_frames()
    ensures without_rows { AllByRecursion IsFrame (empty_frame ∷ frame_with (schema_a int8) [] ∷ []) }
    ensures rows { AllByRecursion IsFrame (frame_with (schema_ab int8 uint8) ((number 127 ∷ null ∷ []) ∷ (null ∷ number 255 ∷ []) ∷ []) ∷ frame_with (schema_ab Truth int8)
        ((yes ∷ number 1 ∷ []) ∷ (null ∷ null ∷ []) ∷ (no ∷ null ∷ []) ∷ []) ∷ frame_with ((codes "s", TextType) ∷ (codes "d", DateType) ∷ (codes "n", NullType) ∷ [])
        ((text "x" ∷ negative 1 ∷ null ∷ []) ∷ (null ∷ null ∷ null ∷ []) ∷ []) ∷ []) }
    ensures others { AllByRecursion (λ frame. ¬ (IsFrame frame)) (frame_with ((codes "a", int8) ∷ (codes "a", uint8) ∷ []) [] ∷ frame_with (schema_a int8)
        ((number 1 ∷ []) ∷ (number 128 ∷ []) ∷ []) ∷ frame_with (schema_a DateType) ((text "1" ∷ []) ∷ []) ∷ frame_with (schema_a NullType) ((yes ∷ []) ∷ []) ∷ frame_with (schema_a Truth)
        ((number 1 ∷ []) ∷ []) ∷ frame_with (schema_a int8) ((yes ∷ []) ∷ []) ∷ frame_with (schema_a int8) ([] ∷ []) ∷ frame_with (schema_a int8) ((null ∷ null ∷ []) ∷ []) ∷ frame_with [] ([] ∷ []) ∷ []) }
    ensures of_its_columns { IsFrameOf (schema_a int8) (frame_with (schema_a int8) ((number 1 ∷ []) ∷ [])) }
    ensures not_of_columns { AllByRecursion {X = Ty × ℕ} (λ c. ¬ (IsFrameOf (schema_a c.0) (frame_with (schema_a int8) ((number c.1 ∷ []) ∷ [])))) ((uint8, 1) ∷ (int8, 128) ∷ []) }
{}

/// A column's name, type and values, and columns side by side as rows. A row past a column's end has null there.
pub fn columns_of_the_code()
    ensures values { map val_of (Null ∷ Truths true ∷ Truths false ∷ Int (minus 5) ∷ Text (codes "a") ∷ Text (codes "") ∷ []) ≡ null ∷ yes ∷ no ∷ negative 5 ∷ text "a" ∷ text "" ∷ [] }
    ensures heads { (some other : Values) → heads_of (column_with "a" Int8 some ∷ column_with "b" Boolean other ∷ []) ≡ schema_ab int8 Truth }
    ensures shown { (two : Values) → vals_of two ≡ number 1 ∷ null ∷ [] → shown (column_with "a" Int8 two) ≡ ((codes "a", int8), number 1 ∷ null ∷ []) }
    ensures heights { (two : Values) → vals_of two ≡ number 1 ∷ null ∷ [] → let a = column_with "a" Int8 two in count_of a ∷ map height_of ([] ∷ (a ∷ []) ∷ []) ≡ 2 ∷ 0 ∷ 2 ∷ [] }
    ensures rows { (two one : Values) → vals_of two ≡ number 1 ∷ yes ∷ [] → vals_of one ≡ number 5 ∷ [] →
        map (row_of (column_with "a" Int8 two ∷ column_with "b" Int8 one ∷ [])) (0 ∷ 1 ∷ 2 ∷ []) ≡ (number 1 ∷ number 5 ∷ []) ∷ (yes ∷ null ∷ []) ∷ (null ∷ null ∷ []) ∷ [] }
    ensures no_frame { framed [] ≡ empty_frame }
    ensures frame { (some other : Values) → vals_of some ≡ number 1 ∷ null ∷ [] → vals_of other ≡ yes ∷ no ∷ [] →
        framed (column_with "a" Int8 some ∷ column_with "b" Boolean other ∷ []) ≡ frame_with (schema_ab int8 Truth) ((number 1 ∷ yes ∷ []) ∷ (null ∷ no ∷ []) ∷ []) }
{}

/// The first value that doesn't fit is told with its row, the first column before the first row. Of two faults the first is.
pub fn first_faults()
    ensures misfits { MapsPairs (λ row values. misfit_from row (codes "a") int8 values) ((0, number 1 ∷ null ∷ [], None) ∷ (7, [], None)
        ∷ (0, number 128 ∷ number 129 ∷ [], Some (Misfit (codes "a") 0)) ∷ (3, number 1 ∷ null ∷ yes ∷ number 300 ∷ [], Some (Misfit (codes "a") 5)) ∷ []) }
    ensures two_faults { MapsPairs else_fault ((Some (Length (codes "a") 1 2), Some (Misfit (codes "a") 0), Some (Length (codes "a") 1 2))
        ∷ (None, Some (Misfit (codes "a") 0), Some (Misfit (codes "a") 0)) ∷ (None, None, None) ∷ []) }
    ensures third_length { (two one : Values) → vals_of two ≡ null ∷ null ∷ [] → vals_of one ≡ null ∷ [] →
        other_length 2 (column_with "a" Int8 two ∷ column_with "b" Int8 two ∷ column_with "c" Int8 one ∷ []) ≡ Some (Length (codes "c") 1 2) }
    ensures column_before_row { (some other : Values) → vals_of some ≡ null ∷ number 300 ∷ [] → vals_of other ≡ number 300 ∷ null ∷ [] →
        misfit (column_with "a" Int8 some ∷ column_with "b" Int8 other ∷ []) ≡ Some (Misfit (codes "a") 1) }
    ensures names { (some : Values) → MapsPairs (λ before names. repeated_name before (map (λ name. column_with name Int8 some) names))
        (([], "a" ∷ "b" ∷ "b" ∷ "a" ∷ [], Some (Duplicate (codes "b"))) ∷ ([], "a" ∷ "b" ∷ "a" ∷ [], Some (Duplicate (codes "a"))) ∷ (codes "a" ∷ [], "a" ∷ [], Some (Duplicate (codes "a"))) ∷ []) }
{}

/// What keeps columns from being a frame: a repeated name first, then a length, then a value.
pub fn columns_that_are_no_frame()
    ensures fitting { (two : Values) → vals_of two ≡ number 127 ∷ null ∷ [] → map frame_fault ([] ∷ (column_with "a" UInt8 two ∷ column_with "b" Int8 two ∷ []) ∷ []) ≡ None ∷ None ∷ [] }
    ensures name_before_length { (two one : Values) → vals_of two ≡ number 300 ∷ null ∷ [] → vals_of one ≡ null ∷ [] →
        map (λ name. frame_fault (column_with "a" Int8 two ∷ column_with name Int8 one ∷ [])) ("a" ∷ "b" ∷ []) ≡ Some (Duplicate (codes "a")) ∷ Some (Length (codes "b") 1 2) ∷ [] }
    ensures length { (two one : Values) → vals_of two ≡ number 1 ∷ null ∷ [] → vals_of one ≡ null ∷ [] → frame_fault (column_with "a" Int8 two ∷ column_with "b" Int8 one ∷ []) ≡ Some (Length (codes "b") 1 2) }
    ensures value { (two : Values) → vals_of two ≡ number 127 ∷ number 128 ∷ [] → frame_fault (column_with "a" UInt8 two ∷ column_with "b" Int8 two ∷ []) ≡ Some (Misfit (codes "b") 1) }
    ensures days_and_times { (days times : Values) → vals_of days ≡ negative 2147483648 ∷ null ∷ text "5" ∷ [] → vals_of times ≡ number 86399999999999
        ∷ number 86400000000000 ∷ [] → map frame_fault ((column_with "a" Date days ∷ []) ∷ (column_with "a" Time times ∷ []) ∷ []) ≡ Some (Misfit (codes "a") 2) ∷ Some (Misfit (codes "a") 1) ∷ [] }
{}

/// A refusal names the rule at the top, where the rule is broken, or is out of memory, which names no place.
pub fn refusals_of_calls()
    ensures at_top { no_memory ∷ at_top Twice ∷ [] ≡ record { kind = NoMemory; place = [] } ∷ record { kind = Twice; place = [] } ∷ [] }
    ensures memory { IsMemoryOr Twice (true ≡ false) no_memory }
    ensures kind { IsMemoryOr Twice (true ≡ true) (at_top Twice) }
    ensures unbroken { ¬ (IsMemoryOr Twice (true ≡ false) (at_top Twice)) }
    ensures others { AllByRecursion (λ error. ¬ (IsMemoryOr Twice (true ≡ true) error)) (at_top SchemaMismatch ∷ record { kind = Twice; place = 0 ∷ [] } ∷ []) }
    ensures answered { ¬ (IsRefusal {A = Ty} (Ok int8) (at_top SchemaMismatch)) }
    ensures refused { IsRefusal {A = Ty} (Err SchemaMismatch) (at_top SchemaMismatch) }
    ensures refused_otherwise { ¬ (IsRefusal {A = Ty} (Err SchemaMismatch) (at_top Twice)) }
{}

/// A cast is refused where a value fails, and columns with the fault that they have, or each as out of memory.
pub fn refusals_of_casts_and_columns()
    ensures casts { IsCastError Fails Failing × IsCastError (Gives null) NoRoom × IsPartsError None Failing × IsPartsError (Some no_value) NoRoom }
    ensures given { ¬ (IsCastError (Gives null) Failing) }
    ensures given_parts { ¬ (IsPartsError (Some no_value) Failing) }
    ensures columns { IsFault None NoSpace × IsFault (Some (Misfit (codes "a") 1)) (Misfit (codes "a") 1) × IsFault (Some (Misfit (codes "a") 1)) NoSpace }
    ensures other_faults { AllByRecursion {X = Option FrameError × FrameError} (λ c. ¬ (IsFault c.0 c.1))
        ((None, Duplicate (codes "a")) ∷ (Some (Misfit (codes "a") 1), Misfit (codes "a") 2) ∷ (Some (Duplicate (codes "a")), Duplicate (codes "b"))
        ∷ (Some (Length (codes "a") 1 2), Length (codes "a") 2 1) ∷ (Some (Duplicate (codes "a")), Misfit (codes "a") 0) ∷ []) }
{}

/// What comes to nothing goes no further, and what isn't stuck meets a property.
pub fn outcomes_one_after_another()
    ensures found { map (then_do (Done 3)) ((λ n. Done (n + 1)) ∷ (λ n. Fault) ∷ (λ n. Stuck) ∷ []) ≡ Done 4 ∷ Fault ∷ Stuck ∷ [] }
    ensures nothing { let next : ℕ → Outcome ℕ = λ n. Done (n + 1) in map (λ outcome. then_do outcome next) (Fault ∷ Stuck ∷ []) ≡ Fault ∷ Stuck ∷ [] }
    ensures meets { AllByRecursion (Meets {A = ℕ} (λ n. n ≡ 4)) (Fault ∷ Done 4 ∷ []) }
    ensures stuck_meets_nothing { ¬ (Meets {A = ℕ} (λ n. n ≡ n) Stuck) }
{}

/// Steps that are kept from the node upwards are read from the top.
pub fn places_of_steps()
    ensures { (one three : Vec ℕ) → one.items ≡ 3 ∷ [] → three.items ≡ 2 ∷ 0 ∷ 1 ∷ [] → map outermost_first (None ∷ Some one ∷ Some three ∷ []) ≡ [] ∷ (3 ∷ []) ∷ (1 ∷ 0 ∷ 2 ∷ []) ∷ [] }
{}
