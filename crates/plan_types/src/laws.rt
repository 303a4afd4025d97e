//! Laws of the definitions. The functions do nothing: their clauses are the laws.

ghost use Rattle.std.specs.Prelude.{◌≡◌, ◌≢◌, ◌⊎◌, ℤ, true, List, Some, Ok};
ghost use Rattle.std.specs.List.{AllByRecursion};
ghost use Rattle.plan_types.specs.Types.{Ty, Untyped, is_integer, is_known};
ghost use Rattle.plan_types.specs.Casts.{Gives, Fails, can_cast, cast};
ghost use Rattle.plan_types.specs.Columns.{HasDistinctNames};
ghost use Rattle.plan_types.specs.CommonTypes.{common_type, type_beside};
ghost use Rattle.plan_types.specs.FrameViews.{frame_of};
ghost use Rattle.plan_types.specs.Frames.{IsFrame};
ghost use Rattle.plan_types.specs.Schemas.{columns};
ghost use Rattle.plan_types.specs.Supertypes.{supertype};
ghost use Rattle.plan_types.specs.TypeOrder.{is_below, folded_type};
ghost use Rattle.plan_types.specs.Values.{Val, fits, in_range};
ghost use Rattle.plan_types.specs.declared.dtype.CastOptions.{CastOptions};
ghost use Rattle.plan_types.specs.declared.dtype.CastOptions.TheVariants.{Strict};
ghost use Rattle.plan_types.specs.declared.frame.Frame.{Frame};
ghost use Rattle.plan_types.specs.declared.schema.Schema.{Schema};

/// A common type doesn't depend on the order, a type has itself with itself, and a common type of integers has each
/// number that one of the two has. There is a cast from each of two types to their common type.
pub fn supertype_laws()
    ensures symmetric { (a b : Ty) → supertype a b ≡ supertype b a }
    ensures itself { (a : Ty) → supertype a a ≡ Some a }
    ensures holds_both { (a b c : Ty) (number : ℤ) → is_integer c ≡ true → supertype a b ≡ Some c
        → (in_range a number ≡ true) ⊎ (in_range b number ≡ true) → in_range c number ≡ true }
    ensures casts { (a b c : Ty) → is_known a ≡ true → is_known b ≡ true → supertype a b ≡ Some c
        → (can_cast a c ≡ true) × (can_cast b c ≡ true) }
{}

/// Types are in an order, in which each of two types is below their common type, and a type above another is the common
/// type of both. A type of integers has each number of those below it, and there is a cast from each type to the types of
/// columns above it. Of types that are folded each is below what was found. Where they are types of columns so is this,
/// and there is a cast from each to it.
pub fn type_order_laws()
    ensures itself { (a : Ty) → is_below a a ≡ true }
    ensures transitive { (a b c : Ty) → is_below a b ≡ true → is_below b c ≡ true → is_below a c ≡ true }
    ensures antisymmetric { (a b : Ty) → is_below a b ≡ true → is_below b a ≡ true → a ≡ b }
    ensures above { (a b c : Ty) → supertype a b ≡ Some c → (is_below a c ≡ true) × (is_below b c ≡ true) }
    ensures common { (a b : Ty) → is_below a b ≡ true → supertype a b ≡ Some b }
    ensures holds { (a b : Ty) (number : ℤ) → is_integer b ≡ true → is_below a b ≡ true → in_range a number ≡ true → in_range b number ≡ true }
    ensures casts { (a b : Ty) → is_known b ≡ true → is_below a b ≡ true → can_cast a b ≡ true }
    ensures folds { (types : List Ty) (c : Ty) → folded_type types ≡ Some c → AllByRecursion (λ type. is_below type c ≡ true) types }
    ensures folds_known { (types : List Ty) (c : Ty) → AllByRecursion (λ type. is_known type ≡ true) types → folded_type types ≡ Some c
        → is_known c ≡ true }
    ensures folds_cast { (types : List Ty) (c : Ty) → AllByRecursion (λ type. is_known type ≡ true) types → folded_type types ≡ Some c
        → AllByRecursion (λ type. can_cast type c ≡ true) types }
{}

/// The common type of two operands doesn't depend on the order and is a type of columns. Of operands of one
/// such type it is that type, and one of integers has the number of an operand without a type. There is a cast to it
/// from the type that an operand gets.
pub fn common_type_laws()
    ensures symmetric { (a b : Ty) → common_type a b ≡ common_type b a }
    ensures known { (a b c : Ty) → common_type a b ≡ Ok c → is_known c ≡ true }
    ensures itself { (a : Ty) → is_known a ≡ true → common_type a a ≡ Ok a }
    ensures has_number { (number : ℤ) (b c : Ty) → is_integer c ≡ true → common_type (Untyped number) b ≡ Ok c → in_range c number ≡ true }
    ensures casts { (a b c own : Ty) → common_type a b ≡ Ok c → type_beside a b ≡ Some own → can_cast own c ≡ true }
{}

/// There is a cast from each type of columns to itself, which changes no value. A cast that isn't strict never fails,
/// and what a cast gives of a fitting value fits its target.
pub fn cast_laws()
    ensures itself { (value : Val) (type : Ty) (options : CastOptions) → fits value type ≡ true
        → cast value type type options ≡ Gives value }
    ensures never_fails { (value : Val) (from target : Ty) (options : CastOptions) → options ≢ Strict → cast value from target options ≢ Fails }
    ensures fits { (value converted : Val) (from target : Ty) (options : CastOptions) → fits value from ≡ true → can_cast from target ≡ true
        → cast value from target options ≡ Gives converted → fits converted target ≡ true }
    ensures own { (a : Ty) → is_known a ≡ true → can_cast a a ≡ true }
{}

/// The names of each schema are distinct, and each frame is one: its names are distinct, its values fit their columns'
/// types, and without columns it has no rows.
pub fn frame_laws()
    ensures schema { (schema : Schema) → HasDistinctNames (columns schema) }
    ensures frame { (frame : Frame) → IsFrame (frame_of frame) }
{}
