//! Laws of the definitions. The functions do nothing: their clauses are the laws.
ghost use Rattle.plan_properties.specs.Laws.{ElementwiseGoesByRows, PushdownsHaveNoFault, RowsDecide, ScalarsHaveOneValue};
ghost use Rattle.plan_properties.specs.Splitting.{PartsAreConditions, SplittingKeepsFrames, SplittingKeepsPlans, SplittingKeepsSchemas};

/// An elementwise expression gives on rows, of which there is one at least, what each row gives by itself, with a fault
/// where some row has one; where it has no other length than one, it gives the same on any rows. What a row gives hangs on
/// that row alone, and on literals. A column that a scalar expression gives has one value, whatever the rows. An expression
/// that a filter may come before has no data fault, and a value for each row, or one where it has no other length.
pub fn property_laws()
    ensures elementwise { ElementwiseGoesByRows }
    ensures rows { RowsDecide }
    ensures scalar { ScalarsHaveOneValue }
    ensures pushdown { PushdownsHaveNoFault }
{}

/// Filters by the parts of a condition that can be moved give of a frame what the one by the whole gives; each part is a
/// condition by itself. So a filter of a plan, split, gives on tables what it gives whole, and has its input's schema.
pub fn splitting_laws()
    ensures frames { SplittingKeepsFrames }
    ensures parts { PartsAreConditions }
    ensures plans { SplittingKeepsPlans }
    ensures schemas { SplittingKeepsSchemas }
{}
