//! Laws of the definitions. The functions do nothing: their clauses are the laws.
ghost use Rattle.plan_bounds.specs.Laws.{AddsNeededCasts, AddsNoIdleCast, AddsNoNode, LeavesWideHorizontals, SettlingAddsNothing, SplittingAddsNoNode, SplittingKeepsCasts, SplittingKeepsIdleCasts, SplittingKeepsSize, SplittingLeavesWideHorizontals, TakenHorizontalsAreWide, WritingOutIsCounted};
ghost use Rattle.plan_bounds.specs.PlanLaws.{StrictPlansHaveNeededCasts};

/// A typed expression with every cast written out, without those that can be told beforehand, has no more casts than it
/// needs: those that the query wrote, and one for each operand of another type than the one to which it is taken, but for a
/// number without a type for which a literal of the type stands. It has no more other nodes than before, and no more casts to
/// the type that their operand has. Each horizontal in it is over 128 operands at least where each was before, as in a query's
/// expression as a lowered plan takes it: there one over fewer is written out, and the whole has no more casts and nodes than
/// with horizontals as nodes that count as written out. A number without a type at the top that gets one, before casts are
/// written out, changes none of these counts. So a plan whose expressions are strict, as a lowered one's are, needs
/// just as many casts as it has.
pub fn coercion_bounds()
    ensures casts { AddsNeededCasts }
    ensures other_nodes { AddsNoNode }
    ensures idle { AddsNoIdleCast }
    ensures taken { TakenHorizontalsAreWide }
    ensures written { LeavesWideHorizontals }
    ensures spelled { WritingOutIsCounted }
    ensures settled { SettlingAddsNothing }
    ensures plans { StrictPlansHaveNeededCasts }
{}

/// The parts to which a filter is split have together the casts of the whole, no more other nodes, and as many casts to the
/// type that their operand has. Of a condition, the filters by them and their nodes are no more than the one by the whole
/// with its own: each conjunction that goes makes room for a filter. They have no horizontal over fewer than 128 operands
/// where the whole has none.
pub fn splitting_bounds()
    ensures casts { SplittingKeepsCasts }
    ensures other_nodes { SplittingAddsNoNode }
    ensures size { SplittingKeepsSize }
    ensures idle { SplittingKeepsIdleCasts }
    ensures wide { SplittingLeavesWideHorizontals }
{}
