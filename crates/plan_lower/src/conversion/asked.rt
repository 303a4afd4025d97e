//! What is asked of expressions as they are lowered.

use plan_types::error::ErrorKind;

/// What is asked of each of some expressions: a name that none before it has, where another breaks that kind of rule, or a
/// type, that of truth values or one whose values have an order.
#[derive(Clone, Copy)]
pub(crate) enum Asked {
    NewName(ErrorKind),
    TruthValue,
    Order,
}

impl Asked {
    /// Room for the columns that are made of so many expressions.
    pub(crate) fn room(self, count: usize) -> usize {
        match self {
            Asked::NewName(_) => count,
            Asked::TruthValue | Asked::Order => 0,
        }
    }
}
