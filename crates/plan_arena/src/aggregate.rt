//! Aggregates in an arena.
ghost use Rattle.std.specs.Prelude.{◌≡◌};
ghost use Rattle.plan_dsl.specs.SameExpressions.{method_rank};
ghost use Rattle.plan_arena.specs.Aggregates.{method_at, input_at};

use crate::arena::Node;
use plan_dsl::aggregate::{GroupByMethod, method_rank};
use std::hash::{Hash, Hasher};

/// An aggregate of a node. It is hashed by what it makes of its input, whatever the input is.
#[derive(Clone, Copy, Debug)]
pub enum IRAggExpr {
    /// The least value. Nulls are left out.
    Min {
        input: Node,
        /// It is kept and means nothing.
        propagate_nans: bool,
    },
    /// The greatest value. Nulls are left out.
    Max {
        input: Node,
        /// It is kept and means nothing.
        propagate_nans: bool,
    },
    /// How many distinct values there are, a null among them.
    NUnique(Node),
    /// The first value.
    First(Node),
    /// The last value.
    Last(Node),
    /// The list of the values.
    Implode(Node),
    /// How many values there are, nulls with them where the flag says so.
    Count(Node, bool),
    /// The sum of the values that are not null, which wraps around.
    Sum(Node),
    /// The list of the rows' numbers.
    AggGroups(Node),
}

/// The inputs of an aggregate.
#[derive(Clone, Copy)]
pub enum NodeInputs {
    /// None.
    Leaf,
    /// One.
    Single(Node),
}

impl NodeInputs {
    /// The one input.
    pub fn first(&self) -> Node
        requires { (node : Node) × (self.now ≡ NodeInputs.Single node) }
        ensures { self.now ≡ NodeInputs.Single result }
    {
        match self {
            NodeInputs::Single(node) => *node,
            NodeInputs::Leaf => unreachable!(),
        }
    }
}

// What is made of the input of an aggregate, whatever its method.
macro_rules! below {
    ($aggregate:expr, $input:ident => $made:expr) => {
        match $aggregate {
            IRAggExpr::Min { input: $input, .. } => $made,
            IRAggExpr::Max { input: $input, .. } => $made,
            IRAggExpr::NUnique($input) => $made,
            IRAggExpr::First($input) => $made,
            IRAggExpr::Last($input) => $made,
            IRAggExpr::Implode($input) => $made,
            IRAggExpr::Count($input, _) => $made,
            IRAggExpr::Sum($input) => $made,
            IRAggExpr::AggGroups($input) => $made,
        }
    };
}

impl IRAggExpr {
    /// The aggregate of a node by that method.
    pub fn of(method: GroupByMethod, input: Node) -> IRAggExpr
        ensures method { method_at result ≡ method }
        ensures input { input_at result ≡ input }
    {
        match method {
            GroupByMethod::Min => IRAggExpr::Min {
                input,
                propagate_nans: false,
            },
            GroupByMethod::NanMin => IRAggExpr::Min {
                input,
                propagate_nans: true,
            },
            GroupByMethod::Max => IRAggExpr::Max {
                input,
                propagate_nans: false,
            },
            GroupByMethod::NanMax => IRAggExpr::Max {
                input,
                propagate_nans: true,
            },
            GroupByMethod::NUnique => IRAggExpr::NUnique(input),
            GroupByMethod::First => IRAggExpr::First(input),
            GroupByMethod::Last => IRAggExpr::Last(input),
            GroupByMethod::Implode => IRAggExpr::Implode(input),
            GroupByMethod::Sum => IRAggExpr::Sum(input),
            GroupByMethod::Count { include_nulls } => IRAggExpr::Count(input, include_nulls),
            GroupByMethod::Groups => IRAggExpr::AggGroups(input),
        }
    }

    /// The inputs, of which there is one.
    pub fn get_input(&self) -> NodeInputs
        ensures { result ≡ NodeInputs.Single (input_at self.now) }
    {
        below!(self, input => NodeInputs::Single(*input))
    }

    /// Puts another input in place of its own.
    pub fn set_input(&mut self, input: Node)
        ensures method { method_at self.new ≡ method_at self.old }
        ensures input { input_at self.new ≡ input }
        ensures same { input ≡ input_at self.old → self.new ≡ self.old }
    {
        below!(self, own => *own = input)
    }

    // What it makes of its input.
    fn method(self) -> GroupByMethod
        ensures { result ≡ method_at self }
    {
        match self {
            IRAggExpr::Min { propagate_nans, .. } => {
                if propagate_nans {
                    GroupByMethod::NanMin
                } else {
                    GroupByMethod::Min
                }
            }
            IRAggExpr::Max { propagate_nans, .. } => {
                if propagate_nans {
                    GroupByMethod::NanMax
                } else {
                    GroupByMethod::Max
                }
            }
            IRAggExpr::NUnique(_) => GroupByMethod::NUnique,
            IRAggExpr::First(_) => GroupByMethod::First,
            IRAggExpr::Last(_) => GroupByMethod::Last,
            IRAggExpr::Implode(_) => GroupByMethod::Implode,
            IRAggExpr::Count(_, include_nulls) => GroupByMethod::Count { include_nulls },
            IRAggExpr::Sum(_) => GroupByMethod::Sum,
            IRAggExpr::AggGroups(_) => GroupByMethod::Groups,
        }
    }
}

impl From<IRAggExpr> for GroupByMethod {
    ghost use Rattle.std.specs.Prelude.{◌≡◌};
    ghost use Rattle.plan_arena.specs.Aggregates.{method_at};

    ghost from_gives = { λ aggregate method. method ≡ method_at aggregate };

    fn from(value: IRAggExpr) -> GroupByMethod {
        value.method()
    }
}

impl PartialEq for IRAggExpr {
    ghost use Rattle.std.specs.Cmp.{partial_equiv_from_equiv};
    ghost use Rattle.plan_arena.specs.Aggregates.{same_aggregate, same_aggregate_is_equivalence};

    ghost eq = { same_aggregate };

    ghost laws = { partial_equiv_from_equiv same_aggregate_is_equivalence };

    fn eq(&self, other: &IRAggExpr) -> bool {
        method_rank(self.method()) == method_rank(other.method())
            && self.get_input().first().0 == other.get_input().first().0
    }
}

impl Eq for IRAggExpr {
    ghost use Rattle.plan_arena.specs.Aggregates.{same_aggregate_is_equivalence};

    ghost laws = { same_aggregate_is_equivalence };
}

impl Hash for IRAggExpr {
    ghost use Rattle.plan_arena.specs.Aggregates.{aggregate_writes, same_aggregate_hash};

    ghost hash_input = { aggregate_writes };

    ghost respects_eq = { same_aggregate_hash };

    fn hash<H: Hasher>(&self, state: &mut H) {
        state.write_u8(method_rank(self.method()));
    }
}
