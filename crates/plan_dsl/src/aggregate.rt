//! Aggregates: expressions of one value that is made of a column.
ghost use Rattle.std.specs.Prelude.{◌≡◌, ◌<◌, IfOk, IfErr};
ghost use Rattle.plan_types.specs.Errors.{no_memory};
ghost use Rattle.plan_dsl.specs.declared.aggregate.AggExpr.TheViews.{size-AggExpr, size-Expr};
ghost use Rattle.plan_dsl.specs.Expressions.{agg_tree, aggregated, input_tree, method_of, tree_of};
ghost use Rattle.plan_dsl.specs.SameExpressions.{method_rank};
ghost use Rattle.plan_dsl.specs.Sources.{same_source};
ghost use Rattle.plan_dsl.specs.Words.{method_name};

use crate::expr::Expr;
use plan_types::error::PlanError;
use std::alloc::Global;
use std::hash::{Hash, Hasher};

/// What is made of a column, whatever the column.
#[derive(Clone, Copy)]
pub enum GroupByMethod {
    /// The least value.
    Min,
    /// The least value. There is no number that is none, so that it is the same.
    NanMin,
    /// The greatest value.
    Max,
    /// The greatest value. There is no number that is none, so that it is the same.
    NanMax,
    /// How many distinct values there are, a null among them.
    NUnique,
    /// The first value.
    First,
    /// The last value.
    Last,
    /// The list of the values.
    Implode,
    /// The sum of the values that are not null.
    Sum,
    /// How many values there are.
    Count {
        /// Whether nulls are counted too.
        include_nulls: bool,
    },
    /// The list of the rows' numbers.
    Groups,
}

/// The number of a method: no two have the same.
pub fn method_rank(method: GroupByMethod) -> u8
    ensures { result ≡ method_rank method }
{
    match method {
        GroupByMethod::Min => 0,
        GroupByMethod::NanMin => 1,
        GroupByMethod::Max => 2,
        GroupByMethod::NanMax => 3,
        GroupByMethod::NUnique => 4,
        GroupByMethod::First => 5,
        GroupByMethod::Last => 6,
        GroupByMethod::Implode => 7,
        GroupByMethod::Sum => 8,
        GroupByMethod::Count { include_nulls } => { if include_nulls { 10 } else { 9 } }
        GroupByMethod::Groups => 11,
    }
}

impl GroupByMethod {
    /// What a query calls it.
    pub fn name(self) -> &'static str
        ensures { result.now ≡ method_name self }
    {
        match self {
            GroupByMethod::Min => "Min",
            GroupByMethod::NanMin => "NanMin",
            GroupByMethod::Max => "Max",
            GroupByMethod::NanMax => "NanMax",
            GroupByMethod::NUnique => "NUnique",
            GroupByMethod::First => "First",
            GroupByMethod::Last => "Last",
            GroupByMethod::Implode => "Implode",
            GroupByMethod::Sum => "Sum",
            GroupByMethod::Count { include_nulls } => {
                if include_nulls { "CountAll" } else { "Count" }
            }
            GroupByMethod::Groups => "AggGroups",
        }
    }
}

/// An aggregate of an expression. Contracts see its tree. Two aggregates are equal where these are, and each node is
/// hashed.
#[derive(Drop)]
#[cycle(expr)]
pub enum AggExpr {
    /// The least value. Nulls are left out.
    Min {
        input: Box<Expr>,
        /// It is kept and means nothing.
        propagate_nans: bool,
    },
    /// The greatest value. Nulls are left out.
    Max {
        input: Box<Expr>,
        /// It is kept and means nothing.
        propagate_nans: bool,
    },
    /// How many distinct values there are, a null among them.
    NUnique(Box<Expr>),
    /// The first value.
    First(Box<Expr>),
    /// The last value.
    Last(Box<Expr>),
    /// The list of the values.
    Implode(Box<Expr>),
    /// How many values there are, nulls with them where the flag says so.
    Count(Box<Expr>, bool),
    /// The sum of the values that are not null, which wraps around.
    Sum(Box<Expr>),
    /// The list of the rows' numbers.
    AggGroups(Box<Expr>),
}

// What is made of the expression below an aggregate, whatever its method.
macro_rules! below_aggregate {
    ($aggregate:expr, $input:ident => $made:expr) => {
        match $aggregate {
            AggExpr::Min { input: $input, .. } => $made,
            AggExpr::Max { input: $input, .. } => $made,
            AggExpr::NUnique($input) => $made,
            AggExpr::First($input) => $made,
            AggExpr::Last($input) => $made,
            AggExpr::Implode($input) => $made,
            AggExpr::Count($input, _) => $made,
            AggExpr::Sum($input) => $made,
            AggExpr::AggGroups($input) => $made,
        }
    };
}

impl AggExpr {
    /// The aggregate of an expression by that method.
    pub fn of(method: GroupByMethod, input: Box<Expr>) -> AggExpr
        ensures { agg_tree result ≡ aggregated method (tree_of input.value) }
    {
        match method {
            GroupByMethod::Min => AggExpr::Min {
                input,
                propagate_nans: false,
            },
            GroupByMethod::NanMin => AggExpr::Min {
                input,
                propagate_nans: true,
            },
            GroupByMethod::Max => AggExpr::Max {
                input,
                propagate_nans: false,
            },
            GroupByMethod::NanMax => AggExpr::Max {
                input,
                propagate_nans: true,
            },
            GroupByMethod::NUnique => AggExpr::NUnique(input),
            GroupByMethod::First => AggExpr::First(input),
            GroupByMethod::Last => AggExpr::Last(input),
            GroupByMethod::Implode => AggExpr::Implode(input),
            GroupByMethod::Sum => AggExpr::Sum(input),
            GroupByMethod::Count { include_nulls } => AggExpr::Count(input, include_nulls),
            GroupByMethod::Groups => AggExpr::AggGroups(input),
        }
    }

    /// What it makes of its expression.
    pub fn method(&self) -> GroupByMethod
        ensures { result ≡ method_of self.now }
    {
        match self {
            AggExpr::Min { propagate_nans, .. } => {
                if *propagate_nans {
                    GroupByMethod::NanMin
                } else {
                    GroupByMethod::Min
                }
            }
            AggExpr::Max { propagate_nans, .. } => {
                if *propagate_nans {
                    GroupByMethod::NanMax
                } else {
                    GroupByMethod::Max
                }
            }
            AggExpr::NUnique(_) => GroupByMethod::NUnique,
            AggExpr::First(_) => GroupByMethod::First,
            AggExpr::Last(_) => GroupByMethod::Last,
            AggExpr::Implode(_) => GroupByMethod::Implode,
            AggExpr::Count(_, include_nulls) => GroupByMethod::Count {
                include_nulls: *include_nulls,
            },
            AggExpr::Sum(_) => GroupByMethod::Sum,
            AggExpr::AggGroups(_) => GroupByMethod::Groups,
        }
    }

    /// What it is made of, which is less deep.
    pub fn into_input(self) -> Box<Expr>
        ensures tree { input_tree self ≡ tree_of result.value }
        ensures below { size-Expr result.value < size-AggExpr self }
    {
        below_aggregate!(self, input => input)
    }

    // Whether both are one tree: the same method over the same expression.
    #[cycle(same_exprs)]
    pub(crate) fn is_same(&self, other: &AggExpr) -> bool
        ensures { result ≡ same_source (agg_tree self.now) (agg_tree other.now) }
    {
        method_rank(self.method()) == method_rank(other.method())
            && self.as_ref().is_same(other.as_ref())
    }

    pub fn try_clone(&self, alloc: Global) -> Result<AggExpr, PlanError>
        ensures ok { IfOk result (λ copy. agg_tree copy ≡ agg_tree self.now) }
        ensures err { IfErr result (λ error. error ≡ no_memory) }
    {
        let input = self.as_ref().try_clone(alloc)?;
        let input = Box::new(alloc, input)?;
        Ok(AggExpr::of(self.method(), input))
    }
}

impl AsRef<Expr> for AggExpr {
    /// What it is made of, which is less deep.
    fn as_ref(&self) -> &Expr
        ensures tree { input_tree self.now ≡ tree_of result.now }
        ensures below { size-Expr result.now < size-AggExpr self.now }
    {
        below_aggregate!(self, input => input)
    }
}

impl From<AggExpr> for Expr {
    ghost use Rattle.std.specs.Prelude.{◌≡◌};
    ghost use Rattle.plan_dsl.specs.Expressions.{agg_tree, tree_of};

    ghost from_gives = { λ aggregate expr. tree_of expr ≡ agg_tree aggregate };

    fn from(value: AggExpr) -> Expr {
        Expr::Agg(value)
    }
}

impl PartialEq for AggExpr {
    ghost use Rattle.std.specs.Cmp.{partial_equiv_from_equiv};
    ghost use Rattle.plan_dsl.specs.Sources.{same_source};
    ghost use Rattle.plan_dsl.specs.Expressions.{agg_tree};
    ghost use Rattle.plan_dsl.specs.ViewLaws.{same_aggregate_is_equivalence};

    ghost eq = { λ a b. same_source (agg_tree a) (agg_tree b) };

    ghost laws = { partial_equiv_from_equiv same_aggregate_is_equivalence };

    fn eq(&self, other: &AggExpr) -> bool {
        self.is_same(other)
    }
}

impl Eq for AggExpr {
    ghost use Rattle.plan_dsl.specs.ViewLaws.{same_aggregate_is_equivalence};

    ghost laws = { same_aggregate_is_equivalence };
}

impl Hash for AggExpr {
    ghost use Rattle.plan_dsl.specs.Expressions.{agg_tree};
    ghost use Rattle.plan_dsl.specs.Sources.{source_writes};
    ghost use Rattle.plan_dsl.specs.ViewLaws.{same_aggregate_hash};

    ghost hash_input = { λ a. source_writes (agg_tree a) };

    ghost respects_eq = { same_aggregate_hash };

    fn hash<H: Hasher>(&self, state: &mut H) {
        state.write_u8(21);
        state.write_u8(method_rank(self.method()));
        self.as_ref().feed(state);
    }
}
