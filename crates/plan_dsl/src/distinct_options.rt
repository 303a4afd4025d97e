//! Which rows are kept of equal ones.
ghost use Rattle.std.specs.Prelude.{◌≡◌, IfOk, IfErr};
ghost use Rattle.std.specs.Option.{option_map};
ghost use Rattle.plan_types.specs.Errors.{no_memory};
ghost use Rattle.plan_dsl.specs.Expressions.{selector_trees};
ghost use Rattle.plan_dsl.specs.Plans.{column_names};

use crate::marker::names_copied;
use crate::selector::Selectors;
use plan_types::error::PlanError;
use plan_types::text::PlSmallStr;
use std::alloc::Global;

/// Which row is kept of each group of equal ones: the first, the last, none unless the group is that row alone, or any (which is the
/// first).
#[derive(Clone, Copy, PartialEq, Eq, Hash)]
pub enum UniqueKeepStrategy {
    First,
    Last,
    None,
    Any,
}

/// By which columns rows are equal, without a subset by all, and which of equal rows is kept. Whether rows keep their order
/// means nothing here: they always do.
#[derive(Drop)]
pub struct DistinctOptionsDSL {
    pub subset: Option<Selectors>,
    pub maintain_order: bool,
    pub keep_strategy: UniqueKeepStrategy,
}

impl DistinctOptionsDSL {
    pub fn try_clone(&self, alloc: Global) -> Result<DistinctOptionsDSL, PlanError>
        ensures subset { IfOk result (λ copy. option_map selector_trees copy.subset ≡ option_map selector_trees self.now.subset) }
        ensures order { IfOk result (λ copy. copy.maintain_order ≡ self.now.maintain_order) }
        ensures keep { IfOk result (λ copy. copy.keep_strategy ≡ self.now.keep_strategy) }
        ensures err { IfErr result (λ error. error ≡ no_memory) }
    {
        let subset = match &self.subset {
            Some(selectors) => Some(selectors.try_clone(alloc)?),
            None => None,
        };
        Ok(DistinctOptionsDSL {
            subset,
            maintain_order: self.maintain_order,
            keep_strategy: self.keep_strategy,
        })
    }
}

/// Names of columns, in order.
#[derive(Drop, PartialEq, Eq, Hash)]
pub struct ColumnNames {
    pub items: Vec<PlSmallStr>,
}

impl ColumnNames {
    pub fn try_clone(&self, alloc: Global) -> Result<ColumnNames, PlanError>
        ensures ok { IfOk result (λ copy. copy.items.items ≡ self.now.items.items) }
        ensures err { IfErr result (λ error. error ≡ no_memory) }
    {
        let items = names_copied(self.items.as_slice(), alloc)?;
        Ok(ColumnNames { items })
    }
}

/// By which named columns rows are equal, without a subset by all, and which of equal rows is kept.
#[derive(Drop)]
pub struct DistinctOptionsIR {
    pub subset: Option<ColumnNames>,
    pub maintain_order: bool,
    pub keep_strategy: UniqueKeepStrategy,
}

impl DistinctOptionsIR {
    pub fn try_clone(&self, alloc: Global) -> Result<DistinctOptionsIR, PlanError>
        ensures subset { IfOk result (λ copy. column_names copy.subset ≡ column_names self.now.subset) }
        ensures order { IfOk result (λ copy. copy.maintain_order ≡ self.now.maintain_order) }
        ensures keep { IfOk result (λ copy. copy.keep_strategy ≡ self.now.keep_strategy) }
        ensures err { IfErr result (λ error. error ≡ no_memory) }
    {
        let subset = match &self.subset {
            Some(names) => Some(names.try_clone(alloc)?),
            None => None,
        };
        Ok(DistinctOptionsIR {
            subset,
            maintain_order: self.maintain_order,
            keep_strategy: self.keep_strategy,
        })
    }
}
