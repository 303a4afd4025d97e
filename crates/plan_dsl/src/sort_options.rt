//! How columns are sorted.
ghost use Rattle.std.specs.Prelude.{◌≡◌, IfOk, IfErr};
ghost use Rattle.plan_types.specs.Errors.{no_memory};
ghost use Rattle.plan_dsl.specs.Expressions.{sort_by_op};

use plan_types::error::PlanError;
use std::alloc::Global;

/// How a column is sorted: from the greatest on or from the least, and whether nulls come last, else first.
#[derive(Clone, Copy, PartialEq, Eq, Hash)]
pub struct SortOptions {
    pub descending: bool,
    pub nulls_last: bool,
}

/// A flag for each key, in order, or one for all keys. They stand in a box, so that no node is wider for them.
#[derive(Drop, PartialEq, Eq, Hash)]
pub struct Flags {
    pub items: Box<Vec<bool>>,
}

impl Flags {
    pub fn try_clone(&self, alloc: Global) -> Result<Flags, PlanError>
        ensures ok { IfOk result (λ copy. copy.items.value.items ≡ self.now.items.value.items) }
        ensures err { IfErr result (λ error. error ≡ no_memory) }
    {
        let items = Vec::from_slice(alloc, self.items.as_slice())?;
        Ok(Flags {
            items: Box::new(alloc, items)?,
        })
    }
}

/// How values are sorted by keys.
#[derive(Drop, PartialEq, Eq, Hash)]
pub struct SortMultipleOptions {
    pub descending: Flags,
    pub nulls_last: Flags,
}

impl SortMultipleOptions {
    pub fn try_clone(&self, alloc: Global) -> Result<SortMultipleOptions, PlanError>
        ensures ok { IfOk result (λ copy. sort_by_op copy ≡ sort_by_op self.now) }
        ensures err { IfErr result (λ error. error ≡ no_memory) }
    {
        Ok(SortMultipleOptions {
            descending: self.descending.try_clone(alloc)?,
            nulls_last: self.nulls_last.try_clone(alloc)?,
        })
    }
}
