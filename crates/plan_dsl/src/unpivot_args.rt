//! Which values an unpivot puts below each other, and beside what.
ghost use Rattle.std.specs.Prelude.{◌≡◌, IfOk, IfErr};
ghost use Rattle.plan_types.specs.Errors.{no_memory};
ghost use Rattle.plan_dsl.specs.Expressions.{selector_trees};

use crate::distinct_options::ColumnNames;
use crate::selector::Selectors;
use plan_types::error::PlanError;
use plan_types::text::PlSmallStr;
use std::alloc::Global;

/// The columns whose values an unpivot puts below each other, those beside which they stand, and the names of the two columns
/// that it makes, by default `variable` and `value`. Of no columns they are the values of all that aren't in the index.
#[derive(Drop)]
pub struct UnpivotArgsDSL {
    pub on: Selectors,
    pub index: Selectors,
    pub variable_name: Option<PlSmallStr>,
    pub value_name: Option<PlSmallStr>,
}

impl UnpivotArgsDSL {
    pub fn try_clone(&self, alloc: Global) -> Result<UnpivotArgsDSL, PlanError>
        ensures on { IfOk result (λ copy. selector_trees copy.on ≡ selector_trees self.now.on) }
        ensures index { IfOk result (λ copy. selector_trees copy.index ≡ selector_trees self.now.index) }
        ensures variable { IfOk result (λ copy. copy.variable_name ≡ self.now.variable_name) }
        ensures value { IfOk result (λ copy. copy.value_name ≡ self.now.value_name) }
        ensures err { IfErr result (λ error. error ≡ no_memory) }
    {
        let variable_name = name_copied(&self.variable_name, alloc)?;
        let value_name = name_copied(&self.value_name, alloc)?;
        let on = self.on.try_clone(alloc)?;
        let index = self.index.try_clone(alloc)?;
        Ok(UnpivotArgsDSL {
            on,
            index,
            variable_name,
            value_name,
        })
    }
}

/// The columns whose values an unpivot puts below each other, those beside which they stand, and the names of the two columns
/// that it makes, by default `variable` and `value`. Of no columns they are the values of all that aren't in the index.
#[derive(Drop, PartialEq, Eq, Hash)]
pub struct UnpivotArgsIR {
    pub on: ColumnNames,
    pub index: ColumnNames,
    pub variable_name: Option<PlSmallStr>,
    pub value_name: Option<PlSmallStr>,
}

impl UnpivotArgsIR {
    pub fn try_clone(&self, alloc: Global) -> Result<UnpivotArgsIR, PlanError>
        ensures on { IfOk result (λ copy. copy.on.items.items ≡ self.now.on.items.items) }
        ensures index { IfOk result (λ copy. copy.index.items.items ≡ self.now.index.items.items) }
        ensures variable { IfOk result (λ copy. copy.variable_name ≡ self.now.variable_name) }
        ensures value { IfOk result (λ copy. copy.value_name ≡ self.now.value_name) }
        ensures err { IfErr result (λ error. error ≡ no_memory) }
    {
        let variable_name = name_copied(&self.variable_name, alloc)?;
        let value_name = name_copied(&self.value_name, alloc)?;
        let on = self.on.try_clone(alloc)?;
        let index = self.index.try_clone(alloc)?;
        Ok(UnpivotArgsIR {
            on,
            index,
            variable_name,
            value_name,
        })
    }
}

// A copy of a name, if there is one.
fn name_copied(name: &Option<PlSmallStr>, alloc: Global) -> Result<Option<PlSmallStr>, PlanError>
    ensures ok { IfOk result (λ copy. copy ≡ name.now) }
    ensures err { IfErr result (λ error. error ≡ no_memory) }
{
    match name {
        Some(name) => Ok(Some(name.try_clone(alloc)?)),
        None => Ok(None),
    }
}
