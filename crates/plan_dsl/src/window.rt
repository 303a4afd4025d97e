//! Windows: functions that are asked on groups of rows.
ghost use Rattle.std.specs.Prelude.{◌≡◌, IfOk, IfErr};

use plan_types::error::PlanError;
use std::alloc::Global;

/// What becomes of the values of the groups.
#[derive(Clone, Copy, PartialEq, Eq, Hash)]
pub enum WindowType {
    /// They go to the places of their rows.
    GroupsToRows,
}

impl WindowType {
    /// A copy. It takes no memory.
    pub fn try_clone(&self, _alloc: Global) -> Result<WindowType, PlanError>
        ensures ok { IfOk result (λ copy. copy ≡ self.now) }
        ensures err { IfErr result (λ error. ⊥) }
    {
        Ok(*self)
    }
}
