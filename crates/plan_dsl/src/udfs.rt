//! The registry of functions that a caller brings.
ghost use Rattle.std.specs.Prelude.{◌≡◌, []};
ghost use Rattle.plan_dsl.specs.Registry.{registry};

use std::alloc::Global;

/// The functions that expressions and plans name by number. None can be registered yet.
#[derive(Drop)]
pub struct Udfs {}

impl Udfs {
    /// A registry without functions.
    pub fn new(_alloc: Global) -> Udfs
        ensures { registry result ≡ [] }
    {
        Udfs {}
    }
}
