//! Which row is kept of equal ones, by its name.
ghost use Rattle.std.specs.Prelude.{◌≡◌};
ghost use Rattle.serde_json.specs.View.{view};
ghost use Rattle.plan_json.specs.Faults.{a_keep};
ghost use Rattle.plan_json.specs.Leaves.{keep_named, keep_of};
ghost use Rattle.plan_json.specs.Readers.{IsReading};

use super::error::JsonError;
use super::value::named;
use plan_dsl::distinct_options::UniqueKeepStrategy;
use serde_json::Value;
use std::alloc::Global;

// Which row is kept, by its name.
pub(crate) fn read_keep(alloc: Global, value: &Value) -> Result<UniqueKeepStrategy, JsonError>
    ensures { IsReading keep_of a_keep (view value.now) result (λ keep. keep) }
{
    named!(alloc, value, keep_named)
}

// The strategy of that name.
fn keep_named(name: &str) -> Option<UniqueKeepStrategy>
    ensures { result ≡ keep_named name.now }
{
    match name {
        "First" => Some(UniqueKeepStrategy::First),
        "Last" => Some(UniqueKeepStrategy::Last),
        "None" => Some(UniqueKeepStrategy::None),
        "Any" => Some(UniqueKeepStrategy::Any),
        _ => None,
    }
}
