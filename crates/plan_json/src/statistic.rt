//! What is taken of each column, by its name.
ghost use Rattle.std.specs.Prelude.{◌≡◌};
ghost use Rattle.serde_json.specs.View.{view};
ghost use Rattle.plan_json.specs.Faults.{a_statistic};
ghost use Rattle.plan_json.specs.Leaves.{statistic_named, statistic_of};
ghost use Rattle.plan_json.specs.Readers.{IsReading};

use super::error::JsonError;
use super::value::named;
use plan_dsl::function::StatsFunction;
use serde_json::Value;
use std::alloc::Global;

// A statistic, by its name.
pub(crate) fn read_statistic(alloc: Global, value: &Value) -> Result<StatsFunction, JsonError>
    ensures { IsReading statistic_of a_statistic (view value.now) result (λ statistic. statistic) }
{
    named!(alloc, value, statistic_named)
}

// The statistic of that name.
fn statistic_named(name: &str) -> Option<StatsFunction>
    ensures { result ≡ statistic_named name.now }
{
    match name {
        "Sum" => Some(StatsFunction::Sum),
        "Min" => Some(StatsFunction::Min),
        "Max" => Some(StatsFunction::Max),
        _ => None,
    }
}
