//! Methods of aggregates, by their names.
ghost use Rattle.std.specs.Prelude.{◌≡◌};
ghost use Rattle.serde_json.specs.View.{view};
ghost use Rattle.plan_json.specs.Faults.{a_method};
ghost use Rattle.plan_json.specs.Leaves.{count_named, method_named, method_of, value_named};
ghost use Rattle.plan_json.specs.Readers.{IsReading};

use super::error::JsonError;
use super::value::named;
use plan_dsl::aggregate::GroupByMethod;
use serde_json::Value;
use std::alloc::Global;

// The method of an aggregate, by its name.
pub(crate) fn read_method(alloc: Global, value: &Value) -> Result<GroupByMethod, JsonError>
    ensures { IsReading method_of a_method (view value.now) result (λ method. method) }
{
    named!(alloc, value, method_named)
}

// The method of that name. Few names are looked at in one function, since its proof compares each with each.
fn method_named(name: &str) -> Option<GroupByMethod>
    ensures { result ≡ method_named name.now }
{
    match value_named(name) {
        Some(method) => Some(method),
        None => count_named(name),
    }
}

// The method of that name, of those that give a value or a sum.
fn value_named(name: &str) -> Option<GroupByMethod>
    ensures { result ≡ value_named name.now }
{
    match name {
        "Min" => Some(GroupByMethod::Min),
        "Max" => Some(GroupByMethod::Max),
        "First" => Some(GroupByMethod::First),
        "Last" => Some(GroupByMethod::Last),
        "Sum" => Some(GroupByMethod::Sum),
        _ => None,
    }
}

// The method of that name, of those that count or list.
fn count_named(name: &str) -> Option<GroupByMethod>
    ensures { result ≡ count_named name.now }
{
    match name {
        "NUnique" => Some(GroupByMethod::NUnique),
        "Implode" => Some(GroupByMethod::Implode),
        "Count" => Some(GroupByMethod::Count {
            include_nulls: false,
        }),
        "CountAll" => Some(GroupByMethod::Count {
            include_nulls: true,
        }),
        "AggGroups" => Some(GroupByMethod::Groups),
        _ => None,
    }
}
