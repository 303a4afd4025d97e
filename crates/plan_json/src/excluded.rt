//! What an exclude leaves out.
ghost use Rattle.serde_json.specs.View.{view};
ghost use Rattle.plan_dsl.specs.Expressions.{excluded_of};
ghost use Rattle.plan_json.specs.Faults.{an_excluded, excluded_form};
ghost use Rattle.plan_json.specs.Leaves.{excluded_item, keyed_excluded};
ghost use Rattle.plan_json.specs.Readers.{IsReading};

use super::dtype::{read_text, read_type};
use super::error::{JsonError, Step};
use super::forms::{ExcludedKey, find_excluded};
use super::value::{keyed, only_member};
use plan_dsl::marker::Excluded;
use serde_json::Value;
use std::alloc::Global;

// An object of one key: `{"name": name}` or `{"dtype": type}`.
pub(crate) fn read_excluded(alloc: Global, value: &Value) -> Result<Excluded, JsonError>
    ensures { IsReading excluded_item an_excluded (view value.now) result excluded_of }
{
    keyed!(alloc, value, word => find_excluded(word), (key, inner) => read_keyed(alloc, key, inner))
}

// The value of its key.
fn read_keyed(alloc: Global, key: ExcludedKey, value: &Value) -> Result<Excluded, JsonError>
    ensures { IsReading (keyed_excluded key) (excluded_form key) (view value.now) result excluded_of }
{
    match key {
        ExcludedKey::Name => match read_text(alloc, value) {
            Err(error) => Err(error),
            Ok(name) => Ok(Excluded::Name(name)),
        },
        ExcludedKey::Dtype => match read_type(alloc, value) {
            Err(error) => Err(error),
            Ok(dtype) => Ok(Excluded::Dtype(dtype)),
        },
    }
}
