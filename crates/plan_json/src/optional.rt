//! Null, which says nothing, or what has no forms.
ghost use Rattle.serde_json.specs.View.{view};
ghost use Rattle.plan_json.specs.Faults.{an_optional_natural, an_optional_text};
ghost use Rattle.plan_json.specs.Leaves.{optional_natural_of, optional_text_of};
ghost use Rattle.plan_json.specs.Readers.{IsReading};

use super::dtype::read_text;
use super::error::JsonError;
use super::lists::read_natural;
use plan_types::text::PlSmallStr;
use serde_json::Value;
use std::alloc::Global;

// Null or a text.
#[tactic(auto, using(crate::proofs::OptionalLemmas::null_read, crate::proofs::OptionalLemmas::some_read, crate::proofs::OptionalLemmas::text_error))]
pub(crate) fn read_optional_text(
    alloc: Global,
    value: &Value,
) -> Result<Option<PlSmallStr>, JsonError>
    ensures { IsReading optional_text_of an_optional_text (view value.now) result (λ text. text) }
{
    match value.as_null() {
        Some(()) => Ok(None),
        None => match read_text(alloc, value) {
            Ok(text) => Ok(Some(text)),
            Err(error) => Err(error),
        },
    }
}

// Null or a whole number of 32 bits without a sign.
#[tactic(auto, using(crate::proofs::OptionalLemmas::null_read, crate::proofs::OptionalLemmas::some_read, crate::proofs::OptionalLemmas::natural_error))]
pub(crate) fn read_optional_natural(alloc: Global, value: &Value) -> Result<Option<u32>, JsonError>
    ensures { IsReading optional_natural_of an_optional_natural (view value.now) result (λ natural. natural) }
{
    match value.as_null() {
        Some(()) => Ok(None),
        None => match read_natural(alloc, value) {
            Ok(natural) => Ok(Some(natural)),
            Err(error) => Err(error),
        },
    }
}
