//! Lists of any number of what has no forms.
ghost use Rattle.std.specs.Prelude.{◌≡◌, List, Some, map, IfOk, IfErr};
ghost use Rattle.serde_json.specs.Find.{as_bool};
ghost use Rattle.serde_json.specs.View.{view};
ghost use Rattle.plan_dsl.specs.Expressions.{excluded_of};
ghost use Rattle.plan_types.specs.Schemas.{Name};
ghost use Rattle.plan_types.specs.Types.{ty};
ghost use Rattle.plan_json.specs.Errors.{IsErrorOf, IsListErrorOf};
ghost use Rattle.plan_json.specs.Faults.{a_natural, an_index, flag_form, leaf_form};
ghost use Rattle.plan_json.specs.Forms.{Read, excluded_read, flag_read, index_read, leaf, leaves_read, many, name_read, reads_of, type_read};
ghost use Rattle.plan_json.specs.Leaves.{index_of, natural_of};
ghost use Rattle.plan_json.specs.Queries.{leaf_of, read_as};
ghost use Rattle.plan_json.specs.Readers.{IsReading};
ghost use Rattle.plan_json.specs.Tables.{Declared};
ghost use Rattle.plan_json.specs.declared.forms.Leaf.{Leaf};
ghost use Rattle.plan_json.specs.declared.forms.Leaf.TheVariants as leaves;
ghost use Rattle.plan_json.specs.declared.forms.SmallLeaf.TheVariants as smalls;

use super::dtype::{read_text, read_type};
use super::error::{JsonError, Step};
use super::excluded::read_excluded;
use super::value::items;
use plan_dsl::marker::Excluded;
use plan_types::dtype::DataType;
use plan_types::text::PlSmallStr;
use serde_json::Value;
use std::alloc::Global;

// What stands in such lists.
pub(crate) trait ListItem: Drop {
    ghost which: { Leaf };

    // What was read, where it is this.
    ghost seen: { Self → Read };

    fn read(alloc: Global, value: &Value) -> Result<Self, JsonError>
        ensures ok { (tables : Declared) → IfOk result (λ item. leaf_of tables which (view value.now) ≡ Some (seen item)) }
        ensures err { (names : List Name) → IfErr result (IsErrorOf (leaf_form names which) (view value.now)) };
}

impl ListItem for PlSmallStr {
    ghost which = { leaves.Name };

    ghost seen = { λ name. name_read name };

    fn read(alloc: Global, value: &Value) -> Result<PlSmallStr, JsonError> {
        read_text(alloc, value)
    }
}

impl ListItem for DataType {
    ghost which = { leaves.Dtype };

    ghost seen = { λ dtype. type_read (ty dtype) };

    fn read(alloc: Global, value: &Value) -> Result<DataType, JsonError> {
        read_type(alloc, value)
    }
}

impl ListItem for bool {
    ghost which = { leaves.Small smalls.Flag };

    ghost seen = { λ flag. flag_read flag };

    fn read(alloc: Global, value: &Value) -> Result<bool, JsonError> {
        read_flag(alloc, value)
    }
}

impl ListItem for i64 {
    ghost which = { leaves.Small smalls.Index };

    ghost seen = { λ index. index_read index };

    fn read(alloc: Global, value: &Value) -> Result<i64, JsonError> {
        read_index(alloc, value)
    }
}

impl ListItem for Excluded {
    ghost which = { leaves.Excluded };

    ghost seen = { λ item. excluded_read (excluded_of item) };

    fn read(alloc: Global, value: &Value) -> Result<Excluded, JsonError> {
        read_excluded(alloc, value)
    }
}

// A list of any number of these.
#[inline(never)]
#[tactic(auto, using(crate::proofs::Lemmas::growing))]
pub(crate) fn read_list<T: ListItem>(alloc: Global, value: &Value) -> Result<Box<Vec<T>>, JsonError>
    ensures ok { (tables : Declared) → IfOk result (λ list. read_as tables (many (leaf T.which)) (view value.now)
        ≡ Some (leaves_read T.which (reads_of (map T.seen list.value.items)))) }
    ensures err { IfErr result (IsListErrorOf T.which (view value.now)) }
{
    match items(value) {
        None => Err(JsonError::shape(alloc, value)),
        Some(values) => {
            let mut list = Vec::with_capacity(alloc, values.len())?;
            for (number, value) in values.iter().enumerate() {
                match T::read(alloc, value) {
                    Ok(item) => list.push(item)?,
                    Err(error) => return Err(error.below(alloc, Step::Item(number))),
                }
            }
            let boxed = Box::new(alloc, list)?;
            Ok(boxed)
        }
    }
}

// True or false.
pub(crate) fn read_flag(alloc: Global, value: &Value) -> Result<bool, JsonError>
    ensures { IsReading as_bool flag_form (view value.now) result (λ flag. flag) }
{
    match value.as_bool() {
        None => Err(JsonError::shape(alloc, value)),
        Some(flag) => Ok(flag),
    }
}

// A whole number of 64 bits with a sign.
pub(crate) fn read_index(alloc: Global, value: &Value) -> Result<i64, JsonError>
    ensures { IsReading index_of an_index (view value.now) result (λ index. index) }
{
    match value.as_i64() {
        None => Err(JsonError::shape(alloc, value)),
        Some(index) => Ok(index),
    }
}

// A whole number of 32 bits without a sign.
pub(crate) fn read_natural(alloc: Global, value: &Value) -> Result<u32, JsonError>
    ensures { IsReading natural_of a_natural (view value.now) result (λ natural. natural) }
{
    match value.as_u64() {
        None => Err(JsonError::shape(alloc, value)),
        Some(wide) => {
            if wide >= 1 << 32 {
                return Err(JsonError::shape(alloc, value));
            }
            Ok(wide as u32)
        }
    }
}
