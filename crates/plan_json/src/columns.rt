//! Lists of columns.
ghost use Rattle.std.specs.Prelude.{◌≡◌, [], IfOk, IfErr};
ghost use Rattle.serde_json.specs.View.{view};
ghost use Rattle.plan_types.specs.Schemas.{columns};
ghost use Rattle.plan_json.specs.Faults.{column_list};
ghost use Rattle.plan_json.specs.Leaves.{columns_of};
ghost use Rattle.plan_json.specs.Readers.{IsReading};

use super::dtype::read_column;
use super::error::{JsonError, Step};
use super::value::items;
use plan_types::field::Field;
use plan_types::schema::Schema;
use serde_json::Value;
use std::alloc::Global;

// A list of columns, no two of one name.
#[inline(never)]
pub(crate) fn read_columns(alloc: Global, value: &Value) -> Result<Schema, JsonError>
    ensures { IsReading columns_of column_list (view value.now) result columns }
{
    match items(value) {
        None => Err(JsonError::shape(alloc, value)),
        Some(items) => {
            let mut schema = without_columns(alloc, items.len())?;
            for (number, item) in items.iter().enumerate() {
                let Field { name, dtype } = match read_column(alloc, item) {
                    Ok(column) => column,
                    Err(error) => return Err(error.below(alloc, Step::Item(number))),
                };
                let before = match schema.put(name, dtype) {
                    Ok(before) => before,
                    Err(error) => return Err(JsonError::out_of_memory(error)),
                };
                if before {
                    return Err(JsonError::shape(alloc, value));
                }
            }
            Ok(schema)
        }
    }
}

// No columns, with room for so many.
fn without_columns(alloc: Global, room: usize) -> Result<Schema, JsonError>
    ensures ok { IfOk result (λ schema. columns schema ≡ []) }
    ensures err { IfErr result (λ error. error ≡ JsonError.NoMemory) }
{
    match Schema::with_capacity(alloc, room) {
        Ok(schema) => Ok(schema),
        Err(error) => Err(JsonError::out_of_memory(error)),
    }
}
