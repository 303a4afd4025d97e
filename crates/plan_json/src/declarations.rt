//! Reading the tables that a query declares.
ghost use Rattle.std.specs.Prelude.{◌≡◌, Some, false, IfOk, IfErr};
ghost use Rattle.serde_json.specs.View.{view};
ghost use Rattle.plan_types.specs.Schemas.{columns, names_of, is_among};
ghost use Rattle.plan_json.specs.Errors.{IsErrorOf};
ghost use Rattle.plan_json.specs.Faults.{table_list, a_table, a_new_name};
ghost use Rattle.plan_json.specs.Leaves.{text_of, table_of, tables_of};
ghost use Rattle.plan_json.specs.Readers.{IsReading};
ghost use Rattle.plan_json.specs.Tables.{declared};

use super::columns::read_columns;
use super::dtype::read_text;
use super::error::{JsonError, Step};
use super::tables::{Table, Tables};
use super::value::{items, two_members};
use plan_types::text::PlSmallStr;
use serde_json::Value;
use std::alloc::Global;

// A list of tables, no two of one name.
pub(crate) fn read_tables(alloc: Global, value: &Value) -> Result<Tables, JsonError>
    ensures { IsReading tables_of table_list (view value.now) result declared }
{
    match items(value) {
        None => Err(JsonError::shape(alloc, value)),
        Some(values) => {
            if values.len() >= 1 << 32 {
                return Err(JsonError::shape(alloc, value));
            }
            let mut tables = Tables::new(alloc);
            for (number, value) in values.iter().enumerate() {
                match read_table(alloc, &tables, value) {
                    Ok(table) => tables.push(table)?,
                    Err(error) => return Err(error.below(alloc, Step::Item(number))),
                }
            }
            Ok(tables)
        }
    }
}

// A table: `{"name": name, "columns": columns}`. None of those before it has its name.
pub(crate) fn read_table(alloc: Global, before: &Tables, value: &Value) -> Result<Table, JsonError>
    ensures ok { IfOk result (λ table. table_of (view value.now)
        ≡ Some (table.name, columns table.schema)) }
    ensures new { IfOk result (λ table. is_among table.name (names_of (declared before.now))
        ≡ false) }
    ensures err { IfErr result (IsErrorOf (a_table (names_of (declared before.now))) (view value.now)) }
{
    match two_members(value, "name", "columns") {
        None => Err(JsonError::shape(alloc, value)),
        Some((name, columns)) => match read_new_name(alloc, before, name) {
            Err(error) => Err(error.below(alloc, Step::Key("name"))),
            Ok(name) => match read_columns(alloc, columns) {
                Err(error) => Err(error.below(alloc, Step::Key("columns"))),
                Ok(schema) => Ok(Table { name, schema }),
            },
        },
    }
}

// A name that no table has.
fn read_new_name(alloc: Global, before: &Tables, value: &Value) -> Result<PlSmallStr, JsonError>
    ensures ok { IfOk result (λ name. text_of (view value.now) ≡ Some name) }
    ensures new { IfOk result (λ name. is_among name (names_of (declared before.now)) ≡ false) }
    ensures err { IfErr result (IsErrorOf (a_new_name (names_of (declared before.now))) (view value.now)) }
{
    match read_text(alloc, value) {
        Err(error) => Err(error),
        Ok(name) => {
            if before.contains(&name) {
                return Err(JsonError::name(alloc));
            }
            Ok(name)
        }
    }
}
