//! Queries.
ghost use Rattle.std.specs.Prelude.{◌≡◌, Some, false, IfOk, IfErr};
ghost use Rattle.serde_json.specs.View.{view};
ghost use Rattle.plan_json.specs.Bytes.{IsRefusalOf, WritesQuery};
ghost use Rattle.plan_json.specs.Errors.{IsErrorOf};
ghost use Rattle.plan_dsl.specs.Plans.{plan_tree};
ghost use Rattle.plan_types.specs.Schemas.{names_of};
ghost use Rattle.plan_json.specs.Faults.{a_plan, a_query};
ghost use Rattle.plan_json.specs.Queries.{QueryModel, IsQueryOf, has_flags, plan_of, query_model};
ghost use Rattle.plan_json.specs.Tables.{declared};

use super::arguments::plan;
use super::declarations::read_tables;
use super::error::{JsonError, Step};
use super::forms::Kind;
use super::places::read_form;
use super::tables::Tables;
use super::value::two_members;
use plan_dsl::plan::DslPlan;
use serde_json::Value;
use std::alloc::Global;

/// The tables that a query declares, and its plan over them.
#[derive(Drop)]
pub struct Query {
    pub tables: Tables,
    pub plan: DslPlan,
}

/// Reads the query that the bytes write.
pub fn read_query(alloc: Global, bytes: &[u8]) -> Result<Query, JsonError>
    ensures ok { IfOk result (λ query. WritesQuery bytes.now (query_model query)) }
    // An option that no query can write is off.
    ensures flags { IfOk result (λ query. has_flags query.plan ≡ false) }
    ensures err { IfErr result (IsRefusalOf bytes.now) }
    // The bytes of a query are refused as out of memory alone.
    ensures complete { (query : QueryModel) → WritesQuery bytes.now query
        → IfErr result (λ error. error ≡ JsonError.NoMemory) }
{
    match Value::from_slice(alloc, bytes) {
        Err(error) => {
            if error.is_memory() {
                Err(JsonError::NoMemory)
            } else {
                Err(JsonError::NotJson)
            }
        }
        Ok(value) => match read_value(alloc, &value) {
            Ok(query) => Ok(query),
            Err(error) => Err(error),
        },
    }
}

// A query: `{"tables": tables, "plan": plan}`.
fn read_value(alloc: Global, value: &Value) -> Result<Query, JsonError>
    ensures ok { IfOk result (λ query. IsQueryOf (view value.now) (query_model query)) }
    ensures flags { IfOk result (λ query. has_flags query.plan ≡ false) }
    ensures err { IfErr result (IsErrorOf a_query (view value.now)) }
{
    match two_members(value, "tables", "plan") {
        None => Err(JsonError::shape(alloc, value)),
        Some((tables, plan)) => match read_tables(alloc, tables) {
            Err(error) => Err(error.below(alloc, Step::Key("tables"))),
            Ok(tables) => match read_plan(alloc, &tables, plan) {
                Err(error) => Err(error.below(alloc, Step::Key("plan"))),
                Ok(plan) => Ok(Query { tables, plan }),
            },
        },
    }
}

// A plan over the tables.
fn read_plan(alloc: Global, tables: &Tables, value: &Value) -> Result<DslPlan, JsonError>
    ensures ok { IfOk result (λ plan. plan_of (declared tables.now) (view value.now) ≡ Some (plan_tree plan)) }
    ensures flags { IfOk result (λ plan. has_flags plan ≡ false) }
    ensures err { IfErr result (IsErrorOf (a_plan (names_of (declared tables.now))) (view value.now)) }
{
    match read_form(alloc, tables, Kind::Plan, value) {
        Ok(arg) => Ok(Box::into_inner(plan(arg))),
        Err(error) => Err(error),
    }
}
