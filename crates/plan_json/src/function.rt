//! Functions, by their names.
ghost use Rattle.std.specs.Prelude.{◌≡◌};
ghost use Rattle.serde_json.specs.View.{view};
ghost use Rattle.plan_json.specs.Faults.{a_function};
ghost use Rattle.plan_json.specs.Leaves.{function_named, function_of};
ghost use Rattle.plan_json.specs.Readers.{IsReading};

use super::error::JsonError;
use super::value::named;
use plan_dsl::function_expr::FunctionExpr;
use serde_json::Value;
use std::alloc::Global;

// The function of a name, of those that are written by it alone.
pub(crate) fn read_function(alloc: Global, value: &Value) -> Result<FunctionExpr, JsonError>
    ensures { IsReading function_of a_function (view value.now) result (λ function. function) }
{
    named!(alloc, value, function_named)
}

// The function of that name. A list's value past its end is a fault, or null.
fn function_named(name: &str) -> Option<FunctionExpr>
    ensures { result ≡ function_named name.now }
{
    match name {
        "AllHorizontal" => Some(FunctionExpr::AllHorizontal),
        "AnyHorizontal" => Some(FunctionExpr::AnyHorizontal),
        "IsNull" => Some(FunctionExpr::IsNull),
        "IsNotNull" => Some(FunctionExpr::IsNotNull),
        "FillNull" => Some(FunctionExpr::FillNull),
        "IsIn" => Some(FunctionExpr::IsIn),
        "ShiftAndFill" => Some(FunctionExpr::ShiftAndFill),
        "ListGet" => Some(FunctionExpr::ListGet(false)),
        "ListGetOrNull" => Some(FunctionExpr::ListGet(true)),
        _ => None,
    }
}
