//! Operators and modes of casts, by their names.
ghost use Rattle.std.specs.Prelude.{◌≡◌};
ghost use Rattle.serde_json.specs.View.{view};
ghost use Rattle.plan_json.specs.Faults.{an_operator, a_mode};
ghost use Rattle.plan_json.specs.Leaves.{arithmetic_named, comparison_named, logic_named, operator_named, operator_of, mode_named, mode_of};
ghost use Rattle.plan_json.specs.Readers.{IsReading};

use super::error::JsonError;
use super::value::named;
use plan_dsl::operator::Operator;
use plan_types::dtype::CastOptions;
use serde_json::Value;
use std::alloc::Global;

// An operator, by its name.
pub(crate) fn read_operator(alloc: Global, value: &Value) -> Result<Operator, JsonError>
    ensures { IsReading operator_of an_operator (view value.now) result (λ operator. operator) }
{
    named!(alloc, value, operator_named)
}

// The operator of that name. Few names are looked at in one function, since its proof compares each with each.
fn operator_named(name: &str) -> Option<Operator>
    ensures { result ≡ operator_named name.now }
{
    match comparison_named(name) {
        Some(operator) => Some(operator),
        None => match arithmetic_named(name) {
            Some(operator) => Some(operator),
            None => logic_named(name),
        },
    }
}

// The comparison of that name.
fn comparison_named(name: &str) -> Option<Operator>
    ensures { result ≡ comparison_named name.now }
{
    match name.as_bytes() {
        b"Eq" => Some(Operator::Eq),
        b"EqValidity" => Some(Operator::EqValidity),
        b"NotEq" => Some(Operator::NotEq),
        b"NotEqValidity" => Some(Operator::NotEqValidity),
        b"Lt" => Some(Operator::Lt),
        b"LtEq" => Some(Operator::LtEq),
        b"Gt" => Some(Operator::Gt),
        b"GtEq" => Some(Operator::GtEq),
        _ => None,
    }
}

// The arithmetic operator of that name.
fn arithmetic_named(name: &str) -> Option<Operator>
    ensures { result ≡ arithmetic_named name.now }
{
    match name.as_bytes() {
        b"Plus" => Some(Operator::Plus),
        b"Minus" => Some(Operator::Minus),
        b"Multiply" => Some(Operator::Multiply),
        b"Divide" => Some(Operator::Divide),
        b"FloorDivide" => Some(Operator::FloorDivide),
        b"Modulus" => Some(Operator::Modulus),
        _ => None,
    }
}

// The operator of that name, of those that combine bits and truth values.
fn logic_named(name: &str) -> Option<Operator>
    ensures { result ≡ logic_named name.now }
{
    match name.as_bytes() {
        b"And" => Some(Operator::And),
        b"Or" => Some(Operator::Or),
        b"Xor" => Some(Operator::Xor),
        b"LogicalAnd" => Some(Operator::LogicalAnd),
        b"LogicalOr" => Some(Operator::LogicalOr),
        _ => None,
    }
}

// What a cast does with a value that has no place in its target, by its name.
pub(crate) fn read_mode(alloc: Global, value: &Value) -> Result<CastOptions, JsonError>
    ensures { IsReading mode_of a_mode (view value.now) result (λ mode. mode) }
{
    named!(alloc, value, mode_named)
}

// The mode of that name.
fn mode_named(name: &str) -> Option<CastOptions>
    ensures { result ≡ mode_named name.now }
{
    match name {
        "Strict" => Some(CastOptions::Strict),
        "NonStrict" => Some(CastOptions::NonStrict),
        "Overflowing" => Some(CastOptions::Overflowing),
        _ => None,
    }
}
