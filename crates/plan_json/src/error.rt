//! Why bytes are no query, and where.
ghost use Rattle.std.specs.Prelude.{◌≡◌, ◌++◌, Some, IfOk, string_bytes};
ghost use Rattle.serde_json.specs.Data.{Data};
ghost use Rattle.serde_json.specs.View.{view};
ghost use Rattle.plan_types.specs.Errors.{no_memory};
ghost use Rattle.plan_json.specs.Errors.{IsBelow, IsErrorOf, IsOwn, IsPlain, step_of, step_text};
ghost use Rattle.plan_json.specs.Faults.{BadName, Form, part, part_of, shape_fault};

use plan_types::error::PlanError;
use serde_json::Value;
use std::alloc::{AllocError, AllocFailed, Global};
use thiserror::Error;

/// Why bytes are no query. A path is a JSON pointer to the value at fault.
#[derive(Debug, Drop, Error)]
pub enum JsonError {
    /// The bytes are no JSON text.
    #[error("NotJson")]
    NotJson,
    /// The value breaks the shape that its place asks for.
    #[error("Shape {path}")]
    Shape { path: String },
    /// The value breaks the shape, and is a number that is held neither as an i64 nor as a u64.
    #[error("Float {path}")]
    Float { path: String },
    /// The value names a table that isn't declared, or that is declared again.
    #[error("Name {path}")]
    Name { path: String },
    /// Memory ran out. It may stand in place of any other answer.
    #[error("NoMemory")]
    NoMemory,
}

// A step from a value to a part of it.
#[derive(Clone, Copy)]
pub(crate) enum Step {
    // The value of a key.
    Key(&'static str),
    // The item of a number.
    Item(usize),
}

impl JsonError {
    // The value itself breaks the shape.
    #[cold]
    pub(crate) fn shape(alloc: Global, value: &Value) -> JsonError
        ensures { IsOwn (shape_fault (view value.now)) result }
    {
        let path = String::new(alloc);
        if value.is_f64() {
            JsonError::Float { path }
        } else {
            JsonError::Shape { path }
        }
    }

    // Out of memory. No other refusal of `plan_types` can be turned into it.
    pub(crate) fn out_of_memory(_error: PlanError) -> JsonError
        requires { _error ≡ no_memory }
        ensures { result ≡ JsonError.NoMemory }
    {
        JsonError::NoMemory
    }

    // The value itself is the wrong name.
    #[cold]
    pub(crate) fn name(alloc: Global) -> JsonError
        ensures { IsOwn BadName result }
    {
        JsonError::Name {
            path: String::new(alloc),
        }
    }

    // The error of a part, as the value sees it that has the part at the step.
    #[cold]
    #[tactic(auto, using(crate::proofs::FaultLemmas::error_below))]
    pub(crate) fn below(self, alloc: Global, step: Step) -> JsonError
        requires { IsPlain (step_of step) }
        ensures { (form inner : Form) (d value : Data) → part_of form (step_of step) d ≡ Some (part inner value)
            → IsErrorOf inner value self → IsErrorOf form d result }
    {
        self.told_from(alloc, step)
    }

    // The error, told with the step in front.
    fn told_from(self, alloc: Global, step: Step) -> JsonError
        requires { IsPlain (step_of step) }
        ensures { IsBelow (step_of step) self result }
    {
        match self {
            JsonError::Shape { path } => match longer(alloc, step, path.as_str()) {
                Ok(path) => JsonError::Shape { path },
                Err(_) => JsonError::NoMemory,
            },
            JsonError::Float { path } => match longer(alloc, step, path.as_str()) {
                Ok(path) => JsonError::Float { path },
                Err(_) => JsonError::NoMemory,
            },
            JsonError::Name { path } => match longer(alloc, step, path.as_str()) {
                Ok(path) => JsonError::Name { path },
                Err(_) => JsonError::NoMemory,
            },
            JsonError::NotJson => JsonError::NotJson,
            JsonError::NoMemory => JsonError::NoMemory,
        }
    }
}

// The pointer that goes by the step, and then by the path.
fn longer(alloc: Global, step: Step, path: &str) -> Result<String, AllocError>
    requires { IsPlain (step_of step) }
    ensures { IfOk result (λ text. string_bytes text ≡ step_text (step_of step) ++ path.now) }
{
    match step {
        Step::Key(key) => format!(in alloc; "/{key}{path}"),
        Step::Item(number) => format!(in alloc; "/{number}{path}"),
    }
}

impl From<AllocError> for JsonError {
    ghost use Rattle.std.specs.Prelude.{◌≡◌};
    ghost use Rattle.plan_json.specs.declared.error.JsonError.TheVariants.{NoMemory};

    ghost from_gives = { λ _ error. error ≡ NoMemory };

    fn from(_error: AllocError) -> JsonError {
        JsonError::NoMemory
    }
}

impl<T: Drop> From<AllocFailed<T>> for JsonError {
    ghost use Rattle.std.specs.Prelude.{◌≡◌};
    ghost use Rattle.plan_json.specs.declared.error.JsonError.TheVariants.{NoMemory};

    ghost from_gives = { λ _ error. error ≡ NoMemory };

    fn from(_error: AllocFailed<T>) -> JsonError {
        JsonError::NoMemory
    }
}
