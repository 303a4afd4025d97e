//! Why there is no frame.
ghost use Rattle.std.specs.Prelude.{◌≡◌};
ghost use Rattle.plan_types.specs.Errors.{no_memory};

use plan_types::error::{ErrorKind, PlanError};
use std::alloc::{AllocError, AllocFailed};
use thiserror::Error;

/// Why there is no frame.
#[derive(Debug, Drop, Error)]
pub enum ExecError {
    /// The data have a fault: lists of one row that are exploded together have different numbers of items.
    #[error("the data have a fault")]
    DataFault,
    /// Memory ran out. It may stand in place of any other answer.
    #[error("no memory")]
    NoMemory,
}

impl From<AllocError> for ExecError {
    ghost use Rattle.std.specs.Prelude.{◌≡◌};
    ghost use Rattle.plan_exec.specs.declared.error.ExecError.TheVariants.{NoMemory};

    ghost from_gives = { λ _ error. error ≡ NoMemory };

    fn from(_error: AllocError) -> ExecError {
        ExecError::NoMemory
    }
}

impl<T: Drop> From<AllocFailed<T>> for ExecError {
    ghost use Rattle.std.specs.Prelude.{◌≡◌};
    ghost use Rattle.plan_exec.specs.declared.error.ExecError.TheVariants.{NoMemory};

    ghost from_gives = { λ _ error. error ≡ NoMemory };

    fn from(_error: AllocFailed<T>) -> ExecError {
        ExecError::NoMemory
    }
}

// Out of memory, where nothing else can come.
pub(crate) fn out_of_memory(error: PlanError) -> ExecError
    requires { error ≡ no_memory }
    ensures { result ≡ ExecError.NoMemory }
{
    let PlanError { kind, place: _ } = error;
    match kind {
        ErrorKind::NoMemory => ExecError::NoMemory,
        _other => unreachable!(),
    }
}
