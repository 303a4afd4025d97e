//! Functions that are run on frames.
ghost use Rattle.std.specs.Prelude.{◌≡◌, ◌≢◌, string_bytes, IfOk};
ghost use Rattle.plan_types.specs.FrameViews.{frame_of};
ghost use Rattle.plan_dsl.specs.Plans.{function_work};
ghost use Rattle.plan_report.specs.Report.{refusal_text};
ghost use Rattle.table_functions.specs.Running.{IsRun, IsTold};

use crate::texts::frame_text;
use plan_dsl::function::FunctionIR;
use plan_dsl::udfs::Udfs;
use plan_exec::error::ExecError;
use plan_exec::evaluation::FunctionEvaluation;
use plan_report::report::refusal;
use plan_types::error::{ErrorKind, PlanError};
use plan_types::frame::Frame;
use std::alloc::{AllocError, Global};

/// Why a function makes no frame of one.
#[derive(Debug, Drop)]
pub enum RunError {
    /// A rule is broken over the frame's schema, so that it isn't run.
    Refused(PlanError),
    /// It is run, and there is no frame.
    Failed(ExecError),
}

/// What the function makes of the frame. It is run only where it has a schema over the frame's.
pub fn run(
    alloc: Global,
    function: &FunctionIR,
    frame: Frame,
    udfs: &Udfs,
) -> Result<Frame, RunError>
    ensures { IsRun (function_work function.now) (frame_of frame) result }
{
    let schema = frame.schema(alloc).map_err(RunError::Refused)?;
    if let Err(error) = function.schema(alloc, &schema, udfs) {
        return Err(RunError::Refused(error));
    }
    let made = function.evaluate(alloc, frame, udfs);
    made.map_err(RunError::Failed)
}

/// What is told of the function over the frame: the frame that it makes, or why there is none.
pub fn told(
    alloc: Global,
    function: &FunctionIR,
    frame: Frame,
    udfs: &Udfs,
) -> Result<String, AllocError>
    ensures { IfOk result (λ text. IsTold (function_work function.now) (frame_of frame) (string_bytes text)) }
{
    match run(alloc, function, frame, udfs) {
        Ok(made) => frame_text(alloc, made),
        Err(RunError::Refused(error)) => told_refusal(alloc, error),
        Err(RunError::Failed(ExecError::DataFault)) => String::from_str(alloc, "data fault\n"),
        Err(RunError::Failed(ExecError::NoMemory)) => Err(AllocError),
    }
}

// The line of a refusal. Want of memory is none.
fn told_refusal(alloc: Global, error: PlanError) -> Result<String, AllocError>
    ensures kind { IfOk result (λ text. error.kind ≢ ErrorKind.NoMemory) }
    ensures text { IfOk result (λ text. string_bytes text ≡ refusal_text error.kind error.place) }
{
    match error.kind {
        ErrorKind::NoMemory => Err(AllocError),
        _ => refusal(alloc, &error),
    }
}
