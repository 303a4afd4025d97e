//! How a run ended.
ghost use Rattle.std.specs.Prelude.{◌≡◌, ◌↔◌, IsTrue};
ghost use Rattle.std.specs.Process.{exit_status};
ghost use Rattle.query_run.specs.Answers.{status_number};

use plan_arena::plan::IRPlan;
use plan_json::error::JsonError;
use plan_types::error::PlanError;
use std::process::ExitCode;

/// How a run ended.
#[derive(Debug, Drop)]
pub enum Status {
    /// The query was lowered, and the report of its plan was written.
    Lowered,
    /// The query breaks a rule of plans.
    Refused(PlanError),
    /// The words ask for nothing that the program does.
    Usage,
    /// The input is no query.
    BadQuery(JsonError),
    /// A read failed. Nothing was written.
    ReadFault,
    /// A write failed. What was written is the front of a text.
    WriteFault,
    /// Memory ran out. Nothing was written.
    NoMemory,
    /// The input is longer than `INPUT_LIMIT`.
    TooLong,
}

impl Status {
    /// The number that the process ends with.
    pub fn number(&self) -> u8
        ensures { result ≡ status_number self.now }
    {
        match self {
            Status::Lowered => 0,
            Status::Refused(_) => 1,
            Status::Usage => 2,
            Status::BadQuery(_) => 3,
            Status::ReadFault => 4,
            Status::WriteFault => 5,
            Status::NoMemory => 6,
            Status::TooLong => 7,
        }
    }

    /// Tells whether a write failed.
    pub(crate) fn is_write_fault(&self) -> bool
        ensures { IsTrue result ↔ (self.now ≡ Status.WriteFault) }
    {
        matches!(self, Status::WriteFault)
    }

    /// What the process ends with.
    pub fn exit_code(&self) -> ExitCode
        ensures { exit_status result ≡ status_number self.now }
    {
        ExitCode::from(self.number())
    }
}

/// What a run leaves: how it ended, and the typed plan where the query was lowered.
#[derive(Drop)]
pub struct Done {
    pub status: Status,
    pub plan: Option<IRPlan>,
}

impl Done {
    /// The number that the process ends with. The plan is let go.
    pub fn number(self) -> u8
        ensures { result ≡ status_number self.status }
    {
        self.status.number()
    }

    /// What the process ends with. The plan is let go.
    pub fn exit_code(self) -> ExitCode
        ensures { exit_status result ≡ status_number self.status }
    {
        self.status.exit_code()
    }
}
