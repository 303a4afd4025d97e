//! What a function makes of a frame.
ghost use Rattle.std.specs.Prelude.{◌≡◌, []};
ghost use Rattle.plan_types.specs.FrameViews.{frame_of};
ghost use Rattle.plan_dsl.specs.PlanRules.{work_kinds};
ghost use Rattle.plan_dsl.specs.Plans.{Work, function_work};
ghost use Rattle.plan_exec.specs.Evaluations.{IsEvaluation};

use crate::error::{ExecError, out_of_memory};
use crate::explode::exploded;
use crate::rename::renamed;
use crate::row_index::indexed;
use crate::unnest::unnested;
use crate::unpivot::unpivoted;
use plan_dsl::function::FunctionIR;
use plan_dsl::udfs::Udfs;
use plan_types::frame::Frame;
use std::alloc::Global;

/// Functions that make a frame of a frame.
pub trait FunctionEvaluation {
    // What the function does.
    ghost work: { Self → Work };

    /// What the function makes of the frame, on whose schema it has one. Columns that stay are moved.
    fn evaluate(&self, alloc: Global, frame: Frame, udfs: &Udfs) -> Result<Frame, ExecError>
        requires { work_kinds (work self.now) (frame_of frame).schema [] ≡ [] }
        ensures { IsEvaluation (work self.now) (frame_of frame) result };
}

impl FunctionEvaluation for FunctionIR {
    ghost work = { function_work };

    fn evaluate(&self, alloc: Global, frame: Frame, _udfs: &Udfs) -> Result<Frame, ExecError> {
        match self {
            FunctionIR::Explode { columns } => exploded(alloc, columns.items.as_slice(), frame),
            FunctionIR::Rechunk => Ok(frame),
            FunctionIR::Rename { existing, new, .. } => {
                let existing = existing.items.as_slice();
                let made = renamed(alloc, existing, new.items.as_slice(), frame);
                made.map_err(out_of_memory)
            }
            FunctionIR::RowIndex { name, offset } => {
                let made = indexed(alloc, name, *offset, frame);
                made.map_err(out_of_memory)
            }
            FunctionIR::Unnest { columns } => {
                let made = unnested(alloc, columns.items.as_slice(), frame);
                made.map_err(out_of_memory)
            }
            FunctionIR::Unpivot { args } => {
                let made = unpivoted(alloc, args, frame);
                made.map_err(out_of_memory)
            }
        }
    }
}
