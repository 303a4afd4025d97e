//! Verdicts on texts.
ghost use Rattle.std.specs.Prelude.{IfOk, IfErr};
ghost use Rattle.plan_dsl.specs.Registry.{registry};
ghost use Rattle.explain.specs.Verdicts.{StandsForText, RefusesText, IsVerdict};

use crate::answers::{Refusal, Verdict};
use crate::fault::detail;
use crate::lowered::notes;
use plan_arena::plan::IRPlan;
use plan_dsl::udfs::Udfs;
use plan_json::read::read_query;
use plan_lower::conversion::dsl_to_ir::PlanLowering;
use plan_report::report::report;
use std::alloc::{AllocError, Global};

/// The typed plan of a query's text.
pub fn lower_text(alloc: Global, text: &[u8], udfs: &Udfs) -> Result<IRPlan, Refusal>
    ensures ok { IfOk result (StandsForText (registry udfs.now) text.now) }
    ensures err { IfErr result (RefusesText (registry udfs.now) text.now) }
{
    let query = read_query(alloc, text).map_err(Refusal::Text)?;
    query.plan.to_alp(alloc, udfs).map_err(Refusal::Plan)
}

/// The verdict on a text. Out of memory has none.
pub fn check(alloc: Global, text: &[u8], udfs: &Udfs) -> Result<Verdict, AllocError>
    ensures { IfOk result (IsVerdict (registry udfs.now) text.now) }
{
    match lower_text(alloc, text, udfs) {
        Ok(plan) => {
            let notes = notes(alloc, &plan, udfs)?;
            let report = report(alloc, &plan)?;
            Ok(Verdict::Typed { report, notes })
        }
        Err(refusal) => {
            let words = refusal.in_words(alloc)?;
            let detail = detail(alloc, text, &refusal, udfs)?;
            Ok(Verdict::Broken { words, detail })
        }
    }
}
