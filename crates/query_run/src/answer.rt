//! What is answered, before any of it is written.
ghost use Rattle.std.specs.Prelude.{◌≡◌, ◌↔◌, ℕ, ◌≤◌, ◌∷◌, [], List, Some, IsTrue, IfOk, codes, string_bytes};
ghost use Rattle.plan_dsl.specs.Plans.{plan_tree};
ghost use Rattle.plan_dsl.specs.Registry.{registry};
ghost use Rattle.plan_dsl.specs.Resolving.{resolved};
ghost use Rattle.byte_streams.specs.Streams.{Rose};
ghost use Rattle.std.specs.Io.KnownBytes.{IsAtEnd};
ghost use Rattle.query_run.specs.Answers.{IsAnswer, IsPlanAnswer, IsQueryAnswer, bad_query_text, right_words};
ghost use Rattle.query_run.specs.Endings.{IsOfInput, TookTooMany, TookWithin};

use crate::status::{Done, Status};
use byte_streams::source::Source;
use byte_streams::stream::{ReadOutcome, read_all};
use plan_dsl::plan::DslPlan;
use plan_dsl::udfs::Udfs;
use plan_json::error::JsonError;
use plan_json::read::read_query;
use plan_lower::conversion::dsl_to_ir::PlanLowering;
use plan_report::report::{refusal, report};
use plan_types::error::{ErrorKind, PlanError};
use plan_types::text::PlSmallStr;
use std::alloc::{AllocError, Global};

// How the run ends where its text is written, and that text.
#[derive(Drop)]
pub(crate) struct Answer {
    pub(crate) done: Done,
    pub(crate) text: String,
}

impl Answer {
    // An answer without a plan.
    fn new(status: Status, text: String) -> Answer
        ensures { result ≡ record { done = record { status = status; plan = None }; text = text } }
    {
        let done = Done { status, plan: None };
        Answer { done, text }
    }
}

// The answer to words and to what the source has.
pub(crate) fn answer_to<S: Source>(
    alloc: Global,
    words: &[PlSmallStr],
    source: &mut S,
    udfs: &Udfs,
) -> Answer
    ensures answers { IsAnswer (registry udfs.now) words.now (S.left source.old) result.done (string_bytes result.text) }
    ensures end { IsOfInput result.done.status → IsAtEnd (S.left source.new) }
    ensures past { result.done.status ≡ Status.TooLong → TookTooMany (S.left source.old) (S.left source.new) }
    ensures within { result.done.status ≡ Status.ReadFault → TookWithin (S.left source.old) (S.left source.new) }
    ensures untouched { (¬ (words.now ≡ right_words)) → source.new ≡ source.old }
    ensures fault { result.done.status ≡ Status.ReadFault → Rose (S.faults source.old) (S.faults source.new) }
    ensures later { S.faults source.old ≤ S.faults source.new }
{
    match answer_words(alloc, words, source, udfs) {
        Ok(answer) => answer,
        Err(_) => Answer::new(Status::NoMemory, String::new(alloc)),
    }
}

fn answer_words<S: Source>(
    alloc: Global,
    words: &[PlSmallStr],
    source: &mut S,
    udfs: &Udfs,
) -> Result<Answer, AllocError>
    ensures answers { IfOk result (λ answer. IsAnswer (registry udfs.now) words.now (S.left source.old) answer.done (string_bytes answer.text)) }
    ensures end { IfOk result (λ answer. IsOfInput answer.done.status → IsAtEnd (S.left source.new)) }
    ensures past { IfOk result (λ answer. answer.done.status ≡ Status.TooLong → TookTooMany (S.left source.old) (S.left source.new)) }
    ensures within { IfOk result (λ answer. answer.done.status ≡ Status.ReadFault → TookWithin (S.left source.old) (S.left source.new)) }
    ensures untouched { (¬ (words.now ≡ right_words)) → source.new ≡ source.old }
    ensures fault { IfOk result (λ answer. answer.done.status ≡ Status.ReadFault → Rose (S.faults source.old) (S.faults source.new)) }
    ensures later { S.faults source.old ≤ S.faults source.new }
{
    if !asks_lower(words) {
        let text = String::from_str(alloc, "usage: lowerq lower, schema or gen N\n")?;
        return Ok(Answer::new(Status::Usage, text));
    }
    match read_all(alloc, source) {
        ReadOutcome::Bytes(bytes) => {
            let answer = answer_bytes(alloc, bytes.as_slice(), udfs)?;
            Ok(answer)
        }
        ReadOutcome::Fault => Ok(Answer::new(Status::ReadFault, String::new(alloc))),
        ReadOutcome::TooLong => {
            let text = String::from_str(alloc, "too long\n")?;
            Ok(Answer::new(Status::TooLong, text))
        }
        ReadOutcome::NoMemory => Err(AllocError),
    }
}

// Tells whether the words ask for a report.
fn asks_lower(words: &[PlSmallStr]) -> bool
    ensures { IsTrue result ↔ (words.now ≡ right_words) }
{
    words.len() == 1 && words[0].as_str() == "lower"
}

// The answer to the bytes of a query.
fn answer_bytes(alloc: Global, bytes: &[u8], udfs: &Udfs) -> Result<Answer, AllocError>
    ensures { IfOk result (λ answer. IsQueryAnswer (registry udfs.now) bytes.now answer.done (string_bytes answer.text)) }
{
    match read_query(alloc, bytes) {
        Ok(query) => {
            let answer = answer_plan(alloc, query.plan, udfs)?;
            Ok(answer)
        }
        Err(error) => {
            let text = bad_query(alloc, &error)?;
            Ok(Answer::new(Status::BadQuery(error), text))
        }
    }
}

// The text of bytes that are no query. Out of memory has none.
fn bad_query(alloc: Global, error: &JsonError) -> Result<String, AllocError>
    ensures { IfOk result (λ text. bad_query_text error.now ≡ Some (string_bytes text)) }
{
    match error {
        JsonError::NotJson => String::from_str(alloc, "bad query NotJson\n"),
        JsonError::Shape { path } => format!(in alloc; "bad query Shape {path}\n"),
        JsonError::Float { path } => format!(in alloc; "bad query Float {path}\n"),
        JsonError::Name { path } => format!(in alloc; "bad query Name {path}\n"),
        JsonError::NoMemory => Err(AllocError),
    }
}

// The answer to a query's plan.
fn answer_plan(alloc: Global, plan: DslPlan, udfs: &Udfs) -> Result<Answer, AllocError>
    ensures { IfOk result (λ answer. IsPlanAnswer (registry udfs.now) (resolved (registry udfs.now) (plan_tree plan)) answer.done (string_bytes answer.text)) }
{
    match plan.to_alp(alloc, udfs) {
        Ok(plan) => {
            let text = report(alloc, &plan)?;
            let done = Done {
                status: Status::Lowered,
                plan: Some(plan),
            };
            Ok(Answer { done, text })
        }
        Err(error) => {
            if is_memory(&error) {
                return Err(AllocError);
            }
            let text = refusal(alloc, &error)?;
            Ok(Answer::new(Status::Refused(error), text))
        }
    }
}

// Tells whether the error is out of memory.
fn is_memory(error: &PlanError) -> bool
    ensures { IsTrue result ↔ (error.now.kind ≡ ErrorKind.NoMemory) }
{
    match error.kind {
        ErrorKind::NoMemory => true,
        ErrorKind::ColumnNotFound
        | ErrorKind::Duplicate
        | ErrorKind::SchemaMismatch
        | ErrorKind::InvalidOperation
        | ErrorKind::ComputeError => false,
    }
}
