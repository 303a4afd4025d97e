//! What comes of a text: why it has no typed plan, in words too, and what is said of it.
ghost use Rattle.std.specs.Prelude.{◌≡◌, Some, IfOk, string_bytes};
ghost use Rattle.explain.specs.Verdicts.{place_words, refusal_words, rule_words};

use plan_json::error::JsonError;
use plan_types::error::{ErrorKind, Place, PlanError};
use std::alloc::{AllocError, Global};
use std::fmt::Write;

/// Why a text has no typed plan.
#[derive(Drop)]
pub enum Refusal {
    /// It is no query.
    Text(JsonError),
    /// Its plan breaks a rule.
    Plan(PlanError),
}

/// What is said of a text.
#[derive(Drop)]
pub enum Verdict {
    /// Its typed plan: the report, with the place, the name and the schema of each node, and behind each node's line the
    /// node's expressions, of which no clause says anything.
    Typed { report: String, notes: Vec<String> },
    /// Why it has no typed plan, in words, and by what, of which no clause says anything.
    Broken { words: String, detail: String },
}

impl Refusal {
    /// What is wrong, in words. Out of memory has none.
    pub fn in_words(&self, alloc: Global) -> Result<String, AllocError>
        ensures { IfOk result (λ words. refusal_words self.now ≡ Some (string_bytes words)) }
    {
        match self {
            Refusal::Plan(error) => {
                let rule = rule_in_words(error.kind)?;
                let place = place_in_words(alloc, &error.place)?;
                format!(in alloc; "{rule} at {place}\n")
            }
            Refusal::Text(error) => match error {
                JsonError::NotJson => String::from_str(alloc, "this is no JSON\n"),
                JsonError::Shape { path } => format!(in alloc; "a value is wrong at \"{path}\"\n"),
                JsonError::Float { path } => format!(in alloc; "a number is wrong at \"{path}\"\n"),
                JsonError::Name { path } => {
                    format!(in alloc; "a table's name is wrong at \"{path}\"\n")
                }
                JsonError::NoMemory => Err(AllocError),
            },
        }
    }
}

// A rule that is broken. Out of memory is none.
fn rule_in_words(kind: ErrorKind) -> Result<&'static str, AllocError>
    ensures { IfOk result (λ words. rule_words kind ≡ Some words.now) }
{
    match kind {
        ErrorKind::ColumnNotFound => Ok("a column is missing"),
        ErrorKind::Duplicate => Ok("a name stands twice"),
        ErrorKind::SchemaMismatch => Ok("types don't match"),
        ErrorKind::InvalidOperation => Ok("an operation doesn't fit what it is given"),
        ErrorKind::ComputeError => Ok("what is asked for can't be made"),
        ErrorKind::NoMemory => Err(AllocError),
    }
}

// How to come to a place from the top.
fn place_in_words(alloc: Global, place: &Place) -> Result<String, AllocError>
    ensures { IfOk result (λ words. string_bytes words ≡ place_words place.now) }
{
    let mut words = String::from_str(alloc, "the top")?;
    for number in 0..place.depth() {
        write!(words, "'s input {}", place.step(number))?;
    }
    Ok(words)
}
