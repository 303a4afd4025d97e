//! The top call over memory that grows: from the bytes of a query to its whole answer.
ghost use Rattle.std.specs.Prelude.{◌≡◌, ◌≢◌, [], Some, None, IfOk, codes};
ghost use Rattle.plan_dsl.specs.Registry.{registry};
ghost use Rattle.query_run.specs.Answers.{Ended, right_words};
ghost use Rattle.query_run.specs.Endings.{SaysLowered, SaysRefused, SaysBadQuery, SaysTooLong, TooLongCalledFor, BadQueryCalledFor, RefusalCalledFor, IsComplete, IsFault};

use crate::run::run;
use crate::status::{Done, Status};
use byte_streams::sink::GrowingSink;
use byte_streams::source::PlainSource;
use plan_dsl::udfs::Udfs;
use plan_json::error::JsonError;
use plan_types::error::PlanError;
use plan_types::text::PlSmallStr;
use std::alloc::Global;

/// How a run ended, and the whole text that it wrote.
#[derive(Drop)]
pub struct Told {
    pub done: Done,
    pub text: Vec<u8>,
}

impl Told {
    // Memory ran out: there is no plan, and no text.
    fn no_memory(alloc: Global) -> Told
        ensures done { result.done ≡ record { status = Status.NoMemory; plan = None } }
        ensures text { result.text.items ≡ [] }
    {
        let done = Done {
            status: Status::NoMemory,
            plan: None,
        };
        Told {
            done,
            text: Vec::new(alloc),
        }
    }
}

/// `run` with the word `lower` over the bytes of a query, with the whole text in memory. No read and no write fails: a
/// text that memory doesn't hold ends out of memory, without a text.
pub fn run_to_text(alloc: Global, query: &[u8], udfs: &Udfs) -> Told
    // What each status says.
    ensures ended { Ended (registry udfs.now) right_words (Some query.now) (Some []) (Some result.text.items) result.done }
    ensures no_fault { ¬ (IsFault result.done.status) }
    ensures no_usage { result.done.status ≢ Status.Usage }
    ensures lowered { result.done.status ≡ Status.Lowered → SaysLowered (registry udfs.now) right_words (Some query.now) (Some []) (Some result.text.items) result.done.plan }
    ensures refused { (error : PlanError) → result.done.status ≡ Status.Refused error
        → SaysRefused (registry udfs.now) right_words (Some query.now) (Some []) (Some result.text.items) error }
    ensures bad_query { (error : JsonError) → result.done.status ≡ Status.BadQuery error
        → SaysBadQuery right_words (Some query.now) (Some []) (Some result.text.items) error }
    ensures too_long { result.done.status ≡ Status.TooLong → SaysTooLong right_words (Some query.now) (Some []) (Some result.text.items) }
    ensures no_memory { result.done.status ≡ Status.NoMemory → result.text.items ≡ [] }

    // Which status is called for, where memory doesn't run out.
    ensures too_long_where { TooLongCalledFor right_words (Some query.now) result.done.status }
    ensures bad_query_where { BadQueryCalledFor right_words (Some query.now) result.done.status }
    ensures refused_where { RefusalCalledFor (registry udfs.now) right_words (Some query.now) result.done.status }
    ensures complete { IsComplete (registry udfs.now) right_words (Some query.now) result.done.status }
{
    told_of(alloc, query, udfs)
}

// The run, with its text.
fn told_of(alloc: Global, query: &[u8], udfs: &Udfs) -> Told
    ensures ended { Ended (registry udfs.now) right_words (Some query.now) (Some []) (Some result.text.items) result.done }
    ensures no_fault { ¬ (IsFault result.done.status) }
{
    let Ok(word) = right_word(alloc) else {
        return Told::no_memory(alloc);
    };
    let mut source = PlainSource::new(query);
    let mut sink = GrowingSink::new(alloc);
    let done = run(alloc, &[word], &mut source, &mut sink, udfs);
    if done.status.is_write_fault() {
        return Told::no_memory(alloc);
    }
    Told {
        done,
        text: sink.into_bytes(),
    }
}

// The only word that asks for something.
fn right_word(alloc: Global) -> Result<PlSmallStr, PlanError>
    ensures { IfOk result (λ word. word ≡ codes "lower") }
{
    PlSmallStr::new(alloc, "lower")
}
