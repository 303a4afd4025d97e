//! The top call.
ghost use Rattle.std.specs.Prelude.{◌≡◌, ◌≢◌, ◌⊎◌, ℕ, ◌≤◌, ◌^◌, [], Some, None};
ghost use Rattle.std.specs.Io.KnownBytes.{Appends, IsAtEnd};
ghost use Rattle.plan_dsl.specs.Registry.{registry};
ghost use Rattle.byte_streams.specs.Streams.{IsFull, Rose};
ghost use Rattle.byte_streams.specs.declared.stream.TheConstants.{INPUT_LIMIT};
ghost use Rattle.query_run.specs.Answers.{Ended, right_words};
ghost use Rattle.query_run.specs.Endings.{SaysLowered, SaysRefused, SaysUsage, SaysBadQuery, SaysTooLong, SaysWriteFault, UsageCalledFor, TooLongCalledFor, BadQueryCalledFor, RefusalCalledFor, LoweringCalledFor, IsComplete, IsOfInput, TookTooMany, TookWithin};

use crate::answer::{Answer, answer_to};
use crate::status::{Done, Status};
use byte_streams::sink::{PlainSink, Sink};
use byte_streams::source::{PlainSource, Source};
use byte_streams::stream::write_all;
use plan_dsl::udfs::Udfs;
use plan_json::error::JsonError;
use plan_types::error::PlanError;
use plan_types::text::PlSmallStr;
use std::alloc::Global;

/// Does what the words, the arguments behind the program's name, ask for: it reads a query from the
/// source, and writes one text to the sink.
pub fn run<S: Source, K: Sink>(
    alloc: Global,
    words: &[PlSmallStr],
    source: &mut S,
    sink: &mut K,
    udfs: &Udfs,
) -> Done
    // What each status says.
    ensures ended { Ended (registry udfs.now) words.now (S.left source.old) (K.written sink.old) (K.written sink.new) result }
    ensures lowered { result.status ≡ Status.Lowered → SaysLowered (registry udfs.now) words.now (S.left source.old) (K.written sink.old) (K.written sink.new) result.plan }
    ensures refused { (error : PlanError) → result.status ≡ Status.Refused error
        → SaysRefused (registry udfs.now) words.now (S.left source.old) (K.written sink.old) (K.written sink.new) error }
    ensures usage { result.status ≡ Status.Usage → SaysUsage words.now (K.written sink.old) (K.written sink.new) }
    ensures bad_query { (error : JsonError) → result.status ≡ Status.BadQuery error
        → SaysBadQuery words.now (S.left source.old) (K.written sink.old) (K.written sink.new) error }
    ensures too_long { result.status ≡ Status.TooLong → SaysTooLong words.now (S.left source.old) (K.written sink.old) (K.written sink.new) }
    ensures read_fault { result.status ≡ Status.ReadFault → Rose (S.faults source.old) (S.faults source.new) }
    ensures write_fault { result.status ≡ Status.WriteFault → Rose (K.faults sink.old) (K.faults sink.new) }
    ensures cut { result.status ≡ Status.WriteFault → SaysWriteFault (registry udfs.now) words.now (S.left source.old) (S.left source.new) (K.written sink.old) (K.written sink.new) }
    ensures nothing_written { (result.status ≡ Status.ReadFault) ⊎ (result.status ≡ Status.NoMemory) → Appends (K.written sink.old) (K.written sink.new) [] }
    ensures end { IsOfInput result.status → IsAtEnd (S.left source.new) }
    ensures past { result.status ≡ Status.TooLong → TookTooMany (S.left source.old) (S.left source.new) }
    ensures within { result.status ≡ Status.ReadFault → TookWithin (S.left source.old) (S.left source.new) }
    ensures untouched { (¬ (words.now ≡ right_words)) → source.new ≡ source.old }
    ensures no_plan { (¬ (result.status ≡ Status.Lowered)) → result.plan ≡ None }

    // Which status is called for, where memory doesn't run out and no read or write fails.
    ensures usage_where { UsageCalledFor words.now result.status }
    ensures too_long_where { TooLongCalledFor words.now (S.left source.old) result.status }
    ensures bad_query_where { BadQueryCalledFor words.now (S.left source.old) result.status }
    ensures refused_where { RefusalCalledFor (registry udfs.now) words.now (S.left source.old) result.status }
    ensures lowered_where { LoweringCalledFor (registry udfs.now) words.now (S.left source.old) result.status }
    ensures complete { (¬ (Rose (S.faults source.old) (S.faults source.new))) → (¬ (Rose (K.faults sink.old) (K.faults sink.new)))
        → IsComplete (registry udfs.now) words.now (S.left source.old) result.status }

    // The limit of an input, and that counts of faults never fall.
    ensures limit { INPUT_LIMIT ≡ 2 ^ 24 }
    ensures source_later { S.faults source.old ≤ S.faults source.new }
    ensures sink_later { K.faults sink.old ≤ K.faults sink.new }
{
    let Answer { done, text } = answer_to(alloc, words, source, udfs);
    match write_all(sink, text.as_bytes()) {
        Ok(()) => done,
        Err(_) => Done {
            status: Status::WriteFault,
            plan: None,
        },
    }
}

/// `run` over memory: no read fails, and a write only where the sink is full.
pub fn run_in_memory(
    alloc: Global,
    words: &[PlSmallStr],
    source: &mut PlainSource<'_>,
    sink: &mut PlainSink,
    udfs: &Udfs,
) -> Done
    ensures ended { Ended (registry udfs.now) words.now (Some source.old) (Some sink.old.written) (Some sink.new.written) result }
    ensures reads { result.status ≢ Status.ReadFault }
    ensures writes { result.status ≡ Status.WriteFault → IsFull sink.new }
{
    run(alloc, words, source, sink, udfs)
}
