//! Whole runs, from a query's text to a status and a text, with reads and writes that fail.

use crate::fixtures::NO_MEMORY;
use byte_streams::sink::{MemSink, PlainSink, Sink};
use byte_streams::source::{MemSource, PlainSource, Source};
use plan_dsl::udfs::Udfs;
use plan_types::text::PlSmallStr;
use query_run::run::run;
use query_run::text::{Told, run_to_text};
use std::alloc::Global;
use std::process::Abort;

const EMPTY: &[u8] = b"{\"tables\":[],\"plan\":{\"empty\":[]}}";

const EMPTY_REPORT: &[u8] = b". df ()\ncasts 0\n";

const MISSING: &[u8] = b"{\"tables\":[],\"plan\":{\"select\":[{\"empty\":[]},[{\"col\":\"b\"}]]}}";

// The number of the status with which a run that is asked for a report ends.
fn run_over<S: Source, K: Sink>(
    rt: &impl Abort,
    alloc: Global,
    source: &mut S,
    sink: &mut K,
) -> u8 {
    let word = PlSmallStr::new(alloc, "lower").expect(rt, NO_MEMORY);
    let udfs = Udfs::new(alloc);
    let done = run(alloc, &[word], source, sink, &udfs);
    let number = done.status.number();
    drop(done);
    drop(udfs);
    number
}

// The query, with blanks behind it up to that length, ends with that status and text.
fn assert_padded(rt: &impl Abort, alloc: Global, length: usize, number: u8, text: &[u8]) {
    let mut query = EMPTY.to_vec(alloc).expect(rt, NO_MEMORY);
    query.resize(length, b' ').expect(rt, NO_MEMORY);
    let mut sink = PlainSink::new(alloc, 100).expect(rt, NO_MEMORY);
    let mut source = PlainSource::new(query.as_slice());
    let found = run_over(rt, alloc, &mut source, &mut sink);
    assert!(rt; found == number);
    assert!(rt; sink.written() == text);
    drop(sink);
}

#[test]
fn an_input_over_the_limit_is_too_long(rt: HostRuntime) {
    assert_padded(&rt, rt.alloc(), 8_192, 0, EMPTY_REPORT);
    assert_padded(&rt, rt.alloc(), 1 << 24, 0, EMPTY_REPORT);
    assert_padded(&rt, rt.alloc(), (1 << 24) + 1, 7, b"too long\n")
}

// A run whose read of that number fails, in reads of seven bytes, ends with that status and text.
fn assert_read(rt: &impl Abort, alloc: Global, failing: u64, number: u8, text: &[u8]) {
    let failing = vec![in alloc; failing].expect(rt, NO_MEMORY);
    let mut source = MemSource::new(EMPTY, failing).in_steps(7);
    let mut sink = PlainSink::new(alloc, 100).expect(rt, NO_MEMORY);
    let found = run_over(rt, alloc, &mut source, &mut sink);
    assert!(rt; found == number);
    assert!(rt; sink.written() == text);
    drop(sink);
    assert!(rt; (source.faults() > 0) == (number == 4));
    drop(source);
}

// Reads 0 to 4 take the 34 bytes. Read 5 finds the end.
#[test]
fn a_failing_read_leaves_nothing_written(rt: HostRuntime) {
    for failing in 0..6 {
        assert_read(&rt, rt.alloc(), failing, 4, b"");
    }
    assert_read(&rt, rt.alloc(), 6, 0, EMPTY_REPORT)
}

// A run whose write of that number fails, in writes of one byte, leaves the bytes before.
fn assert_front(rt: &impl Abort, alloc: Global, query: &[u8], text: &[u8], failing: usize) {
    let numbers = vec![in alloc; failing as u64].expect(rt, NO_MEMORY);
    let mut sink = MemSink::new(alloc, 100, numbers)
        .expect(rt, NO_MEMORY)
        .in_steps(1);
    let found = run_over(rt, alloc, &mut PlainSource::new(query), &mut sink);
    assert!(rt; found == 5);
    assert!(rt; sink.faults() == 1);
    assert!(rt; failing <= text.len());
    assert!(rt; sink.written() == &text[..failing]);
    drop(sink);
}

#[test]
fn a_failing_write_leaves_the_front_of_the_text(rt: HostRuntime) {
    for failing in 0..EMPTY_REPORT.len() {
        assert_front(&rt, rt.alloc(), EMPTY, EMPTY_REPORT, failing);
    }
    assert_front(&rt, rt.alloc(), MISSING, b"refused ColumnNotFound .\n", 9);
    assert_front(&rt, rt.alloc(), b"{\"tables\":[", b"bad query NotJson\n", 0)
}

#[test]
fn a_run_hands_out_its_text(rt: HostRuntime) {
    let udfs = Udfs::new(rt.alloc());
    let Told { done, text } = run_to_text(rt.alloc(), EMPTY, &udfs);
    let number = done.number();
    assert!(rt; number == 0);
    assert!(rt; text.as_slice() == EMPTY_REPORT);
}
