//! Whole reads and writes over sources and sinks in memory, and over readers and writers.

use crate::fixtures::NO_MEMORY;
use byte_streams::faults::Failed;
use byte_streams::sink::{GrowingSink, WriteAdapter};
use byte_streams::source::{MemSource, ReadAdapter};
use byte_streams::stream::{ReadOutcome, read_all, write_all};
use std::alloc::Global;
use std::io::{self, ErrorKind, Read, Write};
use std::process::Abort;

const TEXT: &[u8] = b"scan t, filter";

// The outcome is the bytes.
fn assert_bytes(rt: &impl Abort, outcome: &ReadOutcome, bytes: &[u8]) {
    match outcome {
        ReadOutcome::Bytes(found) => assert!(rt; found.as_slice() == bytes),
        _ => panic!(rt; "no bytes"),
    }
}

// So many blanks are read, at most that many at a time.
fn assert_read(rt: &impl Abort, alloc: Global, count: usize, step: usize) {
    let text = vec![in alloc; b' '; count].expect(rt, NO_MEMORY);
    assert!(rt; step > 0);
    let mut source = MemSource::new(&text, Vec::new(alloc)).in_steps(step);
    let outcome = read_all(alloc, &mut source);
    assert_bytes(rt, &outcome, text.as_slice());
    drop(outcome);
}

#[test]
fn inputs_of_any_size_are_read(rt: HostRuntime) {
    for count in [0, 1, 2, 8_191, 8_192, 8_193, 100_000] {
        assert_read(&rt, rt.alloc(), count, 7);
        assert_read(&rt, rt.alloc(), count, usize::MAX);
    }
}

// A reader that gives at most five bytes a read, of which one fails. It counts how often it is asked.
#[derive(Drop)]
struct Reader {
    left: &'static [u8],
    reads: u64,
    failing: u64,
}

impl Read for Reader {
    fn read(&mut self, buf: &mut [u8]) -> io::Result<usize> {
        let number = self.reads;
        self.reads = number.saturating_add(1);
        if number == self.failing {
            return Err(io::Error::from(ErrorKind::Interrupted));
        }
        let left = self.left;
        let count = left.len().min(buf.len().min(5));
        buf[..count].copy_from_slice(&left[..count]);
        self.left = &left[count..];
        Ok(count)
    }
}

// So many reads are asked for, where the one of that number fails.
fn assert_reads(rt: &impl Abort, alloc: Global, failing: u64, reads: u64, faults: u64) {
    let mut reader = Reader {
        left: TEXT,
        reads: 0,
        failing,
    };
    let mut adapter = ReadAdapter::new(&mut reader);
    let outcome = read_all(alloc, &mut adapter);
    assert!(rt; adapter.faults() == faults);
    if faults == 0 {
        assert_bytes(rt, &outcome, TEXT);
    } else {
        assert!(rt; matches!(&outcome, ReadOutcome::Fault));
    }
    drop(outcome);
    assert!(rt; reader.reads == reads);
}

#[test]
fn an_adapter_asks_its_reader(rt: HostRuntime) {
    // The fourth read is the end.
    assert_reads(&rt, rt.alloc(), 9, 4, 0);
    assert_reads(&rt, rt.alloc(), 0, 1, 1);
    assert_reads(&rt, rt.alloc(), 2, 3, 1);
    assert_reads(&rt, rt.alloc(), 3, 4, 1);
}

// A writer that takes at most five bytes a write, of which one fails. It counts the bytes and how often it is asked.
#[derive(Drop)]
struct Writer {
    taken: usize,
    writes: u64,
    failing: u64,
}

impl Write for Writer {
    fn write(&mut self, buf: &[u8]) -> io::Result<usize> {
        let number = self.writes;
        self.writes = number.saturating_add(1);
        if number == self.failing {
            return Err(io::Error::from(ErrorKind::Interrupted));
        }
        let count = buf.len().min(5);
        self.taken = self.taken.saturating_add(count);
        Ok(count)
    }

    fn flush(&mut self) -> io::Result<()> {
        Ok(())
    }
}

// So many writes are asked for and so many bytes are taken, where the write of that number fails.
fn assert_writes(rt: &impl Abort, failing: u64, writes: u64, taken: usize, faults: u64) {
    let mut writer = Writer {
        taken: 0,
        writes: 0,
        failing,
    };
    let mut adapter = WriteAdapter::new(&mut writer);
    let answer = write_all(&mut adapter, TEXT);
    assert!(rt; adapter.faults() == faults);
    assert!(rt; answer.is_ok() == (faults == 0));
    assert!(rt; writer.writes == writes);
    assert!(rt; writer.taken == taken);
}

#[test]
fn an_adapter_asks_its_writer(rt: HostRuntime) {
    assert_writes(&rt, 9, 3, 14, 0);
    assert_writes(&rt, 0, 1, 0, 1);
    assert_writes(&rt, 2, 3, 10, 1);
}

#[test]
fn a_full_page_takes_no_more(rt: HostRuntime) {
    let mut page = [0u8; 4];
    let mut writer = WriteAdapter::new(&mut page[..]);
    assert!(rt; write_all(&mut writer, b"sca") == Ok(()));
    assert!(rt; write_all(&mut writer, b"n t") == Err(Failed));
    assert!(rt; writer.faults() == 1);
}

// So many bytes go to a page of as many, in one piece.
fn assert_handed_on(rt: &impl Abort, alloc: Global, count: usize) {
    let text = vec![in alloc; b'a'; count].expect(rt, NO_MEMORY);
    let mut page = vec![in alloc; b' '; count].expect(rt, NO_MEMORY);
    let mut writer = WriteAdapter::new(page.as_mut_slice());
    assert!(rt; write_all(&mut writer, text.as_slice()) == Ok(()));
    assert!(rt; writer.faults() == 0);
    drop(writer);
    assert!(rt; page.as_slice() == text.as_slice());
}

#[test]
fn an_adapter_hands_on_pieces_of_any_size(rt: HostRuntime) {
    for count in [0, 1, 2, 20_000_000] {
        assert_handed_on(&rt, rt.alloc(), count);
    }
}

#[test]
fn a_growing_sink_takes_all_texts(rt: HostRuntime) {
    let text = vec![in rt.alloc(); b'a'; 100_000].expect(&rt, NO_MEMORY);
    let mut sink = GrowingSink::new(rt.alloc());
    assert!(rt; write_all(&mut sink, TEXT) == Ok(()));
    assert!(rt; write_all(&mut sink, text.as_slice()) == Ok(()));
    assert!(rt; sink.faults() == 0);
    let bytes = sink.into_bytes();
    assert!(rt; bytes.len() == TEXT.len() + 100_000);
    assert!(rt; bytes.as_slice().starts_with(TEXT));
    drop(bytes);
}
