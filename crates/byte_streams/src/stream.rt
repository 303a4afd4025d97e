//! Reading a source to its end, and writing a whole text to a sink.

ghost use Rattle.std.specs.Prelude.{◌≡◌, ℕ, ◌<◌, ◌≤◌, length, take, IfSome, OnOk, OnErr};
ghost use Rattle.std.specs.Io.KnownBytes.{Appends, IsAtEnd};
ghost use Rattle.byte_streams.specs.Streams.{HasCause, Rose};
ghost use Rattle.byte_streams.specs.Reading.{IfBytes, TakenBy, Took};

use crate::faults::Failed;
use crate::sink::Sink;
use crate::source::Source;
use std::alloc::Global;

/// The most bytes that an input may have.
pub const INPUT_LIMIT: usize = 1 << 24;

/// The most bytes that one read asks for.
const CHUNK: usize = 8192;

/// How reading an input ended.
#[derive(Debug, PartialEq, Eq, Drop)]
pub enum ReadOutcome {
    /// The whole input.
    Bytes(Vec<u8>),
    /// A read failed.
    Fault,
    /// The input has more than `INPUT_LIMIT` bytes.
    TooLong,
    /// There was no memory for the bytes read.
    NoMemory,
}

/// Reads a source to its end, or to one byte past the limit.
pub fn read_all<S: Source>(alloc: Global, source: &mut S) -> ReadOutcome
    // The bytes are all that the source had, where that is known.
    ensures whole { IfBytes result (λ bytes. IfSome (S.left source.old) (λ all. bytes ≡ all)) }
    ensures limit { IfBytes result (λ bytes. length bytes ≤ INPUT_LIMIT) }
    ensures end { IfBytes result (λ _. IsAtEnd (S.left source.new)) }

    ensures too_long { result ≡ ReadOutcome.TooLong
        → IfSome (S.left source.old) (λ all. INPUT_LIMIT < length all) }
    ensures fault { result ≡ ReadOutcome.Fault → Rose (S.faults source.old) (S.faults source.new) }

    // With every outcome the source has lost a front of its bytes, and its count has not fallen.
    ensures taken { Took (S.left source.old) (S.left source.new) (TakenBy result) }
    ensures later { S.faults source.old ≤ S.faults source.new }
{
    let mut bytes = Vec::new(alloc);
    let mut buffer = [0u8; CHUNK];
    'reading: for _turn in 0..INPUT_LIMIT + 1 {
        let room = CHUNK.min(INPUT_LIMIT + 1 - bytes.len());
        let Ok(count) = source.read(&mut buffer[..room]) else {
            return ReadOutcome::Fault;
        };
        if count == 0 {
            return ReadOutcome::Bytes(bytes);
        }
        if bytes.len() + count > INPUT_LIMIT {
            return ReadOutcome::TooLong;
        }
        if bytes.extend_from_slice(&buffer[..count]).is_err() {
            return ReadOutcome::NoMemory;
        }
    }
    // Each turn took a byte, so the last one went past the limit.
    unreachable!()
}

/// Writes the whole text, or the front of it that was taken before a write failed.
pub fn write_all<K: Sink>(sink: &mut K, text: &[u8]) -> Result<(), Failed>
    ensures ok { OnOk result (Appends (K.written sink.old) (K.written sink.new) text.now) }
    ensures err { OnErr result ((n : ℕ) × (n < length text.now)
        × Appends (K.written sink.old) (K.written sink.new) (take n text.now)) }
    ensures cause { HasCause (K.faults sink.old) (K.faults sink.new) result }
{
    let mut done = 0;
    'writing: while done < text.len() {
        done += sink.write(&text[done..])?;
    }
    Ok(())
}
