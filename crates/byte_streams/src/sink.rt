//! Sinks of bytes: the trait, three sinks in memory, and an adapter over any writer.

ghost use Rattle.std.specs.Prelude.{◌≡◌, ◌⊎◌, ◌↔◌, ℕ, ◌+◌, ◌-◌, ◌<◌, ◌≤◌, ◌++◌, min, List, [], length, take, vec_len, vec_capacity, if◌then◌else◌, is_ok, Some, Ok, IsErr, IsTrue, IfOk, OnErr, Contains};
ghost use Rattle.std.specs.declared.option.Option.{Option};
ghost use Rattle.std.specs.Io.{WritesAtMost};
ghost use Rattle.std.specs.Io.KnownBytes.{WriteAppends};
ghost use Rattle.byte_streams.specs.Streams.{GrowingSinkState, HasCause, IsFull, PlainSinkState, SinkState, TakesSome, one_more, plain_faults};

use crate::adapter::Adapter;
use crate::faults::{Failed, FaultPlan, counted};
use std::alloc::{AllocError, Global};
use std::io;
use std::io::Write;
use std::marker::Model;

/// Where bytes go.
pub trait Sink {
    // The bytes written, where they are known.
    ghost written: { Self → Option (List ℕ) };

    // How many writes failed, up to 2^64 - 1.
    ghost faults: { Self → ℕ };

    /// Takes bytes from the front of `piece`, and returns how many.
    fn write(&mut self, piece: &[u8]) -> Result<usize, Failed>
        ensures bound { WritesAtMost result piece.now }
        ensures bytes { WriteAppends (written self.old) (written self.new) result piece.now }
        ensures progress { TakesSome result piece.now }
        ensures cause { HasCause (faults self.old) (faults self.new) result };
}

/// Appends a piece that there is room for.
fn append(bytes: &mut Vec<u8>, piece: &[u8])
    requires { vec_len bytes.old + length piece.now ≤ vec_capacity bytes.old }
    ensures items { bytes.new.items ≡ bytes.old.items ++ piece.now }
    ensures capacity { vec_capacity bytes.old ≤ vec_capacity bytes.new }
{
    bytes.extend_from_slice(piece).unwrap();
}

/// Bytes in memory, with writes that fail as planned, or where it is full.
#[derive(Debug, Drop)]
pub struct MemSink {
    bytes: Vec<u8>,
    room: usize,
    step: usize,
    plan: FaultPlan,
}

impl Model for MemSink {
    ghost Value = { SinkState };

    ghost view = { λ s. record {
      written = s.bytes.items;
      room = s.room;
      step = s.step;
      calls = s.plan.calls;
      failing = s.plan.failing.items;
      faults = s.plan.faults;
    } };

    ghost invariant = { λ s. (vec_len s.bytes ≤ s.room) × (s.room ≤ vec_capacity s.bytes)
        × (0 < s.step) };
}

impl MemSink {
    /// A sink with room for so many bytes. The writes whose numbers, from 0, are in `failing` fail.
    pub fn new(alloc: Global, room: usize, failing: Vec<u64>) -> Result<Self, AllocError>
        ensures written { IfOk result (λ s. s.written ≡ []) }
        ensures room { IfOk result (λ s. s.room ≡ room) }
        ensures step { IfOk result (λ s. s.step ≡ usize.MAX) }
        ensures failing { IfOk result (λ s. s.failing ≡ failing.items) }
        ensures fresh { IfOk result (λ s. (s.calls ≡ 0) × (s.faults ≡ 0)) }
    {
        let bytes = Vec::with_capacity(alloc, room)?;
        Ok(MemSink {
            bytes,
            room,
            step: usize::MAX,
            plan: FaultPlan::new(failing),
        })
    }

    /// The sink, which takes at most `step` bytes a write.
    pub fn in_steps(mut self, step: usize) -> Self
        requires { 0 < step }
        ensures { result ≡ record self { step = step } }
    {
        self.step = step;
        self
    }

    /// The bytes written.
    pub fn written(&self) -> &[u8]
        ensures value { result.now ≡ self.now.written }
        ensures fits { length result.now ≤ self.now.room }
    {
        self.bytes.as_slice()
    }

    /// How many writes failed.
    pub fn faults(&self) -> u64
        ensures { result ≡ self.now.faults }
    {
        self.plan.faults
    }
}

impl Sink for MemSink {
    ghost written = { λ s. Some s.written };

    ghost faults = { λ s. s.faults };

    fn write(&mut self, piece: &[u8]) -> Result<usize, Failed>
        ensures bound { WritesAtMost result piece.now }
        ensures bytes { WriteAppends (Some self.old.written) (Some self.new.written)
            result piece.now }
        ensures progress { TakesSome result piece.now }
        ensures cause { HasCause self.old.faults self.new.faults result }

        // It fails exactly as planned, or where it is full and there are bytes to write, and else
        // takes as much as it may.
        ensures planned_or_full { IsErr result ↔ (Contains self.old.failing self.old.calls
            ⊎ ((length self.old.written ≡ self.old.room) × (0 < length piece.now))) }
        ensures count { IfOk result (λ n. n
            ≡ min self.old.step (min (self.old.room - length self.old.written) (length piece.now))) }
        ensures ok { IfOk result (λ n. self.new ≡ record self.old {
          written = self.old.written ++ take n piece.now;
          calls = one_more self.old.calls;
        }) }
        ensures err { OnErr result (self.new ≡ record self.old {
          calls = one_more self.old.calls;
          faults = one_more self.old.faults;
        }) }
    {
        if self.plan.next_fails() {
            self.plan.count_fault();
            return Err(Failed);
        }
        let room = self.room - self.bytes.len();
        let count = self.step.min(room.min(piece.len()));
        if count == 0 && !piece.is_empty() {
            self.plan.count_fault();
            return Err(Failed);
        }
        append(&mut self.bytes, &piece[..count]);
        Ok(count)
    }
}

/// Bytes in memory, whose writes fail only where it is full.
#[derive(Debug, Drop)]
pub struct PlainSink {
    bytes: Vec<u8>,
    room: usize,
    refused: u64,
}

impl Model for PlainSink {
    ghost Value = { PlainSinkState };

    ghost view = { λ s. record { written = s.bytes.items; room = s.room; refused = s.refused } };

    ghost invariant = { λ s. (vec_len s.bytes ≤ s.room) × (s.room ≤ vec_capacity s.bytes)
        × (0 < s.refused → s.room ≤ vec_len s.bytes) };
}

impl PlainSink {
    /// A sink with room for so many bytes.
    pub fn new(alloc: Global, room: usize) -> Result<Self, AllocError>
        ensures written { IfOk result (λ s. s.written ≡ []) }
        ensures room { IfOk result (λ s. s.room ≡ room) }
        ensures fresh { IfOk result (λ s. s.refused ≡ 0) }
    {
        let bytes = Vec::with_capacity(alloc, room)?;
        Ok(PlainSink {
            bytes,
            room,
            refused: 0,
        })
    }

    /// The bytes written.
    pub fn written(&self) -> &[u8]
        ensures value { result.now ≡ self.now.written }
        ensures fits { length result.now ≤ self.now.room }
    {
        self.bytes.as_slice()
    }

    /// Tells whether there is no room left.
    pub fn is_full(&self) -> bool
        ensures { IsTrue result ↔ IsFull self.now }
    {
        self.room <= self.bytes.len()
    }

    /// How many writes failed, which they do only where it is full.
    pub fn faults(&self) -> u64
        ensures count { result ≡ plain_faults self.now }
        ensures refused { result ≡ self.now.refused }
        ensures full { 0 < result → IsFull self.now }
    {
        self.refused
    }
}

impl Sink for PlainSink {
    ghost written = { λ s. Some s.written };

    ghost faults = { plain_faults };

    fn write(&mut self, piece: &[u8]) -> Result<usize, Failed>
        ensures bound { WritesAtMost result piece.now }
        ensures bytes { WriteAppends (Some self.old.written) (Some self.new.written)
            result piece.now }
        ensures progress { TakesSome result piece.now }
        ensures cause { HasCause (plain_faults self.old) (plain_faults self.new) result }

        // It fails exactly where it is full and there are bytes to write, and else takes what fits.
        ensures full { IsErr result
            ↔ ((length self.old.written ≡ self.old.room) × (0 < length piece.now)) }
        ensures count { IfOk result (λ n.
            n ≡ min (self.old.room - length self.old.written) (length piece.now)) }
        ensures ok { IfOk result (λ n. self.new
            ≡ record self.old { written = self.old.written ++ take n piece.now }) }
        ensures err { OnErr result (self.new
            ≡ record self.old { refused = one_more self.old.refused }) }
    {
        let room = self.room - self.bytes.len();
        let count = room.min(piece.len());
        if count == 0 && !piece.is_empty() {
            self.refused = self.refused.saturating_add(1);
            return Err(Failed);
        }
        append(&mut self.bytes, &piece[..count]);
        Ok(count)
    }
}

/// Bytes in memory that grow with what is written. A write fails only where it is out of memory, and then
/// takes nothing.
#[derive(Debug, Drop)]
pub struct GrowingSink {
    bytes: Vec<u8>,
    faults: u64,
}

impl Model for GrowingSink {
    ghost Value = { GrowingSinkState };

    ghost view = { λ s. record { written = s.bytes.items; faults = s.faults } };
}

impl GrowingSink {
    /// A sink without bytes, which holds no memory yet.
    pub fn new(alloc: Global) -> Self
        ensures { result ≡ record { written = []; faults = 0 } }
    {
        GrowingSink {
            bytes: Vec::new(alloc),
            faults: 0,
        }
    }

    /// The bytes written.
    pub fn written(&self) -> &[u8]
        ensures { result.now ≡ self.now.written }
    {
        self.bytes.as_slice()
    }

    /// The bytes written, for the caller to keep.
    pub fn into_bytes(self) -> Vec<u8>
        ensures { result.items ≡ self.written }
    {
        self.bytes
    }

    /// How many writes failed.
    pub fn faults(&self) -> u64
        ensures { result ≡ self.now.faults }
    {
        self.faults
    }
}

impl Sink for GrowingSink {
    ghost written = { λ s. Some s.written };

    ghost faults = { λ s. s.faults };

    fn write(&mut self, piece: &[u8]) -> Result<usize, Failed>
        ensures bound { WritesAtMost result piece.now }
        ensures bytes { WriteAppends (Some self.old.written) (Some self.new.written)
            result piece.now }
        ensures progress { TakesSome result piece.now }
        ensures cause { HasCause self.old.faults self.new.faults result }

        // It takes the whole piece, or fails and takes nothing.
        ensures count { IfOk result (λ n. n ≡ length piece.now) }
        ensures ok { IfOk result (λ _. self.new
            ≡ record self.old { written = self.old.written ++ piece.now }) }
        ensures err { OnErr result (self.new
            ≡ record self.old { faults = one_more self.old.faults }) }
    {
        match self.bytes.extend_from_slice(piece) {
            Ok(()) => Ok(piece.len()),
            Err(_) => {
                self.faults = self.faults.saturating_add(1);
                Err(Failed)
            }
        }
    }
}

// A writer's answer to a piece of so many bytes, which has failed where it takes none of them.
fn taken(answer: io::Result<usize>, asked: usize) -> Result<usize, Failed>
    ensures some { IfOk answer (λ n. (0 < n) ⊎ (asked ≡ 0) → result ≡ Ok n) }
    ensures none { IfOk answer (λ n. n ≡ 0 → 0 < asked → IsErr result) }
    ensures failed { OnErr answer (IsErr result) }
{
    match answer {
        Ok(count) if count > 0 || asked == 0 => Ok(count),
        _ => Err(Failed),
    }
}

/// Any writer as a sink. A write that takes nothing of a piece with bytes is a failure, and so is an
/// interrupted one. It flushes nothing: the runtime's standard output has no buffer.
pub type WriteAdapter<W> = Adapter<W>;

// It tells what the writer tells: standard output tells nothing.
impl<W: Write> Sink for Adapter<W> {
    ghost written = { λ s. W.contents s.inner };

    ghost faults = { λ s. s.faults };

    fn write(&mut self, piece: &[u8]) -> Result<usize, Failed>
        ensures bound { WritesAtMost result piece.now }
        ensures bytes { WriteAppends (W.contents self.old.inner) (W.contents self.new.inner)
            result piece.now }
        ensures progress { TakesSome result piece.now }
        ensures cause { HasCause self.old.faults self.new.faults result }

        // Each failure counts once, and nothing else does.
        ensures count { self.new.faults
            ≡ (if is_ok result then self.old.faults else one_more self.old.faults) }
    {
        let taken = taken(self.inner.write(piece), piece.len());
        let (answer, faults) = counted(taken, self.faults);
        self.faults = faults;
        answer
    }
}
