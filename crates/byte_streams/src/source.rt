//! Sources of bytes: the trait, two sources in memory, and an adapter over any reader.

ghost use Rattle.std.specs.Prelude.{◌≡◌, ◌↔◌, ℕ, ◌<◌, ◌++◌, min, List, length, take, drop, if◌then◌else◌, is_ok, Some, Ok, IsErr, IfOk, OnErr, Contains};
ghost use Rattle.std.specs.declared.option.Option.{Option};
ghost use Rattle.std.specs.Io.{ReadsAtMost};
ghost use Rattle.std.specs.Io.KnownBytes.{ReadConsumes};
ghost use Rattle.byte_streams.specs.Streams.{HasCause, SourceState, one_more};

use crate::adapter::Adapter;
use crate::faults::{Failed, FaultPlan, counted};
use std::io::Read;
use std::marker::Model;

/// Where bytes come from.
pub trait Source {
    // The bytes to come, where they are known.
    ghost left: { Self → Option (List ℕ) };

    // How many reads failed, up to 2^64 - 1.
    ghost faults: { Self → ℕ };

    /// Moves bytes to the front of `into`, and returns how many. At a buffer with room none is the end.
    fn read(&mut self, into: &mut [u8]) -> Result<usize, Failed>
        ensures bound { ReadsAtMost result into.new }
        ensures bytes { ReadConsumes (left self.old) (left self.new) result into.new }
        ensures cause { HasCause (faults self.old) (faults self.new) result };
}

/// Moves at most `most` bytes from the front of `left` to the front of `into`, and returns how many.
fn take_front(left: &mut &[u8], into: &mut [u8], most: usize) -> usize
    ensures count { result ≡ min most (min (length left.old.now) (length into.old)) }
    ensures moved { into.new ≡ take result left.old.now ++ drop result into.old }
    ensures rest { left.new.now ≡ drop result left.old.now }
{
    let all: &[u8] = *left;
    let count = most.min(all.len().min(into.len()));
    into[..count].copy_from_slice(&all[..count]);
    *left = &all[count..];
    count
}

/// Bytes in memory, with reads that fail as planned.
#[derive(Debug, Drop)]
pub struct MemSource<'a> {
    bytes: &'a [u8],
    step: usize,
    plan: FaultPlan,
}

impl<'a> Model for MemSource<'a> {
    ghost Value = { SourceState };

    ghost view = { λ s. record {
      left = s.bytes.now;
      step = s.step;
      calls = s.plan.calls;
      failing = s.plan.failing.items;
      faults = s.plan.faults;
    } };

    ghost invariant = { λ s. 0 < s.step };
}

impl<'a> MemSource<'a> {
    /// A source of these bytes. The reads whose numbers, from 0, are in `failing` fail.
    pub fn new(bytes: &'a [u8], failing: Vec<u64>) -> Self
        ensures left { result.left ≡ bytes.now }
        ensures step { result.step ≡ usize.MAX }
        ensures failing { result.failing ≡ failing.items }
        ensures fresh { (result.calls ≡ 0) × (result.faults ≡ 0) }
    {
        MemSource {
            bytes,
            step: usize::MAX,
            plan: FaultPlan::new(failing),
        }
    }

    /// The source, with at most `step` bytes a read.
    pub fn in_steps(mut self, step: usize) -> Self
        requires { 0 < step }
        ensures { result ≡ record self.entry { step = step } }
    {
        self.step = step;
        self
    }

    /// The bytes to come.
    pub fn left(&self) -> &[u8]
        ensures { result.now ≡ self.now.left }
    {
        self.bytes
    }

    /// How many reads failed.
    pub fn faults(&self) -> u64
        ensures { result ≡ self.now.faults }
    {
        self.plan.faults
    }
}

impl Source for MemSource<'_> {
    ghost left = { λ s. Some s.left };

    ghost faults = { λ s. s.faults };

    fn read(&mut self, into: &mut [u8]) -> Result<usize, Failed>
        ensures bound { ReadsAtMost result into.new }
        ensures bytes { ReadConsumes (Some self.old.left) (Some self.new.left) result into.new }
        ensures cause { HasCause self.old.faults self.new.faults result }

        // It fails exactly as planned, and else gives as much as it may.
        ensures planned { IsErr result ↔ Contains self.old.failing self.old.calls }
        ensures count { IfOk result (λ n.
            n ≡ min self.old.step (min (length self.old.left) (length into.old))) }
        ensures ok { IfOk result (λ n. self.new ≡ record self.old {
          left = drop n self.old.left;
          calls = one_more self.old.calls;
        }) }
        ensures err { OnErr result (self.new ≡ record self.old {
          calls = one_more self.old.calls;
          faults = one_more self.old.faults;
        }) }
    {
        if self.plan.next_fails() {
            self.plan.count_fault();
            return Err(Failed);
        }
        Ok(take_front(&mut self.bytes, into, self.step))
    }
}

/// Bytes in memory, whose reads never fail.
#[derive(Debug, Drop)]
pub struct PlainSource<'a> {
    bytes: &'a [u8],
}

impl<'a> Model for PlainSource<'a> {
    ghost Value = { List ℕ };

    ghost view = { λ s. s.bytes.now };
}

impl<'a> PlainSource<'a> {
    pub fn new(bytes: &'a [u8]) -> Self
        ensures { result ≡ bytes.now }
    {
        PlainSource { bytes }
    }

    /// The bytes to come.
    pub fn left(&self) -> &[u8]
        ensures { result.now ≡ self.now }
    {
        self.bytes
    }
}

impl Source for PlainSource<'_> {
    ghost left = { λ s. Some s };

    ghost faults = { λ _. 0 };

    fn read(&mut self, into: &mut [u8]) -> Result<usize, Failed>
        ensures bound { ReadsAtMost result into.new }
        ensures bytes { ReadConsumes (Some self.old) (Some self.new) result into.new }
        ensures cause { HasCause 0 0 result }

        // It gives as much as there is, or as fits.
        ensures count { result ≡ Ok (min (length self.old) (length into.old)) }
    {
        Ok(take_front(&mut self.bytes, into, usize::MAX))
    }
}

/// Any reader as a source. An interrupted read is a failure like any other.
pub type ReadAdapter<R> = Adapter<R>;

// It tells what the reader tells: standard input tells nothing.
impl<R: Read> Source for Adapter<R> {
    ghost left = { λ s. R.remaining s.inner };

    ghost faults = { λ s. s.faults };

    fn read(&mut self, into: &mut [u8]) -> Result<usize, Failed>
        ensures bound { ReadsAtMost result into.new }
        ensures bytes { ReadConsumes (R.remaining self.old.inner) (R.remaining self.new.inner)
            result into.new }
        ensures cause { HasCause self.old.faults self.new.faults result }

        // Each failure counts once, and nothing else does.
        ensures count { self.new.faults
            ≡ (if is_ok result then self.old.faults else one_more self.old.faults) }
    {
        let (answer, faults) = counted(self.inner.read(into), self.faults);
        self.faults = faults;
        answer
    }
}
