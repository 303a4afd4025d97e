//! The error of sources and sinks, and the plan of failures that those in memory follow.

ghost use Rattle.std.specs.Prelude.{◌≡◌, ◌↔◌, [], Ok, IsErr, IfOk, OnErr, IsTrue, Contains};
ghost use Rattle.byte_streams.specs.Streams.{one_more};

/// A read or a write failed. The source or sink has counted it.
#[derive(Clone, Copy, Debug, PartialEq, Eq)]
pub struct Failed;

/// What an adapter answers to an answer of its reader or writer, and its count of failures behind it.
/// Each failure counts once, and nothing else does.
pub(crate) fn counted<E: Drop>(
    answer: Result<usize, E>,
    faults: u64,
) -> (Result<usize, Failed>, u64)
    ensures moved { IfOk answer (λ n. (result.0 ≡ Ok n) × (result.1 ≡ faults)) }
    ensures failed { OnErr answer (IsErr result.0 × (result.1 ≡ one_more faults)) }
{
    match answer {
        Ok(count) => (Ok(count), faults),
        Err(_) => (Err(Failed), faults.saturating_add(1)),
    }
}

/// Numbers calls from 0, and has the numbers of those that fail.
#[derive(Debug, Drop)]
pub(crate) struct FaultPlan {
    pub(crate) calls: u64,
    pub(crate) failing: Vec<u64>,
    pub(crate) faults: u64,
}

impl FaultPlan {
    pub(crate) fn new(failing: Vec<u64>) -> Self
        ensures { result ≡ record { calls = 0; failing = failing; faults = 0 } }
    {
        FaultPlan {
            calls: 0,
            failing,
            faults: 0,
        }
    }

    /// Counts a call, and tells whether it is one that fails. From the last number on each call has
    /// that number.
    pub(crate) fn next_fails(&mut self) -> bool
        ensures listed { IsTrue result ↔ Contains self.old.failing.items self.old.calls }
        ensures counted { self.new ≡ record self.old { calls = one_more self.old.calls } }
    {
        let number = self.calls;
        self.calls = number.saturating_add(1);
        self.failing.contains(&number)
    }

    pub(crate) fn count_fault(&mut self)
        ensures { self.new ≡ record self.old { faults = one_more self.old.faults } }
    {
        self.faults = self.faults.saturating_add(1);
    }
}
