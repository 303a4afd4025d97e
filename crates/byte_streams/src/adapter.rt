//! An adapter over any reader or writer, which counts its failures.

ghost use Rattle.std.specs.Prelude.{◌≡◌};
ghost use Rattle.byte_streams.specs.Streams.{AdapterState};

use std::marker::Model;

/// Any reader as a source, or any writer as a sink.
#[derive(Drop)]
pub struct Adapter<I> {
    pub(crate) inner: I,
    pub(crate) faults: u64,
}

impl<I> Model for Adapter<I> {
    ghost Value = { AdapterState I };

    ghost view = { λ s. record { inner = s.inner; faults = s.faults } };
}

impl<I> Adapter<I> {
    pub fn new(inner: I) -> Self
        ensures inner { result.inner ≡ inner }
        ensures fresh { result.faults ≡ 0 }
    {
        Adapter { inner, faults: 0 }
    }

    /// How many reads or writes failed.
    pub fn faults(&self) -> u64
        ensures { result ≡ self.now.faults }
    {
        self.faults
    }
}
