//! A sink whose flushes are left to a later one.
ghost use Rattle.std.specs.Prelude.{◌≡◌};
ghost use Rattle.xet_room.specs.LaterFlushes.{later_told};

use std::snapshot::Snapshot;
use xet_store::{Sink, SinkError};

/// A sink that hands each piece on to the sink below, and only notes each flush: who has the sink below flushes it
/// once, at the end.
#[derive(Drop)]
pub struct LaterFlush<O: Sink> {
    inner: O,
    // the inner sink when a flush was last asked for
    flushed: Snapshot<O>,
}

impl<O: Sink> LaterFlush<O> {
    /// A sink over the inner one, which counts as flushed as far as it is taken.
    pub fn new(inner: O) -> LaterFlush<O>
        ensures { result.inner ≡ inner }
    {
        let flushed = Snapshot::of(&inner);
        LaterFlush { inner, flushed }
    }

    /// The inner sink.
    pub fn into_inner(self) -> O
        ensures { result ≡ self.inner }
    {
        self.inner
    }
}

impl<O: Sink> Sink for LaterFlush<O> {
    ghost told = { λ s. later_told (O.told s.flushed.value) (O.told s.inner) };

    fn write(&mut self, piece: &[u8]) -> Result<usize, SinkError> {
        self.inner.write(piece)
    }

    fn flush(&mut self) -> Result<(), SinkError> {
        self.flushed = Snapshot::of(&self.inner);
        Ok(())
    }
}
