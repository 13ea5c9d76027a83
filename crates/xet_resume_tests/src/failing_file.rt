//! A file that fails at one of its calls.
use std::alloc::Global;
use xet_outside::{PlaceSink, Sink, SinkError};
use xet_sinks::MemFile;

/// A file in memory that takes three bytes a write, and fails once: at the write or the setting of its place of this
/// number, counted from 0.
#[derive(Drop)]
pub(crate) struct FailingFile {
    inner: MemFile,
    calls: u32,
    fails: u32,
}

impl FailingFile {
    /// An empty file, which fails at the call of this number.
    pub(crate) fn new(alloc: Global, fails: u32) -> FailingFile {
        FailingFile {
            inner: MemFile::new(alloc, Vec::new(alloc)),
            calls: 0,
            fails,
        }
    }

    /// The content.
    pub(crate) fn content(&self) -> &[u8] {
        self.inner.content()
    }

    // Counts a call, and says whether it fails.
    fn fails_now(&mut self) -> bool {
        let call = self.calls;
        self.calls = call.saturating_add(1);
        call == self.fails
    }
}

impl Sink for FailingFile {
    ghost use Rattle.std.specs.Prelude.{◌-◌, ◌^◌, [], None};

    // Nothing is told, and the count stands at its last value.
    ghost told = { λ _. record { took = None; flushed = None; faults = 2 ^ 64 - 1; link = [] } };

    fn write(&mut self, piece: &[u8]) -> Result<usize, SinkError> {
        if self.fails_now() {
            return Err(SinkError::Failed);
        }
        let few = piece.len().min(3);
        self.inner.write(&piece[..few])
    }

    fn flush(&mut self) -> Result<(), SinkError> {
        self.inner.flush()
    }
}

impl PlaceSink for FailingFile {
    fn empty(&mut self) -> Result<(), SinkError> {
        self.inner.empty()
    }

    fn seek(&mut self, place: u64) -> Result<(), SinkError> {
        if self.fails_now() {
            return Err(SinkError::Failed);
        }
        self.inner.seek(place)
    }

    ghost counted = { λ s. tt };
}
