//! A writer, or a file, that looks into a book.
ghost use Rattle.std.specs.Prelude.{◌-◌, ◌^◌, [], None};

use std::sync::Wait;
use xet_events::BudgetBook;
use xet_outside::{PlaceSink, Sink, SinkError};
use xet_sinks::MemFile;

/// A file in memory that keeps the limit which the book had at the last write.
#[derive(Drop)]
pub(crate) struct Watching<'a, R: Wait> {
    pub(crate) rt: &'a R,
    pub(crate) book: &'a BudgetBook,
    pub(crate) limit: u64,
    pub(crate) file: MemFile,
}

impl<'a, R: Wait> Sink for Watching<'a, R> {
    // Nothing is told, and the count stands at its last value.
    ghost told = { λ _. record { took = None; flushed = None; faults = 2 ^ 64 - 1; link = [] } };

    fn write(&mut self, piece: &[u8]) -> Result<usize, SinkError> {
        self.limit = self.book.target(self.rt);
        self.file.write(piece)
    }

    fn flush(&mut self) -> Result<(), SinkError> {
        self.file.flush()
    }
}

impl<'a, R: Wait> PlaceSink for Watching<'a, R> {
    fn empty(&mut self) -> Result<(), SinkError> {
        self.file.empty()
    }

    fn seek(&mut self, place: u64) -> Result<(), SinkError> {
        self.file.seek(place)
    }

    ghost counted = { λ _. tt };
}
