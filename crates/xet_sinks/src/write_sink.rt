//! Sinks over writers of std.
ghost use Rattle.std.specs.Io.KnownBytes.{Keeps, WriteAppends};
ghost use Rattle.std.specs.Prelude.{◌≡◌, ◌≤◌, ◌+◌, ◌-◌, ◌^◌, [], None, Err, IfErr, min};
ghost use Rattle.xet_sinks.specs.Faults.{CountsFault};
ghost use Rattle.xet_outside.specs.Places.{PlaceCall, at_place, emptied};
ghost use Rattle.xet_outside.specs.Told.{FlushCall, Rose, WriteCall};

use crate::tries::{TRIES, is_interrupted};
use std::fs::File;
use std::io::{Seek, SeekFrom, Write};
use xet_outside::PlaceSink;
use xet_outside::sink::{Sink, SinkError};

/// A sink over a writer of std: the trusted edge, where bytes go out. It tells nothing of the bytes that were taken,
/// since a writer of std may begin to tell them. Where the writer tells, `write` and `flush` say the same of it as
/// std's calls.
///
/// A write of a nonempty piece, and a flush, is one call of the writer. An interrupted call is made again, at most 16
/// times. One more interruption, and any other error at once, is a fault, and so is a write that takes nothing. A
/// write of an empty piece calls nothing.
#[derive(Drop)]
pub struct WriteSink<B> {
    inner: B,
    // the count of faults, which stands at its last value
    faults: u64,
}

impl<B: Write> WriteSink<B> {
    /// A sink over the writer, with no faults so far.
    pub fn new(inner: B) -> WriteSink<B>
        ensures told { ⟦<WriteSink<B> as Sink>⟧.told result
            ≡ record { took = None; flushed = None; faults = 0; link = [] } }
        ensures inner { result.inner ≡ inner }
    {
        WriteSink { inner, faults: 0 }
    }

    // Counts a fault.
    fn fail<T>(&mut self) -> Result<T, SinkError>
        ensures failed { result ≡ Err SinkError.Failed }
        ensures later { self.old.faults ≤ self.new.faults }
        ensures rose { Rose self.old.faults self.new.faults }
        ensures one { self.new.faults ≡ min (self.old.faults + 1) (2 ^ 64 - 1) }
        ensures inner { self.new.inner ≡ self.old.inner }
    {
        self.faults = self.faults.saturating_add(1);
        Err(SinkError::Failed)
    }
}

impl<B: Write> Sink for WriteSink<B> {
    ghost told = { λ s. record { took = None; flushed = None; faults = s.faults; link = [] } };

    /// One write, whose only error is `Failed`. Where std's writer tells its bytes, they grow by the ones that were
    /// taken, and by none after a fault.
    fn write(&mut self, piece: &[u8]) -> Result<usize, SinkError>
        ensures call { WriteCall (⟦<WriteSink<B> as Sink>⟧.told self.old)
            (⟦<WriteSink<B> as Sink>⟧.told self.new) piece.now result }
        ensures bytes { WriteAppends (B.contents self.old.inner) (B.contents self.new.inner) result piece.now }
        ensures fault { IfErr result (λ e. e ≡ SinkError.Failed) }
        ensures counted { CountsFault self.old.faults self.new.faults result }
    {
        if piece.is_empty() {
            return Ok(0);
        }
        for _ in 0..=TRIES {
            match self.inner.write(piece) {
                Ok(0) => break,
                Ok(count) => return Ok(count),
                Err(error) if is_interrupted(&error) => {}
                Err(_) => break,
            }
        }
        self.fail()
    }

    /// One flush, whose only error is `Failed`. It leaves what std's writer tells.
    fn flush(&mut self) -> Result<(), SinkError>
        ensures call { FlushCall (⟦<WriteSink<B> as Sink>⟧.told self.old)
            (⟦<WriteSink<B> as Sink>⟧.told self.new) result }
        ensures bytes { Keeps (B.contents self.old.inner) (B.contents self.new.inner) }
        ensures fault { IfErr result (λ e. e ≡ SinkError.Failed) }
        ensures counted { CountsFault self.old.faults self.new.faults result }
    {
        for _ in 0..=TRIES {
            match self.inner.flush() {
                Ok(()) => return Ok(()),
                Err(error) if is_interrupted(&error) => {}
                Err(_) => break,
            }
        }
        self.fail()
    }
}

/// A sink over a file of std, with a place: the trusted edge. It tells nothing of its content and its place, since
/// the file may be changed by others.
pub type FileSink = WriteSink<File>;

impl PlaceSink for WriteSink<File> {
    /// Cuts the file to no bytes and goes to its start. An interrupted call is made again, at most 16 times; one more
    /// interruption, and any other error at once, is a fault.
    fn empty(&mut self) -> Result<(), SinkError>
        ensures call { PlaceCall (⟦<WriteSink<File> as Sink>⟧.told self.old)
            (⟦<WriteSink<File> as Sink>⟧.told self.new) emptied result }
        ensures fault { IfErr result (λ e. e ≡ SinkError.Failed) }
        ensures counted { CountsFault self.old.faults self.new.faults result }
    {
        for _ in 0..=TRIES {
            match self.inner.set_len(0) {
                Ok(()) => return self.seek(0),
                Err(error) if is_interrupted(&error) => {}
                Err(_) => break,
            }
        }
        self.fail()
    }

    /// One seek, which is tried again as a write is.
    fn seek(&mut self, place: u64) -> Result<(), SinkError>
        ensures call { PlaceCall (⟦<WriteSink<File> as Sink>⟧.told self.old)
            (⟦<WriteSink<File> as Sink>⟧.told self.new) (at_place place) result }
        ensures fault { IfErr result (λ e. e ≡ SinkError.Failed) }
        ensures counted { CountsFault self.old.faults self.new.faults result }
    {
        for _ in 0..=TRIES {
            match self.inner.seek(SeekFrom::Start(place)) {
                Ok(_) => return Ok(()),
                Err(error) if is_interrupted(&error) => {}
                Err(_) => break,
            }
        }
        self.fail()
    }

    ghost counted = { λ s. tt };
}
