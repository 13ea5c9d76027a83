//! Sinks with a buffer over a sink below.
ghost use Rattle.std.specs.Prelude.{◌≡◌, ◌+◌, ◌<◌, ◌≤◌, ◌⊎◌, [], Err, IfOk, IsErrOf, Ok, OnOk, false, length};
ghost use Rattle.std.specs.Prelude.{true, vec_capacity, vec_len};
ghost use Rattle.xet_outside.specs.Told.{FlushCall, WriteCall};
ghost use Rattle.xet_sinks.specs.Buffers.{Lacks, buffered_told};
ghost use Rattle.xet_sinks.specs.steps.Held.{Held, WroteOut};

use crate::pushing::{Sent, push};
use std::alloc::Global;
use std::snapshot::Snapshot;
use xet_base::OutOfMemory;
use xet_outside::sink::{Sink, SinkError};

/// A sink that gathers what it takes in a buffer, and writes it to the sink below when the next piece
/// has no room, or at a flush. A piece as long as the buffer goes past it.
///
/// Where the inner sink finds no memory, what it didn't take stays in the buffer, and the next call goes on from
/// there. After the inner sink's `Failed` the buffer is never written again, also when it is dropped: every later
/// write or flush answers `OutOfMemory` and calls nothing, since how much went out is not known.
#[derive(Drop)]
pub struct BufferedSink<O: Sink> {
    inner: O,
    // the inner sink at first, and when the buffer was last empty
    start: Snapshot<O>,
    known: Snapshot<O>,
    buffer: Vec<u8>,
    // how many bytes of the buffer the inner sink took
    out: usize,
    // the inner sink failed, and how much went out isn't known
    stopped: bool,
    // what the inner sink took of the buffer
    pub ghost stands: { Held (O.told known.value).took (O.told inner).took buffer.items out stopped },
}

impl<O: Sink> BufferedSink<O> {
    /// A sink over the inner one, with an empty buffer of so many bytes. `OutOfMemory` lets the inner sink go.
    pub fn new(alloc: Global, inner: O, capacity: usize) -> Result<BufferedSink<O>, OutOfMemory>
    where
        O: Drop,
        ensures inner { IfOk result (λ s. s.inner ≡ inner) }
        ensures told { IfOk result (λ s. ⟦<BufferedSink<O> as Sink>⟧.told s
            ≡ buffered_told (O.told inner) (O.told inner) (O.told inner) []) }
        ensures capacity { IfOk result (λ s. vec_capacity s.buffer ≡ capacity) }
        ensures runs { IfOk result (λ s. s.stopped ≡ false) }
    {
        let buffer = Vec::with_capacity(alloc, capacity)?;
        let start = Snapshot::of(&inner);
        let known = Snapshot::of(&inner);
        Ok(BufferedSink {
            inner,
            start,
            known,
            buffer,
            out: 0,
            stopped: false,
        })
    }

    // Writes out what the buffer holds.
    fn write_out(&mut self) -> Result<(), SinkError>
        ensures call { WroteOut (⟦<BufferedSink<O> as Sink>⟧.told self.old)
            (⟦<BufferedSink<O> as Sink>⟧.told self.new)
            self.new.buffer.items self.new.out self.new.stopped result }
        ensures fault { IsErrOf result SinkError.Failed → self.new.stopped ≡ true }
        ensures runs { self.new.stopped ≡ true → (self.old.stopped ≡ true) ⊎ IsErrOf result SinkError.Failed }
        ensures stopped { self.old.stopped ≡ true
            → (result ≡ Err SinkError.OutOfMemory) × (self.new ≡ self.old) }
        ensures capacity { vec_capacity self.old.buffer ≤ vec_capacity self.new.buffer }
        ensures below { OnOk result ((O.told self.new.inner).took
            ≡ (⟦<BufferedSink<O> as Sink>⟧.told self.new).took) }
    {
        if self.stopped {
            return Err(SinkError::OutOfMemory);
        }
        match push(&mut self.inner, &self.buffer[self.out..]) {
            Sent::Whole => {
                self.known = Snapshot::of(&self.inner);
                self.buffer.clear();
                self.out = 0;
                Ok(())
            }
            Sent::Memory(count) => {
                self.out += count;
                Err(SinkError::OutOfMemory)
            }
            Sent::Fault => {
                self.stopped = true;
                Err(SinkError::Failed)
            }
        }
    }

    // Takes a piece that has room in the buffer.
    fn hold(&mut self, piece: &[u8])
        requires room { vec_len self.old.buffer + length piece.now ≤ vec_capacity self.old.buffer }
        ensures call { WriteCall (⟦<BufferedSink<O> as Sink>⟧.told self.old)
            (⟦<BufferedSink<O> as Sink>⟧.told self.new) piece.now (Ok (length piece.now)) }
        ensures below { self.new.inner ≡ self.old.inner }
        ensures runs { self.new.stopped ≡ self.old.stopped }
        ensures capacity { vec_capacity self.old.buffer ≤ vec_capacity self.new.buffer }
    {
        let Ok(()) = self.buffer.extend_from_slice(piece) else {
            unreachable!()
        };
    }

    // Hands a piece on to the inner sink, past the empty buffer.
    fn pass(&mut self, piece: &[u8]) -> Result<usize, SinkError>
        requires empty { (self.old.buffer.items ≡ []) × (self.old.out ≡ 0) }
        requires whole { self.old.stopped ≡ false }
        ensures call { WriteCall (⟦<BufferedSink<O> as Sink>⟧.told self.old)
            (⟦<BufferedSink<O> as Sink>⟧.told self.new) piece.now result }
        ensures fault { IsErrOf result SinkError.Failed → self.new.stopped ≡ true }
        ensures runs { self.new.stopped ≡ true → (self.old.stopped ≡ true) ⊎ IsErrOf result SinkError.Failed }
        ensures capacity { vec_capacity self.old.buffer ≤ vec_capacity self.new.buffer }
    {
        let answer = self.inner.write(piece);
        self.known = Snapshot::of(&self.inner);
        self.stopped = answer == Err(SinkError::Failed);
        answer
    }

    /// The inner sink, which ends the loan of a sink over a reference. What the buffer holds is not written: flush
    /// first.
    pub fn into_inner(self) -> O
        ensures inner { result ≡ self.inner }
        ensures lacks { Lacks (O.told self.inner).took (⟦<BufferedSink<O> as Sink>⟧.told self).took }
    {
        self.inner
    }
}

impl<O: Sink> Sink for BufferedSink<O> {
    ghost told = { λ s. buffered_told (O.told s.start.value) (O.told s.known.value) (O.told s.inner) s.buffer.items };

    /// Takes the whole piece, where it is shorter than the buffer. Where it has room, nothing is called.
    fn write(&mut self, piece: &[u8]) -> Result<usize, SinkError>
        ensures call { WriteCall (⟦<BufferedSink<O> as Sink>⟧.told self.old)
            (⟦<BufferedSink<O> as Sink>⟧.told self.new) piece.now result }
        ensures held { self.old.stopped ≡ false
            → vec_len self.old.buffer + length piece.now ≤ vec_capacity self.old.buffer
            → (result ≡ Ok (length piece.now)) × (self.new.inner ≡ self.old.inner) }
        ensures fault { IsErrOf result SinkError.Failed → self.new.stopped ≡ true }
        ensures runs { self.new.stopped ≡ true → (self.old.stopped ≡ true) ⊎ IsErrOf result SinkError.Failed }
        ensures stopped { self.old.stopped ≡ true
            → (result ≡ Err SinkError.OutOfMemory) × (self.new ≡ self.old) }
        ensures whole { length piece.now < vec_capacity self.old.buffer
            → IfOk result (λ count. count ≡ length piece.now) }
        ensures capacity { vec_capacity self.old.buffer ≤ vec_capacity self.new.buffer }
    {
        if self.stopped {
            return Err(SinkError::OutOfMemory);
        }
        if piece.len() > self.buffer.capacity() - self.buffer.len() {
            self.write_out()?;
            if piece.len() >= self.buffer.capacity() {
                return self.pass(piece);
            }
        }
        self.hold(piece);
        Ok(piece.len())
    }

    /// Writes out what the buffer holds, and flushes the inner sink, which then has taken all. `Failed` comes only from
    /// the inner sink.
    fn flush(&mut self) -> Result<(), SinkError>
        ensures call { FlushCall (⟦<BufferedSink<O> as Sink>⟧.told self.old)
            (⟦<BufferedSink<O> as Sink>⟧.told self.new) result }
        ensures below { OnOk result ((O.told self.new.inner).took
            ≡ (⟦<BufferedSink<O> as Sink>⟧.told self.new).took) }
        ensures fault { IsErrOf result SinkError.Failed → self.new.stopped ≡ true }
        ensures runs { self.new.stopped ≡ true → (self.old.stopped ≡ true) ⊎ IsErrOf result SinkError.Failed }
        ensures stopped { self.old.stopped ≡ true
            → (result ≡ Err SinkError.OutOfMemory) × (self.new ≡ self.old) }
        ensures capacity { vec_capacity self.old.buffer ≤ vec_capacity self.new.buffer }
    {
        self.write_out()?;
        let answer = self.inner.flush();
        self.stopped = answer == Err(SinkError::Failed);
        answer
    }
}
