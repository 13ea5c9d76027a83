//! Sinks of hexadecimal digits over a sink below.
ghost use Rattle.std.specs.Prelude.{◌≡◌, ◌≤◌, ◌⊎◌, Err, IsErrOf, OnOk, false, length, [], option_map, true};
ghost use Rattle.xet_outside.specs.Told.{FlushCall, WriteCall};
ghost use Rattle.xet_sinks.specs.HexText.{HexPrefix, HexText, MissesOne, hex_told};
ghost use Rattle.xet_sinks.specs.steps.HexPieces.{Filled, Stands};
ghost use Rattle.xet_sinks.specs.steps.Settled.{Settled};

use crate::hex_digits::write_digits;
use crate::pushing::{Sent, push};
use std::snapshot::Snapshot;
use xet_outside::sink::{Sink, SinkError};

// how many bytes one piece of digits is of
const BYTES: usize = 128;

/// A sink that writes two lower-case hexadecimal digits for each byte to the sink below it, in pieces of 256 digits
/// and a last one of fewer.
///
/// A byte is taken once its first digit is out. A second digit that is missing then is kept, and the next write or
/// flush sends it first. After the inner sink's `Failed` every later write or flush answers `OutOfMemory` and calls
/// nothing, since how much went out is not known. An `Ok` write takes the whole piece, unless the inner sink answers
/// `OutOfMemory`: then the answer is the number of bytes that were taken in this call, or `OutOfMemory` where there
/// are none.
#[derive(Drop)]
pub struct HexSink<O: Sink> {
    inner: O,
    // the inner sink at first, and when the piece of digits was begun
    start: Snapshot<O>,
    known: Snapshot<O>,
    digits: [u8; 256],
    // the place of the second digit that is missing, 0 where none is
    at: usize,
    // the inner sink failed, and how much went out isn't known
    stopped: bool,
    // how the inner sink stands, and which digit is missing
    pub ghost stands: { Stands (O.told start.value).took (O.told known.value).took (O.told inner).took
        digits at stopped },
}

// The digits of at most 128 bytes, and then zeros.
fn digits_of(bytes: &[u8]) -> [u8; 256]
    requires { length bytes.now ≤ 128 }
    ensures { Filled result bytes.now }
{
    let mut digits = [48; 256];
    write_digits(bytes, &mut digits[..2 * bytes.len()]);
    digits
}

impl<O: Sink> HexSink<O> {
    /// A sink over the inner one, which took nothing so far.
    pub fn new(inner: O) -> HexSink<O>
        ensures inner { result.inner ≡ inner }
        ensures took { (⟦<HexSink<O> as Sink>⟧.told result).took ≡ option_map (λ _. []) (O.told inner).took }
        ensures began { (O.told result.start.value).took ≡ (O.told inner).took }
        ensures runs { result.stopped ≡ false }
    {
        let start = Snapshot::of(&inner);
        let known = Snapshot::of(&inner);
        HexSink {
            inner,
            start,
            known,
            digits: [48; 256],
            at: 0,
            stopped: false,
        }
    }

    // Sends the digit that is missing.
    fn settle(&mut self) -> Result<(), SinkError>
        ensures call { Settled (⟦<HexSink<O> as Sink>⟧.told self.old)
            (⟦<HexSink<O> as Sink>⟧.told self.new) self.new.at self.new.stopped result }
        ensures fault { IsErrOf result SinkError.Failed → self.new.stopped ≡ true }
        ensures runs { self.new.stopped ≡ true → (self.old.stopped ≡ true) ⊎ IsErrOf result SinkError.Failed }
        ensures stopped { self.old.stopped ≡ true
            → (result ≡ Err SinkError.OutOfMemory) × (self.new ≡ self.old) }
    {
        if self.stopped {
            return Err(SinkError::OutOfMemory);
        }
        if self.at == 0 {
            return Ok(());
        }
        let digit = [self.digits[self.at]];
        match push(&mut self.inner, &digit) {
            Sent::Whole => {
                self.at = 0;
                Ok(())
            }
            Sent::Memory(_) => Err(SinkError::OutOfMemory),
            Sent::Fault => {
                self.stopped = true;
                Err(SinkError::Failed)
            }
        }
    }

    // Sends the digits of at most 128 bytes, where none is missing.
    fn send(&mut self, bytes: &[u8]) -> Result<usize, SinkError>
        requires whole { (self.old.at ≡ 0) × (self.old.stopped ≡ false) }
        requires short { length bytes.now ≤ 128 }
        ensures call { WriteCall (⟦<HexSink<O> as Sink>⟧.told self.old)
            (⟦<HexSink<O> as Sink>⟧.told self.new) bytes.now result }
        ensures fault { IsErrOf result SinkError.Failed → self.new.stopped ≡ true }
        ensures runs { self.new.stopped ≡ true → (self.old.stopped ≡ true) ⊎ IsErrOf result SinkError.Failed }
    {
        let digits = digits_of(bytes);
        self.known = Snapshot::of(&self.inner);
        self.digits = digits;
        match push(&mut self.inner, &digits[..2 * bytes.len()]) {
            Sent::Whole => Ok(bytes.len()),
            Sent::Memory(0) => Err(SinkError::OutOfMemory),
            Sent::Memory(out) => {
                if out % 2 == 1 {
                    self.at = out;
                    return Ok((out + 1) / 2);
                }
                Ok((out + 1) / 2)
            }
            Sent::Fault => {
                self.stopped = true;
                Err(SinkError::Failed)
            }
        }
    }

    // Sends what is missing, and the digits of at most 128 bytes.
    fn put(&mut self, bytes: &[u8]) -> Result<usize, SinkError>
        requires { length bytes.now ≤ 128 }
        ensures call { WriteCall (⟦<HexSink<O> as Sink>⟧.told self.old)
            (⟦<HexSink<O> as Sink>⟧.told self.new) bytes.now result }
        ensures fault { IsErrOf result SinkError.Failed → self.new.stopped ≡ true }
        ensures runs { self.new.stopped ≡ true → (self.old.stopped ≡ true) ⊎ IsErrOf result SinkError.Failed }
    {
        self.settle()?;
        self.send(bytes)
    }

    // Sends the digits of all bytes, as far as memory reaches.
    fn put_all(&mut self, piece: &[u8]) -> Result<usize, SinkError>
        ensures call { WriteCall (⟦<HexSink<O> as Sink>⟧.told self.old)
            (⟦<HexSink<O> as Sink>⟧.told self.new) piece.now result }
        ensures fault { IsErrOf result SinkError.Failed → self.new.stopped ≡ true }
        ensures runs { self.new.stopped ≡ true → (self.old.stopped ≡ true) ⊎ IsErrOf result SinkError.Failed }
    {
        let mut taken = 0usize;
        while taken < piece.len() {
            let end = taken + (piece.len() - taken).min(BYTES);
            match self.put(&piece[taken..end]) {
                Ok(count) => {
                    taken += count;
                    if taken < end {
                        return Ok(taken);
                    }
                }
                Err(SinkError::OutOfMemory) => {
                    if taken == 0 {
                        return Err(SinkError::OutOfMemory);
                    }
                    return Ok(taken);
                }
                Err(SinkError::Failed) => return Err(SinkError::Failed),
            }
        }
        Ok(taken)
    }

    /// The inner sink, which ends the loan of a sink over a reference. A second digit that is missing is not sent:
    /// flush first.
    pub fn into_inner(self) -> O
        ensures inner { result ≡ self.inner }
        ensures text { HexPrefix (O.told self.start.value).took (O.told self.inner).took
            (⟦<HexSink<O> as Sink>⟧.told self).took }
        ensures missing { MissesOne (O.told self.start.value).took (O.told self.inner).took
            (⟦<HexSink<O> as Sink>⟧.told self).took }
    {
        self.inner
    }
}

impl<O: Sink> Sink for HexSink<O> {
    ghost told = { λ s. hex_told (O.told s.start.value) (O.told s.known.value) (O.told s.inner) s.digits };

    fn write(&mut self, piece: &[u8]) -> Result<usize, SinkError>
        ensures call { WriteCall (⟦<HexSink<O> as Sink>⟧.told self.old)
            (⟦<HexSink<O> as Sink>⟧.told self.new) piece.now result }
        ensures fault { IsErrOf result SinkError.Failed → self.new.stopped ≡ true }
        ensures runs { self.new.stopped ≡ true → (self.old.stopped ≡ true) ⊎ IsErrOf result SinkError.Failed }
        ensures stopped { self.old.stopped ≡ true
            → (result ≡ Err SinkError.OutOfMemory) × (self.new ≡ self.old) }
    {
        self.settle()?;
        self.put_all(piece)
    }

    fn flush(&mut self) -> Result<(), SinkError>
        ensures call { FlushCall (⟦<HexSink<O> as Sink>⟧.told self.old)
            (⟦<HexSink<O> as Sink>⟧.told self.new) result }
        ensures text { OnOk result (HexText (O.told self.new.start.value).took (O.told self.new.inner).took
            (⟦<HexSink<O> as Sink>⟧.told self.new).took) }
        ensures fault { IsErrOf result SinkError.Failed → self.new.stopped ≡ true }
        ensures runs { self.new.stopped ≡ true → (self.old.stopped ≡ true) ⊎ IsErrOf result SinkError.Failed }
        ensures stopped { self.old.stopped ≡ true
            → (result ≡ Err SinkError.OutOfMemory) × (self.new ≡ self.old) }
    {
        self.settle()?;
        let answer = self.inner.flush();
        self.stopped = answer == Err(SinkError::Failed);
        answer
    }
}
