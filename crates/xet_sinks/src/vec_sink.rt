//! Sinks over a vector.
ghost use Rattle.std.specs.Prelude.{◌≡◌, [], IfOk, Ok, Some, length};
ghost use Rattle.xet_outside.specs.Told.{FlushCall, WriteCall};

use std::alloc::Global;
use xet_outside::sink::{Sink, SinkError};

/// A sink over a vector, which has no faults.
#[derive(Drop)]
pub struct VecSink {
    taken: Vec<u8>,
    // how many of the taken bytes are flushed
    flushed: usize,
}

impl VecSink {
    /// A sink that took nothing. It takes no memory yet.
    pub fn new(alloc: Global) -> VecSink
        ensures { ⟦<VecSink as Sink>⟧.told result
            ≡ record { took = Some []; flushed = Some 0; faults = 0; link = [] } }
    {
        VecSink {
            taken: Vec::new(alloc),
            flushed: 0,
        }
    }

    /// The bytes that were taken.
    pub fn taken(&self) -> &[u8]
        ensures { (⟦<VecSink as Sink>⟧.told self.now).took ≡ Some result.now }
    {
        self.taken.as_slice()
    }
}

impl Sink for VecSink {
    ghost told = { λ s. record { took = Some s.taken.items; flushed = Some s.flushed; faults = 0; link = [] } };

    /// Takes the whole piece. Want of memory is the only error.
    fn write(&mut self, piece: &[u8]) -> Result<usize, SinkError>
        ensures call { WriteCall (⟦<VecSink as Sink>⟧.told self.old)
            (⟦<VecSink as Sink>⟧.told self.new) piece.now result }
        ensures whole { IfOk result (λ count. count ≡ length piece.now) }
    {
        match self.taken.extend_from_slice(piece) {
            Ok(()) => Ok(piece.len()),
            Err(_) => Err(SinkError::OutOfMemory),
        }
    }

    /// Succeeds.
    fn flush(&mut self) -> Result<(), SinkError>
        ensures call { FlushCall (⟦<VecSink as Sink>⟧.told self.old)
            (⟦<VecSink as Sink>⟧.told self.new) result }
        ensures ok { result ≡ Ok tt }
    {
        self.flushed = self.taken.len();
        Ok(())
    }
}
