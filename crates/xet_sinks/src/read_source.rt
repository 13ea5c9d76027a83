//! Sources over readers of std.
ghost use Rattle.std.specs.Io.KnownBytes.{ReadConsumes};
ghost use Rattle.std.specs.Prelude.{◌≡◌, None};
ghost use Rattle.xet_sinks.specs.Faults.{CountsFault};
ghost use Rattle.xet_outside.specs.Told.{ReadCall};

use crate::tries::{TRIES, is_interrupted};
use std::io::Read;
use xet_outside::source::{Source, SourceFault};

/// A source over a reader of std: the trusted edge, where bytes come in. It tells nothing of the bytes that are left,
/// since a reader of std may begin to tell them. Where the reader tells, `read` says the same of it as std's `read`.
///
/// A read is one call of the reader. An interrupted call is made again, at most 16 times. One more interruption, and
/// any other error at once, is a fault.
#[derive(Drop)]
pub struct ReadSource<A> {
    inner: A,
    // the count of faults, which stands at its last value
    faults: u64,
}

impl<A: Read> ReadSource<A> {
    /// A source over the reader, with no faults so far.
    pub fn new(inner: A) -> ReadSource<A>
        ensures told { ⟦<ReadSource<A> as Source>⟧.told result ≡ record { left = None; faults = 0 } }
        ensures inner { result.inner ≡ inner }
    {
        ReadSource { inner, faults: 0 }
    }
}

impl<A: Read> Source for ReadSource<A> {
    ghost told = { λ s. record { left = None; faults = s.faults } };

    /// One read. Where std's reader tells its bytes, they lose the ones that were given, and none after a fault.
    fn read(&mut self, into: &mut [u8]) -> Result<usize, SourceFault>
        ensures call { ReadCall (⟦<ReadSource<A> as Source>⟧.told self.old)
            (⟦<ReadSource<A> as Source>⟧.told self.new) into.new result }
        ensures bytes { ReadConsumes (A.remaining self.old.inner) (A.remaining self.new.inner) result into.new }
        ensures counted { CountsFault self.old.faults self.new.faults result }
    {
        for _ in 0..=TRIES {
            match self.inner.read(into) {
                Ok(count) => return Ok(count),
                Err(error) if is_interrupted(&error) => {}
                Err(_) => break,
            }
        }
        self.faults = self.faults.saturating_add(1);
        Err(SourceFault)
    }
}
