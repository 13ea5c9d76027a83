//! Sources over bytes in memory.
ghost use Rattle.std.specs.Prelude.{◌≡◌, ◌≤◌, ◌-◌, Ok, Some, drop, length, min, vec_len};
ghost use Rattle.xet_outside.specs.Told.{ReadCall};

use xet_outside::source::{Source, SourceFault};

/// A source over bytes in memory, which has no faults.
#[derive(Drop)]
pub struct VecSource {
    bytes: Vec<u8>,
    // how many of the bytes were taken
    at: usize,
    ghost within: { at ≤ vec_len bytes },
}

impl VecSource {
    /// A source of these bytes.
    pub fn new(bytes: Vec<u8>) -> VecSource
        ensures { ⟦<VecSource as Source>⟧.told result ≡ record { left = Some bytes.items; faults = 0 } }
    {
        VecSource { bytes, at: 0 }
    }
}

impl Source for VecSource {
    ghost told = { λ s. record { left = Some (drop s.at s.bytes.items); faults = 0 } };

    /// Gives as many of the bytes that are left as the buffer takes.
    fn read(&mut self, into: &mut [u8]) -> Result<usize, SourceFault>
        ensures call { ReadCall (⟦<VecSource as Source>⟧.told self.old)
            (⟦<VecSource as Source>⟧.told self.new) into.new result }
        ensures full { result ≡ Ok (min (vec_len self.old.bytes - self.old.at) (length into.new)) }
    {
        let left = &self.bytes[self.at..];
        let count = left.len().min(into.len());
        into[..count].copy_from_slice(&left[..count]);
        self.at += count;
        Ok(count)
    }
}
