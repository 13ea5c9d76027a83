//! Bytes of a file that were not cut yet.
ghost use Rattle.std.specs.Prelude.{◌≡◌, ◌++◌, ◌≤◌, [], IfOk, OnErr, OnOk, drop, length, take};

use bytes::Bytes;
use std::alloc::Global;
use xet_base::OutOfMemory;

/// Bytes that were not cut yet. A byte is moved only where as many were cut since the last move.
#[derive(Drop)]
pub struct PendingBytes {
    buffer: Vec<u8>,
    // how many of the first were cut
    start: usize,
    ghost within: { start ≤ length buffer.items },
}

impl PendingBytes {
    ghost use Rattle.xet_clean_parts.specs.Pending.{bytes_left};

    /// No bytes. It takes no memory.
    pub fn new(alloc: Global) -> PendingBytes
        ensures { bytes_left result ≡ [] }
    {
        PendingBytes {
            buffer: Vec::new(alloc),
            start: 0,
        }
    }

    /// The bytes.
    pub fn as_slice(&self) -> &[u8]
        ensures { result.now ≡ bytes_left self.now }
    {
        &self.buffer[self.start..]
    }

    /// Adds bytes at the end. `OutOfMemory` where an allocation was refused, and then the bytes are as they were.
    pub fn push(&mut self, bytes: &[u8]) -> Result<(), OutOfMemory>
        ensures ok { OnOk result (bytes_left self.new ≡ bytes_left self.old ++ bytes.now) }
        ensures err { OnErr result (bytes_left self.new ≡ bytes_left self.old) }
    {
        self.settle();
        self.buffer.extend_from_slice(bytes)?;
        Ok(())
    }

    /// Takes so many bytes off the front. `OutOfMemory` where an allocation was refused, and then the bytes are as
    /// they were.
    pub fn take(&mut self, alloc: Global, count: usize) -> Result<Bytes, OutOfMemory>
        requires { count ≤ length (bytes_left self.old) }
        ensures front { IfOk result (λ chunk. chunk ≡ take count (bytes_left self.old)) }
        ensures rest { OnOk result (bytes_left self.new ≡ drop count (bytes_left self.old)) }
        ensures err { OnErr result (bytes_left self.new ≡ bytes_left self.old) }
    {
        let chunk = Bytes::copy_from_slice(alloc, &self.buffer[self.start..self.start + count])?;
        self.start += count;
        Ok(chunk)
    }

    // Moves the bytes to the front of the buffer, where at least as many were cut.
    fn settle(&mut self)
        ensures { bytes_left self.new ≡ bytes_left self.old }
    {
        let rest = self.buffer.len() - self.start;
        if self.start < rest {
            return;
        }
        self.buffer.as_mut_slice().rotate_left(self.start);
        self.buffer.truncate(rest);
        self.start = 0;
    }
}
