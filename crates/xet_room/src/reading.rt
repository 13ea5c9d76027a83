//! Reads an input to its end.
ghost use Rattle.std.specs.Prelude.{◌≡◌, ◌++◌, OnOk};
ghost use Rattle.xet_room.specs.Reading.{ReadAll};

use crate::kept_memory::keep_freed_memory;
use std::alloc::Global;
use xet_base::OutOfMemory;
use xet_store::Source;

/// How many bytes the input may have.
pub const LIMIT: usize = 67_108_864;

// How many bytes are read at once. Each page of the buffer costs time once, so it is no larger than a small input
// needs.
const PIECE: usize = 16_384;

// A text that grows past this size is a large one.
const LARGE: usize = 65_536;

/// Why an input was not read to its end.
#[derive(Clone, Copy, PartialEq, Eq)]
pub enum ReadError {
    /// An allocation was refused.
    OutOfMemory,
    /// A read failed, and the input's faults rose.
    Fault,
    /// The input has more bytes than the limit.
    TooLong,
}

/// All bytes of the input, at most so many. A longer one is read until more than the limit is there.
pub fn read_to_end<I: Source>(
    alloc: Global,
    input: &mut I,
    limit: usize,
) -> Result<Vec<u8>, ReadError>
    ensures { ReadAll (I.told input.old) (I.told input.new) limit result }
{
    let mut all = Vec::new(alloc);
    let mut buffer = [0u8; PIECE];
    'pieces: while all.len() <= limit {
        let count = match input.read(&mut buffer) {
            Ok(count) => count,
            Err(_) => return Err(ReadError::Fault),
        };
        if count == 0 {
            return Ok(all);
        }
        if append(alloc, &mut all, &buffer[..count]).is_err() {
            return Err(ReadError::OutOfMemory);
        }
    }
    Err(ReadError::TooLong)
}

// Adds a piece. Where there is no room it takes room for half as many bytes more: a vector that doubles passes sooner
// the size up to which the C library keeps memory that is given back. It is to keep it once the text is large.
fn append(alloc: Global, all: &mut Vec<u8>, piece: &[u8]) -> Result<(), OutOfMemory>
    ensures { OnOk result (all.new.items ≡ all.old.items ++ piece.now) }
{
    if all.capacity() - all.len() < piece.len() {
        let more = piece.len().max(all.len() / 2);
        if all.capacity() <= LARGE && LARGE - all.len() < more {
            keep_freed_memory(alloc);
        }
        all.reserve_exact(more)?;
    }
    all.extend_from_slice(piece)?;
    Ok(())
}
