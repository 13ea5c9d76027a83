//! The chunks of a xorb that terms hold, and their new numbers.
ghost use Rattle.std.specs.Prelude.{◌≡◌, ◌++◌, ◌∷◌, ◌<◌, ◌^◌, [], IfOk, OnOk, cond, length};
ghost use Rattle.xet_held.specs.Held.{is_reached, new_numbers, passing};

use bytes::Bytes;
use std::alloc::Global;
use xet_base::{List, OutOfMemory};

/// The chunks of a xorb that terms hold, by how far these reach, and the new number of each chunk and of the place
/// behind the last: how many chunks before it are held. The chunks share the xorb's memory. Want of memory is the
/// only error.
pub fn held_chunks(
    alloc: Global,
    chunks: &[Bytes],
    ends: &[u32],
) -> Result<(List<Bytes>, List<u32>), OutOfMemory>
    requires long { length ends.now ≡ length chunks.now }
    requires few { length chunks.now < 2 ^ 32 }
    ensures chunks { IfOk result (λ held. held.0 ≡ passing (is_reached ends.now) chunks.now) }
    ensures numbers { IfOk result (λ held. held.1 ≡ new_numbers (is_reached ends.now) (length chunks.now)) }
{
    let mut held = List::new(alloc);
    let mut numbers = List::with_capacity(alloc, chunks.len() + 1)?;
    let mut end = 0u32;
    for (i, chunk) in chunks.iter().enumerate() {
        numbers.push(held.len() as u32)?;
        end = end.max(ends[i]);
        push_held(chunk, i < end as usize, &mut held)?;
    }
    numbers.push(held.len() as u32)?;
    Ok((held, numbers))
}

// Adds a chunk where it is held.
fn push_held(chunk: &Bytes, is_held: bool, held: &mut List<Bytes>) -> Result<(), OutOfMemory>
    ensures { OnOk result (held.new ≡ held.old ++ cond is_held (chunk.now ∷ []) []) }
{
    if is_held {
        held.push(chunk.clone()?)?;
    }
    Ok(())
}
