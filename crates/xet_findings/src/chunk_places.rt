//! Where the chunks of xorbs stand among their bytes.
ghost use Rattle.std.specs.Prelude.{◌≡◌, ◌&&◌, ℕ, IfOk, List as Items, None, Some, cond, length, map, nat_le, nat_lt};
ghost use Rattle.std.specs.Prelude.{slice_range};
ghost use Rattle.std.specs.List.{concat};
ghost use Rattle.xet_findings.specs.Places.{places_of};

use bytes::Bytes;
use std::alloc::Global;
use xet_base::{List, OutOfMemory, Xorb};

/// The places of the chunks of each xorb.
pub fn all_places(alloc: Global, xorbs: &[Xorb]) -> Result<List<List<u128>>, OutOfMemory>
    ensures { IfOk result (λ all. all ≡ map (λ x. places_of x.chunks) xorbs.now) }
{
    let mut all = List::with_capacity(alloc, xorbs.len())?;
    for xorb in xorbs {
        all.push(places(alloc, xorb.chunks.as_slice())?)?;
    }
    Ok(all)
}

// How many bytes stand before each chunk, and behind the last. They are fewer than 2^128: a place past that can't be
// reached, and counts as want of memory.
fn places(alloc: Global, chunks: &[Bytes]) -> Result<List<u128>, OutOfMemory>
    ensures { IfOk result (λ made. made ≡ places_of chunks.now) }
{
    let mut places = List::with_hint(alloc, chunks.len().saturating_add(1));
    let mut end = 0u128;
    places.push(end)?;
    for chunk in chunks {
        let Some(next) = end.checked_add(chunk.len() as u128) else {
            return Err(OutOfMemory);
        };
        end = next;
        places.push(end)?;
    }
    Ok(places)
}

/// How many bytes the chunks from number `from` to before number `to` have, or none where these aren't from below to
/// inside the xorb whose chunks have these places.
pub fn bytes_between(places: &[u128], from: u32, to: u32) -> Option<u128>
    ensures { (cs : Items (Items ℕ)) → places.now ≡ places_of cs → result
        ≡ cond (nat_lt from to && nat_le to (length cs)) (Some (length (concat (slice_range cs from to)))) None }
{
    if from >= to {
        return None;
    }
    if to as usize >= places.len() {
        return None;
    }
    Some(places[to as usize].saturating_sub(places[from as usize]))
}
