//! The chunks of a document's xorbs, joined.
ghost use Rattle.std.specs.Prelude.{◌≡◌, IfOk};
ghost use Rattle.xet_document.specs.steps.Placed.{IsPlaced, placed_xorb};

use bytes::Bytes;
use std::alloc::Global;
use xet_base::{MerkleHash, OutOfMemory};
use xet_store::JoinedXorb;

/// The chunks of all xorbs in one buffer, and for each chunk the place of its end, counted from its xorb's first byte.
#[derive(Drop)]
pub(crate) struct JoinedChunks {
    pub(crate) bytes: Vec<u8>,
    pub(crate) ends: Vec<usize>,
}

/// Where the chunks of a xorb stand among those of all: its bytes, and the ends of its chunks, both half open.
#[derive(Clone, Copy)]
pub(crate) struct XorbPlace {
    pub(crate) hash: MerkleHash,
    pub(crate) start: usize,
    pub(crate) end: usize,
    pub(crate) first: usize,
    pub(crate) last: usize,
}

/// The xorb at a place. It shares its bytes with the others.
pub(crate) fn xorb_at(
    alloc: Global,
    bytes: &Bytes,
    ends: &[usize],
    place: XorbPlace,
) -> Result<JoinedXorb, OutOfMemory>
    requires { IsPlaced bytes.now ends.now place }
    ensures { IfOk result (λ xorb. xorb ≡ placed_xorb bytes.now ends.now place) }
{
    let own = Vec::from_slice(alloc, &ends[place.first..place.last])?;
    Ok(JoinedXorb::new(place.hash, bytes.slice(place.start..place.end)?, own))
}
