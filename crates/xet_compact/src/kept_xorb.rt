//! What a xorb keeps.
ghost use Rattle.std.specs.Prelude.{◌≡◌, ◌<◌, ◌^◌, All, IfOk, length};
ghost use Rattle.xet_base.specs.Digests.{infos_of, xorb_hash_of};
ghost use Rattle.xet_base.specs.Store.{IsValidXorb};
ghost use Rattle.xet_held.specs.Held.{is_reached};
ghost use Rattle.xet_compact.specs.steps.Kept.{hash_by, kept_by};

use bytes::Bytes;
use std::alloc::Global;
use xet_audit::RawXorb;
use xet_base::{ChunkInfo, List, MerkleHash, OutOfMemory};
use xet_held::{Reach, held_chunks};

/// The chunks of a xorb that terms hold.
#[derive(Drop)]
pub(crate) struct KeptXorb {
    /// The xorb's hash where it keeps all chunks, and else that of those which it keeps.
    pub(crate) hash: MerkleHash,
    /// The chunks that it keeps.
    pub(crate) chunks: List<Bytes>,
    /// The new number of each chunk of the xorb, and behind these how many chunks it keeps: how many before it are
    /// kept.
    pub(crate) numbers: List<u32>,
}

impl KeptXorb {
    /// What a xorb keeps, by how far its terms reach. The chunks share the xorb's memory.
    pub(crate) fn of(alloc: Global, xorb: &RawXorb, reach: &Reach) -> Result<KeptXorb, OutOfMemory>
        requires valid { IsValidXorb xorb.now }
        requires long { length reach.now ≡ length xorb.now.chunks }
        ensures { IfOk result (λ kept. kept ≡ kept_by (is_reached reach.now) xorb.now) }
    {
        let (chunks, numbers) = held_chunks(alloc, xorb.chunks.as_slice(), reach.ends())?;
        let hash = kept_hash(alloc, xorb, chunks.as_slice())?;
        Ok(KeptXorb {
            hash,
            chunks,
            numbers,
        })
    }
}

// The hash of a xorb that keeps these chunks.
fn kept_hash(alloc: Global, xorb: &RawXorb, chunks: &[Bytes]) -> Result<MerkleHash, OutOfMemory>
    requires { All (λ c. length c < 2 ^ 32) chunks.now }
    ensures { IfOk result (λ hash. hash ≡ hash_by xorb.now chunks.now) }
{
    if chunks.len() == xorb.chunks.len() {
        return Ok(xorb.hash);
    }
    chunks_hash(alloc, chunks)
}

// The hash of a xorb of these chunks.
fn chunks_hash(alloc: Global, chunks: &[Bytes]) -> Result<MerkleHash, OutOfMemory>
    requires { All (λ c. length c < 2 ^ 32) chunks.now }
    ensures { IfOk result (λ hash. hash ≡ xorb_hash_of (infos_of chunks.now)) }
{
    let mut infos = Vec::with_capacity(alloc, chunks.len())?;
    for chunk in chunks {
        infos.push(ChunkInfo {
            hash: MerkleHash::chunk_hash(chunk.as_slice()),
            length: chunk.len() as u32,
        })?;
    }
    Ok(MerkleHash::xorb_hash(infos.as_slice()))
}
