//! The record of a xorb.
ghost use Rattle.std.specs.Prelude.{◌≡◌, ◌↔◌, IfOk, IsTrue};
ghost use Rattle.xet_base.specs.Digests.{xorb_hash_of};
ghost use Rattle.xet_uploader.specs.Uploads.{record_of};

use std::alloc::Global;
use xet_base::{ChunkInfo, List, MDBXorbInfo, MerkleHash, OutOfMemory, Xorb};

/// The record of the xorb, whose lengths are at most 2^32 - 1. Want of memory is the only error.
pub fn record_of(alloc: Global, xorb: &Xorb) -> Result<MDBXorbInfo, OutOfMemory>
    ensures { IfOk result (λ info. info ≡ record_of xorb.now) }
{
    let count = xorb.chunks.len();
    let mut chunks = List::with_capacity(alloc, count)?;
    for bytes in xorb.chunks.as_slice() {
        chunks.push(ChunkInfo {
            hash: MerkleHash::chunk_hash(bytes.as_slice()),
            length: bytes.len().min(u32::MAX as usize) as u32,
        })?;
    }
    Ok(MDBXorbInfo {
        hash: xorb.hash,
        num_bytes: xorb.num_bytes().min(u64::from(u32::MAX)) as u32,
        chunks,
    })
}

/// Whether the hash of the record is that of its chunks.
pub fn is_named(info: &MDBXorbInfo) -> bool
    ensures { IsTrue result ↔ (xorb_hash_of info.now.chunks ≡ info.now.hash) }
{
    MerkleHash::xorb_hash(info.chunks.as_slice()).is_same(&info.hash)
}
