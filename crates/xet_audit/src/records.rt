//! Chunk records of xorbs, and hashes that are fed with them.
ghost use Rattle.std.specs.Prelude.{◌≡◌, ℕ, IfOk, List as Items, cond, false, map};
ghost use Rattle.xet_audit.specs.Findings.{are_short};
ghost use Rattle.xet_audit.specs.steps.Records.{Fed, record_of};

use crate::raw_store::RawXorb;
use bytes::Bytes;
use sha2::{Digest, Sha256};
use std::alloc::Global;
use xet_base::{ChunkInfo, List, MerkleHash, OutOfMemory};

/// The hash and the length of each chunk of a xorb, and none for a chunk of 2^32 bytes or more, which no hash counts.
pub(crate) type Records = List<Option<ChunkInfo>>;

/// The records of all xorbs.
pub(crate) fn all_records(alloc: Global, xorbs: &[RawXorb]) -> Result<List<Records>, OutOfMemory>
    ensures { IfOk result (λ all. all ≡ map (λ x. map record_of x.chunks) xorbs.now) }
{
    let mut all = List::with_capacity(alloc, xorbs.len())?;
    for xorb in xorbs {
        all.push(records(alloc, xorb.chunks.as_slice())?)?;
    }
    Ok(all)
}

// The records of some chunks.
fn records(alloc: Global, chunks: &[Bytes]) -> Result<Records, OutOfMemory>
    ensures { IfOk result (λ made. made ≡ map record_of chunks.now) }
{
    let mut made = List::with_capacity(alloc, chunks.len())?;
    for chunk in chunks {
        made.push(record(chunk))?;
    }
    Ok(made)
}

// The record of a chunk.
fn record(chunk: &Bytes) -> Option<ChunkInfo>
    ensures { result ≡ record_of chunk.now }
{
    if chunk.len() > u32::MAX as usize {
        return None;
    }
    Some(ChunkInfo {
        hash: MerkleHash::chunk_hash(chunk.as_slice()),
        length: chunk.len() as u32,
    })
}

/// Feeds the records to a hash, up to the first chunk that has none. Whether all have one.
pub(crate) fn feed(hasher: &mut Sha256, records: &[Option<ChunkInfo>]) -> bool
    ensures { (cs : Items (Items ℕ)) → records.now ≡ map record_of cs
        → cond result (Fed hasher.old hasher.new cs) (are_short cs ≡ false) }
{
    for record in records {
        let Some(info) = record else {
            return false;
        };
        hasher.update(info.hash.0.as_slice());
        hasher.update(info.length.to_be_bytes().as_slice());
    }
    true
}
