//! Xorbs of one chunk.
ghost use Rattle.std.specs.Prelude.{◌≡◌, [], IfOk};
ghost use Rattle.xet_base.specs.Records.{Describes};

use bytes::Bytes;
use std::alloc::Global;
use xet_base::{ChunkInfo, MerkleHash, OutOfMemory};
use xet_progress::FileXorbDependency;
use xet_upload::{DataAggregator, RawXorbData};

/// Data of one chunk, or of none where the text is empty, and of no file.
fn one_chunk(alloc: Global, text: &str) -> Result<DataAggregator, OutOfMemory>
    ensures { IfOk result (λ waiting. waiting.files ≡ []) }
{
    let bytes = Bytes::copy_from_slice(alloc, text.as_bytes())?;
    let mut waiting = DataAggregator::new(alloc);
    if bytes.len() > 0 && bytes.len() <= 131072 && waiting.has_room(bytes.as_slice()) {
        let info = ChunkInfo {
            hash: MerkleHash::chunk_hash(bytes.as_slice()),
            length: bytes.len() as u32,
        };
        waiting.push_chunk(bytes, info)?;
    }
    Ok(waiting)
}

/// A xorb of one chunk, or of none where the text is empty, with its record.
pub fn raw(alloc: Global, text: &str) -> Result<RawXorbData, OutOfMemory>
    ensures { IfOk result (λ raw. Describes raw.xorb_info raw.xorb) }
{
    let mut waiting = one_chunk(alloc, text)?;
    let (raw, _files) = waiting.finalize(alloc)?;
    Ok(raw)
}

/// The hash of the xorb of a text.
fn xorb_of(text: &str) -> MerkleHash {
    if text.is_empty() {
        return MerkleHash::xorb_hash(&[]);
    }
    let chunk = ChunkInfo {
        hash: MerkleHash::chunk_hash(text.as_bytes()),
        length: text.len().min(u32::MAX as usize) as u32,
    };
    MerkleHash::xorb_hash([chunk].as_slice())
}

/// Bytes of a file in the xorb of a text.
pub fn part(text: &str, file_id: u64, n_bytes: u64, is_external: bool) -> FileXorbDependency {
    FileXorbDependency {
        file_id,
        xorb_hash: xorb_of(text),
        n_bytes,
        is_external,
    }
}
