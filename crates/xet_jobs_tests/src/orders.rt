//! Whether a log is in order: no record names a xorb that wasn't put before it. Where a whole log is in order, it was
//! so at each moment.
use xet_base::{MDBFileInfo, MerkleHash, ShardRecord};
use xet_uploader::Put;

/// Whether a xorb of this hash was put.
fn is_put(log: &[Put], hash: &MerkleHash) -> bool {
    for put in log {
        if let Put::Xorb(xorb) = put
            && xorb.hash == *hash
        {
            return true;
        }
    }
    false
}

/// Whether all xorbs were put that the record of a file names.
fn has_terms(log: &[Put], file: &MDBFileInfo) -> bool {
    for entry in file.entries.as_slice() {
        if !is_put(log, &entry.xorb) {
            return false;
        }
    }
    true
}

/// Whether all xorbs were put that records of files name.
fn has_files(log: &[Put], shard: &ShardRecord) -> bool {
    for file in shard.files.as_slice() {
        if !has_terms(log, file) {
            return false;
        }
    }
    true
}

/// Whether all xorbs were put that have a record.
fn has_xorbs(log: &[Put], shard: &ShardRecord) -> bool {
    for info in shard.xorbs.as_slice() {
        if !is_put(log, &info.hash) {
            return false;
        }
    }
    true
}

/// Whether no record names a xorb that wasn't put before it.
pub fn is_ordered(log: &[Put]) -> bool {
    for (place, put) in log.iter().enumerate() {
        let (before, _) = log.split_at(place.min(log.len()));
        if let Put::Shard(shard) = put
            && !(has_xorbs(before, shard) && has_files(before, shard))
        {
            return false;
        }
    }
    true
}
