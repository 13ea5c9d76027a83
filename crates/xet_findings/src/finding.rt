//! What an audit finds.
use xet_base::{List, MerkleHash};

/// Something that is wrong with a store, by its kind and by places that count from 0.
#[derive(Clone, Copy, PartialEq, Eq, Debug)]
pub struct Finding {
    /// 1: xorb `a` has an earlier xorb's hash. 2: chunk `b` of xorb `a` is empty. 3: xorb `a` has 2^32 chunks or bytes
    /// or more. 4: file `a` has an earlier file's hash. 5: term `b` of file `a` names no xorb. 6: it names one, and
    /// isn't from below to inside it. 7: file `a`, whose terms all name chunks, has 2^64 bytes or more. 8: the hash of
    /// xorb `a` isn't that of its chunks. 9: that of file `a`, whose terms all name chunks, isn't.
    pub kind: u8,
    /// The place of the xorb or the file.
    pub a: u64,
    /// The place of the chunk or the term, and 0 where none is named.
    pub b: u64,
}

/// What an audit tells.
#[derive(Drop)]
pub struct AuditReport {
    /// What is wrong, by kind, then `a`, then `b`.
    pub findings: List<Finding>,
    /// The hashes of the xorbs that no file names, ascending, each once.
    pub spare: List<MerkleHash>,
}
