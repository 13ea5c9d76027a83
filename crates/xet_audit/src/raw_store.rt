//! A store as it was read, valid or not.
use xet_base::{FileDataSequenceEntry, List, MerkleHash, Xorb};

/// A xorb as it was read. Its hash may be another's, and a chunk may be empty.
pub type RawXorb = Xorb;

/// A file as it was read. Its terms may name anything; their counts of bytes are 0, and nothing looks at them.
#[derive(Drop)]
pub struct RawFile {
    /// The hash by which queries name the file.
    pub hash: MerkleHash,
    /// The terms, in the file's order.
    pub terms: List<FileDataSequenceEntry>,
}

/// A store as it was read: any xorbs and any files.
///
/// The Rust crates have no such type.
#[derive(Drop)]
pub struct RawStore {
    /// The xorbs. One that was read has them by ascending keys, a compacted one by ascending hash.
    pub xorbs: List<RawXorb>,
    /// The files, in the same order.
    pub files: List<RawFile>,
}
