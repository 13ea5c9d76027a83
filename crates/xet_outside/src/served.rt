//! Blocks that a connection was asked for.
use xet_base::{ChunkRange, MerkleHash, ShortList};

/// A block that a connection answered with bytes, or as expired, by its request.
///
/// The Rust crates have no such type.
#[derive(Drop)]
pub struct Served {
    /// The number of the plan that the block is of.
    pub plan: u64,
    /// The number of the block in its plan.
    pub index: usize,
    /// The xorb's hash.
    pub xorb: MerkleHash,
    /// The ranges of its chunks, each half open.
    pub ranges: ShortList<ChunkRange>,
}
