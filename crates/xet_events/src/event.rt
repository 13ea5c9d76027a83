//! The events of a run.
use xet_base::{ChunkRange, FileRange, List, MerkleHash, ShortList};
use xet_error::FileReconstructionError;

/// A term of a plan, as the core knows it. Its length is that of its bytes of the file.
#[derive(Clone, Copy)]
pub struct PlannedTerm {
    /// Its bytes of the file, half open.
    pub byte_range: FileRange,
    /// The number of its block among the plan's blocks, from 0.
    pub block: usize,
    /// The number of its first chunk among the block's chunks, from 0.
    pub start_index: usize,
    /// How many bytes of that chunk come before its first byte.
    pub offset: u64,
}

/// A block of a plan: some chunks of a xorb, which are fetched at once.
#[derive(Drop)]
pub struct PlannedBlock {
    /// The xorb.
    pub xorb: MerkleHash,
    /// Its chunk ranges, half open, in their order.
    pub ranges: ShortList<ChunkRange>,
}

/// One step of a run. A block is named by its plan and by its number among the plan's blocks. Lanes are numbered from
/// 0, plans from 1, in the order of their Planned events.
#[derive(Drop)]
pub enum Event {
    /// A query was answered, with so many terms and blocks: none where it lies past the file's end.
    Planned {
        plan: u64,
        query: FileRange,
        terms: List<PlannedTerm>,
        blocks: List<PlannedBlock>,
    },
    /// The next planned term was admitted, while at most so many bytes might be unwritten.
    Admit {
        limit: u64,
    },
    /// A lane fetched a block.
    Fetched {
        lane: u32,
        plan: u64,
        block: usize,
    },
    /// The cache gave a block.
    Cached {
        plan: u64,
        block: usize,
    },
    /// A lane was answered that the URL of a block had expired.
    Expired {
        lane: u32,
        plan: u64,
        block: usize,
    },
    /// The URLs of a plan were asked for anew.
    Refreshed {
        plan: u64,
    },
    /// So many bytes of the oldest admitted term that wasn't wholly written were written.
    Wrote {
        taken: u64,
    },
    /// The run failed. It may fail again: the first error counts.
    Fail {
        error: FileReconstructionError,
    },
    /// The run was cancelled.
    Cancel,
}
