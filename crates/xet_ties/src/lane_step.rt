//! What the fetches of a round came to.
use xet_blocks::XorbBlockData;
use xet_error::FileReconstructionError;

/// What one fetch came to.
///
/// The Rust crate has no such type.
#[derive(Drop)]
pub enum LaneStep {
    /// The block's bytes came and passed their tests.
    Served {
        /// The number of the plan, from 1.
        plan: u64,
        /// The number of the block in its plan, from 0.
        block: usize,
        /// The data that is made of the bytes.
        found: XorbBlockData,
    },
    /// The block's URL had expired.
    Expired {
        /// The number of the plan, from 1.
        plan: u64,
        /// The number of the block in its plan, from 0.
        block: usize,
    },
    /// The connection failed, the bytes failed a test, or memory ran out.
    Failed {
        /// The error that this is.
        error: FileReconstructionError,
    },
}
