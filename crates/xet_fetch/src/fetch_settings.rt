//! What of a run's settings a block's fetch reads.

/// What of a run's settings a block's fetch reads.
///
/// In the Rust crates: fields of `xet_config` that `file_reconstruction` reads.
#[derive(Clone, Copy, PartialEq, Eq)]
pub struct FetchSettings {
    /// Whether all ranges of a fetch entry are one block.
    pub multirange: bool,
    /// How often a block is asked for at most.
    pub tries: u32,
}
