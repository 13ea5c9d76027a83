//! Terms of a writer that gives them out.
use bytes::Bytes;
use xet_base::{FileRange, Keyed};
use xet_run::Admission;

/// A term that waits for its bytes.
#[derive(Drop)]
pub struct WantedTerm {
    /// The term's bytes by their places, half open.
    pub byte_range: FileRange,
    /// What a budget gave for it.
    pub admission: Option<Admission>,
}

impl Keyed<u64> for WantedTerm {
    ghost key_of = { λ t. t.byte_range.start };

    fn key(&self) -> u64 {
        self.byte_range.start
    }
}

/// A term with its bytes.
///
/// In the Rust crate: `file_reconstruction::data_writer::unordered_writer::CompletedTerm`.
#[derive(Drop)]
pub struct CompletedTerm {
    /// The term's bytes by their places, half open.
    pub byte_range: FileRange,
    /// The bytes, as many as the range has.
    pub bytes: Bytes,
    /// What a budget gave for it.
    pub admission: Option<Admission>,
}
