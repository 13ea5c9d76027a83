//! Whether SHA-256 of a file is recorded.
use xet_base::MerkleHash;

/// Whether a file's record has SHA-256 of its bytes.
///
/// In the Rust crate xet-data: `processing::Sha256Policy`.
#[derive(Clone, Copy, PartialEq, Eq)]
pub enum Sha256Policy {
    /// It is computed from the bytes.
    Compute,
    /// It is the given one, which is not compared with the bytes.
    Provided(MerkleHash),
    /// It is left out.
    Skip,
}
