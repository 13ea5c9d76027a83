//! Why a call is refused.
use crate::item_id::UniqueID;
use crate::merklehash::MerkleHash;
use std::error::Error;
use std::fmt;

/// Why a call is refused, with its numbers. A reversed range prints a sentence, each other one its variant's name.
///
/// In the Rust crates: the text of `DataError::InvalidOperation`, a panic, or a failed assertion.
#[derive(Clone, Copy, PartialEq, Eq, Debug, Drop)]
pub enum Invalid {
    /// The object takes no more calls of this kind.
    Finalized,
    /// The range starts after its end.
    ReversedRange {
        /// The place of the first byte.
        start: u64,
        /// The place after that of the last byte.
        end: u64,
    },
    /// The source of ids has none left.
    IdsUsedUp,
    /// An item has this id already.
    DuplicateId {
        /// The id that was given.
        id: UniqueID,
    },
    /// No item has this id.
    UnknownItem {
        /// The id that was given.
        id: UniqueID,
    },
    /// No file has this id.
    UnknownFile {
        /// The id that was given.
        id: u64,
    },
    /// No xorb was registered with this hash.
    UnknownXorb {
        /// The hash that was given.
        hash: MerkleHash,
    },
    /// The xorb was registered with another size, in bytes.
    OtherSize {
        /// The size of its first registration.
        registered: u64,
        /// The size that was given now.
        given: u64,
    },
    /// What is counted, and this call's increment, pass the total.
    PastTotal {
        /// The total, in bytes.
        total: u64,
        /// What was counted before this call, in bytes.
        counted: u64,
        /// What this call adds, in bytes.
        increment: u64,
    },
    /// The xorb is completed already.
    XorbCompleted {
        /// The hash that was given.
        hash: MerkleHash,
    },
    /// The sum passes `u64::MAX`.
    SumTooGreat {
        /// The sum before this call.
        have: u64,
        /// What this call adds.
        add: u64,
    },
}

impl Invalid {
    // The variant's name.
    fn name(&self) -> &'static str {
        match self {
            Invalid::Finalized => "Finalized",
            Invalid::ReversedRange { .. } => "ReversedRange",
            Invalid::IdsUsedUp => "IdsUsedUp",
            Invalid::DuplicateId { .. } => "DuplicateId",
            Invalid::UnknownItem { .. } => "UnknownItem",
            Invalid::UnknownFile { .. } => "UnknownFile",
            Invalid::UnknownXorb { .. } => "UnknownXorb",
            Invalid::OtherSize { .. } => "OtherSize",
            Invalid::PastTotal { .. } => "PastTotal",
            Invalid::XorbCompleted { .. } => "XorbCompleted",
            Invalid::SumTooGreat { .. } => "SumTooGreat",
        }
    }
}

impl fmt::Display for Invalid {
    fn fmt<W: fmt::Write>(&self, f: &mut fmt::Formatter<W>) -> fmt::Result {
        if let Invalid::ReversedRange { start, end } = self {
            return write!(f, "Invalid range: start ({start}) > end ({end})");
        }
        f.write_str(self.name())
    }
}

impl Error for Invalid {}
