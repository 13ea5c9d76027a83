//! Why a call of the progress types fails, and what is still missing.
ghost use Rattle.std.specs.Prelude.{◌≡◌};
ghost use Rattle.xet_progress_state.specs.declared.error.ProgressError.TheVariants as error;

use std::fmt;
use thiserror::Error;
use xet_base::{Invalid, MerkleHash, OutOfMemory, UniqueID};

/// Why a call of the progress types failed. It prints its variant's name, or the refusal's text.
///
/// In the Rust crate such a call panics, fails an assertion, or passes.
#[derive(Clone, Copy, PartialEq, Eq, Debug, Drop, Error)]
pub enum ProgressError {
    /// An allocation was refused.
    #[error("OutOfMemory")]
    OutOfMemory,
    /// The call was refused, and changed nothing.
    #[error("{0}")]
    InvalidOperation(Invalid),
}

impl From<OutOfMemory> for ProgressError {
    ghost from_gives = { λ _ e. e ≡ error.OutOfMemory };

    fn from(_: OutOfMemory) -> ProgressError {
        ProgressError::OutOfMemory
    }
}

/// What is still missing, in bytes. It prints its variant's name.
///
/// In the Rust crate: the text of a failed assertion.
#[derive(Clone, Copy, PartialEq, Eq, Debug, Drop)]
pub enum Incomplete {
    /// Bytes of an item or a group.
    Bytes {
        completed: u64,
        total: u64,
    },
    /// Bytes to be transferred of an item or a group.
    Transfer {
        completed: u64,
        total: u64,
    },
    /// Bytes of the item of this id.
    Item {
        id: UniqueID,
        completed: u64,
        total: u64,
    },
    /// Bytes of the file of this id.
    File {
        id: u64,
        completed: u64,
        total: u64,
    },
    /// The xorb of this hash, which a call named and none completed.
    Xorb {
        hash: MerkleHash,
    },
}

impl Incomplete {
    // The variant's name.
    fn name(&self) -> &'static str {
        match self {
            Incomplete::Bytes { .. } => "Bytes",
            Incomplete::Transfer { .. } => "Transfer",
            Incomplete::Item { .. } => "Item",
            Incomplete::File { .. } => "File",
            Incomplete::Xorb { .. } => "Xorb",
        }
    }
}

impl fmt::Display for Incomplete {
    fn fmt<W: fmt::Write>(&self, f: &mut fmt::Formatter<W>) -> fmt::Result {
        f.write_str(self.name())
    }
}

impl std::error::Error for Incomplete {}
