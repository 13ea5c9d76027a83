//! Why a text was not read as a pointer record.
ghost use Rattle.std.specs.Prelude.{◌≡◌};
ghost use Rattle.xet_pointer.specs.declared.pointer_error.PointerError.TheVariants as pointer_error;

use std::alloc::AllocError;
use thiserror::Error;
use xet_base::OutOfMemory;

/// Why a text was not read as a pointer record. It is exhaustive, and prints the variant's name.
///
/// The Rust crate has no such error: there serde alone reads pointers.
#[derive(Clone, Copy, PartialEq, Eq, Debug, Drop, Error)]
pub enum PointerError {
    /// An allocation was refused.
    #[error("OutOfMemory")]
    OutOfMemory,
    /// The text is no pointer record.
    #[error("NotPointer")]
    NotPointer,
}

/// Want of memory stays want of memory.
impl From<OutOfMemory> for PointerError {
    ghost from_gives = { λ _ error. error ≡ pointer_error.OutOfMemory };

    fn from(_: OutOfMemory) -> PointerError {
        PointerError::OutOfMemory
    }
}

/// A refused allocation is want of memory.
impl From<AllocError> for PointerError {
    ghost from_gives = { λ _ error. error ≡ pointer_error.OutOfMemory };

    fn from(_: AllocError) -> PointerError {
        PointerError::OutOfMemory
    }
}
