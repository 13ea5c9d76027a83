//! Why a text is no record.
ghost use Rattle.std.specs.Prelude.{◌≡◌};
ghost use Rattle.xet_gaps.specs.declared.gap_text_error.GapTextError.TheVariants as gap_text_error;

use thiserror::Error;
use xet_base::OutOfMemory;

/// Why a text is no record of gaps. It is exhaustive, and prints the variant's name.
///
/// The Rust crate has no such error.
#[derive(Clone, Copy, PartialEq, Eq, Debug, Drop, Error)]
pub enum GapTextError {
    /// An allocation was refused.
    #[error("OutOfMemory")]
    OutOfMemory,
    /// The text is no record's.
    #[error("NotGaps")]
    NotGaps,
}

/// Want of memory stays want of memory.
impl From<OutOfMemory> for GapTextError {
    ghost from_gives = { λ _ e. e ≡ gap_text_error.OutOfMemory };

    fn from(_: OutOfMemory) -> GapTextError {
        GapTextError::OutOfMemory
    }
}
