//! Why a range was not fetched.
ghost use Rattle.std.specs.Prelude.{◌≡◌};
ghost use Rattle.xet_resume.specs.Errors.{of_run};

use thiserror::Error;
use xet_error::FileReconstructionError;

/// Why a range was not fetched. It is exhaustive, and prints the variant's name.
///
/// The Rust crate has no such error.
#[derive(Clone, Copy, PartialEq, Eq, Debug, Drop, Error)]
pub enum ResumeError {
    /// An allocation was refused, for the record, by a run or by the file.
    #[error("OutOfMemory")]
    OutOfMemory,
    /// The run of a part failed, or the file's place could not be set. It is never want of memory.
    #[error("Run")]
    Run(FileReconstructionError),
    /// The run of a part of `expected` bytes answered Ok with `actual`: the file ends before the part does.
    #[error("Short")]
    Short { expected: u64, actual: u64 },
}

/// Want of memory stays want of memory, and any other error is the run's.
impl From<FileReconstructionError> for ResumeError {
    ghost from_gives = { λ e error. error ≡ of_run e };

    fn from(error: FileReconstructionError) -> ResumeError {
        match error {
            FileReconstructionError::OutOfMemory => ResumeError::OutOfMemory,
            _ => ResumeError::Run(error),
        }
    }
}
