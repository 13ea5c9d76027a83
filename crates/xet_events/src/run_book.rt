//! What all threads of a run know of it, as plain data.
ghost use Rattle.std.specs.Prelude.{◌≡◌, ◌+◌, ◌-◌, ◌^◌, min, true};
ghost use Rattle.xet_events.specs.RunBooks.{checked, run_checked, with_error};
ghost use Rattle.xet_events.specs.RunReplay.{opening};
ghost use Rattle.xet_events.specs.declared.run_book.RunError.TheVariants as run_error;

use thiserror::Error;
use xet_error::FileReconstructionError;

/// Why a run is to stop, or why that could not be asked. It prints its variant's name.
///
/// In the Rust crate: `file_reconstruction::run_state::RunError`.
#[derive(Clone, Copy, PartialEq, Eq, Debug, Drop, Error)]
pub enum RunError {
    /// An allocation was refused, and nothing was looked up.
    #[error("OutOfMemory")]
    OutOfMemory,
    /// The run's first error.
    #[error("Error")]
    Error(FileReconstructionError),
    /// The run was cancelled, and has no error.
    #[error("Cancelled")]
    Cancelled,
}

impl From<FileReconstructionError> for RunError {
    ghost from_gives = { λ e error. error ≡ run_error.Error e };

    fn from(error: FileReconstructionError) -> RunError {
        RunError::Error(error)
    }
}

/// The first error of a run, whether it was cancelled, how many blocks were new, and how many bytes of terms were
/// scheduled. Both counts stop at `u64::MAX`.
///
/// In the Rust crate: the fields of `file_reconstruction::run_state::RunState`.
#[derive(Clone, Copy)]
pub struct RunBook {
    pub(crate) error: Option<FileReconstructionError>,
    pub(crate) cancelled: bool,
    pub(crate) blocks: u64,
    pub(crate) scheduled: u64,
}

impl RunBook {
    /// The book of a run that has just begun: no error, no mark, counts of 0.
    pub fn new() -> RunBook
        ensures { result ≡ opening }
    {
        RunBook {
            error: None,
            cancelled: false,
            blocks: 0,
            scheduled: 0,
        }
    }

    /// Keeps the error where it is the first one, and marks the run as cancelled.
    pub fn set_error(&mut self, error: FileReconstructionError)
        ensures { self.new ≡ with_error self.old error }
    {
        if self.error.is_none() {
            self.error = Some(error);
        }
        self.cancelled = true;
    }

    /// The first error, as an `Err`.
    pub fn check_error(&mut self) -> Result<(), FileReconstructionError>
        ensures reply { result ≡ checked self.old }
        ensures same { self.new ≡ self.old }
    {
        match self.error {
            Some(error) => Err(error),
            None => Ok(()),
        }
    }

    /// The first error as `RunError::Error`, else `RunError::Cancelled` where the run is marked.
    pub fn check_run_state(&mut self) -> Result<(), RunError>
        ensures reply { result ≡ run_checked self.old }
        ensures same { self.new ≡ self.old }
    {
        if let Some(error) = self.error {
            return Err(RunError::Error(error));
        }
        if self.cancelled {
            return Err(RunError::Cancelled);
        }
        Ok(())
    }

    /// Marks the run as cancelled.
    pub fn cancel(&mut self)
        ensures { self.new ≡ record self.old { cancelled = true } }
    {
        self.cancelled = true;
    }

    /// Counts a new block.
    pub fn record_new_block(&mut self)
        ensures { self.new ≡ record self.old { blocks = min (self.old.blocks + 1) (2 ^ 64 - 1) } }
    {
        self.blocks = self.blocks.saturating_add(1);
    }

    /// Counts the bytes of a new term.
    pub fn record_new_term(&mut self, term_size: u64)
        ensures { self.new ≡ record self.old { scheduled = min (self.old.scheduled + term_size) (2 ^ 64 - 1) } }
    {
        self.scheduled = self.scheduled.saturating_add(term_size);
    }

    /// How many bytes of terms were scheduled.
    pub fn total_bytes_scheduled(&mut self) -> u64
        ensures reply { result ≡ self.old.scheduled }
        ensures same { self.new ≡ self.old }
    {
        self.scheduled
    }
}
