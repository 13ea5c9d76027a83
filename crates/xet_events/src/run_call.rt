//! A call on the state of a run, as its history keeps it.
use crate::run_book::RunError;
use xet_error::FileReconstructionError;

/// A call on the state of a run. The checks and `Scheduled` hold the reply.
#[derive(Clone, Copy, PartialEq, Eq, Drop)]
pub enum RunCall {
    /// An error was set.
    SetError(FileReconstructionError),
    /// The error was asked for.
    CheckError(Option<FileReconstructionError>),
    /// It was asked whether the run is to stop.
    CheckRunState(Option<RunError>),
    /// The run was cancelled.
    Cancel,
    /// A block was counted.
    NewBlock,
    /// A term of so many bytes was counted.
    NewTerm(u64),
    /// The scheduled bytes were asked for.
    Scheduled(u64),
}
