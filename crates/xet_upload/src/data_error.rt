//! Why a call of a session gave no answer.
ghost use Rattle.std.specs.Prelude.{◌≡◌};
ghost use Rattle.xet_upload.specs.DataErrors.{data_error_number, of_client_error, of_progress_error};
ghost use Rattle.xet_upload.specs.DataErrors.{of_reconstruction_error, of_shard_error};
ghost use Rattle.xet_upload.specs.declared.data_error.DataError.TheVariants as data_error;

use thiserror::Error;
use xet_base::{DataHashHexParseError, Invalid, OutOfMemory};
use xet_error::FileReconstructionError;
use xet_outside::{ClientError, SourceFault};
use xet_progress_state::ProgressError;
use xet_shards::ShardError;

/// Why a call of a session gave no answer. It is exhaustive, and each variant has one cause. Lengths are in bytes. All
/// but `SizeMismatch` print their variant's name.
///
/// In the Rust crate xet-data: `error::DataError`.
#[derive(Clone, Copy, PartialEq, Eq, Debug, Drop, Error)]
pub enum DataError {
    /// An allocation was refused.
    #[error("OutOfMemory")]
    OutOfMemory,
    /// The uploader failed: its count of faults rose.
    #[error("ClientError")]
    ClientError,
    /// A source or a store of records failed: its count of faults rose.
    #[error("IOError")]
    IOError,
    /// The text of a hash is not 64 hexadecimal digits.
    #[error("HashStringParsingFailure")]
    HashStringParsingFailure,
    /// The call was refused.
    #[error("InvalidOperation")]
    InvalidOperation(Invalid),
    /// A download wrote another number of bytes than was expected.
    #[error("File size mismatch: expected {expected} bytes but downloaded {actual} bytes")]
    SizeMismatch {
        /// The declared size of the file, or the length of the range.
        expected: u64,
        /// How many bytes were written.
        actual: u64,
    },
    /// The reconstruction of a file failed.
    #[error("FileReconstructionError")]
    FileReconstructionError(FileReconstructionError),
    /// A source ended before its length.
    #[error("SourceEnded")]
    SourceEnded {
        /// The length that was given.
        expected: u64,
        /// How many bytes the source had.
        actual: u64,
    },
}

impl DataError {
    /// The number by which a program names it: 1 to 8, in the order of the variants.
    pub fn number(&self) -> u8
        ensures { result ≡ data_error_number self.now }
    {
        match self {
            DataError::OutOfMemory => 1,
            DataError::ClientError => 2,
            DataError::IOError => 3,
            DataError::HashStringParsingFailure => 4,
            DataError::InvalidOperation(_) => 5,
            DataError::SizeMismatch { .. } => 6,
            DataError::FileReconstructionError(_) => 7,
            DataError::SourceEnded { .. } => 8,
        }
    }
}

/// Want of memory stays want of memory.
impl From<OutOfMemory> for DataError {
    ghost from_gives = { λ _ e. e ≡ data_error.OutOfMemory };

    fn from(_: OutOfMemory) -> DataError {
        DataError::OutOfMemory
    }
}

/// Want of memory stays want of memory, and a fault is `ClientError`.
impl From<ClientError> for DataError {
    ghost from_gives = { λ e error. error ≡ of_client_error e };

    fn from(error: ClientError) -> DataError {
        match error {
            ClientError::OutOfMemory => DataError::OutOfMemory,
            ClientError::Failed => DataError::ClientError,
        }
    }
}

/// A fault of a source is `IOError`.
impl From<SourceFault> for DataError {
    ghost from_gives = { λ _ e. e ≡ data_error.IOError };

    fn from(_: SourceFault) -> DataError {
        DataError::IOError
    }
}

/// Want of memory stays want of memory, and a fault is `IOError`.
impl From<ShardError> for DataError {
    ghost from_gives = { λ e error. error ≡ of_shard_error e };

    fn from(error: ShardError) -> DataError {
        match error {
            ShardError::OutOfMemory => DataError::OutOfMemory,
            ShardError::Failed => DataError::IOError,
        }
    }
}

/// A text that spells no hash is `HashStringParsingFailure`.
impl From<DataHashHexParseError> for DataError {
    ghost from_gives = { λ _ e. e ≡ data_error.HashStringParsingFailure };

    fn from(_: DataHashHexParseError) -> DataError {
        DataError::HashStringParsingFailure
    }
}

/// Want of memory stays want of memory, and a refusal is one.
impl From<ProgressError> for DataError {
    ghost from_gives = { λ e error. error ≡ of_progress_error e };

    fn from(error: ProgressError) -> DataError {
        match error {
            ProgressError::OutOfMemory => DataError::OutOfMemory,
            ProgressError::InvalidOperation(invalid) => DataError::InvalidOperation(invalid),
        }
    }
}

/// Want of memory stays want of memory; each other error is kept as it is.
impl From<FileReconstructionError> for DataError {
    ghost from_gives = { λ e error. error ≡ of_reconstruction_error e };

    fn from(error: FileReconstructionError) -> DataError {
        match error {
            FileReconstructionError::OutOfMemory => DataError::OutOfMemory,
            other => DataError::FileReconstructionError(other),
        }
    }
}
