//! Why a reconstruction fails.
ghost use Rattle.std.specs.Prelude.{◌≡◌};
ghost use Rattle.xet_error.specs.Errors.{corruption_number, of_client_error, of_sink_error, setting_number};
ghost use Rattle.xet_error.specs.declared.error.FileReconstructionError.TheVariants as error;

use std::error::Error;
use std::fmt;
use xet_base::{FileRange, MerkleHash, OutOfMemory};
use xet_outside::{ClientError, SinkError};

/// The setting of a run that fails first. It prints its variant's name.
///
/// In the Rust crate: the text of `file_reconstruction::error::FileReconstructionError::ConfigurationError`.
#[derive(Clone, Copy, PartialEq, Eq, Debug, Drop)]
pub enum Setting {
    /// The run is lent no connection.
    NoConnection,
    /// A fetch of a block may not be tried even once.
    NoTries,
    /// The least fetch size, in bytes, is 0.
    LeastZero,
    /// The greatest fetch size is below the least.
    GreatestBelowLeast,
}

impl Setting {
    /// The number by which a program names it: 1 to 4, in the order of the variants.
    pub fn number(&self) -> u8
        ensures { result ≡ setting_number self.now }
    {
        match self {
            Setting::NoConnection => 1,
            Setting::NoTries => 2,
            Setting::LeastZero => 3,
            Setting::GreatestBelowLeast => 4,
        }
    }

    // The variant's name.
    fn name(&self) -> &'static str {
        match self {
            Setting::NoConnection => "NoConnection",
            Setting::NoTries => "NoTries",
            Setting::LeastZero => "LeastZero",
            Setting::GreatestBelowLeast => "GreatestBelowLeast",
        }
    }
}

impl fmt::Display for Setting {
    fn fmt<W: fmt::Write>(&self, f: &mut fmt::Formatter<W>) -> fmt::Result {
        f.write_str(self.name())
    }
}

impl Error for Setting {}

/// The test that an answer of a connection fails, with its numbers. Terms, entries, blocks and offsets count from 0;
/// lengths and offsets are in bytes. It prints its variant's name.
///
/// In the Rust crate such an answer panics, fails an assertion, or passes.
#[derive(Clone, Copy, PartialEq, Eq, Debug, Drop)]
pub enum Corruption {
    /// Over multirange blocks, this entry of the xorb has an empty or reversed range, or one that starts before the one
    /// before it ends. The entries of each xorb count from 0.
    Ranges { xorb: MerkleHash, entry: usize },
    /// The xorb of this term is not in the plan.
    NoXorb { term: usize },
    /// This term lies in no fetch range of its xorb, or has no chunks. Of two xorbs with one hash the first counts.
    NoRange { term: usize },
    /// The plan's offset is over its first term's length. An equal one is accepted.
    Offset { offset: u64, length: u64 },
    /// The end of this term in the file, before it is cut at the query's end, passes `u64::MAX`.
    Position { term: usize },
    /// The terms pass the query's end by `excess` bytes, which is more than the last term's `length`. As many are
    /// accepted.
    Trim { excess: u64, length: u64 },
    /// A refresh was answered as past the end, or with a plan without terms.
    RefreshPastEnd,
    /// A refresh covers these bytes of the file, and not those of the plan before it.
    RefreshRange { returned: FileRange },
    /// A refresh has another block at this index, or none.
    RefreshBlocks { index: usize },
    /// There are `actual` offsets, and not one for each of the block's `expected` chunks; or, of a term that is cut,
    /// its block has `actual` chunks, and the term needs `expected`. Sums stop at `u64::MAX`.
    OffsetCount { expected: u64, actual: u64 },
    /// The offset at this place is not 0 at the first place, is not above the one before it, or is not below the number
    /// of the block's bytes.
    OffsetOrder { place: usize },
    /// The block has `actual` bytes, and its terms tell `expected`.
    BlockLength { expected: u64, actual: u64 },
    /// A term ends at `end` in its block, which has `length` bytes only. The end stops at `u64::MAX`.
    TermPastBlock { end: u64, length: u64 },
    /// Terms came for a query that starts at `start`, which is at or past `known`, the known end of the file.
    PastKnownEnd { known: u64, start: u64 },
}

impl Corruption {
    /// The number by which a program names it: 1 to 14, in the order of the variants.
    pub fn number(&self) -> u8
        ensures { result ≡ corruption_number self.now }
    {
        match self {
            Corruption::Ranges { .. } => 1,
            Corruption::NoXorb { .. } => 2,
            Corruption::NoRange { .. } => 3,
            Corruption::Offset { .. } => 4,
            Corruption::Position { .. } => 5,
            Corruption::Trim { .. } => 6,
            Corruption::RefreshPastEnd => 7,
            Corruption::RefreshRange { .. } => 8,
            Corruption::RefreshBlocks { .. } => 9,
            Corruption::OffsetCount { .. } => 10,
            Corruption::OffsetOrder { .. } => 11,
            Corruption::BlockLength { .. } => 12,
            Corruption::TermPastBlock { .. } => 13,
            Corruption::PastKnownEnd { .. } => 14,
        }
    }

    // The variant's name.
    fn name(&self) -> &'static str {
        match self {
            Corruption::Ranges { .. } => "Ranges",
            Corruption::NoXorb { .. } => "NoXorb",
            Corruption::NoRange { .. } => "NoRange",
            Corruption::Offset { .. } => "Offset",
            Corruption::Position { .. } => "Position",
            Corruption::Trim { .. } => "Trim",
            Corruption::RefreshPastEnd => "RefreshPastEnd",
            Corruption::RefreshRange { .. } => "RefreshRange",
            Corruption::RefreshBlocks { .. } => "RefreshBlocks",
            Corruption::OffsetCount { .. } => "OffsetCount",
            Corruption::OffsetOrder { .. } => "OffsetOrder",
            Corruption::BlockLength { .. } => "BlockLength",
            Corruption::TermPastBlock { .. } => "TermPastBlock",
            Corruption::PastKnownEnd { .. } => "PastKnownEnd",
        }
    }
}

impl fmt::Display for Corruption {
    fn fmt<W: fmt::Write>(&self, f: &mut fmt::Formatter<W>) -> fmt::Result {
        f.write_str(self.name())
    }
}

impl Error for Corruption {}

/// Why a writer refuses a term. Starts and ends are places in the file, lengths are in bytes. It prints its variant's
/// name.
///
/// In the Rust crate: the text of `file_reconstruction::error::FileReconstructionError::InternalWriterError`.
#[derive(Clone, Copy, PartialEq, Eq, Debug, Drop)]
pub enum WriterFault {
    /// The term ends at `end`, before its `start`.
    Reversed { start: u64, end: u64 },
    /// The term starts at `start`, and the one before it ended at `expected`.
    NotSequential { expected: u64, start: u64 },
    /// The term came with `actual` bytes, and its range has `expected`.
    Length { expected: u64, actual: u64 },
    /// The writer was finished before.
    Finished,
    /// The term that starts here has no bytes yet.
    StillWanted { start: u64 },
    /// No term that starts here waits for bytes.
    NotWanted { start: u64 },
}

impl WriterFault {
    // The variant's name.
    fn name(&self) -> &'static str {
        match self {
            WriterFault::Reversed { .. } => "Reversed",
            WriterFault::NotSequential { .. } => "NotSequential",
            WriterFault::Length { .. } => "Length",
            WriterFault::Finished => "Finished",
            WriterFault::StillWanted { .. } => "StillWanted",
            WriterFault::NotWanted { .. } => "NotWanted",
        }
    }
}

impl fmt::Display for WriterFault {
    fn fmt<W: fmt::Write>(&self, f: &mut fmt::Formatter<W>) -> fmt::Result {
        f.write_str(self.name())
    }
}

impl Error for WriterFault {}

/// Why a reconstruction fails. It is exhaustive, and each variant has one cause. It prints its variant's name.
///
/// In the Rust crate: `file_reconstruction::error::FileReconstructionError`.
#[derive(Clone, Copy, PartialEq, Eq, Debug, Drop)]
pub enum FileReconstructionError {
    /// An allocation was refused.
    OutOfMemory,
    /// A connection failed: its count of faults rose.
    ClientError,
    /// A connection said that the file is not stored.
    FileNotFound,
    /// The URL of a block had expired.
    UrlExpired,
    /// The writer failed: its count of faults rose.
    IoError,
    /// An answer of a connection fails this test.
    CorruptedReconstruction(Corruption),
    /// This setting of the run can't be met.
    ConfigurationError(Setting),
    /// The run was asked to stop.
    Cancelled,
    /// A writer was used out of order.
    InternalWriterError(WriterFault),
}

impl FileReconstructionError {
    // The variant's name.
    fn name(&self) -> &'static str {
        match self {
            FileReconstructionError::OutOfMemory => "OutOfMemory",
            FileReconstructionError::ClientError => "ClientError",
            FileReconstructionError::FileNotFound => "FileNotFound",
            FileReconstructionError::UrlExpired => "UrlExpired",
            FileReconstructionError::IoError => "IoError",
            FileReconstructionError::CorruptedReconstruction(_) => "CorruptedReconstruction",
            FileReconstructionError::ConfigurationError(_) => "ConfigurationError",
            FileReconstructionError::Cancelled => "Cancelled",
            FileReconstructionError::InternalWriterError(_) => "InternalWriterError",
        }
    }
}

impl fmt::Display for FileReconstructionError {
    fn fmt<W: fmt::Write>(&self, f: &mut fmt::Formatter<W>) -> fmt::Result {
        f.write_str(self.name())
    }
}

impl Error for FileReconstructionError {}

/// The result of a call of a reconstruction.
///
/// In the Rust crate: `file_reconstruction::error::Result`.
pub type Result<T> = std::result::Result<T, FileReconstructionError>;

/// Want of memory stays want of memory, and a fault is `ClientError`.
impl From<ClientError> for FileReconstructionError {
    ghost from_gives = { λ e error. error ≡ of_client_error e };

    fn from(error: ClientError) -> FileReconstructionError {
        match error {
            ClientError::OutOfMemory => FileReconstructionError::OutOfMemory,
            ClientError::Failed => FileReconstructionError::ClientError,
        }
    }
}

/// Want of memory stays want of memory, and a fault is `IoError`.
impl From<SinkError> for FileReconstructionError {
    ghost from_gives = { λ e error. error ≡ of_sink_error e };

    fn from(error: SinkError) -> FileReconstructionError {
        match error {
            SinkError::OutOfMemory => FileReconstructionError::OutOfMemory,
            SinkError::Failed => FileReconstructionError::IoError,
        }
    }
}

/// Want of memory stays want of memory.
impl From<OutOfMemory> for FileReconstructionError {
    ghost from_gives = { λ _ e. e ≡ error.OutOfMemory };

    fn from(_: OutOfMemory) -> FileReconstructionError {
        FileReconstructionError::OutOfMemory
    }
}
