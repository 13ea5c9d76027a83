//! What errors print: a line each. What those of sinks print is in `sinks`.
use crate::rows::comes_to;
use std::fmt::{Debug, Display};
use xet_base::{DataHashHexParseError, FileRange, Invalid, MerkleHash, OutOfMemory, UniqueID};
use xet_error::{Corruption, FileReconstructionError, Setting, WriterFault};
use xet_outside::{CacheError, ClientError, SourceFault};
use xet_pointer::PointerError;
use xet_shards::ShardError;
use xet_store::StoreRefused;
use xet_upload::DataError;

/// Adds the texts of these errors, a line each.
fn tell<E: Display + Debug + Eq>(told: &mut String, errors: &[E]) {
    for error in errors {
        let _ = writeln!(told, "{error}");
    }
}

const HASH: MerkleHash = MerkleHash([6; 32]);

const INVALID: &str = "Finalized
Invalid range: start (7) > end (3)
IdsUsedUp
DuplicateId
UnknownItem
UnknownFile
UnknownXorb
OtherSize
PastTotal
XorbCompleted
SumTooGreat
";

#[test]
fn a_reversed_range_prints_a_sentence(rt: HostRuntime) {
    let id = UniqueID(5);
    let (registered, given) = (1, 2);
    let (total, counted, increment) = (1, 1, 2);
    let all = [
        Invalid::Finalized,
        Invalid::ReversedRange { start: 7, end: 3 },
        Invalid::IdsUsedUp,
        Invalid::DuplicateId { id },
        Invalid::UnknownItem { id },
        Invalid::UnknownFile { id: 5 },
        Invalid::UnknownXorb { hash: HASH },
        Invalid::OtherSize { registered, given },
        Invalid::PastTotal {
            total,
            counted,
            increment,
        },
        Invalid::XorbCompleted { hash: HASH },
        Invalid::SumTooGreat { have: 1, add: 2 },
    ];
    let mut told = String::new(rt.alloc());
    tell(&mut told, &all);
    comes_to(&rt, "Invalid", told, INVALID);
}

const LOW: &str = "OutOfMemory
DataHashHexParseError
SourceFault
OutOfMemory
Failed
OutOfMemory
Failed
OutOfMemory
NotPointer
OutOfMemory
Failed
";

#[test]
fn other_low_errors_print_their_names(rt: HostRuntime) {
    let mut told = String::new(rt.alloc());
    tell(&mut told, &[OutOfMemory]);
    tell(&mut told, &[DataHashHexParseError]);
    tell(&mut told, &[SourceFault]);
    tell(&mut told, &[ClientError::OutOfMemory, ClientError::Failed]);
    tell(&mut told, &[CacheError::OutOfMemory, CacheError::Failed]);
    tell(
        &mut told,
        &[PointerError::OutOfMemory, PointerError::NotPointer],
    );
    tell(&mut told, &[ShardError::OutOfMemory, ShardError::Failed]);
    comes_to(&rt, "low errors", told, LOW);
}

const REFUSED: &str = "OutOfMemory
Taken
EmptyChunk
TooManyChunks
TooLong
BadTerm
NoConnection
NoTries
LeastZero
GreatestBelowLeast
Reversed
NotSequential
Length
Finished
StillWanted
NotWanted
";

#[test]
fn refusals_of_stores_runs_and_writers_print_their_names(rt: HostRuntime) {
    let (expected, actual) = (1, 2);
    let refused = [
        StoreRefused::OutOfMemory,
        StoreRefused::Taken,
        StoreRefused::EmptyChunk,
        StoreRefused::TooManyChunks,
        StoreRefused::TooLong,
        StoreRefused::BadTerm,
    ];
    let settings = [
        Setting::NoConnection,
        Setting::NoTries,
        Setting::LeastZero,
        Setting::GreatestBelowLeast,
    ];
    let faults = [
        WriterFault::Reversed { start: 2, end: 1 },
        WriterFault::NotSequential { expected, start: 2 },
        WriterFault::Length { expected, actual },
        WriterFault::Finished,
        WriterFault::StillWanted { start: 1 },
        WriterFault::NotWanted { start: 1 },
    ];
    let mut told = String::new(rt.alloc());
    tell(&mut told, &refused);
    tell(&mut told, &settings);
    tell(&mut told, &faults);
    comes_to(&rt, "refusals", told, REFUSED);
}

const CORRUPTIONS: &str = "Ranges
NoXorb
NoRange
Offset
Position
Trim
RefreshPastEnd
RefreshRange
RefreshBlocks
OffsetCount
OffsetOrder
BlockLength
TermPastBlock
PastKnownEnd
";

#[test]
fn corruptions_print_their_names(rt: HostRuntime) {
    let returned = FileRange::new(0, 1);
    let (expected, actual) = (1, 2);
    let (excess, length) = (2, 1);
    let xorb = HASH;
    let all = [
        Corruption::Ranges { xorb, entry: 0 },
        Corruption::NoXorb { term: 0 },
        Corruption::NoRange { term: 0 },
        Corruption::Offset { offset: 2, length },
        Corruption::Position { term: 0 },
        Corruption::Trim { excess, length },
        Corruption::RefreshPastEnd,
        Corruption::RefreshRange { returned },
        Corruption::RefreshBlocks { index: 0 },
        Corruption::OffsetCount { expected, actual },
        Corruption::OffsetOrder { place: 0 },
        Corruption::BlockLength { expected, actual },
        Corruption::TermPastBlock { end: 2, length },
        Corruption::PastKnownEnd { known: 1, start: 2 },
    ];
    let mut told = String::new(rt.alloc());
    tell(&mut told, &all);
    comes_to(&rt, "Corruption", told, CORRUPTIONS);
}

const RECONSTRUCTIONS: &str = "OutOfMemory
ClientError
FileNotFound
UrlExpired
IoError
CorruptedReconstruction
ConfigurationError
Cancelled
InternalWriterError
";

#[test]
fn errors_of_reconstructions_print_their_names(rt: HostRuntime) {
    let all = [
        FileReconstructionError::OutOfMemory,
        FileReconstructionError::ClientError,
        FileReconstructionError::FileNotFound,
        FileReconstructionError::UrlExpired,
        FileReconstructionError::IoError,
        FileReconstructionError::CorruptedReconstruction(Corruption::RefreshPastEnd),
        FileReconstructionError::ConfigurationError(Setting::NoTries),
        FileReconstructionError::Cancelled,
        FileReconstructionError::InternalWriterError(WriterFault::Finished),
    ];
    let mut told = String::new(rt.alloc());
    tell(&mut told, &all);
    comes_to(&rt, "errors", told, RECONSTRUCTIONS);
}

const UPLOADS: &str = "OutOfMemory
ClientError
IOError
HashStringParsingFailure
InvalidOperation
File size mismatch: expected 95 bytes but downloaded 8 bytes
FileReconstructionError
SourceEnded
";

#[test]
fn errors_of_uploads_print_their_names_or_the_sizes(rt: HostRuntime) {
    let (expected, actual) = (95, 8);
    let all = [
        DataError::OutOfMemory,
        DataError::ClientError,
        DataError::IOError,
        DataError::HashStringParsingFailure,
        DataError::InvalidOperation(Invalid::Finalized),
        DataError::SizeMismatch { expected, actual },
        DataError::FileReconstructionError(FileReconstructionError::Cancelled),
        DataError::SourceEnded { expected, actual },
    ];
    let mut told = String::new(rt.alloc());
    tell(&mut told, &all);
    comes_to(&rt, "uploads", told, UPLOADS);
}
