//! The tests that a writer makes before it takes a term or bytes.
ghost use Rattle.std.specs.Prelude.{◌≡◌};
ghost use Rattle.xet_queue.specs.Calls.{kept_fault, length_fault, set_fault};

use bytes::Bytes;
use xet_base::FileRange;
use xet_blocks::DataSource;
use xet_error::{FileReconstructionError, WriterFault};

/// The fault of bytes that are not as many as the range has.
pub(crate) fn test_length(byte_range: FileRange, bytes: &Bytes) -> Option<WriterFault>
    ensures { result ≡ length_fault byte_range bytes.now }
{
    let expected = byte_range.end.saturating_sub(byte_range.start);
    let actual = bytes.len() as u64;
    if actual == expected {
        return None;
    }
    Some(WriterFault::Length { expected, actual })
}

/// The first test that a new term fails: a reversed range, another start than the place, bytes that do not fit.
pub fn test_term(
    place: Option<u64>,
    byte_range: FileRange,
    source: &DataSource,
) -> Option<WriterFault>
    ensures { result ≡ set_fault place byte_range source.now }
{
    let FileRange { start, end } = byte_range;
    if end < start {
        return Some(WriterFault::Reversed { start, end });
    }
    if let Some(expected) = place
        && start != expected
    {
        return Some(WriterFault::NotSequential { expected, start });
    }
    match source {
        DataSource::Ready(bytes) => test_length(byte_range, bytes),
        DataSource::Wanted(_) => None,
    }
}

/// The error that a writer keeps after this fault: bytes of a wrong length alone are kept.
pub(crate) fn error_to_keep(fault: WriterFault) -> Option<FileReconstructionError>
    ensures { result ≡ kept_fault fault }
{
    match fault {
        WriterFault::Length { .. } => Some(FileReconstructionError::InternalWriterError(fault)),
        _ => None,
    }
}
