//! Calls of a writer as texts.
use crate::rows::{cut, number, put};
use bytes::Bytes;
use std::alloc::Global;
use xet_base::FileRange;
use xet_blocks::DataSource;
use xet_error::{FileReconstructionError, Result};
use xet_run::Budget;
use xet_writers::DataWriter;

/// A half-open range, with a hyphen between its ends.
fn range_of(text: &str) -> FileRange {
    let (start, end) = cut(text, "-");
    FileRange::new(number(start), number(end))
}

/// Gives a term whose bytes are there, with an admission of as many bytes or none.
pub(crate) fn give<W: DataWriter>(
    alloc: Global,
    writer: &mut W,
    range: FileRange,
    is_admitted: bool,
    bytes: &'static [u8],
) -> Result<()> {
    let source = DataSource::Ready(Bytes::from_static(bytes));
    let length = bytes.len() as u64;
    let admission = if is_admitted {
        Budget::new().admit(length, length)
    } else {
        None
    };
    writer.set_next_term_data_source(alloc, range, admission, source)
}

/// Makes one call but the end.
fn make_term<W: DataWriter>(alloc: Global, writer: &mut W, text: &'static str) -> Result<()> {
    if let Some((range, bytes)) = text.split_once(':') {
        return give(alloc, writer, range_of(range), false, bytes.as_bytes());
    }
    if let Some((range, bytes)) = text.split_once('=') {
        return give(alloc, writer, range_of(range), true, bytes.as_bytes());
    }
    match text.split_once('+') {
        Some((start, bytes)) => {
            writer.supply(alloc, number(start), Bytes::from_static(bytes.as_bytes()))
        }
        None => {
            let source = DataSource::Wanted(0);
            writer.set_next_term_data_source(alloc, range_of(text), None, source)
        }
    }
}

/// Makes one call: `0-5:Hello` gives a term with its bytes, `0-5=Hello` one that has an admission, `0-5` a wanted one,
/// `0+Hello` bytes for it, and `finish` is the end. A call that answers no number answers 0.
pub(crate) fn make<W: DataWriter>(
    alloc: Global,
    writer: &mut W,
    text: &'static str,
) -> Result<u64> {
    if text == "finish" {
        return writer.finish(alloc);
    }
    match make_term(alloc, writer, text) {
        Ok(()) => Ok(0),
        Err(error) => Err(error),
    }
}

/// Shows an error: the failed test with its numbers, or its name.
pub(crate) fn show_error(told: &mut String, error: FileReconstructionError) {
    let _ = match error {
        FileReconstructionError::InternalWriterError(fault) => write!(told, "{fault:?}"),
        error => write!(told, "{error:?}"),
    };
}

/// Shows an answer.
pub(crate) fn show(told: &mut String, answer: Result<u64>) {
    match answer {
        Ok(count) => put(told, count),
        Err(error) => show_error(told, error),
    }
}
