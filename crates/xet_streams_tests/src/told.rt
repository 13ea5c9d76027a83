//! What rows come to, as text. Where memory is refused a text lacks what was to be added.
use std::fmt::{Debug, Display};
use std::process::Abort;
use xet_error::FileReconstructionError;

/// What stands before the first of these, and what behind it: where there is none, all and nothing.
pub(crate) fn cut<'a>(text: &'a str, at: &str) -> (&'a str, &'a str) {
    text.split_once(at).unwrap_or((text, ""))
}

/// Adds a word or a number.
pub(crate) fn put<T: Display + Drop>(text: &mut String, value: T) {
    let _ = write!(text, "{value}");
}

/// Adds a value as it is debugged.
fn put_debug<T: Debug + Drop>(text: &mut String, value: T) {
    let _ = write!(text, " {value:?}");
}

/// An error, or a failed test with its numbers.
pub(crate) fn tell_error(text: &mut String, error: FileReconstructionError) {
    match error {
        FileReconstructionError::CorruptedReconstruction(fault) => put_debug(text, fault),
        error => put_debug(text, error),
    }
}

/// ` 'Hello'`: a piece.
pub(crate) fn tell_piece(text: &mut String, piece: &[u8]) {
    put(text, " '");
    put(text, str::from_utf8(piece).unwrap_or("no text"));
    put(text, '\'');
}

/// Asserts what a row comes to, but for blanks at both ends.
pub(crate) fn comes_to(rt: &impl Abort, row: &str, told: String, wanted: &str) {
    assert!(rt; told.as_str().trim() == wanted, "{row}\n{told}");
}
