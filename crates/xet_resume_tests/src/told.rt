//! What rows come to, as text. Where memory is refused a text lacks what was to be added.
use std::fmt::Display;
use std::process::Abort;
use xet_base::FileRange;

/// Adds a word or a number.
pub(crate) fn put<T: Display + Drop>(text: &mut String, value: T) {
    let _ = write!(text, "{value}");
}

/// Adds `5-9 `: a range of a file's bytes.
pub(crate) fn put_range(text: &mut String, range: FileRange) {
    put(text, range.start);
    put(text, '-');
    put(text, range.end);
    put(text, ' ');
}

/// The one place where what was told is compared.
pub(crate) fn comes_to(rt: &impl Abort, row: &str, told: &str, wanted: &str) {
    assert!(rt; told == wanted, "{row}\n{told}");
}
