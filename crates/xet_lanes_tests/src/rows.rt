//! Words of a row, and what it comes to.
use std::fmt::Display;
use std::process::Abort;

/// What stands before the first of these, and what behind it: where there is none, all and nothing.
pub(crate) fn cut<'a>(text: &'a str, at: &str) -> (&'a str, &'a str) {
    text.split_once(at).unwrap_or((text, ""))
}

/// The number of a word, the greatest where it is none.
pub(crate) fn number(word: &str) -> u64 {
    word.parse::<u64>().unwrap_or(u64::MAX)
}

/// Adds a word or a number.
pub(crate) fn put<T: Display + Drop>(told: &mut String, value: T) {
    let _ = write!(told, "{value}");
}

/// Adds two numbers behind a space, with a mark between them.
pub(crate) fn put_two(told: &mut String, first: usize, mark: char, second: usize) {
    put(told, ' ');
    put(told, first);
    put(told, mark);
    put(told, second);
}

/// Asserts what a row comes to.
pub(crate) fn comes_to(rt: &impl Abort, row: &str, told: String, wanted: &str) {
    assert!(rt; told.as_str() == wanted, "{row}: {told}");
}
