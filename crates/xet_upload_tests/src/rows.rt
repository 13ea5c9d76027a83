//! Rows of a text, and what each comes to.
use std::fmt::{Debug, Display};
use std::process::Abort;

/// A call: its word, and up to three numbers, each of which is 0 where it isn't there.
#[derive(Clone, Copy)]
pub(crate) struct Call<'a> {
    pub(crate) word: &'a str,
    pub(crate) numbers: [u64; 3],
}

/// What stands before the first of these, and what behind it: where there is none, all and nothing.
pub(crate) fn cut<'a>(text: &'a str, at: &str) -> (&'a str, &'a str) {
    text.split_once(at).unwrap_or((text, ""))
}

/// The number of a word, 0 where it is none.
pub(crate) fn number(word: &str) -> u64 {
    word.parse::<u64>().unwrap_or(0)
}

/// The call of a text.
pub(crate) fn call_of(text: &str) -> Call<'_> {
    let (word, rest) = cut(text, " ");
    let (first, rest) = cut(rest, " ");
    let (second, third) = cut(rest, " ");
    Call {
        word,
        numbers: [number(first), number(second), number(third)],
    }
}

/// Adds a word or a number.
pub(crate) fn put<T: Display + Drop>(told: &mut String, value: T) {
    let _ = write!(told, "{value}");
}

/// Adds a value behind a space.
pub(crate) fn show<T: Debug>(told: &mut String, value: &T) {
    let _ = write!(told, " {value:?}");
}

/// Asserts what a row comes to.
pub(crate) fn comes_to(rt: &impl Abort, row: &str, told: String, wanted: &str) {
    assert!(rt; told.as_str() == wanted, "{row}: {told}");
}
