//! Words of a call.
use std::alloc::Global;
use std::ops::Bound::{self, Excluded, Included, Unbounded};
use xet_base::FileRange;
use xet_pointer::XetFileInfo;

/// What stands before the first space, and what behind it.
pub(crate) fn cut(text: &str) -> (&str, &str) {
    text.split_once(' ').unwrap_or((text, ""))
}

/// A number, or none where the text is none.
pub(crate) fn number(text: &str) -> Option<u64> {
    text.parse::<u64>().ok()
}

/// Adds a text.
pub(crate) fn put(text: &mut String, more: &str) {
    let _ = text.push_str(more);
}

/// The pointer record of the file whose hash is 64 times this character.
pub(crate) fn info(alloc: Global, hash: &str, size: &str) -> XetFileInfo {
    let mut text = String::new(alloc);
    for _ in 0..64u8 {
        put(&mut text, hash);
    }
    match number(size) {
        Some(size) => XetFileInfo::new(text, size),
        None => XetFileInfo::new_hash_only(text),
    }
}

/// The number behind a mark, or none where there is none.
fn marked(text: &str) -> Option<u64> {
    match text.split_once('~') {
        Some((_, rest)) => number(rest),
        None => None,
    }
}

/// The bounds of a range, from its first byte to before the byte of its end. `~` stands for the other kind of bound.
pub(crate) fn bounds(words: &str) -> (Bound<u64>, Bound<u64>) {
    let (start, end) = cut(words);
    let start = match (number(start), marked(start)) {
        (Some(start), _) => Included(start),
        (None, Some(start)) => Excluded(start),
        (None, None) => Unbounded,
    };
    let end = match (number(end), marked(end)) {
        (Some(end), _) => Excluded(end),
        (None, Some(end)) => Included(end),
        (None, None) => Unbounded,
    };
    (start, end)
}

/// A range, or none where a bound is none.
pub(crate) fn range(words: &str) -> Option<FileRange> {
    let (start, end) = cut(words);
    match (number(start), number(end)) {
        (Some(start), Some(end)) => Some(FileRange::new(start, end)),
        _ => None,
    }
}
