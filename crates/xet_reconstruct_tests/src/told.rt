//! What rows come to, as text. Where memory is refused a text lacks what was to be added.
use crate::script::hash;
use std::fmt::Display;
use std::process::Abort;
use xet_base::MerkleHash;
use xet_blocks::{Corruption, FileReconstructionError, Result};
use xet_outside::BlockRequest;

/// What stands before the first of these, and what behind it: where there is none, all and nothing.
pub(crate) fn cut<'a>(text: &'a str, at: &str) -> (&'a str, &'a str) {
    text.split_once(at).unwrap_or((text, ""))
}

/// Adds a word or a number.
pub(crate) fn put<T: Display + Drop>(text: &mut String, value: T) {
    let _ = write!(text, "{value}");
}

/// Adds a number behind a mark.
pub(crate) fn put_behind(text: &mut String, mark: char, number: u64) {
    put(text, mark);
    put(text, number);
}

/// `0..4`: a range of these ends.
pub(crate) fn put_range<T: Display + Drop>(text: &mut String, start: T, end: T) {
    put(text, start);
    put(text, "..");
    put(text, end);
}

/// `Ranges 1 0`: a xorb's bad entry, with the number of the xorb's hash, and a mark where that is no number's hash.
fn tell_entry(text: &mut String, xorb: MerkleHash, entry: usize) {
    put(text, "Ranges ");
    put(text, xorb.0[0]);
    if xorb != hash(xorb.0[0]) {
        put(text, '?');
    }
    put(text, ' ');
    put(text, entry);
}

/// An error, a failed test with its numbers, or a xorb's bad entry.
pub(crate) fn tell_error(text: &mut String, error: FileReconstructionError) {
    let _ = match error {
        FileReconstructionError::CorruptedReconstruction(Corruption::Ranges { xorb, entry }) => {
            return tell_entry(text, xorb, entry);
        }
        FileReconstructionError::CorruptedReconstruction(fault) => write!(text, "{fault:?}"),
        error => write!(text, "{error:?}"),
    };
}

/// `ok`, or the error.
pub(crate) fn tell_answer(text: &mut String, answer: Result<()>) {
    match answer {
        Ok(()) => put(text, "ok"),
        Err(error) => tell_error(text, error),
    }
}

/// ` !a 1.0 b0`: the URL, the acquisition and the block's number of a request.
fn tell_asked(text: &mut String, request: &BlockRequest) {
    put(text, " !");
    put(text, request.url.as_str());
    put(text, ' ');
    put(text, request.acquisition.plan);
    put(text, '.');
    put(text, request.acquisition.refresh);
    put(text, " b");
    put(text, request.index);
}

/// ` !a 1.0 b0 4..7@40..70`: a request by its URL, its acquisition, the block's number, and each range with its bytes.
pub(crate) fn tell_request(text: &mut String, request: &BlockRequest) {
    tell_asked(text, request);
    let ranges = request.chunks.as_slice().iter();
    for (chunks, bytes) in ranges.zip(request.bytes.as_slice()) {
        put(text, ' ');
        put_range(text, chunks.start, chunks.end);
        put(text, '@');
        put_range(text, bytes.start, bytes.end);
    }
}

/// Asserts what a row comes to.
pub(crate) fn comes_to(rt: &impl Abort, row: &str, told: String, wanted: &str) {
    assert!(rt; told.as_str() == wanted, "{row}\n{told}");
}
