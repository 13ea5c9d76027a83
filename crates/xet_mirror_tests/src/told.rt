//! What a mirror came to, as text. Where memory is refused a text lacks what was to be added.
use std::process::Abort;
use xet_base::{MDBFileInfo, MerkleHash, StoredTerm};
use xet_mirror::{MirrorError, MirrorReport};
use xet_store::{KeptFile, MemStore, StoredXorb};
use xet_uploader::Put;

/// Adds what a call answered: the counts of a report, or an error with its place or the first byte of its hash.
pub(crate) fn tell_answer(text: &mut String, answer: &Result<MirrorReport, MirrorError>) {
    let _ = match answer {
        Ok(report) => write!(
            text,
            "files {} {} xorbs {} {} bytes {}",
            report.files_copied,
            report.files_present,
            report.xorbs_sent,
            report.xorbs_present,
            report.bytes_sent
        ),
        Err(error) => tell_error(text, *error),
    };
}

// Adds an error.
fn tell_error(text: &mut String, error: MirrorError) -> Result<(), std::alloc::AllocError> {
    match error {
        MirrorError::FileMissing { place } => write!(text, "{error} {place}"),
        MirrorError::XorbMissing { xorb } => write!(text, "{error} {}", xorb.0[0]),
        MirrorError::BadTerm { place, entry } => write!(text, "{error} {place} {entry}"),
        MirrorError::HashDiffers { xorb } => write!(text, "{error} {}", xorb.0[0]),
        MirrorError::OutOfMemory => write!(text, "{error}"),
        MirrorError::ClientError => write!(text, "{error}"),
    }
}

/// Adds a log: `x` for a xorb, `f` for a record of one file, `?` for another; and whether it is in order.
pub(crate) fn tell_log(text: &mut String, log: &[Put]) {
    for put in log {
        let _ = match put {
            Put::Xorb(_) => text.push_str(" x"),
            Put::Shard(shard) if shard.files.len() == 1 => text.push_str(" f"),
            Put::Shard(_) => text.push_str(" ?"),
        };
    }
    if !is_ordered(log) {
        let _ = text.push_str(" unordered");
    }
}

// Whether a xorb is among the puts.
fn is_put(log: &[Put], xorb: &MerkleHash) -> bool {
    log.iter().any(|put| match put {
        Put::Xorb(sent) => sent.hash.is_same(xorb),
        Put::Shard(_) => false,
    })
}

// Whether each xorb that the record names is among the puts.
fn names_puts(log: &[Put], file: &MDBFileInfo) -> bool {
    file.entries
        .as_slice()
        .iter()
        .all(|entry| is_put(log, &entry.xorb))
}

// Whether no record stands before a xorb that it names.
fn is_ordered(log: &[Put]) -> bool {
    for (place, put) in log.iter().enumerate() {
        if let Put::Shard(shard) = put
            && !shard
                .files
                .as_slice()
                .iter()
                .all(|file| names_puts(&log[..place], file))
        {
            return false;
        }
    }
    true
}

/// Adds a store: each xorb by the first byte of its hash and its chunks, each file by that byte and its terms.
pub(crate) fn tell_store(text: &mut String, store: &MemStore) {
    for xorb in store.xorbs() {
        tell_xorb(text, xorb);
    }
    tell_files(text, store.files());
}

// Adds a xorb, whose chunks are text.
fn tell_xorb(text: &mut String, xorb: &StoredXorb) {
    let _ = write!(text, " x{}", xorb.hash().0[0]);
    for chunk in 0..xorb.chunk_count() {
        if let Ok(bytes) = xorb.bytes_of(chunk, chunk + 1) {
            let _ = write!(text, "|{}", str::from_utf8(bytes.as_slice()).unwrap_or("?"));
        }
    }
}

// Adds files.
fn tell_files(text: &mut String, files: &[KeptFile]) {
    for file in files {
        let _ = write!(text, " f{}", file.hash().0[0]);
        tell_terms(text, file.terms());
    }
}

// Adds terms.
fn tell_terms(text: &mut String, terms: &[StoredTerm]) {
    for term in terms {
        let _ = write!(text, " {}:{}-{}", term.xorb.0[0], term.from, term.to);
    }
}

/// The one place where what was told is compared.
pub(crate) fn comes_to(rt: &impl Abort, row: &str, told: &str, wanted: &str) {
    assert!(rt; told == wanted, "{row}\n{told}");
}
