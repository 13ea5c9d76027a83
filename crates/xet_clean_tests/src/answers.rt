//! Answers as text.
use crate::sessions::Session;
use xet_pointer::XetFileInfo;
use xet_upload::DataError;
use xet_uploader::Put;

/// Writes a number.
pub fn say(out: &mut String, number: u64) {
    let _ = write!(out, " {number}");
}

/// Writes numbers.
pub fn say_each(out: &mut String, numbers: &[u64]) {
    for number in numbers {
        say(out, *number);
    }
}

/// Writes why a call was refused.
pub fn refuse(out: &mut String, error: DataError) {
    let _ = write!(out, " {error:?}");
}

/// Writes 0 where a call was made, or why it was refused.
pub fn done(out: &mut String, answer: Result<(), DataError>) {
    match answer {
        Ok(()) => say(out, 0),
        Err(error) => refuse(out, error),
    }
}

/// Writes these numbers of a yes and of a no, or why there is none.
pub fn decided(out: &mut String, answer: Result<bool, DataError>, yes: u64, no: u64) {
    match answer {
        Ok(true) => say(out, yes),
        Ok(false) => say(out, no),
        Err(error) => refuse(out, error),
    }
}

/// Writes a pointer: the file's hash, its size, and its SHA-256 where one is recorded.
pub fn point(out: &mut String, info: &XetFileInfo) {
    let _ = write!(out, " {} {}", info.hash(), info.file_size().unwrap_or(0));
    if let Some(sha256) = info.sha256() {
        let _ = write!(out, " {sha256}");
    }
}

/// Writes the session's puts, a letter each: `x` for a xorb, `s` for records; and ends an answer.
pub fn end_answer(out: &mut String, session: &Session) {
    let log = session.uploader().log();
    if log.len() > 0 {
        let _ = out.push_str(" ");
    }
    for put in log {
        let _ = match put {
            Put::Xorb(_) => out.push_str("x"),
            Put::Shard(_) => out.push_str("s"),
        };
    }
    let _ = out.push_str(";");
}
