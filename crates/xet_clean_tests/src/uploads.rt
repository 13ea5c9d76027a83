//! Files that are uploaded from their sources.
use crate::answers::{point, refuse};
use crate::files::policy;
use crate::sessions::Session;
use crate::settings::number;
use std::alloc::Global;
use std::sync::Wait;
use xet_base::{List, OutOfMemory, Text};
use xet_pointer::XetFileInfo;
use xet_sinks::{ScriptSource, SourceStep};
use xet_upload::{DataError, FixedCutter};
use xet_upload_files::{UploadFile, upload_files};

/// A file from a scripted source, cut into chunks of one length.
type Upload = UploadFile<ScriptSource, FixedCutter>;

/// `7`, `!`: how many bytes a read gives, or that it fails.
fn step(word: &str) -> SourceStep {
    match number(word) {
        Some(count) => SourceStep::Give(count as usize),
        None => SourceStep::Fail,
    }
}

/// `7,1,!`: how many bytes each read gives, and one that fails.
fn steps(alloc: Global, words: &str) -> Vec<SourceStep> {
    let mut steps = Vec::new(alloc);
    for word in words.split(',') {
        let _ = steps.push(step(word));
    }
    steps
}

/// `13 sha 7,1 Hello, world! And more.`: a file of so many bytes of a source with this text that follows these steps.
fn file(alloc: Global, words: &str) -> Result<Upload, OutOfMemory> {
    let (length, words) = words.split_once(' ').unwrap_or((words, ""));
    let (sha256, words) = words.split_once(' ').unwrap_or((words, ""));
    let (reads, text) = words.split_once(' ').unwrap_or((words, ""));
    let bytes = Vec::from_slice(alloc, text.as_bytes())?;
    Ok(UploadFile {
        name: Text::from_string(String::new(alloc)),
        source: ScriptSource::new(bytes, steps(alloc, reads)),
        length: number(length).unwrap_or(0),
        sha256: policy(sha256),
        cutter: FixedCutter { size: 5 },
    })
}

/// Files with `+` between them.
fn files(alloc: Global, words: &str) -> Vec<Upload> {
    let mut files = Vec::new(alloc);
    for words in words.split('+') {
        if let Ok(file) = file(alloc, words) {
            let _ = files.push(file);
        }
    }
    files
}

/// Writes the pointers of an upload.
fn say_uploaded(out: &mut String, answer: Result<List<XetFileInfo>, DataError>) {
    match answer {
        Ok(infos) => {
            for info in infos.as_slice() {
                point(out, info);
            }
        }
        Err(error) => refuse(out, error),
    }
}

/// Uploads files, and writes their pointers.
pub fn upload<W: Wait>(
    rt: &W,
    alloc: Global,
    session: &mut Session,
    out: &mut String,
    words: &str,
) {
    let mut files = files(alloc, words);
    say_uploaded(
        out,
        upload_files(session, rt, alloc, files.as_mut_slice(), 0),
    );
}
