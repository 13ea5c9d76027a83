//! Ranges that are fetched into a file that fails once: the errors, what the rest asks for, and what the file holds
//! once nothing is missing.
use crate::caller::fetch_rest;
use crate::connection::Connection;
use crate::failing_file::FailingFile;
use crate::told::{comes_to, put, put_range};
use std::alloc::Global;
use std::process::Abort;
use std::sync::Wait;
use std::thread::Threads;
use xet_base::{FileRange, MerkleHash};
use xet_connections::MemClient;
use xet_outside::{NeverCancel, NoCache};
use xet_resume::{GapRecord, ResumeError, fetch_range};
use xet_store::MemStore;
use xet_store::worked::{FILE_OF_ALL, FILE_OF_REPEATS, worked_store};
use xet_terms::ReconstructionConfig;

/// A file of the worked store, and the ranges that are fetched before the rest.
#[derive(Clone, Copy)]
struct Row {
    file: MerkleHash,
    content: &'static str,
    ranges: [(u64, u64); 2],
}

/// Adds an error.
fn tell<T: Drop>(text: &mut String, answer: Result<T, ResumeError>) {
    if let Err(error) = answer {
        let _ = write!(text, "{error:?}: ");
    }
}

/// Fetches the ranges, and adds each error.
fn fetch_ranges<R: Threads + Wait + Sync>(
    rt: &R,
    alloc: Global,
    row: Row,
    gaps: &mut GapRecord,
    clients: &mut [MemClient<'_>],
    file: &mut FailingFile,
    text: &mut String,
) {
    let config = ReconstructionConfig::new();
    for (start, end) in row.ranges {
        let range = FileRange::new(start, end);
        let answer = fetch_range(
            rt,
            alloc,
            gaps,
            range,
            &config,
            clients,
            &mut NoCache,
            &mut NeverCancel,
            file,
        );
        tell(text, answer);
    }
}

/// Adds a gap in pieces of four bytes, the last one maybe shorter.
fn put_pieces(text: &mut String, gap: FileRange) {
    for number in 0..gap.end.saturating_sub(gap.start).div_ceil(4) {
        let start = gap.start.saturating_add(number.saturating_mul(4));
        let end = start.saturating_add(4).min(gap.end);
        put_range(text, FileRange { start, end });
    }
}

/// What is missing, as the caller that fetches the rest asks for it where nothing fails: each byte once.
fn pieces_of(alloc: Global, gaps: &GapRecord) -> String {
    let mut text = String::new(alloc);
    for gap in gaps.gaps() {
        put_pieces(&mut text, *gap);
    }
    text
}

/// Fetches the rest over a connection of its own, and adds the error. Where nothing fails each missing byte is asked
/// for once and no other byte at all; else what was asked for is added.
fn fetch_missing<R: Threads + Wait + Sync>(
    rt: &R,
    alloc: Global,
    store: &MemStore,
    gaps: &mut GapRecord,
    file: &mut FailingFile,
    text: &mut String,
) {
    let missing = pieces_of(alloc, gaps);
    let mut clients = [Connection::new(alloc, store)];
    let rest = fetch_rest(rt, alloc, gaps, &mut clients, &mut NoCache, file);
    let asked = clients[0].asked.as_str();
    if rest.is_ok() && asked != missing.as_str() {
        put(text, "asked for ");
        put(text, asked);
    }
    tell(text, rest);
}

/// What a row tells over a file that fails at this call: each error, and the file's content; `unfinished` where the
/// record says so.
fn told<R: Threads + Wait + Sync>(rt: &R, alloc: Global, row: Row, fails: u32) -> String {
    let mut text = String::new(alloc);
    let store = worked_store(alloc).unwrap_or(MemStore::new(alloc));
    let mut file = FailingFile::new(alloc, fails);
    let Ok(mut gaps) = GapRecord::new(alloc, row.file, row.content.len() as u64) else {
        return text;
    };
    let clients = &mut [MemClient::new(alloc, &store)];
    fetch_ranges(rt, alloc, row, &mut gaps, clients, &mut file, &mut text);
    fetch_missing(rt, alloc, &store, &mut gaps, &mut file, &mut text);
    put(
        &mut text,
        str::from_utf8(file.content()).unwrap_or("no text"),
    );
    if !gaps.is_done() {
        put(&mut text, " unfinished");
    }
    text
}

/// A file that fails at any of so many calls tells it once, and holds all bytes in the end. Where none fails there are
/// no more calls than these.
fn holds<R: Threads + Wait + Sync + Abort>(
    rt: &R,
    alloc: Global,
    row: Row,
    calls: u32,
    failed: &str,
) {
    for call in 0..calls {
        let errors = told(rt, alloc, row, call);
        comes_to(rt, row.content, errors.as_str(), failed);
    }
    let content = told(rt, alloc, row, calls);
    comes_to(rt, row.content, content.as_str(), row.content);
}

#[test]
fn each_call_of_the_file_may_fail(rt: HostRuntime) {
    let all = Row {
        file: FILE_OF_ALL,
        content: "Hello, world!",
        ranges: [(9, 13), (0, 5)],
    };
    holds(&rt, rt.alloc(), all, 9, "Run(IoError): Hello, world!");
    let repeats = Row {
        file: FILE_OF_REPEATS,
        content: "world!HelloHello, world",
        ranges: [(4, 20), (0, 23)],
    };
    holds(
        &rt,
        rt.alloc(),
        repeats,
        12,
        "Run(IoError): world!HelloHello, world",
    );
}
