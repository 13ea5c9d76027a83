//! Each put failing in turn: the log is in order, and a call that is repeated over what is there ends with the store of
//! an unbroken one.
use crate::caller::mirror_until_done;
use crate::told::{comes_to, tell_answer, tell_log, tell_store};
use std::alloc::Global;
use std::process::Abort;
use xet_mirror::mirror_files;
use xet_shelves::{MemShelf, MemTarget};
use xet_store::MemStore;
use xet_store::worked::{FILE_OF_ALL, FILE_OF_NOTHING, FILE_OF_REPEATS, worked_store};

/// The number of the put that fails; what the first call came to, with its log, and the caller that repeats it.
const ROWS: [(u64, &str); 5] = [
    (0, "ClientError; files 3 0 xorbs 1 0 bytes 13"),
    (1, "ClientError x; files 3 0 xorbs 0 1 bytes 0"),
    (2, "ClientError x f; files 2 1 xorbs 0 1 bytes 0"),
    (3, "ClientError x f f; files 1 2 xorbs 0 0 bytes 0"),
    (
        4,
        "files 3 0 xorbs 1 0 bytes 13 x f f f; files 0 3 xorbs 0 0 bytes 0",
    ),
];

/// The store at the end of an unbroken call.
const COPIED: &str = " x17|Hello|, |world|! f170 17:0-4 f187 17:2-4 17:0-1 17:0-3 f204";

// What a first call came to, and what a caller that repeats it.
fn tell_both(alloc: Global, shelf: &mut MemShelf, target: &mut MemTarget, text: &mut String) {
    let files = [FILE_OF_ALL, FILE_OF_REPEATS, FILE_OF_NOTHING];
    tell_answer(text, &mirror_files(alloc, shelf, target, &files, false));
    tell_log(text, target.log());
    let _ = text.push_str("; ");
    tell_answer(text, &mirror_until_done(alloc, shelf, target, &files));
}

// The store at a target's end.
fn tell_end(alloc: Global, target: MemTarget, end: &mut String) {
    if let Ok(Some(store)) = target.into_store(alloc) {
        tell_store(end, &store);
    }
}

// Both, of an empty target whose put with this number fails.
fn tell_run(alloc: Global, fails: u64, text: &mut String, end: &mut String) {
    let store = worked_store(alloc).unwrap_or(MemStore::new(alloc));
    let mut shelf = MemShelf::new(store);
    if let Ok(fails) = Vec::from_slice(alloc, &[fails]) {
        let mut target = MemTarget::new(alloc, MemStore::new(alloc), fails);
        tell_both(alloc, &mut shelf, &mut target, text);
        tell_end(alloc, target, end);
    }
}

// Compares a row.
fn holds(rt: &impl Abort, alloc: Global, fails: u64, wanted: &str) {
    let mut text = String::new(alloc);
    let mut end = String::new(alloc);
    tell_run(alloc, fails, &mut text, &mut end);
    comes_to(rt, "a failing put", text.as_str(), wanted);
    comes_to(rt, "the store at the end", end.as_str(), COPIED);
}

#[test]
fn each_put_may_fail(rt: HostRuntime) {
    let alloc = rt.alloc();
    for (fails, wanted) in ROWS {
        holds(&rt, alloc, fails, wanted);
    }
}
