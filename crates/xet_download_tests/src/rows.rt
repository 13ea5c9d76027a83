//! Rows: calls of a new session over the worked store, and what each answers.
use crate::calls::{Session, call};
use crate::streams::Streams;
use crate::words::put;
use std::alloc::Global;
use std::process::Abort;
use std::sync::{Arc, Wait};
use std::thread::Threads;
use xet_base::{IdSource, OutOfMemory};
use xet_connections::MemClient;
use xet_download::FileDownloadSession;
use xet_events::{BudgetBook, BudgetSettings};
use xet_outside::NoCache;
use xet_store::MemStore;
use xet_store::worked::worked_store;
use xet_terms::ReconstructionConfig;

/// The limit is 1 where no download runs, and 5 more for each that runs.
const SETTINGS: BudgetSettings = BudgetSettings {
    base: 1,
    per_file: 5,
    limit: 22,
};

/// A session over this store, whose first id has this number.
pub(crate) fn session<'a>(
    alloc: Global,
    store: &'a MemStore,
    first: u64,
) -> Result<Session<'a>, OutOfMemory> {
    let mut clients = Vec::new(alloc);
    clients.push(MemClient::new(alloc, store))?;
    let config = ReconstructionConfig::new();
    FileDownloadSession::from_client(alloc, clients, NoCache, config, IdSource::new(first))
}

/// The same with this book.
fn session_with<'a>(
    alloc: Global,
    store: &'a MemStore,
    first: u64,
    book: &Arc<BudgetBook>,
) -> Result<Session<'a>, OutOfMemory> {
    let shared = Arc::try_clone(book)?;
    Ok(session(alloc, store, first)?.with_budget_book(shared))
}

/// A book in which no download runs.
fn new_book(alloc: Global) -> Result<Arc<BudgetBook>, OutOfMemory> {
    Ok(Arc::new(alloc, BudgetBook::new(alloc, SETTINGS)?)?)
}

/// Adds what a new session with this book answers to a script.
fn play_over<R: Threads + Wait + Sync>(
    rt: &R,
    alloc: Global,
    store: &MemStore,
    first: u64,
    book: &Arc<BudgetBook>,
    text: &mut String,
    script: &str,
) {
    let mut streams = Streams {
        ordered: Vec::new(alloc),
        unordered: Vec::new(alloc),
    };
    if let Ok(mut session) = session_with(alloc, store, first, book) {
        for words in script.split("; ") {
            call(rt, alloc, &mut session, &mut streams, book, text, words);
            put(text, ";");
        }
    }
}

/// What a new session with a new book answers to a script.
fn played<R: Threads + Wait + Sync>(
    rt: &R,
    alloc: Global,
    store: &MemStore,
    first: u64,
    script: &str,
) -> String {
    let mut text = String::new(alloc);
    if let Ok(book) = new_book(alloc) {
        play_over(rt, alloc, store, first, &book, &mut text, script);
    }
    text
}

/// Asserts what each row comes to.
fn play_each<R: Abort + Threads + Wait + Sync>(
    rt: &R,
    alloc: Global,
    store: &MemStore,
    first: u64,
    rows: &str,
) {
    for line in rows.lines() {
        let (script, wanted) = line.split_once(" => ").unwrap_or((line, "no answers"));
        let told = played(rt, alloc, store, first, script);
        assert!(rt; told.as_str() == wanted, "{script}: {told}");
    }
}

/// Plays rows over the worked store.
fn play_all<R: Abort + Threads + Wait + Sync>(rt: &R, alloc: Global, first: u64, rows: &str) {
    let store = worked_store(alloc).unwrap_or(MemStore::new(alloc));
    play_each(rt, alloc, &store, first, rows);
}

/// Calls and their answers: the file of 64 `a` has the bytes `Hello, world!`, that of `b` has
/// `world!HelloHello, world`, that of `f` isn't stored, and `z` spells no hash.
const ROWS: &str = "\
write a - 5 100; item 1 => SizeMismatch { expected: 95, actual: 8 } , world! 6 1; 8 of 95;
write a 13 5 8; item 1 => 1: 3 , w 6 1; 3 of 3;
write a 13 - -; item 1; report => 1: 13 Hello, world! 6 1; 13 of 13;13 of 13;
write a 99 - - => SizeMismatch { expected: 99, actual: 13 } Hello, world! 6 1;
write a - ~4 ~9; write a - 4 12 => 1: 5 , wor 6 1;2: 8 o, world 6 1;
write a 99 0 18446744073709551615 => SizeMismatch { expected: 99, actual: 13 } Hello, world! 6 1;
write a - ~18446744073709551615 ~18446744073709551615 => 1: 0  0 1;
write a 99 5 -; write a 99 7 9 => 1: 8 , world! 6 1;2: 2 wo 6 1;
write f - - - => FileReconstructionError(FileNotFound)  0 1;
file a 13 hello; item 1 => 1: 13 Hello, world! 6 1;hello 13 of 13;
file a 12 hello; item 2 => SizeMismatch { expected: 12, actual: 13 } Hello, world! 6 1;no item;
stream a 13 5 8; next 0; item 1 => 1;, w;stream 3 of 3;
stream a 13 - -; next 0; item 1 => 1;Hello, world!;stream 13 of 13;
unordered b - 7 11; take 0; item 1 => 1;0 ello;unordered_stream 4 of 4;
stream f - - -; next 0 => 1;error;";

#[test]
fn downloads_are_written_and_reported(rt: HostRuntime) {
    play_all(&rt, rt.alloc(), 1, ROWS);
}

/// The same where no id is left.
const REFUSED: &str = "\
write z - 7 3; end; write z - 7 3 => InvalidOperation(ReversedRange { start: 7, end: 3 })  0 1;Ok(());\
InvalidOperation(Finalized)  0 1;
write z - 3 7; write a - 3 7 => HashStringParsingFailure  0 1;InvalidOperation(IdsUsedUp)  0 1;
file z - x; file a - x => HashStringParsingFailure  0 1;InvalidOperation(IdsUsedUp)  0 1;
stream z - 7 3; stream z - 3 7; stream a - 3 7 => InvalidOperation(ReversedRange { start: 7, end: 3 });\
HashStringParsingFailure;InvalidOperation(IdsUsedUp);
end; stream z - 7 3; unordered z - 7 3 => Ok(());InvalidOperation(Finalized);InvalidOperation(Finalized);
end; file z - x; end => Ok(());InvalidOperation(Finalized)  0 1;Err(InvalidOperation(Finalized));";

#[test]
fn refusals_come_in_their_order(rt: HostRuntime) {
    play_all(&rt, rt.alloc(), u64::MAX, REFUSED);
}

/// The limits that a book has while a download runs and after it.
const COUNTED: &str = "\
write a 13 - - => 1: 13 Hello, world! 6 1;
write a 99 - - => SizeMismatch { expected: 99, actual: 13 } Hello, world! 6 1;
write f - - - => FileReconstructionError(FileNotFound)  0 1;
file a 13 file => 1: 13 Hello, world! 6 1;
file a 99 file => SizeMismatch { expected: 99, actual: 13 } Hello, world! 6 1;
file f - file => FileReconstructionError(FileNotFound)  0 1;
job a 13 job => 1: 13 Hello, world! 6 1;
job a 99 job => SizeMismatch { expected: 99, actual: 13 } Hello, world! 6 1;
job f - job => FileReconstructionError(FileNotFound)  0 1;";

#[test]
fn a_book_counts_a_download_while_it_runs(rt: HostRuntime) {
    play_all(&rt, rt.alloc(), 1, COUNTED);
}

/// Three streams, of which the second is unregistered, after the first gave a piece.
const ENDED: &str = "\
stream b - - -; next 0; part b - 1 8; unordered b - - -; limit; keep 2; keep 2; abort; next 0; next 1; take 0 => \
1;world!;2;3;16;11;11;11;none;orld!;none;";

#[test]
fn an_unregistered_stream_goes_on_and_others_end(rt: HostRuntime) {
    play_all(&rt, rt.alloc(), 1, ENDED);
}
