//! Streams of rows over the worked store, and what their pulls answer.
use crate::caching::Cache;
use crate::connections::{connections, lent};
use crate::histories::tell_history;
use crate::row::Row;
use crate::told::{comes_to, cut, put, tell_error, tell_piece};
use crate::unordered::play_unordered;
use bytes::Bytes;
use std::alloc::Global;
use std::process::Abort;
use std::sync::{Arc, Wait};
use xet_base::OutOfMemory;
use xet_blocks::Steady;
use xet_connections::ScriptClient;
use xet_error::Result;
use xet_progress::ItemProgressUpdater;
use xet_reconstruct::FileReconstructor;
use xet_run::{BookView, BudgetBook, BudgetSettings};
use xet_store::MemStore;
use xet_store::worked::worked_store;
use xet_streams::{DownloadStream, FlagSignal, Step};

/// How many pulls a row makes at most, where it doesn't say.
const MOST_PULLS: u64 = 40;

/// A view of a book with one download, of this limit.
fn book<R: Wait>(
    rt: &R,
    alloc: Global,
    per_file: u64,
) -> std::result::Result<BookView, OutOfMemory> {
    let settings = BudgetSettings {
        base: 0,
        per_file,
        limit: u64::MAX,
    };
    let book = BudgetBook::new(alloc, settings)?;
    book.start(rt);
    Ok(BookView::new(Arc::new(alloc, book)?))
}

/// The reconstruction of a row, which reports to nobody and has the limit of its settings.
fn plain(row: Row<'_>) -> FileReconstructor<Steady> {
    FileReconstructor::new(row.file(), Steady { size: 0 })
        .with_byte_range(row.range())
        .with_config(&row.config())
}

/// The reconstruction of a row, which reports to the updater.
fn wanted<R: Wait>(
    rt: &R,
    alloc: Global,
    row: Row<'_>,
    updater: Option<&ItemProgressUpdater>,
) -> std::result::Result<FileReconstructor<Steady>, OutOfMemory> {
    match updater {
        Some(updater) => {
            let shared = updater.share()?;
            Ok(plain(row).with_progress_updater(shared))
        }
        None if row.has("book") => {
            let view = book(rt, alloc, row.number("book", 0))?;
            Ok(plain(row).with_budget_book(view))
        }
        None => Ok(plain(row)),
    }
}

/// Raises the flag, where this is the pull before which the row does.
pub(crate) fn may_raise(row: Row<'_>, pull: u64, flag: &FlagSignal) {
    if row.number("raise", u64::MAX) == pull {
        flag.raise();
    }
}

/// Whether this is the pull before which the row cancels the stream.
pub(crate) fn is_cancelled(row: Row<'_>, pull: u64) -> bool {
    row.number("cancel", u64::MAX) == pull
}

/// Adds what a pull answered: a dot where nothing is there yet, a hyphen where there is no more. Whether it is over.
fn tell_answer(text: &mut String, answer: Result<Step<Option<Bytes>>>) -> bool {
    match answer {
        Ok(Step::Pending) => put(text, " ."),
        Ok(Step::Ready(Some(piece))) => tell_piece(text, piece.as_slice()),
        Ok(Step::Ready(None)) => {
            put(text, " -");
            return true;
        }
        Err(error) => {
            tell_error(text, error);
            return true;
        }
    }
    false
}

/// One pull of a row.
fn pull<R: Wait>(
    rt: &R,
    alloc: Global,
    row: Row<'_>,
    stream: &mut DownloadStream<Steady>,
    clients: &mut [ScriptClient<'_>],
    cache: &mut Cache,
) -> Result<Step<Option<Bytes>>> {
    if !row.has("waits") {
        return stream.next(rt, alloc, clients, cache);
    }
    match stream.blocking_next(rt, alloc, clients, cache) {
        Ok(piece) => Ok(Step::Ready(piece)),
        Err(error) => Err(error),
    }
}

/// All pulls of a row, whose flag this is.
fn pull_all<R: Wait>(
    rt: &R,
    alloc: Global,
    row: Row<'_>,
    stream: &mut DownloadStream<Steady>,
    flag: &FlagSignal,
    clients: &mut [ScriptClient<'_>; 3],
    cache: &mut Cache,
    text: &mut String,
) {
    let mut over = 0u64;
    for number in 0..row.number("pulls", MOST_PULLS) {
        may_raise(row, number, flag);
        if is_cancelled(row, number) {
            stream.cancel();
        }
        let lent = &mut clients[..lent(row, number)];
        let answer = pull(rt, alloc, row, stream, lent, cache);
        if tell_answer(text, answer) {
            over = over.saturating_add(1);
        }
        if over > 1 {
            return;
        }
    }
}

/// What the pulls of this stream tell.
fn play_stream<R: Wait>(
    rt: &R,
    alloc: Global,
    row: Row<'_>,
    stream: &mut DownloadStream<Steady>,
    clients: &mut [ScriptClient<'_>; 3],
    cache: &mut Cache,
    text: &mut String,
) {
    stream.start();
    if let Ok(flag) = stream.abort_flag() {
        pull_all(rt, alloc, row, stream, &flag, clients, cache, text);
    }
    if row.has("history") {
        tell_history(text, stream.history());
    }
}

/// What the pulls of an ordered stream tell.
fn play_ordered<R: Wait>(
    rt: &R,
    alloc: Global,
    row: Row<'_>,
    wanted: FileReconstructor<Steady>,
    clients: &mut [ScriptClient<'_>; 3],
    cache: &mut Cache,
    text: &mut String,
) {
    if let Ok(mut stream) = wanted.reconstruct_to_stream(alloc) {
        play_stream(rt, alloc, row, &mut stream, clients, cache, text);
    }
}

/// What the pulls of a stream tell, over this store.
fn play<R: Wait>(
    rt: &R,
    alloc: Global,
    row: Row<'_>,
    store: &MemStore,
    wanted: FileReconstructor<Steady>,
    text: &mut String,
) {
    let mut clients = connections(alloc, row, store);
    let mut cache = Cache::new(alloc, row);
    if row.has("unordered") {
        play_unordered(rt, alloc, row, wanted, &mut clients, &mut cache, text);
    } else {
        play_ordered(rt, alloc, row, wanted, &mut clients, &mut cache, text);
    }
}

/// What the stream of a row that reports to the updater tells, which is nothing where memory is wanting for it.
pub(crate) fn played<R: Wait>(
    rt: &R,
    alloc: Global,
    row: Row<'_>,
    updater: Option<&ItemProgressUpdater>,
) -> String {
    let mut text = String::new(alloc);
    if let Ok(store) = worked_store(alloc)
        && let Ok(wanted) = wanted(rt, alloc, row, updater)
    {
        play(rt, alloc, row, &store, wanted, &mut text);
    }
    text
}

/// Plays each line's row, which comes to what stands behind the colon.
pub(crate) fn come_to<R: Wait + Abort>(rt: &R, alloc: Global, lines: &str) {
    for line in lines.lines() {
        let (text, wanted) = cut(line, ": ");
        let row = Row { text };
        assert!(rt; row.is_known(), "{text}");
        comes_to(rt, text, played(rt, alloc, row, None), wanted);
    }
}
