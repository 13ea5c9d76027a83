//! Calls of a session of downloads, each by its words, and what they answer as text.
//!
//! | call | what it does |
//! |---|---|
//! | `write a 13 5 8` | `download_to_writer` of the file of 64 `a` and this declared size, from byte 5 to before 8 |
//! | `file a 13 name` | `download_file` of it, with this name |
//! | `job a 13 name` | `download_file_background` of it, whose job is run then |
//! | `stream a 13 5 8` | `download_stream` |
//! | `part a 13 5 8` | `download_stream_range` |
//! | `unordered a 13 5 8` | `download_unordered_stream` |
//! | `next 0` | the next piece of the first ordered stream |
//! | `take 0` | the next piece of the first unordered stream, behind its place |
//! | `item 1` | `item_report` of the item of this id |
//! | `report` | `report` |
//! | `keep 1` | `unregister_stream_abort_callback` of this id |
//! | `abort` | `abort_active_streams` |
//! | `limit` | nothing |
//! | `end` | `finalize` |
//!
//! In place of a size and of a bound `-` stands for none. A bound with `~` is a start that is left out, or an end that
//! is in the range. A call's first letter tells which it is. The first three tell the id and the count, or the error;
//! the bytes that were taken; and the limit of the session's book at the last write and after the call. `keep`, `abort`
//! and `limit` tell that limit too.
use crate::streams::{Streams, open, pull, pull_unordered};
use crate::watching::Watching;
use crate::words::{bounds, cut, info, number, put};
use std::alloc::Global;
use std::sync::Wait;
use std::thread::Threads;
use xet_base::{OutOfMemory, UniqueID};
use xet_connections::MemClient;
use xet_download::FileDownloadSession;
use xet_events::BudgetBook;
use xet_outside::NoCache;
use xet_pointer::XetFileInfo;
use xet_progress::{GroupProgressReport, ItemProgressReport};
use xet_sinks::MemFile;
use xet_upload::DataError;

/// A session over a store in memory.
pub(crate) type Session<'a> = FileDownloadSession<MemClient<'a>, NoCache>;

/// Begins a download of a whole file, and runs its job over the session's connections.
fn run_job<R: Threads + Wait + Sync>(
    rt: &R,
    alloc: Global,
    session: &mut Session<'_>,
    info: &XetFileInfo,
    name: &str,
    writer: &mut Watching<'_, R>,
) -> Result<(UniqueID, u64), DataError> {
    match session.download_file_background(rt, alloc, info, name) {
        Ok((id, job)) => {
            let lent = session.parts();
            let clients = lent.clients.as_mut_slice();
            match job.run(rt, alloc, clients, &mut lent.chunk_cache, writer) {
                Ok(count) => Ok((id, count)),
                Err(error) => Err(error),
            }
        }
        Err(error) => Err(error),
    }
}

/// Downloads a file by one of the three calls.
fn download<R: Threads + Wait + Sync>(
    rt: &R,
    alloc: Global,
    session: &mut Session<'_>,
    letter: u8,
    info: &XetFileInfo,
    words: &str,
    writer: &mut Watching<'_, R>,
) -> Result<(UniqueID, u64), DataError> {
    match letter {
        b'w' => session.download_to_writer(rt, alloc, info, bounds(words), writer),
        b'f' => session.download_file(rt, alloc, info, words, writer),
        _ => run_job(rt, alloc, session, info, words, writer),
    }
}

/// Adds the id and the count of a download, or its error.
fn tell(text: &mut String, answer: Result<(UniqueID, u64), DataError>) {
    let _ = match answer {
        Ok((id, count)) => write!(text, "{}: {count} ", id.0),
        Err(error) => write!(text, "{error:?} "),
    };
}

/// Adds the bytes that were taken, and the limits.
fn tell_taken<R: Wait>(rt: &R, book: &BudgetBook, text: &mut String, writer: &Watching<'_, R>) {
    put(text, str::from_utf8(writer.file.content()).unwrap_or("?"));
    let _ = write!(text, " {} {}", writer.limit, book.target(rt));
}

/// Downloads a file, and adds what came of it.
fn fetch<R: Threads + Wait + Sync>(
    rt: &R,
    alloc: Global,
    session: &mut Session<'_>,
    book: &BudgetBook,
    text: &mut String,
    letter: u8,
    words: &str,
) {
    let (hash, rest) = cut(words);
    let (size, rest) = cut(rest);
    let info = info(alloc, hash, size);
    let mut writer = Watching {
        rt,
        book,
        limit: 0,
        file: MemFile::new(alloc, Vec::new(alloc)),
    };
    let answer = download(rt, alloc, session, letter, &info, rest, &mut writer);
    tell(text, answer);
    tell_taken(rt, book, text, &writer);
}

/// Adds a report of an item.
fn tell_item(text: &mut String, item: Result<Option<ItemProgressReport>, OutOfMemory>) {
    match item {
        Ok(Some(item)) => {
            put(text, item.item_name.as_str());
            let _ = write!(text, " {} of {}", item.bytes_completed, item.total_bytes);
        }
        Ok(None) => put(text, "no item"),
        Err(_) => put(text, "no memory"),
    }
}

/// Adds the sums of all items.
fn tell_sums(text: &mut String, sums: GroupProgressReport) {
    let _ = write!(
        text,
        "{} of {}",
        sums.total_bytes_completed, sums.total_bytes
    );
}

/// Makes a call that downloads nothing.
fn ask<R: Wait>(
    rt: &R,
    session: &mut Session<'_>,
    book: &BudgetBook,
    text: &mut String,
    letter: u8,
    number: u64,
) {
    let id = UniqueID(number);
    match letter {
        b'i' => return tell_item(text, session.item_report(rt, id)),
        b'r' => return tell_sums(text, session.report(rt)),
        b'e' => {
            let _ = write!(text, "{:?}", session.finalize());
            return;
        }
        b'k' => session.unregister_stream_abort_callback(rt, id),
        b'a' => session.abort_active_streams(),
        _ => {}
    }
    let _ = write!(text, "{}", book.target(rt));
}

/// Makes one call, and adds what it answers.
pub(crate) fn call<R: Threads + Wait + Sync>(
    rt: &R,
    alloc: Global,
    session: &mut Session<'_>,
    streams: &mut Streams,
    book: &BudgetBook,
    text: &mut String,
    words: &str,
) {
    let &[letter, ..] = words.as_bytes() else {
        return;
    };
    let (_, rest) = cut(words);
    let number = number(rest).unwrap_or(0);
    let place = number as usize;
    match letter {
        b'w' | b'f' | b'j' => fetch(rt, alloc, session, book, text, letter, rest),
        b's' | b'p' | b'u' => open(rt, alloc, session, streams, text, letter, rest),
        b'n' => pull(
            rt,
            alloc,
            session,
            streams.ordered.as_mut_slice(),
            place,
            text,
        ),
        b't' => pull_unordered(
            rt,
            alloc,
            session,
            streams.unordered.as_mut_slice(),
            place,
            text,
        ),
        _ => ask(rt, session, book, text, letter, number),
    }
}
