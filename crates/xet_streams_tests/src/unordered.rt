//! Pulls of streams whose pieces have their places.
use crate::caching::Cache;
use crate::connections::lent;
use crate::pulled::{is_cancelled, may_raise};
use crate::row::Row;
use crate::told::{put, tell_error, tell_piece};
use bytes::Bytes;
use std::alloc::Global;
use std::sync::Wait;
use xet_blocks::Steady;
use xet_connections::ScriptClient;
use xet_error::Result;
use xet_reconstruct::FileReconstructor;
use xet_streams::{FlagSignal, Step};
use xet_unordered_streams::UnorderedDownloadStream;

/// ` 2'Hello'`: a piece at its place.
fn tell_item(text: &mut String, item: (u64, Bytes)) {
    put(text, ' ');
    put(text, item.0);
    tell_piece(text, item.1.as_slice());
}

/// Adds what a pull answered. Whether it is over.
fn tell_answer(text: &mut String, answer: Result<Step<Option<(u64, Bytes)>>>) -> bool {
    match answer {
        Ok(Step::Pending) => put(text, " ."),
        Ok(Step::Ready(Some(item))) => tell_item(text, item),
        Ok(Step::Ready(None)) => {
            put(text, " -");
            return true;
        }
        Err(error) => {
            tell_error(text, error);
            return true;
        }
    }
    false
}

/// One pull of a row.
fn pull<R: Wait>(
    rt: &R,
    alloc: Global,
    row: Row<'_>,
    stream: &mut UnorderedDownloadStream<Steady>,
    clients: &mut [ScriptClient<'_>],
    cache: &mut Cache,
) -> Result<Step<Option<(u64, Bytes)>>> {
    if !row.has("waits") {
        return stream.next(rt, alloc, clients, cache);
    }
    match stream.blocking_next(rt, alloc, clients, cache) {
        Ok(item) => Ok(Step::Ready(item)),
        Err(error) => Err(error),
    }
}

/// All pulls of a row, whose flag this is.
fn pull_all<R: Wait>(
    rt: &R,
    alloc: Global,
    row: Row<'_>,
    stream: &mut UnorderedDownloadStream<Steady>,
    flag: &FlagSignal,
    clients: &mut [ScriptClient<'_>; 3],
    cache: &mut Cache,
    text: &mut String,
) {
    let mut over = 0u64;
    for number in 0..row.number("pulls", 40) {
        may_raise(row, number, flag);
        if is_cancelled(row, number) {
            stream.cancel();
        }
        let lent = &mut clients[..lent(row, number)];
        let answer = pull(rt, alloc, row, stream, lent, cache);
        if tell_answer(text, answer) {
            over = over.saturating_add(1);
        }
        if over > 1 {
            return;
        }
    }
}

/// Adds the places that were delivered, how many bytes the item has of all that it expects, how many terms wait with
/// how many bytes, and whether it is complete.
fn tell_readers<R: Wait>(rt: &R, text: &mut String, stream: &UnorderedDownloadStream<Steady>) {
    put(text, " |");
    for place in stream.delivered() {
        put(text, ' ');
        put(text, *place);
    }
    put(text, " has ");
    put(text, stream.bytes_completed(rt));
    put(text, '/');
    put(text, stream.total_bytes_expected(rt));
    put(text, " waits ");
    put(text, stream.terms_in_progress());
    put(text, '/');
    put(text, stream.bytes_in_progress());
    put(
        text,
        if stream.is_complete() {
            " complete"
        } else {
            " open"
        },
    );
}

/// What the pulls of this stream tell.
fn play_stream<R: Wait>(
    rt: &R,
    alloc: Global,
    row: Row<'_>,
    stream: &mut UnorderedDownloadStream<Steady>,
    clients: &mut [ScriptClient<'_>; 3],
    cache: &mut Cache,
    text: &mut String,
) {
    stream.start();
    if let Ok(flag) = stream.abort_flag() {
        pull_all(rt, alloc, row, stream, &flag, clients, cache, text);
    }
    if row.has("history") {
        tell_readers(rt, text, stream);
    }
}

/// What the pulls of an unordered stream tell.
pub(crate) fn play_unordered<R: Wait>(
    rt: &R,
    alloc: Global,
    row: Row<'_>,
    wanted: FileReconstructor<Steady>,
    clients: &mut [ScriptClient<'_>; 3],
    cache: &mut Cache,
    text: &mut String,
) {
    if let Ok(mut stream) = wanted.reconstruct_to_unordered_stream(alloc) {
        play_stream(rt, alloc, row, &mut stream, clients, cache, text);
    }
}
