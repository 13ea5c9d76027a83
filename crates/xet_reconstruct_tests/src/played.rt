//! Runs of rows over the worked store, and what is told of them.
ghost use Rattle.std.specs.Prelude.{◌≤◌};

use crate::cache::Cache;
use crate::connection::Connection;
use crate::crowd::Crowd;
use crate::meter::Meter;
use crate::output::Output;
use crate::row::Row;
use crate::signal::Signal;
use crate::told::{comes_to, cut, put, put_behind, tell_error};
use std::alloc::Global;
use std::process::Abort;
use std::sync::{Arc, Wait};
use std::thread::Threads;
use xet_base::OutOfMemory;
use xet_blocks::Steady;
use xet_error::Result;
use xet_progress::ItemProgressUpdater;
use xet_reconstruct::FileReconstructor;
use xet_run::{BookView, BudgetBook, BudgetSettings, FixedBudget, RunCore};
use xet_store::MemStore;
use xet_store::worked::worked_store;

/// A view of a book with one download, of this limit.
fn book<R: Wait>(
    rt: &R,
    alloc: Global,
    per_file: u64,
) -> std::result::Result<BookView, OutOfMemory> {
    let settings = BudgetSettings {
        base: 0,
        per_file,
        limit: u64::MAX,
    };
    let book = BudgetBook::new(alloc, settings)?;
    book.start(rt);
    Ok(BookView::new(Arc::new(alloc, book)?))
}

/// The reconstruction of a row, which reports to nobody and has the limit of its settings.
fn plain(row: Row<'_>) -> FileReconstructor<Steady> {
    let size = row.number("ahead", 0);
    FileReconstructor::new(row.file(), Steady { size })
        .with_byte_range(row.range())
        .with_config(&row.config())
}

/// The reconstruction of a row, which reports to the updater.
fn wanted<R: Wait>(
    rt: &R,
    alloc: Global,
    row: Row<'_>,
    updater: Option<&ItemProgressUpdater>,
) -> std::result::Result<FileReconstructor<Steady>, OutOfMemory> {
    match updater {
        Some(updater) => {
            let shared = updater.share()?;
            Ok(plain(row).with_progress_updater(shared))
        }
        None if row.has("book") => {
            let view = book(rt, alloc, row.number("book", 0))?;
            Ok(plain(row).with_budget_book(view))
        }
        None => Ok(plain(row)),
    }
}

/// The connections of a row, which has three at most, and behind them others.
fn connections<'a>(
    alloc: Global,
    row: Row<'a>,
    store: &'a MemStore,
    meter: &'a Meter<'a>,
) -> [Connection<'a>; 3] {
    let lanes = row.find("lanes").unwrap_or("");
    let (first, others) = cut(lanes, ",");
    let (second, third) = cut(others, ",");
    [
        Connection::new(alloc, row, first, store, meter),
        Connection::new(alloc, row, second, store, meter),
        Connection::new(alloc, row, third, store, meter),
    ]
}

/// How many connections a row has.
fn count(row: Row<'_>) -> usize
    ensures { result ≤ 3 }
{
    row.find("lanes").unwrap_or("").split(',').count().min(3)
}

/// What a run by a gate answers.
fn gated<R: Threads + Wait + Sync>(
    rt: &R,
    alloc: Global,
    row: Row<'_>,
    wanted: FileReconstructor<Steady>,
    clients: &mut [Connection<'_>],
    cache: &mut Cache,
    output: &mut Output<'_>,
) -> Result<u64> {
    let gate = output.crowd;
    let limit = row.config().download_buffer_size;
    let mut core = RunCore::new(alloc);
    let mut signal = Signal::new(row);
    let mut budget = FixedBudget { limit };
    wanted.run(
        rt,
        alloc,
        &mut core,
        &mut budget,
        gate,
        clients,
        cache,
        &mut signal,
        output,
    )
}

/// What a run answers.
fn answered<R: Threads + Wait + Sync>(
    rt: &R,
    alloc: Global,
    row: Row<'_>,
    wanted: FileReconstructor<Steady>,
    clients: &mut [Connection<'_>],
    cache: &mut Cache,
    output: &mut Output<'_>,
) -> Result<u64> {
    if row.has("meet") {
        return gated(rt, alloc, row, wanted, clients, cache, output);
    }
    let mut signal = Signal::new(row);
    wanted.reconstruct_to_writer(rt, alloc, clients, cache, &mut signal, output)
}

/// Adds `ANSWER 'BYTES'`, the answer being how many bytes there are or the error.
pub(crate) fn tell_answer(text: &mut String, answer: Result<u64>, bytes: &[u8]) {
    match answer {
        Ok(count) => put(text, count),
        Err(error) => tell_error(text, error),
    }
    put(text, " '");
    put(text, str::from_utf8(bytes).unwrap_or("no text"));
    put(text, '\'');
}

/// Adds whether a crowd met, and how many blocks each connection was asked for.
fn tell_crowd(text: &mut String, crowd: &Crowd, clients: &[Connection<'_>; 3]) {
    put(text, if crowd.met() { " met" } else { " alone" });
    for client in clients {
        put(text, ' ');
        put(text, client.blocks);
    }
}

/// Adds whether a meter stood at most at its most, and what it stands at.
fn tell_meter(text: &mut String, meter: &Meter<'_>) {
    put(text, if meter.passed() { " past " } else { " within " });
    put(text, meter.level());
}

/// Adds what a row wants told.
fn tell_wanted(
    text: &mut String,
    what: &str,
    clients: &[Connection<'_>; 3],
    cache: &Cache,
    output: &Output<'_>,
) {
    match what {
        "calls" => put_behind(text, ' ', cache.calls),
        "flushes" => put_behind(text, ' ', output.flushes),
        "requests" => put(text, clients[0].asked.as_str()),
        _ => {}
    }
}

/// Adds what is told where a row wants nothing: of its crowd, of its meter, else how many blocks the first
/// connection was asked for.
fn tell_usual(text: &mut String, row: Row<'_>, clients: &[Connection<'_>; 3], output: &Output<'_>) {
    if row.has("meet") {
        tell_crowd(text, output.crowd, clients);
    } else if row.has("most") {
        tell_meter(text, output.meter);
    } else {
        put_behind(text, '/', clients[0].blocks);
    }
}

/// What is told of a run: its answer, the bytes that were taken, how many plans the first connection was asked for, and
/// what else is told of the row.
fn told(
    alloc: Global,
    row: Row<'_>,
    answer: Result<u64>,
    clients: &[Connection<'_>; 3],
    cache: &Cache,
    output: &Output<'_>,
) -> String {
    let mut text = String::new(alloc);
    tell_answer(&mut text, answer, output.taken());
    put_behind(&mut text, ' ', clients[0].plans);
    match row.find("tell") {
        Some(what) => tell_wanted(&mut text, what, clients, cache, output),
        None => tell_usual(&mut text, row, clients, output),
    }
    text
}

/// What this reconstruction over this store tells.
fn over<R: Threads + Wait + Sync>(
    rt: &R,
    alloc: Global,
    row: Row<'_>,
    store: &MemStore,
    wanted: FileReconstructor<Steady>,
    cache: &mut Cache,
    output: &mut Output<'_>,
) -> String {
    let mut clients = connections(alloc, row, store, output.meter);
    let lent = &mut clients[..count(row)];
    let answer = answered(rt, alloc, row, wanted, lent, cache, output);
    told(alloc, row, answer, &clients, cache, output)
}

/// What a run tells over this store, which is nothing where memory is wanting for it.
fn over_store<R: Threads + Wait + Sync>(
    rt: &R,
    alloc: Global,
    row: Row<'_>,
    store: &MemStore,
    updater: Option<&ItemProgressUpdater>,
    output: &mut Output<'_>,
) -> String {
    let mut cache = Cache::new(alloc, row);
    match wanted(rt, alloc, row, updater) {
        Ok(wanted) => over(rt, alloc, row, store, wanted, &mut cache, output),
        Err(OutOfMemory) => String::new(alloc),
    }
}

/// What the run of a row that reports to the updater tells.
pub(crate) fn played<R: Threads + Wait + Sync>(
    rt: &R,
    alloc: Global,
    row: Row<'_>,
    updater: Option<&ItemProgressUpdater>,
) -> String {
    let (meter, crowd) = (Meter::new(row), Crowd::new(row));
    let mut output = Output::new(alloc, row, &meter, &crowd);
    match worked_store(alloc) {
        Ok(store) => over_store(rt, alloc, row, &store, updater, &mut output),
        Err(_) => String::new(alloc),
    }
}

/// Plays each line's row, which comes to what stands behind the colon.
pub(crate) fn come_to<R: Threads + Wait + Sync + Abort>(rt: &R, alloc: Global, lines: &str) {
    for line in lines.lines() {
        let (text, wanted) = cut(line, ": ");
        let row = Row { text };
        assert!(rt; row.is_known(), "{text}");
        comes_to(rt, text, played(rt, alloc, row, None), wanted);
    }
}
