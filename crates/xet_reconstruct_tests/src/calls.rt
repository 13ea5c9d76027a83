//! Rows of the calls that no run makes.
use crate::connection::Connection;
use crate::fetches::tell_fetches;
use crate::managers::tell_manager;
use crate::meter::Meter;
use crate::row::Row;
use crate::told::{comes_to, cut};
use std::alloc::Global;
use std::process::Abort;
use std::sync::Wait;
use xet_progress::ItemProgressUpdater;
use xet_store::MemStore;
use xet_store::worked::worked_store;

/// What the calls of a row tell over its first connection to this store, reported to this item.
fn over<R: Wait>(
    rt: &R,
    alloc: Global,
    row: Row<'_>,
    store: &MemStore,
    item: &ItemProgressUpdater,
) -> String {
    let mut text = String::new(alloc);
    let meter = Meter::new(row);
    let lanes = row.find("lanes").unwrap_or("");
    let mut client = Connection::new(alloc, row, lanes, store, &meter);
    if row.has("calls") {
        tell_manager(&mut text, alloc, rt, row, &mut client, item);
    } else {
        tell_fetches(&mut text, alloc, rt, row, &mut client, item);
    }
    text
}

/// What the calls of a row tell, which is nothing where memory is wanting for them.
fn told<R: Wait>(rt: &R, alloc: Global, row: Row<'_>) -> String {
    let store = worked_store(alloc).unwrap_or(MemStore::new(alloc));
    match ItemProgressUpdater::new_standalone(alloc, "file") {
        Ok(item) => over(rt, alloc, row, &store, &item),
        Err(_) => String::new(alloc),
    }
}

/// Makes the calls of each line's row, which come to what stands behind the colon.
pub(crate) fn calls_come_to<R: Wait + Abort>(rt: &R, alloc: Global, lines: &str) {
    for line in lines.lines() {
        let (text, wanted) = cut(line, ": ");
        let row = Row { text };
        assert!(rt; row.is_known(), "{text}");
        comes_to(rt, text, told(rt, alloc, row), wanted);
    }
}
