//! What an updater is told.
use crate::pulled::played;
use crate::row::Row;
use crate::told::{comes_to, put};
use std::alloc::Global;
use std::sync::Wait;
use xet_progress::{ItemProgress, ItemProgressUpdater};

/// Of the item's bytes those that there are and those that are written, and of the transferred ones those that there
/// are and those that came.
fn tell_item(text: &mut String, item: &ItemProgress) {
    for number in [
        item.total_bytes(),
        item.bytes_completed(),
        item.transfer_bytes(),
        item.transfer_bytes_completed(),
    ] {
        put(text, ' ');
        put(text, number);
    }
}

/// What a stream tells that reports to an item, whose final size this is, where there is one.
fn reported<R: Wait>(
    rt: &R,
    alloc: Global,
    row: Row<'_>,
    updater: &ItemProgressUpdater,
    size: u64,
) -> String {
    if size > 0 {
        let _ = updater.update_item_size(rt, size, true);
    }
    let mut text = played(rt, alloc, row, Some(updater));
    if let Ok(item) = updater.item(rt, alloc) {
        tell_item(&mut text, &item);
    }
    text
}

fn item<R: Wait>(rt: &R, alloc: Global, row: Row<'_>, size: u64) -> String {
    match ItemProgressUpdater::new_standalone(alloc, "stream") {
        Ok(updater) => reported(rt, alloc, row, &updater, size),
        Err(_) => String::new(alloc),
    }
}

/// By the unordered stream, of which two pulls are made.
const PLACED: &str = "unordered; pulls 2; history; file b; from 4; to 13";

/// A kept block is reported as transferred, and a delivered piece as written. Where the item's size is final before, at
/// four bytes, the report of the second piece is refused, and the stream goes on.
#[test]
fn blocks_and_pieces_are_reported(rt: HostRuntime) {
    for (text, size, wanted) in [
        (
            "file b; from 4; to 13",
            0,
            "'d!' 'Hello' 'He' - - 9 9 11 11",
        ),
        (
            "file b; from 4; to 13",
            4,
            "'d!' 'Hello' 'He' - - 4 4 11 11",
        ),
        (
            PLACED,
            0,
            "0 'd!' 2 'Hello' | 0 2 has 7/9 waits 0/0 open 9 7 11 11",
        ),
    ] {
        let told = item(&rt, rt.alloc(), Row { text }, size);
        comes_to(&rt, text, told, wanted);
    }
}
