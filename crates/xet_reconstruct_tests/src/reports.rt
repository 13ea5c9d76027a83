//! What an updater is told.
use crate::played::played;
use crate::row::Row;
use crate::told::{comes_to, put_behind};
use std::alloc::Global;
use std::sync::Wait;
use std::thread::Threads;
use xet_progress::{ItemProgress, ItemProgressUpdater};

/// Of the item's bytes those that there are and those that are written, and of the transferred ones those that there
/// are and those that came.
fn tell_item(text: &mut String, item: &ItemProgress) {
    put_behind(text, ' ', item.total_bytes());
    put_behind(text, ' ', item.bytes_completed());
    put_behind(text, ' ', item.transfer_bytes());
    put_behind(text, ' ', item.transfer_bytes_completed());
}

/// What a run tells that reports to an item, whose final size this is, where there is one; and what the item has then.
fn item_told<R: Threads + Wait + Sync>(
    rt: &R,
    alloc: Global,
    updater: &ItemProgressUpdater,
    size: u64,
) -> String {
    if size > 0 {
        let _ = updater.update_item_size(rt, size, true);
    }
    let row = Row {
        text: "file b; size 4",
    };
    let mut text = played(rt, alloc, row, Some(updater));
    if let Ok(item) = updater.item(rt, alloc) {
        tell_item(&mut text, &item);
    }
    text
}

fn item<R: Threads + Wait + Sync>(rt: &R, alloc: Global, size: u64) -> String {
    match ItemProgressUpdater::new_standalone(alloc, "file") {
        Ok(updater) => item_told(rt, alloc, &updater, size),
        Err(_) => String::new(alloc),
    }
}

/// The chunks 2..3, 0..1 and 2..4, 0..1, 0..1, 1..3 and 2..3 are the blocks of the six plans, of 5, 5, 6, 5, 5, 7 and 5
/// bytes, of which four are fetched and three come from the cache: each is reported, as is each written term. Where the
/// item's size is final before, at four bytes, each report of written ones but the first is refused, and the run goes
/// on.
#[test]
fn blocks_and_written_terms_are_reported(rt: HostRuntime) {
    for (size, wanted) in [
        (0, "23 'world!HelloHello, world' 6/4 23 23 38 38"),
        (4, "23 'world!HelloHello, world' 6/4 4 4 38 38"),
    ] {
        comes_to(&rt, "file b; size 4", item(&rt, rt.alloc(), size), wanted);
    }
}
