//! Calls of a group and its items, with their answers worked out by hand.
use crate::rows::{Call, call_of, comes_to, show};
use std::alloc::Global;
use std::collections::BTreeMap;
use std::sync::{Arc, Wait};
use xet_base::{OutOfMemory, UniqueID};
use xet_progress::{
    GroupProgress, GroupProgressReport, ItemProgressReport, ItemProgressUpdater, ProgressError,
};

/// Calls of a group, and of its items by their ids; `alone` asks an item that has a group of its own. Sums are the
/// completed and all bytes, and the transferred bytes and those to be transferred.
const GROUPS: &str = "\
new 1;new 2;final 1 120;completed 1 0;sums;completed 1 45;sums;completed 1 76;sums;written 1 75;sums: Ok(()) Ok(()) \
Ok(()) Ok(()) (0, 120, 0, 0) Ok(()) (45, 120, 0, 0) Err(InvalidOperation(PastTotal { total: 120, counted: 45, \
increment: 76 })) (45, 120, 0, 0) Ok(()) (120, 120, 0, 0)
new 1;final 1 120;transfer 1 90;transferred 1 35;sums;transfer 1 60;sums;progress 1 56;sums;progress 1 55;sums: \
Ok(()) Ok(()) Ok(()) Ok(()) (0, 120, 35, 90) Ok(()) (0, 120, 35, 90) Err(InvalidOperation(PastTotal { total: 90, \
counted: 35, increment: 56 })) (0, 120, 35, 90) Ok(()) (0, 120, 90, 90)
new 1;size 1 120;sums;size 1 310;sums;final 1 300;sums;size 1 400;sums;final 1 500;sums: Ok(()) Ok(()) (0, 120, 0, \
0) Ok(()) (0, 310, 0, 0) Ok(()) (0, 310, 0, 0) Ok(()) (0, 310, 0, 0) Ok(()) (0, 310, 0, 0)
new 1;new 2;final 1 100;final 2 200;sums;completed 1 50;completed 2 100;sums;completed 2 101;sums: Ok(()) Ok(()) \
Ok(()) Ok(()) (0, 300, 0, 0) Ok(()) Ok(()) (150, 300, 0, 0) Err(InvalidOperation(PastTotal { total: 200, counted: \
100, increment: 101 })) (150, 300, 0, 0)
new 1;new 2;size 1 18446744073709551615;size 2 1;sums;transfer 2 18446744073709551615;transfer 1 2;sums: Ok(()) \
Ok(()) Ok(()) Err(InvalidOperation(SumTooGreat { have: 18446744073709551615, add: 1 })) (0, 18446744073709551615, 0, \
0) Ok(()) Err(InvalidOperation(SumTooGreat { have: 18446744073709551615, add: 2 })) (0, 18446744073709551615, 0, \
18446744073709551615)
new 1;new 1;final 1 120;transfer 1 90;missing 1;completed 1 120;missing 1;item 1;transferred 1 90;missing 1: Ok(()) \
Err(InvalidOperation(DuplicateId { id: UniqueID(1) })) Ok(()) Ok(()) Err(Bytes { completed: 0, total: 120 }) \
Err(Bytes { completed: 0, total: 120 }) Ok(()) Err(Transfer { completed: 0, total: 90 }) Err(Transfer { completed: \
0, total: 90 }) Ok(ItemProgress { id: UniqueID(1), name: Text { string: \"a.bin\" }, total_bytes: 120, \
bytes_completed: 120, transfer_bytes: 90, transfer_bytes_completed: 0, size_finalized: true }) Ok(ItemProgressReport \
{ item_name: Text { string: \"a.bin\" }, total_bytes: 120, bytes_completed: 120 }) 120 Ok(()) Ok(()) Ok(())
sums;new 1;new 2;final 1 110;final 2 230;completed 2 230;items;report 2;report 9: (0, 0, 0, 0) Ok(()) Ok(()) Ok(()) \
Ok(()) Ok(()) UniqueID(1) ItemProgressReport { item_name: Text { string: \"a.bin\" }, total_bytes: 110, \
bytes_completed: 0 } UniqueID(2) ItemProgressReport { item_name: Text { string: \"b.bin\" }, total_bytes: 230, \
bytes_completed: 230 } Ok(Some(ItemProgressReport { item_name: Text { string: \"b.bin\" }, total_bytes: 230, \
bytes_completed: 230 })) Ok(None)
new 1;final 1 110;add 50 20;add 1 32;add 18446744073709551615 0;sums: Ok(()) Ok(()) Ok(()) \
Err(InvalidOperation(PastTotal { total: 51, counted: 20, increment: 32 })) Err(InvalidOperation(SumTooGreat { have: \
50, add: 18446744073709551615 })) (0, 110, 20, 50)
alone: Ok(ItemProgress { id: UniqueID(0), name: Text { string: \"alone\" }, total_bytes: 0, bytes_completed: 0, \
transfer_bytes: 0, transfer_bytes_completed: 0, size_finalized: false }) Ok(ItemProgressReport { item_name: Text { \
string: \"alone\" }, total_bytes: 0, bytes_completed: 0 }) 0
";

/// The completed and all bytes, and the transferred bytes and those to be transferred.
pub(crate) fn sums(report: GroupProgressReport) -> (u64, u64, u64, u64) {
    (
        report.total_bytes_completed,
        report.total_bytes,
        report.total_transfer_bytes_completed,
        report.total_transfer_bytes,
    )
}

/// Shows a copy of an item's report.
fn show_report<R: Wait>(rt: &R, alloc: Global, item: &ItemProgressUpdater, told: &mut String) {
    match item.report(rt, alloc) {
        Ok(report) => show(told, &report.clone()),
        Err(OutOfMemory) => show(told, &OutOfMemory),
    }
}

/// Shows all that an item says.
fn show_item<R: Wait>(rt: &R, alloc: Global, item: &ItemProgressUpdater, told: &mut String) {
    show(told, &item.item(rt, alloc));
    show_report(rt, alloc, item, told);
    show(told, &item.total_bytes_completed(rt));
}

/// Shows all that an item says that has a group of its own.
fn show_alone<R: Wait>(rt: &R, alloc: Global, told: &mut String) {
    match ItemProgressUpdater::new_standalone(alloc, "alone") {
        Ok(item) => show_item(rt, alloc, &item, told),
        Err(OutOfMemory) => show(told, &OutOfMemory),
    }
}

/// Makes a call of an item.
fn report_to<R: Wait>(rt: &R, item: &ItemProgressUpdater, call: Call) -> Result<(), ProgressError> {
    let bytes = call.numbers[1];
    match call.word {
        "size" => item.update_item_size(rt, bytes, false),
        "final" => item.update_item_size(rt, bytes, true),
        "transfer" => item.update_transfer_size(rt, bytes),
        "completed" => item.report_bytes_completed(rt, bytes),
        "written" => item.report_bytes_written(rt, bytes),
        "transferred" => item.report_transfer_bytes_completed(rt, bytes),
        _ => item.report_transfer_progress(rt, bytes),
    }
}

/// Makes a call of an item, and shows its answer.
fn ask_item<R: Wait>(
    rt: &R,
    alloc: Global,
    item: &ItemProgressUpdater,
    call: Call,
    told: &mut String,
) {
    match call.word {
        "item" => show_item(rt, alloc, item, told),
        "missing" => {
            show(told, &item.assert_complete(rt));
            show(told, &item.group().assert_complete(rt));
        }
        _ => show(told, &report_to(rt, item, call)),
    }
}

fn show_reports(reports: &BTreeMap<UniqueID, ItemProgressReport>, told: &mut String) {
    for (id, report) in reports.iter() {
        show(told, id);
        show(told, report);
    }
}

fn show_items<R: Wait>(rt: &R, alloc: Global, group: &GroupProgress, told: &mut String) {
    match group.item_reports(rt, alloc) {
        Ok(reports) => show_reports(&reports, told),
        Err(OutOfMemory) => show(told, &OutOfMemory),
    }
}

/// Adds an item, and forgets its updater.
fn add_item<R: Wait>(
    rt: &R,
    alloc: Global,
    group: &Arc<GroupProgress>,
    id: UniqueID,
) -> Result<(), ProgressError> {
    let name = if id == UniqueID(1) { "a.bin" } else { "b.bin" };
    match GroupProgress::new_item(group, rt, alloc, id, name) {
        Ok(_) => Ok(()),
        Err(error) => Err(error),
    }
}

/// An updater that is made of another one of the item.
fn updater(group: &Arc<GroupProgress>, id: UniqueID) -> Result<ItemProgressUpdater, OutOfMemory> {
    match GroupProgress::updater(group, id) {
        Ok(item) => item.share(),
        Err(error) => Err(error),
    }
}

/// Makes a call, and shows its answer.
fn ask<R: Wait>(rt: &R, alloc: Global, group: &Arc<GroupProgress>, call: Call, told: &mut String) {
    let [first, second, _] = call.numbers;
    let id = UniqueID(first);
    match call.word {
        "new" => show(told, &add_item(rt, alloc, group, id)),
        "sums" => show(told, &sums(group.report(rt))),
        "items" => show_items(rt, alloc, group, told),
        "report" => show(told, &group.item_report(rt, id)),
        "add" => show(told, &group.add_transfer(rt, first, second)),
        "alone" => show_alone(rt, alloc, told),
        _ => match updater(group, id) {
            Ok(item) => ask_item(rt, alloc, &item, call, told),
            Err(OutOfMemory) => show(told, &OutOfMemory),
        },
    }
}

fn ask_all<R: Wait>(
    rt: &R,
    alloc: Global,
    group: &Arc<GroupProgress>,
    calls: &str,
    told: &mut String,
) {
    for call in calls.split(';') {
        ask(rt, alloc, group, call_of(call), told);
    }
}

fn told_group<R: Wait>(rt: &R, alloc: Global, calls: &str) -> String {
    let mut told = String::new(alloc);
    match GroupProgress::new(alloc) {
        Ok(group) => ask_all(rt, alloc, &group, calls, &mut told),
        Err(OutOfMemory) => show(&mut told, &OutOfMemory),
    }
    told
}

#[test]
fn groups(rt: HostRuntime) {
    for line in GROUPS.lines() {
        if let Some((row, wanted)) = line.split_once(':') {
            comes_to(&rt, row, told_group(&rt, rt.alloc(), row), wanted);
        }
    }
}
