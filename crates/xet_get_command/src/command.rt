//! The command `get`.
ghost use Rattle.std.specs.Prelude.{◌≡◌, length, map};
ghost use Rattle.xet_room.specs.Ends.{input_limit};
ghost use Rattle.xet_get_command.specs.Get.{GetOutcome};
ghost use Rattle.xet_room.specs.Outcome.{IsFlushed, IsReadUnfailed, IsUnfailed};
ghost use Rattle.xet_get_command.specs.steps.Printing.{GotFrom, PrintedWithin};
ghost use Rattle.xet_get_command.specs.steps.TapRuns.{IsBookOf};

use crate::book::new_book_view;
use crate::digits::{Printed, print_digits};
use crate::wanted::Wanted;
use std::alloc::Global;
use std::mem::forget;
use std::sync::Wait;
use std::thread::Threads;
use xet_document::store_of_text;
use xet_room::{LIMIT, ReadError, Status, finish, read_to_end, say, say_after, stopped};
use xet_run::BookView;
use xet_store::{MemStore, Sink, Source, Tap};

// Prints the digits of the range and the last line.
fn print<R: Threads + Wait + Sync, T: Tap + Send, O: Sink>(
    rt: &R,
    alloc: Global,
    wanted: Wanted,
    view: BookView,
    store: &MemStore,
    taps: &mut Vec<T>,
    out: &mut O,
) -> Status
    requires count { length taps.old.items ≡ 64 }
    requires book { IsBookOf wanted view }
    ensures printed { GotFrom store.now wanted (map T.told taps.old.items) (map T.told taps.new.items)
        (O.told out.old) (O.told out.new) result }
    ensures flushed { IsFlushed result (O.told out.new) }
    ensures unfailed { IsUnfailed result (O.told out.old) (O.told out.new) }
{
    match print_digits(rt, alloc, wanted, view, store, taps, out) {
        Printed::All(count) => match format!(in alloc; "ok {count}\n") {
            Ok(line) => finish(out, Status::Done, line.as_bytes()),
            Err(_) => say_after(out, Status::NoMemory),
        },
        Printed::NoFile => say_after(out, Status::NotFound),
        Printed::Part => say_after(out, Status::NoMemory),
        Printed::Stopped(error) => stopped(error),
        Printed::BadBlock(test) => match format!(in alloc; "error block {test}\n") {
            Ok(line) => finish(out, Status::BadBlock(test), line.as_bytes()),
            Err(_) => say_after(out, Status::NoMemory),
        },
        Printed::BadSettings(setting) => say_after(out, Status::BadSettings(setting)),
    }
}

// Prints the range of the file of this store, within the limits of a new book.
fn print_within<R: Threads + Wait + Sync, T: Tap + Send, O: Sink>(
    rt: &R,
    alloc: Global,
    wanted: Wanted,
    store: &MemStore,
    taps: &mut Vec<T>,
    out: &mut O,
) -> Status
    requires { length taps.old.items ≡ 64 }
    ensures printed { PrintedWithin store.now wanted (map T.told taps.old.items) (map T.told taps.new.items)
        (O.told out.old) (O.told out.new) result }
    ensures flushed { IsFlushed result (O.told out.new) }
    ensures unfailed { IsUnfailed result (O.told out.old) (O.told out.new) }
{
    match new_book_view(rt, alloc, wanted.options.budget_settings()) {
        Ok(view) => print(rt, alloc, wanted, view, store, taps, out),
        Err(_) => say(out, Status::NoMemory),
    }
}

/// Reads the input to its end, and prints the range of the file of its store. Its blocks go through the first taps, one
/// for each lane.
pub fn get<R: Threads + Wait + Sync, I: Source, O: Sink, T: Tap + Send>(
    rt: &R,
    alloc: Global,
    wanted: Wanted,
    input: &mut I,
    out: &mut O,
    taps: &mut Vec<T>,
) -> Status
    requires { length taps.old.items ≡ 64 }
    ensures outcome { GetOutcome input_limit wanted
        (record { source = I.told input.old; sink = O.told out.old; taps = map T.told taps.old.items })
        (record { source = I.told input.new; sink = O.told out.new; taps = map T.told taps.new.items }) result }
    ensures flushed { IsFlushed result (O.told out.new) }
    ensures unfailed { IsUnfailed result (O.told out.old) (O.told out.new) }
    ensures read { IsReadUnfailed result (I.told input.old) (I.told input.new) }
{
    let text = match read_to_end(alloc, input, LIMIT) {
        Ok(text) => text,
        Err(ReadError::OutOfMemory) => return say(out, Status::NoMemory),
        Err(ReadError::Fault) => return say(out, Status::ReadFault),
        Err(ReadError::TooLong) => return say(out, Status::TooLong),
    };
    match store_of_text(alloc, text) {
        Ok(Some(store)) => {
            let status = print_within(rt, alloc, wanted, &store, taps, out);
            // The process ends after a command and gives its memory back as a whole, which takes less time.
            forget(store);
            status
        }
        Ok(None) => say(out, Status::BadStore),
        Err(_) => say(out, Status::NoMemory),
    }
}
