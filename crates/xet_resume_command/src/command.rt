//! The command `resume`.
ghost use Rattle.std.specs.Prelude.{List};
ghost use Rattle.xet_store.specs.Taps.{TapTold};
ghost use Rattle.xet_room.specs.Ends.{input_limit};
ghost use Rattle.xet_room.specs.Inputs.{InputOutcome, SomePrinted, TextPrinted};
ghost use Rattle.xet_room.specs.Outcome.{IsFlushed, IsReadUnfailed, IsUnfailed, TellsFault};
ghost use Rattle.xet_resume_command.specs.Resume.{ResumePrints, StorePrints};

use crate::fetching::fetch_all;
use crate::printing::{print_filled, print_short};
use crate::wanted::ResumeWanted;
use std::alloc::Global;
use std::mem::forget;
use std::sync::Wait;
use std::thread::Threads;
use xet_document::store_of_text;
use xet_resume::{GapRecord, ResumeError};
use xet_room::{Status, read_text, say};
use xet_sinks::MemFile;
use xet_store::{MemStore, Sink, Source};

// Fetches the ranges of a store's file, and prints what came of them.
fn print_store<R: Threads + Wait + Sync, O: Sink>(
    rt: &R,
    alloc: Global,
    wanted: &ResumeWanted,
    store: &MemStore,
    out: &mut O,
) -> Status
    ensures printed { SomePrinted (StorePrints wanted.now store.now) (O.told out.old) (O.told out.new) result }
    ensures flushed { IsFlushed result (O.told out.new) }
    ensures unfailed { IsUnfailed result (O.told out.old) (O.told out.new) }
    ensures short { TellsFault result (O.told out.old) (O.told out.new) }
{
    let Ok(mut gaps) = GapRecord::new(alloc, wanted.file, wanted.length) else {
        return say(out, Status::NoMemory);
    };
    let mut file = MemFile::new(alloc, Vec::new(alloc));
    match fetch_all(rt, alloc, store, wanted, &mut gaps, &mut file) {
        Ok(count) => print_filled(alloc, file.content(), &gaps, count, out),
        Err(ResumeError::OutOfMemory) => say(out, Status::NoMemory),
        // A run over a store in memory fails in no other way.
        Err(ResumeError::Run(_)) => say(out, Status::NotFound),
        Err(ResumeError::Short { actual, .. }) => print_short(alloc, actual, out),
    }
}

// Fetches the ranges of a file of the store that a text lists, and prints what came of them.
fn print<R: Threads + Wait + Sync, O: Sink>(
    rt: &R,
    alloc: Global,
    wanted: &ResumeWanted,
    text: Vec<u8>,
    out: &mut O,
) -> Status
    ensures printed { TextPrinted (ResumePrints wanted.now) text.items (O.told out.old) (O.told out.new) result }
    ensures flushed { IsFlushed result (O.told out.new) }
    ensures unfailed { IsUnfailed result (O.told out.old) (O.told out.new) }
    ensures short { TellsFault result (O.told out.old) (O.told out.new) }
{
    match store_of_text(alloc, text) {
        Ok(Some(store)) => {
            let status = print_store(rt, alloc, wanted, &store, out);
            // The process ends after a command and gives its memory back as a whole, which takes less time.
            forget(store);
            status
        }
        Ok(None) => say(out, Status::BadStore),
        Err(_) => say(out, Status::NoMemory),
    }
}

/// Reads the input to its end, fetches the ranges of a file of the store that it lists into an empty file, with the
/// record of what is missing, and prints the digits of the content, the text of the record and how many bytes were
/// fetched. No tap is asked.
pub fn resume<R: Threads + Wait + Sync, I: Source, O: Sink>(
    rt: &R,
    alloc: Global,
    wanted: ResumeWanted,
    input: &mut I,
    out: &mut O,
) -> Status
    ensures outcome { (taps : List TapTold) → InputOutcome (ResumePrints wanted) input_limit
        (record { source = I.told input.old; sink = O.told out.old; taps = taps })
        (record { source = I.told input.new; sink = O.told out.new; taps = taps }) result }
    ensures flushed { IsFlushed result (O.told out.new) }
    ensures unfailed { IsUnfailed result (O.told out.old) (O.told out.new) }
    ensures short { TellsFault result (O.told out.old) (O.told out.new) }
    ensures read { IsReadUnfailed result (I.told input.old) (I.told input.new) }
{
    match read_text(alloc, input, out) {
        Ok(text) => print(rt, alloc, &wanted, text, out),
        Err(status) => status,
    }
}
