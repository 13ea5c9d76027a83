//! The command `serve`.
ghost use Rattle.std.specs.Prelude.{List};
ghost use Rattle.xet_store.specs.Taps.{TapTold};
ghost use Rattle.xet_room.specs.Ends.{input_limit};
ghost use Rattle.xet_room.specs.Inputs.{InputOutcome};
ghost use Rattle.xet_room.specs.Outcome.{IsFlushed, IsReadUnfailed, IsUnfailed, TellsFault};
ghost use Rattle.xet_serve_command.specs.Serve.{PartsPrint, ServePrints};
ghost use Rattle.xet_serve_command.specs.steps.Sessions.{Printed, left_of};

use crate::first_line::take_session;
use crate::session::serve_store;
use std::alloc::Global;
use std::mem::forget;
use std::sync::Wait;
use std::thread::Threads;
use xet_document::store_of_text;
use xet_get_command::Options;
use xet_room::{Status, read_text, say};
use xet_sinks::VecSource;
use xet_store::{Sink, Source};

// Answers the lines of a session over the store that a document lists.
fn print_parts<R: Threads + Wait + Sync, O: Sink>(
    rt: &R,
    alloc: Global,
    options: &Options,
    document: Vec<u8>,
    session: &mut VecSource,
    out: &mut O,
) -> Status
    ensures { Printed
        (PartsPrint options.now document.items (left_of (⟦<VecSource as Source>⟧.told session.old)))
        (O.told out.old) (O.told out.new) result }
{
    match store_of_text(alloc, document) {
        Ok(Some(store)) => {
            let status = serve_store(rt, alloc, options, &store, session, out);
            // The process ends after a command and gives its memory back as a whole, which takes less time.
            forget(store);
            status
        }
        Ok(None) => say(out, Status::BadStore),
        Err(_) => say(out, Status::NoMemory),
    }
}

// Answers the lines of a text behind the first, over the store that the first lists.
fn print<R: Threads + Wait + Sync, O: Sink>(
    rt: &R,
    alloc: Global,
    options: &Options,
    mut text: Vec<u8>,
    out: &mut O,
) -> Status
    ensures { Printed (ServePrints options.now text.items) (O.told out.old) (O.told out.new) result }
{
    let Ok(session) = take_session(alloc, &mut text) else {
        return say(out, Status::NoMemory);
    };
    let mut source = VecSource::new(session);
    print_parts(rt, alloc, options, text, &mut source, out)
}

/// Reads the input to its end, and answers the lines of the session behind its first line, each by its reply, over the
/// store that the first line lists. A reply is made as a whole before its first byte is printed. No tap is asked.
pub fn serve<R: Threads + Wait + Sync, I: Source, O: Sink>(
    rt: &R,
    alloc: Global,
    options: Options,
    input: &mut I,
    out: &mut O,
) -> Status
    ensures outcome { (taps : List TapTold) → InputOutcome (ServePrints options) input_limit
        (record { source = I.told input.old; sink = O.told out.old; taps = taps })
        (record { source = I.told input.new; sink = O.told out.new; taps = taps }) result }
    ensures flushed { IsFlushed result (O.told out.new) }
    ensures unfailed { IsUnfailed result (O.told out.old) (O.told out.new) }
    ensures short { TellsFault result (O.told out.old) (O.told out.new) }
    ensures read { IsReadUnfailed result (I.told input.old) (I.told input.new) }
{
    match read_text(alloc, input, out) {
        Ok(text) => print(rt, alloc, &options, text, out),
        Err(status) => status,
    }
}
