//! The command `track`.
ghost use Rattle.std.specs.Prelude.{List};
ghost use Rattle.xet_store.specs.Taps.{TapTold};
ghost use Rattle.xet_room.specs.Ends.{input_limit};
ghost use Rattle.xet_room.specs.Outcome.{IsFlushed, IsReadUnfailed, IsUnfailed, TellsFault};
ghost use Rattle.xet_track_command.specs.Track.{ScriptFrom, TrackOutcome};

use std::alloc::Global;
use xet_room::{LIMIT, ReadError, Status, print_text, read_to_end, say, stopped};
use xet_store::{Sink, Source, write_plainly};
use xet_track::{Script, Turn};

// Makes the calls of a script, and prints the line of each when it was made.
fn print<O: Sink>(alloc: Global, script: &[u8], out: &mut O) -> Status
    ensures printed { ScriptFrom script.now (O.told out.old) (O.told out.new) result }
    ensures flushed { IsFlushed result (O.told out.new) }
    ensures unfailed { IsUnfailed result (O.told out.old) (O.told out.new) }
    ensures short { TellsFault result (O.told out.old) (O.told out.new) }
{
    let mut run = Script::new(alloc, script);
    let mut line = Vec::new(alloc);
    'lines: loop {
        line.clear();
        match run.step(alloc, &mut line) {
            Ok(Turn::Printed) => {
                if let Err(error) = write_plainly(out, line.as_slice()) {
                    return stopped(error);
                }
            }
            Ok(Turn::Unread) => return print_text(out, Status::BadScript, line.as_slice()),
            Ok(Turn::Ended) => return print_text(out, Status::Done, b""),
            Err(_) => return say(out, Status::NoMemory),
        }
    }
}

/// Reads the input to its end, and prints what its script prints. No tap is asked.
pub fn track<I: Source, O: Sink>(alloc: Global, input: &mut I, out: &mut O) -> Status
    ensures outcome { (taps : List TapTold) → TrackOutcome input_limit
        (record { source = I.told input.old; sink = O.told out.old; taps = taps })
        (record { source = I.told input.new; sink = O.told out.new; taps = taps }) result }
    ensures flushed { IsFlushed result (O.told out.new) }
    ensures unfailed { IsUnfailed result (O.told out.old) (O.told out.new) }
    ensures short { TellsFault result (O.told out.old) (O.told out.new) }
    ensures read { IsReadUnfailed result (I.told input.old) (I.told input.new) }
{
    let script = match read_to_end(alloc, input, LIMIT) {
        Ok(script) => script,
        Err(ReadError::OutOfMemory) => return say(out, Status::NoMemory),
        Err(ReadError::Fault) => return say(out, Status::ReadFault),
        Err(ReadError::TooLong) => return say(out, Status::TooLong),
    };
    print(alloc, script.as_slice(), out)
}
