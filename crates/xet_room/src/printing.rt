//! Texts and last lines on the output.
ghost use Rattle.std.specs.Prelude.{◌≡◌, ◌∷◌};
ghost use Rattle.xet_room.specs.Outcome.{Finished, IsFlushed, IsUnfailed, TellsFault, status_of};
ghost use Rattle.xet_room.specs.Texts.{line};

use crate::status::Status;
use xet_store::{Sink, SinkError, write_plainly};

/// The status after a failed write.
pub fn stopped(error: SinkError) -> Status
    ensures { result ≡ status_of error }
{
    match error {
        SinkError::OutOfMemory => Status::NoMemory,
        SinkError::Failed => Status::WriteFault,
    }
}

/// Prints a text and flushes it, which ends the program with this status.
pub fn print_text<O: Sink>(out: &mut O, status: Status, text: &[u8]) -> Status
    ensures text { Finished text.now status (O.told out.old) (O.told out.new) result }
    ensures flushed { IsFlushed result (O.told out.new) }
    ensures unfailed { IsUnfailed result (O.told out.old) (O.told out.new) }
    ensures short { TellsFault result (O.told out.old) (O.told out.new) }
{
    if let Err(error) = write_plainly(out, text) {
        return stopped(error);
    }
    match out.flush() {
        Ok(()) => status,
        Err(error) => stopped(error),
    }
}

/// Prints the line of a status.
pub fn say<O: Sink>(out: &mut O, status: Status) -> Status
    ensures text { Finished (line status) status (O.told out.old) (O.told out.new) result }
    ensures flushed { IsFlushed result (O.told out.new) }
    ensures unfailed { IsUnfailed result (O.told out.old) (O.told out.new) }
    ensures short { TellsFault result (O.told out.old) (O.told out.new) }
{
    print_text(out, status, status.line())
}

/// Prints a line end and the line of a status.
pub fn say_after<O: Sink>(out: &mut O, status: Status) -> Status
    ensures text { Finished (10 ∷ line status) status (O.told out.old) (O.told out.new) result }
    ensures flushed { IsFlushed result (O.told out.new) }
    ensures unfailed { IsUnfailed result (O.told out.old) (O.told out.new) }
    ensures short { TellsFault result (O.told out.old) (O.told out.new) }
{
    finish(out, status, status.line())
}

/// Prints a line end and a last line.
pub fn finish<O: Sink>(out: &mut O, status: Status, line: &[u8]) -> Status
    ensures text { Finished (10 ∷ line.now) status (O.told out.old) (O.told out.new) result }
    ensures flushed { IsFlushed result (O.told out.new) }
    ensures unfailed { IsUnfailed result (O.told out.old) (O.told out.new) }
    ensures short { TellsFault result (O.told out.old) (O.told out.new) }
{
    match write_plainly(out, b"\n") {
        Ok(()) => print_text(out, status, line),
        Err(error) => stopped(error),
    }
}
