//! The text of an input, or why there is none.
ghost use Rattle.std.specs.Prelude.{◌≡◌, IfErr, IfOk, OnOk};
ghost use Rattle.xet_room.specs.Ends.{input_limit};
ghost use Rattle.xet_room.specs.Inputs.{OverInput, UnreadPrinted};
ghost use Rattle.xet_room.specs.Outcome.{IsFlushed, IsReadUnfailed, IsUnfailed, TellsFault};

use crate::printing::say;
use crate::reading::{LIMIT, ReadError, read_to_end};
use crate::status::Status;
use std::alloc::Global;
use xet_store::{Sink, Source};

/// The text of the input, of at most 67,108,864 bytes, which is read to its end; nothing is printed then.
///
/// Else the line is printed of what kept it from being read, and the program is to end with the status that is
/// answered: 4 only where a read failed, 8 only where the input is longer, 6 for want of memory, and 5 where a write of
/// that line failed.
pub fn read_text<I: Source, O: Sink>(
    alloc: Global,
    input: &mut I,
    out: &mut O,
) -> Result<Vec<u8>, Status>
    ensures over { IfOk result (λ text. OverInput input_limit text.items (I.told input.old) (I.told input.new)) }
    ensures silent { OnOk result (O.told out.new ≡ O.told out.old) }
    ensures unread { IfErr result (UnreadPrinted input_limit (I.told input.old) (I.told input.new)
        (O.told out.old) (O.told out.new)) }
    ensures flushed { IfErr result (λ status. IsFlushed status (O.told out.new)) }
    ensures unfailed { IfErr result (λ status. IsUnfailed status (O.told out.old) (O.told out.new)) }
    ensures short { IfErr result (λ status. TellsFault status (O.told out.old) (O.told out.new)) }
    ensures faultless { OnOk result ((I.told input.new).faults ≡ (I.told input.old).faults) }
    ensures read { IfErr result (λ status. IsReadUnfailed status (I.told input.old) (I.told input.new)) }
{
    match read_to_end(alloc, input, LIMIT) {
        Ok(text) => Ok(text),
        Err(ReadError::OutOfMemory) => Err(say(out, Status::NoMemory)),
        Err(ReadError::Fault) => Err(say(out, Status::ReadFault)),
        Err(ReadError::TooLong) => Err(say(out, Status::TooLong)),
    }
}
