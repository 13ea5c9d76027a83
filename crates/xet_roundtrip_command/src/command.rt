//! The command `roundtrip`.
ghost use Rattle.std.specs.Prelude.{◌≤◌, List};
ghost use Rattle.xet_outside.specs.Told.{SourceTold};
ghost use Rattle.xet_store.specs.Taps.{TapTold};
ghost use Rattle.xet_roundtrip_command.specs.Roundtrip.{RoundtripOutcome};
ghost use Rattle.xet_room.specs.Outcome.{IsFlushed, IsUnfailed, TellsFault};

use std::alloc::Global;
use std::sync::Wait;
use std::thread::Threads;
use xet_room::{Status, print_text, say};
use xet_store::Sink;

/// Sends the file of so many bytes on its way, and prints the text of its pointer record, and that it came back.
/// Nothing is read, and no tap is asked.
pub fn roundtrip<R: Threads + Wait + Sync, O: Sink>(
    rt: &R,
    alloc: Global,
    size: u32,
    out: &mut O,
) -> Status
    requires { size ≤ 1000000 }
    ensures outcome { (source : SourceTold) (taps : List TapTold) → RoundtripOutcome size
        (record { source = source; sink = O.told out.old; taps = taps })
        (record { source = source; sink = O.told out.new; taps = taps }) result }
    ensures flushed { IsFlushed result (O.told out.new) }
    ensures unfailed { IsUnfailed result (O.told out.old) (O.told out.new) }
    ensures short { TellsFault result (O.told out.old) (O.told out.new) }
{
    match xet_roundtrip::roundtrip(rt, alloc, size) {
        Ok(text) => print_text(out, Status::Done, text.as_bytes()),
        Err(_) => say(out, Status::NoMemory),
    }
}
