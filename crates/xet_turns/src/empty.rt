//! A run over an empty range.
ghost use Rattle.std.specs.Prelude.{◌≡◌, []};
ghost use Rattle.xet_turns.specs.EmptyRuns.{EmptyRuns, EmptyTurn};

use crate::ending::{answer_for, flush_only};
use xet_error::Result;
use xet_outside::Sink;
use xet_run::{EventLog, RunCore};

/// A run over an empty range: the sink is flushed, and nothing else is asked or taken. Answers 0 bytes.
///
/// `IoError` where the flush failed, and `OutOfMemory` where the sink found no memory, which are recorded;
/// `OutOfMemory` where memory to record an error was refused.
pub fn run_empty<S: Sink, E: EventLog>(core: &mut RunCore<E>, writer: &mut S) -> Result<u64>
    requires { core.old ≡ [] }
    ensures turn { EmptyTurn (S.told writer.old) (S.told writer.new) core.old core.new result }
    ensures runs { EmptyRuns (S.told writer.old) (S.told writer.new) core.new result }
{
    flush_and_answer(core, writer)
}

/// The same, without what it is of a run.
fn flush_and_answer<S: Sink, E: EventLog>(core: &mut RunCore<E>, writer: &mut S) -> Result<u64>
    requires { core.old ≡ [] }
    ensures { EmptyTurn (S.told writer.old) (S.told writer.new) core.old core.new result }
{
    let ended = flush_only(writer);
    answer_for(core, ended)
}
