//! Ends a run.
ghost use Rattle.xet_events.specs.Allowed.{IsRunning};
ghost use Rattle.xet_turns.specs.Ending.{EndLeads, EndTurn, LastCall, RecordedEnd, WriterEnd};

use std::alloc::Global;
use xet_error::{FileReconstructionError, Result};
use xet_outside::Sink;
use xet_parts::stop;
use xet_run::{EventLog, RunCore};
use xet_writers::{DataWriter, SequentialWriter};

/// Ends a run by what its loop answered: on Ok the writer is ended, which flushes its sink, and the answer is how many
/// bytes were written; an error of the loop or of that end is recorded and answered.
///
/// The loop's error, or that of `SequentialWriter::finish`; `OutOfMemory` where memory to record it was refused.
///
/// In the Rust crate: the end of `FileReconstructor::run` in `file_reconstruction::file_reconstructor`.
pub fn end_run<S: Sink, E: EventLog>(
    alloc: Global,
    core: &mut RunCore<E>,
    writer: &mut SequentialWriter<S>,
    led: Result<()>,
) -> Result<u64>
    requires { IsRunning core.old }
    ensures turn { EndTurn S.told writer.old writer.new core.old core.new led result }
    ensures leads { EndLeads S.told writer.old writer.new core.old core.new led result }
{
    end_both(alloc, core, writer, led)
}

/// The same, without what it does to a run.
fn end_both<S: Sink, E: EventLog>(
    alloc: Global,
    core: &mut RunCore<E>,
    writer: &mut SequentialWriter<S>,
    led: Result<()>,
) -> Result<u64>
    requires { IsRunning core.old }
    ensures { EndTurn S.told writer.old writer.new core.old core.new led result }
{
    let ended = end_writer(alloc, writer, led);
    answer_for(core, ended)
}

/// Ends the writer, where the loop answered Ok.
fn end_writer<S: Sink>(
    alloc: Global,
    writer: &mut SequentialWriter<S>,
    led: Result<()>,
) -> Result<u64>
    ensures { WriterEnd S.told writer.old writer.new led result }
{
    match led {
        Ok(()) => writer.finish(alloc),
        Err(error) => Err(error),
    }
}

/// Flushes a sink that took nothing.
pub(crate) fn flush_only<S: Sink>(sink: &mut S) -> Result<u64>
    ensures { LastCall (S.told sink.old) (S.told sink.new) 0 result }
{
    match sink.flush() {
        Ok(()) => Ok(0),
        Err(error) => Err(FileReconstructionError::from(error)),
    }
}

/// Records an error, and answers it.
pub(crate) fn answer_for<E: EventLog>(core: &mut RunCore<E>, ended: Result<u64>) -> Result<u64>
    requires { IsRunning core.old }
    ensures { RecordedEnd core.old core.new ended result }
{
    match ended {
        Ok(count) => Ok(count),
        Err(error) => Err(stop(core, error)),
    }
}
