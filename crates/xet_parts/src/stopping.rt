//! Records the error by which a run ends.
ghost use Rattle.std.specs.Prelude.{◌≡◌};
ghost use Rattle.xet_error.specs.declared.error.FileReconstructionError.TheVariants as error;
ghost use Rattle.xet_events.specs.Allowed.{IsRunning};
ghost use Rattle.xet_ties.specs.PartCalls.{stop_event};
ghost use Rattle.xet_parts.specs.Stops.{IsStopped};

use xet_error::FileReconstructionError;
use xet_run::{CoreRefusal, Event, EventLog, RunCore};

/// Records an error in a core that runs, `Cancelled` as a Cancel event and every other as a Fail event, and answers it;
/// `OutOfMemory` where memory for the event was refused, and then nothing is recorded.
pub fn stop<E: EventLog>(
    core: &mut RunCore<E>,
    error: FileReconstructionError,
) -> FileReconstructionError
    requires { IsRunning core.old }
    ensures { IsStopped core.old core.new error result }
{
    match error {
        FileReconstructionError::Cancelled => stop_cancelled(core),
        _ => stop_failed(core, error),
    }
}

/// Records a cancel.
fn stop_cancelled<E: EventLog>(core: &mut RunCore<E>) -> FileReconstructionError
    requires { IsRunning core.old }
    ensures { IsStopped core.old core.new error.Cancelled result }
{
    match core.cancel() {
        Ok(()) => FileReconstructionError::Cancelled,
        Err(CoreRefusal::OutOfMemory) => FileReconstructionError::OutOfMemory,
        Err(CoreRefusal::NotAllowed) => unreachable!(),
    }
}

/// Records an error that isn't `Cancelled`.
fn stop_failed<E: EventLog>(
    core: &mut RunCore<E>,
    error: FileReconstructionError,
) -> FileReconstructionError
    requires running { IsRunning core.old }
    requires other { stop_event error ≡ Event.Fail error }
    ensures { IsStopped core.old core.new error result }
{
    match core.fail(error) {
        Ok(()) => error,
        Err(CoreRefusal::OutOfMemory) => FileReconstructionError::OutOfMemory,
        Err(CoreRefusal::NotAllowed) => unreachable!(),
    }
}
