//! Records what the lanes and the writer of a turn did.
ghost use Rattle.xet_events.specs.Allowed.{AllowedAfter};
ghost use Rattle.xet_ties.specs.Recordings.{Recorded, expired_event, expired_on, fetched_event, fetched_on};
ghost use Rattle.xet_ties.specs.Recordings.{wrote_event, wrote_of};

use crate::event_calls::{add_expired, add_fetched, add_wrote};
use xet_error::Result;
use xet_run::{EventLog, RunCore};
use xet_ties::LaneStep;

/// Records the steps of a lane that were served, in their order. `OutOfMemory` where memory was refused, and then the
/// first of them are recorded.
pub fn record_fetched<E: EventLog>(
    core: &mut RunCore<E>,
    lane: u32,
    steps: &[LaneStep],
) -> Result<()>
    requires { AllowedAfter core.old (fetched_on lane steps.now) }
    ensures { Recorded core.old core.new (fetched_on lane steps.now) result }
{
    for step in steps {
        match record_served(core, lane, step) {
            Ok(()) => {}
            Err(error) => return Err(error),
        }
    }
    Ok(())
}

/// Records the steps of a lane that were answered that their URL had expired, in their order. `OutOfMemory` where
/// memory was refused, and then the first of them are recorded.
pub fn record_expired<E: EventLog>(
    core: &mut RunCore<E>,
    lane: u32,
    steps: &[LaneStep],
) -> Result<()>
    requires { AllowedAfter core.old (expired_on lane steps.now) }
    ensures { Recorded core.old core.new (expired_on lane steps.now) result }
{
    for step in steps {
        match record_late(core, lane, step) {
            Ok(()) => {}
            Err(error) => return Err(error),
        }
    }
    Ok(())
}

/// Records the terms that were written, by their lengths in bytes, in their order; an empty term has no event.
/// `OutOfMemory` where memory was refused, and then the first of them are recorded.
pub fn record_window<E: EventLog>(core: &mut RunCore<E>, lengths: &[u64]) -> Result<()>
    requires { AllowedAfter core.old (wrote_of lengths.now) }
    ensures { Recorded core.old core.new (wrote_of lengths.now) result }
{
    for length in lengths {
        match record_written(core, *length) {
            Ok(()) => {}
            Err(error) => return Err(error),
        }
    }
    Ok(())
}

/// Records a step of a lane, where it was served.
fn record_served<E: EventLog>(core: &mut RunCore<E>, lane: u32, step: &LaneStep) -> Result<()>
    requires { AllowedAfter core.old (fetched_event lane step.now) }
    ensures { Recorded core.old core.new (fetched_event lane step.now) result }
{
    match step {
        LaneStep::Served { plan, block, .. } => add_fetched(core, lane, *plan, *block),
        LaneStep::Expired { .. } | LaneStep::Failed { .. } => Ok(()),
    }
}

/// Records a step of a lane, where it was answered that the URL had expired.
fn record_late<E: EventLog>(core: &mut RunCore<E>, lane: u32, step: &LaneStep) -> Result<()>
    requires { AllowedAfter core.old (expired_event lane step.now) }
    ensures { Recorded core.old core.new (expired_event lane step.now) result }
{
    match step {
        LaneStep::Expired { plan, block } => add_expired(core, lane, *plan, *block),
        LaneStep::Served { .. } | LaneStep::Failed { .. } => Ok(()),
    }
}

/// Records one written term; of an empty one there is nothing to record.
fn record_written<E: EventLog>(core: &mut RunCore<E>, length: u64) -> Result<()>
    requires { AllowedAfter core.old (wrote_event length) }
    ensures { Recorded core.old core.new (wrote_event length) result }
{
    if length > 0 {
        return add_wrote(core, length);
    }
    Ok(())
}
