//! Records one event that is allowed.
ghost use Rattle.std.specs.Prelude.{◌≡◌, ◌+◌, [], ◌∷◌, OnErr};
ghost use Rattle.xet_events.specs.Allowed.{IsAllowed};
ghost use Rattle.xet_events.specs.Events.{plan_count};
ghost use Rattle.xet_ties.specs.Recordings.{Recorded};

use std::alloc::Global;
use xet_base::FileRange;
use xet_error::{FileReconstructionError, Result};
use xet_run::{CoreRefusal, Event, EventLog, PlanSource, RunCore};

/// Records the plan of a query under the next number, with the terms and blocks of its source. `OutOfMemory` where
/// memory was refused, and then nothing is recorded.
pub fn add_planned<E: EventLog, S: PlanSource>(
    alloc: Global,
    core: &mut RunCore<E>,
    query: FileRange,
    source: &S,
) -> Result<()>
    requires { IsAllowed core.old
        (Event.Planned (plan_count core.old + 1) query (S.terms source.now) (S.blocks source.now)) }
    ensures recorded { Recorded core.old core.new
        (Event.Planned (plan_count core.old + 1) query (S.terms source.now) (S.blocks source.now) ∷ []) result }
    ensures kept { OnErr result (core.new ≡ core.old) }
{
    match core.planned(alloc, query, source) {
        Ok(()) => Ok(()),
        Err(CoreRefusal::OutOfMemory) => Err(FileReconstructionError::OutOfMemory),
        Err(CoreRefusal::NotAllowed) => unreachable!(),
    }
}

/// Records that a lane fetched a block. `OutOfMemory` where memory was refused, and then nothing is recorded.
pub fn add_fetched<E: EventLog>(
    core: &mut RunCore<E>,
    lane: u32,
    plan: u64,
    block: usize,
) -> Result<()>
    requires { IsAllowed core.old (Event.Fetched lane plan block) }
    ensures recorded { Recorded core.old core.new (Event.Fetched lane plan block ∷ []) result }
    ensures kept { OnErr result (core.new ≡ core.old) }
{
    match core.fetched(lane, plan, block) {
        Ok(()) => Ok(()),
        Err(CoreRefusal::OutOfMemory) => Err(FileReconstructionError::OutOfMemory),
        Err(CoreRefusal::NotAllowed) => unreachable!(),
    }
}

/// Records that the cache gave a block. `OutOfMemory` where memory was refused, and then nothing is recorded.
pub fn add_cached<E: EventLog>(core: &mut RunCore<E>, plan: u64, block: usize) -> Result<()>
    requires { IsAllowed core.old (Event.Cached plan block) }
    ensures recorded { Recorded core.old core.new (Event.Cached plan block ∷ []) result }
    ensures kept { OnErr result (core.new ≡ core.old) }
{
    match core.cached(plan, block) {
        Ok(()) => Ok(()),
        Err(CoreRefusal::OutOfMemory) => Err(FileReconstructionError::OutOfMemory),
        Err(CoreRefusal::NotAllowed) => unreachable!(),
    }
}

/// Records that a lane was answered that a block's URL has expired. `OutOfMemory` where memory was refused, and then
/// nothing is recorded.
pub fn add_expired<E: EventLog>(
    core: &mut RunCore<E>,
    lane: u32,
    plan: u64,
    block: usize,
) -> Result<()>
    requires { IsAllowed core.old (Event.Expired lane plan block) }
    ensures recorded { Recorded core.old core.new (Event.Expired lane plan block ∷ []) result }
    ensures kept { OnErr result (core.new ≡ core.old) }
{
    match core.expired(lane, plan, block) {
        Ok(()) => Ok(()),
        Err(CoreRefusal::OutOfMemory) => Err(FileReconstructionError::OutOfMemory),
        Err(CoreRefusal::NotAllowed) => unreachable!(),
    }
}

/// Records that the URLs of a plan were asked for again. `OutOfMemory` where memory was refused, and then nothing is
/// recorded.
pub fn add_refreshed<E: EventLog>(core: &mut RunCore<E>, plan: u64) -> Result<()>
    requires { IsAllowed core.old (Event.Refreshed plan) }
    ensures recorded { Recorded core.old core.new (Event.Refreshed plan ∷ []) result }
    ensures kept { OnErr result (core.new ≡ core.old) }
{
    match core.refreshed(plan) {
        Ok(()) => Ok(()),
        Err(CoreRefusal::OutOfMemory) => Err(FileReconstructionError::OutOfMemory),
        Err(CoreRefusal::NotAllowed) => unreachable!(),
    }
}

/// Records so many written bytes of the oldest unfinished term. `OutOfMemory` where memory was refused, and then
/// nothing is recorded.
pub fn add_wrote<E: EventLog>(core: &mut RunCore<E>, taken: u64) -> Result<()>
    requires { IsAllowed core.old (Event.Wrote taken) }
    ensures recorded { Recorded core.old core.new (Event.Wrote taken ∷ []) result }
    ensures kept { OnErr result (core.new ≡ core.old) }
{
    match core.wrote(taken) {
        Ok(()) => Ok(()),
        Err(CoreRefusal::OutOfMemory) => Err(FileReconstructionError::OutOfMemory),
        Err(CoreRefusal::NotAllowed) => unreachable!(),
    }
}
