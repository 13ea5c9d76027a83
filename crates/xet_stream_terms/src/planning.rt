//! Plans the next term of a stream.
ghost use Rattle.std.specs.Prelude.{◌≡◌, ◌<◌, IfErr, IfOk, length, map};
ghost use Rattle.xet_outside.specs.Told.{CacheTold};
ghost use Rattle.xet_leader.specs.Led.{setup_of_job};
ghost use Rattle.xet_stream_terms.specs.PlanParts.{PlanFails};
ghost use Rattle.xet_stream_terms.specs.Planning.{IsMarked};
ghost use Rattle.xet_stream_rules.specs.Streams.{Carries, nobody};
ghost use Rattle.xet_stream_rules.specs.Moments.{at};
ghost use Rattle.xet_stream_terms.specs.Planning.{PlansNext};
ghost use Rattle.xet_stream_terms.specs.steps.Asking.{AsksNext, is_last};

use std::alloc::Global;
use std::sync::Wait;
use xet_blocks::FetchPolicy;
use xet_error::Result;
use xet_leader::{Job, Leader, NextTerm, ask, next_of};
use xet_outside::{Client, NeverCancel};
use xet_run::{EventLog, RunCore};

/// The next planned term that has bytes. Where none is planned the first connection is asked once for the plan that is
/// due; a plan without such a term ended early, so then there is none any more. The mark says afterwards whether the
/// range is planned to its end or the file's.
///
/// `ClientError` where the call failed; `FileNotFound` where the file was said not to be there;
/// `CorruptedReconstruction` where the plan fails a test; `OutOfMemory` where memory was refused.
pub fn plan_next<R: Wait, P: FetchPolicy, C: Client, E: EventLog>(
    rt: &R,
    alloc: Global,
    job: Job,
    leader: &mut Leader<P>,
    core: &mut RunCore<E>,
    clients: &mut [C],
    reached: &mut bool,
) -> Result<Option<NextTerm>>
    requires some { 0 < length clients.old }
    requires carries { Carries nobody (setup_of_job job) core.old leader.old }
    requires marked { IsMarked job.byte_range core.old reached.old }
    ensures planned { (k : CacheTold) → IfOk result (PlansNext (setup_of_job job)
        (at core.old leader.old (map C.told clients.old) k) (at core.new leader.new (map C.told clients.new) k)
        reached.new) }
    ensures fails { (k : CacheTold) → IfErr result (PlanFails (setup_of_job job)
        (at core.old leader.old (map C.told clients.old) k) (at core.new leader.new (map C.told clients.new) k)) }
{
    core.check_history();
    let next = next_of(leader);
    if next.is_some() {
        return Ok(next);
    }
    ask_next(rt, alloc, job, leader, core, clients, reached)
}

/// The next term of the plan that is due, which is asked for.
fn ask_next<R: Wait, P: FetchPolicy, C: Client, E: EventLog>(
    rt: &R,
    alloc: Global,
    job: Job,
    leader: &mut Leader<P>,
    core: &mut RunCore<E>,
    clients: &mut [C],
    reached: &mut bool,
) -> Result<Option<NextTerm>>
    requires some { 0 < length clients.old }
    requires carries { Carries nobody (setup_of_job job) core.old leader.old }
    ensures { AsksNext job (map C.told clients.old) (map C.told clients.new) core.old core.new leader.old leader.new
        reached.new result }
{
    let plans = plans_of(leader);
    match ask(rt, alloc, leader, core, clients, &mut NeverCancel, job) {
        Ok(true) => {
            *reached = is_last(leader, plans, job.byte_range.end);
            Ok(next_of(leader))
        }
        Ok(false) => {
            *reached = true;
            Ok(None)
        }
        Err(error) => Err(error),
    }
}

/// How many plans a leader has.
fn plans_of<P: FetchPolicy>(leader: &Leader<P>) -> usize
    ensures { result ≡ length leader.now.plans }
{
    leader.plans.len()
}

/// Whether the plan that was asked for last, before which there were so many, reaches this end of the range, or ended
/// before its query.
fn is_last<P: FetchPolicy>(leader: &Leader<P>, before: usize, end: u64) -> bool
    ensures { result ≡ is_last before end leader.now }
{
    if leader.plans.len() <= before {
        return true;
    }
    let Some(plan) = leader.plans.back() else {
        return true;
    };
    let place = plan.number.saturating_sub(1) as usize;
    match leader.queries().get(place) {
        Some(query) => plan.block.byte_range.end < query.end || query.end == end,
        None => true,
    }
}
