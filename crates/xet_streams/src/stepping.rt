//! One step of a stream.
ghost use Rattle.std.specs.Prelude.{◌≡◌, ◌<◌, length, map};
ghost use Rattle.xet_leader.specs.Led.{setup_of_job};
ghost use Rattle.xet_leader.specs.LedTerms.{IsNextTerm};
ghost use Rattle.xet_stream_rules.specs.Moments.{at};
ghost use Rattle.xet_stream_rules.specs.Streams.{Carries, nobody};
ghost use Rattle.xet_stream_terms.specs.Handing.{IsOpenNext};
ghost use Rattle.xet_stream_terms.specs.Planning.{IsMarked};
ghost use Rattle.xet_streams.specs.Places.{IsPlaced};
ghost use Rattle.xet_streams.specs.steps.Stepping.{DeliversCall, IsPlaceOf, ServesCall, TakesStep};

use bytes::Bytes;
use std::alloc::Global;
use std::sync::Wait;
use xet_blocks::FetchPolicy;
use xet_error::Result;
use xet_leader::{BlockAt, Job, Leader, NextTerm, next_of};
use xet_outside::{ChunkCache, Client};
use xet_run::{BudgetSource, EventLog, RunCore};
use xet_stream_blocks::provide;
use xet_stream_rules::Step;
use xet_stream_terms::{admit_next, hand_over, plan_next};

/// One step of a stream that isn't at its end: plans the next term, admits the terms up to it, provides its block, and
/// hands its bytes over where they are there. None where the plan that was asked for has no term with bytes, which
/// ended early. `start` becomes the place of a piece's first byte in the file.
pub(crate) fn take_step<
    R: Wait,
    P: FetchPolicy,
    B: BudgetSource,
    C: Client,
    K: ChunkCache,
    E: EventLog,
>(
    rt: &R,
    alloc: Global,
    job: Job,
    leader: &mut Leader<P>,
    core: &mut RunCore<E>,
    source: &mut B,
    reached: &mut bool,
    clients: &mut [C],
    cache: &mut K,
    start: &mut u64,
) -> Result<Step<Option<Bytes>>>
    requires some { 0 < length clients.old }
    requires carries { Carries nobody (setup_of_job job) core.old leader.old }
    requires marked { IsMarked job.byte_range core.old reached.old }
    ensures taken { TakesStep (setup_of_job job) (at core.old leader.old (map C.told clients.old) (K.told cache.old))
        (at core.new leader.new (map C.told clients.new) (K.told cache.new)) (B.told source.old) (B.told source.new)
        reached.new result }
    ensures placed { IsPlaced core.new start.new result }
{
    match plan_next(rt, alloc, job, leader, core, clients, reached) {
        Ok(Some(next)) => serve(
            rt, alloc, job, leader, core, source, clients, cache, next, start,
        ),
        Ok(None) => Ok(Step::Ready(None)),
        Err(error) => Err(error),
    }
}

/// Admits the terms up to the next one, and delivers it.
fn serve<R: Wait, P: FetchPolicy, B: BudgetSource, C: Client, K: ChunkCache, E: EventLog>(
    rt: &R,
    alloc: Global,
    job: Job,
    leader: &mut Leader<P>,
    core: &mut RunCore<E>,
    source: &mut B,
    clients: &mut [C],
    cache: &mut K,
    next: NextTerm,
    start: &mut u64,
) -> Result<Step<Option<Bytes>>>
    requires some { 0 < length clients.old }
    requires carries { Carries nobody (setup_of_job job) core.old leader.old }
    requires next { IsNextTerm leader.old next }
    ensures served { ServesCall (setup_of_job job) (at core.old leader.old (map C.told clients.old) (K.told cache.old))
        (at core.new leader.new (map C.told clients.new) (K.told cache.new)) (B.told source.old) (B.told source.new)
        next result }
    ensures placed { IsPlaced core.new start.new result }
{
    match admit_next(rt, leader, core, source, next) {
        Ok(()) => deliver(rt, alloc, job, leader, core, clients, cache, next, start),
        Err(error) => Err(error),
    }
}

/// Provides the block of the next term, which is admitted, and hands its bytes over where they are there.
fn deliver<R: Wait, P: FetchPolicy, C: Client, K: ChunkCache, E: EventLog>(
    rt: &R,
    alloc: Global,
    job: Job,
    leader: &mut Leader<P>,
    core: &mut RunCore<E>,
    clients: &mut [C],
    cache: &mut K,
    next: NextTerm,
    start: &mut u64,
) -> Result<Step<Option<Bytes>>>
    requires some { 0 < length clients.old }
    requires carries { Carries nobody (setup_of_job job) core.old leader.old }
    requires next { IsOpenNext leader.old next }
    ensures delivered { DeliversCall (setup_of_job job)
        (at core.old leader.old (map C.told clients.old) (K.told cache.old))
        (at core.new leader.new (map C.told clients.new) (K.told cache.new)) result }
    ensures placed { IsPlaced core.new start.new result }
{
    let place = place_of(leader, next);
    match provide(rt, alloc, job, leader, core, clients, cache, place) {
        Ok(()) => {}
        Err(error) => return Err(error),
    }
    match next_of(leader) {
        Some(next) => hand_over(rt, alloc, leader, core, next, start),
        None => Ok(Step::Pending),
    }
}

/// The place of the next term's block.
fn place_of<P: FetchPolicy>(leader: &Leader<P>, next: NextTerm) -> BlockAt
    requires { IsNextTerm leader.now next }
    ensures { IsPlaceOf leader.now.plans next result }
{
    let plan = leader.plans[next.place].number;
    let block = next.term.xorb_block;
    BlockAt { plan, block }
}
