//! Provides the block of a stream's next term.
ghost use Rattle.std.specs.Prelude.{◌≡◌, ◌<◌, false, length, map, IfErr, OnOk};
ghost use Rattle.xet_events.specs.Allowed.{IsMissing};
ghost use Rattle.xet_events.specs.Events.{is_kept};
ghost use Rattle.xet_leader.specs.Led.{setup_of_job};
ghost use Rattle.xet_stream_rules.specs.Streams.{Carries, nobody};
ghost use Rattle.xet_stream_blocks.specs.BlockParts.{BlockFails};
ghost use Rattle.xet_stream_blocks.specs.steps.FetchParts.{FetchFails};
ghost use Rattle.xet_stream_blocks.specs.steps.Fetching.{Fetches};
ghost use Rattle.xet_stream_rules.specs.Moments.{at};
ghost use Rattle.xet_stream_blocks.specs.Providing.{Provides};

use crate::asking::{ask_lane, lane_of};
use crate::fetching::{expire_first, keep};
use std::alloc::Global;
use std::sync::Wait;
use xet_blocks::FetchPolicy;
use xet_error::{FileReconstructionError, Result};
use xet_leader::{BlockAt, Job, Leader, count_fetches, fetch_at, look_up_at};
use xet_outside::{ChunkCache, Client};
use xet_run::{EventLog, RunCore};
use xet_ties::LaneStep;

/// Provides a block, where it isn't kept: looks for it once in the cache, and asks for it once on the connection whose
/// turn it is where it isn't there. Where its URL had expired, it is counted and its plan's URLs are asked for again on
/// the first connection, once.
///
/// `ClientError` where a call failed; `CorruptedReconstruction` where an answer fails a test; `UrlExpired` where the
/// block's tries are used up; `FileNotFound` where a refresh was answered so; `OutOfMemory` where memory was refused.
pub fn provide<R: Wait, P: FetchPolicy, C: Client, K: ChunkCache, E: EventLog>(
    rt: &R,
    alloc: Global,
    job: Job,
    leader: &mut Leader<P>,
    core: &mut RunCore<E>,
    clients: &mut [C],
    cache: &mut K,
    place: BlockAt,
) -> Result<()>
    requires some { 0 < length clients.old }
    requires carries { Carries nobody (setup_of_job job) core.old leader.old }
    requires missing { is_kept core.old place.plan place.block ≡ false → IsMissing core.old place.plan place.block }
    ensures provides { OnOk result (Provides (setup_of_job job)
        (at core.old leader.old (map C.told clients.old) (K.told cache.old))
        (at core.new leader.new (map C.told clients.new) (K.told cache.new)) place) }
    ensures fails { IfErr result (BlockFails (setup_of_job job)
        (at core.old leader.old (map C.told clients.old) (K.told cache.old))
        (at core.new leader.new (map C.told clients.new) (K.told cache.new))) }
{
    if core.is_kept(place.plan, place.block) {
        return Ok(());
    }
    match look_up_at(rt, alloc, leader, core, cache, place) {
        Ok(true) => Ok(()),
        Ok(false) => fetch(rt, alloc, job, leader, core, clients, cache, place),
        Err(error) => Err(error),
    }
}

/// Asks for a missing block once, and takes the answer.
fn fetch<R: Wait, P: FetchPolicy, C: Client, K: ChunkCache, E: EventLog>(
    rt: &R,
    alloc: Global,
    job: Job,
    leader: &mut Leader<P>,
    core: &mut RunCore<E>,
    clients: &mut [C],
    cache: &mut K,
    place: BlockAt,
) -> Result<()>
    requires some { 0 < length clients.old }
    requires carries { Carries nobody (setup_of_job job) core.old leader.old }
    requires missing { IsMissing core.old place.plan place.block }
    ensures fetches { OnOk result (Fetches (setup_of_job job)
        (at core.old leader.old (map C.told clients.old) (K.told cache.old))
        (at core.new leader.new (map C.told clients.new) (K.told cache.new)) place) }
    ensures fails { IfErr result (FetchFails (setup_of_job job)
        (at core.old leader.old (map C.told clients.old) (K.told cache.old))
        (at core.new leader.new (map C.told clients.new) (K.told cache.new))) }
{
    let lane = lane_of(leader.fetches, clients.len());
    let wanted = fetch_at(leader, place);
    let step = match ask_lane(alloc, clients, lane, &wanted) {
        Ok(step) => step,
        Err(error) => return Err(FileReconstructionError::from(error)),
    };
    count_fetches(leader, 1);
    let lane = lane as u32;
    match step {
        LaneStep::Served { found, .. } => keep(rt, alloc, leader, core, cache, lane, place, found),
        LaneStep::Expired { .. } => {
            let (tries, multirange) = (job.config.tries, job.config.enable_multirange_fetching);
            expire_first(alloc, leader, core, clients, lane, place, tries, multirange)
        }
        LaneStep::Failed { error } => Err(error),
    }
}
