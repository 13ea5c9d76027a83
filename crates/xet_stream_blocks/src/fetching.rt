//! What follows on the answer of a connection that was asked for a block.
ghost use Rattle.std.specs.Prelude.{◌∷◌, ◌++◌, ◌<◌, [], length, map};
ghost use Rattle.xet_events.specs.Allowed.{IsAllowed};
ghost use Rattle.xet_leader.specs.ByNumber.{plan_index};
ghost use Rattle.xet_stream_blocks.specs.steps.Fetching.{ExpireCall, FirstExpires, KeepCall};

use std::alloc::Global;
use std::sync::Wait;
use xet_blocks::{FetchPolicy, XorbBlockData};
use xet_error::Result;
use xet_fetch::report_transfer;
use xet_leader::by_number::plan_index;
use xet_leader::{BlockAt, Leader, count_at, keep_at, offer_at, refresh_at};
use xet_outside::{ChunkCache, Client};
use xet_parts::{add_expired, add_fetched};
use xet_run::{Event, EventLog, RunCore};

/// A block that was served is recorded, reported as transferred, keeps its data, and is offered to the cache.
/// `OutOfMemory` where memory was refused.
pub(crate) fn keep<R: Wait, P: FetchPolicy, K: ChunkCache, E: EventLog>(
    rt: &R,
    alloc: Global,
    leader: &mut Leader<P>,
    core: &mut RunCore<E>,
    cache: &mut K,
    lane: u32,
    place: BlockAt,
    found: XorbBlockData,
) -> Result<()>
    requires { IsAllowed core.old (Event.Fetched lane place.plan place.block) }
    ensures { KeepCall lane place found (K.told cache.old) (K.told cache.new) core.old core.new leader.old leader.new
        result }
{
    match add_fetched(core, lane, place.plan, place.block) {
        Ok(()) => {}
        Err(error) => return Err(error),
    }
    report_block(rt, leader, place);
    keep_at(alloc, leader, place, found);
    offer_at(alloc, leader, cache, place)
}

/// Reports a block as transferred; a place of no plan reports nothing, and a refused report changes nothing.
fn report_block<R: Wait, P: FetchPolicy>(rt: &R, leader: &Leader<P>, place: BlockAt) {
    if let Some(plan) = leader.plans.get(plan_index(&leader.plans, place.plan)) {
        report_transfer(rt, leader.progress.as_ref(), &plan.block.urls, place.block);
    }
}

/// A block whose URL had expired is recorded and counted, and a connection is asked once for its plan's URLs again.
/// `UrlExpired` where its tries, of which there are so many, are used up; the errors of a refresh; `OutOfMemory` where
/// memory was refused.
fn expire<P: FetchPolicy, C: Client, E: EventLog>(
    alloc: Global,
    leader: &mut Leader<P>,
    core: &mut RunCore<E>,
    client: &mut C,
    lane: u32,
    place: BlockAt,
    tries: u32,
    multirange: bool,
) -> Result<()>
    requires allowed { IsAllowed core.old (Event.Expired lane place.plan place.block) }
    requires within { plan_index leader.old.plans place.plan < length leader.old.plans }
    requires stale { IsAllowed (core.old ++ Event.Expired lane place.plan place.block ∷ [])
        (Event.Refreshed place.plan) }
    ensures { ExpireCall lane place tries multirange (C.told client.old) (C.told client.new) core.old core.new
        leader.old leader.new result }
{
    match add_expired(core, lane, place.plan, place.block) {
        Ok(()) => {}
        Err(error) => return Err(error),
    }
    match count_at(leader, place, tries) {
        Ok(()) => {}
        Err(error) => return Err(error),
    }
    refresh_at(alloc, leader, core, client, place.plan, multirange)
}

/// The same over the first of these connections; the others are as before.
pub(crate) fn expire_first<P: FetchPolicy, C: Client, E: EventLog>(
    alloc: Global,
    leader: &mut Leader<P>,
    core: &mut RunCore<E>,
    clients: &mut [C],
    lane: u32,
    place: BlockAt,
    tries: u32,
    multirange: bool,
) -> Result<()>
    requires some { 0 < length clients.old }
    requires allowed { IsAllowed core.old (Event.Expired lane place.plan place.block) }
    requires within { plan_index leader.old.plans place.plan < length leader.old.plans }
    requires stale { IsAllowed (core.old ++ Event.Expired lane place.plan place.block ∷ [])
        (Event.Refreshed place.plan) }
    ensures { FirstExpires lane place tries multirange (map C.told clients.old) (map C.told clients.new) core.old
        core.new leader.old leader.new result }
{
    expire(
        alloc,
        leader,
        core,
        &mut clients[0],
        lane,
        place,
        tries,
        multirange,
    )
}
