//! Parts of a turn that take one step alone, for a leader that hands its terms out one by one.
ghost use Rattle.std.specs.Prelude.{◌≡◌, ◌<◌, length, option_map};
ghost use Rattle.xet_events.specs.Allowed.{IsAllowed, IsRunning};
ghost use Rattle.xet_leader.specs.Fetching.{IsFetch};
ghost use Rattle.xet_leader.specs.Keeping.{kept_one};
ghost use Rattle.xet_leader.specs.Looks.{CanLook, CanRequest};
ghost use Rattle.xet_leader.specs.ByNumber.{plan_index};
ghost use Rattle.xet_leader.specs.Offering.{OfferedBlock};
ghost use Rattle.xet_leader.specs.Plans.{block_there};
ghost use Rattle.xet_leader.specs.Stepping.{AdmitSome, CountedAt, LookedAt, RefreshedPlan};
ghost use Rattle.xet_ties.specs.Lanes.{IsFor};
ghost use Rattle.xet_lane.specs.Fetches.{ask_of};

use crate::by_number::plan_index;
use crate::expiries::count_one;
use crate::fetching::fetch_of;
use crate::keeping::keep_one;
use crate::leader::{Leader, LedPlan};
use crate::looks::look_up_place;
use crate::missing_blocks::BlockAt;
use crate::refreshing::refresh_at as refresh_place;
use std::alloc::Global;
use std::collections::VecDeque;
use std::sync::Wait;
use xet_base::FileRange;
use xet_blocks::{FetchPolicy, XorbBlock, XorbBlockData};
use xet_error::Result;
use xet_lane::Fetch;
use xet_outside::{ChunkCache, Client};
use xet_parts::{admit_terms, offer_block};
use xet_run::{BudgetSource, Event, EventLog, RunCore};

impl<P: FetchPolicy> Leader<P> {
    /// The queries of its manager, those that were asked and then those that are scheduled.
    pub fn queries(&self) -> &[FileRange]
        ensures { result.now ≡ self.now.manager.queries }
    {
        self.manager.queries()
    }
}

/// Admits planned terms that wait, so many at most, each under a limit that is asked for it, until none of these waits
/// or the limit refuses one. `OutOfMemory` where memory was refused; the terms that were admitted before stay recorded,
/// and the leader is as before.
///
/// In place of the semaphore of `file_reconstruction::file_reconstructor` of the Rust crate.
pub fn admit_some<R: Wait, P: FetchPolicy, B: BudgetSource, E: EventLog>(
    rt: &R,
    leader: &mut Leader<P>,
    core: &mut RunCore<E>,
    source: &mut B,
    most: u64,
) -> Result<()>
    ensures { AdmitSome most (B.told source.old) (B.told source.new) core.old core.new leader.old leader.new result }
{
    let count = leader.planned.saturating_sub(leader.admitted).min(most);
    match admit_terms(rt, core, source, count) {
        Ok(left) => {
            leader.admitted = leader.admitted.saturating_add(count.saturating_sub(left));
            Ok(())
        }
        Err(error) => Err(error),
    }
}

/// Looks once for a missing block, by its plan's number and its own. Where it is found it keeps its data, is recorded
/// as cached, and reported as transferred. Whether it is kept now. `OutOfMemory` where memory was refused.
///
/// In the Rust crate: a step of `file_reconstruction::reconstruction_terms::xorb_block::XorbBlock::retrieve_data`.
pub fn look_up_at<R: Wait, P: FetchPolicy, K: ChunkCache, E: EventLog>(
    rt: &R,
    alloc: Global,
    leader: &mut Leader<P>,
    core: &mut RunCore<E>,
    cache: &mut K,
    place: BlockAt,
) -> Result<bool>
    requires running { IsRunning core.old }
    requires can { CanLook core.old leader.old.plans place }
    ensures { LookedAt (K.told cache.old) (K.told cache.new) core.old core.new leader.old leader.new place result }
{
    let progress = leader.progress.as_ref();
    let plans = &mut leader.plans;
    look_up_place(rt, alloc, core, cache, plans, progress, place)
}

/// The fetch of a missing block, by its own request and under the next number.
///
/// In place of the task that the Rust crate spawns for a block.
pub fn fetch_at<'a, P: FetchPolicy>(leader: &'a Leader<P>, place: BlockAt) -> Fetch<'a>
    requires { CanRequest leader.now.plans place }
    ensures made { IsFetch leader.now.plans place leader.now.fetches result }
    ensures own { IsFor (ask_of result) }
{
    fetch_of(&leader.plans, leader.fetches, place)
}

/// The block at a place keeps this data, where it keeps none.
pub fn keep_at<P: FetchPolicy>(
    alloc: Global,
    leader: &mut Leader<P>,
    place: BlockAt,
    found: XorbBlockData,
)
    ensures { leader.new ≡ record leader.old { plans = kept_one (place.plan, place.block, found) leader.old.plans } }
{
    keep_one(alloc, &mut leader.plans, place, found);
}

/// Counts that the URL of a block expired once more. `UrlExpired` exactly where its tries, of which there are so many,
/// are used up by that.
///
/// The Rust crate counts the tries of a block in the call that fetches it.
pub fn count_at<P: FetchPolicy>(leader: &mut Leader<P>, place: BlockAt, tries: u32) -> Result<()>
    ensures { CountedAt tries place leader.old leader.new result }
{
    count_one(&mut leader.plans, place, tries)
}

/// Asks a connection once for the URLs of the plan of this number again, takes them and records it. The error is that
/// of `refresh_table` of `xet_parts`.
///
/// In the Rust crate: `XorbBlock::retrieve_data` asks again for each block on its own.
pub fn refresh_at<P: FetchPolicy, C: Client, E: EventLog>(
    alloc: Global,
    leader: &mut Leader<P>,
    core: &mut RunCore<E>,
    client: &mut C,
    number: u64,
    multirange: bool,
) -> Result<()>
    requires allowed { IsAllowed core.old (Event.Refreshed number) }
    requires within { plan_index leader.old.plans number < length leader.old.plans }
    ensures { RefreshedPlan multirange number (C.told client.old) (C.told client.new) core.old core.new leader.old
        leader.new result }
{
    let place = plan_index(&leader.plans, number);
    refresh_place(
        alloc,
        &mut leader.plans,
        core,
        client,
        number,
        place,
        multirange,
    )
}

/// Offers to a cache that takes entries what the block at a place keeps; a block of several ranges isn't offered, and a
/// place of no block is passed over. `OutOfMemory` where memory was refused.
///
/// In the Rust crate: a step of `XorbBlock::retrieve_data`.
pub fn offer_at<P: FetchPolicy, K: ChunkCache>(
    alloc: Global,
    leader: &Leader<P>,
    cache: &mut K,
    place: BlockAt,
) -> Result<()>
    ensures { OfferedBlock (block_there leader.now.plans place.block (plan_index leader.now.plans place.plan))
        (K.told cache.old) (K.told cache.new) result }
{
    match block_at(&leader.plans, place) {
        Some(block) => offer_block(alloc, cache, block),
        None => Ok(()),
    }
}

/// The block at a place.
fn block_at(plans: &VecDeque<LedPlan>, place: BlockAt) -> Option<&XorbBlock>
    ensures { option_map (λ x. x.now) result ≡ block_there plans.now.items place.block
        (plan_index plans.now.items place.plan) }
{
    match plans.get(plan_index(plans, place.plan)) {
        Some(plan) => plan.block.blocks.as_slice().get(place.block),
        None => None,
    }
}
