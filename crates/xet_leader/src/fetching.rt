//! The fetches of the blocks that are missing.
ghost use Rattle.std.specs.Prelude.{◌≡◌, ◌+◌, ◌-◌, ◌^◌, All, IfErr, IfOk, OnOk, map, min};
ghost use Rattle.xet_error.specs.declared.error.FileReconstructionError.TheVariants as error;
ghost use Rattle.xet_ties.specs.Lanes.{IsFor};
ghost use Rattle.xet_lane.specs.Fetches.{ask_of};
ghost use Rattle.xet_leader.specs.FetchLists.{Each};
ghost use Rattle.xet_leader.specs.Fetching.{AddsFetch, AreFetches, FetchLeads, IsFetch};
ghost use Rattle.xet_leader.specs.Looks.{CanRequest};

use crate::by_number::plan_index;
use crate::leader::{Leader, LedPlan};
use crate::missing_blocks::BlockAt;
use std::alloc::Global;
use std::collections::VecDeque;
use xet_base::List;
use xet_blocks::FetchPolicy;
use xet_error::{FileReconstructionError, Result};
use xet_lane::Fetch;

/// A fetch of each of these blocks, by its own request, in their order. They are numbered from the leader's count of
/// fetches on; numbers stop at `u64::MAX`. `OutOfMemory` where memory was refused.
///
/// In place of the tasks that the Rust crate spawns for the blocks of a file.
pub fn fetches<'a, P: FetchPolicy>(
    alloc: Global,
    leader: &'a Leader<P>,
    places: &[BlockAt],
) -> Result<List<Fetch<'a>>>
    requires { Each (CanRequest leader.now.plans) places.now }
    ensures made { IfOk result (AreFetches leader.now.plans leader.now.fetches places.now) }
    ensures memory { IfErr result (λ e. e ≡ error.OutOfMemory) }
    ensures own { IfOk result (λ made. All IsFor (map ask_of made)) }
    ensures leads { FetchLeads leader.now places.now result }
{
    fetches_of(alloc, &leader.plans, leader.fetches, places)
}

/// Counts fetches that were made, a count that stops at `u64::MAX`.
pub fn count_fetches<P: FetchPolicy>(leader: &mut Leader<P>, count: usize)
    ensures { leader.new ≡ record leader.old { fetches = min (leader.old.fetches + count) (2 ^ 64 - 1) } }
{
    leader.fetches = leader.fetches.saturating_add(count as u64);
}

/// A fetch of each of these blocks of plans, numbered from this number on.
fn fetches_of<'a>(
    alloc: Global,
    plans: &'a VecDeque<LedPlan>,
    first: u64,
    places: &[BlockAt],
) -> Result<List<Fetch<'a>>>
    requires { Each (CanRequest plans.now.items) places.now }
    ensures made { IfOk result (AreFetches plans.now.items first places.now) }
    ensures memory { IfErr result (λ e. e ≡ error.OutOfMemory) }
{
    let mut made = List::with_hint(alloc, places.len());
    for (place, block) in places.iter().enumerate() {
        let number = first.saturating_add(place as u64);
        match add_fetch(plans, number, *block, &mut made) {
            Ok(()) => {}
            Err(error) => return Err(error),
        }
    }
    Ok(made)
}

/// Adds a fetch of a block.
fn add_fetch<'a>(
    plans: &'a VecDeque<LedPlan>,
    number: u64,
    place: BlockAt,
    made: &mut List<Fetch<'a>>,
) -> Result<()>
    requires { CanRequest plans.now.items place }
    ensures added { OnOk result (AddsFetch plans.now.items place number made.old made.new) }
    ensures memory { IfErr result (λ e. e ≡ error.OutOfMemory) }
{
    match made.push(fetch_of(plans, number, place)) {
        Ok(()) => Ok(()),
        Err(error) => Err(FileReconstructionError::from(error)),
    }
}

/// The fetch of a block, with this number.
pub(crate) fn fetch_of<'a>(plans: &'a VecDeque<LedPlan>, number: u64, place: BlockAt) -> Fetch<'a>
    requires { CanRequest plans.now.items place }
    ensures { IsFetch plans.now.items place number result }
{
    let plan = &plans[plan_index(plans, place.plan)];
    let block = &plan.block.blocks.as_slice()[place.block];
    let urls = &plan.block.urls;
    Fetch {
        number,
        block,
        urls,
    }
}
