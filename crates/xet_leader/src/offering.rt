//! Offers the blocks that lanes served to the cache.
ghost use Rattle.xet_leader.specs.Offering.{OfferCalls, OfferLeads, OfferedOne};

use crate::leader::{Leader, LedPlan};
use crate::missing_blocks::BlockAt;
use crate::places::find_block;
use std::alloc::Global;
use std::collections::VecDeque;
use xet_blocks::FetchPolicy;
use xet_error::Result;
use xet_outside::ChunkCache;
use xet_parts::offer_block;

/// Offers to a cache that takes entries what the blocks at these places keep, each once, in order; a block of several
/// ranges isn't offered, and a place of no block is passed over. `OutOfMemory` where memory was refused, and then the
/// blocks before it were offered. A run that goes on goes on after it, or is to stop with that error.
///
/// In the Rust crate: `XorbBlock::retrieve_data` offers each block on its own.
pub fn offer_served<P: FetchPolicy, K: ChunkCache>(
    alloc: Global,
    leader: &Leader<P>,
    cache: &mut K,
    places: &[BlockAt],
) -> Result<()>
    ensures turn { OfferCalls leader.now.plans places.now (K.told cache.old) (K.told cache.new) result }
    ensures leads { OfferLeads places.now (K.told cache.old) (K.told cache.new) leader.now result }
{
    offer_each(alloc, leader, cache, places)
}

/// The same, without what it does to a run.
fn offer_each<P: FetchPolicy, K: ChunkCache>(
    alloc: Global,
    leader: &Leader<P>,
    cache: &mut K,
    places: &[BlockAt],
) -> Result<()>
    ensures { OfferCalls leader.now.plans places.now (K.told cache.old) (K.told cache.new) result }
{
    offer_blocks(alloc, &leader.plans, cache, places)
}

/// The same of plans alone.
fn offer_blocks<K: ChunkCache>(
    alloc: Global,
    plans: &VecDeque<LedPlan>,
    cache: &mut K,
    places: &[BlockAt],
) -> Result<()>
    ensures { OfferCalls plans.now.items places.now (K.told cache.old) (K.told cache.new) result }
{
    for place in places {
        match offer_one(alloc, plans, cache, place) {
            Ok(()) => {}
            Err(error) => return Err(error),
        }
    }
    Ok(())
}

/// Offers what the block at this place keeps, where there is one.
fn offer_one<K: ChunkCache>(
    alloc: Global,
    plans: &VecDeque<LedPlan>,
    cache: &mut K,
    place: &BlockAt,
) -> Result<()>
    ensures { OfferedOne plans.now.items place.now (K.told cache.old) (K.told cache.new) result }
{
    match find_block(plans, place.plan, place.block) {
        Some(block) => offer_block(alloc, cache, block),
        None => Ok(()),
    }
}
