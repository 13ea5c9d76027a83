//! What is settled after a round: its blocks are offered to the cache, and stale plans are asked for again.
ghost use Rattle.xet_events.specs.Allowed.{IsRunning};
ghost use Rattle.xet_leader.specs.Led.{AreStale};
ghost use Rattle.xet_leader.specs.Settling.{SettleLeads, SettleTurn};

use crate::leader::Leader;
use crate::missing_blocks::BlockAt;
use crate::offering::offer_served;
use crate::refreshing::refresh_stale;
use std::alloc::Global;
use xet_blocks::FetchPolicy;
use xet_error::Result;
use xet_outside::{ChunkCache, Client};
use xet_run::{EventLog, RunCore};

/// Offers to the cache the blocks that lanes served in a round, and then asks the first connection for the URLs of the
/// stale plans again. Afterwards no block is due, and no plan is stale.
///
/// The error of `refresh_stale`, or `OutOfMemory` where memory for an offer was refused; then no plan was asked for.
/// A run that goes on goes on after it, or is to stop with that error.
///
/// In the Rust crate: the end of `XorbBlock::retrieve_data`, of each block on its own.
pub fn settle<P: FetchPolicy, C: Client, K: ChunkCache, E: EventLog>(
    alloc: Global,
    leader: &mut Leader<P>,
    core: &mut RunCore<E>,
    client: &mut C,
    cache: &mut K,
    places: &[BlockAt],
    stale: &[u64],
    multirange: bool,
) -> Result<()>
    requires running { IsRunning core.old }
    requires stale { AreStale core.old stale.now }
    ensures turn { SettleTurn multirange places.now stale.now
        (record { client = C.told client.old; cache = K.told cache.old; events = core.old; led = leader.old })
        (record { client = C.told client.new; cache = K.told cache.new; events = core.new; led = leader.new }) result }
    ensures leads { SettleLeads multirange places.now stale.now
        (record { client = C.told client.old; cache = K.told cache.old; events = core.old; led = leader.old })
        (record { client = C.told client.new; cache = K.told cache.new; events = core.new; led = leader.new }) result }
{
    settle_both(
        alloc, leader, core, client, cache, places, stale, multirange,
    )
}

/// The same, without what it does to a run.
fn settle_both<P: FetchPolicy, C: Client, K: ChunkCache, E: EventLog>(
    alloc: Global,
    leader: &mut Leader<P>,
    core: &mut RunCore<E>,
    client: &mut C,
    cache: &mut K,
    places: &[BlockAt],
    stale: &[u64],
    multirange: bool,
) -> Result<()>
    requires running { IsRunning core.old }
    requires stale { AreStale core.old stale.now }
    ensures { SettleTurn multirange places.now stale.now
        (record { client = C.told client.old; cache = K.told cache.old; events = core.old; led = leader.old })
        (record { client = C.told client.new; cache = K.told cache.new; events = core.new; led = leader.new }) result }
{
    match offer_served(alloc, leader, cache, places) {
        Ok(()) => refresh_stale(alloc, leader, core, client, stale, multirange),
        Err(error) => Err(error),
    }
}
