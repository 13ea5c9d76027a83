//! Asks for the URLs of stale plans again.
ghost use Rattle.std.specs.Prelude.{◌<◌, length};
ghost use Rattle.xet_events.specs.Allowed.{IsAllowed, IsRunning};
ghost use Rattle.xet_leader.specs.Led.{AreStale};
ghost use Rattle.xet_leader.specs.Refreshing.{RefreshCalls, RefreshLeads, RefreshTurn, RefreshedAt, RefreshedOne};

use crate::leader::{Leader, LedPlan};
use crate::places::find_plan;
use std::alloc::Global;
use std::collections::VecDeque;
use xet_blocks::FetchPolicy;
use xet_error::Result;
use xet_outside::Client;
use xet_parts::refresh_table;
use xet_run::{Event, EventLog, RunCore};

/// Asks the first connection once for the URLs of each of these plans again, in order, takes them and records it; a
/// number of no plan is passed over. No plan is stale after it.
///
/// The error of `refresh_table` of `xet_parts` where one is refused, and then the plans before it have their new URLs.
/// A run that goes on goes on after it, or is to stop with that error.
///
/// In the Rust crate: `XorbBlock::retrieve_data` asks again for each block on its own.
pub fn refresh_stale<P: FetchPolicy, C: Client, E: EventLog>(
    alloc: Global,
    leader: &mut Leader<P>,
    core: &mut RunCore<E>,
    client: &mut C,
    stale: &[u64],
    multirange: bool,
) -> Result<()>
    requires running { IsRunning core.old }
    requires stale { AreStale core.old stale.now }
    ensures turn { RefreshTurn multirange stale.now (C.told client.old) (C.told client.new) core.old core.new leader.old
        leader.new result }
    ensures leads { RefreshLeads multirange stale.now (C.told client.old) (C.told client.new) core.old core.new
        leader.old leader.new result }
{
    refresh_each(alloc, leader, core, client, stale, multirange)
}

/// The same, without what it does to a run.
fn refresh_each<P: FetchPolicy, C: Client, E: EventLog>(
    alloc: Global,
    leader: &mut Leader<P>,
    core: &mut RunCore<E>,
    client: &mut C,
    stale: &[u64],
    multirange: bool,
) -> Result<()>
    requires running { IsRunning core.old }
    requires stale { AreStale core.old stale.now }
    ensures { RefreshTurn multirange stale.now (C.told client.old) (C.told client.new) core.old core.new leader.old
        leader.new result }
{
    refresh_plans(alloc, &mut leader.plans, core, client, stale, multirange)
}

/// The same of plans alone.
fn refresh_plans<C: Client, E: EventLog>(
    alloc: Global,
    plans: &mut VecDeque<LedPlan>,
    core: &mut RunCore<E>,
    client: &mut C,
    stale: &[u64],
    multirange: bool,
) -> Result<()>
    requires running { IsRunning core.old }
    requires stale { AreStale core.old stale.now }
    ensures { RefreshCalls multirange stale.now
        (record { client = C.told client.old; events = core.old; plans = plans.old.items })
        (record { client = C.told client.new; events = core.new; plans = plans.new.items }) result }
{
    for number in stale {
        match refresh_one(alloc, plans, core, client, *number, multirange) {
            Ok(()) => {}
            Err(error) => return Err(error),
        }
    }
    Ok(())
}

/// Asks for the URLs of the plan of this number again, where it is among these.
fn refresh_one<C: Client, E: EventLog>(
    alloc: Global,
    plans: &mut VecDeque<LedPlan>,
    core: &mut RunCore<E>,
    client: &mut C,
    number: u64,
    multirange: bool,
) -> Result<()>
    requires { IsAllowed core.old (Event.Refreshed number) }
    ensures { RefreshedOne multirange number
        (record { client = C.told client.old; events = core.old; plans = plans.old.items })
        (record { client = C.told client.new; events = core.new; plans = plans.new.items }) result }
{
    match find_plan(plans, number) {
        Some(place) => refresh_at(alloc, plans, core, client, number, place, multirange),
        None => Ok(()),
    }
}

/// Asks for the URLs of the plan at this place again, under this number.
pub(crate) fn refresh_at<C: Client, E: EventLog>(
    alloc: Global,
    plans: &mut VecDeque<LedPlan>,
    core: &mut RunCore<E>,
    client: &mut C,
    number: u64,
    place: usize,
    multirange: bool,
) -> Result<()>
    requires allowed { IsAllowed core.old (Event.Refreshed number) }
    requires within { place < length plans.old.items }
    ensures { RefreshedAt multirange number place
        (record { client = C.told client.old; events = core.old; plans = plans.old.items })
        (record { client = C.told client.new; events = core.new; plans = plans.new.items }) result }
{
    refresh_table(
        alloc,
        core,
        client,
        number,
        &mut plans[place].block,
        multirange,
    )
}
