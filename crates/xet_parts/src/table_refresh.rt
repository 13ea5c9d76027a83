//! Asks for the URLs of a plan again.
ghost use Rattle.xet_events.specs.Allowed.{IsAllowed};
ghost use Rattle.xet_parts.specs.PlanRefreshes.{RefreshPlanCall};

use crate::event_calls::add_refreshed;
use std::alloc::Global;
use xet_blocks::TermBlock;
use xet_error::Result;
use xet_fetch::refresh_retrieval_urls;
use xet_outside::Client;
use xet_run::{Event, EventLog, RunCore};

/// Asks a connection once for the plan of a table's bytes again, by the table's own id, takes the new URLs and records
/// it under the plan's number.
///
/// The error of `refresh_retrieval_urls`, and then the plan is as before; or `OutOfMemory` where recording it found no
/// memory, and then its URLs are the new ones. Nothing is recorded then.
///
/// In the Rust crate: a step of `XorbBlock::retrieve_data`, by
/// `TermBlockRetrievalURLs::refresh_retrieval_urls`.
pub fn refresh_table<C: Client, E: EventLog>(
    alloc: Global,
    core: &mut RunCore<E>,
    client: &mut C,
    number: u64,
    block: &mut TermBlock,
    multirange: bool,
) -> Result<()>
    requires { IsAllowed core.old (Event.Refreshed number) }
    ensures { RefreshPlanCall block.old block.new (C.told client.old) (C.told client.new) core.old core.new number
        multirange result }
{
    let id = block.urls.acquisition_id();
    match refresh_retrieval_urls(
        alloc,
        &mut block.urls,
        client,
        id,
        block.blocks.as_slice(),
        multirange,
    ) {
        Ok(()) => add_refreshed(core, number),
        Err(error) => Err(error),
    }
}
