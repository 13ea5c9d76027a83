//! Looks for a missing block in the cache.
ghost use Rattle.std.specs.Prelude.{◌≡◌, OnErr};
ghost use Rattle.xet_events.specs.Allowed.{IsAllowed};
ghost use Rattle.xet_ties.specs.PartCalls.{LookUpCall};

use crate::event_calls::add_cached;
use std::alloc::Global;
use xet_blocks::XorbBlock;
use xet_error::Result;
use xet_fetch::look_up;
use xet_outside::ChunkCache;
use xet_run::{Event, EventLog, RunCore};

/// Looks once for a missing block of a plan, where it has one range. A block that is found keeps the entry's data, and
/// is recorded as cached. `OutOfMemory` where memory was refused; then nothing is recorded, and the block is as before.
pub fn look_up_block<K: ChunkCache, E: EventLog>(
    alloc: Global,
    core: &mut RunCore<E>,
    cache: &mut K,
    plan: u64,
    block: &mut XorbBlock,
) -> Result<()>
    requires { IsAllowed core.old (Event.Cached plan block.old.xorb_block_index) }
    ensures looked { LookUpCall block.old block.new plan (K.told cache.old) (K.told cache.new) core.old core.new
        result }
    ensures kept { OnErr result (block.new ≡ block.old) }
{
    let index = block.xorb_block_index;
    match look_up(alloc, block, cache) {
        Ok(None) => Ok(()),
        Ok(Some(found)) => match add_cached(core, plan, index) {
            Ok(()) => {
                block.kept = Some(found);
                Ok(())
            }
            Err(error) => Err(error),
        },
        Err(error) => Err(error),
    }
}
