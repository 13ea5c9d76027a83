//! Looks for the blocks that are missing into the cache.
ghost use Rattle.std.specs.Prelude.{◌≡◌, ◌<◌, ◌∷◌, ◌++◌, [], Some, IfErr, IfOk, OnErr, OnOk, cond, length, slice_get};
ghost use Rattle.xet_error.specs.declared.error.FileReconstructionError.TheVariants as error;
ghost use Rattle.xet_offers.specs.declared.reconstruction_terms.xorb_block.XorbBlock.{XorbBlock};
ghost use Rattle.xet_events.specs.Allowed.{IsAllowed, IsRunning};
ghost use Rattle.xet_leader.specs.FetchLists.{Each};
ghost use Rattle.xet_leader.specs.Looks.{CanLook, CanLookAll, CanRequest, EndsShort, IsLedBy, LookLeads, LookTurn};
ghost use Rattle.xet_leader.specs.Looks.{LookedBlock, LookedIn, LookedPlace, LooksCall};

use crate::by_number::plan_index;
use crate::leader::{Leader, LedPlan};
use crate::missing_blocks::{BlockAt, missing};
use std::alloc::Global;
use std::collections::VecDeque;
use std::mem;
use std::sync::Wait;
use xet_base::List;
use xet_blocks::{FetchPolicy, XorbBlock};
use xet_error::{FileReconstructionError, Result};
use xet_fetch::report_transfer;
use xet_outside::ChunkCache;
use xet_parts::look_up_block;
use xet_progress::ItemProgressUpdater;
use xet_run::{Event, EventLog, RunCore};

/// Looks once for each block that the admitted terms which aren't written lack. A block that is found is kept, recorded
/// as cached, and reported as transferred. Answers those that are missing still, each once, which are to be fetched.
/// `OutOfMemory` where memory was refused; the blocks that were found before stay kept and recorded.
///
/// In the Rust crate: a step of `file_reconstruction::reconstruction_terms::xorb_block::XorbBlock::retrieve_data`.
pub fn look_up_missing<R: Wait, P: FetchPolicy, K: ChunkCache, E: EventLog>(
    rt: &R,
    alloc: Global,
    leader: &mut Leader<P>,
    core: &mut RunCore<E>,
    cache: &mut K,
) -> Result<List<BlockAt>>
    requires { IsLedBy core.old leader.old }
    ensures turn { LookTurn (K.told cache.old) (K.told cache.new) core.old core.new leader.old leader.new result }
    ensures able { IfOk result (λ left. Each (CanRequest leader.new.plans) left) }
    ensures leads { LookLeads (K.told cache.old) (K.told cache.new) core.old core.new leader.old leader.new result }
{
    look_for_all(rt, alloc, leader, core, cache)
}

/// The same, without what it does to a run.
fn look_for_all<R: Wait, P: FetchPolicy, K: ChunkCache, E: EventLog>(
    rt: &R,
    alloc: Global,
    leader: &mut Leader<P>,
    core: &mut RunCore<E>,
    cache: &mut K,
) -> Result<List<BlockAt>>
    requires { IsLedBy core.old leader.old }
    ensures { LookTurn (K.told cache.old) (K.told cache.new) core.old core.new leader.old leader.new result }
{
    match missing(alloc, leader) {
        Ok(places) => {
            let progress = leader.progress.as_ref();
            let plans = &mut leader.plans;
            look_up_places(rt, alloc, core, cache, plans, progress, places.as_slice())
        }
        Err(error) => Err(FileReconstructionError::from(error)),
    }
}

/// Looks for each of these blocks, and answers those that are missing still.
pub(crate) fn look_up_places<R: Wait, K: ChunkCache, E: EventLog>(
    rt: &R,
    alloc: Global,
    core: &mut RunCore<E>,
    cache: &mut K,
    plans: &mut VecDeque<LedPlan>,
    progress: Option<&ItemProgressUpdater>,
    places: &[BlockAt],
) -> Result<List<BlockAt>>
    requires { CanLookAll core.old plans.old.items places.now }
    ensures { LooksCall (K.told cache.old) (K.told cache.new) core.old core.new plans.old.items plans.new.items
        places.now result }
{
    let mut left = List::with_hint(alloc, places.len());
    for place in places {
        let found = match look_up_place(rt, alloc, core, cache, plans, progress, *place) {
            Ok(found) => found,
            Err(error) => return Err(error),
        };
        match add_left(&mut left, *place, found) {
            Ok(()) => {}
            Err(error) => return Err(error),
        }
    }
    Ok(left)
}

/// Adds a block, where it isn't found.
fn add_left(left: &mut List<BlockAt>, place: BlockAt, found: bool) -> Result<()>
    ensures added { OnOk result (left.new ≡ cond found left.old (left.old ++ place ∷ [])) }
    ensures memory { IfErr result (λ e. e ≡ error.OutOfMemory) }
{
    if found {
        return Ok(());
    }
    match left.push(place) {
        Ok(()) => Ok(()),
        Err(error) => Err(FileReconstructionError::from(error)),
    }
}

/// Looks for a block, by its plan's number and its own. Whether it is kept now.
pub(crate) fn look_up_place<R: Wait, K: ChunkCache, E: EventLog>(
    rt: &R,
    alloc: Global,
    core: &mut RunCore<E>,
    cache: &mut K,
    plans: &mut VecDeque<LedPlan>,
    progress: Option<&ItemProgressUpdater>,
    place: BlockAt,
) -> Result<bool>
    requires running { IsRunning core.old }
    requires can { CanLook core.old plans.old.items place }
    ensures ok { IfOk result (LookedPlace (K.told cache.old) (K.told cache.new) core.old core.new plans.old.items
        plans.new.items place) }
    ensures err { OnErr result (EndsShort (K.told cache.old) (K.told cache.new) core.old core.new) }
    ensures memory { IfErr result (λ e. e ≡ error.OutOfMemory) }
{
    let at = plan_index(plans, place.plan);
    look_up_in(rt, alloc, core, cache, &mut plans[at], progress, place)
}

/// Looks for a block of a plan, and reports it as transferred where it is found. Whether it is kept now.
fn look_up_in<R: Wait, K: ChunkCache, E: EventLog>(
    rt: &R,
    alloc: Global,
    core: &mut RunCore<E>,
    cache: &mut K,
    plan: &mut LedPlan,
    progress: Option<&ItemProgressUpdater>,
    place: BlockAt,
) -> Result<bool>
    requires within { place.block < length plan.old.block.blocks }
    requires allowed { (x : XorbBlock) → slice_get plan.old.block.blocks place.block ≡ Some x
        → IsAllowed core.old (Event.Cached place.plan x.xorb_block_index) }
    ensures { LookedIn (K.told cache.old) (K.told cache.new) core.old core.new plan.old plan.new place result }
{
    let blocks = mem::replace(&mut plan.block.blocks, List::new(alloc));
    let mut blocks = blocks.into_inner();
    let found = look_up_one(alloc, core, cache, place.plan, &mut blocks[place.block]);
    plan.block.blocks = List::from_vec(blocks);
    if let Ok(true) = found {
        report_transfer(rt, progress, &plan.block.urls, place.block);
    }
    found
}

/// Looks for a block. Whether it is kept now.
fn look_up_one<K: ChunkCache, E: EventLog>(
    alloc: Global,
    core: &mut RunCore<E>,
    cache: &mut K,
    plan: u64,
    block: &mut XorbBlock,
) -> Result<bool>
    requires { IsAllowed core.old (Event.Cached plan block.old.xorb_block_index) }
    ensures { LookedBlock (K.told cache.old) (K.told cache.new) core.old core.new block.old block.new plan result }
{
    match look_up_block(alloc, core, cache, plan, block) {
        Ok(()) => Ok(block.kept.is_some()),
        Err(error) => Err(error),
    }
}
