//! Keeps the served blocks of a round.
ghost use Rattle.std.specs.Prelude.{◌≡◌, [], ◌∷◌, IfOk, OnOk};
ghost use Rattle.xet_leader.specs.ByNumber.{change_at};
ghost use Rattle.xet_leader.specs.Keeping.{KeptRound, KeptSteps, all_steps, keep_data, keep_in, kept_one};

use crate::by_number::plan_index;
use crate::leader::{Leader, LedPlan};
use crate::missing_blocks::BlockAt;
use std::alloc::Global;
use std::collections::VecDeque;
use std::mem;
use xet_base::{List, OutOfMemory};
use xet_blocks::{FetchPolicy, XorbBlock, XorbBlockData};
use xet_lane::LaneEnd;
use xet_ties::LaneStep;

/// The blocks of the steps of a round.
#[derive(Drop)]
pub struct RoundPlaces {
    /// Those that were served.
    pub served: Vec<BlockAt>,
    /// Those whose URL had expired.
    pub late: Vec<BlockAt>,
}

/// Takes the steps of a round apart: each served block keeps its data, where it keeps none. Answers the served blocks,
/// and those whose URL had expired, in the order of the lanes and of their steps.
///
/// `OutOfMemory` where memory was refused, and then some of the blocks keep their data.
pub fn keep_served<P: FetchPolicy>(
    alloc: Global,
    leader: &mut Leader<P>,
    ends: Vec<LaneEnd>,
) -> Result<RoundPlaces, OutOfMemory>
    ensures { IfOk result (KeptRound (all_steps ends.items) leader.old leader.new) }
{
    let mut places = RoundPlaces {
        served: Vec::new(alloc),
        late: Vec::new(alloc),
    };
    match keep_ends(alloc, &mut leader.plans, &mut places, ends) {
        Ok(()) => Ok(places),
        Err(error) => Err(error),
    }
}

/// Keeps the served blocks of all lanes.
fn keep_ends(
    alloc: Global,
    plans: &mut VecDeque<LedPlan>,
    places: &mut RoundPlaces,
    ends: Vec<LaneEnd>,
) -> Result<(), OutOfMemory>
    ensures { OnOk result (KeptSteps (all_steps ends.items) plans.old.items plans.new.items places.old places.new) }
{
    for end in ends {
        let LaneEnd { steps, short: _ } = end;
        match keep_steps(alloc, plans, places, steps) {
            Ok(()) => {}
            Err(error) => return Err(error),
        }
    }
    Ok(())
}

/// Keeps the served blocks of one lane.
fn keep_steps(
    alloc: Global,
    plans: &mut VecDeque<LedPlan>,
    places: &mut RoundPlaces,
    steps: Vec<LaneStep>,
) -> Result<(), OutOfMemory>
    ensures { OnOk result (KeptSteps steps.items plans.old.items plans.new.items places.old places.new) }
{
    for step in steps {
        match keep_step(alloc, plans, places, step) {
            Ok(()) => {}
            Err(error) => return Err(error),
        }
    }
    Ok(())
}

/// Keeps the block of a step, where it was served.
fn keep_step(
    alloc: Global,
    plans: &mut VecDeque<LedPlan>,
    places: &mut RoundPlaces,
    step: LaneStep,
) -> Result<(), OutOfMemory>
    ensures { OnOk result (KeptSteps (step ∷ []) plans.old.items plans.new.items places.old places.new) }
{
    match step {
        LaneStep::Served { plan, block, found } => {
            places.served.push(BlockAt { plan, block })?;
            keep_one(alloc, plans, BlockAt { plan, block }, found);
        }
        LaneStep::Expired { plan, block } => places.late.push(BlockAt { plan, block })?,
        LaneStep::Failed { .. } => {}
    }
    Ok(())
}

/// The block keeps the data.
pub(crate) fn keep_one(
    alloc: Global,
    plans: &mut VecDeque<LedPlan>,
    at: BlockAt,
    found: XorbBlockData,
)
    ensures { plans.new.items ≡ kept_one (at.plan, at.block, found) plans.old.items }
{
    let place = plan_index(plans, at.plan);
    let Some(plan) = plans.get_mut(place) else {
        return;
    };
    if plan.number == at.plan {
        keep_in(alloc, plan, at.block, found);
    }
}

/// The plan's block keeps the data.
fn keep_in(alloc: Global, plan: &mut LedPlan, block: usize, found: XorbBlockData)
    ensures { plan.new ≡ keep_in block found plan.old }
{
    let mut blocks = mem::replace(&mut plan.block.blocks, List::new(alloc)).into_inner();
    keep_at(&mut blocks, block, found);
    plan.block.blocks = List::from_vec(blocks);
}

/// The block at a place keeps the data.
fn keep_at(blocks: &mut Vec<XorbBlock>, block: usize, found: XorbBlockData)
    ensures { blocks.new.items ≡ change_at block (keep_data found) blocks.old.items }
{
    let Some(of) = blocks.get_mut(block) else {
        return;
    };
    if of.kept.is_none() {
        of.keep(found);
    }
}
