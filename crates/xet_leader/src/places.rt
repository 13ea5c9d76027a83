//! Finds a plan, and a block, among the plans of a leader.
ghost use Rattle.std.specs.Prelude.{◌≡◌, MatchOption, None, Some};
ghost use Rattle.xet_leader.specs.Plans.{block_in, block_there, find_plan};

use crate::leader::LedPlan;
use std::collections::VecDeque;
use xet_blocks::XorbBlock;

/// The place of the plan of this number, where numbers follow one another.
pub fn find_plan(plans: &VecDeque<LedPlan>, number: u64) -> Option<usize>
    ensures { result ≡ find_plan plans.now.items number }
{
    let first = match plans.front() {
        Some(plan) => plan.number,
        None => return None,
    };
    if number < first {
        return None;
    }
    let place = (number - first) as usize;
    if place < plans.len() {
        return Some(place);
    }
    None
}

/// The block of this number of the plan of this number.
pub fn find_block(plans: &VecDeque<LedPlan>, plan: u64, block: usize) -> Option<&XorbBlock>
    ensures { MatchOption result (block_in plans.now.items plan block ≡ None)
        (λ x. block_in plans.now.items plan block ≡ Some x.now) }
{
    match find_plan(plans, plan) {
        Some(place) => block_of(plans, place, block),
        None => None,
    }
}

/// The block of this number of the plan at this place.
fn block_of(plans: &VecDeque<LedPlan>, place: usize, block: usize) -> Option<&XorbBlock>
    ensures { MatchOption result (block_there plans.now.items block place ≡ None)
        (λ x. block_there plans.now.items block place ≡ Some x.now) }
{
    match plans.get(place) {
        Some(plan) => plan.block.blocks.as_slice().get(block),
        None => None,
    }
}
