//! A plan, found by its number.
ghost use Rattle.std.specs.Prelude.{◌≡◌};
ghost use Rattle.xet_leader.specs.ByNumber.{plan_index};

use crate::leader::LedPlan;
use std::collections::VecDeque;

/// The place of the plan of this number, counted from the first plan, whose numbers follow one another.
pub fn plan_index(plans: &VecDeque<LedPlan>, number: u64) -> usize
    ensures { result ≡ plan_index plans.now.items number }
{
    match plans.front() {
        Some(first) => number.saturating_sub(first.number) as usize,
        None => 0,
    }
}
