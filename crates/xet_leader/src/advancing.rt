//! Lets the leader's written terms go.
ghost use Rattle.std.specs.Prelude.{◌≡◌};
ghost use Rattle.xet_leader.specs.Advances.{advanced, first_ends, unfinished_plans};

use crate::leader::{Leader, LedPlan};
use std::collections::VecDeque;
use xet_blocks::FetchPolicy;

/// Counts so many more terms as wholly written, a count that stops at `u64::MAX`, and lets the plans go whose last term
/// is. It takes constant time, amortized over the plans.
pub fn advance<P: FetchPolicy>(leader: &mut Leader<P>, count: u64)
    ensures { leader.new ≡ advanced count leader.old }
{
    leader.finished = leader.finished.saturating_add(count);
    drop_finished(&mut leader.plans, leader.finished);
}

/// Drops the first plans that have no term from this number on.
fn drop_finished(plans: &mut VecDeque<LedPlan>, finished: u64)
    ensures { plans.new.items ≡ unfinished_plans finished plans.old.items }
{
    while is_first_finished(plans, finished) {
        let _ = plans.pop_front();
    }
}

/// Whether the first plan has no term from this number on.
fn is_first_finished(plans: &VecDeque<LedPlan>, finished: u64) -> bool
    ensures { result ≡ first_ends finished plans.now.items }
{
    match plans.front() {
        Some(plan) => {
            plan.first <= finished && plan.block.terms.len() as u64 <= finished - plan.first
        }
        None => false,
    }
}
