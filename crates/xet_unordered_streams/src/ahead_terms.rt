//! The planned terms of a leader by how many come before them.
ghost use Rattle.std.specs.Prelude.{◌≡◌, ◌+◌, ◌<◌, ◌^◌, None, MatchOption, drop, slice_get};
ghost use Rattle.xet_leader.specs.LedTerms.{ahead, led_terms};
ghost use Rattle.xet_unordered_streams.specs.steps.Dues.{IsTermAhead, IsTermIn};

use std::collections::VecDeque;
use xet_blocks::{FetchPolicy, FileTerm};
use xet_leader::ahead::{Place, first_of, seek};
use xet_leader::{Leader, LedPlan};

/// A planned term.
#[derive(Clone, Copy)]
pub(crate) struct AheadTerm {
    /// The place of its plan among those of the leader.
    pub(crate) place: usize,
    /// The term.
    pub(crate) term: FileTerm,
}

/// The planned term behind so many of those that aren't recorded as written.
pub(crate) fn term_ahead<P: FetchPolicy>(leader: &Leader<P>, skip: u64) -> Option<AheadTerm>
    requires { leader.now.finished + skip < 2 ^ 64 }
    ensures { MatchOption result (slice_get (ahead leader.now) skip ≡ None) (IsTermAhead leader.now skip) }
{
    let passed = leader.finished.saturating_sub(first_of(&leader.plans));
    term_in(&leader.plans, passed, skip)
}

/// The term of these plans behind so many, after those that are passed over.
fn term_in(plans: &VecDeque<LedPlan>, passed: u64, skip: u64) -> Option<AheadTerm>
    requires { passed + skip < 2 ^ 64 }
    ensures { MatchOption result (slice_get (drop passed (led_terms plans.now.items)) skip ≡ None)
        (IsTermIn plans.now.items (drop passed (led_terms plans.now.items)) skip) }
{
    let term = (passed + skip) as usize;
    let at = seek(plans, Place { plan: 0, term });
    if at.plan >= plans.len() {
        return None;
    }
    let place = at.plan;
    let term = plans[place].block.terms.as_slice()[at.term];
    Some(AheadTerm { place, term })
}
