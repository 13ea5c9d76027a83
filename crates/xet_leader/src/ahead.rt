//! The planned terms of a leader from the first one on that isn't written.
ghost use Rattle.std.specs.Prelude.{◌≡◌, ◌<◌, MatchOption, drop, get_or, length};
ghost use Rattle.xet_leader.specs.declared.leader.LedPlan.{LedPlan as Led};
ghost use Rattle.xet_leader.specs.LedTerms.{BytesOf, IsNextIn, IsNextTerm, NoneHas, ahead, first_number, led_terms};
ghost use Rattle.xet_leader.specs.LedTerms.{of_plan};

use crate::leader::{Leader, LedPlan};
use bytes::Bytes;
use std::alloc::Global;
use std::collections::VecDeque;
use xet_blocks::{DataSource, FetchPolicy, FileTerm};
use xet_error::Result;

/// A place among the terms of some plans.
#[derive(Clone, Copy)]
pub struct Place {
    /// The plan, from 0.
    pub plan: usize,
    /// The term, from the plan's first one on.
    pub term: usize,
}

/// The next planned term that has bytes.
#[derive(Clone, Copy)]
pub struct NextTerm {
    /// The place of its plan among those of the leader.
    pub place: usize,
    /// The term.
    pub term: FileTerm,
    /// How many empty terms come before it, a count that stops at `u64::MAX`.
    pub empties: u64,
}

/// How many planned terms come before the first plan's own.
pub fn first_of(plans: &VecDeque<LedPlan>) -> u64
    ensures { result ≡ first_number plans.now.items }
{
    match plans.front() {
        Some(plan) => plan.first,
        None => 0,
    }
}

/// Goes on to the plan that has the term of a place.
pub fn seek(plans: &VecDeque<LedPlan>, at: Place) -> Place
    ensures rest { drop result.term (led_terms (drop result.plan plans.now.items))
        ≡ drop at.term (led_terms (drop at.plan plans.now.items)) }
    ensures inside { (d : Led) → result.plan < length plans.now.items
        → result.term < length (get_or plans.now.items result.plan d).block.terms }
{
    let mut plan = at.plan;
    let mut term = at.term;
    while plan < plans.len() && plans[plan].block.terms.len() <= term {
        term -= plans[plan].block.terms.len();
        plan += 1;
    }
    Place { plan, term }
}

/// The bytes of a term, if its block keeps something.
pub fn bytes_of(alloc: Global, plan: &LedPlan, term: FileTerm) -> Result<Option<Bytes>>
    ensures { BytesOf (of_plan plan.now term) result }
{
    let blocks = plan.block.blocks.as_slice();
    if term.xorb_block >= blocks.len() {
        return Ok(None);
    }
    match term.get_data_task(alloc, blocks) {
        Ok(DataSource::Ready(bytes)) => Ok(Some(bytes)),
        Ok(DataSource::Wanted(_)) => Ok(None),
        Err(error) => Err(error),
    }
}

/// The next planned term that has bytes, of those that aren't written. It takes linear time in the empty terms before
/// it.
pub fn next_of<P: FetchPolicy>(leader: &Leader<P>) -> Option<NextTerm>
    ensures { MatchOption result (NoneHas (ahead leader.now)) (IsNextTerm leader.now) }
{
    let skip = leader.finished.saturating_sub(first_of(&leader.plans));
    next_in(&leader.plans, skip as usize)
}

/// The next term of these plans that has bytes, after so many.
fn next_in(plans: &VecDeque<LedPlan>, skip: usize) -> Option<NextTerm>
    ensures { MatchOption result (NoneHas (drop skip (led_terms plans.now.items)))
        (IsNextIn plans.now.items (drop skip (led_terms plans.now.items))) }
{
    let mut empties: u64 = 0;
    let mut at = Place {
        plan: 0,
        term: skip,
    };
    'terms: loop {
        at = seek(plans, at);
        if at.plan >= plans.len() {
            return None;
        }
        let term = plans[at.plan].block.terms.as_slice()[at.term];
        if term.byte_range.start < term.byte_range.end {
            let place = at.plan;
            return Some(NextTerm {
                place,
                term,
                empties,
            });
        }
        at.term += 1;
        empties = empties.saturating_add(1);
    }
}
