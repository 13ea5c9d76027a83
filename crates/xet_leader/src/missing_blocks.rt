//! The blocks that are to be fetched, or found in the cache.
ghost use Rattle.std.specs.Prelude.{◌≡◌, ◌-◌, ◌++◌, [], IfOk, None, OnOk, slice_get, take, drop, unwrap_or};
ghost use Rattle.xet_leader.specs.Lacking.{first_of, has_some, is_bare, lacked, lacked_by, lacked_in, lacks};
ghost use Rattle.xet_leader.specs.Lacking.{missing_of, with_places};
ghost use Rattle.xet_leader.specs.Listings.{first_number, lower, lowest_from, lowest_with, none_listed};

use crate::leader::{Leader, LedPlan};
use crate::place_list::PlaceList;
use std::alloc::Global;
use std::collections::VecDeque;
use xet_base::{FileRange, List, OutOfMemory};
use xet_blocks::{FetchPolicy, FileTerm, XorbBlock};

/// A block of a plan.
#[derive(Clone, Copy, PartialEq, Eq)]
pub struct BlockAt {
    /// The plan's number, from 1.
    pub plan: u64,
    /// The block's number in its plan, from 0.
    pub block: usize,
}

/// The blocks of the admitted terms that aren't written and have bytes, where these blocks keep nothing: each once, in
/// the order of their first terms. `OutOfMemory` where memory was refused.
///
/// In place of the tasks that wait for a block in the Rust crate.
pub fn missing<P: FetchPolicy>(
    alloc: Global,
    leader: &Leader<P>,
) -> Result<List<BlockAt>, OutOfMemory>
    ensures { IfOk result (λ found. found ≡ missing_of leader.now) }
{
    let skip = leader.finished.saturating_sub(terms_before(&leader.plans));
    let count = leader.admitted.saturating_sub(leader.finished);
    let lacked = all_lacked(alloc, &leader.plans, skip, count)?;
    each_once(alloc, first_number(&leader.plans), lacked.as_slice())
}

/// How many planned terms come before those of the first plan.
fn terms_before(plans: &VecDeque<LedPlan>) -> u64
    ensures { result ≡ first_of plans.now.items }
{
    match plans.front() {
        Some(plan) => plan.first,
        None => 0,
    }
}

/// The number of the first plan; those of the others follow on it. 0 where there is no plan.
fn first_number(plans: &VecDeque<LedPlan>) -> u64
    ensures { result ≡ first_number plans.now.items }
{
    match plans.front() {
        Some(plan) => plan.number,
        None => 0,
    }
}

/// The blocks that some terms of plans lack: so many terms, after those that are passed over. They are in the order of
/// the terms, and a block that several terms lack is there for each.
fn all_lacked(
    alloc: Global,
    plans: &VecDeque<LedPlan>,
    skip: u64,
    count: u64,
) -> Result<List<BlockAt>, OutOfMemory>
    ensures { IfOk result (λ found. found ≡ lacked skip count plans.now.items) }
{
    let mut found = List::with_hint(alloc, count as usize);
    let mut ahead = skip;
    let mut left = count;
    let mut at = 0;
    while at < plans.len() && 0 < left {
        let plan = &plans[at];
        add_lacked(&mut found, plan, ahead, left)?;
        let terms = plan.block.terms.len() as u64;
        left = left.saturating_sub(terms.saturating_sub(ahead));
        ahead = ahead.saturating_sub(terms);
        at += 1;
    }
    Ok(found)
}

/// Adds the blocks that some terms of a plan lack: so many terms, after those that are passed over.
fn add_lacked(
    found: &mut List<BlockAt>,
    plan: &LedPlan,
    skip: u64,
    count: u64,
) -> Result<(), OutOfMemory>
    ensures { OnOk result (found.new
        ≡ found.old ++ lacked_by plan.now (take count (drop skip plan.now.block.terms))) }
{
    for term in some_terms(plan, skip, count) {
        add_term(found, plan, *term)?;
    }
    Ok(())
}

/// Some terms of a plan: so many, after those that are passed over.
fn some_terms(plan: &LedPlan, skip: u64, count: u64) -> &[FileTerm]
    ensures { result.now ≡ take count (drop skip plan.now.block.terms) }
{
    let terms = plan.block.terms.as_slice();
    let start = terms.len().min(skip as usize);
    let end = start + (terms.len() - start).min(count as usize);
    &terms[start..end]
}

/// Adds the block that a term lacks, if it lacks one.
fn add_term(found: &mut List<BlockAt>, plan: &LedPlan, term: FileTerm) -> Result<(), OutOfMemory>
    ensures { OnOk result (found.new ≡ found.old ++ lacked_in plan.now term) }
{
    if !lacks(plan, term) {
        return Ok(());
    }
    let plan = plan.number;
    let block = term.xorb_block;
    found.push(BlockAt { plan, block })
}

/// Whether a term has bytes, and its block keeps nothing.
fn lacks(plan: &LedPlan, term: FileTerm) -> bool
    ensures { result ≡ lacks plan.now term }
{
    has_some(term.byte_range) && is_bare(plan.block.blocks.as_slice(), term.xorb_block)
}

/// Whether a range has bytes.
fn has_some(range: FileRange) -> bool
    ensures { result ≡ has_some range }
{
    range.start < range.end
}

/// Whether there is a block of this number, which keeps nothing.
fn is_bare(blocks: &[XorbBlock], number: usize) -> bool
    ensures { result ≡ is_bare (slice_get blocks.now number) }
{
    match blocks.get(number) {
        Some(block) => block.kept.is_none(),
        None => false,
    }
}

/// These blocks, each once, in the order in which they come first. They are to be of the plan of this number and of
/// later ones.
fn each_once(alloc: Global, first: u64, places: &[BlockAt]) -> Result<List<BlockAt>, OutOfMemory>
    ensures { IfOk result (λ found. found ≡ with_places [] places.now) }
{
    let mut found = none_listed(alloc, first, places);
    for place in places {
        found.add(*place)?;
    }
    Ok(found.into_list())
}

/// A list without blocks, for these. Its table starts with the plan of this number, and there with its lowest block: it
/// has no room for the plans and blocks before.
fn none_listed(alloc: Global, first: u64, places: &[BlockAt]) -> PlaceList
    ensures { result ≡ none_listed first places.now }
{
    PlaceList::new(alloc, first, lowest_of(first, places), places.len())
}

/// The lowest number of a block of this plan among these. 0 where there is none.
fn lowest_of(plan: u64, places: &[BlockAt]) -> usize
    ensures { result ≡ unwrap_or (lowest_from None plan places.now) 0 }
{
    let mut lowest = None;
    for place in places {
        lowest = lowest_with(lowest, plan, *place);
    }
    lowest.unwrap_or(0)
}

/// The lower of a number and that of a block, if the block is of this plan.
fn lowest_with(lowest: Option<usize>, plan: u64, place: BlockAt) -> Option<usize>
    ensures { result ≡ lowest_with lowest plan place }
{
    if place.plan == plan {
        return Some(lower(lowest, place.block));
    }
    lowest
}

/// The lower of both numbers, where there are both.
fn lower(lowest: Option<usize>, block: usize) -> usize
    ensures { result ≡ lower lowest block }
{
    match lowest {
        Some(lowest) => lowest.min(block),
        None => block,
    }
}
