//! Terms whose bytes may be handed over.
ghost use Rattle.std.specs.Prelude.{ℕ, ◌≡◌, ◌+◌, ◌<◌, ◌^◌, MatchOption};
ghost use Rattle.xet_unordered_streams.specs.Placing.{is_early};
ghost use Rattle.xet_unordered_streams.specs.steps.Dues.{DueCall, FirstDue, HintedDue, IsAwaited, IsTermAhead};
ghost use Rattle.xet_leader.specs.LedTerms.{BytesOf, of_plan};

use crate::ahead_terms::{AheadTerm, term_ahead};
use crate::early_terms::EarlyTerms;
use bytes::Bytes;
use std::alloc::Global;
use xet_blocks::FetchPolicy;
use xet_error::Result;
use xet_leader::{BlockAt, Leader, bytes_of};
use xet_ready_terms::ReadyTerms;
use xet_run::EventLog;
use xet_streams::Stepper;

/// The bytes of a term that is due, its number among the planned ones, and its place from the range's start.
#[derive(Drop)]
pub(crate) struct Due {
    pub(crate) number: u64,
    pub(crate) place: u64,
    pub(crate) bytes: Bytes,
}

/// The bytes of the term behind so many of those ahead, where it has some, its block is kept, and it wasn't given.
/// `CorruptedReconstruction` where it fails its test, `OutOfMemory` where memory was refused.
pub(crate) fn due_at<P: FetchPolicy>(
    alloc: Global,
    leader: &Leader<P>,
    early: &EarlyTerms,
    from: u64,
    skip: u64,
) -> Result<Option<Due>>
    requires { leader.now.finished + skip < 2 ^ 64 }
    ensures { DueCall leader.now (is_early early.now) from skip result }
{
    let Some(found) = term_ahead(leader, skip) else {
        return Ok(None);
    };
    let range = found.term.byte_range;
    if range.end <= range.start {
        return Ok(None);
    }
    let number = leader.finished + skip;
    if early.has(number) {
        return Ok(None);
    }
    let place = range.start.saturating_sub(from);
    match piece_at(alloc, leader, found) {
        Ok(Some(bytes)) => Ok(Some(Due {
            number,
            place,
            bytes,
        })),
        Ok(None) => Ok(None),
        Err(error) => Err(error),
    }
}

/// The bytes of a term of a leader, where its block is kept.
fn piece_at<P: FetchPolicy>(
    alloc: Global,
    leader: &Leader<P>,
    found: AheadTerm,
) -> Result<Option<Bytes>>
    requires { (skip : ℕ) × IsTermAhead leader.now skip found }
    ensures { (skip : ℕ) → (x : IsTermAhead leader.now skip found) → BytesOf (of_plan x.plan found.term) result }
{
    bytes_of(alloc, &leader.plans[found.place], found.term)
}

/// The first due term of those that are admitted, which are looked at one after another. The errors are those of
/// `due_at`.
pub(crate) fn first_due<P: FetchPolicy>(
    alloc: Global,
    leader: &Leader<P>,
    early: &EarlyTerms,
    from: u64,
) -> Result<Option<Due>>
    ensures { FirstDue leader.now (is_early early.now) from result }
{
    let count = leader.admitted.saturating_sub(leader.finished);
    for skip in 0..count {
        match due_at(alloc, leader, early, from, skip) {
            Ok(None) => {}
            Ok(Some(due)) => return Ok(Some(due)),
            Err(error) => return Err(error),
        }
    }
    Ok(None)
}

/// A due term by what the hints say, of which each is taken once.
pub(crate) fn hinted_due<P: FetchPolicy>(
    alloc: Global,
    leader: &Leader<P>,
    early: &EarlyTerms,
    from: u64,
    terms: &mut ReadyTerms,
) -> Result<Option<Due>>
    ensures { HintedDue leader.now (is_early early.now) from result }
{
    for _ in 0..terms.ready.len() {
        let Some(number) = terms.ready.pop_front() else {
            return Ok(None);
        };
        match due_by_number(alloc, leader, early, from, number) {
            Ok(None) => {}
            Ok(Some(due)) => return Ok(Some(due)),
            Err(error) => return Err(error),
        }
    }
    Ok(None)
}

/// The bytes of the term of this number, where it is admitted and due. The errors are those of `due_at`.
fn due_by_number<P: FetchPolicy>(
    alloc: Global,
    leader: &Leader<P>,
    early: &EarlyTerms,
    from: u64,
    number: u64,
) -> Result<Option<Due>>
    ensures { HintedDue leader.now (is_early early.now) from result }
{
    if number < leader.finished || leader.admitted <= number {
        return Ok(None);
    }
    due_at(alloc, leader, early, from, number - leader.finished)
}

/// The block of the admitted term of this number, where it has bytes and waits for it.
pub(crate) fn awaited_at<P: FetchPolicy, E: EventLog>(
    leader: &Leader<P>,
    stepper: &Stepper<P, E>,
    number: u64,
) -> Option<BlockAt>
    ensures { MatchOption result (Unit {0}) (IsAwaited leader.now stepper.now.events) }
{
    if number < leader.finished || leader.admitted <= number {
        return None;
    }
    let Some(found) = term_ahead(leader, number - leader.finished) else {
        return None;
    };
    let range = found.term.byte_range;
    if range.end <= range.start {
        return None;
    }
    let plan = plan_of(leader, found);
    let block = found.term.xorb_block;
    if stepper.is_kept(plan, block) {
        return None;
    }
    Some(BlockAt { plan, block })
}

/// The number of a term's plan.
fn plan_of<P: FetchPolicy>(leader: &Leader<P>, found: AheadTerm) -> u64
    requires { (skip : ℕ) × IsTermAhead leader.now skip found }
    ensures { (skip : ℕ) → (x : IsTermAhead leader.now skip found) → result ≡ x.plan.number }
{
    leader.plans[found.place].number
}
