//! The tests of a plan: whether its entries' ranges ascend, and its terms have xorbs and places in the file. That each
//! term lies in a range of its xorb is tested where the blocks are listed.
ghost use Rattle.std.specs.Prelude.{◌≡◌, ◌+◌, ◌<◌, [], ◌∷◌, IfErr, IfOk, length, map, position, sum, MatchResult, None};
ghost use Rattle.std.specs.Result.{result_err};
ghost use Rattle.xet_base.specs.Lists.{first_some};
ghost use Rattle.xet_outside.specs.Plan.{shape};
ghost use Rattle.xet_offers.specs.PlanChecks.{no_xorb_test, offset_test, place_tests, position_test, ranges_test};
ghost use Rattle.xet_offers.specs.PlanChecks.{sizes, trim_test, unordered, covered};
ghost use Rattle.xet_offers.specs.Refusals.{IsRefusal};
ghost use Rattle.xet_offers.specs.Offers.{xorb_place};

use crate::reconstruction_terms::plan_offers::PlanOffers;
use std::alloc::Global;
use xet_base::{FileRange, List};
use xet_error::{Corruption, FileReconstructionError};
use xet_outside::{FetchRange, Plan, PlanXorb};

/// Whether a range is empty or reversed, or starts before the one before it ends.
pub(crate) fn is_unordered(ranges: &[FetchRange]) -> bool
    ensures { result ≡ unordered 0 ranges.now }
{
    let mut low = 0;
    for range in ranges {
        let chunks = range.chunks;
        if chunks.end <= chunks.start || chunks.start < low {
            return true;
        }
        low = chunks.end;
    }
    false
}

/// The number of the first entry of a xorb whose ranges don't ascend.
fn first_unordered(xorb: &PlanXorb) -> Option<usize>
    ensures { result ≡ position (λ e. unordered 0 e.ranges) xorb.now.fetch }
{
    let entries = xorb.fetch.as_slice();
    entries
        .iter()
        .position(|entry| is_unordered(entry.ranges.as_slice()))
}

/// Tests, where an entry is one block, that the ranges of each entry are nonempty and ascend.
pub fn check_entries(plan: &Plan, multirange: bool) -> Result<(), Corruption>
    ensures { result_err result ≡ ranges_test (shape plan.now) multirange }
{
    if !multirange {
        return Ok(());
    }
    for xorb in plan.xorbs.as_slice() {
        if let Some(entry) = first_unordered(xorb) {
            let xorb = xorb.xorb;
            return Err(Corruption::Ranges { xorb, entry });
        }
    }
    Ok(())
}

/// Tests that the xorb of each term is in the plan. Gives the number of each term's xorb, which is looked up here
/// alone: at first where the xorb of the term before stands, and behind it.
pub fn check_xorbs(
    alloc: Global,
    offers: &PlanOffers,
) -> Result<List<usize>, FileReconstructionError>
    ensures numbers { let plan = offers.now.plan.now in IfOk result
        (λ numbers. (no_xorb_test (shape plan) ≡ None) × (numbers ≡ map (λ t. xorb_place plan t.xorb) plan.terms)) }
    ensures refused { IfErr result (IsRefusal (no_xorb_test (shape offers.now.plan.now))) }
{
    let mut numbers = List::with_capacity(alloc, offers.plan.terms.len())?;
    let mut last = 0;
    for (place, term) in offers.plan.terms.as_slice().iter().enumerate() {
        let Some(number) = offers.number_near(&term.xorb, last) else {
            let failed = Corruption::NoXorb { term: place };
            return Err(FileReconstructionError::CorruptedReconstruction(failed));
        };
        numbers.push(number)?;
        last = number;
    }
    Ok(numbers)
}

/// Tests the places of a plan's terms in the file. Gives the bytes of the file from the first term's start to the last
/// one's end, or the first test that fails.
pub fn check_places(plan: &Plan, query: FileRange) -> Result<FileRange, Corruption>
    requires { 0 < length plan.now.terms }
    ensures { let plan = shape plan.now in MatchResult result
        (λ range. (first_some (place_tests plan query) ≡ None) × (range ≡ covered plan query))
        (λ failed. first_some (place_tests plan query) ≡ Some failed) }
{
    check_offset(plan)?;
    let end = check_ends(plan, query)?;
    Ok(FileRange::new(query.start, end.min(query.end)))
}

/// Tests that the plan's offset is within its first term.
fn check_offset(plan: &Plan) -> Result<(), Corruption>
    ensures { result_err result ≡ offset_test (shape plan.now) }
{
    let offset = plan.offset_into_first_range;
    match plan.terms.as_slice() {
        [term, ..] if u64::from(term.unpacked_length) < offset => Err(Corruption::Offset {
            offset,
            length: u64::from(term.unpacked_length),
        }),
        _ => Ok(()),
    }
}

/// Tests that each term's end in the file is a number, and that the terms pass the query's end by no more bytes than
/// the last one has. Gives the last one's end.
fn check_ends(plan: &Plan, query: FileRange) -> Result<u64, Corruption>
    requires { 0 < length plan.now.terms }
    ensures { let plan = shape plan.now in MatchResult result
        (λ end. (first_some (position_test plan query ∷ trim_test plan query ∷ []) ≡ None)
        × (end ≡ query.start + sum (sizes plan)))
        (λ failed. first_some (position_test plan query ∷ trim_test plan query ∷ []) ≡ Some failed) }
{
    let mut place = query.start;
    let mut length = 0u64;
    let mut offset = plan.offset_into_first_range;
    for (number, term) in plan.terms.as_slice().iter().enumerate() {
        length = u64::from(term.unpacked_length).saturating_sub(offset);
        match place.checked_add(length) {
            Some(end) => place = end,
            None => return Err(Corruption::Position { term: number }),
        }
        offset = 0;
    }
    let excess = place.saturating_sub(query.end);
    if length < excess {
        return Err(Corruption::Trim { excess, length });
    }
    Ok(place)
}
