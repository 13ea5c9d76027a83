//! What the entries of a xorb offer, listed range by range.
ghost use Rattle.std.specs.Prelude.{◌≡◌, ◌++◌, ◌∷◌, [], false, find, length, map, nat_le, not, true, IfOk, IfSome};
ghost use Rattle.std.specs.Prelude.{OnOk, Some};
ghost use Rattle.std.specs.List.Sorted.{IsPartitionPoint};
ghost use Rattle.xet_offers.specs.Blocks.{lies_in};
ghost use Rattle.xet_offers.specs.Offers.{offered, xorb_offers};
ghost use Rattle.xet_offers.specs.PlanChecks.{unordered};

use std::alloc::Global;
use xet_base::{List, OutOfMemory, SharedText};
use xet_outside::{FetchEntry, FetchRange, PlanTerm, PlanXorb};

/// A range that an entry offers, the block that has it, and the entry's URL.
#[derive(Clone, Copy)]
pub struct Offer<'a> {
    pub range: FetchRange,
    /// The ranges of the block.
    pub block: &'a [FetchRange],
    /// The number of the block's first range among all that the xorb offers. It tells the blocks of a xorb apart.
    pub number: usize,
    /// How many chunks of the block come before the range, a sum that stops at `u64::MAX`.
    pub before: u64,
    pub url: &'a SharedText,
}

/// What the entries of a xorb offer, in their order.
#[derive(Drop)]
pub(crate) struct ListedOffers<'a> {
    pub(crate) offers: List<Offer<'a>>,
    /// Each range is nonempty, and starts at or after the end of the one before it.
    ascending: bool,
    ghost ordered: { ascending ≡ true → unordered 0 (map (λ o. o.range) offers) ≡ false },
}

/// Whether the term has chunks, and all of them are in the range.
pub(crate) fn lies_in(term: &PlanTerm, range: &FetchRange) -> bool
    ensures { result ≡ lies_in term.now range.now }
{
    range.chunks.start <= term.range.start
        && term.range.start < term.range.end
        && term.range.end <= range.chunks.end
}

/// Whether each range is nonempty, and starts at or after the end of the one before it.
fn is_ascending(offers: &[Offer]) -> bool
    ensures { result ≡ not (unordered 0 (map (λ o. o.range) offers.now)) }
{
    let mut low = 0;
    for offer in offers {
        let chunks = offer.range.chunks;
        if chunks.end <= chunks.start || chunks.start < low {
            return false;
        }
        low = chunks.end;
    }
    true
}

impl<'a> ListedOffers<'a> {
    ghost use Rattle.xet_offers.specs.Offers.{entry_candidates, offers_from, ranges_from};

    /// Adds a block by its ranges.
    fn add_block(
        offers: &mut List<Offer<'a>>,
        block: &'a [FetchRange],
        url: &'a SharedText,
    ) -> Result<(), OutOfMemory>
        ensures { OnOk result (map offered offers.new
            ≡ map offered offers.old ++ ranges_from (length offers.old) url.now block.now 0 block.now) }
    {
        let number = offers.len();
        let mut before = 0u64;
        for range in block {
            offers.push(Offer {
                range: *range,
                block,
                number,
                before,
                url,
            })?;
            let chunks = range.chunks;
            before = before.saturating_add(u64::from(chunks.end.saturating_sub(chunks.start)));
        }
        Ok(())
    }

    /// Adds the blocks that an entry offers: one of all its ranges with `multirange`, else one of each.
    fn add_entry(
        offers: &mut List<Offer<'a>>,
        entry: &'a FetchEntry,
        multirange: bool,
    ) -> Result<(), OutOfMemory>
        ensures { OnOk result (map offered offers.new
            ≡ map offered offers.old ++ offers_from (length offers.old) (entry_candidates multirange entry.now)) }
    {
        let ranges = entry.ranges.as_slice();
        if multirange {
            return ListedOffers::add_block(offers, ranges, &entry.url);
        }
        ListedOffers::add_ranges(offers, ranges, &entry.url)
    }

    /// Adds a block of each range.
    fn add_ranges(
        offers: &mut List<Offer<'a>>,
        ranges: &'a [FetchRange],
        url: &'a SharedText,
    ) -> Result<(), OutOfMemory>
        ensures { OnOk result (map offered offers.new
            ≡ map offered offers.old ++ offers_from (length offers.old) (map (λ r. (url.now, r ∷ [])) ranges.now)) }
    {
        for number in 0..ranges.len() {
            ListedOffers::add_block(offers, &ranges[number..number + 1], url)?;
        }
        Ok(())
    }

    /// What the entries of the xorb offer.
    pub(crate) fn new(
        alloc: Global,
        xorb: &'a PlanXorb,
        multirange: bool,
    ) -> Result<ListedOffers<'a>, OutOfMemory>
        ensures { IfOk result (λ made. map offered made.offers ≡ xorb_offers multirange xorb.now) }
    {
        let mut offers = List::with_capacity(alloc, first_count(xorb))?;
        for entry in xorb.fetch.as_slice() {
            ListedOffers::add_entry(&mut offers, entry, multirange)?;
        }
        let ascending = is_ascending(offers.as_slice());
        Ok(ListedOffers { offers, ascending })
    }

    /// The first range in which the term lies. Where the ranges ascend no other one has the term: this place is looked
    /// at first, and else its place is searched by halves.
    pub(crate) fn find(&self, term: &PlanTerm, near: usize) -> Option<Offer<'a>>
        ensures { result ≡ find (λ o. lies_in term.now o.range) self.now.offers }
    {
        if self.ascending {
            find_near(self.offers.as_slice(), near, term)
        } else {
            find_in_order(self.offers.as_slice(), term)
        }
    }
}

/// How many ranges the first entry has, and most xorbs have no other. It only tells how much memory is asked for.
fn first_count(xorb: &PlanXorb) -> usize {
    match xorb.fetch.as_slice() {
        [first, ..] => first.ranges.len(),
        [] => 0,
    }
}

/// The first range in which the term lies.
fn find_in_order<'a>(offers: &[Offer<'a>], term: &PlanTerm) -> Option<Offer<'a>>
    ensures { result ≡ find (λ o. lies_in term.now o.range) offers.now }
{
    for offer in offers {
        if lies_in(term, &offer.range) {
            return Some(*offer);
        }
    }
    None
}

/// How many ranges end at or before a chunk, of ranges that ascend.
fn count_before(offers: &[Offer], chunk: u32) -> usize
    requires { unordered 0 (map (λ o. o.range) offers.now) ≡ false }
    ensures { IsPartitionPoint (λ o. nat_le o.range.chunks.end chunk ≡ true)
        (λ o. nat_le o.range.chunks.end chunk ≡ false) offers.now result }
{
    offers.partition_point(|offer| offer.range.chunks.end <= chunk)
}

/// The range in which the term lies, of ranges that ascend.
fn find_by_halves<'a>(offers: &[Offer<'a>], term: &PlanTerm) -> Option<Offer<'a>>
    requires { unordered 0 (map (λ o. o.range) offers.now) ≡ false }
    ensures { result ≡ find (λ o. lies_in term.now o.range) offers.now }
{
    let offer = *offers.get(count_before(offers, term.range.start))?;
    lies_in(term, &offer.range).then_some(offer)
}

/// The range at a place, where the term lies in it, of ranges that ascend.
fn offer_at<'a>(offers: &[Offer<'a>], place: usize, term: &PlanTerm) -> Option<Offer<'a>>
    requires { unordered 0 (map (λ o. o.range) offers.now) ≡ false }
    ensures { IfSome result (λ offer. find (λ o. lies_in term.now o.range) offers.now ≡ Some offer) }
{
    let offer = *offers.get(place)?;
    lies_in(term, &offer.range).then_some(offer)
}

/// The range in which the term lies, of ranges that ascend: `find_by_halves`, which looks at a place first.
fn find_near<'a>(offers: &[Offer<'a>], near: usize, term: &PlanTerm) -> Option<Offer<'a>>
    requires { unordered 0 (map (λ o. o.range) offers.now) ≡ false }
    ensures { result ≡ find (λ o. lies_in term.now o.range) offers.now }
{
    match offer_at(offers, near, term) {
        Some(offer) => Some(offer),
        None => find_by_halves(offers, term),
    }
}
