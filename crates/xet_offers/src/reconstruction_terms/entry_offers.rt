//! What one entry offers where each of its ranges is a block, and they ascend. It stands in the plan and is not listed.
ghost use Rattle.std.specs.Prelude.{◌≡◌, cond, false, find, nat_le, option_and_then, option_map, slice_get, true};
ghost use Rattle.std.specs.Prelude.{IfSome, None, Some};
ghost use Rattle.std.specs.List.Sorted.{IsPartitionPoint};
ghost use Rattle.xet_offers.specs.Blocks.{lies_in};
ghost use Rattle.xet_offers.specs.PlanChecks.{unordered};
ghost use Rattle.xet_offers.specs.Offers.{entry_offers, offered};

use crate::reconstruction_terms::listed_offers::{Offer, lies_in};
use crate::reconstruction_terms::plan_checks::is_unordered;
use xet_outside::{FetchEntry, FetchRange, PlanTerm};

/// An entry whose ranges are nonempty and ascend, and of which each is a block.
#[derive(Drop)]
pub(crate) struct EntryOffers<'a> {
    pub(crate) entry: &'a FetchEntry,
    ghost ordered: { unordered 0 entry.now.ranges ≡ false },
}

/// How many ranges end at or before a chunk, of ranges that ascend.
fn count_before(ranges: &[FetchRange], chunk: u32) -> usize
    requires { unordered 0 ranges.now ≡ false }
    ensures { IsPartitionPoint (λ r. nat_le r.chunks.end chunk ≡ true)
        (λ r. nat_le r.chunks.end chunk ≡ false) ranges.now result }
{
    ranges.partition_point(|range| range.chunks.end <= chunk)
}

impl<'a> EntryOffers<'a> {
    /// The entry; none where its ranges don't ascend.
    pub(crate) fn new(entry: &'a FetchEntry) -> Option<EntryOffers<'a>>
        ensures { IfSome result (λ made. made.entry.now ≡ entry.now) }
    {
        if is_unordered(entry.ranges.as_slice()) {
            return None;
        }
        Some(EntryOffers { entry })
    }

    /// The range at a place, where the term lies in it.
    fn offer_at(&self, place: usize, term: &PlanTerm) -> Option<Offer<'a>>
        ensures { option_map offered result ≡ option_and_then
            (λ o. cond (lies_in term.now o.range) (Some o) None) (slice_get (entry_offers self.now.entry.now) place) }
    {
        let ranges = self.entry.ranges.as_slice();
        if place >= ranges.len() {
            return None;
        }
        let range = ranges[place];
        if !lies_in(term, &range) {
            return None;
        }
        Some(Offer {
            range,
            block: &ranges[place..place + 1],
            number: place,
            before: 0,
            url: &self.entry.url,
        })
    }

    /// The range in which the term lies: this place is looked at first, and else its place is searched by halves.
    pub(crate) fn find(&self, term: &PlanTerm, near: usize) -> Option<Offer<'a>>
        ensures { option_map offered result
            ≡ find (λ o. lies_in term.now o.range) (entry_offers self.now.entry.now) }
    {
        match self.offer_at(near, term) {
            Some(offer) => Some(offer),
            None => {
                let ranges = self.entry.ranges.as_slice();
                self.offer_at(count_before(ranges, term.range.start), term)
            }
        }
    }
}
