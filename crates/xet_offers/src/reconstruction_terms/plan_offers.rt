//! Where the chunks of a plan's terms are fetched: the ranges that the entries of its xorbs offer.
ghost use Rattle.std.specs.Prelude.{◌≡◌, find, map, option_map, true, IfOk, IfSome, IsSome, MatchOption, None, Some};
ghost use Rattle.std.specs.Prelude.{position};
ghost use Rattle.xet_base.specs.Hashes.{hash_eq};
ghost use Rattle.xet_outside.specs.Plan.{shape};
ghost use Rattle.xet_offers.specs.Blocks.{lies_in, plan_xorb_of};
ghost use Rattle.xet_offers.specs.steps.OfferLists.{offers_of};
ghost use Rattle.xet_offers.specs.Offers.{entry_offers, first_xorbs, offered, xorb_offers, xorb_place};

use crate::reconstruction_terms::entry_offers::EntryOffers;
use crate::reconstruction_terms::listed_offers::{ListedOffers, Offer};
use std::alloc::Global;
use xet_base::{Keyed, KeyedList, MerkleHash, OutOfMemory};
use xet_outside::{Plan, PlanTerm, PlanXorb};

/// The offers of a xorb.
#[derive(Drop)]
enum OfferList<'a> {
    /// Those of its only entry, which are not listed.
    Entry(EntryOffers<'a>),
    /// Those of any entries.
    Listed(ListedOffers<'a>),
}

/// What the entries of a xorb offer.
#[derive(Drop)]
struct XorbOffers<'a> {
    xorb: MerkleHash,
    offers: OfferList<'a>,
}

/// What the only entry of a xorb offers, where each of its ranges is a block and they ascend.
fn only_entry(xorb: &PlanXorb, multirange: bool) -> Option<EntryOffers<'_>>
    ensures { IfSome result (λ made. entry_offers made.entry.now ≡ xorb_offers multirange xorb.now) }
{
    match xorb.fetch.as_slice() {
        [entry] if !multirange => EntryOffers::new(entry),
        _ => None,
    }
}

/// What the entries of a xorb offer.
fn list_offers(
    alloc: Global,
    xorb: &PlanXorb,
    multirange: bool,
) -> Result<OfferList<'_>, OutOfMemory>
    ensures { IfOk result (λ made. offers_of made ≡ xorb_offers multirange xorb.now) }
{
    match only_entry(xorb, multirange) {
        Some(entry) => Ok(OfferList::Entry(entry)),
        None => Ok(OfferList::Listed(ListedOffers::new(alloc, xorb, multirange)?)),
    }
}

impl<'a> XorbOffers<'a> {
    /// What the entries of the xorb offer.
    fn new(
        alloc: Global,
        xorb: &'a PlanXorb,
        multirange: bool,
    ) -> Result<XorbOffers<'a>, OutOfMemory>
        ensures xorb { IfOk result (λ made. made.xorb ≡ xorb.now.xorb) }
        ensures offers { IfOk result (λ made. offers_of made.offers ≡ xorb_offers multirange xorb.now) }
    {
        Ok(XorbOffers {
            xorb: xorb.xorb,
            offers: list_offers(alloc, xorb, multirange)?,
        })
    }

    /// Whether they are those of the xorb with this hash.
    fn are_of(&self, xorb: &MerkleHash) -> bool
        ensures { result ≡ hash_eq self.now.xorb xorb.now }
    {
        self.xorb.is_same(xorb)
    }

    /// The first range in which the term lies. Where the ranges ascend this place is looked at first.
    fn find(&self, term: &PlanTerm, near: usize) -> Option<Offer<'a>>
        ensures { option_map offered result ≡ find (λ o. lies_in term.now o.range) (offers_of self.now.offers) }
    {
        match &self.offers {
            OfferList::Entry(entry) => entry.find(term, near),
            OfferList::Listed(offers) => offers.find(term, near),
        }
    }
}

impl<'a> Keyed<MerkleHash> for XorbOffers<'a> {
    ghost key_of = { λ offers. offers.xorb };

    fn key(&self) -> MerkleHash {
        self.xorb
    }
}

/// What the entries of a plan's xorbs offer. Of two xorbs with one hash the first counts.
#[derive(Drop)]
pub struct PlanOffers<'a> {
    /// The plan itself.
    pub plan: &'a Plan,
    /// Whether an entry offers one block of all its ranges, and not one of each.
    multirange: bool,
    /// The offers of each xorb.
    xorbs: KeyedList<MerkleHash, XorbOffers<'a>>,
    ghost hashed: { map (λ x. x.xorb) xorbs ≡ map (λ x. x.xorb) (first_xorbs plan.now.xorbs) },
    ghost offered: { map (λ x. offers_of x.offers) xorbs
        ≡ map (xorb_offers multirange) (first_xorbs plan.now.xorbs) },
}

impl<'a> PlanOffers<'a> {
    ghost use Rattle.xet_offers.specs.Offers.{offer_of_term};

    /// What the entries of the plan's xorbs offer.
    pub fn new(
        alloc: Global,
        plan: &'a Plan,
        multirange: bool,
    ) -> Result<PlanOffers<'a>, OutOfMemory>
        ensures plan { IfOk result (λ made. made.plan.now ≡ plan.now) }
        ensures multirange { IfOk result (λ made. made.multirange ≡ multirange) }
    {
        let mut xorbs = KeyedList::new(alloc);
        for xorb in plan.xorbs.as_slice() {
            xorbs.add_new(XorbOffers::new(alloc, xorb, multirange)?)?;
        }
        Ok(PlanOffers {
            plan,
            multirange,
            xorbs,
        })
    }

    /// The number of a xorb among those of the plan that differ, or none where it is not in the plan.
    fn number_of(&self, xorb: &MerkleHash) -> Option<usize>
        ensures { MatchOption result (plan_xorb_of (shape self.now.plan.now) xorb.now ≡ None)
            (λ number. IsSome (plan_xorb_of (shape self.now.plan.now) xorb.now)
            × (number ≡ xorb_place self.now.plan.now xorb.now)) }
    {
        self.xorbs.number_of(xorb)
    }

    /// The number of a xorb among those of the plan that differ, or none where it is not in the plan: `number_of`,
    /// which looks at a number and the one after it first.
    pub(crate) fn number_near(&self, xorb: &MerkleHash, number: usize) -> Option<usize>
        ensures { MatchOption result (plan_xorb_of (shape self.now.plan.now) xorb.now ≡ None)
            (λ number. IsSome (plan_xorb_of (shape self.now.plan.now) xorb.now)
            × (number ≡ xorb_place self.now.plan.now xorb.now)) }
    {
        if self.is_at(number, xorb) {
            return Some(number);
        }
        let next = number.saturating_add(1);
        if self.is_at(next, xorb) {
            return Some(next);
        }
        self.number_of(xorb)
    }

    /// Whether the xorb has this number among those of the plan that differ.
    fn is_at(&self, number: usize, xorb: &MerkleHash) -> bool
        ensures { result ≡ true → position (λ x. hash_eq x.xorb xorb.now) self.now.xorbs ≡ Some number }
    {
        match self.xorbs.as_slice().get(number) {
            Some(offers) => offers.are_of(xorb),
            None => false,
        }
    }

    /// The first range in which the term lies of the xorb with this number, which is the term's. Where the xorb's
    /// ranges ascend, the one at this place is looked at first.
    pub fn find(&self, xorb: usize, term: &PlanTerm, near: usize) -> Option<Offer<'a>>
        requires { xorb ≡ xorb_place self.now.plan.now term.now.xorb }
        ensures { option_map offered result ≡ offer_of_term self.now.plan.now self.now.multirange term.now }
    {
        self.xorbs.as_slice().get(xorb)?.find(term, near)
    }
}
