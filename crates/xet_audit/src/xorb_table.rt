//! The xorbs of a raw store, found by their hashes.
ghost use Rattle.std.specs.Prelude.{◌≡◌};
ghost use Rattle.xet_store.specs.Refusals.{stored_term};
ghost use Rattle.xet_audit.specs.Raws.{store_of_raw};
ghost use Rattle.xet_audit.specs.steps.Indexed.{IsIndexed};
ghost use Rattle.xet_audit.specs.steps.Tables.{place_of};
ghost use Rattle.xet_audit.specs.steps.Terms.{state_of};

use crate::first_places::FirstPlaces;
use crate::raw_store::RawStore;
use crate::term_state::TermState;
use xet_base::{FileDataSequenceEntry, List, MerkleHash};
use xet_findings::bytes_between;

/// The xorbs of a raw store, each with the places of its chunks. Of two with one hash the first is found.
#[derive(Drop)]
pub(crate) struct XorbTable<'a> {
    pub(crate) raw: &'a RawStore,
    pub(crate) firsts: FirstPlaces,
    pub(crate) places: List<List<u128>>,
}

impl<'a> XorbTable<'a> {
    /// The number of a hash among the xorbs' different ones, or none where no xorb has it. A number is looked at
    /// first.
    pub(crate) fn number_near(&self, hash: &MerkleHash, near: usize) -> Option<usize>
        requires { IsIndexed self.now }
        ensures { result ≡ place_of self.now.firsts.hashes hash.now }
    {
        if let Some(found) = self.firsts.hashes.keys().get(near)
            && found.is_same(hash)
        {
            return Some(near);
        }
        self.firsts.hashes.number_of(hash)
    }

    /// What a term comes to, whose xorb's hash has this number.
    pub(crate) fn state(&self, term: &FileDataSequenceEntry, number: Option<usize>) -> TermState
        requires indexed { IsIndexed self.now }
        requires known { number ≡ place_of self.now.firsts.hashes term.now.xorb }
        ensures { result ≡ state_of (store_of_raw self.now.raw.now) (stored_term term.now) }
    {
        let Some(number) = number else {
            return TermState::Unnamed;
        };
        let place = self.firsts.places[number];
        let places = self.places.as_slice()[place].as_slice();
        match bytes_between(places, term.from, term.to) {
            Some(length) => TermState::Inside(length),
            None => TermState::Outside,
        }
    }
}
