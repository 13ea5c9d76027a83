//! Blocks in the order in which they are listed, each once.
ghost use Rattle.std.specs.Prelude.{◌≡◌, [], OnErr, OnOk};
ghost use Rattle.xet_leader.specs.Lacking.{base_of, lists, with_place};
ghost use Rattle.xet_leader.specs.Listings.{listed_with};

use crate::missing_blocks::BlockAt;
use std::alloc::Global;
use std::marker::Model;
use xet_base::{List, OutOfMemory};
use xet_run::{BlockId, BlockTable};

/// Blocks in the order in which they were added, each once. Whether a block is listed is found in a table, by its
/// numbers, or by a walk over the list where it is below all that the table is for. Contracts see it as a `Listing` of
/// `specs/Listings`.
#[derive(Drop)]
pub(crate) struct PlaceList {
    places: Vec<BlockAt>,
    // the number of the first plan that the table is for
    first: u64,
    // the first block of that plan that it is for
    low: usize,
    // what is listed, by plans that are counted from the first one
    listed: BlockTable,
}

impl Model for PlaceList {
    ghost use Rattle.xet_leader.specs.Lacking.{AreListed};
    ghost use Rattle.xet_leader.specs.Listings.{Listing};

    ghost Value = { Listing };

    ghost view = { λ s. record { first = s.first; low = s.low; places = s.places.items } };

    ghost invariant = { λ s. AreListed s.first s.low s.listed s.places.items };
}

impl PlaceList {
    /// No blocks, with room for so many, and a table for blocks of plans from the first number on, of that plan from
    /// the low block on. Few blocks are to be below.
    pub(crate) fn new(alloc: Global, first: u64, low: usize, count: usize) -> PlaceList
        ensures { result ≡ record { first = first; low = low; places = [] } }
    {
        PlaceList {
            places: List::with_hint(alloc, count).into_inner(),
            first,
            low,
            listed: BlockTable::new(alloc),
        }
    }

    /// Adds a block, where it isn't listed yet. `OutOfMemory` where memory was refused; then the list is as it was.
    pub(crate) fn add(&mut self, place: BlockAt) -> Result<(), OutOfMemory>
        ensures ok { OnOk result (self.new ≡ listed_with self.old place) }
        ensures err { OnErr result (self.new ≡ self.old) }
    {
        let BlockAt { plan, block } = place;
        let Some(plan) = plan.checked_sub(self.first) else {
            return add_below(&mut self.places, place);
        };
        let Some(block) = block.checked_sub(base_of(self.low, plan)) else {
            return add_below(&mut self.places, place);
        };
        let id = BlockId { plan, block };
        if self.listed.mark(id).kept {
            return Ok(());
        }
        self.places.reserve(1)?;
        self.listed.keep(id)?;
        self.places.push_reserved(place);
        Ok(())
    }

    /// The blocks.
    pub(crate) fn into_list(self) -> List<BlockAt>
        ensures { result ≡ self.places }
    {
        List::from_vec(self.places)
    }
}

/// From which block on the table counts those of a plan, which is counted from the first one.
fn base_of(low: usize, plan: u64) -> usize
    ensures { result ≡ base_of low plan }
{
    if plan == 0 { low } else { 0 }
}

/// Adds a block, where it isn't listed yet, as a walk over the list finds. `OutOfMemory` where memory was refused; then
/// the list is as it was.
fn add_below(places: &mut Vec<BlockAt>, place: BlockAt) -> Result<(), OutOfMemory>
    ensures ok { OnOk result (places.new.items ≡ with_place places.old.items place) }
    ensures err { OnErr result (places.new.items ≡ places.old.items) }
{
    if is_listed(places.as_slice(), place) {
        return Ok(());
    }
    places.push(place)?;
    Ok(())
}

/// Whether a block is listed.
fn is_listed(places: &[BlockAt], place: BlockAt) -> bool
    ensures { result ≡ lists places.now place }
{
    places.iter().any(|listed| listed.plan == place.plan && listed.block == place.block)
}
