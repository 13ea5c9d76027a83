//! The blocks that a plan's terms use, each found by its key.
ghost use Rattle.std.specs.Prelude.{◌≡◌, ◌++◌, ◌∷◌, ◌<◌, ℕ, [], IfOk, None, OnErr, OnOk, Some, cond, length, nat_eq};
ghost use Rattle.std.specs.Prelude.{slice_index_or};
ghost use Rattle.xet_blocks.specs.declared.reconstruction_terms.block_list.BlockKey.{BlockKey};
ghost use Rattle.xet_blocks.specs.steps.BlockKeys.{IsBlockOf, key_of, number_at, place_of_key, row_at, rows_of};
ghost use Rattle.xet_blocks.specs.steps.BlockKeys.{same_key};
ghost use Rattle.xet_offers.specs.Offers.{offered};

use std::alloc::Global;
use std::marker::Model;
use xet_base::{MerkleHash, OutOfMemory, SharedText};
use xet_offers::Offer;
use xet_outside::FetchRange;

/// What tells a term's block from others: the number of its xorb, and its number among the blocks that the xorb
/// offers. A term lies in no block before its own, so that the blocks of two terms with different numbers have
/// different ranges.
#[derive(Clone, Copy)]
pub(crate) struct BlockKey {
    place: usize,
    number: usize,
}

/// A block of a xorb.
#[derive(Clone, Copy)]
pub(crate) struct OfferedBlock<'a> {
    pub(crate) xorb: &'a MerkleHash,
    /// The number of the xorb among those of the plan.
    place: usize,
    /// The number of the block's first range among all that the xorb offers.
    number: usize,
    pub(crate) ranges: &'a [FetchRange],
    pub(crate) url: &'a SharedText,
}

impl<'a> OfferedBlock<'a> {
    /// The block of an offer, of the xorb with this number among those of the plan.
    pub(crate) fn new(xorb: &'a MerkleHash, place: usize, offer: &Offer<'a>) -> OfferedBlock<'a>
        ensures { IsBlockOf xorb.now place (offered offer.now) result }
    {
        OfferedBlock {
            xorb,
            place,
            number: offer.number,
            ranges: offer.block,
            url: offer.url,
        }
    }

    /// Its key.
    pub(crate) fn key(&self) -> BlockKey
        ensures { result ≡ key_of self.now }
    {
        BlockKey {
            place: self.place,
            number: self.number,
        }
    }
}

/// Blocks in the order in which they were added, and a table of their numbers: a row for each xorb up to the last one
/// that was named, and in it a place for each block that the xorb offers, up to the last one that was added. Contracts
/// see it as the list of the blocks.
#[derive(Drop)]
pub(crate) struct BlockList<'a> {
    blocks: Vec<OfferedBlock<'a>>,
    rows: Vec<Vec<Option<usize>>>,
}

impl<'a> Model for BlockList<'a> {
    ghost use Rattle.std.specs.Prelude.{List as Items};
    ghost use Rattle.xet_blocks.specs.declared.reconstruction_terms.block_list.OfferedBlock.{OfferedBlock as Block};
    ghost use Rattle.xet_blocks.specs.steps.BlockKeys.{HasNumbers, rows_of as table_of};

    ghost Value = { Items Block };

    ghost view = { λ s. s.blocks.items };

    ghost invariant = { λ s. HasNumbers s.blocks.items (table_of s.rows) };
}

impl<'a> BlockList<'a> {
    /// No blocks, with room for so many.
    pub(crate) fn with_room(alloc: Global, count: usize) -> Result<BlockList<'a>, OutOfMemory>
        ensures { IfOk result (λ made. made ≡ []) }
    {
        Ok(BlockList {
            blocks: Vec::with_capacity(alloc, count)?,
            rows: Vec::new(alloc),
        })
    }

    /// The blocks.
    pub(crate) fn as_slice(&self) -> &[OfferedBlock<'a>]
        ensures { result.now ≡ self.now }
    {
        self.blocks.as_slice()
    }

    /// How many blocks there are.
    pub(crate) fn len(&self) -> usize
        ensures { result ≡ length self.now }
    {
        self.blocks.len()
    }

    /// The number of the block with this key, or none where it is not there.
    pub(crate) fn position(&self, key: BlockKey) -> Option<usize>
        ensures { result ≡ place_of_key self.now key }
    {
        if key.place >= self.rows.len() {
            return None;
        }
        entry(self.rows[key.place].as_slice(), key.number)
    }

    /// Adds a block at the end. The caller sees to it that its key is not there yet, as `position` tells.
    ///
    /// `OutOfMemory` where an allocation was refused, and then the list is as it was.
    pub(crate) fn push(&mut self, alloc: Global, block: OfferedBlock<'a>) -> Result<(), OutOfMemory>
        requires { place_of_key self.old (key_of block) ≡ None }
        ensures ok { OnOk result (self.new ≡ self.old ++ block.entry ∷ []) }
        ensures err { OnErr result (self.new ≡ self.old) }
    {
        let number = self.blocks.len();
        self.blocks.reserve(1)?;
        number_key(alloc, &mut self.rows, block.key(), number)?;
        self.blocks.push_reserved(block);
        Ok(())
    }
}

/// What a row has at a place; none past its end.
fn entry(row: &[Option<usize>], at: usize) -> Option<usize>
    ensures { result ≡ slice_index_or row.now at None }
{
    if at >= row.len() {
        return None;
    }
    row[at]
}

/// Makes a table so long that it has a row for a xorb.
fn reach_row(
    alloc: Global,
    rows: &mut Vec<Vec<Option<usize>>>,
    place: usize,
) -> Result<(), OutOfMemory>
    ensures same { (p : ℕ) → row_at (rows_of rows.new) p ≡ row_at (rows_of rows.old) p }
    ensures long { OnOk result (place < length rows.new.items) }
{
    while rows.len() <= place {
        if rows.push(Vec::new(alloc)).is_err() {
            return Err(OutOfMemory);
        }
    }
    Ok(())
}

/// Makes a row so long that it has a place.
fn reach(row: &mut Vec<Option<usize>>, at: usize) -> Result<(), OutOfMemory>
    ensures same { (k : ℕ) → slice_index_or row.new.items k None ≡ slice_index_or row.old.items k None }
    ensures long { OnOk result (at < length row.new.items) }
{
    while row.len() <= at {
        if row.push(None).is_err() {
            return Err(OutOfMemory);
        }
    }
    Ok(())
}

/// Writes a number into a row.
fn write(row: &mut Vec<Option<usize>>, at: usize, number: usize) -> Result<(), OutOfMemory>
    ensures ok { OnOk result ((k : ℕ) → slice_index_or row.new.items k None
        ≡ cond (nat_eq at k) (Some number) (slice_index_or row.old.items k None)) }
    ensures err { OnErr result ((k : ℕ) → slice_index_or row.new.items k None
        ≡ slice_index_or row.old.items k None) }
{
    reach(row, at)?;
    row[at] = Some(number);
    Ok(())
}

/// Writes the number of a block into a table, by its key.
fn number_key(
    alloc: Global,
    rows: &mut Vec<Vec<Option<usize>>>,
    key: BlockKey,
    number: usize,
) -> Result<(), OutOfMemory>
    ensures ok { OnOk result ((k : BlockKey) → number_at (rows_of rows.new) k
        ≡ cond (same_key key k) (Some number) (number_at (rows_of rows.old) k)) }
    ensures err { OnErr result ((k : BlockKey) → number_at (rows_of rows.new) k ≡ number_at (rows_of rows.old) k) }
{
    reach_row(alloc, rows, key.place)?;
    write(&mut rows[key.place], key.number, number)
}
