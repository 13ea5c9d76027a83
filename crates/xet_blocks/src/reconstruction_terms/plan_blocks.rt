//! The blocks of a plan: one for all ranges of an entry or for each of them, where some term lies in it.
ghost use Rattle.std.specs.Prelude.{◌≡◌, ◌+◌, ◌-◌, ◌^◌, ◌<◌, ◌≤◌, [], ◌∷◌, All, IfErr, IfOk, None, OnOk, length, map};
ghost use Rattle.std.specs.Prelude.{min};
ghost use Rattle.std.specs.List.{enumerate_from};
ghost use Rattle.xet_outside.specs.Plan.{shape};
ghost use Rattle.xet_offers.specs.Blocks.{range_bytes, transfer_sum};
ghost use Rattle.xet_offers.specs.Refusals.{IsRefusal};
ghost use Rattle.xet_offers.specs.Offers.{offered, xorb_place};
ghost use Rattle.xet_blocks.specs.steps.Planning.{Fit, HasChunks, HasRanges, IsNumbered, IsPlaced, IsPlanned};
ghost use Rattle.xet_blocks.specs.steps.Planning.{IsToldApart, IsUnfinished, finished, numbered_block, plan_block};
ghost use Rattle.xet_blocks.specs.steps.Planning.{retrieval_url, terms_at, unsorted_blocks, with_starts};
ghost use Rattle.xet_blocks.specs.TermBlocks.{by_start};
ghost use Rattle.xet_offers.specs.PlanChecks.{no_range_test, ranges_test};

use crate::reconstruction_terms::block_list::{BlockList, OfferedBlock};
use crate::reconstruction_terms::file_term::FileTerm;
use std::alloc::Global;
use std::mem;
use xet_base::{ChunkRange, FileRange, HttpRange, List, OutOfMemory, ShortList};
use xet_error::{Corruption, FileReconstructionError};
use xet_offers::{Offer, PlanOffers, RetrievalUrl, XorbBlock, XorbReference};
use xet_outside::{FetchRange, Plan, PlanTerm};

/// Where a term starts: the number of its block, and how many of the block's chunks come before it.
#[derive(Clone, Copy)]
pub(crate) struct TermStart {
    block: usize,
    start_index: usize,
}

/// The blocks of a plan in the order of first use, and where each of its terms starts in them.
#[derive(Drop)]
pub(crate) struct PlanBlocks<'a> {
    blocks: BlockList<'a>,
    starts: List<TermStart>,
}

impl<'a> PlanBlocks<'a> {
    /// The blocks of a plan's terms, given the number of each term's xorb. Tests that each term lies in a range of its
    /// xorb.
    pub(crate) fn new(
        alloc: Global,
        offers: &PlanOffers<'a>,
        xorbs: &[usize],
    ) -> Result<PlanBlocks<'a>, FileReconstructionError>
        requires ordered { ranges_test (shape offers.now.plan.now) offers.now.multirange ≡ None }
        requires numbered { let plan = offers.now.plan.now in xorbs.now ≡ map (λ t. xorb_place plan t.xorb) plan.terms }
        ensures planned { let plan = offers.now.plan.now in IfOk result
            (λ made. (no_range_test (shape plan) offers.now.multirange ≡ None)
            × IsPlanned plan offers.now.multirange made) }
        ensures refused { IfErr result
            (IsRefusal (no_range_test (shape offers.now.plan.now) offers.now.multirange)) }
    {
        let mut made = PlanBlocks::with_room(alloc, xorbs.len())?;
        // the range after that of the term before, which is often the next term's
        let mut near = 0usize;
        for (number, term) in offers.plan.terms.as_slice().iter().enumerate() {
            let place = xorbs[number];
            let Some(offer) = offers.find(place, term, near) else {
                let failed = Corruption::NoRange { term: number };
                return Err(FileReconstructionError::CorruptedReconstruction(failed));
            };
            near = offer.number.saturating_add(1);
            let block = OfferedBlock::new(&term.xorb, place, &offer);
            made.add_term(alloc, term, &offer, block)?;
        }
        Ok(made)
    }

    /// No terms, with room for so many, each with a block of its own.
    fn with_room(alloc: Global, terms: usize) -> Result<PlanBlocks<'a>, OutOfMemory>
        ensures blocks { IfOk result (λ made. made.blocks ≡ []) }
        ensures starts { IfOk result (λ made. made.starts ≡ []) }
    {
        Ok(PlanBlocks {
            blocks: BlockList::with_room(alloc, terms)?,
            starts: List::with_capacity(alloc, terms)?,
        })
    }

    /// Adds a term that lies in an offered range, given the block of that.
    fn add_term(
        &mut self,
        alloc: Global,
        term: &PlanTerm,
        offer: &Offer,
        block: OfferedBlock<'a>,
    ) -> Result<(), OutOfMemory>
        requires inside { offer.now.range.chunks.start ≤ term.now.range.start }
        requires apart { IsToldApart block self.old.blocks }
        ensures { OnOk result (IsPlaced self.old self.new term.now (offered offer.now) block.entry) }
    {
        let block = self.number_of(alloc, block)?;
        let inside = u64::from(first_chunk(term) - offer.range.chunks.start);
        self.starts.push(TermStart {
            block,
            start_index: offer.before.saturating_add(inside) as usize,
        })?;
        Ok(())
    }

    /// The number of a block, which is added where it is not there.
    fn number_of(&mut self, alloc: Global, block: OfferedBlock<'a>) -> Result<usize, OutOfMemory>
        requires { IsToldApart block self.old.blocks }
        ensures number { IfOk result (IsNumbered self.old.blocks self.new.blocks block.entry) }
        ensures starts { self.new.starts ≡ self.old.starts }
    {
        if let Some(number) = self.blocks.position(block.key()) {
            return Ok(number);
        }
        let number = self.blocks.len();
        self.blocks.push(alloc, block)?;
        Ok(number)
    }

    /// The bytes of all blocks, a sum that stops at `u64::MAX`.
    pub(crate) fn transfer_bytes(&self) -> u64
        ensures { result ≡ min (transfer_sum (map plan_block self.now.blocks)) (2 ^ 64 - 1) }
    {
        let mut sum = 0u64;
        for block in self.blocks.as_slice() {
            sum = add_bytes(sum, block.ranges);
        }
        sum
    }

    /// The URL of each block.
    pub(crate) fn urls(&self, alloc: Global) -> Result<List<RetrievalUrl>, OutOfMemory>
        ensures { IfOk result (λ urls. urls ≡ map retrieval_url self.now.blocks) }
    {
        let mut urls = List::with_capacity(alloc, self.blocks.len())?;
        for block in self.blocks.as_slice() {
            let url = block.url.copied()?;
            let ranges = bytes_of(alloc, block.ranges)?;
            urls.push(RetrievalUrl { url, ranges })?;
        }
        Ok(urls)
    }

    /// The terms of the plan, which starts at the query's start with its first term. Each is cut at the query's end.
    pub(crate) fn file_terms(
        &self,
        alloc: Global,
        plan: &Plan,
        query: FileRange,
    ) -> Result<List<FileTerm>, OutOfMemory>
        requires started { length self.now.starts ≡ length plan.now.terms }
        requires fit { Fit query.start plan.now.offset_into_first_range plan.now.terms }
        ensures { IfOk result (λ terms. terms ≡ terms_at query.end query.start plan.now.offset_into_first_range
            (with_starts plan.now.terms self.now.starts)) }
    {
        let mut terms = List::with_capacity(alloc, plan.terms.len())?;
        let starts = self.starts.as_slice();
        let mut place = query.start;
        let mut offset = plan.offset_into_first_range;
        for (number, term) in plan.terms.as_slice().iter().enumerate() {
            let end = place + (u64::from(term.unpacked_length) - offset);
            terms.push(FileTerm {
                byte_range: FileRange::new(place, end.min(query.end)),
                xorb_chunk_range: term.range,
                xorb_block_start_index: starts[number].start_index,
                offset_into_first_range: offset,
                xorb_block: starts[number].block,
            })?;
            place = end;
            offset = 0;
        }
        Ok(terms)
    }

    /// The blocks by their numbers, as yet without references and sizes.
    fn bare_blocks(&self, alloc: Global) -> Result<Vec<XorbBlock>, OutOfMemory>
        ensures { IfOk result (λ made. made.items ≡ unsorted_blocks [] self.now.blocks) }
    {
        let mut made = Vec::with_capacity(alloc, self.blocks.len())?;
        for (number, block) in self.blocks.as_slice().iter().enumerate() {
            made.push(XorbBlock {
                xorb_hash: *block.xorb,
                chunk_ranges: chunks_of(alloc, block.ranges)?,
                xorb_block_index: number,
                references: ShortList::new(),
                uncompressed_size_if_known: None,
                kept: None,
            })?;
        }
        Ok(made)
    }

    /// Gives each block the references of its terms, in the order of the plan's terms.
    fn add_references(
        &self,
        alloc: Global,
        plan: &Plan,
        blocks: &mut [XorbBlock],
    ) -> Result<(), OutOfMemory>
        requires started { length self.now.starts ≡ length plan.now.terms }
        requires within { All (λ s. s.block < length self.now.blocks) self.now.starts }
        requires bare { blocks.old ≡ unsorted_blocks [] self.now.blocks }
        ensures { OnOk result (blocks.new
            ≡ unsorted_blocks (with_starts plan.now.terms self.now.starts) self.now.blocks) }
    {
        let starts = self.starts.as_slice();
        for (number, term) in plan.terms.as_slice().iter().enumerate() {
            let reference = XorbReference {
                term_chunks: term.range,
                uncompressed_size: term.unpacked_length as usize,
            };
            blocks[starts[number].block]
                .references
                .push(alloc, reference)?;
        }
        Ok(())
    }

    /// The blocks with their references and the sizes that these tell, before they are fetched.
    pub(crate) fn xorb_blocks(
        &self,
        alloc: Global,
        plan: &Plan,
    ) -> Result<List<XorbBlock>, OutOfMemory>
        requires started { length self.now.starts ≡ length plan.now.terms }
        requires within { All (λ s. s.block < length self.now.blocks) self.now.starts }
        requires ascend { All HasRanges self.now.blocks }
        requires some { All HasChunks plan.now.terms }
        ensures { IfOk result (λ made. made ≡ map (numbered_block (with_starts plan.now.terms self.now.starts))
            (enumerate_from 0 (map plan_block self.now.blocks))) }
    {
        let mut blocks = self.bare_blocks(alloc)?;
        let all = blocks.as_mut_slice();
        self.add_references(alloc, plan, all)?;
        finish_blocks(alloc, all)?;
        Ok(List::from_vec(blocks))
    }
}

/// The number of the term's first chunk.
fn first_chunk(term: &PlanTerm) -> u32
    ensures value { result ≡ term.now.range.start }
    ensures fits { term.now.range.start < 2 ^ 32 }
{
    term.range.start
}

/// A sum of bytes with those of these ranges, a sum that stops at `u64::MAX`.
fn add_bytes(mut sum: u64, ranges: &[FetchRange]) -> u64
    ensures { result ≡ min (sum + range_bytes ranges.now) (2 ^ 64 - 1) }
{
    for range in ranges {
        sum = sum.saturating_add(range.bytes.length());
    }
    sum
}

/// The byte ranges of fetch ranges.
fn bytes_of(alloc: Global, ranges: &[FetchRange]) -> Result<ShortList<HttpRange>, OutOfMemory>
    ensures { IfOk result (λ made. made ≡ map (λ r. r.bytes) ranges.now) }
{
    let mut made = ShortList::new();
    for range in ranges {
        made.push(alloc, range.bytes)?;
    }
    Ok(made)
}

/// The chunk ranges of fetch ranges.
fn chunks_of(alloc: Global, ranges: &[FetchRange]) -> Result<ShortList<ChunkRange>, OutOfMemory>
    ensures { IfOk result (λ made. made ≡ map (λ r. r.chunks) ranges.now) }
{
    let mut made = ShortList::new();
    for range in ranges {
        made.push(alloc, range.chunks)?;
    }
    Ok(made)
}

/// The references by their starts; equal starts stay in their order.
fn sorted_by_start(
    alloc: Global,
    references: ShortList<XorbReference>,
) -> Result<ShortList<XorbReference>, OutOfMemory>
    ensures { IfOk result (λ sorted. sorted ≡ by_start references) }
{
    if references.len() < 2 {
        return Ok(references);
    }
    let mut sorted = Vec::from_slice(alloc, references.as_slice())?;
    sorted.sort_by_key(|reference| reference.term_chunks.start)?;
    Ok(ShortList::from_vec(sorted))
}

/// Sorts the references of each block by their starts, and finds the sizes that they tell.
fn finish_blocks(alloc: Global, blocks: &mut [XorbBlock]) -> Result<(), OutOfMemory>
    requires { All IsUnfinished blocks.old }
    ensures { OnOk result (blocks.new ≡ map finished blocks.old) }
{
    for block in blocks.iter_mut() {
        finish_block(alloc, block)?;
    }
    Ok(())
}

/// Sorts the references of a block by their starts, and finds the size that they tell.
fn finish_block(alloc: Global, block: &mut XorbBlock) -> Result<(), OutOfMemory>
    requires { IsUnfinished block.old }
    ensures { OnOk result (block.new ≡ finished block.old) }
{
    let references = mem::replace(&mut block.references, ShortList::new());
    block.references = sorted_by_start(alloc, references)?;
    block.uncompressed_size_if_known = XorbBlock::determine_size_if_possible(
        alloc,
        block.chunk_ranges.as_slice(),
        block.references.as_slice(),
    )?;
    Ok(())
}
