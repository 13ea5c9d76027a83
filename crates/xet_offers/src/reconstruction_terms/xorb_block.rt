//! Blocks: what is fetched at once of a xorb.
ghost use Rattle.std.specs.Prelude.{◌≡◌, ◌-◌, ◌++◌, Some, None, OnErr, OnOk, IfOk, IfErr, length, map, zip};
ghost use Rattle.std.specs.Prelude.{◌<◌, All};
ghost use Rattle.std.specs.List.{range_with_len};
ghost use Rattle.std.specs.Result.{result_err};
ghost use Rattle.std.specs.List.Sorted.{IsNonDecreasingBy};
ghost use Rattle.xet_base.specs.Ranges.{Ascend};
ghost use Rattle.xet_offers.specs.BlockCalls.{CheckCall, RequestCall};
ghost use Rattle.xet_offers.specs.BlockChecks.{chunk_total, count_test, failed_block_test, length_test};
ghost use Rattle.xet_offers.specs.BlockChecks.{misplaced_after, numbers_in, order_test};
ghost use Rattle.xet_offers.specs.Chain.{last_end, known_size};
ghost use Rattle.xet_offers.specs.steps.Ascents.{ascend_below};
ghost use Rattle.xet_offers.specs.steps.Reached.{size_between};

use crate::reconstruction_terms::chunk_offsets::ChunkOffsets;
use crate::reconstruction_terms::reached_sizes::{ReachedSizes, sizes_fit};
use crate::reconstruction_terms::retrieval_urls::TermBlockRetrievalURLs;
use bytes::Bytes;
use std::alloc::Global;
use xet_base::{ChunkRange, MerkleHash, OutOfMemory, ShortList};
use xet_error::{Corruption, FileReconstructionError, Result};
use xet_outside::{BlockBytes, BlockRequest, Offsets};

/// The data of a fetched block.
///
/// In the Rust crate: `file_reconstruction::reconstruction_terms::xorb_block::XorbBlockData`.
#[derive(Drop)]
pub struct XorbBlockData {
    /// For each chunk of the block, in order: its number in the xorb, and the place of its first byte in the block.
    pub chunk_offsets: ChunkOffsets,
    /// The joined bytes of the block's chunks.
    pub bytes: Bytes,
}

/// A term's chunks in a xorb, and how many bytes they have.
///
/// In the Rust crate: `file_reconstruction::reconstruction_terms::xorb_block::XorbReference`.
#[derive(Clone, Copy, PartialEq, Eq, Debug)]
pub struct XorbReference {
    /// The term's chunks by their numbers in the xorb, half open.
    pub term_chunks: ChunkRange,
    /// How many bytes all of these chunks have, before an offset or a cut.
    pub uncompressed_size: usize,
}

/// Chunk ranges of a xorb that are fetched at once, for all terms that lie in them.
///
/// In the Rust crate: `file_reconstruction::reconstruction_terms::xorb_block::XorbBlock`.
#[derive(Drop)]
pub struct XorbBlock {
    /// The xorb.
    pub xorb_hash: MerkleHash,
    /// The numbers of the block's chunks in the xorb, as half-open ranges.
    pub chunk_ranges: ShortList<ChunkRange>,
    /// The number of the block in its plan, from 0 in the order of first use.
    pub xorb_block_index: usize,
    /// The chunks of each of its terms, by their starts; equal starts are in the order of the terms.
    pub references: ShortList<XorbReference>,
    /// How many bytes the block has, where its references tell it.
    pub uncompressed_size_if_known: Option<usize>,
    /// The block's data, once it is fetched.
    pub kept: Option<XorbBlockData>,
}

impl PartialEq for XorbBlock {
    ghost use Rattle.std.specs.Cmp.{partial_equiv_from_equiv};
    ghost use Rattle.xet_offers.specs.BlockEquality.{blocks_equal, same_xorb_block};

    ghost eq = { same_xorb_block };

    ghost laws = { partial_equiv_from_equiv blocks_equal };

    /// Blocks are equal where the xorb, the chunk ranges and the number in the plan are.
    fn eq(&self, other: &XorbBlock) -> bool {
        self.xorb_hash == other.xorb_hash
            && self.chunk_ranges.as_slice() == other.chunk_ranges.as_slice()
            && self.xorb_block_index == other.xorb_block_index
    }
}

impl Eq for XorbBlock {
    ghost use Rattle.xet_offers.specs.BlockEquality.{blocks_equal};

    ghost laws = { blocks_equal };
}

impl XorbBlock {
    /// How many bytes a block of these chunk ranges has, where terms in it tell it by the sizes of their chunks: some
    /// of the terms lead from the first range's start to the last one's end, each starting where the one before it
    /// ends, or at the start of the range after the one at whose end that one ends. Of several such lists the first
    /// found counts. No ranges have 0 bytes. None where there is no such list, and where there is a range and the sum
    /// of all sizes passes `usize::MAX`.
    ///
    /// The ranges are nonempty and ascend, and the terms are nonempty and sorted by their starts. `OutOfMemory` where
    /// memory for the reached places was refused.
    ///
    /// In the Rust crate: `XorbBlock::determine_size_if_possible`.
    pub fn determine_size_if_possible(
        alloc: Global,
        xorb_ranges: &[ChunkRange],
        terms: &[XorbReference],
    ) -> std::result::Result<Option<usize>, OutOfMemory>
        requires ascend { Ascend 0 (last_end xorb_ranges.now) xorb_ranges.now }
        requires some { All (λ t. t.term_chunks.start < t.term_chunks.end) terms.now }
        requires sorted { IsNonDecreasingBy (λ t. t.term_chunks.start) terms.now }
        ensures { IfOk result (λ size. size ≡ known_size xorb_ranges.now terms.now) }
    {
        let (Some(first), Some(last)) = (xorb_ranges.first(), xorb_ranges.last()) else {
            return Ok(Some(0));
        };
        if !sizes_fit(terms) {
            return Ok(None);
        }
        if let Some(size) = size_between(first.start, last.end, terms) {
            return Ok(Some(size));
        }
        let mut reached = ReachedSizes::new(alloc, first.start)?;
        for term in terms {
            reached.follow(xorb_ranges, term)?;
        }
        Ok(reached.sum(last.end))
    }

    /// The request by which the block is fetched: its chunks, by the URL and the byte ranges that the table has for its
    /// number. None exactly where that number is out of the table. `OutOfMemory` where the copies' memory was refused.
    ///
    /// In the Rust crate: a step of `XorbBlock::retrieve_data`.
    pub fn request(
        &self,
        alloc: Global,
        urls: &TermBlockRetrievalURLs,
    ) -> Result<Option<BlockRequest>>
        ensures { RequestCall self.now urls.now result }
    {
        let Some((acquisition, found)) = urls.get_retrieval_url(self.xorb_block_index) else {
            return Ok(None);
        };
        let url = found.url.copied()?;
        let chunks = self.chunk_ranges.copied(alloc)?;
        let bytes = found.ranges.copied(alloc)?;
        Ok(Some(BlockRequest {
            acquisition,
            index: self.xorb_block_index,
            url,
            xorb: self.xorb_hash,
            chunks,
            bytes,
        }))
    }

    /// The data of a block that a connection answered, where it passes its tests.
    ///
    /// `OffsetCount` exactly where there is not one offset for each chunk of the ranges, with the number of chunks, a
    /// sum that stops at `u64::MAX`, and the number of offsets; a reversed range has no chunks. Else `OffsetOrder` at
    /// the first offset that is not 0 at the first place, not above the one before it, or not below the number of
    /// bytes. Else `BlockLength` where the block's size is known and is not the number of bytes. `OutOfMemory` where
    /// the data's memory was refused. The data of a block of one range share memory with the answer, so nothing is
    /// written for each chunk.
    ///
    /// In the Rust crate: a step of `XorbBlock::retrieve_data`.
    pub fn check(&self, alloc: Global, block: &BlockBytes) -> Result<XorbBlockData>
        ensures { CheckCall self.now block.now result }
    {
        let ranges = self.chunk_ranges.as_slice();
        check_block(ranges, self.uncompressed_size_if_known, block).map_err(
            FileReconstructionError::CorruptedReconstruction,
        )?;
        let chunk_offsets = numbered_offsets(alloc, ranges, block.offsets.copied()?)?;
        let bytes = block.bytes.clone().map_err(OutOfMemory::from)?;
        Ok(XorbBlockData {
            chunk_offsets,
            bytes,
        })
    }

    /// The data of a block that a connection answered, where it passes its tests: `check`, which takes the answer over
    /// and counts no owner more.
    ///
    /// In the Rust crate: a step of `XorbBlock::retrieve_data`.
    pub fn accept(&self, alloc: Global, block: BlockBytes) -> Result<XorbBlockData>
        ensures { CheckCall self.now block result }
    {
        let ranges = self.chunk_ranges.as_slice();
        check_block(ranges, self.uncompressed_size_if_known, &block).map_err(
            FileReconstructionError::CorruptedReconstruction,
        )?;
        let BlockBytes { offsets, bytes } = block;
        let chunk_offsets = numbered_offsets(alloc, ranges, offsets)?;
        Ok(XorbBlockData {
            chunk_offsets,
            bytes,
        })
    }

    /// Keeps the block's data, and changes nothing else. Nothing is kept before.
    ///
    /// In the Rust crate: a step of `XorbBlock::retrieve_data`.
    pub fn keep(&mut self, found: XorbBlockData)
        requires { self.old.kept ≡ None }
        ensures { self.new ≡ record self.old { kept = Some found } }
    {
        self.kept = Some(found);
    }
}

/// How many bytes the first term has, where it starts and ends at these chunks.
fn size_between(start: u32, end: u32, terms: &[XorbReference]) -> Option<usize>
    ensures { result ≡ size_between start end terms.now }
{
    match terms {
        [term, ..] if term.term_chunks.start == start && term.term_chunks.end == end => {
            Some(term.uncompressed_size)
        }
        _ => None,
    }
}

/// Tests that there is one offset for each chunk of the ranges.
fn check_count(ranges: &[ChunkRange], block: &BlockBytes) -> std::result::Result<(), Corruption>
    ensures { result_err result ≡ count_test ranges.now block.now }
{
    let expected = chunk_total(ranges);
    let actual = block.offsets.len() as u64;
    if expected != actual {
        return Err(Corruption::OffsetCount { expected, actual });
    }
    Ok(())
}

/// Tests that the offsets are in order.
fn check_order(block: &BlockBytes) -> std::result::Result<(), Corruption>
    ensures { result_err result ≡ order_test block.now }
{
    let (places, base) = block.offsets.as_parts();
    match first_misplaced(places, base, block.bytes.len()) {
        Some(place) => Err(Corruption::OffsetOrder { place }),
        None => Ok(()),
    }
}

/// Tests that there are as many bytes as are known.
fn check_length(size: Option<usize>, block: &BlockBytes) -> std::result::Result<(), Corruption>
    ensures { result_err result ≡ length_test size block.now }
{
    match size {
        Some(size) if size != block.bytes.len() => Err(Corruption::BlockLength {
            expected: size as u64,
            actual: block.bytes.len() as u64,
        }),
        _ => Ok(()),
    }
}

/// The first test that a block of these ranges and this known size fails.
fn check_block(
    ranges: &[ChunkRange],
    size: Option<usize>,
    block: &BlockBytes,
) -> std::result::Result<(), Corruption>
    ensures { result_err result ≡ failed_block_test ranges.now size block.now }
{
    check_count(ranges, block)?;
    check_order(block)?;
    check_length(size, block)
}

/// How many chunks the ranges have, a sum that stops at `u64::MAX`. A reversed range has none.
fn chunk_total(ranges: &[ChunkRange]) -> u64
    ensures { result ≡ chunk_total ranges.now }
{
    let mut total = 0u64;
    for range in ranges {
        total = total.saturating_add(u64::from(range.end.saturating_sub(range.start)));
    }
    total
}

/// The place of the first offset that is out of order in a block of this many bytes. The offsets are these numbers,
/// each less `base`. Offsets in order are told by a loop without a branch for each number.
fn first_misplaced(places: &[u32], base: u32, size: usize) -> Option<usize>
    ensures { result ≡ misplaced_after size None (map (λ p. p - base) places.now) }
{
    let (first, rest) = places.split_first()?;
    if *first == base && ascend_below((base as usize).saturating_add(size), base, rest) {
        return None;
    }
    let mut before = first.saturating_sub(base);
    if before != 0 || size == 0 {
        return Some(0);
    }
    for (place, number) in rest.iter().enumerate() {
        let offset = number.saturating_sub(base);
        if offset <= before || size <= offset as usize {
            return Some(place + 1);
        }
        before = offset;
    }
    None
}

/// Whether numbers ascend from a first one, and the last of all is below an end.
fn ascend_below(end: usize, first: u32, rest: &[u32]) -> bool
    ensures { result ≡ ascend_below end first rest.now }
{
    let mut ascend = true;
    let mut before = first;
    for number in rest {
        ascend &= before < *number;
        before = *number;
    }
    ascend && (before as usize) < end
}

/// The number of each chunk of the ranges, with its offset, as far as there are both. Those of one range are kept as
/// the offsets are.
fn numbered_offsets(
    alloc: Global,
    ranges: &[ChunkRange],
    offsets: Offsets,
) -> std::result::Result<ChunkOffsets, OutOfMemory>
    ensures { IfOk result (λ chunks. chunks ≡ zip (numbers_in ranges.now) offsets) }
{
    match ranges {
        [range] if range.end.saturating_sub(range.start) as usize == offsets.len() => {
            Ok(ChunkOffsets::of_run(range.start, offsets))
        }
        _ => {
            let offsets = offsets.to_vec(alloc)?;
            let pairs = numbered_pairs(alloc, ranges, offsets.as_slice())?;
            Ok(ChunkOffsets::from_vec(pairs))
        }
    }
}

/// The number of each chunk of the ranges, with its offset, as far as there are both.
fn numbered_pairs(
    alloc: Global,
    ranges: &[ChunkRange],
    offsets: &[u32],
) -> std::result::Result<Vec<(usize, usize)>, OutOfMemory>
    ensures { IfOk result (λ pairs. pairs.items ≡ zip (numbers_in ranges.now) offsets.now) }
{
    let mut pairs = Vec::with_capacity(alloc, offsets.len())?;
    for range in ranges {
        let rest = &offsets[pairs.len()..];
        push_chunks(&mut pairs, *range, rest)?;
    }
    Ok(pairs)
}

/// Adds the number of each chunk of a range, with its offset, as far as there are both. Room for all of them is taken
/// at once.
fn push_chunks(
    pairs: &mut Vec<(usize, usize)>,
    range: ChunkRange,
    offsets: &[u32],
) -> std::result::Result<(), OutOfMemory>
    ensures { OnOk result (pairs.new.items
        ≡ pairs.old.items ++ zip (range_with_len range.start (range.end - range.start)) offsets.now) }
{
    let count = range.end.saturating_sub(range.start) as usize;
    let used = &offsets[..count.min(offsets.len())];
    pairs.reserve(used.len())?;
    for (index, offset) in used.iter().enumerate() {
        pairs.push_reserved((range.start as usize + index, *offset as usize));
    }
    Ok(())
}
