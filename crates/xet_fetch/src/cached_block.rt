//! Blocks that come from a cache, and go into one.
ghost use Rattle.std.specs.Prelude.{◌≡◌, ◌-◌, ◌^◌, IfOk, OnOk, OnErr, min, map};
ghost use Rattle.std.specs.List.{list_all};
ghost use Rattle.xet_offers.specs.Blocks.{start_index};
ghost use Rattle.xet_offers.specs.BlockChecks.{numbers_in};
ghost use Rattle.xet_fetch.specs.CachedBlocks.{CheckCachedCall, IsOffered, LookCall, OfferCall, ends_within, entry_of};
ghost use Rattle.xet_fetch.specs.CachedBlocks.{has_reference};

use std::alloc::Global;
use xet_base::{ChunkRange, OutOfMemory};
use xet_blocks::{XorbBlock, XorbBlockData, XorbReference};
use xet_error::{FileReconstructionError, Result};
use xet_outside::{BlockBytes, CacheError, ChunkCache};

/// The data of a cached entry, where it passes the tests of the block and has all bytes of each of the block's
/// references; none exactly where it doesn't. `OutOfMemory` where the data's memory was refused.
///
/// In the Rust crate: a step of `XorbBlock::retrieve_data`, which takes every entry.
pub fn check_cached(
    alloc: Global,
    block: &XorbBlock,
    entry: &BlockBytes,
) -> std::result::Result<Option<XorbBlockData>, OutOfMemory>
    ensures { CheckCachedCall block.now entry.now result }
{
    match block.check(alloc, entry) {
        Ok(_) if !has_references(block, entry) => Ok(None),
        Ok(data) => Ok(Some(data)),
        Err(FileReconstructionError::OutOfMemory) => Err(OutOfMemory),
        Err(_) => Ok(None),
    }
}

/// Whether an entry has all bytes of each of the block's references.
fn has_references(block: &XorbBlock, entry: &BlockBytes) -> bool
    ensures { result ≡ list_all (has_reference block.now.chunk_ranges entry.now) block.now.references }
{
    let ranges = block.chunk_ranges.as_slice();
    for reference in block.references.as_slice() {
        if !has_reference(ranges, entry, *reference) {
            return false;
        }
    }
    true
}

/// Looks into the cache for a block of one range, once. The data of an entry that passes `check_cached`; none where
/// there is no entry, one that fails, or a fault of the cache. A block of several ranges is not looked for.
/// `OutOfMemory` where memory was refused, here or in the cache.
pub fn look_up<K: ChunkCache>(
    alloc: Global,
    block: &XorbBlock,
    cache: &mut K,
) -> Result<Option<XorbBlockData>>
    ensures { LookCall block.now (K.told cache.old) (K.told cache.new) result }
{
    let [range] = block.chunk_ranges.as_slice() else {
        return Ok(None);
    };
    match cache.get(alloc, &block.xorb_hash, *range) {
        Ok(Some(given)) => {
            let found = check_cached(alloc, block, &given)?;
            Ok(found)
        }
        Ok(None) => Ok(None),
        Err(CacheError::Failed) => Ok(None),
        Err(CacheError::OutOfMemory) => Err(FileReconstructionError::OutOfMemory),
    }
}

/// Offers the bytes of a block of one range to the cache, once, whatever it answers. A block of several ranges is not
/// offered.
pub fn offer<K: ChunkCache>(alloc: Global, block: &XorbBlock, cache: &mut K, entry: &BlockBytes)
    ensures { IsOffered block.now block.now.chunk_ranges (K.told cache.old) (K.told cache.new) entry.now }
{
    if let [range] = block.chunk_ranges.as_slice() {
        let _ = cache.put(alloc, &block.xorb_hash, *range, entry);
    }
}

/// Offers the data of a block of one range, as `offer` does, unless the cache takes no entries. `OutOfMemory` where
/// memory for the entry was refused, and then nothing was offered.
pub fn offer_data<K: ChunkCache>(
    alloc: Global,
    block: &XorbBlock,
    cache: &mut K,
    found: &XorbBlockData,
) -> std::result::Result<(), OutOfMemory>
    ensures { OfferCall block.now found.now (K.told cache.old) (K.told cache.new) result }
{
    if !cache.takes_entries() {
        return Ok(());
    }
    let made = entry(alloc, found)?;
    offer(alloc, block, cache, &made);
    Ok(())
}

/// The data as the bytes of a block, as a connection answers them and a cache keeps them. Its bytes share memory with
/// the data's, and so do its offsets where the data are of one range. An offset over `u32::MAX`, which no answer has,
/// is that number. `OutOfMemory` where memory was refused.
pub fn entry(alloc: Global, found: &XorbBlockData) -> std::result::Result<BlockBytes, OutOfMemory>
    ensures { IfOk result (λ e. e ≡ entry_of found.now) }
{
    let offsets = found.chunk_offsets.offsets(alloc)?;
    let bytes = found.bytes.clone().map_err(OutOfMemory::from)?;
    Ok(BlockBytes { offsets, bytes })
}

/// Whether an entry of these ranges has all bytes of a reference.
fn has_reference(ranges: &[ChunkRange], entry: &BlockBytes, reference: XorbReference) -> bool
    ensures { result ≡ has_reference ranges.now entry.now reference }
{
    let offsets = &entry.offsets;
    let index = chunks_before(ranges, reference.term_chunks.start).min(offsets.len());
    let Some(place) = offsets.get(index) else {
        return false;
    };
    let end = (place as usize).saturating_add(reference.uncompressed_size);
    end <= entry.bytes.len()
}

/// How many chunks of the ranges come before a chunk, a sum that stops at `usize::MAX`.
fn chunks_before(ranges: &[ChunkRange], chunk: u32) -> usize
    ensures { result ≡ min (start_index ranges.now chunk) (2 ^ 64 - 1) }
{
    let mut count = 0usize;
    for range in ranges {
        let before = range.end.min(chunk).saturating_sub(range.start);
        count = count.saturating_add(before as usize);
    }
    count
}
