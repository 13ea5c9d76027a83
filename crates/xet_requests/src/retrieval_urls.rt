//! Refreshes a plan's URLs.
ghost use Rattle.std.specs.Prelude.{◌≡◌, ◌∷◌, [], map};
ghost use lib.Pointwise.{pointwise};
ghost use Rattle.xet_base.specs.Lists.{first_some};
ghost use Rattle.xet_offers.specs.Blocks.{range_eq};
ghost use Rattle.xet_requests.specs.Refreshes.{FreshCall, RefreshCall, blocks_test, extent_of, first_difference};
ghost use Rattle.xet_requests.specs.Refreshes.{next_id, range_test, same_extent};

use std::alloc::Global;
use xet_base::{ChunkRange, FileRange, List, MerkleHash, UniqueId};
use xet_blocks::{
    RetrievalUrl, TermBlock, TermBlockRetrievalURLs, XorbBlock, retrieve_file_term_block,
};
use xet_error::{Corruption, FileReconstructionError, Result};
use xet_outside::Client;

/// Asks for the plan of the table's bytes again where the id is the table's, and takes the new URLs; the table's id is
/// then the next refresh of the plan. Where the id is another one nothing is asked and the answer is Ok, so that of
/// several expired blocks of one plan the first alone asks. `blocks` are the blocks of the plan.
///
/// Exactly by the connection's answer: `FileNotFound` where it said that the file is not stored;
/// `CorruptedReconstruction` with `RefreshPastEnd` where it said that the bytes are past the end, or gave a plan
/// without terms, else with the first failed test of a plan, else with `RefreshRange` where the plan covers other
/// bytes, else with `RefreshBlocks` at the first block that has another xorb or other chunk ranges, or that only one of
/// the lists has. `ClientError` only where the connection's faults rose. `OutOfMemory` where memory was refused. After
/// an error the table is as before.
///
/// In the Rust crate:
/// `file_reconstruction::reconstruction_terms::retrieval_urls::TermBlockRetrievalURLs::refresh_retrieval_urls`.
pub fn refresh_retrieval_urls<C: Client>(
    alloc: Global,
    table: &mut TermBlockRetrievalURLs,
    client: &mut C,
    acquisition_id: UniqueId,
    blocks: &[XorbBlock],
    multirange: bool,
) -> Result<()>
    ensures { RefreshCall table.old table.new (C.told client.old) (C.told client.new) acquisition_id blocks.now
        multirange result }
{
    if table.acquisition_id() != acquisition_id {
        return Ok(());
    }
    let (file, range) = (table.file_hash, table.byte_range);
    let urls = fresh_urls(alloc, client, file, range, blocks, multirange)?;
    *table = TermBlockRetrievalURLs::new(file, range, next_id(acquisition_id), urls);
    Ok(())
}

/// The id of the next refresh of a plan. The number of refreshes stops at `u128::MAX`.
fn next_id(id: UniqueId) -> UniqueId
    ensures { result ≡ next_id id }
{
    UniqueId {
        plan: id.plan,
        refresh: id.refresh.saturating_add(1),
    }
}

/// The URLs of the plan of these bytes, which has these blocks.
fn fresh_urls<C: Client>(
    alloc: Global,
    client: &mut C,
    file_hash: MerkleHash,
    byte_range: FileRange,
    blocks: &[XorbBlock],
    multirange: bool,
) -> Result<List<RetrievalUrl>>
    ensures { FreshCall
        (record { file = file_hash; range = byte_range; multirange = multirange; blocks = map extent_of blocks.now })
        (C.told client.old) (C.told client.new) result }
{
    let id = UniqueId::null();
    let made = retrieve_file_term_block(alloc, client, file_hash, byte_range, multirange, id)?;
    let Some(block) = made else {
        return Err(FileReconstructionError::CorruptedReconstruction(Corruption::RefreshPastEnd));
    };
    if let Some(fault) = failed_refresh(&block, byte_range, blocks) {
        return Err(FileReconstructionError::CorruptedReconstruction(fault));
    }
    let TermBlock { urls, .. } = block;
    Ok(urls.into_retrieval_urls())
}

/// The first test of a refresh that the terms and blocks of an accepted plan fail.
fn failed_refresh(
    block: &TermBlock,
    byte_range: FileRange,
    blocks: &[XorbBlock],
) -> Option<Corruption>
    ensures { result ≡ first_some (range_test byte_range block.now.byte_range
        ∷ blocks_test (map extent_of blocks.now) (map extent_of block.now.blocks) ∷ []) }
{
    let returned = block.byte_range;
    if returned != byte_range {
        return Some(Corruption::RefreshRange { returned });
    }
    let index = first_difference(blocks, block.blocks.as_slice())?;
    Some(Corruption::RefreshBlocks { index })
}

/// The first index at which two lists of blocks have another xorb or other chunk ranges, or at which only one has a
/// block.
fn first_difference(before: &[XorbBlock], now: &[XorbBlock]) -> Option<usize>
    ensures { result ≡ first_difference (map extent_of before.now) (map extent_of now.now) }
{
    for (index, block) in before.iter().enumerate() {
        if now.len() <= index {
            return Some(index);
        }
        if !has_same_extent(block, &now[index]) {
            return Some(index);
        }
    }
    if before.len() < now.len() {
        return Some(before.len());
    }
    None
}

/// Whether two blocks have the same xorb and the same chunk ranges.
fn has_same_extent(block: &XorbBlock, other: &XorbBlock) -> bool
    ensures { result ≡ same_extent (extent_of block.now) (extent_of other.now) }
{
    block.xorb_hash == other.xorb_hash
        && has_same_ranges(block.chunk_ranges.as_slice(), other.chunk_ranges.as_slice())
}

/// Whether two lists of chunk ranges are equal.
fn has_same_ranges(ranges: &[ChunkRange], others: &[ChunkRange]) -> bool
    ensures { result ≡ pointwise range_eq ranges.now others.now }
{
    ranges == others
}
