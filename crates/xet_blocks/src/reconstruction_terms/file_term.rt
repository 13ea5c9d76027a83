//! The terms of a file in a range, and how a query's answer is made into them.
ghost use Rattle.std.specs.Prelude.{◌≡◌, ◌≤◌, ◌⊎◌, ◌<◌, length, slice_range, All, IfErr, IfOk, MatchResult, None};
ghost use Rattle.xet_base.specs.Lists.{first_some};
ghost use Rattle.xet_outside.specs.Plan.{shape};
ghost use Rattle.xet_error.specs.declared.error.FileReconstructionError.TheVariants as error;
ghost use Rattle.xet_blocks.specs.DataTasks.{FromKept, kept_of};
ghost use Rattle.xet_blocks.specs.Extracts.{ExtractCall, failed_term_test};
ghost use Rattle.xet_offers.specs.PlanChecks.{entry_tests};
ghost use Rattle.xet_offers.specs.Refusals.{IsRefusal};
ghost use Rattle.xet_blocks.specs.TermBlockCalls.{FromTerms, TermBlockCall};
ghost use Rattle.xet_blocks.specs.steps.Planning.{Fit, HasChunks, HasRanges, IsMadeOf, IsPlanned};
ghost use Rattle.xet_blocks.specs.steps.TermPlaces.{IsPlaceOf};

use crate::reconstruction_terms::plan_blocks::PlanBlocks;
use bytes::Bytes;
use std::alloc::Global;
use std::ops::Range;
use xet_base::{ChunkRange, FileRange, List, MerkleHash, OutOfMemory, UniqueId};
use xet_error::{Corruption, FileReconstructionError, Result};
use xet_offers::{
    PlanOffers, TermBlockRetrievalURLs, XorbBlock, XorbBlockData, check_entries, check_places,
    check_xorbs,
};
use xet_outside::{Client, Plan, PlanAnswer};

/// A term of a plan: some bytes of the file, and where they stand in a block.
///
/// In the Rust crate: `file_reconstruction::reconstruction_terms::file_term::FileTerm`.
#[derive(Clone, Copy, PartialEq, Eq, Debug)]
pub struct FileTerm {
    /// The term's bytes by their places in the file, half open. It may have none.
    pub byte_range: FileRange,
    /// The term's chunks by their numbers in the xorb, half open.
    pub xorb_chunk_range: ChunkRange,
    /// How many chunks of the block come before the term's first chunk.
    pub xorb_block_start_index: usize,
    /// How many bytes of the first chunk come before the term.
    pub offset_into_first_range: u64,
    /// The number of the term's block in its plan, from 0.
    pub xorb_block: usize,
}

/// Where a term's bytes come from.
///
/// In the Rust crate: the future that `FileTerm::get_data_task` answers.
#[derive(Drop)]
pub enum DataSource {
    /// The block with this number in the plan is to be fetched first.
    Wanted(usize),
    /// These are the bytes.
    Ready(Bytes),
}

impl FileTerm {
    /// The term's bytes, cut from its block with no copy: as many as its byte range has, from the place of its first
    /// chunk plus its offset on.
    ///
    /// `CorruptedReconstruction` exactly where the term fails a test: `OffsetCount` where the block has no chunk at the
    /// start index, with the index plus 1 and the number of chunks; else `TermPastBlock` where the term's end in the
    /// block passes the block's bytes, with that end and the number of bytes. Sums stop at `u64::MAX`. `OutOfMemory`
    /// where the cut's memory was refused.
    ///
    /// In the Rust crate: `file_reconstruction::reconstruction_terms::file_term::FileTerm::extract_bytes`, which panics
    /// where a test fails.
    pub fn extract_bytes(&self, alloc: Global, block: &XorbBlockData) -> Result<Bytes>
        ensures { ExtractCall self.now block.now result }
    {
        match self.place_in(block) {
            Ok(place) => cut(&block.bytes, place).map_err(FileReconstructionError::from),
            Err(fault) => Err(FileReconstructionError::CorruptedReconstruction(fault)),
        }
    }

    /// Where the term's bytes come from, given the blocks of its plan, which have its own: `Wanted` with its block's
    /// number exactly where that block keeps no data, else the term's bytes or the refusal of `extract_bytes`.
    ///
    /// In the Rust crate: `file_reconstruction::reconstruction_terms::file_term::FileTerm::get_data_task`.
    pub fn get_data_task(&self, alloc: Global, blocks: &[XorbBlock]) -> Result<DataSource>
        requires { self.now.xorb_block < length blocks.now }
        ensures { FromKept self.now (kept_of blocks.now self.now.xorb_block) result }
    {
        match &blocks[self.xorb_block].kept {
            Some(found) => self.extract_bytes(alloc, found).map(DataSource::Ready),
            None => Ok(DataSource::Wanted(self.xorb_block)),
        }
    }

    /// The places of the term's first byte in its block and of the byte after its last one, or the test that it fails.
    fn place_in(&self, block: &XorbBlockData) -> std::result::Result<Range<usize>, Corruption>
        ensures { MatchResult result (IsPlaceOf self.now block.now)
            (λ fault. failed_term_test self.now block.now ≡ Some fault) }
    {
        let Some((_, first)) = block.chunk_offsets.get(self.xorb_block_start_index) else {
            return Err(Corruption::OffsetCount {
                expected: (self.xorb_block_start_index as u64).saturating_add(1),
                actual: block.chunk_offsets.len() as u64,
            });
        };
        let start = (first as u64).saturating_add(self.offset_into_first_range);
        let size = self.byte_range.end.saturating_sub(self.byte_range.start);
        let end = start.saturating_add(size);
        let length = block.bytes.len() as u64;
        if length < end {
            return Err(Corruption::TermPastBlock { end, length });
        }
        Ok(start as usize..end as usize)
    }
}

/// Some of the bytes, with no copy.
fn cut(bytes: &Bytes, place: Range<usize>) -> std::result::Result<Bytes, OutOfMemory>
    requires ascends { place.start ≤ place.end }
    requires within { place.end ≤ length bytes.now }
    ensures { IfOk result (λ part. part ≡ slice_range bytes.now place.start place.end) }
{
    let part = bytes.slice(place)?;
    Ok(part)
}

/// The terms of one plan, and the blocks that they are cut from.
///
/// In the Rust crate: the triple that `retrieve_file_term_block` answers.
#[derive(Drop)]
pub struct TermBlock {
    /// The bytes of the file from the first term's start to before the last one's end.
    pub byte_range: FileRange,
    /// The bytes of all blocks as they are transferred, a sum that stops at `u64::MAX`.
    pub transfer_bytes: u64,
    /// The terms in the order of the file.
    pub terms: List<FileTerm>,
    /// The blocks in the order of their first use, each before it is fetched.
    pub blocks: List<XorbBlock>,
    /// The URL of each block.
    pub urls: TermBlockRetrievalURLs,
}

/// Asks once for the plan of a half-open range of a file's bytes, and makes its terms and blocks, whose URLs get this
/// id. With `multirange` each fetch entry is a block of all its ranges, else each fetch range is a block. Terms share a
/// block where the xorb and the whole list of ranges are equal.
///
/// None exactly where the connection said that the range starts past the file's end, or gave a plan without terms.
/// `FileNotFound` exactly where it said that the file is not stored. `CorruptedReconstruction` exactly where the plan
/// has terms and fails a test, with the first test that fails. `ClientError` only where the connection's faults rose,
/// and then it said nothing. `OutOfMemory` where memory was refused, here or on the connection.
///
/// In the Rust crate: `file_reconstruction::reconstruction_terms::file_term::retrieve_file_term_block`.
pub fn retrieve_file_term_block<C: Client>(
    alloc: Global,
    client: &mut C,
    file_hash: MerkleHash,
    query_file_byte_range: FileRange,
    multirange: bool,
    id: UniqueId,
) -> Result<Option<TermBlock>>
    ensures { TermBlockCall (C.told client.old) (C.told client.new)
        (record { file = file_hash; range = query_file_byte_range; multirange = multirange; id = id }) result }
{
    match client.plan(alloc, &file_hash, query_file_byte_range)? {
        PlanAnswer::Found(plan) => {
            answer_plan(
                alloc,
                &plan,
                file_hash,
                query_file_byte_range,
                multirange,
                id,
            )
        }
        PlanAnswer::PastEnd => Ok(None),
        PlanAnswer::NoFile => Err(FileReconstructionError::FileNotFound),
    }
}

/// What a plan is made into; none where it has no terms.
fn answer_plan(
    alloc: Global,
    plan: &Plan,
    file_hash: MerkleHash,
    query: FileRange,
    multirange: bool,
    id: UniqueId,
) -> Result<Option<TermBlock>>
    ensures made { IfOk result (λ made. FromTerms plan.now
        (record { file = file_hash; range = query; multirange = multirange; id = id }) plan.now.terms (Ok made)) }
    ensures refused { IfErr result (λ e. (e ≡ error.OutOfMemory) ⊎ FromTerms plan.now
        (record { file = file_hash; range = query; multirange = multirange; id = id }) plan.now.terms (Err e)) }
{
    if plan.terms.len() == 0 {
        return Ok(None);
    }
    let blocks = plan_blocks(alloc, plan, multirange)?;
    let byte_range = check_places(plan, query).map_err(
        FileReconstructionError::CorruptedReconstruction,
    )?;
    let urls = TermBlockRetrievalURLs::new(file_hash, byte_range, id, blocks.urls(alloc)?);
    let made = term_block(alloc, plan, &blocks, query, urls)?;
    Ok(Some(made))
}

/// The terms and blocks of a plan, where its entries and the terms in them pass their tests.
fn plan_blocks(alloc: Global, plan: &Plan, multirange: bool) -> Result<PlanBlocks<'_>>
    ensures planned { IfOk result (λ made. (first_some (entry_tests (shape plan.now) multirange) ≡ None)
        × IsPlanned plan.now multirange made) }
    ensures refused { IfErr result (IsRefusal (first_some (entry_tests (shape plan.now) multirange))) }
{
    check_entries(plan, multirange).map_err(FileReconstructionError::CorruptedReconstruction)?;
    let offers = PlanOffers::new(alloc, plan, multirange)?;
    let xorbs = check_xorbs(alloc, &offers)?;
    PlanBlocks::new(alloc, &offers, xorbs.as_slice())
}

/// A block of terms with these URLs, of a plan's listed blocks.
fn term_block(
    alloc: Global,
    plan: &Plan,
    blocks: &PlanBlocks,
    query: FileRange,
    urls: TermBlockRetrievalURLs,
) -> std::result::Result<TermBlock, OutOfMemory>
    requires started { length blocks.now.starts ≡ length plan.now.terms }
    requires fit { Fit query.start plan.now.offset_into_first_range plan.now.terms }
    requires within { All (λ s. s.block < length blocks.now.blocks) blocks.now.starts }
    requires ascend { All HasRanges blocks.now.blocks }
    requires some { All HasChunks plan.now.terms }
    ensures { IfOk result (IsMadeOf plan.now query blocks.now urls) }
{
    Ok(TermBlock {
        byte_range: urls.byte_range,
        transfer_bytes: blocks.transfer_bytes(),
        terms: blocks.file_terms(alloc, plan, query)?,
        blocks: blocks.xorb_blocks(alloc, plan)?,
        urls,
    })
}
