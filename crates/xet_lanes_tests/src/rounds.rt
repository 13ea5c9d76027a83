//! Rounds of one join over a run of its own.
ghost use Rattle.std.specs.Prelude.{◌^◌, ◌≡◌, ◌<◌, All, IfOk, length, map};
ghost use Rattle.xet_ties.specs.Lanes.{IsFor};
ghost use Rattle.xet_lane.specs.Fetches.{ask_of};

use crate::one_byte::OneByte;
use std::alloc::Global;
use std::marker::Brand;
use std::sync::Wait;
use std::sync::ledger::{Blank, Ledger};
use std::thread::Threads;
use xet_base::{
    ChunkRange, FileRange, List, MerkleHash, OutOfMemory, SharedText, ShortList, UniqueId,
};
use xet_blocks::{RetrievalUrl, TermBlockRetrievalURLs, XorbBlock};
use xet_lanes::{Fetch, Gate, Joined, fetch_and_write};
use xet_run::RunState;
use xet_sinks::ScriptSink;
use xet_writers::SequentialWriter;

fn one_chunk() -> XorbBlock {
    XorbBlock {
        xorb_hash: MerkleHash([17; 32]),
        chunk_ranges: ShortList::of_one(ChunkRange::new(0, 1)),
        xorb_block_index: 0,
        references: ShortList::new(),
        uncompressed_size_if_known: None,
        kept: None,
    }
}

/// A table with a URL of no bytes for the block.
fn one_url(alloc: Global) -> TermBlockRetrievalURLs {
    let mut urls = List::new(alloc);
    if let Ok(url) = SharedText::from_string(alloc, String::new(alloc)) {
        let ranges = ShortList::new();
        let _ = urls.push(RetrievalUrl { url, ranges });
    }
    let id = UniqueId {
        plan: 1,
        refresh: 0,
    };
    TermBlockRetrievalURLs::new(MerkleHash([1; 32]), FileRange::new(0, 1), id, urls)
}

/// Fetches of one block, of the numbers from the first to before the end.
fn fetches<'a>(
    alloc: Global,
    block: &'a XorbBlock,
    urls: &'a TermBlockRetrievalURLs,
    first: u64,
    end: u64,
) -> Result<Vec<Fetch<'a>>, OutOfMemory>
    ensures { IfOk result (λ v. All IsFor (map ask_of v.items)) }
{
    let mut all = Vec::new(alloc);
    for number in first..end {
        all.push(Fetch {
            number,
            block,
            urls,
        })?;
    }
    Ok(all)
}

/// One join of these fetches over a run of its own.
fn join<L: Ledger + Send + Sync, R: Threads + Wait + Sync, G: Gate + Sync>(
    rt: &R,
    alloc: Global,
    blank: Blank,
    gate: &G,
    fetches: &[Fetch<'_>],
    clients: &mut [OneByte<'_>],
    writer: &mut SequentialWriter<ScriptSink>,
) -> Result<Joined, OutOfMemory>
    requires name { blank.name ≡ L.name }
    requires parts { (blank.parts ≡ L.parts) × (L.parts ≡ 2 ^ 32) }
    requires clients { 0 < length clients.old }
    requires asks { All IsFor (map ask_of fetches.now) }
{
    let (state, mut pass) = RunState::<L>::new(alloc, blank, MerkleHash([1; 32]))?;
    fetch_and_write(
        rt, alloc, gate, &state, &mut pass, fetches, clients, false, writer,
    )
}

/// The same under a ledger of its own.
fn own_join<R: Threads + Wait + Sync, G: Gate + Sync>(
    rt: &R,
    alloc: Global,
    gate: &G,
    fetches: &[Fetch<'_>],
    clients: &mut [OneByte<'_>],
    writer: &mut SequentialWriter<ScriptSink>,
) -> Result<Joined, OutOfMemory>
    requires clients { 0 < length clients.old }
    requires asks { All IsFor (map ask_of fetches.now) }
{
    let blank = Blank::new(1 << 32);
    join::<Brand, R, G>(rt, alloc, blank, gate, fetches, clients, writer)
}

/// One join of the fetches of these numbers, from the first to before the end.
pub(crate) fn one_round<R: Threads + Wait + Sync, G: Gate + Sync>(
    rt: &R,
    alloc: Global,
    gate: &G,
    first: u64,
    end: u64,
    clients: &mut [OneByte<'_>],
    writer: &mut SequentialWriter<ScriptSink>,
) -> Result<Joined, OutOfMemory>
    requires clients { 0 < length clients.old }
{
    let urls = one_url(alloc);
    let block = one_chunk();
    let fetches = fetches(alloc, &block, &urls, first, end)?;
    own_join(rt, alloc, gate, fetches.as_slice(), clients, writer)
}
