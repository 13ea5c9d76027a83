//! Fetches the bytes of a range: of a short one by one plan and one block, where that is enough.
ghost use Rattle.std.specs.Prelude.{◌≡◌, ◌<◌, None, map, true};
ghost use Rattle.xet_outside.specs.Told.{CacheTold};
ghost use Rattle.xet_ties.specs.Causes.{refused_setting};
ghost use Rattle.xet_serve.specs.Sessions.{any_setup};
ghost use Rattle.xet_serve.specs.steps.Fetching.{RangeCall};
ghost use Rattle.xet_serve.specs.steps.Shorts.{AddedTerm, FirstCall, FoundTerm, MadeCall};
ghost use Rattle.xet_serve.specs.steps.Shorts.{OneCall, PlannedCall, TermCall, UntoldAs};

use crate::fetch::{Fetched, fetch_by_run};
use std::alloc::Global;
use std::sync::Wait;
use std::thread::Threads;
use xet_base::{FileRange, MerkleHash, OutOfMemory, UniqueId};
use xet_blocks::{
    FileTerm, TermBlock, TermBlockRetrievalURLs, XorbBlock, XorbBlockData, retrieve_file_term_block,
};
use xet_error::FileReconstructionError;
use xet_outside::{ChunkCache, Client};
use xet_requests::{Fetched as Block, ask};
use xet_serve_lines::add_range;
use xet_terms::ReconstructionConfig;

// How many bytes a short range has at most. What one run takes to begin and to end is as much as their copy, and more.
const SHORT: u64 = 65_536;

// Whether a range has bytes, and few.
fn is_short(range: FileRange) -> bool
    ensures { result ≡ true → range.start < range.end }
{
    range.start < range.end && range.end - range.start <= SHORT
}

// Adds the bytes of a term in its block to a reply; none where they fail a test.
fn add_term(
    alloc: Global,
    term: &FileTerm,
    found: &XorbBlockData,
    start: u64,
    reply: &mut Vec<u8>,
) -> Result<Option<Fetched>, OutOfMemory>
    ensures { AddedTerm term.now found.now start reply.old.items reply.new.items result }
{
    match term.extract_bytes(alloc, found) {
        Ok(bytes) => {
            add_range(reply, start, bytes.as_slice())?;
            Ok(Some(Fetched::Whole))
        }
        Err(_) => Ok(None),
    }
}

// Adds the bytes of a term, where its block was found; else none.
fn add_found(
    alloc: Global,
    term: &FileTerm,
    found: &Option<Block>,
    start: u64,
    reply: &mut Vec<u8>,
) -> Result<Option<Fetched>, OutOfMemory>
    ensures { FoundTerm term.now found.now start reply.old.items reply.new.items result }
{
    match found {
        Some(block) => add_term(alloc, term, &block.found, start, reply),
        None => Ok(None),
    }
}

// What an error comes to: a connection's fault, a missing file, or none where a run is to tell.
fn untold(error: FileReconstructionError) -> Option<Fetched>
    ensures { UntoldAs error result }
{
    match error {
        FileReconstructionError::ClientError => Some(Fetched::Failed(2)),
        FileReconstructionError::FileNotFound => Some(Fetched::Missing),
        _ => None,
    }
}

// Asks for the block of a term once, and adds the term's bytes; none where a run is to tell what came of it.
fn fetch_term<C: Client>(
    alloc: Global,
    block: &XorbBlock,
    urls: &TermBlockRetrievalURLs,
    term: &FileTerm,
    start: u64,
    client: &mut C,
    reply: &mut Vec<u8>,
) -> Result<Option<Fetched>, OutOfMemory>
    ensures { TermCall block.now term.now start (C.told client.old) (C.told client.new)
        reply.old.items reply.new.items result }
{
    if urls.get_retrieval_url(block.xorb_block_index).is_none() {
        return Ok(None);
    }
    match ask(alloc, block, client, urls) {
        Ok(found) => add_found(alloc, term, &found, start, reply),
        Err(error) => Ok(untold(error)),
    }
}

// Fetches the bytes of a plan of one term; none where it has several.
fn fetch_planned<C: Client>(
    alloc: Global,
    made: &TermBlock,
    start: u64,
    client: &mut C,
    reply: &mut Vec<u8>,
) -> Result<Option<Fetched>, OutOfMemory>
    ensures { PlannedCall made.now start (C.told client.old) (C.told client.new)
        reply.old.items reply.new.items result }
{
    let [term] = made.terms.as_slice() else {
        return Ok(None);
    };
    match made.blocks.as_slice().get(term.xorb_block) {
        Some(block) => fetch_term(alloc, block, &made.urls, term, start, client, reply),
        None => Ok(None),
    }
}

// The same where there is a plan, which has terms; else none.
fn fetch_made<C: Client>(
    alloc: Global,
    made: &Option<TermBlock>,
    start: u64,
    client: &mut C,
    reply: &mut Vec<u8>,
) -> Result<Option<Fetched>, OutOfMemory>
    ensures { MadeCall made.now start (C.told client.old) (C.told client.new)
        reply.old.items reply.new.items result }
{
    match made {
        Some(plan) => fetch_planned(alloc, plan, start, client, reply),
        None => Ok(None),
    }
}

// Fetches a range by one plan and one block; none where a run is to tell what came of it.
fn fetch_once<C: Client>(
    alloc: Global,
    multirange: bool,
    file: MerkleHash,
    range: FileRange,
    client: &mut C,
    reply: &mut Vec<u8>,
) -> Result<Option<Fetched>, OutOfMemory>
    ensures { OneCall file range (C.told client.old) (C.told client.new) reply.old.items reply.new.items result }
{
    let id = UniqueId {
        plan: 1,
        refresh: 0,
    };
    match retrieve_file_term_block(alloc, client, file, range, multirange, id) {
        Ok(made) => fetch_made(alloc, &made, range.start, client, reply),
        Err(error) => Ok(untold(error)),
    }
}

// Fetches a short range by the first connection; none where the range isn't short, a cache is to be asked, or a run is
// to tell what came of it.
fn fetch_shortly<C: Client>(
    alloc: Global,
    config: &ReconstructionConfig,
    file: MerkleHash,
    range: FileRange,
    cached: bool,
    clients: &mut [C],
    reply: &mut Vec<u8>,
) -> Result<Option<Fetched>, OutOfMemory>
    ensures { (cache : CacheTold) → FirstCall config.now.tries file range
        (record { clients = map C.told clients.old; cache = cache })
        (record { clients = map C.told clients.new; cache = cache })
        reply.old.items reply.new.items result }
{
    if cached || clients.is_empty() || !is_short(range) {
        return Ok(None);
    }
    let multirange = config.enable_multirange_fetching;
    fetch_once(alloc, multirange, file, range, &mut clients[0], reply)
}

/// Fetches a range of a file, and adds where it starts, how many bytes it has and the bytes to a reply.
///
/// A range of at most 65,536 bytes, over a cache that takes no entries, is asked of the first connection: its plan, and
/// the block of that where it has one term. All others are fetched by a run, and so are those of which that connection
/// says anything but the bytes, that it failed, or that the file isn't stored.
pub(crate) fn fetch_range<R: Threads + Wait + Sync, C: Client + Send, K: ChunkCache>(
    rt: &R,
    alloc: Global,
    config: &ReconstructionConfig,
    file: MerkleHash,
    range: FileRange,
    clients: &mut [C],
    cache: &mut K,
    reply: &mut Vec<u8>,
) -> Result<Fetched, OutOfMemory>
    requires { refused_setting (any_setup config.now) (map C.told clients.old) ≡ None }
    ensures { RangeCall config.now.tries file range
        (record { clients = map C.told clients.old; cache = K.told cache.old })
        (record { clients = map C.told clients.new; cache = K.told cache.new })
        reply.old.items reply.new.items result }
{
    let cached = cache.takes_entries();
    match fetch_shortly(alloc, config, file, range, cached, clients, reply)? {
        Some(fetched) => Ok(fetched),
        None => fetch_by_run(rt, alloc, config, file, range, clients, cache, reply),
    }
}
