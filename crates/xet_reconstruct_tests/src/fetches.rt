//! Blocks by a cache, by tries and by refreshes between them, and the URL that a provider hands out.
ghost use Rattle.std.specs.Prelude.{IsTrue};
ghost use Rattle.xet_fetch.specs.RetrieveData.{IsFetchable};

use crate::cache::Cache;
use crate::calls::calls_come_to;
use crate::connection::Connection;
use crate::row::Row;
use crate::told::{put, put_behind, tell_answer, tell_error};
use std::alloc::Global;
use std::sync::Wait;
use xet_base::{FileRange, UniqueId};
use xet_progress::ItemProgressUpdater;
use xet_terms::{
    FetchSettings, FileReconstructionError, Result, RetrievalUrl, TermBlock,
    TermBlockRetrievalURLs, URLProvider, XorbBlock, XorbURLProvider, retrieve_data,
    retrieve_file_term_block,
};

/// Each block of the plan of a file's first 13 bytes is retrieved twice, in turn up to the first that fails. It comes
/// to the answer, the transferred bytes that are reported, how many plans and how many blocks were asked for, how often
/// the cache was called, and each request.
const FETCHES: &str = "\
tries 1: ok 13 1/1 2 !mem:1 1.0 b0 0..4@0..13
tries 2; lanes .x: ok 13 2/2 2 !mem:1 1.0 b0 0..4@0..13 !mem:2 1.1 b0 0..4@0..13
tries 1; lanes .x: UrlExpired 0 1/1 1 !mem:1 1.0 b0 0..4@0..13
tries 2; lanes .x.x: UrlExpired 0 2/2 1 !mem:1 1.0 b0 0..4@0..13 !mem:2 1.1 b0 0..4@0..13
tries 0; lanes .f: ConfigurationError(NoTries) 0 1/0 1
lanes .f: ClientError 0 1/1 1 !mem:1 1.0 b0 0..4@0..13
lanes .s; block no memory: OutOfMemory 0 1/1 1 !mem:1 1.0 b0 0..4@0..13
lanes .s; block 0 5 7|Hello, world!: OffsetCount { expected: 4, actual: 3 } 0 1/1 1 !mem:1 1.0 b0 0..4@0..13
lanes .s; block 1 5 7 12|Hello, world!: OffsetOrder { place: 0 } 0 1/1 1 !mem:1 1.0 b0 0..4@0..13
lanes .s; block 0 5 5 12|Hello, world!: OffsetOrder { place: 2 } 0 1/1 1 !mem:1 1.0 b0 0..4@0..13
lanes .s; block 0 5 7 12|Hello, world: OffsetOrder { place: 3 } 0 1/1 1 !mem:1 1.0 b0 0..4@0..13
lanes .s; block 0 5 7 11|Hello, world: BlockLength { expected: 13, actual: 12 } 0 1/1 1 !mem:1 1.0 b0 0..4@0..13
lanes .xf: ClientError 0 2/1 1 !mem:1 1.0 b0 0..4@0..13
lanes .xp; plan no memory: OutOfMemory 0 2/1 1 !mem:1 1.0 b0 0..4@0..13
lanes .xn: FileNotFound 0 2/1 1 !mem:1 1.0 b0 0..4@0..13
lanes .xe: RefreshPastEnd 0 2/1 1 !mem:1 1.0 b0 0..4@0..13
lanes .xp; plan 0;;: RefreshPastEnd 0 2/1 1 !mem:1 1.0 b0 0..4@0..13
lanes .xp; plan 7;17 6 0 1;17:0 1: Offset { offset: 7, length: 6 } 0 2/1 1 !mem:1 1.0 b0 0..4@0..13
lanes .xp; plan 0;17 13 0 3;17:0 3: RefreshBlocks { index: 0 } 0 2/1 1 !mem:1 1.0 b0 0..4@0..13
lanes .xp; plan 0;17 6 0 2;17:0 2: RefreshRange { returned: FileRange { start: 0, end: 6 } } 0 2/1 1 \
!mem:1 1.0 b0 0..4@0..13
cached 0 5 7 12|Hello, world?: ok 13 1/0 1
cached 0 5 7|Hello, world?: ok 13 1/1 2 !mem:1 1.0 b0 0..4@0..13
cached 0 5 7 12|Hello, world: ok 13 1/1 2 !mem:1 1.0 b0 0..4@0..13
cached 0 5 7 11|Hello, world: ok 13 1/1 2 !mem:1 1.0 b0 0..4@0..13
down 0; up 1: ok 13 1/1 2 !mem:1 1.0 b0 0..4@0..13
down 1; up 2: ok 13 1/1 2 !mem:1 1.0 b0 0..4@0..13
cached no memory: OutOfMemory 0 1/0 1
file e; multi: ok 6 1/1 0 !mem:1 1.0 b0 0..1@0..5 3..4@12..13
file e: ok 6 1/2 4 !mem:1 1.0 b0 0..1@0..5 !mem:1 1.0 b1 3..4@12..13
file e; tries 1; lanes ..x: UrlExpired 5 1/2 3 !mem:1 1.0 b0 0..1@0..5 !mem:1 1.0 b1 3..4@12..13";

/// A refresh before a provider handed out a URL, which asks nothing, and one after it, each followed by the URL.
const PROVIDED: &str = "tell provider: ok mem:1;ok mem:2; 2/0 0";

/// Whether the blocks have this number, and the table has it.
fn is_fetchable(blocks: &[XorbBlock], index: usize, urls: &TermBlockRetrievalURLs) -> bool
    ensures { IsTrue result → IsFetchable blocks.now index urls.now }
{
    if blocks.len() <= index || urls.get_retrieval_url(index).is_none() {
        return false;
    }
    blocks[index].xorb_block_index == index
}

/// Gets the data of the block of this number; without one the answer is `Cancelled`.
fn retrieve<R: Wait>(
    alloc: Global,
    rt: &R,
    blocks: &mut [XorbBlock],
    index: usize,
    client: &mut Connection<'_>,
    urls: &mut TermBlockRetrievalURLs,
    settings: &FetchSettings,
    item: &ItemProgressUpdater,
    cache: &mut Cache,
) -> Result<()> {
    if !is_fetchable(blocks, index, urls) {
        return Err(FileReconstructionError::Cancelled);
    }
    retrieve_data(
        alloc,
        rt,
        blocks,
        index,
        client,
        urls,
        settings,
        Some(item),
        cache,
    )
}

/// Gets the data of each block in turn, and once more where that succeeds, up to the first that fails.
fn retrieve_all<R: Wait>(
    alloc: Global,
    rt: &R,
    blocks: &mut [XorbBlock],
    client: &mut Connection<'_>,
    urls: &mut TermBlockRetrievalURLs,
    settings: &FetchSettings,
    item: &ItemProgressUpdater,
    cache: &mut Cache,
) -> Result<()> {
    for index in 0..blocks.len() {
        retrieve(
            alloc, rt, blocks, index, client, urls, settings, item, cache,
        )?;
        retrieve(
            alloc, rt, blocks, index, client, urls, settings, item, cache,
        )?;
    }
    Ok(())
}

/// Adds what comes of getting the blocks, reported to an item of 100 bytes.
fn tell_retrieved<R: Wait>(
    text: &mut String,
    alloc: Global,
    rt: &R,
    row: Row<'_>,
    blocks: &mut [XorbBlock],
    client: &mut Connection<'_>,
    urls: &mut TermBlockRetrievalURLs,
    item: &ItemProgressUpdater,
    cache: &mut Cache,
) {
    let _ = item.update_transfer_size(rt, 100);
    let config = row.config();
    let settings = FetchSettings {
        multirange: config.enable_multirange_fetching,
        tries: config.tries,
    };
    let answer = retrieve_all(alloc, rt, blocks, client, urls, &settings, item, cache);
    tell_answer(text, answer);
    let report = item.group().report(rt);
    put_behind(text, ' ', report.total_transfer_bytes_completed);
}

/// The next URL that a provider hands out, or the error.
fn tell_handed(text: &mut String, handed: Result<RetrievalUrl>) {
    match handed {
        Ok(handed) => put(text, handed.url.as_str()),
        Err(error) => tell_error(text, error),
    }
}

/// A refresh before a URL is handed out, and one after it, each followed by the URL of the first block.
fn tell_provider(
    text: &mut String,
    alloc: Global,
    blocks: &[XorbBlock],
    client: &mut Connection<'_>,
    urls: &mut TermBlockRetrievalURLs,
) {
    if blocks.is_empty() || urls.get_retrieval_url(0).is_none() {
        return put(text, "no block");
    }
    let mut provider = XorbURLProvider::new(client, urls, blocks, false, 0);
    for _ in 0..2 {
        tell_answer(text, provider.refresh_url(alloc));
        put(text, ' ');
        tell_handed(text, provider.retrieve_url(alloc));
        put(text, ';');
    }
}

/// What the calls of a row come to over the blocks of this plan.
fn tell_made<R: Wait>(
    text: &mut String,
    alloc: Global,
    rt: &R,
    row: Row<'_>,
    made: TermBlock,
    client: &mut Connection<'_>,
    item: &ItemProgressUpdater,
    cache: &mut Cache,
) {
    let _terms = made.terms;
    let mut blocks = made.blocks.into_inner();
    let mut urls = made.urls;
    let lent = blocks.as_mut_slice();
    if row.has("tell") {
        tell_provider(text, alloc, lent, client, &mut urls);
    } else {
        tell_retrieved(text, alloc, rt, row, lent, client, &mut urls, item, cache);
    }
}

/// What the calls of a row come to over the plan of a file's first 13 bytes, and who was asked how often.
pub(crate) fn tell_fetches<R: Wait>(
    text: &mut String,
    alloc: Global,
    rt: &R,
    row: Row<'_>,
    client: &mut Connection<'_>,
    item: &ItemProgressUpdater,
) {
    let mut cache = Cache::new(alloc, row);
    let (range, id) = (
        FileRange::new(0, 13),
        UniqueId {
            plan: 1,
            refresh: 0,
        },
    );
    match retrieve_file_term_block(alloc, client, row.file(), range, row.has("multi"), id) {
        Ok(Some(made)) => tell_made(text, alloc, rt, row, made, client, item, &mut cache),
        _ => put(text, "no blocks"),
    }
    put_behind(text, ' ', client.plans);
    put_behind(text, '/', client.blocks);
    put_behind(text, ' ', cache.calls);
    put(text, client.asked.as_str());
}

#[test]
fn blocks_by_cache_tries_and_refreshes(rt: HostRuntime) {
    for lines in [FETCHES, PROVIDED] {
        calls_come_to(&rt, rt.alloc(), lines);
    }
}
