//! Gets a block's data: from a cache, or from a connection by tries and refreshes.
ghost use Rattle.std.specs.Prelude.{◌≡◌, ◌<◌, length, slice_get, Some};
ghost use Rattle.xet_offers.specs.declared.reconstruction_terms.xorb_block.XorbBlock.{XorbBlock};
ghost use Rattle.xet_fetch.specs.Fetches.{FetchesCall};
ghost use Rattle.xet_requests.specs.Refreshes.{refresh_of};
ghost use Rattle.xet_fetch.specs.RetrieveData.{DataCall, IsFetchable, RetrieveCall};
ghost use Rattle.xet_fetch.specs.steps.Tries.{TryCall};

use crate::cached_block::{look_up, offer};
use crate::fetch_settings::FetchSettings;
use crate::transfer_report::report_transfer;
use std::alloc::Global;
use std::sync::Wait;
use xet_blocks::{TermBlockRetrievalURLs, XorbBlock, XorbBlockData};
use xet_error::{FileReconstructionError, Result, Setting};
use xet_outside::{ChunkCache, Client};
use xet_progress::ItemProgressUpdater;
use xet_requests::{Fetched, ask, refresh_retrieval_urls};

/// Keeps the data of the block of this number, where none is kept. The other blocks stay.
///
/// A block of one range is looked for in the cache once; an entry that passes `check_cached` is kept. Else the block is
/// asked for up to the settings' number of tries: each expired answer but the last try's is followed by a refresh of
/// the URLs and another request. Fetched bytes that pass `check` are kept, and those of a block of one range are
/// offered to the cache, whatever it answers. A refused refresh ends the call, and the table is that of the refreshes
/// before it.
///
/// `UrlExpired` where all tries expired, `ConfigurationError(NoTries)` where there are none, `ClientError` where the
/// connection's faults rose, `FileNotFound` and `CorruptedReconstruction` where the last answer said so or fails a
/// test, `OutOfMemory` where memory was refused. After an error nothing is kept, and a later call may try again.
///
/// With `progress` a block that this call keeps is reported to it once, as transferred, with the lengths of its byte
/// ranges; a refused report changes nothing.
///
/// In the Rust crate: `file_reconstruction::reconstruction_terms::xorb_block::XorbBlock::retrieve_data`.
pub fn retrieve_data<R: Wait, C: Client, K: ChunkCache>(
    alloc: Global,
    rt: &R,
    blocks: &mut [XorbBlock],
    index: usize,
    client: &mut C,
    url_info: &mut TermBlockRetrievalURLs,
    settings: &FetchSettings,
    progress: Option<&ItemProgressUpdater>,
    cache: &mut K,
) -> Result<()>
    requires of_plan { IsFetchable blocks.old index url_info.old }
    ensures { RetrieveCall blocks.old blocks.new index settings.now url_info.old url_info.new
        (record { client = C.told client.old; cache = K.told cache.old })
        (record { client = C.told client.new; cache = K.told cache.new }) result }
{
    if blocks[index].kept.is_some() {
        return Ok(());
    }
    let found = data_at(alloc, blocks, index, client, url_info, settings, cache)?;
    blocks[index].keep(found);
    report_transfer(rt, progress, url_info, index);
    Ok(())
}

/// One try of a block, of which so many are left: its bytes, or none after an expired answer and a refresh. The last
/// try's expired answer is `UrlExpired`.
fn try_once<C: Client>(
    alloc: Global,
    block: &XorbBlock,
    blocks: &[XorbBlock],
    client: &mut C,
    urls: &mut TermBlockRetrievalURLs,
    multirange: bool,
    left: u32,
) -> Result<Option<Fetched>>
    requires some { 0 < left }
    requires in_table { block.now.xorb_block_index < length urls.old.retrieval_urls }
    requires in_blocks { block.now.xorb_block_index < length blocks.now }
    ensures { TryCall (refresh_of urls.old multirange blocks.now) block.now left urls.old urls.new
        (C.told client.old) (C.told client.new) result }
{
    if let Some(fetched) = ask(alloc, block, client, urls)? {
        return Ok(Some(fetched));
    }
    if left == 1 {
        return Err(FileReconstructionError::UrlExpired);
    }
    let id = urls.acquisition_id();
    refresh_retrieval_urls(alloc, urls, client, id, blocks, multirange)?;
    Ok(None)
}

/// The bytes and data of a block, by tries and refreshes.
fn fetch<C: Client>(
    alloc: Global,
    block: &XorbBlock,
    blocks: &[XorbBlock],
    client: &mut C,
    urls: &mut TermBlockRetrievalURLs,
    settings: &FetchSettings,
) -> Result<Fetched>
    requires in_table { block.now.xorb_block_index < length urls.old.retrieval_urls }
    requires in_blocks { block.now.xorb_block_index < length blocks.now }
    ensures { FetchesCall (refresh_of urls.old settings.now.multirange blocks.now) block.now settings.now.tries
        urls.old urls.new (C.told client.old) (C.told client.new) result }
{
    let tries = settings.tries;
    for attempt in 0..tries {
        let left = tries - attempt;
        let multirange = settings.multirange;
        if let Some(fetched) = try_once(alloc, block, blocks, client, urls, multirange, left)? {
            return Ok(fetched);
        }
    }
    Err(FileReconstructionError::ConfigurationError(Setting::NoTries))
}

/// The data of a block of which none is kept.
fn data_of<C: Client, K: ChunkCache>(
    alloc: Global,
    block: &XorbBlock,
    blocks: &[XorbBlock],
    client: &mut C,
    urls: &mut TermBlockRetrievalURLs,
    settings: &FetchSettings,
    cache: &mut K,
) -> Result<XorbBlockData>
    requires in_table { block.now.xorb_block_index < length urls.old.retrieval_urls }
    requires in_blocks { block.now.xorb_block_index < length blocks.now }
    ensures { DataCall (refresh_of urls.old settings.now.multirange blocks.now) block.now settings.now.tries
        urls.old urls.new
        (record { client = C.told client.old; cache = K.told cache.old })
        (record { client = C.told client.new; cache = K.told cache.new }) result }
{
    if let Some(found) = look_up(alloc, block, cache)? {
        return Ok(found);
    }
    let fetched = fetch(alloc, block, blocks, client, urls, settings)?;
    offer(alloc, block, cache, &fetched.bytes);
    let Fetched { found, .. } = fetched;
    Ok(found)
}

/// The data of the block of a number, of which none is kept.
fn data_at<C: Client, K: ChunkCache>(
    alloc: Global,
    blocks: &[XorbBlock],
    index: usize,
    client: &mut C,
    urls: &mut TermBlockRetrievalURLs,
    settings: &FetchSettings,
    cache: &mut K,
) -> Result<XorbBlockData>
    requires of_plan { IsFetchable blocks.now index urls.old }
    ensures { (x : XorbBlock) → slice_get blocks.now index ≡ Some x
        → DataCall (refresh_of urls.old settings.now.multirange blocks.now) x settings.now.tries urls.old urls.new
        (record { client = C.told client.old; cache = K.told cache.old })
        (record { client = C.told client.new; cache = K.told cache.new }) result }
{
    data_of(alloc, &blocks[index], blocks, client, urls, settings, cache)
}
