//! Asks for a block's bytes once, and tests them.
ghost use Rattle.std.specs.Prelude.{◌<◌, length};
ghost use Rattle.xet_requests.specs.Asks.{AskCall};

use std::alloc::Global;
use xet_blocks::{TermBlockRetrievalURLs, XorbBlock, XorbBlockData};
use xet_error::Result;
use xet_outside::{BlockAnswer, BlockBytes, Client};

/// A fetched block: its bytes as they came, and its data.
#[derive(Drop)]
pub struct Fetched {
    /// The bytes as the connection answered them.
    pub bytes: BlockBytes,
    /// The data that was made of them.
    pub found: XorbBlockData,
}

/// Asks once for the block's bytes by the table's URL, and tests them; none where the answer is expired.
///
/// `ClientError` where the connection's faults rose, `CorruptedReconstruction` with the first test of a block that the
/// bytes fail, `OutOfMemory` where memory was refused.
///
/// In the Rust crate: a step of `file_reconstruction::reconstruction_terms::xorb_block::XorbBlock::retrieve_data`.
pub fn ask<C: Client>(
    alloc: Global,
    block: &XorbBlock,
    client: &mut C,
    urls: &TermBlockRetrievalURLs,
) -> Result<Option<Fetched>>
    requires { block.now.xorb_block_index < length urls.now.retrieval_urls }
    ensures { AskCall block.now urls.now (C.told client.old) (C.told client.new) result }
{
    let Some(request) = block.request(alloc, urls)? else {
        unreachable!()
    };
    match client.block(alloc, &request)? {
        BlockAnswer::Bytes(bytes) => {
            let found = block.check(alloc, &bytes)?;
            Ok(Some(Fetched { bytes, found }))
        }
        BlockAnswer::Expired => Ok(None),
    }
}
