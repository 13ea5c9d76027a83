//! Offers a block to the cache.
ghost use Rattle.xet_parts.specs.Offers.{OfferBlockCall};

use std::alloc::Global;
use xet_blocks::XorbBlock;
use xet_error::{FileReconstructionError, Result};
use xet_fetch::offer_data;
use xet_outside::ChunkCache;

/// Offers the data that a block of one range keeps to the cache, once, whatever it answers, unless the cache takes no
/// entries; of a block of several ranges, or that keeps nothing, nothing is offered. `OutOfMemory` where memory for the
/// entry was refused, and then nothing was offered.
pub fn offer_block<K: ChunkCache>(alloc: Global, cache: &mut K, block: &XorbBlock) -> Result<()>
    ensures { OfferBlockCall block.now (K.told cache.old) (K.told cache.new) result }
{
    match &block.kept {
        None => Ok(()),
        Some(found) => match offer_data(alloc, block, cache, found) {
            Ok(()) => Ok(()),
            Err(_) => Err(FileReconstructionError::OutOfMemory),
        },
    }
}
