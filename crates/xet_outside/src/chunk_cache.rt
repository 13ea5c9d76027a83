//! Caches of blocks.
ghost use Rattle.std.specs.Prelude.{◌≡◌, [], false, None, Ok, Some};
ghost use Rattle.xet_outside.specs.Told.{CacheTold, GetCall, PutCall};

use crate::block::BlockBytes;
use std::alloc::Global;
use thiserror::Error;
use xet_base::{ChunkRange, MerkleHash};

/// Why a cache gave no answer.
///
/// In the Rust crates: `chunk_cache::ChunkCacheError`.
#[derive(Clone, Copy, PartialEq, Eq, Debug, Drop, Error)]
pub enum CacheError {
    /// An allocation was refused.
    #[error("OutOfMemory")]
    OutOfMemory,
    /// The cache failed, and its count of faults rose.
    #[error("Failed")]
    Failed,
}

/// A cache of blocks, by their xorb and the range of their chunks.
///
/// In the Rust crates: `chunk_cache::ChunkCache`.
pub trait ChunkCache {
    /// The entries, the look-ups and how many entries were offered, each where it is told, and the count of faults.
    ghost told: { Self → CacheTold };

    /// An entry for these chunks of the xorb, or none. `Failed` comes only where the count of faults rose.
    fn get(
        &mut self,
        alloc: Global,
        xorb: &MerkleHash,
        range: ChunkRange,
    ) -> Result<Option<BlockBytes>, CacheError>
        ensures { GetCall (told self.old) (told self.new) xorb.now range result };

    /// Whether the cache may take an entry. Where it may not, its offers aren't told, and a caller may leave them out.
    /// A cache without a body of its own may.
    ///
    /// The Rust crates have no such call: there the cache is an option.
    fn takes_entries(&self) -> bool
        ensures { result ≡ false → (told self.now).offers ≡ None }
    {
        true
    }

    /// Offers an entry, which the cache may take or leave. `Failed` comes only where the count of faults rose.
    fn put(
        &mut self,
        alloc: Global,
        xorb: &MerkleHash,
        range: ChunkRange,
        block: &BlockBytes,
    ) -> Result<(), CacheError>
        ensures { PutCall (told self.old) (told self.new) xorb.now range block.now result };
}

/// A cache without entries, which takes none.
#[derive(Clone, Copy, PartialEq, Eq)]
pub struct NoCache;

impl ChunkCache for NoCache {
    ghost told = { λ _. record { entries = Some []; looked = None; offers = None; faults = 0 } };

    /// Nothing.
    fn get(
        &mut self,
        _alloc: Global,
        _xorb: &MerkleHash,
        _range: ChunkRange,
    ) -> Result<Option<BlockBytes>, CacheError>
        ensures call { GetCall (⟦<NoCache as ChunkCache>⟧.told self.old) (⟦<NoCache as ChunkCache>⟧.told self.new)
            _xorb.now _range result }
        ensures none { result ≡ Ok None }
    {
        Ok(None)
    }

    /// It takes none.
    fn takes_entries(&self) -> bool
        ensures none { result ≡ false }
        ensures untold { result ≡ false → (⟦<NoCache as ChunkCache>⟧.told self.now).offers ≡ None }
    {
        false
    }

    /// Leaves the entry.
    fn put(
        &mut self,
        _alloc: Global,
        _xorb: &MerkleHash,
        _range: ChunkRange,
        _block: &BlockBytes,
    ) -> Result<(), CacheError>
        ensures call { PutCall (⟦<NoCache as ChunkCache>⟧.told self.old) (⟦<NoCache as ChunkCache>⟧.told self.new)
            _xorb.now _range _block.now result }
        ensures left { result ≡ Ok tt }
    {
        Ok(())
    }
}
