//! A cache by a text.
use crate::row::Row;
use crate::script::block;
use std::alloc::Global;
use xet_base::{ChunkRange, MerkleHash};
use xet_outside::{BlockBytes, CacheError, ChunkCache};
use xet_store::MapCache;
use xet_store::worked::X1;

/// A cache in memory, or one each of whose calls fails.
#[derive(Drop)]
pub(crate) struct Cache {
    inner: MapCache,
    down: bool,
}

impl Cache {
    /// The cache of a row.
    pub(crate) fn new(alloc: Global, row: Row<'_>) -> Cache {
        let mut inner = MapCache::new(alloc);
        if let Some(text) = row.find("cached")
            && let Some(entry) = block(alloc, text)
        {
            let _ = inner.put(alloc, &X1, ChunkRange::new(0, 4), &entry);
        }
        Cache {
            inner,
            down: row.has("down"),
        }
    }
}

impl ChunkCache for Cache {
    ghost use Rattle.std.specs.Prelude.{◌-◌, ◌^◌, None};
    ghost use Rattle.xet_outside.specs.Told.{CacheTold};

    // Nothing is told, and the count stands at its last value.
    ghost told = { λ _. record { entries = None; looked = None; offers = None; faults = 2 ^ 64 - 1 } };

    fn get(
        &mut self,
        alloc: Global,
        xorb: &MerkleHash,
        range: ChunkRange,
    ) -> Result<Option<BlockBytes>, CacheError> {
        if self.down {
            return Err(CacheError::Failed);
        }
        self.inner.get(alloc, xorb, range)
    }

    fn put(
        &mut self,
        alloc: Global,
        xorb: &MerkleHash,
        range: ChunkRange,
        block: &BlockBytes,
    ) -> Result<(), CacheError> {
        if self.down {
            return Err(CacheError::Failed);
        }
        self.inner.put(alloc, xorb, range, block)
    }
}
