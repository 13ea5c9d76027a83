//! A cache by a text.
use crate::row::Row;
use crate::script::block;
use std::alloc::Global;
use xet_base::{ChunkRange, MerkleHash};
use xet_outside::{BlockBytes, CacheError, ChunkCache};
use xet_store::MapCache;
use xet_store::worked::X1;

/// A cache that counts its calls, some of which fail.
#[derive(Drop)]
pub(crate) struct Cache {
    inner: MapCache,
    forgets: bool,
    refuses: bool,
    down: u64,
    up: u64,
    pub(crate) calls: u64,
}

impl Cache {
    /// The cache of a row.
    pub(crate) fn new(alloc: Global, row: Row<'_>) -> Cache {
        Cache {
            inner: entries(alloc, row),
            forgets: row.has("forgets"),
            refuses: matches!(row.find("cached"), Some("no memory")),
            down: row.number("down", u64::MAX),
            up: row.number("up", 0),
            calls: 0,
        }
    }

    /// Counts a call, and says whether it fails.
    fn fails(&mut self) -> bool {
        let call = self.calls;
        self.calls = self.calls.saturating_add(1);
        self.down <= call && call < self.up
    }
}

/// The entries of a row, that for the first xorb's chunks or none.
fn entries(alloc: Global, row: Row<'_>) -> MapCache {
    let mut made = MapCache::new(alloc);
    if let Some(text) = row.find("cached")
        && let Some(entry) = block(alloc, text)
    {
        let _ = made.put(alloc, &X1, ChunkRange::new(0, 4), &entry);
    }
    made
}

impl ChunkCache for Cache {
    ghost use Rattle.std.specs.Prelude.{◌-◌, ◌^◌, None};
    ghost use Rattle.xet_outside.specs.Told.{CacheTold};

    // Nothing is told, and the count stands at its last value.
    ghost told = { λ _. record { entries = None; looked = None; offers = None; faults = 2 ^ 64 - 1 } };

    fn get(
        &mut self,
        alloc: Global,
        xorb: &MerkleHash,
        range: ChunkRange,
    ) -> Result<Option<BlockBytes>, CacheError> {
        if self.fails() {
            return Err(CacheError::Failed);
        }
        if self.refuses {
            return Err(CacheError::OutOfMemory);
        }
        self.inner.get(alloc, xorb, range)
    }

    fn put(
        &mut self,
        alloc: Global,
        xorb: &MerkleHash,
        range: ChunkRange,
        block: &BlockBytes,
    ) -> Result<(), CacheError> {
        if self.fails() {
            return Err(CacheError::Failed);
        }
        if self.forgets {
            return Ok(());
        }
        self.inner.put(alloc, xorb, range, block)
    }
}
