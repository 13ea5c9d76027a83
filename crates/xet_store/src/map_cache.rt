//! A cache in memory.
ghost use Rattle.std.specs.Prelude.{◌≡◌, ◌<◌, [], None, Some, IfOk, MatchOption, length, option_map, slice_get, true};
ghost use Rattle.xet_outside.specs.Told.{GetCall, PutCall};
ghost use Rattle.xet_store.specs.MapCaches.{MapGet, MapPut, entry_at, key_of};

use crate::look_log::LookLog;
use std::alloc::Global;
use xet_base::{ChunkRange, Keyed, KeyedList, MerkleHash, OutOfMemory};
use xet_outside::{BlockBytes, CacheError, ChunkCache};

/// The key of an entry.
#[derive(Clone, Copy, PartialEq, Eq, PartialOrd, Ord)]
pub struct CacheKey {
    /// The xorb.
    pub xorb: MerkleHash,
    /// The numbers of the entry's chunks in the xorb, half open.
    pub range: ChunkRange,
}

impl Keyed<CacheKey> for (MerkleHash, ChunkRange, BlockBytes) {
    ghost key_of = { key_of };

    fn key(&self) -> CacheKey {
        CacheKey {
            xorb: self.0,
            range: self.1,
        }
    }
}

/// A fake: a cache in memory, which keeps the first entry of each key for good. What it keeps shares memory with the
/// block that it was offered, and what it gives with what it keeps. It tells proofs what it was looked up for, which
/// takes no memory, and counts the entries that it was offered, a count that stops at `u64::MAX`.
#[derive(Drop)]
pub struct MapCache {
    entries: KeyedList<CacheKey, (MerkleHash, ChunkRange, BlockBytes)>,
    log: LookLog,
    offers: u64,
}

impl MapCache {
    /// A cache without entries. It takes no memory.
    pub fn new(alloc: Global) -> MapCache
        ensures told { ⟦<MapCache as ChunkCache>⟧.told result ≡ record {
          entries = Some [];
          looked = Some [];
          offers = Some 0;
          faults = 0;
        } }
    {
        MapCache {
            entries: KeyedList::new(alloc),
            log: LookLog::new(),
            offers: 0,
        }
    }

    /// The number of the entry of a key.
    fn number_of(&self, key: &CacheKey) -> Option<usize>
        ensures { MatchOption result (entry_at self.now.entries key.now.xorb key.now.range ≡ None)
            (λ i. (i < length self.now.entries)
            × (entry_at self.now.entries key.now.xorb key.now.range
            ≡ option_map (λ e. e.2) (slice_get self.now.entries i))) }
    {
        self.entries.position(key)
    }

    /// The entry of a key, which shares memory with the one that is kept.
    fn entry(&self, xorb: &MerkleHash, range: ChunkRange) -> Result<Option<BlockBytes>, OutOfMemory>
        ensures { IfOk result (λ o. o ≡ entry_at self.now.entries xorb.now range) }
    {
        match self.number_of(&CacheKey { xorb: *xorb, range }) {
            Some(number) => {
                let copy = self.entries.as_slice()[number].2.copied()?;
                Ok(Some(copy))
            }
            None => Ok(None),
        }
    }
}

impl ChunkCache for MapCache {
    ghost told = { λ c. record {
      entries = Some c.entries;
      looked = Some c.log.looked;
      offers = Some c.offers;
      faults = 0;
    } };

    /// The entry of the key, which shares memory with the one that is kept; none exactly where there is none.
    /// `OutOfMemory` where memory was refused, and then the look is not told.
    fn get(
        &mut self,
        _alloc: Global,
        xorb: &MerkleHash,
        range: ChunkRange,
    ) -> Result<Option<BlockBytes>, CacheError>
        ensures call { GetCall (⟦<MapCache as ChunkCache>⟧.told self.old)
            (⟦<MapCache as ChunkCache>⟧.told self.new) xorb.now range result }
        ensures exact { MapGet self.old.entries xorb.now range result }
    {
        let Ok(found) = self.entry(xorb, range) else {
            return Err(CacheError::OutOfMemory);
        };
        self.log = self.log.and_look(xorb, &range, &found);
        Ok(found)
    }

    /// It takes entries.
    fn takes_entries(&self) -> bool
        ensures { result ≡ true }
    {
        true
    }

    /// Adds the entry where its key isn't there, and else leaves the entries. What is kept shares memory with the
    /// block. `OutOfMemory` where memory was refused, and then the entries are as before.
    fn put(
        &mut self,
        _alloc: Global,
        xorb: &MerkleHash,
        range: ChunkRange,
        block: &BlockBytes,
    ) -> Result<(), CacheError>
        ensures call { PutCall (⟦<MapCache as ChunkCache>⟧.told self.old)
            (⟦<MapCache as ChunkCache>⟧.told self.new) xorb.now range block.now result }
        ensures exact { MapPut self.old.entries self.new.entries xorb.now range block.now result }
    {
        self.offers = self.offers.saturating_add(1);
        let key = CacheKey { xorb: *xorb, range };
        if self.entries.position(&key).is_some() {
            return Ok(());
        }
        let Ok(copy) = block.copied() else {
            return Err(CacheError::OutOfMemory);
        };
        match self.entries.push((*xorb, range, copy)) {
            Ok(()) => Ok(()),
            Err(_) => Err(CacheError::OutOfMemory),
        }
    }
}
