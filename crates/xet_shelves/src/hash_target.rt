//! A target over a store in memory that keeps hashes alone.
ghost use Rattle.std.specs.Prelude.{◌≡◌, ◌-◌, ◌^◌, [], IfOk, None, Ok, Some, min};
ghost use Rattle.xet_base.specs.Records.{shard_size};
ghost use Rattle.xet_shelves.specs.Shelves.{HasCall, has_file, has_xorb};
ghost use Rattle.xet_uploader.specs.Uploads.{PutShardCall, PutXorbCall, QueryShardCall};

use crate::put_index::PutIndex;
use crate::target::Target;
use std::alloc::Global;
use xet_base::{MerkleHash, ShardRecord, Xorb};
use xet_outside::ClientError;
use xet_store::MemStore;
use xet_uploader::Uploader;

/// A target over a store in memory that keeps of each put the hashes of its xorb or of its file records, to see what
/// copying takes and no more. Its log is told to proofs alone. No put fails but for want of memory; it tells no
/// queries, and a query finds nothing.
///
/// The Rust crates have no such type.
#[derive(Drop)]
pub struct HashTarget {
    store: MemStore,
    log: PutIndex,
}

impl HashTarget {
    /// A target over this store. It takes no memory.
    pub fn new(alloc: Global, store: MemStore) -> HashTarget
        ensures told { ⟦<HashTarget as Uploader>⟧.told result
            ≡ record { first = Some store; puts = Some []; asked = None; answered = None; faults = 0 } }
    {
        HashTarget {
            store,
            log: PutIndex::new(alloc),
        }
    }
}

impl Uploader for HashTarget {
    ghost told = { λ u. record {
      first = Some u.store;
      puts = Some u.log;
      asked = None;
      answered = None;
      faults = 0;
    } };

    /// Keeps the xorb's hash, and answers how many bytes it has, at most `u64::MAX`.
    fn put_xorb(&mut self, alloc: Global, xorb: &Xorb) -> Result<u64, ClientError>
        ensures call { PutXorbCall (⟦<HashTarget as Uploader>⟧.told self.old)
            (⟦<HashTarget as Uploader>⟧.told self.new) xorb.now result }
    {
        let _ = alloc;
        self.log.push_xorb(xorb)?;
        Ok(xorb.num_bytes())
    }

    /// Keeps the hashes of the file records, and answers how many bytes they count for, at most `u64::MAX`.
    fn put_shard(&mut self, alloc: Global, shard: &ShardRecord) -> Result<u64, ClientError>
        ensures call { PutShardCall (⟦<HashTarget as Uploader>⟧.told self.old)
            (⟦<HashTarget as Uploader>⟧.told self.new) shard.now result }
        ensures sent { IfOk result (λ n. n ≡ min (shard_size shard.now) (2 ^ 64 - 1)) }
    {
        self.log.push_shard(alloc, shard)?;
        Ok(shard.num_bytes())
    }

    /// None: it knows no records. It never fails.
    fn query_shard(
        &mut self,
        _alloc: Global,
        chunk: &MerkleHash,
    ) -> Result<Option<ShardRecord>, ClientError>
        ensures call { QueryShardCall (⟦<HashTarget as Uploader>⟧.told self.old)
            (⟦<HashTarget as Uploader>⟧.told self.new) chunk.now result }
        ensures none { result ≡ Ok None }
    {
        let _ = chunk;
        Ok(None)
    }
}

impl Target for HashTarget {
    /// Whether the store or the log has the file. It never fails.
    fn has_file(&mut self, file: &MerkleHash) -> Result<bool, ClientError>
        ensures call { HasCall (⟦<HashTarget as Uploader>⟧.told self.old) (⟦<HashTarget as Uploader>⟧.told self.new)
            (λ s log. has_file s log file.now) result }
        ensures answer { result ≡ Ok (has_file self.old.store self.old.log file.now) }
        ensures same { self.new ≡ self.old }
    {
        Ok(self.store.file(file).is_some() || self.log.has_file(file))
    }

    /// Whether the store or the log has the xorb. It never fails.
    fn has_xorb(&mut self, xorb: &MerkleHash) -> Result<bool, ClientError>
        ensures call { HasCall (⟦<HashTarget as Uploader>⟧.told self.old) (⟦<HashTarget as Uploader>⟧.told self.new)
            (λ s log. has_xorb s log xorb.now) result }
        ensures answer { result ≡ Ok (has_xorb self.old.store self.old.log xorb.now) }
        ensures same { self.new ≡ self.old }
    {
        Ok(self.store.xorb(xorb).is_some() || self.log.has_xorb(xorb))
    }
}
