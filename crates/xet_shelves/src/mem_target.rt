//! A target over a store in memory.
ghost use Rattle.std.specs.Prelude.{◌≡◌, ◌↔◌, ◌+◌, ◌-◌, ◌^◌, [], Contains, IfErr, IfOk, IsErrOf, None, Ok, Some, min};
ghost use Rattle.std.specs.List.Sorted.{IsPermutation};
ghost use Rattle.xet_base.specs.Records.{shard_size};
ghost use Rattle.xet_outside.specs.declared.client.ClientError.TheVariants as client_error;
ghost use Rattle.xet_shelves.specs.After.{IsStoreAfter};
ghost use Rattle.xet_shelves.specs.Shelves.{HasCall, has_file, has_xorb};
ghost use Rattle.xet_uploader.specs.Uploads.{CountsFailed, PutShardCall, PutXorbCall, QueryShardCall};

use crate::put_log::PutLog;
use crate::store_after::store_after;
use crate::target::Target;
use std::alloc::Global;
use xet_base::{MerkleHash, OutOfMemory, ShardRecord, Xorb};
use xet_outside::ClientError;
use xet_store::MemStore;
use xet_uploader::{FaultScript, Put, Uploader};

/// A target over a store in memory. It keeps the puts that it accepted, which are all but the numbered ones and those
/// for which memory was wanting. It tells no queries, and a query finds nothing.
#[derive(Drop)]
pub struct MemTarget {
    store: MemStore,
    log: PutLog,
    // which puts fail
    script: FaultScript,
}

impl MemTarget {
    /// A target over this store, in which the puts with these numbers fail, counted from 0. It takes no memory.
    pub fn new(alloc: Global, store: MemStore, fails: Vec<u64>) -> MemTarget
        ensures told { ⟦<MemTarget as Uploader>⟧.told result
            ≡ record { first = Some store; puts = Some []; asked = None; answered = None; faults = 0 } }
        ensures store { result.store ≡ store }
        ensures log { result.log ≡ [] }
        ensures fails { IsPermutation fails.items result.script.fails.items }
        ensures asked { result.script.calls ≡ 0 }
    {
        MemTarget {
            store,
            log: PutLog::new(alloc),
            script: FaultScript::new(fails),
        }
    }

    /// The store that it began with.
    pub fn store(&self) -> &MemStore
        ensures { result.now ≡ self.now.store }
    {
        &self.store
    }

    /// The puts that it accepted, in their order.
    pub fn log(&self) -> &[Put]
        ensures { result.now ≡ self.now.log }
    {
        self.log.as_slice()
    }

    /// The store after the log, or none exactly where that isn't valid: where a xorb of the log that it adds has an
    /// empty chunk or is too long, or a file that it adds has a term that isn't in it or is too long. `OutOfMemory`
    /// where an allocation was refused.
    pub fn into_store(self, alloc: Global) -> Result<Option<MemStore>, OutOfMemory>
        ensures { IfOk result (IsStoreAfter self.store self.log) }
    {
        let (store, log) = self.into_parts();
        store_after(alloc, store, log.as_slice())
    }

    // The store and the log.
    fn into_parts(self) -> (MemStore, PutLog)
        ensures { result ≡ (self.store, self.log) }
    {
        (self.store, self.log)
    }
}

impl Uploader for MemTarget {
    ghost told = { λ u. record {
      first = Some u.store;
      puts = Some u.log;
      asked = None;
      answered = None;
      faults = u.script.faults;
    } };

    /// Keeps the xorb, and answers how many bytes it has. `Failed` exactly where its number is among those that fail,
    /// and then the count of faults rises; it rises nowhere else.
    fn put_xorb(&mut self, alloc: Global, xorb: &Xorb) -> Result<u64, ClientError>
        ensures call { PutXorbCall (⟦<MemTarget as Uploader>⟧.told self.old)
            (⟦<MemTarget as Uploader>⟧.told self.new) xorb.now result }
        ensures fails { IsErrOf result client_error.Failed
            ↔ Contains self.old.script.fails.items self.old.script.calls }
        ensures counted { self.new.script.calls ≡ min (self.old.script.calls + 1) (2 ^ 64 - 1) }
        ensures faults { CountsFailed self.old.script.faults self.new.script.faults result }
        ensures same { self.new.script.fails ≡ self.old.script.fails }
        ensures store { self.new.store ≡ self.old.store }
    {
        if self.script.fails_now() {
            return Err(ClientError::Failed);
        }
        self.log.push_xorb(alloc, xorb)?;
        Ok(xorb.num_bytes())
    }

    /// Keeps the records, and answers how many bytes they count for, at most `u64::MAX`. `Failed` exactly where its
    /// number is among those that fail, and then the count of faults rises; it rises nowhere else.
    fn put_shard(&mut self, alloc: Global, shard: &ShardRecord) -> Result<u64, ClientError>
        ensures call { PutShardCall (⟦<MemTarget as Uploader>⟧.told self.old)
            (⟦<MemTarget as Uploader>⟧.told self.new) shard.now result }
        ensures sent { IfOk result (λ n. n ≡ min (shard_size shard.now) (2 ^ 64 - 1)) }
        ensures fails { IsErrOf result client_error.Failed
            ↔ Contains self.old.script.fails.items self.old.script.calls }
        ensures counted { self.new.script.calls ≡ min (self.old.script.calls + 1) (2 ^ 64 - 1) }
        ensures faults { CountsFailed self.old.script.faults self.new.script.faults result }
        ensures same { self.new.script.fails ≡ self.old.script.fails }
        ensures store { self.new.store ≡ self.old.store }
    {
        if self.script.fails_now() {
            return Err(ClientError::Failed);
        }
        self.log.push_shard(alloc, shard)?;
        Ok(shard.num_bytes())
    }

    /// None: it knows no records. It never fails.
    fn query_shard(
        &mut self,
        _alloc: Global,
        chunk: &MerkleHash,
    ) -> Result<Option<ShardRecord>, ClientError>
        ensures call { QueryShardCall (⟦<MemTarget as Uploader>⟧.told self.old)
            (⟦<MemTarget as Uploader>⟧.told self.new) chunk.now result }
        ensures none { result ≡ Ok None }
        ensures same { self.new ≡ self.old }
    {
        let _ = chunk;
        Ok(None)
    }
}

impl Target for MemTarget {
    /// Whether the store or the log has the file. It never fails.
    fn has_file(&mut self, file: &MerkleHash) -> Result<bool, ClientError>
        ensures call { HasCall (⟦<MemTarget as Uploader>⟧.told self.old) (⟦<MemTarget as Uploader>⟧.told self.new)
            (λ s log. has_file s log file.now) result }
        ensures answer { result ≡ Ok (has_file self.old.store self.old.log file.now) }
        ensures same { self.new ≡ self.old }
    {
        Ok(self.store.file(file).is_some() || self.log.has_file(file))
    }

    /// Whether the store or the log has the xorb. It never fails.
    fn has_xorb(&mut self, xorb: &MerkleHash) -> Result<bool, ClientError>
        ensures call { HasCall (⟦<MemTarget as Uploader>⟧.told self.old) (⟦<MemTarget as Uploader>⟧.told self.new)
            (λ s log. has_xorb s log xorb.now) result }
        ensures answer { result ≡ Ok (has_xorb self.old.store self.old.log xorb.now) }
        ensures same { self.new ≡ self.old }
    {
        Ok(self.store.xorb(xorb).is_some() || self.log.has_xorb(xorb))
    }
}
