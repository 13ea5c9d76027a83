//! Records in memory whose numbered calls fail.
ghost use Rattle.std.specs.Prelude.{◌≡◌, Some};
ghost use Rattle.std.specs.List.Sorted.{IsPermutation};
ghost use Rattle.xet_shards.specs.Shards.{AddCall, AllCall, ClearCall, FilesCall, FindCall, FollowsScript};

use crate::mem_shards::MemShards;
use crate::shard_store::{ShardError, ShardStore};
use std::alloc::Global;
use xet_base::{FileDataSequenceEntry, List, MDBFileInfo, MerkleHash, ShardRecord};
use xet_uploader::FaultScript;

/// A fake: records in memory, of whose calls the numbered ones fail.
#[derive(Drop)]
pub struct ScriptShards {
    shards: MemShards,
    // which calls fail
    script: FaultScript,
}

impl ScriptShards {
    /// The records of a store in memory, in which the calls with these numbers fail, counted from 0. It takes no
    /// memory.
    pub fn new(shards: MemShards, fails: Vec<u64>) -> ScriptShards
        ensures shards { result.shards ≡ shards }
        ensures fails { IsPermutation fails.items result.script.fails.items }
        ensures calls { result.script.calls ≡ 0 }
        ensures faults { result.script.faults ≡ 0 }
    {
        ScriptShards {
            shards,
            script: FaultScript::new(fails),
        }
    }
}

/// Each call fails exactly where its number is among those that fail, and counts its fault; else it is that of the
/// records in memory.
impl ShardStore for ScriptShards {
    ghost told = { λ s. record {
      records = Some (record { xorbs = s.shards.xorbs; files = s.shards.files.items });
      faults = s.script.faults;
    } };

    fn add(&mut self, alloc: Global, shard: &ShardRecord) -> Result<(), ShardError>
        ensures call { AddCall (⟦<ScriptShards as ShardStore>⟧.told self.old)
            (⟦<ScriptShards as ShardStore>⟧.told self.new) shard.now result }
        ensures script { FollowsScript self.old.script self.new.script result }
    {
        if self.script.fails_now() {
            return Err(ShardError::Failed);
        }
        self.shards.add(alloc, shard)
    }

    fn find(
        &mut self,
        alloc: Global,
        hashes: &[MerkleHash],
    ) -> Result<Option<(usize, FileDataSequenceEntry)>, ShardError>
        ensures call { FindCall (⟦<ScriptShards as ShardStore>⟧.told self.old)
            (⟦<ScriptShards as ShardStore>⟧.told self.new) hashes.now result }
        ensures script { FollowsScript self.old.script self.new.script result }
    {
        if self.script.fails_now() {
            return Err(ShardError::Failed);
        }
        self.shards.find(alloc, hashes)
    }

    fn files(&mut self, alloc: Global) -> Result<List<MDBFileInfo>, ShardError>
        ensures call { FilesCall (⟦<ScriptShards as ShardStore>⟧.told self.old)
            (⟦<ScriptShards as ShardStore>⟧.told self.new) result }
        ensures script { FollowsScript self.old.script self.new.script result }
    {
        if self.script.fails_now() {
            return Err(ShardError::Failed);
        }
        self.shards.files(alloc)
    }

    fn all(&mut self, alloc: Global) -> Result<ShardRecord, ShardError>
        ensures call { AllCall (⟦<ScriptShards as ShardStore>⟧.told self.old)
            (⟦<ScriptShards as ShardStore>⟧.told self.new) result }
        ensures script { FollowsScript self.old.script self.new.script result }
    {
        if self.script.fails_now() {
            return Err(ShardError::Failed);
        }
        self.shards.all(alloc)
    }

    fn clear(&mut self) -> Result<(), ShardError>
        ensures call { ClearCall (⟦<ScriptShards as ShardStore>⟧.told self.old)
            (⟦<ScriptShards as ShardStore>⟧.told self.new) result }
        ensures script { FollowsScript self.old.script self.new.script result }
    {
        if self.script.fails_now() {
            return Err(ShardError::Failed);
        }
        self.shards.clear()
    }
}
