//! Stores of records.
ghost use Rattle.std.specs.Prelude.{◌≡◌};
ghost use Rattle.xet_shards.specs.Shards.{AddCall, AllCall, ClearCall, FilesCall, FindCall, ShardsTold};
ghost use Rattle.xet_shards.specs.declared.shard_store.ShardError.TheVariants as shard_error;

use std::alloc::Global;
use thiserror::Error;
use xet_base::{FileDataSequenceEntry, List, MDBFileInfo, MerkleHash, OutOfMemory, ShardRecord};

/// Why a store of records gave no answer. It prints its variant's name.
///
/// In the Rust crates: `mdb_shard::error::MDBShardError`.
#[derive(Clone, Copy, PartialEq, Eq, Debug, Drop, Error)]
pub enum ShardError {
    /// An allocation was refused.
    #[error("OutOfMemory")]
    OutOfMemory,
    /// The store failed, and its count of faults rose.
    #[error("Failed")]
    Failed,
}

impl From<OutOfMemory> for ShardError {
    ghost from_gives = { λ _ e. e ≡ shard_error.OutOfMemory };

    fn from(_: OutOfMemory) -> ShardError {
        ShardError::OutOfMemory
    }
}

/// A store of xorb records and file records.
///
/// In the Rust crates: `mdb_shard::ShardFileManager`.
pub trait ShardStore {
    /// The records, where they are told, and the count of faults.
    ghost told: { Self → ShardsTold };

    /// Adds records behind those that it has. An error leaves them; `Failed` comes only where the count of faults rose.
    fn add(&mut self, alloc: Global, shard: &ShardRecord) -> Result<(), ShardError>
        ensures { AddCall (told self.old) (told self.new) shard.now result };

    /// A run of chunks with these hashes: how many of them, and the term that names the run. It is that of the first
    /// xorb that has the first hash, from its lowest place on and as long as it goes; none where no xorb has it.
    fn find(
        &mut self,
        alloc: Global,
        hashes: &[MerkleHash],
    ) -> Result<Option<(usize, FileDataSequenceEntry)>, ShardError>
        ensures { FindCall (told self.old) (told self.new) hashes.now result };

    /// The file records, in the order in which they were added.
    fn files(&mut self, alloc: Global) -> Result<List<MDBFileInfo>, ShardError>
        ensures { FilesCall (told self.old) (told self.new) result };

    /// All records, in the order in which they were added.
    fn all(&mut self, alloc: Global) -> Result<ShardRecord, ShardError>
        ensures { AllCall (told self.old) (told self.new) result };

    /// Forgets all records. An error leaves them. It takes no memory, so an error is `Failed`.
    fn clear(&mut self) -> Result<(), ShardError>
        ensures { ClearCall (told self.old) (told self.new) result };
}
