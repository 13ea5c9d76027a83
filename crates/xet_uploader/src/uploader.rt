//! Where xorbs and records are put.
ghost use Rattle.xet_uploader.specs.Uploads.{PutShardCall, PutXorbCall, QueryShardCall, UploaderTold};

use std::alloc::Global;
use xet_base::{MerkleHash, ShardRecord, Xorb};
use xet_outside::ClientError;

/// A put that an uploader accepted.
#[derive(Drop)]
pub enum Put {
    /// A xorb.
    Xorb(Xorb),
    /// Records.
    Shard(ShardRecord),
}

/// A store that takes xorbs and records.
///
/// In the Rust crates: the upload calls of `cas_client::Client`.
pub trait Uploader {
    /// The store that it began with, the accepted puts, the chunks that queries asked for and the answers to these,
    /// each where it is told, and the count of faults.
    ghost told: { Self → UploaderTold };

    /// Stores a xorb, and answers how many bytes were sent. `Failed` comes only where the count of faults rose,
    /// and it rises with no other answer. A refused put leaves the log.
    ///
    /// In the Rust crates: `cas_client::Client::upload_xorb`.
    fn put_xorb(&mut self, alloc: Global, xorb: &Xorb) -> Result<u64, ClientError>
        ensures { PutXorbCall (told self.old) (told self.new) xorb.now result };

    /// Stores records, and answers how many bytes were sent. `Failed` comes only where the count of faults rose,
    /// and it rises with no other answer. A refused put leaves the log.
    ///
    /// In the Rust crates: `cas_client::Client::upload_shard`.
    fn put_shard(&mut self, alloc: Global, shard: &ShardRecord) -> Result<u64, ClientError>
        ensures { PutShardCall (told self.old) (told self.new) shard.now result };

    /// Records that may know the chunk, or none. `Failed` comes only where the count of faults rose.
    ///
    /// In the Rust crates: `cas_client::Client::query_for_global_dedup_shard`.
    fn query_shard(
        &mut self,
        alloc: Global,
        chunk: &MerkleHash,
    ) -> Result<Option<ShardRecord>, ClientError>
        ensures { QueryShardCall (told self.old) (told self.new) chunk.now result };
}
