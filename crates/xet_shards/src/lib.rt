//! Stores of records of xorbs and files.
#![tactic(auto)]

pub mod mem_shards;
pub mod script_shards;
pub mod shard_store;

pub use mem_shards::MemShards;
pub use script_shards::ScriptShards;
pub use shard_store::{ShardError, ShardStore};
