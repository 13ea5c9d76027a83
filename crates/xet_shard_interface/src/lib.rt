//! The stores of records that a session has, and the shards that its records become.
#![tactic(auto)]

pub mod shard_filler;
pub mod shard_interface;

pub use shard_filler::{ShardFiller, split};
pub use shard_interface::{SessionShardInterface, SessionStores, ShardRules};
