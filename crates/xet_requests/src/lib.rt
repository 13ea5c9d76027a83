//! What is asked of a connection for a block that a plan has: the block's bytes, once, and the plan again for new URLs.
#![tactic(auto)]

pub mod fetched_block;
pub mod retrieval_urls;

pub use fetched_block::{Fetched, ask};
pub use retrieval_urls::refresh_retrieval_urls;
