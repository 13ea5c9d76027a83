//! The offers of a plan's entries, the tests of a plan, and blocks with their URLs.
pub mod chunk_offsets;
mod entry_offers;
pub mod listed_offers;
pub mod plan_checks;
pub mod plan_offers;
mod reached_sizes;
pub mod retrieval_urls;
pub mod xorb_block;
