//! Stores without what no file needs, and their documents.
#![tactic(auto)]

mod ascending;
pub mod compaction;
pub mod documents;
mod kept_store;
mod kept_xorb;
pub mod laws;
mod order;
mod reaches;
mod writing;

pub use compaction::{CompactError, Compacted, compact};
pub use documents::document;
