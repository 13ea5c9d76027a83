//! The upload side without a session: what is cut, what waits to be put, and what the records stand for.
#![tactic(auto)]

pub mod cutter;
pub mod data_error;
pub mod file_parts;
pub mod laws;
pub mod metrics;
pub mod open_terms;
pub mod sha256_policy;

pub use cutter::{Cutter, FixedCutter, next_cut};
pub use data_error::DataError;
pub use file_parts::FileParts;
pub use metrics::DeduplicationMetrics;
pub use open_terms::OpenTerms;
pub use sha256_policy::Sha256Policy;
pub use xet_shards::{MemShards, ShardError, ShardStore};
pub use xet_waiting::{
    CHUNK_BYTES, DataAggregator, PendingFile, RawXorbData, TermXorb, WaitingFile, WaitingTerm,
    XORB_BYTES, XORB_CHUNKS,
};
