//! Data that waits to become a xorb: chunks with the files that have them, and what they become.
#![tactic(auto)]

pub mod aggregator;
pub mod limits;
pub mod raw_xorb;
pub mod waiting;

pub use aggregator::DataAggregator;
pub use limits::{CHUNK_BYTES, XORB_BYTES, XORB_CHUNKS};
pub use raw_xorb::{PendingFile, RawXorbData};
pub use waiting::{TermXorb, WaitingFile, WaitingTerm};
