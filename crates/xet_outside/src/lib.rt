//! What stands outside a transfer: connections, caches, sinks, sources and cancel signals.
//!
//! Each trait tells, for proofs alone, what its object holds and did: one ghost member `told`, a record of
//! `specs/Told`. What one call may change there is a relation of the same file.
#![tactic(auto)]

pub mod block;
pub mod cancel;
pub mod chunk_cache;
pub mod client;
pub mod laws;
pub mod offsets;
pub mod place_sink;
pub mod plain_write;
pub mod plan;
pub mod said;
pub mod served;
pub mod sink;
pub mod source;

pub use block::{BlockAnswer, BlockBytes, BlockRequest};
pub use cancel::{CancelSignal, NeverCancel};
pub use chunk_cache::{CacheError, ChunkCache, NoCache};
pub use client::{Client, ClientError};
pub use offsets::Offsets;
pub use place_sink::{PlaceSink, place_follows};
pub use plain_write::write_plainly;
pub use plan::{FetchEntry, FetchRange, Plan, PlanAnswer, PlanTerm, PlanXorb};
pub use said::Said;
pub use served::Served;
pub use sink::{Sink, SinkError};
pub use source::{Source, SourceFault};
