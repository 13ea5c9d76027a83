//! A store in memory, what it answers, and taps.
#![tactic(auto)]

pub mod client_log;
pub mod joined_xorb;
pub mod laws;
mod look_log;
pub mod map_cache;
pub mod mem_block;
pub mod mem_cut;
pub mod mem_fetch;
pub mod mem_store;
pub mod stored_xorb;
pub mod tap;
mod tap_log;
mod touched_chunks;
pub mod worked;

pub use joined_xorb::JoinedXorb;
pub use map_cache::MapCache;
pub use mem_store::{KeptFile, MemStore, StoreRefused};
pub use stored_xorb::StoredXorb;
pub use tap::{MemTap, NoTap, ScriptTap, Tap};
pub use xet_outside::{
    BlockAnswer, BlockBytes, BlockRequest, CacheError, CancelSignal, ChunkCache, Client,
    ClientError, FetchEntry, FetchRange, NeverCancel, NoCache, Offsets, PlaceSink, Plan,
    PlanAnswer, PlanTerm, PlanXorb, Said, Served, Sink, SinkError, Source, SourceFault,
    place_follows, write_plainly,
};
pub use xet_sinks::{
    BufferedSink, FileSink, HexSink, MemFile, ReadSource, ScriptSink, ScriptSource, SinkStep,
    SourceStep, VecSink, VecSource, WriteSink,
};
