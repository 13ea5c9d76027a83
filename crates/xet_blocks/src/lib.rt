//! Plans as terms and blocks: what a range query's answer is made into, and its tests.
#![tactic(auto)]

pub mod fetch_policy;
pub mod laws;
pub mod reconstruction_terms;

pub use fetch_policy::{FetchPolicy, PrefetchView, Steady};
pub use reconstruction_terms::file_term::{
    DataSource, FileTerm, TermBlock, retrieve_file_term_block,
};
pub use xet_error::{Corruption, FileReconstructionError, Result, Setting, WriterFault};
pub use xet_offers::{
    ChunkOffsets, RetrievalUrl, TermBlockRetrievalURLs, XorbBlock, XorbBlockData, XorbReference,
};
