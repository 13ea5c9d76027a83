//! The settings of a reconstruction, and the manager that cuts a range into queries and hands their plans out.
//!
//! The items of the crates below, which make plans into terms and blocks and fetch these, are here too.
#![tactic(auto)]

pub mod laws;
pub mod manager;
mod planned_bytes;
pub mod reconstruction_config;

pub use manager::{PlanDue, ReconstructionTermManager};
pub use reconstruction_config::ReconstructionConfig;
pub use xet_blocks::{
    Corruption, DataSource, FetchPolicy, FileReconstructionError, FileTerm, PrefetchView, Result,
    RetrievalUrl, Setting, Steady, TermBlock, TermBlockRetrievalURLs, WriterFault, XorbBlock,
    XorbBlockData, XorbReference, retrieve_file_term_block,
};
pub use xet_fetch::{
    FetchSettings, Fetched, URLProvider, XorbURLProvider, check_cached, entry, look_up, offer,
    offer_data, refresh_retrieval_urls, report_transfer, retrieve_data,
};
