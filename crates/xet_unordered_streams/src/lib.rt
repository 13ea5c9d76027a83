//! Streams of a file's bytes whose pieces come in any order, each with its place.
#![tactic(auto)]

mod ahead_terms;
mod awaited_terms;
mod due_terms;
mod early_terms;
mod giving;
mod hints;
pub mod laws;
mod pulling;
pub mod unordered_download_stream;
mod waiting_items;

pub use unordered_download_stream::UnorderedDownloadStream;
