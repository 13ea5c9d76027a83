//! Cleaners: a file is cut into chunks, which an upload session finds in known xorbs or puts.
#![tactic(auto)]

pub mod cleaner;
mod cuts;
pub mod laws;

pub use cleaner::{SingleFileCleaner, start_clean};
