//! A made store with one large file, a run over it, and what is printed of the file's bytes.
#![tactic(auto)]

mod made_store;
mod running;
mod summary;

pub use made_store::make_store;
pub use running::{Bench, BenchError, run_bench};
