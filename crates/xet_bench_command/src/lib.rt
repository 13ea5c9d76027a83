//! The command `bench`: what is printed of the file of a made store after a run of it.
#![tactic(auto)]

mod command;
mod wanted;

pub use command::bench;
pub use wanted::{BenchWanted, read_bench};
