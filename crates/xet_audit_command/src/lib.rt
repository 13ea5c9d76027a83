//! The command `audit`: what is wrong with the store that a document lists, valid or not, and which of its xorbs no
//! file names.
#![tactic(auto)]

mod command;
mod report_lines;
mod words;

pub use command::audit;
pub use words::read_hashes;
