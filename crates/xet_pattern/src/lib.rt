//! The bytes of a made file, and the lines that tell of it.
#![tactic(auto)]

mod made_file;

pub use made_file::{counted_lines, pattern};
