//! The commands of the program, and its top call.
#![tactic(auto)]

mod commands;
pub mod laws;
mod texts;
mod tool;

pub use commands::{Command, read_words, run_words};
pub use tool::run_tool;
