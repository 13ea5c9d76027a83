//! The command `track`: a script of calls of a completion tracker, and the reply to each.
#![tactic(auto)]

mod command;

pub use command::track;
