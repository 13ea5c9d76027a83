//! The command `compact`: the same files without what no file needs, as a document.
#![tactic(auto)]

mod command;

pub use command::compact;
