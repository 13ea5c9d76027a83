//! The command `mirror`: files are copied from one store of a document to the other, where it lacks them.
#![tactic(auto)]

mod command;
mod input;
mod report;
mod run;
mod words;

pub use command::mirror;
pub use words::read_verify;
