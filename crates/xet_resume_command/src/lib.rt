//! The command `resume`: ranges of a stored file, fetched into an empty file, and the record of what is missing then.
#![tactic(auto)]

mod command;
mod fetching;
mod printing;
mod wanted;

pub use command::resume;
pub use wanted::{ResumeWanted, read_resume};
