//! Fetches ranges of a file in any order, with an exact record of what is missing.
#![tactic(auto)]

pub mod fetch;
mod filling;
pub mod laws;
mod part;
pub mod resume_error;

pub use fetch::fetch_range;
pub use resume_error::ResumeError;
pub use xet_gaps::{GapRecord, GapTextError};
