//! The parts of a mirror: what was looked at and copied so far, one xorb, the terms of a file, and one file.
#![tactic(auto)]

pub mod copied;
pub mod copies;
pub mod looks;
pub mod report;
pub mod xorb_record;

pub use copied::{Copied, LookedXorb};
pub use copies::{asked_file, copy_file};
pub use looks::look_at_terms;
pub use report::{MirrorError, MirrorReport};
