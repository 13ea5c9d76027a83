//! Copies files between stores: from a shelf to a target, what the target lacks.
#![tactic(auto)]

pub mod laws;
pub mod mirror;

pub use mirror::mirror_files;
pub use xet_mirror_parts::{MirrorError, MirrorReport};
