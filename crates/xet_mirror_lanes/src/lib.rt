//! Copies files over several pairs of a shelf and a target at once.
#![tactic(auto)]

pub mod lanes;

pub use lanes::{MirrorLane, mirror_all};
