//! What the pulls of a stream give together.
#![tactic(auto)]

pub mod laws;
