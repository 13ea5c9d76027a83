//! Numbers that the lanes of a run draw, each once, and a mark that stops them.
#![tactic(auto)]

pub mod claim_rule;
pub mod claims;

pub use claims::{ClaimPass, Claims};
