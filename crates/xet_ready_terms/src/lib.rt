//! Which terms wait for which block, and which are ready.
#![tactic(auto)]

pub mod ready_terms;

pub use ready_terms::{BlockKey, ReadyTerms};
