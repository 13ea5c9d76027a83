//! What streams of a file's bytes are: the words of their contracts, and the answer of a step.
#![tactic(auto)]

pub mod step;

pub use step::Step;
