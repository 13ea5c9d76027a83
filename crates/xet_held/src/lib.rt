//! Which chunks of xorbs the terms of files hold, and their new numbers.
//!
//! The Rust crates have no such calls.
#![tactic(auto)]

pub mod held;
pub mod reach;
pub mod reaches;

pub use held::held_chunks;
pub use reach::Reach;
pub use reaches::extend_all;
