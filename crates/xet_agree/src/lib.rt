//! Whether two stores agree.
//!
//! The Rust crates have no such call.
#![tactic(auto)]

mod agreement;
mod terms;
mod walks;

pub use agreement::stores_agree;
