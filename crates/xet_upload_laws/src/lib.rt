//! One law for uploads: each file of a session that ended well downloads to its bytes.
#![tactic(auto)]

pub mod laws;
pub mod sending;

pub use sending::{SendError, Sent, send};
