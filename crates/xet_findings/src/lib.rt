//! What an audit finds, lists of findings, and where the chunks of xorbs stand among their bytes.
//!
//! The Rust crates have no such calls.
#![tactic(auto)]

pub mod chunk_places;
pub mod finding;
pub mod found;

pub use chunk_places::{all_places, bytes_between};
pub use finding::{AuditReport, Finding};
pub use found::add_if;
