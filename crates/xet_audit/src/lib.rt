//! Stores as they were read, valid or not, and what is wrong with them.
//!
//! The Rust crates have no such calls.
#![tactic(auto)]

mod audits;
pub mod finding;
mod first_places;
mod hash_faults;
pub mod laws;
mod marks;
pub mod raw_store;
mod raw_text;
mod raw_value;
mod records;
mod spare;
mod term_state;
mod term_walk;
mod xorb_faults;
mod xorb_table;

pub use audits::audit;
pub use finding::{AuditReport, Finding};
pub use raw_store::{RawFile, RawStore, RawXorb};
pub use raw_text::raw_of_text;
pub use raw_value::raw_of;
