//! Where the next gap of a record may stand.
#![tactic(auto)]

mod next_gap;

pub use next_gap::is_next;
