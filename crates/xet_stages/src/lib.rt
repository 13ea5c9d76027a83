//! The stages of a turn beside its round: its start, the window that the writer is given, and the taking in of what the
//! round came to.
#![tactic(auto)]

pub mod accounts;
pub mod lending;
pub mod outcomes;
pub mod queueing;
pub mod recording;
pub mod starting;

pub use accounts::record_blocks;
pub use lending::Around;
pub use outcomes::{Outcome, take_outcome};
pub use queueing::window;
pub use recording::record_round;
pub use starting::start;
