//! The lanes of a run: connections that draw the fetches of a round side by side, and the join of a round with the
//! writing beside it.
#![tactic(auto)]

pub mod drawing;
mod halves;
mod jobs;
pub mod overlap;

pub use overlap::fetch_and_write;
pub use xet_lane::{Fetch, Gate, Joined, Lane, LaneEnd, OpenGate};
pub use xet_ties::LaneStep;
