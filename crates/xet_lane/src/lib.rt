//! One lane of a run, a connection with the steps that it made, and what a join of lanes leaves.
#![tactic(auto)]

pub mod gate;
pub mod joined;
pub mod lane;

pub use gate::{Gate, OpenGate};
pub use joined::{Joined, LaneEnd};
pub use lane::{Fetch, Lane};
pub use xet_ties::LaneStep;
