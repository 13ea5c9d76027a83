//! The state of the completion tracker with every call that it was asked and its reply, in order, and the passes that
//! count the calls of its users.
#![tactic(auto)]

pub mod history;
pub mod pass;

pub use history::{TrackerHistory, dependencies_step};
pub use pass::TrackerPass;
