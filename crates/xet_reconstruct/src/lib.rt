//! Writes a range of a file's bytes from connections to a writer or into a file.
#![tactic(auto)]

pub mod file_reconstructor;
pub mod laws;
mod order;
mod placing;

pub use file_reconstructor::FileReconstructor;
pub use xet_lane::{Gate, Lane, LaneStep, OpenGate};
