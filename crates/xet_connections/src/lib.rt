//! Connections to a store in memory, and a signal by a script.
#![tactic(auto)]

pub mod mem_client;
mod mem_plan;
pub mod script_client;
pub mod script_signal;
pub mod tap_client;

pub use mem_client::MemClient;
pub use script_client::{ClientStep, ScriptClient};
pub use script_signal::ScriptSignal;
pub use tap_client::TapClient;
