//! How the history of a run is tied to what its connections, cache, signal, source of limits and writer tell: the
//! records that the run's calls cite, and laws of them.
#![tactic(auto)]

pub mod lane_step;
pub mod laws;

pub use lane_step::LaneStep;
