//! A session of range requests over a store.
#![tactic(auto)]

mod answer;
mod fetch;
pub mod laws;
pub mod serve_error;
pub mod session;
mod short_range;
mod turn;

pub use serve_error::ServeError;
pub use session::serve_session;
