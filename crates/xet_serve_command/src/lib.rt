//! The command `serve`: a session of range requests over a store, which the first line of the input lists.
#![tactic(auto)]

mod command;
mod connections;
mod first_line;
mod near_client;
mod options;
mod session;

pub use command::serve;
pub use options::read_serve;
