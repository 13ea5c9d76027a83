//! The blocks of a stream: a missing one is looked for in the cache, and asked for on a connection.
#![tactic(auto)]

mod asking;
mod fetching;
pub mod providing;

pub use providing::provide;
