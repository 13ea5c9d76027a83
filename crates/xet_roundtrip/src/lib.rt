//! A made file that is uploaded and downloaded again, and laws of files that come back.
#![tactic(auto)]

pub mod laws;
mod trip;

pub use trip::roundtrip;
