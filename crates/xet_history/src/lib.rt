//! What the history of a run says of a store's file: histories that are true of it, and laws of the bytes that they
//! plan and write.
#![tactic(auto)]

pub mod laws;
