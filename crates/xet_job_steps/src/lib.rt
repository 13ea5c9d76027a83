//! A step of a job over plain data: its next piece is read, and taken.
#![tactic(auto)]

mod piece;

pub use piece::{read_piece, ready_piece};
