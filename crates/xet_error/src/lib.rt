//! Why a reconstruction fails, with the numbers by which a program names failed tests and settings.
#![tactic(auto)]

pub mod error;

pub use error::{Corruption, FileReconstructionError, Result, Setting, WriterFault};
