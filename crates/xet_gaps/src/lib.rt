//! An exact record of the bytes of a file that are missing, and its text.
#![tactic(auto)]

pub mod gap_record;
pub mod gap_text_error;
pub mod laws;
mod marking;
mod reading;
pub mod roomy_record;
mod touching;
mod writing;

pub use gap_record::GapRecord;
pub use gap_text_error::GapTextError;
pub use roomy_record::RoomyRecord;
