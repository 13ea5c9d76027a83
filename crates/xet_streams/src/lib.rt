//! Streams of a file's bytes, piece by piece.
#![tactic(auto)]

pub mod download_stream;
pub mod flag;
pub mod limits;
mod parts;
mod pulls;
pub mod stepper;
mod stepping;

pub use download_stream::DownloadStream;
pub use flag::FlagSignal;
pub use limits::StreamLimits;
pub use stepper::{Order, Stepper};
pub use xet_stream_rules::Step;
