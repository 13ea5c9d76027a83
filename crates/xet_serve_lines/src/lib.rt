//! Lines of a session of range requests: how they are read, the requests that they spell, and the texts of replies.
#![tactic(auto)]

mod cutting;
pub mod line_reader;
mod numbers;
pub mod replies;
pub mod requests;
mod words;

pub use line_reader::{Cut, LineFault, LineReader};
pub use replies::{add_line, add_number_line, add_range};
pub use requests::{Request, is_quit, read_request};
