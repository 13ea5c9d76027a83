//! What every command of the program uses: how it ends, how texts are printed and inputs read, and numbers among words.
#![tactic(auto)]

mod inputs;
mod kept_memory;
mod later_flush;
mod numbers;
mod printing;
mod reading;
mod status;

pub use inputs::read_text;
pub use later_flush::LaterFlush;
pub use numbers::number;
pub use printing::{finish, print_text, say, say_after, stopped};
pub use reading::{LIMIT, ReadError, read_to_end};
pub use status::Status;
