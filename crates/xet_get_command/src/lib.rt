//! The command `get`: a range of a file of a store, as hexadecimal digits.
#![tactic(auto)]

mod book;
mod command;
mod connections;
mod digits;
mod options;
mod tapped_client;
mod wanted;

pub use book::new_book_view;
pub use command::get;
pub use options::{GetOption, Options, read_options};
pub use wanted::{Wanted, read_wanted};
