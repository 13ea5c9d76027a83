//! Scripts of calls of the completion tracker: the calls that lines spell, and the lines that their replies print.
#![tactic(auto)]

mod line;
mod print;
mod read;
pub mod script;
mod word;

pub use script::{Script, Turn, run_script};
