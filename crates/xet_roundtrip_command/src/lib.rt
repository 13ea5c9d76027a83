//! The command `roundtrip`: a made file that is uploaded, and downloaded by its pointer record.
#![tactic(auto)]

mod command;
mod wanted;

pub use command::roundtrip;
pub use wanted::read_size;
