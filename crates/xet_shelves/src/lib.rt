//! What a mirror stands between: stores that can be read as a whole, and uploaders that can be looked at.
#![tactic(auto)]

pub mod hash_target;
pub mod laws;
pub mod mem_shelf;
pub mod mem_target;
mod put_hashes;
mod put_index;
mod put_log;
pub mod shelf;
mod store_after;
pub mod target;
mod told_puts;

pub use hash_target::HashTarget;
pub use mem_shelf::MemShelf;
pub use mem_target::MemTarget;
pub use shelf::Shelf;
pub use target::Target;
