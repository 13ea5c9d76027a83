//! The terms of a file, and the blocks that they are cut from.
mod block_list;
pub mod file_term;
mod plan_blocks;
