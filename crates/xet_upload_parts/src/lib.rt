//! The parts of an upload session beside its stores: hashes in order, xorbs that were not put again, the tracker of its
//! files, and the thresholds by which what waits is cut.
#![tactic(auto)]

pub mod cut_thresholds;
mod file_items;
pub mod file_tracker;
pub mod hash_list;
pub mod repeated_xorbs;

pub use cut_thresholds::CutThresholds;
pub use file_tracker::FileTracker;
pub use hash_list::HashList;
pub use repeated_xorbs::RepeatedXorbs;
