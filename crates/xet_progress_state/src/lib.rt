//! The plain states of the progress of uploads: items and their sums in a group, and the completion tracker, which
//! counts which bytes of which files stand in xorbs that are uploaded.
//!
//! `GroupState` and `TrackerState` are the states, on whose calls the contracts stand. `TrackerState::step` makes any
//! call as a value.
#![tactic(auto)]

mod calls;
mod credit;
mod depend;
pub mod error;
pub mod file;
pub mod group;
mod hash_key;
pub mod item;
pub mod laws;
mod marks;
mod name;
mod part;
mod recent;
mod reply;
pub mod state;
pub mod step;
pub mod xorb;

pub use error::{Incomplete, ProgressError};
pub use file::TrackedFile;
pub use group::GroupState;
pub use item::{GroupProgressReport, ItemProgress, ItemProgressReport};
pub use state::TrackerState;
pub use step::{
    CompletionTrackerFileId, FileXorbDependency, TrackerCall, TrackerReply, TrackerStep,
};
pub use xorb::Found;
