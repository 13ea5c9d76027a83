//! Progress of uploads under locks: groups of items, and the completion tracker, each of whose calls is one hold of
//! its lock.
//!
//! The plain states stand in `xet_progress_state`, whose public names this crate gives on. `GroupProgress`,
//! `ItemProgressUpdater` and `CompletionTracker` share them.
#![tactic(auto)]

mod answer;
pub mod progress;
mod report;
pub mod tracker;
pub mod updater;

pub use progress::GroupProgress;
pub use tracker::{CompletionTracker, TrackerPass};
pub use updater::ItemProgressUpdater;
pub use xet_progress_state::{
    CompletionTrackerFileId, FileXorbDependency, GroupProgressReport, GroupState, Incomplete,
    ItemProgress, ItemProgressReport, ProgressError, TrackerCall, TrackerReply, TrackerState,
    TrackerStep,
};
