//! What one join came to.
ghost use Rattle.std.specs.Prelude.{◌≡◌, map};
ghost use Rattle.std.specs.List.{list_any};
ghost use Rattle.xet_base.specs.Lists.{first_some};
ghost use Rattle.xet_lane.specs.JoinErrors.{end_error, first_error, lacks_memory, wants_memory};
ghost use Rattle.xet_lane.specs.Ends.{ended};

use crate::lane::last_error;
use xet_error::{FileReconstructionError, Result};
use xet_ties::LaneStep;

/// What a lane hands back.
///
/// The Rust crate has no such type.
#[derive(Drop)]
pub struct LaneEnd {
    /// Its steps, in order. Only the last may have failed.
    pub steps: Vec<LaneStep>,
    /// Whether memory ran out besides.
    pub short: bool,
}

/// What one join came to.
///
/// The Rust crate has no such type.
#[derive(Drop)]
pub struct Joined {
    /// The lanes, in the order of the connections.
    pub ends: Vec<LaneEnd>,
    /// How many bytes the writer took, or why it didn't take all that were ready.
    pub wrote: Result<u64>,
}

impl Joined {
    /// The error of the join, if there is one: `OutOfMemory` where memory was wanting in the writing, in a lane or in
    /// its last step; else the writer's error; else that of the first lane, in the order of the connections, whose last
    /// step failed.
    pub fn first_error(&self) -> Option<FileReconstructionError>
        ensures { result ≡ first_error self.now.wrote (map ended self.now.ends.items) }
    {
        let wrote = self.wrote.err();
        if wants_memory(wrote) || some_lacks_memory(self.ends.as_slice()) {
            return Some(FileReconstructionError::OutOfMemory);
        }
        if wrote.is_some() {
            return wrote;
        }
        first_lane_error(self.ends.as_slice())
    }
}

/// Whether the error is want of memory.
fn wants_memory(error: Option<FileReconstructionError>) -> bool
    ensures { result ≡ wants_memory error }
{
    matches!(error, Some(FileReconstructionError::OutOfMemory))
}

/// Whether memory was wanting in a lane.
fn lacks_memory(end: &LaneEnd) -> bool
    ensures { result ≡ lacks_memory (ended end.now) }
{
    end.short || wants_memory(last_error(end.steps.as_slice()))
}

/// Whether memory was wanting in one of the lanes.
fn some_lacks_memory(ends: &[LaneEnd]) -> bool
    ensures { result ≡ list_any lacks_memory (map ended ends.now) }
{
    for end in ends {
        if lacks_memory(end) {
            return true;
        }
    }
    false
}

/// The error of the first lane whose last step failed.
fn first_lane_error(ends: &[LaneEnd]) -> Option<FileReconstructionError>
    ensures { result ≡ first_some (map end_error (map ended ends.now)) }
{
    for end in ends {
        let error = last_error(end.steps.as_slice());
        if error.is_some() {
            return error;
        }
    }
    None
}
