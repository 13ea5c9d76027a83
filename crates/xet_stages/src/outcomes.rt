//! Takes in what a join came to.
ghost use Rattle.std.specs.Prelude.{◌≤◌, IfErr, IfOk, length};
ghost use Rattle.xet_ties.specs.Setup.{most_lanes};
ghost use Rattle.xet_stages.specs.Outcomes.{KeepFails, KeptOutcome, OutcomeFails, TookOutcome};
ghost use Rattle.xet_stages.specs.RoundRecords.{RoundMayBe, lanes_of, window_events};

use crate::recording::record_round;
use std::alloc::Global;
use xet_base::List;
use xet_blocks::FetchPolicy;
use xet_error::{FileReconstructionError, Result};
use xet_lane::{Joined, LaneEnd};
use xet_leader::advance;
use xet_leader::expiries::count_expired;
use xet_leader::keeping::keep_served;
use xet_leader::leader::Leader;
use xet_leader::missing_blocks::BlockAt;
use xet_run::{EventLog, RunCore};

/// What a join leaves to be settled and reported.
#[derive(Drop)]
pub struct Outcome {
    /// The blocks that were served, in the order of the lanes.
    pub served: Vec<BlockAt>,
    /// The plans that are to be asked for again, each once.
    pub stale: Vec<u64>,
    /// The lengths of the written terms, in bytes.
    pub lengths: List<u64>,
}

/// Records what a join came to, where the writer had terms of these lengths. Then each served block keeps its data,
/// each expired one is counted, and the written terms go.
///
/// The error of the join, where it has one, once all is recorded. Else `UrlExpired` where the tries of a block are used
/// up. `OutOfMemory` where memory was refused.
pub fn take_outcome<P: FetchPolicy, E: EventLog>(
    alloc: Global,
    leader: &mut Leader<P>,
    core: &mut RunCore<E>,
    joined: Joined,
    lengths: List<u64>,
    tries: u32,
) -> Result<Outcome>
    requires lanes { length joined.ends.items ≤ most_lanes }
    requires allowed { RoundMayBe core.old (lanes_of joined.ends.items) (window_events joined.wrote lengths) }
    ensures took { IfOk result (TookOutcome tries lengths joined core.old core.new leader.old leader.new) }
    ensures fails { IfErr result (OutcomeFails tries lengths joined core.old core.new leader.old) }
{
    match record_round(core, &joined, lengths.as_slice()) {
        Ok(()) => {}
        Err(error) => return Err(error),
    }
    match joined.first_error() {
        Some(error) => Err(error),
        None => {
            let Joined { ends, wrote: _ } = joined;
            keep_outcome(alloc, leader, ends, lengths, tries)
        }
    }
}

/// The served blocks keep their data, the expired ones are counted, and the written terms go.
fn keep_outcome<P: FetchPolicy>(
    alloc: Global,
    leader: &mut Leader<P>,
    ends: Vec<LaneEnd>,
    lengths: List<u64>,
    tries: u32,
) -> Result<Outcome>
    ensures kept { IfOk result (KeptOutcome tries lengths ends.items leader.old leader.new) }
    ensures fails { IfErr result (KeepFails tries ends.items leader.old) }
{
    let places = match keep_served(alloc, leader, ends) {
        Ok(places) => places,
        Err(error) => return Err(FileReconstructionError::from(error)),
    };
    let stale = match count_expired(alloc, leader, places.late.as_slice(), tries) {
        Ok(stale) => stale,
        Err(error) => return Err(error),
    };
    advance(leader, lengths.len() as u64);
    Ok(Outcome {
        served: places.served,
        stale,
        lengths,
    })
}
