//! Reports what a round transferred and wrote.
use std::collections::VecDeque;
use std::sync::Wait;
use xet_blocks::FetchPolicy;
use xet_fetch::report_transfer;
use xet_lanes::{Joined, LaneEnd, LaneStep};
use xet_leader::leader::{Leader, LedPlan};
use xet_leader::places::find_plan;
use xet_progress::ItemProgressUpdater;

/// Reports to the item of the run's progress, where it has one, the blocks that the lanes were served as transferred,
/// and terms of these lengths in bytes as written, where the writer took all of them. A place of no block reports
/// nothing, and a refused report changes nothing. It doesn't matter whether the join has an error.
///
/// In the Rust crate: `ItemProgressUpdater::report_transfer_progress` where a block was fetched, and
/// `ItemProgressUpdater::report_bytes_written` where a term was written.
pub fn report<R: Wait, P: FetchPolicy>(
    rt: &R,
    leader: &Leader<P>,
    joined: &Joined,
    lengths: &[u64],
) {
    let Some(progress) = &leader.progress else {
        return;
    };
    report_lanes(rt, progress, &leader.plans, joined.ends.as_slice());
    if joined.wrote.is_ok() {
        report_terms(rt, progress, lengths);
    }
}

/// Reports the blocks that these lanes were served.
fn report_lanes<R: Wait>(
    rt: &R,
    progress: &ItemProgressUpdater,
    plans: &VecDeque<LedPlan>,
    ends: &[LaneEnd],
) {
    for end in ends {
        report_steps(rt, progress, plans, end.steps.as_slice());
    }
}

/// Reports the blocks that one lane was served.
fn report_steps<R: Wait>(
    rt: &R,
    progress: &ItemProgressUpdater,
    plans: &VecDeque<LedPlan>,
    steps: &[LaneStep],
) {
    for step in steps {
        if let LaneStep::Served { plan, block, .. } = step {
            report_block(rt, progress, plans, *plan, *block);
        }
    }
}

/// Reports this block of this plan as transferred.
fn report_block<R: Wait>(
    rt: &R,
    progress: &ItemProgressUpdater,
    plans: &VecDeque<LedPlan>,
    number: u64,
    block: usize,
) {
    let Some(place) = find_plan(plans, number) else {
        return;
    };
    if let Some(plan) = plans.get(place) {
        report_transfer(rt, Some(progress), &plan.block.urls, block);
    }
}

/// Reports terms of these lengths as written.
fn report_terms<R: Wait>(rt: &R, progress: &ItemProgressUpdater, lengths: &[u64]) {
    for length in lengths {
        let _ = progress.report_bytes_written(rt, *length);
    }
}
