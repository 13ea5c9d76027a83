//! What the lanes of a round are given, and what they hand back.
ghost use Rattle.std.specs.Prelude.{◌≡◌, ◌+◌, ◌<◌, ◌≤◌, [], All, IfOk, OnErr, map, vec_capacity, vec_len};
ghost use Rattle.xet_claims.specs.ClaimPasses.{IsPassOf, pass_view};
ghost use Rattle.xet_claims.specs.ClaimViews.{newcomer};
ghost use Rattle.xet_lane.specs.Ends.{ended};
ghost use Rattle.xet_lanes.specs.steps.Drawn.{AllReady, claims_of, ends_of, work};

use std::alloc::Global;
use std::sync::ledger::Ledger;
use xet_base::OutOfMemory;
use xet_claims::{ClaimPass, Claims};
use xet_lane::LaneEnd;
use xet_run::RunPass;
use xet_ties::LaneStep;

/// What a lane of a round is given and hands back: its passes, its steps, and whether memory ran out besides.
#[derive(Drop)]
pub(crate) struct LaneJob<L: Ledger> {
    pub(crate) claim: ClaimPass,
    pub(crate) run: RunPass<L>,
    pub(crate) steps: Vec<LaneStep>,
    pub(crate) short: bool,
}

/// A job for each claim pass, with a part of the run pass. The vector of the claim passes keeps its room.
pub(crate) fn jobs_for<L: Ledger>(
    alloc: Global,
    claims: &Claims,
    passes: &mut Vec<ClaimPass>,
    pass: &mut RunPass<L>,
) -> Result<Vec<LaneJob<L>>, OutOfMemory>
    requires of { All (λ p. IsPassOf claims.now p × (pass_view p ≡ newcomer 1 claims.now.count)) passes.old.items }
    requires parts { vec_len passes.old < pass.old.share.parts }
    ensures ready { IfOk result (λ jobs. AllReady claims.now
        (map (λ j. work j.claim j.run.share.parts j.steps.items j.short) jobs.items)
        × (vec_len jobs ≡ vec_len passes.old)) }
    ensures room { IfOk result (λ jobs. (passes.new.items ≡ [])
        × (vec_capacity passes.new ≡ vec_capacity passes.old)) }
    ensures parts { IfOk result (λ jobs. pass.new.share.parts + vec_len jobs ≡ pass.old.share.parts) }
    ensures refused { OnErr result (pass.new.share.parts ≡ pass.old.share.parts) }
{
    let mut jobs = Vec::with_capacity(alloc, passes.len())?;
    while let Some(claim) = passes.pop() {
        let run = pass.split(1);
        jobs.push_reserved(LaneJob {
            claim,
            run,
            steps: Vec::new(alloc),
            short: false,
        });
    }
    Ok(jobs)
}

/// The claim passes and the ends of the jobs, in their order. The run pass takes in theirs.
pub(crate) fn take_apart<L: Ledger>(
    jobs: Vec<LaneJob<L>>,
    passes: &mut Vec<ClaimPass>,
    ends: &mut Vec<LaneEnd>,
    pass: &mut RunPass<L>,
)
    requires room { (vec_len jobs ≤ vec_capacity passes.old) × (vec_len jobs ≤ vec_capacity ends.old) }
    requires empty { (passes.old.items ≡ []) × (ends.old.items ≡ []) }
    requires one { All (λ j. j.run.share.parts ≡ 1) jobs.items }
    ensures passes { passes.new.items ≡ claims_of
        (map (λ j. work j.claim j.run.share.parts j.steps.items j.short) jobs.items) }
    ensures ends { map ended ends.new.items ≡ ends_of
        (map (λ j. work j.claim j.run.share.parts j.steps.items j.short) jobs.items) }
    ensures parts { pass.new.share.parts ≡ pass.old.share.parts + vec_len jobs }
{
    for job in jobs {
        let LaneJob {
            claim,
            run,
            steps,
            short,
        } = job;
        passes.push_reserved(claim);
        ends.push_reserved(LaneEnd { steps, short });
        pass.gather(run);
    }
}
