//! A lane that draws the numbers of a round's fetches.
ghost use Rattle.std.specs.Prelude.{◌≡◌, ◌⊎◌, ◌∷◌, [], All, Some, false, length, map, true};
ghost use Rattle.xet_claims.specs.ClaimPasses.{IsFresh, IsPassOf, pass_view};
ghost use Rattle.xet_claims.specs.ClaimViews.{halted};
ghost use Rattle.xet_events.specs.declared.run_call.RunCall.TheVariants as call;
ghost use Rattle.xet_ties.specs.Lanes.{IsFor, LaneDrew};
ghost use Rattle.xet_lane.specs.Fetches.{NoneFailedBefore, ask_of};
ghost use Rattle.xet_lanes.specs.steps.Drawn.{AllDrew, AllReady, HasEnded, HasSeen, HasStopped, HasTold, IsNext, work};

use crate::jobs::LaneJob;
use std::alloc::Global;
use std::sync::Wait;
use std::sync::ledger::Ledger;
use xet_claims::{ClaimPass, Claims};
use xet_error::FileReconstructionError;
use xet_lane::{Fetch, Gate, Lane};
use xet_outside::Client;
use xet_run::{RunError, RunPass, RunState};

/// What all lanes of a round share.
#[derive(Drop)]
pub(crate) struct Shared<'a, R, G, L: Ledger> {
    pub(crate) rt: &'a R,
    pub(crate) alloc: Global,
    pub(crate) gate: &'a G,
    pub(crate) claims: &'a Claims,
    pub(crate) state: &'a RunState<L>,
    pub(crate) fetches: &'a [Fetch<'a>],
    /// How many steps a lane has room for at first.
    pub(crate) room: usize,
}

/// What a lane does next.
#[derive(Clone, Copy)]
pub enum Next {
    /// The fetch of this number.
    Number(u64),
    /// Nothing: all numbers were drawn, or a lane stopped the others.
    Over,
    /// Nothing: the run is to stop, for this, and no lane stopped the others: it was cancelled, or has an error.
    Stopped(RunError),
    /// Nothing: memory ran out.
    Short,
}

/// Draws the next number, unless the run or a lane was stopped: `Stopped` with what the run's state replied, `Short`
/// only where memory ran out for its check.
pub fn next_number<R: Wait, L: Ledger>(
    rt: &R,
    claims: &Claims,
    state: &RunState<L>,
    claim: &mut ClaimPass,
    run: &mut RunPass<L>,
) -> Next
    requires of { IsPassOf claims.now claim.old }
    requires fresh { IsFresh claim.old }
    ensures of { IsPassOf claims.now claim.new }
    ensures next { IsNext claims.now.count (pass_view claim.old) (pass_view claim.new) result }
    ensures seen { HasSeen result run.new.last }
    ensures short { result ≡ Next.Short → run.new.share.amount ≡ run.old.share.amount }
    ensures parts { run.new.share.parts ≡ run.old.share.parts }
{
    let seen = state.check_run_state(rt, run);
    if matches!(seen, Err(RunError::OutOfMemory)) {
        return Next::Short;
    }
    if claims.stopped(claim) {
        return Next::Over;
    }
    // A lane stops the others before it sets its error. So where a lane did, the mark was seen just now.
    if let Err(reply) = seen {
        return Next::Stopped(reply);
    }
    match claims.draw(claim) {
        Some(number) => Next::Number(number),
        None => Next::Over,
    }
}

/// Stops the other lanes, and then tells the run why, as the pass's last call. True where memory ran out; then the run
/// was told nothing.
fn stop_others<R: Wait, L: Ledger>(
    rt: &R,
    claims: &Claims,
    state: &RunState<L>,
    claim: &mut ClaimPass,
    run: &mut RunPass<L>,
    error: FileReconstructionError,
) -> bool
    requires of { IsPassOf claims.now claim.old }
    ensures of { IsPassOf claims.now claim.new }
    ensures stopped { pass_view claim.new ≡ halted (pass_view claim.old) }
    ensures told { result ≡ false → run.new.last ≡ Some (call.SetError error) }
    ensures short { result ≡ true → (run.new.share.amount ≡ run.old.share.amount)
        × (run.new.last ≡ run.old.last) }
    ensures parts { run.new.share.parts ≡ run.old.share.parts }
{
    claims.stop(claim);
    state.set_error(rt, run, error).is_err()
}

/// Stops the other lanes for want of memory. It answers true.
fn stop_short<R: Wait, L: Ledger>(
    rt: &R,
    claims: &Claims,
    state: &RunState<L>,
    claim: &mut ClaimPass,
    run: &mut RunPass<L>,
) -> bool
    requires of { IsPassOf claims.now claim.old }
    ensures of { IsPassOf claims.now claim.new }
    ensures stopped { pass_view claim.new ≡ halted (pass_view claim.old) }
    ensures told { (run.new.last ≡ Some (call.SetError FileReconstructionError.OutOfMemory))
        ⊎ (run.new.last ≡ run.old.last) }
    ensures parts { run.new.share.parts ≡ run.old.share.parts }
    ensures short { result ≡ true }
{
    let error = FileReconstructionError::OutOfMemory;
    stop_others(rt, claims, state, claim, run, error);
    true
}

/// Draws and fetches until there is no number left, a step fails, or a lane stops the others. True where memory ran
/// out besides, and where the run is to stop though no lane stopped the others.
fn draw_all<R: Wait, C: Client, G: Gate, L: Ledger>(
    shared: &Shared<R, G, L>,
    lane: &mut Lane<C>,
    claim: &mut ClaimPass,
    run: &mut RunPass<L>,
) -> bool
    requires of { IsPassOf shared.now.claims.now claim.old }
    requires fresh { IsFresh claim.old }
    requires nothing { ((pass_view claim.old).drawn ≡ []) × (lane.old.steps.items ≡ [])
        × ((pass_view claim.old).raised ≡ false) }
    requires count { shared.now.claims.now.count ≡ length shared.now.fetches.now }
    requires asks { All IsFor (map ask_of shared.now.fetches.now) }
    ensures same_reference { lane.new.client.ghost_name ≡ lane.old.client.ghost_name }
    ensures of { IsPassOf shared.now.claims.now claim.new }
    ensures weight { (pass_view claim.new).weight ≡ (pass_view claim.old).weight }
    ensures parts { run.new.share.parts ≡ run.old.share.parts }
    ensures drew { LaneDrew (map ask_of shared.now.fetches.now) (C.told lane.old.client.now)
        (C.told lane.new.client.now) (pass_view claim.new).drawn lane.new.steps.items }
    ensures last { NoneFailedBefore lane.new.steps.items }
    ensures ended { HasEnded result (pass_view claim.new) lane.new.steps.items }
    ensures stops { HasStopped result (pass_view claim.new) lane.new.steps.items }
    ensures told { HasTold result run.new.last lane.new.steps.items }
{
    let (rt, claims, state) = (shared.rt, shared.claims, shared.state);
    for _ in 0..u64::MAX {
        let number = match next_number(rt, claims, state, claim, run) {
            Next::Number(number) => number,
            Next::Over => return false,
            Next::Stopped(_) => return stop_short(rt, claims, state, claim, run),
            Next::Short => return stop_short(rt, claims, state, claim, run),
        };
        let fetch = &shared.fetches[number as usize];
        let made = lane.make(shared.alloc, fetch, shared.gate);
        if made.is_err() {
            return stop_short(rt, claims, state, claim, run);
        }
        if let Some(error) = lane.last_error() {
            return stop_others(rt, claims, state, claim, run, error);
        }
    }
    stop_short(rt, claims, state, claim, run)
}

/// Makes a lane over the connection, which draws and fetches.
pub(crate) fn draw_alone<R: Wait, C: Client, G: Gate, L: Ledger>(
    shared: &Shared<R, G, L>,
    client: &mut C,
    job: &mut LaneJob<L>,
)
    requires ready { AllReady shared.now.claims.now
        (work job.old.claim job.old.run.share.parts job.old.steps.items job.old.short ∷ []) }
    requires count { shared.now.claims.now.count ≡ length shared.now.fetches.now }
    requires asks { All IsFor (map ask_of shared.now.fetches.now) }
    ensures drew { AllDrew shared.now.claims.now (map ask_of shared.now.fetches.now)
        (C.told client.old ∷ []) (C.told client.new ∷ [])
        (work job.new.claim job.new.run.share.parts job.new.steps.items job.new.short ∷ []) }
    ensures told { HasTold job.new.short job.new.run.last job.new.steps.items }
{
    let mut lane = Lane::with_room(shared.alloc, client, shared.room);
    let short = draw_all(shared, &mut lane, &mut job.claim, &mut job.run);
    let (client, steps) = lane.into_parts();
    recall_client(client);
    job.steps = steps;
    job.short = short;
}

/// Ties, for proofs alone, a reference that was handed back to the parameter that lent it.
fn recall_client<C>(client: &mut C)
    ensures { client.new ≡ client.old }
{}
