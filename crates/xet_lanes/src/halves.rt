//! The lanes of a round side by side, by halves of halves.
ghost use Rattle.std.specs.Prelude.{◌≡◌, ◌<◌, All, length, map};
ghost use Rattle.std.specs.Thread.{IsSend, IsSync};
ghost use Rattle.xet_ties.specs.Lanes.{IsFor};
ghost use Rattle.xet_lane.specs.Fetches.{ask_of};
ghost use Rattle.xet_lanes.specs.steps.Drawn.{AllDrew, AllReady, work};

use crate::drawing::{Shared, draw_alone};
use crate::jobs::LaneJob;
use std::sync::Wait;
use std::sync::ledger::Ledger;
use std::thread::{Threads, join_mut};
use xet_lane::Gate;
use xet_outside::Client;

/// The lanes draw from the claims and work side by side. One lane works in the caller's thread.
#[cycle(drawers)]
pub(crate) fn draw_from<
    R: Threads + Wait + Sync,
    C: Client + Send,
    G: Gate + Sync,
    L: Ledger + Send + Sync,
>(shared: &Shared<R, G, L>, count: usize, clients: &mut [C], jobs: &mut [LaneJob<L>])
    requires some { (0 < count) × (length clients.old ≡ count) × (length jobs.old ≡ count) }
    requires ready { AllReady shared.now.claims.now
        (map (λ j. work j.claim j.run.share.parts j.steps.items j.short) jobs.old) }
    requires numbers { shared.now.claims.now.count ≡ length shared.now.fetches.now }
    requires asks { All IsFor (map ask_of shared.now.fetches.now) }
    ensures { AllDrew shared.now.claims.now (map ask_of shared.now.fetches.now)
        (map C.told clients.old) (map C.told clients.new)
        (map (λ j. work j.claim j.run.share.parts j.steps.items j.short) jobs.new) }
{
    if count == 1 {
        draw_alone(shared, &mut clients[0], &mut jobs[0]);
        return;
    }
    let low = count / 2;
    let (front, back) = clients.split_at_mut(low);
    let (front_jobs, back_jobs) = jobs.split_at_mut(low);
    draw_both(shared, low, front, front_jobs, count - low, back, back_jobs);
}

/// The lanes of both halves draw side by side.
#[cycle(drawers)]
fn draw_both<R: Threads + Wait + Sync, C: Client + Send, G: Gate + Sync, L: Ledger + Send + Sync>(
    shared: &Shared<R, G, L>,
    low: usize,
    front: &mut [C],
    front_jobs: &mut [LaneJob<L>],
    high: usize,
    back: &mut [C],
    back_jobs: &mut [LaneJob<L>],
)
    requires some { (0 < low) × (0 < high) × (length front.old ≡ low) × (length back.old ≡ high) }
    requires jobs { (length front_jobs.old ≡ low) × (length back_jobs.old ≡ high) }
    requires front { AllReady shared.now.claims.now
        (map (λ j. work j.claim j.run.share.parts j.steps.items j.short) front_jobs.old) }
    requires back { AllReady shared.now.claims.now
        (map (λ j. work j.claim j.run.share.parts j.steps.items j.short) back_jobs.old) }
    requires numbers { shared.now.claims.now.count ≡ length shared.now.fetches.now }
    requires asks { All IsFor (map ask_of shared.now.fetches.now) }
    ensures front { AllDrew shared.now.claims.now (map ask_of shared.now.fetches.now)
        (map C.told front.old) (map C.told front.new)
        (map (λ j. work j.claim j.run.share.parts j.steps.items j.short) front_jobs.new) }
    ensures back { AllDrew shared.now.claims.now (map ask_of shared.now.fetches.now)
        (map C.told back.old) (map C.told back.new)
        (map (λ j. work j.claim j.run.share.parts j.steps.items j.short) back_jobs.new) }
{
    let mut lower = ||
        requires { IsSync R.row × IsSync G.row × IsSend C.row × IsSend L.row × IsSync L.row
            × (0 < low) × (length front.now ≡ low) × (length front_jobs.now ≡ low)
            × AllReady shared.now.claims.now
            (map (λ j. work j.claim j.run.share.parts j.steps.items j.short) front_jobs.now)
            × (shared.now.claims.now.count ≡ length shared.now.fetches.now)
            × All IsFor (map ask_of shared.now.fetches.now) }
        ensures { AllDrew shared.entry.now.claims.now (map ask_of shared.entry.now.fetches.now)
            (map C.told front.entry.now) (map C.told front.exit.now)
            (map (λ j. work j.claim j.run.share.parts j.steps.items j.short) front_jobs.exit.now) }
    { draw_from(shared, low, front, front_jobs) };
    let mut upper = ||
        requires { IsSync R.row × IsSync G.row × IsSend C.row × IsSend L.row × IsSync L.row
            × (0 < high) × (length back.now ≡ high) × (length back_jobs.now ≡ high)
            × AllReady shared.now.claims.now
            (map (λ j. work j.claim j.run.share.parts j.steps.items j.short) back_jobs.now)
            × (shared.now.claims.now.count ≡ length shared.now.fetches.now)
            × All IsFor (map ask_of shared.now.fetches.now) }
        ensures { AllDrew shared.entry.now.claims.now (map ask_of shared.entry.now.fetches.now)
            (map C.told back.entry.now) (map C.told back.exit.now)
            (map (λ j. work j.claim j.run.share.parts j.steps.items j.short) back_jobs.exit.now) }
    { draw_from(shared, high, back, back_jobs) };
    join_mut(shared.rt, &mut lower, &mut upper);
}
