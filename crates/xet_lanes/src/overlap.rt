//! A round of fetches, and the writing beside it.
ghost use Rattle.std.specs.Prelude.{◌≡◌, ◌<◌, ◌≤◌, All, IfOk, None, length, map, min, vec_len};
ghost use Rattle.std.specs.Thread.{IsSend, IsSync};
ghost use Rattle.xet_ties.specs.Lanes.{IsFor};
ghost use Rattle.xet_ties.specs.Setup.{most_lanes};
ghost use Rattle.xet_writers.specs.Calls.{closed_by};
ghost use Rattle.xet_writers.specs.Queues.{ready_bytes};
ghost use Rattle.xet_writers.specs.Sequential.{ReadyCall, WindowCall, told_of};
ghost use Rattle.xet_lane.specs.Fetches.{ask_of};
ghost use Rattle.xet_lanes.specs.Rounds.{RoundCall};
ghost use Rattle.xet_lanes.specs.steps.Drawn.{AllDrew, AllReady, work};

use crate::drawing::Shared;
use crate::halves::draw_from;
use crate::jobs::{LaneJob, jobs_for, take_apart};
use std::alloc::Global;
use std::sync::Wait;
use std::sync::ledger::Ledger;
use std::thread::{Threads, join_mut};
use xet_base::{List, OutOfMemory};
use xet_claims::Claims;
use xet_error::Result;
use xet_lane::{Fetch, Gate, Joined};
use xet_outside::{Client, Sink};
use xet_run::{RunPass, RunState};
use xet_writers::SequentialWriter;

/// Of more connections only so many are used.
const MOST_LANES: usize = 65_536;

/// The caller's thread writes what is ready while the lanes draw and fetch in others.
fn draw_beside<
    R: Threads + Wait + Sync,
    C: Client + Send,
    G: Gate + Sync,
    L: Ledger + Send + Sync,
    S: Sink,
>(
    shared: &Shared<R, G, L>,
    count: usize,
    clients: &mut [C],
    jobs: &mut [LaneJob<L>],
    writer: &mut SequentialWriter<S>,
) -> Result<u64>
    requires some { (0 < count) × (length clients.old ≡ count) × (length jobs.old ≡ count) }
    requires ready { AllReady shared.now.claims.now
        (map (λ j. work j.claim j.run.share.parts j.steps.items j.short) jobs.old) }
    requires numbers { shared.now.claims.now.count ≡ length shared.now.fetches.now }
    requires asks { All IsFor (map ask_of shared.now.fetches.now) }
    ensures wrote { ReadyCall S.told writer.old writer.new result }
    ensures window { closed_by (told_of writer.old) ≡ None
        → WindowCall (S.told writer.old.sink) (S.told writer.new.sink) (ready_bytes writer.old.queue) result }
    ensures drew { AllDrew shared.now.claims.now (map ask_of shared.now.fetches.now)
        (map C.told clients.old) (map C.told clients.new)
        (map (λ j. work j.claim j.run.share.parts j.steps.items j.short) jobs.new) }
{
    let alloc = shared.alloc;
    let mut round = ||
        requires { IsSync R.row × IsSync G.row × IsSend C.row × IsSend L.row × IsSync L.row
            × (0 < count) × (length clients.now ≡ count) × (length jobs.now ≡ count)
            × AllReady shared.now.claims.now
            (map (λ j. work j.claim j.run.share.parts j.steps.items j.short) jobs.now)
            × (shared.now.claims.now.count ≡ length shared.now.fetches.now)
            × All IsFor (map ask_of shared.now.fetches.now) }
        ensures { AllDrew shared.entry.now.claims.now (map ask_of shared.entry.now.fetches.now)
            (map C.told clients.entry.now) (map C.told clients.exit.now)
            (map (λ j. work j.claim j.run.share.parts j.steps.items j.short) jobs.exit.now) }
    { draw_from(shared, count, clients, jobs) };
    let mut write = || writer.write_ready(alloc);
    let (_, wrote) = join_mut(shared.rt, &mut round, &mut write);
    wrote
}

/// The lanes draw and fetch, beside the writing where that is wanted, and else after it.
fn draw_and_write<
    R: Threads + Wait + Sync,
    C: Client + Send,
    G: Gate + Sync,
    L: Ledger + Send + Sync,
    S: Sink,
>(
    shared: &Shared<R, G, L>,
    clients: &mut [C],
    jobs: &mut Vec<LaneJob<L>>,
    beside: bool,
    writer: &mut SequentialWriter<S>,
) -> Result<u64>
    requires some { (0 < length clients.old) × (vec_len jobs.old ≡ length clients.old) }
    requires ready { AllReady shared.now.claims.now
        (map (λ j. work j.claim j.run.share.parts j.steps.items j.short) jobs.old.items) }
    requires numbers { shared.now.claims.now.count ≡ length shared.now.fetches.now }
    requires asks { All IsFor (map ask_of shared.now.fetches.now) }
    ensures wrote { ReadyCall S.told writer.old writer.new result }
    ensures window { closed_by (told_of writer.old) ≡ None
        → WindowCall (S.told writer.old.sink) (S.told writer.new.sink) (ready_bytes writer.old.queue) result }
    ensures drew { AllDrew shared.now.claims.now (map ask_of shared.now.fetches.now)
        (map C.told clients.old) (map C.told clients.new)
        (map (λ j. work j.claim j.run.share.parts j.steps.items j.short) jobs.new.items) }
    ensures len { vec_len jobs.new ≡ vec_len jobs.old }
{
    let count = clients.len();
    if beside {
        return draw_beside(shared, count, clients, jobs.as_mut_slice(), writer);
    }
    let wrote = writer.write_ready(shared.alloc);
    draw_from(shared, count, clients, jobs.as_mut_slice());
    wrote
}

/// A lane for each of these connections, beside the writing. All memory is taken before.
fn join_lanes<
    R: Threads + Wait + Sync,
    C: Client + Send,
    G: Gate + Sync,
    L: Ledger + Send + Sync,
    S: Sink,
>(
    rt: &R,
    alloc: Global,
    gate: &G,
    state: &RunState<L>,
    pass: &mut RunPass<L>,
    fetches: &[Fetch],
    clients: &mut [C],
    beside: bool,
    writer: &mut SequentialWriter<S>,
) -> std::result::Result<Joined, OutOfMemory>
    requires clients { (0 < length clients.old) × (length clients.old ≤ most_lanes) }
    requires parts { most_lanes < pass.old.share.parts }
    requires asks { All IsFor (map ask_of fetches.now) }
    ensures call { RoundCall S.told (map ask_of fetches.now)
        (record { clients = map C.told clients.old; writer = writer.old })
        (record { clients = map C.told clients.new; writer = writer.new }) result }
    ensures window { closed_by (told_of writer.old) ≡ None → IfOk result (λ j.
        WindowCall (S.told writer.old.sink) (S.told writer.new.sink) (ready_bytes writer.old.queue) j.wrote) }
    ensures lanes { IfOk result (λ j. length j.ends.items ≡ length clients.old) }
    ensures parts { pass.new.share.parts ≡ pass.old.share.parts }
{
    let count = clients.len();
    let mut ends = Vec::with_capacity(alloc, count)?;
    let (claims, passes) = Claims::new(alloc, fetches.len() as u64, count as u32)?;
    let mut passes = passes.into_inner();
    let mut jobs = jobs_for(alloc, &claims, &mut passes, pass)?;
    let shared = Shared {
        rt,
        alloc,
        gate,
        claims: &claims,
        state,
        fetches,
        room: fetches.len() / count,
    };
    let wrote = draw_and_write(&shared, clients, &mut jobs, beside, writer);
    take_apart(jobs, &mut passes, &mut ends, pass);
    let _drawn = claims.close(List::from_vec(passes));
    Ok(Joined { ends, wrote })
}

/// One join: the lanes of the connections draw these fetches, and the writer writes what is ready. There is a lane for
/// each connection, but no more than fetches and than 65,536; without fetches there is the writing alone.
///
/// `beside` says that the writing is put beside the fetches. Then the lanes run in threads of their own while the
/// caller's thread writes. Else the first lane runs in the caller's thread after the writing, so that one lane starts
/// no thread.
///
/// `OutOfMemory` where an allocation was refused before the join, and then nothing was asked and nothing written. Where
/// memory runs out later, a lane is short or has a failed step that says so, or the writer's answer says so.
///
/// In place of the tasks that `xet-data` spawns, and of its writer's own task.
pub fn fetch_and_write<
    R: Threads + Wait + Sync,
    C: Client + Send,
    G: Gate + Sync,
    L: Ledger + Send + Sync,
    S: Sink,
>(
    rt: &R,
    alloc: Global,
    gate: &G,
    state: &RunState<L>,
    pass: &mut RunPass<L>,
    fetches: &[Fetch],
    clients: &mut [C],
    beside: bool,
    writer: &mut SequentialWriter<S>,
) -> std::result::Result<Joined, OutOfMemory>
    requires parts { most_lanes < pass.old.share.parts }
    requires clients { 0 < length clients.old }
    requires asks { All IsFor (map ask_of fetches.now) }
    ensures call { RoundCall S.told (map ask_of fetches.now)
        (record { clients = map C.told clients.old; writer = writer.old })
        (record { clients = map C.told clients.new; writer = writer.new }) result }
    ensures window { closed_by (told_of writer.old) ≡ None → IfOk result (λ j.
        WindowCall (S.told writer.old.sink) (S.told writer.new.sink) (ready_bytes writer.old.queue) j.wrote) }
    ensures lanes { IfOk result (λ j.
        length j.ends.items ≡ min (min (length clients.old) (length fetches.now)) most_lanes) }
    ensures parts { pass.new.share.parts ≡ pass.old.share.parts }
{
    let lanes = clients.len().min(fetches.len()).min(MOST_LANES);
    if lanes == 0 {
        return Ok(Joined {
            ends: Vec::new(alloc),
            wrote: writer.write_ready(alloc),
        });
    }
    let (used, _) = clients.split_at_mut(lanes);
    join_lanes(rt, alloc, gate, state, pass, fetches, used, beside, writer)
}
