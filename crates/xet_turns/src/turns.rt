//! Takes turns, until all is written.
ghost use Rattle.std.specs.Prelude.{◌≡◌, ◌<◌, length, map};
ghost use Rattle.xet_events.specs.Allowed.{IsRunning};
ghost use Rattle.xet_ties.specs.Setup.{most_lanes, told_of};
ghost use Rattle.xet_leader.specs.Led.{AreStale, setup_of_job};
ghost use Rattle.xet_turns.specs.Turns.{IsSteadyRun, LeadRun, TurnCall};
ghost use Rattle.xet_turns.specs.Works.{CanWork, FirstSettled, WorkLeads};

use crate::joining::join;
use std::alloc::Global;
use std::sync::Wait;
use std::sync::ledger::Ledger;
use std::thread::Threads;
use xet_blocks::FetchPolicy;
use xet_error::Result;
use xet_lanes::Gate;
use xet_leader::leader::{Job, Leader};
use xet_leader::settling::settle;
use xet_outside::{CancelSignal, ChunkCache, Client, Sink};
use xet_run::{BudgetSource, EventLog, RunCore, RunPass};
use xet_stages::{Around, Outcome, start};
use xet_writers::SequentialWriter;

/// Takes turns until all is written: asks for plans, admits terms, joins lanes that fetch blocks with the writing, and
/// settles what a join left.
///
/// The error of the first part of a turn that failed, which isn't recorded yet. A steady run is steady after it, with
/// all of it finished, or is to stop with that error. There is a last turn: each other one leaves less of the run.
///
/// In place of the tasks of `FileReconstructor::run` in `file_reconstruction::file_reconstructor` of the Rust crate.
pub fn lead<
    R: Threads + Wait + Sync,
    G: Gate + Sync,
    L: Ledger + Send + Sync,
    P: FetchPolicy,
    C: Client + Send,
    K: ChunkCache,
    X: CancelSignal,
    S: Sink,
    B: BudgetSource,
    E: EventLog,
>(
    around: &Around<R, G, L>,
    pass: &mut RunPass<L>,
    job: Job,
    leader: &mut Leader<P>,
    core: &mut RunCore<E>,
    budget: &mut B,
    clients: &mut [C],
    cache: &mut K,
    cancel: &mut X,
    writer: &mut SequentialWriter<S>,
) -> Result<()>
    requires parts { most_lanes < pass.old.share.parts }
    requires some { 0 < length clients.old }
    requires steady { IsSteadyRun S.told (setup_of_job job)
        (record {
          told = told_of C.told K.told X.told S.told B.told clients.old cache.old cancel.old writer.old.sink budget.old;
          events = core.old;
        })
        leader.old writer.old }
    ensures run { LeadRun S.told (setup_of_job job)
        (record {
          told = told_of C.told K.told X.told S.told B.told clients.old cache.old cancel.old writer.old.sink budget.old;
          events = core.old;
        })
        (record {
          told = told_of C.told K.told X.told S.told B.told clients.new cache.new cancel.new writer.new.sink budget.new;
          events = core.new;
        })
        leader.old leader.new writer.old writer.new result }
    ensures parts { pass.new.share.parts ≡ pass.old.share.parts }
{
    'lead: loop {
        match turn(
            around, pass, job, leader, core, budget, clients, cache, cancel, writer,
        ) {
            Ok(true) => return Ok(()),
            Ok(false) => {}
            Err(error) => return Err(error),
        }
    }
}

/// One turn. True where nothing was left to be asked, and all planned terms are written; then nothing else was done.
///
/// The error of the part that failed: of `ask`, `admit`, `join` or `settle`.
pub fn turn<
    R: Threads + Wait + Sync,
    G: Gate + Sync,
    L: Ledger + Send + Sync,
    P: FetchPolicy,
    C: Client + Send,
    K: ChunkCache,
    X: CancelSignal,
    S: Sink,
    B: BudgetSource,
    E: EventLog,
>(
    around: &Around<R, G, L>,
    pass: &mut RunPass<L>,
    job: Job,
    leader: &mut Leader<P>,
    core: &mut RunCore<E>,
    budget: &mut B,
    clients: &mut [C],
    cache: &mut K,
    cancel: &mut X,
    writer: &mut SequentialWriter<S>,
) -> Result<bool>
    requires parts { most_lanes < pass.old.share.parts }
    requires some { 0 < length clients.old }
    requires steady { IsSteadyRun S.told (setup_of_job job)
        (record {
          told = told_of C.told K.told X.told S.told B.told clients.old cache.old cancel.old writer.old.sink budget.old;
          events = core.old;
        })
        leader.old writer.old }
    ensures call { TurnCall S.told (setup_of_job job)
        (record {
          told = told_of C.told K.told X.told S.told B.told clients.old cache.old cancel.old writer.old.sink budget.old;
          events = core.old;
        })
        (record {
          told = told_of C.told K.told X.told S.told B.told clients.new cache.new cancel.new writer.new.sink budget.new;
          events = core.new;
        })
        leader.old leader.new writer.old writer.new result }
    ensures parts { pass.new.share.parts ≡ pass.old.share.parts }
{
    match start(around, leader, core, pass, clients, cancel, budget, job) {
        Ok(true) => return Ok(true),
        Ok(false) => {}
        Err(error) => return Err(error),
    }
    match join_and_settle(
        around, leader, core, pass, clients, cache, cancel, writer, job,
    ) {
        Ok(()) => Ok(false),
        Err(error) => Err(error),
    }
}

/// Joins the lanes, and settles what they left.
fn join_and_settle<
    R: Threads + Wait + Sync,
    P: FetchPolicy,
    C: Client + Send,
    K: ChunkCache,
    X: CancelSignal,
    G: Gate + Sync,
    L: Ledger + Send + Sync,
    S: Sink,
    E: EventLog,
>(
    around: &Around<R, G, L>,
    leader: &mut Leader<P>,
    core: &mut RunCore<E>,
    pass: &mut RunPass<L>,
    clients: &mut [C],
    cache: &mut K,
    cancel: &mut X,
    writer: &mut SequentialWriter<S>,
    job: Job,
) -> Result<()>
    requires parts { most_lanes < pass.old.share.parts }
    requires some { 0 < length clients.old }
    requires can { CanWork S.told (setup_of_job job)
        (record {
          clients = map C.told clients.old;
          cache = K.told cache.old;
          signal = X.told cancel.old;
          events = core.old;
          led = leader.old;
          writer = writer.old;
        }) }
    ensures leads { WorkLeads S.told (setup_of_job job)
        (record {
          clients = map C.told clients.old;
          cache = K.told cache.old;
          signal = X.told cancel.old;
          events = core.old;
          led = leader.old;
          writer = writer.old;
        })
        (record {
          clients = map C.told clients.new;
          cache = K.told cache.new;
          signal = X.told cancel.new;
          events = core.new;
          led = leader.new;
          writer = writer.new;
        })
        result }
    ensures parts { pass.new.share.parts ≡ pass.old.share.parts }
{
    let outcome = match join(
        around,
        leader,
        core,
        pass,
        clients,
        cache,
        cancel,
        writer,
        job.config.tries,
    ) {
        Ok(outcome) => outcome,
        Err(error) => return Err(error),
    };
    let multirange = job.config.enable_multirange_fetching;
    settle_outcome(
        around.alloc,
        leader,
        core,
        clients,
        cache,
        &outcome,
        multirange,
    )
}

/// Offers to the cache the blocks that a join was served, and then asks the first connection for the URLs of its stale
/// plans again.
///
/// The error of `settle`.
fn settle_outcome<P: FetchPolicy, C: Client, K: ChunkCache, E: EventLog>(
    alloc: Global,
    leader: &mut Leader<P>,
    core: &mut RunCore<E>,
    clients: &mut [C],
    cache: &mut K,
    outcome: &Outcome,
    multirange: bool,
) -> Result<()>
    requires some { 0 < length clients.old }
    requires running { IsRunning core.old }
    requires stale { AreStale core.old outcome.now.stale.items }
    ensures { FirstSettled multirange outcome.now (map C.told clients.old) (map C.told clients.new) (K.told cache.old)
        (K.told cache.new) core.old core.new leader.old leader.new result }
{
    let served = outcome.served.as_slice();
    let stale = outcome.stale.as_slice();
    settle(
        alloc,
        leader,
        core,
        &mut clients[0],
        cache,
        served,
        stale,
        multirange,
    )
}
