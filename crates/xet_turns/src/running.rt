//! A run.
ghost use Rattle.std.specs.Prelude.{◌≡◌, ◌<◌, ◌^◌, [], None, map};
ghost use Rattle.xet_ties.specs.Causes.{refused_setting};
ghost use Rattle.xet_ties.specs.RunCalls.{RunCall};
ghost use Rattle.xet_ties.specs.Setup.{told_of};
ghost use Rattle.xet_turns.specs.Ending.{RunEnds};
ghost use Rattle.xet_leader.specs.Led.{setup_of_job};
ghost use Rattle.xet_turns.specs.LoopRuns.{IsFresh};

use crate::empty::run_empty;
use crate::ending::end_run;
use crate::turns::lead;
use std::alloc::Global;
use std::marker::Brand;
use std::sync::Wait;
use std::sync::ledger::{Blank, Ledger};
use std::thread::Threads;
use xet_blocks::FetchPolicy;
use xet_error::{FileReconstructionError, Result};
use xet_lanes::Gate;
use xet_leader::leader::{Job, Leader};
use xet_outside::{CancelSignal, ChunkCache, Client, Sink};
use xet_progress::ItemProgressUpdater;
use xet_run::{BudgetSource, EventLog, RunCore, RunState};
use xet_stages::Around;
use xet_writers::SequentialWriter;

/// What a run is asked for.
#[derive(Drop)]
pub struct Order<P: FetchPolicy> {
    /// The file, its bytes, and the settings.
    pub job: Job,
    /// Says how much is planned ahead.
    pub policy: P,
    /// Where it reports what is planned, transferred and written.
    pub progress: Option<ItemProgressUpdater>,
}

/// The run over a writer that took nothing yet.
fn run_with<
    R: Threads + Wait + Sync,
    G: Gate + Sync,
    L: Ledger + Send + Sync,
    P: FetchPolicy + Drop,
    C: Client + Send,
    K: ChunkCache,
    X: CancelSignal,
    S: Sink,
    B: BudgetSource,
    E: EventLog,
>(
    rt: &R,
    alloc: Global,
    gate: &G,
    blank: Blank,
    order: Order<P>,
    core: &mut RunCore<E>,
    budget: &mut B,
    clients: &mut [C],
    cache: &mut K,
    cancel: &mut X,
    writer: &mut SequentialWriter<S>,
) -> Result<u64>
    requires vectored { writer.old.vectored ≡ order.job.config.use_vectored_write }
    requires name { blank.name ≡ L.name }
    requires parts { (blank.parts ≡ L.parts) × (L.parts ≡ 2 ^ 32) }
    requires none { core.old ≡ [] }
    requires settings { refused_setting (setup_of_job order.job) (map C.told clients.old) ≡ None }
    requires some { order.job.byte_range.start < order.job.byte_range.end }
    requires fresh { IsFresh writer.old }
    ensures { RunEnds (setup_of_job order.job)
        (told_of C.told K.told X.told S.told B.told clients.old cache.old cancel.old writer.old.sink budget.old)
        (record {
          told = told_of C.told K.told X.told S.told B.told clients.new cache.new cancel.new
              writer.new.sink budget.new;
          events = core.new;
        }) result }
{
    let Order {
        job,
        policy,
        progress,
    } = order;
    match Leader::new(alloc, &job, policy, progress) {
        Ok(mut leader) => {
            let Ok((state, mut pass)) = RunState::<L>::new(alloc, blank, job.file_hash) else {
                unreachable!()
            };
            let around = Around {
                rt,
                alloc,
                gate,
                state: &state,
            };
            let led = lead(
                &around,
                &mut pass,
                job,
                &mut leader,
                core,
                budget,
                clients,
                cache,
                cancel,
                writer,
            );
            end_run(alloc, core, writer, led)
        }
        Err(error) => end_run(alloc, core, writer, Err(error)),
    }
}

/// The run over a sink that it is lent, where all settings can be met and the range has bytes, under a ledger of its
/// own.
fn run_some<
    R: Threads + Wait + Sync,
    G: Gate + Sync,
    P: FetchPolicy + Drop,
    C: Client + Send,
    K: ChunkCache,
    X: CancelSignal,
    S: Sink,
    B: BudgetSource,
    E: EventLog,
>(
    rt: &R,
    alloc: Global,
    gate: &G,
    order: Order<P>,
    core: &mut RunCore<E>,
    budget: &mut B,
    clients: &mut [C],
    cache: &mut K,
    cancel: &mut X,
    writer: &mut S,
) -> Result<u64>
    requires none { core.old ≡ [] }
    requires settings { refused_setting (setup_of_job order.job) (map C.told clients.old) ≡ None }
    requires some { order.job.byte_range.start < order.job.byte_range.end }
    ensures { RunEnds (setup_of_job order.job)
        (told_of C.told K.told X.told S.told B.told clients.old cache.old cancel.old writer.old budget.old)
        (record {
          told = told_of C.told K.told X.told S.told B.told clients.new cache.new cancel.new writer.new
              budget.new;
          events = core.new;
        }) result }
{
    let blank = Blank::new(1 << 32);
    let mut own = SequentialWriter::new(alloc, writer, order.job.config.use_vectored_write);
    let answer = run_with::<R, G, Brand, P, C, K, X, &mut S, B, E>(
        rt, alloc, gate, blank, order, core, budget, clients, cache, cancel, &mut own,
    );
    let _sink = own.into_inner();
    answer
}

/// A run: the bytes of a range of a file go to the sink, in order, and are flushed. Answers how many they are.
///
/// `ConfigurationError` with the setting that fails first, before all else. Over an empty range the sink is flushed
/// alone. Each other error has its cause, is recorded, and ends the run; `OutOfMemory` where memory was refused.
///
/// In the Rust crate: `FileReconstructor::run` in `file_reconstruction::file_reconstructor`.
pub fn run<
    R: Threads + Wait + Sync,
    G: Gate + Sync,
    P: FetchPolicy + Drop,
    C: Client + Send,
    K: ChunkCache,
    X: CancelSignal,
    S: Sink,
    B: BudgetSource,
    E: EventLog,
>(
    rt: &R,
    alloc: Global,
    gate: &G,
    order: Order<P>,
    core: &mut RunCore<E>,
    budget: &mut B,
    clients: &mut [C],
    cache: &mut K,
    cancel: &mut X,
    writer: &mut S,
) -> Result<u64>
    requires { core.old ≡ [] }
    ensures { RunCall (setup_of_job order.job)
        (told_of C.told K.told X.told S.told B.told clients.old cache.old cancel.old writer.old budget.old)
        (told_of C.told K.told X.told S.told B.told clients.new cache.new cancel.new writer.new budget.new)
        core.new result }
{
    match order.job.config.failing_setting(clients.len()) {
        None => {}
        Some(setting) => return Err(FileReconstructionError::ConfigurationError(setting)),
    }
    if order.job.byte_range.end <= order.job.byte_range.start {
        return run_empty(core, writer);
    }
    run_some(
        rt, alloc, gate, order, core, budget, clients, cache, cancel, writer,
    )
}
