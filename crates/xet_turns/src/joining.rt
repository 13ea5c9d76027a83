//! What a turn does between its admissions and its settling.
ghost use Rattle.std.specs.Prelude.{◌≡◌, ◌<◌, None, OnErr, length, map};
ghost use Rattle.xet_writers.specs.Calls.{closed_by};
ghost use Rattle.xet_writers.specs.Sequential.{told_of};
ghost use Rattle.xet_ties.specs.Setup.{most_lanes};
ghost use Rattle.xet_turns.specs.JoinedRuns.{CanJoin, JoinLeads, PolledFor, PrepareLeads};
ghost use Rattle.xet_turns.specs.JoinSteps.{JoinTurn, PrepareTurn};
ghost use Rattle.xet_leader.specs.Looks.{IsLedBy};

use crate::round::run_round;
use std::alloc::Global;
use std::sync::Wait;
use std::sync::ledger::Ledger;
use std::thread::Threads;
use xet_base::List;
use xet_blocks::FetchPolicy;
use xet_error::Result;
use xet_lanes::Gate;
use xet_leader::leader::Leader;
use xet_leader::looks::look_up_missing;
use xet_leader::missing_blocks::BlockAt;
use xet_outside::{CancelSignal, ChunkCache, Client, Sink};
use xet_parts::poll;
use xet_run::{EventLog, RunCore, RunPass};
use xet_stages::{Around, Outcome, window};
use xet_writers::SequentialWriter;

/// What a round is to do.
#[derive(Drop)]
pub struct Prepared {
    /// The blocks that are to be fetched.
    pub places: List<BlockAt>,
    /// The lengths in bytes of the terms that the writer holds.
    pub lengths: List<u64>,
}

/// Looks for the blocks that are missing, and asks the signal where some are missing still. Then the writer is given
/// the next terms whose bytes are there, and the missing blocks are fetched while it writes; what came of that is
/// recorded and kept. Afterwards the served blocks are to be offered to the cache, and the stale plans asked for again.
///
/// `Cancelled` where the signal says yes; the error of `window` or of `run_round`, which is the first error of what was
/// joined; `OutOfMemory` where memory was refused. A run that goes on goes on after it, or is to stop with that error.
///
/// In the Rust crate: a step of `file_reconstruction::file_reconstructor::FileReconstructor::run`.
pub fn join<
    R: Threads + Wait + Sync,
    P: FetchPolicy,
    C: Client + Send,
    K: ChunkCache,
    X: CancelSignal,
    G: Gate + Sync,
    L: Ledger + Send + Sync,
    S: Sink,
    E: EventLog,
>(
    around: &Around<R, G, L>,
    leader: &mut Leader<P>,
    core: &mut RunCore<E>,
    pass: &mut RunPass<L>,
    clients: &mut [C],
    cache: &mut K,
    cancel: &mut X,
    writer: &mut SequentialWriter<S>,
    tries: u32,
) -> Result<Outcome>
    requires parts { most_lanes < pass.old.share.parts }
    requires can { CanJoin S.told (map C.told clients.old) (K.told cache.old) (X.told cancel.old) core.old leader.old
        writer.old }
    ensures turn { JoinTurn S.told tries
        (record {
          clients = map C.told clients.old;
          cache = K.told cache.old;
          signal = X.told cancel.old;
          events = core.old;
          led = leader.old;
          writer = writer.old;
        })
        (record {
          clients = map C.told clients.new;
          cache = K.told cache.new;
          signal = X.told cancel.new;
          events = core.new;
          led = leader.new;
          writer = writer.new;
        }) result }
    ensures leads { JoinLeads S.told tries
        (record {
          clients = map C.told clients.old;
          cache = K.told cache.old;
          signal = X.told cancel.old;
          events = core.old;
          led = leader.old;
          writer = writer.old;
        })
        (record {
          clients = map C.told clients.new;
          cache = K.told cache.new;
          signal = X.told cancel.new;
          events = core.new;
          led = leader.new;
          writer = writer.new;
        }) result }
    ensures parts { pass.new.share.parts ≡ pass.old.share.parts }
{
    let prepared = match prepare(around.rt, around.alloc, leader, core, cache, cancel, writer) {
        Ok(prepared) => prepared,
        Err(error) => return Err(error),
    };
    let Prepared { places, lengths } = prepared;
    run_round(
        around,
        leader,
        core,
        pass,
        clients,
        writer,
        places.as_slice(),
        lengths,
        tries,
    )
}

/// Looks for what is missing, and asks the signal where something is missing still. Then the writer is given the next
/// terms.
fn prepare<R: Wait, P: FetchPolicy, K: ChunkCache, X: CancelSignal, S: Sink, E: EventLog>(
    rt: &R,
    alloc: Global,
    leader: &mut Leader<P>,
    core: &mut RunCore<E>,
    cache: &mut K,
    cancel: &mut X,
    writer: &mut SequentialWriter<S>,
) -> Result<Prepared>
    requires { IsLedBy core.old leader.old }
    ensures turn { PrepareTurn (X.told cancel.old) (X.told cancel.new) leader.old leader.new result }
    ensures leads { PrepareLeads S.told
        (record {
          cache = K.told cache.old;
          signal = X.told cancel.old;
          events = core.old;
          led = leader.old;
          writer = writer.old;
        })
        (record {
          cache = K.told cache.new;
          signal = X.told cancel.new;
          events = core.new;
          led = leader.new;
          writer = writer.new;
        }) result }
    ensures sink { OnErr result (closed_by (told_of writer.old) ≡ None → writer.new.sink ≡ writer.old.sink) }
{
    let places = match look_up_missing(rt, alloc, leader, core, cache) {
        Ok(places) => places,
        Err(error) => return Err(error),
    };
    match poll_for(cancel, places.len()) {
        Ok(()) => {}
        Err(error) => return Err(error),
    }
    match window(alloc, leader, writer) {
        Ok(lengths) => Ok(Prepared { places, lengths }),
        Err(error) => Err(error),
    }
}

/// Asks the signal once, where there are fetches.
fn poll_for<X: CancelSignal>(cancel: &mut X, fetches: usize) -> Result<()>
    ensures { PolledFor fetches (X.told cancel.old) (X.told cancel.new) result }
{
    if fetches == 0 {
        return Ok(());
    }
    poll(cancel)
}
