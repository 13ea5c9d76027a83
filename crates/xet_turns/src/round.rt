//! A round: lanes fetch blocks, the writer writes a window beside them or before, and what that came to is taken in.
ghost use Rattle.std.specs.Prelude.{◌≡◌, ◌<◌, length, map};
ghost use Rattle.xet_ties.specs.Setup.{most_lanes};
ghost use Rattle.xet_leader.specs.FetchLists.{Each};
ghost use Rattle.xet_leader.specs.Looks.{CanRequest};
ghost use Rattle.xet_turns.specs.RoundCalls.{CanRound, FetchTurn, RoundLeads, RoundTurn};

use crate::reporting::report;
use std::sync::Wait;
use std::sync::ledger::Ledger;
use std::thread::Threads;
use xet_base::List;
use xet_blocks::FetchPolicy;
use xet_error::{FileReconstructionError, Result};
use xet_lanes::{Gate, Joined, fetch_and_write};
use xet_leader::fetching::{count_fetches, fetches};
use xet_leader::leader::Leader;
use xet_leader::missing_blocks::BlockAt;
use xet_outside::{Client, Sink};
use xet_run::{EventLog, RunCore, RunPass};
use xet_stages::{Around, Outcome, record_blocks, take_outcome};
use xet_writers::SequentialWriter;

/// Fetches these blocks by the connections, each with a lane of its own, while the writer writes what it holds: the
/// next terms, of these lengths in bytes. Where the gate is open and there is one connection alone, which answers at
/// once, they are written before. Then all that came of it is recorded, the served blocks keep their data, the expired
/// ones are counted, and the written terms go.
///
/// The error of the join, where it has one: want of memory first, then the writer's, then that of the lowest lane. Else
/// `UrlExpired` where the tries of a block are used up. `OutOfMemory` where memory was refused. A run that goes on goes
/// on after it, or is to stop with that error.
///
/// In place of the tasks that the Rust crate spawns for a file's blocks and for its writer.
pub fn run_round<
    R: Threads + Wait + Sync,
    P: FetchPolicy,
    C: Client + Send,
    G: Gate + Sync,
    L: Ledger + Send + Sync,
    S: Sink,
    E: EventLog,
>(
    around: &Around<R, G, L>,
    leader: &mut Leader<P>,
    core: &mut RunCore<E>,
    pass: &mut RunPass<L>,
    clients: &mut [C],
    writer: &mut SequentialWriter<S>,
    places: &[BlockAt],
    lengths: List<u64>,
    tries: u32,
) -> Result<Outcome>
    requires parts { most_lanes < pass.old.share.parts }
    requires can { CanRound S.told (map C.told clients.old) core.old leader.old places.now lengths writer.old }
    ensures turn { RoundTurn S.told tries places.now lengths
        (record { clients = map C.told clients.old; writer = writer.old })
        (record { clients = map C.told clients.new; writer = writer.new }) core.old core.new leader.old leader.new
        result }
    ensures leads { RoundLeads S.told tries places.now lengths
        (record { clients = map C.told clients.old; writer = writer.old })
        (record { clients = map C.told clients.new; writer = writer.new }) core.old core.new leader.old leader.new
        result }
    ensures parts { pass.new.share.parts ≡ pass.old.share.parts }
{
    let beside = writes_beside(around.gate, lengths.as_slice(), clients);
    let joined = match fetch_blocks(around, leader, pass, clients, writer, places, beside) {
        Ok(joined) => joined,
        Err(error) => return Err(error),
    };
    report(around.rt, leader, &joined, lengths.as_slice());
    count_fetches(leader, places.len());
    take_outcome(around.alloc, leader, core, joined, lengths, tries)
}

/// Whether terms of these lengths are written beside fetches through this gate by these connections: not where there is
/// nothing to write, nor where the gate is open and there is one connection alone, which answers at once.
fn writes_beside<G: Gate, C: Client>(gate: &G, lengths: &[u64], clients: &[C]) -> bool {
    total(lengths) != 0 && (!gate.is_open() || clients.len() != 1 || clients[0].waits())
}

/// The sum of these lengths, which stops at `u64::MAX`.
fn total(lengths: &[u64]) -> u64 {
    let mut sum = 0u64;
    for length in lengths {
        sum = sum.saturating_add(*length);
    }
    sum
}

/// Fetches these blocks by the connections, and the writer writes what it holds: beside the fetches, or before them.
fn fetch_blocks<
    R: Threads + Wait + Sync,
    P: FetchPolicy,
    C: Client + Send,
    G: Gate + Sync,
    L: Ledger + Send + Sync,
    S: Sink,
>(
    around: &Around<R, G, L>,
    leader: &Leader<P>,
    pass: &mut RunPass<L>,
    clients: &mut [C],
    writer: &mut SequentialWriter<S>,
    places: &[BlockAt],
    beside: bool,
) -> Result<Joined>
    requires parts { most_lanes < pass.old.share.parts }
    requires some { 0 < length clients.old }
    requires requests { Each (CanRequest leader.now.plans) places.now }
    ensures turn { FetchTurn S.told leader.now places.now
        (record { clients = map C.told clients.old; writer = writer.old })
        (record { clients = map C.told clients.new; writer = writer.new }) result }
    ensures parts { pass.new.share.parts ≡ pass.old.share.parts }
{
    match record_blocks(around.rt, around.state, pass, places.len()) {
        Ok(()) => {}
        Err(error) => return Err(error),
    }
    let made = match fetches(around.alloc, leader, places) {
        Ok(made) => made,
        Err(error) => return Err(error),
    };
    match fetch_and_write(
        around.rt,
        around.alloc,
        around.gate,
        around.state,
        pass,
        made.as_slice(),
        clients,
        beside,
        writer,
    ) {
        Ok(joined) => Ok(joined),
        Err(error) => Err(FileReconstructionError::from(error)),
    }
}
