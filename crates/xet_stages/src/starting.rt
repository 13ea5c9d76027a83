//! Starts a turn: asks for the plan that is due, and admits terms.
ghost use Rattle.std.specs.Prelude.{◌≡◌, ◌<◌, ◌≤◌, ◌^◌, List, length, map};
ghost use Rattle.xet_events.specs.Allowed.{IsRunning};
ghost use Rattle.xet_outside.specs.Told.{ClientTold, SignalTold};
ghost use Rattle.xet_leader.specs.Led.{IsLedManager, setup_of_job};
ghost use Rattle.xet_stages.specs.TurnStarts.{StartLeads, all_done};

use crate::accounts::record_terms;
use crate::lending::Around;
use std::alloc::Global;
use std::sync::Wait;
use std::sync::ledger::Ledger;
use xet_blocks::FetchPolicy;
use xet_error::Result;
use xet_leader::admission::admit;
use xet_leader::asking::ask;
use xet_leader::leader::{Job, Leader};
use xet_outside::{CancelSignal, Client};
use xet_run::{BudgetSource, EventLog, RunCore, RunPass};

/// Asks and admits, and then records in the run's state each term that was admitted. True where the run is finished.
///
/// The error of `ask` or of `admit`; `OutOfMemory` where memory to record was refused. A run that goes on goes on after
/// it, or is to stop with that error.
pub fn start<
    R: Wait,
    G,
    L: Ledger,
    P: FetchPolicy,
    C: Client,
    X: CancelSignal,
    B: BudgetSource,
    E: EventLog,
>(
    around: &Around<R, G, L>,
    leader: &mut Leader<P>,
    core: &mut RunCore<E>,
    pass: &mut RunPass<L>,
    clients: &mut [C],
    cancel: &mut X,
    source: &mut B,
    job: Job,
) -> Result<bool>
    requires some { 0 < length clients.old }
    requires runs { IsRunning core.old }
    requires led { IsLedManager (setup_of_job job) core.old leader.old.manager }
    ensures leads { StartLeads job (map C.told clients.old) (map C.told clients.new) (X.told cancel.old)
        (X.told cancel.new) (B.told source.old) (B.told source.new) core.old core.new leader.old leader.new result }
    ensures parts { pass.new.share.parts ≡ pass.old.share.parts }
{
    let admitted = leader.admitted;
    let all = match ask_and_admit(
        around.rt,
        around.alloc,
        leader,
        core,
        clients,
        cancel,
        source,
        job,
    ) {
        Ok(all) => all,
        Err(error) => return Err(error),
    };
    match record_terms(around.rt, around.state, pass, leader, admitted) {
        Ok(()) => Ok(all),
        Err(error) => Err(error),
    }
}

/// Asks for the plan that is due, unless planned terms wait that aren't admitted, and then admits terms that wait. True
/// where none was due and all planned terms are written, so that the run is finished.
fn ask_and_admit<R: Wait, P: FetchPolicy, C: Client, X: CancelSignal, B: BudgetSource, E: EventLog>(
    rt: &R,
    alloc: Global,
    leader: &mut Leader<P>,
    core: &mut RunCore<E>,
    clients: &mut [C],
    cancel: &mut X,
    source: &mut B,
    job: Job,
) -> Result<bool>
    requires some { 0 < length clients.old }
    requires runs { IsRunning core.old }
    requires led { IsLedManager (setup_of_job job) core.old leader.old.manager }
    ensures { StartLeads job (map C.told clients.old) (map C.told clients.new) (X.told cancel.old) (X.told cancel.new)
        (B.told source.old) (B.told source.new) core.old core.new leader.old leader.new result }
{
    if leader.admitted < leader.planned {
        return admit_more(rt, leader, core, source, &job);
    }
    ask_then_admit(rt, alloc, leader, core, clients, cancel, source, job)
}

/// Admits more of the planned terms that wait. Never true: some of them are left, or are to be written.
fn admit_more<R: Wait, P: FetchPolicy, B: BudgetSource, E: EventLog>(
    rt: &R,
    leader: &mut Leader<P>,
    core: &mut RunCore<E>,
    source: &mut B,
    job: &Job,
) -> Result<bool>
    requires { leader.old.admitted < leader.old.planned }
    ensures { (cs : List ClientTold) → (x : SignalTold) → StartLeads job.now cs cs x x (B.told source.old)
        (B.told source.new) core.old core.new leader.old leader.new result }
{
    check_tries(job);
    match admit(rt, leader, core, source) {
        Ok(_) => Ok(false),
        Err(error) => Err(error),
    }
}

/// Asks for the plan that is due, where no planned term waits, and then admits terms that wait. True where none was due
/// and all planned terms are written.
fn ask_then_admit<
    R: Wait,
    P: FetchPolicy,
    C: Client,
    X: CancelSignal,
    B: BudgetSource,
    E: EventLog,
>(
    rt: &R,
    alloc: Global,
    leader: &mut Leader<P>,
    core: &mut RunCore<E>,
    clients: &mut [C],
    cancel: &mut X,
    source: &mut B,
    job: Job,
) -> Result<bool>
    requires some { 0 < length clients.old }
    requires past { leader.old.planned ≤ leader.old.admitted }
    requires runs { IsRunning core.old }
    requires led { IsLedManager (setup_of_job job) core.old leader.old.manager }
    ensures { StartLeads job (map C.told clients.old) (map C.told clients.new) (X.told cancel.old) (X.told cancel.new)
        (B.told source.old) (B.told source.new) core.old core.new leader.old leader.new result }
{
    check_tries(&job);
    let asked = match ask(rt, alloc, leader, core, clients, cancel, job) {
        Ok(asked) => asked,
        Err(error) => return Err(error),
    };
    match admit(rt, leader, core, source) {
        Ok(()) => Ok(is_finished(leader, asked)),
        Err(error) => Err(error),
    }
}

/// The tries of a job fit their type.
fn check_tries(job: &Job)
    ensures { job.now.config.tries < 2 ^ 32 }
{
    let _tries = job.config.tries;
}

/// Whether nothing was asked, and all planned terms are written.
fn is_finished<P: FetchPolicy>(leader: &Leader<P>, asked: bool) -> bool
    ensures { result ≡ all_done asked leader.now }
{
    !asked && leader.finished == leader.planned
}
