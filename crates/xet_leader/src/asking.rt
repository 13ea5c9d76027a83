//! Asks for the plan that is due.
ghost use Rattle.std.specs.Prelude.{◌≡◌, ◌<◌, false, IfErr, IfOk, OnOk, Some, length, map, slice_get};
ghost use Rattle.xet_events.specs.Allowed.{IsRunning};
ghost use Rattle.xet_ties.specs.PartCalls.{plan_query};
ghost use Rattle.xet_parts.specs.PlanAsks.{PlansAllowed};
ghost use Rattle.xet_terms.specs.Managers.{IsCovered};
ghost use Rattle.xet_leader.specs.Asking.{AskLeads, AskTurn, FirstAsked, HandsOn};
ghost use Rattle.xet_leader.specs.Led.{IsLedManager, setup_of_job};

use crate::leader::{Job, Leader, LedPlan, check_manager};
use std::alloc::Global;
use std::sync::Wait;
use xet_base::{List, OutOfMemory};
use xet_blocks::{FetchPolicy, XorbBlock};
use xet_error::{FileReconstructionError, Result};
use xet_outside::{CancelSignal, Client};
use xet_parts::{ask_plan, next_due};
use xet_run::{EventLog, RunCore};
use xet_terms::PlanDue;

/// Looks ahead, and asks the first connection for the plan of the query that is due, where one is. The plan is
/// recorded, and joins the leader's plans. True where one was due; else the whole range below the known end was asked
/// for.
///
/// The error of `next_due` or of `ask_plan`, or `OutOfMemory` where the plan's terms or tries found no room. A run that
/// goes on goes on after it, or is to stop with that error.
///
/// In the Rust crate: a step of `ReconstructionTermManager::next_file_terms`.
pub fn ask<R: Wait, P: FetchPolicy, C: Client, X: CancelSignal, E: EventLog>(
    rt: &R,
    alloc: Global,
    leader: &mut Leader<P>,
    core: &mut RunCore<E>,
    clients: &mut [C],
    cancel: &mut X,
    job: Job,
) -> Result<bool>
    requires some { 0 < length clients.old }
    requires runs { IsRunning core.old }
    requires led { IsLedManager (setup_of_job job) core.old leader.old.manager }
    ensures turn { AskTurn job (map C.told clients.old) (map C.told clients.new) (X.told cancel.old) (X.told cancel.new)
        core.old core.new leader.old leader.new result }
    ensures leads { AskLeads job (map C.told clients.old) (map C.told clients.new) (X.told cancel.old)
        (X.told cancel.new) core.old core.new leader.old leader.new result }
    ensures covered { IfOk result (λ asked. asked ≡ false → IsCovered leader.new.manager) }
{
    core.check_history();
    ask_due(rt, alloc, leader, core, clients, cancel, job)
}

/// The same as `ask`, without what it does to a run.
fn ask_due<R: Wait, P: FetchPolicy, C: Client, X: CancelSignal, E: EventLog>(
    rt: &R,
    alloc: Global,
    leader: &mut Leader<P>,
    core: &mut RunCore<E>,
    clients: &mut [C],
    cancel: &mut X,
    job: Job,
) -> Result<bool>
    requires some { 0 < length clients.old }
    requires runs { IsRunning core.old }
    requires led { IsLedManager (setup_of_job job) core.old leader.old.manager }
    ensures { AskTurn job (map C.told clients.old) (map C.told clients.new) (X.told cancel.old) (X.told cancel.new)
        core.old core.new leader.old leader.new result }
{
    let due = match next_due(&mut leader.manager, cancel) {
        Ok(Some(due)) => due,
        Ok(None) => return Ok(false),
        Err(error) => return Err(error),
    };
    match ask_first(rt, alloc, leader, core, clients, due, job) {
        Ok(()) => {}
        Err(error) => return Err(error),
    }
    match hand_on(alloc, leader, due.id.plan) {
        Ok(()) => Ok(true),
        Err(error) => Err(error),
    }
}

/// Asks the first connection for the plan of a query that is due, and records it.
fn ask_first<R: Wait, P: FetchPolicy, C: Client, E: EventLog>(
    rt: &R,
    alloc: Global,
    leader: &mut Leader<P>,
    core: &mut RunCore<E>,
    clients: &mut [C],
    due: PlanDue,
    job: Job,
) -> Result<()>
    requires some { 0 < length clients.old }
    requires asked { leader.old.manager.answered < leader.old.manager.asked }
    requires oldest { slice_get leader.old.manager.queries leader.old.manager.answered ≡ Some due.query }
    requires allowed { PlansAllowed leader.old.manager core.old (plan_query (setup_of_job job) due.query due.id) }
    ensures asked { FirstAsked job (map C.told clients.old) (map C.told clients.new) core.old core.new
        leader.old.manager leader.new.manager due result }
    ensures rest { leader.new ≡ record leader.old { manager = leader.new.manager } }
{
    let multirange = job.config.enable_multirange_fetching;
    let asked = ask_plan(
        rt,
        alloc,
        &mut leader.manager,
        core,
        &mut clients[0],
        due,
        job.file_hash,
        multirange,
    );
    check_manager(&leader.manager);
    asked
}

/// Hands out the oldest plan that waits, which joins the leader's plans under this number; nothing where none waits.
/// `OutOfMemory` where memory was refused, or the number of planned terms doesn't fit.
fn hand_on<P: FetchPolicy>(alloc: Global, leader: &mut Leader<P>, number: u64) -> Result<()>
    ensures handed { OnOk result (HandsOn number leader.old leader.new leader.old.manager.waiting) }
    ensures memory { IfErr result (λ e. e ≡ FileReconstructionError.OutOfMemory) }
{
    let Some(block) = leader.manager.hand_out() else {
        return Ok(());
    };
    let first = leader.planned;
    let Some(planned) = first.checked_add(block.terms.len() as u64) else {
        return Err(FileReconstructionError::OutOfMemory);
    };
    let tries = match no_tries(alloc, block.blocks.as_slice()) {
        Ok(tries) => tries,
        Err(_) => return Err(FileReconstructionError::OutOfMemory),
    };
    let plan = LedPlan {
        number,
        first,
        block,
        tries,
    };
    match leader.plans.push_back(plan) {
        Ok(()) => {}
        Err(_) => return Err(FileReconstructionError::OutOfMemory),
    }
    leader.planned = planned;
    Ok(())
}

/// No tries for each of these blocks.
fn no_tries(alloc: Global, blocks: &[XorbBlock]) -> std::result::Result<Vec<u32>, OutOfMemory>
    ensures { IfOk result (λ v. v.items ≡ map (λ _. 0) blocks.now) }
{
    let mut tries = List::with_hint(alloc, blocks.len()).into_inner();
    for _block in blocks {
        tries.push(0)?;
    }
    Ok(tries)
}
