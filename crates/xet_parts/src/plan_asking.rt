//! Asks for the plan of a query.
ghost use Rattle.std.specs.Prelude.{◌≡◌, ◌<◌, List, Option, Some, is_some, map, not, slice_get};
ghost use Rattle.xet_events.specs.Allowed.{IsAllowed};
ghost use Rattle.xet_history.specs.TrueHistory.{planned_term};
ghost use Rattle.xet_terms.specs.Managers.{PassesKnownEnd, waiting_after};
ghost use Rattle.xet_ties.specs.Saids.{planned_of};
ghost use Rattle.xet_ties.specs.PartCalls.{blocks_of_answer, plan_event, terms_in};
ghost use Rattle.xet_parts.specs.PlanAsks.{AskPlanCall, PlansAllowed, TakenCall};

use crate::answered_plan::AnsweredPlan;
use crate::event_calls::add_planned;
use std::alloc::Global;
use std::sync::Wait;
use xet_base::MerkleHash;
use xet_blocks::{FetchPolicy, TermBlock, retrieve_file_term_block};
use xet_error::Result;
use xet_outside::Client;
use xet_run::{EventLog, RunCore};
use xet_terms::{PlanDue, ReconstructionTermManager};

/// Asks a connection once for the plan of the query that counts as asked and has no answer, gives the answer to the
/// manager, and records it under the next number.
///
/// The error of `retrieve_file_term_block`, or of the manager where terms come past the known end, or `OutOfMemory`
/// where memory was refused. Nothing is recorded then. The manager may have taken the answer where recording it found
/// no memory.
///
/// In the Rust crate: a step of `ReconstructionTermManager::next_file_terms`.
pub fn ask_plan<R: Wait, P: FetchPolicy, C: Client, E: EventLog>(
    rt: &R,
    alloc: Global,
    manager: &mut ReconstructionTermManager<P>,
    core: &mut RunCore<E>,
    client: &mut C,
    due: PlanDue,
    file: MerkleHash,
    multirange: bool,
) -> Result<()>
    requires asked { manager.old.answered < manager.old.asked }
    requires oldest { slice_get manager.old.queries manager.old.answered ≡ Some due.query }
    requires allowed { PlansAllowed manager.old core.old
        (record { file = file; range = due.query; multirange = multirange; id = due.id }) }
    ensures { AskPlanCall manager.old manager.new (C.told client.old) (C.told client.new) core.old core.new
        (record { file = file; range = due.query; multirange = multirange; id = due.id }) result }
{
    match retrieve_file_term_block(alloc, client, file, due.query, multirange, due.id) {
        Ok(answer) => take_answer(rt, alloc, manager, core, due, answer),
        Err(error) => Err(error),
    }
}

/// Takes the answer to a query that counts as asked, and records its plan.
fn take_answer<R: Wait, P: FetchPolicy, E: EventLog>(
    rt: &R,
    alloc: Global,
    manager: &mut ReconstructionTermManager<P>,
    core: &mut RunCore<E>,
    due: PlanDue,
    answer: Option<TermBlock>,
) -> Result<()>
    requires asked { manager.old.answered < manager.old.asked }
    requires oldest { slice_get manager.old.queries manager.old.answered ≡ Some due.query }
    requires allowed { (PassesKnownEnd manager.old due.query answer → ⊥)
        → IsAllowed core.old (plan_event core.old due.query answer) }
    ensures { TakenCall manager.old manager.new core.old core.new due.query answer result }
{
    let past_end = answer.is_none();
    match manager.accept(rt, due, answer) {
        Ok(()) => add_planned(alloc, core, due.query, &taken_plan(manager, past_end)),
        Err(error) => Err(error),
    }
}

/// The plan that the manager took last; none where the answer was past the end.
fn taken_plan<P: FetchPolicy>(
    manager: &ReconstructionTermManager<P>,
    past_end: bool,
) -> AnsweredPlan<'_>
    ensures { (before : List TermBlock) (answer : Option TermBlock) → is_some answer ≡ not past_end
        → manager.now.waiting ≡ waiting_after before answer
        → (map planned_term result.terms.now ≡ terms_in answer)
        × (map planned_of result.blocks.now ≡ blocks_of_answer answer) }
{
    if past_end {
        return AnsweredPlan::past_end();
    }
    match manager.newest() {
        Some(newest) => AnsweredPlan::of(newest),
        None => AnsweredPlan::past_end(),
    }
}
