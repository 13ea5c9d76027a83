//! Admits the terms of a run, as its limits allow it.
ghost use Rattle.xet_leader.specs.Admission.{AdmitLeads, AdmitTurn};

use crate::leader::Leader;
use std::sync::Wait;
use xet_blocks::FetchPolicy;
use xet_error::Result;
use xet_parts::admit_terms;
use xet_run::{BudgetSource, EventLog, RunCore};

/// How many terms are admitted at once at most. What a turn holds for them is small then beside their plans, and used
/// again in the next turn.
const AT_ONCE: u64 = 8192;

/// Admits planned terms that wait, 8,192 at most, each under a limit that is asked for it, until none of these waits or
/// the limit refuses one. `OutOfMemory` where memory was refused; the terms that were admitted before stay recorded. A
/// run that goes on goes on after it, or is to stop with that error.
///
/// In place of the semaphore of `file_reconstruction::file_reconstructor` of the Rust crate.
pub fn admit<R: Wait, P: FetchPolicy, B: BudgetSource, E: EventLog>(
    rt: &R,
    leader: &mut Leader<P>,
    core: &mut RunCore<E>,
    source: &mut B,
) -> Result<()>
    ensures turn { AdmitTurn (B.told source.old) (B.told source.new) core.old core.new leader.old leader.new result }
    ensures leads { AdmitLeads (B.told source.old) (B.told source.new) core.old core.new leader.old leader.new result }
{
    admit_waiting(rt, leader, core, source)
}

/// The same, without what it does to a run.
fn admit_waiting<R: Wait, P: FetchPolicy, B: BudgetSource, E: EventLog>(
    rt: &R,
    leader: &mut Leader<P>,
    core: &mut RunCore<E>,
    source: &mut B,
) -> Result<()>
    ensures { AdmitTurn (B.told source.old) (B.told source.new) core.old core.new leader.old leader.new result }
{
    let waiting = leader.planned.saturating_sub(leader.admitted);
    let count = waiting.min(AT_ONCE);
    match admit_terms(rt, core, source, count) {
        Ok(left) => {
            leader.admitted = leader.admitted.saturating_add(count.saturating_sub(left));
            Ok(())
        }
        Err(error) => Err(error),
    }
}
