//! The query that is due.
ghost use Rattle.xet_parts.specs.DueQueries.{NextDueCall};

use crate::signal::poll;
use xet_blocks::FetchPolicy;
use xet_error::Result;
use xet_outside::CancelSignal;
use xet_terms::{PlanDue, ReconstructionTermManager};

/// Looks ahead, and takes the oldest scheduled query, for which the signal is asked once; none exactly where none is
/// scheduled, and then the signal isn't asked. `OutOfMemory` where memory was refused, and then the manager and the
/// signal are as before; `Cancelled` exactly where the signal said yes.
///
/// In the Rust crate: a step of `ReconstructionTermManager::next_file_terms`.
pub fn next_due<P: FetchPolicy, X: CancelSignal>(
    manager: &mut ReconstructionTermManager<P>,
    cancel: &mut X,
) -> Result<Option<PlanDue>>
    ensures { NextDueCall manager.old manager.new (X.told cancel.old) (X.told cancel.new) result }
{
    match manager.look_ahead() {
        Ok(()) => {}
        Err(error) => return Err(error),
    }
    let Some(due) = manager.due() else {
        return Ok(None);
    };
    match poll(cancel) {
        Ok(()) => Ok(Some(due)),
        Err(error) => Err(error),
    }
}
