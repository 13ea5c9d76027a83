//! Admits planned terms, as limits allow it.
ghost use Rattle.xet_parts.specs.Admissions.{AdmitTermsCall};

use std::sync::Wait;
use xet_error::{FileReconstructionError, Result};
use xet_run::{BudgetSource, CoreRefusal, EventLog, RunCore};

/// Admits planned terms, of which so many wait, each under a limit that is asked for it, until none waits or the limit
/// refuses one. Answers how many wait then. `OutOfMemory` where memory was refused; the terms that were admitted before
/// stay recorded.
///
/// In place of the semaphore of `file_reconstruction::file_reconstructor` of the Rust crate.
pub fn admit_terms<R: Wait, B: BudgetSource, E: EventLog>(
    rt: &R,
    core: &mut RunCore<E>,
    source: &mut B,
    waiting: u64,
) -> Result<u64>
    ensures { AdmitTermsCall (B.told source.old) (B.told source.new) core.old core.new waiting result }
{
    let mut left = waiting;
    while left > 0 {
        let limit = source.limit(rt);
        match core.admit(limit) {
            Ok(()) => left -= 1,
            Err(CoreRefusal::NotAllowed) => return Ok(left),
            Err(CoreRefusal::OutOfMemory) => return Err(FileReconstructionError::OutOfMemory),
        }
    }
    Ok(left)
}
