//! Asks the cancel signal.
ghost use Rattle.xet_ties.specs.PartCalls.{PollCall};

use xet_error::{FileReconstructionError, Result};
use xet_outside::CancelSignal;

/// Asks the signal once. `Cancelled` exactly where it says yes.
///
/// In the Rust crate: the checks of the cancellation token in `file_reconstruction::file_reconstructor`.
pub fn poll<X: CancelSignal>(cancel: &mut X) -> Result<()>
    ensures { PollCall (X.told cancel.old) (X.told cancel.new) result }
{
    if cancel.asked() {
        return Err(FileReconstructionError::Cancelled);
    }
    Ok(())
}
