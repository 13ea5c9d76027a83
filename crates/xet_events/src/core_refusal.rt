//! Why a core doesn't add an event.
ghost use Rattle.std.specs.Prelude.{◌≡◌};
ghost use Rattle.xet_events.specs.declared.core_refusal.CoreRefusal.TheVariants.{OutOfMemory};

use std::alloc::AllocError;
use thiserror::Error;
use xet_base::OutOfMemory as NoMemory;

/// Why a core didn't add an event. It prints its variant's name.
#[derive(Clone, Copy, Debug, Drop, Error)]
pub enum CoreRefusal {
    /// The event isn't allowed after the history.
    #[error("NotAllowed")]
    NotAllowed,
    /// An allocation was refused.
    #[error("OutOfMemory")]
    OutOfMemory,
}

impl From<AllocError> for CoreRefusal {
    ghost from_gives = { λ _ refusal. refusal ≡ OutOfMemory };

    fn from(_: AllocError) -> CoreRefusal {
        CoreRefusal::OutOfMemory
    }
}

impl From<NoMemory> for CoreRefusal {
    ghost from_gives = { λ _ refusal. refusal ≡ OutOfMemory };

    fn from(_: NoMemory) -> CoreRefusal {
        CoreRefusal::OutOfMemory
    }
}
