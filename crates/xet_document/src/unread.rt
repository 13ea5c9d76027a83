//! Why a document is not read as it stands.
ghost use Rattle.std.specs.Prelude.{◌≡◌};
ghost use Rattle.xet_document.specs.declared.unread.Unread.TheVariants as unread;

use json::Invalid;
use std::alloc::{AllocError, AllocFailed};
use xet_base::OutOfMemory;

/// Why a document was not read in one pass.
#[derive(Clone, Copy)]
pub enum Unread {
    /// Memory was refused.
    OutOfMemory,
    /// A xorb or a file hasn't its form, a number isn't whole and of 64 bits, or it is no JSON. The tree tells.
    NotPlain,
}

impl From<OutOfMemory> for Unread {
    ghost from_gives = { λ _ e. e ≡ unread.OutOfMemory };

    fn from(_error: OutOfMemory) -> Unread {
        Unread::OutOfMemory
    }
}

impl From<AllocError> for Unread {
    ghost from_gives = { λ _ e. e ≡ unread.OutOfMemory };

    fn from(_error: AllocError) -> Unread {
        Unread::OutOfMemory
    }
}

impl<T: Drop> From<AllocFailed<T>> for Unread {
    ghost from_gives = { λ _ e. e ≡ unread.OutOfMemory };

    fn from(_error: AllocFailed<T>) -> Unread {
        Unread::OutOfMemory
    }
}

impl From<Invalid> for Unread {
    ghost from_gives = { λ _ e. e ≡ unread.NotPlain };

    fn from(_error: Invalid) -> Unread {
        Unread::NotPlain
    }
}
