//! Calls of std that were interrupted.
ghost use Rattle.std.specs.IoError.{error_kind};
ghost use Rattle.std.specs.Prelude.{◌≡◌, ◌↔◌, IsTrue};

use std::io::{Error, ErrorKind};

/// How often an interrupted call is made again.
pub(crate) const TRIES: usize = 16;

/// Whether the call was interrupted, and may be made again.
pub(crate) fn is_interrupted(error: &Error) -> bool
    ensures { IsTrue result ↔ (error_kind error.now ≡ ErrorKind.Interrupted) }
{
    error.kind() == ErrorKind::Interrupted
}
