//! The check of a run's first error, as a call on its book.
ghost use Rattle.std.specs.Prelude.{◌≡◌};
ghost use Rattle.std.specs.Result.{result_err};
ghost use Rattle.xet_events.specs.RunReplay.{book_after, replied};

use xet_error::FileReconstructionError;
use xet_events::{RunBook, RunCall};

/// Checks a book for its first error: the call with the reply that the book gives at its point, and the error as an
/// `Err`.
pub fn check_error(book: &mut RunBook) -> (RunCall, Result<(), FileReconstructionError>)
    ensures replied { replied book.old result.0 ≡ result.0 }
    ensures after { book.new ≡ book_after book.old result.0 }
    ensures call { result.0 ≡ RunCall.CheckError (result_err result.1) }
{
    let reply = book.check_error();
    (RunCall::CheckError(reply.err()), reply)
}
