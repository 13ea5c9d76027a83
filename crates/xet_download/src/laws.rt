//! Laws of the calls, as functions whose contracts state them.
ghost use Rattle.xet_download.specs.Bounds.{KeepsBytes};
ghost use Rattle.xet_download.specs.Laws.{FileCallsAreExact, FileIsUncancelled, JobIsUncancelled, JobRunsAreExact};
ghost use Rattle.xet_download.specs.Laws.{RefusalsAreFour, WriterCallsAreExact, WriterIsUncancelled};

/// The bytes of a file within two bounds are those of the range that they spell.
pub fn bounds_keep_bytes()
    ensures { KeepsBytes }
{}

/// Over connections and a cache that tell one valid store, a download that answers Ok is exact: the writer took the
/// window of the range, or the file, by a job too, has the file's bytes and nothing else, and the answer is their
/// number.
pub fn downloads_are_exact()
    ensures writer { WriterCallsAreExact }
    ensures file { FileCallsAreExact }
    ensures job { JobRunsAreExact }
{}

/// No download of a session, and no job, answers that it was cancelled, since none asks a signal.
pub fn none_is_cancelled()
    ensures writer { WriterIsUncancelled }
    ensures file { FileIsUncancelled }
    ensures job { JobIsUncancelled }
{}

/// A download is refused before anything is asked only with `Finalized`, the error of its bounds,
/// `HashStringParsingFailure` or `IdsUsedUp`.
pub fn refusals_are_four()
    ensures { RefusalsAreFour }
{}
