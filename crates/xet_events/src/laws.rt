//! Laws of every allowed history, as functions whose contracts state them.
ghost use Rattle.xet_events.specs.Laws.{KeptOnce, NoneExpiresAfter, FirstErrorStays, WithinLimit};

/// A block of a plan is fetched or taken from the cache at most once.
pub fn kept_once()
    ensures { KeptOnce }
{}

/// After that no answer says that its URL has expired.
pub fn none_expires_after()
    ensures { NoneExpiresAfter }
{}

/// The first error stays, whatever comes after it.
#[tactic(auto, using(crate::proofs::Kept::first_error_stays))]
pub fn first_error_stays()
    ensures { FirstErrorStays }
{}

/// Just after each admission of a history the unwritten bytes are within its limit, or those of the admitted term.
pub fn within_limit()
    ensures { WithinLimit }
{}
