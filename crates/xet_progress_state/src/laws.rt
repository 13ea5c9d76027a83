//! The counts of small lists of calls, worked out by hand. Nothing calls these.
ghost use Rattle.std.specs.Prelude.{◌≡◌, ◌++◌, ◌∷◌, [], Some, None};
ghost use Rattle.xet_base.specs.declared.invalid.Invalid.TheVariants.{PastTotal, UnknownXorb, UnknownFile};
ghost use Rattle.xet_progress_state.specs.declared.step.TrackerStep.TheVariants.{RegisterXorbUploadCompletion};
ghost use Rattle.xet_progress_state.specs.declared.step.TrackerStep.TheVariants.{RegisterXorbUploadProgress};
ghost use Rattle.xet_progress_state.specs.declared.step.TrackerStep.TheVariants.{RegisterDependencies};
ghost use Rattle.xet_progress_state.specs.Counts.{tracker_counts};
ghost use Rattle.xet_progress_state.specs.Accepted.{refusal_of};
ghost use Rattle.xet_progress_state.specs.Rows.{hash, external_and_waiting, thirds, shared, late_part, waiting};
ghost use Rattle.xet_progress_state.specs.Rows.{outside};

/// An external part counts at once, one that waits at its xorb's completion.
pub fn external_part_counts_at_once()
    ensures before { tracker_counts external_and_waiting ≡ (200, 500) }
    ensures after { tracker_counts (external_and_waiting ++ RegisterXorbUploadCompletion (hash 1) ∷ []) ≡ (300, 500) }
{}

/// Shares of a xorb of size 3 are rounded down; progress past the size is refused with its numbers.
pub fn progress_counts_in_thirds()
    ensures one { tracker_counts thirds ≡ (33, 100) }
    ensures two { tracker_counts (thirds ++ RegisterXorbUploadProgress (hash 7) 1 ∷ []) ≡ (66, 100) }
    ensures three { refusal_of (thirds ++ RegisterXorbUploadProgress (hash 7) 1 ∷ [])
        (RegisterXorbUploadProgress (hash 7) 2) ≡ Some (PastTotal 3 2 2) }
    ensures done { tracker_counts (thirds ++ RegisterXorbUploadCompletion (hash 7) ∷ []) ≡ (100, 100) }
{}

/// A xorb on which two files wait counts for both.
pub fn shared_xorb_counts_for_both_files()
    ensures { tracker_counts shared ≡ (50, 200) }
{}

/// A part after the last progress waits for the next.
pub fn part_after_progress_waits()
    ensures before { tracker_counts late_part ≡ (20, 100) }
    ensures after { tracker_counts (late_part ++ RegisterXorbUploadProgress (hash 1) 1 ∷ []) ≡ (60, 100) }
    ensures unknown { refusal_of late_part (RegisterXorbUploadCompletion (hash 2)) ≡ Some (UnknownXorb (hash 2)) }
    ensures past { refusal_of late_part (outside 0 1 1) ≡ Some (PastTotal 100 100 1) }
{}
