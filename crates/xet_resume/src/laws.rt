//! Laws of calls one after another, as functions whose contracts state them.
ghost use Rattle.xet_resume.specs.Laws.{DoneIsWhole, FetchesHold, FetchesShrink, FetchesTell};

/// From a new record on, whatever the calls answer, the file has each byte that isn't missing, and its content stays
/// told; gaps never grow; where nothing is missing the content begins with the file's bytes.
pub fn fetches_hold()
    ensures hold { FetchesHold }
    ensures tell { FetchesTell }
    ensures shrink { FetchesShrink }
    ensures done { DoneIsWhole }
{}
