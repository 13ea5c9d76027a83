//! Records what a round did.
ghost use Rattle.std.specs.Prelude.{◌≤◌, ◌++◌, length};
ghost use Rattle.xet_events.specs.Allowed.{AllowedAfter};
ghost use Rattle.xet_ties.specs.Recordings.{Recorded};
ghost use Rattle.xet_ties.specs.Setup.{most_lanes};
ghost use Rattle.xet_stages.specs.RoundRecords.{RoundMayBe, expired_events, fetched_events, lanes_events, lanes_of};
ghost use Rattle.xet_stages.specs.RoundRecords.{window_events};

use xet_error::Result;
use xet_lane::{Joined, LaneEnd};
use xet_parts::{record_expired, record_fetched, record_window};
use xet_run::{EventLog, RunCore};

/// Records what a join came to: what the lanes were served, lane by lane, then which answers were that a URL had
/// expired, and then the terms of the window by their lengths, where the writer took all. `OutOfMemory` where memory
/// was refused, and then the first of these events are recorded.
pub fn record_round<E: EventLog>(
    core: &mut RunCore<E>,
    joined: &Joined,
    lengths: &[u64],
) -> Result<()>
    requires lanes { length joined.now.ends.items ≤ most_lanes }
    requires allowed { RoundMayBe core.old (lanes_of joined.now.ends.items)
        (window_events joined.now.wrote lengths.now) }
    ensures { Recorded core.old core.new (lanes_events (lanes_of joined.now.ends.items)
        ++ window_events joined.now.wrote lengths.now) result }
{
    match record_lanes(core, joined.ends.as_slice()) {
        Ok(()) => {}
        Err(error) => return Err(error),
    }
    match joined.wrote {
        Ok(_) => record_window(core, lengths),
        Err(_) => Ok(()),
    }
}

/// Records what the lanes did.
fn record_lanes<E: EventLog>(core: &mut RunCore<E>, ends: &[LaneEnd]) -> Result<()>
    requires lanes { length ends.now ≤ most_lanes }
    requires fetched { AllowedAfter core.old (fetched_events (lanes_of ends.now)) }
    requires expired { AllowedAfter (core.old ++ fetched_events (lanes_of ends.now))
        (expired_events (lanes_of ends.now)) }
    ensures { Recorded core.old core.new (lanes_events (lanes_of ends.now)) result }
{
    match record_all_fetched(core, ends) {
        Ok(()) => record_all_expired(core, ends),
        Err(error) => Err(error),
    }
}

/// Records what the lanes were served.
fn record_all_fetched<E: EventLog>(core: &mut RunCore<E>, ends: &[LaneEnd]) -> Result<()>
    requires lanes { length ends.now ≤ most_lanes }
    requires allowed { AllowedAfter core.old (fetched_events (lanes_of ends.now)) }
    ensures { Recorded core.old core.new (fetched_events (lanes_of ends.now)) result }
{
    let mut lane = 0;
    for end in ends {
        match record_fetched(core, lane, end.steps.as_slice()) {
            Ok(()) => lane += 1,
            Err(error) => return Err(error),
        }
    }
    Ok(())
}

/// Records which answers of the lanes were that a URL had expired.
fn record_all_expired<E: EventLog>(core: &mut RunCore<E>, ends: &[LaneEnd]) -> Result<()>
    requires lanes { length ends.now ≤ most_lanes }
    requires allowed { AllowedAfter core.old (expired_events (lanes_of ends.now)) }
    ensures { Recorded core.old core.new (expired_events (lanes_of ends.now)) result }
{
    let mut lane = 0;
    for end in ends {
        match record_expired(core, lane, end.steps.as_slice()) {
            Ok(()) => lane += 1,
            Err(error) => return Err(error),
        }
    }
    Ok(())
}
