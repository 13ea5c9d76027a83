//! The admitted terms that wait for their blocks.
ghost use Rattle.std.specs.Prelude.{◌≡◌, ◌+◌, ◌<◌, ◌-◌, ◌^◌, None, length, min};
ghost use Rattle.std.specs.List.{sum_by};
ghost use Rattle.xet_events.specs.Events.{size};
ghost use Rattle.xet_stream_rules.specs.Unordered.{awaited};
ghost use Rattle.xet_unordered_streams.specs.steps.Awaiting.{AwaitedBy, SizeAt, WithOne, awaited_led};

use crate::ahead_terms::term_ahead;
use xet_blocks::FetchPolicy;
use xet_leader::Leader;
use xet_run::EventLog;
use xet_streams::Stepper;

/// Of terms their number, and their bytes, a sum that stops at `u64::MAX`.
#[derive(Clone, Copy)]
pub(crate) struct Awaited {
    pub(crate) terms: u64,
    pub(crate) bytes: u64,
}

/// Of the admitted terms with bytes those whose block isn't kept; none where an error was told.
pub(crate) fn all_awaited<P: FetchPolicy, E: EventLog>(stepper: &Stepper<P, E>) -> Awaited
    ensures terms { stepper.now.told_error ≡ None → result.terms ≡ length (awaited stepper.now.events) }
    ensures bytes { stepper.now.told_error ≡ None
        → result.bytes ≡ min (sum_by size (awaited stepper.now.events)) (2 ^ 64 - 1) }
    ensures failed { (stepper.now.told_error ≡ None → ⊥) → (result.terms ≡ 0) × (result.bytes ≡ 0) }
{
    if !stepper.is_untold() {
        return Awaited { terms: 0, bytes: 0 };
    }
    untold_awaited(stepper)
}

/// Those of a stream that told no error.
fn untold_awaited<P: FetchPolicy, E: EventLog>(stepper: &Stepper<P, E>) -> Awaited
    requires { stepper.now.told_error ≡ None }
    ensures { AwaitedBy (awaited stepper.now.events) result }
{
    stepper.check_open();
    match stepper.leader() {
        Some(leader) => led_awaited(leader, stepper),
        None => Awaited { terms: 0, bytes: 0 },
    }
}

/// Those of a leader.
fn led_awaited<P: FetchPolicy, E: EventLog>(leader: &Leader<P>, stepper: &Stepper<P, E>) -> Awaited
    ensures { AwaitedBy (awaited_led leader.now stepper.now.events) result }
{
    let count = leader.admitted.saturating_sub(leader.finished);
    let mut found = Awaited { terms: 0, bytes: 0 };
    for skip in 0..count {
        let size = awaited_size(leader, stepper, skip);
        found = with_one(found, size);
    }
    found
}

/// These and one of so many bytes, where it has some.
fn with_one(found: Awaited, size: u64) -> Awaited
    ensures { WithOne found size result }
{
    if size == 0 {
        return found;
    }
    Awaited {
        terms: found.terms.saturating_add(1),
        bytes: found.bytes.saturating_add(size),
    }
}

/// The bytes of the term behind so many of those ahead, where it waits for its block; else 0.
fn awaited_size<P: FetchPolicy, E: EventLog>(
    leader: &Leader<P>,
    stepper: &Stepper<P, E>,
    skip: u64,
) -> u64
    requires { leader.now.finished + skip < 2 ^ 64 }
    ensures { SizeAt leader.now stepper.now.events skip result }
{
    let Some(found) = term_ahead(leader, skip) else {
        return 0;
    };
    if stepper.is_kept(leader.plans[found.place].number, found.term.xorb_block) {
        return 0;
    }
    found
        .term
        .byte_range
        .end
        .saturating_sub(found.term.byte_range.start)
}
