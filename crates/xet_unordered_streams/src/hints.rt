//! What is known of terms before they are looked for.
ghost use Rattle.std.specs.Prelude.{MatchOption, None, Some, ◌≡◌};
ghost use Rattle.xet_leader.specs.Led.{Led};
ghost use Rattle.xet_unordered_streams.specs.steps.Dues.{IsAwaited};

use crate::ahead_terms::term_ahead;
use crate::due_terms::awaited_at;
use xet_blocks::FetchPolicy;
use xet_leader::{BlockAt, Leader, next_of};
use xet_ready_terms::{BlockKey, ReadyTerms};
use xet_run::EventLog;
use xet_streams::Stepper;

/// Looks at each admitted term that wasn't looked at: it is ready where its block is kept, and else waits for it.
pub(crate) fn look_at_admitted<P: FetchPolicy, E: EventLog>(
    leader: &Leader<P>,
    stepper: &Stepper<P, E>,
    terms: &mut ReadyTerms,
) {
    let from = terms.seen.max(leader.finished);
    for number in from..leader.admitted {
        look_at(leader, stepper, terms, number);
    }
    terms.seen = leader.admitted;
}

/// Looks at the term of this number.
fn look_at<P: FetchPolicy, E: EventLog>(
    leader: &Leader<P>,
    stepper: &Stepper<P, E>,
    terms: &mut ReadyTerms,
    number: u64,
) {
    if let Some(place) = awaited_at(leader, stepper, number) {
        terms.wait(number, BlockKey(place.plan, place.block));
    } else {
        terms.push_ready(number);
    }
}

/// The next block that an admitted term waits for, in turn, with the number of its first term.
pub(crate) fn next_awaited<P: FetchPolicy, E: EventLog>(
    leader: &Leader<P>,
    stepper: &Stepper<P, E>,
    terms: &mut ReadyTerms,
) -> Option<BlockAt>
    ensures { MatchOption result (Unit {0}) (IsAwaited leader.now stepper.now.events) }
{
    for _ in 0..terms.missing.len() {
        let Some(number) = terms.missing.pop_front() else {
            return first_awaited(leader, stepper);
        };
        if let Some(place) = awaited_at(leader, stepper, number) {
            terms.ask_again(number);
            return Some(place);
        }
    }
    first_awaited(leader, stepper)
}

/// The block of the next term, where it is admitted and waits for it.
fn first_awaited<P: FetchPolicy, E: EventLog>(
    leader: &Leader<P>,
    stepper: &Stepper<P, E>,
) -> Option<BlockAt>
    ensures { MatchOption result (Unit {0}) (IsAwaited leader.now stepper.now.events) }
{
    match next_of(leader) {
        Some(next) => awaited_at(
            leader,
            stepper,
            leader.finished.saturating_add(next.empties),
        ),
        None => None,
    }
}
