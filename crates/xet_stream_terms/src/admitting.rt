//! Admits the terms of a stream up to the next one.
ghost use Rattle.xet_outside.specs.Told.{CacheTold, ClientTold};
ghost use Rattle.std.specs.Prelude.{◌-◌, ◌^◌, List};
ghost use Rattle.xet_ties.specs.Setup.{Setup};
ghost use Rattle.xet_leader.specs.LedTerms.{IsNextTerm};
ghost use Rattle.xet_leader.specs.Stepping.{AdmitSome};
ghost use Rattle.xet_stream_rules.specs.Streams.{Carries, nobody};
ghost use Rattle.xet_stream_terms.specs.Admitting.{AdmitsCall, AheadCall, most_of};
ghost use Rattle.xet_stream_rules.specs.Moments.{at};

use std::sync::Wait;
use xet_blocks::FetchPolicy;
use xet_error::Result;
use xet_leader::{Leader, NextTerm, admit_some};
use xet_run::{BudgetSource, EventLog, RunCore};

/// Admits the planned terms up to the next one that has bytes, each under a limit that is asked for it. No limit
/// refuses one, since no admitted byte is undelivered. `OutOfMemory` where memory was refused.
pub fn admit_next<R: Wait, P: FetchPolicy, B: BudgetSource, E: EventLog>(
    rt: &R,
    leader: &mut Leader<P>,
    core: &mut RunCore<E>,
    source: &mut B,
    next: NextTerm,
) -> Result<()>
    ensures { (g : Setup) → Carries nobody g core.old leader.old → IsNextTerm leader.old next → (cs : List ClientTold)
        (k : CacheTold) → AdmitsCall g (at core.old leader.old cs k) (at core.new leader.new cs k) (B.told source.old)
        (B.told source.new) next result }
{
    admit_upto(rt, leader, core, source, next)
}

/// The same, without what it does to a stream.
fn admit_upto<R: Wait, P: FetchPolicy, B: BudgetSource, E: EventLog>(
    rt: &R,
    leader: &mut Leader<P>,
    core: &mut RunCore<E>,
    source: &mut B,
    next: NextTerm,
) -> Result<()>
    ensures { AdmitSome (most_of leader.old next) (B.told source.old) (B.told source.new) core.old core.new leader.old
        leader.new result }
{
    let last = leader.finished.saturating_add(next.empties);
    let most = last.saturating_add(1).saturating_sub(leader.admitted);
    admit_some(rt, leader, core, source, most)
}

/// Admits the planned terms that wait, each under a limit that is asked for it, until none waits or the limit refuses
/// one. `OutOfMemory` where memory was refused.
pub fn admit_ahead<R: Wait, P: FetchPolicy, B: BudgetSource, E: EventLog>(
    rt: &R,
    leader: &mut Leader<P>,
    core: &mut RunCore<E>,
    source: &mut B,
) -> Result<()>
    ensures { (g : Setup) → Carries nobody g core.old leader.old → (cs : List ClientTold) (k : CacheTold)
        → AheadCall g (at core.old leader.old cs k) (at core.new leader.new cs k) (B.told source.old)
        (B.told source.new) result }
{
    admit_all(rt, leader, core, source)
}

/// The same, without what it does to a stream.
fn admit_all<R: Wait, P: FetchPolicy, B: BudgetSource, E: EventLog>(
    rt: &R,
    leader: &mut Leader<P>,
    core: &mut RunCore<E>,
    source: &mut B,
) -> Result<()>
    ensures { AdmitSome (2 ^ 64 - 1) (B.told source.old) (B.told source.new) core.old core.new leader.old leader.new
        result }
{
    admit_some(rt, leader, core, source, u64::MAX)
}
