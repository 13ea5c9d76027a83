//! Hands the next term's bytes over.
ghost use Rattle.std.specs.Prelude.{◌≡◌};
ghost use Rattle.xet_ties.specs.Setup.{Setup};
ghost use Rattle.xet_leader.specs.LedTerms.{BytesOf, IsNextTerm, of_plan};
ghost use Rattle.xet_stream_rules.specs.Streams.{Carries, nobody};
ghost use Rattle.xet_stream_terms.specs.Handing.{HandsTerm, IsOpenNext, RecordsTerm};

use bytes::Bytes;
use std::alloc::Global;
use std::sync::Wait;
use xet_blocks::FetchPolicy;
use xet_error::Result;
use xet_leader::{Leader, NextTerm, advance, bytes_of};
use xet_parts::add_wrote;
use xet_run::{EventLog, RunCore};
use xet_stream_rules::Step;

/// Hands over the bytes of the next term where its block is kept, cut from it without a copy, records them as written,
/// and reports them; else that they aren't there yet. `start` becomes the place of the term's first byte in the file.
///
/// `CorruptedReconstruction` where the term fails its test in what its block keeps. `OutOfMemory` where memory was
/// refused.
pub fn hand_over<R: Wait, P: FetchPolicy, E: EventLog>(
    rt: &R,
    alloc: Global,
    leader: &mut Leader<P>,
    core: &mut RunCore<E>,
    next: NextTerm,
    start: &mut u64,
) -> Result<Step<Option<Bytes>>>
    requires carries { (g : Setup) × Carries nobody g core.old leader.old }
    requires next { IsOpenNext leader.old next }
    ensures hands { HandsTerm core.old core.new leader.old leader.new next result }
    ensures placed { start.new ≡ next.term.byte_range.start }
{
    *start = next.term.byte_range.start;
    let length = next
        .term
        .byte_range
        .end
        .saturating_sub(next.term.byte_range.start);
    let piece = match piece_of(alloc, leader, next) {
        Ok(Some(piece)) => piece,
        Ok(None) => return Ok(Step::Pending),
        Err(error) => return Err(error),
    };
    match add_wrote(core, length) {
        Ok(()) => {}
        Err(error) => return Err(error),
    }
    advance(leader, next.empties.saturating_add(1));
    report_delivered(rt, leader, length);
    Ok(Step::Ready(Some(piece)))
}

/// Records the next term as written, whose bytes were handed over before those of a term ahead of it, where its block
/// is kept. Whether it is. `OutOfMemory` where memory was refused, and then nothing is recorded.
pub fn record_given<P: FetchPolicy, E: EventLog>(
    leader: &mut Leader<P>,
    core: &mut RunCore<E>,
    next: NextTerm,
) -> Result<bool>
    requires carries { (g : Setup) × Carries nobody g core.old leader.old }
    requires next { IsOpenNext leader.old next }
    ensures { RecordsTerm core.old core.new leader.old leader.new next result }
{
    if !core.is_kept(plan_of(leader, next), next.term.xorb_block) {
        return Ok(false);
    }
    let length = next
        .term
        .byte_range
        .end
        .saturating_sub(next.term.byte_range.start);
    match add_wrote(core, length) {
        Ok(()) => {}
        Err(error) => return Err(error),
    }
    advance(leader, next.empties.saturating_add(1));
    Ok(true)
}

/// The number of the next term's plan.
fn plan_of<P: FetchPolicy>(leader: &Leader<P>, next: NextTerm) -> u64
    requires { IsNextTerm leader.now next }
    ensures { (x : IsNextTerm leader.now next) → result ≡ x.plan.number }
{
    leader.plans[next.place].number
}

/// The bytes of the next term, where its block is kept.
fn piece_of<P: FetchPolicy>(
    alloc: Global,
    leader: &Leader<P>,
    next: NextTerm,
) -> Result<Option<Bytes>>
    requires { IsNextTerm leader.now next }
    ensures { (x : IsNextTerm leader.now next) → BytesOf (of_plan x.plan next.term) result }
{
    bytes_of(alloc, &leader.plans[next.place], next.term)
}

/// Reports so many bytes as written; a refused report changes nothing.
fn report_delivered<R: Wait, P: FetchPolicy>(rt: &R, leader: &Leader<P>, length: u64) {
    if let Some(progress) = &leader.progress {
        let _ = progress.report_bytes_written(rt, length);
    }
}
