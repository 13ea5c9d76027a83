//! Gives the writer the next terms whose bytes are there.
ghost use Rattle.std.specs.Prelude.{◌-◌, drop, take};
ghost use Rattle.xet_stages.specs.RunWindows.{WindowLeads};
ghost use Rattle.xet_leader.specs.LedTerms.{led_terms, of_plan, open_led};
ghost use Rattle.xet_stages.specs.Windows.{PieceQueued, TermTurn, WindowTurn};

use bytes::Bytes;
use std::alloc::Global;
use std::collections::VecDeque;
use xet_base::{FileRange, List};
use xet_blocks::{DataSource, FetchPolicy, FileTerm};
use xet_error::{FileReconstructionError, Result};
use xet_leader::ahead::{Place, bytes_of, first_of, seek};
use xet_leader::leader::{Leader, LedPlan};
use xet_outside::Sink;
use xet_writers::{DataWriter, SequentialWriter};

/// Gives the writer the next admitted terms, in order, up to the first one that has bytes and whose block keeps
/// nothing, and answers their lengths in bytes. An empty term is given to no writer. The bytes are shared, not copied.
/// It takes linear time in these terms.
///
/// `CorruptedReconstruction` where a term's bytes fail its test. `OutOfMemory` where memory was refused. Of a run that
/// goes on these are its next planned terms; or it is to stop with that error.
///
/// In the Rust crate each term's task gives the writer its bytes.
pub fn window<P: FetchPolicy, S: Sink>(
    alloc: Global,
    leader: &Leader<P>,
    writer: &mut SequentialWriter<S>,
) -> Result<List<u64>>
    ensures turn { WindowTurn (open_led leader.now) writer.old writer.new result }
    ensures leads { WindowLeads leader.now writer.old writer.new result }
{
    queue_next(alloc, leader, writer)
}

/// The same, without what it is to a run.
fn queue_next<P: FetchPolicy, S: Sink>(
    alloc: Global,
    leader: &Leader<P>,
    writer: &mut SequentialWriter<S>,
) -> Result<List<u64>>
    ensures { WindowTurn (open_led leader.now) writer.old writer.new result }
{
    let most = leader.admitted.saturating_sub(leader.finished);
    let skip = leader.finished.saturating_sub(first_of(&leader.plans));
    queue_terms(alloc, &leader.plans, skip as usize, most, writer)
}

/// Gives the writer terms of these plans, after so many and at most so many.
fn queue_terms<S: Sink>(
    alloc: Global,
    plans: &VecDeque<LedPlan>,
    skip: usize,
    most: u64,
    writer: &mut SequentialWriter<S>,
) -> Result<List<u64>>
    ensures { WindowTurn (take most (drop skip (led_terms plans.now.items))) writer.old writer.new result }
{
    let mut lengths = List::with_hint(alloc, most as usize);
    let mut at = Place {
        plan: 0,
        term: skip,
    };
    'terms: while (lengths.len() as u64) < most {
        at = seek(plans, at);
        if at.plan >= plans.len() {
            return Ok(lengths);
        }
        let plan = &plans[at.plan];
        let term = plan.block.terms.as_slice()[at.term];
        let length = match queue_term(alloc, plan, term, writer) {
            Ok(Some(length)) => length,
            Ok(None) => return Ok(lengths),
            Err(error) => return Err(error),
        };
        match lengths.push(length) {
            Ok(()) => at.term += 1,
            Err(_) => return Err(FileReconstructionError::OutOfMemory),
        }
    }
    Ok(lengths)
}

/// Gives the writer a term, if it is empty or its block keeps something. Answers its length.
fn queue_term<S: Sink>(
    alloc: Global,
    plan: &LedPlan,
    term: FileTerm,
    writer: &mut SequentialWriter<S>,
) -> Result<Option<u64>>
    ensures { TermTurn (of_plan plan.now term) writer.old writer.new result }
{
    let length = term.byte_range.end.saturating_sub(term.byte_range.start);
    if length == 0 {
        return Ok(Some(0));
    }
    match bytes_of(alloc, plan, term) {
        Ok(Some(bytes)) => match queue_bytes(alloc, writer, bytes) {
            Ok(()) => Ok(Some(length)),
            Err(error) => Err(error),
        },
        Ok(None) => Ok(None),
        Err(error) => Err(error),
    }
}

/// Gives the writer some bytes, where the bytes before them end.
fn queue_bytes<S: Sink>(alloc: Global, writer: &mut SequentialWriter<S>, bytes: Bytes) -> Result<()>
    ensures { PieceQueued writer.old writer.new bytes result }
{
    let start = writer.next_start();
    let Some(end) = start.checked_add(bytes.len() as u64) else {
        return Err(FileReconstructionError::OutOfMemory);
    };
    let range = FileRange::new(start, end);
    writer.set_next_term_data_source(alloc, range, None, DataSource::Ready(bytes))
}
