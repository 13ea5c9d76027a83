//! Records in the run's state what a leader admitted, and what it is to fetch.
ghost use Rattle.std.specs.Prelude.{◌≡◌, IfErr};
ghost use Rattle.xet_error.specs.declared.error.FileReconstructionError.TheVariants as error;

use std::collections::VecDeque;
use std::sync::Wait;
use std::sync::ledger::Ledger;
use xet_blocks::{FetchPolicy, FileTerm};
use xet_error::{FileReconstructionError, Result};
use xet_leader::ahead::{Place, first_of, seek};
use xet_leader::leader::{Leader, LedPlan};
use xet_run::{HeldRun, RunPass, RunState};

/// Records the admitted terms from the one of this number on, counted from 0, each by its length in bytes.
/// `OutOfMemory` where memory was refused; those before it stay recorded.
///
/// In the Rust crate: the calls of `RunState::record_new_term` in `FileReconstructor::run`.
pub(crate) fn record_terms<R: Wait, L: Ledger, P: FetchPolicy>(
    rt: &R,
    state: &RunState<L>,
    pass: &mut RunPass<L>,
    leader: &Leader<P>,
    number: u64,
) -> Result<()>
    ensures memory { IfErr result (λ e. e ≡ error.OutOfMemory) }
    ensures parts { pass.new.share.parts ≡ pass.old.share.parts }
{
    let skip = number.saturating_sub(first_of(&leader.plans));
    let count = leader.admitted.saturating_sub(number);
    let mut held = state.hold(rt);
    // each term is recorded, its block may be, and the lane that fetches it looks at the state
    match held.make_room((count as usize).saturating_mul(3)) {
        Ok(()) => {}
        Err(_) => return Err(FileReconstructionError::OutOfMemory),
    }
    record_from(&mut held, pass, &leader.plans, skip as usize, count)
}

/// Records so many terms of these plans, after so many.
fn record_from<L: Ledger>(
    held: &mut HeldRun<'_, L>,
    pass: &mut RunPass<L>,
    plans: &VecDeque<LedPlan>,
    skip: usize,
    count: u64,
) -> Result<()>
    ensures memory { IfErr result (λ e. e ≡ error.OutOfMemory) }
    ensures parts { pass.new.share.parts ≡ pass.old.share.parts }
{
    let mut at = Place {
        plan: 0,
        term: skip,
    };
    'terms: for _ in 0..count {
        at = seek(plans, at);
        if at.plan >= plans.len() {
            return Ok(());
        }
        let term = plans[at.plan].block.terms.as_slice()[at.term];
        match record_term(held, pass, term) {
            Ok(()) => at.term += 1,
            Err(error) => return Err(error),
        }
    }
    Ok(())
}

/// Records a term by its length.
fn record_term<L: Ledger>(
    held: &mut HeldRun<'_, L>,
    pass: &mut RunPass<L>,
    term: FileTerm,
) -> Result<()>
    ensures memory { IfErr result (λ e. e ≡ error.OutOfMemory) }
    ensures parts { pass.new.share.parts ≡ pass.old.share.parts }
{
    let length = term.byte_range.end.saturating_sub(term.byte_range.start);
    match held.record_new_term(pass, length) {
        Ok(()) => Ok(()),
        Err(_) => Err(FileReconstructionError::OutOfMemory),
    }
}

/// Records so many blocks that are to be fetched. `OutOfMemory` where memory was refused.
///
/// In the Rust crate: the calls of `RunState::record_new_block` where a block's download begins.
pub fn record_blocks<R: Wait, L: Ledger>(
    rt: &R,
    state: &RunState<L>,
    pass: &mut RunPass<L>,
    count: usize,
) -> Result<()>
    ensures memory { IfErr result (λ e. e ≡ error.OutOfMemory) }
    ensures parts { pass.new.share.parts ≡ pass.old.share.parts }
{
    let mut held = state.hold(rt);
    'counted: for _ in 0..count {
        match held.record_new_block(pass) {
            Ok(()) => {}
            Err(_) => return Err(FileReconstructionError::OutOfMemory),
        }
    }
    Ok(())
}
