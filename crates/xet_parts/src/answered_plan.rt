//! The plan of an answered query, as a core takes it.
ghost use Rattle.std.specs.Prelude.{◌≡◌, [], map};
ghost use Rattle.xet_history.specs.TrueHistory.{planned_term};
ghost use Rattle.xet_ties.specs.Saids.{planned_of};

use std::alloc::Global;
use xet_base::OutOfMemory;
use xet_blocks::{FileTerm, TermBlock, XorbBlock};
use xet_run::{PlanSource, PlannedBlock, PlannedTerm};

/// The terms and blocks of an answer to a query; none where it was past the end.
#[derive(Clone, Copy)]
pub(crate) struct AnsweredPlan<'a> {
    pub terms: &'a [FileTerm],
    pub blocks: &'a [XorbBlock],
}

impl<'a> AnsweredPlan<'a> {
    /// Of an answer with terms.
    pub(crate) fn of(answer: &'a TermBlock) -> AnsweredPlan<'a>
        ensures terms { result.terms.now ≡ answer.now.terms }
        ensures blocks { result.blocks.now ≡ answer.now.blocks }
    {
        AnsweredPlan {
            terms: answer.terms.as_slice(),
            blocks: answer.blocks.as_slice(),
        }
    }

    /// Of an answer past the end.
    pub(crate) fn past_end() -> AnsweredPlan<'a>
        ensures terms { result.terms.now ≡ [] }
        ensures blocks { result.blocks.now ≡ [] }
    {
        AnsweredPlan {
            terms: &[],
            blocks: &[],
        }
    }
}

impl<'a> PlanSource for AnsweredPlan<'a> {
    ghost terms = { λ plan. map planned_term plan.terms.now };

    ghost blocks = { λ plan. map planned_of plan.blocks.now };

    fn term_count(&self) -> usize {
        self.terms.len()
    }

    fn block_count(&self) -> usize {
        self.blocks.len()
    }

    fn term(&self, at: usize) -> PlannedTerm {
        let term = self.terms[at];
        PlannedTerm {
            byte_range: term.byte_range,
            block: term.xorb_block,
            start_index: term.xorb_block_start_index,
            offset: term.offset_into_first_range,
        }
    }

    fn block(&self, alloc: Global, at: usize) -> Result<PlannedBlock, OutOfMemory> {
        let block = &self.blocks[at];
        Ok(PlannedBlock {
            xorb: block.xorb_hash,
            ranges: block.chunk_ranges.copied(alloc)?,
        })
    }
}
