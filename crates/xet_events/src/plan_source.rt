//! Where a core takes the plan of a query from.
ghost use Rattle.std.specs.Prelude.{◌≡◌, ◌<◌, List, Some, IfOk, length, slice_get};
ghost use Rattle.xet_events.specs.declared.event.PlannedTerm.{PlannedTerm as TermValue};
ghost use Rattle.xet_events.specs.declared.event.PlannedBlock.{PlannedBlock as BlockValue};

use crate::event::{PlannedBlock, PlannedTerm};
use std::alloc::Global;
use xet_base::{List, OutOfMemory};

/// Has the terms and blocks of a query's plan, and gives each by its number, from 0.
pub trait PlanSource {
    /// The terms, in their order.
    ghost terms: { Self → List TermValue };

    /// The blocks, in their order.
    ghost blocks: { Self → List BlockValue };

    /// How many terms there are.
    fn term_count(&self) -> usize
        ensures { result ≡ length (terms self.now) };

    /// How many blocks there are.
    fn block_count(&self) -> usize
        ensures { result ≡ length (blocks self.now) };

    /// The term with this number.
    fn term(&self, at: usize) -> PlannedTerm
        requires { at < length (terms self.now) }
        ensures { slice_get (terms self.now) at ≡ Some result };

    /// The block with this number, in memory of its own. An error where that memory was refused.
    fn block(&self, alloc: Global, at: usize) -> Result<PlannedBlock, OutOfMemory>
        requires { at < length (blocks self.now) }
        ensures { IfOk result (λ block. slice_get (blocks self.now) at ≡ Some block) };
}

/// A plan in two lists.
#[derive(Drop)]
pub struct ListedPlan {
    /// Its terms.
    pub terms: List<PlannedTerm>,
    /// Its blocks.
    pub blocks: List<PlannedBlock>,
}

impl PlanSource for ListedPlan {
    ghost terms = { λ plan. plan.terms };

    ghost blocks = { λ plan. plan.blocks };

    fn term_count(&self) -> usize {
        self.terms.len()
    }

    fn block_count(&self) -> usize {
        self.blocks.len()
    }

    fn term(&self, at: usize) -> PlannedTerm {
        self.terms.as_slice()[at]
    }

    fn block(&self, alloc: Global, at: usize) -> Result<PlannedBlock, OutOfMemory> {
        let block = &self.blocks.as_slice()[at];
        Ok(PlannedBlock {
            xorb: block.xorb,
            ranges: block.ranges.copied(alloc)?,
        })
    }
}

/// The terms of a plan, in memory of their own.
pub(crate) fn copied_terms<S: PlanSource>(
    alloc: Global,
    source: &S,
) -> Result<List<PlannedTerm>, OutOfMemory>
    ensures { IfOk result (λ terms. terms ≡ S.terms source.now) }
{
    let count = source.term_count();
    let mut terms = List::with_capacity(alloc, count)?;
    for at in 0..count {
        terms.push(source.term(at))?;
    }
    Ok(terms)
}

/// The blocks of a plan, in memory of their own.
pub(crate) fn copied_blocks<S: PlanSource>(
    alloc: Global,
    source: &S,
) -> Result<List<PlannedBlock>, OutOfMemory>
    ensures { IfOk result (λ blocks. blocks ≡ S.blocks source.now) }
{
    let count = source.block_count();
    let mut blocks = List::with_capacity(alloc, count)?;
    for at in 0..count {
        blocks.push(source.block(alloc, at)?)?;
    }
    Ok(blocks)
}
