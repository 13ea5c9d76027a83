//! Terms by the blocks that they wait for.
use std::alloc::Global;
use std::collections::VecDeque;
use std::mem;

/// A block by its plan's number and its own.
#[derive(Clone, Copy)]
pub struct BlockKey(pub u64, pub usize);

/// The numbers of terms that are ready, as their block is there, and of those that wait for one. Each is a hint, which
/// is tested again where it is used: where memory is refused a number is left out, and its term comes in its turn. It
/// takes memory in proportion to the plans and blocks too, so it is for those that are numbered from 0 or 1 on.
#[derive(Drop)]
pub struct ReadyTerms {
    alloc: Global,
    /// How many terms were looked at.
    pub seen: u64,
    /// Those whose block is there, oldest first.
    pub ready: VecDeque<u64>,
    /// Of each block that is awaited its first term, in the order in which the blocks are asked for.
    pub missing: VecDeque<u64>,
    /// Whether the block that was asked for last had expired before it was among these.
    pub late: bool,
    // by the number of a plan and of a block in it the terms that wait for it
    waiting: Vec<Vec<Vec<u64>>>,
}

impl ReadyTerms {
    /// No terms. It takes no memory.
    pub fn new(alloc: Global) -> ReadyTerms {
        ReadyTerms {
            alloc,
            seen: 0,
            ready: VecDeque::new(alloc),
            missing: VecDeque::new(alloc),
            late: false,
            waiting: Vec::new(alloc),
        }
    }

    /// A term waits for a block. It takes constant time, amortized over the plans and blocks up to it.
    pub fn wait(&mut self, term: u64, block: BlockKey) {
        let BlockKey(plan, block) = block;
        reach_plan(self.alloc, &mut self.waiting, plan as usize);
        if let Some(row) = self.waiting.get_mut(plan as usize) {
            if add(self.alloc, row, block, term) {
                let _ = self.missing.push_back(term);
            }
        }
    }

    /// The terms that wait for a block are ready.
    pub fn make_ready(&mut self, block: BlockKey) {
        let BlockKey(plan, block) = block;
        if let Some(row) = self.waiting.get_mut(plan as usize) {
            let terms = take(self.alloc, row, block);
            for term in terms.as_slice() {
                let _ = self.ready.push_back(*term);
            }
        }
    }

    /// A term is ready.
    pub fn push_ready(&mut self, term: u64) {
        let _ = self.ready.push_back(term);
    }

    /// The block of this term is asked for once more, after the others.
    pub fn ask_again(&mut self, term: u64) {
        let _ = self.missing.push_back(term);
    }

    /// The first awaited block is asked for after the others, where it had expired.
    pub fn put_late_last(&mut self) {
        if !self.late {
            return;
        }
        self.late = false;
        if let Some(term) = self.missing.pop_front() {
            self.ask_again(term);
        }
    }
}

/// Makes so many rows that a plan has one, where there is memory.
fn reach_plan(alloc: Global, rows: &mut Vec<Vec<Vec<u64>>>, plan: usize) {
    for _ in rows.len()..plan.saturating_add(1) {
        if rows.push(Vec::new(alloc)).is_err() {
            return;
        }
    }
}

/// Makes a row so long that it has a list for a block, where there is memory.
fn reach_block(alloc: Global, row: &mut Vec<Vec<u64>>, block: usize) {
    for _ in row.len()..block.saturating_add(1) {
        if row.push(Vec::new(alloc)).is_err() {
            return;
        }
    }
}

/// Adds a term to those that wait for a block of a plan. Whether none waited before.
fn add(alloc: Global, row: &mut Vec<Vec<u64>>, block: usize, term: u64) -> bool {
    reach_block(alloc, row, block);
    let Some(terms) = row.get_mut(block) else {
        return false;
    };
    let is_first = terms.is_empty();
    let _ = terms.push(term);
    is_first
}

/// Takes the terms that wait for a block of a plan.
fn take(alloc: Global, row: &mut Vec<Vec<u64>>, block: usize) -> Vec<u64> {
    match row.get_mut(block) {
        Some(terms) => mem::replace(terms, Vec::new(alloc)),
        None => Vec::new(alloc),
    }
}
