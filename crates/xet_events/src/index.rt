//! What a core knows of its history without a look through it.
ghost use Rattle.std.specs.Prelude.{◌≡◌, ◌+◌, ◌-◌, ◌<◌, ◌≤◌, ◌^◌, ◌&&◌, ℕ, not, [], true, false, OnOk, OnErr, ◌++◌};
ghost use Rattle.std.specs.Prelude.{length, map, slice_get, unwrap_or};
ghost use Rattle.std.specs.BTreeSet as sorted;
ghost use Rattle.std.specs.VecDeque.{deque_len, deque_capacity};
ghost use Rattle.std.specs.Ordering.{nat_cmp};
ghost use Rattle.xet_events.specs.Allowed.{Adjoin};
ghost use Rattle.xet_events.specs.Events.{last_of};
ghost use Rattle.xet_events.specs.BlockTables.{Keeps, SameMarks, end_in, kept_in};
ghost use Rattle.xet_events.specs.Indexes.{ends_after, IsIndexed, waiting_in, IsAdmitted, SameIndex, finished};

use crate::block_table::{BlockId, BlockTable};
use crate::plan_source::PlanSource;
use std::alloc::{AllocError, Global};
use std::collections::{BTreeSet, VecDeque};
use xet_error::FileReconstructionError;

/// A planned term that isn't admitted yet.
#[derive(Clone, Copy)]
pub struct WaitingTerm {
    /// Its block.
    pub id: BlockId,
    /// How many bytes it has.
    pub length: u64,
}

/// An admitted term that isn't wholly written, with the place of its end among the admitted bytes.
#[derive(Clone, Copy)]
pub struct UnfinishedTerm {
    /// Its block.
    pub id: BlockId,
    /// The place of its end.
    pub end: u64,
}

/// What a core knows of its history without a look through it.
#[derive(Drop)]
pub struct Index {
    /// How many plans there are.
    pub plans: u64,
    /// Where the planned terms end.
    pub planned_end: Option<u64>,
    waiting: VecDeque<WaitingTerm>,
    unfinished: VecDeque<UnfinishedTerm>,
    /// How many bytes were written.
    pub written: u64,
    /// How many bytes of the admitted terms aren't written.
    pub unwritten: u64,
    // Where the last nonempty admitted term of each block ends, and which blocks are kept.
    blocks: BlockTable,
    // The plans with an expired answer since their last refresh.
    stale: BTreeSet<u64>,
    /// The error of the first Fail event, or `Cancelled` where Cancel came first.
    pub first_error: Option<FileReconstructionError>,
    /// Whether a Cancel event came.
    pub cancelled: bool,
}

impl Index {
    /// The index of no events.
    pub fn new(alloc: Global) -> Index
        ensures { IsIndexed [] result }
    {
        Index {
            plans: 0,
            planned_end: None,
            waiting: VecDeque::new(alloc),
            unfinished: VecDeque::new(alloc),
            written: 0,
            unwritten: 0,
            blocks: BlockTable::new(alloc),
            stale: BTreeSet::new(alloc),
            first_error: None,
            cancelled: false,
        }
    }

    /// Whether an admitted term that isn't wholly written has this block, and it isn't kept.
    pub fn is_missing(&self, id: BlockId) -> bool
        ensures { result ≡ (ends_after self.now.written (end_in self.now.blocks id.plan id.block)
            && not (kept_in self.now.blocks id.plan id.block)) }
    {
        let mark = self.blocks.mark(id);
        match mark.end {
            Some(end) => end > self.written && !mark.kept,
            None => false,
        }
    }

    /// Whether a block is kept.
    pub fn is_kept(&self, id: BlockId) -> bool
        ensures { result ≡ kept_in self.now.blocks id.plan id.block }
    {
        self.blocks.mark(id).kept
    }

    /// The first waiting term.
    pub fn next_waiting(&self) -> Option<WaitingTerm>
        ensures { result ≡ slice_get self.now.waiting.items 0 }
    {
        self.waiting.front().copied()
    }

    /// The oldest unfinished term.
    pub fn oldest(&self) -> Option<UnfinishedTerm>
        ensures { result ≡ slice_get self.now.unfinished.items 0 }
    {
        self.unfinished.front().copied()
    }

    /// Keeps a block.
    pub fn keep(&mut self, id: BlockId) -> Result<(), AllocError>
        ensures ok { OnOk result (Keeps self.old.blocks self.new.blocks id) }
        ensures err { OnErr result (SameMarks self.old.blocks self.new.blocks) }
        ensures rest { self.new ≡ record self.old { blocks = self.new.blocks } }
    {
        self.blocks.keep(id)
    }

    /// Notes an expired answer for a block of this plan.
    pub fn expire(&mut self, plan: u64) -> Result<(), AllocError>
        ensures ok { OnOk result (sorted.Updates nat_cmp self.old.stale self.new.stale plan true) }
        ensures err { OnErr result (self.new.stale.keys ≡ self.old.stale.keys) }
        ensures rest { self.new ≡ record self.old { stale = self.new.stale } }
    {
        self.stale.insert(plan)?;
        Ok(())
    }

    /// Whether an answer of this plan has expired since its last refresh.
    pub fn is_stale(&self, plan: u64) -> bool
        ensures { result ≡ sorted.contains nat_cmp self.now.stale plan }
    {
        self.stale.contains(&plan)
    }

    /// Notes a refresh of this plan.
    pub fn refresh(&mut self, plan: u64)
        ensures stale { sorted.Updates nat_cmp self.old.stale self.new.stale plan false }
        ensures rest { self.new ≡ record self.old { stale = self.new.stale } }
    {
        self.stale.remove(&plan);
    }

    /// Makes room for so many waiting terms more.
    pub fn make_room(&mut self, terms: usize) -> Result<(), AllocError>
        ensures room { OnOk result (deque_len self.new.waiting + terms ≤ deque_capacity self.new.waiting) }
        ensures same { self.new.waiting.items ≡ self.old.waiting.items }
        ensures rest { self.new ≡ record self.old { waiting = self.new.waiting } }
    {
        self.waiting.reserve(terms)
    }

    /// Counts a plan, and puts its terms behind those that wait.
    pub fn add_plan<S: PlanSource>(&mut self, plan: u64, source: &S)
        requires { deque_len self.old.waiting + length (S.terms source.now) ≤ deque_capacity self.old.waiting }
        ensures waiting { self.new.waiting.items
            ≡ self.old.waiting.items ++ waiting_in plan (S.terms source.now) }
        ensures end { (place : ℕ) → unwrap_or self.new.planned_end place
            ≡ last_of (unwrap_or self.old.planned_end place) (map (λ t. t.byte_range.end) (S.terms source.now)) }
        ensures fits { unwrap_or self.new.planned_end 0 < 2 ^ 64 }
        ensures rest { self.new ≡ record self.old {
          plans = plan;
          planned_end = self.new.planned_end;
          waiting = self.new.waiting;
        } }
    {
        queue_terms(&mut self.waiting, plan, source);
        self.plans = plan;
        self.planned_end = end_after(self.planned_end, source);
    }

    /// Moves the first waiting term to those that are admitted.
    pub fn admit(&mut self, next: WaitingTerm) -> Result<(), AllocError>
        requires { self.old.written + self.old.unwritten + next.length < 2 ^ 64 }
        ensures ok { OnOk result (IsAdmitted self.old self.new next) }
        ensures err { OnErr result (SameIndex self.old self.new) }
    {
        if next.length == 0 {
            self.waiting.pop_front();
            return Ok(());
        }
        let end = self.written + self.unwritten + next.length;
        self.unfinished.reserve(1)?;
        self.blocks.put_end(next.id, end)?;
        self.unfinished
            .push_back_reserved(UnfinishedTerm { id: next.id, end });
        self.waiting.pop_front();
        self.unwritten += next.length;
        Ok(())
    }

    /// Counts written bytes of the oldest unfinished term.
    pub fn write(&mut self, taken: u64)
        requires written { self.old.written + taken < 2 ^ 64 }
        requires unwritten { taken ≤ self.old.unwritten }
        ensures unfinished { self.new.unfinished.items ≡ finished (self.old.written + taken) self.old.unfinished.items }
        ensures rest { self.new ≡ record self.old {
          written = self.old.written + taken;
          unwritten = self.old.unwritten - taken;
          unfinished = self.new.unfinished;
        } }
    {
        self.written += taken;
        self.unwritten -= taken;
        let whole = match self.unfinished.front() {
            Some(front) => front.end == self.written,
            None => false,
        };
        if whole {
            self.unfinished.pop_front();
        }
    }
}

/// Puts the terms of a plan behind those that wait.
fn queue_terms<S: PlanSource>(waiting: &mut VecDeque<WaitingTerm>, plan: u64, source: &S)
    requires { deque_len waiting.old + length (S.terms source.now) ≤ deque_capacity waiting.old }
    ensures { waiting.new.items ≡ waiting.old.items ++ waiting_in plan (S.terms source.now) }
{
    for at in 0..source.term_count() {
        let term = source.term(at);
        let id = BlockId {
            plan,
            block: term.block,
        };
        let length = term.byte_range.end.saturating_sub(term.byte_range.start);
        waiting.push_back_reserved(WaitingTerm { id, length });
    }
}

/// Whether the terms of a plan adjoin from this place on, none is reversed and each has one of its blocks.
pub fn adjoin<S: PlanSource>(source: &S, place: u64) -> bool
    ensures yes { result ≡ true → Adjoin place (length (S.blocks source.now)) (S.terms source.now) }
    ensures no { result ≡ false → Adjoin place (length (S.blocks source.now)) (S.terms source.now) → ⊥ }
{
    let blocks = source.block_count();
    let mut end = place;
    for at in 0..source.term_count() {
        let term = source.term(at);
        if term.byte_range.start != end || term.byte_range.end < end || term.block >= blocks {
            return false;
        }
        end = term.byte_range.end;
    }
    true
}

/// Where all planned terms end, with those of this plan after those that were planned before.
fn end_after<S: PlanSource>(before: Option<u64>, source: &S) -> Option<u64>
    ensures end { (place : ℕ) → unwrap_or result place
        ≡ last_of (unwrap_or before place) (map (λ t. t.byte_range.end) (S.terms source.now)) }
    ensures fits { unwrap_or result 0 < 2 ^ 64 }
{
    match source.term_count().checked_sub(1) {
        Some(last) => Some(source.term(last).byte_range.end),
        None => before,
    }
}
