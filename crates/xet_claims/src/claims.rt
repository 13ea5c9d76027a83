//! Numbers that passes draw, each once, over two atomic words.
ghost use Rattle.std.specs.Prelude.{◌≡◌, ℕ, ◌^◌, ◌<◌, ◌≤◌, [], length, IfOk, IfSome, IfNone, MatchBool, false};

use crate::claim_rule::{Both, Draw, Limits, Look, One, Pool, Stop, View};
use atomic_table::{Seat, Table};
use std::alloc::Global;
use xet_base::{List, OutOfMemory};

/// The numbers from 0 to before a count, each of which one pass draws, and a mark that stops the passes. Threads share
/// it by reference; each draws with a pass of its own.
///
/// In place of the tasks that `xet-data` spawns for the blocks of a file.
#[derive(Drop)]
pub struct Claims {
    pub(crate) table: Table<(), View, Limits, Pool, Global>,
    pub(crate) count: u64,
    pub(crate) passes: u32,
    ghost some: { 0 < passes },
    ghost two: { table.shared.table_id.words ≡ 2 },
    ghost no_slot: { table.shared.table_id.slots ≡ 0 },
    ghost key: { table.shared.key ≡ record { count = count; passes = passes } },
}

/// What a lane draws numbers with. It takes no memory.
#[derive(Drop)]
pub struct ClaimPass {
    pub(crate) seat: Seat<(), View>,
    ghost bare: { seat.me.1 ≡ [] },
}

impl Claims {
    ghost use Rattle.std.specs.Prelude.{All};
    ghost use Rattle.xet_claims.specs.ClaimViews.{newcomer, gained, missed, halted, saw, times, once_below};
    ghost use Rattle.xet_claims.specs.ClaimPasses.{IsPassOf, IsFresh, pass_view, weight_of, misses_of, drawn_of};
    ghost use Rattle.xet_claims.specs.ClaimPasses.{raised_count, stopped_count};
    ghost use Rattle.xet_claims.specs.steps.PoolRule.{lighter, apart, gathered};

    /// One pass with all the weight.
    fn alone(alloc: Global, count: u64, passes: u32) -> Result<(Claims, ClaimPass), OutOfMemory>
        requires { (count ≤ 2 ^ 63) × (1 ≤ passes) }
        ensures counts { IfOk result (λ r. (r.0.count ≡ count) × (r.0.passes ≡ passes)) }
        ensures pass { IfOk result (λ r. IsPassOf r.0 r.1 × (pass_view r.1 ≡ newcomer passes count)) }
    {
        let (table, seat) = Table::of_words(alloc, &[0, 0], &Limits { count, passes })?;
        Ok((
            Claims {
                table,
                count,
                passes,
            },
            ClaimPass { seat },
        ))
    }

    /// The numbers from 0 to before `count`, of which none is drawn, and so many passes that draw them.
    ///
    /// `OutOfMemory` where an allocation was refused.
    pub fn new(
        alloc: Global,
        count: u64,
        passes: u32,
    ) -> Result<(Claims, List<ClaimPass>), OutOfMemory>
        requires { (count ≤ 2 ^ 63) × (1 ≤ passes) }
        ensures claims { IfOk result (λ r. (r.0.count ≡ count) × (r.0.passes ≡ passes) × (length r.1 ≡ passes)) }
        ensures passes { IfOk result (λ r. All (λ p. IsPassOf r.0 p × (pass_view p ≡ newcomer 1 count)) r.1) }
    {
        let (claims, mut first) = Claims::alone(alloc, count, passes)?;
        let mut all = Vec::new(alloc);
        let mut left = passes;
        while left > 1 {
            all.push(claims.split(&mut first))?;
            left -= 1;
        }
        all.push(first)?;
        Ok((claims, List::from_vec(all)))
    }

    /// How many numbers were drawn. The passes drew each number below that once, and no other; it is the count where a
    /// pass drew None. Where none of the passes set the mark, none saw it.
    pub fn close(self, passes: List<ClaimPass>) -> u64
        requires of { All (λ p. IsPassOf self p) passes }
        requires all { weight_of passes ≡ self.passes }
        ensures all { (x : ℕ) → times x (drawn_of passes) ≡ once_below x result }
        ensures bound { result ≤ self.count }
        ensures none { 0 < misses_of passes → result ≡ self.count }
        ensures quiet { raised_count passes ≡ 0 → stopped_count passes ≡ 0 }
    {
        self.close_all(passes.into_inner())
    }

    fn close_all(self, mut passes: Vec<ClaimPass>) -> u64
        requires of { All (λ p. IsPassOf self p) passes.items }
        requires all { weight_of passes.items ≡ self.passes }
        ensures all { (x : ℕ) → times x (drawn_of passes.items) ≡ once_below x result }
        ensures bound { result ≤ self.count }
        ensures none { 0 < misses_of passes.items → result ≡ self.count }
        ensures quiet { raised_count passes.items ≡ 0 → stopped_count passes.items ≡ 0 }
    {
        let Some(mut whole) = passes.pop() else {
            unreachable!()
        };
        while let Some(next) = passes.pop() {
            self.gather(&mut whole, next);
        }
        let Claims { table, count, .. } = self;
        let ClaimPass { seat } = whole;
        let closed = table.close_with(seat);
        let taken = closed.word(0);
        closed.free();
        taken.min(count)
    }

    /// A number below the count that no other draw gives, or None where all were drawn. It is one `fetch_add` on the
    /// first word, and takes neither memory nor a lock.
    pub fn draw(&self, pass: &mut ClaimPass) -> Option<u64>
        requires of { IsPassOf self.now pass.old }
        requires fresh { IsFresh pass.old }
        ensures of { IsPassOf self.now pass.new }
        ensures some { IfSome result (λ n. (n < self.now.count)
            × (pass_view pass.new ≡ gained (pass_view pass.old) n)) }
        ensures none { IfNone result (pass_view pass.new ≡ missed (pass_view pass.old)) }
    {
        let found = self.table.shared.fetch_add::<Draw>(&mut pass.seat, 0, 1);
        if found < self.count {
            Some(found)
        } else {
            None
        }
    }

    /// Sets the mark, which stays. It takes neither memory nor a lock.
    pub fn stop(&self, pass: &mut ClaimPass)
        requires of { IsPassOf self.now pass.old }
        ensures of { IsPassOf self.now pass.new }
        ensures stopped { pass_view pass.new ≡ halted (pass_view pass.old) }
    {
        self.table.shared.store::<Stop>(&mut pass.seat, 1, 1);
    }

    /// Whether the mark was set. It is seen by the pass that set it, and by one that saw it before. It takes neither
    /// memory nor a lock.
    pub fn stopped(&self, pass: &mut ClaimPass) -> bool
        requires of { IsPassOf self.now pass.old }
        ensures of { IsPassOf self.now pass.new }
        ensures seen { MatchBool result (pass_view pass.new ≡ saw (pass_view pass.old))
            ((pass_view pass.new ≡ pass_view pass.old) × ((pass_view pass.old).stopped ≡ false)) }
    {
        self.table.shared.load::<Look>(&mut pass.seat, 1) == 1
    }

    /// A pass of weight 1, taken from one that weighs more.
    fn split(&self, pass: &mut ClaimPass) -> ClaimPass
        requires of { IsPassOf self.now pass.old }
        requires heavy { (1 < (pass_view pass.old).weight) × IsFresh pass.old }
        ensures of { IsPassOf self.now pass.new × IsPassOf self.now result }
        ensures left { pass_view pass.new ≡ lighter (pass_view pass.old) }
        ensures right { pass_view result ≡ apart (pass_view pass.old) }
    {
        let seat = self.table.shared.split_seat::<One>(&mut pass.seat);
        ClaimPass { seat }
    }

    /// Takes in another pass.
    fn gather(&self, pass: &mut ClaimPass, other: ClaimPass)
        requires of { IsPassOf self.now pass.old × IsPassOf self.now other }
        ensures of { IsPassOf self.now pass.new }
        ensures both { pass_view pass.new ≡ gathered (pass_view pass.old) (pass_view other) }
    {
        let ClaimPass { seat } = other;
        self.table.shared.join_seat::<Both>(&mut pass.seat, seat);
    }
}
