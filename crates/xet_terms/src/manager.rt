//! Cuts a range of a file into queries, and hands their plans out in order.
ghost use Rattle.std.specs.Prelude.{◌≡◌, ◌+◌, ◌-◌, ◌<◌, ◌≤◌, ◌||◌, ◌&&◌, nat_le, ℕ, [], ◌∷◌, Bool, false, true, OnOk};
ghost use Rattle.std.specs.Prelude.{OnErr, IfOk, IfErr, Err, Some, None, Ok, nat_lt, slice_get, length, MatchOption};
ghost use Rattle.std.specs.Prelude.{IfSome, IfNone, cond, min, ◌⊎◌, ◌*◌};
ghost use Rattle.std.specs.List.Sorted.{IsNonDecreasingBy, IsPartitionPoint};
ghost use Rattle.xet_outside.specs.Told.{ClientTold};
ghost use Rattle.xet_terms.specs.Managers.{IsCovered, IsManager, Manager, PassesKnownEnd, ReachesEnd, accepted, begun};
ghost use Rattle.xet_terms.specs.Managers.{bounded};
ghost use Rattle.xet_terms.specs.Managers.{cut_at, ends_early, looked_ahead, scheduled, scheduled_end, settled};
ghost use Rattle.xet_terms.specs.Managers.{with_answer};
ghost use Rattle.xet_terms.specs.NextTerms.{AskCall, DueCall, NextCall, reopened};
ghost use Rattle.xet_terms.specs.Queries.{CutFrom, end_from};
ghost use Rattle.xet_terms.specs.Settings.{failing_size_of};

use crate::planned_bytes::PlannedBytes;
use crate::reconstruction_config::ReconstructionConfig;
use std::alloc::Global;
use std::collections::VecDeque;
use std::marker::Model;
use std::sync::Wait;
use xet_base::{FileRange, MerkleHash, UniqueId};
use xet_blocks::{FetchPolicy, PrefetchView, TermBlock, retrieve_file_term_block};
use xet_error::{Corruption, FileReconstructionError, Result};
use xet_outside::Client;
use xet_progress::ItemProgressUpdater;

/// A query that is to be asked, and the id that its plan gets: the query's number, from 1.
#[derive(Clone, Copy, PartialEq, Eq)]
pub struct PlanDue {
    /// The bytes of the file that are asked for, half open.
    pub query: FileRange,
    /// The id of its plan.
    pub id: UniqueId,
}

/// Cuts a range of a file into queries, as far ahead as a policy says, and hands their plans out in order. Contracts
/// see it as a `Manager` of `specs/Managers`.
///
/// In the Rust crate: `file_reconstruction::reconstruction_terms::manager::ReconstructionTermManager`.
#[derive(Drop)]
pub struct ReconstructionTermManager<P: FetchPolicy> {
    file_hash: MerkleHash,
    range: FileRange,
    least: u64,
    greatest: u64,
    buffer: u64,
    multirange: bool,
    // those that were asked, then those that are scheduled
    queries: Vec<FileRange>,
    asked: usize,
    answered: usize,
    known_end: u64,
    ended: bool,
    waiting: VecDeque<TermBlock>,
    handed_end: u64,
    failed: Option<FileReconstructionError>,
    policy: P,
    progress: Option<ItemProgressUpdater>,
    // what was reported: the bytes of the plans that were taken, and their transfer bytes, sums that stop at `u64::MAX`
    planned: PlannedBytes,
}

impl<P: FetchPolicy> Model for ReconstructionTermManager<P> {
    ghost use Rattle.xet_terms.specs.Managers.{IsManager, Manager};

    ghost Value = { Manager };

    ghost view = { λ m. record {
      file = m.file_hash;
      range = m.range;
      least = m.least;
      greatest = m.greatest;
      buffer = m.buffer;
      multirange = m.multirange;
      queries = m.queries.items;
      asked = m.asked;
      answered = m.answered;
      known_end = m.known_end;
      ended = m.ended;
      waiting = m.waiting.items;
      handed_end = m.handed_end;
      failed = m.failed;
      planned = m.planned;
      progress = m.progress;
    } };

    ghost invariant = { λ m. IsManager (record {
      file = m.file_hash;
      range = m.range;
      least = m.least;
      greatest = m.greatest;
      buffer = m.buffer;
      multirange = m.multirange;
      queries = m.queries.items;
      asked = m.asked;
      answered = m.answered;
      known_end = m.known_end;
      ended = m.ended;
      waiting = m.waiting.items;
      handed_end = m.handed_end;
      failed = m.failed;
      planned = m.planned;
      progress = m.progress;
    }) };
}

impl<P: FetchPolicy + Drop> ReconstructionTermManager<P> {
    /// A manager of a range, with a query of the least size scheduled and then one of twice that size.
    ///
    /// `ConfigurationError` exactly where a fetch size of the settings fails, with the first that does. `OutOfMemory`
    /// where an allocation was refused.
    ///
    /// In the Rust crate: `file_reconstruction::reconstruction_terms::manager::ReconstructionTermManager::new`.
    pub fn new(
        alloc: Global,
        config: &ReconstructionConfig,
        file_hash: MerkleHash,
        file_byte_range: FileRange,
        policy: P,
        progress: Option<ItemProgressUpdater>,
    ) -> Result<ReconstructionTermManager<P>>
        ensures fails { MatchOption (failing_size_of config.now)
            (IfErr result (λ e. e ≡ FileReconstructionError.OutOfMemory))
            (λ s. result ≡ Err (FileReconstructionError.ConfigurationError s)) }
        ensures begun { IfOk result (λ m. m ≡ begun file_hash file_byte_range config.now progress) }
    {
        if let Some(setting) = config.failing_size() {
            return Err(FileReconstructionError::ConfigurationError(setting));
        }
        let least = config.min_reconstruction_fetch_size;
        let mut manager = ReconstructionTermManager {
            file_hash,
            range: file_byte_range,
            least,
            greatest: config.max_reconstruction_fetch_size,
            buffer: config.min_prefetch_buffer,
            multirange: config.enable_multirange_fetching,
            queries: Vec::new(alloc),
            asked: 0,
            answered: 0,
            known_end: u64::MAX,
            ended: false,
            waiting: VecDeque::new(alloc),
            handed_end: file_byte_range.start,
            failed: None,
            policy,
            progress,
            planned: PlannedBytes::new(),
        };
        manager.schedule_first()?;
        Ok(manager)
    }
}

impl<P: FetchPolicy> ReconstructionTermManager<P> {
    /// Schedules a query of the least size, and then one of twice that size.
    fn schedule_first(&mut self) -> Result<()>
        ensures ok { OnOk result (let n = record self.old { queries = scheduled self.old self.old.least } in
            self.new ≡ record n { queries = scheduled n (bounded (n.least * 2)) }) }
        ensures memory { IfErr result (λ e. e ≡ FileReconstructionError.OutOfMemory) }
    {
        let least = self.least;
        self.schedule(least)?;
        self.schedule(least.saturating_mul(2))
    }

    /// The queries, those that were asked and then those that are scheduled.
    pub fn queries(&self) -> &[FileRange]
        ensures list { result.now ≡ self.now.queries }
        ensures kept { IsManager self.now }
    {
        self.queries.as_slice()
    }

    /// The oldest scheduled query, which counts as asked from now on; none exactly where none is scheduled.
    pub fn due(&mut self) -> Option<PlanDue>
        ensures none { IfNone result ((slice_get self.old.queries self.old.asked ≡ None) × (self.new ≡ self.old)) }
        ensures some { IfSome result (λ d. (slice_get self.old.queries self.old.asked ≡ Some d.query)
            × (d.id ≡ record { plan = self.old.asked + 1; refresh = 0 })
            × (self.new ≡ record self.old { asked = self.old.asked + 1 })) }
        ensures kept { IsManager self.new }
    {
        let query = self.queries.as_slice().get(self.asked).copied()?;
        self.asked += 1;
        Some(PlanDue {
            query,
            id: UniqueId {
                plan: self.asked as u64,
                refresh: 0,
            },
        })
    }

    /// The oldest answered plan with terms that was not handed out; none exactly where none waits.
    pub fn hand_out(&mut self) -> Option<TermBlock>
        ensures { MatchOption result ((self.old.waiting ≡ []) × (self.new ≡ self.old))
            (λ b. (self.old.waiting ≡ b ∷ self.new.waiting)
            × (self.new ≡ record self.old { waiting = self.new.waiting; handed_end = b.byte_range.end })) }
    {
        let block = self.waiting.pop_front()?;
        self.handed_end = block.byte_range.end;
        Some(block)
    }

    /// The answered plan with terms that was taken last and not handed out; none exactly where none waits.
    pub fn newest(&self) -> Option<&TermBlock>
        ensures { MatchOption result (self.now.waiting ≡ [])
            (λ b. slice_get self.now.waiting (length self.now.waiting - 1) ≡ Some b.now) }
    {
        self.waiting.back()
    }

    /// Looks at the buffer and schedules at most one query: nothing where the queries reach the known end, or where a
    /// plan waits and enough bytes are planned ahead; else one of as many bytes as are missing.
    ///
    /// `OutOfMemory` where an allocation was refused, and then nothing is scheduled.
    pub fn look_ahead(&mut self) -> Result<()>
        ensures ok { OnOk result ((answer : ℕ) × (self.new ≡ looked_ahead self.old answer)) }
        ensures ahead { OnOk result (self.old.waiting ≡ []
            → scheduled_end self.old < min self.old.known_end self.old.range.end
            → length self.new.queries ≡ length self.old.queries + 1) }
        ensures kept { OnErr result (self.new ≡ self.old) }
        ensures memory { IfErr result (λ e. e ≡ FileReconstructionError.OutOfMemory) }
    {
        let end = scheduled_end(self.queries.as_slice(), self.range.start);
        if self.known_end <= end {
            return Ok(());
        }
        let view = PrefetchView {
            waiting_plans: self.waiting.len(),
            waiting_bytes: waiting_bytes(&self.waiting, self.handed_end),
        };
        let target = self.policy.prefetch_buffer_size(view).max(self.buffer);
        let size = end.saturating_sub(self.handed_end);
        let enough = is_enough(self.waiting.len(), target, size);
        if enough {
            return Ok(());
        }
        self.schedule(target.saturating_sub(size))
    }

    /// Takes the answer to the oldest asked query without one: none where it was past the end, else a plan with terms.
    ///
    /// `PastKnownEnd` exactly where there are terms and the query starts at or past the known end. `OutOfMemory` where
    /// an allocation was refused. After an error nothing was taken.
    ///
    /// With progress the bytes and transfer bytes of all plans that were taken are reported, as the item's size and as
    /// what is to be transferred for it; the size is final once a query was past the end. A refused report changes
    /// nothing.
    ///
    /// In the Rust crate: a step of `ReconstructionTermManager::next_file_terms`.
    pub fn accept<R: Wait>(&mut self, rt: &R, due: PlanDue, answer: Option<TermBlock>) -> Result<()>
        requires asked { self.old.answered < self.old.asked }
        requires oldest { slice_get self.old.queries self.old.answered ≡ Some due.query }
        ensures past { PassesKnownEnd self.old due.query answer → result
            ≡ Err (FileReconstructionError.CorruptedReconstruction
            (Corruption.PastKnownEnd self.old.known_end due.query.start)) }
        ensures other { IfErr result (λ e. (PassesKnownEnd self.old due.query answer → ⊥)
            → e ≡ FileReconstructionError.OutOfMemory) }
        ensures kept { OnErr result (self.new ≡ self.old) }
        ensures ok { OnOk result (self.new ≡ accepted self.old due.query answer) }
    {
        let planned = self.planned.with(&answer);
        let taken = self.take(due, answer);
        self.report(rt, planned, taken);
        taken
    }

    /// Takes an answer, as `accept` does, and neither counts nor reports it.
    fn take(&mut self, due: PlanDue, answer: Option<TermBlock>) -> Result<()>
        requires asked { self.old.answered < self.old.asked }
        requires oldest { slice_get self.old.queries self.old.answered ≡ Some due.query }
        ensures past { PassesKnownEnd self.old due.query answer → result
            ≡ Err (FileReconstructionError.CorruptedReconstruction
            (Corruption.PastKnownEnd self.old.known_end due.query.start)) }
        ensures other { IfErr result (λ e. (PassesKnownEnd self.old due.query answer → ⊥)
            → e ≡ FileReconstructionError.OutOfMemory) }
        ensures kept { OnErr result (self.new ≡ self.old) }
        ensures ok { OnOk result (self.new ≡ with_answer self.old due.query answer) }
    {
        match answer {
            Some(block) => {
                let (known, start) = (self.known_end, due.query.start);
                if known <= start {
                    return Err(past_known_end(known, start));
                }
                self.take_plan(due.query, block)
            }
            None => {
                let known = self.known_end;
                self.settle(known.min(due.query.start), true);
                Ok(())
            }
        }
    }

    /// Takes a plan as the answer to a query, which starts below the known end.
    fn take_plan(&mut self, query: FileRange, block: TermBlock) -> Result<()>
        requires { self.old.answered < self.old.asked }
        ensures memory { IfErr result (λ e. e ≡ FileReconstructionError.OutOfMemory) }
        ensures kept { OnErr result (self.new ≡ self.old) }
        ensures ok { OnOk result (self.new ≡ with_answer self.old query (Some block)) }
    {
        let (known, end) = (self.known_end, block.byte_range.end);
        if self.waiting.push_back(block).is_err() {
            return Err(FileReconstructionError::OutOfMemory);
        }
        let early = end < query.end;
        self.settle(known_after(known, end, early), early);
        Ok(())
    }

    /// The oldest answered plan, once all due queries were asked on the connection. None exactly where then no answered
    /// plan waits; each byte of the range below the known end was asked then, and the queries reach the range's end or
    /// an answer told an earlier one. A query that was taken by `due` and has no answer is due again.
    ///
    /// An error is that of `retrieve_file_term_block` or of `accept`, or want of memory; it is kept, and every later
    /// call answers it. The plans that were answered before it still wait.
    ///
    /// In the Rust crate:
    /// `file_reconstruction::reconstruction_terms::manager::ReconstructionTermManager::next_file_terms`.
    pub fn next_file_terms<R: Wait, C: Client>(
        &mut self,
        alloc: Global,
        rt: &R,
        client: &mut C,
    ) -> Result<Option<TermBlock>>
        ensures { NextCall self.old self.new (C.told client.old) (C.told client.new) result }
    {
        if let Some(error) = self.failed {
            return Err(error);
        }
        match ask_due(alloc, rt, self, client) {
            Ok(()) => Ok(self.hand_out()),
            Err(error) => {
                self.fail(error);
                Err(error)
            }
        }
    }

    /// Counts what is planned and reports it, once an answer was taken.
    fn report<R: Wait>(&mut self, rt: &R, planned: PlannedBytes, taken: Result<()>)
        ensures counted { OnOk taken (self.new ≡ record self.old { planned = planned }) }
        ensures kept { OnErr taken (self.new ≡ self.old) }
    {
        if taken.is_ok() {
            self.planned = planned;
            planned.report(rt, &self.progress);
        }
    }

    /// Keeps an error.
    fn fail(&mut self, error: FileReconstructionError)
        ensures { self.new ≡ record self.old { failed = Some error } }
    {
        self.failed = Some(error);
    }

    /// Makes the queries without an answer due.
    fn reopen(&mut self)
        ensures queries { self.new ≡ reopened self.old }
        ensures kept { IsManager self.new }
    {
        self.asked = self.answered;
    }

    /// Asks a query that counts as asked, and takes its answer.
    fn ask<R: Wait, C: Client>(
        &mut self,
        alloc: Global,
        rt: &R,
        client: &mut C,
        due: PlanDue,
    ) -> Result<()>
        requires one { self.old.asked ≡ self.old.answered + 1 }
        requires oldest { slice_get self.old.queries self.old.answered ≡ Some due.query }
        ensures { AskCall self.old self.new (C.told client.old) (C.told client.new) due.query due.id result }
    {
        let answer = retrieve_file_term_block(
            alloc,
            client,
            self.file_hash,
            due.query,
            self.multirange,
            due.id,
        )?;
        self.accept(rt, due, answer)
    }

    /// Counts an answer after which this is the known end.
    fn settle(&mut self, known: u64, early: bool)
        requires asked { self.old.answered < self.old.asked }
        requires open { early ≡ false → known ≡ self.old.known_end }
        ensures { self.new ≡ settled self.old known early }
    {
        let kept = count_below(&self.queries.as_slice()[self.asked..], known);
        self.queries.truncate(self.asked + kept);
        self.known_end = known;
        self.ended = either(self.ended, early);
        self.answered += 1;
    }

    /// Schedules a query of this size, where one has room.
    fn schedule(&mut self, size: u64) -> Result<()>
        ensures ok { OnOk result (self.new ≡ record self.old { queries = scheduled self.old size }) }
        ensures kept { OnErr result (self.new ≡ self.old) }
        ensures memory { IfErr result (λ e. e ≡ FileReconstructionError.OutOfMemory) }
    {
        let start = scheduled_end(self.queries.as_slice(), self.range.start);
        let end = cut_end(
            self.least,
            self.greatest,
            self.range,
            self.known_end,
            start,
            size,
        );
        if end <= start {
            return Ok(());
        }
        match self.queries.push(FileRange { start, end }) {
            Ok(()) => Ok(()),
            Err(_) => Err(FileReconstructionError::OutOfMemory),
        }
    }
}

/// Looks at the buffer and asks all due queries in order.
fn ask_due<R: Wait, P: FetchPolicy, C: Client>(
    alloc: Global,
    rt: &R,
    manager: &mut ReconstructionTermManager<P>,
    client: &mut C,
) -> Result<()>
    ensures { DueCall manager.old manager.new (C.told client.old) (C.told client.new) result }
{
    manager.reopen();
    manager.look_ahead()?;
    'due: while let Some(due) = manager.due() {
        manager.ask(alloc, rt, client, due)?;
    }
    Ok(())
}

/// The error of terms that came past the known end.
fn past_known_end(known: u64, start: u64) -> FileReconstructionError
    ensures { result ≡ FileReconstructionError.CorruptedReconstruction (Corruption.PastKnownEnd known start) }
{
    FileReconstructionError::CorruptedReconstruction(Corruption::PastKnownEnd { known, start })
}

/// The known end after terms that end at a place, early or not.
fn known_after(known: u64, end: u64, early: bool) -> u64
    ensures { result ≡ cond early end known }
{
    if early { end } else { known }
}

/// How many of the queries start below a place. They go forward.
fn count_below(queries: &[FileRange], known: u64) -> usize
    requires { IsNonDecreasingBy (λ q. q.start) queries.now }
    ensures below { IsPartitionPoint (λ q. nat_lt q.start known ≡ true) (λ q. nat_lt q.start known ≡ false)
        queries.now result }
    ensures within { result ≤ length queries.now }
{
    queries.partition_point(|query| query.start < known)
}

/// Whether plans wait and enough bytes are planned ahead.
fn is_enough(waiting_plans: usize, target: u64, size: u64) -> bool
    ensures { result ≡ nat_lt 0 waiting_plans && nat_le target size }
{
    0 < waiting_plans && target <= size
}

/// Whether one of two tests holds.
fn either(one: bool, other: bool) -> bool
    ensures { result ≡ one || other }
{
    one || other
}

/// Where the queries end, the first starting at this place.
fn scheduled_end(queries: &[FileRange], place: u64) -> u64
    ensures { result ≡ end_from place queries.now }
{
    match queries.last() {
        Some(query) => query.end,
        None => place,
    }
}

/// The bytes of the plans that wait, which follow one another from the end of the plan that was handed out last.
fn waiting_bytes(waiting: &VecDeque<TermBlock>, handed_end: u64) -> u64 {
    match waiting.back() {
        Some(newest) => newest.byte_range.end.saturating_sub(handed_end),
        None => 0,
    }
}

/// Where a query of this size ends.
fn cut_end(
    least: u64,
    greatest: u64,
    range: FileRange,
    known_end: u64,
    start: u64,
    size: u64,
) -> u64
    ensures { result ≡ cut_at least greatest range known_end start size }
{
    let clamped = size.min(greatest).max(least);
    let end = start.saturating_add(clamped).min(known_end.min(range.end));
    if range.end < end.saturating_add(least) {
        range.end
    } else {
        end
    }
}
