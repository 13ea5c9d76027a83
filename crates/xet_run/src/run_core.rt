//! The core of a run: a history of events, each of which was allowed after those before it.
ghost use Rattle.std.specs.Prelude.{◌≡◌, ◌+◌, ◌≤◌, [], true, false, MatchOption, option_map, slice_get, count_by};
ghost use Rattle.xet_events.specs.Allowed.{IsAllowedHistory, IsRunning, IsMissing, MayAdmit};
ghost use Rattle.xet_run.specs.CoreCalls.{Adds};
ghost use Rattle.xet_events.specs.Events.{planned, plan_count, is_admit, is_kept, written, unwritten, first_error};
ghost use Rattle.xet_events.specs.Indexes.{waiting_of};

use std::alloc::Global;
use std::marker::Model;
use xet_base::FileRange;
use xet_error::FileReconstructionError;
use xet_events::{
    BlockId, CoreRefusal, Event, EventLog, Index, KeptEvents, PlanSource, WaitingTerm, adjoin,
};
use xet_run_rules::may_write;

/// A run's history: each of its events was allowed after those before it. Contracts see it as the list of its events.
///
/// Each event call adds its event, or is refused and leaves the history as it was: `NotAllowed` exactly where the event
/// isn't allowed after the history, `OutOfMemory` where an allocation was refused (and where `u64::MAX` plans have the
/// numbers that there are). None looks through the history: it takes constant time, amortized over the plans and their
/// blocks, or logarithmic time in the stale plans (`expired`, `refreshed`), and `planned` besides linear time in its
/// terms, and in its blocks where events are kept.
///
/// Its log takes the events: `KeptEvents` keeps them to be read, `ToldEvents` tells them to proofs alone. Over that one
/// a core takes memory for what its calls look up alone: terms that wait or aren't wholly written, the marks of blocks,
/// and the stale plans.
///
/// In place of the loop, tasks and semaphore of `file_reconstruction::file_reconstructor` of the Rust crate.
#[derive(Drop)]
pub struct RunCore<E: EventLog = KeptEvents> {
    log: E,
    index: Index,
}

impl<E: EventLog> Model for RunCore<E> {
    ghost use Rattle.std.specs.Prelude.{List};
    ghost use Rattle.xet_events.specs.declared.event.Event.{Event};

    ghost Value = { List Event };

    ghost use Rattle.xet_events.specs.Indexes.{IsIndexed};

    ghost view = { λ c. E.events c.log };

    ghost invariant = { λ c. IsIndexed (E.events c.log) c.index };
}

impl RunCore<KeptEvents> {
    /// The events, oldest first.
    pub fn history(&self) -> &[Event]
        ensures events { result.now ≡ self.now }
        ensures allowed { IsAllowedHistory self.now }
    {
        self.log.as_slice()
    }
}

impl<E: EventLog> RunCore<E> {
    /// A core without events. It takes no memory.
    pub fn new(alloc: Global) -> RunCore<E>
        ensures { result ≡ [] }
    {
        RunCore {
            log: E::new(alloc),
            index: Index::new(alloc),
        }
    }

    /// Does nothing, and tells proofs that the history is an allowed one.
    pub fn check_history(&self)
        ensures { IsAllowedHistory self.now }
    {
        let _ = &self.index;
    }

    /// How many bytes of the admitted terms aren't written.
    pub fn unwritten(&self) -> u64
        ensures { result ≡ unwritten self.now }
    {
        self.index.unwritten
    }

    /// How many bytes were written.
    pub fn written(&self) -> u64
        ensures { result ≡ written self.now }
    {
        self.index.written
    }

    /// Whether the block was fetched or came from the cache.
    pub fn is_kept(&self, plan: u64, block: usize) -> bool
        ensures { result ≡ is_kept self.now plan block }
    {
        self.index.is_kept(BlockId { plan, block })
    }

    /// The error of the first Fail event, or `Cancelled` where Cancel came first.
    pub fn first_error(&self) -> Option<FileReconstructionError>
        ensures { result ≡ first_error self.now }
    {
        self.index.first_error
    }

    /// Records the plan of a query, with the terms and blocks of its source; its number is the next one. A query past
    /// the file's end is a plan without terms. A log that keeps events takes room for those that terms and blocks have
    /// in a run that goes well, and copies the terms and blocks.
    ///
    /// Allowed where no Fail or Cancel came, the terms adjoin from where the planned terms end (from the query's start
    /// where nothing is planned yet), none is reversed, and each has one of the blocks.
    pub fn planned<S: PlanSource>(
        &mut self,
        alloc: Global,
        query: FileRange,
        source: &S,
    ) -> Result<(), CoreRefusal>
        ensures { Adds self.old self.new
            (Event.Planned (plan_count self.old + 1) query (S.terms source.now) (S.blocks source.now)) result }
    {
        if self.index.first_error.is_some() {
            return Err(CoreRefusal::NotAllowed);
        }
        let place = self.index.planned_end.unwrap_or(query.start);
        if !adjoin(source, place) {
            return Err(CoreRefusal::NotAllowed);
        }
        let Some(plan) = self.index.plans.checked_add(1) else {
            return Err(CoreRefusal::OutOfMemory);
        };
        let terms = source.term_count();
        self.log.reserve(event_room(terms, source.block_count()))?;
        self.index.make_room(terms)?;
        self.log.push_planned(alloc, plan, query, source)?;
        self.index.add_plan(plan, source);
        Ok(())
    }

    /// Admits the next planned term, while at most `limit` bytes may be unwritten.
    ///
    /// Allowed where no Fail or Cancel came, a planned term isn't admitted, and no bytes are unwritten or with its
    /// length they are at most the limit.
    pub fn admit(&mut self, limit: u64) -> Result<(), CoreRefusal>
        ensures { Adds self.old self.new (Event.Admit limit) result }
    {
        let Some(next) = self.next_to_admit(limit) else {
            return Err(CoreRefusal::NotAllowed);
        };
        self.log.reserve(1)?;
        self.index.admit(next)?;
        self.log.push_reserved(Event::Admit { limit });
        Ok(())
    }

    /// Records that a lane fetched a block.
    ///
    /// Allowed where no Fail or Cancel came, an admitted term that isn't wholly written has the block, and the block
    /// isn't kept. An empty term counts as written.
    pub fn fetched(&mut self, lane: u32, plan: u64, block: usize) -> Result<(), CoreRefusal>
        ensures { Adds self.old self.new (Event.Fetched lane plan block) result }
    {
        if !self.may_fetch(plan, block) {
            return Err(CoreRefusal::NotAllowed);
        }
        self.log.reserve(1)?;
        self.index.keep(BlockId { plan, block })?;
        self.log.push_reserved(Event::Fetched { lane, plan, block });
        Ok(())
    }

    /// Records that the cache gave a block. Allowed where it may be fetched.
    pub fn cached(&mut self, plan: u64, block: usize) -> Result<(), CoreRefusal>
        ensures { Adds self.old self.new (Event.Cached plan block) result }
    {
        if !self.may_fetch(plan, block) {
            return Err(CoreRefusal::NotAllowed);
        }
        self.log.reserve(1)?;
        self.index.keep(BlockId { plan, block })?;
        self.log.push_reserved(Event::Cached { plan, block });
        Ok(())
    }

    /// Records that a lane was answered that a block's URL has expired. Allowed where it may be fetched.
    pub fn expired(&mut self, lane: u32, plan: u64, block: usize) -> Result<(), CoreRefusal>
        ensures { Adds self.old self.new (Event.Expired lane plan block) result }
    {
        if !self.may_fetch(plan, block) {
            return Err(CoreRefusal::NotAllowed);
        }
        self.log.reserve(1)?;
        self.index.expire(plan)?;
        self.log.push_reserved(Event::Expired { lane, plan, block });
        Ok(())
    }

    /// Records that the URLs of a plan were asked for anew.
    ///
    /// Allowed where no Fail or Cancel came, and the plan has an Expired event since its last Refreshed event.
    pub fn refreshed(&mut self, plan: u64) -> Result<(), CoreRefusal>
        ensures { Adds self.old self.new (Event.Refreshed plan) result }
    {
        if self.index.first_error.is_some() || !self.index.is_stale(plan) {
            return Err(CoreRefusal::NotAllowed);
        }
        self.log.reserve(1)?;
        self.index.refresh(plan);
        self.log.push_reserved(Event::Refreshed { plan });
        Ok(())
    }

    /// Records that so many bytes of the oldest admitted term that isn't wholly written were written.
    ///
    /// Allowed where no Fail or Cancel came, it is at least one byte, that term's block is kept, and it has so many
    /// bytes left.
    pub fn wrote(&mut self, taken: u64) -> Result<(), CoreRefusal>
        ensures { Adds self.old self.new (Event.Wrote taken) result }
    {
        if !may_write(&self.index, taken) {
            return Err(CoreRefusal::NotAllowed);
        }
        self.log.reserve(1)?;
        self.index.write(taken);
        self.log.push_reserved(Event::Wrote { taken });
        Ok(())
    }

    /// Records an error. A later one doesn't change the first.
    ///
    /// Allowed where no Cancel came.
    pub fn fail(&mut self, error: FileReconstructionError) -> Result<(), CoreRefusal>
        ensures { Adds self.old self.new (Event.Fail error) result }
    {
        if self.index.cancelled {
            return Err(CoreRefusal::NotAllowed);
        }
        self.log.reserve(1)?;
        self.index.first_error = self.index.first_error.or(Some(error));
        self.log.push_reserved(Event::Fail { error });
        Ok(())
    }

    /// Records that the run was cancelled.
    ///
    /// Allowed where no Fail or Cancel came.
    pub fn cancel(&mut self) -> Result<(), CoreRefusal>
        ensures { Adds self.old self.new Event.Cancel result }
    {
        if self.index.first_error.is_some() {
            return Err(CoreRefusal::NotAllowed);
        }
        self.log.reserve(1)?;
        self.index.first_error = Some(FileReconstructionError::Cancelled);
        self.index.cancelled = true;
        self.log.push_reserved(Event::Cancel);
        Ok(())
    }

    /// Whether a block may be fetched: the run goes on, an unfinished term has it and it isn't kept.
    fn may_fetch(&self, plan: u64, block: usize) -> bool
        ensures yes { result ≡ true → IsRunning self.now × IsMissing self.now plan block }
        ensures no { result ≡ false → IsRunning self.now → IsMissing self.now plan block → ⊥ }
    {
        if self.index.first_error.is_some() {
            return false;
        }
        self.index.is_missing(BlockId { plan, block })
    }

    /// The next planned term, where it may be admitted under this limit.
    fn next_to_admit(&self, limit: u64) -> Option<WaitingTerm>
        ensures { MatchOption result (IsRunning self.now → MayAdmit limit self.now → ⊥)
            (λ t. IsRunning self.now × MayAdmit limit self.now
            × (option_map waiting_of (slice_get (planned self.now) (count_by is_admit self.now)) ≡ Some t)) }
    {
        if self.index.first_error.is_some() {
            return None;
        }
        let Some(next) = self.index.next_waiting() else {
            return None;
        };
        if self.index.unwritten == 0 {
            return Some(next);
        }
        match self.index.unwritten.checked_add(next.length) {
            Some(total) if total <= limit => Some(next),
            _ => None,
        }
    }
}

/// How many events a plan with so many terms and blocks has in a run that goes well, and some more: its own, one for
/// the admission and one for the writing of each term, and one for each block.
fn event_room(terms: usize, blocks: usize) -> usize
    ensures { 1 ≤ result }
{
    terms
        .saturating_mul(2)
        .saturating_add(blocks)
        .saturating_add(16)
}
