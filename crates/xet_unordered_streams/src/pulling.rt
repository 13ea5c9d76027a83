//! One pull of an unordered stream.
ghost use Rattle.std.specs.Prelude.{◌≡◌, MatchOption, length, map};
ghost use Rattle.xet_stream_rules.specs.Streams.{IsOpen};
ghost use Rattle.xet_events.specs.Allowed.{IsAllowedHistory};
ghost use Rattle.xet_unordered_streams.specs.Items.{ArePassed, ItemCall};
ghost use Rattle.xet_unordered_streams.specs.Placing.{is_early};
ghost use Rattle.xet_unordered_streams.specs.steps.Pulling.{AdmitCall, AheadCall, AwaitedView, BlockCall, EarlyIn};
ghost use Rattle.xet_unordered_streams.specs.steps.Pulling.{EarlyNext};
ghost use Rattle.xet_unordered_streams.specs.steps.Pulling.{FreeStep, GoesOnCall, InOrderCall, IsAwaitedIn};
ghost use Rattle.xet_unordered_streams.specs.steps.Pulling.{IsFreeCaught};
ghost use Rattle.xet_unordered_streams.specs.steps.Pulling.{IsFreeStep, MayStepCall, OneCall, OrderedCall, RecordCall};
ghost use Rattle.xet_unordered_streams.specs.steps.Pulling.{ServeCall};

use crate::early_terms::EarlyTerms;
use crate::hints::{look_at_admitted, next_awaited};
use crate::unordered_download_stream::UnorderedDownloadStream;
use bytes::Bytes;
use std::alloc::Global;
use std::sync::Wait;
use xet_blocks::FetchPolicy;
use xet_error::Result;
use xet_leader::{BlockAt, Leader, NextTerm, next_of};
use xet_outside::{ChunkCache, Client};
use xet_ready_terms::{BlockKey, ReadyTerms};
use xet_run::EventLog;
use xet_stream_rules::Step;
use xet_streams::Stepper;

impl<P: FetchPolicy + Drop> UnorderedDownloadStream<P> {
    /// One step: a piece and its place, counted from the range's start, none at the end, or that none is there yet.
    ///
    /// Before it asks anything it admits terms as the limits allow. A term that is admitted, whose block is kept and
    /// that wasn't given is given at once; else a block that an admitted term waits for is looked for and asked for,
    /// of several in turn, and a plan where all planned terms were given. What a step asks, and of whom, and the errors
    /// are those of `DownloadStream::next`.
    ///
    /// In the Rust crate: `UnorderedDownloadStream::next`.
    pub fn next<R: Wait, C: Client, K: ChunkCache>(
        &mut self,
        rt: &R,
        alloc: Global,
        clients: &mut [C],
        cache: &mut K,
    ) -> Result<Step<Option<(u64, Bytes)>>>
        ensures { ItemCall self.old self.new (map C.told clients.old) (map C.told clients.new) (K.told cache.old)
            (K.told cache.new) result }
    {
        self.started = true;
        match self.go_ahead(rt) {
            Ok(()) => {
                let answer = self.go_on(rt, alloc, clients, cache);
                self.check_places();
                answer
            }
            Err(error) => {
                self.check_places();
                Err(error)
            }
        }
    }

    /// What it keeps of its places.
    pub(crate) fn check_places(&self)
        ensures allowed { IsAllowedHistory self.now.stream.events }
        ensures passed { ArePassed self.now }
    {
        let _ = &self.delivered;
    }

    /// Records as written the terms before the first one that wasn't given, and admits those that wait, where it is
    /// open.
    fn go_ahead<R: Wait>(&mut self, rt: &R) -> Result<()>
        ensures { AheadCall self.old self.new result }
    {
        if !self.stepper.is_open() {
            return Ok(());
        }
        match self.record_early() {
            Ok(()) => self.admit(rt),
            Err(error) => Err(error),
        }
    }

    /// Records as written the terms before the first one that wasn't given.
    fn record_early(&mut self) -> Result<()>
        requires { IsOpen self.old.stream }
        ensures { RecordCall self.old self.new result }
    {
        'early: loop {
            match self.record_one() {
                Ok(true) => {}
                Ok(false) => return Ok(()),
                Err(error) => return Err(error),
            }
        }
    }

    /// Records the next term as written, where it was given. Whether it was.
    fn record_one(&mut self) -> Result<bool>
        requires { IsOpen self.old.stream }
        ensures { OneCall self.old self.new result }
    {
        self.stepper.check_open();
        match early_next(&self.stepper, &self.early) {
            Some(next) => {
                let answer = self.stepper.record_given(next);
                self.stepper.check_history();
                answer
            }
            None => Ok(false),
        }
    }

    /// Admits the terms that wait, as the limits allow.
    fn admit<R: Wait>(&mut self, rt: &R) -> Result<()>
        requires { IsOpen self.old.stream }
        ensures { AdmitCall self.old self.new result }
    {
        let answer = self.stepper.admit_ahead(rt);
        self.stepper.check_history();
        answer
    }

    /// A pull after that: a due term that is known, a block that is awaited, or a pull in order.
    fn go_on<R: Wait, C: Client, K: ChunkCache>(
        &mut self,
        rt: &R,
        alloc: Global,
        clients: &mut [C],
        cache: &mut K,
    ) -> Result<Step<Option<(u64, Bytes)>>>
        requires { IsFreeCaught self.old }
        ensures { GoesOnCall self.old self.new (map C.told clients.old) (map C.told clients.new) (K.told cache.old)
            (K.told cache.new) result }
    {
        if !self.may_step(clients.len()) {
            return self.pull_in_order(rt, alloc, clients, cache);
        }
        self.note();
        match self.give_known(rt, alloc) {
            Some(answer) => answer,
            None => self.provide_next(rt, alloc, clients, cache),
        }
    }

    /// Looks at the terms that were admitted since the hints were made.
    fn note(&mut self)
        ensures { self.new ≡ self.old }
    {
        note_admitted(&self.stepper, &mut self.terms);
    }

    /// The block of the next term had expired.
    fn mark_late(&mut self)
        ensures { self.new ≡ self.old }
    {
        self.terms.late = true;
    }

    /// The next block that an admitted term waits for.
    fn awaited(&mut self) -> Option<BlockAt>
        ensures same { self.new ≡ self.old }
        ensures place { MatchOption result (Unit {0}) (IsAwaitedIn self.old) }
    {
        awaited_next(&self.stepper, &mut self.terms)
    }

    /// Whether a step may be taken over so many connections, after its own flag was asked.
    fn may_step(&mut self, connections: usize) -> bool
        ensures { MayStepCall self.old self.new connections result }
    {
        self.stepper.may_step(connections)
    }

    /// Provides the next block that an admitted term waits for, else it is a pull in order.
    fn provide_next<R: Wait, C: Client, K: ChunkCache>(
        &mut self,
        rt: &R,
        alloc: Global,
        clients: &mut [C],
        cache: &mut K,
    ) -> Result<Step<Option<(u64, Bytes)>>>
        requires { IsFreeStep self.old (length clients.old) }
        ensures { FreeStep self.old self.new (map C.told clients.old) (map C.told clients.new) (K.told cache.old)
            (K.told cache.new) result }
    {
        match self.awaited() {
            Some(place) => self.serve(rt, alloc, clients, cache, place),
            None => self.pull_in_order(rt, alloc, clients, cache),
        }
    }

    /// Provides a block that an admitted term waits for, and gives a term that is due then.
    fn serve<R: Wait, C: Client, K: ChunkCache>(
        &mut self,
        rt: &R,
        alloc: Global,
        clients: &mut [C],
        cache: &mut K,
        place: BlockAt,
    ) -> Result<Step<Option<(u64, Bytes)>>>
        requires free { IsFreeStep self.old (length clients.old) }
        requires awaited { IsAwaitedIn self.old place }
        ensures { ServeCall self.old self.new (map C.told clients.old) (map C.told clients.new) (K.told cache.old)
            (K.told cache.new) result }
    {
        match self.provide(rt, alloc, clients, cache, place) {
            Ok(()) => self.after_step(rt, alloc),
            Err(error) => Err(error),
        }
    }

    /// Provides a block that an admitted term waits for.
    fn provide<R: Wait, C: Client, K: ChunkCache>(
        &mut self,
        rt: &R,
        alloc: Global,
        clients: &mut [C],
        cache: &mut K,
        place: BlockAt,
    ) -> Result<()>
        requires free { IsFreeStep self.old (length clients.old) }
        requires awaited { IsAwaitedIn self.old place }
        ensures { BlockCall self.old self.new (map C.told clients.old) (map C.told clients.new) (K.told cache.old)
            (K.told cache.new) result }
    {
        match self.stepper.provide(rt, alloc, clients, cache, place) {
            Ok(()) => {
                self.stepper.check_history();
                note_kept(&self.stepper, &mut self.terms, place);
                Ok(())
            }
            Err(error) => {
                self.stepper.check_history();
                Err(error)
            }
        }
    }

    /// A pull in order, whose piece is given at its place, or a term that is due by then.
    pub(crate) fn pull_in_order<R: Wait, C: Client, K: ChunkCache>(
        &mut self,
        rt: &R,
        alloc: Global,
        clients: &mut [C],
        cache: &mut K,
    ) -> Result<Step<Option<(u64, Bytes)>>>
        requires { IsFreeCaught self.old }
        ensures { InOrderCall self.old self.new (map C.told clients.old) (map C.told clients.new) (K.told cache.old)
            (K.told cache.new) result }
    {
        match self.pull(rt, alloc, clients, cache) {
            Ok(Step::Ready(item)) => Ok(Step::Ready(item)),
            Ok(Step::Pending) => {
                self.mark_late();
                self.after_step(rt, alloc)
            }
            Err(error) => Err(error),
        }
    }

    /// A pull in order.
    fn pull<R: Wait, C: Client, K: ChunkCache>(
        &mut self,
        rt: &R,
        alloc: Global,
        clients: &mut [C],
        cache: &mut K,
    ) -> Result<Step<Option<(u64, Bytes)>>>
        requires { IsFreeCaught self.old }
        ensures { OrderedCall self.old self.new (map C.told clients.old) (map C.told clients.new) (K.told cache.old)
            (K.told cache.new) result }
    {
        let room = self.delivered.reserve(1).is_ok();
        let from = self.stepper.range_start();
        let mut start = 0;
        match self
            .stepper
            .pull(rt, alloc, clients, cache, room, &mut start)
        {
            Ok(Step::Ready(Some(piece))) => {
                let place = start.saturating_sub(from);
                self.delivered.push_reserved(place);
                Ok(Step::Ready(Some((place, piece))))
            }
            Ok(Step::Ready(None)) => {
                self.ended = true;
                Ok(Step::Ready(None))
            }
            Ok(Step::Pending) => Ok(Step::Pending),
            Err(error) => Err(error),
        }
    }
}

/// The next term, where it was given.
fn early_next<P: FetchPolicy, E: EventLog>(
    stepper: &Stepper<P, E>,
    early: &EarlyTerms,
) -> Option<NextTerm>
    ensures { EarlyNext stepper.now (is_early early.now) result }
{
    match stepper.leader() {
        Some(leader) => early_of(leader, early),
        None => None,
    }
}

/// The next term of a leader, where it was given.
fn early_of<P: FetchPolicy>(leader: &Leader<P>, early: &EarlyTerms) -> Option<NextTerm>
    ensures { EarlyIn leader.now (is_early early.now) result }
{
    let Some(next) = next_of(leader) else {
        return None;
    };
    if early.has(leader.finished.saturating_add(next.empties)) {
        return Some(next);
    }
    None
}

/// Looks at the terms that were admitted since the hints were made.
fn note_admitted<P: FetchPolicy, E: EventLog>(stepper: &Stepper<P, E>, terms: &mut ReadyTerms) {
    if let Some(leader) = stepper.leader() {
        look_at_admitted(leader, stepper, terms);
        terms.put_late_last();
    }
}

/// The terms that wait for a block are ready, where it is kept.
fn note_kept<P: FetchPolicy, E: EventLog>(
    stepper: &Stepper<P, E>,
    terms: &mut ReadyTerms,
    place: BlockAt,
) {
    if stepper.is_kept(place.plan, place.block) {
        terms.make_ready(BlockKey(place.plan, place.block));
    }
}

/// The next block that an admitted term waits for.
fn awaited_next<P: FetchPolicy, E: EventLog>(
    stepper: &Stepper<P, E>,
    terms: &mut ReadyTerms,
) -> Option<BlockAt>
    ensures { AwaitedView stepper.now result }
{
    match stepper.leader() {
        Some(leader) => next_awaited(leader, stepper, terms),
        None => None,
    }
}
