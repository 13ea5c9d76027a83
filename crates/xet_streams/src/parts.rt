//! Parts of a pull for a stream that hands its terms over in any order.
ghost use Rattle.std.specs.Prelude.{◌≡◌, ◌<◌, [], IfSome, None, length, map, option_map, true, false};
ghost use Rattle.xet_events.specs.Allowed.{IsAllowedHistory, IsMissing};
ghost use Rattle.xet_events.specs.Events.{is_kept};
ghost use Rattle.xet_events.specs.declared.event.Event.TheVariants.{Fail};
ghost use Rattle.xet_leader.specs.Led.{setup_of_job};
ghost use Rattle.xet_ties.specs.PartCalls.{stop_event};
ghost use Rattle.xet_stream_rules.specs.Pulls.{IsTold};
ghost use Rattle.xet_stream_rules.specs.Streams.{Carries, IsOpen, nobody};
ghost use Rattle.xet_stream_terms.specs.Handing.{IsOpenNext};
ghost use Rattle.xet_streams.specs.AnyOrder.{AdmitsAheadCall, CanStepCall, GivenCall, IsLedNext, MaySteps, ProvideCall};
ghost use Rattle.xet_streams.specs.AnyOrder.{StandsOn};
ghost use Rattle.xet_streams.specs.steps.Ahead.{AdmitsOver, GivenOver, ProvidesOver};

use crate::pulls::tell;
use crate::stepper::Stepper;
use std::alloc::Global;
use std::sync::Wait;
use xet_blocks::FetchPolicy;
use xet_error::{FileReconstructionError, Result};
use xet_leader::{BlockAt, Job, Leader, NextTerm};
use xet_outside::{ChunkCache, Client};
use xet_run::{BudgetSource, EventLog, RunCore};
use xet_stream_blocks::provide;
use xet_stream_terms::{admit_ahead, record_given};

impl<P: FetchPolicy, E: EventLog> Stepper<P, E> {
    /// Its leader, from its first step on.
    pub fn leader(&self) -> Option<&Leader<P>>
        ensures { option_map (λ l. l.now) result ≡ self.now.led }
    {
        self.leader.as_ref()
    }

    /// Whether a block was fetched or came from the cache.
    pub fn is_kept(&self, plan: u64, block: usize) -> bool
        ensures { result ≡ is_kept self.now.events plan block }
    {
        self.core.is_kept(plan, block)
    }

    /// Whether no error was told, and it wasn't cancelled as far as was seen.
    pub fn is_open(&self) -> bool
        ensures yes { result ≡ true → IsOpen self.now }
        ensures no { result ≡ false → IsOpen self.now → ⊥ }
    {
        self.told_error.is_none() && !self.is_cancelled()
    }

    /// Whether no error was told.
    pub fn is_untold(&self) -> bool
        ensures yes { result ≡ true → self.now.told_error ≡ None }
        ensures no { result ≡ false → self.now.told_error ≡ None → ⊥ }
    {
        self.told_error.is_none()
    }

    /// What a stream holds that has told no error.
    pub fn check_open(&self)
        requires { self.now.told_error ≡ None }
        ensures carries { IfSome self.now.led (Carries nobody self.now.setup self.now.events) }
        ensures begun { self.now.led ≡ None → self.now.events ≡ [] }
    {
        let _ = &self.core;
    }

    /// Its history is an allowed one.
    pub fn check_history(&self)
        ensures { IsAllowedHistory self.now.events }
    {
        self.core.check_history();
    }
}

impl<P: FetchPolicy + Drop, E: EventLog> Stepper<P, E> {
    /// Asks its own flag, where it is open, and says whether a step may be taken over so many connections: it is open,
    /// no setting refuses that, and it isn't at its end. A stream that has no leader yet says no.
    pub fn may_step(&mut self, connections: usize) -> bool
        ensures { MaySteps self.old self.new connections result }
    {
        if self.leader.is_none() {
            return false;
        }
        if self.ask_flag() {
            return false;
        }
        self.can_step(connections)
    }

    /// Whether a step of an open stream may be taken over so many connections, which is then one of a pull.
    fn can_step(&mut self, connections: usize) -> bool
        requires still { IsOpen self.old }
        requires led { self.old.led ≡ None → ⊥ }
        ensures { CanStepCall self.old self.new connections result }
    {
        if self.is_at_end() {
            return false;
        }
        match self.refusal(connections) {
            Some(_) => false,
            None => {
                self.pulled = true;
                true
            }
        }
    }

    /// Records the next term as written, whose bytes were handed over before, where its block is kept. Whether it is.
    /// `OutOfMemory` where memory was refused, which is told.
    pub fn record_given(&mut self, next: NextTerm) -> Result<bool>
        requires still { IsOpen self.old }
        requires next { IsLedNext self.old next }
        ensures call { GivenCall self.old self.new next result }
        ensures stands { StandsOn self.old self.new }
    {
        match given_over(self.job, &mut self.leader, &mut self.core, next) {
            Ok(is_recorded) => Ok(is_recorded),
            Err(error) => Err(tell(&mut self.core, &mut self.told_error, error)),
        }
    }

    /// Admits the planned terms that wait, each under a limit that is asked for it, until none waits or the limit
    /// refuses one. `OutOfMemory` where memory was refused, which is told.
    pub fn admit_ahead<R: Wait>(&mut self, rt: &R) -> Result<()>
        requires { IsOpen self.old }
        ensures call { AdmitsAheadCall self.old self.new result }
        ensures stands { StandsOn self.old self.new }
    {
        match admits_over(
            rt,
            self.job,
            &mut self.leader,
            &mut self.core,
            &mut self.limits,
        ) {
            Ok(()) => Ok(()),
            Err(error) => Err(tell(&mut self.core, &mut self.told_error, error)),
        }
    }

    /// Provides a missing block, as `provide` of `xet_stream_blocks`. Each error is recorded and told.
    pub fn provide<R: Wait, C: Client, K: ChunkCache>(
        &mut self,
        rt: &R,
        alloc: Global,
        clients: &mut [C],
        cache: &mut K,
        place: BlockAt,
    ) -> Result<()>
        requires still { IsOpen self.old }
        requires led { self.old.led ≡ None → ⊥ }
        requires some { 0 < length clients.old }
        requires missing { IsMissing self.old.events place.plan place.block }
        ensures { ProvideCall self.old self.new (map C.told clients.old) (map C.told clients.new) (K.told cache.old)
            (K.told cache.new) result }
    {
        match provides_over(
            rt,
            alloc,
            self.job,
            &mut self.leader,
            &mut self.core,
            clients,
            cache,
            place,
        ) {
            Ok(()) => Ok(()),
            Err(error) => Err(tell(&mut self.core, &mut self.told_error, error)),
        }
    }

    /// Ends an open stream by an error, which is recorded and told: it, or `OutOfMemory` where memory was refused.
    pub fn fail(&mut self, error: FileReconstructionError) -> FileReconstructionError
        requires still { IsOpen self.old }
        requires plain { stop_event error ≡ Fail error }
        ensures told { IsTold self.old self.new error result }
        ensures stands { StandsOn self.old self.new }
    {
        tell(&mut self.core, &mut self.told_error, error)
    }
}

/// `record_given` over a leader, where there is one.
fn given_over<P: FetchPolicy, E: EventLog>(
    job: Job,
    leader: &mut Option<Leader<P>>,
    core: &mut RunCore<E>,
    next: NextTerm,
) -> Result<bool>
    requires held { IfSome leader.old (Carries nobody (setup_of_job job) core.old) }
    requires next { IfSome leader.old (λ l. IsOpenNext l next) }
    ensures { GivenOver core.old core.new leader.old leader.new next result }
{
    match leader {
        Some(leader) => record_given(leader, core, next),
        None => Ok(false),
    }
}

/// `admit_ahead` over a leader, where there is one.
fn admits_over<R: Wait, P: FetchPolicy, B: BudgetSource, E: EventLog>(
    rt: &R,
    job: Job,
    leader: &mut Option<Leader<P>>,
    core: &mut RunCore<E>,
    source: &mut B,
) -> Result<()>
    requires { IfSome leader.old (Carries nobody (setup_of_job job) core.old) }
    ensures { AdmitsOver (setup_of_job job) core.old core.new leader.old leader.new (B.told source.old)
        (B.told source.new) result }
{
    match leader {
        Some(leader) => admit_ahead(rt, leader, core, source),
        None => Ok(()),
    }
}

/// `provide` over a leader, which there is.
fn provides_over<R: Wait, P: FetchPolicy, C: Client, K: ChunkCache, E: EventLog>(
    rt: &R,
    alloc: Global,
    job: Job,
    leader: &mut Option<Leader<P>>,
    core: &mut RunCore<E>,
    clients: &mut [C],
    cache: &mut K,
    place: BlockAt,
) -> Result<()>
    requires some { 0 < length clients.old }
    requires led { leader.old ≡ None → ⊥ }
    requires held { IfSome leader.old (Carries nobody (setup_of_job job) core.old) }
    requires missing { IsMissing core.old place.plan place.block }
    ensures { ProvidesOver (setup_of_job job) core.old core.new leader.old leader.new (map C.told clients.old)
        (map C.told clients.new) (K.told cache.old) (K.told cache.new) place result }
{
    match leader {
        Some(leader) => provide(rt, alloc, job, leader, core, clients, cache, place),
        None => unreachable!(),
    }
}
