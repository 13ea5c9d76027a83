//! One pull of a stream.
ghost use Rattle.std.specs.Prelude.{◌≡◌, ◌<◌, None, Some, false, true, length, map};
ghost use Rattle.std.specs.Option.{is_some};
ghost use Rattle.xet_error.specs.declared.error.FileReconstructionError.TheVariants as error;
ghost use Rattle.xet_events.specs.Allowed.{IsAllowedHistory, IsRunning};
ghost use Rattle.xet_leader.specs.Led.{setup_of_job};
ghost use Rattle.xet_parts.specs.Stops.{IsStopped};
ghost use Rattle.xet_terms.specs.Settings.{failing_size_of};
ghost use Rattle.xet_stream_rules.specs.Pulls.{IsTold, PullCall, pulled_once};
ghost use Rattle.xet_stream_rules.specs.Streams.{IsAtEnd, IsOpen};
ghost use Rattle.xet_streams.specs.Parts.{HoldsAt};
ghost use Rattle.xet_streams.specs.steps.Pulling.{AsksFlag, BeginsCall, CanBegin, IsUnrefused, OpenPull, Refusal};
ghost use Rattle.xet_streams.specs.steps.Pulling.{StepPull, StepsOver};
ghost use Rattle.xet_streams.specs.Places.{IsFit, IsPlaced};

use crate::stepper::{Order, Stepper};
use crate::stepping::take_step;
use bytes::Bytes;
use std::alloc::Global;
use std::sync::Wait;
use xet_blocks::FetchPolicy;
use xet_error::{FileReconstructionError, Result, Setting};
use xet_leader::leader::check_manager;
use xet_leader::{Job, Leader, next_of};
use xet_outside::{CancelSignal, ChunkCache, Client};
use xet_parts::stop;
use xet_run::{BudgetSource, EventLog, RunCore};
use xet_stream_rules::Step;

impl<P: FetchPolicy + Drop, E: EventLog> Stepper<P, E> {
    /// One pull: none where the stream isn't open, after its own flag was asked; else a setting refuses it, it is at
    /// its end, or a step is taken, where the caller has room for a piece. Every error is recorded and told. `start`
    /// becomes the place of a piece's first byte in the file.
    pub fn pull<R: Wait, C: Client, K: ChunkCache>(
        &mut self,
        rt: &R,
        alloc: Global,
        clients: &mut [C],
        cache: &mut K,
        room: bool,
        start: &mut u64,
    ) -> Result<Step<Option<Bytes>>>
        ensures call { PullCall self.old self.new (map C.told clients.old) (map C.told clients.new) (K.told cache.old)
            (K.told cache.new) result }
        ensures placed { IsPlaced self.new.events start.new result }
        ensures fits { IsFit room result }
    {
        if self.ask_flag() {
            self.pulled = true;
            self.core.check_history();
            return Ok(Step::Ready(None));
        }
        self.pull_open(rt, alloc, clients, cache, room, start)
    }

    /// Whether it isn't open: an error was told, it was cancelled, or its own flag is seen raised, which is asked once
    /// where it is open still.
    pub(crate) fn ask_flag(&mut self) -> bool
        ensures { AsksFlag self.old self.new result }
    {
        if self.told_error.is_some() || self.cancelled || 0 < self.flag.seen {
            return true;
        }
        self.flag.asked()
    }

    /// A pull of an open stream.
    fn pull_open<R: Wait, C: Client, K: ChunkCache>(
        &mut self,
        rt: &R,
        alloc: Global,
        clients: &mut [C],
        cache: &mut K,
        room: bool,
        start: &mut u64,
    ) -> Result<Step<Option<Bytes>>>
        requires { IsOpen self.old }
        ensures pull { OpenPull self.old self.new (map C.told clients.old) (map C.told clients.new) (K.told cache.old)
            (K.told cache.new) result }
        ensures placed { IsPlaced self.new.events start.new result }
        ensures fits { IsFit room result }
    {
        match self.refusal(clients.len()) {
            Some(setting) => Err(self.refuse(setting)),
            None => self.go_on(rt, alloc, clients, cache, room, start),
        }
    }

    /// The setting that refuses a pull over so many connections.
    pub(crate) fn refusal(&self, connections: usize) -> Option<Setting>
        requires { IsOpen self.now }
        ensures { Refusal self.now connections result }
    {
        if !self.pulled {
            return self.job.config.failing_setting(connections);
        }
        if connections == 0 && !self.is_at_end() {
            return Some(Setting::NoConnection);
        }
        None
    }

    /// Whether all of the range was delivered: it has no bytes, or is planned to its end and no planned term is left.
    pub(crate) fn is_at_end(&self) -> bool
        requires { IsOpen self.now }
        ensures yes { result ≡ true → IsAtEnd self.now.setup.range self.now.events }
        ensures no { result ≡ false → IsAtEnd self.now.setup.range self.now.events → ⊥ }
    {
        if self.job.byte_range.end <= self.job.byte_range.start {
            return true;
        }
        match &self.leader {
            Some(leader) => self.reached && next_of(leader).is_none(),
            None => false,
        }
    }

    /// Ends the stream by a setting that can't be met.
    fn refuse(&mut self, setting: Setting) -> FileReconstructionError
        requires { IsOpen self.old }
        ensures told { IsTold (pulled_once self.old) self.new (error.ConfigurationError setting) result }
        ensures allowed { IsAllowedHistory self.new.events }
    {
        self.pulled = true;
        let error = FileReconstructionError::ConfigurationError(setting);
        let told = tell(&mut self.core, &mut self.told_error, error);
        self.core.check_history();
        told
    }

    /// A pull of an open stream that no setting refuses.
    fn go_on<R: Wait, C: Client, K: ChunkCache>(
        &mut self,
        rt: &R,
        alloc: Global,
        clients: &mut [C],
        cache: &mut K,
        room: bool,
        start: &mut u64,
    ) -> Result<Step<Option<Bytes>>>
        requires open { IsOpen self.old }
        requires unrefused { IsUnrefused self.old (length clients.old) }
        ensures pull { OpenPull self.old self.new (map C.told clients.old) (map C.told clients.new) (K.told cache.old)
            (K.told cache.new) result }
        ensures placed { IsPlaced self.new.events start.new result }
        ensures fits { IsFit room result }
    {
        if self.is_at_end() {
            self.pulled = true;
            self.core.check_history();
            return Ok(Step::Ready(None));
        }
        self.step(rt, alloc, clients, cache, room, start)
    }

    /// A step of an open stream that isn't at its end.
    fn step<R: Wait, C: Client, K: ChunkCache>(
        &mut self,
        rt: &R,
        alloc: Global,
        clients: &mut [C],
        cache: &mut K,
        room: bool,
        start: &mut u64,
    ) -> Result<Step<Option<Bytes>>>
        requires open { IsOpen self.old }
        requires unrefused { IsUnrefused self.old (length clients.old) }
        requires before { IsAtEnd self.old.setup.range self.old.events → ⊥ }
        ensures pull { StepPull self.old self.new (map C.told clients.old) (map C.told clients.new) (K.told cache.old)
            (K.told cache.new) result }
        ensures placed { IsPlaced self.new.events start.new result }
        ensures fits { IsFit room result }
    {
        self.pulled = true;
        let answer = step_over(
            rt,
            alloc,
            self.job,
            &mut self.order,
            &mut self.leader,
            &mut self.core,
            &mut self.limits,
            &mut self.reached,
            clients,
            cache,
            room,
            start,
        );
        match answer {
            Ok(answer) => {
                self.core.check_history();
                Ok(answer)
            }
            Err(error) => {
                let told = tell(&mut self.core, &mut self.told_error, error);
                self.core.check_history();
                Err(told)
            }
        }
    }
}

/// Records an error, and keeps what that answers: it, or `OutOfMemory` where memory for the event was refused.
pub(crate) fn tell<E: EventLog>(
    core: &mut RunCore<E>,
    told_error: &mut Option<FileReconstructionError>,
    error: FileReconstructionError,
) -> FileReconstructionError
    requires { IsRunning core.old }
    ensures stopped { IsStopped core.old core.new error result }
    ensures told { told_error.new ≡ Some result }
{
    let told = stop(core, error);
    *told_error = Some(told);
    told
}

/// Makes the leader, where there is none yet. `OutOfMemory` where memory was refused.
fn begin<P: FetchPolicy + Drop>(
    alloc: Global,
    job: Job,
    order: &mut Option<Order<P>>,
    leader: &mut Option<Leader<P>>,
) -> Result<()>
    requires held { leader.old ≡ None → is_some order.old ≡ true }
    requires sizes { leader.old ≡ None → failing_size_of job.config ≡ None }
    ensures { BeginsCall job leader.old leader.new result }
{
    if leader.is_some() {
        return Ok(());
    }
    let Some(order) = order.take() else {
        unreachable!();
    };
    match Leader::new(alloc, &job, order.policy, order.progress) {
        Ok(made) => {
            check_manager(&made.manager);
            *leader = Some(made);
            Ok(())
        }
        Err(error) => Err(error),
    }
}

/// One step over the parts of a stream, whose leader is made where there is none yet. `OutOfMemory` also where the
/// caller has no room for a piece.
fn step_over<
    R: Wait,
    P: FetchPolicy + Drop,
    B: BudgetSource,
    C: Client,
    K: ChunkCache,
    E: EventLog,
>(
    rt: &R,
    alloc: Global,
    job: Job,
    order: &mut Option<Order<P>>,
    leader: &mut Option<Leader<P>>,
    core: &mut RunCore<E>,
    source: &mut B,
    reached: &mut bool,
    clients: &mut [C],
    cache: &mut K,
    room: bool,
    start: &mut u64,
) -> Result<Step<Option<Bytes>>>
    requires some { 0 < length clients.old }
    requires held { leader.old ≡ None → is_some order.old ≡ true }
    requires holds { HoldsAt (setup_of_job job) core.old leader.old reached.old }
    requires first { leader.old ≡ None → CanBegin (setup_of_job job) (map C.told clients.old) }
    ensures over { StepsOver (setup_of_job job) core.old core.new leader.old leader.new (map C.told clients.old)
        (map C.told clients.new) (K.told cache.old) (K.told cache.new) (B.told source.old) (B.told source.new)
        reached.new result }
    ensures placed { IsPlaced core.new start.new result }
    ensures fits { IsFit room result }
{
    if !room {
        return Err(FileReconstructionError::OutOfMemory);
    }
    match begin(alloc, job, order, leader) {
        Ok(()) => {}
        Err(error) => return Err(error),
    }
    match leader {
        Some(leader) => take_step(
            rt, alloc, job, leader, core, source, reached, clients, cache, start,
        ),
        None => unreachable!(),
    }
}
