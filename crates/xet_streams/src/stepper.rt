//! What both streams keep between their pulls.
ghost use Rattle.std.specs.Prelude.{◌≡◌, ◌||◌, true, IfOk};
ghost use Rattle.xet_events.specs.Allowed.{IsAllowedHistory};
ghost use Rattle.xet_leader.specs.Led.{setup_of_job};
ghost use Rattle.xet_streams.specs.Parts.{limits_told};
ghost use Rattle.xet_stream_rules.specs.Streams.{is_closed, new_stream};

use crate::flag::FlagSignal;
use crate::limits::StreamLimits;
use std::alloc::Global;
use std::marker::Model;
use xet_base::OutOfMemory;
use xet_blocks::FetchPolicy;
use xet_error::FileReconstructionError;
use xet_leader::{Job, Leader};
use xet_progress::ItemProgressUpdater;
use xet_run::{Event, EventLog, KeptEvents, RunCore};

/// What a leader is made of at the first step.
#[derive(Drop)]
pub struct Order<P> {
    pub policy: P,
    pub progress: Option<ItemProgressUpdater>,
}

/// A stream between its pulls: its leader, which is made at its first step, and its history. Contracts see it as a
/// `StreamView` of `specs/Streams`.
#[derive(Drop)]
pub struct Stepper<P: FetchPolicy, E: EventLog> {
    pub(crate) job: Job,
    pub(crate) order: Option<Order<P>>,
    pub(crate) leader: Option<Leader<P>>,
    pub(crate) core: RunCore<E>,
    pub(crate) limits: StreamLimits,
    // whether the range is planned to its end or the file's
    pub(crate) reached: bool,
    pub(crate) flag: FlagSignal,
    pub(crate) told_error: Option<FileReconstructionError>,
    pub(crate) cancelled: bool,
    pub(crate) pulled: bool,
}

impl<P: FetchPolicy, E: EventLog> Model for Stepper<P, E> {
    ghost use Rattle.std.specs.Prelude.{◌≡◌, None};
    ghost use Rattle.std.specs.Option.{is_some};
    ghost use Rattle.xet_leader.specs.Led.{setup_of_job};
    ghost use Rattle.xet_streams.specs.Parts.{Holds, limits_told};
    ghost use Rattle.xet_stream_rules.specs.Streams.{StreamView};

    ghost Value = { StreamView };

    ghost view = { λ s. record {
      setup = setup_of_job s.job;
      events = s.core;
      led = s.leader;
      limits = limits_told s.limits.book s.limits.limit;
      told_error = s.told_error;
      cancelled = s.cancelled;
      seen = s.flag.seen;
      pulled = s.pulled;
    } };

    ghost invariant = { λ s. s.told_error ≡ None
        → Holds s.job s.core s.leader s.reached s.pulled s.cancelled s.flag.seen (is_some s.order) };
}

impl<P: FetchPolicy + Drop, E: EventLog> Stepper<P, E> {
    /// A stream of which nothing was pulled. `OutOfMemory` where an allocation was refused.
    pub fn new(
        alloc: Global,
        job: Job,
        order: Order<P>,
        limits: StreamLimits,
    ) -> std::result::Result<Stepper<P, E>, OutOfMemory>
        ensures { IfOk result (λ s. s ≡ new_stream (setup_of_job job) (limits_told limits.book limits.limit)) }
    {
        let flag = FlagSignal::new(alloc)?;
        Ok(Stepper {
            job,
            order: Some(order),
            leader: None,
            core: RunCore::new(alloc),
            limits,
            reached: false,
            flag,
            told_error: None,
            cancelled: false,
            pulled: false,
        })
    }
}

impl<P: FetchPolicy, E: EventLog> Stepper<P, E> {
    /// Ends it.
    pub fn cancel(&mut self)
        ensures { self.new ≡ record self.old { cancelled = true } }
    {
        self.cancelled = true;
    }

    /// Whether it was cancelled, or its raised flag was seen by a pull.
    pub fn is_cancelled(&self) -> bool
        ensures { result ≡ is_closed self.now.cancelled self.now.seen }
    {
        self.cancelled || 0 < self.flag.seen
    }

    /// Where its range starts in the file.
    pub fn range_start(&self) -> u64
        ensures { result ≡ self.now.setup.range.start }
    {
        self.job.byte_range.start
    }

    /// Whom it reports to.
    pub fn progress(&self) -> Option<&ItemProgressUpdater> {
        match (&self.leader, &self.order) {
            (Some(leader), _) => leader.progress.as_ref(),
            (None, Some(order)) => order.progress.as_ref(),
            (None, None) => None,
        }
    }

    /// Another owner of its flag.
    pub fn abort_flag(&self) -> std::result::Result<FlagSignal, OutOfMemory>
        ensures { IfOk result (λ flag. flag.seen ≡ 0) }
    {
        self.flag.share()
    }
}

impl<P: FetchPolicy> Stepper<P, KeptEvents> {
    /// What happened so far, oldest first.
    pub fn history(&self) -> &[Event]
        ensures events { result.now ≡ self.now.events }
        ensures allowed { IsAllowedHistory self.now.events }
    {
        self.core.history()
    }
}
