//! The ordered stream.
ghost use Rattle.std.specs.Prelude.{◌≡◌, true, map, IfOk};
ghost use Rattle.xet_events.specs.Allowed.{IsAllowedHistory};
ghost use Rattle.xet_leader.specs.Led.{setup_of_job};
ghost use Rattle.xet_streams.specs.Parts.{limits_told};
ghost use Rattle.xet_stream_rules.specs.Pulls.{PullCall, WaitCall};
ghost use Rattle.xet_stream_rules.specs.Streams.{is_closed, new_stream};

use crate::flag::FlagSignal;
use crate::limits::StreamLimits;
use crate::stepper::{Order, Stepper};
use bytes::Bytes;
use std::alloc::Global;
use std::marker::Model;
use std::sync::Wait;
use xet_base::OutOfMemory;
use xet_blocks::FetchPolicy;
use xet_error::Result;
use xet_leader::Job;
use xet_outside::{ChunkCache, Client};
use xet_progress::ItemProgressUpdater;
use xet_run::{BookView, Event, KeptEvents};
use xet_stream_rules::Step;

/// A stream of the bytes of a range of a file, in order, piece by piece. Each piece is a term's bytes; it is made by
/// steps of the caller's thread, over connections and a cache that are lent to each pull. Contracts see it as a
/// `StreamView` of `specs/Streams`.
///
/// In the Rust crate: `file_reconstruction::data_writer::download_stream::DownloadStream`.
#[derive(Drop)]
pub struct DownloadStream<P: FetchPolicy> {
    stepper: Stepper<P, KeptEvents>,
    started: bool,
}

impl<P: FetchPolicy> Model for DownloadStream<P> {
    ghost use Rattle.xet_stream_rules.specs.Streams.{StreamView};

    ghost Value = { StreamView };

    ghost view = { λ s. s.stepper };
}

impl<P: FetchPolicy + Drop> DownloadStream<P> {
    /// A stream of a job's bytes, of which nothing was pulled. With progress it reports what is planned, transferred
    /// and delivered. Its limits are those of the book, where there is one, or else this one in bytes. `OutOfMemory`
    /// where an allocation was refused.
    pub fn new(
        alloc: Global,
        job: Job,
        policy: P,
        progress: Option<ItemProgressUpdater>,
        limit: u64,
        book: Option<BookView>,
    ) -> std::result::Result<DownloadStream<P>, OutOfMemory>
        ensures { IfOk result (λ s. s ≡ new_stream (setup_of_job job) (limits_told book limit)) }
    {
        let order = Order { policy, progress };
        let limits = StreamLimits { limit, book };
        match Stepper::new(alloc, job, order, limits) {
            Ok(stepper) => Ok(DownloadStream {
                stepper,
                started: false,
            }),
            Err(error) => Err(error),
        }
    }
}

impl<P: FetchPolicy + Drop> DownloadStream<P> {
    /// One step: the next piece, none at the end, or that it isn't there yet and further steps are to be taken.
    ///
    /// It asks at most one plan and one refresh on the first connection, one cache entry, and one block on the
    /// connection whose turn it is: the number of blocks asked for before, modulo the number of connections, of which
    /// the first 65,536 are used. At the first pull all settings are tested, later that there is a connection where
    /// none isn't due. Every error ends the stream.
    ///
    /// - `ConfigurationError` exactly where a setting fails.
    /// - `UrlExpired` exactly where this step's expired answer was the block's last, but for want of memory.
    /// - `ClientError` where a connection's faults rose; `FileNotFound` where the file was said not to be there.
    /// - `CorruptedReconstruction` where an answer of this step, or the block that is kept for a term that wasn't
    ///   delivered, fails the named test; never where all pulls so far were over connections that tell one valid store.
    /// - `OutOfMemory` where an allocation was refused.
    ///
    /// In the Rust crate: `DownloadStream::next`, whose pieces come from a task.
    pub fn next<R: Wait, C: Client, K: ChunkCache>(
        &mut self,
        rt: &R,
        alloc: Global,
        clients: &mut [C],
        cache: &mut K,
    ) -> Result<Step<Option<Bytes>>>
        ensures { PullCall self.old self.new (map C.told clients.old) (map C.told clients.new) (K.told cache.old)
            (K.told cache.new) result }
    {
        self.started = true;
        self.stepper.pull(rt, alloc, clients, cache, true, &mut 0)
    }

    /// Takes steps until one isn't pending: the next piece, or none at the end. The errors are those of `next`.
    ///
    /// In the Rust crate: `DownloadStream::blocking_next`.
    pub fn blocking_next<R: Wait, C: Client, K: ChunkCache>(
        &mut self,
        rt: &R,
        alloc: Global,
        clients: &mut [C],
        cache: &mut K,
    ) -> Result<Option<Bytes>>
        ensures { WaitCall self.old self.new (map C.told clients.old) (map C.told clients.new) (K.told cache.old)
            (K.told cache.new) result }
    {
        'wait: loop {
            match self.next(rt, alloc, clients, cache) {
                Ok(Step::Ready(piece)) => return Ok(piece),
                Ok(Step::Pending) => {}
                Err(error) => return Err(error),
            }
        }
    }
}

impl<P: FetchPolicy> DownloadStream<P> {
    /// Marks the stream as started; the first pull does it too. Nothing runs without a pull.
    ///
    /// In the Rust crate: `DownloadStream::start`.
    pub fn start(&mut self)
        ensures { self.new ≡ self.old }
    {
        self.started = true;
    }

    /// Ends the stream: every later pull answers none.
    ///
    /// In the Rust crate: `DownloadStream::cancel`.
    pub fn cancel(&mut self)
        ensures { self.new ≡ record self.old { cancelled = true } }
    {
        self.stepper.cancel();
    }

    /// Whether it was cancelled, or its raised flag was seen by a pull.
    pub fn is_cancelled(&self) -> bool
        ensures { result ≡ is_closed self.now.cancelled self.now.seen }
    {
        self.stepper.is_cancelled()
    }

    /// A flag by which another owner ends the stream: once a pull saw it raised, that one and every later one answers
    /// none. `OutOfMemory` where there are too many owners.
    ///
    /// In the Rust crate: `DownloadStream::abort_callback`.
    pub fn abort_flag(&self) -> std::result::Result<FlagSignal, OutOfMemory>
        ensures { IfOk result (λ flag. flag.seen ≡ 0) }
    {
        self.stepper.abort_flag()
    }

    /// What happened so far, oldest first.
    pub fn history(&self) -> &[Event]
        ensures events { result.now ≡ self.now.events }
        ensures allowed { IsAllowedHistory self.now.events }
    {
        self.stepper.history()
    }
}
