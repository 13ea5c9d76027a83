//! The unordered stream.
ghost use Rattle.std.specs.Prelude.{◌≡◌, ◌||◌, IfOk, true};
ghost use Rattle.xet_leader.specs.Led.{setup_of_job};
ghost use Rattle.xet_stream_rules.specs.Streams.{is_closed};
ghost use Rattle.xet_stream_rules.specs.Unordered.{new_unordered};
ghost use Rattle.xet_streams.specs.Parts.{limits_told};

use crate::early_terms::EarlyTerms;
use std::alloc::Global;
use std::marker::Model;
use xet_base::OutOfMemory;
use xet_blocks::FetchPolicy;
use xet_leader::Job;
use xet_progress::ItemProgressUpdater;
use xet_ready_terms::ReadyTerms;
use xet_run::{BookView, ToldEvents};
use xet_streams::{FlagSignal, Order, Stepper, StreamLimits};

/// A stream of the bytes of a range of a file, piece by piece, each with its place in the range, in no order that a
/// caller may rest on. Terms are admitted as the limits allow, and one whose block is there is given before another
/// block is asked for. Contracts see it as an `UnorderedView` of `specs/Unordered` of `xet_stream_rules`.
///
/// In the Rust crate: `file_reconstruction::data_writer::unordered_download_stream::UnorderedDownloadStream`.
#[derive(Drop)]
pub struct UnorderedDownloadStream<P: FetchPolicy> {
    // over a core that tells its events to proofs alone; a term is recorded as written once all before it were given
    pub(crate) stepper: Stepper<P, ToldEvents>,
    pub(crate) delivered: Vec<u64>,
    // the terms that were given before one that comes before them
    pub(crate) early: EarlyTerms,
    pub(crate) terms: ReadyTerms,
    pub(crate) started: bool,
    pub(crate) ended: bool,
}

impl<P: FetchPolicy> Model for UnorderedDownloadStream<P> {
    ghost use Rattle.xet_stream_rules.specs.Unordered.{UnorderedView};
    ghost use Rattle.xet_unordered_streams.specs.Placing.{IsPlacing};

    ghost Value = { UnorderedView };

    ghost view = { λ u. record { stream = u.stepper; delivered = u.delivered.items; ended = u.ended } };

    ghost invariant = { λ u. IsPlacing u.stepper u.delivered.items u.early };
}

impl<P: FetchPolicy + Drop> UnorderedDownloadStream<P> {
    /// A stream of a job's bytes, of which nothing was pulled. With progress it reports what is planned, transferred
    /// and delivered. Its limits are those of the book, where there is one, or else this one in bytes. `OutOfMemory`
    /// where an allocation was refused.
    pub fn new(
        alloc: Global,
        job: Job,
        policy: P,
        progress: Option<ItemProgressUpdater>,
        limit: u64,
        book: Option<BookView>,
    ) -> std::result::Result<UnorderedDownloadStream<P>, OutOfMemory>
        ensures { IfOk result (λ s. s ≡ new_unordered (setup_of_job job) (limits_told book limit)) }
    {
        let order = Order { policy, progress };
        let limits = StreamLimits { limit, book };
        match Stepper::new(alloc, job, order, limits) {
            Ok(stepper) => Ok(UnorderedDownloadStream {
                stepper,
                delivered: Vec::new(alloc),
                early: EarlyTerms::new(alloc),
                terms: ReadyTerms::new(alloc),
                started: false,
                ended: false,
            }),
            Err(error) => Err(error),
        }
    }
}

impl<P: FetchPolicy> UnorderedDownloadStream<P> {
    /// Marks the stream as started; the first pull does it too. Nothing runs without a pull.
    ///
    /// In the Rust crate: `UnorderedDownloadStream::start`.
    pub fn start(&mut self)
        ensures { self.new ≡ self.old }
    {
        self.started = true;
    }

    /// Ends the stream: every later pull answers none.
    ///
    /// In the Rust crate: `UnorderedDownloadStream::cancel`.
    pub fn cancel(&mut self)
        ensures { self.new ≡ record self.old { stream = record self.old.stream { cancelled = true } } }
    {
        self.stepper.cancel();
    }

    /// Whether it was cancelled, or its raised flag was seen by a pull.
    pub fn is_cancelled(&self) -> bool
        ensures { result ≡ is_closed self.now.stream.cancelled self.now.stream.seen }
    {
        self.stepper.is_cancelled()
    }

    /// A flag by which another owner ends the stream, as that of `DownloadStream::abort_flag`.
    ///
    /// In the Rust crate: `UnorderedDownloadStream::abort_callback`.
    pub fn abort_flag(&self) -> std::result::Result<FlagSignal, OutOfMemory>
        ensures { IfOk result (λ flag. flag.seen ≡ 0) }
    {
        self.stepper.abort_flag()
    }

    /// The places of the pieces that were delivered, in the order of their delivery.
    ///
    /// In place of the progress of the Rust crate's stream.
    pub fn delivered(&self) -> &[u64]
        ensures { result.now ≡ self.now.delivered }
    {
        self.delivered.as_slice()
    }

    /// Whether a pull answered none, or the stream was cancelled.
    ///
    /// In the Rust crate: `UnorderedDownloadStream::is_complete`.
    pub fn is_complete(&self) -> bool
        ensures { result ≡ self.now.ended || is_closed self.now.stream.cancelled self.now.stream.seen }
    {
        self.ended || self.stepper.is_cancelled()
    }
}
