//! The writer that writes terms in order.
ghost use Rattle.std.specs.Prelude.{◌≡◌, [], None, false};
ghost use Rattle.xet_queue.specs.Calls.{FinishCall, SetCall, SetSums, SupplyCall, closed_by};
ghost use Rattle.xet_queue.specs.Queues.{ready_bytes, wanted};
ghost use Rattle.xet_queue.specs.Sequential.{TookReleased, told_of};
ghost use Rattle.xet_writers.specs.Sequential.{FinishSequential, ReadyCall, SetSequential, SupplySequential};
ghost use Rattle.xet_writers.specs.Sequential.{WindowCall, Wrote, sums_of};
ghost use Rattle.xet_writers.specs.steps.SequentialSteps.{Flushed, Last};

use bytes::Bytes;
use std::alloc::Global;
use std::marker::Model;
use xet_base::FileRange;
use xet_blocks::DataSource;
use xet_error::Result;
use xet_outside::Sink;
use xet_queue::faults::test_term;
use xet_queue::{DataWriter, QueuedTerm, TermQueue};
use xet_run::Admission;

/// Writes terms in order into a sink. The first term starts at place 0, and each one where the one before it ends.
///
/// The sink's errors are kept, as bytes of a wrong length are: every later call but `take_released` answers them.
///
/// Taking a term takes constant time, and logarithmic time in the wanted terms where it is wanted. Writing takes linear
/// time in the pieces and the bytes that go out; bytes are shared and never copied.
///
/// In the Rust crate: `file_reconstruction::data_writer::sequential_writer::SequentialWriter`.
#[derive(Drop)]
pub struct SequentialWriter<S> {
    terms: TermQueue<S>,
}

impl<S> Model for SequentialWriter<S> {
    ghost use Rattle.xet_queue.specs.Sequential.{Sequential};

    ghost Value = { Sequential S };

    ghost view = { λ w. w.terms };
}

impl<S> SequentialWriter<S> {
    /// A writer into this sink, which takes no memory yet. `use_vectorized` chooses the loop that hands many pieces to
    /// one write.
    ///
    /// In the Rust crate: `file_reconstruction::data_writer::sequential_writer::SequentialWriter::new`.
    pub fn new(alloc: Global, sink: S, use_vectorized: bool) -> SequentialWriter<S>
        ensures { result ≡ record {
          sink = sink;
          vectored = use_vectorized;
          queue = [];
          released = [];
          expected = 0;
          delivered = 0;
          kept = None;
          finished = false;
        } }
    {
        SequentialWriter {
            terms: TermQueue::new(alloc, sink, use_vectorized),
        }
    }

    /// The sink, which ends the loan of a writer over a reference.
    pub fn into_inner(self) -> S
        ensures { result ≡ self.sink }
    {
        self.terms.into_inner()
    }

    /// The oldest admission of a wholly written term that was not given back yet; none exactly where there is none. An
    /// empty term counts as written when its place in the order is reached.
    ///
    /// In the Rust crate the permit is dropped with the term.
    pub fn take_released(&mut self) -> Option<Admission>
        ensures { TookReleased self.old self.new result }
    {
        self.terms.take_released()
    }

    /// The place at which the next term must start, which is the bytes of all terms that were taken.
    pub fn next_start(&self) -> u64
        ensures { result ≡ self.now.expected }
    {
        self.terms.next_start()
    }
}

impl<S: Sink> SequentialWriter<S> {
    /// Writes the terms before the first wanted one.
    fn write_queued(&mut self, alloc: Global) -> Result<u64>
        requires { self.old.kept ≡ None }
        ensures { Wrote S.told self.old self.new result }
    {
        let sent = self.terms.send(alloc)?;
        match sent.end {
            Ok(()) => Ok(sent.count),
            Err(error) => Err(self.terms.keep(error)),
        }
    }

    /// Writes the queued terms in order up to the first wanted one, and answers the bytes of these. After an error the
    /// sink took a prefix of them; the terms that it took wholly, as far as its answers told, are out of the queue, and
    /// their admissions come back.
    ///
    /// The kept error, or `Finished`. `IoError` where the sink failed. `OutOfMemory` where the sink found no memory, or
    /// an allocation was refused: before the first write, which changes nothing, or for a piece that is cut.
    ///
    /// In the Rust crate the writer's own task does this.
    pub fn write_ready(&mut self, alloc: Global) -> Result<u64>
        ensures call { ReadyCall S.told self.old self.new result }
        ensures window { closed_by (told_of self.old) ≡ None
            → WindowCall (S.told self.old.sink) (S.told self.new.sink) (ready_bytes self.old.queue) result }
    {
        if let Some(error) = self.terms.closed() {
            return Err(error);
        }
        self.write_queued(alloc)
    }

    /// Flushes what was written, and ends the writer.
    fn flush(&mut self) -> Result<u64>
        ensures { Flushed S.told self.old self.new result }
    {
        match self.terms.flush() {
            Ok(()) => Ok(self.terms.end()),
            Err(error) => Err(self.terms.keep(error)),
        }
    }

    /// Writes what is left, and flushes it.
    fn write_last(&mut self, alloc: Global) -> Result<u64>
        requires kept { self.old.kept ≡ None }
        requires whole { wanted self.old.queue ≡ [] }
        ensures { Last S.told self.old self.new result }
    {
        self.terms.recall_places();
        self.write_queued(alloc)?;
        self.flush()
    }
}

impl<S: Sink> DataWriter for SequentialWriter<S> {
    ghost told = { λ w. told_of w };

    ghost sums = { λ w. sums_of S.told w };

    fn set_next_term_data_source(
        &mut self,
        alloc: Global,
        byte_range: FileRange,
        admission: Option<Admission>,
        source: DataSource,
    ) -> Result<()>
        ensures told { SetCall (told_of self.old) (told_of self.new) byte_range source result }
        ensures sums { SetSums (sums_of S.told self.old) (sums_of S.told self.new) byte_range result }
        ensures call { SetSequential self.old self.new byte_range admission source result }
    {
        let _ = alloc;
        if let Some(error) = self.terms.closed() {
            return Err(error);
        }
        if let Some(fault) = test_term(Some(self.terms.next_start()), byte_range, &source) {
            return Err(self.terms.refuse(fault));
        }
        let bytes = match source {
            DataSource::Ready(bytes) => Some(bytes),
            DataSource::Wanted(_) => None,
        };
        self.terms.queue_term(QueuedTerm {
            byte_range,
            admission,
            bytes,
        })
    }

    fn supply(&mut self, alloc: Global, start: u64, bytes: Bytes) -> Result<()>
        ensures told { SupplyCall (told_of self.old) (told_of self.new) start bytes result }
        ensures sums { sums_of S.told self.new ≡ sums_of S.told self.old }
        ensures call { SupplySequential self.old self.new start bytes result }
    {
        let _ = alloc;
        if let Some(error) = self.terms.closed() {
            return Err(error);
        }
        if let Some(fault) = self.terms.give(start, bytes) {
            return Err(self.terms.refuse(fault));
        }
        Ok(())
    }

    fn finish(&mut self, alloc: Global) -> Result<u64>
        ensures told { FinishCall (told_of self.old) (told_of self.new) (sums_of S.told self.old)
            (sums_of S.told self.new) result }
        ensures call { FinishSequential S.told self.old self.new result }
    {
        if let Some(error) = self.terms.closed() {
            return Err(error);
        }
        if let Some(fault) = self.terms.test_end() {
            return Err(self.terms.refuse(fault));
        }
        self.write_last(alloc)
    }
}
