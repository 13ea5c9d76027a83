//! A download that was begun, and its run.
ghost use Rattle.std.specs.Prelude.{◌≡◌, IfOk, map, option_map};
ghost use Rattle.std.specs.Arc.{arc_value};
ghost use Rattle.xet_reconstruct.specs.Ran.{limit_of};
ghost use Rattle.xet_stream_rules.specs.Streams.{new_stream};
ghost use Rattle.xet_stream_rules.specs.Unordered.{new_unordered};
ghost use Rattle.xet_download.specs.Calls.{FileRun, WriterRun, job_setup};
ghost use Rattle.xet_download.specs.Downloads.{lent_by};
ghost use Rattle.xet_download.specs.Telling.{job_of};

use std::alloc::Global;
use std::sync::{Arc, Wait};
use std::thread::Threads;
use xet_base::{FileRange, MerkleHash, OutOfMemory};
use xet_blocks::Steady;
use xet_download_rules::answer_of_run;
use xet_events::{BookView, BudgetBook};
use xet_outside::{ChunkCache, Client, NeverCancel, PlaceSink, Sink};
use xet_progress::ItemProgressUpdater;
use xet_reconstruct::FileReconstructor;
use xet_streams::DownloadStream;
use xet_terms::ReconstructionConfig;
use xet_unordered_streams::UnorderedDownloadStream;
use xet_upload::DataError;

/// A download that a session began, with an item of its progress. It may run on any thread.
///
/// In the Rust crate xet-data: the task of `FileDownloadSession::download_file_background`.
#[derive(Drop)]
pub struct DownloadJob {
    pub(crate) file_hash: MerkleHash,
    // none for the whole file
    pub(crate) range: Option<FileRange>,
    pub(crate) config: ReconstructionConfig,
    // how many bytes are expected
    pub(crate) expected: Option<u64>,
    pub(crate) updater: ItemProgressUpdater,
    // the book of running downloads, which has the run's limit
    pub(crate) book: Option<Arc<BudgetBook>>,
}

impl DownloadJob {
    /// Downloads the whole file into this one, which is emptied first, over these connections and this cache. Answers
    /// how many bytes were written. In the session's book it counts as running from before the run to its end, whatever
    /// the answer.
    ///
    /// `SizeMismatch` exactly where the run answered another count than the declared size, with both.
    /// `FileReconstructionError` with the error of the run, `OutOfMemory` where an allocation was refused.
    ///
    /// In the Rust crate xet-data: `FileDownloadSession::download_file_with_id`.
    pub fn run<R, C, K, F>(
        self,
        rt: &R,
        alloc: Global,
        clients: &mut [C],
        cache: &mut K,
        file: &mut F,
    ) -> Result<u64, DataError>
    where
        R: Threads + Wait + Sync,
        C: Client + Send,
        K: ChunkCache,
        F: PlaceSink,
        ensures { FileRun (job_of self).limits (job_setup (job_of self)) self.expected
            (lent_by (map C.told clients.old) (K.told cache.old) (F.told file.old))
            (lent_by (map C.told clients.new) (K.told cache.new) (F.told file.new)) result }
    {
        let book = shared(&self.book)?;
        let expected = self.expected;
        let reconstructor = self.reconstructor();
        start(rt, &book);
        let run = reconstructor.reconstruct_to_file(
            rt,
            alloc,
            clients,
            cache,
            &mut NeverCancel,
            file,
            None,
            true,
        );
        end(rt, &book);
        answer_of_run(expected, run)
    }

    /// The same of its range to a writer.
    pub(crate) fn run_to_writer<R, C, K, S>(
        self,
        rt: &R,
        alloc: Global,
        clients: &mut [C],
        cache: &mut K,
        writer: &mut S,
    ) -> Result<u64, DataError>
    where
        R: Threads + Wait + Sync,
        C: Client + Send,
        K: ChunkCache,
        S: Sink,
        ensures { WriterRun (job_of self).limits (job_setup (job_of self)) self.expected
            (lent_by (map C.told clients.old) (K.told cache.old) (S.told writer.old))
            (lent_by (map C.told clients.new) (K.told cache.new) (S.told writer.new)) result }
    {
        let book = shared(&self.book)?;
        let expected = self.expected;
        let reconstructor = self.reconstructor();
        start(rt, &book);
        let run = reconstructor.reconstruct_to_writer(
            rt,
            alloc,
            clients,
            cache,
            &mut NeverCancel,
            writer,
        );
        end(rt, &book);
        answer_of_run(expected, run)
    }

    /// A stream of its range, of which nothing was pulled.
    pub(crate) fn stream(self, alloc: Global) -> Result<DownloadStream<Steady>, OutOfMemory>
        ensures { IfOk result (λ stream. stream ≡ new_stream (job_setup (job_of self)) (job_of self).limits) }
    {
        match self.reconstructor().reconstruct_to_stream(alloc) {
            Ok(stream) => Ok(stream),
            Err(_) => Err(OutOfMemory),
        }
    }

    /// The same in any order.
    pub(crate) fn unordered_stream(
        self,
        alloc: Global,
    ) -> Result<UnorderedDownloadStream<Steady>, OutOfMemory>
        ensures { IfOk result (λ stream. stream ≡ new_unordered (job_setup (job_of self)) (job_of self).limits) }
    {
        match self.reconstructor().reconstruct_to_unordered_stream(alloc) {
            Ok(stream) => Ok(stream),
            Err(_) => Err(OutOfMemory),
        }
    }

    // The reconstruction that it runs.
    fn reconstructor(self) -> FileReconstructor<Steady>
        ensures file { result.file_hash ≡ self.file_hash }
        ensures range { result.byte_range ≡ (job_setup (job_of self)).range }
        ensures config { result.config ≡ self.config }
        ensures limits { limit_of result.book result.config ≡ (job_of self).limits }
    {
        let range = self.range.unwrap_or(FileRange::full());
        let reconstructor = FileReconstructor::new(self.file_hash, Steady { size: 0 })
            .with_byte_range(range)
            .with_config(&self.config)
            .with_progress_updater(self.updater);
        match self.book {
            None => reconstructor,
            Some(book) => reconstructor.with_budget_book(BookView::new(book)),
        }
    }
}

/// Another hold on the book.
pub(crate) fn shared(book: &Option<Arc<BudgetBook>>) -> Result<Option<Arc<BudgetBook>>, OutOfMemory>
    ensures { IfOk result (λ copy. option_map arc_value copy ≡ option_map arc_value book.now) }
{
    match book {
        None => Ok(None),
        Some(book) => Ok(Some(Arc::try_clone(book)?)),
    }
}

/// One download more runs.
pub(crate) fn start<W: Wait>(rt: &W, book: &Option<Arc<BudgetBook>>) {
    if let Some(book) = book {
        book.start(rt);
    }
}

/// One download less runs.
pub(crate) fn end<W: Wait>(rt: &W, book: &Option<Arc<BudgetBook>>) {
    if let Some(book) = book {
        book.end(rt);
    }
}
