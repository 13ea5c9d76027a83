//! A download session.
ghost use Rattle.std.specs.Prelude.{◌≡◌, ◌≤◌, IfErr, IfOk, Ok, false, length, map, option_map, true};
ghost use Rattle.xet_progress_state.specs.Group.{group_sums, item_of, reports_of};
ghost use Rattle.xet_progress.specs.Held.{Held};
ghost use Rattle.xet_progress_state.specs.Items.{report_of};
ghost use Rattle.xet_download.specs.Bounds.{range_of};
ghost use Rattle.xet_download.specs.Calls.{BackgroundCall, BeginCall, DownloadFileCall, DownloadToWriterCall};
ghost use Rattle.xet_download.specs.Calls.{count_of, with_job};
ghost use Rattle.xet_download.specs.Downloads.{ended, expected_of, finalizing, new_session};
ghost use Rattle.xet_download.specs.Streams.{OpenCall};
ghost use Rattle.xet_download.specs.Telling.{job_of, told_by};

use crate::job::{DownloadJob, shared};
use crate::stream_flags::StreamFlags;
use std::alloc::Global;
use std::collections::BTreeMap;
use std::ops::Bound;
use std::sync::{Arc, Wait};
use std::thread::Threads;
use xet_base::{FileRange, IdSource, Invalid, OutOfMemory, UniqueID};
use xet_download_rules::range_bounds_to_file_range;
use xet_events::BudgetBook;
use xet_outside::{ChunkCache, Client, PlaceSink, Sink};
use xet_pointer::XetFileInfo;
use xet_progress::{
    GroupProgress, GroupProgressReport, ItemProgressReport, ItemProgressUpdater, ProgressError,
};
use xet_terms::ReconstructionConfig;
use xet_upload::DataError;

/// What a session's downloads run over, and what pulls of its streams are lent.
#[derive(Drop)]
pub struct Connections<C, K> {
    /// The connections.
    pub clients: Vec<C>,
    /// The cache.
    pub chunk_cache: K,
}

/// A download session: connections and a cache for many downloads, each of which has an item of the session's
/// progress.
///
/// In the Rust crate xet-data: `processing::file_download_session::FileDownloadSession`.
#[derive(Drop)]
pub struct FileDownloadSession<C, K> {
    pub(crate) connections: Connections<C, K>,
    config: ReconstructionConfig,
    // the ids of the items
    ids: IdSource,
    progress: Arc<GroupProgress>,
    // the book of running downloads, which has their limit
    pub(crate) book: Option<Arc<BudgetBook>>,
    // the flags of the streams that count as running
    pub(crate) streams: StreamFlags,
    finalized: bool,
}

impl<C: Client + Drop, K: ChunkCache + Drop> FileDownloadSession<C, K> {
    /// A session over these connections and this cache, which isn't finalized. Its runs have these settings, and its
    /// items these ids.
    ///
    /// `OutOfMemory` where the memory of its group was refused.
    ///
    /// In the Rust crate xet-data: `FileDownloadSession::from_client`.
    pub fn from_client(
        alloc: Global,
        clients: Vec<C>,
        chunk_cache: K,
        config: ReconstructionConfig,
        ids: IdSource,
    ) -> Result<FileDownloadSession<C, K>, OutOfMemory>
        ensures { IfOk result (λ session. told_by C.told K.told session
            ≡ new_session (map C.told clients.items) (K.told chunk_cache) config ids) }
    {
        let progress = GroupProgress::new(alloc)?;
        Ok(FileDownloadSession {
            connections: Connections {
                clients,
                chunk_cache,
            },
            config,
            ids,
            progress,
            book: None,
            streams: StreamFlags::new(alloc),
            finalized: false,
        })
    }

    /// The same with this book: each of its downloads counts there while it runs, and has its limit of unwritten bytes
    /// from there.
    ///
    /// In place of the process-wide semaphore of the Rust crate.
    pub fn with_budget_book(self, book: Arc<BudgetBook>) -> FileDownloadSession<C, K>
        ensures { result ≡ record self { book = Some book } }
    {
        FileDownloadSession {
            book: Some(book),
            ..self
        }
    }

    // Why no download is begun.
    pub(crate) fn ended(&self) -> Result<(), DataError>
        ensures { result ≡ finalizing self.now.finalized }
    {
        if self.finalized {
            return Err(DataError::InvalidOperation(Invalid::Finalized));
        }
        Ok(())
    }

    // The updater of a new item of this id and name, of which this size is known.
    fn make_item<W: Wait>(
        &self,
        rt: &W,
        alloc: Global,
        id: UniqueID,
        name: &str,
        size: Option<u64>,
    ) -> Result<ItemProgressUpdater, OutOfMemory>
        ensures { IfOk result (λ updater. updater ≡ id) }
    {
        let updater = match GroupProgress::new_item(&self.progress, rt, alloc, id, name) {
            Ok(updater) => updater,
            Err(ProgressError::OutOfMemory) => return Err(OutOfMemory),
            Err(ProgressError::InvalidOperation(_)) => GroupProgress::updater(&self.progress, id)?,
        };
        if let Some(size) = size {
            let _ = updater.update_item_size(rt, size, true);
        }
        Ok(updater)
    }

    // Begins a download of this range of a file, or of the whole of it, with an item of this name.
    pub(crate) fn begin<W: Wait>(
        &mut self,
        rt: &W,
        alloc: Global,
        info: &XetFileInfo,
        range: Option<FileRange>,
        name: &str,
    ) -> Result<(UniqueID, DownloadJob), DataError>
        ensures { BeginCall (told_by C.told K.told self.old) (told_by C.told K.told self.new) info.now range
            (with_job (λ r. (r.0, job_of r.1)) result) }
    {
        let file_hash = info.merkle_hash()?;
        let id = match self.ids.next() {
            Ok(id) => id,
            Err(used_up) => return Err(DataError::InvalidOperation(used_up)),
        };
        let expected = expected(range, info.file_size());
        let updater = self.make_item(rt, alloc, id, name, expected)?;
        let book = shared(&self.book)?;
        Ok((
            id,
            DownloadJob {
                file_hash,
                range,
                config: self.config,
                expected,
                updater,
                book,
            },
        ))
    }

    // Begins the download of this range, with an item of this name.
    pub(crate) fn open<W: Wait>(
        &mut self,
        rt: &W,
        alloc: Global,
        info: &XetFileInfo,
        range: Result<Option<FileRange>, DataError>,
        name: &str,
    ) -> Result<(UniqueID, DownloadJob), DataError>
        ensures { OpenCall (told_by C.told K.told self.old) (told_by C.told K.told self.new) info.now range
            (with_job (λ r. (r.0, job_of r.1)) result) }
    {
        self.ended()?;
        let range = range?;
        self.begin(rt, alloc, info, range, name)
    }

    /// Downloads a range of a file to a writer, and answers the item's id and how many bytes were written. The item's
    /// name is the empty text. Without bounds the whole file is downloaded.
    ///
    /// It is refused, in this order, with `Finalized` where the session is finalized, `ReversedRange` where the range
    /// starts after its end, `HashStringParsingFailure` where the record's hash is not 64 hexadecimal digits, and
    /// `IdsUsedUp` where no id is left; then nothing is asked and written. `FileReconstructionError` has the error of
    /// the run. `SizeMismatch` comes exactly where the run counted another number of bytes than the length of a range
    /// with an end, or without a range than the declared size. `OutOfMemory` where an allocation was refused.
    ///
    /// In the Rust crate xet-data: `FileDownloadSession::download_to_writer`.
    pub fn download_to_writer<R, S>(
        &mut self,
        rt: &R,
        alloc: Global,
        file_info: &XetFileInfo,
        source_range: (Bound<u64>, Bound<u64>),
        writer: &mut S,
    ) -> Result<(UniqueID, u64), DataError>
    where
        R: Threads + Wait + Sync,
        C: Send,
        S: Sink,
        ensures { DownloadToWriterCall (told_by C.told K.told self.old) (told_by C.told K.told self.new)
            (S.told writer.old) (S.told writer.new) file_info.now (range_of source_range) result }
    {
        let range = range_bounds_to_file_range(source_range);
        let (id, job) = self.open(rt, alloc, file_info, range, "")?;
        let clients = self.connections.clients.as_mut_slice();
        let cache = &mut self.connections.chunk_cache;
        with_item(id, job.run_to_writer(rt, alloc, clients, cache, writer))
    }

    /// Downloads a whole file into this one, which is emptied first, and answers the item's id and how many bytes were
    /// written. The item has this name.
    ///
    /// It is refused, in this order, with `Finalized`, `HashStringParsingFailure` and `IdsUsedUp`, as
    /// `download_to_writer`; then nothing is asked, and the file is as it was. `FileReconstructionError` has the error
    /// of the run, `SizeMismatch` comes exactly where it counted another number of bytes than the declared size, and
    /// `OutOfMemory` where an allocation was refused.
    ///
    /// In the Rust crate xet-data: `FileDownloadSession::download_file`.
    pub fn download_file<R, F>(
        &mut self,
        rt: &R,
        alloc: Global,
        file_info: &XetFileInfo,
        name: &str,
        file: &mut F,
    ) -> Result<(UniqueID, u64), DataError>
    where
        R: Threads + Wait + Sync,
        C: Send,
        F: PlaceSink,
        ensures { DownloadFileCall (told_by C.told K.told self.old) (told_by C.told K.told self.new)
            (F.told file.old) (F.told file.new) file_info.now result }
    {
        let (id, job) = self.download_file_background(rt, alloc, file_info, name)?;
        let clients = self.connections.clients.as_mut_slice();
        let cache = &mut self.connections.chunk_cache;
        with_item(id, job.run(rt, alloc, clients, cache, file))
    }

    /// Begins the download of a whole file, with an item of this name, and answers the item's id. The job is run by
    /// whoever has it, over connections and a cache of its own.
    ///
    /// It is refused, in this order, with `Finalized`, `HashStringParsingFailure` and `IdsUsedUp`, as
    /// `download_to_writer`. `OutOfMemory` where an allocation was refused.
    ///
    /// In the Rust crate xet-data: `FileDownloadSession::download_file_background`.
    pub fn download_file_background<W: Wait>(
        &mut self,
        rt: &W,
        alloc: Global,
        file_info: &XetFileInfo,
        name: &str,
    ) -> Result<(UniqueID, DownloadJob), DataError>
        ensures { BackgroundCall (told_by C.told K.told self.old) (told_by C.told K.told self.new) file_info.now
            (with_job (λ r. (r.0, job_of r.1)) result) }
    {
        self.open(rt, alloc, file_info, Ok(None), name)
    }

    /// Ends the session: no download is begun after it. It takes no memory.
    ///
    /// `Finalized` exactly at a second call.
    ///
    /// In the Rust crate xet-data: `FileDownloadSession::finalize`.
    pub fn finalize(&mut self) -> Result<(), DataError>
        ensures answer { result ≡ finalizing self.old.finalized }
        ensures same { told_by C.told K.told self.new ≡ ended (told_by C.told K.told self.old) }
    {
        self.ended()?;
        self.finalized = true;
        Ok(())
    }

    /// The sums of the session's group, in bytes.
    ///
    /// In the Rust crate xet-data: `FileDownloadSession::report`.
    pub fn report<W: Wait>(&self, rt: &W) -> GroupProgressReport
        ensures sums { Held (λ before after. (result ≡ group_sums before) × (after ≡ before)) }
        ensures bytes { result.total_bytes_completed ≤ result.total_bytes }
        ensures transfer { result.total_transfer_bytes_completed ≤ result.total_transfer_bytes }
    {
        self.progress.report(rt)
    }

    /// The report of an item of the session's group, or none where no item has this id. `OutOfMemory` where memory for
    /// the name was refused.
    ///
    /// In the Rust crate xet-data: `FileDownloadSession::item_report`.
    pub fn item_report<W: Wait>(
        &self,
        rt: &W,
        id: UniqueID,
    ) -> Result<Option<ItemProgressReport>, OutOfMemory>
        ensures { IfOk result (λ report. Held
            (λ before after. (report ≡ option_map report_of (item_of before id)) × (after ≡ before))) }
    {
        self.progress.item_report(rt, id)
    }

    /// The reports of all items of the session's group, by id. `OutOfMemory` where an allocation was refused.
    ///
    /// In the Rust crate xet-data: `FileDownloadSession::item_reports`.
    pub fn item_reports<W: Wait>(
        &self,
        rt: &W,
        alloc: Global,
    ) -> Result<BTreeMap<UniqueID, ItemProgressReport>, OutOfMemory>
        ensures { IfOk result (λ reports. Held
            (λ before after. (reports.entries ≡ reports_of before) × (after ≡ before))) }
    {
        self.progress.item_reports(rt, alloc)
    }
}

// An answer with the item's id.
fn with_item(id: UniqueID, count: Result<u64, DataError>) -> Result<(UniqueID, u64), DataError>
    ensures count { count_of result ≡ count }
    ensures id { IfOk result (λ r. r.0 ≡ id) }
{
    match count {
        Ok(count) => Ok((id, count)),
        Err(error) => Err(error),
    }
}

// How many bytes are expected: those of a range with an end, or without a range the declared size.
fn expected(range: Option<FileRange>, size: Option<u64>) -> Option<u64>
    ensures { result ≡ expected_of range size }
{
    match range {
        None => size,
        Some(range) if range.end == u64::MAX => None,
        Some(range) => Some(range.end.saturating_sub(range.start)),
    }
}
