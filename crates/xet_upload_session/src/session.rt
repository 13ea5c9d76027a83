//! An upload session.
ghost use Rattle.std.specs.Prelude.{◌≡◌, ◌+◌, ◌++◌, ◌<◌, ◌≤◌, ◌⊎◌, ◌∷◌, [], All, Contains, IfErr, IfOk, IfSome, None};
ghost use Rattle.std.specs.Prelude.{OnErr, OnOk, Some, false, length, map, option_map, true, vec_capacity, vec_len};
ghost use Rattle.xet_base.specs.Records.{Describes};
ghost use Rattle.xet_progress_state.specs.Group.{group_sums, item_of, reports_of};
ghost use Rattle.xet_progress.specs.Held.{Held};
ghost use Rattle.xet_progress_state.specs.Items.{report_of};
ghost use Rattle.xet_progress_state.specs.declared.step.TrackerStep.TheVariants.{IncrementFileSize};
ghost use Rattle.xet_progress_state.specs.declared.step.TrackerStep.TheVariants.{RegisterDependencies};
ghost use Rattle.xet_shard_interface.specs.Interfaces.{new_interface, records_of, rules_of, shards_told};
ghost use Rattle.xet_upload.specs.Orders.{names_of};
ghost use Rattle.xet_upload.specs.Waitings.{IsWithin, merged};
ghost use Rattle.xet_shards.specs.Shards.{no_records};
ghost use Rattle.xet_upload_session.specs.Calls.{Backs, Counted, Cut, Finalizes, HasFiles, Keeps, PutsFail, Queries};
ghost use Rattle.xet_upload_session.specs.Calls.{Registers, SearchesInOrder, new_session};
ghost use Rattle.xet_upload_parts.specs.Storable.{IsStorable};
ghost use Rattle.xet_upload_parts.specs.Thresholds.{thresholds_of};
ghost use Rattle.xet_upload_session.specs.Completions.{with_file_counts};
ghost use Rattle.xet_upload_session.specs.Sessions.{HasListed, IsBackedSession, waiting_names};
ghost use Rattle.xet_upload_session.specs.Trackings.{CountsPut, StartsFile, Tracks, TracksCut, TracksXorb};
ghost use Rattle.xet_upload_session.specs.steps.Listings.{AreListed, AreStorable};
ghost use Rattle.xet_upload_session.specs.steps.SessionSteps.{AddedRecord, GivenCounted, OnList};
ghost use Rattle.xet_upload_session.specs.Calls.{AsksFor};
ghost use Rattle.xet_upload_session.specs.steps.SessionSteps.{PutCounted, PutFinished, PutRaw, Repeats};
ghost use Rattle.xet_upload_session.specs.steps.SessionSteps.{TookWaiting};

use std::alloc::Global;
use std::collections::BTreeMap;
use std::mem;
use std::sync::{Arc, Wait};
use xet_base::{
    FileDataSequenceEntry, IdSource, Invalid, List, MDBFileInfo, MerkleHash, OutOfMemory, UniqueID,
    Xorb,
};
use xet_outside::ClientError;
use xet_pointer::TranslatorConfig;
use xet_progress::{FileXorbDependency, GroupProgress, GroupProgressReport, ItemProgressReport};
use xet_session_end::{end_session, put_xorb};
use xet_shard_interface::{SessionShardInterface, SessionStores};
use xet_shards::ShardStore;
use xet_upload::{DataAggregator, DataError, DeduplicationMetrics, PendingFile, RawXorbData};
use xet_upload_parts::{CutThresholds, FileTracker, HashList, RepeatedXorbs};
use xet_uploader::Uploader;

/// An upload session: what waits to be put, and the records of what was put.
///
/// In the Rust crate xet-data: `processing::file_upload_session::FileUploadSession`.
#[derive(Drop)]
pub struct FileUploadSession<U: Uploader, R: ShardStore> {
    uploader: U,
    shards: SessionShardInterface<R>,
    // what waits to be put
    waiting: DataAggregator,
    // the files whose chunks are all in xorbs with a hash
    finished: Vec<PendingFile>,
    // the xorbs that were put, and those that a query found
    listed: HashList,
    // the xorbs that were put
    registered: HashList,
    // the xorbs that were not put, since one of their hash was put before
    repeated: RepeatedXorbs,
    metrics: DeduplicationMetrics,
    // the first put that failed
    failed: Option<ClientError>,
    finalized: bool,
    // whether the uploader may be asked for records
    queries_enabled: bool,
    // up to where the data of a file and what waits stay one
    thresholds: CutThresholds,
    // the sizes of the xorbs, how many of their bytes were put, and the items of the files
    progress: Arc<GroupProgress>,
    // the ids of the items
    ids: IdSource,
    // the files and the xorbs, and what the files have in these
    files: FileTracker,
    // what is named is on the list, unless a failed put is kept or the session is finalized
    ghost lists: { failed ≡ None → finalized ≡ false
        → AreListed listed.hashes.items registered.hashes.items (map (λ p. p.info) finished.items) waiting },
    // a xorb of what waits can be stored
    ghost waits: { AreStorable waiting.chunks },
}

impl<U: Uploader, R: ShardStore> FileUploadSession<U, R> {
    ghost use Rattle.xet_upload_session.specs.Telling.{KeepsGroup, told_by};

    /// A session in which nothing waits. It asks nothing of uploader and stores. `now` is a moment in seconds. The
    /// caller sees to it that the session's store and the staging store have no records.
    ///
    /// `OutOfMemory` where the memory of its group was refused.
    ///
    /// In the Rust crate xet-data: `FileUploadSession::new`.
    pub fn new(
        alloc: Global,
        config: &TranslatorConfig,
        uploader: U,
        stores: SessionStores<R>,
        ids: IdSource,
        now: u64,
    ) -> Result<FileUploadSession<U, R>, OutOfMemory>
    where
        U: Drop,
        R: Drop,
        ensures told { IfOk result (λ session. told_by session
            ≡ new_session (U.told uploader) (new_interface R.told (rules_of config.now false) stores now)
            config.now.global_dedup_query_enabled (thresholds_of config.now)) }
        ensures backed { IfOk result (λ session.
            records_of (R.told stores.session) ≡ no_records → IsBackedSession (told_by session)) }
        ensures tracked { IfOk result (λ session. session.files.tracker ≡ []) }
        ensures ids { IfOk result (λ session. session.ids ≡ ids) }
    {
        let shards = SessionShardInterface::new(alloc, config, stores, false, now);
        let thresholds = CutThresholds::of(config);
        let queries_enabled = config.global_dedup_query_enabled;
        FileUploadSession::over(alloc, uploader, shards, ids, queries_enabled, thresholds)
    }

    /// The same, but that it puts no records and uses no resumed ones.
    ///
    /// In the Rust crate xet-data: `FileUploadSession::dry_run`.
    pub fn dry_run(
        alloc: Global,
        config: &TranslatorConfig,
        uploader: U,
        stores: SessionStores<R>,
        ids: IdSource,
        now: u64,
    ) -> Result<FileUploadSession<U, R>, OutOfMemory>
    where
        U: Drop,
        R: Drop,
        ensures told { IfOk result (λ session. told_by session
            ≡ new_session (U.told uploader) (new_interface R.told (rules_of config.now true) stores now)
            config.now.global_dedup_query_enabled (thresholds_of config.now)) }
        ensures backed { IfOk result (λ session.
            records_of (R.told stores.session) ≡ no_records → IsBackedSession (told_by session)) }
        ensures tracked { IfOk result (λ session. session.files.tracker ≡ []) }
        ensures ids { IfOk result (λ session. session.ids ≡ ids) }
    {
        let shards = SessionShardInterface::new(alloc, config, stores, true, now);
        let thresholds = CutThresholds::of(config);
        let queries_enabled = config.global_dedup_query_enabled;
        FileUploadSession::over(alloc, uploader, shards, ids, queries_enabled, thresholds)
    }

    // A session over these in which nothing waits.
    fn over(
        alloc: Global,
        uploader: U,
        shards: SessionShardInterface<R>,
        ids: IdSource,
        queries_enabled: bool,
        thresholds: CutThresholds,
    ) -> Result<FileUploadSession<U, R>, OutOfMemory>
    where
        U: Drop,
        R: Drop,
        ensures told { IfOk result (λ session. told_by session
            ≡ new_session (U.told uploader) (shards_told R.told shards) queries_enabled thresholds) }
        ensures tracked { IfOk result (λ session. session.files.tracker ≡ []) }
        ensures ids { IfOk result (λ session. session.ids ≡ ids) }
    {
        let progress = GroupProgress::new(alloc)?;
        Ok(FileUploadSession {
            uploader,
            shards,
            waiting: DataAggregator::new(alloc),
            finished: Vec::new(alloc),
            listed: HashList::new(alloc),
            registered: HashList::new(alloc),
            repeated: RepeatedXorbs::new(),
            metrics: DeduplicationMetrics::new(),
            failed: None,
            finalized: false,
            queries_enabled,
            thresholds,
            progress,
            ids,
            files: FileTracker::new(alloc),
        })
    }

    /// The uploader and the stores as the session holds them.
    ///
    /// It has no source in the Rust crates.
    pub fn into_parts(self) -> (U, SessionStores<R>)
        ensures uploader { result.0 ≡ self.uploader }
        ensures stores { result.1 ≡ self.shards.stores }
    {
        (self.uploader, self.shards.into_stores())
    }

    /// The uploader as the session holds it.
    pub fn uploader(&self) -> &U
        ensures { result.now ≡ self.now.uploader }
    {
        &self.uploader
    }

    // Puts a xorb. Its hash comes onto the lists and its bytes are counted, or the failure is kept. Its size is
    // reported before, and as completed after; a refused report changes nothing.
    fn put_raw<W: Wait>(
        &mut self,
        rt: &W,
        alloc: Global,
        raw: &RawXorbData,
    ) -> Result<(), DataError>
        requires room { vec_len self.old.listed.hashes < vec_capacity self.old.listed.hashes }
        requires noted { vec_len self.old.registered.hashes < vec_capacity self.old.registered.hashes }
        requires unfailed { self.old.failed ≡ None }
        ensures call { PutRaw (told_by self.old) (told_by self.new) raw.now.xorb result }
        ensures files { self.new.finished ≡ self.old.finished }
        ensures untold { self.new.files.tracker ≡ self.old.files.tracker }
        ensures group { KeepsGroup self.old self.new }
    {
        let size = raw.num_bytes();
        let _ = self.progress.add_transfer(rt, size, 0);
        match put_xorb(alloc, &mut self.uploader, &mut self.failed, &raw.xorb) {
            Ok(sent) => {
                let _ = self.progress.add_transfer(rt, 0, size);
                self.listed.push_reserved(raw.xorb.hash);
                self.registered.push_reserved(raw.xorb.hash);
                let bytes = self.metrics.xorb_bytes_uploaded.saturating_add(sent);
                self.metrics.xorb_bytes_uploaded = bytes;
                Ok(())
            }
            Err(error) => Err(error),
        }
    }

    // Makes room for a xorb on the lists.
    fn make_room(&mut self) -> Result<(), OutOfMemory>
        ensures same { told_by self.new ≡ told_by self.old }
        ensures room { OnOk result (vec_len self.new.listed.hashes < vec_capacity self.new.listed.hashes) }
        ensures noted { OnOk result (vec_len self.new.registered.hashes < vec_capacity self.new.registered.hashes) }
        ensures untold { self.new.files.tracker ≡ self.old.files.tracker }
        ensures group { KeepsGroup self.old self.new }
    {
        self.listed.reserve(1)?;
        self.registered.reserve(1)
    }

    // Takes what waits, with room for its xorb on the lists and for its files.
    fn take_waiting(
        &mut self,
        alloc: Global,
    ) -> Result<(RawXorbData, List<PendingFile>), OutOfMemory>
        ensures taken { TookWaiting (told_by self.old) (told_by self.new) result }
        ensures room { OnOk result (vec_len self.new.listed.hashes < vec_capacity self.new.listed.hashes) }
        ensures noted { OnOk result (vec_len self.new.registered.hashes < vec_capacity self.new.registered.hashes) }
        ensures space { IfOk result (λ r.
            vec_len self.new.finished + length r.1 ≤ vec_capacity self.new.finished) }
        ensures untold { self.new.files.tracker ≡ self.old.files.tracker }
        ensures group { KeepsGroup self.old self.new }
    {
        self.make_room()?;
        reserve(&mut self.finished, self.waiting.num_files())?;
        self.waiting.finalize(alloc)
    }

    // The files are finished.
    fn finish_files(&mut self, files: List<PendingFile>)
        requires space { vec_len self.old.finished + length files ≤ vec_capacity self.old.finished }
        requires named { self.old.failed ≡ None → self.old.finalized ≡ false
            → All (Contains self.old.listed.hashes.items) (names_of (map (λ p. p.info) files)) }
        ensures call { told_by self.new ≡ record (told_by self.old) {
          finished = map (λ p. p.info) self.old.finished.items ++ map (λ p. p.info) files;
        } }
        ensures untold { self.new.files.tracker ≡ self.old.files.tracker }
        ensures group { KeepsGroup self.old self.new }
    {
        let mut files = files.into_inner();
        append_reserved(&mut self.finished, &mut files);
    }

    // Counts a xorb that was put as complete, adds its record to those of the session, and keeps it for staging.
    fn add_record<W: Wait>(
        &mut self,
        rt: &W,
        alloc: Global,
        raw: &RawXorbData,
        now: u64,
    ) -> Result<(), DataError>
        ensures call { AddedRecord (told_by self.old) (told_by self.new) raw.now.xorb_info now result }
        ensures tracked { CountsPut self.old.files.tracker self.new.files.tracker raw.now.xorb.hash result }
        ensures group { KeepsGroup self.old self.new }
    {
        self.files.complete(rt, &raw.xorb.hash)?;
        self.shards.add_xorb_block(alloc, &raw.xorb_info)?;
        self.shards
            .add_uploaded_xorb_block(alloc, &raw.xorb_info, now)
    }

    // Puts a xorb, after which its files are finished and the tracker counts it as complete, and adds its record to
    // those of the session.
    fn put_finished<W: Wait>(
        &mut self,
        rt: &W,
        alloc: Global,
        raw: &RawXorbData,
        files: List<PendingFile>,
        now: u64,
    ) -> Result<(), DataError>
        requires room { vec_len self.old.listed.hashes < vec_capacity self.old.listed.hashes }
        requires noted { vec_len self.old.registered.hashes < vec_capacity self.old.registered.hashes }
        requires unfailed { self.old.failed ≡ None }
        requires space { vec_len self.old.finished + length files ≤ vec_capacity self.old.finished }
        requires named { self.old.finalized ≡ false
            → All (Contains (self.old.listed.hashes.items ++ raw.now.xorb.hash ∷ []))
            (names_of (map (λ p. p.info) files)) }
        requires describes { Describes raw.now.xorb_info raw.now.xorb }
        ensures call { PutFinished (told_by self.old) (told_by self.new) raw.now.xorb
            (map (λ p. p.info) files) now result }
        ensures tracked { PutCounted (told_by self.old) (told_by self.new)
            self.old.files.tracker self.new.files.tracker raw.now.xorb.hash result }
        ensures group { KeepsGroup self.old self.new }
    {
        match self.put_raw(rt, alloc, raw) {
            Ok(()) => {
                self.finish_files(files);
                self.add_record(rt, alloc, raw, now)
            }
            Err(error) => Err(error),
        }
    }

    // Whether a xorb of so many chunks is to be put: it has some, and none of its hash was put before.
    fn is_new(&self, chunks: u64, hash: &MerkleHash) -> bool
        ensures some { result ≡ true → 0 < chunks }
        ensures new { result ≡ true → Contains self.now.registered.hashes.items hash.now → ⊥ }
        ensures old { result ≡ false → (chunks ≡ 0) ⊎ Contains self.now.registered.hashes.items hash.now }
    {
        chunks > 0 && !self.registered.contains(hash)
    }

    // What waits.
    pub(crate) fn waiting(&self) -> &DataAggregator
        ensures { result.now ≡ self.now.waiting }
    {
        &self.waiting
    }

    // Other data waits, whose xorbs are on the list. It gives what waited.
    pub(crate) fn replace_waiting(&mut self, file_data: DataAggregator) -> DataAggregator
        requires named { self.old.failed ≡ None → self.old.finalized ≡ false
            → All (Contains self.old.listed.hashes.items) (waiting_names file_data.files) }
        requires storable { IsStorable file_data.chunks }
        ensures same { told_by self.new ≡ record (told_by self.old) { waiting = file_data } }
        ensures is { result ≡ self.old.waiting }
        ensures untold { self.new.files.tracker ≡ self.old.files.tracker }
        ensures group { KeepsGroup self.old self.new }
    {
        mem::replace(&mut self.waiting, file_data)
    }

    // Data joins what waits; its xorbs are on the list. A refused call changes nothing.
    pub(crate) fn merge_waiting(
        &mut self,
        alloc: Global,
        file_data: DataAggregator,
    ) -> Result<(), OutOfMemory>
        requires within { IsWithin (self.old.waiting.chunks ++ file_data.chunks) }
        requires named { self.old.failed ≡ None → self.old.finalized ≡ false
            → All (Contains self.old.listed.hashes.items) (waiting_names file_data.files) }
        requires storable { IsStorable file_data.chunks }
        ensures ok { OnOk result (told_by self.new
            ≡ record (told_by self.old) { waiting = merged self.old.waiting file_data }) }
        ensures err { OnErr result (told_by self.new ≡ told_by self.old) }
        ensures untold { self.new.files.tracker ≡ self.old.files.tracker }
        ensures group { KeepsGroup self.old self.new }
    {
        self.waiting.merge_in(alloc, file_data)
    }

    // Up to where data and what waits stay one.
    pub(crate) fn thresholds(&self) -> CutThresholds
        ensures { result ≡ self.now.thresholds }
    {
        self.thresholds
    }

    /// Adds the counts of the chunks of a file to those of the session; each sum stops at `u64::MAX`. The counts of
    /// what was uploaded stay.
    ///
    /// In the Rust crate xet-data: a part of `FileUploadSession::register_single_file_clean_completion`.
    pub fn merge_file_metrics(&mut self, counts: &DeduplicationMetrics)
        ensures counted { told_by self.new ≡ record (told_by self.old) {
          metrics = with_file_counts self.old.metrics counts.now;
        } }
        ensures keeps { Keeps (told_by self.old) (told_by self.new) }
        ensures backs { Backs (told_by self.old) (told_by self.new) }
        ensures untold { self.new.files.tracker ≡ self.old.files.tracker }
        ensures group { KeepsGroup self.old self.new }
    {
        let before = self.metrics;
        self.metrics.merge_in(counts);
        self.metrics.xorb_bytes_uploaded = before.xorb_bytes_uploaded;
        self.metrics.shard_bytes_uploaded = before.shard_bytes_uploaded;
        self.metrics.total_bytes_uploaded = before.total_bytes_uploaded;
    }

    /// Whether the session is finalized.
    ///
    /// It has no source in the Rust crates.
    pub fn is_finalized(&self) -> bool
        ensures is { result ≡ self.now.finalized }
        ensures listed { HasListed (told_by self.now) }
    {
        self.finalized
    }

    /// Whether the xorb is on the session's list: it was put, or a query found it.
    ///
    /// It has no source in the Rust crates.
    pub fn lists(&self, xorb: &MerkleHash) -> bool
        ensures yes { result ≡ true → Contains self.now.listed.hashes.items xorb.now }
        ensures no { result ≡ false → Contains self.now.listed.hashes.items xorb.now → ⊥ }
    {
        self.listed.contains(xorb)
    }

    /// Cuts what waits as a xorb and puts it, and its files are finished. Data without chunks puts nothing, nor does
    /// data whose xorb was put before. It does not ask whether the session is finalized. `now` is a moment in seconds.
    ///
    /// The tracker is told of it; a refusal changes nothing. Want of memory for that is answered where a xorb was put,
    /// after it, since what waits is taken by then.
    ///
    /// After a put that failed it answers so, and puts nothing: `ClientError` where the uploader failed. `IOError`
    /// comes only where a store of records failed.
    ///
    /// In the Rust crate xet-data: `FileUploadSession::checkpoint`.
    pub fn checkpoint<W: Wait>(&mut self, rt: &W, alloc: Global, now: u64) -> Result<(), DataError>
        ensures call { Cut (told_by self.old) (told_by self.new) now result }
        ensures tracks { TracksCut (told_by self.old) (told_by self.new)
            self.old.files.tracker self.new.files.tracker result }
        ensures group { KeepsGroup self.old self.new }
        ensures backs { Backs (told_by self.old) (told_by self.new) }
    {
        if let Some(error) = self.failed {
            return Err(DataError::from(error));
        }
        let chunks = self.waiting.num_chunks();
        let (raw, files) = self.take_waiting(alloc)?;
        let noted = self.files.register_cut(rt, alloc, &raw, files.as_slice());
        if !self.is_new(chunks, &raw.xorb.hash) {
            self.finish_files(files);
            self.repeat_cut(&raw.xorb);
            return Ok(());
        }
        match self.put_finished(rt, alloc, &raw, files, now) {
            Ok(()) => noted,
            Err(error) => Err(error),
        }
    }

    // Tells that a xorb which was cut is not put, since one of its hash was put before. One without chunks is not told.
    fn repeat_cut(&mut self, xorb: &Xorb)
        ensures call { Repeats (told_by self.old) (told_by self.new) xorb.now }
        ensures untold { self.new.files.tracker ≡ self.old.files.tracker }
        ensures group { KeepsGroup self.old self.new }
    {
        if xorb.chunks.len() > 0 {
            self.repeated.push(xorb);
        }
    }

    // The failure that is kept, where the xorb would be put.
    fn kept_failure(&self, xorb: &Xorb) -> Option<ClientError>
        ensures some { IfSome result (λ e. (self.now.failed ≡ Some e) × (0 < length xorb.now.chunks)
            × (Contains self.now.registered.hashes.items xorb.now.hash → ⊥)) }
        ensures none { result ≡ None → (Contains self.now.registered.hashes.items xorb.now.hash → ⊥)
            → 0 < length xorb.now.chunks → self.now.failed ≡ None }
    {
        if xorb.chunks.len() == 0 {
            return None;
        }
        if self.registered.contains(&xorb.hash) {
            return None;
        }
        self.failed
    }

    // Puts a xorb with its record, unless it has no chunks or one with the hash was put before. The tracker counts it
    // as complete.
    fn put_new<W: Wait>(
        &mut self,
        rt: &W,
        alloc: Global,
        raw: &RawXorbData,
        now: u64,
    ) -> Result<bool, DataError>
        requires room { vec_len self.old.listed.hashes < vec_capacity self.old.listed.hashes }
        requires noted { vec_len self.old.registered.hashes < vec_capacity self.old.registered.hashes }
        requires first { self.old.finalized ≡ false }
        requires unfailed { (Contains self.old.registered.hashes.items raw.now.xorb.hash → ⊥)
            → 0 < length raw.now.xorb.chunks → self.old.failed ≡ None }
        requires describes { Describes raw.now.xorb_info raw.now.xorb }
        ensures call { Registers (told_by self.old) (told_by self.new) raw.now.xorb now result }
        ensures why { IfErr result (PutsFail (told_by self.old) (told_by self.new)) }
        ensures tracked { GivenCounted (told_by self.old) (told_by self.new)
            self.old.files.tracker self.new.files.tracker raw.now.xorb result }
        ensures group { KeepsGroup self.old self.new }
    {
        if self.registered.contains(&raw.xorb.hash) {
            self.repeated.push(&raw.xorb);
            return Ok(false);
        }
        if raw.xorb.chunks.len() == 0 {
            self.files.complete(rt, &raw.xorb.hash)?;
            return Ok(true);
        }
        match self.put_finished(rt, alloc, raw, List::new(alloc), now) {
            Ok(()) => Ok(true),
            Err(error) => Err(error),
        }
    }

    /// Puts a xorb with its record, unless one with the hash was put before: then it answers false and puts nothing.
    /// A xorb without chunks is put nowhere. The tracker is told of the xorb where it is new, and of what files have in
    /// xorbs, before the put, and then that the xorb is complete. `now` is a moment in seconds.
    ///
    /// `Finalized` exactly where the session is finalized. After a put that failed it answers so where it would put,
    /// and puts nothing: `ClientError` where the uploader failed. Each other `InvalidOperation` is the tracker's
    /// refusal, and nothing was put: `OtherSize` or `SumTooGreat` by the xorb's size, then `UnknownFile` or `PastTotal`
    /// by the dependencies.
    /// `IOError` comes only where a store of records failed.
    ///
    /// In the Rust crate xet-data: `FileUploadSession::register_new_xorb`.
    pub fn register_new_xorb<W: Wait>(
        &mut self,
        rt: &W,
        alloc: Global,
        raw: RawXorbData,
        file_dependencies: &[FileXorbDependency],
        now: u64,
    ) -> Result<bool, DataError>
        requires { Describes raw.xorb_info raw.xorb }
        ensures call { Registers (told_by self.old) (told_by self.new) raw.xorb now result }
        ensures tracks { TracksXorb (told_by self.old) (told_by self.new) self.old.files.tracker self.new.files.tracker
            raw.xorb file_dependencies.now result }
        ensures group { KeepsGroup self.old self.new }
        ensures backs { Backs (told_by self.old) (told_by self.new) }
    {
        if self.finalized {
            return Err(DataError::InvalidOperation(Invalid::Finalized));
        }
        if let Some(error) = self.kept_failure(&raw.xorb) {
            return Err(DataError::from(error));
        }
        self.make_room()?;
        match self
            .files
            .register_given(rt, alloc, &raw, file_dependencies, &self.registered)
        {
            Ok(()) => self.put_new(rt, alloc, &raw, now),
            Err(error) => Err(error),
        }
    }

    /// Tells the tracker what files have in xorbs: all of it or nothing. The lists keep their room.
    ///
    /// `InvalidOperation` exactly where the tracker refuses it: `UnknownFile` where one names no file, else `PastTotal`
    /// where a file's dependencies would pass its size. `OutOfMemory` where an allocation was refused.
    ///
    /// In the Rust crate xet-data: `FileUploadSession::register_xorb_dependencies`.
    pub fn register_xorb_dependencies<W: Wait>(
        &mut self,
        rt: &W,
        alloc: Global,
        dependencies: &[FileXorbDependency],
    ) -> Result<(), DataError>
        ensures same { told_by self.new ≡ told_by self.old }
        ensures tracks { Tracks self.old.files.tracker self.new.files.tracker
            (RegisterDependencies dependencies.now ∷ []) result }
        ensures listed { self.new.listed ≡ self.old.listed }
        ensures registered { self.new.registered ≡ self.old.registered }
        ensures group { KeepsGroup self.old self.new }
    {
        self.files.register_dependencies(rt, alloc, dependencies)
    }

    /// Begins a file: an item of the session's group with the next id and this name, and a file of the tracker, whose
    /// size in bytes is fixed where it is given, and grows from 0 else. It answers the item's id and the tracker's.
    ///
    /// `Finalized` exactly where the session is finalized, else `IdsUsedUp` exactly where no id is left, else
    /// `SumTooGreat` where the sum of all files' sizes would pass `u64::MAX`. `OutOfMemory` where an allocation was
    /// refused.
    ///
    /// In the Rust crate xet-data: the begin of `FileUploadSession::start_clean`.
    pub fn start_file<W: Wait>(
        &mut self,
        rt: &W,
        alloc: Global,
        name: &str,
        size: Option<u64>,
    ) -> Result<(UniqueID, u64), DataError>
        ensures same { told_by self.new ≡ told_by self.old }
        ensures starts { StartsFile self.old.files.tracker self.new.files.tracker self.old.ids self.new.ids
            self.old.finalized size result }
        ensures group { self.new.progress ≡ self.old.progress }
    {
        if self.finalized {
            return Err(DataError::InvalidOperation(Invalid::Finalized));
        }
        match self.ids.next() {
            Ok(id) => self
                .files
                .add_file(rt, alloc, &self.progress, id, name, size),
            Err(used_up) => Err(DataError::InvalidOperation(used_up)),
        }
    }

    /// Adds to the size of a file, in bytes. A fixed size stays.
    ///
    /// `InvalidOperation` exactly where the tracker refuses it: `UnknownFile` where no file has this id of the tracker,
    /// else `SumTooGreat` where the sum of all files' sizes would pass `u64::MAX`. `OutOfMemory` where an allocation
    /// was refused.
    ///
    /// In the Rust crates: `CompletionTracker::increment_file_size`, on the session's tracker.
    pub fn grow_file<W: Wait>(&mut self, rt: &W, file_id: u64, bytes: u64) -> Result<(), DataError>
        ensures same { told_by self.new ≡ told_by self.old }
        ensures tracks { Tracks self.old.files.tracker self.new.files.tracker
            (IncrementFileSize file_id bytes ∷ []) result }
        ensures group { KeepsGroup self.old self.new }
    {
        self.files.grow_file(rt, file_id, bytes)
    }

    // The xorb is on the list, for which there is room.
    fn put_on_list(&mut self, xorb: MerkleHash)
        requires { vec_len self.old.listed.hashes < vec_capacity self.old.listed.hashes }
        ensures call { OnList (told_by self.old) (told_by self.new) xorb }
        ensures untold { self.new.files.tracker ≡ self.old.files.tracker }
        ensures group { KeepsGroup self.old self.new }
    {
        if self.listed.contains(&xorb) {
            return;
        }
        self.listed.push_reserved(xorb);
    }

    /// A run of chunks with these hashes: from the resumed records, from those of the session, or from those of the
    /// cache. It tells how many of them, the term that names the run, and whether the session did not add the record.
    /// The xorb is on the session's list afterwards. A dry run asks the resumed store nothing. `IOError` comes only
    /// where the faults of a store that was asked rose, and those before it have no such run.
    ///
    /// In the Rust crate xet-data: `deduplication_interface::UploadSessionDataManager::chunk_hash_dedup_query`.
    pub fn chunk_hash_dedup_query(
        &mut self,
        alloc: Global,
        hashes: &[MerkleHash],
    ) -> Result<Option<(usize, FileDataSequenceEntry, bool)>, DataError>
        ensures call { Queries (told_by self.old) (told_by self.new) hashes.now result }
        ensures order { SearchesInOrder (told_by self.old) (told_by self.new) hashes.now result }
        ensures backs { Backs (told_by self.old) (told_by self.new) }
        ensures untold { self.new.files.tracker ≡ self.old.files.tracker }
        ensures group { KeepsGroup self.old self.new }
    {
        self.listed.reserve(1)?;
        match self.shards.chunk_hash_dedup_query(alloc, hashes)? {
            None => Ok(None),
            Some(found) => {
                self.put_on_list(found.1.xorb);
                Ok(Some(found))
            }
        }
    }

    /// Whether the uploader may be asked for records.
    ///
    /// It has no source in the Rust crates.
    pub fn asks_queries(&self) -> bool
        ensures { result ≡ self.now.queries_enabled }
    {
        self.queries_enabled
    }

    /// Asks the uploader for records that know a chunk, which the cache has then. It tells whether there are any.
    ///
    /// In the Rust crate xet-data: a part of `UploadSessionDataManager::complete_global_dedup_queries`.
    pub fn ask(&mut self, alloc: Global, chunk: &MerkleHash) -> Result<bool, DataError>
        ensures call { AsksFor (told_by self.old) (told_by self.new) chunk.now result }
        ensures untold { self.new.files.tracker ≡ self.old.files.tracker }
        ensures group { KeepsGroup self.old self.new }
    {
        self.shards
            .query_dedup_shard_by_chunk(alloc, &mut self.uploader, chunk)
    }

    /// Puts what waits, and then the records of all that was put and finished, and takes the counts last. The session
    /// is finalized then, whatever it answers: no call puts anything after it but `checkpoint`, which puts what waits
    /// on, and the end of a file, where that cuts. A dry run puts no records, and answers the same counts. `now` is a
    /// moment in seconds.
    ///
    /// `Finalized` exactly where it was called before. After a put that failed it answers so, and puts nothing more:
    /// `ClientError` where the uploader failed. `IOError` comes only where a store of records failed.
    ///
    /// In the Rust crate xet-data: `FileUploadSession::finalize`.
    pub fn finalize<W: Wait>(
        &mut self,
        rt: &W,
        alloc: Global,
        now: u64,
    ) -> Result<DeduplicationMetrics, DataError>
        ensures call { Finalizes (told_by self.old) (told_by self.new) now result }
        ensures tracks { TracksCut (told_by self.old) (told_by self.new)
            self.old.files.tracker self.new.files.tracker result }
        ensures untold { self.old.finalized ≡ true → self.new.files.tracker ≡ self.old.files.tracker }
        ensures group { KeepsGroup self.old self.new }
        ensures counts { IfOk result (Counted (told_by self.old) (told_by self.new)) }
        ensures backs { Backs (told_by self.old) (told_by self.new) }
    {
        if self.finalized {
            return Err(DataError::InvalidOperation(Invalid::Finalized));
        }
        self.finalized = true;
        let cut = self.checkpoint(rt, alloc, now);
        end_session(
            alloc,
            &mut self.uploader,
            &mut self.shards,
            self.finished.as_slice(),
            &mut self.metrics,
            &mut self.failed,
            cut,
        )
    }

    /// The same as `finalize`, with the file records of the session, in the order in which they were added.
    ///
    /// In the Rust crate xet-data: `FileUploadSession::finalize_with_file_info`.
    pub fn finalize_with_file_info<W: Wait>(
        &mut self,
        rt: &W,
        alloc: Global,
        now: u64,
    ) -> Result<(DeduplicationMetrics, List<MDBFileInfo>), DataError>
        ensures call { Finalizes (told_by self.old) (told_by self.new) now result }
        ensures tracks { TracksCut (told_by self.old) (told_by self.new)
            self.old.files.tracker self.new.files.tracker result }
        ensures untold { self.old.finalized ≡ true → self.new.files.tracker ≡ self.old.files.tracker }
        ensures group { KeepsGroup self.old self.new }
        ensures counts { IfOk result (λ r. Counted (told_by self.old) (told_by self.new) r.0) }
        ensures files { IfOk result (λ r. HasFiles (told_by self.old) (told_by self.new) r.1) }
        ensures backs { Backs (told_by self.old) (told_by self.new) }
    {
        let metrics = self.finalize(rt, alloc, now)?;
        match self.shards.session_file_info_list(alloc) {
            Ok(files) => Ok((metrics, files)),
            Err(error) => Err(error),
        }
    }

    /// The same as `finalize`, with the sums of the session's group at the end.
    ///
    /// In the Rust crate xet-data: `FileUploadSession::finalize_with_report`.
    pub fn finalize_with_report<W: Wait>(
        &mut self,
        rt: &W,
        alloc: Global,
        now: u64,
    ) -> Result<(DeduplicationMetrics, GroupProgressReport), DataError>
        ensures call { Finalizes (told_by self.old) (told_by self.new) now result }
        ensures tracks { TracksCut (told_by self.old) (told_by self.new)
            self.old.files.tracker self.new.files.tracker result }
        ensures untold { self.old.finalized ≡ true → self.new.files.tracker ≡ self.old.files.tracker }
        ensures group { KeepsGroup self.old self.new }
        ensures counts { IfOk result (λ r. Counted (told_by self.old) (told_by self.new) r.0) }
        ensures sums { IfOk result (λ r. Held (λ before after. (r.1 ≡ group_sums before) × (after ≡ before))) }
        ensures bytes { IfOk result (λ r. r.1.total_bytes_completed ≤ r.1.total_bytes) }
        ensures transfer { IfOk result (λ r. r.1.total_transfer_bytes_completed ≤ r.1.total_transfer_bytes) }
        ensures backs { Backs (told_by self.old) (told_by self.new) }
    {
        match self.finalize(rt, alloc, now) {
            Ok(metrics) => Ok((metrics, self.progress.report(rt))),
            Err(error) => Err(error),
        }
    }

    /// The session's group: the sizes of its xorbs, and how many of their bytes were put.
    ///
    /// In the Rust crate xet-data: `FileUploadSession::progress`.
    pub fn progress(&self) -> &Arc<GroupProgress>
        ensures { result.now ≡ self.now.progress }
    {
        &self.progress
    }

    /// The sums of the session's group, in bytes. What is completed is at most the total, and likewise what was put.
    ///
    /// In the Rust crate xet-data: `FileUploadSession::report`.
    pub fn report<W: Wait>(&self, rt: &W) -> GroupProgressReport
        ensures sums { Held (λ before after. (result ≡ group_sums before) × (after ≡ before)) }
        ensures bytes { result.total_bytes_completed ≤ result.total_bytes }
        ensures transfer { result.total_transfer_bytes_completed ≤ result.total_transfer_bytes }
    {
        self.progress.report(rt)
    }

    /// The report of an item of the session's group, or none where no item has this id. `OutOfMemory` where memory for
    /// the name was refused.
    ///
    /// In the Rust crate xet-data: `FileUploadSession::item_report`.
    pub fn item_report<W: Wait>(
        &self,
        rt: &W,
        id: UniqueID,
    ) -> Result<Option<ItemProgressReport>, OutOfMemory>
        ensures { IfOk result (λ report. Held
            (λ before after. (report ≡ option_map report_of (item_of before id)) × (after ≡ before))) }
    {
        self.progress.item_report(rt, id)
    }

    /// The reports of all items of the session's group, by id. `OutOfMemory` where an allocation was refused.
    ///
    /// In the Rust crate xet-data: `FileUploadSession::item_reports`.
    pub fn item_reports<W: Wait>(
        &self,
        rt: &W,
        alloc: Global,
    ) -> Result<BTreeMap<UniqueID, ItemProgressReport>, OutOfMemory>
        ensures { IfOk result (λ reports. Held
            (λ before after. (reports.entries ≡ reports_of before) × (after ≡ before))) }
    {
        self.progress.item_reports(rt, alloc)
    }
}

// Makes room for so many items more.
fn reserve<T>(items: &mut Vec<T>, count: usize) -> Result<(), OutOfMemory>
    ensures same { items.new.items ≡ items.old.items }
    ensures room { OnOk result (vec_len items.new + count ≤ vec_capacity items.new) }
{
    items.reserve(count)?;
    Ok(())
}

// Moves the items of a list behind those of another, which has room for them.
fn append_reserved<T>(to: &mut Vec<T>, from: &mut Vec<T>)
    requires { vec_len to.old + vec_len from.old ≤ vec_capacity to.old }
    ensures { to.new.items ≡ to.old.items ++ from.old.items }
{
    let _ = to.append(from);
}
