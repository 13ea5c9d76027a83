//! A file on its way into a session.
ghost use Rattle.std.specs.Prelude.{◌≡◌, ◌+◌, ◌++◌, ◌∷◌, ◌<◌, ◌≤◌, ◌^◌, ◌⊎◌, ℕ, List, [], IfErr, IfOk, IfSome, None};
ghost use Rattle.std.specs.Prelude.{OnErr, OnOk, false, length, option_map, true};
ghost use Rattle.xet_base.specs.Digests.{info_of};
ghost use Rattle.sha2.specs.Hashers.{Holds256};
ghost use Rattle.xet_upload.specs.declared.sha256_policy.Sha256Policy.TheVariants.{Compute};
ghost use Rattle.xet_upload_session.specs.Sessions.{HasListed};
ghost use Rattle.xet_upload_session.specs.Telling.{KeepsGroup, told_by};
ghost use Rattle.xet_upload_session.specs.Trackings.{StartsFile};
ghost use Rattle.xet_clean.specs.Cleaners.{AddsData, Completes, CountsChunks, CutsChunks, EndPasses, EndRefused};
ghost use Rattle.xet_clean.specs.Cleaners.{AddsShared, Cleaner, FeedsSo, Finishes};
ghost use Rattle.xet_clean.specs.Cleaners.{IsEndError, IsNewCleaner, IsOwnError, NextChunk, PassesTotal, TakesIn};
ghost use Rattle.xet_clean.specs.Cleaners.{chunk_counts, past_total, started};
ghost use Rattle.xet_clean.specs.steps.Cuts.{AreCuts};
ghost use Rattle.xet_clean.specs.steps.TakenIn.{TakeCall};
ghost use Rattle.xet_clean_parts.specs.Cleanings.{AreNamed, ChunkFails, Cleans, Leaves, TrackFails};
ghost use Rattle.xet_clean_parts.specs.FileCalls.{GrowsFirst, IsFor, IsLate, IsPartOf, RefusedOf, TellsOf, growth};
ghost use Rattle.xet_clean_parts.specs.Made.{PutsSo, PutsSome};
ghost use Rattle.xet_clean_parts.specs.Pending.{bytes_left};
ghost use Rattle.xet_clean_parts.specs.Places.{IsCutUp};
ghost use Rattle.xet_clean_parts.specs.SessionCalls.{Calls};
ghost use Rattle.xet_clean.specs.FileEnds.{EndsFile, IsSame, TookFile};
ghost use Rattle.xet_clean.specs.Showing.{cleaner_of};
ghost use Rattle.xet_waiting.specs.Limits.{most_chunk_bytes};

use crate::cuts::find_cuts;
use bytes::Bytes;
use sha2::{Digest, Sha256};
use std::alloc::Global;
use std::collections::VecDeque;
use std::sync::{Mutex, Wait};
use xet_base::{ChunkInfo, Invalid, MerkleHash, OutOfMemory, UniqueID};
use xet_clean_parts::{PendingBytes, add_chunk, first_unlisted, pointer_to, recorded_sha256};
use xet_pointer::XetFileInfo;
use xet_shards::ShardStore;
use xet_upload::{Cutter, DataError, DeduplicationMetrics, FileParts, Sha256Policy};
use xet_upload_session::FileUploadSession;
use xet_uploader::Uploader;

// Bytes that were taken in: how many, and the chunks at the front of all that wait, by their hashes and lengths.
#[derive(Drop)]
struct TakenIn {
    count: u64,
    cuts: VecDeque<ChunkInfo>,
}

/// A file on its way into a session: what was cut of it, and the bytes that wait to be cut.
///
/// In the Rust crate xet-data: `processing::file_cleaner::SingleFileCleaner`.
#[derive(Drop)]
pub struct SingleFileCleaner<T: Cutter> {
    // the number by which the tracker names the file
    file_id: u64,
    // how many bytes it has, where this is fixed
    size: Option<u64>,
    policy: Sha256Policy,
    cutter: T,
    parts: FileParts,
    pending: PendingBytes,
    // of the bytes that were fed, where SHA-256 is computed
    hasher: Sha256,
    // how many bytes were fed
    fed: u64,
    counts: DeduplicationMetrics,
    // the first error of `add_data`
    failed: Option<DataError>,
}

impl<T: Cutter> SingleFileCleaner<T> {
    // A cleaner to which nothing was fed. It takes no memory.
    pub(crate) fn new(
        alloc: Global,
        file_id: u64,
        size: Option<u64>,
        policy: Sha256Policy,
        cutter: T,
    ) -> SingleFileCleaner<T>
        ensures cleaner { IsNewCleaner (cleaner_of T.told result) size policy (T.told cutter) }
        ensures number { result.file_id ≡ file_id }
    {
        SingleFileCleaner {
            file_id,
            size,
            policy,
            cutter,
            parts: FileParts::new(alloc),
            pending: PendingBytes::new(alloc),
            hasher: Sha256::new(),
            fed: 0,
            counts: DeduplicationMetrics::new(),
            failed: None,
        }
    }

    // Adds bytes to those whose SHA-256 is computed.
    fn hash(&mut self, bytes: &[u8])
        ensures same { cleaner_of T.told self.new ≡ record (cleaner_of T.told self.old) { hasher = self.new.hasher } }
        ensures hashed { self.old.policy ≡ Compute → (m : List ℕ) → Holds256 self.old.hasher m
            → Holds256 self.new.hasher (m ++ bytes.now) }
    {
        match self.policy {
            Sha256Policy::Compute => self.hasher.update(bytes),
            Sha256Policy::Provided(_) => {}
            Sha256Policy::Skip => {}
        }
    }

    // Puts bytes behind those that wait to be cut.
    fn push(&mut self, bytes: &[u8]) -> Result<(), OutOfMemory>
        requires { self.old.fed + length bytes.now < 2 ^ 64 }
        ensures ok { OnOk result (TakesIn (cleaner_of T.told self.old) bytes.now (cleaner_of T.told self.new)) }
        ensures err { OnErr result (cleaner_of T.told self.new ≡ cleaner_of T.told self.old) }
    {
        self.pending.push(bytes)?;
        self.hash(bytes);
        self.fed += bytes.len() as u64;
        Ok(())
    }

    // Takes the next of the chunks that were found at the front off the bytes that wait. None where none is left.
    fn next_chunk(
        &mut self,
        alloc: Global,
        _last: bool,
        cuts: &mut VecDeque<ChunkInfo>,
    ) -> Result<Option<(Bytes, ChunkInfo)>, OutOfMemory>
        requires { AreCuts (T.told self.old.cutter) _last (bytes_left self.old.pending) cuts.old.items }
        ensures next { IfOk result (λ o. NextChunk (cleaner_of T.told self.old) (cleaner_of T.told self.new) _last
            (option_map (λ r. r.0) o)) }
        ensures some { IfOk result (λ o. IfSome o (λ r. 0 < length r.0)) }
        ensures short { IfOk result (λ o. IfSome o (λ r. length r.0 ≤ most_chunk_bytes)) }
        ensures hashed { IfOk result (λ o. IfSome o (λ r. r.1 ≡ info_of r.0)) }
        ensures cuts { OnOk result (AreCuts (T.told self.old.cutter) _last (bytes_left self.new.pending)
            cuts.new.items) }
        ensures none { IfOk result (λ o. o ≡ None → _last ≡ true → bytes_left self.new.pending ≡ []) }
        ensures failed { self.new.failed ≡ self.old.failed }
    {
        match cuts.pop_front() {
            None => Ok(None),
            Some(info) => {
                let chunk = self.pending.take(alloc, info.length as usize)?;
                Ok(Some((chunk, info)))
            }
        }
    }

    // Cleans a chunk that was cut, and counts it.
    fn clean<U: Uploader, R: ShardStore, W: Wait>(
        &mut self,
        session: &mut FileUploadSession<U, R>,
        rt: &W,
        alloc: Global,
        chunk: Bytes,
        info: ChunkInfo,
        now: u64,
    ) -> Result<(), DataError>
        requires some { 0 < length chunk }
        requires short { length chunk ≤ most_chunk_bytes }
        requires hashed { info ≡ info_of chunk }
        ensures leaves { Leaves (told_by session.old) (told_by session.new) }
        ensures cleans { OnOk result
            (Cleans (told_by session.old) (told_by session.new) self.old.parts self.new.parts (chunk ∷ [])) }
        ensures puts { PutsSo (told_by session.old) (told_by session.new) self.old.parts.own.chunks
            (chunk ∷ []) self.new.parts.own.chunks result }
        ensures same { OnOk result (cleaner_of T.told self.new ≡ record (cleaner_of T.told self.old) {
          parts = self.new.parts;
          counts = self.new.counts;
        }) }
        ensures counts { OnOk result (CountsChunks self.old.counts (chunk ∷ []) self.new.counts) }
        ensures failed { self.new.failed ≡ self.old.failed }
        ensures why { IfErr result (ChunkFails (told_by session.old) (told_by session.new)) }
        ensures tells { TellsOf (IsPartOf self.old.file_id) (IsLate session.old.finalized) session.old.files.tracker
            session.new.files.tracker result }
        ensures calls { Calls now (told_by session.old) (told_by session.new) }
        ensures group { KeepsGroup session.old session.new }
    {
        let length = chunk.len() as u64;
        let found = add_chunk(
            session,
            rt,
            alloc,
            self.file_id,
            &mut self.parts,
            chunk,
            info,
            now,
        )?;
        self.counts.merge_in(&chunk_counts(length, found));
        Ok(())
    }

    // Takes the next chunk off the bytes that wait, and cleans it. False where none is left.
    fn cut_chunk<U: Uploader, R: ShardStore, W: Wait>(
        &mut self,
        session: &mut FileUploadSession<U, R>,
        rt: &W,
        alloc: Global,
        last: bool,
        cuts: &mut VecDeque<ChunkInfo>,
        now: u64,
    ) -> Result<bool, DataError>
        requires { AreCuts (T.told self.old.cutter) last (bytes_left self.old.pending) cuts.old.items }
        ensures leaves { Leaves (told_by session.old) (told_by session.new) }
        ensures cuts { OnOk result (CutsChunks last (told_by session.old) (told_by session.new)
            (cleaner_of T.told self.old) (cleaner_of T.told self.new)) }
        ensures puts { PutsSome (told_by session.old) (told_by session.new) self.old.parts.own.chunks
            (bytes_left self.old.pending) self.new.parts.own.chunks result }
        ensures shorter { IfOk result (λ more. more ≡ true
            → length (bytes_left self.new.pending) < length (bytes_left self.old.pending)) }
        ensures left { OnOk result (AreCuts (T.told self.old.cutter) last (bytes_left self.new.pending)
            cuts.new.items) }
        ensures up { IfOk result (λ more. more ≡ false
            → IsCutUp (T.told self.old.cutter) last (bytes_left self.new.pending)) }
        ensures none { IfOk result (λ more. more ≡ false → last ≡ true → bytes_left self.new.pending ≡ []) }
        ensures failed { self.new.failed ≡ self.old.failed }
        ensures why { IfErr result (ChunkFails (told_by session.old) (told_by session.new)) }
        ensures tells { TellsOf (IsPartOf self.old.file_id) (IsLate session.old.finalized) session.old.files.tracker
            session.new.files.tracker result }
        ensures calls { Calls now (told_by session.old) (told_by session.new) }
        ensures group { KeepsGroup session.old session.new }
    {
        match self.next_chunk(alloc, last, cuts)? {
            None => Ok(false),
            Some((chunk, info)) => {
                self.clean(session, rt, alloc, chunk, info, now)?;
                Ok(true)
            }
        }
    }

    // Takes the chunks that were found off the bytes that wait, and cleans them.
    fn cut_chunks<U: Uploader, R: ShardStore, W: Wait>(
        &mut self,
        session: &mut FileUploadSession<U, R>,
        rt: &W,
        alloc: Global,
        last: bool,
        cuts: &mut VecDeque<ChunkInfo>,
        now: u64,
    ) -> Result<(), DataError>
        requires { AreCuts (T.told self.old.cutter) last (bytes_left self.old.pending) cuts.old.items }
        ensures leaves { Leaves (told_by session.old) (told_by session.new) }
        ensures cuts { OnOk result (CutsChunks last (told_by session.old) (told_by session.new)
            (cleaner_of T.told self.old) (cleaner_of T.told self.new)) }
        ensures puts { PutsSome (told_by session.old) (told_by session.new) self.old.parts.own.chunks
            (bytes_left self.old.pending) self.new.parts.own.chunks result }
        ensures up { OnOk result (IsCutUp (T.told self.old.cutter) last (bytes_left self.new.pending)) }
        ensures none { OnOk result (last ≡ true → bytes_left self.new.pending ≡ []) }
        ensures failed { self.new.failed ≡ self.old.failed }
        ensures why { IfErr result (ChunkFails (told_by session.old) (told_by session.new)) }
        ensures tells { TellsOf (IsPartOf self.old.file_id) (IsLate session.old.finalized) session.old.files.tracker
            session.new.files.tracker result }
        ensures calls { Calls now (told_by session.old) (told_by session.new) }
        ensures group { KeepsGroup session.old session.new }
    {
        'chunks: loop {
            match self.cut_chunk(session, rt, alloc, last, cuts, now) {
                Ok(true) => {}
                Ok(false) => return Ok(()),
                Err(error) => return Err(error),
            }
        }
    }

    // Cuts all bytes that wait into chunks, and cleans them.
    fn cut_rest<U: Uploader, R: ShardStore, W: Wait>(
        &mut self,
        session: &mut FileUploadSession<U, R>,
        rt: &W,
        alloc: Global,
        now: u64,
    ) -> Result<(), DataError>
        ensures leaves { Leaves (told_by session.old) (told_by session.new) }
        ensures cuts { OnOk result (CutsChunks true (told_by session.old) (told_by session.new)
            (cleaner_of T.told self.old) (cleaner_of T.told self.new)) }
        ensures puts { PutsSome (told_by session.old) (told_by session.new) self.old.parts.own.chunks
            (bytes_left self.old.pending) self.new.parts.own.chunks result }
        ensures none { OnOk result (bytes_left self.new.pending ≡ []) }
        ensures why { IfErr result (ChunkFails (told_by session.old) (told_by session.new)) }
        ensures tells { TellsOf (IsPartOf self.old.file_id) (IsLate session.old.finalized) session.old.files.tracker
            session.new.files.tracker result }
        ensures calls { Calls now (told_by session.old) (told_by session.new) }
        ensures group { KeepsGroup session.old session.new }
    {
        let mut cuts = find_cuts(alloc, &mut self.cutter, self.pending.as_slice(), true)?;
        self.cut_chunks(session, rt, alloc, true, &mut cuts, now)
    }

    // Why so many bytes more are refused: they pass the size that is fixed.
    fn past_total(&self, bytes: &[u8]) -> Option<DataError>
        ensures some { IfSome result (λ e. PassesTotal (cleaner_of T.told self.now) bytes.now
            × (e ≡ past_total (cleaner_of T.told self.now) bytes.now)) }
        ensures none { result ≡ None → PassesTotal (cleaner_of T.told self.now) bytes.now → ⊥ }
        ensures fits { result ≡ None → self.now.fed + length bytes.now < 2 ^ 64 }
    {
        let total = self.size.unwrap_or(u64::MAX);
        let increment = bytes.len() as u64;
        if increment <= total.saturating_sub(self.fed) {
            return None;
        }
        let counted = self.fed;
        Some(DataError::InvalidOperation(Invalid::PastTotal {
            total,
            counted,
            increment,
        }))
    }

    // Tells the tracker that the file grows by so many bytes, where its size isn't fixed.
    fn grow<U: Uploader, R: ShardStore, W: Wait>(
        &self,
        session: &mut FileUploadSession<U, R>,
        rt: &W,
        bytes: u64,
    ) -> Result<(), DataError>
        ensures same { told_by session.new ≡ told_by session.old }
        ensures why { IfErr result TrackFails }
        ensures tells { TellsOf (IsFor self.now.file_id self.now.size bytes) (IsLate session.old.finalized)
            session.old.files.tracker session.new.files.tracker result }
        ensures grows { OnOk result (session.new.files.tracker
            ≡ session.old.files.tracker ++ growth self.now.file_id self.now.size bytes) }
        ensures group { KeepsGroup session.old session.new }
    {
        match self.size {
            Some(_size) => Ok(()),
            None => session.grow_file(rt, self.file_id, bytes),
        }
    }

    // Takes in bytes, and hashes them and the chunks that end in them: the part of `add_data` for which no session is
    // needed. Its error is what `add_taken` is to answer and to keep, unless the session is finalized.
    fn take_in(&mut self, alloc: Global, bytes: &[u8]) -> Result<TakenIn, DataError>
        ensures { TakeCall (cleaner_of T.told self.old) bytes.now (cleaner_of T.told self.new) result }
    {
        if let Some(error) = self.failed {
            return Err(error);
        }
        if let Some(error) = self.past_total(bytes) {
            return Err(error);
        }
        self.push(bytes)?;
        let cuts = find_cuts(alloc, &mut self.cutter, self.pending.as_slice(), false)?;
        let count = bytes.len() as u64;
        Ok(TakenIn { count, cuts })
    }

    // Tells that bytes came that were taken in, and cuts and cleans chunks. An error isn't kept.
    fn feed_taken<U: Uploader, R: ShardStore, W: Wait>(
        &mut self,
        session: &mut FileUploadSession<U, R>,
        rt: &W,
        alloc: Global,
        taken: Result<TakenIn, DataError>,
        now: u64,
    ) -> Result<(), DataError>
        requires { IfOk taken (λ t. AreCuts (T.told self.old.cutter) false (bytes_left self.old.pending) t.cuts.items) }
        ensures feeds { (c : Cleaner) (bytes : List ℕ) → TakeCall c bytes (cleaner_of T.told self.old) taken
            → FeedsSo (told_by session.old) (told_by session.new) c bytes (cleaner_of T.told self.new) result }
        ensures tells { (c : Cleaner) (bytes : List ℕ) → TakeCall c bytes (cleaner_of T.told self.old) taken
            → TellsOf (IsFor c.file_id c.size (length bytes)) (IsOwnError session.old.finalized c bytes)
            session.old.files.tracker session.new.files.tracker result }
        ensures grows { (c : Cleaner) (bytes : List ℕ) → TakeCall c bytes (cleaner_of T.told self.old) taken
            → OnOk result (GrowsFirst c.file_id c.size (length bytes) session.old.files.tracker
            session.new.files.tracker) }
        ensures calls { Calls now (told_by session.old) (told_by session.new) }
        ensures group { KeepsGroup session.old session.new }
    {
        if session.is_finalized() {
            return Err(DataError::InvalidOperation(Invalid::Finalized));
        }
        let mut found = taken?;
        self.grow(session, rt, found.count)?;
        self.cut_chunks(session, rt, alloc, false, &mut found.cuts, now)
    }

    // Feeds the bytes that `take_in` took in, of which `taken` is the answer: the rest of `add_data`.
    fn add_taken<U: Uploader, R: ShardStore, W: Wait>(
        &mut self,
        session: &mut FileUploadSession<U, R>,
        rt: &W,
        alloc: Global,
        taken: Result<TakenIn, DataError>,
        now: u64,
    ) -> Result<(), DataError>
        requires { IfOk taken (λ t. AreCuts (T.told self.old.cutter) false (bytes_left self.old.pending) t.cuts.items) }
        ensures adds { (c : Cleaner) (bytes : List ℕ) → TakeCall c bytes (cleaner_of T.told self.old) taken
            → AddsData (told_by session.old) (told_by session.new) c bytes (cleaner_of T.told self.new) result }
        ensures tells { (c : Cleaner) (bytes : List ℕ) → TakeCall c bytes (cleaner_of T.told self.old) taken
            → TellsOf (IsFor c.file_id c.size (length bytes)) (IsOwnError session.old.finalized c bytes)
            session.old.files.tracker session.new.files.tracker result }
        ensures grows { (c : Cleaner) (bytes : List ℕ) → TakeCall c bytes (cleaner_of T.told self.old) taken
            → OnOk result (GrowsFirst c.file_id c.size (length bytes) session.old.files.tracker
            session.new.files.tracker) }
        ensures calls { Calls now (told_by session.old) (told_by session.new) }
        ensures group { KeepsGroup session.old session.new }
    {
        match self.feed_taken(session, rt, alloc, taken, now) {
            Ok(()) => Ok(()),
            Err(error) => {
                self.failed = Some(self.failed.unwrap_or(error));
                Err(error)
            }
        }
    }

    /// Feeds bytes behind those that were fed: chunks are cut where the cutter says so, and each is found in a known
    /// xorb or waits for one. `now` is a moment in seconds.
    ///
    /// `Finalized` comes first, wherever the session is finalized. The first error is kept, and each later call answers
    /// it. `PastTotal` exactly where more bytes come than are left of a fixed size; then the session is as
    /// it was. `ClientError` where a put failed and is kept, `IOError` only where a store of records failed. Each other
    /// `InvalidOperation` is a refusal of the session's tracker.
    ///
    /// In the Rust crate xet-data: `SingleFileCleaner::add_data`.
    pub fn add_data<U: Uploader, R: ShardStore, W: Wait>(
        &mut self,
        session: &mut FileUploadSession<U, R>,
        rt: &W,
        alloc: Global,
        bytes: &[u8],
        now: u64,
    ) -> Result<(), DataError>
        ensures adds { AddsData (told_by session.old) (told_by session.new) (cleaner_of T.told self.old) bytes.now
            (cleaner_of T.told self.new) result }
        ensures tells { TellsOf (IsFor self.old.file_id self.old.size (length bytes.now))
            (IsOwnError session.old.finalized (cleaner_of T.told self.old) bytes.now)
            session.old.files.tracker session.new.files.tracker result }
        ensures grows { OnOk result (GrowsFirst self.old.file_id self.old.size (length bytes.now)
            session.old.files.tracker session.new.files.tracker) }
        ensures calls { Calls now (told_by session.old) (told_by session.new) }
        ensures group { KeepsGroup session.old session.new }
    {
        let taken = self.take_in(alloc, bytes);
        self.add_taken(session, rt, alloc, taken, now)
    }

    /// The same over a session that threads share. The bytes are copied and hashed, and their chunks found and hashed,
    /// without its lock; then it waits for the lock, and all that uses the session is done under one hold. `now` is a
    /// moment in seconds.
    ///
    /// The errors are those of `add_data`.
    ///
    /// In the Rust crate xet-data: `SingleFileCleaner::add_data`, whose session is shared.
    pub fn add_data_shared<U: Uploader, R: ShardStore, W: Wait>(
        &mut self,
        session: &Mutex<FileUploadSession<U, R>>,
        rt: &W,
        alloc: Global,
        bytes: &[u8],
        now: u64,
    ) -> Result<(), DataError>
        ensures { AddsShared now (cleaner_of T.told self.old) bytes.now (cleaner_of T.told self.new) result }
    {
        let taken = self.take_in(alloc, bytes);
        let mut held = session.lock(rt);
        let found = &mut *held;
        // its clause is what the session's type keeps
        let _is_finalized = found.is_finalized();
        self.add_taken(found, rt, alloc, taken, now)
    }

    // Hands the data over to the session, which has a record of the file then. All bytes were cut.
    fn complete<U: Uploader, R: ShardStore, W: Wait>(
        self,
        session: &mut FileUploadSession<U, R>,
        rt: &W,
        alloc: Global,
        now: u64,
    ) -> Result<(XetFileInfo, DeduplicationMetrics), DataError>
    where
        T: Drop,
        requires named { session.old.failed ≡ None → session.old.finalized ≡ false
            → AreNamed session.old.listed.hashes.items self.parts.terms }
        requires ended { bytes_left self.pending ≡ [] }
        ensures call { Completes (told_by session.old) (told_by session.new) (cleaner_of T.told self) result }
        ensures ok { OnOk result (TookFile (told_by session.old) (told_by session.new) (cleaner_of T.told self) now
            session.old.files.tracker session.new.files.tracker result) }
        ensures err { OnErr result (IsSame (told_by session.old) (told_by session.new)
            session.old.files.tracker session.new.files.tracker
            ⊎ TookFile (told_by session.old) (told_by session.new) (cleaner_of T.told self) now
            session.old.files.tracker session.new.files.tracker result) }
        ensures group { KeepsGroup session.old session.new }
    {
        let hash = MerkleHash::file_hash(self.parts.infos());
        let sha256 = recorded_sha256(self.policy, self.hasher);
        let info = pointer_to(alloc, &hash, self.fed, sha256)?;
        let file_data = self.parts.into_waiting(self.file_id, hash, sha256)?;
        session.register_single_file_clean_completion(rt, alloc, file_data, now)?;
        session.merge_file_metrics(&self.counts);
        Ok((info, self.counts))
    }

    // Why the file can't be ended in a session: the session is finalized, a call failed, or a xorb isn't listed.
    fn refused<U: Uploader, R: ShardStore>(
        &self,
        session: &FileUploadSession<U, R>,
    ) -> Option<DataError>
        ensures some { IfSome result (EndRefused (told_by session.now) (cleaner_of T.told self.now)) }
        ensures none { result ≡ None → EndPasses (told_by session.now) (cleaner_of T.told self.now) }
        ensures listed { HasListed (told_by session.now) }
    {
        if session.is_finalized() {
            return Some(DataError::InvalidOperation(Invalid::Finalized));
        }
        if let Some(error) = self.failed {
            return Some(error);
        }
        match first_unlisted(session, &self.parts) {
            None => None,
            Some(hash) => Some(DataError::InvalidOperation(Invalid::UnknownXorb { hash })),
        }
    }

    /// Ends the file: the bytes that wait are cut, and its record waits in the session with its data, or is finished.
    /// It answers the pointer record of the file, and the counts of its chunks. `now` is a moment in seconds.
    ///
    /// `Finalized` wherever the session is finalized. Next, a cleaner whose `add_data` failed answers the same
    /// error; then `UnknownXorb` comes exactly where its terms name a xorb that isn't on the session's list, as those
    /// of a cleaner of another session may, with the first such xorb. In these three cases the session is as it was.
    /// `ClientError` where a put failed and is kept, `IOError` only where a store of records failed. Each other
    /// `InvalidOperation` is a refusal of the session's tracker.
    ///
    /// In the Rust crate xet-data: `SingleFileCleaner::finish`.
    pub fn finish<U: Uploader, R: ShardStore, W: Wait>(
        self,
        session: &mut FileUploadSession<U, R>,
        rt: &W,
        alloc: Global,
        now: u64,
    ) -> Result<(XetFileInfo, DeduplicationMetrics), DataError>
    where
        T: Drop,
        ensures ends { Finishes (told_by session.old) (told_by session.new) (cleaner_of T.told self) result }
        ensures refused { RefusedOf (IsPartOf self.file_id) (IsEndError (told_by session.old) (cleaner_of T.told self))
            session.old.files.tracker session.new.files.tracker result }
        ensures so { EndsFile (told_by session.old) (told_by session.new) (cleaner_of T.told self) now
            session.old.files.tracker session.new.files.tracker result }
        ensures group { KeepsGroup session.old session.new }
    {
        if let Some(error) = self.refused(session) {
            return Err(error);
        }
        let mut cleaner = self;
        cleaner.cut_rest(session, rt, alloc, now)?;
        cleaner.complete(session, rt, alloc, now)
    }
}

/// Begins a file, to whose cleaner nothing was fed, and answers the id of its item in the session's group.
/// `tracking_name` is the item's name, empty where none is given, `size` how many bytes the file has, where this is
/// fixed, and `sha256` says which SHA-256 is recorded of it.
///
/// `Finalized` exactly where the session is finalized, else `IdsUsedUp` exactly where no id is left, else `SumTooGreat`
/// where the sum of all files' sizes would pass `u64::MAX`. `OutOfMemory` where an allocation was refused.
///
/// In the Rust crate xet-data: `FileUploadSession::start_clean`.
pub fn start_clean<U: Uploader, R: ShardStore, W: Wait, T: Cutter>(
    session: &mut FileUploadSession<U, R>,
    rt: &W,
    alloc: Global,
    tracking_name: Option<&str>,
    size: Option<u64>,
    sha256: Sha256Policy,
    cutter: T,
) -> Result<(UniqueID, SingleFileCleaner<T>), DataError>
where
    T: Drop,
    ensures same { told_by session.new ≡ told_by session.old }
    ensures cleaner { IfOk result (λ r. IsNewCleaner (cleaner_of T.told r.1) size sha256 (T.told cutter)) }
    ensures starts { StartsFile session.old.files.tracker session.new.files.tracker session.old.ids session.new.ids
        session.old.finalized size (started (λ r. (r.0, r.1.file_id)) result) }
    ensures group { session.new.progress ≡ session.old.progress }
{
    let name = tracking_name.unwrap_or("");
    let (id, file_id) = session.start_file(rt, alloc, name, size)?;
    Ok((
        id,
        SingleFileCleaner::new(alloc, file_id, size, sha256, cutter),
    ))
}

// The counts of a chunk of so many bytes.
fn chunk_counts(length: u64, found: bool) -> DeduplicationMetrics
    ensures { result ≡ chunk_counts length found }
{
    let mut counts = DeduplicationMetrics::new();
    counts.total_bytes = length;
    counts.total_chunks = 1;
    if found {
        counts.deduped_bytes = length;
        counts.deduped_chunks = 1;
    } else {
        counts.new_bytes = length;
        counts.new_chunks = 1;
    }
    counts
}
