//! What the deduplication of a file asks of a session.
ghost use Rattle.std.specs.Prelude.{◌≡◌, ◌++◌, ◌∷◌, [], List, OnErr, OnOk, vec_capacity, vec_len};
ghost use Rattle.xet_base.specs.declared.merklehash.MerkleHash.{MerkleHash};
ghost use Rattle.xet_base.specs.Records.{Describes};
ghost use Rattle.xet_progress_state.specs.declared.step.TrackerStep.{TrackerStep};
ghost use Rattle.xet_progress_state.specs.declared.step.TrackerStep.TheVariants.{RegisterDependencies};
ghost use Rattle.xet_upload_session.specs.Calls.{Backs, Queries, SearchesInOrder};
ghost use Rattle.xet_clean_parts.specs.Learnings.{Completes, Learns, RegistersSo};
ghost use Rattle.xet_upload_session.specs.Sessions.{SessionTold};
ghost use Rattle.xet_upload_session.specs.Telling.{KeepsGroup, told_by};
ghost use Rattle.xet_upload_session.specs.Trackings.{Tracks, TracksXorb};

use std::alloc::Global;
use std::mem;
use std::sync::Wait;
use xet_base::{FileDataSequenceEntry, MerkleHash};
use xet_progress::FileXorbDependency;
use xet_shards::ShardStore;
use xet_upload::{DataError, RawXorbData};
use xet_upload_session::FileUploadSession;
use xet_uploader::Uploader;

/// What the deduplication of a file asks for: searches for chunks, queries that are made later, and puts of xorbs.
///
/// In the Rust crates: `deduplication::DeduplicationDataInterface`.
pub trait DeduplicationDataInterface {
    /// What the session tells that stands behind it.
    ghost told: { Self → SessionTold };
    /// The chunks of the pending queries, in the order in which they were registered.
    ghost pending: { Self → List MerkleHash };
    /// The calls that the session's tracker accepted.
    ghost tracked: { Self → List TrackerStep };

    /// A run of chunks with these hashes, how many of them, and whether the session did not add the record.
    ///
    /// In the Rust crates: `DeduplicationDataInterface::chunk_hash_dedup_query`.
    fn chunk_hash_dedup_query(
        &mut self,
        alloc: Global,
        query_hashes: &[MerkleHash],
    ) -> Result<Option<(usize, FileDataSequenceEntry, bool)>, DataError>
        ensures call { Queries (told self.old) (told self.new) query_hashes.now result }
        ensures order { SearchesInOrder (told self.old) (told self.new) query_hashes.now result }
        ensures backs { Backs (told self.old) (told self.new) }
        ensures waits { pending self.new ≡ pending self.old }
        ensures untold { tracked self.new ≡ tracked self.old };

    /// A query for records that know the chunk is pending. `OutOfMemory` where an allocation was refused; then nothing
    /// changed.
    ///
    /// In the Rust crates: `DeduplicationDataInterface::register_global_dedup_query`.
    fn register_global_dedup_query(&mut self, chunk_hash: MerkleHash) -> Result<(), DataError>
        ensures same { told self.new ≡ told self.old }
        ensures ok { OnOk result (pending self.new ≡ pending self.old ++ chunk_hash ∷ []) }
        ensures err { OnErr result (pending self.new ≡ pending self.old) }
        ensures memory { OnErr result (result ≡ Err DataError.OutOfMemory) }
        ensures untold { tracked self.new ≡ tracked self.old };

    /// Makes the pending queries, after which none is pending. It tells whether one of them found records. Where
    /// queries are not enabled it answers false, and nothing changed.
    ///
    /// `IOError` comes only where the faults of the cache rose; queries that were not made by then are dropped.
    ///
    /// In the Rust crates: `DeduplicationDataInterface::complete_global_dedup_queries`.
    fn complete_global_dedup_queries(&mut self, alloc: Global) -> Result<bool, DataError>
        ensures call { Completes (told self.old) (told self.new) (pending self.old) (pending self.new) result }
        ensures untold { tracked self.new ≡ tracked self.old };

    /// Puts a xorb with its record, unless one with the hash was put before, and tells the tracker of it. `now` is a
    /// moment in seconds. `Finalized` exactly where the session is finalized; each other `InvalidOperation` is the
    /// tracker's refusal.
    ///
    /// In the Rust crates: `DeduplicationDataInterface::register_new_xorb`.
    fn register_new_xorb<W: Wait>(
        &mut self,
        rt: &W,
        alloc: Global,
        xorb: RawXorbData,
        now: u64,
    ) -> Result<(), DataError>
        requires { Describes xorb.xorb_info xorb.xorb }
        ensures call { RegistersSo (told self.old) (told self.new) xorb.xorb now result }
        ensures tracks { TracksXorb (told self.old) (told self.new) (tracked self.old) (tracked self.new)
            xorb.xorb [] result }
        ensures backs { Backs (told self.old) (told self.new) }
        ensures waits { pending self.new ≡ pending self.old };

    /// Tells the tracker what files have in xorbs: all of it or nothing. `InvalidOperation` exactly where the tracker
    /// refuses it, and `OutOfMemory` where an allocation was refused.
    ///
    /// In the Rust crates: `DeduplicationDataInterface::register_xorb_dependencies`.
    fn register_xorb_dependencies<W: Wait>(
        &mut self,
        rt: &W,
        alloc: Global,
        dependencies: &[FileXorbDependency],
    ) -> Result<(), DataError>
        ensures same { told self.new ≡ told self.old }
        ensures tracks { Tracks (tracked self.old) (tracked self.new) (RegisterDependencies dependencies.now ∷ [])
            result }
        ensures waits { pending self.new ≡ pending self.old };
}

/// A session as the deduplication of a file sees it, and the chunks of the queries that are pending.
///
/// In the Rust crate xet-data: `processing::deduplication_interface::UploadSessionDataManager`.
#[derive(Drop)]
pub struct UploadSessionDataManager<'a, U: Uploader, R: ShardStore> {
    session: &'a mut FileUploadSession<U, R>,
    pending: Vec<MerkleHash>,
}

impl<'a, U: Uploader, R: ShardStore> UploadSessionDataManager<'a, U, R> {
    /// The session, with no pending queries. It takes no memory.
    pub fn new(
        alloc: Global,
        session: &'a mut FileUploadSession<U, R>,
    ) -> UploadSessionDataManager<'a, U, R>
        ensures session { told_by result.session.now ≡ told_by session.old }
        ensures same { result.session.now ≡ session.old }
        ensures pending { result.pending.items ≡ [] }
        ensures same_session { result.session.ghost_name ≡ session.entry.ghost_name }
    {
        UploadSessionDataManager {
            session,
            pending: Vec::new(alloc),
        }
    }
}

impl<'a, U: Uploader, R: ShardStore> DeduplicationDataInterface
    for UploadSessionDataManager<'a, U, R> {
    ghost told = { λ m. told_by m.session.now };

    ghost pending = { λ m. m.pending.items };

    ghost tracked = { λ m. m.session.now.files.tracker };

    fn chunk_hash_dedup_query(
        &mut self,
        alloc: Global,
        query_hashes: &[MerkleHash],
    ) -> Result<Option<(usize, FileDataSequenceEntry, bool)>, DataError>
        ensures call { Queries (told_by self.old.session.now) (told_by self.new.session.now) query_hashes.now result }
        ensures order { SearchesInOrder (told_by self.old.session.now) (told_by self.new.session.now)
            query_hashes.now result }
        ensures backs { Backs (told_by self.old.session.now) (told_by self.new.session.now) }
        ensures waits { self.new.pending.items ≡ self.old.pending.items }
        ensures untold { self.new.session.now.files.tracker ≡ self.old.session.now.files.tracker }
        ensures same_session { self.new.session.ghost_name ≡ self.old.session.ghost_name }
        ensures group { KeepsGroup self.old.session.now self.new.session.now }
    {
        self.session.chunk_hash_dedup_query(alloc, query_hashes)
    }

    fn register_global_dedup_query(&mut self, chunk_hash: MerkleHash) -> Result<(), DataError>
        ensures same { told_by self.new.session.now ≡ told_by self.old.session.now }
        ensures ok { OnOk result (self.new.pending.items ≡ self.old.pending.items ++ chunk_hash ∷ []) }
        ensures err { OnErr result (self.new.pending.items ≡ self.old.pending.items) }
        ensures memory { OnErr result (result ≡ Err DataError.OutOfMemory) }
        ensures untold { self.new.session.now.files.tracker ≡ self.old.session.now.files.tracker }
        ensures same_session { self.new.session.ghost_name ≡ self.old.session.ghost_name }
        ensures group { KeepsGroup self.old.session.now self.new.session.now }
    {
        if self.pending.push(chunk_hash).is_err() {
            return Err(DataError::OutOfMemory);
        }
        Ok(())
    }

    fn complete_global_dedup_queries(&mut self, alloc: Global) -> Result<bool, DataError>
        ensures call { Completes (told_by self.old.session.now) (told_by self.new.session.now)
            self.old.pending.items self.new.pending.items result }
        ensures untold { self.new.session.now.files.tracker ≡ self.old.session.now.files.tracker }
        ensures same_session { self.new.session.ghost_name ≡ self.old.session.ghost_name }
        ensures group { KeepsGroup self.old.session.now self.new.session.now }
    {
        if !self.session.asks_queries() {
            return Ok(false);
        }
        let pending = mem::replace(&mut self.pending, Vec::new(alloc));
        ask_each(alloc, self.session, pending.as_slice())
    }

    fn register_new_xorb<W: Wait>(
        &mut self,
        rt: &W,
        alloc: Global,
        xorb: RawXorbData,
        now: u64,
    ) -> Result<(), DataError>
        requires { Describes xorb.xorb_info xorb.xorb }
        ensures call { RegistersSo (told_by self.old.session.now) (told_by self.new.session.now) xorb.xorb now result }
        ensures tracks { TracksXorb (told_by self.old.session.now) (told_by self.new.session.now)
            self.old.session.now.files.tracker self.new.session.now.files.tracker xorb.xorb [] result }
        ensures backs { Backs (told_by self.old.session.now) (told_by self.new.session.now) }
        ensures waits { self.new.pending.items ≡ self.old.pending.items }
        ensures same_session { self.new.session.ghost_name ≡ self.old.session.ghost_name }
        ensures group { KeepsGroup self.old.session.now self.new.session.now }
    {
        match self.session.register_new_xorb(rt, alloc, xorb, &[], now) {
            Ok(_new) => Ok(()),
            Err(error) => Err(error),
        }
    }

    fn register_xorb_dependencies<W: Wait>(
        &mut self,
        rt: &W,
        alloc: Global,
        dependencies: &[FileXorbDependency],
    ) -> Result<(), DataError>
        ensures same { told_by self.new.session.now ≡ told_by self.old.session.now }
        ensures tracks { Tracks self.old.session.now.files.tracker self.new.session.now.files.tracker
            (RegisterDependencies dependencies.now ∷ []) result }
        ensures waits { self.new.pending.items ≡ self.old.pending.items }
        ensures same_session { self.new.session.ghost_name ≡ self.old.session.ghost_name }
        ensures group { KeepsGroup self.old.session.now self.new.session.now }
    {
        self.session
            .register_xorb_dependencies(rt, alloc, dependencies)
    }
}

// Asks the uploader for each of these chunks, one after another. It tells whether it answered records for one.
fn ask_each<U: Uploader, R: ShardStore>(
    alloc: Global,
    session: &mut FileUploadSession<U, R>,
    chunks: &[MerkleHash],
) -> Result<bool, DataError>
    ensures learns { Learns (told_by session.old) (told_by session.new) chunks.now result }
    ensures backs { Backs (told_by session.old) (told_by session.new) }
    ensures untold { session.new.files.tracker ≡ session.old.files.tracker }
    ensures group { KeepsGroup session.old session.new }
{
    let mut found = false;
    for chunk in chunks {
        if session.ask(alloc, chunk)? {
            found = true;
        }
    }
    Ok(found)
}
