//! One content is sent to a store in memory.
ghost use Rattle.std.specs.Prelude.{◌≡◌, ◌<◌, ◌≤◌, [], ◌∷◌, Err, IfOk, None, Ok, Some, length, map};
ghost use Rattle.xet_upload_session.specs.Telling.{told_by};
ghost use Rattle.xet_pointer.specs.declared.xet_file_info.XetFileInfo.{XetFileInfo};
ghost use Rattle.xet_upload_files.specs.UploadTelling.{file_told};
ghost use Rattle.xet_upload_laws.specs.Sending.{Clashes, HasAfter, Sends, UploadsAll, UploadsOne, content_file};
ghost use Rattle.xet_upload_laws.specs.Sending.{memory_session};
ghost use Rattle.xet_upload_laws.specs.declared.sending.SendError.TheVariants as send_error;
ghost use Rattle.xet_waiting.specs.Limits.{most_chunk_bytes};

use std::alloc::Global;
use std::sync::Wait;
use xet_base::{IdSource, List, OutOfMemory, Text};
use xet_outside::Source;
use xet_pointer::{SessionContext, TranslatorConfig, XetFileInfo};
use xet_shards::{MemShards, ShardStore};
use xet_store::MemStore;
use xet_upload::{Cutter, DataError, FixedCutter, Sha256Policy};
use xet_upload_files::{UploadFile, upload_files};
use xet_upload_session::{FileUploadSession, SessionStores};
use xet_uploader::{MemUploader, Uploader};

/// A content that was sent.
#[derive(Drop)]
pub struct Sent {
    /// Its pointer record.
    pub info: XetFileInfo,
    /// The store that has it.
    pub store: MemStore,
}

/// Why a content was not sent.
#[derive(Clone, Copy, PartialEq, Eq, Debug, Drop)]
pub enum SendError {
    /// A call of the session failed.
    Data(DataError),
    /// Two different contents have one hash.
    Clash,
}

/// A session over an uploader and records in memory.
type MemorySession = FileUploadSession<MemUploader, MemShards>;

// A session over an empty store, which cuts nothing of what fits one xorb.
fn new_session(alloc: Global) -> Result<MemorySession, OutOfMemory>
    ensures { IfOk result (λ session. told_by session ≡ memory_session) }
{
    let session = SessionContext::for_memory(alloc)?;
    let config = TranslatorConfig {
        session,
        force_disable_progress_aggregation: false,
        xorb_cut_threshold_bytes: 67_108_864,
        xorb_cut_threshold_chunks: 8_192,
        ingestion_block_size: 8_388_608,
        global_dedup_query_enabled: false,
        session_xorb_metadata_flush_interval: 60,
        session_xorb_metadata_flush_max_count: 1_000,
        shard_max_target_size: 1_048_576,
    };
    let uploader = MemUploader::new(alloc, MemStore::new(alloc), Vec::new(alloc));
    let stores = SessionStores {
        resumed: None,
        session: MemShards::new(alloc),
        cache: MemShards::new(alloc),
        staging: MemShards::new(alloc),
    };
    FileUploadSession::new(alloc, &config, uploader, stores, IdSource::new(1), 0)
}

// The content as one file.
fn one_file<I: Source + Drop>(
    alloc: Global,
    source: I,
    length: u64,
    size: usize,
) -> Result<Vec<UploadFile<I, FixedCutter>>, DataError>
    ensures { IfOk result (λ files. map (file_told I.told ⟦<FixedCutter as Cutter>⟧.told) files.items
        ≡ content_file (I.told source) length size ∷ []) }
{
    let file = UploadFile {
        name: Text::from_string(String::new(alloc)),
        source,
        length,
        sha256: Sha256Policy::Skip,
        cutter: FixedCutter { size },
    };
    let mut files = Vec::new(alloc);
    match files.push(file) {
        Ok(()) => Ok(files),
        Err(_) => Err(DataError::OutOfMemory),
    }
}

// The only pointer record.
fn only(infos: List<XetFileInfo>) -> XetFileInfo
    requires { length infos ≡ 1 }
    ensures { infos ≡ result ∷ [] }
{
    match infos.into_inner().pop() {
        Some(info) => info,
        None => unreachable!(),
    }
}

// Uploads the content as one file.
fn upload<I: Source + Drop, W: Wait>(
    session: &mut MemorySession,
    rt: &W,
    alloc: Global,
    source: I,
    length: u64,
    size: usize,
) -> Result<XetFileInfo, DataError>
    ensures { IfOk result
        (UploadsOne (told_by session.old) (told_by session.new) (content_file (I.told source) length size)) }
{
    let mut files = one_file(alloc, source, length, size)?;
    let infos = upload_files(session, rt, alloc, files.as_mut_slice(), 0)?;
    Ok(only(infos))
}

// Uploads the content, and ends the session.
fn upload_all<I: Source + Drop, W: Wait>(
    session: &mut MemorySession,
    rt: &W,
    alloc: Global,
    source: I,
    length: u64,
    size: usize,
) -> Result<XetFileInfo, DataError>
    ensures { IfOk result
        (UploadsAll (told_by session.old) (told_by session.new) (content_file (I.told source) length size)) }
{
    let info = upload(session, rt, alloc, source, length, size)?;
    session.finalize(rt, alloc, 0)?;
    Ok(info)
}

// The store after the session's log, if there is one.
fn store_after(session: MemorySession, alloc: Global) -> Result<Option<MemStore>, OutOfMemory>
    ensures { IfOk result (HasAfter (told_by session)) }
{
    let (uploader, _stores) = session.into_parts();
    uploader.into_store(alloc)
}

// What was sent, by what the session and the store after its log answered.
fn answered(
    info: Result<XetFileInfo, DataError>,
    store: Result<Option<MemStore>, OutOfMemory>,
) -> Result<Sent, SendError>
    ensures sent { IfOk result (λ sent. (info ≡ Ok sent.info) × (store ≡ Ok (Some sent.store))) }
    ensures clash { result ≡ Err send_error.Clash → (store ≡ Ok None) × ((i : XetFileInfo) × (info ≡ Ok i)) }
{
    match info {
        Ok(info) => match store {
            Ok(Some(store)) => Ok(Sent { info, store }),
            Ok(None) => Err(SendError::Clash),
            Err(OutOfMemory) => Err(SendError::Data(DataError::OutOfMemory)),
        },
        Err(error) => Err(SendError::Data(error)),
    }
}

/// Sends a content to an empty store in memory: so many bytes of a source are cut into chunks of one size and uploaded
/// in a session, which then ends. It answers the pointer record of the content, and the store after the session's log,
/// which has the content and gives it in each range.
///
/// Of chunks that don't fit one xorb it says of the store only what holds where equal hashes mean equal contents, of
/// the xorbs that were made of these chunks (`HasNoClash`). These are made one after the other, each since the next
/// chunk didn't fit, so that there are at most as many as chunks. `Clash` never comes where the chunks fit one xorb.
/// Each other error has its cause in `upload_files` or `finalize`, which no clause says.
///
/// It has no source in the Rust crates.
pub fn send<I: Source + Drop, W: Wait>(
    rt: &W,
    alloc: Global,
    source: I,
    length: u64,
    size: usize,
) -> Result<Sent, SendError>
    requires some { 0 < size }
    requires most { size ≤ most_chunk_bytes }
    ensures sent { IfOk result (λ sent. Sends (I.told source) length size sent.info sent.store) }
    ensures clash { result ≡ Err send_error.Clash → Clashes (I.told source) length size }
{
    let Ok(mut session) = new_session(alloc) else {
        return Err(SendError::Data(DataError::OutOfMemory));
    };
    let info = upload_all(&mut session, rt, alloc, source, length, size);
    let store = store_after(session, alloc);
    answered(info, store)
}
