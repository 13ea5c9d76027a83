//! A session over an uploader and records in memory.
use std::alloc::Global;
use xet_base::{IdSource, OutOfMemory};
use xet_pointer::{SessionContext, TranslatorConfig};
use xet_shards::MemShards;
use xet_store::MemStore;
use xet_upload_session::{FileUploadSession, SessionStores};
use xet_uploader::MemUploader;

/// A session over these.
pub type Session = FileUploadSession<MemUploader, MemShards>;

/// An uploader to an empty store, of whose puts the one with this number fails, counted from 0.
fn uploader(alloc: Global, put: Option<u64>) -> MemUploader {
    let mut fails = Vec::new(alloc);
    if let Some(number) = put {
        let _ = fails.push(number);
    }
    MemUploader::new(alloc, MemStore::new(alloc), fails)
}

/// The settings of a session in which at most so many bytes wait to be put as one xorb.
fn config(alloc: Global, cut: u64) -> Result<TranslatorConfig, OutOfMemory> {
    let session = SessionContext::for_memory(alloc)?;
    Ok(TranslatorConfig {
        session,
        force_disable_progress_aggregation: false,
        xorb_cut_threshold_bytes: cut,
        xorb_cut_threshold_chunks: 8_192,
        ingestion_block_size: 8_388_608,
        global_dedup_query_enabled: false,
        session_xorb_metadata_flush_interval: 60,
        session_xorb_metadata_flush_max_count: 1_000,
        shard_max_target_size: 1_048_576,
    })
}

/// A session with these settings, of whose puts the one with this number fails.
fn session_with(
    alloc: Global,
    config: &TranslatorConfig,
    put: Option<u64>,
) -> Result<Session, OutOfMemory> {
    let stores = SessionStores {
        resumed: None,
        session: MemShards::new(alloc),
        cache: MemShards::new(alloc),
        staging: MemShards::new(alloc),
    };
    let uploader = uploader(alloc, put);
    FileUploadSession::new(alloc, config, uploader, stores, IdSource::new(1), 0)
}

/// A session in which at most so many bytes wait to be put as one xorb, and of whose puts the one with this number
/// fails.
pub fn session(alloc: Global, cut: u64, put: Option<u64>) -> Result<Session, OutOfMemory> {
    session_with(alloc, &config(alloc, cut)?, put)
}
