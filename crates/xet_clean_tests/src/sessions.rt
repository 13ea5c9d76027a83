//! Sessions over an uploader and stores in memory, of which numbered calls may fail.
use crate::settings::{config, has, setting};
use crate::xorbs::raw;
use std::alloc::Global;
use xet_base::{IdSource, List, OutOfMemory, ShardRecord};
use xet_pointer::TranslatorConfig;
use xet_shards::{MemShards, ScriptShards, ShardStore};
use xet_store::MemStore;
use xet_upload_session::{FileUploadSession, SessionStores};
use xet_uploader::MemUploader;

/// A session over these.
pub type Session = FileUploadSession<MemUploader, ScriptShards>;

/// A number in a list, or an empty list.
fn fails(alloc: Global, number: Option<u64>) -> Vec<u64> {
    let mut fails = Vec::new(alloc);
    if let Some(number) = number {
        let _ = fails.push(number);
    }
    fails
}

/// An uploader, of whose puts the one with this number fails.
pub fn uploader(alloc: Global, put: Option<u64>) -> MemUploader {
    MemUploader::new(alloc, MemStore::new(alloc), fails(alloc, put))
}

/// The record of the xorb of `Hello`.
fn record(alloc: Global) -> ShardRecord {
    let mut xorbs = List::new(alloc);
    if let Ok(raw) = raw(alloc, "Hello") {
        let _ = xorbs.push(raw.xorb_info);
    }
    ShardRecord {
        xorbs,
        files: List::new(alloc),
    }
}

/// A store that has this record, if it is to have it, and of whose calls the one with this number fails.
fn records(alloc: Global, is_known: bool, call: Option<u64>) -> ScriptShards {
    let mut shards = MemShards::new(alloc);
    if is_known {
        let _ = shards.add(alloc, &record(alloc));
    }
    ScriptShards::new(shards, fails(alloc, call))
}

/// The stores of a session.
pub fn stores(alloc: Global, words: &str) -> SessionStores<ScriptShards> {
    let resumed = if has(words, "old") {
        Some(records(alloc, true, setting(words, "resumed")))
    } else {
        None
    };
    SessionStores {
        resumed,
        session: records(alloc, false, setting(words, "call")),
        cache: records(alloc, has(words, "known"), setting(words, "cached")),
        staging: records(alloc, false, setting(words, "staged")),
    }
}

/// A session with these settings.
fn session_of(
    alloc: Global,
    words: &str,
    config: &TranslatorConfig,
) -> Result<Session, OutOfMemory> {
    let ids = IdSource::new(setting(words, "first").unwrap_or(1));
    let uploader = uploader(alloc, setting(words, "put"));
    let stores = stores(alloc, words);
    if has(words, "dry") {
        return FileUploadSession::dry_run(alloc, config, uploader, stores, ids, 0);
    }
    FileUploadSession::new(alloc, config, uploader, stores, ids, 0)
}

/// A session with the settings of a row.
pub fn session(alloc: Global, words: &str) -> Result<Session, OutOfMemory> {
    session_of(alloc, words, &config(alloc, words)?)
}
