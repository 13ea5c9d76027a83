//! The stores of a session, without one.
use crate::sessions::{stores, uploader};
use crate::settings::config;
use std::alloc::Global;
use xet_base::{FileDataSequenceEntry, List, MDBFileInfo, MerkleHash};
use xet_pointer::TranslatorConfig;
use xet_shards::ScriptShards;
use xet_upload_session::SessionShardInterface;
use xet_uploader::MemUploader;

/// The stores of such a session.
type Stores = SessionShardInterface<ScriptShards>;

/// The record of a file of one term.
fn file(alloc: Global) -> MDBFileInfo {
    let mut entries = List::new(alloc);
    let _ = entries.push(FileDataSequenceEntry {
        xorb: MerkleHash([7; 32]),
        from: 0,
        to: 1,
        bytes: 5,
    });
    MDBFileInfo {
        hash: MerkleHash([9; 32]),
        entries,
        sha256: None,
    }
}

/// Adds the record, and puts all records. It answers how many bytes they count for, 0 for an error.
fn put(alloc: Global, file: &MDBFileInfo, stores: &mut Stores, uploader: &mut MemUploader) -> u64 {
    if stores.add_file_reconstruction_info(alloc, file).is_err() {
        return 0;
    }
    stores
        .upload_and_register_session_shards(alloc, uploader)
        .unwrap_or(0)
}

/// Whether the record is put, once.
fn is_put(alloc: Global, config: &TranslatorConfig) -> bool {
    let file = file(alloc);
    let mut uploader = uploader(alloc, None);
    let mut stores = SessionShardInterface::new(alloc, config, stores(alloc, "-"), false, 0);
    put(alloc, &file, &mut stores, &mut uploader) == 76 && uploader.log().len() == 1
}

#[test]
fn a_record_is_put(rt: HostRuntime) {
    let is_put = match config(rt.alloc(), "-") {
        Ok(config) => is_put(rt.alloc(), &config),
        Err(_) => false,
    };
    assert!(rt; is_put);
}
