//! What the deduplication of a file asks of a session.
use crate::answers::{decided, done, refuse, say};
use crate::sessions::Session;
use crate::settings::number;
use crate::xorbs::{part, raw};
use std::alloc::Global;
use std::sync::Wait;
use xet_base::MerkleHash;
use xet_clean_parts::{DeduplicationDataInterface, UploadSessionDataManager};
use xet_shards::ScriptShards;
use xet_uploader::MemUploader;

/// A session as the deduplication of a file sees it.
type Manager<'a> = UploadSessionDataManager<'a, MemUploader, ScriptShards>;

/// The hashes of the chunks of these texts.
fn hashes(alloc: Global, texts: &str) -> Vec<MerkleHash> {
    let mut hashes = Vec::new(alloc);
    for text in texts.split('/') {
        let _ = hashes.push(MerkleHash::chunk_hash(text.as_bytes()));
    }
    hashes
}

/// `find Hello/world`: how many of these chunks are found in a row in the records of the session and its stores.
fn find(alloc: Global, manager: &mut Manager<'_>, out: &mut String, texts: &str) {
    let hashes = hashes(alloc, texts);
    match manager.chunk_hash_dedup_query(alloc, hashes.as_slice()) {
        Ok(Some(found)) => say(out, found.0 as u64),
        Ok(None) => say(out, 0),
        Err(error) => refuse(out, error),
    }
}

/// `hand Hello`: puts the xorb of a text.
fn hand<W: Wait>(rt: &W, alloc: Global, manager: &mut Manager<'_>, out: &mut String, text: &str) {
    if let Ok(raw) = raw(alloc, text) {
        done(out, manager.register_new_xorb(rt, alloc, raw, 0));
    }
}

/// `ask Hello world`: makes a query for the chunk of each of these texts. 1 where one found records.
fn ask(alloc: Global, manager: &mut Manager<'_>, out: &mut String, texts: &str) {
    for text in texts.split(' ') {
        let _ = manager.register_global_dedup_query(MerkleHash::chunk_hash(text.as_bytes()));
    }
    decided(out, manager.complete_global_dedup_queries(alloc), 1, 0);
}

/// `depend 3 Hello`, `external 1 Hello`: the second file has so many bytes in the xorb of a text.
fn depend<W: Wait>(
    rt: &W,
    alloc: Global,
    manager: &mut Manager<'_>,
    out: &mut String,
    words: &str,
    is_external: bool,
) {
    let (bytes, text) = words.split_once(' ').unwrap_or((words, ""));
    let parts = [part(text, 1, number(bytes).unwrap_or(0), is_external)];
    done(
        out,
        manager.register_xorb_dependencies(rt, alloc, parts.as_slice()),
    );
}

/// Makes a call of a data manager, and writes what it answers.
pub fn managed<W: Wait>(
    rt: &W,
    alloc: Global,
    session: &mut Session,
    out: &mut String,
    word: &str,
    rest: &str,
) {
    let mut manager = UploadSessionDataManager::new(alloc, session);
    match word {
        "find" => find(alloc, &mut manager, out, rest),
        "hand" => hand(rt, alloc, &mut manager, out, rest),
        "ask" => ask(alloc, &mut manager, out, rest),
        _ => depend(rt, alloc, &mut manager, out, rest, word == "external"),
    }
}
