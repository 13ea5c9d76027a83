//! The files that are uploaded, and whether they come back.
use std::alloc::Global;
use std::sync::Wait;
use std::thread::Threads;
use xet_base::{FileRange, MerkleHash};
use xet_blocks::Steady;
use xet_connections::MemClient;
use xet_outside::{NeverCancel, NoCache};
use xet_pointer::XetFileInfo;
use xet_reconstruct::FileReconstructor;
use xet_sinks::VecSink;
use xet_store::MemStore;

/// So many bytes, which differ from file to file; fewer where memory is wanting.
pub fn counted(alloc: Global, file: usize, length: usize) -> Vec<u8> {
    let mut bytes = Vec::new(alloc);
    for place in 0..length {
        let byte = (place.wrapping_add(file) % 251) as u8;
        if bytes.push(byte).is_err() {
            return bytes;
        }
    }
    bytes
}

/// The bytes of a file by its word: so many as the word says, or the word itself where it is no number.
pub fn content(alloc: Global, file: usize, word: &str) -> Vec<u8> {
    match word.parse::<usize>() {
        Ok(length) => counted(alloc, file, length),
        Err(_) => Vec::from_slice(alloc, word.as_bytes()).unwrap_or(Vec::new(alloc)),
    }
}

/// Writes the whole file of this hash.
fn fetch<W: Threads + Wait + Sync>(
    rt: &W,
    alloc: Global,
    store: &MemStore,
    file: MerkleHash,
    writer: &mut VecSink,
) -> bool {
    let mut clients = [MemClient::new(alloc, store)];
    FileReconstructor::new(file, Steady { size: 0 })
        .with_byte_range(FileRange::full())
        .reconstruct_to_writer(
            rt,
            alloc,
            &mut clients,
            &mut NoCache,
            &mut NeverCancel,
            writer,
        )
        .is_ok()
}

/// Whether a store gives these bytes for this pointer.
pub fn comes_back<W: Threads + Wait + Sync>(
    rt: &W,
    alloc: Global,
    store: &MemStore,
    info: &XetFileInfo,
    bytes: &[u8],
) -> bool {
    let file = info.merkle_hash().unwrap_or(MerkleHash([0; 32]));
    let mut writer = VecSink::new(alloc);
    fetch(rt, alloc, store, file, &mut writer) && writer.taken() == bytes
}
