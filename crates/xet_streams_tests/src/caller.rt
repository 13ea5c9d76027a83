//! Callers of streams.
use crate::told::{comes_to, put};
use std::alloc::Global;
use std::sync::Wait;
use xet_base::FileRange;
use xet_blocks::Steady;
use xet_connections::MemClient;
use xet_error::Result;
use xet_outside::NoCache;
use xet_reconstruct::FileReconstructor;
use xet_store::MemStore;
use xet_store::worked::{FILE_OF_ALL, FILE_OF_REPEATS, worked_store};

/// Adds the bytes 3 to 9 of a file to a text, piece by piece.
fn read<R: Wait>(rt: &R, alloc: Global, store: &MemStore, text: &mut String) -> Result<()> {
    let mut stream = FileReconstructor::new(FILE_OF_ALL, Steady { size: 0 })
        .with_byte_range(FileRange::new(3, 9))
        .reconstruct_to_stream(alloc)?;
    let mut clients = [MemClient::new(alloc, store)];
    for _ in rt.forever() {
        match stream.blocking_next(rt, alloc, &mut clients, &mut NoCache)? {
            Some(piece) => put(text, str::from_utf8(&piece).unwrap_or("no text")),
            None => break,
        }
    }
    Ok(())
}

/// Adds the pieces of the bytes 4 to 13 of a file to a text, each behind its place.
fn place<R: Wait>(rt: &R, alloc: Global, store: &MemStore, text: &mut String) -> Result<()> {
    let mut stream = FileReconstructor::new(FILE_OF_REPEATS, Steady { size: 0 })
        .with_byte_range(FileRange::new(4, 13))
        .reconstruct_to_unordered_stream(alloc)?;
    let mut clients = [MemClient::new(alloc, store)];
    for _ in rt.forever() {
        match stream.blocking_next(rt, alloc, &mut clients, &mut NoCache)? {
            Some((place, piece)) => {
                put(text, place);
                put(text, str::from_utf8(&piece).unwrap_or("no text"));
            }
            None => break,
        }
    }
    Ok(())
}

/// The bytes 3 to 9 of a file, and the bytes 4 to 13 of another by their places.
fn told<R: Wait>(rt: &R, alloc: Global) -> String {
    let mut text = String::new(alloc);
    let store = worked_store(alloc).unwrap_or(MemStore::new(alloc));
    if read(rt, alloc, &store, &mut text).is_err() || place(rt, alloc, &store, &mut text).is_err() {
        put(&mut text, " failed");
    }
    text
}

#[test]
fn callers_read_ranges(rt: HostRuntime) {
    comes_to(
        &rt,
        "two ranges",
        told(&rt, rt.alloc()),
        "lo, wo0d!2Hello7He",
    );
}
