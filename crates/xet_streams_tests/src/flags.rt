//! Flags by which another owner ends a stream.
use crate::told::{comes_to, put};
use std::alloc::Global;
use std::sync::Wait;
use std::thread::{Threads, join_mut};
use xet_blocks::Steady;
use xet_connections::MemClient;
use xet_outside::{CancelSignal, NoCache};
use xet_reconstruct::FileReconstructor;
use xet_store::MemStore;
use xet_store::worked::{FILE_OF_ALL, worked_store};
use xet_streams::{DownloadStream, FlagSignal, Step};

/// Raises a flag in a thread of its own, which has ended then.
fn raise_beside<R: Threads>(rt: &R, flag: &FlagSignal) {
    let mut raise = || flag.raise();
    let mut nothing = || {};
    join_mut(rt, &mut raise, &mut nothing);
}

/// Adds what a pull answers: whether it is none.
fn tell_pull<R: Wait>(
    rt: &R,
    alloc: Global,
    stream: &mut DownloadStream<Steady>,
    store: &MemStore,
    text: &mut String,
) {
    let mut clients = [MemClient::new(alloc, store)];
    let answer = stream.next(rt, alloc, &mut clients, &mut NoCache);
    let none = matches!(answer, Ok(Step::Ready(None)));
    put(text, if none { " none" } else { " some" });
    put(text, if stream.is_cancelled() { "!" } else { "" });
}

/// Adds whether one of the owners of a flag sees it raised, and whether both do once one of them raised it.
fn tell_owners<R: Threads>(
    rt: &R,
    text: &mut String,
    flag: &mut FlagSignal,
    other: &mut FlagSignal,
) {
    put(text, flag.asked() || other.asked());
    raise_beside(rt, flag);
    put(text, flag.asked() && other.asked());
}

/// The same of a flag and another owner of it.
fn tell_flag<R: Threads>(rt: &R, text: &mut String, flag: &mut FlagSignal) {
    if let Ok(mut other) = flag.share() {
        tell_owners(rt, text, flag, &mut other);
    }
}

/// Adds what two pulls answer, between which another thread raises the stream's flag.
fn tell_stream<R: Threads + Wait>(
    rt: &R,
    alloc: Global,
    text: &mut String,
    stream: &mut DownloadStream<Steady>,
) {
    let store = worked_store(alloc).unwrap_or(MemStore::new(alloc));
    if let Ok(end) = stream.abort_flag() {
        tell_pull(rt, alloc, stream, &store, text);
        raise_beside(rt, &end);
        tell_pull(rt, alloc, stream, &store, text);
    }
}

/// A flag says no until one of its owners raises it; a stream whose flag another thread raised answers none.
fn told<R: Threads + Wait + Sync>(rt: &R, alloc: Global) -> String {
    let mut text = String::new(alloc);
    if let Ok(mut flag) = FlagSignal::new(alloc) {
        tell_flag(rt, &mut text, &mut flag);
    }
    let wanted = FileReconstructor::new(FILE_OF_ALL, Steady { size: 0 });
    if let Ok(mut stream) = wanted.reconstruct_to_stream(alloc) {
        tell_stream(rt, alloc, &mut text, &mut stream);
    }
    text
}

#[test]
fn a_yes_means_a_raise(rt: HostRuntime) {
    comes_to(&rt, "flags", told(&rt, rt.alloc()), "falsetrue some none!");
}
