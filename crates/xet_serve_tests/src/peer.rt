//! A peer that sends each line only after the reply to the one before was flushed.
use crate::served::expanded;
use std::alloc::Global;
use std::process::Abort;
use std::sync::Wait;
use std::sync::atomic::{AtomicU64, Ordering};
use std::thread::Threads;
use xet_connections::MemClient;
use xet_outside::{NoCache, Sink, SinkError, Source, SourceFault};
use xet_serve::{ServeError, serve_session};
use xet_store::MemStore;
use xet_store::worked::worked_store;
use xet_terms::ReconstructionConfig;

/// A source that gives one line at each read, and fails where the replies so far were not flushed.
#[derive(Drop)]
struct Lines<'a> {
    lines: &'a [&'a str],
    given: u64,
    replies: &'a AtomicU64,
    alloc: Global,
}

impl<'a> Source for Lines<'a> {
    ghost use Rattle.std.specs.Prelude.{◌-◌, ◌^◌, None};

    // Nothing is told, and the count stands at its last value.
    ghost told = { λ _. record { left = None; faults = 2 ^ 64 - 1 } };

    fn read(&mut self, into: &mut [u8]) -> Result<usize, SourceFault> {
        if self.replies.load(Ordering::SeqCst) < self.given {
            return Err(SourceFault);
        }
        let Some(line) = self.lines.get(self.given as usize) else {
            return Ok(0);
        };
        self.given = self.given.saturating_add(1);
        let line = expanded(self.alloc, line);
        let count = line.len().min(into.len());
        into[..count].copy_from_slice(&line[..count]);
        Ok(count)
    }
}

/// A sink that counts the flushes of bytes that were not flushed before.
#[derive(Drop)]
struct Replies<'a> {
    replies: &'a AtomicU64,
    unflushed: bool,
}

impl<'a> Sink for Replies<'a> {
    ghost use Rattle.std.specs.Prelude.{◌-◌, ◌^◌, [], None};

    // Nothing is told, and the count stands at its last value.
    ghost told = { λ _. record { took = None; flushed = None; faults = 2 ^ 64 - 1; link = [] } };

    fn write(&mut self, piece: &[u8]) -> Result<usize, SinkError> {
        self.unflushed = true;
        Ok(piece.len())
    }

    fn flush(&mut self) -> Result<(), SinkError> {
        if self.unflushed {
            self.replies.fetch_add(1, Ordering::SeqCst);
        }
        self.unflushed = false;
        Ok(())
    }
}

/// The answer to a peer that waits.
fn waited<R: Threads + Wait + Sync>(
    rt: &R,
    alloc: Global,
    store: &MemStore,
    lines: &[&str],
    replies: &AtomicU64,
) -> Result<u64, ServeError> {
    let mut input = Lines {
        lines,
        given: 0,
        replies,
        alloc,
    };
    let mut out = Replies {
        replies,
        unflushed: false,
    };
    let mut clients = [MemClient::new(alloc, store)];
    let config = ReconstructionConfig::new();
    serve_session(
        rt,
        alloc,
        &mut input,
        &mut out,
        &mut clients,
        &mut NoCache,
        &config,
    )
}

#[test]
fn a_peer_that_waits_for_each_reply(rt: HostRuntime) {
    let alloc = rt.alloc();
    let store = worked_store(alloc).unwrap_or(MemStore::new(alloc));
    let replies = AtomicU64::new(0);
    let lines = ["GET @a 0-5/", "BAD/", "GET @a 5-7,9-3/", "QUIT/"];
    let answer = waited(&rt, alloc, &store, &lines, &replies);
    assert!(rt; answer == Ok(4));
    assert!(rt; replies.load(Ordering::SeqCst) == 4);
}
