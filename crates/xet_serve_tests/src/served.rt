//! One session as a text.
use crate::connection::Connection;
use std::alloc::Global;
use std::sync::Wait;
use std::thread::Threads;
use xet_outside::ChunkCache;
use xet_serve::{ServeError, serve_session};
use xet_sinks::{ScriptSink, ScriptSource, SinkStep, SourceStep};
use xet_store::MemStore;
use xet_terms::ReconstructionConfig;

/// A text with a line end for each `/`, 64 times the character behind each `@`, and 1,024 times `x` for each `#`.
pub(crate) fn expanded(alloc: Global, text: &str) -> Vec<u8> {
    let mut bytes = Vec::new(alloc);
    let mut times = 1u32;
    for byte in text.as_bytes() {
        let (count, byte) = match *byte {
            b'@' => (0, b'@'),
            b'/' => (1, b'\n'),
            b'#' => (1_024, b'x'),
            byte => (times, byte),
        };
        times = if byte == b'@' { 64 } else { 1 };
        for _ in 0..count {
            let _ = bytes.push(byte);
        }
    }
    bytes
}

/// A source that gives one byte at each read.
pub(crate) fn one_by_one(alloc: Global, bytes: &[u8]) -> Vec<SourceStep> {
    let mut steps = Vec::new(alloc);
    for _byte in bytes {
        let _ = steps.push(SourceStep::Give(1));
    }
    steps
}

/// A sink whose first write fails after so many bytes, or no write where the word is no number.
fn takes(alloc: Global, word: &str) -> Vec<SinkStep> {
    let mut steps = Vec::new(alloc);
    if let Ok(count) = word.parse::<usize>() {
        let _ = steps.push(SinkStep::FailAfter(count));
    }
    steps
}

/// The answer, and the bytes that were taken, with `/` for each line end.
fn told(alloc: Global, answer: Result<u64, ServeError>, taken: &[u8]) -> String {
    let mut text = String::new(alloc);
    let _ = match answer {
        Ok(count) => write!(text, "{count} "),
        Err(error) => write!(text, "{error} "),
    };
    for byte in taken {
        let byte = if *byte == b'\n' { b'/' } else { *byte };
        let _ = text.push(char::from(byte));
    }
    text
}

/// A session over one connection to a store and a cache.
pub(crate) fn served<R: Threads + Wait + Sync, K: ChunkCache>(
    rt: &R,
    alloc: Global,
    store: &MemStore,
    mut source: ScriptSource,
    client: &str,
    sink: &str,
    cache: &mut K,
) -> String {
    let mut out = ScriptSink::new(alloc, takes(alloc, sink));
    let mut clients = [Connection::new(alloc, store, client)];
    let config = ReconstructionConfig::new();
    let answer = serve_session(
        rt,
        alloc,
        &mut source,
        &mut out,
        &mut clients,
        cache,
        &config,
    );
    told(alloc, answer, out.taken())
}
