//! Sinks over one that takes little, finds no memory or fails.
use crate::rows::{comes_to, cut, put};
use bytes::Bytes;
use std::alloc::Global;
use xet_outside::{Sink, SinkError};
use xet_sinks::{BufferedSink, HexSink, VecSink};

/// A sink that does at each write of some bytes what the next letter of its script says: takes so many bytes at most,
/// finds no memory at an `m`, or fails at an `f`. After the script it takes all. It counts these writes.
#[derive(Drop)]
struct Below<'a> {
    inner: VecSink,
    script: &'a [u8],
    calls: usize,
    faults: u64,
}

impl<'a> Below<'a> {
    fn new(alloc: Global, script: &'a str) -> Below<'a> {
        Below {
            inner: VecSink::new(alloc),
            script: script.as_bytes(),
            calls: 0,
            faults: 0,
        }
    }
}

impl<'a> Sink for Below<'a> {
    ghost told = { λ s. record (⟦<VecSink as Sink>⟧.told s.inner) { faults = s.faults } };

    fn write(&mut self, piece: &[u8]) -> Result<usize, SinkError> {
        if piece.is_empty() {
            return Ok(0);
        }
        let step = self.script.get(self.calls).copied().unwrap_or(b'.');
        self.calls = self.calls.saturating_add(1);
        match step {
            b'm' => Err(SinkError::OutOfMemory),
            b'f' => {
                self.faults = self.faults.saturating_add(1);
                Err(SinkError::Failed)
            }
            b'1'..=b'9' => {
                let most = (step - b'0') as usize;
                self.inner.write(&piece[..most.min(piece.len())])
            }
            _ => self.inner.write(piece),
        }
    }

    fn flush(&mut self) -> Result<(), SinkError> {
        self.inner.flush()
    }
}

/// Of a sink of digits, and of one with a buffer of four bytes: the script of the sink below and the calls; what the
/// calls answer, the bytes and the writes below. Two writes below take 256 digits and the rest of a long piece.
const SINKS: &str = "digits 111m | ñ! 1 flush - => 2 1 0 0 c3b131 by 6
digits m | ñ! 1 flush - => OutOfMemory 1 0 0 31 by 2
digits 192 | long flush => 200 0 400 digits by 5
digits . | pieces flush => 3 0 6c6f21 by 2
digits 3f | ZZ ZZ flush none => Failed OutOfMemory OutOfMemory 0 5a5 by 2
buffer . | pieces d efg hijkl m flush - => 3 1 3 5 1 0 0 lo!defghijklm by 4
buffer 3f | abcd flush flush - => 4 Failed OutOfMemory OutOfMemory abc by 2
buffer 3m | abcd flush flush - => 4 OutOfMemory 0 0 abcd by 3
buffer f | abcde abc => Failed OutOfMemory  by 1
buffer m | abcde abc => OutOfMemory 3  by 1";

/// Writes two pieces with an empty one between them.
fn write_pieces<S: Sink>(sink: &mut S) -> Result<usize, SinkError> {
    let pieces = [
        Bytes::from_static(b"lo"),
        Bytes::new(),
        Bytes::from_static(b"!"),
    ];
    sink.write_vectored(&pieces)
}

/// Flushes, and answers 0.
fn flush<S: Sink>(sink: &mut S) -> Result<usize, SinkError> {
    match sink.flush() {
        Ok(()) => Ok(0),
        Err(error) => Err(error),
    }
}

/// Makes a call: a flush, a write of these bytes, of none or of many, or one of pieces or of no pieces.
fn made<S: Sink>(sink: &mut S, call: &str) -> Result<usize, SinkError> {
    match call {
        "flush" => flush(sink),
        "pieces" => write_pieces(sink),
        "none" => sink.write_vectored(&[]),
        "-" => sink.write(b""),
        "long" => sink.write(&[0x5a; 200]),
        bytes => sink.write(bytes.as_bytes()),
    }
}

/// Makes these calls, and adds what they answer.
pub(crate) fn play<S: Sink>(told: &mut String, calls: &str, sink: &mut S) {
    for call in calls.split_whitespace() {
        match made(sink, call) {
            Ok(count) => put(told, count),
            Err(error) => put(told, error),
        }
        put(told, ' ');
    }
}

/// Adds what the sink below took, and its writes.
fn tell_below(told: &mut String, below: &Below<'_>) {
    match below.inner.taken().len() {
        400 => put(told, "400 digits"),
        _ => put(
            told,
            str::from_utf8(below.inner.taken()).unwrap_or("no text"),
        ),
    }
    put(told, " by ");
    put(told, below.calls);
}

/// Makes these calls of a sink of digits.
fn play_digits(told: &mut String, alloc: Global, script: &str, calls: &str) {
    let mut sink = HexSink::new(Below::new(alloc, script));
    play(told, calls, &mut sink);
    tell_below(told, &sink.into_inner());
}

/// Makes these calls of a buffer, and adds what the sink below it took.
fn play_buffer(told: &mut String, calls: &str, mut sink: BufferedSink<Below<'_>>) {
    play(told, calls, &mut sink);
    tell_below(told, &sink.into_inner());
}

/// Makes these calls of a sink of this kind.
fn played(alloc: Global, kind: &str, script: &str, calls: &str) -> String {
    let mut told = String::new(alloc);
    if kind == "digits" {
        play_digits(&mut told, alloc, script, calls);
    } else if let Ok(sink) = BufferedSink::new(alloc, Below::new(alloc, script), 4) {
        play_buffer(&mut told, calls, sink);
    }
    told
}

#[test]
fn digits_and_a_buffer_over_a_sink_by_a_script(rt: HostRuntime) {
    for line in SINKS.lines() {
        let (row, wanted) = cut(line, " => ");
        let (sink, calls) = cut(row, " | ");
        let (kind, script) = cut(sink, " ");
        comes_to(&rt, row, played(rt.alloc(), kind, script, calls), wanted);
    }
}
