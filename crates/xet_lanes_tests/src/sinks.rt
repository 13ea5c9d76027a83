//! A sink by a script that watches its calls.
use crate::rows::{number, put, put_two};
use bytes::Bytes;
use std::alloc::Global;
use xet_outside::{Sink, SinkError};
use xet_sinks::{ScriptSink, SinkStep};

/// Shows the pieces and the taken bytes of its first writes, its flushes, and the empty pieces of all writes. One write
/// finds no memory, the one with this number; where it is unflushed, each flush fails.
#[derive(Drop)]
pub(crate) struct Watched {
    inner: ScriptSink,
    refused: usize,
    unflushed: bool,
    flushes: usize,
    count: usize,
    empty: usize,
    calls: [(usize, usize); 6],
}

/// How many pieces are empty.
fn empty_ones(pieces: &[Bytes]) -> usize {
    let mut count = 0usize;
    for piece in pieces {
        if piece.is_empty() {
            count = count.saturating_add(1);
        }
    }
    count
}

/// The steps of a text without a last word `M`: by a word a write takes so many bytes at most, `F` fails, and `A5`
/// fails after so many.
fn steps_of(alloc: Global, text: &str) -> Vec<SinkStep> {
    let mut steps = Vec::new(alloc);
    for word in text.trim_end_matches('M').split_whitespace() {
        let step = match word.strip_prefix('A') {
            Some(count) => SinkStep::FailAfter(number(count) as usize),
            None if word == "F" => SinkStep::Fail,
            None => SinkStep::Take(number(word) as usize),
        };
        let _ = steps.push(step);
    }
    steps
}

/// A sink whose writes follow these steps, and then take all. At `M`, which is the last of them, it finds no memory. Of
/// `U` alone its writes take all, and its flushes fail.
pub(crate) fn sink_of(alloc: Global, text: &str) -> Watched {
    let steps = steps_of(alloc, text);
    let refused = if text.ends_with('M') {
        steps.len()
    } else {
        usize::MAX
    };
    Watched {
        inner: ScriptSink::new(alloc, steps),
        refused,
        unflushed: text == "U",
        flushes: 0,
        count: 0,
        empty: 0,
        calls: [(0, 0); 6],
    }
}

impl Watched {
    /// Notes a write of so many pieces, of which so many are empty, and how much was taken.
    fn note(&mut self, pieces: usize, empty: usize, taken: usize) {
        if self.count < 6 {
            self.calls[self.count] = (pieces, taken);
        }
        self.count = self.count.saturating_add(1);
        self.empty = self.empty.saturating_add(empty);
    }

    /// Shows the taken bytes and what was noted.
    pub(crate) fn show(&self, told: &mut String) {
        put(
            told,
            str::from_utf8(self.inner.taken()).unwrap_or("no text"),
        );
        for (pieces, taken) in self.calls {
            if pieces > 0 {
                put_two(told, pieces, 'x', taken);
            }
        }
        put_two(told, self.flushes, ' ', self.empty);
    }
}

impl Sink for Watched {
    ghost use Rattle.std.specs.Prelude.{◌-◌, ◌^◌, [], None};

    // Nothing is told, and the count stands at its last value.
    ghost told = { λ _. record { took = None; flushed = None; faults = 2 ^ 64 - 1; link = [] } };

    fn write(&mut self, piece: &[u8]) -> Result<usize, SinkError> {
        let empty = if piece.is_empty() { 1 } else { 0 };
        if self.count == self.refused {
            self.note(1, empty, 0);
            return Err(SinkError::OutOfMemory);
        }
        let answer = self.inner.write(piece);
        self.note(1, empty, answer.unwrap_or(0));
        answer
    }

    fn flush(&mut self) -> Result<(), SinkError> {
        self.flushes = self.flushes.saturating_add(1);
        if self.unflushed {
            return Err(SinkError::Failed);
        }
        self.inner.flush()
    }

    fn write_vectored(&mut self, pieces: &[Bytes]) -> Result<usize, SinkError> {
        let empty = empty_ones(pieces);
        if self.count == self.refused {
            self.note(pieces.len(), empty, 0);
            return Err(SinkError::OutOfMemory);
        }
        let answer = self.inner.write_vectored(pieces);
        self.note(pieces.len(), empty, answer.unwrap_or(0));
        answer
    }
}
