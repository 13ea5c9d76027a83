//! A writer by a text.
use crate::crowd::Crowd;
use crate::meter::Meter;
use crate::row::Row;
use bytes::Bytes;
use std::alloc::Global;
use xet_outside::{Sink, SinkError};
use xet_sinks::{ScriptSink, SinkStep};

/// A writer that does at each write what its text says. The bytes that it takes leave the meter.
#[derive(Drop)]
pub(crate) struct Output<'a> {
    inner: ScriptSink,
    pub(crate) meter: &'a Meter<'a>,
    pub(crate) crowd: &'a Crowd,
    unflushed: bool,
    pub(crate) flushes: u64,
}

impl<'a> Output<'a> {
    /// The writer of a row.
    pub(crate) fn new(
        alloc: Global,
        row: Row<'_>,
        meter: &'a Meter<'a>,
        crowd: &'a Crowd,
    ) -> Output<'a> {
        Output {
            inner: ScriptSink::new(alloc, steps(alloc, row.find("takes").unwrap_or(""))),
            meter,
            crowd,
            unflushed: row.has("unflushed"),
            flushes: 0,
        }
    }

    /// The bytes that were taken.
    pub(crate) fn taken(&self) -> &[u8] {
        self.inner.taken()
    }

    fn begin(&self) {
        if self.inner.taken().is_empty() {
            self.crowd.write();
        }
    }
}

fn steps(alloc: Global, words: &str) -> Vec<SinkStep> {
    let mut steps = Vec::new(alloc);
    for word in words.as_bytes() {
        let _ = steps.push(if *word == b'f' {
            SinkStep::Fail
        } else {
            SinkStep::Take(1)
        });
    }
    steps
}

impl<'a> Sink for Output<'a> {
    ghost use Rattle.std.specs.Prelude.{◌-◌, ◌^◌, [], None};

    // Nothing is told, and the count stands at its last value.
    ghost told = { λ _. record { took = None; flushed = None; faults = 2 ^ 64 - 1; link = [] } };

    fn write(&mut self, piece: &[u8]) -> Result<usize, SinkError> {
        self.begin();
        let wrote = self.inner.write(piece);
        if let Ok(count) = &wrote {
            self.meter.leave(*count);
        }
        wrote
    }

    fn flush(&mut self) -> Result<(), SinkError> {
        self.flushes = self.flushes.saturating_add(1);
        if self.unflushed {
            return Err(SinkError::Failed);
        }
        self.inner.flush()
    }

    fn write_vectored(&mut self, pieces: &[Bytes]) -> Result<usize, SinkError> {
        self.begin();
        let wrote = self.inner.write_vectored(pieces);
        if let Ok(count) = &wrote {
            self.meter.leave(*count);
        }
        wrote
    }
}
