//! Sinks that follow a script.
ghost use Rattle.std.specs.List.{concat};
ghost use Rattle.std.specs.Prelude.{◌≡◌, ◌<◌, ◌≤◌, ◌++◌, [], Err, IfOk, Ok, OnErr, Some, drop, false, length};
ghost use Rattle.std.specs.Prelude.{min, slice_get, take, true};
ghost use Rattle.xet_outside.specs.Told.{FlushCall, Rose, WriteCall};
ghost use Rattle.xet_sinks.specs.Faults.{CountsFailed};
ghost use Rattle.xet_sinks.specs.Scripts.{FollowsSink, step_fails, step_most};

use bytes::Bytes;
use std::alloc::Global;
use std::collections::VecDeque;
use xet_base::OutOfMemory;
use xet_outside::sink::{Sink, SinkError};

/// What a scripted sink does with a write of some bytes.
#[derive(Clone, Copy, PartialEq, Eq)]
pub enum SinkStep {
    /// Takes so many bytes at most, and at least one.
    Take(usize),
    /// Fails, and takes nothing.
    Fail,
    /// Takes so many bytes at most, and fails.
    FailAfter(usize),
}

/// A fake sink. Each write of some bytes follows one step, a vectored one too; after the steps all is taken. A flush
/// and a write of no bytes take no step and succeed.
#[derive(Drop)]
pub struct ScriptSink {
    steps: VecDeque<SinkStep>,
    taken: Vec<u8>,
    // how many of the taken bytes are flushed
    flushed: usize,
    // the count of faults, which stands at its last value
    faults: u64,
}

// Adds the first `count` of the joined bytes, and answers how many these are. `OutOfMemory` adds nothing.
fn add_front(taken: &mut Vec<u8>, pieces: &[Bytes], count: usize) -> Result<usize, OutOfMemory>
    ensures added { IfOk result (λ k. (k ≡ min count (length (concat pieces.now)))
        × (taken.new.items ≡ taken.old.items ++ take k (concat pieces.now))) }
    ensures kept { OnErr result (taken.new.items ≡ taken.old.items) }
{
    let before = taken.len();
    let mut added = 0usize;
    for piece in pieces {
        let part = piece.len().min(count.saturating_sub(added));
        if taken.extend_from_slice(&piece.as_slice()[..part]).is_err() {
            taken.truncate(before);
            return Err(OutOfMemory);
        }
        added += part;
    }
    Ok(added)
}

// Whether one of the pieces has bytes.
fn has_bytes(pieces: &[Bytes]) -> bool
    ensures none { result ≡ false → concat pieces.now ≡ [] }
    ensures some { result ≡ true → 0 < length (concat pieces.now) }
{
    for piece in pieces {
        if !piece.is_empty() {
            return true;
        }
    }
    false
}

// What a step lets a write take at most, and whether the write fails.
#[derive(Clone, Copy)]
struct Effect {
    most: usize,
    fails: bool,
}

// What a write by this step does, where there is one.
fn effect_of(step: Option<SinkStep>) -> Effect
    ensures most { result.most ≡ step_most step }
    ensures fails { result.fails ≡ step_fails step }
{
    match step {
        None => Effect {
            most: usize::MAX,
            fails: false,
        },
        Some(SinkStep::Take(count)) => Effect {
            most: count.max(1),
            fails: false,
        },
        Some(SinkStep::Fail) => Effect {
            most: 0,
            fails: true,
        },
        Some(SinkStep::FailAfter(count)) => Effect {
            most: count,
            fails: true,
        },
    }
}

impl ScriptSink {
    /// A sink that follows these steps. It takes no memory yet.
    pub fn new(alloc: Global, steps: Vec<SinkStep>) -> ScriptSink
        ensures told { ⟦<ScriptSink as Sink>⟧.told result
            ≡ record { took = Some []; flushed = Some 0; faults = 0; link = [] } }
        ensures steps { result.steps.items ≡ steps.items }
    {
        ScriptSink {
            steps: VecDeque::from_vec(steps),
            taken: Vec::new(alloc),
            flushed: 0,
            faults: 0,
        }
    }

    /// The bytes that were taken.
    pub fn taken(&self) -> &[u8]
        ensures { (⟦<ScriptSink as Sink>⟧.told self.now).took ≡ Some result.now }
    {
        self.taken.as_slice()
    }

    // Answers a write that took so many bytes, and counts a fault where it fails.
    fn answer(&mut self, fails: bool, count: usize) -> Result<usize, SinkError>
        ensures ok { fails ≡ false → (result ≡ Ok count) × (self.new ≡ self.old) }
        ensures failed { fails ≡ true → (result ≡ Err SinkError.Failed) × Rose self.old.faults self.new.faults }
        ensures same { self.new ≡ record self.old { faults = self.new.faults } }
        ensures faults { self.old.faults ≤ self.new.faults }
        ensures counted { CountsFailed self.old.faults self.new.faults result }
    {
        if fails {
            self.faults = self.faults.saturating_add(1);
            return Err(SinkError::Failed);
        }
        Ok(count)
    }
}

impl Sink for ScriptSink {
    ghost told = { λ s.
        record { took = Some s.taken.items; flushed = Some s.flushed; faults = s.faults; link = [] } };

    /// A write of some bytes follows the next step.
    fn write(&mut self, piece: &[u8]) -> Result<usize, SinkError>
        ensures call { WriteCall (⟦<ScriptSink as Sink>⟧.told self.old)
            (⟦<ScriptSink as Sink>⟧.told self.new) piece.now result }
        ensures follows { 0 < length piece.now →
            FollowsSink (slice_get self.old.steps.items 0) self.old.taken.items self.new.taken.items
            piece.now result }
        ensures steps { 0 < length piece.now → self.new.steps.items ≡ drop 1 self.old.steps.items }
        ensures counted { CountsFailed self.old.faults self.new.faults result }
        ensures none { piece.now ≡ [] → self.new ≡ self.old }
    {
        if piece.is_empty() {
            return Ok(0);
        }
        let step = effect_of(self.steps.pop_front());
        let count = step.most.min(piece.len());
        if self.taken.extend_from_slice(&piece[..count]).is_err() {
            return Err(SinkError::OutOfMemory);
        }
        self.answer(step.fails, count)
    }

    /// Succeeds, and takes no step.
    fn flush(&mut self) -> Result<(), SinkError>
        ensures call { FlushCall (⟦<ScriptSink as Sink>⟧.told self.old)
            (⟦<ScriptSink as Sink>⟧.told self.new) result }
        ensures ok { result ≡ Ok tt }
        ensures same { self.new ≡ record self.old { flushed = self.new.flushed } }
    {
        self.flushed = self.taken.len();
        Ok(())
    }

    /// A write of some bytes follows the next step, with the joined pieces.
    fn write_vectored(&mut self, pieces: &[Bytes]) -> Result<usize, SinkError>
        ensures call { WriteCall (⟦<ScriptSink as Sink>⟧.told self.old)
            (⟦<ScriptSink as Sink>⟧.told self.new) (concat pieces.now) result }
        ensures follows { 0 < length (concat pieces.now) →
            FollowsSink (slice_get self.old.steps.items 0) self.old.taken.items self.new.taken.items
            (concat pieces.now) result }
        ensures steps { 0 < length (concat pieces.now) → self.new.steps.items ≡ drop 1 self.old.steps.items }
        ensures counted { CountsFailed self.old.faults self.new.faults result }
        ensures none { concat pieces.now ≡ [] → self.new ≡ self.old }
    {
        if !has_bytes(pieces) {
            return Ok(0);
        }
        let step = effect_of(self.steps.pop_front());
        let Ok(count) = add_front(&mut self.taken, pieces, step.most) else {
            return Err(SinkError::OutOfMemory);
        };
        self.answer(step.fails, count)
    }
}
