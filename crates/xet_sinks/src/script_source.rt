//! Sources that follow a script.
ghost use Rattle.std.specs.Prelude.{◌≡◌, ◌<◌, ◌-◌, [], Ok, Some, drop, length, slice_get, vec_len};
ghost use Rattle.xet_outside.specs.Told.{ReadCall};
ghost use Rattle.xet_sinks.specs.Scripts.{read_by};

use crate::vec_source::VecSource;
use std::collections::VecDeque;
use xet_outside::source::{Source, SourceFault};

/// What a scripted source does with a read into some room.
#[derive(Clone, Copy, PartialEq, Eq)]
pub enum SourceStep {
    /// Gives so many bytes at most, and at least one, where there are any.
    Give(usize),
    /// Fails, and gives nothing.
    Fail,
}

/// A fake source over bytes in memory. Each read into some room follows one step; after the steps it gives as much as
/// there is room for. A read into no room takes no step.
#[derive(Drop)]
pub struct ScriptSource {
    inner: VecSource,
    steps: VecDeque<SourceStep>,
    // the count of faults, which stands at its last value
    faults: u64,
}

impl ScriptSource {
    /// A source of these bytes that follows these steps.
    pub fn new(bytes: Vec<u8>, steps: Vec<SourceStep>) -> ScriptSource
        ensures told { ⟦<ScriptSource as Source>⟧.told result ≡ record { left = Some bytes.items; faults = 0 } }
        ensures steps { result.steps.items ≡ steps.items }
    {
        ScriptSource {
            inner: VecSource::new(bytes),
            steps: VecDeque::from_vec(steps),
            faults: 0,
        }
    }
}

impl Source for ScriptSource {
    ghost told = { λ s. record (⟦<VecSource as Source>⟧.told s.inner) { faults = s.faults } };

    /// A read into some room follows the next step.
    fn read(&mut self, into: &mut [u8]) -> Result<usize, SourceFault>
        ensures call { ReadCall (⟦<ScriptSource as Source>⟧.told self.old)
            (⟦<ScriptSource as Source>⟧.told self.new) into.new result }
        ensures follows { 0 < length into.new → result
            ≡ read_by (slice_get self.old.steps.items 0)
            (vec_len self.old.inner.bytes - self.old.inner.at) (length into.new) }
        ensures steps { 0 < length into.new → self.new.steps.items ≡ drop 1 self.old.steps.items }
        ensures none { into.new ≡ [] → (result ≡ Ok 0) × (self.new ≡ self.old) }
    {
        if into.is_empty() {
            return Ok(0);
        }
        match self.steps.pop_front() {
            None => self.inner.read(into),
            Some(SourceStep::Give(count)) => {
                let room = into.len().min(count.max(1));
                self.inner.read(&mut into[..room])
            }
            Some(SourceStep::Fail) => {
                self.faults = self.faults.saturating_add(1);
                Err(SourceFault)
            }
        }
    }
}
