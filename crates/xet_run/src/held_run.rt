//! The state of a run, held for many calls.
ghost use Rattle.std.specs.Prelude.{◌≡◌, ◌+◌, Some, OnOk, OnErr};

use crate::run_state::{Logged, RunPass};
use std::sync::MutexGuard;
use std::sync::ledger::Ledger;
use xet_base::OutOfMemory;
use xet_events::{CallLog, RunCall, ToldCalls};

/// The state of a run under its lock. Each call is one of `RunState`, by its contract, without taking the lock again.
///
/// The Rust crate has no such type: its `RunState` takes its lock for each call.
#[derive(Drop)]
pub struct HeldRun<'a, L: Ledger, C: CallLog = ToldCalls> {
    pub(crate) logged: MutexGuard<'a, Logged<L, C>>,
}

impl<'a, L: Ledger, C: CallLog> HeldRun<'a, L, C> {
    /// Takes room for so many calls more at once, which else is taken call by call. It is no call itself.
    pub fn make_room(&mut self, calls: usize) -> Result<(), OutOfMemory> {
        self.logged.make_room(calls)
    }

    /// Counts a new block.
    ///
    /// In the Rust crate: `RunState::record_new_block`.
    pub fn record_new_block(&mut self, pass: &mut RunPass<L>) -> Result<(), OutOfMemory>
        ensures counted { OnOk result ((pass.new.share.amount ≡ pass.old.share.amount + 1)
            × (pass.new.last ≡ Some RunCall.NewBlock)) }
        ensures refused { OnErr result ((pass.new.share.amount ≡ pass.old.share.amount)
            × (pass.new.last ≡ pass.old.last)) }
        ensures parts { pass.new.share.parts ≡ pass.old.share.parts }
    {
        self.logged.record_new_block(pass)
    }

    /// Counts the bytes of a new term.
    ///
    /// In the Rust crate: `RunState::record_new_term`.
    pub fn record_new_term(
        &mut self,
        pass: &mut RunPass<L>,
        term_size: u64,
    ) -> Result<(), OutOfMemory>
        ensures counted { OnOk result ((pass.new.share.amount ≡ pass.old.share.amount + 1)
            × (pass.new.last ≡ Some (RunCall.NewTerm term_size))) }
        ensures refused { OnErr result ((pass.new.share.amount ≡ pass.old.share.amount)
            × (pass.new.last ≡ pass.old.last)) }
        ensures parts { pass.new.share.parts ≡ pass.old.share.parts }
    {
        self.logged.record_new_term(pass, term_size)
    }
}
