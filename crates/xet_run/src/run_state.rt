//! The book of a run under a lock, with the history of its calls, which a ledger counts.
ghost use Rattle.std.specs.Prelude.{◌≡◌, ℕ, ◌⊎◌, ◌+◌, ◌-◌, ◌^◌, min, ◌<◌, ◌≤◌, ◌++◌, ◌∷◌, [], Err, None, Some, vec_len};
ghost use Rattle.std.specs.Prelude.{vec_capacity, length, IfOk, IsOk, OnOk, OnErr};
ghost use Rattle.std.specs.Result.{result_err};
ghost use Rattle.xet_error.specs.declared.error.FileReconstructionError.TheVariants as error;
ghost use Rattle.xet_events.specs.declared.run_book.RunError.TheVariants as run_error;
ghost use Rattle.xet_events.specs.RunReplay.{book_after, book_after_all, all_replied, opening, replied, IsReplayed};
ghost use Rattle.xet_run.specs.steps.RunLogs.{log, Logs, LogsError, LogsNone, LogsState};

use crate::held_run::HeldRun;
use std::alloc::Global;
use std::marker::PhantomData;
use std::sync::ledger::{Blank, Book, Ledger, Share};
use std::sync::{Mutex, Wait};
use xet_base::{List, MerkleHash, OutOfMemory};
use xet_error::FileReconstructionError;
use xet_events::{CallLog, KeptCalls, RunBook, RunCall, RunError, ToldCalls};
use xet_run_rules::check_error;

/// What lies under the lock.
#[derive(Drop)]
pub(crate) struct Logged<L: Ledger, C: CallLog> {
    book: RunBook,
    history: C,
    calls: Book<L>,
    ghost replays: { book ≡ book_after_all opening (C.calls history) },
    ghost replied: { all_replied opening (C.calls history) ≡ C.calls history },
    ghost counted: { length (C.calls history) ≡ calls.total },
}

/// That a ledger has 2^32 parts. It takes no bytes.
#[derive(Drop)]
pub(crate) struct Whole<L: Ledger> {
    of: PhantomData<L>,
    ghost parts: { L.parts ≡ 2 ^ 32 },
}

/// The right to make calls on the state of a run, how many calls were made with it, and the last of them with its
/// reply. It has at least one of the 2^32 parts of the run's ledger.
#[derive(Drop)]
pub struct RunPass<L: Ledger> {
    pub(crate) share: Share<L>,
    whole: Whole<L>,
    calls: u64,
    parts: u64,
    last: Option<RunCall>,
    ghost counted: { calls ≡ min share.amount (2 ^ 64 - 1) },
    ghost has: { parts ≡ share.parts },
    ghost some: { 0 < share.parts },
}

impl<L: Ledger> RunPass<L> {
    /// A pass with these parts and no calls.
    pub fn split(&mut self, parts: u64) -> RunPass<L>
        requires { (1 ≤ parts) × (parts < self.old.share.parts) }
        ensures parts { (result.share.parts ≡ parts) × (self.new.share.parts + parts ≡ self.old.share.parts) }
        ensures calls { (result.share.amount ≡ 0) × (self.new.share.amount ≡ self.old.share.amount) }
        ensures last { (result.last ≡ None) × (self.new.last ≡ self.old.last) }
    {
        let share = self.share.split_off(parts, 0);
        self.parts -= parts;
        RunPass {
            share,
            whole: Whole { of: PhantomData },
            calls: 0,
            parts,
            last: None,
        }
    }

    /// Takes in the other's parts and calls. The last call stays its own.
    pub fn gather(&mut self, other: RunPass<L>)
        ensures parts { self.new.share.parts ≡ self.old.share.parts + other.share.parts }
        ensures calls { self.new.share.amount ≡ self.old.share.amount + other.share.amount }
        ensures last { self.new.last ≡ self.old.last }
    {
        let RunPass {
            share,
            whole: _,
            calls,
            parts,
            last: _,
        } = other;
        self.share.merge(share);
        self.calls = self.calls.saturating_add(calls);
        self.parts = self.parts.saturating_add(parts);
    }

    /// How many calls were made with it, a sum that stops at `u64::MAX`.
    pub fn calls(&self) -> u64
        ensures { result ≡ min self.now.share.amount (2 ^ 64 - 1) }
    {
        self.calls
    }

    /// How many parts it has.
    pub fn parts(&self) -> u64
        ensures { result ≡ self.now.share.parts }
    {
        self.parts
    }

    /// The last call that was made and counted with it, with its reply. None where there was none.
    pub fn last(&self) -> Option<RunCall>
        ensures { result ≡ self.now.last }
    {
        self.last
    }

    /// Counts this call.
    fn count(&mut self, book: &mut Book<L>, call: RunCall)
        ensures total { book.new.total ≡ book.old.total + 1 }
        ensures calls { self.new.share.amount ≡ self.old.share.amount + 1 }
        ensures parts { self.new.share.parts ≡ self.old.share.parts }
        ensures last { self.new.last ≡ Some call }
    {
        book.add(&mut self.share, 1);
        self.calls = self.calls.saturating_add(1);
        self.last = Some(call);
    }
}

impl<L: Ledger, C: CallLog> Logged<L, C> {
    /// Keeps a call that was made on the book before it.
    fn keep(&mut self, mine: &mut RunPass<L>, call: RunCall, book: RunBook)
        requires reply { replied self.old.book call ≡ call }
        requires book { book ≡ book_after self.old.book call }
        requires room { 0 < C.room self.old.history }
        ensures kept { Logs (log (C.calls self.old.history) mine.old.share.amount mine.old.last)
            (log (C.calls self.new.history) mine.new.share.amount mine.new.last) call }
        ensures parts { mine.new.share.parts ≡ mine.old.share.parts }
    {
        let Logged {
            book: kept,
            history,
            calls,
        } = self;
        history.push_reserved(call);
        mine.count(calls, call);
        *kept = book;
    }

    /// Keeps a call that was made on the book before it, once there is room for it.
    fn add(
        &mut self,
        mine: &mut RunPass<L>,
        call: RunCall,
        book: RunBook,
    ) -> Result<(), OutOfMemory>
        requires reply { replied self.old.book call ≡ call }
        requires book { book ≡ book_after self.old.book call }
        ensures kept { OnOk result (Logs (log (C.calls self.old.history) mine.old.share.amount mine.old.last)
            (log (C.calls self.new.history) mine.new.share.amount mine.new.last) call) }
        ensures refused { OnErr result (LogsNone (log (C.calls self.old.history) mine.old.share.amount mine.old.last)
            (log (C.calls self.new.history) mine.new.share.amount mine.new.last)) }
        ensures parts { mine.new.share.parts ≡ mine.old.share.parts }
    {
        self.history.reserve(1)?;
        self.keep(mine, call, book);
        Ok(())
    }

    // Room for so many calls more.
    pub(crate) fn make_room(&mut self, calls: usize) -> Result<(), OutOfMemory> {
        self.history.reserve(calls)?;
        Ok(())
    }

    fn set_error(
        &mut self,
        mine: &mut RunPass<L>,
        error: FileReconstructionError,
    ) -> Result<(), OutOfMemory>
        ensures kept { OnOk result (Logs (log (C.calls self.old.history) mine.old.share.amount mine.old.last)
            (log (C.calls self.new.history) mine.new.share.amount mine.new.last) (RunCall.SetError error)) }
        ensures refused { OnErr result (LogsNone (log (C.calls self.old.history) mine.old.share.amount mine.old.last)
            (log (C.calls self.new.history) mine.new.share.amount mine.new.last)) }
        ensures parts { mine.new.share.parts ≡ mine.old.share.parts }
    {
        let mut book = self.book;
        book.set_error(error);
        self.add(mine, RunCall::SetError(error), book)
    }

    fn check_error(&mut self, mine: &mut RunPass<L>) -> Result<(), FileReconstructionError>
        ensures kept { LogsError (log (C.calls self.old.history) mine.old.share.amount mine.old.last)
            (log (C.calls self.new.history) mine.new.share.amount mine.new.last) result }
        ensures parts { mine.new.share.parts ≡ mine.old.share.parts }
    {
        let mut book = self.book;
        let (call, reply) = check_error(&mut book);
        match self.add(mine, call, book) {
            Ok(()) => reply,
            Err(_) => Err(FileReconstructionError::OutOfMemory),
        }
    }

    fn check_run_state(&mut self, mine: &mut RunPass<L>) -> Result<(), RunError>
        ensures kept { LogsState (log (C.calls self.old.history) mine.old.share.amount mine.old.last)
            (log (C.calls self.new.history) mine.new.share.amount mine.new.last) result }
        ensures memory { result ≡ Err run_error.OutOfMemory → mine.new.share.amount ≡ mine.old.share.amount }
        ensures parts { mine.new.share.parts ≡ mine.old.share.parts }
    {
        let mut book = self.book;
        let reply = book.check_run_state();
        match self.add(mine, RunCall::CheckRunState(reply.err()), book) {
            Ok(()) => reply,
            Err(_) => Err(RunError::OutOfMemory),
        }
    }

    fn cancel(&mut self, mine: &mut RunPass<L>) -> Result<(), OutOfMemory>
        ensures kept { OnOk result (Logs (log (C.calls self.old.history) mine.old.share.amount mine.old.last)
            (log (C.calls self.new.history) mine.new.share.amount mine.new.last) RunCall.Cancel) }
        ensures refused { OnErr result (LogsNone (log (C.calls self.old.history) mine.old.share.amount mine.old.last)
            (log (C.calls self.new.history) mine.new.share.amount mine.new.last)) }
        ensures parts { mine.new.share.parts ≡ mine.old.share.parts }
    {
        let mut book = self.book;
        book.cancel();
        self.add(mine, RunCall::Cancel, book)
    }

    pub(crate) fn record_new_block(&mut self, mine: &mut RunPass<L>) -> Result<(), OutOfMemory>
        ensures kept { OnOk result (Logs (log (C.calls self.old.history) mine.old.share.amount mine.old.last)
            (log (C.calls self.new.history) mine.new.share.amount mine.new.last) RunCall.NewBlock) }
        ensures refused { OnErr result (LogsNone (log (C.calls self.old.history) mine.old.share.amount mine.old.last)
            (log (C.calls self.new.history) mine.new.share.amount mine.new.last)) }
        ensures parts { mine.new.share.parts ≡ mine.old.share.parts }
    {
        let mut book = self.book;
        book.record_new_block();
        self.add(mine, RunCall::NewBlock, book)
    }

    pub(crate) fn record_new_term(
        &mut self,
        mine: &mut RunPass<L>,
        term_size: u64,
    ) -> Result<(), OutOfMemory>
        ensures kept { OnOk result (Logs (log (C.calls self.old.history) mine.old.share.amount mine.old.last)
            (log (C.calls self.new.history) mine.new.share.amount mine.new.last) (RunCall.NewTerm term_size)) }
        ensures refused { OnErr result (LogsNone (log (C.calls self.old.history) mine.old.share.amount mine.old.last)
            (log (C.calls self.new.history) mine.new.share.amount mine.new.last)) }
        ensures parts { mine.new.share.parts ≡ mine.old.share.parts }
    {
        let mut book = self.book;
        book.record_new_term(term_size);
        self.add(mine, RunCall::NewTerm(term_size), book)
    }

    fn total_bytes_scheduled(&mut self, mine: &mut RunPass<L>) -> Result<u64, OutOfMemory>
        ensures kept { IfOk result (λ n. Logs (log (C.calls self.old.history) mine.old.share.amount mine.old.last)
            (log (C.calls self.new.history) mine.new.share.amount mine.new.last) (RunCall.Scheduled n)) }
        ensures refused { OnErr result (LogsNone (log (C.calls self.old.history) mine.old.share.amount mine.old.last)
            (log (C.calls self.new.history) mine.new.share.amount mine.new.last)) }
        ensures parts { mine.new.share.parts ≡ mine.old.share.parts }
    {
        let mut book = self.book;
        let reply = book.total_bytes_scheduled();
        self.add(mine, RunCall::Scheduled(reply), book)?;
        Ok(reply)
    }
}

/// The state of a run, which its threads share: a `RunBook` under a lock, with the history of the calls on it. Each
/// call holds the lock once, or many of them do where it is held (`hold`); it goes into the history with its reply, and
/// is counted by its pass, whose last call it is then. A call that finds no memory answers `OutOfMemory` and is neither
/// in the history nor counted.
///
/// The history is told to proofs alone, and then no call takes memory; `RunState<L, KeptCalls>` keeps it for `close`.
///
/// In the Rust crate: `file_reconstruction::run_state::RunState`.
#[derive(Drop)]
pub struct RunState<L: Ledger, C: CallLog = ToldCalls> {
    file_hash: MerkleHash,
    state: Mutex<Logged<L, C>>,
}

impl<L: Ledger, C: CallLog> RunState<L, C> {
    /// The state of a run with no calls, and a pass with all parts of a ledger of its own. It takes no memory.
    pub fn new(
        alloc: Global,
        blank: Blank,
        file_hash: MerkleHash,
    ) -> Result<(RunState<L, C>, RunPass<L>), OutOfMemory>
        requires name { blank.name ≡ L.name }
        requires parts { (blank.parts ≡ L.parts) × (L.parts ≡ 2 ^ 32) }
        ensures made { IsOk result }
        ensures file { IfOk result (λ r. r.0.file_hash ≡ file_hash) }
        ensures pass { IfOk result (λ r. (r.1.share.parts ≡ L.parts) × (r.1.share.amount ≡ 0)) }
        ensures last { IfOk result (λ r. r.1.last ≡ None) }
    {
        let (calls, share) = blank.open::<L>();
        let logged = Logged {
            book: RunBook::new(),
            history: C::new(alloc),
            calls,
        };
        let state = RunState {
            file_hash,
            state: Mutex::new(logged),
        };
        let pass = RunPass {
            share,
            whole: Whole { of: PhantomData },
            calls: 0,
            parts: 1 << 32,
            last: None,
        };
        Ok((state, pass))
    }

    /// The file of the run.
    pub fn file_hash(&self) -> &MerkleHash
        ensures { result.now ≡ self.now.file_hash }
    {
        &self.file_hash
    }

    /// The state under its lock, for many calls one after another. It is no call itself. The lock is given back when
    /// this is dropped; a call on the state waits until then, so its holder makes none.
    ///
    /// The Rust crate has no such call.
    pub fn hold<R: Wait>(&self, rt: &R) -> HeldRun<'_, L, C> {
        HeldRun {
            logged: self.state.lock(rt),
        }
    }

    /// Keeps the error where it is the first one, and marks the run as cancelled.
    pub fn set_error<R: Wait>(
        &self,
        rt: &R,
        pass: &mut RunPass<L>,
        error: FileReconstructionError,
    ) -> Result<(), OutOfMemory>
        ensures counted { OnOk result ((pass.new.share.amount ≡ pass.old.share.amount + 1)
            × (pass.new.last ≡ Some (RunCall.SetError error))) }
        ensures refused { OnErr result ((pass.new.share.amount ≡ pass.old.share.amount)
            × (pass.new.last ≡ pass.old.last)) }
        ensures parts { pass.new.share.parts ≡ pass.old.share.parts }
    {
        self.state.lock(rt).set_error(pass, error)
    }

    /// The first error, as an `Err`. Want of memory is answered as `OutOfMemory` too; the pass's count tells the two
    /// apart.
    pub fn check_error<R: Wait>(
        &self,
        rt: &R,
        pass: &mut RunPass<L>,
    ) -> Result<(), FileReconstructionError>
        ensures counted { ((pass.new.share.amount ≡ pass.old.share.amount + 1)
            × (pass.new.last ≡ Some (RunCall.CheckError (result_err result))))
            ⊎ (((pass.new.share.amount ≡ pass.old.share.amount) × (pass.new.last ≡ pass.old.last))
            × (result ≡ Err error.OutOfMemory)) }
        ensures parts { pass.new.share.parts ≡ pass.old.share.parts }
    {
        self.state.lock(rt).check_error(pass)
    }

    /// The first error as `RunError::Error`, else `RunError::Cancelled` where the run is marked.
    pub fn check_run_state<R: Wait>(&self, rt: &R, pass: &mut RunPass<L>) -> Result<(), RunError>
        ensures counted { ((pass.new.share.amount ≡ pass.old.share.amount + 1)
            × (pass.new.last ≡ Some (RunCall.CheckRunState (result_err result))))
            ⊎ (((pass.new.share.amount ≡ pass.old.share.amount) × (pass.new.last ≡ pass.old.last))
            × (result ≡ Err run_error.OutOfMemory)) }
        ensures memory { result ≡ Err run_error.OutOfMemory → pass.new.share.amount ≡ pass.old.share.amount }
        ensures parts { pass.new.share.parts ≡ pass.old.share.parts }
    {
        self.state.lock(rt).check_run_state(pass)
    }

    /// Marks the run as cancelled.
    pub fn cancel<R: Wait>(&self, rt: &R, pass: &mut RunPass<L>) -> Result<(), OutOfMemory>
        ensures counted { OnOk result ((pass.new.share.amount ≡ pass.old.share.amount + 1)
            × (pass.new.last ≡ Some RunCall.Cancel)) }
        ensures refused { OnErr result ((pass.new.share.amount ≡ pass.old.share.amount)
            × (pass.new.last ≡ pass.old.last)) }
        ensures parts { pass.new.share.parts ≡ pass.old.share.parts }
    {
        self.state.lock(rt).cancel(pass)
    }

    /// Counts a new block.
    pub fn record_new_block<R: Wait>(
        &self,
        rt: &R,
        pass: &mut RunPass<L>,
    ) -> Result<(), OutOfMemory>
        ensures counted { OnOk result ((pass.new.share.amount ≡ pass.old.share.amount + 1)
            × (pass.new.last ≡ Some RunCall.NewBlock)) }
        ensures refused { OnErr result ((pass.new.share.amount ≡ pass.old.share.amount)
            × (pass.new.last ≡ pass.old.last)) }
        ensures parts { pass.new.share.parts ≡ pass.old.share.parts }
    {
        self.state.lock(rt).record_new_block(pass)
    }

    /// Counts the bytes of a new term.
    pub fn record_new_term<R: Wait>(
        &self,
        rt: &R,
        pass: &mut RunPass<L>,
        term_size: u64,
    ) -> Result<(), OutOfMemory>
        ensures counted { OnOk result ((pass.new.share.amount ≡ pass.old.share.amount + 1)
            × (pass.new.last ≡ Some (RunCall.NewTerm term_size))) }
        ensures refused { OnErr result ((pass.new.share.amount ≡ pass.old.share.amount)
            × (pass.new.last ≡ pass.old.last)) }
        ensures parts { pass.new.share.parts ≡ pass.old.share.parts }
    {
        self.state.lock(rt).record_new_term(pass, term_size)
    }

    /// How many bytes of terms were scheduled, a sum that stops at `u64::MAX`.
    pub fn total_bytes_scheduled<R: Wait>(
        &self,
        rt: &R,
        pass: &mut RunPass<L>,
    ) -> Result<u64, OutOfMemory>
        ensures counted { IfOk result (λ n. (pass.new.share.amount ≡ pass.old.share.amount + 1)
            × (pass.new.last ≡ Some (RunCall.Scheduled n))) }
        ensures refused { OnErr result ((pass.new.share.amount ≡ pass.old.share.amount)
            × (pass.new.last ≡ pass.old.last)) }
        ensures parts { pass.new.share.parts ≡ pass.old.share.parts }
    {
        self.state.lock(rt).total_bytes_scheduled(pass)
    }
}

impl<L: Ledger> RunState<L, KeptCalls> {
    /// The history of the calls, oldest first, each with the reply that the book gives at its point. Where all passes
    /// were gathered into this one, it has as many calls as the pass counts.
    pub fn close(self, pass: RunPass<L>) -> List<RunCall>
        ensures replayed { IsReplayed result }
        ensures counted { pass.share.parts ≡ L.parts → length result ≡ pass.share.amount }
    {
        let RunState { state, .. } = self;
        let Logged {
            history,
            mut calls,
            ..
        } = state.into_inner();
        let RunPass { mut share, .. } = pass;
        calls.audit(&mut share);
        history.into_list()
    }
}
