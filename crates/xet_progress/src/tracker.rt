//! The completion tracker that several users share.
ghost use Rattle.std.specs.Prelude.{◌≡◌, ◌^◌, ◌≤◌, true, [], map, length, IfOk};
ghost use Rattle.xet_progress_state.specs.declared.step.TrackerReply.TheVariants.{Done, FileId, Flag, Sums};
ghost use Rattle.xet_progress_state.specs.declared.step.TrackerStep.TheVariants.{RegisterNewFile, IncrementFileSize};
ghost use Rattle.xet_progress_state.specs.declared.step.TrackerStep.TheVariants.{RegisterNewXorb, RegisterDependencies};
ghost use Rattle.xet_progress_state.specs.declared.step.TrackerStep.TheVariants.{RegisterXorbUploadCompletion};
ghost use Rattle.xet_progress_state.specs.declared.step.TrackerStep.TheVariants.{RegisterXorbUploadProgress};
ghost use Rattle.xet_progress_state.specs.declared.step.TrackerStep.TheVariants.{RegisterXorbUploadProgressBackground};
ghost use Rattle.xet_progress_state.specs.declared.step.TrackerStep.TheVariants.{Status, IsComplete, AssertComplete};
ghost use Rattle.xet_progress_state.specs.Replies.{Answered, Counted, KeptCall, gives, gives_id, map_ok};
ghost use Rattle.xet_progress_state.specs.Replies.{replies_of, said, said_complete, steps_of};

use crate::answer::{done_answer, flag_answer, id_answer, plain_answer, sums_answer, whole_answer};
use crate::progress::GroupProgress;
use crate::report::Reports;
use crate::updater::ItemProgressUpdater;
use std::alloc::Global;
use std::sync::ledger::{Blank, Ledger};
use std::sync::{Arc, Mutex, Wait};
use xet_base::{List, MerkleHash, OutOfMemory};
pub use xet_progress_history::TrackerPass;
use xet_progress_history::{TrackerHistory, dependencies_step};
use xet_progress_state::{
    FileXorbDependency, Found, Incomplete, ProgressError, TrackerCall, TrackerReply, TrackerState,
    TrackerStep,
};

/// What was asked, and what is told of it.
#[derive(Drop)]
struct Kept<L: Ledger> {
    calls: TrackerHistory<L>,
    reports: Reports,
}

impl<L: Ledger> Kept<L> {
    /// Makes a call, keeps it with its reply, and tells items and group.
    fn step<R: Wait>(
        &mut self,
        rt: &R,
        alloc: Global,
        pass: &mut TrackerPass<L>,
        step: TrackerStep,
    ) -> Result<TrackerReply, OutOfMemory>
        ensures parts { pass.new.parts ≡ pass.old.parts }
        ensures history { KeptCall self.old.calls.history.items self.new.calls.history.items step result }
        ensures calls { Counted pass.old.calls pass.new.calls result }
        ensures kind { IfOk result (λ r. gives step r ≡ true) }
        ensures answer { Answered step result }
    {
        let Kept { calls, reports } = self;
        if reports.prepare(calls.state(), &step).is_err() {
            return Err(OutOfMemory);
        }
        let before = entry_of(calls.state(), &step);
        let answer = calls.step(alloc, pass, step);
        tell(rt, calls, reports, &answer, before);
        answer
    }

    /// Makes the call that registers a file, and keeps the file's item where it is accepted.
    fn add_file<R: Wait>(
        &mut self,
        rt: &R,
        alloc: Global,
        pass: &mut TrackerPass<L>,
        updater: ItemProgressUpdater,
        n_bytes: Option<u64>,
    ) -> Result<TrackerReply, OutOfMemory>
        ensures parts { pass.new.parts ≡ pass.old.parts }
        ensures history { KeptCall self.old.calls.history.items self.new.calls.history.items
            (RegisterNewFile n_bytes) result }
        ensures calls { Counted pass.old.calls pass.new.calls result }
        ensures kind { IfOk result (λ r. gives_id r ≡ true) }
        ensures answer { Answered (RegisterNewFile n_bytes) result }
    {
        let answer = self.step(rt, alloc, pass, TrackerStep::RegisterNewFile { n_bytes });
        if let Ok(TrackerReply::FileId(_)) = answer {
            self.reports.add_file(rt, updater, n_bytes);
        }
        answer
    }
}

/// Tells items and group of the last call, where it was made.
fn tell<L: Ledger, R: Wait>(
    rt: &R,
    calls: &TrackerHistory<L>,
    reports: &mut Reports,
    answer: &Result<TrackerReply, OutOfMemory>,
    before: Option<Found>,
) {
    if answer.is_err() {
        return;
    }
    if let Some(call) = calls.last() {
        reports.tell(rt, calls.state(), &call.step, &call.reply, before);
    }
}

/// The entry of the xorb that a call reports of.
fn entry_of(state: &TrackerState, step: &TrackerStep) -> Option<Found> {
    match step {
        TrackerStep::RegisterXorbUploadCompletion { xorb_hash } => state.xorb(xorb_hash),
        TrackerStep::RegisterXorbUploadProgress { xorb_hash, .. } => state.xorb(xorb_hash),
        TrackerStep::RegisterXorbUploadProgressBackground { xorb_hash, .. } => {
            state.xorb(xorb_hash)
        }
        _ => None,
    }
}

/// A tracker's state under a lock, with every call that it was asked and its reply, in order. Each call is one hold
/// of the lock: it makes the state's step, keeps it, and tells items and group. Whenever the lock is free, replaying
/// the kept calls gives the state, and each kept reply is the state's reply at its place.
///
/// In the Rust crate: `progress_tracking::upload_tracking::CompletionTracker`, which keeps no calls.
#[derive(Drop)]
pub struct CompletionTracker<L: Ledger> {
    kept: Mutex<Kept<L>>,
}

impl<L: Ledger> CompletionTracker<L> {
    /// A tracker with no files and no xorbs, which reports to this group, and the pass with all its parts. It takes no
    /// memory.
    ///
    /// In the Rust crate: `CompletionTracker::new`.
    pub fn new(
        alloc: Global,
        group: Arc<GroupProgress>,
        blank: Blank,
    ) -> (CompletionTracker<L>, TrackerPass<L>)
        requires name { blank.name ≡ L.name }
        requires parts { blank.parts ≡ L.parts }
        requires all { L.parts ≡ 2 ^ 32 }
        ensures parts { result.1.parts ≡ 2 ^ 32 }
        ensures calls { result.1.calls ≡ 0 }
    {
        let (calls, pass) = TrackerHistory::new(alloc, blank);
        let kept = Kept {
            calls,
            reports: Reports::new(alloc, group),
        };
        (
            CompletionTracker {
                kept: Mutex::new(kept),
            },
            pass,
        )
    }

    /// Makes a call in one hold of the lock.
    fn call<R: Wait>(
        &self,
        rt: &R,
        alloc: Global,
        pass: &mut TrackerPass<L>,
        step: TrackerStep,
    ) -> Result<TrackerReply, OutOfMemory>
        ensures parts { pass.new.parts ≡ pass.old.parts }
        ensures calls { Counted pass.old.calls pass.new.calls result }
        ensures kind { IfOk result (λ r. gives step r ≡ true) }
        ensures answer { Answered step result }
    {
        self.kept.lock(rt).step(rt, alloc, pass, step)
    }

    /// Registers a file: `n_bytes` fixes its size, and with none it starts at 0 and grows. Answers its id, counted
    /// from 0. `updater` is told the file's size and completed bytes.
    ///
    /// `SumTooGreat` where the sum of all files' totals would pass `u64::MAX`, over the accepted calls before this
    /// one. `OutOfMemory` where an allocation was refused; then, and then alone, the call is neither kept nor
    /// counted.
    ///
    /// In the Rust crate: `CompletionTracker::register_new_file`.
    pub fn register_new_file<R: Wait>(
        &self,
        rt: &R,
        alloc: Global,
        pass: &mut TrackerPass<L>,
        updater: ItemProgressUpdater,
        n_bytes: Option<u64>,
    ) -> Result<u64, ProgressError>
        ensures parts { pass.new.parts ≡ pass.old.parts }
        ensures calls { Counted pass.old.calls pass.new.calls (said FileId result) }
        ensures answer { Answered (RegisterNewFile n_bytes) (said FileId result) }
    {
        let reply = self
            .kept
            .lock(rt)
            .add_file(rt, alloc, pass, updater, n_bytes);
        id_answer(reply)
    }

    /// Adds to the size of a file that grows. A fixed size stays.
    ///
    /// `UnknownFile` where no file has this id, then, for one that grows, `SumTooGreat` where the sum of all
    /// files' totals would pass `u64::MAX`, over the accepted calls before this one. `OutOfMemory`
    /// where an allocation was refused; then, and then alone, the call is neither kept nor counted.
    ///
    /// In the Rust crate: `CompletionTracker::increment_file_size`.
    pub fn increment_file_size<R: Wait>(
        &self,
        rt: &R,
        alloc: Global,
        pass: &mut TrackerPass<L>,
        file_id: u64,
        size_increment: u64,
    ) -> Result<(), ProgressError>
        ensures parts { pass.new.parts ≡ pass.old.parts }
        ensures calls { Counted pass.old.calls pass.new.calls (said (λ _. Done) result) }
        ensures answer { Answered (IncrementFileSize file_id size_increment) (said (λ _. Done) result) }
    {
        let step = TrackerStep::IncrementFileSize {
            file_id,
            size_increment,
        };
        done_answer(self.call(rt, alloc, pass, step))
    }

    /// Registers a xorb with its size: true at its first registration, also where a dependency named it before.
    ///
    /// `OtherSize` where it was registered with another size, and where it is new `SumTooGreat` where the sum
    /// of the sizes of all xorbs would pass `u64::MAX`, over the accepted calls before this one. `OutOfMemory`
    /// where an allocation was refused; then, and then alone, the call is neither kept nor counted.
    ///
    /// In the Rust crate: `CompletionTracker::register_new_xorb`.
    pub fn register_new_xorb<R: Wait>(
        &self,
        rt: &R,
        alloc: Global,
        pass: &mut TrackerPass<L>,
        xorb_hash: MerkleHash,
        xorb_size: u64,
    ) -> Result<bool, ProgressError>
        ensures parts { pass.new.parts ≡ pass.old.parts }
        ensures calls { Counted pass.old.calls pass.new.calls (said Flag result) }
        ensures answer { Answered (RegisterNewXorb xorb_hash xorb_size) (said Flag result) }
    {
        let step = TrackerStep::RegisterNewXorb {
            xorb_hash,
            xorb_size,
        };
        flag_answer(self.call(rt, alloc, pass, step))
    }

    /// Registers dependencies of files on xorbs: all of them or none. External ones and those on a completed xorb
    /// count at once, the others wait.
    ///
    /// `UnknownFile` where one names no file, else `PastTotal` where a file's dependencies would pass its total, each
    /// with the first such place in the list, over the accepted calls before this one. `OutOfMemory` where an
    /// allocation was refused; then, and then alone, the call is neither kept nor counted.
    ///
    /// In the Rust crate: `CompletionTracker::register_dependencies`.
    pub fn register_dependencies<R: Wait>(
        &self,
        rt: &R,
        alloc: Global,
        pass: &mut TrackerPass<L>,
        dependencies: &[FileXorbDependency],
    ) -> Result<(), ProgressError>
        ensures parts { pass.new.parts ≡ pass.old.parts }
        ensures calls { Counted pass.old.calls pass.new.calls (said (λ _. Done) result) }
        ensures answer { Answered (RegisterDependencies dependencies.now) (said (λ _. Done) result) }
    {
        match dependencies_step(alloc, dependencies) {
            Ok(step) => done_answer(self.call(rt, alloc, pass, step)),
            Err(OutOfMemory) => Err(ProgressError::OutOfMemory),
        }
    }

    /// Counts a xorb as completed, and credits the rest of each part that waits for it. It is ignored where it is
    /// completed already.
    ///
    /// `UnknownXorb` where it was never registered, over the accepted calls before this one. `OutOfMemory` where an
    /// allocation was refused; then, and then alone, the call is neither kept nor counted.
    ///
    /// In the Rust crate: `CompletionTracker::register_xorb_upload_completion`.
    pub fn register_xorb_upload_completion<R: Wait>(
        &self,
        rt: &R,
        alloc: Global,
        pass: &mut TrackerPass<L>,
        xorb_hash: MerkleHash,
    ) -> Result<(), ProgressError>
        ensures parts { pass.new.parts ≡ pass.old.parts }
        ensures calls { Counted pass.old.calls pass.new.calls (said (λ _. Done) result) }
        ensures answer { Answered (RegisterXorbUploadCompletion xorb_hash) (said (λ _. Done) result) }
    {
        let step = TrackerStep::RegisterXorbUploadCompletion { xorb_hash };
        done_answer(self.call(rt, alloc, pass, step))
    }

    /// Counts more bytes of a xorb as sent, and credits each part that waits for it with its share, rounded down.
    ///
    /// `UnknownXorb` where it was never registered, `XorbCompleted` where it is completed, else `PastTotal`
    /// where the bytes sent would pass its size, over the accepted calls before this one. `OutOfMemory`
    /// where an allocation was refused; then, and then alone, the call is neither kept nor counted.
    ///
    /// In the Rust crate: `CompletionTracker::register_xorb_upload_progress`.
    pub fn register_xorb_upload_progress<R: Wait>(
        &self,
        rt: &R,
        alloc: Global,
        pass: &mut TrackerPass<L>,
        xorb_hash: MerkleHash,
        new_byte_progress: u64,
    ) -> Result<(), ProgressError>
        ensures parts { pass.new.parts ≡ pass.old.parts }
        ensures calls { Counted pass.old.calls pass.new.calls (said (λ _. Done) result) }
        ensures answer { Answered (RegisterXorbUploadProgress xorb_hash new_byte_progress) (said (λ _. Done) result) }
    {
        let step = TrackerStep::RegisterXorbUploadProgress {
            xorb_hash,
            new_byte_progress,
        };
        done_answer(self.call(rt, alloc, pass, step))
    }

    /// Counts more bytes of a xorb as sent, as `register_xorb_upload_progress` does. It is ignored where the xorb is
    /// completed.
    ///
    /// `UnknownXorb` where it was never registered, and where it isn't completed `PastTotal` where the bytes
    /// sent would pass its size, over the accepted calls before this one. `OutOfMemory`
    /// where an allocation was refused; then, and then alone, the call is neither kept nor counted.
    ///
    /// In the Rust crate: `CompletionTracker::register_xorb_upload_progress_background`.
    pub fn register_xorb_upload_progress_background<R: Wait>(
        &self,
        rt: &R,
        alloc: Global,
        pass: &mut TrackerPass<L>,
        xorb_hash: MerkleHash,
        new_byte_progress: u64,
    ) -> Result<(), ProgressError>
        ensures parts { pass.new.parts ≡ pass.old.parts }
        ensures calls { Counted pass.old.calls pass.new.calls (said (λ _. Done) result) }
        ensures answer { Answered (RegisterXorbUploadProgressBackground xorb_hash new_byte_progress)
            (said (λ _. Done) result) }
    {
        let step = TrackerStep::RegisterXorbUploadProgressBackground {
            xorb_hash,
            new_byte_progress,
        };
        done_answer(self.call(rt, alloc, pass, step))
    }

    /// The sums of completed and total bytes over all files.
    ///
    /// `OutOfMemory` where an allocation was refused; then, and then alone, the call is neither kept nor counted.
    ///
    /// In the Rust crate: `CompletionTracker::status`.
    pub fn status<R: Wait>(
        &self,
        rt: &R,
        alloc: Global,
        pass: &mut TrackerPass<L>,
    ) -> Result<(u64, u64), OutOfMemory>
        ensures parts { pass.new.parts ≡ pass.old.parts }
        ensures calls { Counted pass.old.calls pass.new.calls (map_ok (λ s. Sums s.0 s.1) result) }
        ensures answer { Answered Status (map_ok (λ s. Sums s.0 s.1) result) }
    {
        match self.call(rt, alloc, pass, TrackerStep::Status) {
            Ok(reply) => Ok(sums_answer(reply)),
            Err(OutOfMemory) => Err(OutOfMemory),
        }
    }

    /// Whether all bytes of all files are completed.
    ///
    /// `OutOfMemory` where an allocation was refused; then, and then alone, the call is neither kept nor counted.
    ///
    /// In the Rust crate: `CompletionTracker::is_complete`.
    pub fn is_complete<R: Wait>(
        &self,
        rt: &R,
        alloc: Global,
        pass: &mut TrackerPass<L>,
    ) -> Result<bool, OutOfMemory>
        ensures parts { pass.new.parts ≡ pass.old.parts }
        ensures calls { Counted pass.old.calls pass.new.calls (map_ok Flag result) }
        ensures answer { Answered IsComplete (map_ok Flag result) }
    {
        match self.call(rt, alloc, pass, TrackerStep::IsComplete) {
            Ok(reply) => Ok(plain_answer(reply)),
            Err(OutOfMemory) => Err(OutOfMemory),
        }
    }

    /// What is missing: the first file that isn't complete, then the first xorb by its hash that isn't completed, of
    /// those that a registration or a dependency that isn't external named.
    ///
    /// `OutOfMemory` where an allocation was refused; then, and then alone, the call is neither kept nor counted.
    ///
    /// In the Rust crate: `CompletionTracker::assert_complete`.
    pub fn assert_complete<R: Wait>(
        &self,
        rt: &R,
        alloc: Global,
        pass: &mut TrackerPass<L>,
    ) -> Result<Result<(), Incomplete>, OutOfMemory>
        ensures parts { pass.new.parts ≡ pass.old.parts }
        ensures calls { Counted pass.old.calls pass.new.calls (map_ok said_complete result) }
        ensures answer { Answered AssertComplete (map_ok said_complete result) }
    {
        match self.call(rt, alloc, pass, TrackerStep::AssertComplete) {
            Ok(reply) => Ok(whole_answer(reply)),
            Err(OutOfMemory) => Err(OutOfMemory),
        }
    }

    /// What the tracker was asked, in order, and what it answered. It has at least as many calls as the pass counts,
    /// and just as many once all split passes were gathered.
    ///
    /// The Rust crate has no such call.
    pub fn close(self, pass: TrackerPass<L>) -> List<TrackerCall>
        ensures count { pass.parts ≡ L.parts → length result ≡ pass.calls }
        ensures least { pass.calls ≤ length result }
        ensures replied { map (λ c. c.reply) result ≡ replies_of [] (steps_of result) }
    {
        List::from_vec(self.kept.into_inner().calls.into_calls(pass))
    }
}
