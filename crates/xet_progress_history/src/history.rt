//! The state of a tracker and what it was asked.
ghost use Rattle.std.specs.Prelude.{◌≡◌, ◌^◌, ◌≤◌, true, [], map, length, vec_len, IfOk};
ghost use Rattle.xet_progress_state.specs.declared.step.TrackerStep.TheVariants.{RegisterDependencies};
ghost use Rattle.xet_progress_state.specs.Replies.{Answered, Counted, KeptCall, after_all, gives, replies_of};
ghost use Rattle.xet_progress_state.specs.Replies.{steps_of};

use crate::pass::{TrackerPass, count};
use std::alloc::Global;
use std::sync::ledger::{Blank, Book, Ledger};
use xet_base::{List, OutOfMemory};
use xet_progress_state::{
    FileXorbDependency, TrackerCall, TrackerReply, TrackerState, TrackerStep,
};

/// A tracker's state with every call that it was asked and its reply, in order. Replaying the kept calls gives the
/// state, and each kept reply is the state's reply at its place.
///
/// The Rust crate has no such type: its tracker keeps no calls.
#[derive(Drop)]
pub struct TrackerHistory<L: Ledger> {
    state: TrackerState,
    history: Vec<TrackerCall>,
    made: Book<L>,
    ghost replays: { state ≡ after_all [] (steps_of history.items) },
    ghost replied: { map (λ c. c.reply) history.items ≡ replies_of [] (steps_of history.items) },
    ghost counted: { vec_len history ≡ made.total },
}

impl<L: Ledger> TrackerHistory<L> {
    /// A tracker with no files and no xorbs, which was asked nothing, and the pass with all its parts. It takes no
    /// memory.
    pub fn new(alloc: Global, blank: Blank) -> (TrackerHistory<L>, TrackerPass<L>)
        requires name { blank.name ≡ L.name }
        requires parts { blank.parts ≡ L.parts }
        requires all { L.parts ≡ 2 ^ 32 }
        ensures none { result.0.history.items ≡ [] }
        ensures parts { result.1.parts ≡ 2 ^ 32 }
        ensures calls { result.1.calls ≡ 0 }
    {
        let (made, share) = blank.open::<L>();
        let history = TrackerHistory {
            state: TrackerState::new(alloc),
            history: Vec::new(alloc),
            made,
        };
        let pass = TrackerPass {
            share,
            parts: 4_294_967_296,
            calls: 0,
        };
        (history, pass)
    }

    /// The state.
    pub fn state(&self) -> &TrackerState {
        &self.state
    }

    /// The last call.
    pub fn last(&self) -> Option<&TrackerCall> {
        self.history.last()
    }

    /// Makes a call, and keeps it with its reply.
    ///
    /// `OutOfMemory` where an allocation was refused; then, and then alone, the call is neither kept nor counted.
    pub fn step(
        &mut self,
        alloc: Global,
        pass: &mut TrackerPass<L>,
        step: TrackerStep,
    ) -> Result<TrackerReply, OutOfMemory>
        ensures parts { pass.new.parts ≡ pass.old.parts }
        ensures history { KeptCall self.old.history.items self.new.history.items step result }
        ensures calls { Counted pass.old.calls pass.new.calls result }
        ensures kind { IfOk result (λ r. gives step r ≡ true) }
        ensures answer { Answered step result }
    {
        if self.history.reserve(1).is_err() {
            return Err(OutOfMemory);
        }
        let TrackerHistory {
            state,
            history,
            made,
        } = self;
        let reply = state.step(alloc, &step)?;
        if history.push(TrackerCall { step, reply }).is_err() {
            unreachable!()
        }
        count(made, pass);
        Ok(reply)
    }

    /// What was asked, in order. It has at least as many calls as the pass counts, and just as many once all split
    /// passes were gathered.
    pub fn into_calls(mut self, pass: TrackerPass<L>) -> Vec<TrackerCall>
        ensures count { pass.parts ≡ L.parts → length result.items ≡ pass.calls }
        ensures least { pass.calls ≤ length result.items }
        ensures replied { map (λ c. c.reply) result.items ≡ replies_of [] (steps_of result.items) }
    {
        let mut pass = pass;
        let mut none = pass.share.empty();
        none.merge(pass.share);
        self.made.audit(&mut none);
        self.history
    }
}

/// The call that registers these dependencies.
///
/// `OutOfMemory` where memory for its list was refused.
pub fn dependencies_step(
    alloc: Global,
    dependencies: &[FileXorbDependency],
) -> Result<TrackerStep, OutOfMemory>
    ensures { IfOk result (λ step. step ≡ RegisterDependencies dependencies.now) }
{
    let Ok(dependencies) = Vec::from_slice(alloc, dependencies) else {
        return Err(OutOfMemory);
    };
    Ok(TrackerStep::RegisterDependencies {
        dependencies: List::from_vec(dependencies),
    })
}
