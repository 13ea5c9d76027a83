//! Where the calls on the state of a run go: into memory, where they can be read, or to proofs alone.
ghost use Rattle.std.specs.Prelude.{◌≡◌, ◌+◌, ◌-◌, ◌^◌, ◌<◌, ◌≤◌, ℕ, List, [], ◌∷◌, ◌++◌, OnOk, vec_len, vec_capacity};
ghost use base.Fml.{ftrue};
ghost use Rattle.xet_events.specs.declared.run_call.RunCall.{RunCall as CallValue};

use crate::run_call::RunCall;
use std::alloc::{AllocError, Global};
use std::marker::Model;
use xet_base::List;

/// Takes the calls on the state of a run, one behind the other.
pub trait CallLog: Drop {
    /// The calls that it took, oldest first.
    ghost calls: { Self → List CallValue };

    /// For how many more it has room.
    ghost room: { Self → ℕ };

    /// A log without calls. It takes no memory.
    fn new(alloc: Global) -> Self
        ensures { calls result ≡ [] };

    /// Makes room for so many calls more. An error where an allocation was refused. The calls stay in any case.
    fn reserve(&mut self, count: usize) -> Result<(), AllocError>
        ensures calls { calls self.new ≡ calls self.old }
        ensures room { OnOk result (count ≤ room self.new) };

    /// Takes a call, for which there is room.
    fn push_reserved(&mut self, call: RunCall)
        requires { 0 < room self.old }
        ensures { calls self.new ≡ calls self.old ++ call ∷ [] };
}

/// Calls that are kept in memory.
#[derive(Drop)]
pub struct KeptCalls {
    kept: Vec<RunCall>,
}

impl KeptCalls {
    /// The calls, oldest first.
    pub fn into_list(self) -> List<RunCall>
        ensures { result ≡ self.kept.items }
    {
        List::from_vec(self.kept)
    }
}

impl CallLog for KeptCalls {
    ghost calls = { λ log. log.kept.items };

    ghost room = { λ log. vec_capacity log.kept - vec_len log.kept };

    fn new(alloc: Global) -> KeptCalls {
        KeptCalls {
            kept: Vec::new(alloc),
        }
    }

    fn reserve(&mut self, count: usize) -> Result<(), AllocError> {
        self.kept.reserve(count)
    }

    fn push_reserved(&mut self, call: RunCall) {
        self.kept.push_reserved(call);
    }
}

/// Calls that only proofs read. They take no memory, and the calls do nothing at run time.
#[derive(Drop)]
pub struct ToldCalls {
    ghost told: { List CallValue },
}

impl Model for ToldCalls {
    ghost also_owns = { λ _. ftrue };
}

// It owns nothing.
unsafe impl Send for ToldCalls {}

impl ToldCalls {
    /// No calls.
    fn nothing() -> ToldCalls
        ensures { result.told ≡ [] }
    {
        ToldCalls {}
    }

    /// These calls and one more.
    fn and(&self, _call: &RunCall) -> ToldCalls
        ensures { result.told ≡ self.now.told ++ _call.now ∷ [] }
    {
        ToldCalls {}
    }
}

impl CallLog for ToldCalls {
    ghost calls = { λ log. log.told };

    ghost room = { λ _. 2 ^ 64 };

    fn new(_alloc: Global) -> ToldCalls {
        ToldCalls::nothing()
    }

    fn reserve(&mut self, _count: usize) -> Result<(), AllocError> {
        Ok(())
    }

    fn push_reserved(&mut self, call: RunCall) {
        *self = self.and(&call);
    }
}
