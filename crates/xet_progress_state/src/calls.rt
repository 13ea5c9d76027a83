//! The accepted calls of a tracker, which only proofs read.
ghost use Rattle.std.specs.Prelude.{◌≡◌, List, [], ◌∷◌, ◌++◌};
ghost use base.Fml.{ftrue};
ghost use Rattle.xet_progress_state.specs.declared.step.TrackerStep.{TrackerStep};

use crate::step::Note;
use std::marker::Model;

/// A list of calls that only proofs read. It takes no memory.
#[derive(Drop)]
pub(crate) struct Calls {
    ghost items: { List TrackerStep },
}

impl Model for Calls {
    ghost also_owns = { λ _. ftrue };
}

// It owns nothing.
unsafe impl Send for Calls {}

impl Calls {
    ghost use Rattle.xet_progress_state.specs.steps.Noted.{step_of};

    pub(crate) fn new() -> Calls
        ensures { result.items ≡ [] }
    {
        Calls {}
    }

    pub(crate) fn and(&self, _note: &Note<'_>) -> Calls
        ensures { result.items ≡ self.now.items ++ step_of _note.now ∷ [] }
    {
        Calls {}
    }
}
