//! A list of limits that only contracts read.
ghost use Rattle.std.specs.Prelude.{◌≡◌, ℕ, List, [], ◌∷◌, ◌++◌};
ghost use base.Fml.{ftrue};

use std::marker::Model;

/// A list of limits that only contracts read. It takes no memory.
#[derive(Drop)]
pub(crate) struct ToldLimits {
    ghost limits: { List ℕ },
}

impl Model for ToldLimits {
    ghost also_owns = { λ _. ftrue };
}

// It owns nothing.
unsafe impl Send for ToldLimits {}

impl ToldLimits {
    /// No limits.
    pub(crate) fn new() -> ToldLimits
        ensures { result.limits ≡ [] }
    {
        ToldLimits {}
    }

    /// These limits and one more.
    pub(crate) fn and(&self, _limit: &u64) -> ToldLimits
        ensures { result.limits ≡ self.now.limits ++ _limit.now ∷ [] }
    {
        ToldLimits {}
    }
}
