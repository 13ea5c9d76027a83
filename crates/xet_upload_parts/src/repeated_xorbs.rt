//! Xorbs that were not put, since one of their hash was put before.
ghost use Rattle.std.specs.Prelude.{◌≡◌, List, [], ◌∷◌, ◌++◌};
ghost use base.Fml.{ftrue};
ghost use Rattle.xet_base.specs.declared.mdb_shard.Xorb.{Xorb as XorbValue};

use std::marker::Model;
use xet_base::Xorb;

/// The xorbs that were not put, since one of their hash was put before, oldest first. Proofs alone read them: they take
/// no memory, and the calls do nothing at run time.
///
/// It has no source in the Rust crates.
#[derive(Drop)]
pub struct RepeatedXorbs {
    ghost told: { List XorbValue },
}

impl Model for RepeatedXorbs {
    ghost also_owns = { λ _. ftrue };
}

// It owns nothing.
unsafe impl Send for RepeatedXorbs {}

impl RepeatedXorbs {
    /// No xorbs.
    pub fn new() -> RepeatedXorbs
        ensures { result.told ≡ [] }
    {
        RepeatedXorbs {}
    }

    /// One more.
    pub fn push(&mut self, xorb: &Xorb)
        ensures { self.new.told ≡ self.old.told ++ xorb.now ∷ [] }
    {
        *self = self.and(xorb);
    }

    /// These and one more.
    fn and(&self, _xorb: &Xorb) -> RepeatedXorbs
        ensures { result.told ≡ self.now.told ++ _xorb.now ∷ [] }
    {
        RepeatedXorbs {}
    }
}
