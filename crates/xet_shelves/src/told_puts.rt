//! Puts that are told to proofs alone.
ghost use Rattle.std.specs.Prelude.{◌≡◌, List, [], ◌∷◌, ◌++◌};
ghost use base.Fml.{ftrue};
ghost use Rattle.xet_uploader.specs.declared.uploader.Put.{Put as PutValue};
ghost use Rattle.xet_uploader.specs.declared.uploader.Put.TheVariants as put;

use std::marker::Model;
use xet_base::{ShardRecord, Xorb};

/// Puts in their order, which proofs alone read: they take no memory, and the calls do nothing at run time.
#[derive(Drop)]
pub(crate) struct ToldPuts {
    pub(crate) ghost told: { List PutValue },
}

impl Model for ToldPuts {
    ghost also_owns = { λ _. ftrue };
}

impl ToldPuts {
    /// No puts.
    pub(crate) fn new() -> ToldPuts
        ensures { result.told ≡ [] }
    {
        ToldPuts {}
    }

    /// Adds a xorb.
    pub(crate) fn push_xorb(&mut self, xorb: &Xorb)
        ensures { self.new.told ≡ self.old.told ++ put.Xorb xorb.now ∷ [] }
    {
        *self = self.and_xorb(xorb);
    }

    /// Adds records.
    pub(crate) fn push_shard(&mut self, shard: &ShardRecord)
        ensures { self.new.told ≡ self.old.told ++ put.Shard shard.now ∷ [] }
    {
        *self = self.and_shard(shard);
    }

    // These and a xorb.
    fn and_xorb(&self, _xorb: &Xorb) -> ToldPuts
        ensures { result.told ≡ self.now.told ++ put.Xorb _xorb.now ∷ [] }
    {
        ToldPuts {}
    }

    // These and records.
    fn and_shard(&self, _shard: &ShardRecord) -> ToldPuts
        ensures { result.told ≡ self.now.told ++ put.Shard _shard.now ∷ [] }
    {
        ToldPuts {}
    }
}
