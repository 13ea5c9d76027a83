//! What a cache was looked up for, for proofs alone.
ghost use Rattle.std.specs.Prelude.{◌≡◌, List, [], ◌∷◌, ◌++◌, None, Option as Maybe, Some};
ghost use base.Fml.{ftrue};
ghost use Rattle.xet_base.specs.declared.cas_types.ChunkRange.{ChunkRange as RangeValue};
ghost use Rattle.xet_base.specs.declared.merklehash.MerkleHash.{MerkleHash as HashValue};
ghost use Rattle.xet_outside.specs.declared.block.BlockBytes.{BlockBytes as BlockValue};

use std::marker::Model;
use xet_base::{ChunkRange, MerkleHash};
use xet_outside::BlockBytes;

/// The look-ups of a cache, each with the entry that was given, or nothing: a list that only proofs read. It takes no
/// memory, and the methods do nothing at run time.
#[derive(Drop)]
pub struct LookLog {
    pub ghost looked: { List (HashValue × RangeValue × Maybe BlockValue) },
}

impl Model for LookLog {
    ghost also_owns = { λ _. ftrue };
}

// It owns nothing.
unsafe impl Send for LookLog {}

impl LookLog {
    /// A log of nothing.
    pub fn new() -> LookLog
        ensures { result ≡ record { looked = [] } }
    {
        LookLog {}
    }

    /// The log with a look that gave this entry at the end.
    fn and_found(&self, xorb: &MerkleHash, range: &ChunkRange, block: &BlockBytes) -> LookLog
        ensures { result ≡ record { looked = self.now.looked ++ (xorb.now, range.now, Some block.now) ∷ [] } }
    {
        LookLog {}
    }

    /// The log with a look that gave nothing at the end.
    fn and_missed(&self, xorb: &MerkleHash, range: &ChunkRange) -> LookLog
        ensures { result ≡ record { looked = self.now.looked ++ (xorb.now, range.now, None) ∷ [] } }
    {
        LookLog {}
    }

    /// The log with a look and what it gave at the end.
    pub fn and_look(
        &self,
        xorb: &MerkleHash,
        range: &ChunkRange,
        found: &Option<BlockBytes>,
    ) -> LookLog
        ensures { result ≡ record { looked = self.now.looked ++ (xorb.now, range.now, found.now) ∷ [] } }
    {
        match found {
            Some(block) => self.and_found(xorb, range, block),
            None => self.and_missed(xorb, range),
        }
    }
}
