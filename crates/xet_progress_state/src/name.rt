//! The xorbs that calls named.
ghost use Rattle.std.specs.Prelude.{◌≡◌, ◌||◌, [], false, true, OnOk, IfErr, IfNone, IfSome};
ghost use Rattle.xet_base.specs.declared.merklehash.MerkleHash.{MerkleHash};
ghost use Rattle.xet_base.specs.Hashes.{hash_eq};
ghost use Rattle.xet_progress_state.specs.Replies.{hash_lt};
ghost use Rattle.xet_progress_state.specs.steps.Open.{WithNames, done_in, has};

use crate::error::ProgressError;
use crate::step::FileXorbDependency;
use crate::xorb::Xorbs;
use std::alloc::Global;
use std::cmp::Reverse;
use std::collections::BinaryHeap;
use std::marker::Model;
use xet_base::MerkleHash;

/// Named xorbs, the first by its hash on top: each that isn't completed, and some that are. Contracts see them as a
/// list in some order.
#[derive(Drop)]
pub(crate) struct Names {
    heap: BinaryHeap<Reverse<MerkleHash>>,
}

impl Model for Names {
    ghost use Rattle.std.specs.Prelude.{List, map};
    ghost use Rattle.std.specs.BinaryHeap.{IsHeap, heap_items};
    ghost use Rattle.std.specs.Ordering.{nat_cmp};
    ghost use Rattle.std.specs.Cmp.Lexicographic.{slice_cmp};
    ghost use Rattle.xet_base.specs.declared.merklehash.MerkleHash.{MerkleHash};

    ghost Value = { List MerkleHash };

    ghost view = { λ s. map (λ x. x.0) (heap_items s.heap) };

    ghost invariant = { λ s. IsHeap (λ x y. slice_cmp nat_cmp y.0.0 x.0.0) (heap_items s.heap) };
}

impl Names {
    /// No xorbs. It takes no memory.
    pub(crate) fn new(alloc: Global) -> Names
        ensures { result ≡ [] }
    {
        Names {
            heap: BinaryHeap::new(alloc),
        }
    }

    /// Adds a xorb.
    pub(crate) fn add(&mut self, hash: MerkleHash) -> Result<(), ProgressError>
        ensures ok { OnOk result ((h : MerkleHash) → has self.new h ≡ (hash_eq hash h || has self.old h)) }
        ensures memory { IfErr result (λ e. (e ≡ ProgressError.OutOfMemory) × (self.new ≡ self.old)) }
    {
        if self.heap.push(Reverse(hash)).is_err() {
            return Err(ProgressError::OutOfMemory);
        }
        Ok(())
    }

    /// Adds the xorbs that dependencies name, but for external ones: all or none.
    pub(crate) fn add_all(
        &mut self,
        dependencies: &[FileXorbDependency],
    ) -> Result<(), ProgressError>
        ensures ok { OnOk result (WithNames self.old dependencies.now self.new) }
        ensures memory { IfErr result (λ e. (e ≡ ProgressError.OutOfMemory) × (self.new ≡ self.old)) }
    {
        if self.heap.reserve(dependencies.len()).is_err() {
            return Err(ProgressError::OutOfMemory);
        }
        for dependency in dependencies {
            if dependency.is_external {
                continue;
            }
            if self.heap.push(Reverse(dependency.xorb_hash)).is_err() {
                unreachable!()
            }
        }
        Ok(())
    }

    /// The first by its hash that isn't completed. Completed ones before it are dropped.
    pub(crate) fn least_open(&mut self, xorbs: &Xorbs) -> Option<MerkleHash>
        ensures some { IfSome result (λ m. (done_in xorbs.now m ≡ false) × (has self.new m ≡ true)
            × ((h : MerkleHash) → has self.new h ≡ true → hash_lt h m ≡ false)) }
        ensures none { IfNone result (self.new ≡ []) }
        ensures kept { (h : MerkleHash) → done_in xorbs.now h ≡ false → has self.new h ≡ has self.old h }
    {
        while let Some(top) = self.heap.peek() {
            let hash = top.0;
            if !xorbs.is_done(&hash) {
                return Some(hash);
            }
            self.heap.pop();
        }
        None
    }
}
