//! Counts of the calls of a tracker's users.
ghost use Rattle.std.specs.Prelude.{◌≡◌, ◌+◌, ◌-◌, ◌^◌, ◌<◌, ◌≤◌, min};

use std::sync::ledger::{Book, Ledger, Share};

/// Counts the calls of one user of a tracker, and holds parts of its ledger, all 2^32 of them at first.
///
/// The Rust crate has no such type.
#[derive(Drop)]
pub struct TrackerPass<L: Ledger> {
    pub(crate) share: Share<L>,
    pub(crate) parts: u64,
    pub(crate) calls: u64,
    ghost some: { 0 < parts },
    ghost backed: { parts ≤ share.parts },
    ghost counted: { calls ≡ min share.amount (2 ^ 64 - 1) },
}

impl<L: Ledger> TrackerPass<L> {
    /// A pass with some of the parts, at least one and fewer than there are, and no calls.
    pub fn split(&mut self, parts: u64) -> TrackerPass<L>
        requires some { 0 < parts }
        requires rest { parts < self.old.parts }
        ensures parts { result.parts ≡ parts }
        ensures calls { result.calls ≡ 0 }
        ensures left { self.new.parts + parts ≡ self.old.parts }
        ensures same { self.new.calls ≡ self.old.calls }
    {
        let TrackerPass {
            share,
            parts: own,
            calls: _,
        } = self;
        *own -= parts;
        TrackerPass {
            share: share.split_off(parts, 0),
            parts,
            calls: 0,
        }
    }

    /// Takes the parts and calls of another pass. The sums stop at `u64::MAX`.
    pub fn gather(&mut self, other: TrackerPass<L>)
        ensures parts { self.new.parts ≡ min (self.old.parts + other.parts) (2 ^ 64 - 1) }
        ensures calls { self.new.calls ≡ min (self.old.calls + other.calls) (2 ^ 64 - 1) }
    {
        let TrackerPass {
            share,
            parts,
            calls,
        } = self;
        *parts = parts.saturating_add(other.parts);
        *calls = calls.saturating_add(other.calls);
        share.merge(other.share);
    }

    /// How many calls it counts.
    pub fn calls(&self) -> u64
        ensures { result ≡ self.now.calls }
    {
        self.calls
    }

    /// How many parts it holds.
    pub fn parts(&self) -> u64
        ensures { result ≡ self.now.parts }
    {
        self.parts
    }
}

/// Counts a call in the ledger and in the pass.
pub(crate) fn count<L: Ledger>(made: &mut Book<L>, pass: &mut TrackerPass<L>)
    ensures made { made.new.total ≡ made.old.total + 1 }
    ensures parts { pass.new.parts ≡ pass.old.parts }
    ensures calls { pass.new.calls ≡ min (pass.old.calls + 1) (2 ^ 64 - 1) }
{
    let TrackerPass {
        share,
        parts: _,
        calls,
    } = pass;
    made.add(share, 1);
    *calls = calls.saturating_add(1);
}
