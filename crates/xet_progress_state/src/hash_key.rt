//! Hashes as keys of an index.
ghost use Rattle.std.specs.Prelude.{◌≡◌};
ghost use Rattle.std.proofs.Common.{rules};
ghost use Rattle.std.specs.Cmp.{partial_order_from_own_ties};
ghost use Rattle.std.specs.Cmp.Lexicographic.{slice_cmp};
ghost use Rattle.std.specs.Cmp.Rules.{comparing};
ghost use Rattle.std.specs.Ordering.{as_partial_cmp, nat_cmp, on, then_cmp};
ghost use Rattle.xet_progress_state.specs.steps.Keys.{last_word};

use std::cmp::Ordering;
use xet_base::MerkleHash;

/// A hash behind the number that its last eight bytes write. Keys compare by that number first: one comparison tells
/// most of them apart, also where hashes have their first bytes in common, and no key takes more than five.
#[derive(Clone, Copy, PartialEq, Eq)]
pub(crate) struct HashKey {
    word: u64,
    hash: MerkleHash,
}

impl Ord for HashKey {
    ghost cmp = { then_cmp (on (λ k. k.word) nat_cmp) (on (λ k. k.hash.0) (slice_cmp nat_cmp)) };

    ghost total = { Prim.search (comparing, rules) };

    ghost matches_partial_cmp = { Prim.search (comparing, rules) };

    ghost matches_eq = { Prim.search (comparing, rules) };

    fn cmp(&self, other: &HashKey) -> Ordering {
        let words = self.word.cmp(&other.word);
        if words.is_ne() {
            return words;
        }
        self.hash.cmp(&other.hash)
    }
}

impl PartialOrd for HashKey {
    ghost partial_cmp = { as_partial_cmp
        (then_cmp (on (λ k. k.word) nat_cmp) (on (λ k. k.hash.0) (slice_cmp nat_cmp))) };

    ghost laws = { partial_order_from_own_ties (Prim.search (comparing, rules)) (Prim.search (comparing, rules)) };

    fn partial_cmp(&self, other: &HashKey) -> Option<Ordering> {
        Some(self.cmp(other))
    }
}

impl HashKey {
    ghost use Rattle.xet_progress_state.specs.steps.Keys.{key_of};

    /// The key of a hash.
    pub(crate) fn of(hash: &MerkleHash) -> HashKey
        ensures { result ≡ key_of hash.now }
    {
        HashKey {
            word: last_word(hash),
            hash: *hash,
        }
    }
}

/// The number that the last eight bytes of a hash write, the highest first.
fn last_word(hash: &MerkleHash) -> u64
    ensures { result ≡ last_word hash.now }
{
    let bytes = hash.0;
    u64::from_be_bytes([
        bytes[24], bytes[25], bytes[26], bytes[27], bytes[28], bytes[29], bytes[30], bytes[31],
    ])
}
