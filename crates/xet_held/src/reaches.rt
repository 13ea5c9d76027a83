//! How far the terms of files reach in the xorbs of a store.
ghost use Rattle.std.specs.Prelude.{◌≡◌, ◌∷◌, [], All, AllPairs, false, map};
ghost use Rattle.xet_base.specs.Hashes.{hash_eq};
ghost use Rattle.xet_store.specs.Refusals.{stored_term};
ghost use Rattle.xet_held.specs.Reaches.{Extends, IsWithin};

use crate::reach::Reach;
use xet_base::{FileDataSequenceEntry, KeyIndex, MerkleHash};

/// The terms of one file more, which name xorbs of the index and begin inside them.
pub fn extend_all(
    index: &KeyIndex<MerkleHash>,
    terms: &[FileDataSequenceEntry],
    reaches: &mut Vec<Reach>,
)
    requires apart { AllPairs (λ a b. hash_eq a b ≡ false) index.now }
    requires within { All (λ t. IsWithin index.now reaches.old.items (stored_term t)) terms.now }
    ensures { Extends index.now reaches.old.items reaches.new.items (map stored_term terms.now) }
{
    for term in terms {
        extend_one(index, term, reaches);
    }
}

// One term more.
fn extend_one(index: &KeyIndex<MerkleHash>, term: &FileDataSequenceEntry, reaches: &mut Vec<Reach>)
    requires apart { AllPairs (λ a b. hash_eq a b ≡ false) index.now }
    requires within { IsWithin index.now reaches.old.items (stored_term term.now) }
    ensures { Extends index.now reaches.old.items reaches.new.items (stored_term term.now ∷ []) }
{
    let place = index.number_of(&term.xorb).unwrap();
    reaches[place].extend(term.from, term.to);
}
