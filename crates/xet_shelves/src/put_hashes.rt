//! Hashes in the order of puts, each of which is found through an ordered map.
ghost use Rattle.std.specs.Prelude.{◌≡◌, [], ◌++◌, OnErr, OnOk};
ghost use Rattle.std.specs.List.{list_any};
ghost use Rattle.xet_base.specs.Hashes.{hash_eq};
ghost use Rattle.xet_shelves.specs.steps.HashPlaces.{Kept, Noted, NotedOne, Same, is_at};

use std::alloc::Global;
use std::collections::BTreeMap;
use std::marker::Model;
use xet_base::{MerkleHash, OutOfMemory};

/// A list of hashes, which may be equal, and for each of them a number at which it stands. Contracts see it as the
/// list.
#[derive(Drop)]
pub(crate) struct PutHashes {
    hashes: Vec<MerkleHash>,
    // a number of each hash; a growth that was refused may leave numbers behind at which the list hasn't their hash
    numbers: BTreeMap<MerkleHash, usize>,
}

impl Model for PutHashes {
    ghost use Rattle.std.specs.Prelude.{List as Items};
    ghost use Rattle.xet_base.specs.declared.merklehash.MerkleHash.{MerkleHash as Hash};
    ghost use Rattle.xet_shelves.specs.steps.HashPlaces.{Finds};

    ghost Value = { Items Hash };

    ghost view = { λ s. s.hashes.items };

    ghost invariant = { λ s. Finds ⟦<MerkleHash as Ord>⟧.cmp s.hashes.items s.numbers };
}

impl PutHashes {
    /// No hashes. It takes no memory.
    pub(crate) fn new(alloc: Global) -> PutHashes
        ensures { result ≡ [] }
    {
        PutHashes {
            hashes: Vec::new(alloc),
            numbers: BTreeMap::new(alloc),
        }
    }

    /// Whether the hash is there.
    pub(crate) fn has(&self, hash: &MerkleHash) -> bool
        ensures { result ≡ list_any (λ y. hash_eq y hash.now) self.now }
    {
        let number = self.numbers.get(hash).copied();
        is_at(self.hashes.as_slice(), hash, number)
    }

    /// Adds hashes at the end, in order.
    ///
    /// `OutOfMemory` where an allocation was refused, and then the list is as it was.
    pub(crate) fn extend(&mut self, more: &[MerkleHash]) -> Result<(), OutOfMemory>
        ensures ok { OnOk result (self.new ≡ self.old ++ more.now) }
        ensures err { OnErr result (self.new ≡ self.old) }
    {
        note_all(&mut self.numbers, self.hashes.as_slice(), more)?;
        self.hashes.extend_from_slice(more)?;
        Ok(())
    }
}

// Whether the list has the hash at the number.
fn is_at(hashes: &[MerkleHash], hash: &MerkleHash, number: Option<usize>) -> bool
    ensures { result ≡ is_at hashes.now hash.now number }
{
    match number {
        Some(number) => match hashes.get(number) {
            Some(found) => found.is_same(hash),
            None => false,
        },
        None => false,
    }
}

// Notes that a hash will stand at this number behind the list, unless the list has it at its noted number.
fn note(
    numbers: &mut BTreeMap<MerkleHash, usize>,
    hashes: &[MerkleHash],
    hash: &MerkleHash,
    number: usize,
) -> Result<(), OutOfMemory>
    ensures ok { OnOk result (NotedOne ⟦<MerkleHash as Ord>⟧.cmp hashes.now hash.now number numbers.old numbers.new) }
    ensures err { OnErr result (Same ⟦<MerkleHash as Ord>⟧.cmp numbers.old numbers.new) }
{
    let old = numbers.get(hash).copied();
    if is_at(hashes, hash, old) {
        return Ok(());
    }
    if numbers.insert(*hash, number).is_err() {
        return Err(OutOfMemory);
    }
    Ok(())
}

// Notes the hashes that will stand behind the list.
fn note_all(
    numbers: &mut BTreeMap<MerkleHash, usize>,
    hashes: &[MerkleHash],
    more: &[MerkleHash],
) -> Result<(), OutOfMemory>
    ensures kept { Kept ⟦<MerkleHash as Ord>⟧.cmp hashes.now numbers.old numbers.new }
    ensures ok { OnOk result (Noted ⟦<MerkleHash as Ord>⟧.cmp hashes.now more.now numbers.old numbers.new) }
{
    for (place, hash) in more.iter().enumerate() {
        note(numbers, hashes, hash, hashes.len() + place)?;
    }
    Ok(())
}
