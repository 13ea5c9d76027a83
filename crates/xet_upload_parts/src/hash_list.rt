//! Hashes in the order in which they came.
ghost use Rattle.std.specs.Prelude.{◌≡◌, ◌+◌, ◌++◌, ◌∷◌, ◌<◌, ◌≤◌, [], Contains, OnOk, drop, false, length, take, true};
ghost use Rattle.std.specs.Prelude.{vec_capacity, vec_len};
ghost use Rattle.xet_upload_parts.specs.HashLists.{AreFound};

use std::alloc::Global;
use xet_base::{KeyIndex, MerkleHash, OutOfMemory};

/// Hashes in the order in which they came, of which each but the last few is found through an ordered map. A push takes
/// no memory where room was made for it; the map takes up what was pushed when room is made the next time.
#[derive(Drop)]
pub struct HashList {
    hashes: Vec<MerkleHash>,
    // the hashes that are found through the map
    known: KeyIndex<MerkleHash>,
    // how many of the first hashes these are
    indexed: usize,
    ghost within: { indexed ≤ vec_len hashes },
    ghost found: { AreFound known (take indexed hashes.items) },
}

impl HashList {
    /// No hashes. It takes no memory.
    pub fn new(alloc: Global) -> HashList
        ensures { result.hashes.items ≡ [] }
    {
        HashList {
            hashes: Vec::new(alloc),
            known: KeyIndex::new(alloc),
            indexed: 0,
        }
    }

    /// Whether the hash is among them.
    pub fn contains(&self, hash: &MerkleHash) -> bool
        ensures yes { result ≡ true → Contains self.now.hashes.items hash.now }
        ensures no { result ≡ false → Contains self.now.hashes.items hash.now → ⊥ }
    {
        self.known.number_of(hash).is_some()
            || is_among(rest(self.hashes.as_slice(), self.indexed), hash)
    }

    /// Makes room for so many hashes more, and takes up in the map what was pushed.
    ///
    /// `OutOfMemory` where an allocation was refused. The hashes are as they were.
    pub fn reserve(&mut self, count: usize) -> Result<(), OutOfMemory>
        ensures same { self.new.hashes.items ≡ self.old.hashes.items }
        ensures room { OnOk result (vec_len self.new.hashes + count ≤ vec_capacity self.new.hashes) }
    {
        self.catch_up()?;
        self.hashes.reserve(count)?;
        Ok(())
    }

    /// Adds a hash at the end, where room was made for it.
    pub fn push_reserved(&mut self, hash: MerkleHash)
        requires { vec_len self.old.hashes < vec_capacity self.old.hashes }
        ensures { self.new.hashes.items ≡ self.old.hashes.items ++ hash ∷ [] }
    {
        self.hashes.push_reserved(hash);
    }

    // All are found through the map.
    fn catch_up(&mut self) -> Result<(), OutOfMemory>
        ensures { self.new.hashes ≡ self.old.hashes }
    {
        for _ in self.indexed..self.hashes.len() {
            self.index_next()?;
        }
        Ok(())
    }

    // One more is found through the map, where there is one more.
    fn index_next(&mut self) -> Result<(), OutOfMemory>
        ensures { self.new.hashes ≡ self.old.hashes }
    {
        if self.indexed >= self.hashes.len() {
            return Ok(());
        }
        let hash = self.hashes[self.indexed];
        if self.known.number_of(&hash).is_some() {
            self.indexed += 1;
            return Ok(());
        }
        self.known.add(hash)?;
        self.indexed += 1;
        Ok(())
    }
}

// Those from a place on.
fn rest(hashes: &[MerkleHash], from: usize) -> &[MerkleHash]
    requires { from ≤ length hashes.now }
    ensures { result.now ≡ drop from hashes.now }
{
    &hashes[from..]
}

// Whether the hash is among some.
fn is_among(hashes: &[MerkleHash], hash: &MerkleHash) -> bool
    ensures yes { result ≡ true → Contains hashes.now hash.now }
    ensures no { result ≡ false → Contains hashes.now hash.now → ⊥ }
{
    hashes.contains(hash)
}
