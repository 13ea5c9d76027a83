//! A list whose values are found by their keys.
ghost use Rattle.std.specs.Prelude.{◌≡◌, [], ◌∷◌, ◌++◌, None, IfOk, OnOk, OnErr, Some, cond, find, is_none, length};
ghost use Rattle.std.specs.Prelude.{position, slice_get, slice_set};
ghost use Rattle.std.specs.Option.{option_copied};
ghost use Rattle.std.specs.Ordering.{is_eq};
ghost use Rattle.xet_base.specs.Hashes.{hash_eq};

use crate::error::OutOfMemory;
use crate::merklehash::MerkleHash;
use std::alloc::Global;
use std::collections::BTreeMap;
use std::marker::Model;
use std::mem;

/// What has a key of its own, by which a list finds it.
pub trait Keyed<K> {
    /// The key.
    ghost key_of: { Self → K };

    /// The key.
    fn key(&self) -> K
        ensures { result ≡ key_of self.now };
}

/// A list of values whose keys differ, in which a value is found by its key through an ordered map and not by a walk.
/// That the keys differ is what its calls ask of their caller. Contracts see it as the list of its values.
#[derive(Drop)]
pub struct KeyedList<K: Ord, V: Keyed<K>> {
    values: Vec<V>,
    numbers: BTreeMap<K, usize>,
}

impl<K: Ord, V: Keyed<K>> Model for KeyedList<K, V> {
    ghost use Rattle.std.specs.Prelude.{List as Items};
    ghost use Rattle.xet_base.specs.steps.KeyIndexes.{Numbers};

    ghost Value = { Items V };

    ghost view = { λ s. s.values.items };

    ghost invariant = { λ s. Numbers K.cmp V.key_of s.values.items s.numbers };
}

impl<K: Ord + Copy, V: Keyed<K>> KeyedList<K, V> {
    /// No values. It takes no memory.
    pub fn new(alloc: Global) -> KeyedList<K, V>
        ensures { result ≡ [] }
    {
        KeyedList {
            values: Vec::new(alloc),
            numbers: BTreeMap::new(alloc),
        }
    }

    /// The values, in the order in which they were added.
    pub fn as_slice(&self) -> &[V]
        ensures { result.now ≡ self.now }
    {
        self.values.as_slice()
    }

    /// How many values there are.
    pub fn len(&self) -> usize
        ensures { result ≡ length self.now }
    {
        self.values.len()
    }

    /// The place of the value whose key compares as equal to this one, counted from 0, or none where there is none.
    pub fn position(&self, key: &K) -> Option<usize>
        ensures { result ≡ position (λ v. is_eq (K.cmp (V.key_of v) key.now)) self.now }
    {
        self.numbers.get(key).copied()
    }

    /// The value whose key compares as equal to this one, or none where there is none.
    pub fn get(&self, key: &K) -> Option<&V>
        ensures { option_copied result ≡ find (λ v. is_eq (K.cmp (V.key_of v) key.now)) self.now }
    {
        let number = self.position(key)?;
        self.values.get(number)
    }

    /// Puts a value in the place of the one with the same key, which `position` tells, and gives that one back. It
    /// takes no memory.
    pub fn replace(&mut self, number: usize, value: V) -> V
        requires { position (λ v. is_eq (K.cmp (V.key_of v) (V.key_of value))) self.old ≡ Some number }
        ensures old { slice_get self.old number ≡ Some result }
        ensures list { self.new ≡ slice_set self.old number value }
    {
        mem::replace(&mut self.values[number], value)
    }
}

impl<K: Ord + Copy, V: Keyed<K> + Drop> KeyedList<K, V> {
    /// Adds a value at the end. The caller sees to it that its key is not there yet, as `position` tells.
    ///
    /// `OutOfMemory` where an allocation was refused, and then the list is as it was and the value is dropped.
    pub fn push(&mut self, value: V) -> Result<(), OutOfMemory>
        requires { position (λ v. is_eq (K.cmp (V.key_of v) (V.key_of value))) self.old ≡ None }
        ensures ok { OnOk result (self.new ≡ self.old ++ value ∷ []) }
        ensures err { OnErr result (self.new ≡ self.old) }
    {
        let number = self.values.len();
        self.values.reserve(1)?;
        if self.numbers.insert(value.key(), number).is_err() {
            return Err(OutOfMemory);
        }
        self.values.push_reserved(value);
        Ok(())
    }

    /// Adds a value at the end where no value has its key, and else drops it. Whether it was added. One walk down the
    /// map where the key is new, and two where it is there.
    ///
    /// `OutOfMemory` where an allocation was refused, and then the list is as it was and the value is dropped.
    pub fn push_new(&mut self, value: V) -> Result<bool, OutOfMemory>
        ensures new { IfOk result (λ added. added
            ≡ is_none (position (λ v. is_eq (K.cmp (V.key_of v) (V.key_of value))) self.old)) }
        ensures list { IfOk result (λ added. self.new ≡ cond added (self.old ++ value ∷ []) self.old) }
        ensures err { OnErr result (self.new ≡ self.old) }
    {
        let number = self.values.len();
        self.values.reserve(1)?;
        let key = value.key();
        let Ok(there) = self.numbers.insert(key, number) else {
            return Err(OutOfMemory);
        };
        let Some(found) = there else {
            self.values.push_reserved(value);
            return Ok(true);
        };
        if self.numbers.insert(key, found).is_err() {
            return Err(OutOfMemory);
        }
        Ok(false)
    }
}

impl<V: Keyed<MerkleHash>> KeyedList<MerkleHash, V> {
    /// The place of the value with this hash, counted from 0, or none where it is not there: `position`, said by the
    /// bytes and not by the order.
    pub fn number_of(&self, hash: &MerkleHash) -> Option<usize>
        ensures { result ≡ position (λ v. hash_eq (V.key_of v) hash.now) self.now }
    {
        self.position(hash)
    }

    /// The value with this hash, or none where it is not there: `get`, said by the bytes and not by the order.
    pub fn find(&self, hash: &MerkleHash) -> Option<&V>
        ensures { option_copied result ≡ find (λ v. hash_eq (V.key_of v) hash.now) self.now }
    {
        self.get(hash)
    }
}

impl<V: Keyed<MerkleHash> + Drop> KeyedList<MerkleHash, V> {
    /// Adds a value at the end: `push`, said by the bytes and not by the order. The caller sees to it that its hash is
    /// not there yet, as `find` tells.
    ///
    /// `OutOfMemory` where an allocation was refused, and then the list is as it was and the value is dropped.
    pub fn add(&mut self, value: V) -> Result<(), OutOfMemory>
        requires { find (λ v. hash_eq (V.key_of v) (V.key_of value)) self.old ≡ None }
        ensures ok { OnOk result (self.new ≡ self.old ++ value ∷ []) }
        ensures err { OnErr result (self.new ≡ self.old) }
    {
        self.push(value)
    }

    /// Adds a value at the end where no value has its hash, and else drops it. Whether it was added.
    ///
    /// `OutOfMemory` where an allocation was refused, and then the list is as it was and the value is dropped.
    pub fn add_new(&mut self, value: V) -> Result<bool, OutOfMemory>
        ensures new { IfOk result (λ added. added
            ≡ is_none (find (λ v. hash_eq (V.key_of v) (V.key_of value)) self.old)) }
        ensures list { IfOk result (λ added. self.new ≡ cond added (self.old ++ value ∷ []) self.old) }
        ensures err { OnErr result (self.new ≡ self.old) }
    {
        self.push_new(value)
    }
}
