//! An index that remembers its last look.
ghost use Rattle.std.specs.Prelude.{◌≡◌, ◌∷◌, ◌++◌, [], List, None, Some, length, position, OnOk, OnErr};
ghost use Rattle.std.specs.Ordering.{is_eq};
ghost use Rattle.xet_progress_state.specs.steps.Indexes.{Indexes};

use std::alloc::Global;
use std::collections::BTreeMap;
use xet_base::OutOfMemory;

/// The numbers of keys that differ: the first key, whose number is 0, the others in an ordered map, and the last key
/// that was looked up with its number, since one call looks for a key more than once. An index of one key has no map.
#[derive(Drop)]
pub(crate) struct Recent<K: Ord> {
    pub(crate) first: Option<K>,
    pub(crate) numbers: BTreeMap<K, usize>,
    pub(crate) last: Option<K>,
    pub(crate) number: Option<usize>,
}

impl<K: Ord + Copy> Recent<K> {
    /// No keys. It takes no memory.
    pub(crate) fn new(alloc: Global) -> Recent<K>
        ensures { Indexes K.cmp [] result }
    {
        Recent {
            first: None,
            numbers: BTreeMap::new(alloc),
            last: None,
            number: None,
        }
    }

    /// The number of a key, or none where it isn't there, without what is remembered.
    fn look(&self, key: &K) -> Option<usize>
        ensures { (keys : List K) → Indexes K.cmp keys self.now
            → result ≡ position (λ y. is_eq (K.cmp y key.now)) keys }
    {
        let Some(first) = self.first else {
            return self.numbers.get(key).copied();
        };
        if first.cmp(key).is_eq() {
            return Some(0);
        }
        self.numbers.get(key).copied()
    }

    /// The number of a key, or none where it isn't there.
    pub(crate) fn number_of(&self, key: &K) -> Option<usize>
        ensures { (keys : List K) → Indexes K.cmp keys self.now
            → result ≡ position (λ y. is_eq (K.cmp y key.now)) keys }
    {
        if let Some(last) = self.last {
            if last.cmp(key).is_eq() {
                return self.number;
            }
        }
        self.look(key)
    }

    /// Remembers the number of a key, for the looks after this one.
    pub(crate) fn remember(&mut self, key: &K)
        ensures { (keys : List K) → Indexes K.cmp keys self.old → Indexes K.cmp keys self.new }
    {
        let number = self.number_of(key);
        self.last = Some(*key);
        self.number = number;
    }

    /// Remembers the number that a key has, for the looks after this one.
    pub(crate) fn remember_at(&mut self, key: &K, number: usize)
        ensures { (keys : List K) → Indexes K.cmp keys self.old
            → position (λ y. is_eq (K.cmp y key.now)) keys ≡ Some number → Indexes K.cmp keys self.new }
    {
        self.last = Some(*key);
        self.number = Some(number);
    }

    /// The number after the one that is remembered, or 0.
    pub(crate) fn next(&self) -> usize {
        match self.number {
            Some(number) => number.saturating_add(1),
            None => 0,
        }
    }

    /// Adds a key that isn't there, with the number of keys before it.
    ///
    /// `OutOfMemory` where an allocation was refused.
    pub(crate) fn push(&mut self, key: K, number: usize) -> Result<(), OutOfMemory>
        ensures ok { OnOk result ((keys : List K) → Indexes K.cmp keys self.old → length keys ≡ number
            → position (λ y. is_eq (K.cmp y key)) keys ≡ None → Indexes K.cmp (keys ++ key ∷ []) self.new) }
        ensures err { OnErr result ((keys : List K) → Indexes K.cmp keys self.old → Indexes K.cmp keys self.new) }
    {
        if number == 0 {
            self.first = Some(key);
            self.last = Some(key);
            self.number = Some(0);
            return Ok(());
        }
        if self.numbers.insert(key, number).is_err() {
            return Err(OutOfMemory);
        }
        self.last = Some(key);
        self.number = Some(number);
        Ok(())
    }
}
