//! Values that wait, of which the first with a key is found without a walk.
ghost use Rattle.std.specs.Prelude.{◌≡◌, [], ◌∷◌, ◌++◌, OnErr, OnOk, length, slice_get};
ghost use Rattle.std.specs.Option.{option_copied};
ghost use Rattle.xet_queue.specs.Waits.{first_with, without_first};
ghost use Rattle.xet_queue.specs.steps.Indexed.{IsFirstNumber};

use std::alloc::Global;
use std::collections::BTreeMap;
use std::marker::Model;
use xet_base::{Keyed, OutOfMemory};

/// Values in the order in which they came, and an index of their keys, of which several values may have the same.
/// Contracts see the list of the values.
#[derive(Drop)]
pub(crate) struct Waiting<V: Keyed<u64>> {
    // the values, by the numbers under which they came
    values: BTreeMap<u64, V>,
    // each value's key and number
    index: BTreeMap<(u64, u64), ()>,
    // above each number
    next: u64,
}

impl<V: Keyed<u64>> Model for Waiting<V> {
    ghost use Rattle.std.specs.Map.{values_of};
    ghost use Rattle.std.specs.Prelude.{◌≡◌, List as Items, true};
    ghost use Rattle.xet_queue.specs.steps.Indexed.{Tied, all_below};

    ghost Value = { Items V };

    ghost view = { λ w. values_of w.values.entries };

    ghost invariant = { λ w. (all_below w.next w.values.entries ≡ true) × Tied V.key_of w.values w.index };
}

/// The least number of a value with this key.
fn first_number(index: &BTreeMap<(u64, u64), ()>, key: u64) -> Option<u64>
    ensures { IsFirstNumber index.now key result }
{
    match index.range((key, 0u64)..).next() {
        Some((&(found, number), _)) if found == key => Some(number),
        _ => None,
    }
}

impl<V: Keyed<u64>> Waiting<V> {
    /// No values. It takes no memory.
    pub(crate) fn new(alloc: Global) -> Waiting<V>
        ensures { result ≡ [] }
    {
        Waiting {
            values: BTreeMap::new(alloc),
            index: BTreeMap::new(alloc),
            next: 0,
        }
    }

    /// How many values wait.
    pub(crate) fn len(&self) -> usize
        ensures { result ≡ length self.now }
    {
        self.values.len()
    }

    /// The oldest value.
    pub(crate) fn first(&self) -> Option<&V>
        ensures { option_copied result ≡ slice_get self.now 0 }
    {
        match self.values.first_key_value() {
            Some((_, value)) => Some(value),
            None => None,
        }
    }

    /// The oldest value with this key.
    pub(crate) fn find(&self, key: u64) -> Option<&V>
        ensures { option_copied result ≡ first_with V.key_of key self.now }
    {
        let _len = self.values.len();
        let number = first_number(&self.index, key)?;
        self.values.get(&number)
    }
}

impl<V: Keyed<u64> + Drop> Waiting<V> {
    /// Adds a value. `OutOfMemory` where an allocation was refused, or where 2^64 - 1 values came before.
    pub(crate) fn add(&mut self, value: V) -> Result<(), OutOfMemory>
        ensures ok { OnOk result (self.new ≡ self.old ++ value ∷ []) }
        ensures err { OnErr result (self.new ≡ self.old) }
    {
        let number = self.next;
        let Some(next) = number.checked_add(1) else {
            return Err(OutOfMemory);
        };
        let spot = (value.key(), number);
        if self.index.insert(spot, ()).is_err() {
            return Err(OutOfMemory);
        }
        if self.values.insert(number, value).is_err() {
            let _ = self.index.remove(&spot);
            return Err(OutOfMemory);
        }
        self.next = next;
        Ok(())
    }

    /// Takes out the oldest value with this key.
    pub(crate) fn take(&mut self, key: u64) -> Option<V>
        ensures value { result ≡ first_with V.key_of key self.old }
        ensures rest { self.new ≡ without_first V.key_of key self.old }
    {
        let _len = self.values.len();
        let number = first_number(&self.index, key)?;
        let _ = self.index.remove(&(key, number));
        self.values.remove(&number)
    }
}
