//! The places of a block's chunks.
ghost use Rattle.std.specs.Prelude.{◌≡◌, ◌-◌, ◌≤◌, length, map, slice_get, slice_range, IfOk};
ghost use Rattle.std.specs.Arc.{arc_value};

use std::alloc::Global;
use std::marker::Model;
use std::sync::Arc;
use xet_base::OutOfMemory;

/// The place of each chunk's first byte in a block's bytes, in order. Contracts see it as the list of these places.
/// Copies share memory, and so do the blocks that are cut from one xorb.
///
/// In the Rust crates: the chunk offsets of a block, a `Vec<u32>`.
#[derive(Drop)]
pub struct Offsets {
    // places, of which those from number `start` to before number `end` are meant
    places: Arc<Vec<u32>>,
    start: usize,
    end: usize,
    // what is taken from each of them
    base: u32,
}

impl Model for Offsets {
    ghost use Rattle.std.specs.Prelude.{◌-◌, ◌≤◌, ℕ, List, length};
    ghost use Rattle.std.specs.Arc.{arc_value};
    ghost use Rattle.xet_outside.specs.Offsets.{places_after};

    ghost Value = { List ℕ };

    ghost view = { λ o. places_after o.base (arc_value o.places).items o.start o.end };

    ghost invariant = { λ o. (o.start ≤ o.end) × (o.end ≤ length (arc_value o.places).items) };
}

impl Offsets {
    ghost use Rattle.xet_outside.specs.Offsets.{places_after};

    /// The places of a vector. `OutOfMemory` where memory to share them was refused.
    pub fn from_vec(alloc: Global, places: Vec<u32>) -> Result<Offsets, OutOfMemory>
        ensures { IfOk result (λ offsets. offsets ≡ places.items) }
    {
        let end = places.len();
        let places = Arc::new(alloc, places)?;
        Ok(Offsets {
            places,
            start: 0,
            end,
            base: 0,
        })
    }

    /// Of shared places those from number `start` to before number `end`, each less `base`, and none below 0. It takes
    /// no memory.
    pub fn of_shared(places: Arc<Vec<u32>>, start: usize, end: usize, base: u32) -> Offsets
        requires order { start ≤ end }
        requires inside { end ≤ length (arc_value places).items }
        ensures { result ≡ places_after base (arc_value places).items start end }
    {
        Offsets {
            places,
            start,
            end,
            base,
        }
    }

    /// The same places. They share memory. Want of memory is the only error.
    pub fn copied(&self) -> Result<Offsets, OutOfMemory>
        ensures { IfOk result (λ copy. copy ≡ self.now) }
    {
        Ok(Offsets {
            places: Arc::try_clone(&self.places)?,
            start: self.start,
            end: self.end,
            base: self.base,
        })
    }

    /// Numbers, and what is to be taken from each of them, but for those below it, which stand for 0.
    pub fn as_parts(&self) -> (&[u32], u32)
        ensures { self.now ≡ map (λ p. p - result.1) result.0.now }
    {
        (&self.places[self.start..self.end], self.base)
    }

    /// How many places there are.
    pub fn len(&self) -> usize
        ensures { result ≡ length self.now }
    {
        self.end - self.start
    }

    /// The place of this number, where there is one.
    pub fn get(&self, number: usize) -> Option<u32>
        ensures { result ≡ slice_get self.now number }
    {
        if number < self.len() {
            Some(self.places[self.start + number].saturating_sub(self.base))
        } else {
            None
        }
    }

    /// The places, in memory of their own, which was refused where the answer is `OutOfMemory`.
    pub fn to_vec(&self, alloc: Global) -> Result<Vec<u32>, OutOfMemory>
        ensures { IfOk result (λ places. places.items ≡ self.now) }
    {
        let (places, base) = self.as_parts();
        let mut own = Vec::with_capacity(alloc, places.len())?;
        for place in places {
            own.push(place.saturating_sub(base))?;
        }
        Ok(own)
    }
}
