//! The numbers and places of a block's chunks.
ghost use Rattle.std.specs.Prelude.{◌≡◌, ◌+◌, ◌-◌, ◌^◌, ◌<◌, ◌≤◌, ℕ, All, IfOk, length, map, min, slice_get};
ghost use Rattle.xet_offers.specs.ChunkOffsets.{run};

use std::alloc::Global;
use std::marker::Model;
use xet_base::{List, OutOfMemory};
use xet_outside::Offsets;

/// For each chunk of a block, in order: its number in the xorb, and the place of its first byte in the block. Contracts
/// see it as the list of these pairs. Of chunks whose numbers follow one another the numbers are not written down, and
/// the places are shared with the answer that they came with.
#[derive(Drop)]
pub struct ChunkOffsets {
    chunks: Chunks,
}

/// How the pairs are kept.
#[derive(Drop)]
enum Chunks {
    /// The number of the first chunk, from which the others count on, and the places.
    Run(u32, Offsets),
    /// Each number and place.
    Pairs(List<(usize, usize)>),
}

impl Model for ChunkOffsets {
    ghost use Rattle.std.specs.Prelude.{ℕ, List};

    ghost Value = { List (ℕ × ℕ) };

    ghost use Rattle.xet_offers.specs.ChunkOffsets.{AreNumbers, pairs_of};

    ghost view = { λ c. pairs_of c.chunks };

    ghost invariant = { λ c. AreNumbers c.chunks };
}

impl ChunkOffsets {
    /// Each chunk's number and place as a vector has them. It takes no memory.
    pub fn from_vec(pairs: Vec<(usize, usize)>) -> ChunkOffsets
        ensures { result ≡ pairs.items }
    {
        ChunkOffsets {
            chunks: Chunks::Pairs(List::from_vec(pairs)),
        }
    }

    /// Chunks at these places, whose numbers count on from that of the first one and are below 2^32. It takes no
    /// memory.
    pub fn of_run(first: u32, places: Offsets) -> ChunkOffsets
        requires { first + length places ≤ 2 ^ 32 }
        ensures { result ≡ run first places }
    {
        ChunkOffsets {
            chunks: Chunks::Run(first, places),
        }
    }

    /// How many chunks there are.
    pub fn len(&self) -> usize
        ensures { result ≡ length self.now }
    {
        match &self.chunks {
            Chunks::Run(_, places) => places.len(),
            Chunks::Pairs(pairs) => pairs.len(),
        }
    }

    /// The number and the place of the chunk at this place in the order, where there is one.
    pub fn get(&self, index: usize) -> Option<(usize, usize)>
        ensures { result ≡ slice_get self.now index }
    {
        match &self.chunks {
            Chunks::Run(first, places) => {
                let place = places.get(index)?;
                Some((*first as usize + index, place as usize))
            }
            Chunks::Pairs(pairs) => pairs.as_slice().get(index).copied(),
        }
    }

    /// The places alone, where one over `u32::MAX`, which no answer has, is that number. They share memory where the
    /// numbers follow one another, and have memory of their own else. `OutOfMemory` where memory was refused.
    pub fn offsets(&self, alloc: Global) -> Result<Offsets, OutOfMemory>
        ensures { IfOk result (λ places. places ≡ map (λ (c : ℕ × ℕ). min c.1 (2 ^ 32 - 1)) self.now) }
    {
        match &self.chunks {
            Chunks::Run(_, places) => {
                are_small(places);
                places.copied()
            }
            Chunks::Pairs(pairs) => Offsets::from_vec(alloc, places_of(alloc, pairs.as_slice())?),
        }
    }
}

/// Places of a block are numbers of 32 bits.
fn are_small(places: &Offsets)
    ensures { All (λ p. p < 2 ^ 32) places.now }
{
    let (numbers, _) = places.as_parts();
    have_32_bits(numbers);
}

/// Numbers of 32 bits are below 2^32.
fn have_32_bits(numbers: &[u32])
    ensures { All (λ n. n < 2 ^ 32) numbers.now }
{
    let _ = numbers.len();
}

/// The places of some pairs, where one over `u32::MAX` is that number.
fn places_of(alloc: Global, pairs: &[(usize, usize)]) -> Result<Vec<u32>, OutOfMemory>
    ensures { IfOk result (λ places. places.items ≡ map (λ (c : ℕ × ℕ). min c.1 (2 ^ 32 - 1)) pairs.now) }
{
    let mut places = Vec::with_capacity(alloc, pairs.len())?;
    for (_, place) in pairs {
        places.push_reserved((*place).min(u32::MAX as usize) as u32);
    }
    Ok(places)
}
