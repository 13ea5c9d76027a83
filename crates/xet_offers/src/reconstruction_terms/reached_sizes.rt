//! Where chains of terms lead, and how many bytes they have up to there.
ghost use Rattle.std.specs.Prelude.{◌≡◌, ◌+◌, ◌^◌, ◌<◌, ◌∷◌, [], ℕ, None, Some, IfOk, OnOk, map, nat_eq, nat_lt, sum};
ghost use Rattle.std.specs.Prelude.{true, false};
ghost use Rattle.std.specs.List.Sorted.{IsPartitionPoint};
ghost use Rattle.xet_base.specs.Lists.{first_some};
ghost use Rattle.xet_base.specs.Ranges.{Ascend};
ghost use Rattle.xet_offers.specs.Chain.{last_end, sum_by_term};
ghost use Rattle.xet_offers.specs.steps.Reached.{bridge_of, reached_here, sum_of};

use crate::reconstruction_terms::xorb_block::XorbReference;
use std::alloc::Global;
use std::collections::BTreeMap;
use xet_base::{ChunkRange, OutOfMemory};

/// The chunks that chains of terms have reached, each with how many bytes come before it. The first sum that is found
/// counts.
#[derive(Drop)]
pub(crate) struct ReachedSizes {
    sums: BTreeMap<u32, usize>,
}

impl ReachedSizes {
    /// The first chunk alone, with no bytes before it.
    pub(crate) fn new(alloc: Global, first: u32) -> Result<ReachedSizes, OutOfMemory>
        ensures { IfOk result (λ made. (p : ℕ) → sum_of made p ≡ reached_here first 0 p) }
    {
        let mut made = ReachedSizes {
            sums: BTreeMap::new(alloc),
        };
        made.reach(first, 0)?;
        Ok(made)
    }

    /// How many bytes come before a chunk, where it is reached.
    pub(crate) fn sum(&self, place: u32) -> Option<usize>
        ensures { result ≡ sum_of self.now place }
    {
        self.sums.get(&place).copied()
    }

    /// Adds a chunk, unless it is there.
    fn reach(&mut self, place: u32, sum: usize) -> Result<(), OutOfMemory>
        ensures { OnOk result ((p : ℕ) →
            sum_of self.new p ≡ first_some (sum_of self.old p ∷ reached_here place sum p ∷ [])) }
    {
        if self.sums.get(&place).is_none() {
            self.sums.insert(place, sum)?;
        }
        Ok(())
    }

    /// Adds the chunks to which a term leads, where its first one is reached.
    pub(crate) fn follow(
        &mut self,
        ranges: &[ChunkRange],
        term: &XorbReference,
    ) -> Result<(), OutOfMemory>
        requires ascend { Ascend 0 (last_end ranges.now) ranges.now }
        requires fits { (n : ℕ) → sum_of self.old term.now.term_chunks.start ≡ Some n
            → term.now.uncompressed_size + n < 2 ^ 64 }
        ensures { OnOk result ((p : ℕ) → sum_of self.new p
            ≡ first_some (sum_of self.old p ∷ sum_by_term ranges.now (sum_of self.old) p term.now ∷ [])) }
    {
        let chunks = term.term_chunks;
        if let Some(before) = self.sum(chunks.start) {
            let sum = term.uncompressed_size + before;
            self.reach(chunks.end, sum)?;
            if let Some(next) = bridge_of(ranges, chunks.end) {
                self.reach(next, sum)?;
            }
        }
        Ok(())
    }
}

/// How many ranges end before a chunk, of ranges that ascend.
fn count_before(ranges: &[ChunkRange], chunk: u32) -> usize
    requires { Ascend 0 (last_end ranges.now) ranges.now }
    ensures { IsPartitionPoint (λ r. nat_lt r.end chunk ≡ true) (λ r. nat_lt r.end chunk ≡ false) ranges.now result }
{
    ranges.partition_point(|range| range.end < chunk)
}

/// The start of the range after the one that ends here, where it is greater. The ranges ascend.
fn bridge_of(ranges: &[ChunkRange], end: u32) -> Option<u32>
    requires { Ascend 0 (last_end ranges.now) ranges.now }
    ensures { result ≡ bridge_of ranges.now end }
{
    let number = count_before(ranges, end);
    let range = ranges.get(number)?;
    let next = ranges.get(number + 1)?;
    (range.end == end && end < next.start).then_some(next.start)
}

/// Whether the sum of the terms' sizes is a `usize`.
pub(crate) fn sizes_fit(terms: &[XorbReference]) -> bool
    ensures { result ≡ nat_lt (sum (map (λ t. t.uncompressed_size) terms.now)) (2 ^ 64) }
{
    let mut total = 0usize;
    for term in terms {
        match total.checked_add(term.uncompressed_size) {
            Some(next) => total = next,
            None => return false,
        }
    }
    true
}
