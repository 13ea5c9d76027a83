//! Which chunks of a xorb its terms hold.
ghost use Rattle.std.specs.Prelude.{◌≡◌, ◌<◌, IfOk, length, max, replicate, slice_index, slice_set};

use std::alloc::Global;
use std::marker::Model;
use xet_base::OutOfMemory;

/// How far the terms of a xorb reach: for each chunk the number after the greatest of the terms that begin with it, and
/// 0 where none does. A term costs one comparison, however many chunks it has. Contracts see it as the list of these
/// numbers.
#[derive(Drop)]
pub struct Reach {
    ends: Vec<u32>,
}

impl Model for Reach {
    ghost use Rattle.std.specs.Prelude.{ℕ, List as Items};

    ghost Value = { Items ℕ };

    ghost view = { λ r. r.ends.items };
}

impl Reach {
    /// That of no terms, for a xorb with so many chunks.
    pub fn of_none(alloc: Global, chunk_count: usize) -> Result<Reach, OutOfMemory>
        ensures { IfOk result (λ r. r ≡ replicate chunk_count 0) }
    {
        let ends = vec![in alloc; 0u32; chunk_count]?;
        Ok(Reach { ends })
    }

    /// One term more, of the chunks from number `from` to before number `to`.
    pub fn extend(&mut self, from: u32, to: u32)
        requires { from < length self.old }
        ensures { self.new ≡ slice_set self.old from (max (slice_index self.old from) to) }
    {
        let place = from as usize;
        self.ends[place] = self.ends[place].max(to);
    }

    /// The numbers.
    pub fn ends(&self) -> &[u32]
        ensures { result.now ≡ self.now }
    {
        self.ends.as_slice()
    }
}
