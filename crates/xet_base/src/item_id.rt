//! The ids of the items of a progress group.
ghost use Rattle.std.specs.Prelude.{◌≡◌, ◌↔◌, ◌+◌, ◌-◌, ◌^◌, IfOk, IfErr, IsErr};
ghost use Rattle.xet_base.specs.declared.invalid.Invalid.TheVariants as invalid;

use crate::invalid::Invalid;
use std::marker::Model;

/// The id of an item of a progress group. Ids are ordered by their numbers.
///
/// In the Rust crates: `progress_tracking::UniqueID`, which is drawn at random there.
#[derive(Clone, Copy, PartialEq, Eq, PartialOrd, Ord, Debug)]
pub struct UniqueID(pub u64);

/// A source of ids, which gives each number once, in order. Contracts see it as the number of the next id.
///
/// The Rust crates have no such type: there an id is drawn at random.
#[derive(Drop)]
pub struct IdSource {
    next: u64,
}

impl Model for IdSource {
    ghost use Rattle.std.specs.Prelude.{ℕ};
    ghost use Rattle.std.specs.Coded.{coded_ℕ};

    ghost Value = { ℕ };

    ghost coded = { coded_ℕ };

    ghost view = { λ s. s.next };
}

impl IdSource {
    /// A source whose first id has this number.
    pub fn new(first: u64) -> IdSource
        ensures { result ≡ first }
    {
        IdSource { next: first }
    }

    /// The next id, which is not given again. It takes no memory.
    ///
    /// `IdsUsedUp` exactly where the next id's number would be `u64::MAX`, which is none's, and then the source is as
    /// it was.
    pub fn next(&mut self) -> Result<UniqueID, Invalid>
        ensures ok { IfOk result (λ id. (id ≡ record { 0 = self.old }) × (self.new ≡ self.old + 1)) }
        ensures err { IfErr result (λ why. (why ≡ invalid.IdsUsedUp) × (self.new ≡ self.old)) }
        ensures used_up { IsErr result ↔ (self.old ≡ 2 ^ 64 - 1) }
    {
        if self.next == u64::MAX {
            return Err(Invalid::IdsUsedUp);
        }
        let id = UniqueID(self.next);
        self.next += 1;
        Ok(id)
    }
}
