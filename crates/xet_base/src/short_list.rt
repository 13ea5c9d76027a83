//! A list with room for one item in itself.
ghost use Rattle.std.specs.Prelude.{◌≡◌, [], ◌∷◌, ◌++◌, length, IfOk, OnOk, OnErr};

use crate::error::OutOfMemory;
use std::alloc::Global;
use std::marker::Model;

/// A growing list that takes no memory of its own while it has one item or none. Contracts see it as the list of its
/// items.
///
/// For lists of which a program holds many and which seldom have two items, as the ranges of a block.
#[derive(Drop)]
pub struct ShortList<T> {
    kept: Kept<T>,
}

/// Where the items are.
#[derive(Drop, Debug)]
enum Kept<T> {
    Empty,
    One([T; 1]),
    Many(Vec<T>),
}

impl<T> Model for ShortList<T> {
    ghost use Rattle.std.specs.Prelude.{List as Items};
    ghost use Rattle.xet_base.specs.steps.ShortLists.{kept_items};

    ghost Value = { Items T };

    ghost view = { λ l. kept_items l.kept };
}

impl<T> ShortList<T> {
    /// An empty list.
    pub fn new() -> ShortList<T>
        ensures { result ≡ [] }
    {
        ShortList { kept: Kept::Empty }
    }

    /// The list of one item.
    pub fn of_one(item: T) -> ShortList<T>
        ensures { result ≡ item ∷ [] }
    {
        ShortList {
            kept: Kept::One([item]),
        }
    }

    /// The list of a vector's items. It takes no memory.
    pub fn from_vec(items: Vec<T>) -> ShortList<T>
        ensures { result ≡ items.items }
    {
        ShortList {
            kept: Kept::Many(items),
        }
    }

    /// The items, in order.
    pub fn as_slice(&self) -> &[T]
        ensures { result.now ≡ self.now }
    {
        match &self.kept {
            Kept::Empty => &[],
            Kept::One(item) => item.as_slice(),
            Kept::Many(items) => items.as_slice(),
        }
    }

    /// How many items there are.
    pub fn len(&self) -> usize
        ensures { result ≡ length self.now }
    {
        self.as_slice().len()
    }
}

impl<T: Copy + Drop> ShortList<T> {
    /// Adds an item at the end.
    ///
    /// `OutOfMemory` where an allocation was refused, and then the list is as it was.
    pub fn push(&mut self, alloc: Global, item: T) -> Result<(), OutOfMemory>
        ensures ok { OnOk result (self.new ≡ self.old ++ item ∷ []) }
        ensures err { OnErr result (self.new ≡ self.old) }
    {
        if let Kept::Many(items) = &mut self.kept {
            items.push(item)?;
            return Ok(());
        }
        self.kept = match &self.kept {
            Kept::One([first]) => Kept::Many(both(alloc, *first, item)?),
            _ => Kept::One([item]),
        };
        Ok(())
    }
}

/// A vector of two items.
fn both<T: Drop>(alloc: Global, first: T, second: T) -> Result<Vec<T>, OutOfMemory>
    ensures { IfOk result (λ v. v.items ≡ first ∷ second ∷ []) }
{
    let mut items = Vec::new(alloc);
    items.reserve_exact(2)?;
    items.push(first)?;
    items.push(second)?;
    Ok(items)
}

impl<T: Copy> ShortList<T> {
    /// A list of the same items in the same order, with memory of its own where it needs any.
    ///
    /// `OutOfMemory` where that memory was refused.
    pub fn copied(&self, alloc: Global) -> Result<ShortList<T>, OutOfMemory>
        ensures { IfOk result (λ copy. copy ≡ self.now) }
    {
        match &self.kept {
            Kept::Empty => Ok(ShortList::new()),
            Kept::One([item]) => Ok(ShortList::of_one(*item)),
            Kept::Many(items) => Ok(ShortList::from_vec(Vec::from_slice(alloc, items.as_slice())?)),
        }
    }
}
