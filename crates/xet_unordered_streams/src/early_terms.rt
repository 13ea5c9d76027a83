//! Terms that were given before a term that comes before them.
ghost use Rattle.std.specs.Prelude.{ℕ, ◌≡◌, ◌<◌, ◌==◌, OnErr, OnOk, cond, false, length, slice_index_or, true};
ghost use Rattle.xet_unordered_streams.specs.Placing.{is_early};

use std::alloc::{AllocError, Global};

/// Terms of which an item was given ahead of a term that comes before them, by their numbers among all planned ones.
/// They stay when they are recorded as written.
#[derive(Drop)]
pub struct EarlyTerms {
    // by its number whether a term is one, up to the last one
    pub given: Vec<bool>,
}

impl EarlyTerms {
    /// No terms. It takes no memory.
    pub(crate) fn new(alloc: Global) -> EarlyTerms
        ensures { (n : ℕ) → is_early result n ≡ false }
    {
        EarlyTerms {
            given: Vec::new(alloc),
        }
    }

    /// Whether the term of this number is among them.
    pub(crate) fn has(&self, number: u64) -> bool
        ensures { result ≡ is_early self.now number }
    {
        mark_of(self.given.as_slice(), number as usize)
    }

    /// Adds the term of this number, in constant time, amortized over the terms up to it. Whether there was memory for
    /// it; else they are as before.
    pub(crate) fn add(&mut self, number: u64) -> bool
        ensures added { result ≡ true → (n : ℕ) → is_early self.new n ≡ cond (number == n) true (is_early self.old n) }
        ensures kept { result ≡ false → (n : ℕ) → is_early self.new n ≡ is_early self.old n }
    {
        match set(&mut self.given, number as usize) {
            Ok(()) => true,
            Err(_) => false,
        }
    }
}

/// The mark of a number; none is set past the end.
fn mark_of(given: &[bool], at: usize) -> bool
    ensures { result ≡ slice_index_or given.now at false }
{
    if at >= given.len() {
        return false;
    }
    given[at]
}

/// Makes so many marks that a number has one.
fn reach(given: &mut Vec<bool>, at: usize) -> Result<(), AllocError>
    ensures same { (n : ℕ) → slice_index_or given.new.items n false ≡ slice_index_or given.old.items n false }
    ensures long { OnOk result (at < length given.new.items) }
{
    while given.len() <= at {
        if given.push(false).is_err() {
            return Err(AllocError);
        }
    }
    Ok(())
}

/// Sets the mark of a number.
fn set(given: &mut Vec<bool>, at: usize) -> Result<(), AllocError>
    ensures ok { OnOk result ((n : ℕ) → slice_index_or given.new.items n false
        ≡ cond (at == n) true (slice_index_or given.old.items n false)) }
    ensures err { OnErr result ((n : ℕ) → slice_index_or given.new.items n false
        ≡ slice_index_or given.old.items n false) }
{
    reach(given, at)?;
    given[at] = true;
    Ok(())
}
