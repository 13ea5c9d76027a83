//! Two walks over the bytes of files, side by side.
ghost use Rattle.std.specs.Prelude.{◌+◌, ◌++◌, ◌<◌, ◌≡◌, ◌≢◌, ◌≤◌, ◌⊎◌, ◌↔◌, [], All, IfOk, IsTrue, List, OnOk};
ghost use Rattle.std.specs.Prelude.{length, ℕ};
ghost use Rattle.std.specs.Bool.{OnFalse, OnTrue};
ghost use Rattle.xet_base.specs.Store.{IsTermIn};
ghost use Rattle.xet_agree.specs.steps.Alike.{XorbsAgree, bytes_in};
ghost use Rattle.xet_agree.specs.steps.Walks.{AreAtSame, PassSame, left_of, to_do};

use crate::terms::{bytes_of, is_same};
use bytes::Bytes;
use xet_base::{OutOfMemory, StoredTerm};
use xet_store::MemStore;

/// A walk over the bytes of a file: how many of its terms were begun, and what is left of the last of these.
#[derive(Drop)]
pub(crate) struct Walk {
    pub(crate) begun: usize,
    pub(crate) rest: Bytes,
}

impl Walk {
    // At the file's start.
    fn new() -> Walk
        ensures begun { result.begun ≡ 0 }
        ensures rest { result.rest ≡ [] }
    {
        Walk {
            begun: 0,
            rest: Bytes::new(),
        }
    }

    // Whether all terms were begun and nothing is left of the last.
    fn is_done(&self, terms: &[StoredTerm]) -> bool
        ensures { IsTrue result ↔ ((length terms.now ≤ self.now.begun) × (length self.now.rest ≡ 0)) }
    {
        self.begun >= terms.len() && self.rest.is_empty()
    }

    // Begins the next term where nothing is left of the one before, and there is one.
    fn begin(&mut self, store: &MemStore, terms: &[StoredTerm]) -> Result<(), OutOfMemory>
        requires stored { All (IsTermIn store.now) terms.now }
        requires within { self.old.begun ≤ length terms.now }
        ensures left { OnOk result (left_of store.now terms.now self.new ≡ left_of store.now terms.now self.old) }
        ensures within { self.new.begun ≤ length terms.now }
        ensures begins { OnOk result ((self.new.begun ≡ self.old.begun + 1)
            ⊎ ((self.new ≡ self.old) × (0 < length self.new.rest))
            ⊎ ((self.new ≡ self.old) × (to_do store.now terms.now self.old ≡ 0))) }
    {
        if !self.rest.is_empty() || self.begun >= terms.len() {
            return Ok(());
        }
        self.rest = bytes_of(store, &terms[self.begun])?;
        self.begun += 1;
        Ok(())
    }
}

// Whether both walks are about to begin a term, which is the same. Some such pairs may be told as others.
fn are_at_same(a: &[StoredTerm], b: &[StoredTerm], at_a: &Walk, at_b: &Walk) -> bool
    ensures { OnTrue result (AreAtSame a.now b.now at_a.now at_b.now) }
{
    if !at_a.rest.is_empty() || !at_b.rest.is_empty() {
        return false;
    }
    match (a.get(at_a.begun), b.get(at_b.begun)) {
        (Some(first), Some(second)) => is_same(first, second),
        _ => false,
    }
}

// Passes as many bytes as both walks have of the terms that they began, where these are equal in both. Whether they
// are; where not, the walks are as before.
fn pass_bytes(at_a: &mut Walk, at_b: &mut Walk) -> bool
    ensures same { OnTrue result (PassSame at_a.old.rest at_a.new.rest at_b.old.rest at_b.new.rest) }
    ensures count { OnTrue result ((length at_a.old.rest ≡ 0) ⊎ (length at_b.old.rest ≡ 0)
        ⊎ (length at_a.new.rest < length at_a.old.rest)) }
    ensures other { OnFalse result ((x y : List ℕ) → at_a.old.rest ++ x ≢ at_b.old.rest ++ y) }
    ensures begun { (at_a.new.begun ≡ at_a.old.begun) × (at_b.new.begun ≡ at_b.old.begun) }
{
    let count = at_a.rest.len().min(at_b.rest.len());
    let first = &at_a.rest.as_slice()[..count];
    let second = &at_b.rest.as_slice()[..count];
    if first != second {
        return false;
    }
    at_a.rest.advance(count);
    at_b.rest.advance(count);
    true
}

// Passes the next term where both walks are about to begin the same one, and else as many bytes as both have of the
// terms that they began. Whether what was passed is equal in both.
fn pass(
    s: &MemStore,
    a: &[StoredTerm],
    t: &MemStore,
    b: &[StoredTerm],
    at_a: &mut Walk,
    at_b: &mut Walk,
) -> Result<bool, OutOfMemory>
    requires first { All (IsTermIn s.now) a.now }
    requires second { All (IsTermIn t.now) b.now }
    requires xorbs { XorbsAgree s.now t.now }
    requires first_within { at_a.old.begun ≤ length a.now }
    requires second_within { at_b.old.begun ≤ length b.now }
    ensures same { IfOk result (λ same. OnTrue same (PassSame (left_of s.now a.now at_a.old)
        (left_of s.now a.now at_a.new) (left_of t.now b.now at_b.old) (left_of t.now b.now at_b.new))) }
    ensures other { IfOk result (λ same. OnFalse same (left_of s.now a.now at_a.old ≢ left_of t.now b.now at_b.old)) }
    ensures first_within { at_a.new.begun ≤ length a.now }
    ensures second_within { at_b.new.begun ≤ length b.now }
    ensures goes { IfOk result (λ same. OnTrue same (0 < to_do s.now a.now at_a.old
        → length (left_of s.now a.now at_a.old) ≡ length (left_of t.now b.now at_b.old)
        → to_do s.now a.now at_a.new + to_do t.now b.now at_b.new
        < to_do s.now a.now at_a.old + to_do t.now b.now at_b.old)) }
{
    if are_at_same(a, b, at_a, at_b) {
        at_a.begun += 1;
        at_b.begun += 1;
        return Ok(true);
    }
    at_a.begin(s, a)?;
    at_b.begin(t, b)?;
    Ok(pass_bytes(at_a, at_b))
}

/// Whether terms of two stores have equal bytes, of which there are equally many.
///
/// A stretch in which both have the same term at one place is passed without a look at its bytes.
pub(crate) fn have_same_bytes(
    s: &MemStore,
    a: &[StoredTerm],
    t: &MemStore,
    b: &[StoredTerm],
) -> Result<bool, OutOfMemory>
    requires first { All (IsTermIn s.now) a.now }
    requires second { All (IsTermIn t.now) b.now }
    requires xorbs { XorbsAgree s.now t.now }
    requires count { length (bytes_in s.now a.now) ≡ length (bytes_in t.now b.now) }
    ensures { IfOk result (λ same. IsTrue same ↔ (bytes_in s.now a.now ≡ bytes_in t.now b.now)) }
{
    let mut at_a = Walk::new();
    let mut at_b = Walk::new();
    'walks: while !at_a.is_done(a) {
        if !pass(s, a, t, b, &mut at_a, &mut at_b)? {
            return Ok(false);
        }
    }
    Ok(true)
}
