//! Terms of a file, of which the last may go on.
ghost use Rattle.std.specs.Prelude.{◌≡◌, ◌+◌, ◌++◌, ◌<◌, ◌≤◌, ◌^◌, [], IfOk, IsTrue, OnErr, OnOk, length, map, take};
ghost use Rattle.std.specs.Option.{option_to_list};
ghost use Rattle.xet_upload.specs.FileDatas.{renamed};
ghost use Rattle.xet_upload.specs.Standing.{Added, GoesOn, IsContinued, continue};

use std::alloc::Global;
use std::marker::Model;
use xet_base::{List, MerkleHash, OutOfMemory};
use xet_waiting::{TermXorb, WaitingTerm};

/// Terms in the order of a file. The last one goes on while chunks follow it in its xorb. Contracts see the list.
#[derive(Drop)]
pub struct OpenTerms {
    closed: Vec<WaitingTerm>,
    last: Option<WaitingTerm>,
    // how many of the closed terms were named, and count in no waiting chunks
    named: usize,
}

impl Model for OpenTerms {
    ghost use Rattle.std.specs.Prelude.{◌≡◌, ◌≤◌, List as Items, [], ◌++◌, None, length, map, take};
    ghost use Rattle.std.specs.Option.{option_to_list};
    ghost use Rattle.xet_base.specs.declared.merklehash.MerkleHash.{MerkleHash as Hash};
    ghost use Rattle.xet_waiting.specs.declared.waiting.WaitingTerm.{WaitingTerm as Term};
    ghost use Rattle.xet_upload.specs.FileDatas.{renamed};

    ghost Value = { Items Term };

    ghost view = { λ t. t.closed.items ++ option_to_list t.last };

    ghost invariant = { λ t. (t.last ≡ None → t.closed.items ≡ []) × (t.named ≤ length t.closed.items)
        × ((h : Hash) → map (renamed h) (take t.named t.closed.items) ≡ take t.named t.closed.items) };
}

impl OpenTerms {
    /// No terms. It takes no memory.
    pub fn new(alloc: Global) -> OpenTerms
        ensures { result ≡ [] }
    {
        OpenTerms {
            closed: Vec::new(alloc),
            last: None,
            named: 0,
        }
    }

    /// Adds a term, by which the last one goes on where its chunks follow and the bytes of both are below 2^32.
    ///
    /// `OutOfMemory` where an allocation was refused, and then the terms are as they were.
    pub fn add(&mut self, term: WaitingTerm) -> Result<(), OutOfMemory>
        ensures ok { OnOk result (Added self.old term self.new) }
        ensures joined { OnOk result (GoesOn self.old term → length self.new ≡ length self.old) }
        ensures err { OnErr result (self.new ≡ self.old) }
    {
        match self.last {
            None => self.last = Some(term),
            Some(last) => {
                if goes_on(&last, &term) {
                    self.last = Some(continued(&last, &term));
                } else {
                    self.closed.push(last)?;
                    self.last = Some(term);
                }
            }
        }
        Ok(())
    }

    /// The terms, of which the last stands apart, since it may go on.
    pub fn split(&self) -> (&[WaitingTerm], Option<WaitingTerm>)
        ensures { self.now ≡ result.0.now ++ option_to_list result.1 }
    {
        (self.closed.as_slice(), self.last)
    }

    /// The terms as a list. `OutOfMemory` where an allocation was refused.
    pub fn into_list(self) -> Result<List<WaitingTerm>, OutOfMemory>
        ensures { IfOk result (λ terms. terms ≡ self) }
    {
        let mut terms = self.closed;
        if let Some(last) = self.last {
            terms.push(last)?;
        }
        Ok(List::from_vec(terms))
    }

    /// Names the xorb that the waiting chunks became, in the terms since the last call.
    pub fn name_own(&mut self, hash: MerkleHash)
        ensures { self.new ≡ map (renamed hash) self.old }
    {
        name_rest(self.closed.as_mut_slice(), self.named, hash);
        self.named = self.closed.len();
        if let Some(last) = self.last {
            self.last = Some(renamed(&last, hash));
        }
    }
}

// Whether the chunks of the second term follow those of the first in one xorb, and the bytes of both fit.
fn goes_on(last: &WaitingTerm, term: &WaitingTerm) -> bool
    ensures is { IsTrue result → IsContinued last.now term.now }
    ensures fits { IsTrue result → last.now.bytes + term.now.bytes < 2 ^ 32 }
    ensures all { IsContinued last.now term.now → last.now.bytes + term.now.bytes < 2 ^ 32 → IsTrue result }
{
    last.xorb == term.xorb && last.to == term.from && last.bytes <= u32::MAX - term.bytes
}

// The first term, which goes on to the end of the second.
fn continued(last: &WaitingTerm, term: &WaitingTerm) -> WaitingTerm
    requires { last.now.bytes + term.now.bytes < 2 ^ 32 }
    ensures { result ≡ continue last.now term.now }
{
    WaitingTerm {
        xorb: last.xorb,
        from: last.from,
        to: term.to,
        bytes: last.bytes + term.bytes,
    }
}

// Names the xorb that the waiting chunks became, in the terms from this number on. The others were named.
fn name_rest(terms: &mut [WaitingTerm], from: usize, hash: MerkleHash)
    requires within { from ≤ length terms.old }
    requires named { map (renamed hash) (take from terms.old) ≡ take from terms.old }
    ensures { terms.new ≡ map (renamed hash) terms.old }
{
    name_terms(&mut terms[from..], hash);
}

// Names the xorb that the waiting chunks became.
fn name_terms(terms: &mut [WaitingTerm], hash: MerkleHash)
    ensures { terms.new ≡ map (renamed hash) terms.old }
{
    for term in terms.iter_mut() {
        *term = renamed(term, hash);
    }
}

// The term, given the hash of the xorb that the waiting chunks became.
fn renamed(term: &WaitingTerm, hash: MerkleHash) -> WaitingTerm
    ensures { result ≡ renamed hash term.now }
{
    let xorb = match term.xorb {
        TermXorb::Own => hash,
        TermXorb::Stored(stored) => stored,
    };
    WaitingTerm {
        xorb: TermXorb::Stored(xorb),
        from: term.from,
        to: term.to,
        bytes: term.bytes,
    }
}
