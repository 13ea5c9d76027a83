//! Findings of kinds 5 to 7, and which xorbs the files name.
ghost use Rattle.std.specs.Prelude.{◌≡◌, ◌++◌, ◌∷◌, [], IfOk, List as Items, OnOk, cond, is_none, length, map};
ghost use Rattle.std.specs.List.{flat_map};
ghost use Rattle.xet_base.specs.Store.{xorb_of};
ghost use Rattle.xet_base.specs.declared.merklehash.MerkleHash.{MerkleHash};
ghost use Rattle.xet_store.specs.Refusals.{stored_term};
ghost use Rattle.xet_audit.specs.Findings.{each_at, each_part, each_within, finding, is_outside, is_too_long};
ghost use Rattle.xet_audit.specs.Raws.{file_of_raw, store_of_raw};
ghost use Rattle.xet_audit.specs.steps.Indexed.{IsIndexed};
ghost use Rattle.xet_audit.specs.steps.Tables.{IsMarked, marked, place_of};
ghost use Rattle.xet_audit.specs.steps.Terms.{length_of, state_of};

use crate::marks::{mark, no_marks};
use crate::raw_store::RawFile;
use crate::term_state::{TermState, is_long};
use crate::xorb_table::XorbTable;
use std::alloc::Global;
use xet_base::{FileDataSequenceEntry, OutOfMemory};
use xet_findings::{Finding, add_if};

/// What the terms of files come to.
#[derive(Drop)]
pub(crate) struct TermWalk {
    /// Whether a term names the xorbs of each number.
    pub(crate) named: Vec<bool>,
    /// Findings of kind 5.
    pub(crate) unnamed: Vec<Finding>,
    /// Findings of kind 6.
    pub(crate) outside: Vec<Finding>,
    /// Findings of kind 7.
    pub(crate) long: Vec<Finding>,
}

/// What the terms of all files come to.
pub(crate) fn walk_files(alloc: Global, table: &XorbTable<'_>) -> Result<TermWalk, OutOfMemory>
    requires { IsIndexed table.now }
    ensures unnamed { let s = store_of_raw table.now.raw.now in IfOk result (λ w. w.unnamed.items
        ≡ each_within 5 (λ f. f.terms) (λ t. is_none (xorb_of s t.xorb)) s.files) }
    ensures outside { let s = store_of_raw table.now.raw.now in IfOk result (λ w. w.outside.items
        ≡ each_within 6 (λ f. f.terms) (is_outside s) s.files) }
    ensures long { let s = store_of_raw table.now.raw.now in IfOk result (λ w. w.long.items
        ≡ each_at 7 (λ i f. is_too_long s f) s.files) }
    ensures named { let s = store_of_raw table.now.raw.now in IfOk result (λ w. IsMarked table.now.firsts.hashes
        (flat_map (λ f. map (λ t. t.xorb) f.terms) s.files) w.named.items) }
{
    let mut walk = TermWalk::new(alloc, table.firsts.hashes.keys().len())?;
    walk.add_files(table)?;
    Ok(walk)
}

impl TermWalk {
    // Over no terms, with so many different hashes of xorbs.
    fn new(alloc: Global, count: usize) -> Result<TermWalk, OutOfMemory>
        ensures unnamed { IfOk result (λ w. w.unnamed.items ≡ []) }
        ensures outside { IfOk result (λ w. w.outside.items ≡ []) }
        ensures long { IfOk result (λ w. w.long.items ≡ []) }
        ensures named { IfOk result (λ w. (keys : Items MerkleHash) → length keys ≡ count
            → IsMarked keys [] w.named.items) }
    {
        Ok(TermWalk {
            named: no_marks(alloc, count)?,
            unnamed: Vec::new(alloc),
            outside: Vec::new(alloc),
            long: Vec::new(alloc),
        })
    }

    // Goes over the terms of all files, where no terms were gone over.
    fn add_files(&mut self, table: &XorbTable<'_>) -> Result<(), OutOfMemory>
        requires indexed { IsIndexed table.now }
        requires unnamed { self.old.unnamed.items ≡ [] }
        requires outside { self.old.outside.items ≡ [] }
        requires long { self.old.long.items ≡ [] }
        requires named { IsMarked table.now.firsts.hashes [] self.old.named.items }
        ensures unnamed { let s = store_of_raw table.now.raw.now in OnOk result (self.new.unnamed.items
            ≡ each_within 5 (λ f. f.terms) (λ t. is_none (xorb_of s t.xorb)) s.files) }
        ensures outside { let s = store_of_raw table.now.raw.now in OnOk result (self.new.outside.items
            ≡ each_within 6 (λ f. f.terms) (is_outside s) s.files) }
        ensures long { let s = store_of_raw table.now.raw.now in OnOk result (self.new.long.items
            ≡ each_at 7 (λ i f. is_too_long s f) s.files) }
        ensures named { let s = store_of_raw table.now.raw.now in OnOk result (IsMarked table.now.firsts.hashes
            (flat_map (λ f. map (λ t. t.xorb) f.terms) s.files) self.new.named.items) }
    {
        for (a, file) in table.raw.files.as_slice().iter().enumerate() {
            self.add_file(table, a, file)?;
        }
        Ok(())
    }

    // Goes over the terms of the file at this place.
    fn add_file(
        &mut self,
        table: &XorbTable<'_>,
        a: usize,
        file: &RawFile,
    ) -> Result<(), OutOfMemory>
        requires indexed { IsIndexed table.now }
        requires count { length self.old.named.items ≡ length table.now.firsts.hashes }
        ensures unnamed { let s = store_of_raw table.now.raw.now in OnOk result (self.new.unnamed.items
            ≡ self.old.unnamed.items
            ++ each_part 5 (λ t. is_none (xorb_of s t.xorb)) a (file_of_raw file.now).terms) }
        ensures outside { let s = store_of_raw table.now.raw.now in OnOk result (self.new.outside.items
            ≡ self.old.outside.items ++ each_part 6 (is_outside s) a (file_of_raw file.now).terms) }
        ensures long { let s = store_of_raw table.now.raw.now in OnOk result (self.new.long.items
            ≡ self.old.long.items ++ cond (is_too_long s (file_of_raw file.now)) (finding 7 a 0 ∷ []) []) }
        ensures named { OnOk result ((seen : Items MerkleHash)
            → IsMarked table.now.firsts.hashes seen self.old.named.items
            → IsMarked table.now.firsts.hashes (seen ++ map (λ t. t.xorb) (file_of_raw file.now).terms)
            self.new.named.items) }
    {
        let length = self.add_terms(table, a, file.terms.as_slice())?;
        let long = Finding {
            kind: 7,
            a: a as u64,
            b: 0,
        };
        add_if(&mut self.long, is_long(length), long)?;
        Ok(())
    }

    // Goes over these terms of the file at this place. How many bytes they have together, at most `u128::MAX`, or none
    // where one names no chunks.
    fn add_terms(
        &mut self,
        table: &XorbTable<'_>,
        a: usize,
        terms: &[FileDataSequenceEntry],
    ) -> Result<Option<u128>, OutOfMemory>
        requires indexed { IsIndexed table.now }
        requires count { length self.old.named.items ≡ length table.now.firsts.hashes }
        ensures length { IfOk result (λ n. n
            ≡ length_of (store_of_raw table.now.raw.now) (map stored_term terms.now)) }
        ensures unnamed { let s = store_of_raw table.now.raw.now in OnOk result (self.new.unnamed.items
            ≡ self.old.unnamed.items
            ++ each_part 5 (λ t. is_none (xorb_of s t.xorb)) a (map stored_term terms.now)) }
        ensures outside { let s = store_of_raw table.now.raw.now in OnOk result (self.new.outside.items
            ≡ self.old.outside.items ++ each_part 6 (is_outside s) a (map stored_term terms.now)) }
        ensures long { OnOk result (self.new.long.items ≡ self.old.long.items) }
        ensures named { OnOk result ((seen : Items MerkleHash)
            → IsMarked table.now.firsts.hashes seen self.old.named.items
            → IsMarked table.now.firsts.hashes (seen ++ map (λ t. t.xorb) (map stored_term terms.now))
            self.new.named.items) }
    {
        let mut length = Some(0u128);
        // the number of the xorb of the term before, which is often the next term's
        let mut near = 0usize;
        for (b, term) in terms.iter().enumerate() {
            let number = table.number_near(&term.xorb, near);
            near = number.unwrap_or(near);
            let state = self.add_term(table, a, b, term, number)?;
            length = state.added_to(length);
        }
        Ok(length)
    }

    // What a term at these places comes to, whose xorb's hash has this number. It is noted.
    fn add_term(
        &mut self,
        table: &XorbTable<'_>,
        a: usize,
        b: usize,
        term: &FileDataSequenceEntry,
        number: Option<usize>,
    ) -> Result<TermState, OutOfMemory>
        requires indexed { IsIndexed table.now }
        requires known { number ≡ place_of table.now.firsts.hashes term.now.xorb }
        requires count { length self.old.named.items ≡ length table.now.firsts.hashes }
        ensures state { IfOk result (λ r. r
            ≡ state_of (store_of_raw table.now.raw.now) (stored_term term.now)) }
        ensures unnamed { OnOk result (self.new.unnamed.items ≡ self.old.unnamed.items
            ++ cond (is_none (xorb_of (store_of_raw table.now.raw.now) term.now.xorb)) (finding 5 a b ∷ []) []) }
        ensures outside { OnOk result (self.new.outside.items ≡ self.old.outside.items
            ++ cond (is_outside (store_of_raw table.now.raw.now) (stored_term term.now)) (finding 6 a b ∷ []) []) }
        ensures long { OnOk result (self.new.long.items ≡ self.old.long.items) }
        ensures named { OnOk result (self.new.named.items ≡ marked number self.old.named.items) }
    {
        mark(&mut self.named, number);
        let state = table.state(term, number);
        let (a, b) = (a as u64, b as u64);
        add_if(
            &mut self.unnamed,
            state.is_unnamed(),
            Finding { kind: 5, a, b },
        )?;
        add_if(
            &mut self.outside,
            state.is_outside(),
            Finding { kind: 6, a, b },
        )?;
        Ok(state)
    }
}
