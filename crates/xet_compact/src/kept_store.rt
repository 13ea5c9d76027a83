//! What a store keeps.
ghost use Rattle.std.specs.Prelude.{◌≡◌, ◌++◌, ◌∷◌, [], All, IfOk, OnOk, cond, filter, map};
ghost use Rattle.xet_base.specs.Store.{IsTermIn, IsValid};
ghost use Rattle.xet_store.specs.Refusals.{stored_term};
ghost use Rattle.xet_audit.specs.Raws.{file_of_raw, store_of_raw};
ghost use Rattle.xet_compact.specs.Compacts.{dropped_count, kept_term, kept_xorbs};
ghost use Rattle.xet_compact.specs.steps.Kept.{AreKeptFiles, IsKept, IsKeptFile, keeps_some, kept_of, xorb_of_kept};
ghost use Rattle.xet_compact.specs.steps.Reaches.{AreReached};

use crate::kept_xorb::KeptXorb;
use crate::reaches::{index_of, reaches_of};
use std::alloc::Global;
use xet_audit::{RawFile, RawStore, RawXorb};
use xet_base::{FileDataSequenceEntry, KeyIndex, List, MerkleHash, OutOfMemory, Xorb};
use xet_held::Reach;

/// A valid store, the number of each of its xorbs, and what each keeps.
#[derive(Drop)]
pub(crate) struct KeptStore<'a> {
    pub(crate) raw: &'a RawStore,
    pub(crate) index: KeyIndex<MerkleHash>,
    pub(crate) kept: List<KeptXorb>,
}

impl<'a> KeptStore<'a> {
    /// What a valid store keeps.
    pub(crate) fn of(alloc: Global, raw: &'a RawStore) -> Result<KeptStore<'a>, OutOfMemory>
        requires { IsValid (store_of_raw raw.now) }
        ensures same { IfOk result (λ k. k.raw.now ≡ raw.now) }
        ensures kept { IfOk result (λ k. IsKept k.raw.now k.index k.kept) }
    {
        let index = index_of(alloc, raw.xorbs.as_slice())?;
        let reaches = reaches_of(alloc, raw, &index)?;
        let kept = keep_xorbs(alloc, raw, reaches.as_slice())?;
        Ok(KeptStore { raw, index, kept })
    }

    /// How many chunks no term holds.
    pub(crate) fn dropped_chunks(&self) -> Result<u64, OutOfMemory>
        requires { IsKept self.now.raw.now self.now.index self.now.kept }
        ensures { IfOk result (λ n. n ≡ dropped_count (store_of_raw self.now.raw.now)) }
    {
        let kept = self.kept.as_slice();
        let mut dropped = 0u64;
        for (i, xorb) in self.raw.xorbs.as_slice().iter().enumerate() {
            let count = xorb.chunks.len() - kept[i].chunks.len();
            let Some(sum) = dropped.checked_add(count as u64) else {
                return Err(OutOfMemory);
            };
            dropped = sum;
        }
        Ok(dropped)
    }

    /// The files with their terms as they are kept, in the store's order.
    pub(crate) fn files(&self, alloc: Global) -> Result<Vec<RawFile>, OutOfMemory>
        requires { IsKept self.now.raw.now self.now.index self.now.kept }
        ensures { IfOk result (λ files. AreKeptFiles (store_of_raw self.now.raw.now) files.items) }
    {
        let mut files = Vec::with_capacity(alloc, self.raw.files.len())?;
        for file in self.raw.files.as_slice() {
            files.push(self.file(alloc, file)?)?;
        }
        Ok(files)
    }

    // A file with its terms as they are kept.
    fn file(&self, alloc: Global, file: &RawFile) -> Result<RawFile, OutOfMemory>
        requires kept { IsKept self.now.raw.now self.now.index self.now.kept }
        requires terms { All (IsTermIn (store_of_raw self.now.raw.now)) (file_of_raw file.now).terms }
        ensures { IfOk result (IsKeptFile (store_of_raw self.now.raw.now) (file_of_raw file.now)) }
    {
        let mut terms = List::with_capacity(alloc, file.terms.len())?;
        for term in file.terms.as_slice() {
            terms.push(self.term(term))?;
        }
        Ok(RawFile {
            hash: file.hash,
            terms,
        })
    }

    // A term as it is kept.
    fn term(&self, term: &FileDataSequenceEntry) -> FileDataSequenceEntry
        requires kept { IsKept self.now.raw.now self.now.index self.now.kept }
        requires inside { IsTermIn (store_of_raw self.now.raw.now) (stored_term term.now) }
        ensures renumbered { stored_term result ≡ kept_term (store_of_raw self.now.raw.now) (stored_term term.now) }
        ensures uncounted { result.bytes ≡ 0 }
    {
        let place = self.index.number_of(&term.xorb).unwrap();
        let kept = &self.kept.as_slice()[place];
        let numbers = kept.numbers.as_slice();
        FileDataSequenceEntry {
            xorb: kept.hash,
            from: numbers[term.from as usize],
            to: numbers[term.to as usize],
            bytes: 0,
        }
    }

    /// The xorbs that keep chunks, in the store's order.
    pub(crate) fn into_xorbs(self, alloc: Global) -> Result<Vec<RawXorb>, OutOfMemory>
        requires { IsKept self.raw.now self.index self.kept }
        ensures { IfOk result (λ xorbs. xorbs.items ≡ kept_xorbs (store_of_raw self.entry.raw.now)) }
    {
        named_xorbs(alloc, self.kept)
    }
}

// What each xorb of a store keeps, by how far its terms reach.
fn keep_xorbs(
    alloc: Global,
    raw: &RawStore,
    reaches: &[Reach],
) -> Result<List<KeptXorb>, OutOfMemory>
    requires valid { IsValid (store_of_raw raw.now) }
    requires reached { AreReached raw.now.xorbs (store_of_raw raw.now).files reaches.now }
    ensures { IfOk result (λ kept. kept ≡ map (kept_of (store_of_raw raw.now)) raw.now.xorbs) }
{
    let mut kept = List::with_capacity(alloc, raw.xorbs.len())?;
    for (i, xorb) in raw.xorbs.as_slice().iter().enumerate() {
        kept.push(KeptXorb::of(alloc, xorb, &reaches[i])?)?;
    }
    Ok(kept)
}

// The xorbs that keep chunks.
fn named_xorbs(alloc: Global, kept: List<KeptXorb>) -> Result<Vec<RawXorb>, OutOfMemory>
    ensures { IfOk result (λ xorbs. xorbs.items ≡ map xorb_of_kept (filter keeps_some kept)) }
{
    let mut xorbs = Vec::with_capacity(alloc, kept.len())?;
    for one in kept.into_inner() {
        push_named(one, &mut xorbs)?;
    }
    Ok(xorbs)
}

// Adds the xorb that keeps these chunks, where there are some.
fn push_named(kept: KeptXorb, xorbs: &mut Vec<RawXorb>) -> Result<(), OutOfMemory>
    ensures { OnOk result (xorbs.new.items
        ≡ xorbs.old.items ++ cond (keeps_some kept) (xorb_of_kept kept ∷ []) []) }
{
    if kept.chunks.len() > 0 {
        xorbs.push(Xorb {
            hash: kept.hash,
            chunks: kept.chunks,
        })?;
    }
    Ok(())
}
