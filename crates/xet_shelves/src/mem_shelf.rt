//! A shelf over a store in memory.
ghost use Rattle.std.specs.Prelude.{◌≡◌, All, IfErr, IfOk, IfSome, None, Some};
ghost use Rattle.xet_base.specs.Store.{IsTermIn};
ghost use Rattle.xet_outside.specs.declared.client.ClientError.TheVariants as client_error;
ghost use Rattle.xet_shelves.specs.Shelves.{CountsBytes, IsRecordOf, IsXorbOf, ShelfCall};
ghost use Rattle.xet_store.specs.Refusals.{stored_term, term_length};
ghost use Rattle.xet_uploader.specs.StoresAfter.{file_of_record};

use crate::shelf::Shelf;
use std::alloc::Global;
use xet_base::{
    FileDataSequenceEntry, List, MDBFileInfo, MerkleHash, OutOfMemory, StoredTerm, Xorb,
};
use xet_outside::ClientError;
use xet_store::{KeptFile, MemStore, StoredXorb};

/// A shelf over a store in memory. It fails only for want of memory.
#[derive(Drop)]
pub struct MemShelf {
    store: MemStore,
}

impl MemShelf {
    /// A shelf of this store. It takes no memory.
    pub fn new(store: MemStore) -> MemShelf
        ensures { ⟦<MemShelf as Shelf>⟧.told result ≡ record { store = Some store; faults = 0 } }
    {
        MemShelf { store }
    }

    /// The store.
    pub fn store(&self) -> &MemStore
        ensures { ⟦<MemShelf as Shelf>⟧.told self.now ≡ record { store = Some result.now; faults = 0 } }
    {
        &self.store
    }
}

impl Shelf for MemShelf {
    ghost told = { λ s. record { store = Some s.store; faults = 0 } };

    /// The record of a file, which says how many bytes each term has, and no SHA-256; none exactly where it isn't
    /// stored. It fails only for want of memory.
    fn file(&mut self, alloc: Global, file: &MerkleHash) -> Result<Option<MDBFileInfo>, ClientError>
        ensures call { ShelfCall (⟦<MemShelf as Shelf>⟧.told self.old) (⟦<MemShelf as Shelf>⟧.told self.new)
            (IsRecordOf file.now) result }
        ensures bytes { IfOk result (λ found. IfSome found (CountsBytes self.old.store)) }
        ensures memory { IfErr result (λ e. e ≡ client_error.OutOfMemory) }
        ensures same { self.new ≡ self.old }
    {
        match self.store.file(file) {
            Some(kept) => Ok(Some(record_of(alloc, &self.store, kept)?)),
            None => Ok(None),
        }
    }

    /// A xorb, whose chunks share the store's memory; none exactly where it isn't stored. It fails only for want of
    /// memory.
    fn xorb(&mut self, alloc: Global, xorb: &MerkleHash) -> Result<Option<Xorb>, ClientError>
        ensures call { ShelfCall (⟦<MemShelf as Shelf>⟧.told self.old) (⟦<MemShelf as Shelf>⟧.told self.new)
            (IsXorbOf xorb.now) result }
        ensures memory { IfErr result (λ e. e ≡ client_error.OutOfMemory) }
        ensures same { self.new ≡ self.old }
    {
        match self.store.xorb(xorb) {
            Some(stored) => Ok(Some(xorb_of(alloc, stored)?)),
            None => Ok(None),
        }
    }
}

// The record of a stored file.
fn record_of(alloc: Global, store: &MemStore, kept: &KeptFile) -> Result<MDBFileInfo, OutOfMemory>
    requires { All (IsTermIn store.now) kept.now.terms }
    ensures record { IfOk result (λ info. file_of_record info ≡ kept.now) }
    ensures bytes { IfOk result (CountsBytes store.now) }
{
    let mut entries = List::with_capacity(alloc, kept.terms().len())?;
    for term in kept.terms() {
        entries.push(entry_of(store, term)?)?;
    }
    Ok(MDBFileInfo {
        hash: kept.hash(),
        entries,
        sha256: None,
    })
}

// A stored term as a record has it.
fn entry_of(store: &MemStore, term: &StoredTerm) -> Result<FileDataSequenceEntry, OutOfMemory>
    requires { IsTermIn store.now term.now }
    ensures term { IfOk result (λ entry. stored_term entry ≡ term.now) }
    ensures bytes { IfOk result (λ entry. entry.bytes ≡ term_length store.now term.now) }
{
    Ok(FileDataSequenceEntry {
        xorb: term.xorb,
        from: term.from,
        to: term.to,
        bytes: byte_count(store, term)?,
    })
}

// How many bytes a stored term's chunks have together.
fn byte_count(store: &MemStore, term: &StoredTerm) -> Result<u32, OutOfMemory>
    requires { IsTermIn store.now term.now }
    ensures { IfOk result (λ count. count ≡ term_length store.now term.now) }
{
    match store.xorb(&term.xorb) {
        Some(xorb) => {
            let bytes = xorb.bytes_of(term.from, term.to)?;
            Ok(bytes.len().min(u32::MAX as usize) as u32)
        }
        None => Ok(0),
    }
}

// A stored xorb, whose chunks share its memory.
fn xorb_of(alloc: Global, stored: &StoredXorb) -> Result<Xorb, OutOfMemory>
    ensures { IfOk result (λ xorb. xorb ≡ stored.now) }
{
    let count = stored.chunk_count();
    let mut chunks = List::with_capacity(alloc, count as usize)?;
    for number in 0..count {
        chunks.push(stored.bytes_of(number, number + 1)?)?;
    }
    Ok(Xorb {
        hash: stored.hash(),
        chunks,
    })
}
