//! The worked store: a small store on which tests and examples stand.
ghost use Rattle.std.specs.Prelude.{◌≡◌, ◌++◌, ◌∷◌, [], IfOk, OnOk, map};
ghost use Rattle.xet_base.specs.Worked.{worked, x1};
ghost use Rattle.xet_store.specs.Refusals.{stored_term};

use crate::mem_store::{MemStore, StoreRefused};
use bytes::Bytes;
use std::alloc::Global;
use xet_base::{FileDataSequenceEntry, List, MerkleHash, OutOfMemory, Xorb};

/// The hashes of its xorbs.
pub const X1: MerkleHash = MerkleHash([0x11; 32]);

pub const X2: MerkleHash = MerkleHash([0x22; 32]);

/// The hashes of its files: of all chunks of the first xorb, of three terms that repeat chunks, of no terms, of the
/// first and the last chunk.
pub const FILE_OF_ALL: MerkleHash = MerkleHash([0xaa; 32]);

pub const FILE_OF_REPEATS: MerkleHash = MerkleHash([0xbb; 32]);

pub const FILE_OF_NOTHING: MerkleHash = MerkleHash([0xcc; 32]);

pub const FILE_OF_TWO_ENDS: MerkleHash = MerkleHash([0xee; 32]);

/// Two xorbs, of the chunks `Hello`, `, `, `world`, `!` and of `ab`, `cde`, and four files over the first. Want of
/// memory is the only error.
pub fn worked_store(alloc: Global) -> Result<MemStore, StoreRefused>
    ensures { IfOk result (λ store. store ≡ worked) }
{
    let mut store = MemStore::new(alloc);
    put_xorbs(&mut store, alloc)?;
    put_files(&mut store, alloc)?;
    Ok(store)
}

// Adds its xorbs to the empty store.
fn put_xorbs(store: &mut MemStore, alloc: Global) -> Result<(), StoreRefused>
    requires { store.old ≡ record { xorbs = []; files = [] } }
    ensures { OnOk result (store.new ≡ record { xorbs = worked.xorbs; files = [] }) }
{
    put_xorb(store, alloc, X1, &["Hello", ", ", "world", "!"])?;
    put_xorb(store, alloc, X2, &["ab", "cde"])
}

// Adds its files to the store of its xorbs.
fn put_files(store: &mut MemStore, alloc: Global) -> Result<(), StoreRefused>
    requires { store.old ≡ record { xorbs = worked.xorbs; files = [] } }
    ensures { OnOk result (store.new ≡ worked) }
{
    put_file(store, alloc, FILE_OF_ALL, &[(0, 4)])?;
    put_file(store, alloc, FILE_OF_REPEATS, &[(2, 4), (0, 1), (0, 3)])?;
    put_file(store, alloc, FILE_OF_NOTHING, &[])?;
    put_file(store, alloc, FILE_OF_TWO_ENDS, &[(0, 1), (3, 4)])
}

// Adds a xorb whose chunks are the bytes of some texts.
fn put_xorb(
    store: &mut MemStore,
    alloc: Global,
    hash: MerkleHash,
    texts: &[&str],
) -> Result<(), StoreRefused>
    ensures { OnOk result (store.new ≡ record store.old {
      xorbs = store.old.xorbs ++ record { hash = hash; chunks = map (λ t. t.now) texts.now } ∷ [];
    }) }
{
    let chunks = chunks(alloc, texts)?;
    store.add_xorb(alloc, Xorb { hash, chunks })
}

// Adds a file of terms of the first xorb.
fn put_file(
    store: &mut MemStore,
    alloc: Global,
    hash: MerkleHash,
    ranges: &[(u32, u32)],
) -> Result<(), StoreRefused>
    ensures { OnOk result (store.new ≡ record store.old {
      files = store.old.files ++ record {
        hash = hash;
        terms = map (λ r. record { xorb = x1; from = r.0; to = r.1 }) ranges.now;
      } ∷ [];
    }) }
{
    let terms = terms(alloc, ranges)?;
    store.add_file(alloc, hash, terms)
}

// The bytes of some texts.
fn chunks(alloc: Global, texts: &[&str]) -> Result<List<Bytes>, OutOfMemory>
    ensures { IfOk result (λ chunks. chunks ≡ map (λ t. t.now) texts.now) }
{
    let mut chunks = List::new(alloc);
    for text in texts {
        chunks.push(Bytes::copy_from_slice(alloc, text.as_bytes())?)?;
    }
    Ok(chunks)
}

// Terms of the first xorb, by the numbers of their first chunk and of the one after their last.
fn terms(alloc: Global, ranges: &[(u32, u32)]) -> Result<List<FileDataSequenceEntry>, OutOfMemory>
    ensures { IfOk result (λ terms. map stored_term terms
        ≡ map (λ r. record { xorb = x1; from = r.0; to = r.1 }) ranges.now) }
{
    let mut terms = List::new(alloc);
    for (from, to) in ranges {
        terms.push(FileDataSequenceEntry {
            xorb: X1,
            from: *from,
            to: *to,
            bytes: 0,
        })?;
    }
    Ok(terms)
}
