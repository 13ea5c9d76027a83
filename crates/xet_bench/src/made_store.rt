//! The made store.
ghost use Rattle.std.specs.Prelude.{◌≡◌, ◌+◌, ◌<◌, IfOk, OnOk, map};
ghost use Rattle.std.specs.List.{range_with_len};
ghost use Rattle.xet_store.specs.Refusals.{stored_term};
ghost use Rattle.xet_store.specs.declared.mem_store.StoreRefused.TheVariants as store_refused;
ghost use Rattle.xet_bench.specs.Bench.{bench_chunk, bench_store, bench_term, bench_xorb, first_xorbs, numbered};

use bytes::Bytes;
use std::alloc::Global;
use xet_base::{FileDataSequenceEntry, List, MerkleHash, OutOfMemory, Xorb};
use xet_store::{MemStore, StoreRefused};

/// The hash of its file.
pub const FILE: MerkleHash = MerkleHash([255; 32]);

// The hash with this number.
fn numbered(number: u8) -> MerkleHash
    ensures { result ≡ numbered number }
{
    MerkleHash([number; 32])
}

// The chunk with this number.
#[tactic(auto, using(crate::proofs::Making::range_more))]
fn chunk(alloc: Global, number: u8) -> Result<Bytes, OutOfMemory>
    requires { number < 128 }
    ensures { IfOk result (λ bytes. bytes ≡ bench_chunk number) }
{
    let count = 1 + number % 64;
    let mut bytes = Vec::with_capacity(alloc, 64)?;
    for place in 0..count {
        bytes.push(number + place)?;
    }
    Ok(Bytes::from_vec(bytes)?)
}

// The xorb with this number.
#[tactic(auto, using(crate::proofs::Making::chunks_more))]
fn xorb(alloc: Global, number: u8) -> Result<Xorb, OutOfMemory>
    requires { number < 8 }
    ensures { IfOk result (λ xorb. xorb ≡ bench_xorb number) }
{
    let mut chunks = List::new(alloc);
    for place in 0..16u8 {
        chunks.push(chunk(alloc, 16 * number + place)?)?;
    }
    Ok(Xorb {
        hash: numbered(number),
        chunks,
    })
}

// The refusal of a store that takes what it is given: want of memory.
fn only_memory(refused: StoreRefused) -> OutOfMemory
    requires { refused ≡ store_refused.OutOfMemory }
{
    let _ = refused;
    OutOfMemory
}

// Adds the xorb with this number, where those before it are there.
fn add_xorb(store: &mut MemStore, alloc: Global, number: u8) -> Result<(), OutOfMemory>
    requires small { number < 8 }
    requires before { store.old ≡ first_xorbs number }
    ensures { OnOk result (store.new ≡ first_xorbs (number + 1)) }
{
    match store.add_xorb(alloc, xorb(alloc, number)?) {
        Ok(()) => Ok(()),
        Err(refused) => Err(only_memory(refused)),
    }
}

// The term with this number. No store looks at its count of bytes.
fn term(number: u32) -> FileDataSequenceEntry
    ensures { stored_term result ≡ bench_term number }
{
    let from = number % 13;
    FileDataSequenceEntry {
        xorb: numbered((number % 8) as u8),
        from,
        to: from + 1 + number % 3,
        bytes: 0,
    }
}

// The first so many terms.
#[tactic(auto, using(crate::proofs::Making::terms_more))]
fn terms(alloc: Global, count: u32) -> Result<List<FileDataSequenceEntry>, OutOfMemory>
    ensures { IfOk result (λ terms. map stored_term terms ≡ map bench_term (range_with_len 0 count)) }
{
    let mut terms = List::with_capacity(alloc, count as usize)?;
    for number in 0..count {
        terms.push(term(number))?;
    }
    Ok(terms)
}

// Adds the file of so many terms, where all xorbs are there.
fn add_file(store: &mut MemStore, alloc: Global, count: u32) -> Result<(), OutOfMemory>
    requires { store.old ≡ first_xorbs 8 }
    ensures { OnOk result (store.new ≡ bench_store count) }
{
    match store.add_file(alloc, FILE, terms(alloc, count)?) {
        Ok(()) => Ok(()),
        Err(refused) => Err(only_memory(refused)),
    }
}

/// A store of 8 xorbs of 16 chunks of 1 to 64 bytes, and one file of so many terms of 1 to 3 chunks.
///
/// `OutOfMemory` where an allocation was refused.
pub fn make_store(alloc: Global, terms: u32) -> Result<MemStore, OutOfMemory>
    ensures { IfOk result (λ store. store ≡ bench_store terms) }
{
    let mut store = MemStore::new(alloc);
    for number in 0..8u8 {
        add_xorb(&mut store, alloc, number)?;
    }
    add_file(&mut store, alloc, terms)?;
    Ok(store)
}
