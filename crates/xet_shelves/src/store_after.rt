//! The store after a log.
ghost use Rattle.std.specs.Prelude.{◌≡◌, IfOk, None, Some, if◌then◌else◌};
ghost use Rattle.xet_shelves.specs.After.{IsStoreAfter};
ghost use Rattle.xet_shelves.specs.steps.Tries.{each_put, put_files, put_xorb};
ghost use Rattle.xet_uploader.specs.StoresAfter.{with_file, with_files, with_xorb};

use std::alloc::Global;
use xet_base::{MDBFileInfo, OutOfMemory, Xorb};
use xet_store::{MemStore, StoreRefused};
use xet_uploader::Put;

/// The store with the xorbs and file records of some puts, or none exactly where that isn't valid. The xorbs are added
/// first, so a record may stand before the xorbs that it names.
///
/// `OutOfMemory` where an allocation was refused.
pub(crate) fn store_after(
    alloc: Global,
    mut store: MemStore,
    puts: &[Put],
) -> Result<Option<MemStore>, OutOfMemory>
    ensures { IfOk result (IsStoreAfter store puts.now) }
{
    if !add_log(alloc, &mut store, puts)? {
        return Ok(None);
    }
    Ok(Some(store))
}

// Adds some puts, and tells whether the store took each or had its hash: it did exactly where the store after them is
// valid.
fn add_log(alloc: Global, store: &mut MemStore, puts: &[Put]) -> Result<bool, OutOfMemory>
    ensures { IfOk result (λ added. IsStoreAfter store.old puts.now (if added then Some store.new else None)) }
{
    if !add_xorbs(alloc, store, puts)? {
        return Ok(false);
    }
    if !add_records(alloc, store, puts)? {
        return Ok(false);
    }
    store.recall_valid();
    Ok(true)
}

// Adds the xorbs of some puts, and tells whether the store took each or had its hash.
fn add_xorbs(alloc: Global, store: &mut MemStore, puts: &[Put]) -> Result<bool, OutOfMemory>
    ensures { IfOk result (λ added. each_put put_xorb store.old puts.now ≡ (if added then Some store.new else None)) }
{
    for put in puts {
        if !add_xorb_of(alloc, store, put)? {
            return Ok(false);
        }
    }
    Ok(true)
}

// Adds the file records of some puts, and tells whether the store took each or had its hash.
fn add_records(alloc: Global, store: &mut MemStore, puts: &[Put]) -> Result<bool, OutOfMemory>
    ensures { IfOk result (λ added. each_put put_files store.old puts.now ≡ (if added then Some store.new else None)) }
{
    for put in puts {
        if !add_files_of(alloc, store, put)? {
            return Ok(false);
        }
    }
    Ok(true)
}

// Adds a put's xorb, where it has one, and tells whether the store took it or had its hash.
fn add_xorb_of(alloc: Global, store: &mut MemStore, put: &Put) -> Result<bool, OutOfMemory>
    ensures { IfOk result (λ added. put_xorb store.old put.now ≡ (if added then Some store.new else None)) }
{
    match put {
        Put::Xorb(xorb) => add_xorb(alloc, store, xorb.copied(alloc)?),
        Put::Shard(_) => Ok(true),
    }
}

// Adds a put's file records, and tells whether the store took each or had its hash.
fn add_files_of(alloc: Global, store: &mut MemStore, put: &Put) -> Result<bool, OutOfMemory>
    ensures { IfOk result (λ added. put_files store.old put.now ≡ (if added then Some store.new else None)) }
{
    match put {
        Put::Xorb(_) => Ok(true),
        Put::Shard(shard) => add_files(alloc, store, shard.files.as_slice()),
    }
}

// Adds a xorb, and tells whether the store took it or had its hash.
fn add_xorb(alloc: Global, store: &mut MemStore, xorb: Xorb) -> Result<bool, OutOfMemory>
    ensures { IfOk result (λ added. with_xorb store.old xorb ≡ (if added then Some store.new else None)) }
{
    match store.add_xorb(alloc, xorb) {
        Ok(()) => Ok(true),
        Err(StoreRefused::Taken) => Ok(true),
        Err(StoreRefused::OutOfMemory) => Err(OutOfMemory),
        Err(StoreRefused::EmptyChunk) => Ok(false),
        Err(StoreRefused::TooManyChunks) => Ok(false),
        Err(StoreRefused::TooLong) => Ok(false),
        Err(StoreRefused::BadTerm) => Ok(false),
    }
}

// Adds files, and tells whether the store took each or had its hash.
fn add_files(
    alloc: Global,
    store: &mut MemStore,
    files: &[MDBFileInfo],
) -> Result<bool, OutOfMemory>
    ensures { IfOk result (λ added. with_files store.old files.now ≡ (if added then Some store.new else None)) }
{
    for file in files {
        if !add_file(alloc, store, file)? {
            return Ok(false);
        }
    }
    Ok(true)
}

// Adds a file, and tells whether the store took it or had its hash.
fn add_file(alloc: Global, store: &mut MemStore, file: &MDBFileInfo) -> Result<bool, OutOfMemory>
    ensures { IfOk result (λ added. with_file store.old file.now ≡ (if added then Some store.new else None)) }
{
    let entries = file.entries.copied(alloc)?;
    match store.add_file(alloc, file.hash, entries) {
        Ok(()) => Ok(true),
        Err(StoreRefused::Taken) => Ok(true),
        Err(StoreRefused::OutOfMemory) => Err(OutOfMemory),
        Err(StoreRefused::EmptyChunk) => Ok(false),
        Err(StoreRefused::TooManyChunks) => Ok(false),
        Err(StoreRefused::TooLong) => Ok(false),
        Err(StoreRefused::BadTerm) => Ok(false),
    }
}
