//! An uploader to a store in memory.
ghost use Rattle.std.specs.Prelude.{◌≡◌, ◌↔◌, ◌+◌, ◌-◌, ◌^◌, ◌≤◌, ◌++◌, ◌∷◌, [], Contains, IfErr, IfOk, IsErrOf, None};
ghost use Rattle.std.specs.Prelude.{OnErr, OnOk, Some};
ghost use Rattle.std.specs.Prelude.{if◌then◌else◌, map, min, option_map, slice_get, vec_capacity, vec_len};
ghost use Rattle.std.specs.List.Sorted.{IsPermutation};
ghost use Rattle.xet_base.specs.Records.{shard_size};
ghost use Rattle.xet_outside.specs.declared.client.ClientError.TheVariants as client_error;
ghost use Rattle.xet_uploader.specs.StoresAfter.{store_after, with_file, with_files, with_put, with_xorb};
ghost use Rattle.xet_uploader.specs.Uploads.{CountsFailed, PutShardCall, PutXorbCall, QueryShardCall, alone, mem_query};
ghost use Rattle.xet_uploader.specs.Uploads.{record_of, xorbs_in};

use crate::fault_script::FaultScript;
use crate::uploader::{Put, Uploader};
use crate::xorb_records::XorbRecords;
use std::alloc::Global;
use xet_base::{
    ChunkInfo, List, MDBFileInfo, MDBXorbInfo, MerkleHash, OutOfMemory, ShardRecord, Xorb,
};
use xet_outside::ClientError;
use xet_store::{MemStore, StoreRefused};

/// An uploader to a store in memory. It keeps the puts that it accepted, which are all but the numbered ones and those
/// for which memory was wanting. A chunk that a query asks for is found through an ordered map.
///
/// In the Rust crates: `cas_client::LocalClient`.
#[derive(Drop)]
pub struct MemUploader {
    store: MemStore,
    log: Vec<Put>,
    // the records of the log's xorbs
    records: XorbRecords,
    // the chunks of the queries that were answered, and the answers
    asked: Vec<MerkleHash>,
    answered: Vec<Option<ShardRecord>>,
    // which puts fail
    script: FaultScript,
    ghost indexed: { records ≡ map record_of (xorbs_in log.items) },
}

impl MemUploader {
    /// An uploader to this store, in which the puts with these numbers fail, counted from 0. It takes no memory.
    pub fn new(alloc: Global, store: MemStore, fails: Vec<u64>) -> MemUploader
        ensures told { ⟦<MemUploader as Uploader>⟧.told result
            ≡ record { first = Some store; puts = Some []; asked = Some []; answered = Some []; faults = 0 } }
        ensures store { result.store ≡ store }
        ensures fails { IsPermutation fails.items result.script.fails.items }
        ensures asked { result.script.calls ≡ 0 }
    {
        MemUploader {
            store,
            log: Vec::new(alloc),
            records: XorbRecords::new(alloc),
            asked: Vec::new(alloc),
            answered: Vec::new(alloc),
            script: FaultScript::new(fails),
        }
    }

    /// The store after the log, or none where the log adds something that the store refuses for another cause than a
    /// taken hash. `OutOfMemory` where an allocation was refused.
    pub fn into_store(self, alloc: Global) -> Result<Option<MemStore>, OutOfMemory>
        ensures { IfOk result (λ store. store ≡ store_after self.store self.log.items) }
    {
        let (store, log) = self.into_parts();
        store_with(alloc, store, log.as_slice())
    }

    // The store and the log.
    fn into_parts(self) -> (MemStore, Vec<Put>)
        ensures { result ≡ (self.store, self.log) }
    {
        (self.store, self.log)
    }

    /// The puts that it accepted, in their order.
    pub fn log(&self) -> &[Put]
        ensures { result.now ≡ self.now.log.items }
    {
        self.log.as_slice()
    }

    /// The chunks that queries asked for and got an answer, in the order of the queries.
    pub fn asked(&self) -> &[MerkleHash]
        ensures { result.now ≡ self.now.asked.items }
    {
        self.asked.as_slice()
    }
}

impl Uploader for MemUploader {
    ghost told = { λ u. record {
      first = Some u.store;
      puts = Some u.log.items;
      asked = Some u.asked.items;
      answered = Some u.answered.items;
      faults = u.script.faults;
    } };

    /// Keeps the xorb, and answers how many bytes it has. `Failed` exactly where its number is among those that fail,
    /// and then the count of faults rises; it rises nowhere else.
    fn put_xorb(&mut self, alloc: Global, xorb: &Xorb) -> Result<u64, ClientError>
        ensures call { PutXorbCall (⟦<MemUploader as Uploader>⟧.told self.old)
            (⟦<MemUploader as Uploader>⟧.told self.new) xorb.now result }
        ensures fails { IsErrOf result client_error.Failed
            ↔ Contains self.old.script.fails.items self.old.script.calls }
        ensures counted { self.new.script.calls ≡ min (self.old.script.calls + 1) (2 ^ 64 - 1) }
        ensures faults { CountsFailed self.old.script.faults self.new.script.faults result }
        ensures same { self.new.script.fails ≡ self.old.script.fails }
        ensures store { self.new.store ≡ self.old.store }
    {
        if self.script.fails_now() {
            return Err(ClientError::Failed);
        }
        reserve(&mut self.log)?;
        let copy = xorb.copied(alloc)?;
        add_record(&mut self.records, alloc, xorb)?;
        self.log.push_reserved(Put::Xorb(copy));
        Ok(xorb.num_bytes())
    }

    /// Keeps the records, and answers how many bytes they count for, at most `u64::MAX`. `Failed` exactly where its
    /// number is among those that fail, and then the count of faults rises; it rises nowhere else.
    fn put_shard(&mut self, alloc: Global, shard: &ShardRecord) -> Result<u64, ClientError>
        ensures call { PutShardCall (⟦<MemUploader as Uploader>⟧.told self.old)
            (⟦<MemUploader as Uploader>⟧.told self.new) shard.now result }
        ensures sent { IfOk result (λ n. n ≡ min (shard_size shard.now) (2 ^ 64 - 1)) }
        ensures fails { IsErrOf result client_error.Failed
            ↔ Contains self.old.script.fails.items self.old.script.calls }
        ensures counted { self.new.script.calls ≡ min (self.old.script.calls + 1) (2 ^ 64 - 1) }
        ensures faults { CountsFailed self.old.script.faults self.new.script.faults result }
        ensures same { self.new.script.fails ≡ self.old.script.fails }
        ensures store { self.new.store ≡ self.old.store }
    {
        if self.script.fails_now() {
            return Err(ClientError::Failed);
        }
        reserve(&mut self.log)?;
        let copy = shard.copied(alloc)?;
        self.log.push_reserved(Put::Shard(copy));
        Ok(shard.num_bytes())
    }

    /// The record of the first xorb of the log that has the chunk, without files, or none where there is none. It
    /// never fails.
    fn query_shard(
        &mut self,
        alloc: Global,
        chunk: &MerkleHash,
    ) -> Result<Option<ShardRecord>, ClientError>
        ensures call { QueryShardCall (⟦<MemUploader as Uploader>⟧.told self.old)
            (⟦<MemUploader as Uploader>⟧.told self.new) chunk.now result }
        ensures found { IfOk result (λ found. found ≡ mem_query self.old.log.items chunk.now) }
        ensures memory { IfErr result (λ e. e ≡ client_error.OutOfMemory) }
        ensures script { self.new.script ≡ self.old.script }
        ensures store { self.new.store ≡ self.old.store }
    {
        reserve(&mut self.asked)?;
        reserve(&mut self.answered)?;
        let found = self.record_with(alloc, chunk)?;
        let copy = copied_answer(alloc, &found)?;
        self.asked.push_reserved(*chunk);
        self.answered.push_reserved(copy);
        Ok(found)
    }
}

impl MemUploader {
    // The record of the first xorb of the log that has the chunk, without files.
    fn record_with(
        &self,
        alloc: Global,
        chunk: &MerkleHash,
    ) -> Result<Option<ShardRecord>, OutOfMemory>
        ensures { IfOk result (λ found. found ≡ mem_query self.now.log.items chunk.now) }
    {
        match self.records.first_with(chunk) {
            Some(place) => record_at(alloc, self.records.as_slice(), place.xorb),
            None => Ok(None),
        }
    }
}

// The record with this number, alone.
fn record_at(
    alloc: Global,
    records: &[MDBXorbInfo],
    number: usize,
) -> Result<Option<ShardRecord>, OutOfMemory>
    ensures { IfOk result (λ found. found ≡ option_map alone (slice_get records.now number)) }
{
    match records.get(number) {
        Some(info) => Ok(Some(shard_of(alloc, info.copied(alloc)?)?)),
        None => Ok(None),
    }
}

// Makes room for one item more.
fn reserve<T>(items: &mut Vec<T>) -> Result<(), OutOfMemory>
    ensures same { items.new.items ≡ items.old.items }
    ensures room { OnOk result (vec_len items.new + 1 ≤ vec_capacity items.new) }
{
    items.reserve(1)?;
    Ok(())
}

// An equal answer, with memory of its own.
fn copied_answer(
    alloc: Global,
    answer: &Option<ShardRecord>,
) -> Result<Option<ShardRecord>, OutOfMemory>
    ensures { IfOk result (λ copy. copy ≡ answer.now) }
{
    match answer {
        Some(shard) => Ok(Some(shard.copied(alloc)?)),
        None => Ok(None),
    }
}

// The record alone, without files.
fn shard_of(alloc: Global, info: MDBXorbInfo) -> Result<ShardRecord, OutOfMemory>
    ensures { IfOk result (λ shard. shard ≡ alone info) }
{
    let mut xorbs = List::new(alloc);
    xorbs.push(info)?;
    Ok(ShardRecord {
        xorbs,
        files: List::new(alloc),
    })
}

// Adds the record of the xorb. Want of memory leaves the records as they were.
fn add_record(records: &mut XorbRecords, alloc: Global, xorb: &Xorb) -> Result<(), OutOfMemory>
    ensures ok { OnOk result (records.new ≡ records.old ++ record_of xorb.now ∷ []) }
    ensures err { OnErr result (records.new ≡ records.old) }
{
    let info = record_of(alloc, xorb)?;
    records.push(info)
}

// The record of the xorb.
fn record_of(alloc: Global, xorb: &Xorb) -> Result<MDBXorbInfo, OutOfMemory>
    ensures { IfOk result (λ info. info ≡ record_of xorb.now) }
{
    let mut chunks = List::new(alloc);
    for bytes in xorb.chunks.as_slice() {
        chunks.push(ChunkInfo {
            hash: MerkleHash::chunk_hash(bytes.as_slice()),
            length: bytes.len().min(u32::MAX as usize) as u32,
        })?;
    }
    Ok(MDBXorbInfo {
        hash: xorb.hash,
        num_bytes: xorb.num_bytes().min(u64::from(u32::MAX)) as u32,
        chunks,
    })
}

// The store with all that was put, or none where it refuses something for another cause than a taken hash.
fn store_with(
    alloc: Global,
    mut store: MemStore,
    puts: &[Put],
) -> Result<Option<MemStore>, OutOfMemory>
    ensures { IfOk result (λ after. after ≡ store_after store puts.now) }
{
    if !add_puts(alloc, &mut store, puts)? {
        return Ok(None);
    }
    Ok(Some(store))
}

// Adds all that was put, and tells whether the store took each or had its hash.
fn add_puts(alloc: Global, store: &mut MemStore, puts: &[Put]) -> Result<bool, OutOfMemory>
    ensures { IfOk result (λ added. store_after store.old puts.now ≡ (if added then Some store.new else None)) }
{
    for put in puts {
        if !add_put(alloc, store, put)? {
            return Ok(false);
        }
    }
    Ok(true)
}

// Adds what was put, and tells whether the store took it or had its hash.
fn add_put(alloc: Global, store: &mut MemStore, put: &Put) -> Result<bool, OutOfMemory>
    ensures { IfOk result (λ added. with_put store.old put.now ≡ (if added then Some store.new else None)) }
{
    match put {
        Put::Xorb(xorb) => add_xorb(alloc, store, xorb.copied(alloc)?),
        Put::Shard(shard) => add_files(alloc, store, shard.files.as_slice()),
    }
}

// Adds a xorb, and tells whether the store took it or had its hash.
fn add_xorb(alloc: Global, store: &mut MemStore, xorb: Xorb) -> Result<bool, OutOfMemory>
    ensures { IfOk result (λ added. with_xorb store.old xorb ≡ (if added then Some store.new else None)) }
{
    match store.add_xorb(alloc, xorb) {
        Ok(()) => Ok(true),
        Err(StoreRefused::Taken) => Ok(true),
        Err(StoreRefused::OutOfMemory) => Err(OutOfMemory),
        Err(StoreRefused::EmptyChunk) => Ok(false),
        Err(StoreRefused::TooManyChunks) => Ok(false),
        Err(StoreRefused::TooLong) => Ok(false),
        Err(StoreRefused::BadTerm) => Ok(false),
    }
}

// Adds a file, and tells whether the store took it or had its hash.
fn add_file(alloc: Global, store: &mut MemStore, file: &MDBFileInfo) -> Result<bool, OutOfMemory>
    ensures { IfOk result (λ added. with_file store.old file.now ≡ (if added then Some store.new else None)) }
{
    let entries = file.entries.copied(alloc)?;
    match store.add_file(alloc, file.hash, entries) {
        Ok(()) => Ok(true),
        Err(StoreRefused::Taken) => Ok(true),
        Err(StoreRefused::OutOfMemory) => Err(OutOfMemory),
        Err(StoreRefused::EmptyChunk) => Ok(false),
        Err(StoreRefused::TooManyChunks) => Ok(false),
        Err(StoreRefused::TooLong) => Ok(false),
        Err(StoreRefused::BadTerm) => Ok(false),
    }
}

// Adds files, and tells whether the store took each or had its hash.
fn add_files(
    alloc: Global,
    store: &mut MemStore,
    files: &[MDBFileInfo],
) -> Result<bool, OutOfMemory>
    ensures { IfOk result (λ added. with_files store.old files.now ≡ (if added then Some store.new else None)) }
{
    for file in files {
        if !add_file(alloc, store, file)? {
            return Ok(false);
        }
    }
    Ok(true)
}
