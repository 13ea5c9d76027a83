//! Records in memory.
ghost use Rattle.std.specs.Prelude.{◌≡◌, ◌+◌, ◌≤◌, ◌++◌, [], ◌<◌, IfOk, OnOk, Some, drop, length, option_and_then};
ghost use Rattle.std.specs.Prelude.{vec_capacity, vec_len};
ghost use Rattle.std.specs.Option.{option_copied};
ghost use Rattle.xet_shards.specs.Runs.{counted, find_in, find_run, run_at, run_of, term_at};
ghost use Rattle.xet_shards.specs.Shards.{no_records};

use crate::shard_store::{ShardError, ShardStore};
use std::alloc::Global;
use xet_base::{
    ChunkInfo, FileDataSequenceEntry, List, MDBFileInfo, MDBXorbInfo, MerkleHash, OutOfMemory,
    ShardRecord,
};
use xet_uploader::XorbRecords;

/// Records in memory, in which chunks are found through an ordered map. It never fails.
#[derive(Drop)]
pub struct MemShards {
    xorbs: XorbRecords,
    files: Vec<MDBFileInfo>,
}

impl MemShards {
    /// No records. It takes no memory.
    pub fn new(alloc: Global) -> MemShards
        ensures { ⟦<MemShards as ShardStore>⟧.told result ≡ record { records = Some no_records; faults = 0 } }
    {
        MemShards {
            xorbs: XorbRecords::new(alloc),
            files: Vec::new(alloc),
        }
    }
}

impl ShardStore for MemShards {
    ghost told = { λ m. record {
      records = Some (record { xorbs = m.xorbs; files = m.files.items });
      faults = 0;
    } };

    /// Keeps copies of the records.
    fn add(&mut self, alloc: Global, shard: &ShardRecord) -> Result<(), ShardError> {
        let mut files = copied_files(alloc, shard.files.as_slice())?.into_inner();
        reserve(&mut self.files, files.len())?;
        self.xorbs.extend(alloc, shard.xorbs.as_slice())?;
        append_reserved(&mut self.files, &mut files);
        Ok(())
    }

    fn find(
        &mut self,
        _alloc: Global,
        hashes: &[MerkleHash],
    ) -> Result<Option<(usize, FileDataSequenceEntry)>, ShardError> {
        Ok(find_in(&self.xorbs, hashes))
    }

    fn files(&mut self, alloc: Global) -> Result<List<MDBFileInfo>, ShardError> {
        Ok(copied_files(alloc, self.files.as_slice())?)
    }

    fn all(&mut self, alloc: Global) -> Result<ShardRecord, ShardError> {
        let xorbs = copied_xorbs(alloc, self.xorbs.as_slice())?;
        let files = copied_files(alloc, self.files.as_slice())?;
        Ok(ShardRecord { xorbs, files })
    }

    fn clear(&mut self) -> Result<(), ShardError> {
        self.xorbs.clear();
        self.files.clear();
        Ok(())
    }
}

// Makes room for so many items more.
fn reserve<T>(items: &mut Vec<T>, count: usize) -> Result<(), OutOfMemory>
    ensures same { items.new.items ≡ items.old.items }
    ensures room { OnOk result (vec_len items.new + count ≤ vec_capacity items.new) }
{
    items.reserve(count)?;
    Ok(())
}

// Moves the items of a list behind those of another, which has room for them.
fn append_reserved<T>(to: &mut Vec<T>, from: &mut Vec<T>)
    requires { vec_len to.old + vec_len from.old ≤ vec_capacity to.old }
    ensures { to.new.items ≡ to.old.items ++ from.old.items }
{
    let _ = to.append(from);
}

// Equal file records, with memory of their own.
fn copied_files(alloc: Global, files: &[MDBFileInfo]) -> Result<List<MDBFileInfo>, OutOfMemory>
    ensures { IfOk result (λ copy. copy ≡ files.now) }
{
    let mut copy = List::new(alloc);
    for file in files {
        copy.push(file.copied(alloc)?)?;
    }
    Ok(copy)
}

// Equal xorb records, with memory of their own.
fn copied_xorbs(alloc: Global, xorbs: &[MDBXorbInfo]) -> Result<List<MDBXorbInfo>, OutOfMemory>
    ensures { IfOk result (λ copy. copy ≡ xorbs.now) }
{
    let mut copy = List::new(alloc);
    for xorb in xorbs {
        copy.push(xorb.copied(alloc)?)?;
    }
    Ok(copy)
}

// The run of the hashes, by the first of them.
fn find_in(records: &XorbRecords, hashes: &[MerkleHash]) -> Option<(usize, FileDataSequenceEntry)>
    ensures { result ≡ find_in records.now hashes.now }
{
    match hashes {
        [] => None,
        [first, ..] => find_run(records, first, hashes),
    }
}

// The run in the first record that has this hash, from the lowest place of the hash on.
fn find_run(
    records: &XorbRecords,
    first: &MerkleHash,
    hashes: &[MerkleHash],
) -> Option<(usize, FileDataSequenceEntry)>
    ensures { result ≡ find_run records.now first.now hashes.now }
{
    match records.first_with(first) {
        Some(place) => run_in(records.as_slice().get(place.xorb), hashes, place.chunk),
        None => None,
    }
}

// The run in a record, where there is one, from a place on.
fn run_in(
    xorb: Option<&MDBXorbInfo>,
    hashes: &[MerkleHash],
    place: usize,
) -> Option<(usize, FileDataSequenceEntry)>
    ensures { result ≡ option_and_then (λ x. run_at x hashes.now place) (option_copied xorb.entry) }
{
    match xorb {
        Some(xorb) => run_at(xorb, hashes, place),
        None => None,
    }
}

// The chunks that a term can name.
fn counted(xorb: &MDBXorbInfo) -> &[ChunkInfo]
    ensures { result.now ≡ counted xorb.now }
{
    let chunks = xorb.chunks.as_slice();
    &chunks[..chunks.len().min(u32::MAX as usize)]
}

// The longest run of the hashes from a place on, and how many hashes it has.
fn run_at(
    xorb: &MDBXorbInfo,
    hashes: &[MerkleHash],
    place: usize,
) -> Option<(usize, FileDataSequenceEntry)>
    ensures { result ≡ run_at xorb.now hashes.now place }
{
    let count = run_from(counted(xorb), hashes, place);
    if count == 0 {
        None
    } else {
        Some((count, term_at(xorb, place, count)))
    }
}

// How many of the hashes the chunks from a place on have in a row.
fn run_from(chunks: &[ChunkInfo], hashes: &[MerkleHash], place: usize) -> usize
    ensures is { result ≡ run_of hashes.now (drop place chunks.now) }
    ensures within { 0 < result → place + result ≤ length chunks.now }
{
    if place < chunks.len() {
        run_of(hashes, &chunks[place..])
    } else {
        0
    }
}

// The term of so many chunks from a place on.
fn term_at(xorb: &MDBXorbInfo, place: usize, count: usize) -> FileDataSequenceEntry
    requires { place + count ≤ length (counted xorb.now) }
    ensures { result ≡ term_at xorb.now place count }
{
    let run = &counted(xorb)[place..place + count];
    let mut bytes = 0u32;
    for chunk in run {
        bytes = bytes.saturating_add(chunk.length);
    }
    FileDataSequenceEntry {
        xorb: xorb.hash,
        from: place as u32,
        to: (place + count) as u32,
        bytes,
    }
}

// How many of the hashes the chunks have in a row.
fn run_of(hashes: &[MerkleHash], chunks: &[ChunkInfo]) -> usize
    ensures is { result ≡ run_of hashes.now chunks.now }
    ensures within { result ≤ length chunks.now }
{
    let most = hashes.len().min(chunks.len());
    let mut count = 0usize;
    for i in 0..most {
        if chunks[i].hash != hashes[i] {
            return count;
        }
        count += 1;
    }
    count
}
