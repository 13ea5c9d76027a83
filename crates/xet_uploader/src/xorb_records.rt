//! Records of xorbs, in which chunks are found by their hashes.
ghost use Rattle.std.specs.Prelude.{◌≡◌, [], ◌∷◌, ◌++◌, OnErr, OnOk, length, option_map, slice_get, take};
ghost use Rattle.xet_uploader.specs.XorbRecords.{first_with};
ghost use Rattle.xet_uploader.specs.steps.ChunkPlaces.{Kept, Noted, NotedFrom, checked, hash_at, is_hash};

use std::alloc::Global;
use std::collections::BTreeMap;
use std::marker::Model;
use xet_base::{ChunkInfo, MDBXorbInfo, MerkleHash, OutOfMemory};

/// Where a chunk stands among records of xorbs.
#[derive(Clone, Copy, PartialEq, Eq)]
pub struct ChunkPlace {
    /// The number of the record, counted from 0.
    pub xorb: usize,
    /// The number of the chunk in its xorb, counted from 0.
    pub chunk: usize,
}

/// Records of xorbs, in which the first chunk with a hash is found through an ordered map and not by a walk. Contracts
/// see it as the list of the records.
#[derive(Drop)]
pub struct XorbRecords {
    records: Vec<MDBXorbInfo>,
    // where each hash stands first; an add that was refused may leave places behind that do not have their hash
    places: BTreeMap<MerkleHash, ChunkPlace>,
}

impl Model for XorbRecords {
    ghost use Rattle.std.specs.Prelude.{List as Items};
    ghost use Rattle.xet_base.specs.declared.mdb_shard.MDBXorbInfo.{MDBXorbInfo as XorbInfo};
    ghost use Rattle.xet_uploader.specs.steps.ChunkPlaces.{Places};

    ghost Value = { Items XorbInfo };

    ghost view = { λ s. s.records.items };

    ghost invariant = { λ s. Places ⟦<MerkleHash as Ord>⟧.cmp s.records.items s.places };
}

impl XorbRecords {
    /// No records. It takes no memory.
    pub fn new(alloc: Global) -> XorbRecords
        ensures { result ≡ [] }
    {
        XorbRecords {
            records: Vec::new(alloc),
            places: BTreeMap::new(alloc),
        }
    }

    /// The records, in the order in which they were added.
    pub fn as_slice(&self) -> &[MDBXorbInfo]
        ensures { result.now ≡ self.now }
    {
        self.records.as_slice()
    }

    /// Where the hash stands first: the first record that has a chunk with it, and the first such chunk of that record.
    /// None where no record has one.
    pub fn first_with(&self, hash: &MerkleHash) -> Option<ChunkPlace>
        ensures { result ≡ first_with self.now hash.now }
    {
        let place = self.places.get(hash).copied();
        checked(self.records.as_slice(), hash, place)
    }

    /// Adds a record at the end.
    ///
    /// `OutOfMemory` where an allocation was refused, and then the records are as they were and the new one is dropped.
    pub fn push(&mut self, info: MDBXorbInfo) -> Result<(), OutOfMemory>
        ensures ok { OnOk result (self.new ≡ self.old ++ info ∷ []) }
        ensures err { OnErr result (self.new ≡ self.old) }
    {
        self.records.reserve(1)?;
        note_all(
            &mut self.places,
            self.records.as_slice(),
            info.chunks.as_slice(),
        )?;
        self.records.push_reserved(info);
        Ok(())
    }

    /// Adds copies of records at the end, in order.
    ///
    /// `OutOfMemory` where an allocation was refused, and then the records are as they were.
    pub fn extend(&mut self, alloc: Global, more: &[MDBXorbInfo]) -> Result<(), OutOfMemory>
        ensures ok { OnOk result (self.new ≡ self.old ++ more.now) }
        ensures err { OnErr result (self.new ≡ self.old) }
    {
        let count = self.records.len();
        match self.push_copies(alloc, more) {
            Ok(()) => Ok(()),
            Err(refused) => {
                self.truncate(count);
                Err(refused)
            }
        }
    }

    /// Forgets all records.
    pub fn clear(&mut self)
        ensures { self.new ≡ [] }
    {
        self.records.clear();
        self.places.clear();
    }

    // Adds copies of records at the end, and leaves some of them there where memory was refused.
    fn push_copies(&mut self, alloc: Global, more: &[MDBXorbInfo]) -> Result<(), OutOfMemory>
        ensures ok { OnOk result (self.new ≡ self.old ++ more.now) }
        ensures err { OnErr result (take (length self.old) self.new ≡ self.old) }
    {
        for info in more {
            self.push(info.copied(alloc)?)?;
        }
        Ok(())
    }

    // Keeps so many records.
    fn truncate(&mut self, count: usize)
        ensures { self.new ≡ take count self.old }
    {
        self.records.truncate(count);
    }
}

// The place, where the chunk there has the hash.
fn checked(
    records: &[MDBXorbInfo],
    hash: &MerkleHash,
    place: Option<ChunkPlace>,
) -> Option<ChunkPlace>
    ensures { result ≡ checked records.now hash.now place }
{
    match place {
        Some(place) => {
            if is_at(records, hash, place) {
                Some(place)
            } else {
                None
            }
        }
        None => None,
    }
}

// Whether the chunk at the place has the hash.
fn is_at(records: &[MDBXorbInfo], hash: &MerkleHash, place: ChunkPlace) -> bool
    ensures { result ≡ is_hash hash.now (hash_at records.now place) }
{
    match hash_at(records, place) {
        Some(found) => found == *hash,
        None => false,
    }
}

// The hash of the chunk at the place.
fn hash_at(records: &[MDBXorbInfo], place: ChunkPlace) -> Option<MerkleHash>
    ensures { result ≡ hash_at records.now place }
{
    match records.get(place.xorb) {
        Some(info) => chunk_hash_at(info.chunks.as_slice(), place.chunk),
        None => None,
    }
}

// The hash of the chunk with this number.
fn chunk_hash_at(chunks: &[ChunkInfo], number: usize) -> Option<MerkleHash>
    ensures { result ≡ option_map (λ c. c.hash) (slice_get chunks.now number) }
{
    match chunks.get(number) {
        Some(chunk) => Some(chunk.hash),
        None => None,
    }
}

// Notes that a chunk of the next record has the hash, unless a record before it has.
fn note(
    places: &mut BTreeMap<MerkleHash, ChunkPlace>,
    records: &[MDBXorbInfo],
    hash: &MerkleHash,
    chunk: usize,
) -> Result<(), OutOfMemory>
    ensures ok { OnOk result (Noted ⟦<MerkleHash as Ord>⟧.cmp records.now hash.now chunk places.old places.new) }
    ensures err { OnErr result (Kept ⟦<MerkleHash as Ord>⟧.cmp records.now places.old places.new) }
{
    let old = places.get(hash).copied();
    if checked(records, hash, old).is_some() {
        return Ok(());
    }
    let place = ChunkPlace {
        xorb: records.len(),
        chunk,
    };
    if places.insert(*hash, place).is_err() {
        return Err(OutOfMemory);
    }
    Ok(())
}

// Notes the chunks of the next record, from the last to the first, so that of equal hashes the first chunk counts.
fn note_all(
    places: &mut BTreeMap<MerkleHash, ChunkPlace>,
    records: &[MDBXorbInfo],
    chunks: &[ChunkInfo],
) -> Result<(), OutOfMemory>
    ensures ok { OnOk result (NotedFrom ⟦<MerkleHash as Ord>⟧.cmp records.now chunks.now 0 places.old places.new) }
    ensures err { OnErr result (Kept ⟦<MerkleHash as Ord>⟧.cmp records.now places.old places.new) }
{
    let count = chunks.len();
    for noted in 0..count {
        let number = count - 1 - noted;
        note(places, records, &chunks[number].hash, number)?;
    }
    Ok(())
}
