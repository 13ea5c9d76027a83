//! Data that waits to become a xorb.
ghost use Rattle.std.specs.Prelude.{◌≡◌, ◌+◌, ◌++◌, ◌∷◌, ◌<◌, ◌≤◌, ◌↔◌, [], All, IfOk, IsTrue, OnErr, OnOk, length};
ghost use Rattle.std.specs.Prelude.{map, vec_capacity, vec_len};
ghost use Rattle.std.specs.List.{AllZip, concat};
ghost use Rattle.xet_base.specs.Digests.{info_of, infos_of, xorb_hash_of};
ghost use Rattle.xet_base.specs.Records.{Describes};
ghost use Rattle.xet_waiting.specs.Waitings.{AreCounted, HaveBytes, IsCounted, IsPending, IsWithin, file_shifted};
ghost use Rattle.xet_waiting.specs.Waitings.{merged, named, no_waiting, own_bytes, shifted, xorb_of_chunks};

use crate::limits::{XORB_BYTES, XORB_CHUNKS};
use crate::raw_xorb::{PendingFile, RawXorbData};
use crate::waiting::{TermXorb, WaitingFile, WaitingTerm};
use bytes::Bytes;
use std::alloc::Global;
use std::marker::Model;
use std::mem;
use xet_base::{
    ChunkInfo, FileDataSequenceEntry, List, MDBFileInfo, MDBXorbInfo, MerkleHash, OutOfMemory, Xorb,
};

/// Chunks that wait to become a xorb, and the files that have them. Contracts see it as the list of the chunks and the
/// list of the files. It keeps within what one xorb may have, and each term of a file that counts in the
/// chunks lies within them.
///
/// In the Rust crates: `deduplication::DataAggregator`.
#[derive(Drop)]
pub struct DataAggregator {
    chunks: Vec<Bytes>,
    infos: Vec<ChunkInfo>,
    num_bytes: u64,
    files: Vec<WaitingFile>,
}

impl Model for DataAggregator {
    ghost use Rattle.xet_waiting.specs.Waitings.{Waiting};

    ghost Value = { Waiting };

    ghost use Rattle.xet_waiting.specs.Waitings.{IsKept};

    ghost view = { λ a. record { chunks = a.chunks.items; files = a.files.items } };

    ghost invariant = { λ a. IsKept a.chunks.items a.infos.items a.num_bytes a.files.items };
}

impl DataAggregator {
    /// No chunks and no files. It takes no memory.
    pub fn new(alloc: Global) -> DataAggregator
        ensures { result ≡ no_waiting }
    {
        DataAggregator {
            chunks: Vec::new(alloc),
            infos: Vec::new(alloc),
            num_bytes: 0,
            files: Vec::new(alloc),
        }
    }

    /// How many bytes the chunks have together.
    pub fn num_bytes(&self) -> u64
        ensures bytes { result ≡ length (concat self.now.chunks) }
        ensures within { IsWithin self.now.chunks }
    {
        self.num_bytes
    }

    /// How many chunks there are.
    pub fn num_chunks(&self) -> u64
        ensures chunks { result ≡ length self.now.chunks }
        ensures within { IsWithin self.now.chunks }
        ensures some { HaveBytes self.now.chunks }
        ensures counted { AreCounted (length self.now.chunks) self.now.files }
    {
        self.chunks.len() as u64
    }

    /// How many files there are.
    pub fn num_files(&self) -> usize
        ensures { result ≡ length self.now.files }
    {
        self.files.len()
    }

    /// Whether one more chunk keeps the limits of a xorb.
    pub fn has_room(&self, chunk: &[u8]) -> bool
        ensures { IsTrue result ↔ IsWithin (self.now.chunks ++ chunk.now ∷ []) }
    {
        if self.num_chunks() + 1 > XORB_CHUNKS {
            return false;
        }
        if self.num_bytes() + chunk.len() as u64 > XORB_BYTES {
            return false;
        }
        true
    }

    /// Whether both together keep the limits of a xorb.
    pub fn fits_with(&self, other: &DataAggregator) -> bool
        ensures { IsTrue result ↔ IsWithin (self.now.chunks ++ other.now.chunks) }
    {
        if self.num_chunks() + other.num_chunks() > XORB_CHUNKS {
            return false;
        }
        if self.num_bytes() + other.num_bytes() > XORB_BYTES {
            return false;
        }
        true
    }

    /// Adds a chunk with its hash and length. The caller sees to it that the limits of a xorb are kept and that the
    /// chunk has a byte.
    ///
    /// `OutOfMemory` where an allocation was refused, and then all is as it was.
    pub fn push_chunk(&mut self, chunk: Bytes, info: ChunkInfo) -> Result<(), OutOfMemory>
        requires info { info ≡ info_of chunk }
        requires within { IsWithin (self.old.chunks ++ chunk ∷ []) }
        requires some { 0 < length chunk }
        ensures ok { OnOk result (self.new ≡ record self.old { chunks = self.old.chunks ++ chunk ∷ [] }) }
        ensures err { OnErr result (self.new ≡ self.old) }
    {
        self.infos.reserve(1)?;
        self.chunks.reserve(1)?;
        self.num_bytes += u64::from(info.length);
        self.infos.push_reserved(info);
        self.chunks.push_reserved(chunk);
        Ok(())
    }

    /// Adds a file, whose terms may count in the chunks. The caller sees to it that these lie within them.
    ///
    /// `OutOfMemory` where an allocation was refused, and then all is as it was.
    pub fn push_file(&mut self, file: WaitingFile) -> Result<(), OutOfMemory>
        requires { All (IsCounted (length self.old.chunks)) file.terms }
        ensures ok { OnOk result (self.new ≡ record self.old { files = self.old.files ++ file ∷ [] }) }
        ensures err { OnErr result (self.new ≡ self.old) }
    {
        self.files.push(file)?;
        Ok(())
    }

    /// Adds the chunks and the files of another one behind its own. The caller sees to it that both together are within
    /// the limits of a xorb.
    ///
    /// `OutOfMemory` where an allocation was refused, and then all is as it was.
    ///
    /// In the Rust crates: `DataAggregator::merge_in`.
    pub fn merge_in(&mut self, alloc: Global, mut other: DataAggregator) -> Result<(), OutOfMemory>
        requires within { IsWithin (self.old.chunks ++ other.chunks) }
        ensures ok { OnOk result (self.new ≡ merged self.old other) }
        ensures err { OnErr result (self.new ≡ self.old) }
    {
        let before = self.chunks.len() as u32;
        self.infos.reserve(other.infos.len())?;
        self.chunks.reserve(other.chunks.len())?;
        self.files.reserve(other.files.len())?;
        self.num_bytes += other.num_bytes;
        append_reserved(&mut self.infos, &mut other.infos);
        append_reserved(&mut self.chunks, &mut other.chunks);
        shift_files(alloc, other.files.as_mut_slice(), before);
        append_reserved(&mut self.files, &mut other.files);
        Ok(())
    }

    /// The chunks as a xorb with its record, and the files with their records, in the order in which they were added.
    /// It leaves no chunks and no files.
    ///
    /// `OutOfMemory` where an allocation was refused, and then all is as it was.
    ///
    /// In the Rust crates: `DataAggregator::finalize`.
    pub fn finalize(
        &mut self,
        alloc: Global,
    ) -> Result<(RawXorbData, List<PendingFile>), OutOfMemory>
        ensures xorb { IfOk result (λ r. r.0.xorb ≡ xorb_of_chunks self.old.chunks) }
        ensures info { IfOk result (λ r. Describes r.0.xorb_info r.0.xorb) }
        ensures files { IfOk result (λ r.
            AllZip (IsPending (xorb_hash_of (infos_of self.old.chunks))) self.old.files r.1) }
        ensures emptied { OnOk result (self.new ≡ no_waiting) }
        ensures kept { OnErr result (self.new ≡ self.old) }
    {
        let hash = MerkleHash::xorb_hash(self.infos.as_slice());
        let files = pending_files(alloc, hash, self.files.as_slice())?;
        let chunks = mem::replace(&mut self.chunks, Vec::new(alloc));
        let infos = mem::replace(&mut self.infos, Vec::new(alloc));
        let num_bytes = self.num_bytes as u32;
        self.num_bytes = 0;
        self.files = Vec::new(alloc);
        let xorb = Xorb {
            hash,
            chunks: List::from_vec(chunks),
        };
        let xorb_info = MDBXorbInfo {
            hash,
            num_bytes,
            chunks: List::from_vec(infos),
        };
        Ok((RawXorbData { xorb, xorb_info }, files))
    }
}

// Moves the items of a list behind those of another, which has room for them.
fn append_reserved<T>(to: &mut Vec<T>, from: &mut Vec<T>)
    requires { vec_len to.old + vec_len from.old ≤ vec_capacity to.old }
    ensures { to.new.items ≡ to.old.items ++ from.old.items }
{
    let _ = to.append(from);
}

// Moves the terms of the files that count in the waiting chunks behind so many chunks.
fn shift_files(alloc: Global, files: &mut [WaitingFile], by: u32)
    ensures { files.new ≡ map (file_shifted by) files.old }
{
    for file in files.iter_mut() {
        shift_file(alloc, file, by);
    }
}

// Moves the terms of the file that count in the waiting chunks behind so many chunks.
fn shift_file(alloc: Global, file: &mut WaitingFile, by: u32)
    ensures { file.new ≡ file_shifted by file.old }
{
    let mut terms = mem::replace(&mut file.terms, List::new(alloc)).into_inner();
    shift_terms(terms.as_mut_slice(), by);
    file.terms = List::from_vec(terms);
}

// Moves the terms that count in the waiting chunks behind so many chunks.
fn shift_terms(terms: &mut [WaitingTerm], by: u32)
    ensures { terms.new ≡ map (shifted by) terms.old }
{
    for term in terms.iter_mut() {
        *term = shifted(term, by);
    }
}

// The term, where so many chunks were put before the waiting ones.
fn shifted(term: &WaitingTerm, by: u32) -> WaitingTerm
    ensures { result ≡ shifted by term.now }
{
    match term.xorb {
        TermXorb::Own => WaitingTerm {
            xorb: TermXorb::Own,
            from: term.from.saturating_add(by),
            to: term.to.saturating_add(by),
            bytes: term.bytes,
        },
        TermXorb::Stored(_) => *term,
    }
}

// The records of the files, given the hash of the xorb.
fn pending_files(
    alloc: Global,
    hash: MerkleHash,
    files: &[WaitingFile],
) -> Result<List<PendingFile>, OutOfMemory>
    ensures { IfOk result (λ pending. AllZip (IsPending hash) files.now pending) }
{
    let mut pending = List::new(alloc);
    for file in files {
        pending.push(pending_file(alloc, hash, file)?)?;
    }
    Ok(pending)
}

// The record of a file, given the hash of the xorb.
fn pending_file(
    alloc: Global,
    hash: MerkleHash,
    file: &WaitingFile,
) -> Result<PendingFile, OutOfMemory>
    ensures { IfOk result (λ pending. IsPending hash file.now pending) }
{
    let mut entries = List::new(alloc);
    let mut bytes_in_xorb = 0u64;
    for term in file.terms.as_slice() {
        entries.push(named(term, hash))?;
        bytes_in_xorb = bytes_in_xorb.saturating_add(own_bytes(term));
    }
    let info = MDBFileInfo {
        hash: file.hash,
        entries,
        sha256: file.sha256,
    };
    Ok(PendingFile {
        file_id: file.file_id,
        info,
        bytes_in_xorb,
    })
}

// The term, given the hash of the xorb.
fn named(term: &WaitingTerm, hash: MerkleHash) -> FileDataSequenceEntry
    ensures { result ≡ named hash term.now }
{
    let xorb = match term.xorb {
        TermXorb::Own => hash,
        TermXorb::Stored(stored) => stored,
    };
    FileDataSequenceEntry {
        xorb,
        from: term.from,
        to: term.to,
        bytes: term.bytes,
    }
}

// How many bytes of the term wait.
fn own_bytes(term: &WaitingTerm) -> u64
    ensures { result ≡ own_bytes term.now.xorb term.now.bytes }
{
    match term.xorb {
        TermXorb::Own => u64::from(term.bytes),
        TermXorb::Stored(_) => 0,
    }
}
