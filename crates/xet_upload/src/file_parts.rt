//! What was cut of a file: its terms, and the chunks of its own that wait.
ghost use Rattle.std.specs.Prelude.{◌≡◌, ◌+◌, ◌++◌, ◌∷◌, ◌<◌, ◌↔◌, [], All, IfOk, IsTrue, OnErr, OnOk, length, map};
ghost use Rattle.std.specs.List.{concat};
ghost use Rattle.xet_base.specs.Digests.{info_of, xorb_hash_of, infos_of};
ghost use Rattle.xet_base.specs.Records.{Describes};
ghost use Rattle.xet_upload.specs.FileDatas.{FoundAdded, OwnAdded, cut_parts, no_parts, with_file};
ghost use Rattle.xet_waiting.specs.Waitings.{HaveBytes, IsCounted, IsWithin, xorb_of_chunks};

use crate::open_terms::OpenTerms;
use bytes::Bytes;
use std::alloc::Global;
use std::marker::Model;
use xet_base::{ChunkInfo, List, MerkleHash, OutOfMemory};
use xet_waiting::{DataAggregator, RawXorbData, TermXorb, WaitingFile, WaitingTerm};

/// What was cut of a file so far: the chunks of its own that wait, its terms, and the hash and the length of each of
/// its chunks. Each term that counts in the waiting chunks lies within them. Contracts see the three.
///
/// In the Rust crates: `deduplication::FileDeduper`.
#[derive(Drop)]
pub struct FileParts {
    // the chunks that no xorb has yet; it has no files
    own: DataAggregator,
    // the terms of the file, in order
    terms: OpenTerms,
    // the hash and the length of each chunk of the file, in order
    infos: List<ChunkInfo>,
}

impl Model for FileParts {
    ghost use Rattle.std.specs.Prelude.{◌≡◌, [], All, length};
    ghost use Rattle.xet_upload.specs.FileDatas.{Parts};
    ghost use Rattle.xet_waiting.specs.Waitings.{IsCounted};

    ghost Value = { Parts };

    ghost view = { λ p. record { own = p.own; terms = p.terms; infos = p.infos } };

    ghost invariant = { λ p. All (IsCounted (length p.own.chunks)) p.terms × (p.own.files ≡ []) };
}

impl FileParts {
    /// Nothing was cut yet. It takes no memory.
    pub fn new(alloc: Global) -> FileParts
        ensures { result ≡ no_parts }
    {
        FileParts {
            own: DataAggregator::new(alloc),
            terms: OpenTerms::new(alloc),
            infos: List::new(alloc),
        }
    }

    /// How many chunks of its own wait.
    pub fn num_chunks(&self) -> u64
        ensures chunks { result ≡ length self.now.own.chunks }
        ensures within { IsWithin self.now.own.chunks }
        ensures some { HaveBytes self.now.own.chunks }
        ensures counted { All (IsCounted (length self.now.own.chunks)) self.now.terms }
        ensures no_files { self.now.own.files ≡ [] }
    {
        self.own.num_chunks()
    }

    /// How many bytes these have together.
    pub fn num_bytes(&self) -> u64
        ensures { result ≡ length (concat self.now.own.chunks) }
    {
        self.own.num_bytes()
    }

    /// Whether one more chunk that waits keeps the limits of a xorb.
    pub fn has_room(&self, chunk: &[u8]) -> bool
        ensures { IsTrue result ↔ IsWithin (self.now.own.chunks ++ chunk.now ∷ []) }
    {
        self.own.has_room(chunk)
    }

    /// The hash and the length of each chunk of the file, in order.
    pub fn infos(&self) -> &[ChunkInfo]
        ensures { result.now ≡ self.now.infos }
    {
        self.infos.as_slice()
    }

    /// The terms of the file, in order.
    pub fn terms(&self) -> &OpenTerms
        ensures { result.now ≡ self.now.terms }
    {
        &self.terms
    }

    /// Adds a chunk to those that wait. The caller sees to it that the limits of a xorb are kept and that the chunk has
    /// a byte.
    ///
    /// `OutOfMemory` where an allocation was refused; then nothing is known of the parts.
    pub fn add_own(&mut self, chunk: Bytes, info: ChunkInfo) -> Result<(), OutOfMemory>
        requires info { info ≡ info_of chunk }
        requires within { IsWithin (self.old.own.chunks ++ chunk ∷ []) }
        requires some { 0 < length chunk }
        ensures { OnOk result (OwnAdded self.old chunk self.new) }
    {
        let from = self.own.num_chunks() as u32;
        let term = WaitingTerm {
            xorb: TermXorb::Own,
            from,
            to: from + 1,
            bytes: info.length,
        };
        self.own.push_chunk(chunk, info)?;
        self.terms.add(term)?;
        self.infos.push(info)?;
        Ok(())
    }

    /// Adds a chunk that a xorb has at a place.
    ///
    /// `OutOfMemory` where an allocation was refused; then nothing is known of the parts.
    pub fn add_found(
        &mut self,
        xorb: MerkleHash,
        from: u32,
        to: u32,
        info: ChunkInfo,
    ) -> Result<(), OutOfMemory>
        requires { from + 1 ≡ to }
        ensures { OnOk result (FoundAdded self.old xorb from info self.new) }
    {
        let bytes = info.length;
        let term = WaitingTerm {
            xorb: TermXorb::Stored(xorb),
            from,
            to,
            bytes,
        };
        self.terms.add(term)?;
        self.infos.push(info)?;
        Ok(())
    }

    /// Makes a xorb of the chunks that wait, with its record, and names it in the terms that counted in them. No chunks
    /// wait then.
    ///
    /// `OutOfMemory` where an allocation was refused, and then all is as it was.
    pub fn cut(&mut self, alloc: Global) -> Result<RawXorbData, OutOfMemory>
        ensures xorb { IfOk result (λ r. r.xorb ≡ xorb_of_chunks self.old.own.chunks) }
        ensures info { IfOk result (λ r. Describes r.xorb_info r.xorb) }
        ensures named { OnOk result (self.new ≡ cut_parts self.old) }
        ensures kept { OnErr result (self.new ≡ self.old) }
    {
        let (raw, _files) = self.own.finalize(alloc)?;
        self.terms.name_own(raw.xorb.hash);
        Ok(raw)
    }

    /// The chunks that wait with the file, whose terms are those that were cut. `OutOfMemory` where an allocation was
    /// refused.
    pub fn into_waiting(
        self,
        file_id: u64,
        hash: MerkleHash,
        sha256: Option<MerkleHash>,
    ) -> Result<DataAggregator, OutOfMemory>
        ensures waiting { IfOk result (λ waiting. waiting ≡ with_file self file_id hash sha256) }
        ensures no_files { self.own.files ≡ [] }
    {
        let terms = self.terms.into_list()?;
        let file = WaitingFile {
            file_id,
            hash,
            terms,
            sha256,
        };
        let mut own = self.own;
        own.push_file(file)?;
        Ok(own)
    }
}
