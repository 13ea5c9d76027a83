//! The log of a target in memory.
ghost use Rattle.std.specs.Prelude.{◌≡◌, [], ◌∷◌, ◌++◌, IfOk, OnErr, OnOk, map};
ghost use Rattle.std.specs.List.{list_any};
ghost use Rattle.xet_base.specs.Hashes.{hash_eq};
ghost use Rattle.xet_uploader.specs.StoresAfter.{files_in};
ghost use Rattle.xet_uploader.specs.Uploads.{xorbs_in};
ghost use Rattle.xet_uploader.specs.declared.uploader.Put.TheVariants as put;

use crate::put_hashes::PutHashes;
use std::alloc::Global;
use std::marker::Model;
use xet_base::{MDBFileInfo, MerkleHash, OutOfMemory, ShardRecord, Xorb};
use xet_uploader::Put;

/// Puts in their order, among which a xorb or a file record is looked for by its hash through an ordered map and not by
/// a walk. Contracts see it as the list of the puts.
#[derive(Drop)]
pub(crate) struct PutLog {
    puts: Vec<Put>,
    // the hashes of the puts' xorbs, and of their file records
    xorbs: PutHashes,
    files: PutHashes,
}

impl Model for PutLog {
    ghost use Rattle.std.specs.Prelude.{List as Items};
    ghost use Rattle.xet_uploader.specs.declared.uploader.Put.{Put as PutValue};
    ghost use Rattle.xet_shelves.specs.steps.Indexes.{IsIndexed};

    ghost Value = { Items PutValue };

    ghost view = { λ l. l.puts.items };

    ghost invariant = { λ l. IsIndexed l.puts.items l.xorbs l.files };
}

impl PutLog {
    /// No puts. It takes no memory.
    pub(crate) fn new(alloc: Global) -> PutLog
        ensures { result ≡ [] }
    {
        PutLog {
            puts: Vec::new(alloc),
            xorbs: PutHashes::new(alloc),
            files: PutHashes::new(alloc),
        }
    }

    /// The puts, in their order.
    pub(crate) fn as_slice(&self) -> &[Put]
        ensures { result.now ≡ self.now }
    {
        self.puts.as_slice()
    }

    /// Whether a xorb with this hash was put.
    pub(crate) fn has_xorb(&self, hash: &MerkleHash) -> bool
        ensures { result ≡ list_any (λ y. hash_eq y.hash hash.now) (xorbs_in self.now) }
    {
        self.xorbs.has(hash)
    }

    /// Whether a file record with this hash was put.
    pub(crate) fn has_file(&self, hash: &MerkleHash) -> bool
        ensures { result ≡ list_any (λ r. hash_eq r.hash hash.now) (files_in self.now) }
    {
        self.files.has(hash)
    }

    /// Adds a xorb, whose chunks share memory with the given one's.
    ///
    /// `OutOfMemory` where an allocation was refused, and then the log is as it was.
    pub(crate) fn push_xorb(&mut self, alloc: Global, xorb: &Xorb) -> Result<(), OutOfMemory>
        ensures ok { OnOk result (self.new ≡ self.old ++ put.Xorb xorb.now ∷ []) }
        ensures err { OnErr result (self.new ≡ self.old) }
    {
        let copy = xorb.copied(alloc)?;
        self.puts.reserve(1)?;
        self.xorbs.extend(&[copy.hash])?;
        self.puts.push_reserved(Put::Xorb(copy));
        Ok(())
    }

    /// Adds records, with memory of their own.
    ///
    /// `OutOfMemory` where an allocation was refused, and then the log is as it was.
    pub(crate) fn push_shard(
        &mut self,
        alloc: Global,
        shard: &ShardRecord,
    ) -> Result<(), OutOfMemory>
        ensures ok { OnOk result (self.new ≡ self.old ++ put.Shard shard.now ∷ []) }
        ensures err { OnErr result (self.new ≡ self.old) }
    {
        let copy = shard.copied(alloc)?;
        let hashes = hashes_of(alloc, copy.files.as_slice())?;
        self.puts.reserve(1)?;
        self.files.extend(hashes.as_slice())?;
        self.puts.push_reserved(Put::Shard(copy));
        Ok(())
    }
}

/// The hashes of file records, in order.
pub(crate) fn hashes_of(
    alloc: Global,
    files: &[MDBFileInfo],
) -> Result<Vec<MerkleHash>, OutOfMemory>
    ensures { IfOk result (λ hashes. hashes.items ≡ map (λ f. f.hash) files.now) }
{
    let mut hashes = Vec::with_capacity(alloc, files.len())?;
    for file in files {
        hashes.push(file.hash)?;
    }
    Ok(hashes)
}
