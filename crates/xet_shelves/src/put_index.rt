//! The hashes of a log of puts that is told to proofs alone.
ghost use Rattle.std.specs.Prelude.{◌≡◌, [], ◌∷◌, ◌++◌, OnErr, OnOk};
ghost use Rattle.std.specs.List.{list_any};
ghost use Rattle.xet_base.specs.Hashes.{hash_eq};
ghost use Rattle.xet_uploader.specs.StoresAfter.{files_in};
ghost use Rattle.xet_uploader.specs.Uploads.{xorbs_in};
ghost use Rattle.xet_uploader.specs.declared.uploader.Put.TheVariants as put;

use crate::put_hashes::PutHashes;
use crate::put_log::hashes_of;
use crate::told_puts::ToldPuts;
use std::alloc::Global;
use std::marker::Model;
use xet_base::{MerkleHash, OutOfMemory, ShardRecord, Xorb};

/// The hashes of the xorbs and of the file records of puts, each of which is found through an ordered map. Contracts
/// see it as the list of the puts, which isn't kept.
#[derive(Drop)]
pub(crate) struct PutIndex {
    puts: ToldPuts,
    xorbs: PutHashes,
    files: PutHashes,
}

impl Model for PutIndex {
    ghost use Rattle.std.specs.Prelude.{List as Items};
    ghost use Rattle.xet_uploader.specs.declared.uploader.Put.{Put as PutValue};
    ghost use Rattle.xet_shelves.specs.steps.Indexes.{IsIndexed};

    ghost Value = { Items PutValue };

    ghost view = { λ l. l.puts.told };

    ghost invariant = { λ l. IsIndexed l.puts.told l.xorbs l.files };
}

impl PutIndex {
    /// No puts. It takes no memory.
    pub(crate) fn new(alloc: Global) -> PutIndex
        ensures { result ≡ [] }
    {
        PutIndex {
            puts: ToldPuts::new(),
            xorbs: PutHashes::new(alloc),
            files: PutHashes::new(alloc),
        }
    }

    /// Whether a xorb with this hash was put.
    pub(crate) fn has_xorb(&self, hash: &MerkleHash) -> bool
        ensures { result ≡ list_any (λ y. hash_eq y.hash hash.now) (xorbs_in self.now) }
    {
        self.xorbs.has(hash)
    }

    /// Whether a file record with this hash was put.
    pub(crate) fn has_file(&self, hash: &MerkleHash) -> bool
        ensures { result ≡ list_any (λ r. hash_eq r.hash hash.now) (files_in self.now) }
    {
        self.files.has(hash)
    }

    /// Adds a xorb.
    ///
    /// `OutOfMemory` where an allocation was refused, and then the index is as it was.
    pub(crate) fn push_xorb(&mut self, xorb: &Xorb) -> Result<(), OutOfMemory>
        ensures ok { OnOk result (self.new ≡ self.old ++ put.Xorb xorb.now ∷ []) }
        ensures err { OnErr result (self.new ≡ self.old) }
    {
        self.xorbs.extend(&[xorb.hash])?;
        self.puts.push_xorb(xorb);
        Ok(())
    }

    /// Adds records.
    ///
    /// `OutOfMemory` where an allocation was refused, and then the index is as it was.
    pub(crate) fn push_shard(
        &mut self,
        alloc: Global,
        shard: &ShardRecord,
    ) -> Result<(), OutOfMemory>
        ensures ok { OnOk result (self.new ≡ self.old ++ put.Shard shard.now ∷ []) }
        ensures err { OnErr result (self.new ≡ self.old) }
    {
        let hashes = hashes_of(alloc, shard.files.as_slice())?;
        self.files.extend(hashes.as_slice())?;
        self.puts.push_shard(shard);
        Ok(())
    }
}
