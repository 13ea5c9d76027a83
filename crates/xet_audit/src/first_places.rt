//! Findings of kinds 1 and 4: hashes that stand at an earlier place too.
ghost use Rattle.std.specs.Prelude.{◌≡◌, ◌++◌, ◌∷◌, [], IfOk, List as Items, OnOk, length, map};
ghost use Rattle.std.specs.List.{list_any};
ghost use Rattle.xet_base.specs.Hashes.{hash_eq};
ghost use Rattle.xet_base.specs.declared.merklehash.MerkleHash.{MerkleHash};
ghost use Rattle.xet_audit.specs.Findings.{each_at, is_later_file, is_later_xorb};
ghost use Rattle.xet_audit.specs.Raws.{store_of_raw};
ghost use Rattle.xet_audit.specs.steps.Tables.{IsTable};

use crate::raw_store::RawStore;
use std::alloc::Global;
use xet_base::{KeyIndex, MerkleHash, OutOfMemory};
use xet_findings::{Finding, add_if};

/// Different hashes, each with the place at which it stands first among some hashes.
#[derive(Drop)]
pub(crate) struct FirstPlaces {
    pub(crate) hashes: KeyIndex<MerkleHash>,
    pub(crate) places: Vec<usize>,
}

impl FirstPlaces {
    /// Of no hashes.
    pub(crate) fn new(alloc: Global) -> FirstPlaces
        ensures hashes { result.hashes ≡ [] }
        ensures places { result.places.items ≡ [] }
    {
        FirstPlaces {
            hashes: KeyIndex::new(alloc),
            places: Vec::new(alloc),
        }
    }

    /// Adds the hash at this place, behind all others. Whether it stands at an earlier place too.
    pub(crate) fn add(&mut self, hash: MerkleHash, place: usize) -> Result<bool, OutOfMemory>
        ensures { IfOk result (λ later. (hs : Items MerkleHash)
            → IsTable hs self.old.hashes self.old.places.items → length hs ≡ place
            → (later ≡ list_any (λ y. hash_eq y hash) hs)
            × IsTable (hs ++ hash ∷ []) self.new.hashes self.new.places.items) }
    {
        if self.hashes.number_or_add(hash)?.is_some() {
            return Ok(true);
        }
        self.places.push(place)?;
        Ok(false)
    }

    // Adds the xorbs' hashes, where there are none, and a finding of kind 1 for each that stands at an earlier place
    // too.
    fn add_xorbs(&mut self, raw: &RawStore, found: &mut Vec<Finding>) -> Result<(), OutOfMemory>
        requires hashes { self.old.hashes ≡ [] }
        requires places { self.old.places.items ≡ [] }
        ensures table { OnOk result (IsTable (map (λ x. x.hash) raw.now.xorbs) self.new.hashes self.new.places.items) }
        ensures found { OnOk result (found.new.items ≡ found.old.items
            ++ each_at 1 (is_later_xorb (store_of_raw raw.now)) (store_of_raw raw.now).xorbs) }
    {
        for (a, xorb) in raw.xorbs.as_slice().iter().enumerate() {
            let later = self.add(xorb.hash, a)?;
            let finding = Finding {
                kind: 1,
                a: a as u64,
                b: 0,
            };
            add_if(found, later, finding)?;
        }
        Ok(())
    }

    // Adds the files' hashes, where there are none, and a finding of kind 4 for each that stands at an earlier place
    // too.
    fn add_files(&mut self, raw: &RawStore, found: &mut Vec<Finding>) -> Result<(), OutOfMemory>
        requires hashes { self.old.hashes ≡ [] }
        requires places { self.old.places.items ≡ [] }
        ensures { OnOk result (found.new.items ≡ found.old.items
            ++ each_at 4 (is_later_file (store_of_raw raw.now)) (store_of_raw raw.now).files) }
    {
        for (a, file) in raw.files.as_slice().iter().enumerate() {
            let later = self.add(file.hash, a)?;
            let finding = Finding {
                kind: 4,
                a: a as u64,
                b: 0,
            };
            add_if(found, later, finding)?;
        }
        Ok(())
    }
}

/// Where the xorbs' hashes stand first. Adds a finding of kind 1 for each xorb with an earlier one's hash.
pub(crate) fn find_later_xorbs(
    alloc: Global,
    raw: &RawStore,
    found: &mut Vec<Finding>,
) -> Result<FirstPlaces, OutOfMemory>
    ensures table { IfOk result (λ t. IsTable (map (λ x. x.hash) raw.now.xorbs) t.hashes t.places.items) }
    ensures found { OnOk result (found.new.items ≡ found.old.items
        ++ each_at 1 (is_later_xorb (store_of_raw raw.now)) (store_of_raw raw.now).xorbs) }
{
    let mut firsts = FirstPlaces::new(alloc);
    firsts.add_xorbs(raw, found)?;
    Ok(firsts)
}

/// Adds a finding of kind 4 for each file with an earlier one's hash.
pub(crate) fn find_later_files(
    alloc: Global,
    raw: &RawStore,
    found: &mut Vec<Finding>,
) -> Result<(), OutOfMemory>
    ensures { OnOk result (found.new.items ≡ found.old.items
        ++ each_at 4 (is_later_file (store_of_raw raw.now)) (store_of_raw raw.now).files) }
{
    FirstPlaces::new(alloc).add_files(raw, found)
}
