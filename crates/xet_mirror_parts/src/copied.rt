//! What was looked at and copied so far in a call.
ghost use Rattle.std.specs.Prelude.{◌≡◌, ◌++◌, ◌∷◌, [], IfErr, IfOk, List as Items, OnOk, false, map};
ghost use Rattle.xet_base.specs.declared.merklehash.MerkleHash.{MerkleHash as HashValue};

use crate::report::{MirrorError, MirrorReport};
use crate::xorb_record::{is_named, record_of};
use std::alloc::Global;
use xet_base::{
    FileDataSequenceEntry, KeyIndex, Keyed, KeyedList, List, MDBFileInfo, MDBXorbInfo, MerkleHash,
    OutOfMemory, ShardRecord, Xorb,
};

/// The record of a xorb that was looked at.
#[derive(Drop)]
pub struct LookedXorb {
    /// The record.
    pub info: MDBXorbInfo,
}

impl Keyed<MerkleHash> for LookedXorb {
    ghost key_of = { λ x. x.info.hash };

    fn key(&self) -> MerkleHash {
        self.info.hash
    }
}

/// What one call that mirrors has looked at and copied so far.
#[derive(Drop)]
pub struct Copied {
    /// The xorbs that were looked at, each once, in the order in which files name them first.
    pub xorbs: KeyedList<MerkleHash, LookedXorb>,
    /// What was counted.
    pub report: MirrorReport,
}

impl Copied {
    ghost use Rattle.xet_mirror_parts.specs.Looked.{NoteCause, Notes, is_looked, is_within, looked_records, no_report};
    ghost use Rattle.xet_mirror_parts.specs.steps.Gathered.{IsGathered};

    /// Nothing. It takes no memory.
    pub fn new(alloc: Global) -> Copied
        ensures { result ≡ record { xorbs = []; report = no_report } }
    {
        Copied {
            xorbs: KeyedList::new(alloc),
            report: MirrorReport {
                files_copied: 0,
                files_present: 0,
                xorbs_sent: 0,
                xorbs_present: 0,
                bytes_sent: 0,
            },
        }
    }

    /// Whether the xorb was looked at.
    pub fn has(&self, xorb: &MerkleHash) -> bool
        ensures { result ≡ is_looked self.now.xorbs xorb.now }
    {
        self.xorbs.find(xorb).is_some()
    }

    /// Whether the term is from below to inside a xorb that was looked at.
    pub fn has_term(&self, term: &FileDataSequenceEntry) -> bool
        ensures { result ≡ is_within self.now.xorbs term.now }
    {
        match self.xorbs.find(&term.xorb) {
            Some(looked) => term.from < term.to && term.to as usize <= looked.info.chunks.len(),
            None => false,
        }
    }

    /// Notes that a xorb was looked at, which the target holds, or which is sent to it, and counts it. With `verify`
    /// the hash of one that is sent is compared with that of its chunks. The caller sees to it that it was not looked
    /// at before.
    ///
    /// `HashDiffers` where these are compared and differ; `OutOfMemory` where an allocation was refused. What was noted
    /// is free then.
    pub fn note(
        &mut self,
        alloc: Global,
        xorb: &Xorb,
        held: bool,
        verify: bool,
    ) -> Result<(), MirrorError>
        requires { is_looked self.old.xorbs xorb.now.hash ≡ false }
        ensures ok { OnOk result (Notes verify self.old self.new xorb.now held) }
        ensures cause { IfErr result (NoteCause verify xorb.now held) }
    {
        let info = record_of(alloc, xorb)?;
        if verify && !held && !is_named(&info) {
            return Err(MirrorError::HashDiffers { xorb: xorb.hash });
        }
        self.report = self.report.with_xorb(xorb, held);
        self.xorbs.add(LookedXorb { info })?;
        Ok(())
    }

    /// The shard of a file: its record, and the records of the xorbs that its terms name and that were looked at, each
    /// once. Want of memory is the only error.
    pub fn shard_of(&self, alloc: Global, file: MDBFileInfo) -> Result<ShardRecord, OutOfMemory>
        ensures { IfOk result (λ shard. shard ≡ record {
          xorbs = looked_records self.now.xorbs (map (λ e. e.xorb) file.entries);
          files = file ∷ [];
        }) }
    {
        let xorbs = self.records_of(alloc, file.entries.as_slice())?;
        let mut files = List::new(alloc);
        files.push(file)?;
        Ok(ShardRecord { xorbs, files })
    }

    // The records of the xorbs that terms name and that were looked at, each once.
    fn records_of(
        &self,
        alloc: Global,
        terms: &[FileDataSequenceEntry],
    ) -> Result<List<MDBXorbInfo>, OutOfMemory>
        ensures { IfOk result (λ made. made ≡ looked_records self.now.xorbs (map (λ e. e.xorb) terms.now)) }
    {
        let mut named = KeyIndex::new(alloc);
        let mut records = List::new(alloc);
        for term in terms {
            self.add_record(alloc, &term.xorb, &mut named, &mut records)?;
        }
        Ok(records)
    }

    // Adds the record of one xorb more, where it was not named before.
    fn add_record(
        &self,
        alloc: Global,
        xorb: &MerkleHash,
        named: &mut KeyIndex<MerkleHash>,
        records: &mut List<MDBXorbInfo>,
    ) -> Result<(), OutOfMemory>
        ensures { (hs : Items HashValue) → IsGathered self.now.xorbs hs named.old records.old
            → OnOk result (IsGathered self.now.xorbs (hs ++ xorb.now ∷ []) named.new records.new) }
    {
        if named.number_or_add(*xorb)?.is_some() {
            return Ok(());
        }
        if let Some(looked) = self.xorbs.find(xorb) {
            records.push(looked.info.copied(alloc)?)?;
        }
        Ok(())
    }
}
