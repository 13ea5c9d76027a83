//! Records with room for one gap more.
ghost use Rattle.std.specs.Prelude.{◌≡◌};
ghost use Rattle.std.specs.List.{AllByRecursion};
ghost use Rattle.xet_gaps.specs.Gaps.{AreGaps, Touches, less, parts_of};

use crate::gap_record::GapRecord;
use crate::marking::take_range;
use crate::touching::find_touched;
use std::marker::Model;
use xet_base::{FileRange, MerkleHash};

/// A record with room for one gap more, so that a range can be taken from its gaps without memory. Contracts see it as
/// the record.
///
/// The Rust crate has no such type.
#[derive(Drop)]
pub struct RoomyRecord {
    pub(crate) file: MerkleHash,
    pub(crate) size: u64,
    // the gaps; those before number `first` are filled
    pub(crate) gaps: Vec<FileRange>,
    pub(crate) first: usize,
}

impl Model for RoomyRecord {
    ghost use Rattle.std.specs.Prelude.{◌<◌, ◌≤◌, drop, length, vec_capacity, vec_len};
    ghost use Rattle.xet_gaps.specs.Gaps.{AreGaps, Gaps};

    ghost Value = { Gaps };

    ghost view = { λ r. record { file = r.file; length_is = r.size; gaps = drop r.first r.gaps.items } };

    ghost invariant = { λ r. (r.first ≤ length r.gaps.items) × AreGaps 0 r.size (drop r.first r.gaps.items)
        × (vec_len r.gaps < vec_capacity r.gaps) };
}

impl RoomyRecord {
    /// The file's hash.
    pub fn file(&self) -> MerkleHash
        ensures { result ≡ self.now.file }
    {
        self.file
    }

    /// The gaps that have bytes of the range, in order, by two binary searches.
    pub fn touched(&self, range: FileRange) -> &[FileRange]
        ensures parts { parts_of result.now range ≡ parts_of self.now.gaps range }
        ensures each { AllByRecursion (Touches range) result.now }
        ensures are { AreGaps 0 self.now.length_is result.now }
        ensures all { AreGaps 0 self.now.length_is self.now.gaps }
    {
        let gaps = &self.gaps[self.first..];
        let (from, to) = find_touched(gaps, range);
        &gaps[from..to]
    }

    /// Takes the bytes of a range from the gaps. It costs two binary searches and one move of the gaps behind those
    /// that the range touches; none where it takes the first ones.
    pub fn mark(self, range: FileRange) -> GapRecord
        ensures { result ≡ record self { gaps = less self.gaps range } }
    {
        let RoomyRecord {
            file,
            size,
            mut gaps,
            first,
        } = self;
        let first = take_range(&mut gaps, first, range);
        GapRecord {
            file,
            size,
            gaps,
            first,
        }
    }
}
