//! Records of the bytes of a file that are missing.
ghost use Rattle.std.specs.Prelude.{◌≡◌, ◌<◌, [], IfErr, IfOk, MatchOption, OnErr, OnOk, false, true};
ghost use Rattle.xet_gaps.specs.Gaps.{AreGaps, FirstGap, IsGapRecord, less, new_gaps, some_range};
ghost use Rattle.xet_gaps.specs.Texts.{IsNoText, record_text};
ghost use Rattle.xet_gaps.specs.declared.gap_text_error.GapTextError.TheVariants as gap_text_error;

use crate::gap_text_error::GapTextError;
use crate::marking::take_range;
use crate::reading::{read_gaps, read_head};
use crate::roomy_record::RoomyRecord;
use crate::writing::{recall, write_text};
use std::alloc::Global;
use std::marker::Model;
use std::mem;
use xet_base::{FileRange, MerkleHash, OutOfMemory, Text};

/// A file by its hash and length in bytes, and the ranges of its bytes that are missing, half open: nonempty, ascending
/// and apart by a byte at least, inside the length. Contracts see it as that. A gap takes 16 bytes of memory.
///
/// The Rust crate has no such type.
#[derive(Drop)]
pub struct GapRecord {
    pub(crate) file: MerkleHash,
    pub(crate) size: u64,
    // the gaps; those before number `first` are filled
    pub(crate) gaps: Vec<FileRange>,
    pub(crate) first: usize,
}

impl Model for GapRecord {
    ghost use Rattle.std.specs.Prelude.{◌≤◌, drop, length};
    ghost use Rattle.xet_gaps.specs.Gaps.{AreGaps, Gaps};

    ghost Value = { Gaps };

    ghost view = { λ r. record { file = r.file; length_is = r.size; gaps = drop r.first r.gaps.items } };

    ghost invariant = { λ r. (r.first ≤ length r.gaps.items) × AreGaps 0 r.size (drop r.first r.gaps.items) };
}

// One gap of so many bytes, none where there are none.
fn one_gap(alloc: Global, length: u64) -> Result<Vec<FileRange>, OutOfMemory>
    ensures { IfOk result (λ gaps. gaps.items ≡ some_range 0 length) }
{
    let mut gaps = Vec::new(alloc);
    if 0 < length {
        gaps.push(FileRange {
            start: 0,
            end: length,
        })?;
    }
    Ok(gaps)
}

impl GapRecord {
    /// A record of a file of so many bytes, of which all are missing: one gap, none where it has no bytes.
    ///
    /// `OutOfMemory` where that memory was refused.
    pub fn new(alloc: Global, file: MerkleHash, length: u64) -> Result<GapRecord, OutOfMemory>
        ensures { IfOk result (λ r. r ≡ new_gaps file length) }
    {
        let gaps = one_gap(alloc, length)?;
        Ok(GapRecord {
            file,
            size: length,
            gaps,
            first: 0,
        })
    }

    /// The gaps, in order.
    pub fn gaps(&self) -> &[FileRange]
        ensures gaps { result.now ≡ self.now.gaps }
        ensures are { AreGaps 0 self.now.length_is self.now.gaps }
    {
        &self.gaps[self.first..]
    }

    /// The file's hash.
    pub fn file(&self) -> MerkleHash
        ensures { result ≡ self.now.file }
    {
        self.file
    }

    /// How many bytes the file has, as the record was told.
    pub fn length(&self) -> u64
        ensures { result ≡ self.now.length_is }
    {
        self.size
    }

    /// Whether nothing is missing.
    pub fn is_done(&self) -> bool
        ensures done { result ≡ true → self.now.gaps ≡ [] }
        ensures missing { result ≡ false → self.now.gaps ≡ [] → ⊥ }
    {
        self.gaps().is_empty()
    }

    /// The first gap, cut to so many bytes; none exactly where nothing is missing.
    pub fn next_gap(&self, at_most: u64) -> Option<FileRange>
        requires { 0 < at_most }
        ensures { MatchOption result (self.now.gaps ≡ []) (λ r. FirstGap self.now.gaps at_most r) }
    {
        match self.gaps() {
            [] => None,
            [gap, ..] => {
                let length = (gap.end - gap.start).min(at_most);
                Some(FileRange {
                    start: gap.start,
                    end: gap.start + length,
                })
            }
        }
    }

    /// Takes the bytes of a range from the gaps. It costs two binary searches and one move of the gaps behind those
    /// that the range touches; none where it takes the first ones.
    ///
    /// `OutOfMemory` where memory was refused, and then the record is as it was.
    pub fn mark(&mut self, range: FileRange) -> Result<(), OutOfMemory>
        ensures ok { OnOk result (self.new ≡ record self.old { gaps = less self.old.gaps range }) }
        ensures err { OnErr result (self.new ≡ self.old) }
    {
        self.gaps.reserve(1)?;
        self.first = take_range(&mut self.gaps, self.first, range);
        Ok(())
    }

    /// Takes memory for one gap more and hands the record out, so that marking can't fail. This one has no gaps from
    /// then on, until the other is put back in its place.
    ///
    /// `OutOfMemory` where memory was refused, and then the record is as it was.
    pub fn take_roomy(&mut self, alloc: Global) -> Result<RoomyRecord, OutOfMemory>
        ensures ok { IfOk result (λ r. r ≡ self.old) }
        ensures rest { OnOk result (self.new ≡ record self.old { gaps = [] }) }
        ensures err { OnErr result (self.new ≡ self.old) }
    {
        self.gaps.reserve(1)?;
        let none = Vec::new(alloc);
        let gaps = mem::replace(&mut self.gaps, none);
        let first = mem::replace(&mut self.first, 0);
        Ok(RoomyRecord {
            file: self.file,
            size: self.size,
            gaps,
            first,
        })
    }

    /// The text of the record: `xet-gaps 1`, the file's hash and length, and each gap by its start and its end, a line
    /// each, numbers in decimals without leading zeros.
    ///
    /// `OutOfMemory` where memory was refused.
    pub fn to_text(&self, alloc: Global) -> Result<Text, OutOfMemory>
        ensures text { IfOk result (λ text. text ≡ record_text self.now) }
        ensures is { IsGapRecord self.now }
    {
        write_text(alloc, &self.file, self.size, &self.gaps[self.first..])
    }

    /// The record of a text.
    ///
    /// - `NotGaps` exactly where the text is no record's: it has to be written as `to_text` writes it, hash digits in
    ///   lower case, numbers without leading zeros and signs, gaps that ascend apart, and a line end at the end.
    /// - `OutOfMemory` where memory was refused.
    pub fn from_text(alloc: Global, text: &str) -> Result<GapRecord, GapTextError>
        ensures record_of { IfOk result (λ r. text.now ≡ record_text r) }
        ensures is { IfOk result (λ r. IsGapRecord r) }
        ensures cause { IfErr result (λ e. e ≡ gap_text_error.NotGaps → IsNoText text.now) }
    {
        let Some(head) = read_head(text) else {
            return Err(GapTextError::NotGaps);
        };
        recall(&head.file, head.length);
        match read_gaps(alloc, head.rest, head.length) {
            Ok(gaps) => Ok(GapRecord {
                file: head.file,
                size: head.length,
                gaps,
                first: 0,
            }),
            Err(error) => Err(error),
        }
    }
}
