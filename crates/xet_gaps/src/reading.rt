//! Reads the text of a record, piece by piece. Each piece has to be written as it is printed.
ghost use Rattle.std.specs.Prelude.{◌≡◌, ◌<◌, ◌∷◌, ◌++◌, Decides, IfErr, IfOk, MatchOption};
ghost use Rattle.std.specs.Fmt.{decimal};
ghost use Rattle.std.specs.List.{flat_map};
ghost use Rattle.hex.specs.Hex.{encode_lower};
ghost use Rattle.xet_gaps.specs.Gaps.{AreGaps};
ghost use Rattle.xet_gaps.specs.Texts.{gap_line, head_text};
ghost use Rattle.xet_gaps.specs.declared.gap_text_error.GapTextError.TheVariants as gap_text_error;
ghost use Rattle.xet_gaps.specs.steps.Reading.{NoGap, NoGaps, NoHash, NoHead, NoNumber};

use crate::gap_text_error::GapTextError;
use itoa::Buffer;
use std::alloc::Global;
use xet_base::{FileRange, MerkleHash};
use xet_gap_order::is_next;

/// Whether a word is the number as it is printed.
fn is_printed(word: &str, number: u64) -> bool
    ensures { Decides result (word.now ≡ decimal number) }
{
    let mut buffer = Buffer::new();
    buffer.format(number) == word
}

/// The number that a text begins with, up to this letter, and what stands behind that.
fn read_number(text: &str, end: char) -> Option<(u64, &str)>
    requires { end < 48 }
    ensures { MatchOption result (NoNumber end text.now) (λ x. text.now ≡ decimal x.0 ++ end ∷ x.1.now) }
{
    let (word, rest) = text.split_once(end)?;
    let number: u64 = word.parse().ok()?;
    if !is_printed(word, number) {
        return None;
    }
    Some((number, rest))
}

/// Whether a word is the hash as it is printed.
fn is_hash(word: &str, hash: &MerkleHash) -> bool
    ensures { Decides result (word.now ≡ encode_lower hash.now.0) }
{
    let mut digits = [0u8; 64];
    match hex::encode_to_slice(hash.0.as_slice(), &mut digits) {
        Ok(()) => word.as_bytes() == digits.as_slice(),
        Err(_) => unreachable!(),
    }
}

/// The hash that a text begins with, up to a space, and what stands behind that.
fn read_hash(text: &str) -> Option<(MerkleHash, &str)>
    ensures { MatchOption result (NoHash text.now) (λ x. text.now ≡ encode_lower x.0.0 ++ 32 ∷ x.1.now) }
{
    let (word, rest) = text.split_once(' ')?;
    let hash = MerkleHash::from_hex(word).ok()?;
    if !is_hash(word, &hash) {
        return None;
    }
    Some((hash, rest))
}

/// The file's hash and length, and the text of the gaps.
#[derive(Drop)]
pub(crate) struct Head<'a> {
    pub(crate) file: MerkleHash,
    pub(crate) length: u64,
    pub(crate) rest: &'a str,
}

/// The head of a text; none where it has none.
pub(crate) fn read_head(text: &str) -> Option<Head<'_>>
    ensures { MatchOption result (NoHead text.now) (λ x. text.now ≡ head_text x.file x.length ++ x.rest.now) }
{
    let words = text.strip_prefix("xet-gaps 1\n")?;
    let (file, number) = read_hash(words)?;
    let (length, rest) = read_number(number, '\n')?;
    Some(Head { file, length, rest })
}

/// The gap that a text begins with, and what stands behind its line.
fn read_gap(text: &str) -> Option<(FileRange, &str)>
    ensures { MatchOption result (NoGap text.now) (λ x. text.now ≡ gap_line x.0 ++ x.1.now) }
{
    let (start, number) = read_number(text, ' ')?;
    let (end, rest) = read_number(number, '\n')?;
    Some((FileRange { start, end }, rest))
}

/// The gaps of a text, of a file of so many bytes.
pub(crate) fn read_gaps(
    alloc: Global,
    text: &str,
    length: u64,
) -> Result<Vec<FileRange>, GapTextError>
    ensures text { IfOk result (λ gaps. text.now ≡ flat_map gap_line gaps.items) }
    ensures are { IfOk result (λ gaps. AreGaps 0 length gaps.items) }
    ensures cause { IfErr result (λ e. e ≡ gap_text_error.NotGaps → NoGaps length text.now) }
{
    let mut gaps = Vec::new(alloc);
    let mut rest = text;
    let mut last = None;
    while !rest.is_empty() {
        let Some((gap, behind)) = read_gap(rest) else {
            return Err(GapTextError::NotGaps);
        };
        if !is_next(last, gap, length) {
            return Err(GapTextError::NotGaps);
        }
        if gaps.push(gap).is_err() {
            return Err(GapTextError::OutOfMemory);
        }
        last = Some(gap.end);
        rest = behind;
    }
    Ok(gaps)
}
