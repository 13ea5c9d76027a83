//! Writes the text of a record.
ghost use Rattle.std.specs.Prelude.{◌≡◌, ◌++◌, ◌<◌, ◌^◌, All, IfOk, OnOk, string_bytes};
ghost use Rattle.std.specs.Fmt.{decimal};
ghost use Rattle.std.specs.List.{flat_map};
ghost use Rattle.hex.specs.Hex.{encode_lower};
ghost use Rattle.xet_gaps.specs.steps.Reading.{IsHash};
ghost use Rattle.xet_gaps.specs.Texts.{gap_line, head_text, line_of, record_text};

use itoa::Buffer;
use std::alloc::Global;
use xet_base::{FileRange, MerkleHash, OutOfMemory, Text};

/// Adds a text.
fn push(text: &mut String, more: &str) -> Result<(), OutOfMemory>
    ensures { OnOk result (string_bytes text.new ≡ string_bytes text.old ++ more.now) }
{
    text.push_str(more)?;
    Ok(())
}

/// Adds a number in decimals.
fn push_number(text: &mut String, number: u64) -> Result<(), OutOfMemory>
    ensures { OnOk result (string_bytes text.new ≡ string_bytes text.old ++ decimal number) }
{
    let mut buffer = Buffer::new();
    push(text, buffer.format(number))
}

/// Adds a word, a number and a line end.
fn push_line(text: &mut String, word: &str, number: u64) -> Result<(), OutOfMemory>
    ensures { OnOk result (string_bytes text.new ≡ string_bytes text.old ++ line_of word.now (decimal number)) }
{
    push(text, word)?;
    push(text, " ")?;
    push_number(text, number)?;
    push(text, "\n")
}

/// Adds the line of a gap.
fn push_gap(text: &mut String, gap: FileRange) -> Result<(), OutOfMemory>
    ensures { OnOk result (string_bytes text.new ≡ string_bytes text.old ++ gap_line gap) }
{
    let mut buffer = Buffer::new();
    push_line(text, buffer.format(gap.start), gap.end)
}

/// Adds the lines of gaps.
fn push_gaps(text: &mut String, gaps: &[FileRange]) -> Result<(), OutOfMemory>
    ensures { OnOk result (string_bytes text.new ≡ string_bytes text.old ++ flat_map gap_line gaps.now) }
{
    for gap in gaps {
        push_gap(text, *gap)?;
    }
    Ok(())
}

/// Adds the version, and a file's hash and length.
fn push_head(
    text: &mut String,
    alloc: Global,
    file: &MerkleHash,
    length: u64,
) -> Result<(), OutOfMemory>
    ensures { OnOk result (string_bytes text.new ≡ string_bytes text.old ++ head_text file.now length) }
{
    let digits = file.hex(alloc)?;
    push(text, "xet-gaps 1\n")?;
    push_line(text, digits.as_str(), length)
}

/// Bytes are numbers of 8 bits.
fn recall_bytes(bytes: &[u8])
    ensures { All (λ b. b < 256) bytes.now }
{
    let _ = bytes;
}

/// A hash has 32 bytes, and a number fits into 64 bits.
pub(crate) fn recall(file: &MerkleHash, number: u64)
    ensures hash { IsHash file.now }
    ensures short { number < 2 ^ 64 }
{
    recall_bytes(file.0.as_slice());
    let _ = number;
}

/// The text of a file's hash and length, and of its gaps.
pub(crate) fn write_text(
    alloc: Global,
    file: &MerkleHash,
    length: u64,
    gaps: &[FileRange],
) -> Result<Text, OutOfMemory>
    ensures text { IfOk result (λ text. text
        ≡ record_text (record { file = file.now; length_is = length; gaps = gaps.now })) }
    ensures hash { IsHash file.now }
    ensures short { length < 2 ^ 64 }
{
    recall(file, length);
    let mut text = String::new(alloc);
    push_head(&mut text, alloc, file, length)?;
    push_gaps(&mut text, gaps)?;
    Ok(Text::from_string(text))
}
