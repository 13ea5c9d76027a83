//! Texts of replies.
ghost use Rattle.std.specs.Prelude.{◌≡◌, ◌++◌, OnOk};
ghost use Rattle.std.specs.Fmt.{decimal};
ghost use Rattle.xet_serve_lines.specs.Replies.{bytes_text, number_line, word_line};

use itoa::Buffer;
use xet_base::OutOfMemory;

// Adds bytes.
fn add(out: &mut Vec<u8>, bytes: &[u8]) -> Result<(), OutOfMemory>
    ensures { OnOk result (out.new.items ≡ out.old.items ++ bytes.now) }
{
    out.extend_from_slice(bytes)?;
    Ok(())
}

// Adds the digits of a number.
fn add_number(out: &mut Vec<u8>, number: u64) -> Result<(), OutOfMemory>
    ensures { OnOk result (out.new.items ≡ out.old.items ++ decimal number) }
{
    let mut buffer = Buffer::new();
    add(out, buffer.format(number).as_bytes())
}

/// Adds a word and a line end.
///
/// `OutOfMemory` where memory was refused, and then a part of it may have been added.
pub fn add_line(out: &mut Vec<u8>, word: &str) -> Result<(), OutOfMemory>
    ensures { OnOk result (out.new.items ≡ out.old.items ++ word_line word.now) }
{
    add(out, word.as_bytes())?;
    add(out, "\n".as_bytes())
}

/// Adds a word, a space, a number and a line end.
///
/// `OutOfMemory` where memory was refused, and then a part of it may have been added.
pub fn add_number_line(out: &mut Vec<u8>, word: &str, number: u64) -> Result<(), OutOfMemory>
    ensures { OnOk result (out.new.items ≡ out.old.items ++ number_line word.now number) }
{
    add(out, word.as_bytes())?;
    add(out, " ".as_bytes())?;
    add_number(out, number)?;
    add(out, "\n".as_bytes())
}

/// Adds the line of where bytes start and how many they are, and the bytes and a line end.
///
/// `OutOfMemory` where memory was refused, and then a part of it may have been added.
pub fn add_range(out: &mut Vec<u8>, start: u64, bytes: &[u8]) -> Result<(), OutOfMemory>
    ensures { OnOk result (out.new.items ≡ out.old.items ++ bytes_text start bytes.now) }
{
    let mut buffer = Buffer::new();
    add_number_line(out, buffer.format(start), bytes.len() as u64)?;
    add(out, bytes)?;
    add(out, "\n".as_bytes())
}
