//! The requests that lines spell.
ghost use Rattle.std.specs.Prelude.{◌≡◌, IfOk, option_map};
ghost use Rattle.xet_serve_lines.specs.Lines.{is_quit};
ghost use Rattle.xet_serve_lines.specs.Requests.{asked, ranges_of, request_of};
ghost use Rattle.xet_serve_lines.specs.steps.Buffers.{first_part};

use crate::cutting::cut;
use crate::words::{read_range, read_words};
use std::alloc::Global;
use xet_base::{FileRange, MerkleHash, OutOfMemory};

/// How many ranges a request has at most.
const MOST: u64 = 16;

/// A request of ranges of a file's bytes.
///
/// The Rust crates have no such type.
#[derive(Drop)]
pub struct Request {
    /// The file.
    pub file: MerkleHash,
    /// 1 to 16 ranges of its bytes, half open, in the order in which they were asked for. They may be empty, reversed,
    /// or reach past the file's end.
    pub ranges: Vec<FileRange>,
}

/// Whether a line ends the session: it is `QUIT`.
pub fn is_quit(line: &[u8]) -> bool
    ensures { result ≡ is_quit line.now }
{
    line == "QUIT".as_bytes()
}

// The first part of a text with commas, and what stands behind its comma, if there is one.
fn first_part<'a>(text: &'a [u8]) -> (&'a [u8], Option<&'a [u8]>)
    ensures { (result.0.now, option_map (λ x. x.now) result.1) ≡ first_part text.now }
{
    match cut(text, b',') {
        None => (text, None),
        Some((part, behind)) => (part, Some(behind)),
    }
}

// 1 to 16 ranges with a comma between.
fn read_ranges(alloc: Global, text: &[u8]) -> Result<Option<Vec<FileRange>>, OutOfMemory>
    ensures { IfOk result (λ o. option_map (λ v. v.items) o ≡ ranges_of text.now) }
{
    let mut ranges = Vec::new(alloc);
    let mut rest = text;
    for _number in 0..MOST {
        let (part, behind) = first_part(rest);
        let Some(range) = read_range(part) else {
            return Ok(None);
        };
        ranges.push(range)?;
        let Some(behind) = behind else {
            return Ok(Some(ranges));
        };
        rest = behind;
    }
    Ok(None)
}

/// The request that a line spells: `GET`, a hash of 64 hexadecimal digits and 1 to 16 ranges `START-END`, with one
/// space between words and a comma between ranges. Numbers are decimals of at most `u64::MAX` without leading zeros.
/// None where the line spells none.
///
/// `OutOfMemory` where memory was refused.
pub fn read_request(alloc: Global, line: &[u8]) -> Result<Option<Request>, OutOfMemory>
    ensures { IfOk result (λ o. option_map asked o ≡ request_of line.now) }
{
    let Some((file, text)) = read_words(line) else {
        return Ok(None);
    };
    match read_ranges(alloc, text)? {
        None => Ok(None),
        Some(ranges) => Ok(Some(Request { file, ranges })),
    }
}
