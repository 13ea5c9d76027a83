//! The words of a request.
ghost use Rattle.std.specs.Prelude.{◌≡◌, map, option_map};
ghost use Rattle.xet_base.specs.HashText.{hash_of_text};
ghost use Rattle.xet_serve_lines.specs.Requests.{range_of_text, words_of};

use crate::cutting::cut;
use crate::numbers::read_number;
use hex::FromHex;
use xet_base::{FileRange, MerkleHash};

// The hash that 64 hexadecimal digits spell.
fn read_hash(text: &[u8]) -> Option<MerkleHash>
    ensures { result ≡ hash_of_text text.now }
{
    match <[u8; 32] as FromHex>::from_hex(text) {
        Ok(bytes) => Some(MerkleHash(bytes)),
        Err(_) => None,
    }
}

/// The file that a line names, and the text of its ranges.
pub(crate) fn read_words<'a>(line: &'a [u8]) -> Option<(MerkleHash, &'a [u8])>
    ensures { option_map (λ x. (x.0, x.1.now)) result ≡ words_of line.now }
{
    let (word, behind) = cut(line, b' ')?;
    if word != "GET".as_bytes() {
        return None;
    }
    let (hash, ranges) = cut(behind, b' ')?;
    let file = read_hash(hash)?;
    Some((file, ranges))
}

/// The range that a start and an end with a dash between spell.
pub(crate) fn read_range(text: &[u8]) -> Option<FileRange>
    ensures { result ≡ range_of_text text.now }
{
    let (start, end) = cut(text, b'-')?;
    let start = read_number(start)?;
    let end = read_number(end)?;
    Some(FileRange { start, end })
}
