//! What `get` is to print, and the words that say it.
ghost use Rattle.std.specs.Prelude.{◌≡◌, map, string_bytes};
ghost use Rattle.xet_get_command.specs.GetWords.{end_of_text, range_of, wanted_of};

use crate::options::{Options, read_options};
use xet_base::{FileRange, MerkleHash};
use xet_room::number;

/// The file, the range of its bytes that `get` is to print, and how it is to be fetched.
#[derive(Clone, Copy, PartialEq, Eq)]
pub struct Wanted {
    /// The file's hash.
    pub file: MerkleHash,
    /// From the start to before the end, in bytes. The end may stand at or before the start.
    pub range: FileRange,
    /// The options.
    pub options: Options,
}

// The end of a range: a number, or `end`.
fn end(text: &str) -> Option<u64>
    ensures { result ≡ end_of_text text.now }
{
    if text == "end" {
        return Some(u64::MAX);
    }
    number(text)
}

// What is wanted of a file, from the start to before the end.
fn read_range(file: &str, start: &str, last: &str, options: Options) -> Option<Wanted>
    ensures { result ≡ range_of file.now start.now last.now options }
{
    let file = MerkleHash::from_hex(file).ok()?;
    let start = number(start)?;
    let end = end(last)?;
    Some(Wanted {
        file,
        range: FileRange::new(start, end),
        options,
    })
}

/// What the words after `get` ask for, or none where they don't read.
pub fn read_wanted(words: &[String]) -> Option<Wanted>
    ensures { result ≡ wanted_of (map string_bytes words.now) }
{
    match words {
        [file, start, last, options @ ..] => {
            let options = read_options(options)?;
            read_range(file.as_str(), start.as_str(), last.as_str(), options)
        }
        _ => None,
    }
}
