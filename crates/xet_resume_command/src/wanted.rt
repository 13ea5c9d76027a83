//! What `resume` is to fetch, and the words that say it.
ghost use Rattle.std.specs.Prelude.{◌≡◌, map, string_bytes};
ghost use Rattle.xet_get_command.specs.GetWords.{end_of_text};
ghost use Rattle.xet_resume_command.specs.Words.{range_of_words, ranges_of, resume_of, wanted_of_words, with_range};
ghost use Rattle.xet_resume_command.specs.Words.{with_words};

use xet_base::{FileRange, MerkleHash};
use xet_room::number;

/// A file, its length in bytes as the caller knows it, and up to 16 ranges of its bytes, half open, in the order in
/// which they are to be fetched.
#[derive(Clone, Copy, PartialEq, Eq)]
pub struct ResumeWanted {
    /// The file's hash.
    pub file: MerkleHash,
    /// How many bytes the file is said to have.
    pub length: u64,
    /// The ranges; those past the count are empty.
    pub ranges: [FileRange; 16],
    /// How many ranges there are.
    pub count: usize,
}

impl ResumeWanted {
    // The ranges.
    pub(crate) fn ranges(&self) -> &[FileRange]
        ensures { result.now ≡ ranges_of self.now }
    {
        let count = self.count.min(self.ranges.len());
        &self.ranges[..count]
    }

    // The same with one range more; none where there are 16.
    fn with_range(self, range: FileRange) -> Option<ResumeWanted>
        ensures { result ≡ with_range self range }
    {
        let mut next = self;
        if 16 <= self.count {
            return None;
        }
        next.ranges[self.count] = range;
        next.count += 1;
        Some(next)
    }

    // The same with the ranges of pairs of words; none where the words don't read, or the ranges are too many.
    fn with_words(self, words: &[String]) -> Option<ResumeWanted>
        ensures { result ≡ with_words self (map string_bytes words.now) }
    {
        let mut wanted = self;
        let mut rest = words;
        'pairs: while let [start, last, more @ ..] = rest {
            let range = read_range(start.as_str(), last.as_str())?;
            wanted = wanted.with_range(range)?;
            rest = more;
        }
        rest.is_empty().then_some(wanted)
    }
}

// The end of a range: a number, or `end`.
fn end(text: &str) -> Option<u64>
    ensures { result ≡ end_of_text text.now }
{
    if text == "end" {
        return Some(u64::MAX);
    }
    number(text)
}

// The range of two words.
fn read_range(start: &str, last: &str) -> Option<FileRange>
    ensures { result ≡ range_of_words start.now last.now }
{
    let start = number(start)?;
    let end = end(last)?;
    Some(FileRange { start, end })
}

// What is wanted of a file, by the words of its ranges.
fn read_ranges(file: &str, length: &str, words: &[String]) -> Option<ResumeWanted>
    ensures { result ≡ wanted_of_words file.now length.now (map string_bytes words.now) }
{
    let none = ResumeWanted {
        file: MerkleHash::from_hex(file).ok()?,
        length: number(length)?,
        ranges: [FileRange { start: 0, end: 0 }; 16],
        count: 0,
    };
    none.with_words(words)
}

/// What the words after `resume` ask for: a file's hash, its length, and 1 to 16 ranges by their starts and their ends,
/// of which an end may be `end`; none where they don't read.
pub fn read_resume(words: &[String]) -> Option<ResumeWanted>
    ensures { result ≡ resume_of (map string_bytes words.now) }
{
    match words {
        [file, length, pairs @ ..] => {
            if pairs.is_empty() {
                return None;
            }
            read_ranges(file.as_str(), length.as_str(), pairs)
        }
        _ => None,
    }
}
