//! One run as a text: fields with semicolons between them, each a name alone or with what it says.
use crate::script::number;
use crate::told::cut;
use xet_base::{FileRange, MerkleHash};
use xet_store::worked::{FILE_OF_ALL, FILE_OF_NOTHING, FILE_OF_REPEATS, FILE_OF_TWO_ENDS};
use xet_terms::ReconstructionConfig;

/// What the fields are called.
const NAMES: &str =
    "file from to least greatest size prefetch budget book vectored multi tries ahead lanes ready \
plan block cached forgets down up yes takes unflushed lengths most meet first beside tell calls taken";

/// One run. What it says nothing of is as in the run of a whole file, that of all chunks, over one honest connection.
///
/// `file` is a letter of the worked store, `from` and `to` the range. `least`, `greatest`, both of them by `size`,
/// `prefetch`, `budget`, `vectored`, `multi` and `tries` are settings; `book` is the limit of a book with one download;
/// `ahead` is how many bytes the policy plans ahead.
///
/// `lanes` are the connections, with commas between them, each by what it does at its calls: `.` is honest, `f` fails,
/// `x` says that the URL has expired, `n` that there is no such file, `e` that the range is past the end, `s` serves
/// `block` and `p` says `plan`, both as `script` reads them. With `ready` they answer at once.
///
/// `cached` is what the cache has for the first xorb's chunks, or `no memory`, which each look then finds none of. It
/// keeps nothing more where it `forgets`. Its calls from
/// `down` to before `up` fail. The signal says yes at its ask `yes`. `takes` is what the writer does at each write: `1`
/// takes one byte, `f` fails. Where it is `unflushed` it can't be flushed.
///
/// The n-th fetch has so many bytes as `lengths` says, and `most` may be fetched and not yet written. The fetches from
/// the `first` on wait until so many as `meet` have begun, as does the first write where one is `beside`.
///
/// `tell` is what is told of the run besides. A row of a manager says how many `calls` it gets, and whether two queries
/// are `taken` before.
#[derive(Clone, Copy)]
pub(crate) struct Row<'a> {
    pub(crate) text: &'a str,
}

impl<'a> Row<'a> {
    /// What the field of this name says.
    pub(crate) fn find(self, name: &str) -> Option<&'a str> {
        for field in self.text.split("; ") {
            let (found, said) = cut(field, " ");
            if found == name {
                return Some(said);
            }
        }
        None
    }

    /// Whether there is a field of this name.
    pub(crate) fn has(self, name: &str) -> bool {
        self.find(name).is_some()
    }

    /// The number that the field of this name says, else the usual one.
    pub(crate) fn number(self, name: &str, usual: u64) -> u64 {
        match self.find(name) {
            Some(said) => number(said),
            None => usual,
        }
    }

    /// Whether each field has a name that a row has.
    pub(crate) fn is_known(self) -> bool {
        for field in self.text.split("; ") {
            if !is_name(cut(field, " ").0) {
                return false;
            }
        }
        true
    }

    /// The file's hash.
    pub(crate) fn file(self) -> MerkleHash {
        match self.find("file") {
            None | Some("a") => FILE_OF_ALL,
            Some("b") => FILE_OF_REPEATS,
            Some("c") => FILE_OF_NOTHING,
            Some("e") => FILE_OF_TWO_ENDS,
            Some(_) => MerkleHash([0xff; 32]),
        }
    }

    /// The range of the file.
    pub(crate) fn range(self) -> FileRange {
        FileRange::new(self.number("from", 0), self.number("to", u64::MAX))
    }

    /// The settings.
    pub(crate) fn config(self) -> ReconstructionConfig {
        let usual = ReconstructionConfig::new();
        let least = self.number("size", usual.min_reconstruction_fetch_size);
        let greatest = self.number("size", usual.max_reconstruction_fetch_size);
        let tries = self.number("tries", u64::from(usual.tries));
        ReconstructionConfig {
            min_reconstruction_fetch_size: self.number("least", least),
            max_reconstruction_fetch_size: self.number("greatest", greatest),
            min_prefetch_buffer: self.number("prefetch", usual.min_prefetch_buffer),
            download_buffer_size: self.number("budget", usual.download_buffer_size),
            use_vectored_write: self.has("vectored"),
            enable_multirange_fetching: self.has("multi"),
            tries: u32::try_from(tries).unwrap_or(u32::MAX),
        }
    }
}

/// Whether a row has fields of this name.
fn is_name(found: &str) -> bool {
    for name in NAMES.split(' ') {
        if name == found {
            return true;
        }
    }
    false
}
