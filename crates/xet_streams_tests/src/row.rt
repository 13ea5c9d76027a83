//! One stream as a text: fields with semicolons between them, each a name alone or with what it says.
use crate::script::number;
use crate::told::cut;
use xet_base::{FileRange, MerkleHash};
use xet_store::worked::{FILE_OF_ALL, FILE_OF_NOTHING, FILE_OF_REPEATS, FILE_OF_TWO_ENDS};
use xet_terms::ReconstructionConfig;

/// What the fields are called.
const NAMES: &str = "\
file from to least greatest size budget book multi tries lanes lent plan block cached down waits cancel raise pulls \
history unordered";

/// One stream. What it says nothing of is as in the stream of a whole file, that of all chunks, over one honest
/// connection, which is pulled until it answered none or an error twice.
///
/// `file` is a letter of the worked store, `from` and `to` the range. `least`, `greatest`, both of them by `size`,
/// `budget`, `multi` and `tries` are settings; `book` is the limit of a book with one download.
///
/// `lanes` are the connections, with commas between them, each by what it does at its calls: `.` is honest, `f` fails,
/// `x` says that the URL has expired, `m` finds no memory, `n` says that there is no such file, `e` that the range is
/// past the end, `s` serves `block` and `p` says `plan`, both as `script` reads them. Of them the first are lent to
/// each pull: so many as stand in `lent` at the pull's number, or at its end.
///
/// `cached` is what the cache has for the first xorb's chunks. Where it is `down` each of its calls fails.
///
/// Where it `waits` a pull steps until its piece is there. Before the pull `cancel` the stream is cancelled, before the
/// pull `raise` its flag is raised. So many `pulls` are made at most.
///
/// With `history` its events are told at the end. With `unordered` the pieces have their places.
#[derive(Clone, Copy)]
pub(crate) struct Row<'a> {
    pub(crate) text: &'a str,
}

impl<'a> Row<'a> {
    /// What the field of this name says.
    pub(crate) fn find(self, name: &str) -> Option<&'a str> {
        for field in self.text.split("; ") {
            let (found, said) = cut(field, " ");
            if found == name {
                return Some(said);
            }
        }
        None
    }

    /// Whether there is a field of this name.
    pub(crate) fn has(self, name: &str) -> bool {
        self.find(name).is_some()
    }

    /// The number that the field of this name says, else the usual one.
    pub(crate) fn number(self, name: &str, usual: u64) -> u64 {
        match self.find(name) {
            Some(said) => number(said),
            None => usual,
        }
    }

    /// Whether each field has a name that a row has.
    pub(crate) fn is_known(self) -> bool {
        for field in self.text.split("; ") {
            if !is_name(cut(field, " ").0) {
                return false;
            }
        }
        true
    }

    /// The file's hash.
    pub(crate) fn file(self) -> MerkleHash {
        match self.find("file") {
            None | Some("a") => FILE_OF_ALL,
            Some("b") => FILE_OF_REPEATS,
            Some("c") => FILE_OF_NOTHING,
            Some("e") => FILE_OF_TWO_ENDS,
            Some(_) => MerkleHash([0xff; 32]),
        }
    }

    /// The range of the file.
    pub(crate) fn range(self) -> FileRange {
        FileRange::new(self.number("from", 0), self.number("to", u64::MAX))
    }

    /// The settings.
    pub(crate) fn config(self) -> ReconstructionConfig {
        let usual = ReconstructionConfig::new();
        let least = self.number("size", usual.min_reconstruction_fetch_size);
        let greatest = self.number("size", usual.max_reconstruction_fetch_size);
        let tries = self.number("tries", u64::from(usual.tries));
        ReconstructionConfig {
            min_reconstruction_fetch_size: self.number("least", least),
            max_reconstruction_fetch_size: self.number("greatest", greatest),
            download_buffer_size: self.number("budget", usual.download_buffer_size),
            enable_multirange_fetching: self.has("multi"),
            tries: u32::try_from(tries).unwrap_or(u32::MAX),
            ..usual
        }
    }
}

/// Whether a row has fields of this name.
fn is_name(found: &str) -> bool {
    for name in NAMES.split(' ') {
        if name == found {
            return true;
        }
    }
    false
}
