//! A shelf that lies at one of its calls: the error has its place or hash, no record is put before its xorbs, and no
//! xorb that the term which names it first isn't inside.
use crate::told::{comes_to, tell_answer, tell_log};
use std::alloc::Global;
use std::process::Abort;
use xet_base::{List, MDBFileInfo, MerkleHash, Xorb};
use xet_mirror::mirror_files;
use xet_outside::ClientError;
use xet_shelves::{MemShelf, MemTarget, Shelf};
use xet_store::MemStore;
use xet_store::worked::{FILE_OF_ALL, FILE_OF_REPEATS, FILE_OF_TWO_ENDS, X2, worked_store};

/// What is answered in place of the truth.
#[derive(Clone, Copy)]
enum Lie {
    /// Nothing is stored.
    Nothing,
    /// What is stored under another hash.
    Other,
    /// It has no terms or no chunks.
    Empty,
    /// The call fails.
    Failed,
}

/// A shelf that lies at its call of this number, counted from 0.
#[derive(Drop)]
struct LyingShelf {
    inner: MemShelf,
    lie: Lie,
    at: usize,
    calls: usize,
}

impl LyingShelf {
    // Counts a call, and says how it lies.
    fn lie_now(&mut self) -> Option<Lie> {
        let call = self.calls;
        self.calls = call.saturating_add(1);
        if call == self.at {
            Some(self.lie)
        } else {
            None
        }
    }
}

impl Shelf for LyingShelf {
    ghost use Rattle.std.specs.Prelude.{◌-◌, ◌^◌, None};

    // Nothing is told, and the count stands at its last value.
    ghost told = { λ _. record { store = None; faults = 2 ^ 64 - 1 } };

    fn file(
        &mut self,
        alloc: Global,
        file: &MerkleHash,
    ) -> Result<Option<MDBFileInfo>, ClientError> {
        match self.lie_now() {
            None => told_file(alloc, &mut self.inner, file),
            Some(Lie::Nothing) => Ok(None),
            Some(Lie::Other) => told_file(alloc, &mut self.inner, &FILE_OF_TWO_ENDS),
            Some(Lie::Empty) => Ok(Some(MDBFileInfo {
                hash: *file,
                entries: List::new(alloc),
                sha256: None,
            })),
            Some(Lie::Failed) => Err(ClientError::Failed),
        }
    }

    fn xorb(&mut self, alloc: Global, xorb: &MerkleHash) -> Result<Option<Xorb>, ClientError> {
        match self.lie_now() {
            None => told_xorb(alloc, &mut self.inner, xorb),
            Some(Lie::Nothing) => Ok(None),
            Some(Lie::Other) => told_xorb(alloc, &mut self.inner, &X2),
            Some(Lie::Empty) => Ok(Some(Xorb {
                hash: *xorb,
                chunks: List::new(alloc),
            })),
            Some(Lie::Failed) => Err(ClientError::Failed),
        }
    }
}

// The file of a shelf in memory.
fn told_file(
    alloc: Global,
    shelf: &mut MemShelf,
    file: &MerkleHash,
) -> Result<Option<MDBFileInfo>, ClientError> {
    shelf.file(alloc, file)
}

// The xorb of a shelf in memory.
fn told_xorb(
    alloc: Global,
    shelf: &mut MemShelf,
    xorb: &MerkleHash,
) -> Result<Option<Xorb>, ClientError> {
    shelf.xorb(alloc, xorb)
}

/// By what it answers, at its first call, for a file, at its second, for the file's xorb, and at its third, for another
/// file: what two files over an empty target come to.
const ROWS: [(Lie, [&str; 3]); 4] = [
    (
        Lie::Nothing,
        ["FileMissing 0", "XorbMissing 17", "FileMissing 1 x f"],
    ),
    (
        Lie::Other,
        ["FileMissing 0", "XorbMissing 17", "FileMissing 1 x f"],
    ),
    (
        Lie::Empty,
        [
            "files 2 0 xorbs 1 0 bytes 13 f x f",
            "BadTerm 0 0",
            "files 2 0 xorbs 1 0 bytes 13 x f f",
        ],
    ),
    (
        Lie::Failed,
        ["ClientError", "ClientError", "ClientError x f"],
    ),
];

// Mirrors a file of the xorb from a shelf in memory, so that the target holds it.
fn give(alloc: Global, shelf: &mut MemShelf, target: &mut MemTarget) {
    let _ = mirror_files(alloc, shelf, target, &[FILE_OF_TWO_ENDS], false);
}

// Mirrors two files from the shelf, and tells the answer and the log.
fn tell(
    alloc: Global,
    shelf: &mut LyingShelf,
    target: &mut MemTarget,
    verify: bool,
    text: &mut String,
) {
    let files = [FILE_OF_ALL, FILE_OF_REPEATS];
    tell_answer(text, &mirror_files(alloc, shelf, target, &files, verify));
    tell_log(text, target.log());
}

// A shelf of the worked store that lies so at this call.
fn lying(alloc: Global, lie: Lie, at: usize) -> LyingShelf {
    let store = worked_store(alloc).unwrap_or(MemStore::new(alloc));
    LyingShelf {
        inner: MemShelf::new(store),
        lie,
        at,
        calls: 0,
    }
}

// What comes of it over a target that is empty, or that holds the xorb.
fn told(alloc: Global, shelf: &mut LyingShelf, held: bool, verify: bool) -> String {
    let mut text = String::new(alloc);
    let mut target = MemTarget::new(alloc, MemStore::new(alloc), Vec::new(alloc));
    if held {
        give(alloc, &mut shelf.inner, &mut target);
    }
    tell(alloc, shelf, &mut target, verify, &mut text);
    text
}

// Compares a row.
fn holds(rt: &impl Abort, alloc: Global, shelf: &mut LyingShelf, held: bool, wanted: &str) {
    let text = told(alloc, shelf, held, false);
    comes_to(rt, "a lie", text.as_str(), wanted);
}

// Compares what an answer comes to, by the call at which it is given.
fn each_holds(rt: &impl Abort, alloc: Global, lie: Lie, rows: &[&str]) {
    for (at, wanted) in rows.iter().enumerate() {
        let mut shelf = lying(alloc, lie, at);
        holds(rt, alloc, &mut shelf, false, wanted);
    }
}

#[test]
fn each_call_may_lie(rt: HostRuntime) {
    let alloc = rt.alloc();
    for (lie, rows) in ROWS {
        each_holds(&rt, alloc, lie, &rows);
    }
}

#[test]
fn the_target_may_hold_what_the_shelf_lacks(rt: HostRuntime) {
    let alloc = rt.alloc();
    for lie in [Lie::Nothing, Lie::Empty] {
        let mut shelf = lying(alloc, lie, 1);
        holds(&rt, alloc, &mut shelf, true, "BadTerm 0 0 x f");
    }
}

#[test]
fn a_hash_may_differ(rt: HostRuntime) {
    let alloc = rt.alloc();
    let mut shelf = lying(alloc, Lie::Failed, 9);
    let text = told(alloc, &mut shelf, false, true);
    comes_to(&rt, "hashes", text.as_str(), "HashDiffers 17");
}
