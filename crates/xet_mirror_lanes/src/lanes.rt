//! Copies files over several pairs at once.
ghost use Rattle.std.specs.Prelude.{ℕ, ◌≡◌, ◌<◌, None, length, slice_index_or};
ghost use Rattle.std.specs.Option.{option_copied};
ghost use Rattle.xet_mirror_lanes.specs.Lanes.{LaneMirrored};

use std::alloc::Global;
use std::thread::{Threads, for_each_mut};
use xet_base::MerkleHash;
use xet_mirror::{MirrorError, MirrorReport, mirror_files};
use xet_shelves::{Shelf, Target};

/// A shelf and a target, and what the last run over them answered.
///
/// The Rust crates have no such type.
#[derive(Drop)]
pub struct MirrorLane<H: Shelf, T: Target> {
    shelf: H,
    target: T,
    result: Option<Result<MirrorReport, MirrorError>>,
}

impl<H: Shelf, T: Target> MirrorLane<H, T> {
    /// A pair over which no run was made. It takes no memory.
    pub fn new(shelf: H, target: T) -> MirrorLane<H, T>
        ensures { result ≡ record { shelf = shelf; target = target; result = None } }
    {
        MirrorLane {
            shelf,
            target,
            result: None,
        }
    }

    /// What the last run answered, or none where no run was made.
    pub fn result(&self) -> Option<&Result<MirrorReport, MirrorError>>
        ensures { option_copied result ≡ self.now.result }
    {
        self.result.as_ref()
    }

    /// The pair. It takes no memory.
    pub fn into_parts(self) -> (H, T)
        ensures { result ≡ (self.shelf, self.target) }
    {
        let MirrorLane {
            shelf,
            target,
            result: _,
        } = self;
        (shelf, target)
    }

    // Copies the files of a list over the pair, and keeps the answer.
    fn run(&mut self, alloc: Global, files: &[MerkleHash], verify: bool)
        ensures { LaneMirrored verify files.now (H.told self.old.shelf) (H.told self.new.shelf)
            (T.told self.old.target) (T.told self.new.target) self.new.result }
    {
        let answer = mirror_files(alloc, &mut self.shelf, &mut self.target, files, verify);
        self.result = Some(answer);
    }
}

/// Copies the files of a list over each pair at once, on at most 64 threads. Each pair ends as `mirror_files` over it
/// would, and keeps its answer, want of memory too: one that fails hinders no other.
///
/// The Rust crates have no such call.
pub fn mirror_all<R: Threads + Sync, H: Shelf + Send, T: Target + Send>(
    rt: &R,
    alloc: Global,
    lanes: &mut [MirrorLane<H, T>],
    files: &[MerkleHash],
    verify: bool,
)
    ensures { (i : ℕ) (d : _) → i < length lanes.old
        → let before = slice_index_or lanes.old i d in let after = slice_index_or lanes.new i d in
        LaneMirrored verify files.now (H.told before.shelf) (H.told after.shelf)
        (T.told before.target) (T.told after.target) after.result }
{
    let threads = lanes.len().clamp(1, 64);
    for_each_mut(
        rt,
        lanes,
        threads,
        &|_, lane| lane.run(alloc, files, verify),
    );
}
