//! Which files may be open.
ghost use Rattle.std.specs.Prelude.{◌≡◌, ◌≤◌, ◌<◌, [], All, None, List, length, map, slice_index_or, OnOk, IfErr};
ghost use Rattle.std.specs.Prelude.{IfNone, IfSome};
ghost use Rattle.std.specs.List.{enumerate_from};
ghost use Rattle.xet_base.specs.Lists.{first_some};
ghost use Rattle.xet_progress_state.specs.declared.file.TrackedFile.{TrackedFile};
ghost use Rattle.xet_progress_state.specs.steps.Open.{Marked, SameBut, open_in};

use crate::error::{Incomplete, ProgressError};
use crate::file::TrackedFile;
use std::alloc::Global;
use std::collections::BTreeSet;

/// How far a look for open files came: each file below the mark is complete, or among the ids of those that grew after
/// the mark had passed them.
#[derive(Drop)]
pub(crate) struct Marks {
    pub(crate) mark: usize,
    pub(crate) reopened: BTreeSet<u64>,
}

impl Marks {
    /// At the first file. It takes no memory.
    pub(crate) fn new(alloc: Global) -> Marks
        ensures { Marked [] result }
    {
        Marks {
            mark: 0,
            reopened: BTreeSet::new(alloc),
        }
    }

    /// Notes that a file grows.
    pub(crate) fn reopen(&mut self, id: u64) -> Result<(), ProgressError>
        ensures ok { OnOk result ((fs gs : List TrackedFile)
            → Marked fs self.old → SameBut id fs gs → Marked gs self.new) }
        ensures memory { IfErr result (λ e. (e ≡ ProgressError.OutOfMemory)
            × ((fs : List TrackedFile) → Marked fs self.old → Marked fs self.new)) }
    {
        if id >= self.mark as u64 {
            return Ok(());
        }
        if self.reopened.insert(id).is_err() {
            return Err(ProgressError::OutOfMemory);
        }
        Ok(())
    }

    /// The first file that isn't complete. Each file is passed once, and once more each time that it grew.
    pub(crate) fn first_open(&mut self, files: &[TrackedFile]) -> Option<Incomplete>
        requires marked { Marked files.now self.old }
        requires within { All (λ f. f.completed ≤ f.total) files.now }
        ensures marked { Marked files.now self.new }
        ensures first { result ≡ first_some (map open_in (enumerate_from 0 files.now)) }
    {
        if let Some(open) = self.first_reopened(files) {
            return Some(open);
        }
        self.walk(files)
    }

    /// The first of the reopened files that isn't complete. Complete ones are dropped.
    fn first_reopened(&mut self, files: &[TrackedFile]) -> Option<Incomplete>
        requires marked { Marked files.now self.old }
        requires within { All (λ f. f.completed ≤ f.total) files.now }
        ensures marked { Marked files.now self.new }
        ensures some { IfSome result (λ i. first_some (map open_in (enumerate_from 0 files.now)) ≡ Some i) }
        ensures none { IfNone result (self.new.reopened.keys ≡ []) }
    {
        while let Some(id) = self.reopened.first() {
            if let Some(open) = open_at(files, *id as usize) {
                return Some(open);
            }
            self.reopened.pop_first();
        }
        None
    }

    /// The first file that isn't complete, where none below the mark is open. The mark moves on to it.
    fn walk(&mut self, files: &[TrackedFile]) -> Option<Incomplete>
        requires marked { Marked files.now self.old }
        requires within { All (λ f. f.completed ≤ f.total) files.now }
        requires none { self.old.reopened.keys ≡ [] }
        ensures marked { Marked files.now self.new }
        ensures first { result ≡ first_some (map open_in (enumerate_from 0 files.now)) }
    {
        while self.mark < files.len() {
            if let Some(open) = open_at(files, self.mark) {
                return Some(open);
            }
            self.mark += 1;
        }
        None
    }
}

/// What is missing of a file, where it isn't complete.
fn open_at(files: &[TrackedFile], at: usize) -> Option<Incomplete>
    requires { at < length files.now }
    ensures { (d : TrackedFile) → result ≡ open_in (at, slice_index_or files.now at d) }
{
    let file = files[at];
    if file.completed == file.total {
        return None;
    }
    Some(Incomplete::File {
        id: at as u64,
        completed: file.completed,
        total: file.total,
    })
}
