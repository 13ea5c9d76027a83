//! The items of a session's files.
use std::alloc::Global;
use std::sync::Wait;
use xet_base::OutOfMemory;
use xet_progress::{FileXorbDependency, ItemProgressUpdater, TrackerState};
use xet_progress_state::{Found, TrackedFile};

/// A file's item, and the completed bytes that it was told.
#[derive(Drop)]
struct ToldItem {
    item: ItemProgressUpdater,
    completed: u64,
}

/// The items of the files by the tracker's ids. They are told what the tracker counts of their files. A report that an
/// item refuses is left out.
#[derive(Drop)]
pub(crate) struct FileItems {
    files: Vec<ToldItem>,
}

impl FileItems {
    /// No files. It takes no memory.
    pub(crate) fn new(alloc: Global) -> FileItems {
        FileItems {
            files: Vec::new(alloc),
        }
    }

    /// Makes room for one file more. `OutOfMemory` where an allocation was refused.
    pub(crate) fn reserve(&mut self) -> Result<(), OutOfMemory> {
        self.files.reserve(1)?;
        Ok(())
    }

    /// Adds the item of the next file, and tells it the file's size: a final one, or none yet.
    pub(crate) fn add<W: Wait>(&mut self, rt: &W, item: ItemProgressUpdater, size: Option<u64>) {
        let _ = item.update_item_size(rt, size.unwrap_or(0), size.is_some());
        let _ = self.files.push(ToldItem { item, completed: 0 });
    }

    /// Tells the item of a file that grows the file's total. A fixed size stays.
    pub(crate) fn tell_size<W: Wait>(&self, rt: &W, tracker: &TrackerState, file_id: u64) {
        let Some(file) = tracker.file(file_id) else {
            return;
        };
        if file.fixed {
            return;
        }
        if let Some(told) = self.files.get(file_id as usize) {
            let _ = told.item.update_item_size(rt, file.total, false);
        }
    }

    /// Tells the items of the files of dependencies what is completed of them.
    pub(crate) fn tell_dependencies<W: Wait>(
        &mut self,
        rt: &W,
        tracker: &TrackerState,
        dependencies: &[FileXorbDependency],
    ) {
        for dependency in dependencies {
            self.tell_completed(rt, dependency.file_id, tracker.file(dependency.file_id));
        }
    }

    /// Tells the items of the files that wait for a xorb what is completed of them, given the xorb's entry before it
    /// was completed.
    pub(crate) fn tell_xorb<W: Wait>(
        &mut self,
        rt: &W,
        tracker: &TrackerState,
        before: Option<Found>,
    ) {
        let Some(found) = before else {
            return;
        };
        if found.completed {
            return;
        }
        for number in 0..tracker.waiting_count(found.place) {
            if let Some(file_id) = tracker.waiting_file(found.place, number) {
                self.tell_completed(rt, file_id, tracker.file(file_id));
            }
        }
    }

    /// Tells a file's item what is completed of it beyond what it was told.
    fn tell_completed<W: Wait>(&mut self, rt: &W, file_id: u64, file: Option<TrackedFile>) {
        let Some(file) = file else {
            return;
        };
        let Some(told) = self.files.get_mut(file_id as usize) else {
            return;
        };
        if file.completed > told.completed {
            let _ = told
                .item
                .report_bytes_completed(rt, file.completed - told.completed);
            told.completed = file.completed;
        }
    }
}
