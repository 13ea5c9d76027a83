//! What a tracker tells the items of its files and its group.
use crate::progress::GroupProgress;
use crate::updater::ItemProgressUpdater;
use std::alloc::Global;
use std::collections::BTreeSet;
use std::sync::{Arc, Wait};
use xet_base::{MerkleHash, OutOfMemory};
use xet_progress_state::{
    FileXorbDependency, Found, TrackedFile, TrackerReply, TrackerState, TrackerStep,
};

/// A file's item, and the completed bytes that it was told.
#[derive(Drop)]
struct Told {
    item: ItemProgressUpdater,
    completed: u64,
}

/// The items of the files, by the files' ids, the group, and the xorbs whose size the group didn't take. What would be
/// told of those is left out.
#[derive(Drop)]
pub(crate) struct Reports {
    group: Arc<GroupProgress>,
    files: Vec<Told>,
    left_out: BTreeSet<MerkleHash>,
}

impl Reports {
    /// Reports to a group, with no files.
    pub(crate) fn new(alloc: Global, group: Arc<GroupProgress>) -> Reports {
        Reports {
            group,
            files: Vec::new(alloc),
            left_out: BTreeSet::new(alloc),
        }
    }

    /// Takes the memory that telling of a call needs: room for one file, and a xorb that isn't registered is left out
    /// until the group took its size.
    pub(crate) fn prepare(
        &mut self,
        state: &TrackerState,
        step: &TrackerStep,
    ) -> Result<(), OutOfMemory> {
        self.files.reserve(1)?;
        let TrackerStep::RegisterNewXorb { xorb_hash, .. } = step else {
            return Ok(());
        };
        if state.xorb(xorb_hash).is_none() {
            self.left_out.insert(*xorb_hash)?;
        }
        Ok(())
    }

    /// Adds the item of a new file, and tells it the file's size.
    pub(crate) fn add_file<R: Wait>(
        &mut self,
        rt: &R,
        item: ItemProgressUpdater,
        n_bytes: Option<u64>,
    ) {
        let _ = item.update_item_size(rt, n_bytes.unwrap_or(0), n_bytes.is_some());
        let _ = self.files.push(Told { item, completed: 0 });
    }

    /// Tells what a call did, given the entry of its xorb before it. A refusal by an item or the group is dropped.
    pub(crate) fn tell<R: Wait>(
        &mut self,
        rt: &R,
        state: &TrackerState,
        step: &TrackerStep,
        reply: &TrackerReply,
        before: Option<Found>,
    ) {
        if let TrackerReply::Refused(_) = reply {
            return;
        }
        match step {
            TrackerStep::IncrementFileSize { file_id, .. } => {
                self.tell_size(rt, *file_id, state.file(*file_id));
            }
            TrackerStep::RegisterNewXorb {
                xorb_hash,
                xorb_size,
            } => {
                if *reply == TrackerReply::Flag(true) {
                    self.tell_xorb(rt, xorb_hash, *xorb_size);
                }
            }
            TrackerStep::RegisterDependencies { dependencies } => {
                self.tell_dependencies(rt, state, dependencies.as_slice());
            }
            TrackerStep::RegisterXorbUploadCompletion { xorb_hash } => {
                self.tell_sent(rt, state, xorb_hash, before, None);
            }
            TrackerStep::RegisterXorbUploadProgress {
                xorb_hash,
                new_byte_progress,
            } => {
                self.tell_sent(rt, state, xorb_hash, before, Some(*new_byte_progress));
            }
            TrackerStep::RegisterXorbUploadProgressBackground {
                xorb_hash,
                new_byte_progress,
            } => {
                self.tell_sent(rt, state, xorb_hash, before, Some(*new_byte_progress));
            }
            _ => {}
        }
    }

    /// Tells a file's item the total of a file that grows.
    fn tell_size<R: Wait>(&mut self, rt: &R, id: u64, file: Option<TrackedFile>) {
        let Some(file) = file else {
            return;
        };
        if file.fixed {
            return;
        }
        if let Some(told) = self.files.get(id as usize) {
            let _ = told.item.update_item_size(rt, file.total, false);
        }
    }

    /// Tells the group the size of a new xorb, which stays left out where the group refuses it.
    fn tell_xorb<R: Wait>(&mut self, rt: &R, hash: &MerkleHash, size: u64) {
        if self.group.add_transfer(rt, size, 0).is_ok() {
            self.left_out.remove(hash);
        }
    }

    /// Tells the items of the files of dependencies what is completed of them.
    fn tell_dependencies<R: Wait>(
        &mut self,
        rt: &R,
        state: &TrackerState,
        dependencies: &[FileXorbDependency],
    ) {
        for dependency in dependencies {
            self.tell_completed(rt, dependency.file_id, state.file(dependency.file_id));
        }
    }

    /// Tells the group the bytes sent of a xorb, all the rest where none are given, and the items of the files that
    /// wait for it what is completed of them. Nothing is told of a xorb that was completed before.
    fn tell_sent<R: Wait>(
        &mut self,
        rt: &R,
        state: &TrackerState,
        hash: &MerkleHash,
        before: Option<Found>,
        sent: Option<u64>,
    ) {
        let Some(found) = before else {
            return;
        };
        if found.completed {
            return;
        }
        let sent = sent.unwrap_or(found.size.saturating_sub(found.sent));
        if !self.left_out.contains(hash) {
            let _ = self.group.add_transfer(rt, 0, sent);
        }
        for number in 0..state.waiting_count(found.place) {
            if let Some(id) = state.waiting_file(found.place, number) {
                self.tell_completed(rt, id, state.file(id));
            }
        }
    }

    /// Tells a file's item what is completed of it beyond what it was told.
    fn tell_completed<R: Wait>(&mut self, rt: &R, id: u64, file: Option<TrackedFile>) {
        let Some(file) = file else {
            return;
        };
        let Some(told) = self.files.get_mut(id as usize) else {
            return;
        };
        if file.completed > told.completed {
            let _ = told
                .item
                .report_bytes_completed(rt, file.completed - told.completed);
            told.completed = file.completed;
        }
    }
}
