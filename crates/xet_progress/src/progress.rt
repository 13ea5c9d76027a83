//! A progress group that several users share.
ghost use Rattle.std.specs.Prelude.{◌≡◌, ◌≤◌, ◌^◌, IfOk, IfErr, option_map};
ghost use Rattle.xet_base.specs.declared.invalid.Invalid.{Invalid};
ghost use Rattle.xet_progress_state.specs.Group.{IsSound, NewItemCall, TransferCall, group_completeness, group_sums};
ghost use Rattle.xet_progress_state.specs.Group.{item_of, reports_of};
ghost use Rattle.xet_progress.specs.Held.{Held};
ghost use Rattle.xet_progress_state.specs.Items.{report_of};

use crate::tracker::{CompletionTracker, TrackerPass};
use crate::updater::ItemProgressUpdater;
use std::alloc::Global;
use std::collections::BTreeMap;
use std::sync::ledger::{Blank, Ledger};
use std::sync::{Arc, Mutex, MutexGuard, Wait};
use xet_base::{OutOfMemory, UniqueID};
use xet_progress_state::{
    GroupProgressReport, GroupState, Incomplete, ItemProgressReport, ProgressError,
};

/// A group's state under a lock. Each call is one hold of it, and whenever it is free the sums are those of the items
/// and of what trackers and `add_transfer` added.
///
/// In the Rust crate: `progress_tracking::GroupProgress`, whose sums are atomics.
#[derive(Drop)]
pub struct GroupProgress {
    state: Mutex<GroupState>,
}

impl GroupProgress {
    /// A group of this state.
    fn of(alloc: Global, state: GroupState) -> Result<Arc<GroupProgress>, OutOfMemory> {
        let group = GroupProgress {
            state: Mutex::new(state),
        };
        Ok(Arc::new(alloc, group)?)
    }

    /// A group with no items, whose sums are 0.
    ///
    /// `OutOfMemory` where its memory was refused.
    ///
    /// In the Rust crate: `GroupProgress::new`.
    pub fn new(alloc: Global) -> Result<Arc<GroupProgress>, OutOfMemory> {
        GroupProgress::of(alloc, GroupState::new(alloc))
    }

    /// A group with one item, of id 0 and this name.
    pub(crate) fn with_item(alloc: Global, name: &str) -> Result<Arc<GroupProgress>, OutOfMemory> {
        let mut state = GroupState::new(alloc);
        if state.new_item(alloc, UniqueID(0), name).is_err() {
            return Err(OutOfMemory);
        }
        GroupProgress::of(alloc, state)
    }

    /// Its state for one call. What is true of every group is true of it.
    pub(crate) fn lock<R: Wait>(&self, rt: &R) -> MutexGuard<'_, GroupState>
        ensures { IsSound result.value }
    {
        let mut state = self.state.lock(rt);
        state.sound();
        state
    }

    /// Adds an item with no bytes, whose size is not final, and gives the updater that names it.
    ///
    /// `DuplicateId` where an item has this id, and `OutOfMemory` where an allocation was refused.
    ///
    /// In the Rust crate: `GroupProgress::new_item`, where an item with the same id is replaced.
    pub fn new_item<R: Wait>(
        group: &Arc<GroupProgress>,
        rt: &R,
        alloc: Global,
        id: UniqueID,
        name: &str,
    ) -> Result<ItemProgressUpdater, ProgressError>
        ensures named { IfOk result (λ updater. updater ≡ id) }
        ensures made { IfOk result (λ _. Held (λ before now. NewItemCall before now id name.now (Ok tt))) }
        ensures refused { IfErr result
            (λ e. (why : Invalid) → e ≡ ProgressError.InvalidOperation why
            → Held (λ before now. NewItemCall before now id name.now (Err e))) }
    {
        let updater = GroupProgress::updater(group, id)?;
        let made = group.lock(rt).new_item(alloc, id, name);
        made?;
        Ok(updater)
    }

    /// An updater of the item of this id, which the group has.
    ///
    /// `OutOfMemory` where there are too many users of the group.
    ///
    /// The Rust crate has no such call.
    pub fn updater(
        group: &Arc<GroupProgress>,
        id: UniqueID,
    ) -> Result<ItemProgressUpdater, OutOfMemory>
        ensures { IfOk result (λ updater. updater ≡ id) }
    {
        Ok(ItemProgressUpdater::of(Arc::try_clone(group)?, id))
    }

    /// A tracker that reports to this group, and the pass with all its parts.
    ///
    /// `OutOfMemory` where there are too many users of the group.
    ///
    /// In the Rust crate: `GroupProgress::new_completion_tracker`.
    pub fn new_completion_tracker<L: Ledger>(
        group: &Arc<GroupProgress>,
        alloc: Global,
        blank: Blank,
    ) -> Result<(CompletionTracker<L>, TrackerPass<L>), OutOfMemory>
        requires name { blank.name ≡ L.name }
        requires parts { blank.parts ≡ L.parts }
        requires all { L.parts ≡ 2 ^ 32 }
        ensures parts { IfOk result (λ r. r.1.parts ≡ 2 ^ 32) }
        ensures calls { IfOk result (λ r. r.1.calls ≡ 0) }
    {
        let group = Arc::try_clone(group)?;
        Ok(CompletionTracker::new(alloc, group, blank))
    }

    /// The sums of the group, in bytes. What is completed is at most the total, and likewise what was transferred.
    ///
    /// In the Rust crate: `GroupProgress::report`.
    pub fn report<R: Wait>(&self, rt: &R) -> GroupProgressReport
        ensures sums { Held (λ before now. (result ≡ group_sums before) × (now ≡ before)) }
        ensures bytes { result.total_bytes_completed ≤ result.total_bytes }
        ensures transfer { result.total_transfer_bytes_completed ≤ result.total_transfer_bytes }
    {
        self.lock(rt).report()
    }

    /// Adds to the sums of the bytes to be transferred and of those transferred.
    ///
    /// `SumTooGreat` where the first would pass `u64::MAX`, else `PastTotal` where more would be transferred than was
    /// added. Nothing at all is never refused.
    ///
    /// The Rust crate has no such call.
    pub fn add_transfer<R: Wait>(
        &self,
        rt: &R,
        total: u64,
        completed: u64,
    ) -> Result<(), ProgressError>
        ensures call { Held (λ before now. TransferCall before now total completed result) }
        ensures nothing { total ≡ 0 → completed ≡ 0 → result ≡ Ok tt }
    {
        self.lock(rt).add_transfer(total, completed)
    }

    /// The report of an item, or none where no item has this id.
    ///
    /// `OutOfMemory` where memory for the name was refused.
    ///
    /// In the Rust crate: `GroupProgress::item_report`.
    pub fn item_report<R: Wait>(
        &self,
        rt: &R,
        id: UniqueID,
    ) -> Result<Option<ItemProgressReport>, OutOfMemory>
        ensures { IfOk result (λ report. Held
            (λ before now. (report ≡ option_map report_of (item_of before id)) × (now ≡ before))) }
    {
        self.lock(rt).item_report(id)
    }

    /// The reports of all items, by id.
    ///
    /// `OutOfMemory` where memory for a name or for the map was refused.
    ///
    /// In the Rust crate: `GroupProgress::item_reports`, a hash map there.
    pub fn item_reports<R: Wait>(
        &self,
        rt: &R,
        alloc: Global,
    ) -> Result<BTreeMap<UniqueID, ItemProgressReport>, OutOfMemory>
        ensures { IfOk result (λ reports. Held (λ before now. (reports.entries ≡ reports_of before) × (now ≡ before))) }
    {
        self.lock(rt).item_reports(alloc)
    }

    /// Whether all is completed: the first pair that differs of the bytes, the transferred bytes, and then of each item
    /// by its id.
    ///
    /// In the Rust crate: `GroupProgress::assert_complete`, which panics.
    pub fn assert_complete<R: Wait>(&self, rt: &R) -> Result<(), Incomplete>
        ensures { Held (λ before now. (result ≡ group_completeness before) × (now ≡ before)) }
    {
        self.lock(rt).assert_complete()
    }
}
