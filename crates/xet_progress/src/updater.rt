//! One user's hold on an item of a shared group.
ghost use Rattle.std.specs.Prelude.{◌≡◌, [], IfOk};
ghost use Rattle.xet_progress_state.specs.Group.{group_sums, more_completed, more_transferred, sized, transfer_sized};
ghost use Rattle.xet_progress.specs.Held.{Held, UpdaterCall, known_answer, said_or};
ghost use Rattle.xet_progress_state.specs.Items.{blank_item, item_completeness, report_of};

use crate::progress::GroupProgress;
use std::alloc::Global;
use std::marker::Model;
use std::sync::{Arc, Wait};
use xet_base::{Invalid, OutOfMemory, Text, UniqueID};
use xet_progress_state::{Incomplete, ItemProgress, ItemProgressReport, ProgressError};

/// Names an item of a group, and reports to it. Contracts see it as the item's id. The group has the item: a call that
/// did not find it would change nothing and answer `Ok`, 0, or an item with no name and no bytes.
///
/// In the Rust crate: `progress_tracking::progress_types::ItemProgressUpdater`.
#[derive(Drop)]
pub struct ItemProgressUpdater {
    group: Arc<GroupProgress>,
    id: UniqueID,
}

impl Model for ItemProgressUpdater {
    ghost use Rattle.xet_base.specs.declared.item_id.UniqueID.{UniqueID};

    ghost Value = { UniqueID };

    ghost view = { λ u. u.id };
}

/// A refusal, but for that of an item that isn't there.
fn known(answer: Result<(), ProgressError>) -> Result<(), ProgressError>
    ensures { result ≡ known_answer answer }
{
    match answer {
        Err(ProgressError::InvalidOperation(Invalid::UnknownItem { .. })) => Ok(()),
        answer => answer,
    }
}

impl ItemProgressUpdater {
    /// The updater of an item of this group.
    pub(crate) fn of(group: Arc<GroupProgress>, id: UniqueID) -> ItemProgressUpdater
        ensures { result ≡ id }
    {
        ItemProgressUpdater { group, id }
    }

    /// An updater of an item of id 0 in a group of its own.
    ///
    /// `OutOfMemory` where an allocation was refused.
    ///
    /// In the Rust crate: `ItemProgressUpdater::new_standalone`, whose item has a fresh id.
    pub fn new_standalone(alloc: Global, name: &str) -> Result<ItemProgressUpdater, OutOfMemory>
        ensures { IfOk result (λ updater. updater ≡ record { 0 = 0 }) }
    {
        let group = GroupProgress::with_item(alloc, name)?;
        Ok(ItemProgressUpdater::of(group, UniqueID(0)))
    }

    /// The group of the item.
    pub fn group(&self) -> &Arc<GroupProgress> {
        &self.group
    }

    /// Another updater of the same item.
    ///
    /// `OutOfMemory` where there are too many users of the group.
    pub fn share(&self) -> Result<ItemProgressUpdater, OutOfMemory>
        ensures { IfOk result (λ updater. updater ≡ self.now) }
    {
        GroupProgress::updater(&self.group, self.id)
    }

    /// Makes the item's total, in bytes, the greater of it and this one, until it is final; `is_final` makes it so.
    ///
    /// `SumTooGreat` where the group's total would pass `u64::MAX`. 0 is never refused.
    ///
    /// In the Rust crate: `ItemProgressUpdater::update_item_size`.
    pub fn update_item_size<R: Wait>(
        &self,
        rt: &R,
        total: u64,
        is_final: bool,
    ) -> Result<(), ProgressError>
        ensures call { Held (λ before now. UpdaterCall before now self.now
            (sized (group_sums before).total_bytes total is_final) result) }
        ensures nothing { total ≡ 0 → result ≡ Ok tt }
    {
        known(
            self.group
                .lock(rt)
                .update_item_size(self.id, total, is_final),
        )
    }

    /// Makes the bytes to be transferred for the item the greater of them and these.
    ///
    /// `SumTooGreat` where the group's sum would pass `u64::MAX`. 0 is never refused.
    ///
    /// In the Rust crate: `ItemProgressUpdater::update_transfer_size`.
    pub fn update_transfer_size<R: Wait>(&self, rt: &R, total: u64) -> Result<(), ProgressError>
        ensures call { Held (λ before now. UpdaterCall before now self.now
            (transfer_sized (group_sums before).total_transfer_bytes total) result) }
        ensures nothing { total ≡ 0 → result ≡ Ok tt }
    {
        known(self.group.lock(rt).update_transfer_size(self.id, total))
    }

    /// Counts bytes of the item as completed.
    ///
    /// `PastTotal` where they would pass the item's total. 0 is never refused.
    ///
    /// In the Rust crate: `ItemProgressUpdater::report_bytes_completed`.
    pub fn report_bytes_completed<R: Wait>(
        &self,
        rt: &R,
        increment: u64,
    ) -> Result<(), ProgressError>
        ensures call { Held (λ before now. UpdaterCall before now self.now (more_completed increment) result) }
        ensures nothing { increment ≡ 0 → result ≡ Ok tt }
    {
        known(
            self.group
                .lock(rt)
                .report_bytes_completed(self.id, increment),
        )
    }

    /// Counts written bytes of the item as completed, which is `report_bytes_completed`.
    ///
    /// In the Rust crate: `ItemProgressUpdater::report_bytes_written`.
    pub fn report_bytes_written<R: Wait>(&self, rt: &R, increment: u64) -> Result<(), ProgressError>
        ensures call { Held (λ before now. UpdaterCall before now self.now (more_completed increment) result) }
        ensures nothing { increment ≡ 0 → result ≡ Ok tt }
    {
        known(self.group.lock(rt).report_bytes_written(self.id, increment))
    }

    /// Counts bytes as transferred for the item.
    ///
    /// `PastTotal` where they would pass those to be transferred for it. 0 is never refused.
    ///
    /// In the Rust crate: `ItemProgressUpdater::report_transfer_bytes_completed`.
    pub fn report_transfer_bytes_completed<R: Wait>(
        &self,
        rt: &R,
        increment: u64,
    ) -> Result<(), ProgressError>
        ensures call { Held (λ before now. UpdaterCall before now self.now (more_transferred increment) result) }
        ensures nothing { increment ≡ 0 → result ≡ Ok tt }
    {
        known(
            self.group
                .lock(rt)
                .report_transfer_bytes_completed(self.id, increment),
        )
    }

    /// Counts bytes as transferred for the item, which is `report_transfer_bytes_completed`.
    ///
    /// In the Rust crate: `ItemProgressUpdater::report_transfer_progress`.
    pub fn report_transfer_progress<R: Wait>(&self, rt: &R, delta: u64) -> Result<(), ProgressError>
        ensures call { Held (λ before now. UpdaterCall before now self.now (more_transferred delta) result) }
        ensures nothing { delta ≡ 0 → result ≡ Ok tt }
    {
        known(self.group.lock(rt).report_transfer_progress(self.id, delta))
    }

    /// The completed bytes of the item.
    ///
    /// In the Rust crate: `ItemProgressUpdater::total_bytes_completed`.
    pub fn total_bytes_completed<R: Wait>(&self, rt: &R) -> u64
        ensures { Held (λ before now. (result ≡ said_or before self.now (λ i. i.bytes_completed) 0) × (now ≡ before)) }
    {
        self.group
            .lock(rt)
            .total_bytes_completed(self.id)
            .unwrap_or(0)
    }

    /// Whether all of the item is completed: `Bytes` where its completed bytes aren't its total, then `Transfer` where
    /// its transferred bytes aren't those to be transferred.
    ///
    /// In the Rust crate: `ItemProgressUpdater::assert_complete`, which panics.
    pub fn assert_complete<R: Wait>(&self, rt: &R) -> Result<(), Incomplete>
        ensures { Held (λ before now. (result ≡ said_or before self.now item_completeness (Ok tt)) × (now ≡ before)) }
    {
        self.group
            .lock(rt)
            .assert_item_complete(self.id)
            .unwrap_or(Ok(()))
    }

    /// The counts of the item as they are now.
    ///
    /// `OutOfMemory` where memory for the name was refused.
    ///
    /// In the Rust crate: `ItemProgressUpdater::item`.
    pub fn item<R: Wait>(&self, rt: &R, alloc: Global) -> Result<ItemProgress, OutOfMemory>
        ensures { IfOk result (λ item. Held
            (λ before now. (item ≡ said_or before self.now (λ i. record i { id = self.now })
            (blank_item self.now [])) × (now ≡ before))) }
    {
        let mut group = self.group.lock(rt);
        match group.item(self.id) {
            Ok(item) => Ok(item),
            Err(ProgressError::OutOfMemory) => Err(OutOfMemory),
            Err(ProgressError::InvalidOperation(_)) => {
                let name = Text::from_string(String::new(alloc));
                Ok(ItemProgress::blank(self.id, name))
            }
        }
    }

    /// The item's name, total and completed bytes.
    ///
    /// `OutOfMemory` where memory for the name was refused.
    ///
    /// In the Rust crate: `ItemProgressUpdater::report`.
    pub fn report<R: Wait>(&self, rt: &R, alloc: Global) -> Result<ItemProgressReport, OutOfMemory>
        ensures { IfOk result (λ report. Held
            (λ before now. (report ≡ said_or before self.now report_of (report_of (blank_item self.now [])))
            × (now ≡ before))) }
    {
        self.item(rt, alloc)?.report()
    }
}
