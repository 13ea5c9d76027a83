//! The plain state of a progress group.
ghost use Rattle.std.specs.Prelude.{◌≡◌, ◌≢◌, ◌+◌, ◌<◌, ◌≤◌, ◌^◌, [], map, max, IfSome, IfOk, IfErr, OnOk};
ghost use Rattle.std.specs.Prelude.{MatchOption, option_map};
ghost use Rattle.std.specs.BTreeMap.{insert_entry};
ghost use Rattle.std.specs.Map.{lookup, set_value};
ghost use Rattle.xet_progress_state.specs.Group.{Group, IsSound, IsWithin, ItemAnswer, ItemCall, NewItemCall};
ghost use Rattle.xet_progress_state.specs.Group.{TransferCall};
ghost use Rattle.xet_progress_state.specs.Group.{group_completeness, group_sums, id_cmp, is_id, item_of};
ghost use Rattle.xet_progress_state.specs.Group.{more_completed};
ghost use Rattle.xet_progress_state.specs.Group.{more_transferred, reports_of, sized, sums_completeness};
ghost use Rattle.xet_progress_state.specs.Group.{transfer_sized};
ghost use Rattle.xet_progress_state.specs.Items.{blank_item, item_completeness, report_of};

use crate::error::{Incomplete, ProgressError};
use crate::item::{GroupProgressReport, ItemProgress, ItemProgressReport};
use std::alloc::Global;
use std::collections::BTreeMap;
use std::marker::Model;
use xet_base::{Invalid, OutOfMemory, Text, UniqueID};

/// Items by id and their sums.
#[derive(Drop)]
pub struct GroupState {
    items: BTreeMap<UniqueID, ItemProgress>,
    sums: GroupProgressReport,
    added: u64,
    finished: u64,
}

impl Model for GroupState {
    ghost use Rattle.xet_progress_state.specs.Group.{Group, IsGroup};

    ghost Value = { Group };

    ghost view = { λ s. record { items = s.items.entries; added = s.added; finished = s.finished } };

    ghost invariant = { λ s. IsGroup s.items.entries s.added s.finished s.sums };
}

impl GroupState {
    /// No items, and all sums 0.
    pub fn new(alloc: Global) -> GroupState
        ensures { result ≡ record { items = []; added = 0; finished = 0 } }
    {
        GroupState {
            items: BTreeMap::new(alloc),
            sums: GroupProgressReport {
                total_bytes: 0,
                total_bytes_completed: 0,
                total_transfer_bytes: 0,
                total_transfer_bytes_completed: 0,
            },
            added: 0,
            finished: 0,
        }
    }

    /// Does nothing. It says of the group what is true of every group.
    pub fn sound(&mut self)
        ensures sound { IsSound self.old }
        ensures same { self.new ≡ self.old }
    {
        let _ = self.items.len();
    }

    /// The sums of the group. What is completed is at most the total, of each item, of what was added and of the sums.
    pub fn report(&mut self) -> GroupProgressReport
        ensures sums { result ≡ group_sums self.old }
        ensures within { IsWithin self.old }
        ensures bytes { result.total_bytes_completed ≤ result.total_bytes }
        ensures transfer { result.total_transfer_bytes_completed ≤ result.total_transfer_bytes }
        ensures same { self.new ≡ self.old }
    {
        self.sums
    }

    /// Adds to the sums of transferred bytes.
    pub fn add_transfer(&mut self, total: u64, completed: u64) -> Result<(), ProgressError>
        ensures { TransferCall self.old self.new total completed result }
    {
        let Some(all) = self.sums.total_transfer_bytes.checked_add(total) else {
            return Err(ProgressError::InvalidOperation(Invalid::SumTooGreat {
                have: self.sums.total_transfer_bytes,
                add: total,
            }));
        };
        let added = self.added + total;
        if completed > added - self.finished {
            return Err(ProgressError::InvalidOperation(Invalid::PastTotal {
                total: added,
                counted: self.finished,
                increment: completed,
            }));
        }
        self.added = added;
        self.finished += completed;
        self.sums.total_transfer_bytes = all;
        self.sums.total_transfer_bytes_completed += completed;
        Ok(())
    }

    /// Counts bytes of an item as completed.
    pub fn report_bytes_completed(
        &mut self,
        id: UniqueID,
        increment: u64,
    ) -> Result<(), ProgressError>
        ensures { ItemCall self.old self.new id (more_completed increment) result }
    {
        let Some(item) = self.items.get(&id) else {
            return Err(ProgressError::InvalidOperation(Invalid::UnknownItem { id }));
        };
        if increment > item.total_bytes - item.bytes_completed {
            return Err(ProgressError::InvalidOperation(Invalid::PastTotal {
                total: item.total_bytes,
                counted: item.bytes_completed,
                increment,
            }));
        }
        add_completed(&mut self.items, &id, increment);
        self.sums.total_bytes_completed += increment;
        Ok(())
    }

    /// Counts transferred bytes of an item as completed.
    pub fn report_transfer_bytes_completed(
        &mut self,
        id: UniqueID,
        increment: u64,
    ) -> Result<(), ProgressError>
        ensures { ItemCall self.old self.new id (more_transferred increment) result }
    {
        let Some(item) = self.items.get(&id) else {
            return Err(ProgressError::InvalidOperation(Invalid::UnknownItem { id }));
        };
        if increment > item.transfer_bytes - item.transfer_bytes_completed {
            return Err(ProgressError::InvalidOperation(Invalid::PastTotal {
                total: item.transfer_bytes,
                counted: item.transfer_bytes_completed,
                increment,
            }));
        }
        add_transferred(&mut self.items, &id, increment);
        self.sums.total_transfer_bytes_completed += increment;
        Ok(())
    }

    /// Makes the transfer total of an item the greater of it and this one.
    pub fn update_transfer_size(&mut self, id: UniqueID, total: u64) -> Result<(), ProgressError>
        ensures { ItemCall self.old self.new id
            (transfer_sized (group_sums self.old).total_transfer_bytes total) result }
    {
        let Some(item) = self.items.get(&id) else {
            return Err(ProgressError::InvalidOperation(Invalid::UnknownItem { id }));
        };
        let rise = total.saturating_sub(item.transfer_bytes);
        let Some(all) = self.sums.total_transfer_bytes.checked_add(rise) else {
            return Err(ProgressError::InvalidOperation(Invalid::SumTooGreat {
                have: self.sums.total_transfer_bytes,
                add: rise,
            }));
        };
        raise_transfer(&mut self.items, &id, total);
        self.sums.total_transfer_bytes = all;
        Ok(())
    }

    /// Makes the total of an item the greater of it and this one, until it is final.
    pub fn update_item_size(
        &mut self,
        id: UniqueID,
        total: u64,
        is_final: bool,
    ) -> Result<(), ProgressError>
        ensures { ItemCall self.old self.new id (sized (group_sums self.old).total_bytes total is_final) result }
    {
        let Some(item) = self.items.get(&id) else {
            return Err(ProgressError::InvalidOperation(Invalid::UnknownItem { id }));
        };
        if item.size_finalized {
            return Ok(());
        }
        let rise = total.saturating_sub(item.total_bytes);
        let Some(all) = self.sums.total_bytes.checked_add(rise) else {
            return Err(ProgressError::InvalidOperation(Invalid::SumTooGreat {
                have: self.sums.total_bytes,
                add: rise,
            }));
        };
        raise_size(&mut self.items, &id, total, is_final);
        self.sums.total_bytes = all;
        Ok(())
    }

    /// The completed bytes of an item.
    ///
    /// `UnknownItem` exactly where no item has this id.
    pub fn total_bytes_completed(&mut self, id: UniqueID) -> Result<u64, ProgressError>
        ensures answer { ItemAnswer self.old self.new id (λ i. i.bytes_completed) result }
        ensures memory { result ≢ Err ProgressError.OutOfMemory }
    {
        let Some(item) = self.items.get(&id) else {
            return Err(ProgressError::InvalidOperation(Invalid::UnknownItem { id }));
        };
        Ok(item.bytes_completed)
    }

    /// Whether all of an item is completed: `Bytes` where its completed bytes aren't its total, then `Transfer` where
    /// its transferred bytes aren't those to be transferred.
    ///
    /// `UnknownItem` exactly where no item has this id.
    pub fn assert_item_complete(
        &mut self,
        id: UniqueID,
    ) -> Result<Result<(), Incomplete>, ProgressError>
        ensures answer { ItemAnswer self.old self.new id item_completeness result }
        ensures memory { result ≢ Err ProgressError.OutOfMemory }
    {
        let Some(item) = self.items.get(&id) else {
            return Err(ProgressError::InvalidOperation(Invalid::UnknownItem { id }));
        };
        Ok(item.completeness())
    }

    /// The counts of an item as they are now.
    ///
    /// `UnknownItem` exactly where no item has this id, but for `OutOfMemory`, where memory for the name was refused.
    pub fn item(&mut self, id: UniqueID) -> Result<ItemProgress, ProgressError>
        ensures { ItemAnswer self.old self.new id (λ i. record i { id = id }) result }
    {
        let Some(item) = self.items.get(&id) else {
            return Err(ProgressError::InvalidOperation(Invalid::UnknownItem { id }));
        };
        Ok(item.copy_as(id)?)
    }

    /// The report of an item: none exactly where no item has this id.
    ///
    /// `OutOfMemory` where memory for the name was refused.
    pub fn item_report(&mut self, id: UniqueID) -> Result<Option<ItemProgressReport>, OutOfMemory>
        ensures report { IfOk result (λ report. report ≡ option_map report_of (item_of self.old id)) }
        ensures same { self.new ≡ self.old }
    {
        let Some(item) = self.items.get(&id) else {
            return Ok(None);
        };
        Ok(Some(item.report()?))
    }

    /// The reports of all items, by id.
    ///
    /// `OutOfMemory` where memory for a name or for the map was refused.
    pub fn item_reports(
        &mut self,
        alloc: Global,
    ) -> Result<BTreeMap<UniqueID, ItemProgressReport>, OutOfMemory>
        ensures reports { IfOk result (λ reports. reports.entries ≡ reports_of self.old) }
        ensures same { self.new ≡ self.old }
    {
        let mut reports = BTreeMap::new(alloc);
        add_reports(&mut reports, &self.items)?;
        Ok(reports)
    }

    /// Whether all is completed: the first pair that differs of the bytes, the transferred bytes, and then of each item
    /// by its id.
    pub fn assert_complete(&mut self) -> Result<(), Incomplete>
        ensures answer { result ≡ group_completeness self.old }
        ensures same { self.new ≡ self.old }
    {
        self.sums.completeness()
    }

    /// Adds an item with no bytes, whose size is not final.
    ///
    /// `DuplicateId` exactly where an item has this id, but for `OutOfMemory`, where an allocation was refused; then,
    /// as after each refusal, the group is as it was.
    pub fn new_item(&mut self, alloc: Global, id: UniqueID, name: &str) -> Result<(), ProgressError>
        ensures { NewItemCall self.old self.new id name.now result }
    {
        if self.items.contains_key(&id) {
            return Err(ProgressError::InvalidOperation(Invalid::DuplicateId { id }));
        }
        add_blank(&mut self.items, alloc, id, name)
    }

    /// Counts written bytes of an item as completed, which is `report_bytes_completed`.
    pub fn report_bytes_written(
        &mut self,
        id: UniqueID,
        increment: u64,
    ) -> Result<(), ProgressError>
        ensures { ItemCall self.old self.new id (more_completed increment) result }
    {
        self.report_bytes_completed(id, increment)
    }

    /// Counts transferred bytes of an item, which is `report_transfer_bytes_completed`.
    pub fn report_transfer_progress(
        &mut self,
        id: UniqueID,
        delta: u64,
    ) -> Result<(), ProgressError>
        ensures { ItemCall self.old self.new id (more_transferred delta) result }
    {
        self.report_transfer_bytes_completed(id, delta)
    }
}

impl GroupProgressReport {
    /// Whether both completed sums are their totals: bytes, then transfer.
    pub(crate) fn completeness(&self) -> Result<(), Incomplete>
        ensures { result ≡ sums_completeness self.now }
    {
        if self.total_bytes_completed != self.total_bytes {
            return Err(Incomplete::Bytes {
                completed: self.total_bytes_completed,
                total: self.total_bytes,
            });
        }
        if self.total_transfer_bytes_completed != self.total_transfer_bytes {
            return Err(Incomplete::Transfer {
                completed: self.total_transfer_bytes_completed,
                total: self.total_transfer_bytes,
            });
        }
        Ok(())
    }
}

/// Adds an item with no bytes, whose size is not final.
fn add_blank(
    items: &mut BTreeMap<UniqueID, ItemProgress>,
    alloc: Global,
    id: UniqueID,
    name: &str,
) -> Result<(), ProgressError>
    ensures ok { OnOk result
        (items.new.entries ≡ insert_entry id_cmp items.old.entries id (blank_item id name.now)) }
    ensures memory { IfErr result
        (λ e. (e ≡ ProgressError.OutOfMemory) × (items.new.entries ≡ items.old.entries)) }
{
    let Ok(name) = String::from_str(alloc, name) else {
        return Err(ProgressError::OutOfMemory);
    };
    let item = ItemProgress::blank(id, Text::from_string(name));
    if items.insert(id, item).is_err() {
        return Err(ProgressError::OutOfMemory);
    }
    Ok(())
}

/// Adds the report of an item.
fn add_report(
    reports: &mut BTreeMap<UniqueID, ItemProgressReport>,
    id: UniqueID,
    item: &ItemProgress,
) -> Result<(), OutOfMemory>
    ensures { OnOk result
        (reports.new.entries ≡ insert_entry id_cmp reports.old.entries id (report_of item.now)) }
{
    reports.insert(id, item.report()?)?;
    Ok(())
}

/// Adds the reports of items, where there is none yet.
fn add_reports(
    reports: &mut BTreeMap<UniqueID, ItemProgressReport>,
    items: &BTreeMap<UniqueID, ItemProgress>,
) -> Result<(), OutOfMemory>
    requires { reports.old.entries ≡ [] }
    ensures { OnOk result (reports.new.entries ≡ map (λ e. (e.0, report_of e.1)) items.now.entries) }
{
    for (id, item) in items.iter() {
        add_report(reports, *id, item)?;
    }
    Ok(())
}

/// Writes more completed bytes of an item.
fn add_completed(items: &mut BTreeMap<UniqueID, ItemProgress>, id: &UniqueID, increment: u64)
    requires { IfSome (lookup (is_id id.now) items.old.entries) (λ i. i.bytes_completed + increment < 2 ^ 64) }
    ensures { MatchOption (lookup (is_id id.now) items.old.entries) (items.new.entries ≡ items.old.entries)
        (λ i. items.new.entries ≡ set_value (is_id id.now) items.old.entries (more_completed increment i).item) }
{
    if let Some(item) = items.get_mut(id) {
        item.bytes_completed += increment;
    }
}

/// Writes more transferred bytes of an item.
fn add_transferred(items: &mut BTreeMap<UniqueID, ItemProgress>, id: &UniqueID, increment: u64)
    requires { IfSome (lookup (is_id id.now) items.old.entries) (λ i. i.transfer_bytes_completed + increment < 2 ^ 64) }
    ensures { MatchOption (lookup (is_id id.now) items.old.entries) (items.new.entries ≡ items.old.entries)
        (λ i. items.new.entries ≡ set_value (is_id id.now) items.old.entries (more_transferred increment i).item) }
{
    if let Some(item) = items.get_mut(id) {
        item.transfer_bytes_completed += increment;
    }
}

/// Writes a transfer total of an item, where it is greater.
fn raise_transfer(items: &mut BTreeMap<UniqueID, ItemProgress>, id: &UniqueID, total: u64)
    ensures { MatchOption (lookup (is_id id.now) items.old.entries) (items.new.entries ≡ items.old.entries)
        (λ i. items.new.entries ≡ set_value (is_id id.now) items.old.entries
        (record i { transfer_bytes = max i.transfer_bytes total })) }
{
    if let Some(item) = items.get_mut(id) {
        raise_to(&mut item.transfer_bytes, total);
    }
}

fn raise_to(number: &mut u64, least: u64)
    ensures { number.new ≡ max number.old least }
{
    if *number < least {
        *number = least;
    }
}

/// Writes a total of an item, where it is greater, and whether it is final.
fn raise_size(
    items: &mut BTreeMap<UniqueID, ItemProgress>,
    id: &UniqueID,
    total: u64,
    is_final: bool,
)
    ensures { MatchOption (lookup (is_id id.now) items.old.entries) (items.new.entries ≡ items.old.entries)
        (λ i. items.new.entries ≡ set_value (is_id id.now) items.old.entries
        (record i { total_bytes = max i.total_bytes total; size_finalized = is_final })) }
{
    if let Some(item) = items.get_mut(id) {
        raise_to(&mut item.total_bytes, total);
        item.size_finalized = is_final;
    }
}
