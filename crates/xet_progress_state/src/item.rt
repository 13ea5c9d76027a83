//! The items of a progress group.
ghost use Rattle.std.specs.Prelude.{◌≡◌, IfOk};
ghost use Rattle.xet_progress_state.specs.Items.{blank_item, item_completeness, report_of};

use crate::error::Incomplete;
use xet_base::{OutOfMemory, Text, UniqueID};

/// The counts of an item, as they are or were at one moment. Sizes are in bytes.
///
/// In the Rust crate: `progress_tracking::progress_types::ItemProgress`, whose counts are atomics.
#[derive(Drop, Debug)]
pub struct ItemProgress {
    pub(crate) id: UniqueID,
    pub(crate) name: Text,
    pub(crate) total_bytes: u64,
    pub(crate) bytes_completed: u64,
    pub(crate) transfer_bytes: u64,
    pub(crate) transfer_bytes_completed: u64,
    pub(crate) size_finalized: bool,
}

impl ItemProgress {
    /// An item with no bytes, whose size is not final.
    pub fn blank(id: UniqueID, name: Text) -> ItemProgress
        ensures { result ≡ blank_item id name }
    {
        ItemProgress {
            id,
            name,
            total_bytes: 0,
            bytes_completed: 0,
            transfer_bytes: 0,
            transfer_bytes_completed: 0,
            size_finalized: false,
        }
    }

    /// The same counts under an id.
    ///
    /// `OutOfMemory` where memory for the name was refused.
    pub(crate) fn copy_as(&self, id: UniqueID) -> Result<ItemProgress, OutOfMemory>
        ensures { IfOk result (λ copy. copy ≡ record self.now { id = id }) }
    {
        let name = self.name.clone()?;
        Ok(ItemProgress {
            id,
            name,
            total_bytes: self.total_bytes,
            bytes_completed: self.bytes_completed,
            transfer_bytes: self.transfer_bytes,
            transfer_bytes_completed: self.transfer_bytes_completed,
            size_finalized: self.size_finalized,
        })
    }

    /// The id by which its group knows it.
    pub fn id(&self) -> UniqueID
        ensures { result ≡ self.now.id }
    {
        self.id
    }

    /// Its name.
    pub fn name(&self) -> &str
        ensures { result.now ≡ self.now.name }
    {
        self.name.as_str()
    }

    /// How many bytes it has, as far as is known.
    pub fn total_bytes(&self) -> u64
        ensures { result ≡ self.now.total_bytes }
    {
        self.total_bytes
    }

    /// How many of its bytes are completed.
    pub fn bytes_completed(&self) -> u64
        ensures { result ≡ self.now.bytes_completed }
    {
        self.bytes_completed
    }

    /// How many bytes are to be transferred for it.
    pub fn transfer_bytes(&self) -> u64
        ensures { result ≡ self.now.transfer_bytes }
    {
        self.transfer_bytes
    }

    /// How many bytes were transferred for it.
    pub fn transfer_bytes_completed(&self) -> u64
        ensures { result ≡ self.now.transfer_bytes_completed }
    {
        self.transfer_bytes_completed
    }

    /// Whether its size is final, and stays as it is.
    pub fn size_finalized(&self) -> bool
        ensures { result ≡ self.now.size_finalized }
    {
        self.size_finalized
    }

    /// Its name, total and completed bytes.
    ///
    /// `OutOfMemory` where memory for the name was refused.
    pub fn report(&self) -> Result<ItemProgressReport, OutOfMemory>
        ensures { IfOk result (λ report. report ≡ report_of self.now) }
    {
        Ok(ItemProgressReport {
            item_name: self.name.clone()?,
            total_bytes: self.total_bytes,
            bytes_completed: self.bytes_completed,
        })
    }

    /// Whether all of it is completed: `Bytes` where its completed bytes aren't its total, then `Transfer` where its
    /// transferred bytes aren't those to be transferred.
    pub(crate) fn completeness(&self) -> Result<(), Incomplete>
        ensures { result ≡ item_completeness self.now }
    {
        if self.bytes_completed != self.total_bytes {
            return Err(Incomplete::Bytes {
                completed: self.bytes_completed,
                total: self.total_bytes,
            });
        }
        if self.transfer_bytes_completed != self.transfer_bytes {
            return Err(Incomplete::Transfer {
                completed: self.transfer_bytes_completed,
                total: self.transfer_bytes,
            });
        }
        Ok(())
    }
}

/// What an item says of itself.
///
/// In the Rust crate: `progress_tracking::progress_types::ItemProgressReport`.
#[derive(Drop, Debug)]
pub struct ItemProgressReport {
    /// Its name.
    pub item_name: Text,
    /// How many bytes it has, as far as is known.
    pub total_bytes: u64,
    /// How many of its bytes are completed.
    pub bytes_completed: u64,
}

impl ItemProgressReport {
    /// An equal report, with memory of its own.
    ///
    /// `OutOfMemory` where that memory was refused.
    pub fn clone(&self) -> Result<ItemProgressReport, OutOfMemory>
        ensures { IfOk result (λ copy. copy ≡ self.now) }
    {
        Ok(ItemProgressReport {
            item_name: self.item_name.clone()?,
            total_bytes: self.total_bytes,
            bytes_completed: self.bytes_completed,
        })
    }
}

/// The sums of a group, in bytes.
///
/// In the Rust crate: `progress_tracking::progress_types::GroupProgressReport`, which has rates too.
#[derive(Clone, Copy, PartialEq, Eq, Default, Drop, Debug)]
pub struct GroupProgressReport {
    /// The bytes of all items.
    pub total_bytes: u64,
    /// Those of them that are completed.
    pub total_bytes_completed: u64,
    /// The bytes to be transferred, of all items, trackers and added transfers.
    pub total_transfer_bytes: u64,
    /// Those of them that were transferred.
    pub total_transfer_bytes_completed: u64,
}
