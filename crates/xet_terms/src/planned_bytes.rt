//! What of the plans that were taken is reported.
ghost use Rattle.std.specs.Prelude.{◌≡◌};
ghost use Rattle.xet_terms.specs.Managers.{none_planned, planned_with};

use std::sync::Wait;
use xet_blocks::TermBlock;
use xet_progress::ItemProgressUpdater;

/// The bytes of the plans that were taken, as sums that stop at `u64::MAX`.
#[derive(Clone, Copy, PartialEq, Eq)]
pub(crate) struct PlannedBytes {
    bytes: u64,
    transfer_bytes: u64,
    // a query was past the end
    is_final: bool,
}

impl PlannedBytes {
    /// Those of no plan.
    pub(crate) fn new() -> PlannedBytes
        ensures { result ≡ none_planned }
    {
        PlannedBytes {
            bytes: 0,
            transfer_bytes: 0,
            is_final: false,
        }
    }

    /// Those with one answer more.
    pub(crate) fn with(&self, answer: &Option<TermBlock>) -> PlannedBytes
        ensures { result ≡ planned_with self.now answer.now }
    {
        match answer {
            Some(block) => {
                let range = block.byte_range;
                let bytes = range.end.saturating_sub(range.start);
                PlannedBytes {
                    bytes: self.bytes.saturating_add(bytes),
                    transfer_bytes: self.transfer_bytes.saturating_add(block.transfer_bytes),
                    is_final: self.is_final,
                }
            }
            None => PlannedBytes {
                bytes: self.bytes,
                transfer_bytes: self.transfer_bytes,
                is_final: true,
            },
        }
    }

    /// Reports them. A refused report changes nothing.
    pub(crate) fn report<R: Wait>(&self, rt: &R, progress: &Option<ItemProgressUpdater>) {
        if let Some(progress) = progress {
            let _ = progress.update_item_size(rt, self.bytes, self.is_final);
            let _ = progress.update_transfer_size(rt, self.transfer_bytes);
        }
    }
}
