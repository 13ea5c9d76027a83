//! The order of gaps.
ghost use Rattle.std.specs.Prelude.{◌<◌, ◌≤◌, Decides};
ghost use Rattle.xet_gap_order.specs.Order.{low_of};

use xet_base::FileRange;

/// Whether a gap of a file of so many bytes is one behind the last gap's end: apart by a byte at least, nonempty, and
/// inside the length. It takes no memory.
///
/// It has no source in the Rust crates.
pub fn is_next(last: Option<u64>, gap: FileRange, length: u64) -> bool
    ensures { Decides result ((low_of last ≤ gap.start) × (gap.start < gap.end) × (gap.end ≤ length)) }
{
    if let Some(end) = last {
        if gap.start <= end {
            return false;
        }
    }
    gap.start < gap.end && gap.end <= length
}
