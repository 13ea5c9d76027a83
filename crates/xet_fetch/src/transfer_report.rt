//! Reports how many bytes were transferred for a block.
ghost use Rattle.std.specs.Prelude.{◌≡◌, ◌-◌, ◌^◌, map, min};
ghost use Rattle.std.specs.List.{sum};

use std::sync::Wait;
use xet_base::HttpRange;
use xet_blocks::TermBlockRetrievalURLs;
use xet_progress::ItemProgressUpdater;

/// Reports a block of a plan as transferred to the item of a progress, if there is one: the block's number in its table
/// of URLs names the half-open ranges of the xorb's bytes, and what is reported is the sum of their lengths in bytes,
/// which stops at `u64::MAX`. No block of that number reports nothing, and a refused report changes nothing.
///
/// In the Rust crate: `ItemProgressUpdater::report_transfer_progress`, called where
/// `file_reconstruction::reconstruction_terms::xorb_block::XorbBlock::retrieve_data` has fetched a block.
pub fn report_transfer<R: Wait>(
    rt: &R,
    progress: Option<&ItemProgressUpdater>,
    urls: &TermBlockRetrievalURLs,
    index: usize,
) {
    let (Some(progress), Some((_, found))) = (progress, urls.get_retrieval_url(index)) else {
        return;
    };
    let _ = progress.report_transfer_progress(rt, transfer_bytes(found.ranges.as_slice()));
}

/// The bytes of some ranges, a sum that stops at `u64::MAX`.
fn transfer_bytes(ranges: &[HttpRange]) -> u64
    ensures { result ≡ min (sum (map (λ r. r.end - r.start) ranges.now)) (2 ^ 64 - 1) }
{
    let mut bytes = 0u64;
    for range in ranges {
        bytes = bytes.saturating_add(range.length());
    }
    bytes
}
