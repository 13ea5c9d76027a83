//! The range of bytes that two bounds spell.
ghost use Rattle.std.specs.Prelude.{◌≡◌};
ghost use Rattle.xet_download_rules.specs.Bounds.{range_of};

use std::ops::Bound;
use xet_base::{FileRange, Invalid};
use xet_upload::DataError;

/// The range of bytes that two bounds spell, or none where that is the whole of every file, `0..u64::MAX`. It takes no
/// memory.
///
/// It starts at an included start, at the byte after an excluded one, or at 0, and ends before the byte after an
/// included end, before an excluded one, or nowhere; the byte after `u64::MAX` is taken to be `u64::MAX`.
/// `InvalidOperation(ReversedRange)` exactly where it starts after its end.
///
/// In the Rust crate xet-data: `processing::file_download_session::range_bounds_to_file_range`.
pub fn range_bounds_to_file_range(
    range: (Bound<u64>, Bound<u64>),
) -> Result<Option<FileRange>, DataError>
    ensures { result ≡ range_of range }
{
    let start = match range.0 {
        Bound::Included(start) => start,
        Bound::Excluded(start) => start.saturating_add(1),
        Bound::Unbounded => 0,
    };
    let end = match range.1 {
        Bound::Included(end) => end.saturating_add(1),
        Bound::Excluded(end) => end,
        Bound::Unbounded => u64::MAX,
    };
    if start > end {
        return Err(DataError::InvalidOperation(Invalid::ReversedRange { start, end }));
    }
    if start == 0 && end == u64::MAX {
        return Ok(None);
    }
    Ok(Some(FileRange::new(start, end)))
}
