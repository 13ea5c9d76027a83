//! Findings of kinds 2 and 3: empty chunks, and xorbs that are too large.
ghost use Rattle.std.specs.Prelude.{◌≡◌, ◌++◌, ◌==◌, OnOk, length};
ghost use Rattle.xet_audit.specs.Findings.{each_at, each_part, each_within, is_too_large};

use crate::raw_store::RawXorb;
use bytes::Bytes;
use xet_base::OutOfMemory;
use xet_findings::{Finding, add_if};

/// Adds a finding of kind 2 for each empty chunk.
pub(crate) fn find_empty_chunks(
    xorbs: &[RawXorb],
    found: &mut Vec<Finding>,
) -> Result<(), OutOfMemory>
    ensures { OnOk result (found.new.items ≡ found.old.items
        ++ each_within 2 (λ x. x.chunks) (λ c. length c == 0) xorbs.now) }
{
    for (a, xorb) in xorbs.iter().enumerate() {
        find_empty_in(a, xorb.chunks.as_slice(), found)?;
    }
    Ok(())
}

// Adds a finding of kind 2 for each empty chunk of the xorb at this place.
fn find_empty_in(xorb: usize, chunks: &[Bytes], found: &mut Vec<Finding>) -> Result<(), OutOfMemory>
    ensures { OnOk result (found.new.items ≡ found.old.items ++ each_part 2 (λ c. length c == 0) xorb chunks.now) }
{
    for (b, chunk) in chunks.iter().enumerate() {
        let empty = Finding {
            kind: 2,
            a: xorb as u64,
            b: b as u64,
        };
        add_if(found, chunk.is_empty(), empty)?;
    }
    Ok(())
}

/// Adds a finding of kind 3 for each xorb that is too large.
pub(crate) fn find_large_xorbs(
    xorbs: &[RawXorb],
    found: &mut Vec<Finding>,
) -> Result<(), OutOfMemory>
    ensures { OnOk result (found.new.items ≡ found.old.items ++ each_at 3 (λ i x. is_too_large x) xorbs.now) }
{
    for (a, xorb) in xorbs.iter().enumerate() {
        let large = Finding {
            kind: 3,
            a: a as u64,
            b: 0,
        };
        add_if(found, is_too_large(xorb), large)?;
    }
    Ok(())
}

// Whether a xorb has 2^32 chunks or bytes or more.
fn is_too_large(xorb: &RawXorb) -> bool
    ensures { result ≡ is_too_large xorb.now }
{
    xorb.chunks.len() > u32::MAX as usize || xorb.num_bytes() > u64::from(u32::MAX)
}
