//! Copies one file: the xorbs that it names, and then its record.
ghost use Rattle.std.specs.Prelude.{◌≡◌, IfOk, IfSome};
ghost use Rattle.xet_mirror_parts.specs.Copying.{CopyCall};
ghost use Rattle.xet_mirror_parts.specs.steps.Kept.{RecordCall};
ghost use Rattle.xet_shelves.specs.Shelves.{IsRecordOf, ShelfCall};

use crate::copied::Copied;
use crate::looks::look_at_terms;
use crate::report::MirrorError;
use std::alloc::Global;
use xet_base::{MDBFileInfo, MerkleHash};
use xet_outside::ClientError;
use xet_shelves::{Shelf, Target};

/// The shelf's record of the file with this hash. A record with another hash counts as none.
///
/// `Failed` where the call failed, and `OutOfMemory` where an allocation was refused.
pub fn asked_file<H: Shelf>(
    alloc: Global,
    shelf: &mut H,
    file: &MerkleHash,
) -> Result<Option<MDBFileInfo>, ClientError>
    ensures call { ShelfCall (H.told shelf.old) (H.told shelf.new) (IsRecordOf file.now) result }
    ensures own { IfOk result (λ found. IfSome found (λ f. f.hash ≡ file.now)) }
{
    let Some(found) = shelf.file(alloc, file)? else {
        return Ok(None);
    };
    if !found.hash.is_same(file) {
        return Ok(None);
    }
    Ok(Some(found))
}

/// Copies the file of a record, which stands at a place of a list: first the xorbs that it names and the target lacks,
/// then one shard with the record and those of its xorbs.
///
/// - `BadTerm` where a term isn't from below to inside a xorb of the shelf's, though the shelf or the target has the
///   xorb; `XorbMissing` where neither has it.
/// - `HashDiffers` where `verify` is set and a xorb that the target lacks has another hash than that of its chunks.
/// - `ClientError` where a call of the shelf or of the target failed; `OutOfMemory` where an allocation was refused.
pub fn copy_file<H: Shelf, T: Target>(
    alloc: Global,
    shelf: &mut H,
    target: &mut T,
    copied: &mut Copied,
    place: u64,
    file: MDBFileInfo,
    verify: bool,
) -> Result<(), MirrorError>
    ensures { CopyCall verify place file (H.told shelf.old) (H.told shelf.new) (T.told target.old)
        (T.told target.new) copied.old copied.new result }
{
    let terms = file.entries.as_slice();
    match look_at_terms(alloc, shelf, target, copied, terms, verify)? {
        Some(entry) => Err(MirrorError::BadTerm { place, entry }),
        None => put_record(alloc, target, copied, file),
    }
}

// Puts a file's record with those of its xorbs, and counts the file.
fn put_record<T: Target>(
    alloc: Global,
    target: &mut T,
    copied: &mut Copied,
    file: MDBFileInfo,
) -> Result<(), MirrorError>
    ensures { RecordCall file (T.told target.old) (T.told target.new) copied.old copied.new result }
{
    let shard = copied.shard_of(alloc, file)?;
    target.put_shard(alloc, &shard)?;
    copied.report = copied.report.with_copied();
    Ok(())
}
