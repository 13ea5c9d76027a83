//! Copies files from a shelf to a target.
ghost use Rattle.std.specs.Prelude.{◌≡◌, []};
ghost use Rattle.xet_mirror_parts.specs.Looked.{no_report};
ghost use Rattle.xet_mirror.specs.Calls.{MirrorCall};
ghost use Rattle.xet_mirror.specs.steps.FileCalls.{FileCall};

use std::alloc::Global;
use xet_base::MerkleHash;
use xet_mirror_parts::{Copied, MirrorError, MirrorReport, asked_file, copy_file};
use xet_shelves::{Shelf, Target};

/// Copies the files of a list, in order, where the target lacks them: first the xorbs that a file names and the target
/// lacks, in the order of the file's terms, then one shard with the file's record and those of its xorbs. Each xorb
/// that these files name is asked of the shelf at most once. With `verify` the hash of each xorb that the target lacks
/// is compared with that of its chunks, before it is put.
///
/// Whatever the answer, no shard was put before the xorbs that it names, no xorb that the target had, and none twice.
/// So a call that failed may be repeated over what is there, and copies the rest.
///
/// - `FileMissing` where neither has a listed file, `XorbMissing` where neither has a xorb that a file to be copied
///   names, `BadTerm` where a term of one isn't from below to inside a xorb of the shelf's. A xorb that the term which
///   names it first isn't inside is not put. The last two never come over a shelf that tells a valid store.
/// - `HashDiffers` where `verify` is set and a xorb that the target lacks has another hash than that of its chunks.
/// - `ClientError` where a call of the shelf or of the target failed, and its count of faults rose.
/// - `OutOfMemory` where an allocation was refused.
///
/// What the shelf gives under another hash than the asked one counts as not there. One xorb's bytes are in memory at a
/// time, and the records of the xorbs that were looked at, 36 bytes a chunk. A shard has the records of all xorbs that
/// its file names, so to make it takes their chunks once more, for each file.
///
/// The Rust crates have no such call.
pub fn mirror_files<H: Shelf, T: Target>(
    alloc: Global,
    shelf: &mut H,
    target: &mut T,
    files: &[MerkleHash],
    verify: bool,
) -> Result<MirrorReport, MirrorError>
    ensures { MirrorCall verify files.now (H.told shelf.old) (H.told shelf.new)
        (T.told target.old) (T.told target.new) result }
{
    let mut copied = Copied::new(alloc);
    mirror_listed(alloc, shelf, target, &mut copied, files, verify)
}

// Copies the files of a list, where nothing was copied yet.
fn mirror_listed<H: Shelf, T: Target>(
    alloc: Global,
    shelf: &mut H,
    target: &mut T,
    copied: &mut Copied,
    files: &[MerkleHash],
    verify: bool,
) -> Result<MirrorReport, MirrorError>
    requires { copied.old ≡ record { xorbs = []; report = no_report } }
    ensures { MirrorCall verify files.now (H.told shelf.old) (H.told shelf.new)
        (T.told target.old) (T.told target.new) result }
{
    for (place, file) in files.iter().enumerate() {
        mirror_file(alloc, shelf, target, copied, place as u64, file, verify)?;
    }
    Ok(copied.report)
}

// Copies the file at a place of the list, where the target lacks it.
fn mirror_file<H: Shelf, T: Target>(
    alloc: Global,
    shelf: &mut H,
    target: &mut T,
    copied: &mut Copied,
    place: u64,
    file: &MerkleHash,
    verify: bool,
) -> Result<(), MirrorError>
    ensures { FileCall verify place file.now (H.told shelf.old) (H.told shelf.new)
        (T.told target.old) (T.told target.new) copied.old copied.new result }
{
    if target.has_file(file)? {
        copied.report = copied.report.with_present();
        return Ok(());
    }
    let Some(found) = asked_file(alloc, shelf, file)? else {
        return Err(MirrorError::FileMissing { place });
    };
    copy_file(alloc, shelf, target, copied, place, found, verify)
}
