//! The caller that CALLING.md of `xet_mirror` shows.
use std::alloc::Global;
use xet_base::MerkleHash;
use xet_mirror::{MirrorError, MirrorReport, mirror_files};
use xet_shelves::{Shelf, Target};

/// Mirrors a list of files, and again over what is there while a call of the shelf or of the target fails, 100 times at
/// most.
pub(crate) fn mirror_until_done<H: Shelf, T: Target>(
    alloc: Global,
    shelf: &mut H,
    target: &mut T,
    files: &[MerkleHash],
) -> Result<MirrorReport, MirrorError> {
    for _ in 0..100 {
        match mirror_files(alloc, shelf, target, files, false) {
            Err(MirrorError::ClientError) => {}
            answer => return answer,
        }
    }
    Err(MirrorError::ClientError)
}
