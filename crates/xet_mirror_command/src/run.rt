//! The files are copied, to a target that keeps hashes alone.
ghost use Rattle.xet_shelves.specs.After.{Agree};
ghost use Rattle.xet_mirror_command.specs.steps.Ends.{Ends};

use crate::input::Stores;
use std::alloc::Global;
use std::mem::forget;
use xet_base::MerkleHash;
use xet_mirror::{MirrorError, MirrorReport, mirror_files};
use xet_shelves::{HashTarget, MemShelf};

/// Copies the files of a list from the source to the target, where it lacks them. The stores agree.
pub(crate) fn run(
    alloc: Global,
    verify: bool,
    stores: Stores,
    files: &[MerkleHash],
) -> Result<MirrorReport, MirrorError>
    requires { Agree stores.source stores.target }
    ensures { Ends verify stores.source stores.target files.now result }
{
    stores.source.recall_valid();
    stores.target.recall_valid();
    let mut shelf = MemShelf::new(stores.source);
    let mut target = HashTarget::new(alloc, stores.target);
    let answer = mirror_files(alloc, &mut shelf, &mut target, files, verify);
    // The process ends after a command and gives its memory back as a whole, which takes less time.
    forget(shelf);
    forget(target);
    answer
}
