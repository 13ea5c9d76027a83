//! The registered files.
ghost use Rattle.std.specs.Prelude.{◌≡◌, ◌+◌, ◌^◌, ◌<◌, ◌≤◌, length, slice_set, IfNone, IfSome};
ghost use Rattle.xet_progress_state.specs.steps.Files.{file_in, with_growth};

/// What is counted of a registered file, in bytes.
#[derive(Clone, Copy, Drop)]
pub struct TrackedFile {
    /// Whether its size is fixed.
    pub fixed: bool,
    /// Its total.
    pub total: u64,
    // those of all its dependencies
    pub(crate) registered: u64,
    /// Its completed bytes.
    pub completed: u64,
}

/// The file of an id.
pub(crate) fn file_of(files: &[TrackedFile], id: u64) -> Option<TrackedFile>
    ensures none { IfNone result (length files.now ≤ id) }
    ensures some { IfSome result (λ f. (id < length files.now) × (f ≡ file_in files.now id)) }
{
    if id >= files.len() as u64 {
        return None;
    }
    Some(files[id as usize])
}

/// Adds to the total of a file.
pub(crate) fn grow(files: &mut Vec<TrackedFile>, id: u64, bytes: u64)
    requires known { id < length files.old.items }
    requires room { (file_in files.old.items id).total + bytes < 2 ^ 64 }
    ensures { files.new.items ≡ slice_set files.old.items id (with_growth bytes (file_in files.old.items id)) }
{
    files[id as usize].total += bytes;
}
