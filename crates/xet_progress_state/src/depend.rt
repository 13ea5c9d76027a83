//! Dependencies of files on xorbs.
ghost use Rattle.std.specs.Prelude.{◌≡◌, ◌+◌, ◌^◌, ◌<◌, ◌≤◌, ℕ, [], All, Some, None, true, false, map, take, length};
ghost use Rattle.std.specs.Prelude.{slice_index_or, IfNone, MatchOption};
ghost use Rattle.std.specs.List.{sum_by};
ghost use Rattle.xet_base.specs.Lists.{first_some};
ghost use Rattle.xet_progress_state.specs.declared.file.TrackedFile.{TrackedFile};
ghost use Rattle.xet_progress_state.specs.declared.step.FileXorbDependency.{FileXorbDependency};
ghost use Rattle.xet_progress_state.specs.Accepted.{past_total};
ghost use Rattle.xet_progress_state.specs.Counts.{of_file};
ghost use Rattle.xet_progress_state.specs.steps.Depends.{CanDepend, CountedIn, Depended, has_room, pasts_in};
ghost use Rattle.xet_progress_state.specs.steps.Depends.{unknown_in};
ghost use Rattle.xet_progress_state.specs.steps.Depends.{with_dependency};

use crate::file::TrackedFile;
use crate::step::FileXorbDependency;
use crate::xorb::Xorbs;
use xet_base::Invalid;

/// The first dependency of a file that isn't there.
pub(crate) fn unknown_file(count: usize, dependencies: &[FileXorbDependency]) -> Option<Invalid>
    ensures { result ≡ first_some (map (unknown_in count) dependencies.now) }
{
    for dependency in dependencies {
        if dependency.file_id >= count as u64 {
            return Some(Invalid::UnknownFile {
                id: dependency.file_id,
            });
        }
    }
    None
}

/// A dependency that passes its file's total, and its place in the list.
#[derive(Clone, Copy, Drop)]
struct Past {
    at: usize,
    why: Invalid,
}

/// Why bytes of a file don't count as registered, where they pass its total.
fn refusal(file: TrackedFile, bytes: u64) -> Option<Invalid>
    requires { file.registered ≤ file.total }
    ensures refused { result ≡ past_total file.total file.registered bytes }
    ensures fits { IfNone result (file.registered + bytes < 2 ^ 64) }
{
    if bytes <= file.total - file.registered {
        return None;
    }
    Some(Invalid::PastTotal {
        total: file.total,
        counted: file.registered,
        increment: bytes,
    })
}

/// Counts dependencies as registered, up to the first that passes its file's total.
fn count_in(files: &mut Vec<TrackedFile>, dependencies: &[FileXorbDependency]) -> Option<Past>
    requires known { All (λ d. d.file_id < length files.old.items) dependencies.now }
    requires within { All (λ f. f.registered ≤ f.total) files.old.items }
    ensures { MatchOption result
        (CountedIn files.old.items files.new.items dependencies.now
        × (pasts_in files.old.items [] dependencies.now ≡ None))
        (λ p. (p.at ≤ length dependencies.now)
        × CountedIn files.old.items files.new.items (take p.at dependencies.now)
        × (pasts_in files.old.items [] dependencies.now ≡ Some p.why)) }
{
    for (at, dependency) in dependencies.iter().enumerate() {
        if let Some(why) = refusal(files[dependency.file_id as usize], dependency.n_bytes) {
            return Some(Past { at, why });
        }
        files[dependency.file_id as usize].registered += dependency.n_bytes;
    }
    None
}

/// Takes back what was counted of dependencies.
fn take_back(files: &mut Vec<TrackedFile>, dependencies: &[FileXorbDependency])
    requires known { All (λ d. d.file_id < length files.old.items) dependencies.now }
    requires counted { (f : ℕ) (e : TrackedFile) → f < length files.old.items
        → sum_by (of_file f) dependencies.now ≤ (slice_index_or files.old.items f e).registered }
    ensures { CountedIn files.new.items files.old.items dependencies.now }
{
    for dependency in dependencies {
        files[dependency.file_id as usize].registered -= dependency.n_bytes;
    }
}

/// The first dependency that passes its file's total, with those before it in the list counted. The files stay.
pub(crate) fn past_total(
    files: &mut Vec<TrackedFile>,
    dependencies: &[FileXorbDependency],
) -> Option<Invalid>
    requires known { All (λ d. d.file_id < length files.old.items) dependencies.now }
    requires within { All (λ f. f.registered ≤ f.total) files.old.items }
    ensures first { result ≡ pasts_in files.old.items [] dependencies.now }
    ensures same { files.new.items ≡ files.old.items }
{
    let Some(past) = count_in(files, dependencies) else {
        take_back(files, dependencies);
        return None;
    };
    take_back(files, &dependencies[..past.at]);
    Some(past.why)
}

/// Counts a dependency, for which there is room.
pub(crate) fn depend(
    files: &mut Vec<TrackedFile>,
    xorbs: &mut Xorbs,
    completed: &mut u64,
    dependency: &FileXorbDependency,
)
    requires { CanDepend files.old.items xorbs.old completed.old dependency.now }
    ensures step { Depended files.old.items files.new.items xorbs.old xorbs.new completed.old completed.new
        dependency.now }
    ensures count { length files.new.items ≡ length files.old.items }
    ensures kept { (d : FileXorbDependency) → has_room xorbs.old d ≡ true → has_room xorbs.new d ≡ true }
{
    let counts = dependency.is_external || xorbs.wait(dependency);
    add_dependency(
        &mut files[dependency.file_id as usize],
        dependency.n_bytes,
        counts,
    );
    if counts {
        *completed += dependency.n_bytes;
    }
}

/// Registers bytes of a file, and counts them or not.
fn add_dependency(file: &mut TrackedFile, bytes: u64, counts: bool)
    requires registered { file.old.registered + bytes < 2 ^ 64 }
    requires counted { file.old.completed + bytes < 2 ^ 64 }
    ensures { file.new ≡ with_dependency counts bytes file.old }
{
    file.registered += bytes;
    if counts {
        file.completed += bytes;
    }
}
