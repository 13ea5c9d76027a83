//! Crediting the parts of files that wait for a xorb.
ghost use Rattle.std.specs.Prelude.{◌≡◌, ◌+◌, ◌^◌, ◌<◌, ◌≤◌, map, length, slice_set};
ghost use Rattle.xet_progress_state.specs.Counts.{share};
ghost use Rattle.xet_progress_state.specs.steps.Files.{file_in};
ghost use Rattle.xet_progress_state.specs.steps.Credits.{CanCredit, Credited, completed_in, gain, with_more};
ghost use Rattle.xet_progress_state.specs.steps.Credits.{with_share};

use crate::file::TrackedFile;
use crate::part::Part;

/// What `sent` of `size` bytes are of `n`, rounded down, and 0 for size 0.
fn share_of(n: u64, sent: u64, size: u64) -> u64
    requires { sent ≤ size }
    ensures { result ≡ share n sent size }
{
    if size == 0 {
        return 0;
    }
    (n as u128 * sent as u128 / size as u128) as u64
}

/// Credits a part with its share of the bytes sent.
fn credit_part(
    files: &mut Vec<TrackedFile>,
    part: &mut Part,
    completed: &mut u64,
    sent: u64,
    size: u64,
)
    requires partly { sent ≤ size }
    requires known { part.old.file < length files.old.items }
    requires rises { part.old.credited ≤ share part.old.waiting sent size }
    requires room { completed.old + gain sent size part.old < 2 ^ 64 }
    requires file_room { (file_in files.old.items part.old.file).completed + gain sent size part.old < 2 ^ 64 }
    ensures part { part.new ≡ with_share sent size part.old }
    ensures completed { completed.new ≡ completed.old + gain sent size part.old }
    ensures files { files.new.items ≡ slice_set files.old.items part.old.file
        (with_more (gain sent size part.old) (file_in files.old.items part.old.file)) }
{
    let credited = share_of(part.waiting, sent, size);
    let gained = credited - part.credited;
    part.credited = credited;
    files[part.file as usize].completed += gained;
    *completed += gained;
}

/// Credits each part with its share of the bytes sent.
pub(crate) fn credit(
    files: &mut Vec<TrackedFile>,
    parts: &mut [Part],
    completed: &mut u64,
    sent: u64,
    size: u64,
)
    requires can { CanCredit files.old.items parts.old sent size }
    requires sum { completed.old ≡ completed_in files.old.items }
    ensures parts { parts.new ≡ map (with_share sent size) parts.old }
    ensures files { Credited files.old.items files.new.items parts.old sent size }
    ensures count { length files.new.items ≡ length files.old.items }
    ensures sum { completed.new ≡ completed_in files.new.items }
{
    for part in parts.iter_mut() {
        credit_part(files, part, completed, sent, size);
    }
}
