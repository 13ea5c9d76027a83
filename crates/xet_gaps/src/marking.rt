//! Takes the bytes of a range from gaps.
ghost use Rattle.std.specs.Prelude.{◌≡◌, ◌+◌, ◌<◌, ◌≤◌, ◌++◌, ◌∷◌, drop, length, option_to_list, slice_range};
ghost use Rattle.std.specs.Prelude.{vec_capacity, vec_len};
ghost use Rattle.xet_gaps.specs.Gaps.{less, some_range};
ghost use Rattle.xet_gaps.specs.steps.Touching.{AreSome};

use crate::touching::find_touched;
use xet_base::FileRange;

/// A range, where it has bytes.
fn some_range(start: u64, end: u64) -> Option<FileRange>
    ensures { option_to_list result ≡ some_range start end }
{
    if start < end {
        return Some(FileRange { start, end });
    }
    None
}

/// Closes the hole from number `low` to before number `high`. Answers where the gaps begin then, of which those before
/// number `first` are filled: behind the hole where nothing stands before it, and then nothing is moved.
fn close(gaps: &mut Vec<FileRange>, first: usize, low: usize, high: usize) -> usize
    requires order { (first ≤ low) × (low ≤ high) }
    requires end { high ≤ length gaps.old.items }
    ensures left { drop result gaps.new.items ≡ slice_range gaps.old.items first low ++ drop high gaps.old.items }
    ensures within { result ≤ length gaps.new.items }
{
    if low == first {
        return high;
    }
    if low == high {
        return first;
    }
    let end = gaps.len();
    gaps.copy_within(high..end, low);
    gaps.truncate(end - (high - low));
    first
}

/// Puts what is left behind a range just before the gap of number `to`, and closes the hole before it. Where there is
/// none, one gap was cut in two, and those behind move on.
fn put_last(
    gaps: &mut Vec<FileRange>,
    first: usize,
    low: usize,
    to: usize,
    after: FileRange,
) -> usize
    requires order { (first ≤ low) × (low ≤ to) }
    requires end { to ≤ length gaps.old.items }
    requires room { vec_len gaps.old < vec_capacity gaps.old }
    ensures left { drop result gaps.new.items
        ≡ slice_range gaps.old.items first low ++ after ∷ drop to gaps.old.items }
    ensures within { result ≤ length gaps.new.items }
{
    if low == to {
        let Ok(()) = gaps.insert(low, after) else {
            unreachable!()
        };
        return first;
    }
    gaps[to - 1] = after;
    close(gaps, first, low, to - 1)
}

/// Puts what is left behind a range, where anything is, just before the gap of number `to`, and closes the hole before
/// it.
fn put_after(
    gaps: &mut Vec<FileRange>,
    first: usize,
    low: usize,
    to: usize,
    after: Option<FileRange>,
) -> usize
    requires order { (first ≤ low) × (low ≤ to) }
    requires end { to ≤ length gaps.old.items }
    requires room { vec_len gaps.old < vec_capacity gaps.old }
    ensures left { drop result gaps.new.items
        ≡ slice_range gaps.old.items first low ++ (option_to_list after ++ drop to gaps.old.items) }
    ensures within { result ≤ length gaps.new.items }
{
    match after {
        None => close(gaps, first, low, to),
        Some(after) => put_last(gaps, first, low, to, after),
    }
}

/// Puts what is left before a range and behind it in the place of the gaps from number `from` to before number `to`.
fn replace(
    gaps: &mut Vec<FileRange>,
    first: usize,
    from: usize,
    to: usize,
    before: Option<FileRange>,
    after: Option<FileRange>,
) -> usize
    requires order { (first ≤ from) × (from < to) }
    requires end { to ≤ length gaps.old.items }
    requires room { vec_len gaps.old < vec_capacity gaps.old }
    ensures left { drop result gaps.new.items
        ≡ slice_range gaps.old.items first from
        ++ (option_to_list before ++ (option_to_list after ++ drop to gaps.old.items)) }
    ensures within { result ≤ length gaps.new.items }
{
    match before {
        None => put_after(gaps, first, from, to, after),
        Some(before) => {
            gaps[from] = before;
            put_after(gaps, first, from + 1, to, after)
        }
    }
}

/// Takes the bytes of a range from gaps, of which those before number `first` are filled. Answers where they begin
/// then.
pub(crate) fn take_range(gaps: &mut Vec<FileRange>, first: usize, range: FileRange) -> usize
    requires first { first ≤ length gaps.old.items }
    requires are { AreSome (drop first gaps.old.items) }
    requires room { vec_len gaps.old < vec_capacity gaps.old }
    ensures left { drop result gaps.new.items ≡ less (drop first gaps.old.items) range }
    ensures within { result ≤ length gaps.new.items }
{
    let (from, to) = find_touched(&gaps[first..], range);
    if to <= from {
        return first;
    }
    let start = gaps[first + from].start;
    let end = gaps[first + to - 1].end;
    let before = some_range(start, range.start);
    let after = some_range(range.end, end);
    replace(gaps, first, first + from, first + to, before, after)
}
