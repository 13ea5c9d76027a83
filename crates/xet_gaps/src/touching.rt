//! Finds the gaps that a range touches.
ghost use Rattle.std.specs.Prelude.{◌≡◌, ◌≤◌, false, length, nat_le, nat_lt, true};
ghost use Rattle.std.specs.List.Sorted.{IsPartitionPoint};
ghost use Rattle.xet_gaps.specs.steps.Touching.{AreSome, Touched};

use xet_base::FileRange;

/// How many of the gaps end at a place or before it.
fn count_ended(gaps: &[FileRange], place: u64) -> usize
    requires { AreSome gaps.now }
    ensures point { IsPartitionPoint (λ g. nat_le g.end place ≡ true) (λ g. nat_le g.end place ≡ false) gaps.now
        result }
    ensures within { result ≤ length gaps.now }
{
    gaps.partition_point(|gap| gap.end <= place)
}

/// How many of the gaps start before a place.
fn count_started(gaps: &[FileRange], place: u64) -> usize
    requires { AreSome gaps.now }
    ensures point { IsPartitionPoint (λ g. nat_lt g.start place ≡ true) (λ g. nat_lt g.start place ≡ false) gaps.now
        result }
    ensures within { result ≤ length gaps.now }
{
    gaps.partition_point(|gap| gap.start < place)
}

/// The number of the first gap that has bytes of a range, and the number behind the last one. A range without bytes
/// touches none.
pub(crate) fn find_touched(gaps: &[FileRange], range: FileRange) -> (usize, usize)
    requires { AreSome gaps.now }
    ensures { Touched gaps.now range result.0 result.1 }
{
    if range.end <= range.start {
        return (0, 0);
    }
    let from = count_ended(gaps, range.start);
    let to = count_started(gaps, range.end);
    (from, to)
}
