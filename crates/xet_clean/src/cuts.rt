//! Where the chunks of pending bytes end.
ghost use Rattle.std.specs.Prelude.{◌≡◌, [], IfOk, IfSome, None, OnOk};
ghost use Rattle.xet_clean.specs.steps.Cuts.{AreCuts, IsCut, IsUncut};

use std::alloc::Global;
use std::collections::VecDeque;
use xet_base::{ChunkInfo, OutOfMemory};
use xet_clean_parts::chunk_info;
use xet_upload::{Cutter, next_cut};

// Adds the hash and the length of the chunk at the front of the bytes, and answers the bytes behind it. None where the
// cutter waits for more, or none are left.
fn find_cut<'a, T: Cutter>(
    cutter: &mut T,
    pending: &'a [u8],
    last: bool,
    cuts: &mut Vec<ChunkInfo>,
) -> Result<Option<&'a [u8]>, OutOfMemory>
    ensures kept { T.told cutter.new ≡ T.told cutter.old }
    ensures some { IfOk result (λ o. IfSome o (λ rest. IsCut (T.told cutter.old) last pending.now cuts.old.items
        rest.now cuts.new.items)) }
    ensures none { IfOk result (λ o. o ≡ None → IsUncut (T.told cutter.old) last pending.now cuts.old.items
        cuts.new.items) }
{
    if pending.is_empty() {
        return Ok(None);
    }
    let Some(count) = next_cut(cutter, pending, last) else {
        return Ok(None);
    };
    let (chunk, rest) = pending.split_at(count);
    cuts.push(chunk_info(chunk))?;
    Ok(Some(rest))
}

// Adds the hash and the length of each chunk that the cutter cuts off the front of the bytes.
fn add_cuts<T: Cutter>(
    cutter: &mut T,
    pending: &[u8],
    last: bool,
    cuts: &mut Vec<ChunkInfo>,
) -> Result<(), OutOfMemory>
    requires none { cuts.old.items ≡ [] }
    ensures kept { T.told cutter.new ≡ T.told cutter.old }
    ensures cuts { OnOk result (AreCuts (T.told cutter.old) last pending.now cuts.new.items) }
{
    let mut rest = pending;
    'chunks: loop {
        match find_cut(cutter, rest, last, cuts) {
            Ok(Some(more)) => rest = more,
            Ok(None) => return Ok(()),
            Err(error) => return Err(error),
        }
    }
}

// The hash and the length of each chunk that the cutter cuts off the front of the bytes, in order. The cutter is asked
// once a chunk, and once more where bytes are left.
pub(crate) fn find_cuts<T: Cutter>(
    alloc: Global,
    cutter: &mut T,
    pending: &[u8],
    last: bool,
) -> Result<VecDeque<ChunkInfo>, OutOfMemory>
    ensures kept { T.told cutter.new ≡ T.told cutter.old }
    ensures cuts { IfOk result (λ cuts. AreCuts (T.told cutter.old) last pending.now cuts.items) }
{
    let mut cuts = Vec::new(alloc);
    add_cuts(cutter, pending, last, &mut cuts)?;
    Ok(VecDeque::from_vec(cuts))
}
