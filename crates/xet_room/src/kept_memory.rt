//! Memory that the C library keeps for later when it is given back.
use std::alloc::Global;

// A size just under 32 MiB, the greatest that the C library takes as its measure.
const LARGEST: usize = 33_546_240;

/// Takes one large block and gives it back, and nothing is written to it.
///
/// With glibc blocks of up to about that size are from then on taken from its heap, and mostly stay there when they are
/// given back, where blocks above 128 KiB would each be a mapping of their own: so a list of a plan stands in pages
/// that the text of the input, or an earlier list, has touched. Where the block is refused all goes on without it.
pub fn keep_freed_memory(alloc: Global) {
    let block: Result<Vec<u8>, _> = Vec::with_capacity(alloc, LARGEST);
    drop(block);
}
