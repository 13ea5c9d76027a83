//! A run that asks for new URLs, under whatever allocation is refused: `cases/faults/refreshes` refuses each in turn.
use crate::played::played;
use crate::row::Row;
use crate::told::cut;

/// Two plans, and a block of each whose URL expires once.
const RUN: &str = "size 4; tries 2; lanes .x...x";

/// What it comes to.
const WHOLE: &str = "13 'Hello, world!' 6/6";

/// Whether this is what the run comes to, or want of memory after some first bytes; either may be cut, since the text
/// takes memory too.
fn is_beginning(told: &str) -> bool {
    let (error, rest) = cut(told, " '");
    let (bytes, _) = cut(rest, "'");
    WHOLE.starts_with(told)
        || "OutOfMemory".starts_with(error) && "Hello, world!".starts_with(bytes)
}

#[test]
fn refused_memory_leaves_first_bytes(rt: HostRuntime) {
    let told = played(&rt, rt.alloc(), Row { text: RUN }, None);
    assert!(rt; is_beginning(told.as_str()), "{told}");
}
