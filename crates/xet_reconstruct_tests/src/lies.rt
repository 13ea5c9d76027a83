//! Lies of plans, refreshes, blocks and caches: each with the numbers of its test, and what was written.
use crate::played::come_to;

/// A plan that lies, in the first turn and in the third: that turn writes nothing. Then what plans may say.
const PLANS: &str = "\
lanes p; plan 0;17 13 0 4;: NoXorb { term: 0 } '' 1/0
size 4; lanes ....p; plan 0;17 13 0 4;: NoXorb { term: 0 } 'Hell' 3/2
multi; lanes p; plan 0;17 13 0 4;17:0 2 1 4: Ranges 17 0 '' 1/0
lanes p; plan 0;17 13 0 4;17:0 3: NoRange { term: 0 } '' 1/0
lanes p; plan 0;17 5 0 1 17 0 3 3;17:0 4: NoRange { term: 1 } '' 1/0
lanes p; plan 14;17 13 0 4;17:0 4: Offset { offset: 14, length: 13 } '' 1/0
from 18446744073709551610; lanes p; plan 0;17 13 0 4;17:0 4: Position { term: 0 } '' 1/0
to 4; lanes p; plan 0;17 5 0 1 17 5 0 1;17:0 1: Trim { excess: 6, length: 5 } '' 1/0
to 1; lanes p; plan 7;17 6 0 1 17 2 1 2;17:0 3: Offset { offset: 7, length: 6 } '' 1/0
to 1; multi; lanes p; plan 7;17 6 0 1 17 2 1 2;17:0 3: Offset { offset: 7, length: 6 } '' 1/0
lanes p; plan 10;17 9 1 3 2 9 0 1;17:0 2 2 4: NoXorb { term: 1 } '' 1/0
multi; lanes p; plan 10;17 9 1 3 2 9 0 1;17:0 2 2 4: NoXorb { term: 1 } '' 1/0
lanes p; plan 10;17 9 0 1 17 9 1 3;17:0 2 2 4: NoRange { term: 1 } '' 1/0
multi; lanes p; plan 10;17 9 0 1 17 9 1 3;17:0 2 2 4: NoRange { term: 1 } '' 1/0
lanes p; plan 10;17 9 2 2 17 9 3 2;17:0 2 2 4: NoRange { term: 0 } '' 1/0
multi; lanes p; plan 10;17 9 2 2 17 9 3 2;17:0 2 2 4: NoRange { term: 0 } '' 1/0
lanes p; plan 10;17 9 0 2 17 9 2 4;17:0 2;17:2 4: NoRange { term: 1 } '' 1/0
multi; lanes p; plan 10;17 9 0 2 17 9 2 4;17:0 2;17:2 4: NoRange { term: 1 } '' 1/0
lanes p; plan 10;2 9 0 1;17:2 1: NoXorb { term: 0 } '' 1/0
multi; lanes p; plan 10;2 9 0 1;17:2 1: Ranges 17 0 '' 1/0
multi; lanes p; plan 0;17 10 0 1;17:0 4, 4 2: Ranges 17 1 '' 1/0
multi; lanes p; plan 0;17 10 0 1;17:0 4;2:4 4: Ranges 2 0 '' 1/0
multi; lanes p; plan 0;17 10 0 1;17:0 4 3 6: Ranges 17 0 '' 1/0
multi; lanes p; plan 0;17 10 0 1;17:0 4;17:4 2: Ranges 17 0 '' 1/0
from 18446744073709551610; lanes p; plan 0;17 3 0 1 17 3 1 2;17:0 3: Position { term: 1 } '' 1/0
from 18446744073709551610; multi; lanes p; plan 0;17 3 0 1 17 3 1 2;17:0 3: Position { term: 1 } '' 1/0
from 10; to 20; lanes p; plan 2;17 6 0 1 17 10 1 2 17 3 2 3;17:0 3: Trim { excess: 7, length: 3 } '' 1/0
from 10; to 20; multi; lanes p; plan 2;17 6 0 1 17 10 1 2 17 3 2 3;17:0 3: Trim { excess: 7, length: 3 } '' 1/0
lanes p; plan 0;17 9 0 2 17 9 3 4;17:0 4: TermPastBlock { end: 21, length: 13 } '' 1/1
lanes p; plan no memory: OutOfMemory '' 1/0
lanes p; plan 0;17 10 0 1;17:0 4, 4 2: 10 'Hello, wor' 1/1
lanes p; plan 0;17 10 0 1;17:0 4;2:4 4: 10 'Hello, wor' 1/1
lanes p; plan 0;17 10 0 1;17:0 4 3 6: 10 'Hello, wor' 1/1
lanes p; plan 0;17 10 0 1;17:0 4;17:4 2: 10 'Hello, wor' 1/1
lanes p; plan 0;17 10 0 1;17:0 4 4 6, 0 4: 10 'Hello, wor' 1/1
multi; lanes p; plan 0;17 10 0 1;17:0 2 2 4, 0 4: 10 'Hello, wor' 1/1
from 10; to 24; lanes p; plan 2;17 6 0 1 17 10 1 2 17 3 2 3;17:0 3: BlockLength { expected: 19, actual: 12 } '' 1/1
from 18446744073709551610; lanes p; plan 1;17 3 0 1 17 3 1 2;17:0 3: 5 'el, w' 1/1
lanes p; plan 0;;: 0 '' 1/0
lanes e: 0 '' 1/0
lanes n: FileNotFound '' 1/0";

/// Terms without bytes in the range, one at the start and two at the end, have blocks of their own, which are never
/// asked for.
const EMPTY: &str = "\
to 5; lanes p.f; plan 6;17 6 2 4 17 5 0 1;17:2 4 0 1: 5 'Hello' 1/1
to 5; lanes p.f; plan 0;17 5 0 1 17 0 1 2 17 2 2 3;17:0 1 1 2 2 3: 5 'Hello' 1/1";

/// A refresh that lies, or fails, in the second turn and in the first. The last one is as the plan was.
const REFRESHES: &str = "\
size 4; lanes ...xe: RefreshPastEnd 'Hell' 3/2
lanes .xe: RefreshPastEnd '' 2/1
lanes .xp; plan 0;;: RefreshPastEnd '' 2/1
lanes .xn: FileNotFound '' 2/1
lanes .xf: ClientError '' 2/1
lanes .xp; plan no memory: OutOfMemory '' 2/1
lanes .xp; plan 0;17 13 0 4;: NoXorb { term: 0 } '' 2/1
lanes .xp; plan 14;17 13 0 4;17:0 4: Offset { offset: 14, length: 13 } '' 2/1
lanes .xp; plan 0;17 12 0 4;17:0 4: RefreshRange { returned: FileRange { start: 0, end: 12 } } '' 2/1
lanes .xp; plan 0;17 12 0 3 17 1 3 4;17:0 3 3 4: RefreshBlocks { index: 0 } '' 2/1
file e; lanes .x.p; plan 0;17 5 0 1 17 1 0 1;17:0 1: RefreshBlocks { index: 1 } '' 2/2
file e; lanes .x.p; plan 0;17 4 0 1 17 1 3 4 17 1 1 2;17:0 1 1 2 3 4: RefreshBlocks { index: 2 } '' 2/2
lanes .xp; plan 0;17 13 0 4;17:0 4: 13 'Hello, world!' 2/2";

/// Bytes that fail a test, in the second turn and in the first. What passes its tests is written, whatever the store
/// has.
const BLOCKS: &str = "\
size 4; lanes ...s; block 0 5|Hello,: OffsetCount { expected: 3, actual: 2 } 'Hell' 2/2
lanes .s; block 0 5 7|Hello, world!: OffsetCount { expected: 4, actual: 3 } '' 1/1
lanes .s; block 0 5 5 12|Hello, world!: OffsetOrder { place: 2 } '' 1/1
lanes .s; block 1 5 7 12|Hello, world!: OffsetOrder { place: 0 } '' 1/1
lanes .s; block 0 5 7 13|Hello, world!: OffsetOrder { place: 3 } '' 1/1
lanes .s; block 0 5 7 12|Hello, worl!: OffsetOrder { place: 3 } '' 1/1
lanes .s; block 0 5 7 12|Hello, world!!: BlockLength { expected: 13, actual: 14 } '' 1/1
lanes .s; block 0 5 7 12|Jello, world!: 13 'Jello, world!' 1/1";

/// An entry of the cache that fails a test is a miss, and of one that passes its tests the bytes are written: then the
/// connection isn't asked for the block.
const ENTRIES: &str = "\
cached 0 5 7|Hello, world!: 13 'Hello, world!' 1/1
cached 0 5 7 12|Hello, worl!: 13 'Hello, world!' 1/1
cached 0 5 7 11|Hello, worl!: 13 'Hello, world!' 1/1
file b; cached 0 5 7 11|Hello, worl!: 23 'world!HelloHello, world' 1/1
lanes .f; cached 0 5 7 12|Hello, world!: 13 'Hello, world!' 1/0
lanes .f; cached 0 5 7 12|Jello, world!: 13 'Jello, world!' 1/0";

#[test]
fn lies_are_told_with_their_numbers(rt: HostRuntime) {
    for lines in [PLANS, EMPTY, REFRESHES, BLOCKS, ENTRIES] {
        come_to(&rt, rt.alloc(), lines);
    }
}
