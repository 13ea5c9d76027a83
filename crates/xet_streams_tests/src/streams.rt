//! What pulls answer, and what happened then.
use crate::pulled::come_to;

/// Three terms, of which the first has a block of its own, step by step and waiting; by queries of four bytes; a file
/// of no bytes, and ranges of none. A stream that is cancelled, or whose flag is raised, answers none.
const WORKED: &str = "\
file b; from 4; to 13; history: 'd!' 'Hello' 'He' - - | P1:4..13 A67108864 F0:1.0 W2 A67108864 F0:1.1 W5 A67108864 W2
file b; from 4; to 13; waits; history: 'd!' 'Hello' 'He' - - | P1:4..13 A67108864 F0:1.0 W2 A67108864 F0:1.1 W5 \
A67108864 W2
file b; from 4; to 13; size 4: 'd!' 'He' 'llo' 'He' - -
file c; history: - - | P1:0..1048576
from 3; to 3; history: - - |
from 9; to 3; history: - - |
file b; from 4; to 13; cancel 1: 'd!' - -
file b; from 4; to 13; raise 1: 'd!' - -
file b; from 4; to 13; raise 0; history: - - |";

/// Each error with its numbers, and none after it: settings at the first pull; an empty slice later, which is no error
/// at the end; faults of each call; a file that isn't there; plans, refreshes and blocks that lie.
const FAILING: &str = "\
lent 0: ConfigurationError(NoConnection) -
tries 0: ConfigurationError(NoTries) -
least 0: ConfigurationError(LeastZero) -
least 5; greatest 4: ConfigurationError(GreatestBelowLeast) -
tries 0; cancel 0: - -
size 4; lent 1 0: 'Hell' ConfigurationError(NoConnection) -
lent 1 0: 'Hello, world!' - -
lanes f: ClientError -
lanes .f: ClientError -
size 4; lanes ..f: 'Hell' ClientError -
lanes m: OutOfMemory -
lanes n: FileNotFound -
file f: FileNotFound -
lanes e: - -
lanes p; plan 0;17 13 0 4;: NoXorb { term: 0 } -
size 4; lanes ..p; plan 0;17 13 0 4;: 'Hell' NoXorb { term: 0 } -
lanes .s; block 0 5 5 12|Hello, world!: OffsetOrder { place: 2 } -
lanes .s; block 0 5 7 12|Hello, world!!: BlockLength { expected: 13, actual: 14 } -
lanes p; plan 0;17 9 0 2 17 9 3 4;17:0 4: 'Hello, wo' TermPastBlock { end: 21, length: 13 } -
lanes .xe: RefreshPastEnd -
lanes .xp; plan 0;17 12 0 3 17 1 3 4;17:0 3 3 4: RefreshBlocks { index: 0 } -";

/// An expired answer ends a step, and its block is fetched at the next one: of two tries the last is told.
const EXPIRED: &str = "\
tries 2; lanes .x; history: . 'Hello, world!' - - | P1:0..1048576 A67108864 X0:1.0 R1 F0:1.0 W13
tries 2; lanes .x; waits: 'Hello, world!' - -
tries 2; lanes .x.x; history: . UrlExpired - | P1:0..1048576 A67108864 X0:1.0 R1 X0:1.0 UrlExpired
tries 1; lanes .x: UrlExpired -";

/// Three connections, then two, then one: the fetches go round, those that are made again too, and plans to the first.
const ROUND: &str = "\
size 4; lanes .,.,.; lent 3 3 2 1; history: 'Hell' 'o, w' 'orld' '!' - - | P1:0..4 A67108864 F0:1.0 W4 P2:4..8 \
A67108864 F1:2.0 W4 P3:8..12 A67108864 F0:3.0 W4 P4:12..16 A67108864 F0:4.0 W1
tries 2; lanes .x,.,.; history: . 'Hello, world!' - - | P1:0..1048576 A67108864 X0:1.0 R1 F1:1.0 W13";

/// A cache that holds the block, lies, or fails.
const CACHED: &str = "\
lanes .f; cached 0 5 7 12|Hello, world!; history: 'Hello, world!' - - | P1:0..1048576 A67108864 C1.0 W13
cached 0 5 7 12|Hello, worl!: 'Hello, world!' - -
lanes .f; cached 0 5 7 12|Jello, world!: 'Jello, world!' - -
down; history: 'Hello, world!' - - | P1:0..1048576 A67108864 F0:1.0 W13";

/// The limit of the settings, or of a book, stands in each admission; none refuses a term.
const LIMITS: &str = "\
file e; budget 0; history: 'Hello' '!' - - | P1:0..1048576 A0 F0:1.0 W5 A0 F0:1.1 W1
file e; book 7; history: 'Hello' '!' - - | P1:0..1048576 A7 F0:1.0 W5 A7 F0:1.1 W1";

/// Pieces at their places: in order where each block is missing; none after a cancel or a raised flag; the second block
/// from the second connection; a block that the first and the last term share gives both at once; one that had expired
/// is asked for after the others; and as the limit allows.
const PLACED: &str = "\
unordered; file b; from 4; to 13; history: 0 'd!' 2 'Hello' 7 'He' - - | 0 2 7 has 0/0 waits 0/0 complete
unordered; file b; from 4; to 13; waits: 0 'd!' 2 'Hello' 7 'He' - -
unordered; file b; from 4; to 13; cancel 1; history: 0 'd!' - - | 0 has 0/0 waits 0/0 complete
unordered; file b; from 4; to 13; raise 1: 0 'd!' - -
unordered; tries 2; lanes .x; pulls 1; history: . | has 0/0 waits 1/13 open
unordered; lanes .f; history: ClientError - | has 0/0 waits 0/0 complete
unordered; size 4; lanes .,f: 0 'Hell' ClientError -
unordered; size 4; lent 1 0: 0 'Hell' ConfigurationError(NoConnection) -
unordered; lanes p; plan 0;17 5 0 1 17 1 3 4 17 5 0 1;17:0 1,3 4; history: 0 'Hello' 6 'Hello' 5 '!' - - | 0 6 5 \
has 0/0 waits 0/0 complete
unordered; tries 2; lanes pxp; plan 0;17 5 0 1 17 1 3 4 17 5 0 1;17:0 1,3 4: . 5 '!' 0 'Hello' 6 'Hello' - -
unordered; tries 2; waits; lanes pxp; plan 0;17 5 0 1 17 1 3 4 17 5 0 1;17:0 1,3 4: 5 '!' 0 'Hello' 6 'Hello' - -
unordered; budget 5; lanes p; plan 0;17 5 0 1 17 1 3 4 17 5 0 1;17:0 1,3 4: 0 'Hello' 5 '!' 6 'Hello' - -";

#[test]
fn pulls_of_rows(rt: HostRuntime) {
    for lines in [WORKED, FAILING, EXPIRED, ROUND, CACHED, LIMITS, PLACED] {
        come_to(&rt, rt.alloc(), lines);
    }
}
