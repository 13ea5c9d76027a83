//! Faults at each call in turn.
use crate::played::come_to;

/// A connection fails at its call k, for each k, and at none: nothing is asked and written after it.
///
/// A run by queries of four bytes of the file of repeats has 6 plans, each in a turn of its own, with the chunks 2..3
/// of its xorb, 0..1 and 2..4, 0..1, 0..1, 1..3 and 2..3 as blocks. A cache that takes what it is offered gives three
/// of these, so four are fetched, in three of the turns. The calls are a plan and its block, a plan and its two blocks,
/// three plans, a block, a plan. A turn writes what the turns before it fetched, beside its own fetch, and what the
/// cache gave. Last each of three connections fails at its fetch of the second turn, whichever draws one, and one that
/// answers at once fails there: its turn writes before it fetches.
const CONNECTION: &str = "\
file b; size 4; lanes f: ClientError '' 1/0
file b; size 4; lanes .f: ClientError '' 1/1
file b; size 4; lanes ..f: ClientError '' 2/1
file b; size 4; lanes ...f: ClientError 'worl' 2/2
file b; size 4; lanes ....f: ClientError 'worl' 2/3
file b; size 4; lanes .....f: ClientError 'worl' 3/3
file b; size 4; lanes ......f: ClientError 'world!HelloH' 4/3
file b; size 4; lanes .......f: ClientError 'world!HelloHello' 5/3
file b; size 4; lanes ........f: ClientError 'world!HelloHello' 5/4
file b; size 4; lanes .........f: ClientError 'world!HelloHello' 6/4
file b; size 4; lanes ..........f: 23 'world!HelloHello, world' 6/4
file b; size 4; lanes ...f,f,f; tell plans: ClientError 'worl' 2
file b; size 4; ready; lanes ...f: ClientError 'worl' 2/2";

/// A signal says yes at its ask k, for each k, and at none: before each plan, and before each round of fetches.
/// After a yes no block is asked for.
const SIGNAL: &str = "\
file b; size 4; yes 0: Cancelled '' 0/0
file b; size 4; yes 1: Cancelled '' 1/0
file b; size 4; yes 2: Cancelled '' 1/1
file b; size 4; yes 3: Cancelled '' 2/1
file b; size 4; yes 4: Cancelled 'worl' 2/3
file b; size 4; yes 5: Cancelled 'world!HelloH' 3/3
file b; size 4; yes 6: Cancelled 'world!HelloHello' 4/3
file b; size 4; yes 7: Cancelled 'world!HelloHello' 5/3
file b; size 4; yes 8: Cancelled 'world!HelloHello' 5/4
file b; size 4; yes 9: 23 'world!HelloHello, world' 6/4";

/// A writer fails at its write k, for each k, and at none, in both loops: no plan is asked for after it. A plan's four
/// bytes are written in the turn of the next one, a byte at each write. Last a connection answers at once.
const WRITER: &str = "\
size 4; takes f; tell plans: IoError '' 2
size 4; takes 1f; tell plans: IoError 'H' 2
size 4; takes 11f; tell plans: IoError 'He' 2
size 4; takes 111f; tell plans: IoError 'Hel' 2
size 4; takes 1111f; tell plans: IoError 'Hell' 3
size 4; takes 11111f; tell plans: IoError 'Hello' 3
size 4; takes 111111f; tell plans: IoError 'Hello,' 3
size 4; takes 1111111f; tell plans: IoError 'Hello, ' 3
size 4; takes 11111111f; tell plans: IoError 'Hello, w' 4
size 4; takes 111111111f; tell plans: IoError 'Hello, wo' 4
size 4; takes 1111111111f; tell plans: IoError 'Hello, wor' 4
size 4; takes 11111111111f; tell plans: IoError 'Hello, worl' 4
size 4; takes 111111111111f; tell plans: IoError 'Hello, world' 4
size 4; takes 1111111111111f; tell plans: 13 'Hello, world!' 4
size 4; vectored; takes f; tell plans: IoError '' 2
size 4; vectored; takes 1f; tell plans: IoError 'H' 2
size 4; vectored; takes 11f; tell plans: IoError 'He' 2
size 4; vectored; takes 111f; tell plans: IoError 'Hel' 2
size 4; vectored; takes 1111f; tell plans: IoError 'Hell' 3
size 4; vectored; takes 11111f; tell plans: IoError 'Hello' 3
size 4; vectored; takes 111111f; tell plans: IoError 'Hello,' 3
size 4; vectored; takes 1111111f; tell plans: IoError 'Hello, ' 3
size 4; vectored; takes 11111111f; tell plans: IoError 'Hello, w' 4
size 4; vectored; takes 111111111f; tell plans: IoError 'Hello, wo' 4
size 4; vectored; takes 1111111111f; tell plans: IoError 'Hello, wor' 4
size 4; vectored; takes 11111111111f; tell plans: IoError 'Hello, worl' 4
size 4; vectored; takes 111111111111f; tell plans: IoError 'Hello, world' 4
size 4; vectored; takes 1111111111111f; tell plans: 13 'Hello, world!' 4
size 4; ready; takes f; tell plans: IoError '' 2";

/// A cache that keeps nothing has a look and an offer for each of seven blocks. One of these fails, or all do: that
/// changes nothing, and none is made again. A block of two ranges is neither looked for nor offered; two blocks of one
/// range each are both.
const CACHE: &str = "\
file b; size 4; ready; forgets; down 0; up 1; tell calls: 23 'world!HelloHello, world' 6 14
file b; size 4; ready; forgets; down 1; up 2; tell calls: 23 'world!HelloHello, world' 6 14
file b; size 4; ready; forgets; down 2; up 3; tell calls: 23 'world!HelloHello, world' 6 14
file b; size 4; ready; forgets; down 3; up 4; tell calls: 23 'world!HelloHello, world' 6 14
file b; size 4; ready; forgets; down 4; up 5; tell calls: 23 'world!HelloHello, world' 6 14
file b; size 4; ready; forgets; down 5; up 6; tell calls: 23 'world!HelloHello, world' 6 14
file b; size 4; ready; forgets; down 6; up 7; tell calls: 23 'world!HelloHello, world' 6 14
file b; size 4; ready; forgets; down 7; up 8; tell calls: 23 'world!HelloHello, world' 6 14
file b; size 4; ready; forgets; down 8; up 9; tell calls: 23 'world!HelloHello, world' 6 14
file b; size 4; ready; forgets; down 9; up 10; tell calls: 23 'world!HelloHello, world' 6 14
file b; size 4; ready; forgets; down 10; up 11; tell calls: 23 'world!HelloHello, world' 6 14
file b; size 4; ready; forgets; down 11; up 12; tell calls: 23 'world!HelloHello, world' 6 14
file b; size 4; ready; forgets; down 12; up 13; tell calls: 23 'world!HelloHello, world' 6 14
file b; size 4; ready; forgets; down 13; up 14; tell calls: 23 'world!HelloHello, world' 6 14
file b; size 4; ready; forgets; down 0; up 14; tell calls: 23 'world!HelloHello, world' 6 14
file e; ready; forgets; tell calls: 6 'Hello!' 1 4
file e; multi; ready; forgets; tell calls: 6 'Hello!' 1 0";

/// A flush fails, in both loops, of bytes and of none.
const FLUSH: &str = "\
size 4; unflushed; tell flushes: IoError 'Hello, world!' 4 1
size 4; vectored; unflushed; tell flushes: IoError 'Hello, world!' 4 1
to 0; unflushed; tell flushes: IoError '' 0 1
to 0; vectored; unflushed; tell flushes: IoError '' 0 1";

/// A setting that fails; a write and a fetch that fail in one join; of two blocks of one round the first is out of
/// tries, and the fetch of the second fails, or doesn't.
const FAILING: &str = "\
tries 0: ConfigurationError(NoTries) '' 0/0
size 4; lanes ...f; takes f; tell plans: IoError '' 2
file e; tries 1; lanes .xf: ClientError '' 1/2
file e; tries 1; lanes .x: UrlExpired '' 1/2";

#[test]
fn each_call_fails_in_turn(rt: HostRuntime) {
    for lines in [CONNECTION, SIGNAL, WRITER, CACHE, FLUSH, FAILING] {
        come_to(&rt, rt.alloc(), lines);
    }
}
