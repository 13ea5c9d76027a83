//! What runs answer and write, and what they ask for.
use crate::played::come_to;

/// A run by queries of 4 to 8 bytes asks for 4 and for 8, and then for 8 where the setting or the policy plans far
/// ahead, else for 4: so many plans are asked for up to the end of 23 bytes.
const PLANNED: &str = "\
file b; least 4; greatest 8; prefetch 0; tell plans: 23 'world!HelloHello, world' 5
file b; least 4; greatest 8; prefetch 1000; tell plans: 23 'world!HelloHello, world' 4
file b; least 4; greatest 8; prefetch 0; ahead 1000; tell plans: 23 'world!HelloHello, world' 4";

/// Each request for a block: its URL, its plan and how often that was asked for again, its block's number, and its
/// chunks with their bytes. After a refresh URLs and bytes are those of the refresh, and the last try has no refresh.
const REQUESTS: &str = "\
size 4; tell requests: 13 'Hello, world!' 4 !mem:1 1.0 b0 0..1@0..5 !mem:2 2.0 b0 0..3@0..12 \
!mem:3 3.0 b0 2..3@7..12 !mem:4 4.0 b0 3..4@12..13
file e; multi; tell requests: 6 'Hello!' 1 !mem:1 1.0 b0 0..1@0..5 3..4@12..13
tries 1; tell requests: 13 'Hello, world!' 1 !mem:1 1.0 b0 0..4@0..13
tries 2; lanes .x; tell requests: 13 'Hello, world!' 2 !mem:1 1.0 b0 0..4@0..13 !mem:2 1.1 b0 0..4@0..13
tries 3; lanes .x.x; tell requests: 13 'Hello, world!' 3 !mem:1 1.0 b0 0..4@0..13 !mem:2 1.1 b0 0..4@0..13 \
!mem:3 1.2 b0 0..4@0..13
tries 1; lanes .x; tell requests: UrlExpired '' 1 !mem:1 1.0 b0 0..4@0..13
tries 3; lanes .x.x.x; tell requests: UrlExpired '' 3 !mem:1 1.0 b0 0..4@0..13 !mem:2 1.1 b0 0..4@0..13 \
!mem:3 1.2 b0 0..4@0..13";

/// Each block has tries of its own: two of one plan that expire in one round, for which the plan is asked for again
/// once, and one of each of two plans.
const TRIES: &str = "\
file e; tries 2; lanes .xx: 6 'Hello!' 2/4
size 4; tries 2; lanes .x...x: 13 'Hello, world!' 6/6";

/// What is fetched and not written is never over the limit or the longest term, of four bytes, whichever is larger: of
/// a run by queries of four bytes, each fetch of which is one term's.
const HELD: &str = "\
size 4; budget 0; lengths 4 4 4 1; most 4: 13 'Hello, world!' 4 within 0
size 4; budget 0; lengths 4 4 4 1; most 3: 13 'Hello, world!' 4 past 0
size 4; budget 7; lengths 4 4 4 1; most 7: 13 'Hello, world!' 4 within 0
size 4; lanes .,.,.; budget 0; lengths 4 4 4 1; most 4: 13 'Hello, world!' 4 within 0
size 4; lanes .,.,.; budget 5; lengths 4 4 4 1; most 5: 13 'Hello, world!' 4 within 0
size 4; lanes .,.,.; budget 13; lengths 4 4 4 1; most 13: 13 'Hello, world!' 4 within 0";

/// Without a limit three blocks are fetched before the first is written. A limit of five bytes of the settings, or of a
/// book with one download, leaves one block at a time.
const LIMITS: &str = "\
lanes p; plan 0;17 5 0 1 17 2 1 2 17 5 2 3;17:0 1 1 2 2 3; lengths 5 2 5; most 5: 12 'Hello, world' 1 past 0
lanes p; plan 0;17 5 0 1 17 2 1 2 17 5 2 3;17:0 1 1 2 2 3; budget 5; lengths 5 2 5; most 5: 12 'Hello, world' 1 within 0
lanes p; plan 0;17 5 0 1 17 2 1 2 17 5 2 3;17:0 1 1 2 2 3; book 5; lengths 5 2 5; most 5: 12 'Hello, world' 1 within 0";

/// The second fetch and the first write wait for each other, whether the connection answers at once or not, and three
/// fetches for one another, of which each connection serves one. The gate is that of the caller.
const BESIDE: &str = "\
size 4; budget 13; meet 2; first 1; beside: 13 'Hello, world!' 4 met 4 0 0
size 4; budget 13; ready; meet 2; first 1; beside: 13 'Hello, world!' 4 met 4 0 0
lanes p,.,.; plan 0;17 5 0 1 17 2 1 2 17 5 2 3;17:0 1 1 2 2 3; budget 12; meet 3: 12 'Hello, world' 1 met 1 1 1";

#[test]
fn plans_ahead_by_setting_and_policy(rt: HostRuntime) {
    come_to(&rt, rt.alloc(), PLANNED);
}

#[test]
fn requests_have_the_last_urls(rt: HostRuntime) {
    for lines in [REQUESTS, TRIES] {
        come_to(&rt, rt.alloc(), lines);
    }
}

#[test]
fn a_meter_of_connections_and_writer(rt: HostRuntime) {
    come_to(&rt, rt.alloc(), HELD);
}

#[test]
fn a_limit_of_settings_or_book(rt: HostRuntime) {
    come_to(&rt, rt.alloc(), LIMITS);
}

#[test]
fn three_fetches_run_side_by_side(rt: HostRuntime) {
    come_to(&rt, rt.alloc(), BESIDE);
}
