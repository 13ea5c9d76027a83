//! Rows of files that jobs upload over one session, and what that comes to.
//!
//! A row is `threads cut put | files => answers`: over how many threads the jobs run, above how many waiting bytes a
//! xorb is put, which put fails, counted from 0, or `-`, and the files, each by its word. The answer of the session's
//! end comes first, with the number of accepted puts where it is an error, and then how many files come back.
use crate::uploads::{Row, uploaded};
use std::alloc::Global;
use std::process::Abort;
use std::sync::Wait;
use std::thread::Threads;

/// A number, or none where the text is none.
fn number(text: &str) -> Option<u64> {
    text.parse::<u64>().ok()
}

/// What stands before the first of these, and what behind it.
fn cut<'a>(text: &'a str, at: &str) -> (&'a str, &'a str) {
    text.split_once(at).unwrap_or((text, ""))
}

/// A row of a text.
fn row_of(text: &str) -> Row<'_> {
    let (settings, files) = cut(text, " | ");
    let (threads, rest) = cut(settings, " ");
    let (waiting, put) = cut(rest, " ");
    Row {
        threads: threads.parse::<usize>().unwrap_or(1),
        cut: number(waiting).unwrap_or(0),
        put: number(put),
        files,
    }
}

/// Plays each row, and asserts that the puts are in order and what it comes to.
fn play_each<R: Abort + Threads + Wait + Sync>(rt: &R, alloc: Global, rows: &str) {
    for line in rows.lines() {
        let (row, wanted) = cut(line, " => ");
        let mut told = String::new(alloc);
        let ordered = uploaded(rt, alloc, row_of(row), &mut told);
        assert!(rt; ordered, "{row}: out of order");
        assert!(rt; told.as_str() == wanted, "{row}: {told}");
    }
}

const SIDE_BY_SIDE: &str = "\
4 50000 - | 0 1 999 65535 65536 65537 131072 200000 => Ok, 8 of 8 back
2 67108864 - | Hello world => Ok, 2 of 2 back";

#[test]
fn jobs_on_some_threads_share_a_session(rt: HostRuntime) {
    play_each(&rt, rt.alloc(), SIDE_BY_SIDE);
}

/// Each file is a xorb of its own, since two of them have more bytes than may wait; the fourth put has the records.
const FAILED_PUTS: &str = "\
3 5 0 | Hello world again => ClientError after 0, 0 of 3 back
3 5 1 | Hello world again => ClientError after 1, 0 of 3 back
3 5 2 | Hello world again => ClientError after 2, 0 of 3 back
3 5 3 | Hello world again => ClientError after 3, 0 of 3 back
3 5 4 | Hello world again => Ok, 3 of 3 back";

#[test]
fn each_put_fails_in_turn(rt: HostRuntime) {
    play_each(&rt, rt.alloc(), FAILED_PUTS);
}

/// `cases/faults/uploads` refuses each allocation of this test in turn.
#[test]
fn refused_memory_leaves_the_puts_in_order(rt: HostRuntime) {
    play_each(
        &rt,
        rt.alloc(),
        "1 5 - | Hello 2500 again => Ok, 3 of 3 back",
    );
}
