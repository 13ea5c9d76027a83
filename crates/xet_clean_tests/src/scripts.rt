//! Scripts of calls over one session.
use crate::answers::end_answer;
use crate::calls::called;
use crate::files::cleaned;
use crate::managers::managed;
use crate::sessions::{Session, session};
use crate::uploads::upload;
use std::alloc::Global;
use std::process::Abort;
use std::sync::Wait;

/// Makes one call, and writes what it answers and the session's puts.
fn step<W: Wait>(rt: &W, alloc: Global, session: &mut Session, out: &mut String, call: &str) {
    let (word, rest) = call.split_once(' ').unwrap_or((call, ""));
    match word {
        "find" | "hand" | "ask" | "depend" | "external" => {
            managed(rt, alloc, session, out, word, rest)
        }
        "clean" | "sha" | "given" | "feed" => cleaned(rt, alloc, session, out, word, rest),
        "upload" => upload(rt, alloc, session, out, rest),
        _ => called(rt, alloc, session, out, word, rest),
    }
    end_answer(out, session);
}

/// Makes the calls of a script, and writes what each answers.
pub fn play<W: Wait>(rt: &W, alloc: Global, session: &mut Session, out: &mut String, script: &str) {
    for call in script.split(';') {
        step(rt, alloc, session, out, call.trim_start());
    }
}

/// What a new session answers to a script.
pub fn played<W: Wait>(rt: &W, alloc: Global, words: &str, script: &str) -> String {
    let mut out = String::new(alloc);
    if let Ok(mut session) = session(alloc, words) {
        play(rt, alloc, &mut session, &mut out, script);
    }
    out
}

/// Asserts what a row comes to.
pub fn comes_to<A: Abort>(rt: &A, row: &str, told: String, wanted: &str) {
    let told = told.as_str().trim();
    assert!(rt; told == wanted, "{row}: {told}");
}

/// Plays each line, `settings | script => answers`, or `settings => answers` of this script, and asserts the answers.
pub fn play_each<'x, R: Abort + Wait>(rt: &R, alloc: Global, script: &'x str, lines: &'x str) {
    for line in lines.lines() {
        let (row, wanted) = line.split_once(" => ").unwrap_or((line, "no answers"));
        let (words, script) = row.split_once(" | ").unwrap_or((row, script));
        comes_to(rt, row, played(rt, alloc, words, script), wanted);
    }
}
