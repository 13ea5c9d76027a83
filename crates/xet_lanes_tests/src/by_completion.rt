//! The writer by completion: worked rows.
use crate::calls::{make, show};
use crate::rows::{comes_to, put};
use std::alloc::Global;
use xet_writers::{CompletedTerm, UnorderedWriter};

/// The calls; their answers, and the terms with their admissions.
const BY_COMPLETION: &str = "\
# ready terms are complete at once
0-5:Hello;5-6:-;6-11:World;finish;take;take;take;take -> 0;0;0;11;0-5:Hello;5-6:-;6-11:World;none;
# the others in the order of their completion
0-5;5-6;6-11:World;take;5+-;finish;0+Hello;finish;take;take;take -> 0;0;0;6-11:World;0;StillWanted { start: 0 };0;11;\
5-6:-;0-5:Hello;none;
0-5;5-6: ;6-11;6+World;0+Hello;finish;take;take;take;take -> 0;0;0;0;0;11;5-6: ;6-11:World;0-5:Hello;none;
# two wanted terms at one start, a start that none wants, a reversed range, and calls after the end
7-3:;0-5;5-6: ;0-2;5+ ;0+Hello;0+He;finish;finish;0+;7-8:x;take;take;take -> Reversed { start: 7, end: 3 };0;0;0;\
NotWanted { start: 5 };0;0;8;Finished;Finished;Finished;5-6: ;0-5:Hello;0-2:He;
# bytes of a wrong length are refused, and that is kept
0-10:Hello;finish;take -> Length { expected: 10, actual: 5 };Length { expected: 10, actual: 5 };none;
0-4:Good;4-14;4+Hello;4+HelloWorld;finish -> 0;0;Length { expected: 10, actual: 5 };Length { expected: 10, actual: 5 \
};Length { expected: 10, actual: 5 };
# a later term before an earlier one
0-5;5-11;5+-World;0+Hello;finish;take;take;take -> 0;0;0;0;11;5-11:-World;0-5:Hello;none;
# an admission goes with its term
0-5=Hello;5-6=-;6-7:!;finish;take;take;take;take -> 0;0;0;7;0-5:Hello!5;5-6:-!1;6-7:!;none;
# six terms are supplied in two rounds
0-1;1-2;2-3;3-4;4-5;5-6;0+a;2+c;4+e;1+b;3+d;5+f;finish;take;take;take;take;take;take;take -> 0;0;0;0;0;0;0;0;0;0;0;0;\
6;0-1:a;2-3:c;4-5:e;1-2:b;3-4:d;5-6:f;none;
";

/// Shows a completed term.
fn show_term(told: &mut String, term: &CompletedTerm) {
    put(told, term.byte_range.start);
    put(told, '-');
    put(told, term.byte_range.end);
    put(told, ':');
    put(
        told,
        str::from_utf8(term.bytes.as_slice()).unwrap_or("no text"),
    );
    if let Some(admission) = &term.admission {
        put(told, '!');
        put(told, admission.length);
    }
}

/// Makes the call of a word, `take` being the next completed term.
fn turn(alloc: Global, writer: &mut UnorderedWriter, word: &'static str, told: &mut String) {
    if word == "take" {
        return match writer.take() {
            Some(term) => show_term(told, &term),
            None => put(told, "none"),
        };
    }
    show(told, make(alloc, writer, word));
}

/// Plays the calls of a row.
fn told(alloc: Global, script: &'static str) -> String {
    let mut told = String::new(alloc);
    let mut writer = UnorderedWriter::new(alloc);
    for word in script.split(';') {
        turn(alloc, &mut writer, word, &mut told);
        put(&mut told, ';');
    }
    told
}

#[test]
fn rows_by_completion(rt: HostRuntime) {
    for line in BY_COMPLETION.lines() {
        match line.split_once(" -> ") {
            Some((row, wanted)) => comes_to(&rt, row, told(rt.alloc(), row), wanted),
            None => assert!(rt; line.starts_with('#')),
        }
    }
}
