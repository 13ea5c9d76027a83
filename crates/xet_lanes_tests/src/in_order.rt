//! The writer in order: worked rows.
use crate::rows::{comes_to, cut};
use crate::scripts::played;
use crate::sinks::sink_of;
use std::alloc::Global;

/// Whether a write is handed one piece or up to 24; what the writes of the sink do; and the calls. Their answers, the
/// bytes that the sink took, the pieces and the bytes of its first six writes, its flushes, and its empty pieces.
const IN_ORDER: &str = "\
# ready terms, by both loops
1||0-5:Hello;5-6:-;6-11:World;finish -> 0;0;0;11;Hello-World 1x5 1x1 1x5 1 0
24||0-5:Hello;5-6:-;6-11:World;finish -> 0;0;0;11;Hello-World 3x11 1 0
# a late first term holds back later ones
1||0-5;5-6;6-11:World;write;5+-;write;finish;0+Hello;write;finish -> 0;0;0;0;0;0;StillWanted { start: 0 };0;11;11;\
Hello-World 1x5 1x1 1x5 1 0
# bytes of a wrong length are refused, and that is kept
1||0-10:Hello;0-5:Hello;write;finish -> Length { expected: 10, actual: 5 };Length { expected: 10, actual: 5 };\
Length { expected: 10, actual: 5 };Length { expected: 10, actual: 5 }; 0 0
24||0-10;0+Hi;0+HelloWorld;finish -> 0;Length { expected: 10, actual: 2 };Length { expected: 10, actual: 2 };Length \
{ expected: 10, actual: 2 }; 0 0
# the sink's failure is told to each later call
1|F|0-4:Test;write;4-8:More;finish -> 0;IoError;IoError;IoError; 1x0 0 0
24|F|0-4:Test;write;4-8:More;finish -> 0;IoError;IoError;IoError; 1x0 0 0
# the end answers all bytes, a write those of its own
1||0-5:Hello;write;5-11:-World;11-16:!!!!!;write;write;finish;finish;write;0+;16-17:! -> 0;5;0;0;11;0;16;Finished;\
Finished;Finished;Finished;Hello-World!!!!! 1x5 1x6 1x5 1 0
# terms that do not adjoin are refused
1||0-5:Hello;10-15:World;5-10:World;finish -> 0;NotSequential { expected: 5, start: 10 };0;10;HelloWorld 1x5 1x5 1 0
1||5-10:Hello;write;0-5:Hello;finish -> NotSequential { expected: 0, start: 5 };0;0;5;Hello 1x5 1 0
24||0-5:Hello;6-7:!;3-8:World;5-6: ;write;finish;finish -> 0;NotSequential { expected: 5, start: 6 };NotSequential \
{ expected: 5, start: 3 };0;6;6;Finished;Hello  2x6 1 0
# a reversed range, and a start that no term wants
1||7-3:;0-5;5-6:-;5+-;0+Hello;6-6;6+;finish -> Reversed { start: 7, end: 3 };0;0;NotWanted { start: 5 };0;0;0;6;\
Hello- 1x5 1x1 1 0
# writes that take three bytes
1|3 3 3 3 3 3 3 3|0-5:Hello;5-6:-;6-11:World;write;finish -> 0;0;0;11;11;Hello-World 1x3 1x2 1x1 1x3 1x2 1 0
1|3 3 3 3 3 3 3 3|0-5:Hello;5-6:-;6-11:World;11-12:!;write -> 0;0;0;0;12;Hello-World! 1x3 1x2 1x1 1x3 1x2 1x1 0 0
24|3 3 3 3 3 3 3 3|0-5:Hello;5-6:-;6-11:World;11-12:!;write;finish -> 0;0;0;0;12;12;Hello-World! 4x3 4x3 2x3 2x3 1 0
# one byte a write, and an empty term that is no write of either loop
1|1 1 1 1 1 1|0-2:ab;2-2:;2-3:c;finish -> 0;0;0;3;abc 1x1 1x1 1x1 1 0
24|1 1 1 1 1 1|0-2:ab;2-2:;2-3:c;finish -> 0;0;0;3;abc 2x1 2x1 1x1 1 0
# admissions come back in order, when their terms were written
24||0-5=Hello;5-5=;back;write;5-6=-;finish;back -> 0;0;;5;0;6;501;Hello- 1x5 1x1 1 0
# at most 24 pieces go out together, and none is empty
24||~30;write -> 0;30;012345678901234567890123456789 24x24 6x6 0 0
1||~30;write -> 0;30;012345678901234567890123456789 1x1 1x1 1x1 1x1 1x1 1x1 0 0
24||*100;finish;back -> 0;100;\
1111111111111111111111111111111111111111111111111111111111111111111111111111111111111111111111111111;\
0123456789012345678901234567890123456789012345678901234567890123456789012345678901234567890123456789 24x24 24x24 \
24x24 24x24 4x4 1 0
# two writes took some pieces of a list, and its next one fails
24|24 3 F|*30;write;back -> 0;IoError;111111111111111111111111111;012345678901234567890123456 24x24 6x3 3x0 0 0
# a failed write: terms that answered writes took wholly give their admissions back, whatever it took
1|F|texts;write;finish;back -> ;IoError;IoError;; 1x0 0 0
24|F|texts;write;finish;back -> ;IoError;IoError;; 4x0 0 0
1|5 F|texts;write;finish;back -> ;IoError;IoError;50;Hello 1x5 1x0 0 0
24|5 F|texts;write;finish;back -> ;IoError;IoError;50;Hello 4x5 3x0 0 0
1|3 3 F|texts;write;finish;back -> ;IoError;IoError;50;Hello 1x3 1x2 1x0 0 0
24|3 3 F|texts;write;finish;back -> ;IoError;IoError;501;Hello- 4x3 4x3 2x0 0 0
1|6 A5|texts;write;finish;back -> ;IoError;IoError;50;Hello- 1x5 1x0 0 0
24|6 A5|texts;write;finish;back -> ;IoError;IoError;501;Hello-World 4x6 2x0 0 0
1|9 9 9 F|texts;write;finish;back -> ;IoError;IoError;5015;Hello-World 1x5 1x1 1x5 1x0 0 0
24|7 4 F|texts;write;finish;back -> ;IoError;IoError;5015;Hello-World 4x7 2x4 1x0 0 0
# each write in turn fails, up to one past the last, where a write takes three bytes: those that are not above
1|3 F|texts;write;finish;back -> ;IoError;IoError;;Hel 1x3 1x0 0 0
1|3 3 3 F|texts;write;finish;back -> ;IoError;IoError;501;Hello- 1x3 1x2 1x1 1x0 0 0
1|3 3 3 3 F|texts;write;finish;back -> ;IoError;IoError;501;Hello-Wor 1x3 1x2 1x1 1x3 1x0 0 0
1|3 3 3 3 3 F|texts;write;finish;back -> ;IoError;IoError;5015;Hello-World 1x3 1x2 1x1 1x3 1x2 1x0 0 0
1|3 3 3 3 3 3 F|texts;write;finish;back -> ;12;12;50151;Hello-World! 1x3 1x2 1x1 1x3 1x2 1x1 1 0
24|3 F|texts;write;finish;back -> ;IoError;IoError;;Hel 4x3 4x0 0 0
24|3 3 3 F|texts;write;finish;back -> ;IoError;IoError;501;Hello-Wor 4x3 4x3 2x3 2x0 0 0
24|3 3 3 3 F|texts;write;finish;back -> ;12;12;50151;Hello-World! 4x3 4x3 2x3 2x3 1 0
# a sink that finds no memory once: that is kept though it would pass, and nothing more is written
1|M|texts;write;write;finish;back -> ;OutOfMemory;OutOfMemory;OutOfMemory;; 1x0 0 0
1|9 M|texts;write;write;finish;back -> ;OutOfMemory;OutOfMemory;OutOfMemory;50;Hello 1x5 1x0 0 0
24|M|texts;write;write;finish;back -> ;OutOfMemory;OutOfMemory;OutOfMemory;; 4x0 0 0
# all was taken, so each admission comes back though the flush fails, and it is flushed once
1|U|texts;finish;finish;back -> ;IoError;IoError;50151;Hello-World! 1x5 1x1 1x5 1x1 1 0
24|U|texts;finish;finish;back -> ;IoError;IoError;50151;Hello-World! 4x12 1 0
";

/// Plays the calls of a row, and shows what its sink noted.
fn told(alloc: Global, row: &'static str) -> String {
    let mut told = String::new(alloc);
    let (pieces, row) = cut(row, "|");
    let (steps, script) = cut(row, "|");
    let mut sink = sink_of(alloc, steps);
    played(alloc, &mut sink, pieces == "24", script, &mut told);
    sink.show(&mut told);
    told
}

#[test]
fn rows_in_order(rt: HostRuntime) {
    for line in IN_ORDER.lines() {
        match line.split_once(" -> ") {
            Some((row, wanted)) => comes_to(&rt, row, told(rt.alloc(), row), wanted),
            None => assert!(rt; line.starts_with('#')),
        }
    }
}
