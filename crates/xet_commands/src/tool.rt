//! The top call.
ghost use Rattle.std.specs.Prelude.{◌≡◌, length, map, string_bytes};
ghost use Rattle.xet_room.specs.Ends.{input_limit};
ghost use Rattle.xet_commands.specs.Commands.{Answers};

use crate::commands::run_words;
use std::alloc::Global;
use std::sync::Wait;
use std::thread::Threads;
use xet_store::{Sink, Source, Tap};

/// The whole program, over the words after its name, an input and an output. Answers the exit status.
///
/// - 0: what the words ask for was printed. For `get` the input is a document of a valid store, which has the file
///   unless the range is empty; and the lower-case hexadecimal digits of the bytes of the file in the range, cut to the
///   file's end, were printed, a line end, `ok n` with their number, and a line end. For `track` each line of the input
///   reads as a call of a completion tracker, and the line of each reply was printed. For `bench` no setting fails, and
///   the four lines of the bytes of a made file of so many terms were printed, whatever the options are. For
///   `roundtrip` the text of the pointer record of a made file of so many bytes was printed, a line end, `ok n` with
///   their number, and a line end. For `audit` nothing is found in the store that the input lists, valid or not, and a
///   line for each of its xorbs that no file names was printed, and `ok` with how many files and xorbs there are. For
///   `compact` the input lists a valid store, and the document of the store without what no file needs was printed, a
///   line end, and `ok` with how many xorbs are kept and how many chunks were dropped. For `mirror` the input has two
///   stores that agree and a list of files, each of which one of the stores has; with `verify` each xorb that the
///   target would get has the hash of its chunks; and the counts of files, xorbs and bytes were printed. For `resume`
///   the input is a document of a valid store, and the ranges of the words were fetched from its file in their order,
///   each part once, into an empty file: the digits of its content were printed, a line end, the record of what is
///   missing then, and `ok n` with how many bytes were fetched. The store has the file, unless no range has a byte of
///   it by the length in the words. For `serve` the first line of the input is a document of a valid store, no setting
///   fails, and exactly the reply to each line behind it was printed, up to the input's end or `QUIT`.
/// - 1, `error words`: exactly where the words don't read. Nothing was read.
/// - 2, `error store` for `get` and `resume`: exactly where the input is within the limit and is no document of a valid
///   store; for `audit`: exactly where it is within the limit and lists no store, valid or not; for `compact`: exactly
///   where it is within the limit and lists no valid store. `error hash H` for `compact`: exactly where it lists a
///   valid store, and two lists of kept chunks that differ would stand under the hash H. For `mirror` the first of
///   these lines comes exactly where the input is within the limit and has no two stores that agree or no list of
///   files, and the second only with `verify`, where the target would get the xorb H, whose hash isn't that of its
///   chunks. `error store` for `serve`: exactly where it is within the limit and its first line is no document of a
///   valid store. `error script` for `track`, after the lines of the calls before it: exactly where a line of it
///   doesn't read.
/// - 3, a line end and `error file not found`: exactly where the input is a document of a valid store, no setting
///   fails, the range isn't empty and the store has no such file; that, and that with 0 the store has the file, is said
///   over honest taps, or ones that tell what passed and what they handed on. For `resume` that line alone, exactly
///   where the input is a document of a valid store, a range has a byte of the file, by the length in the words, and
///   the store has no such file. `missing H` for `mirror`, that line alone: only where neither store has the listed
///   file H.
/// - 4, `error read`: only where the input's faults rose.
/// - 5, no line: only where the output's faults rose. Nothing more is written.
/// - 6, `error memory`: where an allocation was refused; after some first digits, or all, a line end comes before it.
/// - 7, a line end and `error settings K`: exactly where the input is a document of a valid store and setting K of the
///   words fails first, whatever the file and the range are. Nothing passed the taps of the lanes, where these tell it:
///   all taps are as before. For `bench` that line alone, exactly where setting K of the words fails first; for `serve`
///   that line alone, exactly where the first line is a document of a valid store and that setting fails first.
/// - 8, `error input`: exactly where the input has more than 67,108,864 bytes, which is the limit.
/// - 9, `error short n` for `resume`, that line alone: exactly where the input is a document of a valid store with the
///   file, and a part that is still to be fetched has fewer bytes in it than the words say: the first such part has n.
/// - 10, `bad n` for `audit`, after a line for each finding and for each spare xorb: exactly where the input lists a
///   store in which so many things are found.
/// - 11 for `serve`, after the replies to the lines before one of more than 1,024 bytes, and `OVER`: exactly where the
///   first line is a document of a valid store, no setting fails, and such a line comes before the input's end or
///   `QUIT`.
/// - 12, `error block K` after the digits of some bytes and a line end: over a tap that isn't honest. Where the taps of
///   the lanes tell what passed and what they handed on, K is the test that a block of a plan of the store's, or a term
///   in one, fails in what they handed on. Never over taps that hand each block on as it came.
///
/// "Exactly" yields to 5 and 6, and for 2, 3, 7, 8, 9, 10 and 11 to 4 too: a read may fail first. There are 64 taps:
/// while a run of `get` goes on each is owned by a connection, the first by those of the lanes, and handed back then;
/// the others are as before, and with 1, 2, 4, 7 and 8 and for the other commands all are; `bench` and `roundtrip` read
/// nothing. Each tap is as honest afterwards as it was. What is said of the bytes of a store's file is said where those
/// of the lanes hand each block on as it came, for all options. Over such taps that tell what passed, each chunk with a
/// byte in the range passed one of them with status 0. Over taps of any kind that tell what passed and what they handed
/// on, the digits of status 0 are those of all terms of the store's own plans in these blocks, which pass their tests,
/// and with another status those of some first bytes; with `cache` the data of some of these blocks may be what a tap
/// handed on earlier in this run. No block of a plan passed them twice, and each that passed is a block of one of the
/// store's plans.
///
/// With 1, 2, 4, 8 and 9, but 2 of `track`, that line and nothing else was printed. With 5 and 6 a prefix of one text
/// was printed: of the text of another status, of which all that is said here holds; or of `error memory`, for `get`
/// with no digits, or with the digits of some first bytes of the range and a line end before it, and for `track` after
/// some first lines. After want of memory in a session nothing more is printed. With all others what was printed is
/// flushed and no call of the output failed, and but for 4 no read of the input did, by their counts of faults.
pub fn run_tool<R: Threads + Wait + Sync, I: Source, O: Sink + Send, T: Tap + Send>(
    rt: &R,
    alloc: Global,
    words: &[String],
    input: &mut I,
    out: &mut O,
    taps: &mut Vec<T>,
) -> u8
    requires { length taps.old.items ≡ 64 }
    ensures { Answers input_limit (map string_bytes words.now)
        (record { source = I.told input.old; sink = O.told out.old; taps = map T.told taps.old.items })
        (record { source = I.told input.new; sink = O.told out.new; taps = map T.told taps.new.items }) result }
{
    run_words(rt, alloc, words, input, out, taps).number()
}
