//! The command `get` over taps: what passes them, and that what they hand on is what is printed.
use bytes::Bytes;
use std::alloc::Global;
use std::fmt::Display;
use std::process::Abort;
use std::sync::Wait;
use std::thread::Threads;
use xet_base::{MerkleHash, OutOfMemory};
use xet_get_command::{get, read_wanted};
use xet_outside::Offsets;
use xet_store::{BlockBytes, MemTap, ScriptTap, Served, Tap, VecSink, VecSource};

// One xorb of `Hello`, `, `, `world` and `!`; a file of all, one of chunks that come again, one of the first chunk
// twice, and one of both ends.
const DOCUMENT: &[u8] = br#"{"xorbs":{
    "1111111111111111111111111111111111111111111111111111111111111111":["48656c6c6f","2c20","776f726c64","21"]
},"files":{
    "aaaaaaaaaaaaaaaaaaaaaaaaaaaaaaaaaaaaaaaaaaaaaaaaaaaaaaaaaaaaaaaa":[
        ["1111111111111111111111111111111111111111111111111111111111111111",0,4]],
    "bbbbbbbbbbbbbbbbbbbbbbbbbbbbbbbbbbbbbbbbbbbbbbbbbbbbbbbbbbbbbbbb":[
        ["1111111111111111111111111111111111111111111111111111111111111111",2,4],
        ["1111111111111111111111111111111111111111111111111111111111111111",0,1],
        ["1111111111111111111111111111111111111111111111111111111111111111",0,3]],
    "cccccccccccccccccccccccccccccccccccccccccccccccccccccccccccccccc":[
        ["1111111111111111111111111111111111111111111111111111111111111111",0,1],
        ["1111111111111111111111111111111111111111111111111111111111111111",0,1]],
    "eeeeeeeeeeeeeeeeeeeeeeeeeeeeeeeeeeeeeeeeeeeeeeeeeeeeeeeeeeeeeeee":[
        ["1111111111111111111111111111111111111111111111111111111111111111",0,1],
        ["1111111111111111111111111111111111111111111111111111111111111111",3,4]]
}}"#;

// The offsets and the bytes that the first tap hands on for the first file's block, and what that comes to: the status
// and the text.
const LIES: &str = "\
0 5 7 12|Jello, world!
0:4a656c6c6f2c20776f726c6421
ok 13
end

0 5 7|Hello, world!
12:
error block 10
end

0 5 7 13|Hello, world!
12:
error block 11
end

0 5 7 12|Hello, world
12:
error block 11
end

0 5 7 12|Hello, world!!
12:
error block 12
end";

// The words after `get` over one lane; and what they come to: the status, the text, and of each block that passed the
// first tap the plan's number, its own and its chunk ranges. In the last two rows one range is in two plans.
const GOT: &str = "\
bbbbbbbbbbbbbbbbbbbbbbbbbbbbbbbbbbbbbbbbbbbbbbbbbbbbbbbbbbbbbbbb 4 13
0:642148656c6c6f4865
ok 9
1 0 2..4;1 1 0..1;

eeeeeeeeeeeeeeeeeeeeeeeeeeeeeeeeeeeeeeeeeeeeeeeeeeeeeeeeeeeeeeee 0 end
0:48656c6c6f21
ok 6
1 0 0..1;1 1 3..4;

eeeeeeeeeeeeeeeeeeeeeeeeeeeeeeeeeeeeeeeeeeeeeeeeeeeeeeeeeeeeeeee 0 end multi
0:48656c6c6f21
ok 6
1 0 0..1 3..4;

cccccccccccccccccccccccccccccccccccccccccccccccccccccccccccccccc 0 10 least=5 greatest=5
0:48656c6c6f48656c6c6f
ok 10
1 0 0..1;2 0 0..1;

cccccccccccccccccccccccccccccccccccccccccccccccccccccccccccccccc 0 10 least=5 greatest=5 cache
0:48656c6c6f48656c6c6f
ok 10
1 0 0..1;";

// The words after `get` that each lie is printed by.
const LIED: &str = "aaaaaaaaaaaaaaaaaaaaaaaaaaaaaaaaaaaaaaaaaaaaaaaaaaaaaaaaaaaaaaaa 0 end";

// What stands before the first of these, and what behind it: where there is none, all and nothing.
fn cut<'a>(text: &'a str, at: &str) -> (&'a str, &'a str) {
    text.split_once(at).unwrap_or((text, ""))
}

// Adds a word or a number.
fn put<T: Display + Drop>(text: &mut String, value: T) {
    let _ = write!(text, "{value}");
}

// The words of a row.
fn words(alloc: Global, row: &str) -> Vec<String> {
    let mut words = Vec::new(alloc);
    for word in row.split(' ') {
        if let Ok(word) = word.to_string(alloc) {
            let _ = words.push(word);
        }
    }
    words
}

// Runs the command over the document, and tells the status and what was printed.
fn print<R: Threads + Wait + Sync, T: Tap + Send>(
    rt: &R,
    alloc: Global,
    row: &str,
    taps: &mut Vec<T>,
    text: &mut String,
) {
    if taps.len() != 64 {
        return put(text, "not 64 taps");
    }
    let Some(wanted) = read_wanted(words(alloc, row).as_slice()) else {
        return put(text, "no words");
    };
    let mut input = VecSource::new(DOCUMENT.to_vec(alloc).unwrap_or(Vec::new(alloc)));
    let mut out = VecSink::new(alloc);
    let status = get(rt, alloc, wanted, &mut input, &mut out, taps);
    put(text, status.number());
    put(text, ':');
    put(text, str::from_utf8(out.taken()).unwrap_or("no text"));
}

// The numbers of a text.
fn numbers(alloc: Global, text: &str) -> Vec<u32> {
    let mut made = Vec::new(alloc);
    for word in text.split(' ') {
        let _ = made.push(word.parse::<u32>().unwrap_or(0));
    }
    made
}

// A block of these offsets and bytes.
fn block(alloc: Global, offsets: &str, bytes: &str) -> Result<BlockBytes, OutOfMemory> {
    let bytes = Bytes::copy_from_slice(alloc, bytes.as_bytes())?;
    match Offsets::from_vec(alloc, numbers(alloc, offsets)) {
        Ok(offsets) => Ok(BlockBytes { offsets, bytes }),
        Err(error) => Err(error),
    }
}

// A tap that hands one block on first.
fn lying_tap(alloc: Global, row: &str) -> ScriptTap {
    let (offsets, bytes) = cut(row, "|");
    let mut blocks = Vec::new(alloc);
    if let Ok(block) = block(alloc, offsets, bytes) {
        let _ = blocks.push(block);
    }
    ScriptTap::new(blocks)
}

// A tap that hands one block on first, and 63 that hand each block on.
fn lying_taps(alloc: Global, row: &str) -> Vec<ScriptTap> {
    let mut taps = Vec::new(alloc);
    let _ = taps.push(lying_tap(alloc, row));
    for _ in 1..64 {
        let _ = taps.push(ScriptTap::new(Vec::new(alloc)));
    }
    taps
}

// What the command prints over these.
fn lied<R: Threads + Wait + Sync>(rt: &R, alloc: Global, row: &str) -> String {
    let mut text = String::new(alloc);
    let mut taps = lying_taps(alloc, row);
    print(rt, alloc, LIED, &mut taps, &mut text);
    put(&mut text, "end");
    text
}

// 64 taps that keep what passes.
fn mem_taps(alloc: Global) -> Vec<MemTap> {
    let mut taps = Vec::new(alloc);
    for _ in 0..64 {
        let _ = taps.push(MemTap::new(alloc));
    }
    taps
}

// The plan's number, the block's number and the chunk ranges of a block, and a mark where it isn't of the xorb.
fn write_block(text: &mut String, entry: &Served) {
    put(text, entry.plan);
    put(text, ' ');
    put(text, entry.index);
    if entry.xorb != MerkleHash([0x11; 32]) {
        put(text, '?');
    }
    for range in entry.ranges.as_slice() {
        put(text, ' ');
        put(text, range.start);
        put(text, "..");
        put(text, range.end);
    }
    put(text, ';');
}

// What the command printed, and what passed the first tap.
fn got<R: Threads + Wait + Sync>(rt: &R, alloc: Global, row: &str) -> String {
    let mut text = String::new(alloc);
    let mut taps = mem_taps(alloc);
    print(rt, alloc, row, &mut taps, &mut text);
    if let Some(first) = taps.as_slice().first() {
        for entry in first.passed() {
            write_block(&mut text, entry);
        }
    }
    text
}

// Asserts what a row comes to.
fn comes_to(rt: &impl Abort, row: &str, told: String, wanted: &str) {
    assert!(rt; told.as_str() == wanted, "{row}: {told}");
}

#[test]
fn what_a_tap_hands_on_is_printed(rt: HostRuntime) {
    for case in LIES.split("\n\n") {
        let (row, wanted) = cut(case, "\n");
        comes_to(&rt, row, lied(&rt, rt.alloc(), row), wanted);
    }
}

#[test]
fn each_block_passes_the_first_tap_once(rt: HostRuntime) {
    for case in GOT.split("\n\n") {
        let (row, wanted) = cut(case, "\n");
        comes_to(&rt, row, got(&rt, rt.alloc(), row), wanted);
    }
}
