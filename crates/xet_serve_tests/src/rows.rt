//! Sessions, one a line: what the connection does, what the sink takes, the input, and what it comes to.
use crate::served::{expanded, one_by_one, served};
use std::alloc::Global;
use std::process::Abort;
use std::sync::Wait;
use std::thread::Threads;
use xet_outside::{ChunkCache, NoCache};
use xet_sinks::{ScriptSource, SourceStep};
use xet_store::worked::worked_store;
use xet_store::{MapCache, MemStore};

const ROWS: &str = "\
- - GET @a 0-5,7-9/GET @f 0-1/GET @a 3/QUIT/GET @a 0-1/: 4 OK 2/0 5/Hello/7 2/wo/NONE/BAD/BYE/
- - GET @a 12-20: 1 OK 1/12 1/!/
- - QUIT: 1 BYE/
- - : 0 
- - GET @a 0-1048577/GET @a 3-1048579/: 2 LONG 0/OK 1/3 10/lo, world!/
- - GET @f 9-3,1-1/GET @f 0-0,0-1/: 2 OK 2/9 0//1 0//NONE/
- - GET @e 0-2,5-1048582/: 1 LONG 1/
- - GET @a 0-1 /GET  @a 0-1/get @a 0-1//QUIT /: 5 BAD/BAD/BAD/BAD/BAD/
- - GET @a 00-1/GET @a 0-01/GET @a 007-9/GET @a 0-1/: 4 BAD/BAD/BAD/OK 1/0 1/H/
- - GET @a 0-18446744073709551615/GET @a 0-18446744073709551616/: 2 LONG 0/BAD/
- - GET @a 0-1,0-1,0-1,0-1,0-1,0-1,0-1,0-1,0-1,0-1,0-1,0-1,0-1,0-1,0-1,0-1,0-1/: 1 BAD/
- - #/QUIT: 2 BAD/BYE/
- - QUI/#x/QUIT/: LineTooLong BAD/OVER/
- - #x: LineTooLong OVER/
f - GET @a 0-5/GET @a 0-5/: 2 FAIL 2/OK 1/0 5/Hello/
hf - GET @a 0-5/GET @a 0-5/: 2 FAIL 2/OK 1/0 5/Hello/
hhf - GET @a 0-5,7-9/GET @f 0-1/: 2 FAIL 2/NONE/
f - GET @f 0-1/GET @f 0-1/: 2 FAIL 2/NONE/
xxxxxxxx - GET @a 0-5/GET @a 0-5/: 2 FAIL 4/OK 1/0 5/Hello/
xxxxxx - GET @a 0-5/: 1 OK 1/0 5/Hello/
- 7 GET @a 0-5/QUIT/: WriteFault OK 1/0 
- 0 QUIT/: WriteFault 
- 2 #x: WriteFault OV";

/// Sessions over a cache, whose ranges are all fetched by runs.
const RUNS: &str = "\
- - GET @a 0-5,7-9/GET @f 0-1/GET @a 20-21/GET @a 9-3/QUIT/: 5 OK 2/0 5/Hello/7 2/wo/NONE/OK 1/20 0//OK 1/9 0//BYE/
f - GET @a 0-5/GET @a 0-5/: 2 FAIL 2/OK 1/0 5/Hello/
hf - GET @a 0-5/GET @a 0-5/: 2 FAIL 2/OK 1/0 5/Hello/
xxxxxx - GET @a 0-5/GET @a 0-5/: 2 FAIL 4/OK 1/0 5/Hello/
xxxx - GET @a 0-5/: 1 OK 1/0 5/Hello/";

/// What a session comes to whose source gives all at once.
fn at_once<R: Threads + Wait + Sync + Abort, K: ChunkCache>(
    rt: &R,
    alloc: Global,
    store: &MemStore,
    row: &str,
    wanted: &str,
    cache: &mut K,
) {
    let (client, rest) = row.split_once(' ').unwrap_or((row, ""));
    let (sink, input) = rest.split_once(' ').unwrap_or((rest, ""));
    let source = ScriptSource::new(expanded(alloc, input), Vec::new(alloc));
    let told = served(rt, alloc, store, source, client, sink, cache);
    assert!(rt; told.as_str() == wanted, "{row}: {told}");
}

/// The same, and of one whose source gives one byte after another.
fn both<R: Threads + Wait + Sync + Abort>(
    rt: &R,
    alloc: Global,
    store: &MemStore,
    row: &str,
    wanted: &str,
) {
    let (client, rest) = row.split_once(' ').unwrap_or((row, ""));
    let (sink, input) = rest.split_once(' ').unwrap_or((rest, ""));
    let input = expanded(alloc, input);
    let steps = one_by_one(alloc, input.as_slice());
    let source = ScriptSource::new(input, steps);
    let slow = served(rt, alloc, store, source, client, sink, &mut NoCache);
    assert!(rt; slow.as_str() == wanted, "{row}: {slow}");
    at_once(rt, alloc, store, row, wanted, &mut NoCache);
}

#[test]
fn sessions_by_rows(rt: HostRuntime) {
    let alloc = rt.alloc();
    let store = worked_store(alloc).unwrap_or(MemStore::new(alloc));
    for line in ROWS.lines() {
        if let Some((row, wanted)) = line.split_once(": ") {
            both(&rt, alloc, &store, row, wanted);
        }
    }
}

#[test]
fn sessions_by_runs(rt: HostRuntime) {
    let alloc = rt.alloc();
    let store = worked_store(alloc).unwrap_or(MemStore::new(alloc));
    for line in RUNS.lines() {
        if let Some((row, wanted)) = line.split_once(": ") {
            at_once(&rt, alloc, &store, row, wanted, &mut MapCache::new(alloc));
        }
    }
}

const INPUT: &str = "GET @a 0-5,7-9/GET @f 0-1/GET @a 3/QUIT/";

const WANTED: &str = "4 OK 2/0 5/Hello/7 2/wo/NONE/BAD/BYE/";

#[test]
fn a_session_cut_at_each_place(rt: HostRuntime) {
    let alloc = rt.alloc();
    let store = worked_store(alloc).unwrap_or(MemStore::new(alloc));
    for place in 1..180usize {
        let mut steps = Vec::new(alloc);
        let _ = steps.push(SourceStep::Give(place));
        let source = ScriptSource::new(expanded(alloc, INPUT), steps);
        let told = served(&rt, alloc, &store, source, "-", "-", &mut NoCache);
        assert!(rt; told.as_str() == WANTED, "{place}: {told}");
    }
}
