//! Answers lines.
ghost use Rattle.std.specs.Prelude.{◌≡◌, [], None, OnOk, Some, codes, map, option_map, position};
ghost use Rattle.xet_serve_lines.specs.Replies.{number_line, word_line};
ghost use Rattle.xet_serve_lines.specs.Requests.{asked};
ghost use Rattle.xet_ties.specs.Causes.{refused_setting};
ghost use Rattle.xet_serve.specs.Replies.{is_long};
ghost use Rattle.xet_serve.specs.Sessions.{any_setup};
ghost use Rattle.xet_serve.specs.steps.Answering.{LineCall, RangesCall, RequestCall};

use crate::fetch::Fetched;
use crate::short_range::fetch_range;
use std::alloc::Global;
use std::sync::Wait;
use std::thread::Threads;
use xet_base::{FileRange, MerkleHash, OutOfMemory};
use xet_outside::{ChunkCache, Client};
use xet_serve_lines::{Request, add_line, add_number_line, is_quit, read_request};
use xet_terms::ReconstructionConfig;

// How many bytes of a range one reply gives.
const MOST: u64 = 1_048_576;

// Whether a range has more bytes than one reply gives.
fn is_long(range: &FileRange) -> bool
    ensures { result ≡ is_long range.now }
{
    range.end.saturating_sub(range.start) > MOST
}

// The first range that is too long.
fn first_long(ranges: &[FileRange]) -> Option<usize>
    ensures { result ≡ position is_long ranges.now }
{
    ranges.iter().position(|range| is_long(range))
}

// Adds the bytes of all ranges of a file, up to one whose fetch fails.
fn add_ranges<R: Threads + Wait + Sync, C: Client + Send, K: ChunkCache>(
    rt: &R,
    alloc: Global,
    config: &ReconstructionConfig,
    file: MerkleHash,
    ranges: &[FileRange],
    clients: &mut [C],
    cache: &mut K,
    reply: &mut Vec<u8>,
) -> Result<Fetched, OutOfMemory>
    requires { refused_setting (any_setup config.now) (map C.told clients.old) ≡ None }
    ensures { RangesCall config.now.tries (record { file = file; ranges = ranges.now })
        (record { clients = map C.told clients.old; cache = K.told cache.old })
        (record { clients = map C.told clients.new; cache = K.told cache.new })
        reply.old.items reply.new.items result }
{
    for range in ranges {
        match fetch_range(rt, alloc, config, file, *range, clients, cache, reply)? {
            Fetched::Whole => {}
            failed => return Ok(failed),
        }
    }
    Ok(Fetched::Whole)
}

// Answers that the file isn't stored, in place of what the reply was.
fn answer_missing(reply: &mut Vec<u8>) -> Result<(), OutOfMemory>
    ensures { OnOk result (reply.new.items ≡ word_line (codes "NONE")) }
{
    reply.clear();
    add_line(reply, "NONE")
}

// Answers with the number of an error of a run, in place of what the reply was.
fn answer_failed(reply: &mut Vec<u8>, number: u64) -> Result<(), OutOfMemory>
    ensures { OnOk result (reply.new.items ≡ number_line (codes "FAIL") number) }
{
    reply.clear();
    add_number_line(reply, "FAIL", number)
}

// Answers a request by runs, in an empty reply.
fn answer_by_runs<R: Threads + Wait + Sync, C: Client + Send, K: ChunkCache>(
    rt: &R,
    alloc: Global,
    config: &ReconstructionConfig,
    request: &Request,
    clients: &mut [C],
    cache: &mut K,
    reply: &mut Vec<u8>,
) -> Result<(), OutOfMemory>
    requires settings { refused_setting (any_setup config.now) (map C.told clients.old) ≡ None }
    requires empty { reply.old.items ≡ [] }
    requires short { position is_long request.now.ranges.items ≡ None }
    ensures { RequestCall config.now.tries (Some (asked request.now))
        (record { clients = map C.told clients.old; cache = K.told cache.old })
        (record { clients = map C.told clients.new; cache = K.told cache.new }) reply.new.items result }
{
    let ranges = request.ranges.as_slice();
    add_number_line(reply, "OK", ranges.len() as u64)?;
    match add_ranges(
        rt,
        alloc,
        config,
        request.file,
        ranges,
        clients,
        cache,
        reply,
    )? {
        Fetched::Whole => Ok(()),
        Fetched::Missing => answer_missing(reply),
        Fetched::Failed(number) => answer_failed(reply, number),
    }
}

// Answers a request, or a line that spells none, in an empty reply.
fn answer_request<R: Threads + Wait + Sync, C: Client + Send, K: ChunkCache>(
    rt: &R,
    alloc: Global,
    config: &ReconstructionConfig,
    request: &Option<Request>,
    clients: &mut [C],
    cache: &mut K,
    reply: &mut Vec<u8>,
) -> Result<(), OutOfMemory>
    requires settings { refused_setting (any_setup config.now) (map C.told clients.old) ≡ None }
    requires empty { reply.old.items ≡ [] }
    ensures { RequestCall config.now.tries (option_map asked request.now)
        (record { clients = map C.told clients.old; cache = K.told cache.old })
        (record { clients = map C.told clients.new; cache = K.told cache.new }) reply.new.items result }
{
    let Some(request) = request else {
        return add_line(reply, "BAD");
    };
    if let Some(index) = first_long(request.ranges.as_slice()) {
        return add_number_line(reply, "LONG", index as u64);
    }
    answer_by_runs(rt, alloc, config, request, clients, cache, reply)
}

/// Builds the answer to a line, in place of what the reply was.
pub(crate) fn answer_line<R: Threads + Wait + Sync, C: Client + Send, K: ChunkCache>(
    rt: &R,
    alloc: Global,
    config: &ReconstructionConfig,
    line: &[u8],
    clients: &mut [C],
    cache: &mut K,
    reply: &mut Vec<u8>,
) -> Result<(), OutOfMemory>
    requires { refused_setting (any_setup config.now) (map C.told clients.old) ≡ None }
    ensures { LineCall config.now.tries line.now
        (record { clients = map C.told clients.old; cache = K.told cache.old })
        (record { clients = map C.told clients.new; cache = K.told cache.new }) reply.new.items result }
{
    reply.clear();
    if is_quit(line) {
        return add_line(reply, "BYE");
    }
    let request = read_request(alloc, line)?;
    answer_request(rt, alloc, config, &request, clients, cache, reply)
}
