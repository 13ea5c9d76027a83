//! Sessions of range requests.
ghost use Rattle.std.specs.Prelude.{◌≡◌, [], None, map};
ghost use Rattle.xet_ties.specs.Causes.{refused_setting};
ghost use Rattle.xet_serve.specs.Sessions.{SessionCall, any_setup};

use crate::serve_error::ServeError;
use crate::turn::{Turn, take_turn};
use std::alloc::Global;
use std::sync::Wait;
use std::thread::Threads;
use xet_outside::{ChunkCache, Client, Sink, Source};
use xet_serve_lines::LineReader;
use xet_terms::ReconstructionConfig;

// Serves the lines of a reader that has read nothing.
fn serve_lines<R: Threads + Wait + Sync, I: Source, O: Sink, C: Client + Send, K: ChunkCache>(
    rt: &R,
    alloc: Global,
    lines: &mut LineReader,
    input: &mut I,
    out: &mut O,
    clients: &mut [C],
    cache: &mut K,
    config: &ReconstructionConfig,
) -> Result<u64, ServeError>
    requires settings { refused_setting (any_setup config.now) (map C.told clients.old) ≡ None }
    requires new { lines.old ≡ record { line = []; pending = []; read = 0 } }
    ensures { SessionCall (any_setup config.now)
        (record {
          source = I.told input.old;
          sink = O.told out.old;
          clients = map C.told clients.old;
          cache = K.told cache.old;
        })
        (record {
          source = I.told input.new;
          sink = O.told out.new;
          clients = map C.told clients.new;
          cache = K.told cache.new;
        }) result }
{
    let mut reply = Vec::new(alloc);
    let mut count = 0u64;
    'turns: loop {
        match take_turn(
            rt, alloc, config, lines, input, clients, cache, &mut reply, out,
        )? {
            Turn::Read => {}
            Turn::Answered => count += 1,
            Turn::Quit => return Ok(count + 1),
            Turn::Last(last) => return Ok(count + last),
        }
    }
}

/// Answers the lines of a source, each by its reply, up to its end or to `QUIT`, and answers how many they were. A line
/// has a line end, which the last may lack. The replies, each with a line end:
///
/// - `BYE` to `QUIT`, which ends the session.
/// - `OK` and the number of ranges to `GET HASH RANGES`; then of each range, in order, where it starts and how many
///   bytes it has, and the bytes and a line end. HASH is 64 hexadecimal digits; RANGES are 1 to 16 ranges `START-END`
///   with a comma between, half open and in bytes, by decimals of at most `u64::MAX`; words have one space between.
/// - `LONG` and the number of the first range, from 0, whose end minus start passes 1,048,576.
/// - `NONE` where a range with bytes is of a file that isn't stored.
/// - `FAIL 2` where a connection failed, and `FAIL 4` where a URL expired as often as a block is tried. Over
///   connections that don't tell one valid store also `FAIL` and the number of another error of a run.
/// - `BAD` to any other line.
///
/// A reply is built as a whole before its first byte is written, and what was written is flushed before each read and
/// at the end. No reply is cut but by a failed write.
///
/// - `ConfigurationError` where a setting of the runs fails, before all else.
/// - `LineTooLong` where 1,025 bytes of a line have no line end, after the reply `OVER`.
/// - `InputLimit` where more than 67,108,864 bytes were read.
/// - `ReadFault` where the source's faults rose, `WriteFault` where the sink's faults rose.
/// - `OutOfMemory` where an allocation was refused.
///
/// It has no source in the Rust crates.
pub fn serve_session<R, I, O, C, K>(
    rt: &R,
    alloc: Global,
    input: &mut I,
    out: &mut O,
    clients: &mut [C],
    cache: &mut K,
    config: &ReconstructionConfig,
) -> Result<u64, ServeError>
where
    R: Threads + Wait + Sync,
    I: Source,
    O: Sink,
    C: Client + Send,
    K: ChunkCache,
    ensures { SessionCall (any_setup config.now)
        (record {
          source = I.told input.old;
          sink = O.told out.old;
          clients = map C.told clients.old;
          cache = K.told cache.old;
        })
        (record {
          source = I.told input.new;
          sink = O.told out.new;
          clients = map C.told clients.new;
          cache = K.told cache.new;
        }) result }
{
    if let Some(setting) = config.failing_setting(clients.len()) {
        return Err(ServeError::ConfigurationError(setting));
    }
    let mut lines = LineReader::new(alloc)?;
    serve_lines(rt, alloc, &mut lines, input, out, clients, cache, config)
}
