//! Turns of a session: each reads more bytes, or answers one line.
ghost use Rattle.std.specs.Prelude.{◌≡◌, ◌≤◌, None, map};
ghost use Rattle.xet_serve_lines.specs.Lines.{session_limit};
ghost use Rattle.xet_serve_lines.specs.Reading.{HasNoLine};
ghost use Rattle.xet_ties.specs.Causes.{refused_setting};
ghost use Rattle.xet_serve.specs.Sessions.{any_setup};
ghost use Rattle.xet_serve.specs.steps.Turning.{IsAllFlushed, LastTurn, LineServed, LineTurn, OverTurn, TurnCall};

use crate::answer::answer_line;
use crate::serve_error::ServeError;
use std::alloc::Global;
use std::sync::Wait;
use std::thread::Threads;
use xet_outside::{ChunkCache, Client, Sink, Source, write_plainly};
use xet_serve_lines::{Cut, LineReader, is_quit};
use xet_terms::ReconstructionConfig;

/// What a turn did.
#[derive(Clone, Copy, PartialEq, Eq, Drop)]
pub(crate) enum Turn {
    /// More bytes were read.
    Read,
    /// A line was answered.
    Answered,
    /// The line that ends the session was answered.
    Quit,
    /// The input had ended, and so many lines were left, none or one, and answered.
    Last(u64),
}

// Answers a line: the answer is built as a whole, and then written.
fn serve_line<R: Threads + Wait + Sync, C: Client + Send, K: ChunkCache, O: Sink>(
    rt: &R,
    alloc: Global,
    config: &ReconstructionConfig,
    line: &[u8],
    clients: &mut [C],
    cache: &mut K,
    reply: &mut Vec<u8>,
    out: &mut O,
) -> Result<(), ServeError>
    requires { refused_setting (any_setup config.now) (map C.told clients.old) ≡ None }
    ensures { LineServed config.now.tries line.now (O.told out.old) (O.told out.new)
        (record { clients = map C.told clients.old; cache = K.told cache.old })
        (record { clients = map C.told clients.new; cache = K.told cache.new }) result }
{
    answer_line(rt, alloc, config, line, clients, cache, reply)?;
    write_plainly(out, reply.as_slice())?;
    Ok(())
}

// Answers the last line that was taken off.
fn line_turn<R: Threads + Wait + Sync, C: Client + Send, K: ChunkCache, O: Sink>(
    rt: &R,
    alloc: Global,
    config: &ReconstructionConfig,
    line: &[u8],
    clients: &mut [C],
    cache: &mut K,
    reply: &mut Vec<u8>,
    out: &mut O,
) -> Result<Turn, ServeError>
    requires { refused_setting (any_setup config.now) (map C.told clients.old) ≡ None }
    ensures { LineTurn config.now.tries line.now (O.told out.old) (O.told out.new)
        (record { clients = map C.told clients.old; cache = K.told cache.old })
        (record { clients = map C.told clients.new; cache = K.told cache.new }) result }
{
    serve_line(rt, alloc, config, line, clients, cache, reply, out)?;
    if !is_quit(line) {
        return Ok(Turn::Answered);
    }
    out.flush()?;
    Ok(Turn::Quit)
}

// Answers what is left of an input that has ended, where anything is.
fn last_turn<R: Threads + Wait + Sync, C: Client + Send, K: ChunkCache, O: Sink>(
    rt: &R,
    alloc: Global,
    config: &ReconstructionConfig,
    line: &[u8],
    clients: &mut [C],
    cache: &mut K,
    reply: &mut Vec<u8>,
    out: &mut O,
) -> Result<Turn, ServeError>
    requires settings { refused_setting (any_setup config.now) (map C.told clients.old) ≡ None }
    requires flushed { IsAllFlushed (O.told out.old) }
    ensures { LastTurn config.now.tries line.now (O.told out.old) (O.told out.new)
        (record { clients = map C.told clients.old; cache = K.told cache.old })
        (record { clients = map C.told clients.new; cache = K.told cache.new }) result }
{
    if line.is_empty() {
        return Ok(Turn::Last(0));
    }
    serve_line(rt, alloc, config, line, clients, cache, reply, out)?;
    out.flush()?;
    Ok(Turn::Last(1))
}

// Answers a line that is too long.
fn over_turn<O: Sink>(out: &mut O) -> Result<Turn, ServeError>
    ensures { OverTurn (O.told out.old) (O.told out.new) result }
{
    write_plainly(out, b"OVER\n")?;
    out.flush()?;
    Err(ServeError::LineTooLong)
}

// Flushes what was written, and reads more; at the input's end answers what is left.
fn read_turn<R: Threads + Wait + Sync, I: Source, C: Client + Send, K: ChunkCache, O: Sink>(
    rt: &R,
    alloc: Global,
    config: &ReconstructionConfig,
    lines: &mut LineReader,
    input: &mut I,
    clients: &mut [C],
    cache: &mut K,
    reply: &mut Vec<u8>,
    out: &mut O,
) -> Result<Turn, ServeError>
    requires settings { refused_setting (any_setup config.now) (map C.told clients.old) ≡ None }
    requires waiting { HasNoLine lines.old.pending }
    requires within { lines.old.read ≤ session_limit }
    ensures { TurnCall config.now.tries
        (record {
          source = I.told input.old;
          sink = O.told out.old;
          clients = map C.told clients.old;
          cache = K.told cache.old;
        })
        (record {
          source = I.told input.new;
          sink = O.told out.new;
          clients = map C.told clients.new;
          cache = K.told cache.new;
        }) lines.old lines.new result }
{
    out.flush()?;
    if lines.fill(input)? > 0 {
        return Ok(Turn::Read);
    }
    lines.take_rest();
    last_turn(rt, alloc, config, lines.line(), clients, cache, reply, out)
}

/// Answers the next line, where it was read to its end, or flushes what was written and reads more.
pub(crate) fn take_turn<
    R: Threads + Wait + Sync,
    I: Source,
    C: Client + Send,
    K: ChunkCache,
    O: Sink,
>(
    rt: &R,
    alloc: Global,
    config: &ReconstructionConfig,
    lines: &mut LineReader,
    input: &mut I,
    clients: &mut [C],
    cache: &mut K,
    reply: &mut Vec<u8>,
    out: &mut O,
) -> Result<Turn, ServeError>
    requires settings { refused_setting (any_setup config.now) (map C.told clients.old) ≡ None }
    requires within { lines.old.read ≤ session_limit }
    ensures { TurnCall config.now.tries
        (record {
          source = I.told input.old;
          sink = O.told out.old;
          clients = map C.told clients.old;
          cache = K.told cache.old;
        })
        (record {
          source = I.told input.new;
          sink = O.told out.new;
          clients = map C.told clients.new;
          cache = K.told cache.new;
        }) lines.old lines.new result }
{
    match lines.cut() {
        Cut::Line => line_turn(rt, alloc, config, lines.line(), clients, cache, reply, out),
        Cut::TooLong => over_turn(out),
        Cut::Short => read_turn(rt, alloc, config, lines, input, clients, cache, reply, out),
    }
}
