//! The commands: the words of each, and what it does. Each has a crate of its own below.
ghost use Rattle.std.specs.Prelude.{◌≡◌, IfSome, length, map, string_bytes};
ghost use Rattle.xet_room.specs.Ends.{input_limit};
ghost use Rattle.xet_room.specs.Outcome.{IsFlushed, IsReadUnfailed, IsUnfailed};
ghost use Rattle.xet_commands.specs.Commands.{IsWithinSize, Outcome, command_of, command_of_one, command_with};
ghost use Rattle.xet_commands.specs.Commands.{document_command_of_one, last_command_with};
ghost use Rattle.xet_commands.specs.Commands.{mirror_named, other_command_with, serve_named};

use crate::texts::{HELP, VERSION};
use std::alloc::Global;
use std::sync::Wait;
use std::thread::Threads;
use xet_audit_command::{audit, read_hashes};
use xet_bench_command::{BenchWanted, bench, read_bench};
use xet_compact_command::compact;
use xet_get_command::{Options, Wanted, get, read_wanted};
use xet_mirror_command::{mirror, read_verify};
use xet_resume_command::{ResumeWanted, read_resume, resume};
use xet_room::{Status, print_text, say};
use xet_roundtrip_command::{read_size, roundtrip};
use xet_serve_command::{read_serve, serve};
use xet_store::{Sink, Source, Tap};
use xet_track_command::track;

/// What the words ask for.
#[derive(Clone, Copy, PartialEq, Eq)]
pub enum Command {
    /// `--help`
    Help,
    /// `--version`
    Version,
    /// `get` with its words.
    Get(Wanted),
    /// `bench` with its words.
    Bench(BenchWanted),
    /// `roundtrip` of so many bytes, 1,000,000 at most.
    Roundtrip(u32),
    /// `track`
    Track,
    /// `audit`, and whether with `hashes`.
    Audit(bool),
    /// `compact`
    Compact,
    /// `mirror`, and whether with `verify`.
    Mirror(bool),
    /// `resume` with its words.
    Resume(ResumeWanted),
    /// `serve` with its options.
    Serve(Options),
}

// The command of one word.
fn read_one(word: &str) -> Option<Command>
    ensures command { result ≡ command_of_one word.now }
    ensures within { IfSome result IsWithinSize }
{
    match word {
        "--help" => Some(Command::Help),
        "--version" => Some(Command::Version),
        "track" => Some(Command::Track),
        _ => read_one_more(word),
    }
}

// The command of one word, of those over a store's document.
fn read_one_more(word: &str) -> Option<Command>
    ensures command { result ≡ document_command_of_one word.now }
    ensures within { IfSome result IsWithinSize }
{
    match word {
        "audit" => Some(Command::Audit(false)),
        "compact" => Some(Command::Compact),
        "mirror" => Some(Command::Mirror(false)),
        "serve" => {
            let options = read_serve(&[])?;
            Some(Command::Serve(options))
        }
        _ => None,
    }
}

// The command of this name, with the words after it, of those that are neither `get` nor `bench`.
fn read_more(name: &str, words: &[String]) -> Option<Command>
    ensures command { result ≡ other_command_with name.now (map string_bytes words.now) }
    ensures within { IfSome result IsWithinSize }
{
    match name {
        "roundtrip" => {
            let size = read_size(words)?;
            Some(Command::Roundtrip(size))
        }
        "audit" => {
            let hashes = read_hashes(words)?;
            Some(Command::Audit(hashes))
        }
        _ => read_last(name, words),
    }
}

// The command of this name, with the words after it, if it is `mirror`.
fn read_copies(name: &str, words: &[String]) -> Option<Command>
    ensures command { result ≡ mirror_named name.now (map string_bytes words.now) }
    ensures within { IfSome result IsWithinSize }
{
    match name {
        "mirror" => {
            let verify = read_verify(words)?;
            Some(Command::Mirror(verify))
        }
        _ => None,
    }
}

// The command of this name, with the words after it, if it is `serve` or `mirror`.
fn read_session(name: &str, words: &[String]) -> Option<Command>
    ensures command { result ≡ serve_named name.now (map string_bytes words.now) }
    ensures within { IfSome result IsWithinSize }
{
    match name {
        "serve" => {
            let options = read_serve(words)?;
            Some(Command::Serve(options))
        }
        _ => read_copies(name, words),
    }
}

// The command of this name, with the words after it, of those that fetch or serve ranges.
fn read_last(name: &str, words: &[String]) -> Option<Command>
    ensures command { result ≡ last_command_with name.now (map string_bytes words.now) }
    ensures within { IfSome result IsWithinSize }
{
    match name {
        "resume" => {
            let wanted = read_resume(words)?;
            Some(Command::Resume(wanted))
        }
        _ => read_session(name, words),
    }
}

// The command of this name, with the words after it.
fn read_with(name: &str, words: &[String]) -> Option<Command>
    ensures command { result ≡ command_with name.now (map string_bytes words.now) }
    ensures within { IfSome result IsWithinSize }
{
    match name {
        "get" => {
            let wanted = read_wanted(words)?;
            Some(Command::Get(wanted))
        }
        "bench" => {
            let wanted = read_bench(words)?;
            Some(Command::Bench(wanted))
        }
        _ => read_more(name, words),
    }
}

/// The command that the words spell, or none where they don't read.
pub fn read_words(words: &[String]) -> Option<Command>
    ensures command { result ≡ command_of (map string_bytes words.now) }
    ensures within { IfSome result IsWithinSize }
{
    match words {
        [] => None,
        [word] => read_one(word.as_str()),
        [name, words @ ..] => read_with(name.as_str(), words),
    }
}

/// Does what the words ask for.
pub fn run_words<R: Threads + Wait + Sync, I: Source, O: Sink, T: Tap + Send>(
    rt: &R,
    alloc: Global,
    words: &[String],
    input: &mut I,
    out: &mut O,
    taps: &mut Vec<T>,
) -> Status
    requires { length taps.old.items ≡ 64 }
    ensures outcome { Outcome input_limit (command_of (map string_bytes words.now))
        (record { source = I.told input.old; sink = O.told out.old; taps = map T.told taps.old.items })
        (record { source = I.told input.new; sink = O.told out.new; taps = map T.told taps.new.items }) result }
    ensures flushed { IsFlushed result (O.told out.new) }
    ensures unfailed { IsUnfailed result (O.told out.old) (O.told out.new) }
    ensures read { IsReadUnfailed result (I.told input.old) (I.told input.new) }
{
    match read_words(words) {
        Some(Command::Get(wanted)) => get(rt, alloc, wanted, input, out, taps),
        Some(Command::Track) => track(alloc, input, out),
        Some(Command::Audit(hashes)) => audit(alloc, hashes, input, out),
        Some(Command::Compact) => compact(alloc, input, out),
        Some(Command::Mirror(verify)) => mirror(alloc, verify, input, out),
        Some(Command::Resume(wanted)) => resume(rt, alloc, wanted, input, out),
        Some(Command::Serve(options)) => serve(rt, alloc, options, input, out),
        Some(Command::Bench(wanted)) => bench(rt, alloc, wanted, out),
        Some(Command::Roundtrip(size)) => roundtrip(rt, alloc, size, out),
        Some(Command::Help) => print_text(out, Status::Done, HELP),
        Some(Command::Version) => print_text(out, Status::Done, VERSION),
        None => say(out, Status::BadWords),
    }
}
