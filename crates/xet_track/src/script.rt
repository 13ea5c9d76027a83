//! Runs a script of calls.
ghost use Rattle.std.specs.Prelude.{◌≡◌, ◌++◌, [], IfOk, OnErr, OnOk, option_map, unwrap_or};
ghost use Rattle.xet_progress_state.specs.Replies.{StepOf, after, reply_of};
ghost use Rattle.xet_track.specs.Texts.{LineOf, PrintedPart, text_of_reply, track_reads, track_text};
ghost use Rattle.xet_track.specs.Turns.{TurnOf, reads_left, text_left};
ghost use Rattle.xet_track.specs.steps.Spelling.{call_of};

use crate::line::cut;
use crate::print::{add, add_bytes, add_reply};
use crate::read::{Spelled, read_line};
use std::alloc::Global;
use std::marker::Model;
use xet_base::OutOfMemory;
use xet_progress_state::{TrackerReply, TrackerState};

/// What the next line of a script did.
#[derive(Clone, Copy, PartialEq, Eq, Drop)]
pub enum Turn {
    /// It was a call, and its line was printed.
    Printed,
    /// It doesn't read, which was printed, and no line is left.
    Unread,
    /// There is no line left.
    Ended,
}

/// A script on its way: a tracker, the lines that are left, and the last line that was printed. Contracts see it as
/// the tracker's accepted calls and the text that is left.
#[derive(Drop)]
pub struct Script<'a> {
    state: TrackerState,
    rest: &'a [u8],
    printed: Vec<u8>,
}

impl<'a> Model for Script<'a> {
    ghost use Rattle.xet_track.specs.Turns.{ScriptLeft};

    ghost Value = { ScriptLeft };

    ghost view = { λ s. record { calls = s.state; rest = s.rest.now } };
}

/// Makes a call, and gives its reply.
fn make_call(
    alloc: Global,
    state: &mut TrackerState,
    call: &Spelled,
) -> Result<TrackerReply, OutOfMemory>
    ensures { StepOf state.old state.new (call_of call.now) result }
{
    match call {
        Spelled::Step(step) => state.step(alloc, step),
        Spelled::Dependency(dependency) => state.step_dependencies(alloc, &[*dependency]),
    }
}

/// Makes a call, and prints the line of its reply, whole or not at all.
fn print_call(
    alloc: Global,
    state: &mut TrackerState,
    call: &Spelled,
    printed: &mut Vec<u8>,
    out: &mut Vec<u8>,
) -> Result<(), OutOfMemory>
    ensures line { OnOk result (out.new.items
        ≡ out.old.items ++ text_of_reply (reply_of state.old (call_of call.now))) }
    ensures moved { OnOk result (state.new ≡ after state.old (call_of call.now)) }
    ensures memory { OnErr result (out.new.items ≡ out.old.items) }
{
    let reply = make_call(alloc, state, call)?;
    printed.clear();
    add_reply(printed, &reply)?;
    add_bytes(out, printed.as_slice())
}

/// Makes the call of a line, and prints the line for it, whole or not at all: false where it doesn't read.
fn make_line(
    alloc: Global,
    state: &mut TrackerState,
    line: &[u8],
    printed: &mut Vec<u8>,
    out: &mut Vec<u8>,
) -> Result<bool, OutOfMemory>
    ensures line { IfOk result (λ read. LineOf state.old state.new line.now out.old.items out.new.items read) }
    ensures memory { OnErr result (out.new.items ≡ out.old.items) }
{
    let Some(call) = read_line(line) else {
        add(out, "error script\n")?;
        return Ok(false);
    };
    print_call(alloc, state, &call, printed, out)?;
    Ok(true)
}

impl<'a> Script<'a> {
    /// A script at its beginning, on a new tracker. It takes no memory.
    pub fn new(alloc: Global, script: &'a [u8]) -> Script<'a>
        ensures { result ≡ record { calls = []; rest = script.now } }
    {
        Script {
            state: TrackerState::new(alloc),
            rest: script,
            printed: Vec::new(alloc),
        }
    }

    /// Makes the call of the next line, and adds the line that it prints to the text.
    ///
    /// `OutOfMemory` where an allocation was refused; then the text is as it was, and no line is left, since the call
    /// may have been made.
    pub fn step(&mut self, alloc: Global, out: &mut Vec<u8>) -> Result<Turn, OutOfMemory>
        ensures turn { IfOk result (TurnOf self.old self.new out.old.items out.new.items) }
        ensures memory { OnErr result ((self.new.rest ≡ []) × (out.new.items ≡ out.old.items)) }
    {
        let rest = self.rest;
        if rest.is_empty() {
            return Ok(Turn::Ended);
        }
        self.rest = &[];
        let (line, next) = cut(rest, b'\n');
        if !make_line(alloc, &mut self.state, line, &mut self.printed, out)? {
            return Ok(Turn::Unread);
        }
        self.rest = left(next);
        Ok(Turn::Printed)
    }
}

/// What is left, where something is.
fn left<'a>(rest: Option<&'a [u8]>) -> &'a [u8]
    ensures { result.now ≡ unwrap_or (option_map (λ r. r.now) rest.entry) [] }
{
    match rest {
        Some(rest) => rest,
        None => &[],
    }
}

/// Makes the calls that are left of a script, and prints a line for each, up to the first that doesn't read: false
/// where there is one.
fn run_rest(alloc: Global, run: &mut Script<'_>, out: &mut Vec<u8>) -> Result<bool, OutOfMemory>
    ensures text { OnOk result (out.new.items ≡ out.old.items ++ text_left run.old) }
    ensures reads { IfOk result (λ done. done ≡ reads_left run.old) }
    ensures memory { OnErr result (PrintedPart out.old.items out.new.items (text_left run.old)) }
{
    'lines: loop {
        match run.step(alloc, out)? {
            Turn::Printed => {}
            Turn::Unread => return Ok(false),
            Turn::Ended => return Ok(true),
        }
    }
}

/// Makes the calls of a script on a new tracker, and prints a line for each, up to the first that doesn't read: false
/// where there is one.
///
/// `OutOfMemory` where an allocation was refused; then a part of what it prints was added.
pub fn run_script(alloc: Global, script: &[u8], out: &mut Vec<u8>) -> Result<bool, OutOfMemory>
    ensures text { OnOk result (out.new.items ≡ out.old.items ++ track_text script.now) }
    ensures reads { IfOk result (λ done. done ≡ track_reads script.now) }
    ensures memory { OnErr result (PrintedPart out.old.items out.new.items (track_text script.now)) }
{
    let mut run = Script::new(alloc, script);
    run_rest(alloc, &mut run, out)
}
