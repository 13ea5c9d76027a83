//! What is printed of a file that was filled.
ghost use Rattle.std.specs.Prelude.{◌≡◌, ◌∷◌, ◌++◌, IfOk, string_bytes};
ghost use Rattle.xet_room.specs.declared.status.Status.TheVariants.{Done, Short};
ghost use Rattle.xet_room.specs.Outcome.{Finished, IsFlushed, IsUnfailed, TellsFault};
ghost use Rattle.xet_room.specs.Texts.{ok_line, short_line};
ghost use Rattle.xet_resume_command.specs.steps.Printing.{OnePrinted, filled_text, last_lines};

use std::alloc::Global;
use xet_base::{OutOfMemory, Text};
use xet_resume::GapRecord;
use xet_room::{Status, finish, print_text, say, stopped};
use xet_store::{Sink, write_plainly};

// The line of so many bytes.
fn line_of_count(alloc: Global, count: u64) -> Result<String, OutOfMemory>
    ensures { IfOk result (λ text. string_bytes text ≡ ok_line count) }
{
    Ok(format!(in alloc; "ok {count}\n")?)
}

// The line of a part that has so many bytes.
fn line_of_short(alloc: Global, actual: u64) -> Result<String, OutOfMemory>
    ensures { IfOk result (λ text. string_bytes text ≡ short_line actual) }
{
    Ok(format!(in alloc; "error short {actual}\n")?)
}

// The text of a record, and how many bytes were fetched.
fn lines(alloc: Global, gaps: &GapRecord, count: u64) -> Result<Text, OutOfMemory>
    ensures { IfOk result (λ text. text ≡ last_lines gaps.now count) }
{
    let line = line_of_count(alloc, count)?;
    let mut text = gaps.to_text(alloc)?;
    text.push_str(line.as_str())?;
    Ok(text)
}

// Prints a text, a line end and last lines.
fn print_both<O: Sink>(text: &[u8], last: &[u8], out: &mut O) -> Status
    ensures text { Finished (text.now ++ 10 ∷ last.now) Done (O.told out.old) (O.told out.new) result }
    ensures flushed { IsFlushed result (O.told out.new) }
    ensures unfailed { IsUnfailed result (O.told out.old) (O.told out.new) }
    ensures short { TellsFault result (O.told out.old) (O.told out.new) }
{
    match write_plainly(out, text) {
        Ok(()) => finish(out, Status::Done, last),
        Err(error) => stopped(error),
    }
}

/// Prints the digits of a content, the text of a record, and how many bytes were fetched.
pub(crate) fn print_filled<O: Sink>(
    alloc: Global,
    content: &[u8],
    gaps: &GapRecord,
    count: u64,
    out: &mut O,
) -> Status
    ensures text { OnePrinted (filled_text content.now gaps.now count) Done
        (O.told out.old) (O.told out.new) result }
    ensures flushed { IsFlushed result (O.told out.new) }
    ensures unfailed { IsUnfailed result (O.told out.old) (O.told out.new) }
    ensures short { TellsFault result (O.told out.old) (O.told out.new) }
{
    let Ok(digits) = hex::encode(alloc, content) else {
        return say(out, Status::NoMemory);
    };
    match lines(alloc, gaps, count) {
        Ok(last) => print_both(digits.as_bytes(), last.as_str().as_bytes(), out),
        Err(_) => say(out, Status::NoMemory),
    }
}

/// Prints how many bytes a short part has.
pub(crate) fn print_short<O: Sink>(alloc: Global, actual: u64, out: &mut O) -> Status
    ensures text { OnePrinted (short_line actual) (Short actual) (O.told out.old) (O.told out.new) result }
    ensures flushed { IsFlushed result (O.told out.new) }
    ensures unfailed { IsUnfailed result (O.told out.old) (O.told out.new) }
    ensures short { TellsFault result (O.told out.old) (O.told out.new) }
{
    match line_of_short(alloc, actual) {
        Ok(line) => print_text(out, Status::Short(actual), line.as_bytes()),
        Err(_) => say(out, Status::NoMemory),
    }
}
