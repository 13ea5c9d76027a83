//! What is printed of a run.
ghost use Rattle.std.specs.Prelude.{◌≡◌, IfOk, string_bytes};
ghost use Rattle.xet_room.specs.declared.status.Status.TheVariants.{BadHash, Done, NoSource};
ghost use Rattle.xet_room.specs.Outcome.{IsFlushed, IsUnfailed, TellsFault};
ghost use Rattle.xet_room.specs.Texts.{hash_line};
ghost use Rattle.xet_mirror_command.specs.Mirror.{bytes_line, files_line, missing_line, xorbs_line};
ghost use Rattle.xet_mirror_command.specs.steps.Printing.{OnePrinted, text_of_report};

use std::alloc::Global;
use xet_base::{MerkleHash, OutOfMemory};
use xet_mirror::MirrorReport;
use xet_room::{Status, print_text, say};
use xet_store::Sink;

// The line of how many files were copied and present.
fn line_of_files(alloc: Global, copied: u64, present: u64) -> Result<String, OutOfMemory>
    ensures { IfOk result (λ text. string_bytes text ≡ files_line copied present) }
{
    Ok(format!(in alloc; "files {copied} {present}\n")?)
}

// The line of how many xorbs were sent and held.
fn line_of_xorbs(alloc: Global, sent: u64, held: u64) -> Result<String, OutOfMemory>
    ensures { IfOk result (λ text. string_bytes text ≡ xorbs_line sent held) }
{
    Ok(format!(in alloc; "xorbs {sent} {held}\n")?)
}

// The line of how many bytes were sent.
fn line_of_bytes(alloc: Global, bytes: u64) -> Result<String, OutOfMemory>
    ensures { IfOk result (λ text. string_bytes text ≡ bytes_line bytes) }
{
    Ok(format!(in alloc; "bytes {bytes}\n")?)
}

// The lines of a report.
fn lines_of(alloc: Global, report: &MirrorReport) -> Result<String, OutOfMemory>
    ensures { IfOk result (λ text. string_bytes text ≡ text_of_report report.now) }
{
    let files = line_of_files(alloc, report.files_copied, report.files_present)?;
    let xorbs = line_of_xorbs(alloc, report.xorbs_sent, report.xorbs_present)?;
    let bytes = line_of_bytes(alloc, report.bytes_sent)?;
    Ok(format!(in alloc; "{files}{xorbs}{bytes}ok\n")?)
}

// The line of a file that neither store has.
fn line_of_missing(alloc: Global, hash: &MerkleHash) -> Result<String, OutOfMemory>
    ensures { IfOk result (λ text. string_bytes text ≡ missing_line hash.now.0) }
{
    let digits = hex::encode(alloc, hash.0.as_slice())?;
    Ok(format!(in alloc; "missing {digits}\n")?)
}

// The line of a xorb whose hash isn't that of its chunks.
fn line_of_misnamed(alloc: Global, hash: &MerkleHash) -> Result<String, OutOfMemory>
    ensures { IfOk result (λ text. string_bytes text ≡ hash_line hash.now.0) }
{
    let digits = hex::encode(alloc, hash.0.as_slice())?;
    Ok(format!(in alloc; "error hash {digits}\n")?)
}

/// Prints a report.
pub(crate) fn print_report<O: Sink>(alloc: Global, report: &MirrorReport, out: &mut O) -> Status
    ensures text { OnePrinted (text_of_report report.now) Done (O.told out.old) (O.told out.new) result }
    ensures flushed { IsFlushed result (O.told out.new) }
    ensures unfailed { IsUnfailed result (O.told out.old) (O.told out.new) }
    ensures short { TellsFault result (O.told out.old) (O.told out.new) }
{
    match lines_of(alloc, report) {
        Ok(lines) => print_text(out, Status::Done, lines.as_bytes()),
        Err(_) => say(out, Status::NoMemory),
    }
}

/// Prints the line of a file that neither store has.
pub(crate) fn print_missing<O: Sink>(alloc: Global, hash: &MerkleHash, out: &mut O) -> Status
    ensures text { OnePrinted (missing_line hash.now.0) NoSource (O.told out.old) (O.told out.new) result }
    ensures flushed { IsFlushed result (O.told out.new) }
    ensures unfailed { IsUnfailed result (O.told out.old) (O.told out.new) }
    ensures short { TellsFault result (O.told out.old) (O.told out.new) }
{
    match line_of_missing(alloc, hash) {
        Ok(line) => print_text(out, Status::NoSource, line.as_bytes()),
        Err(_) => say(out, Status::NoMemory),
    }
}

/// Prints the line of a xorb whose hash isn't that of its chunks.
pub(crate) fn print_misnamed<O: Sink>(alloc: Global, hash: &MerkleHash, out: &mut O) -> Status
    ensures text { OnePrinted (hash_line hash.now.0) BadHash (O.told out.old) (O.told out.new) result }
    ensures flushed { IsFlushed result (O.told out.new) }
    ensures unfailed { IsUnfailed result (O.told out.old) (O.told out.new) }
    ensures short { TellsFault result (O.told out.old) (O.told out.new) }
{
    match line_of_misnamed(alloc, hash) {
        Ok(line) => print_text(out, Status::BadHash, line.as_bytes()),
        Err(_) => say(out, Status::NoMemory),
    }
}
