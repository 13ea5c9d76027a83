//! The command `audit`.
ghost use Rattle.std.specs.Prelude.{◌≡◌, ◌++◌, IfOk, List, length, string_bytes};
ghost use Rattle.xet_store.specs.Taps.{TapTold};
ghost use Rattle.xet_audit.specs.Raws.{store_of_raw};
ghost use Rattle.xet_room.specs.declared.status.Status.TheVariants.{Done, Faulty};
ghost use Rattle.xet_room.specs.Ends.{input_limit};
ghost use Rattle.xet_room.specs.Inputs.{InputOutcome, SomePrinted, TextPrinted};
ghost use Rattle.xet_room.specs.Outcome.{Finished, IsFlushed, IsReadUnfailed, IsUnfailed, TellsFault};
ghost use Rattle.xet_room.specs.Texts.{bad_line};
ghost use Rattle.xet_audit_command.specs.Audit.{AuditPrints, report_text};
ghost use Rattle.xet_audit_command.specs.steps.Printing.{ReportPrinted, StorePrints, counts_line};

use crate::report_lines::write_report;
use std::alloc::Global;
use std::mem::forget;
use xet_audit::{AuditReport, RawStore, raw_of_text};
use xet_base::OutOfMemory;
use xet_room::{Status, print_text, read_text, say, stopped};
use xet_store::{Sink, Source};

// The last line where nothing is wrong.
fn line_of_good(alloc: Global, raw: &RawStore) -> Result<String, OutOfMemory>
    ensures { IfOk result (λ text. string_bytes text ≡ counts_line raw.now) }
{
    let files = raw.files.len();
    let xorbs = raw.xorbs.len();
    Ok(format!(in alloc; "ok {files} {xorbs}\n")?)
}

// Prints a report and a last line.
fn print_report<O: Sink>(
    alloc: Global,
    report: &AuditReport,
    status: Status,
    last: &[u8],
    out: &mut O,
) -> Status
    ensures text { Finished (report_text report.now.findings report.now.spare ++ last.now) status
        (O.told out.old) (O.told out.new) result }
    ensures flushed { IsFlushed result (O.told out.new) }
    ensures unfailed { IsUnfailed result (O.told out.old) (O.told out.new) }
    ensures short { TellsFault result (O.told out.old) (O.told out.new) }
{
    match write_report(alloc, report, out) {
        Ok(()) => print_text(out, status, last),
        Err(error) => stopped(error),
    }
}

// Prints a report without a finding.
fn print_good<O: Sink>(alloc: Global, raw: &RawStore, report: &AuditReport, out: &mut O) -> Status
    ensures text { ReportPrinted report.now (counts_line raw.now) Done (O.told out.old) (O.told out.new) result }
    ensures flushed { IsFlushed result (O.told out.new) }
    ensures unfailed { IsUnfailed result (O.told out.old) (O.told out.new) }
    ensures short { TellsFault result (O.told out.old) (O.told out.new) }
{
    match line_of_good(alloc, raw) {
        Ok(last) => print_report(alloc, report, Status::Done, last.as_bytes(), out),
        Err(_) => say(out, Status::NoMemory),
    }
}

// Prints a report with so many findings.
fn print_bad<O: Sink>(alloc: Global, report: &AuditReport, count: u64, out: &mut O) -> Status
    ensures text { ReportPrinted report.now (bad_line count) (Faulty count) (O.told out.old) (O.told out.new) result }
    ensures flushed { IsFlushed result (O.told out.new) }
    ensures unfailed { IsUnfailed result (O.told out.old) (O.told out.new) }
    ensures short { TellsFault result (O.told out.old) (O.told out.new) }
{
    match format!(in alloc; "bad {count}\n") {
        Ok(last) => print_report(alloc, report, Status::Faulty(count), last.as_bytes(), out),
        Err(_) => say(out, Status::NoMemory),
    }
}

// Prints what an audit finds in a store.
fn print_store<O: Sink>(alloc: Global, hashes: bool, raw: &RawStore, out: &mut O) -> Status
    ensures printed { SomePrinted (StorePrints hashes (store_of_raw raw.now))
        (O.told out.old) (O.told out.new) result }
    ensures flushed { IsFlushed result (O.told out.new) }
    ensures unfailed { IsUnfailed result (O.told out.old) (O.told out.new) }
    ensures short { TellsFault result (O.told out.old) (O.told out.new) }
{
    let Ok(report) = xet_audit::audit(alloc, raw, hashes) else {
        return say(out, Status::NoMemory);
    };
    let count = report.findings.len() as u64;
    if count == 0 {
        print_good(alloc, raw, &report, out)
    } else {
        print_bad(alloc, &report, count, out)
    }
}

// Prints what an audit finds in the store that a text lists.
fn print<O: Sink>(alloc: Global, hashes: bool, text: Vec<u8>, out: &mut O) -> Status
    ensures printed { TextPrinted (AuditPrints hashes) text.items (O.told out.old) (O.told out.new) result }
    ensures flushed { IsFlushed result (O.told out.new) }
    ensures unfailed { IsUnfailed result (O.told out.old) (O.told out.new) }
    ensures short { TellsFault result (O.told out.old) (O.told out.new) }
{
    match raw_of_text(alloc, text) {
        Ok(Some(raw)) => {
            let status = print_store(alloc, hashes, &raw, out);
            // The process ends after a command and gives its memory back as a whole, which takes less time.
            forget(raw);
            status
        }
        Ok(None) => say(out, Status::BadStore),
        Err(_) => say(out, Status::NoMemory),
    }
}

/// Reads the input to its end, and prints what is wrong with the store that it lists, valid or not: a line for each
/// finding, a line for each xorb that no file names, and a last line. With `hashes` the hashes of xorbs and files are
/// computed too, which takes as long as the files have chunks. No tap is asked.
pub fn audit<I: Source, O: Sink>(alloc: Global, hashes: bool, input: &mut I, out: &mut O) -> Status
    ensures outcome { (taps : List TapTold) → InputOutcome (AuditPrints hashes) input_limit
        (record { source = I.told input.old; sink = O.told out.old; taps = taps })
        (record { source = I.told input.new; sink = O.told out.new; taps = taps }) result }
    ensures flushed { IsFlushed result (O.told out.new) }
    ensures unfailed { IsUnfailed result (O.told out.old) (O.told out.new) }
    ensures short { TellsFault result (O.told out.old) (O.told out.new) }
    ensures read { IsReadUnfailed result (I.told input.old) (I.told input.new) }
{
    match read_text(alloc, input, out) {
        Ok(text) => print(alloc, hashes, text, out),
        Err(status) => status,
    }
}
